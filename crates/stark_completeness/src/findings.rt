//! What a check of a trace's rows finds.
ghost use Rattle.std.specs.Prelude.{ℕ, List, Option};
ghost use Rattle.stark_air.specs.Declaration.{Trace};
ghost use Rattle.stark_completeness.specs.RowCheck.{AreLaidOut, IsFirstOfTrace, IsSatisfiedByTrace};
ghost use Rattle.stark_completeness.specs.RowValues.{AreValuesOfTrace};
ghost use Rattle.stark_completeness.specs.declared.violation.ConstraintViolation.{ConstraintViolation};

use stark_air::Air;
use stark_support::TwoAdicField;

/// What a check finds of an AIR: of a trace, beside a preprocessed one where there is one, and
/// public values. It has no code.
pub trait RowChecks<F: TwoAdicField>: Air<F> {
    /// The traces have `2^log_height` rows, of the AIR's widths, and the field has as many roots
    /// of one; there are as many public values as the AIR has.
    ghost is_laid_out: { Self → ℕ → Trace F → Option (Trace F) → List F → Type 0 };

    /// Each constraint is zero in each row, beside the row after it, round the end.
    ghost is_satisfied: { Self → Trace F → Option (Trace F) → List F → Type 0 };

    /// It is the first row that breaks a constraint, and in it the first constraint.
    ghost is_first_violation: { Self → Trace F → Option (Trace F) → List F
        → ConstraintViolation F → Type 0 };

    /// They are the constraints' values in each row, one row after the other.
    ghost are_row_values: { Self → Trace F → Option (Trace F) → List F → List F → Type 0 };
}

impl<F: TwoAdicField, A: Air<F>> RowChecks<F> for A {
    ghost is_laid_out = { λ air. AreLaidOut (A.layout air) F.TWO_ADICITY };

    ghost is_satisfied = { λ air. IsSatisfiedByTrace F.ring F.inverse_of F.root F.TWO_ADICITY
        (A.constraints air) (A.periodic_columns air) };

    ghost is_first_violation = { λ air. IsFirstOfTrace F.ring F.inverse_of F.root F.TWO_ADICITY
        (A.constraints air) (A.periodic_columns air) };

    ghost are_row_values = { λ air. AreValuesOfTrace F.ring F.inverse_of F.root
        (A.constraints air) (A.periodic_columns air) };
}
