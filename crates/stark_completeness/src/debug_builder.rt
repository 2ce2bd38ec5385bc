//! The builder that evaluates an AIR's constraints in one row of a trace.
ghost use Rattle.std.specs.Prelude.{◌≡◌, IfOk};
ghost use Rattle.std.proofs.Common.{sym, subst};
ghost use Rattle.stark_support.specs.Operations.{exact_binary};
ghost use Rattle.stark_air.specs.Layout.{Covers};
ghost use Rattle.stark_completeness.specs.DebugBuilder.{after_debugging, debug_environment, debug_layout, debugging_laws, row_layout, values_over};

use crate::row_value::RowValue;
use stark_air::{Air, BaseAirBuilder, ExtensionBuilder, RowWindow};
use stark_support::Field;
use std::alloc::AllocError;

/// What an AIR's constraints read in one row of a trace.
#[derive(Clone, Copy, Debug)]
pub struct RowLeaves<'a, F> {
    /// The row, and the one after it.
    pub main_current: &'a [F],
    pub main_next: &'a [F],
    /// The preprocessed columns' two rows, empty without such columns.
    pub preprocessed_current: &'a [F],
    pub preprocessed_next: &'a [F],
    pub public_values: &'a [F],
    pub periodic_values: &'a [F],
    /// The selectors' values, as they are on the trace's domain: none is normalised.
    pub is_first_row: F,
    pub is_last_row: F,
    pub is_transition: F,
}

/// Evaluates an AIR's constraints in one row, and keeps their values in the order of assertion.
/// Constraints over the extension read elements of the base field too, so that they are evaluated
/// in it.
#[derive(Drop)]
pub struct DebugConstraintBuilder<'a, F> {
    pub row: RowLeaves<'a, F>,
    pub values: Vec<RowValue<F>>,
}

impl<'a, F: Field> BaseAirBuilder for DebugConstraintBuilder<'a, F> {
    type F = F;

    type Expr = RowValue<F>;

    type Var = F;

    type PublicVar = F;

    type PeriodicVar = F;

    type MainWindow = RowWindow<'a, F>;

    type PreprocessedWindow = RowWindow<'a, F>;

    ghost environment = { debug_environment F.ring };

    ghost layout = { debug_layout };

    ghost keeps = { λ s t. t.row ≡ s.row };

    /// To keep a value takes memory.
    ghost may_refuse = { Unit {0} };

    ghost after = { after_debugging F.ring };

    ghost emission_laws = { debugging_laws F.ring };

    fn main(&self) -> Result<RowWindow<'a, F>, AllocError> {
        Ok(RowWindow::from_two_rows(self.row.main_current, self.row.main_next))
    }

    fn preprocessed(&self) -> Result<RowWindow<'a, F>, AllocError> {
        Ok(RowWindow::from_two_rows(self.row.preprocessed_current, self.row.preprocessed_next))
    }

    fn is_first_row(&self) -> RowValue<F> {
        RowValue::from(self.row.is_first_row)
    }

    fn is_last_row(&self) -> RowValue<F> {
        RowValue::from(self.row.is_last_row)
    }

    fn is_transition(&self) -> RowValue<F> {
        RowValue::from(self.row.is_transition)
    }

    fn public_values(&self) -> &[F] {
        self.row.public_values
    }

    fn periodic_values(&self) -> &[F] {
        self.row.periodic_values
    }

    fn assert_zero(&mut self, x: RowValue<F>) -> Result<(), AllocError> {
        self.values.push(x)?;
        Ok(())
    }
}

impl<'a, F: Field> ExtensionBuilder for DebugConstraintBuilder<'a, F> {
    type EF = F;

    type ExprEF = RowValue<F>;

    ghost stands_above = { λ v x. x ≡ v };

    ghost may_multiply = { λ x y. tt };

    ghost from_stands = { λ x y v same p. subst (λ z. z ≡ v) (sym same) p };

    ghost times_above = { λ v w x y z h p q. exact_binary F.ring.mul x y z v w h p q };

    fn assert_zero_ext(&mut self, x: RowValue<F>) -> Result<(), AllocError> {
        self.values.push(x)?;
        Ok(())
    }
}

/// The values of an AIR's constraints in a row, in the order in which it asserts them; `values`
/// lends its room. Err only where memory was refused.
pub fn values_in_row<F: Field, A: Air<F>>(
    air: &A,
    row: RowLeaves<'_, F>,
    values: Vec<RowValue<F>>,
) -> Result<Vec<RowValue<F>>, AllocError>
    requires { Covers (row_layout row) (A.layout air.now) }
    ensures { IfOk result (λ made.
        made.items ≡ values_over F.ring row.entry (A.constraints air.now)) }
{
    let mut values = values;
    values.clear();
    let mut builder = DebugConstraintBuilder { row, values };
    air.eval(&mut builder)?;
    Ok(builder.values)
}
