//! Whether a trace satisfies an AIR beside the preprocessed trace that the AIR declares.
ghost use Rattle.std.specs.Prelude.{◌≡◌, ◌*◌, ◌^◌, ◌<◌, ℕ, IfOk, length};
ghost use Rattle.stark_protocol.specs.Preprocessing.{HasHeight};
ghost use Rattle.stark_completeness.specs.RowCheck.{IfViolation, trace_of};

use crate::check::check_constraints;
use crate::findings::RowChecks;
use crate::height::log_height_of;
use crate::violation::ConstraintCheckError;
use stark_air::{Air, BaseAir};
use stark_support::{RowMajorMatrix, TwoAdicField};
use std::alloc::Global;

/// `check_constraints` beside the preprocessed trace that the AIR declares, which has as many rows.
/// Of a trace that has more rows than the field's greatest domain has points nothing is said: it is
/// Ok, and there is no proof of it.
pub fn check_declared<F: TwoAdicField, A: Air<F>>(
    alloc: Global,
    air: &A,
    trace: &RowMajorMatrix<F>,
    public_values: &[F],
) -> Result<(), ConstraintCheckError<F>>
    requires columns { 0 < trace.now.width }
    requires width { trace.now.width ≡ (A.layout air.now).main }
    requires height { (height : ℕ) × (length trace.now.values.items ≡ 2 ^ height * trace.now.width)
        × HasHeight height (A.preprocessed_trace air.now) }
    requires public_values { length public_values.now ≡ (A.layout air.now).public_values }
    ensures satisfied { IfOk result (λ _. ⟦<A as RowChecks<F>>⟧.is_satisfied air.now
        (trace_of trace.now) (A.preprocessed_trace air.now) public_values.now) }
    ensures broken { IfViolation result (⟦<A as RowChecks<F>>⟧.is_first_violation air.now
        (trace_of trace.now) (A.preprocessed_trace air.now) public_values.now) }
{
    if log_height_of(trace) > F::TWO_ADICITY {
        return Ok(());
    }
    let declared = air.preprocessed_trace(alloc)?;
    check_constraints(alloc, air, trace, declared.as_ref(), public_values)
}
