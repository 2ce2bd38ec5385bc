//! The values of an AIR's constraints in each row of a trace.
ghost use Rattle.std.specs.Prelude.{◌≡◌, ◌*◌, ◌^◌, ◌<◌, ◌++◌, ℕ, IfOk, OnOk, length};
ghost use Rattle.stark_completeness.specs.CheckedRows.{FitsLayout, checked_air, checked_rows, checked_values};
ghost use Rattle.stark_completeness.specs.RowCheck.{trace_in, trace_of};
ghost use Rattle.stark_completeness.specs.RowSelectors.{AreSelectorsIn};
ghost use Rattle.stark_completeness.specs.RowValues.{AreRowValues};

use crate::check::{CheckedTrace, checked_trace, periodic_entries, values_of};
use crate::findings::RowChecks;
use crate::row_selectors::{DomainSelectors, RowSelectors};
use crate::row_value::RowValue;
use stark_air::Air;
use stark_protocol::power_of_two;
use stark_support::{Field, RowMajorMatrix, TwoAdicField};
use std::alloc::{AllocError, Global};

/// Appends the elements of values. It is Err only where memory was refused.
fn append_values<F: Field>(all: &mut Vec<F>, values: &[RowValue<F>]) -> Result<(), AllocError>
    ensures { OnOk result (all.new.items ≡ all.old.items ++ values.now) }
{
    for value in values {
        all.push(value.value())?;
    }
    Ok(())
}

/// Appends the constraints' values in a row. It is Err only where memory was refused.
fn push_row<F: TwoAdicField, A: Air<F>>(
    alloc: Global,
    air: &A,
    trace: &CheckedTrace<'_, F>,
    selectors: RowSelectors<F>,
    row: usize,
    all: &mut Vec<F>,
) -> Result<(), AllocError>
    requires fits { FitsLayout (A.layout air.now) F.TWO_ADICITY trace.now }
    requires row { row < 2 ^ trace.now.log_height }
    requires selectors { AreSelectorsIn F.ring F.inverse_of (F.root trace.now.log_height)
        trace.now.log_height row selectors }
    ensures { OnOk result (all.new.items ≡ all.old.items ++ checked_values F.ring F.inverse_of
        F.root (A.constraints air.now) trace.now row) }
{
    let periodic_values = periodic_entries(trace.periodic_columns, row, Vec::new(alloc))?;
    let room = Vec::new(alloc);
    let values = values_of(air, trace, selectors, row, &periodic_values, room)?;
    append_values(all, &values)
}

/// The constraints' values in each row, one row after the other.
fn values_in_rows<F: TwoAdicField, A: Air<F>>(
    alloc: Global,
    air: &A,
    trace: &CheckedTrace<'_, F>,
) -> Result<Vec<F>, AllocError>
    requires fits { FitsLayout (A.layout air.now) F.TWO_ADICITY trace.now }
    requires size { F.TWO_ADICITY < 64 }
    ensures { IfOk result (λ all. AreRowValues
        (checked_air F.ring F.inverse_of F.root (A.constraints air.now) trace.now)
        (checked_rows trace.now) all.items) }
{
    let height = power_of_two(trace.log_height);
    let selectors = DomainSelectors::new(trace.log_height, height);
    let mut all = Vec::new(alloc);
    let mut point = F::ONE;
    for row in 0..height {
        let selectors_there = selectors.in_row(trace.log_height, row, point);
        push_row(alloc, air, trace, selectors_there, row, &mut all)?;
        point = selectors.generator * point;
    }
    Ok(all)
}

/// The values of an AIR's constraints in each row of a trace, beside the row after it, round the
/// end: those of the first row in the constraints' order, then those of the next. The trace
/// satisfies the AIR exactly where all of them are zero.
///
/// The conditions are those of `check_constraints`. Err only where memory was refused.
pub fn constraint_values<'a, F: TwoAdicField, A: Air<F>>(
    alloc: Global,
    air: &'a A,
    trace: &'a RowMajorMatrix<F>,
    preprocessed: Option<&'a RowMajorMatrix<F>>,
    public_values: &'a [F],
) -> Result<Vec<F>, AllocError>
    requires columns { 0 < trace.now.width }
    requires rows { (log_height : ℕ) × ⟦<A as RowChecks<F>>⟧.is_laid_out air.now log_height
        (trace_of trace.now) (trace_in preprocessed) public_values.now }
    ensures { IfOk result (λ all. ⟦<A as RowChecks<F>>⟧.are_row_values air.now
        (trace_of trace.now) (trace_in preprocessed.entry) public_values.now all.items) }
{
    let checked = checked_trace(air, trace, preprocessed, public_values);
    values_in_rows(alloc, air, &checked)
}
