//! The entries of a trace's rows.
ghost use Rattle.std.specs.Prelude.{◌≡◌, ◌<◌, ◌++◌, IfOk, None, OnOk, replicate};
ghost use Rattle.stark_completeness.specs.RowCheck.{trace_of};
ghost use Rattle.stark_lookup_rows.specs.Places.{fault_over};
ghost use Rattle.stark_lookup_rows.specs.RowEntries.{AreRowEntries, FitsAir, lookup_numbers};

use crate::cut::push_rows;
use crate::places::interactions_air;
use stark_completeness::constraint_values;
use stark_lookup_extension::LookupList;
use stark_lookup_trace::TupleEntry;
use stark_support::{RowMajorMatrix, TwoAdicField};
use stark_tree_air::TreeAir;
use std::alloc::{AllocError, Global};

/// Appends a number, that many times. It is Err only where memory was refused.
fn push_number(
    alloc: Global,
    all: &mut Vec<usize>,
    number: usize,
    count: usize,
) -> Result<(), AllocError>
    ensures { OnOk result (all.new.items ≡ all.old.items ++ replicate count number) }
{
    let mut numbers = Vec::new(alloc);
    numbers.resize(count, number)?;
    all.extend_from_slice(&numbers)?;
    Ok(())
}

/// For each group of a row the number of its lookup. It is Err only where memory was refused.
pub fn group_lookups(alloc: Global, given: &LookupList) -> Result<Vec<usize>, AllocError>
    ensures { IfOk result (λ all. all.items ≡ lookup_numbers 0 given.now.lookups.items) }
{
    let mut all = Vec::new(alloc);
    let mut number = 0;
    for lookup in &given.lookups {
        push_number(alloc, &mut all, number, lookup.groups.len())?;
        number += 1;
    }
    Ok(all)
}

/// What each row of a trace sends and receives: the groups of the first row, then those of the
/// next. A tuple begins with the number of its lookup, where there are several, and is filled up
/// with zeros; what is received has the opposite multiplicity.
///
/// The trace fits the AIR as `check_constraints` requires, beside the preprocessed trace that the
/// AIR declares, and the lookups have no fault over the AIR. It is Err only where memory was
/// refused.
pub fn row_entries<'a, F: TwoAdicField>(
    alloc: Global,
    own: &'a TreeAir<F>,
    given: &'a LookupList,
    trace: &'a RowMajorMatrix<F>,
    public_values: &'a [F],
) -> Result<Vec<Vec<TupleEntry<F>>>, AllocError>
    requires columns { 0 < trace.now.width }
    requires rows { FitsAir F.TWO_ADICITY own.now (trace_of trace.now) public_values.now }
    requires lookups { fault_over own.now given.now ≡ None }
    ensures { IfOk result (λ all. AreRowEntries F.ring F.inverse_of F.root own.now given.now
        (trace_of trace.now) public_values.now all.items) }
{
    let air = interactions_air(alloc, own, given)?;
    let preprocessed = own.declaration.columns.preprocessed_trace.as_ref();
    let values = constraint_values(alloc, &air, trace, preprocessed, public_values)?;
    let size = air.list.constraints.len();
    let mut all = Vec::new(alloc);
    push_rows(alloc, given, trace.height(), size, &values, &mut all)?;
    Ok(all)
}
