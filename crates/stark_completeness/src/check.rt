//! Whether a trace satisfies an AIR, row by row.
ghost use Rattle.std.specs.Prelude.{◌≡◌, ◌+◌, ◌*◌, ◌%◌, ◌^◌, ◌<◌, ℕ, IfOk, length, map, option_map};
ghost use Rattle.std.specs.Option.{option_copied};
ghost use Rattle.std.specs.Vec.{vec_items};
ghost use Rattle.stark_quotient.specs.PointwiseQuotient.{matrix_or_empty};
ghost use Rattle.stark_completeness.specs.RowSelectors.{AreSelectorsIn};
ghost use Rattle.stark_support.specs.Scheme.{matrix_row};
ghost use Rattle.stark_completeness.specs.RowSatisfaction.{HoldsInEachRow, HoldsInRow};
ghost use Rattle.stark_completeness.specs.RowCheck.{IsBrokenIn, IsFirstViolation, IfViolation, IsFoundIn, entry_in_row, trace_of, values_in, trace_in};
ghost use Rattle.stark_completeness.specs.CheckedRows.{FitsLayout, IsGiven, checked_air, checked_rows};

use crate::debug_builder::{RowLeaves, values_in_row};
use crate::findings::RowChecks;
use crate::height::log_height_of;
use crate::row_selectors::{DomainSelectors, RowSelectors};
use crate::row_value::RowValue;
use crate::violation::{ConstraintCheckError, ConstraintViolation};
use stark_air::{Air, BaseAir};
use stark_protocol::power_of_two;
use stark_support::{Field, RowMajorMatrix, RowMajorMatrixView, TwoAdicField, is_zero};
use std::alloc::{AllocError, Global};
use std::mem;

/// What is checked: the rows of a trace and of a preprocessed one, and what else constraints read.
#[derive(Clone, Copy, Debug)]
pub(crate) struct CheckedTrace<'a, F> {
    main: RowMajorMatrixView<'a, F>,
    preprocessed: RowMajorMatrixView<'a, F>,
    public_values: &'a [F],
    pub periodic_columns: &'a [Vec<F>],
    pub log_height: usize,
}

/// Buffers that serve every row.
#[derive(Drop)]
struct RowBuffers<F> {
    periodic_values: Vec<F>,
    constraint_values: Vec<RowValue<F>>,
}

/// A row of a matrix.
fn row_of<'a, F>(matrix: &RowMajorMatrixView<'a, F>, row: usize) -> &'a [F]
    requires { (height : ℕ) × (row < height)
        × (length matrix.now.values.now ≡ height * matrix.now.width) }
    ensures values { result.now ≡ matrix_row matrix.now.values.now matrix.now.width row }
    ensures width { length result.now ≡ matrix.now.width }
{
    let start = row * matrix.width;
    &matrix.values[start..start + matrix.width]
}

/// The row after a row, round the end: behind the last one comes the first.
fn row_after(row: usize, height: usize) -> usize
    requires { row < height }
    ensures next { result ≡ (row + 1) % height }
    ensures within { result < height }
{
    if row + 1 == height { 0 } else { row + 1 }
}

/// The periodic columns' entries in a row, in a lent buffer, in place of what it has.
pub(crate) fn periodic_entries<F: Field>(
    columns: &[Vec<F>],
    row: usize,
    buffer: Vec<F>,
) -> Result<Vec<F>, AllocError>
    ensures { IfOk result (λ entries. entries.items
        ≡ map (entry_in_row F.ring.zero row) (map vec_items columns.now)) }
{
    let mut entries = buffer;
    entries.clear();
    for column in columns {
        entries.push(periodic_entry(column, row))?;
    }
    Ok(entries)
}

/// A column's entry in a row; zero where the column is empty.
fn periodic_entry<F: Field>(column: &[F], row: usize) -> F
    ensures { result ≡ entry_in_row F.ring.zero row column.now }
{
    match column.len() {
        0 => F::ZERO,
        length => column[row % length],
    }
}

/// The first value that isn't zero, with its place.
fn first_nonzero<F: Field>(values: &[RowValue<F>]) -> Option<(usize, F)>
    ensures { IsFoundIn F.ring.zero values.now result }
{
    for (place, value) in values.iter().enumerate() {
        if !is_zero(value.value()) {
            return Some((place, value.value()));
        }
    }
    None
}

/// A matrix, or one without columns where there is none.
fn view_or_empty<'a, F>(matrix: Option<&'a RowMajorMatrix<F>>) -> RowMajorMatrixView<'a, F>
    ensures width { result.width
        ≡ (matrix_or_empty (option_map trace_of (option_copied matrix.entry))).width }
    ensures values { result.values.now
        ≡ (matrix_or_empty (option_map trace_of (option_copied matrix.entry))).values }
{
    match matrix {
        Some(matrix) => RowMajorMatrixView::new(matrix.values.as_slice(), matrix.width),
        None => RowMajorMatrixView::new(&[], 0),
    }
}

/// The rows of these matrices, with what else an AIR's constraints read.
pub(crate) fn checked_trace<'a, F: TwoAdicField, A: Air<F>>(
    air: &'a A,
    trace: &'a RowMajorMatrix<F>,
    preprocessed: Option<&'a RowMajorMatrix<F>>,
    public_values: &'a [F],
) -> CheckedTrace<'a, F>
    requires columns { 0 < trace.now.width }
    requires rows { (log_height : ℕ) × ⟦<A as RowChecks<F>>⟧.is_laid_out air.now log_height
        (trace_of trace.now) (trace_in preprocessed) public_values.now }
    ensures fits { FitsLayout (A.layout air.now) F.TWO_ADICITY result }
    ensures given { IsGiven (A.periodic_columns air.now) (trace_of trace.now)
        (trace_in preprocessed.entry) public_values.now result }
{
    CheckedTrace {
        main: RowMajorMatrixView::new(trace.values.as_slice(), trace.width),
        preprocessed: view_or_empty(preprocessed),
        public_values,
        periodic_columns: air.periodic_columns(),
        log_height: log_height_of(trace),
    }
}

/// The constraints' values in a row, with the periodic columns' entries there; `values` lends its
/// room.
pub(crate) fn values_of<F: TwoAdicField, A: Air<F>>(
    air: &A,
    trace: &CheckedTrace<'_, F>,
    selectors: RowSelectors<F>,
    row: usize,
    periodic_values: &[F],
    values: Vec<RowValue<F>>,
) -> Result<Vec<RowValue<F>>, AllocError>
    requires fits { FitsLayout (A.layout air.now) F.TWO_ADICITY trace.now }
    requires row { row < 2 ^ trace.now.log_height }
    requires selectors { AreSelectorsIn F.ring F.inverse_of (F.root trace.now.log_height)
        trace.now.log_height row selectors }
    requires periodic { periodic_values.now
        ≡ map (entry_in_row F.ring.zero row) (map vec_items trace.now.periodic_columns.now) }
    ensures { IfOk result (λ made. made.items ≡ values_in
        (checked_air F.ring F.inverse_of F.root (A.constraints air.now) trace.now)
        (checked_rows trace.now) row) }
{
    let next = row_after(row, power_of_two(trace.log_height));
    let leaves = RowLeaves {
        main_current: row_of(&trace.main, row),
        main_next: row_of(&trace.main, next),
        preprocessed_current: row_of(&trace.preprocessed, row),
        preprocessed_next: row_of(&trace.preprocessed, next),
        public_values: trace.public_values,
        periodic_values,
        is_first_row: selectors.is_first_row,
        is_last_row: selectors.is_last_row,
        is_transition: selectors.is_transition,
    };
    values_in_row(air, leaves, values)
}

/// Whether a row breaks no constraint.
fn check_row<F: TwoAdicField, A: Air<F>>(
    alloc: Global,
    air: &A,
    trace: &CheckedTrace<'_, F>,
    selectors: RowSelectors<F>,
    row: usize,
    buffers: &mut RowBuffers<F>,
) -> Result<(), ConstraintCheckError<F>>
    requires fits { FitsLayout (A.layout air.now) F.TWO_ADICITY trace.now }
    requires row { row < 2 ^ trace.now.log_height }
    requires selectors { AreSelectorsIn F.ring F.inverse_of (F.root trace.now.log_height)
        trace.now.log_height row selectors }
    ensures holds { IfOk result (λ _. HoldsInRow
        (checked_air F.ring F.inverse_of F.root (A.constraints air.now) trace.now)
        (checked_rows trace.now) row) }
    ensures broken { IfViolation result (IsBrokenIn
        (checked_air F.ring F.inverse_of F.root (A.constraints air.now) trace.now)
        (checked_rows trace.now) row) }
{
    let lent = mem::replace(&mut buffers.periodic_values, Vec::new(alloc));
    let periodic_values = periodic_entries(trace.periodic_columns, row, lent)?;
    let lent = mem::replace(&mut buffers.constraint_values, Vec::new(alloc));
    let values = values_of(air, trace, selectors, row, &periodic_values, lent)?;
    let broken = first_nonzero(&values);
    buffers.periodic_values = periodic_values;
    buffers.constraint_values = values;
    match broken {
        None => Ok(()),
        Some((constraint, value)) => Err(ConstraintCheckError::Violation(ConstraintViolation {
            row,
            constraint,
            value,
        })),
    }
}

/// Whether no row breaks a constraint.
fn check_rows<F: TwoAdicField, A: Air<F>>(
    alloc: Global,
    air: &A,
    trace: &CheckedTrace<'_, F>,
) -> Result<(), ConstraintCheckError<F>>
    requires fits { FitsLayout (A.layout air.now) F.TWO_ADICITY trace.now }
    requires size { F.TWO_ADICITY < 64 }
    ensures holds { IfOk result (λ _. HoldsInEachRow
        (checked_air F.ring F.inverse_of F.root (A.constraints air.now) trace.now)
        (checked_rows trace.now)) }
    ensures broken { IfViolation result (IsFirstViolation
        (checked_air F.ring F.inverse_of F.root (A.constraints air.now) trace.now)
        (checked_rows trace.now)) }
{
    let height = power_of_two(trace.log_height);
    let selectors = DomainSelectors::new(trace.log_height, height);
    let mut buffers = RowBuffers {
        periodic_values: Vec::new(alloc),
        constraint_values: Vec::new(alloc),
    };
    let mut point = F::ONE;
    for row in 0..height {
        let selectors_there = selectors.in_row(trace.log_height, row, point);
        check_row(alloc, air, trace, selectors_there, row, &mut buffers)?;
        point = selectors.generator * point;
    }
    Ok(())
}

/// Whether a trace satisfies an AIR: Ok exactly where each constraint is zero in each row, beside
/// the row after it, round the end, with the selectors of the trace's domain. Else the first row
/// that breaks a constraint, and in it the first constraint, with its value (`Violation`);
/// `OutOfMemory` only where a growth was refused.
///
/// The trace has `2^log_height` rows of the AIR's width, at least one column, and the field has a
/// domain of as many points; the preprocessed trace has as many rows of the AIR's preprocessed
/// width, and there need be none where that is 0. There are as many public values as the AIR has.
/// The time grows with the rows times the constraints.
pub fn check_constraints<'a, F: TwoAdicField, A: Air<F>>(
    alloc: Global,
    air: &'a A,
    trace: &'a RowMajorMatrix<F>,
    preprocessed: Option<&'a RowMajorMatrix<F>>,
    public_values: &'a [F],
) -> Result<(), ConstraintCheckError<F>>
    requires columns { 0 < trace.now.width }
    requires rows { (log_height : ℕ) × ⟦<A as RowChecks<F>>⟧.is_laid_out air.now log_height
        (trace_of trace.now) (trace_in preprocessed) public_values.now }
    ensures satisfied { IfOk result (λ _. ⟦<A as RowChecks<F>>⟧.is_satisfied air.now
        (trace_of trace.now) (trace_in preprocessed.entry)
        public_values.now) }
    ensures broken { IfViolation result (⟦<A as RowChecks<F>>⟧.is_first_violation air.now
        (trace_of trace.now) (trace_in preprocessed.entry) public_values.now) }
{
    let checked = checked_trace(air, trace, preprocessed, public_values);
    check_rows(alloc, air, &checked)
}
