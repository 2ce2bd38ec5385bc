//! Packed values of lists, of matrices and of tables, a point a lane.
ghost use Rattle.std.specs.Prelude.{◌≡◌, ◌≢◌, ◌<◌, ◌≤◌, ◌+◌, ◌*◌, ◌/◌, ◌%◌, ◌^◌, ◌++◌, IfSome, OnOk, Some, length, option_map, take};
ghost use Rattle.std.specs.List.{slice_get};
ghost use Rattle.stark_support.specs.PeriodicTable.{table_at};
ghost use Rattle.stark_quotient.specs.PointwiseQuotient.{rows_or_none};
ghost use Rattle.stark_quotient.specs.PackedParts.{GoesOnAlike, HasColumnFrom, HasRowPairs, HasValuesFrom, HaveColumnsFrom};

use stark_support::{
    Field, LagrangeSelectors, PackedValue, PeriodicLdeTable, RowMajorMatrix, packed_from_fn,
};
use std::alloc::AllocError;

/// The value at a place; zero past the end.
fn value_or_zero<F: Field>(values: &[F], place: usize) -> F
    ensures { place < length values.now → slice_get values.now place ≡ Some result }
{
    match values.get(place) {
        Some(value) => *value,
        None => F::ZERO,
    }
}

/// The values from place `start` on, a value a lane, and zeros where there are no more.
pub(crate) fn packed_from<F: Field, P: PackedValue<Value = F>>(values: &[F], start: usize) -> P
    requires { start ≤ length values.now }
    ensures { HasValuesFrom P.lanes P.WIDTH values.now start result }
{
    let rest = &values[start..];
    if P::WIDTH <= rest.len() {
        return P::from_slice(&rest[..P::WIDTH]);
    }
    packed_from_fn(
        |lane| -> F
            ensures { lane < length rest.entry.now → slice_get rest.entry.now lane ≡ Some result }
        { value_or_zero(rest, lane) },
    )
}

/// The selectors at the points from `start` on, a point a lane, and zeros where there are no more.
pub(crate) fn packed_selectors<F: Field, P: PackedValue<Value = F>>(
    selectors: &LagrangeSelectors<Vec<F>>,
    start: usize,
) -> LagrangeSelectors<P>
    requires first_row { start ≤ length selectors.now.is_first_row.items }
    requires last_row { start ≤ length selectors.now.is_last_row.items }
    requires transition { start ≤ length selectors.now.is_transition.items }
    requires inv_vanishing { start ≤ length selectors.now.inv_vanishing.items }
    ensures first_row { HasValuesFrom P.lanes P.WIDTH selectors.now.is_first_row.items start
        result.is_first_row }
    ensures last_row { HasValuesFrom P.lanes P.WIDTH selectors.now.is_last_row.items start
        result.is_last_row }
    ensures transition { HasValuesFrom P.lanes P.WIDTH selectors.now.is_transition.items start
        result.is_transition }
    ensures inv_vanishing { HasValuesFrom P.lanes P.WIDTH selectors.now.inv_vanishing.items start
        result.inv_vanishing }
{
    LagrangeSelectors {
        is_first_row: packed_from(selectors.is_first_row.as_slice(), start),
        is_last_row: packed_from(selectors.is_last_row.as_slice(), start),
        is_transition: packed_from(selectors.is_transition.as_slice(), start),
        inv_vanishing: packed_from(selectors.inv_vanishing.as_slice(), start),
    }
}

/// Puts the packed values of the rows `r`, `r + 1`, .. in a lent buffer, in place of what it has, a
/// value a column and a row a lane, and behind them those of the rows that lie `step` further; all
/// are taken round the end. Of a matrix that isn't there, or has no columns, there are none.
pub(crate) fn packed_pair<F: Field, P: PackedValue<Value = F>>(
    matrix: Option<&RowMajorMatrix<F>>,
    r: usize,
    step: usize,
    pair: &mut Vec<P>,
    next: &mut Vec<P>,
) -> Result<(), AllocError>
    requires room { r + step < 2 ^ 64 }
    requires rows { IfSome (option_map (λ m. m.now) matrix) (λ m. m.width ≢ 0
        → 0 < length m.values.items / m.width) }
    ensures number { OnOk result (length pair.new.items
        ≡ 2 * (rows_or_none matrix.entry).width) }
    ensures lanes { OnOk result (HasRowPairs P.lanes P.WIDTH F.ring.zero (rows_or_none matrix.entry)
        r step pair.new.items) }
{
    match matrix {
        Some(matrix) if matrix.width > 0 => {
            matrix.vertically_packed_row_into(r, pair)?;
            matrix.vertically_packed_row_into(r + step, next)?;
            pair.extend_from_slice(next.as_slice())?;
        }
        _ => pair.clear(),
    }
    Ok(())
}

/// The value of a column in the row that lies `lane` after row `start`.
fn table_value<F: Copy>(table: &PeriodicLdeTable<F>, start: usize, lane: usize, column: usize) -> F
    requires { column < table.now.width }
    ensures { start + lane < 2 ^ 64 → table_at table.now.values.items table.now.width
        table.now.period (start + lane) column ≡ Some result }
{
    table.get(start.saturating_add(lane), column)
}

/// The values of a column in the rows from `start` on, a row a lane.
fn packed_table_value<F: Field, P: PackedValue<Value = F>>(
    table: &PeriodicLdeTable<F>,
    start: usize,
    column: usize,
) -> P
    requires { column < table.now.width }
    ensures { HasColumnFrom P.lanes P.WIDTH table.now start column result }
{
    packed_from_fn(
        |lane| -> F
            requires { column < table.now.width }
            ensures { start + lane < 2 ^ 64
                → table_at table.entry.now.values.items table.entry.now.width table.entry.now.period
                (start + lane) column ≡ Some result }
        { table_value(table, start, lane, column) },
    )
}

/// A row that begins a group of rows with the values of the group from row `start` on: the first
/// such row, as the groups begin again after `packed_group_period` of them.
pub(crate) fn row_in_period<F>(table: &PeriodicLdeTable<F>, start: usize, group: usize) -> usize
    requires { 0 < group }
    ensures before { result ≤ start }
    ensures same { GoesOnAlike table.now result start }
{
    match table.packed_group_period(group).checked_mul(group) {
        Some(rows) => start % rows,
        None => start,
    }
}

/// Puts the packed values of a table's rows from `start` on in a lent buffer, in place of what it
/// has, a value a column and a row a lane.
pub(crate) fn packed_table_row<F: Field, P: PackedValue<Value = F>>(
    table: &PeriodicLdeTable<F>,
    start: usize,
    row: &mut Vec<P>,
) -> Result<(), AllocError>
    ensures number { OnOk result (length row.new.items ≡ table.now.width) }
    ensures lanes { OnOk result (HaveColumnsFrom P.lanes P.WIDTH table.now start row.new.items) }
{
    row.clear();
    for column in 0..table.width() {
        row.push(packed_table_value(table, start, column))?;
    }
    Ok(())
}

/// Appends the values of the first `count` lanes, or of all where there are no more.
pub(crate) fn push_lanes<P: PackedValue>(
    values: &mut Vec<P::Value>,
    packed: &P,
    count: usize,
) -> Result<(), AllocError>
    ensures { OnOk result (values.new.items ≡ values.old.items ++ take count (P.lanes packed.now)) }
{
    for lane in 0..count.min(P::WIDTH) {
        values.push(packed.extract(lane))?;
    }
    Ok(())
}
