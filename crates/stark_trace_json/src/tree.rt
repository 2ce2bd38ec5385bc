//! Rows by the tree of a text's values, and the first fault of one that spells none.
ghost use Rattle.std.specs.Prelude.{◌≡◌, map};
ghost use Rattle.serde_json.specs.View.{items_view, view};
ghost use Rattle.stark_support.specs.Json.{array_at, each_at};
ghost use Rattle.stark_trace_json.specs.Faults.{GivesEven, GivesRows, IsFaultOfElements, IsFaultOfItems, IsFaultOfRow, ReadsOr, rows_at};
ghost use Rattle.stark_trace_json.specs.Rows.{width_of};

use crate::fault::RowsFault;
use crate::rows::TraceRows;
use serde_json::Value;
use stark_support::{JsonCodec, JsonFault, value_from_bytes};
use std::alloc::Global;

/// The elements that the values of a row spell.
fn elements_of<F: JsonCodec + Copy>(
    alloc: Global,
    row: usize,
    values: &[Value],
) -> Result<Vec<F>, RowsFault>
    ensures { ReadsOr (λ v. v.items) (each_at F.reading (items_view values.now))
        (IsFaultOfElements F.reading row (map view values.now)) result }
{
    let mut elements = Vec::new(alloc);
    for (column, value) in values.iter().enumerate() {
        match F::from_json(alloc, value) {
            Ok(element) => elements.push(element)?,
            Err(JsonFault::Invalid) => {
                return Err(RowsFault::NoElement {
                    row,
                    column,
                    value: value.clone()?,
                });
            }
            Err(JsonFault::OutOfMemory) => return Err(RowsFault::OutOfMemory),
        }
    }
    Ok(elements)
}

/// The elements of the row that a value spells.
#[tactic(auto, unfolding(stark_support::specs::Json::array_at))]
fn row_of<F: JsonCodec + Copy>(
    alloc: Global,
    row: usize,
    value: &Value,
) -> Result<Vec<F>, RowsFault>
    ensures { ReadsOr (λ v. v.items) (array_at F.reading (view value.now))
        (IsFaultOfRow F.reading row (view value.now)) result }
{
    let Some(values) = value.as_array() else {
        return Err(RowsFault::NoRow { row });
    };
    elements_of(alloc, row, values)
}

/// The rows that values spell.
fn lists_of<F: JsonCodec + Copy>(alloc: Global, values: &[Value]) -> Result<Vec<Vec<F>>, RowsFault>
    ensures { ReadsOr (λ v. map (λ list. list.items) v.items)
        (rows_at F.reading (map view values.now))
        (IsFaultOfItems F.reading (map view values.now)) result }
{
    let mut lists = Vec::new(alloc);
    for (row, value) in values.iter().enumerate() {
        match row_of(alloc, row, value) {
            Ok(list) => lists.push(list)?,
            Err(fault) => return Err(fault),
        }
    }
    Ok(lists)
}

/// The length of the first list; 0 where there is none.
fn first_length<F>(lists: &[Vec<F>]) -> usize
    ensures { result ≡ width_of (map (λ list. list.items) lists.now) }
{
    match lists.first() {
        Some(list) => list.len(),
        None => 0,
    }
}

/// The rows that lists are.
fn rows_of_lists<F: Copy>(alloc: Global, lists: &[Vec<F>]) -> Result<TraceRows<F>, RowsFault>
    ensures { GivesEven (map (λ list. list.items) lists.now) result }
{
    let width = first_length(lists);
    let mut values = Vec::new(alloc);
    for (row, list) in lists.iter().enumerate() {
        if list.len() != width {
            return Err(RowsFault::Uneven {
                row,
                expected: width,
                got: list.len(),
            });
        }
        values.extend_from_slice(list)?;
    }
    Ok(TraceRows {
        values,
        height: lists.len(),
        width,
    })
}

/// The rows of any text, by the tree of its values.
pub(crate) fn rows_of_tree<F: JsonCodec + Copy>(
    alloc: Global,
    bytes: &[u8],
) -> Result<TraceRows<F>, RowsFault>
    ensures { GivesRows F.reading bytes.now result }
{
    let value = match value_from_bytes(alloc, bytes) {
        Ok(value) => value,
        Err(JsonFault::Invalid) => return Err(RowsFault::NoJson),
        Err(JsonFault::OutOfMemory) => return Err(RowsFault::OutOfMemory),
    };
    let Some(values) = value.as_array() else {
        return Err(RowsFault::NoArray);
    };
    let lists = match lists_of::<F>(alloc, values) {
        Ok(lists) => lists,
        Err(fault) => return Err(fault),
    };
    drop(value);
    rows_of_lists(alloc, &lists)
}
