//! Rows of elements and the fields that have them, in JSON.
ghost use Rattle.std.specs.Prelude.{◌≡◌, IfOk, map, ok_or, option_map, codes};
ghost use Rattle.serde_json.specs.Data.{array};
ghost use Rattle.serde_json.specs.Find.{get};
ghost use Rattle.serde_json.specs.View.{view, items_view, items_of};
ghost use Rattle.stark_proof.specs.ProofJson.{Decodes, each_of, missing_field, openings_fault, optional, required, row_at, rows_at, value_or_null};
ghost use Rattle.stark_support.specs.JsonFacts.{list_written};

use crate::error::OpeningsDecodeError;
use serde_json::Value;
use stark_support::{JsonCodec, JsonFault, list_from_json};
use std::alloc::{AllocError, Global};

/// What an object has under a required name.
fn required<'a>(value: &'a Value, field: &'static str) -> Result<&'a Value, OpeningsDecodeError>
    ensures { Decodes (λ v. view v.now) openings_fault result
        (ok_or (get field.now (view value.now)) (missing_field field.now)) }
{
    match value.get(field) {
        Some(member) => Ok(member),
        None => Err(OpeningsDecodeError::MissingField { field }),
    }
}

fn row_from_json<E: JsonCodec + Drop>(
    alloc: Global,
    value: &Value,
    field: &'static str,
) -> Result<Vec<E>, OpeningsDecodeError>
    ensures { Decodes (λ row. row.items) openings_fault result
        (row_at E.reading field.now (view value.now)) }
{
    if !value.is_array() {
        return Err(OpeningsDecodeError::WrongKind { field });
    }
    match list_from_json(alloc, value) {
        Ok(row) => Ok(row),
        Err(JsonFault::Invalid) => Err(OpeningsDecodeError::Element { field }),
        Err(JsonFault::OutOfMemory) => Err(OpeningsDecodeError::OutOfMemory),
    }
}

fn each_row_from_json<E: JsonCodec + Drop>(
    alloc: Global,
    values: &[Value],
    field: &'static str,
) -> Result<Vec<Vec<E>>, OpeningsDecodeError>
    ensures { Decodes (λ rows. map (λ row. row.items) rows.items) openings_fault result
        (each_of (row_at E.reading field.now) (items_view values.now)) }
{
    let mut rows = Vec::new(alloc);
    for value in values {
        let row = row_from_json(alloc, value, field)?;
        rows.push(row)?;
    }
    Ok(rows)
}

/// The row under a required name.
pub(crate) fn required_row<E: JsonCodec + Drop>(
    alloc: Global,
    value: &Value,
    field: &'static str,
) -> Result<Vec<E>, OpeningsDecodeError>
    ensures { Decodes (λ row. row.items) openings_fault result
        (required field.now (row_at E.reading field.now) (view value.now)) }
{
    let member = required(value, field)?;
    row_from_json(alloc, member, field)
}

/// The rows under a required name.
pub(crate) fn required_rows<E: JsonCodec + Drop>(
    alloc: Global,
    value: &Value,
    field: &'static str,
) -> Result<Vec<Vec<E>>, OpeningsDecodeError>
    ensures { Decodes (λ rows. map (λ row. row.items) rows.items) openings_fault result
        (required field.now (rows_at E.reading field.now) (view value.now)) }
{
    let member = required(value, field)?;
    let Some(values) = member.as_array() else {
        return Err(OpeningsDecodeError::WrongKind { field });
    };
    each_row_from_json(alloc, values, field)
}

/// The row under a name; None where it is missing or null.
pub(crate) fn optional_row<E: JsonCodec + Drop>(
    alloc: Global,
    value: &Value,
    field: &'static str,
) -> Result<Option<Vec<E>>, OpeningsDecodeError>
    ensures { Decodes (option_map (λ row. row.items)) openings_fault result
        (optional field.now (row_at E.reading field.now) (view value.now)) }
{
    let Some(member) = value.get(field) else {
        return Ok(None);
    };
    if member.is_null() {
        return Ok(None);
    }
    let row = row_from_json(alloc, member, field)?;
    Ok(Some(row))
}

/// The array of a row's elements.
pub(crate) fn row_to_json<E: JsonCodec>(alloc: Global, row: &[E]) -> Result<Value, AllocError>
    ensures { IfOk result (λ value. view value ≡ list_written E.writing row.now) }
{
    let mut elements = Vec::new(alloc);
    for element in row {
        elements.push(element.to_json(alloc)?)?;
    }
    Ok(Value::Array(elements))
}

/// The array of a row's elements; null where there is no row.
pub(crate) fn row_or_null<E: JsonCodec>(
    alloc: Global,
    row: Option<&[E]>,
) -> Result<Value, AllocError>
    ensures { IfOk result (λ value. view value
        ≡ value_or_null (list_written E.writing) (option_map (λ r. r.now) row.entry)) }
{
    match row {
        Some(row) => row_to_json(alloc, row),
        None => Ok(Value::Null),
    }
}

/// The array of rows.
pub(crate) fn rows_to_json<E: JsonCodec>(
    alloc: Global,
    rows: &[Vec<E>],
) -> Result<Value, AllocError>
    ensures { IfOk result (λ value. view value
        ≡ list_written (list_written E.writing) (map (λ row. row.items) rows.now)) }
{
    let mut values = Vec::new(alloc);
    for row in rows {
        values.push(row_to_json(alloc, row)?)?;
    }
    Ok(Value::Array(values))
}
