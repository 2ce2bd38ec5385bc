//! Values of a codec and the fields that have them, in JSON.
ghost use Rattle.std.specs.Prelude.{◌≡◌, IfOk, OnOk, ok_or, option_map};
ghost use Rattle.serde_json.specs.Find.{get};
ghost use Rattle.serde_json.specs.View.{members_view, view};
ghost use Rattle.stark_proof.specs.ProofJson.{Decodes, missing_field, nonzero, optional, optional_or, proof_fault, required, value_at, value_or_null, with_value};

use crate::error::ProofDecodeError;
use serde_json::{Map, Value, put};
use stark_support::{Field, JsonCodec, JsonFault, is_zero};
use std::alloc::{AllocError, Global};

/// What an object has under a required name.
pub(crate) fn required<'a>(
    value: &'a Value,
    field: &'static str,
) -> Result<&'a Value, ProofDecodeError>
    ensures { Decodes (λ v. view v.now) proof_fault result
        (ok_or (get field.now (view value.now)) (missing_field field.now)) }
{
    match value.get(field) {
        Some(member) => Ok(member),
        None => Err(ProofDecodeError::MissingField { field }),
    }
}

fn value_from_json<T: JsonCodec>(
    alloc: Global,
    value: &Value,
    field: &'static str,
) -> Result<T, ProofDecodeError>
    ensures { Decodes (λ x. x) proof_fault result (value_at T.reading field.now (view value.now)) }
{
    match T::from_json(alloc, value) {
        Ok(member) => Ok(member),
        Err(JsonFault::Invalid) => Err(ProofDecodeError::Element { field }),
        Err(JsonFault::OutOfMemory) => Err(ProofDecodeError::OutOfMemory),
    }
}

/// The value under a required name.
pub(crate) fn required_value<T: JsonCodec>(
    alloc: Global,
    value: &Value,
    field: &'static str,
) -> Result<T, ProofDecodeError>
    ensures { Decodes (λ x. x) proof_fault result
        (required field.now (value_at T.reading field.now) (view value.now)) }
{
    let member = required(value, field)?;
    value_from_json(alloc, member, field)
}

/// The value under a name; None where it is missing or null.
pub(crate) fn optional_value<T: JsonCodec>(
    alloc: Global,
    value: &Value,
    field: &'static str,
) -> Result<Option<T>, ProofDecodeError>
    ensures { Decodes (λ x. x) proof_fault result
        (optional field.now (value_at T.reading field.now) (view value.now)) }
{
    let Some(member) = value.get(field) else {
        return Ok(None);
    };
    if member.is_null() {
        return Ok(None);
    }
    let read = value_from_json(alloc, member, field)?;
    Ok(Some(read))
}

fn zero<F: Field>() -> F
    ensures { result ≡ F.ring.zero }
{
    F::ZERO
}

/// The element under a name; zero where it is missing or null.
pub(crate) fn element_or_zero<F: Field + JsonCodec>(
    alloc: Global,
    value: &Value,
    field: &'static str,
) -> Result<F, ProofDecodeError>
    ensures { Decodes (λ x. x) proof_fault result
        (optional_or F.ring.zero field.now (value_at F.reading field.now) (view value.now)) }
{
    match optional_value(alloc, value, field)? {
        Some(element) => Ok(element),
        None => Ok(zero()),
    }
}

/// The JSON of a value; null where there is none.
pub(crate) fn value_or_null<T: JsonCodec>(
    alloc: Global,
    value: &Option<T>,
) -> Result<Value, AllocError>
    ensures { IfOk result (λ written. view written ≡ value_or_null T.writing value.now) }
{
    match value {
        Some(value) => value.to_json(alloc),
        None => Ok(Value::Null),
    }
}

/// The JSON of an element; None where it is zero.
pub(crate) fn nonzero_to_json<F: Field + JsonCodec>(
    alloc: Global,
    element: F,
) -> Result<Option<Value>, AllocError>
    ensures { IfOk result (λ written. option_map view written
        ≡ option_map F.writing (nonzero F.eq F.ring.zero element)) }
{
    if is_zero(element) {
        return Ok(None);
    }
    let written = element.to_json(alloc)?;
    Ok(Some(written))
}

/// Puts a value under a name, where there is one.
pub(crate) fn put_value(
    map: &mut Map<String, Value>,
    alloc: Global,
    field: &str,
    value: Option<Value>,
) -> Result<(), AllocError>
    ensures { OnOk result (members_view map.new.entries
        ≡ with_value field.now (option_map view value) (members_view map.old.entries)) }
{
    match value {
        Some(value) => put(map, alloc, field, value),
        None => Ok(()),
    }
}
