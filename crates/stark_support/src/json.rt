//! Values that JSON spells.
ghost use Rattle.std.specs.Prelude.{◌≡◌, ◌≢◌, Option, Some, IfErr, IfOk, map};
ghost use Rattle.serde_json.specs.Data.{Data, null};
ghost use Rattle.serde_json.specs.View.{view, items_view};
ghost use Rattle.serde_json.specs.Find.{get};
ghost use Rattle.stark_support.specs.Json.{Gives, each_at, array_at, json_of};
ghost use Rattle.stark_support.specs.declared.json.JsonFault.TheVariants.{Invalid};

use serde_json::Value;
use std::alloc::{AllocError, AllocFailed, Global};
use thiserror::Error;

/// Why a value was not read.
#[derive(Debug, Drop, Error)]
pub enum JsonFault {
    /// The JSON value spells none.
    #[error("the JSON value is refused")]
    Invalid,
    /// A growth of memory was refused.
    #[error("out of memory")]
    OutOfMemory,
}

impl From<AllocError> for JsonFault {
    ghost use Rattle.std.specs.Prelude.{◌≡◌};
    ghost use Rattle.stark_support.specs.declared.json.JsonFault.TheVariants.{OutOfMemory};

    ghost from_gives = { λ _ fault. fault ≡ OutOfMemory };

    fn from(_error: AllocError) -> JsonFault {
        JsonFault::OutOfMemory
    }
}

impl<T: Drop> From<AllocFailed<T>> for JsonFault {
    ghost use Rattle.std.specs.Prelude.{◌≡◌};
    ghost use Rattle.stark_support.specs.declared.json.JsonFault.TheVariants.{OutOfMemory};

    ghost from_gives = { λ _ fault. fault ≡ OutOfMemory };

    fn from(_failed: AllocFailed<T>) -> JsonFault {
        JsonFault::OutOfMemory
    }
}

/// A type whose values JSON values spell.
pub trait JsonCodec: Sized {
    /// What a JSON value is read as.
    ghost reading: { Data → Option Self };

    /// The JSON value that spells a value.
    ghost writing: { Self → Data };

    /// The value that the JSON value spells.
    fn from_json(alloc: Global, value: &Value) -> Result<Self, JsonFault>
        ensures { Gives (λ x. x) result (reading (view value.now)) };

    /// The JSON value that spells this value.
    fn to_json(&self, alloc: Global) -> Result<Value, AllocError>
        ensures { IfOk result (λ value. view value ≡ writing self.now) };

    /// What is written is read back.
    ghost reads_back: { (x : Self) → reading (writing x) ≡ Some x };
}

/// A type none of whose values is spelled by null, as the elements of fields and commitments: in
/// its place null can say that there is no value.
pub trait NeverNull: JsonCodec {
    ghost never_null: { (x : Self) → Self.writing x ≢ null };
}

fn each_from_json<T: JsonCodec + Drop>(alloc: Global, values: &[Value]) -> Result<Vec<T>, JsonFault>
    ensures { Gives (λ v. v.items) result (each_at T.reading (items_view values.now)) }
{
    let mut elements = Vec::new(alloc);
    for value in values {
        let element = T::from_json(alloc, value)?;
        elements.push(element)?;
    }
    Ok(elements)
}

/// The values that an array spells, one each.
#[tactic(auto, unfolding(crate::specs::Json::array_at))]
pub fn list_from_json<T: JsonCodec + Drop>(
    alloc: Global,
    value: &Value,
) -> Result<Vec<T>, JsonFault>
    ensures { Gives (λ v. v.items) result (array_at T.reading (view value.now)) }
{
    let Some(values) = value.as_array() else {
        return Err(JsonFault::Invalid);
    };
    each_from_json(alloc, values)
}

fn each_list_from_json<T: JsonCodec + Drop>(
    alloc: Global,
    values: &[Value],
) -> Result<Vec<Vec<T>>, JsonFault>
    ensures { Gives (λ v. map (λ list. list.items) v.items) result
        (each_at (array_at T.reading) (items_view values.now)) }
{
    let mut lists = Vec::new(alloc);
    for value in values {
        let list = list_from_json(alloc, value)?;
        lists.push(list)?;
    }
    Ok(lists)
}

/// The lists of values that an array of arrays spells.
#[tactic(auto, unfolding(crate::specs::Json::array_at))]
pub fn lists_from_json<T: JsonCodec + Drop>(
    alloc: Global,
    value: &Value,
) -> Result<Vec<Vec<T>>, JsonFault>
    ensures { Gives (λ v. map (λ list. list.items) v.items) result
        (array_at (array_at T.reading) (view value.now)) }
{
    let Some(values) = value.as_array() else {
        return Err(JsonFault::Invalid);
    };
    each_list_from_json(alloc, values)
}

/// What an object has under a key. It takes no memory.
pub fn field_of<'a>(value: &'a Value, key: &str) -> Result<&'a Value, JsonFault>
    ensures answer { Gives (λ v. view v.now) result (get key.now (view value.now)) }
    ensures no_memory { IfErr result (λ fault. fault ≡ Invalid) }
{
    match value.get(key) {
        Some(field) => Ok(field),
        None => Err(JsonFault::Invalid),
    }
}

/// The JSON value that bytes spell.
pub fn value_from_bytes(alloc: Global, bytes: &[u8]) -> Result<Value, JsonFault>
    ensures { Gives view result (json_of bytes.now) }
{
    match Value::from_slice(alloc, bytes) {
        Ok(value) => Ok(value),
        Err(error) => {
            if error.is_memory() {
                Err(JsonFault::OutOfMemory)
            } else {
                Err(JsonFault::Invalid)
            }
        }
    }
}
