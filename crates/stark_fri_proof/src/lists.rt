//! Fields that have values or lists of them, and lists, in JSON.
ghost use Rattle.std.specs.Prelude.{◌≡◌, IfOk, map};
ghost use Rattle.serde_json.specs.View.{view};
ghost use Rattle.stark_merkle.specs.Tree.{items_of};
ghost use Rattle.stark_support.specs.Json.{Gives};
ghost use Rattle.stark_support.specs.JsonFacts.{list_written};
ghost use Rattle.stark_fri_proof.specs.Fields.{list_under, rows_of, rows_under, value_under};

use serde_json::Value;
use stark_support::{JsonCodec, JsonFault, field_of, list_from_json, lists_from_json};
use std::alloc::{AllocError, Global};

/// The value under a name.
pub(crate) fn value_under<T: JsonCodec>(
    alloc: Global,
    value: &Value,
    name: &str,
) -> Result<T, JsonFault>
    ensures { Gives (λ x. x) result (value_under T.reading name.now (view value.now)) }
{
    let member = field_of(value, name)?;
    T::from_json(alloc, member)
}

/// The values of the array under a name.
pub(crate) fn list_under<T: JsonCodec + Drop>(
    alloc: Global,
    value: &Value,
    name: &str,
) -> Result<Vec<T>, JsonFault>
    ensures { Gives items_of result (list_under T.reading name.now (view value.now)) }
{
    let member = field_of(value, name)?;
    list_from_json(alloc, member)
}

/// The rows of the array of arrays under a name.
pub(crate) fn rows_under<T: JsonCodec + Drop>(
    alloc: Global,
    value: &Value,
    name: &str,
) -> Result<Vec<Vec<T>>, JsonFault>
    ensures { Gives rows_of result (rows_under T.reading name.now (view value.now)) }
{
    let member = field_of(value, name)?;
    lists_from_json(alloc, member)
}

/// The array of values.
pub(crate) fn list_to_json<T: JsonCodec>(alloc: Global, list: &[T]) -> Result<Value, AllocError>
    ensures { IfOk result (λ value. view value ≡ list_written T.writing list.now) }
{
    let mut values = Vec::new(alloc);
    for element in list {
        values.push(element.to_json(alloc)?)?;
    }
    Ok(Value::Array(values))
}

/// The array of rows.
pub(crate) fn rows_to_json<T: JsonCodec>(
    alloc: Global,
    rows: &[Vec<T>],
) -> Result<Value, AllocError>
    ensures { IfOk result (λ value. view value
        ≡ list_written (list_written T.writing) (map items_of rows.now)) }
{
    let mut values = Vec::new(alloc);
    for row in rows {
        values.push(list_to_json(alloc, row)?)?;
    }
    Ok(Value::Array(values))
}
