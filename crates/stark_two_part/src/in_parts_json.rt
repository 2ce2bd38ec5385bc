//! Commitments in parts that JSON spells.
ghost use Rattle.std.specs.Prelude.{◌≡◌};
ghost use Rattle.serde_json.specs.View.{items_view, view};
ghost use Rattle.stark_support.specs.Json.{Gives};
ghost use Rattle.stark_two_part.specs.PartsJson.{parts_at, parts_never_null, parts_of, parts_read_back, parts_written};

use crate::in_parts::InParts;
use serde_json::Value;
use stark_support::{JsonCodec, JsonFault, NeverNull};
use std::alloc::{AllocError, Global};

/// What the items of an array spell: one is the whole, two are the parts in their order.
fn parts_from_json<K: JsonCodec + Drop>(
    alloc: Global,
    values: &[Value],
) -> Result<InParts<K>, JsonFault>
    ensures { Gives (λ x. x) result (parts_of K.reading (items_view values.now)) }
{
    match values {
        [whole] => {
            let whole = K::from_json(alloc, whole)?;
            Ok(InParts::Whole(whole))
        }
        [left, right] => {
            let left = K::from_json(alloc, left)?;
            let right = K::from_json(alloc, right)?;
            Ok(InParts::Parts(left, right))
        }
        _ => Err(JsonFault::Invalid),
    }
}

impl<K: JsonCodec + Drop> JsonCodec for InParts<K> {
    ghost reading = { parts_at K.reading };

    ghost writing = { parts_written K.writing };

    /// An array of one is the whole, an array of two are the parts, the first one first. `Invalid`
    /// for any other value, `OutOfMemory` where memory was refused.
    #[tactic(auto, unfolding(crate::specs::PartsJson::parts_at))]
    fn from_json(alloc: Global, value: &Value) -> Result<InParts<K>, JsonFault> {
        let Some(values) = value.as_array() else {
            return Err(JsonFault::Invalid);
        };
        parts_from_json(alloc, values)
    }

    /// The array of the whole alone, or of both parts. It is Err only where memory was refused.
    fn to_json(&self, alloc: Global) -> Result<Value, AllocError> {
        let mut items = Vec::new(alloc);
        match self {
            InParts::Whole(whole) => {
                items.push(whole.to_json(alloc)?)?;
                Ok(Value::Array(items))
            }
            InParts::Parts(left, right) => {
                items.push(left.to_json(alloc)?)?;
                items.push(right.to_json(alloc)?)?;
                Ok(Value::Array(items))
            }
        }
    }

    ghost reads_back = { parts_read_back K.reading K.writing K.reads_back };
}

impl<K: JsonCodec + Drop> NeverNull for InParts<K> {
    ghost never_null = { parts_never_null K.writing };
}
