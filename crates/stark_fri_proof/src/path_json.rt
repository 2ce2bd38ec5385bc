//! Paths that JSON spells: arrays of texts of 64 hexadecimal digits.
ghost use Rattle.std.specs.Prelude.{◌≡◌, IfOk};
ghost use Rattle.serde_json.specs.View.{items_view, view};
ghost use Rattle.stark_merkle.specs.RootJson.{root_at};
ghost use Rattle.stark_merkle.specs.Tree.{items_of};
ghost use Rattle.stark_support.specs.Json.{Gives, each_at};
ghost use Rattle.stark_support.specs.JsonFacts.{list_written};
ghost use Rattle.stark_fri_proof.specs.PathJson.{digest_at, digest_written, path_at, path_reads_back, path_written};

use crate::path::MerklePath;
use serde_json::Value;
use stark_merkle::Root;
use stark_support::{JsonCodec, JsonFault};
use std::alloc::{AllocError, Global};

/// The digests that the items of an array spell.
fn digests_from_json(alloc: Global, values: &[Value]) -> Result<Vec<[u8; 32]>, JsonFault>
    ensures { Gives items_of result (each_at digest_at (items_view values.now)) }
{
    let mut digests = Vec::new(alloc);
    for value in values {
        let root = Root::from_json(alloc, value)?;
        digests.push(root.bytes())?;
    }
    Ok(digests)
}

/// The path of the digests that the items of an array spell.
#[tactic(auto, using(crate::specs::PathJson::each_root, crate::specs::PathJson::no_roots))]
fn path_from_items(alloc: Global, values: &[Value]) -> Result<MerklePath, JsonFault>
    ensures { Gives (λ x. x) result (each_at root_at (items_view values.now)) }
{
    let digests = digests_from_json(alloc, values)?;
    Ok(MerklePath::new(digests))
}

/// The array of the digests' texts.
fn digests_to_json(alloc: Global, digests: &[[u8; 32]]) -> Result<Value, AllocError>
    ensures { IfOk result (λ value. view value ≡ list_written digest_written digests.now) }
{
    let mut values = Vec::new(alloc);
    for digest in digests {
        values.push(Root::new(*digest).to_json(alloc)?)?;
    }
    Ok(Value::Array(values))
}

impl JsonCodec for MerklePath {
    ghost reading = { path_at };

    ghost writing = { path_written };

    /// The path of an array of texts of 64 hexadecimal digits, lowest first.
    #[tactic(auto, unfolding(stark_support::specs::Json::array_at))]
    fn from_json(alloc: Global, value: &Value) -> Result<MerklePath, JsonFault> {
        let Some(values) = value.as_array() else {
            return Err(JsonFault::Invalid);
        };
        path_from_items(alloc, values)
    }

    /// The array of the digests' texts, their letters in lower case.
    #[tactic(auto, using(crate::specs::PathJson::written_digests))]
    fn to_json(&self, alloc: Global) -> Result<Value, AllocError> {
        digests_to_json(alloc, self.digests())
    }

    ghost reads_back = { path_reads_back };
}
