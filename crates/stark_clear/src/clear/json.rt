//! The opening proof in JSON.
ghost use Rattle.std.specs.Prelude.{◌≡◌, IfErr};
ghost use Rattle.serde_json.specs.View.{view};
ghost use Rattle.stark_support.specs.Json.{Gives};
ghost use Rattle.stark_clear.specs.ClearJson.{proof_at, proof_back, proof_written};

use crate::clear::pcs::ClearProof;
use serde_json::Value;
use stark_support::{JsonCodec, JsonFault};
use std::alloc::{AllocError, Global};

impl JsonCodec for ClearProof {
    ghost reading = { proof_at };

    ghost writing = { proof_written };

    /// Null alone. It takes no memory.
    fn from_json(_alloc: Global, value: &Value) -> Result<ClearProof, JsonFault>
        ensures reads { Gives (λ x. x) result
            (⟦<ClearProof as JsonCodec>⟧.reading (view value.now)) }
        ensures no_memory { IfErr result (λ fault. fault ≡ JsonFault.Invalid) }
    {
        if value.is_null() {
            Ok(ClearProof)
        } else {
            Err(JsonFault::Invalid)
        }
    }

    /// Null.
    fn to_json(&self, _alloc: Global) -> Result<Value, AllocError> {
        Ok(Value::Null)
    }

    ghost reads_back = { proof_back };
}
