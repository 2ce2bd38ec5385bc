//! Roots that JSON spells: a text of 64 hexadecimal digits, and no other value.
ghost use Rattle.std.specs.Prelude.{◌≡◌, IfErr};
ghost use Rattle.serde_json.specs.View.{view};
ghost use Rattle.stark_support.specs.Json.{Gives};
ghost use Rattle.stark_support.specs.declared.json.JsonFault.TheVariants.{Invalid};
ghost use Rattle.stark_merkle.specs.RootJson.{root_at, root_never_null, root_reads_back, root_written};

use crate::root::Root;
use hex::FromHex;
use serde_json::Value;
use stark_support::{JsonCodec, JsonFault, NeverNull};
use std::alloc::{AllocError, Global};

impl JsonCodec for Root {
    ghost reading = { root_at };

    ghost writing = { root_written };

    /// The root of a text of exactly 64 hexadecimal digits of either case, two for each byte, the
    /// higher first. `Invalid` for any other value. It takes no memory.
    #[tactic(auto, unfolding(crate::specs::RootJson::root_at))]
    fn from_json(_alloc: Global, value: &Value) -> Result<Root, JsonFault>
        ensures read { Gives (λ x. x) result (root_at (view value.now)) }
        ensures no_memory { IfErr result (λ fault. fault ≡ Invalid) }
    {
        let Some(text) = value.as_str() else {
            return Err(JsonFault::Invalid);
        };
        match <[u8; 32] as FromHex>::from_hex(text) {
            Ok(bytes) => Ok(Root::new(bytes)),
            Err(_) => Err(JsonFault::Invalid),
        }
    }

    /// The text of its 64 digits, the letters in lower case. It is Err only where an allocation
    /// failed.
    fn to_json(&self, alloc: Global) -> Result<Value, AllocError> {
        Ok(Value::from(hex::encode(alloc, self.bytes())?))
    }

    ghost reads_back = { root_reads_back };
}

impl NeverNull for Root {
    ghost never_null = { root_never_null };
}
