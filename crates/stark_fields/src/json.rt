//! Elements that JSON spells: each by its one number below the modulus, and no other.
ghost use Rattle.std.specs.Prelude.{◌≡◌, IfErr, IfOk, IsOk};
ghost use Rattle.serde_json.specs.View.{view};
ghost use Rattle.stark_support.specs.Json.{Gives};
ghost use Rattle.stark_support.specs.declared.json.JsonFault.TheVariants.{Invalid};
ghost use Rattle.stark_fields.specs.ElementJson.{base_at, base_written, base_reads_back, base_never_null, element_at, element_never_null, element_written, element_reads_back, of_four};

use crate::ext4::Ext4;
use crate::modulus::Modulus;
use crate::residue::Residue;
use serde_json::Value;
use stark_support::{JsonCodec, JsonFault, NeverNull, list_from_json};
use std::alloc::{AllocError, Global};

impl<M: Modulus, Kind> JsonCodec for Residue<M, Kind> {
    ghost reading = { base_at };

    ghost writing = { base_written };

    /// The element of a whole number below the modulus. `Invalid` for any other value, also for the
    /// modulus and numbers above it. It takes no memory.
    #[tactic(auto, unfolding(crate::specs::ElementJson::base_at))]
    fn from_json(_alloc: Global, value: &Value) -> Result<Residue<M, Kind>, JsonFault>
        ensures read { Gives (λ x. x) result (base_at (view value.now)) }
        ensures no_memory { IfErr result (λ fault. fault ≡ Invalid) }
    {
        let Some(number) = value.as_u64() else {
            return Err(JsonFault::Invalid);
        };
        if number >= u64::from(M::MODULUS) {
            return Err(JsonFault::Invalid);
        }
        Ok(Residue::new(number as u32))
    }

    /// The number below the modulus. It takes no memory, and is never Err.
    fn to_json(&self, _alloc: Global) -> Result<Value, AllocError>
        ensures written { IfOk result (λ value. view value ≡ base_written self.now) }
        ensures no_memory { IsOk result }
    {
        Ok(Value::from(self.value()))
    }

    ghost reads_back = { base_reads_back };
}

impl<M: Modulus, Kind> NeverNull for Residue<M, Kind> {
    ghost never_null = { base_never_null };
}

fn from_four<F: Copy>(coordinates: &[F]) -> Option<Ext4<F>>
    ensures { result ≡ of_four coordinates.now }
{
    match coordinates {
        [c0, c1, c2, c3] => Some(Ext4 {
            c0: *c0,
            c1: *c1,
            c2: *c2,
            c3: *c3,
        }),
        _ => None,
    }
}

impl<F: JsonCodec + Copy> JsonCodec for Ext4<F> {
    ghost reading = { element_at F.reading };

    ghost writing = { element_written F.writing };

    /// The element of an array of exactly four coordinates, the constant first. `Invalid` for any
    /// other value, `OutOfMemory` where memory was refused.
    #[tactic(auto, unfolding(crate::specs::ElementJson::element_at))]
    fn from_json(alloc: Global, value: &Value) -> Result<Ext4<F>, JsonFault> {
        let coordinates = list_from_json::<F>(alloc, value)?;
        match from_four(&coordinates) {
            Some(element) => Ok(element),
            None => Err(JsonFault::Invalid),
        }
    }

    /// The array of the four coordinates. It is Err only where memory was refused.
    fn to_json(&self, alloc: Global) -> Result<Value, AllocError> {
        let mut coordinates = Vec::new(alloc);
        coordinates.push(self.c0.to_json(alloc)?)?;
        coordinates.push(self.c1.to_json(alloc)?)?;
        coordinates.push(self.c2.to_json(alloc)?)?;
        coordinates.push(self.c3.to_json(alloc)?)?;
        Ok(Value::Array(coordinates))
    }

    ghost reads_back = { element_reads_back F.reading F.writing F.reads_back };
}

impl<F: JsonCodec + Copy> NeverNull for Ext4<F> {
    ghost never_null = { element_never_null F.writing };
}
