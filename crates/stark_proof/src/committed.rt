//! Commitments in JSON.
ghost use Rattle.std.specs.Prelude.{◌≡◌, IfOk, Ok};
ghost use Rattle.serde_json.specs.View.{view};
ghost use Rattle.stark_proof.specs.ProofJson.{Decodes, commitments_object, commitments_reading, commitments_writing, proof_fault};

use crate::error::ProofDecodeError;
use crate::fields::{optional_value, required_value, value_or_null};
use crate::values::Commitments;
use serde_json::{Value, json};
use stark_support::{JsonCodec, NeverNull};
use std::alloc::{AllocError, Global};

fn commitments_object(
    alloc: Global,
    trace: Value,
    quotient_chunks: Value,
    random: Value,
) -> Result<Value, AllocError>
    ensures { IfOk result (λ value. view value
        ≡ commitments_object (view trace) (view quotient_chunks) (view random)) }
{
    json!(in alloc; {
        "trace": trace,
        "quotient_chunks": quotient_chunks,
        "random": random,
    })
}

impl<Com: NeverNull + Drop> Commitments<Com> {
    /// The commitments that an object spells. Its fields are read in the order `trace`,
    /// `quotient_chunks`, `random`, others are ignored, and the first fault is answered. The first
    /// two are required, and `random` is None where it is missing or null.
    ///
    /// - `WrongKind` with the name `commitments` where the value isn't an object.
    /// - `MissingField` where a required field isn't there.
    /// - `Element` where a commitment is refused.
    /// - `OutOfMemory` wherever a growth was refused.
    #[tactic(auto, unfolding(crate::specs::ProofJson::commitments_reading))]
    pub fn from_json(alloc: Global, value: &Value) -> Result<Commitments<Com>, ProofDecodeError>
        ensures decoded { Decodes (λ c. c) proof_fault result
            (commitments_reading Com.reading (view value.now)) }
    {
        if !value.is_object() {
            return Err(ProofDecodeError::WrongKind {
                field: "commitments",
            });
        }
        let trace = required_value(alloc, value, "trace")?;
        let quotient_chunks = required_value(alloc, value, "quotient_chunks")?;
        let random = optional_value(alloc, value, "random")?;
        Ok(Commitments {
            trace,
            quotient_chunks,
            random,
        })
    }

    /// An object with all three keys; an absent commitment is null. It is read back as these
    /// commitments.
    #[tactic(auto, unfolding(crate::specs::ProofJson::commitments_writing))]
    pub fn to_json(&self, alloc: Global) -> Result<Value, AllocError>
        ensures written { IfOk result (λ value. view value
            ≡ commitments_writing Com.writing self.now) }
        ensures read_back { IfOk result (λ value. commitments_reading Com.reading (view value)
            ≡ Ok self.now) }
    {
        let trace = self.trace.to_json(alloc)?;
        let quotient_chunks = self.quotient_chunks.to_json(alloc)?;
        let random = value_or_null(alloc, &self.random)?;
        let value = commitments_object(alloc, trace, quotient_chunks, random)?;
        Ok(value)
    }
}
