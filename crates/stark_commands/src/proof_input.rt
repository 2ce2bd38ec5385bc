//! The input of `verify`, read from JSON.

ghost use Rattle.std.specs.Prelude.{◌≡◌, IfOk, option_map};
ghost use Rattle.serde_json.specs.Find.{get};
ghost use Rattle.serde_json.specs.View.{view};
ghost use Rattle.stark_support.specs.Json.{Gives};
ghost use Rattle.stark_fields.specs.ElementJson.{base_at, element_at};
ghost use Rattle.stark_fields.specs.Residues.{residue_ring};
ghost use Rattle.stark_commands.specs.ProofInput.{HasSomeNumber, bits_at, challenger_at, named_challenger, ok_of, proof_numbers, proof_numbers_at, proof_numbers_in};
ghost use Rattle.stark_proof.specs.ProofJson.{proof_reading};
ghost use Rattle.stark_proof.specs.ProofView.{proof_view};

use crate::input::Extension;
use serde_json::Value;
use stark_bench::F12289;
use stark_proof::{Proof, ProofDecodeError};
use stark_support::{JsonCodec, JsonFault, NeverNull, field_of, list_from_json, value_from_bytes};
use std::alloc::Global;

/// The challenger from which a verifier or a prover draws.
#[derive(Debug, Drop)]
pub enum ChosenChallenger {
    /// The one that hashes what it observes.
    Sha256,
    /// The one that hands out these numbers, round and round.
    Script(Vec<F12289>),
}

/// What `verify` reads.
#[derive(Debug, Drop)]
pub struct ProofInput<Com, PcsProof> {
    pub proof: Proof<Com, Extension, PcsProof, F12289>,
    pub public_values: Vec<F12289>,
    pub challenger: ChosenChallenger,
    /// How many bits of work are asked for before the point out of the domain.
    pub ood_bits: usize,
    /// How many bits of work are asked for before alpha.
    pub alpha_bits: usize,
}

/// A challenger by its name, or by its numbers, of which there are some.
#[tactic(auto, unfolding(crate::specs::ProofInput::challenger_at))]
pub(crate) fn challenger_from_json(
    alloc: Global,
    value: &Value,
) -> Result<ChosenChallenger, JsonFault>
    ensures reads { Gives named_challenger result (challenger_at (view value.now)) }
    ensures some { IfOk result HasSomeNumber }
{
    if value.as_str() == Some("sha256") {
        return Ok(ChosenChallenger::Sha256);
    }
    let numbers = list_from_json::<F12289>(alloc, value)?;
    if numbers.is_empty() {
        return Err(JsonFault::Invalid);
    }
    Ok(ChosenChallenger::Script(numbers))
}

/// A number of bits, 0 where it is missing or null.
#[tactic(auto, unfolding(crate::specs::ProofInput::bits_at))]
pub(crate) fn bits_from_json(value: Option<&Value>) -> Result<usize, JsonFault>
    ensures { Gives (λ n. n) result (bits_at (option_map (λ v. view v.now) value.entry)) }
{
    let Some(value) = value else {
        return Ok(0);
    };
    if value.is_null() {
        return Ok(0);
    }
    match value.as_u64() {
        Some(bits) => Ok(bits as usize),
        None => Err(JsonFault::Invalid),
    }
}

/// A proof, without the fault where there is none.
fn proof_from_json<Com: NeverNull + Drop, PcsProof: JsonCodec + Drop>(
    alloc: Global,
    value: &Value,
) -> Result<Proof<Com, Extension, PcsProof, F12289>, JsonFault>
    ensures { Gives proof_view result (ok_of
        (proof_reading Com.reading (element_at base_at) PcsProof.reading base_at
        residue_ring.zero (view value.now))) }
{
    match Proof::from_json(alloc, value) {
        Ok(proof) => Ok(proof),
        Err(ProofDecodeError::OutOfMemory) => Err(JsonFault::OutOfMemory),
        Err(_) => Err(JsonFault::Invalid),
    }
}

/// What a JSON value has under the names `proof`, `publics`, `challenger`, `ood_bits` and
/// `alpha_bits`, of which the last two may be missing.
#[tactic(auto, unfolding(crate::specs::ProofInput::proof_numbers_at))]
fn proof_input_of<Com: NeverNull + Drop, PcsProof: JsonCodec + Drop>(
    alloc: Global,
    value: &Value,
) -> Result<ProofInput<Com, PcsProof>, JsonFault>
    ensures reads { Gives proof_numbers result
        (proof_numbers_at Com.reading PcsProof.reading (view value.now)) }
    ensures some { IfOk result (λ input. HasSomeNumber input.challenger) }
{
    let proof = proof_from_json(alloc, field_of(value, "proof")?)?;
    let public_values = list_from_json::<F12289>(alloc, field_of(value, "publics")?)?;
    let challenger = challenger_from_json(alloc, field_of(value, "challenger")?)?;
    let ood_bits = bits_from_json(value.get("ood_bits"))?;
    let alpha_bits = bits_from_json(value.get("alpha_bits"))?;
    Ok(ProofInput {
        proof,
        public_values,
        challenger,
        ood_bits,
        alpha_bits,
    })
}

/// What the bytes spell.
#[tactic(auto, unfolding(crate::specs::ProofInput::proof_numbers_in))]
pub fn proof_input_from<Com: NeverNull + Drop, PcsProof: JsonCodec + Drop>(
    alloc: Global,
    bytes: &[u8],
) -> Result<ProofInput<Com, PcsProof>, JsonFault>
    ensures reads { Gives proof_numbers result
        (proof_numbers_in Com.reading PcsProof.reading bytes.now) }
    ensures some { IfOk result (λ input. HasSomeNumber input.challenger) }
{
    let value = value_from_bytes(alloc, bytes)?;
    proof_input_of(alloc, &value)
}
