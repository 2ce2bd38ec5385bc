//! Proofs in JSON.
ghost use Rattle.std.specs.Prelude.{◌≡◌, IfOk};
ghost use Rattle.serde_json.specs.Data.{number, unsigned};
ghost use Rattle.serde_json.specs.View.{members_view, view};
ghost use Rattle.stark_proof.specs.ProofJson.{Decodes, degree_bits_at, openings_reading, proof_fault, proof_members, proof_object, proof_reading, within_openings, WritesProof, members_of, object_of, DecodesProof, ReadBack};
ghost use Rattle.stark_proof.specs.ProofView.{openings_view, proof_view};

use crate::error::{OpeningsDecodeError, ProofDecodeError};
use crate::fields::{element_or_zero, nonzero_to_json, put_value, required, required_value};
use crate::values::{Commitments, OpenedValues, Proof};
use serde_json::{Map, Value, put};
use stark_support::{Field, JsonCodec, NeverNull};
use std::alloc::{AllocError, Global};

/// The logarithm of a height: a whole number that fits.
fn degree_bits_from_json(value: &Value) -> Result<usize, ProofDecodeError>
    ensures { Decodes (λ n. n) proof_fault result (degree_bits_at (view value.now)) }
{
    match value.as_u64() {
        Some(number) => Ok(number as usize),
        None => Err(ProofDecodeError::WrongKind {
            field: "degree_bits",
        }),
    }
}

/// The number of the degree bits.
fn degree_bits_to_json(degree_bits: usize) -> Value
    ensures { view result ≡ number (unsigned degree_bits) }
{
    Value::from(degree_bits)
}

/// The opened values of a proof; a fault of theirs is one of the proof's.
fn openings_from_json<Challenge: JsonCodec + Drop>(
    alloc: Global,
    value: &Value,
) -> Result<OpenedValues<Challenge>, ProofDecodeError>
    ensures { Decodes openings_view proof_fault result
        (within_openings (openings_reading Challenge.reading (view value.now))) }
{
    match OpenedValues::from_json(alloc, value) {
        Ok(opened_values) => Ok(opened_values),
        Err(OpeningsDecodeError::OutOfMemory) => Err(ProofDecodeError::OutOfMemory),
        Err(error) => Err(ProofDecodeError::Openings(error)),
    }
}

fn proof_members(
    alloc: Global,
    commitments: Value,
    opened_values: Value,
    opening_proof: Value,
    degree_bits: Value,
    ood_pow_witness: Value,
) -> Result<Map<String, Value>, AllocError>
    ensures { IfOk result (λ map. members_view map.entries
        ≡ members_of view commitments opened_values opening_proof degree_bits ood_pow_witness) }
{
    let mut map = Map::new(alloc);
    put(&mut map, alloc, "commitments", commitments)?;
    put(&mut map, alloc, "opened_values", opened_values)?;
    put(&mut map, alloc, "opening_proof", opening_proof)?;
    put(&mut map, alloc, "degree_bits", degree_bits)?;
    put(&mut map, alloc, "ood_pow_witness", ood_pow_witness)?;
    Ok(map)
}

/// An object of five keys, and of a sixth where there is a witness before alpha.
fn proof_object(
    alloc: Global,
    alpha_pow_witness: Option<Value>,
    commitments: Value,
    opened_values: Value,
    opening_proof: Value,
    degree_bits: Value,
    ood_pow_witness: Value,
) -> Result<Value, AllocError>
    ensures { IfOk result (λ value. view value
        ≡ object_of view alpha_pow_witness commitments opened_values opening_proof degree_bits
        ood_pow_witness) }
{
    let mut map = proof_members(
        alloc,
        commitments,
        opened_values,
        opening_proof,
        degree_bits,
        ood_pow_witness,
    )?;
    put_value(&mut map, alloc, "alpha_pow_witness", alpha_pow_witness)?;
    Ok(Value::Object(map))
}

impl<
    Com: NeverNull + Drop,
    Challenge: JsonCodec + Drop,
    PcsProof: JsonCodec + Drop,
    Val: Field + NeverNull,
> Proof<Com, Challenge, PcsProof, Val> {
    /// The proof that an object spells. Its fields are read in the order `commitments`,
    /// `opened_values`, `opening_proof`, `degree_bits`, `ood_pow_witness`, `alpha_pow_witness`,
    /// others are ignored, and the first fault is answered. The first five are required, and
    /// `alpha_pow_witness` is zero where it is missing or null.
    ///
    /// - `WrongKind` with an empty name where the value isn't an object.
    /// - `MissingField` where a required field isn't there, also one of the commitments.
    /// - `WrongKind` where the commitments aren't an object, or the degree bits aren't a whole
    ///   number that fits: one with a fraction or an exponent is none.
    /// - `Element` where a commitment, the opening proof or a witness is refused.
    /// - `Openings` where the opened values are not read, with their own error, which is not
    ///   `OutOfMemory`.
    /// - `OutOfMemory` wherever a growth was refused.
    #[tactic(auto, unfolding(crate::specs::ProofJson::proof_reading))]
    pub fn from_json(alloc: Global, value: &Value) -> Result<Self, ProofDecodeError>
        ensures decoded { DecodesProof result
            (proof_reading Com.reading Challenge.reading PcsProof.reading Val.reading
            Val.ring.zero (view value.now)) }
    {
        if !value.is_object() {
            return Err(ProofDecodeError::WrongKind { field: "" });
        }
        let commitments = Commitments::from_json(alloc, required(value, "commitments")?)?;
        let opened_values = openings_from_json(alloc, required(value, "opened_values")?)?;
        let opening_proof = required_value(alloc, value, "opening_proof")?;
        let degree_bits = degree_bits_from_json(required(value, "degree_bits")?)?;
        let ood_pow_witness = required_value(alloc, value, "ood_pow_witness")?;
        let alpha_pow_witness = element_or_zero(alloc, value, "alpha_pow_witness")?;
        Ok(Proof {
            commitments,
            opened_values,
            opening_proof,
            degree_bits,
            ood_pow_witness,
            alpha_pow_witness,
        })
    }

    /// An object with the five required keys, and with `alpha_pow_witness` where that witness isn't
    /// zero. It is read back as this proof, unless its opened values break the rule of the
    /// preprocessed rows: then that fault is found.
    #[tactic(auto, unfolding(crate::specs::ProofJson::proof_writing))]
    pub fn to_json(&self, alloc: Global) -> Result<Value, AllocError>
        ensures written { IfOk result (WritesProof view Com.writing Challenge.writing
            PcsProof.writing Val.writing Val.eq Val.ring.zero self.now) }
        ensures read_back { IfOk result (ReadBack view
            (proof_reading Com.reading Challenge.reading PcsProof.reading Val.reading
            Val.ring.zero) (proof_view self.now)) }
    {
        let commitments = self.commitments.to_json(alloc)?;
        let opened_values = self.opened_values.to_json(alloc)?;
        let opening_proof = self.opening_proof.to_json(alloc)?;
        let degree_bits = degree_bits_to_json(self.degree_bits);
        let ood_pow_witness = self.ood_pow_witness.to_json(alloc)?;
        let alpha_pow_witness = nonzero_to_json(alloc, self.alpha_pow_witness)?;
        let value = proof_object(
            alloc,
            alpha_pow_witness,
            commitments,
            opened_values,
            opening_proof,
            degree_bits,
            ood_pow_witness,
        )?;
        Ok(value)
    }
}
