//! The verifier's answers, over any field, extension, hash and challenger.
use crate::cases::text_of;
use crate::claims::{opening_claims, read, read_rounds, under, whole};
use crate::edits::{edited, on_one_line};
use serde_json::Value;
use stark_bench::{Coset, Ext4, F12289, Sha256Challenger};
use stark_fri::{FriError, verify_openings};
use stark_fri_proof::{FriParameters, FriProof};
use stark_merkle::{Root, Sha256Tree, TreeHash};
use stark_support::{
    CanObserve, CanSample, ExtensionField, FieldChallenger, GrindingChallenger, JsonCodec,
    NeverNull, PrimeField64, SchemeFault, TwoAdicField, field_of, value_from_bytes,
};
use std::alloc::Global;
use std::test::Fail;

/// The parameters of five numbers.
fn parameters_of(value: &Value) -> Result<FriParameters, Fail> {
    let numbers = under(value, "parameters")?.as_array().ok_or("no array")?;
    if numbers.len() != 5 {
        return Err(Fail::new("not five numbers"));
    }
    let parameters = FriParameters::new(
        whole(&numbers[0])?,
        whole(&numbers[1])?,
        whole(&numbers[2])?,
        whole(&numbers[3])?,
        whole(&numbers[4])?,
    );
    Ok(parameters.ok().ok_or("no parameters")?)
}

/// The verifier's answer to a text of parameters, claims and a proof, from a challenger's state.
fn verdict<F, EF, H, C>(
    alloc: Global,
    mut challenger: C,
    value: &Value,
) -> Result<Result<(), SchemeFault<FriError>>, Fail>
where
    F: TwoAdicField + PrimeField64 + NeverNull,
    EF: ExtensionField<F> + NeverNull,
    H: TreeHash,
    C: FieldChallenger<F> + CanObserve<Root> + CanSample<EF> + GrindingChallenger<Witness = F>,
{
    let parameters = parameters_of(value)?;
    let rounds = read_rounds::<EF>(alloc, value)?;
    let proof: FriProof<F, EF> = read(alloc, under(value, "proof")?)?;
    let claims = opening_claims::<F, EF>(alloc, &rounds)?;
    Ok(verify_openings::<C, EF, Coset<F>, H>(alloc, &parameters, &claims, &proof, &mut challenger))
}

/// What the verifier answers over the field of 12289 and SHA-256.
fn answer_of(alloc: Global, value: &Value) -> Result<Result<(), SchemeFault<FriError>>, Fail> {
    let challenger: Sha256Challenger<F12289> = Sha256Challenger::new();
    verdict::<F12289, Ext4<F12289>, Sha256Tree, Sha256Challenger<F12289>>(alloc, challenger, value)
}

/// A text's verdict in words.
fn answer_to(alloc: Global, text: &str) -> Result<String, Fail> {
    let value = value_from_bytes(alloc, text.as_bytes())
        .ok()
        .ok_or("no JSON")?;
    match answer_of(alloc, &value)? {
        Ok(()) => Ok(String::from_str(alloc, "accepted")?),
        Err(SchemeFault::Refused(error)) => Ok(format!(in alloc; "{error:?}")?),
        Err(SchemeFault::OutOfMemory) => Err(Fail::new("out of memory")),
    }
}

/// The answer to a case: the name of a text, and the edits to it behind a bar, if there are some.
pub fn answer(alloc: Global, case: &str) -> Result<String, Fail> {
    match case.split_once(" | ") {
        None => answer_to(alloc, &on_one_line(alloc, text_of(case)?)?),
        Some((name, edits)) => {
            let text = on_one_line(alloc, text_of(name)?)?;
            answer_to(alloc, &edited(alloc, &text, edits)?)
        }
    }
}

/// Whether bytes, of which one may differ from those of an accepted text, are answered as they have
/// to be: they spell no text, or no proof, or one that is refused, or the same proof.
fn is_stated(alloc: Global, honest: &str, bytes: &[u8]) -> Result<bool, Fail> {
    let Ok(value) = value_from_bytes(alloc, bytes) else {
        return Ok(true);
    };
    let Ok(member) = field_of(&value, "proof") else {
        return Ok(true);
    };
    let Ok(proof) = FriProof::<F12289, Ext4<F12289>>::from_json(alloc, member) else {
        return Ok(true);
    };
    match answer_of(alloc, &value)? {
        Ok(()) => {
            let written = proof.to_json(alloc)?.to_string(alloc)?;
            Ok(honest.contains(written.as_str()))
        }
        Err(_) => Ok(true),
    }
}

/// How many texts there are with one byte of this text's proof replaced by this one; Err at the
/// first that isn't answered as it has to be.
pub fn each_byte_replaced(alloc: Global, name: &str, byte: u8) -> Result<usize, Fail> {
    let honest = on_one_line(alloc, text_of(name)?)?;
    let start = honest.find("\"proof\"").ok_or("no proof")?;
    let mut count = 0usize;
    for place in start..honest.len() {
        let mut bytes: Vec<u8> = Vec::new(alloc);
        bytes.extend_from_slice(honest.as_bytes())?;
        if let Some(slot) = bytes.get_mut(place) {
            *slot = byte;
        }
        if !is_stated(alloc, &honest, &bytes)? {
            return Err(Fail::new("another proof is accepted"));
        }
        count = count.saturating_add(1);
    }
    Ok(count)
}
