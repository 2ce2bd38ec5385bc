//! All that a verifier is given, as one JSON text, and what it answers: the declarations of an AIR,
//! the key, the challenger's numbers and the bits of work before zeta and before alpha, the public
//! values, the opened preprocessed rows and the proof, whose JSON has none of those rows, since
//! JSON can't spell all of them.
use crate::calls::ClearConfig;
use crate::kinds::{DeclaringAir, NamedAir};
use crate::proofs::value_of;
use crate::proving::{MaskedConfig, masked};
use p3_uni_stark::{
    PcsProof, PreprocessedOpenedValues, PreprocessedVerifierKey, Proof, verify_with_preprocessed,
};
use serde_json::Value;
use stark_bench::ClearCommitment;
use stark_clear::{ClearPcs, ClearProof};
use stark_parts::{Com, PcsError, StarkChallenger, StarkConfig, StarkGenericConfig, Val};
use stark_support::{
    ExtensionField, Field, GrindingChallenger, JsonCodec, NeverNull, PrimeField64, TwoAdicField,
    list_from_json, lists_from_json,
};
use stark_test_cases::{apart, shown};
use std::alloc::Global;
use std::fmt::Debug;
use std::test::Fail;

fn list_at<T: JsonCodec + Drop>(alloc: Global, value: &Value, key: &str) -> Result<Vec<T>, Fail> {
    let list = value.get(key).ok_or("no list")?;
    Ok(list_from_json(alloc, list).ok().ok_or("another list")?)
}

fn flag_at(value: &Value, key: &str) -> Result<bool, Fail> {
    Ok(value.get(key).and_then(Value::as_bool).ok_or("no flag")?)
}

fn number_at(value: &Value, key: &str) -> Option<usize> {
    let number = value.get(key)?.as_u64()?;
    Some(number as usize)
}

fn air_of<F: JsonCodec + Drop>(alloc: Global, value: &Value) -> Result<NamedAir<F>, Fail> {
    let periodic = value.get("periodic").ok_or("no columns")?;
    Ok(NamedAir::Declaring(DeclaringAir {
        reads_next: flag_at(value, "next")?,
        preprocessed: if flag_at(value, "fixed")? {
            Some(1)
        } else {
            None
        },
        reads_preprocessed_next: flag_at(value, "fixed_next")?,
        periodic: lists_from_json(alloc, periodic)
            .ok()
            .ok_or("other columns")?,
        hint: number_at(value, "hint"),
    }))
}

/// The key; none where it is missing.
fn key_of<K: JsonCodec + Drop>(
    alloc: Global,
    value: &Value,
) -> Result<Option<PreprocessedVerifierKey<K>>, Fail> {
    let Some(key) = value.get("key") else {
        return Ok(None);
    };
    let commitment = key.get("commitment").ok_or("no commitment")?;
    Ok(Some(PreprocessedVerifierKey {
        width: number_at(key, "width").ok_or("no width")?,
        degree_bits: number_at(key, "height").ok_or("no height")?,
        commitment: K::from_json(alloc, commitment)
            .ok()
            .ok_or("another commitment")?,
    }))
}

/// The opened preprocessed rows; none where the current one is missing.
fn preprocessed_rows_of<EF: JsonCodec + Drop>(
    alloc: Global,
    value: &Value,
) -> Result<Option<PreprocessedOpenedValues<EF>>, Fail> {
    if value.get("fixed_row").is_none() {
        return Ok(None);
    }
    let local = list_at(alloc, value, "fixed_row")?;
    let next = match value.get("fixed_row_after") {
        Some(_) => Some(list_at(alloc, value, "fixed_row_after")?),
        None => None,
    };
    Ok(Some(PreprocessedOpenedValues { local, next }))
}

fn proof_of<K: NeverNull + Drop, EF: JsonCodec + Drop, P: JsonCodec + Drop, F: Field + NeverNull>(
    alloc: Global,
    value: &Value,
) -> Result<Proof<K, EF, P, F>, Fail> {
    let json = value.get("proof").ok_or("no proof")?;
    let mut proof: Proof<K, EF, P, F> = Proof::from_json(alloc, json).ok().ok_or("another proof")?;
    proof.opened_values.preprocessed = preprocessed_rows_of(alloc, value)?;
    Ok(proof)
}

/// What a verifier is given.
#[derive(Drop)]
struct Input<K, EF, P, F> {
    air: NamedAir<F>,
    key: Option<PreprocessedVerifierKey<K>>,
    proof: Proof<K, EF, P, F>,
    public_values: Vec<F>,
}

fn input_of<K: NeverNull + Drop, EF: JsonCodec + Drop, P: JsonCodec + Drop, F: Field + NeverNull>(
    alloc: Global,
    value: &Value,
) -> Result<Input<K, EF, P, F>, Fail> {
    Ok(Input {
        air: air_of(alloc, value)?,
        key: key_of(alloc, value)?,
        proof: proof_of(alloc, value)?,
        public_values: list_at(alloc, value, "publics")?,
    })
}

/// What any verifier answers, in words.
fn answered<SC>(
    alloc: Global,
    config: &SC,
    input: &Input<Com<SC>, SC::Challenge, PcsProof<SC>, Val<SC>>,
) -> Result<String, Fail>
where
    SC: StarkGenericConfig,
    SC::Challenger: GrindingChallenger<Witness = Val<SC>>,
    PcsError<SC>: Debug,
{
    let (air, proof, key) = (&input.air, &input.proof, input.key.as_ref());
    let answer = verify_with_preprocessed(alloc, config, air, proof, &input.public_values, key);
    shown(alloc, &answer)
}

/// The bits of work before zeta and before alpha.
fn bits_of(value: &Value) -> Result<[usize; 2], Fail> {
    Ok([
        number_at(value, "work").ok_or("no bits of work")?,
        number_at(value, "alpha_work").ok_or("no bits of work before alpha")?,
    ])
}

/// What the verifier answers of an input: the challenger | the scheme | the input. No mask is read
/// by it.
pub fn answer<F, EF, C>(alloc: Global, challenger: C, case: &str) -> Result<String, Fail>
where
    F: TwoAdicField + PrimeField64 + NeverNull,
    EF: ExtensionField<F> + JsonCodec,
    C: StarkChallenger<F, EF, ClearCommitment<F>>,
{
    let (_challenger, case) = apart(case)?;
    let (scheme, text) = apart(case)?;
    let value = value_of(alloc, text)?;
    let [ood_bits, alpha_bits] = bits_of(&value)?;
    let input = input_of::<ClearCommitment<F>, EF, ClearProof, F>(alloc, &value)?;
    if scheme == "masked" {
        let config = masked::<F, EF, C>(alloc, challenger, "1")?;
        let config = config.with_ood_proof_of_work_bits(ood_bits);
        let config = config.with_constraint_proof_of_work_bits(alpha_bits);
        return answered::<MaskedConfig<F, EF, C>>(alloc, &config, &input);
    }
    let config = StarkConfig::new(ClearPcs::new(), challenger).with_ood_proof_of_work_bits(
        ood_bits,
    );
    let config = config.with_constraint_proof_of_work_bits(alpha_bits);
    answered::<ClearConfig<F, EF, C>>(alloc, &config, &input)
}
