//! The answers to cases: over two fields, and over each packing of the smaller where they ask for
//! lanes.
use crate::{clear_scheme, fields, lanes, numbers, polynomials, seeds, transcripts};
use stark_bench::{
    BabyBearField, ClearCommitment, Ext4, F12289, P12289, S12289, ScriptChallenger,
    Sha256Challenger,
};
use stark_parts::StarkChallenger;
use stark_support::{NeverNull, PackedExtensionField, PackedField, PrimeField64, TwoAdicField};
use stark_test_cases::{apart, elements_in, script_of};
use std::alloc::Global;
use std::fmt::Debug;
use std::test::Fail;

/// The answer to a case of a subject that asks for lanes, over any field and extension.
fn answer_in_lanes<F, EF, C>(alloc: Global, subject: &str, case: &str) -> Result<String, Fail>
where
    F: PrimeField64 + TwoAdicField + PackedField + NeverNull + Debug,
    EF: PackedExtensionField<F> + TwoAdicField + NeverNull + Debug,
    C: StarkChallenger<F, EF, ClearCommitment<F>>,
{
    match subject {
        "fields" => fields::answer::<F, EF>(alloc, case),
        "lanes" => lanes::answer::<F, EF, C>(alloc, case),
        _ => Err(Fail::new("no such subject")),
    }
}

/// The answer to a case of a table that asks for no challenger.
fn answer_of_fields<F, EF>(alloc: Global, subject: &str, case: &str) -> Result<String, Fail>
where
    F: PrimeField64 + TwoAdicField + PackedField + Debug,
    EF: PackedExtensionField<F> + Debug,
{
    let (table, text) = apart(case)?;
    match subject {
        "numbers" => numbers::answer::<F, EF>(alloc, table, text),
        "polynomials" => polynomials::answer::<F, EF>(alloc, table, text),
        "seeds" => seeds::answer::<F, EF>(alloc, table, text),
        _ => Err(Fail::new("no such subject")),
    }
}

/// The answer to a subject's case, with a challenger that no other case has seen. What asks for no
/// lanes is asked over fields of one lane.
fn answer<F, EF, C>(alloc: Global, challenger: C, subject: &str, case: &str) -> Result<String, Fail>
where
    F: PrimeField64 + TwoAdicField + PackedField + NeverNull + Debug,
    EF: PackedExtensionField<F> + TwoAdicField + NeverNull + Debug,
    C: StarkChallenger<F, EF, ClearCommitment<F>>,
{
    match subject {
        "clear scheme" => clear_scheme::answer::<F, EF, C>(alloc, challenger, case),
        "numbers" | "polynomials" | "seeds" => answer_of_fields::<F, EF>(alloc, subject, case),
        "transcripts" => transcripts::answer::<F, EF, C>(alloc, challenger, case),
        _ => answer_in_lanes::<F, EF, C>(alloc, subject, case),
    }
}

/// The challenger that hands out the numbers behind a case's first word, where that is `script`.
fn script<F: PrimeField64>(alloc: Global, case: &str) -> Result<Option<ScriptChallenger<F>>, Fail> {
    let Some(rest) = case.strip_prefix("script ") else {
        return Ok(None);
    };
    let (numbers, _rest) = rest.split_once(" | ").ok_or("no bar")?;
    Ok(Some(script_of(elements_in::<F>(alloc, numbers)?)?))
}

/// The answer to a subject's case, with the challenger of a script where the case names one, and
/// else with one that hashes.
fn answer_over<F, EF, C>(
    alloc: Global,
    hashing: C,
    subject: &str,
    case: &str,
) -> Result<String, Fail>
where
    F: PrimeField64 + TwoAdicField + PackedField + NeverNull + Debug,
    EF: PackedExtensionField<F> + TwoAdicField + NeverNull + Debug,
    C: StarkChallenger<F, EF, ClearCommitment<F>>,
    ScriptChallenger<F>: StarkChallenger<F, EF, ClearCommitment<F>>,
{
    match script::<F>(alloc, case)? {
        Some(script) => answer::<F, EF, ScriptChallenger<F>>(alloc, script, subject, case),
        None => answer::<F, EF, C>(alloc, hashing, subject, case),
    }
}

pub fn scalar(alloc: Global, subject: &str, case: &str) -> Result<String, Fail> {
    let hashing = Sha256Challenger::<S12289>::new();
    answer_over::<S12289, Ext4<S12289>, _>(alloc, hashing, subject, case)
}

pub fn baby_bear(alloc: Global, subject: &str, case: &str) -> Result<String, Fail> {
    let hashing = Sha256Challenger::<BabyBearField>::new();
    answer_over::<BabyBearField, Ext4<BabyBearField>, _>(alloc, hashing, subject, case)
}

pub fn packed(alloc: Global, subject: &str, case: &str) -> Result<String, Fail> {
    answer_in_lanes::<P12289, Ext4<P12289>, Sha256Challenger<P12289>>(alloc, subject, case)
}

pub fn lockstep(alloc: Global, subject: &str, case: &str) -> Result<String, Fail> {
    answer_in_lanes::<F12289, Ext4<F12289>, Sha256Challenger<F12289>>(alloc, subject, case)
}
