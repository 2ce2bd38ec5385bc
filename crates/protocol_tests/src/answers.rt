//! The answers to cases: over two fields, and over each packing of the smaller where they ask for
//! lanes.
use crate::{
    airs, chains, constraints, domains, hostile_inputs, preprocessing, proofs, provers, quotients,
    security, sizing, trees, verdicts,
};
use stark_bench::{
    BabyBearField, ClearCommitment, Ext4, F12289, P12289, S12289, ScriptChallenger,
    Sha256Challenger,
};
use stark_parts::StarkChallenger;
use stark_support::{
    ExtensionField, NeverNull, PackedExtensionField, PackedField, PrimeField64, QuarticBase,
    TwoAdicField,
};
use stark_test_cases::{apart, elements_in, script_of};
use std::alloc::Global;
use std::fmt::Debug;
use std::test::Fail;

/// The answer to a case of a subject that asks for lanes, over any field and extension, with a
/// challenger that no other case has seen.
fn answer_in_lanes<F, EF, C>(
    alloc: Global,
    challenger: C,
    subject: &str,
    case: &str,
) -> Result<String, Fail>
where
    F: PrimeField64 + TwoAdicField + PackedField + NeverNull,
    EF: PackedExtensionField<F> + NeverNull + Debug,
    C: StarkChallenger<F, EF, ClearCommitment<F>>,
{
    match subject {
        "provers" => provers::answer::<F, EF, C>(alloc, challenger, case),
        "quotients" => quotients::answer::<F, EF, C>(alloc, challenger, case),
        _ => Err(Fail::new("no such subject")),
    }
}

/// The answer to a case of a table that asks for no challenger's state.
fn answer_of_table<F, EF, C>(alloc: Global, subject: &str, case: &str) -> Result<String, Fail>
where
    F: PrimeField64 + TwoAdicField + NeverNull + Debug,
    EF: ExtensionField<F> + NeverNull + Debug,
    C: StarkChallenger<F, EF, ClearCommitment<F>>,
{
    let (table, text) = apart(case)?;
    match subject {
        "domains" => domains::answer::<F, EF, C>(alloc, table, text),
        "proofs" => proofs::answer::<F, EF>(alloc, table, text),
        "sizing" => sizing::answer::<F, EF>(alloc, table, text),
        _ => Err(Fail::new("no such subject")),
    }
}

/// The answer to a case of each subject. What asks for no lanes is asked over fields of one lane.
fn answer<F, EF, C>(alloc: Global, challenger: C, subject: &str, case: &str) -> Result<String, Fail>
where
    F: PrimeField64 + TwoAdicField + QuarticBase + PackedField + NeverNull + Debug,
    EF: PackedExtensionField<F> + NeverNull + Debug,
    C: StarkChallenger<F, EF, ClearCommitment<F>>,
{
    match subject {
        "airs" => airs::answer::<F, EF, C>(alloc, case),
        "chains" => chains::answer::<F, EF>(alloc, case),
        "constraints" => constraints::answer::<F, EF, C>(alloc, case),
        "hostile inputs" => hostile_inputs::answer::<F, EF, C>(alloc, challenger, case),
        "preprocessing" => preprocessing::answer::<F, EF, C>(alloc, challenger, case),
        "security" => security::answer::<F, EF, C>(alloc, case),
        "domains" | "proofs" | "sizing" => answer_of_table::<F, EF, C>(alloc, subject, case),
        "trees" => trees::answer::<F, EF, C>(alloc, challenger, case),
        "verdicts" => verdicts::answer::<F, EF, C>(alloc, challenger, case),
        _ => answer_in_lanes::<F, EF, C>(alloc, challenger, subject, case),
    }
}

/// The numbers of the script where a case names no challenger.
const NUMBERS: &str = "4 0 0 0 3 0 0 0";

/// The challenger that hands out the numbers behind a case's first word `script`, or some where a
/// case names no challenger; none where the first word is `sha256`.
fn script<F: PrimeField64>(alloc: Global, case: &str) -> Result<Option<ScriptChallenger<F>>, Fail> {
    if case.starts_with("sha256 | ") {
        return Ok(None);
    }
    let numbers = match case.strip_prefix("script ") {
        Some(rest) => apart(rest)?.0,
        None => NUMBERS,
    };
    Ok(Some(script_of(elements_in::<F>(alloc, numbers)?)?))
}

pub fn scalar(alloc: Global, subject: &str, case: &str) -> Result<String, Fail> {
    match script::<S12289>(alloc, case)? {
        Some(challenger) => answer::<S12289, Ext4<S12289>, ScriptChallenger<S12289>>(
            alloc, challenger, subject, case,
        ),
        None => provers::answer::<S12289, Ext4<S12289>, Sha256Challenger<S12289>>(
            alloc,
            Sha256Challenger::new(),
            case,
        ),
    }
}

pub fn baby_bear(alloc: Global, subject: &str, case: &str) -> Result<String, Fail> {
    match script::<BabyBearField>(alloc, case)? {
        Some(challenger) => answer::<
            BabyBearField,
            Ext4<BabyBearField>,
            ScriptChallenger<BabyBearField>,
        >(alloc, challenger, subject, case),
        None => provers::answer::<
            BabyBearField,
            Ext4<BabyBearField>,
            Sha256Challenger<BabyBearField>,
        >(alloc, Sha256Challenger::new(), case),
    }
}

pub fn packed(alloc: Global, subject: &str, case: &str) -> Result<String, Fail> {
    let challenger = script::<P12289>(alloc, case)?.ok_or("hashing in lanes")?;
    answer_in_lanes::<P12289, Ext4<P12289>, ScriptChallenger<P12289>>(
        alloc, challenger, subject, case,
    )
}

pub fn lockstep(alloc: Global, subject: &str, case: &str) -> Result<String, Fail> {
    let challenger = script::<F12289>(alloc, case)?.ok_or("hashing in lanes")?;
    answer_in_lanes::<F12289, Ext4<F12289>, ScriptChallenger<F12289>>(
        alloc, challenger, subject, case,
    )
}
