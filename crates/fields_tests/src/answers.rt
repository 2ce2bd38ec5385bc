//! The answers to cases, over any of the fields.
use crate::{challengers, cosets, fields};
use stark_bench::{
    BabyBearField, Ext4, KoalaBearField, S12289, ScriptChallenger, Sha256Challenger,
};
use stark_support::{ExtensionField, JsonCodec, NeverNull, PrimeField64, TwoAdicField};
use stark_test_cases::{apart, read_all, script_of};
use std::alloc::Global;
use std::fmt::Debug;
use std::test::Fail;

/// The answer to a case of a field and its extension.
fn of_fields<F, EF>(alloc: Global, case: &str) -> Result<String, Fail>
where
    F: PrimeField64 + TwoAdicField + NeverNull + Debug,
    EF: ExtensionField<F> + TwoAdicField + NeverNull + Debug,
{
    let (table, text) = apart(case)?;
    match table {
        "base" => fields::operation::<F>(alloc, text),
        "above" => fields::operation::<EF>(alloc, text),
        "factor" => fields::factor::<F>(alloc, text),
        "factor above" => fields::factor::<EF>(alloc, text),
        "power" => fields::power::<F>(alloc, text),
        "generator" => fields::generator::<F, EF>(alloc, text),
        "json" => fields::json::<F>(alloc, text),
        "json above" => fields::json::<EF>(alloc, text),
        _ => cosets::answer::<F, EF>(alloc, table, text),
    }
}

pub fn baby_bear(alloc: Global, case: &str) -> Result<String, Fail> {
    of_fields::<BabyBearField, Ext4<BabyBearField>>(alloc, case)
}

pub fn koala_bear(alloc: Global, case: &str) -> Result<String, Fail> {
    of_fields::<KoalaBearField, Ext4<KoalaBearField>>(alloc, case)
}

pub fn of_12289(alloc: Global, case: &str) -> Result<String, Fail> {
    of_fields::<S12289, Ext4<S12289>>(alloc, case)
}

/// The challenger that hands out the elements behind the word `script`; none where a case names
/// another.
fn script<F: JsonCodec + Drop>(
    alloc: Global,
    name: &str,
) -> Result<Option<ScriptChallenger<F>>, Fail> {
    let Some(list) = name.strip_prefix("script ") else {
        return Ok(None);
    };
    Ok(Some(script_of(read_all::<F>(alloc, list)?)?))
}

/// The answer of the challenger that a case's first word names.
pub fn drawn(alloc: Global, case: &str) -> Result<String, Fail> {
    let (name, steps) = apart(case)?;
    match script::<BabyBearField>(alloc, name)? {
        Some(challenger) => challengers::answer::<
            BabyBearField,
            Ext4<BabyBearField>,
            ScriptChallenger<BabyBearField>,
        >(alloc, challenger, steps),
        None => challengers::answer::<
            BabyBearField,
            Ext4<BabyBearField>,
            Sha256Challenger<BabyBearField>,
        >(alloc, Sha256Challenger::new(), steps),
    }
}

/// What a challenger over the field of 12289 answers to a case of steps.
pub fn drawn_of_12289(alloc: Global, case: &str) -> Result<String, Fail> {
    let (name, steps) = apart(case)?;
    match script::<S12289>(alloc, name)? {
        Some(challenger) => challengers::answer::<S12289, Ext4<S12289>, ScriptChallenger<S12289>>(
            alloc, challenger, steps,
        ),
        None => challengers::answer::<S12289, Ext4<S12289>, Sha256Challenger<S12289>>(
            alloc,
            Sha256Challenger::new(),
            steps,
        ),
    }
}
