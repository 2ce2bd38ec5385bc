//! The cases of all subjects; those of quotients and of proofs over each field.
use crate::answers::{baby_bear, lockstep, packed, scalar};
use crate::cases::{agreeing_cases, proof_cases};
use crate::{
    airs, chains, constraints, domains, preprocessing, proofs, provers, quotients, security,
    sizing, trees, verdicts,
};
use stark_test_cases::all_cases_of;
use std::test::Fail;

#[test]
fn all_parts(rt: HostRuntime) -> Result<(), Fail> {
    for (subject, rows) in [
        ("airs", airs::CASES),
        ("constraints", constraints::CASES),
        ("domains", domains::CASES),
        ("preprocessing", preprocessing::CASES),
        ("proofs", proofs::CASES),
        ("security", security::CASES),
        ("sizing", sizing::CASES),
    ] {
        all_cases_of(rt.alloc(), subject, rows, scalar)?;
    }
    Ok(())
}

#[test]
fn long_chains(rt: HostRuntime) -> Result<(), Fail> {
    all_cases_of(rt.alloc(), "chains", chains::CASES, scalar)?;
    all_cases_of(rt.alloc(), "chains", chains::CASES, baby_bear)
}

#[test]
fn quotients_over_each_field(rt: HostRuntime) -> Result<(), Fail> {
    all_cases_of(rt.alloc(), "quotients", quotients::CASES, scalar)?;
    all_cases_of(rt.alloc(), "quotients", quotients::CASES, packed)?;
    all_cases_of(rt.alloc(), "quotients", quotients::CASES, lockstep)
}

#[test]
fn bad_draws_of_false_traces(rt: HostRuntime) -> Result<(), Fail> {
    all_cases_of(rt.alloc(), "security", security::BAD_ZETAS, scalar)?;
    all_cases_of(rt.alloc(), "security", security::BAD_ALPHAS, scalar)
}

#[test]
fn airs_as_data(rt: HostRuntime) -> Result<(), Fail> {
    all_cases_of(rt.alloc(), "trees", trees::CASES, scalar)?;
    all_cases_of(rt.alloc(), "trees", trees::BY_NAME, trees::json_by_name)
}

#[test]
fn verdicts_on_proofs(rt: HostRuntime) -> Result<(), Fail> {
    all_cases_of(rt.alloc(), "verdicts", verdicts::CASES, scalar)
}

#[test]
fn refusals(rt: HostRuntime) -> Result<(), Fail> {
    all_cases_of(rt.alloc(), "provers", provers::REFUSED, scalar)
}

#[test]
fn worked_proofs(rt: HostRuntime) -> Result<(), Fail> {
    let alloc = rt.alloc();
    proof_cases(&rt, alloc, "", provers::WITH_WORK, scalar)?;
    agreeing_cases(&rt, alloc, "", provers::WORKED, scalar, packed, lockstep)
}

#[test]
fn satisfying_traces(rt: HostRuntime) -> Result<(), Fail> {
    let (alloc, rows) = (rt.alloc(), provers::SATISFYING);
    proof_cases(&rt, alloc, "sha256 | made | clear | 0 | ", rows, scalar)?;
    let front = "script 4 0 0 0 3 0 0 0 | made | clear | 0 | ";
    agreeing_cases(&rt, alloc, front, rows, scalar, packed, lockstep)
}

#[test]
fn satisfying_traces_under_masks(rt: HostRuntime) -> Result<(), Fail> {
    let (alloc, rows) = (rt.alloc(), provers::SATISFYING);
    proof_cases(
        &rt,
        alloc,
        "sha256 | made | masked by 1 2 3 | 0 | ",
        rows,
        scalar,
    )?;
    let front = "script 4 0 0 0 3 0 0 0 | made | masked by 1 2 3 | 0 | ";
    agreeing_cases(&rt, alloc, front, rows, scalar, packed, lockstep)
}

// What is said of no field in particular is asked again: how quotients are sized, bounds, and
// traces that satisfy their AIRs.
#[test]
fn over_baby_bear(rt: HostRuntime) -> Result<(), Fail> {
    let alloc = rt.alloc();
    for (subject, rows) in [
        ("airs", airs::OVER_BABY_BEAR),
        ("constraints", constraints::OVER_BABY_BEAR),
        ("domains", domains::OVER_BABY_BEAR),
        ("preprocessing", preprocessing::OVER_BABY_BEAR),
        ("quotients", quotients::OVER_BABY_BEAR),
        ("security", security::CASES),
        ("sizing", sizing::CASES),
        ("trees", trees::OVER_BABY_BEAR),
        ("verdicts", verdicts::OVER_BABY_BEAR),
    ] {
        all_cases_of(alloc, subject, rows, baby_bear)?;
    }
    proof_cases(&rt, alloc, "", provers::OVER_BABY_BEAR, baby_bear)?;
    let front = "sha256 | made | clear | 0 | ";
    proof_cases(&rt, alloc, front, provers::SATISFYING, baby_bear)
}
