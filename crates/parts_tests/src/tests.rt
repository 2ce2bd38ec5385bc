//! The cases of all subjects; those of fields and lanes over each field.
use crate::answers::{baby_bear, lockstep, packed, scalar};
use crate::{clear_scheme, fields, lanes, numbers, polynomials, seeds, transcripts};
use stark_bench::S12289;
use stark_support::{Algebra, PrimeField64};
use stark_test_cases::all_cases_of;
use std::test::Fail;

#[test]
fn all_parts(rt: HostRuntime) -> Result<(), Fail> {
    for (subject, rows) in [
        ("clear scheme", clear_scheme::CASES),
        ("numbers", numbers::CASES),
        ("polynomials", polynomials::CASES),
        ("seeds", seeds::CASES),
        ("transcripts", transcripts::CASES),
    ] {
        all_cases_of(rt.alloc(), subject, rows, scalar)?;
    }
    Ok(())
}

#[test]
fn over_one_lane(rt: HostRuntime) -> Result<(), Fail> {
    all_cases_of(rt.alloc(), "fields", fields::CASES, scalar)?;
    all_cases_of(rt.alloc(), "fields", fields::SCALAR_CASES, scalar)?;
    all_cases_of(rt.alloc(), "fields", fields::ONE_LANE_CASES, scalar)?;
    all_cases_of(rt.alloc(), "lanes", lanes::SCALAR_CASES, scalar)
}

#[test]
fn over_four_lanes(rt: HostRuntime) -> Result<(), Fail> {
    all_cases_of(rt.alloc(), "fields", fields::CASES, packed)?;
    all_cases_of(rt.alloc(), "fields", fields::PACKED_CASES, packed)?;
    all_cases_of(rt.alloc(), "lanes", lanes::WIDE_CASES, packed)
}

#[test]
fn over_lanes_in_lockstep(rt: HostRuntime) -> Result<(), Fail> {
    all_cases_of(rt.alloc(), "fields", fields::CASES, lockstep)?;
    all_cases_of(rt.alloc(), "fields", fields::LOCKSTEP_CASES, lockstep)?;
    all_cases_of(rt.alloc(), "lanes", lanes::WIDE_CASES, lockstep)
}

// What is said of no field in particular is asked again: packs of one lane, and transcripts.
#[test]
fn over_baby_bear(rt: HostRuntime) -> Result<(), Fail> {
    for (subject, rows) in [
        ("clear scheme", clear_scheme::OVER_BABY_BEAR),
        ("fields", fields::SCALAR_CASES),
        ("fields", fields::OVER_BABY_BEAR),
        ("lanes", lanes::SCALAR_CASES),
        ("polynomials", polynomials::OVER_BABY_BEAR),
        ("transcripts", transcripts::CASES),
    ] {
        all_cases_of(rt.alloc(), subject, rows, baby_bear)?;
    }
    Ok(())
}

// Elements by their inherent calls, and what is not asked of any field.
#[test]
fn elements(rt: HostRuntime) {
    assert_eq!(rt; S12289::new(12290).value(), 1);
    assert_eq!(rt; S12289::default().value(), 0);
    assert_eq!(rt; S12289::from_u8(255).as_canonical_u64(), 255);
    let x = S12289::new(12288);
    assert!(rt; x == x.dup());
}
