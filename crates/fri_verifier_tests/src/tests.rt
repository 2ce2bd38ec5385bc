//! All cases.
use crate::answers::{answer, each_byte_replaced};
use crate::{cases, commitments};
use stark_test_cases::all_cases;
use std::test::Fail;

#[test]
fn verdicts(rt: HostRuntime) -> Result<(), Fail> {
    all_cases(rt.alloc(), cases::CASES, answer)
}

#[test]
fn roots(rt: HostRuntime) -> Result<(), Fail> {
    all_cases(rt.alloc(), commitments::CASES, commitments::answer)
}

#[test]
fn any_byte_of_a_proof(rt: HostRuntime) -> Result<(), Fail> {
    for byte in b"\"09-]} " {
        let count = each_byte_replaced(rt.alloc(), "folded", *byte)?;
        assert!(rt; count > 500);
    }
    Ok(())
}
