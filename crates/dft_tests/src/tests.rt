//! The cases over a field.
use crate::answers::{CASES, answer};
use stark_fields::S12289;
use stark_test_cases::all_cases;
use std::alloc::Global;
use std::test::Fail;

/// The answer to a case over the field of one lane.
fn over_one_lane(alloc: Global, case: &str) -> Result<String, Fail> {
    answer::<S12289>(alloc, case)
}

#[test]
fn transforms(rt: HostRuntime) -> Result<(), Fail> {
    all_cases(rt.alloc(), CASES, over_one_lane)
}
