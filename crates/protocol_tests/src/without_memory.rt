//! Calls that are passed no allocator, on values that take no memory, so that they run where every
//! growth is refused (`scripts/refuse-growths`).
use crate::security::regime;
use p3_uni_stark::{
    OpeningShape, StarkOpeningLayout, StarkSecurityParams, num_batched_openings,
    validate_degree_bits,
};
use stark_support::GrindingSites;
use std::test::Fail;

#[test]
fn security_records(rt: HostRuntime) -> Result<(), Fail> {
    let hiding = OpeningShape::hiding(3);
    assert!(rt; hiding.is_zk() && hiding.num_random_codewords() == 3);
    assert!(rt; hiding.powers_per_opening() == 1 && OpeningShape::Circle.powers_per_opening() == 2);
    assert!(rt; !OpeningShape::new().is_zk() && !OpeningShape::default().is_zk());
    assert!(rt; num_batched_openings(100, true, 6, true, 2, 4, OpeningShape::new()) == 220);
    let grinding = GrindingSites {
        batch_combination: 16,
        ..GrindingSites::NONE
    };
    let params = StarkSecurityParams::new(regime(), 54, 128, 7, 3, 2, 20, 4).with_grinding(
        grinding,
    );
    assert!(rt; params.num_batched_functions == 20 && params.grinding.batch_combination == 16);
    Ok(())
}

#[test]
fn heights_and_layouts(rt: HostRuntime) -> Result<(), Fail> {
    let layout = StarkOpeningLayout::new(true);
    assert!(rt; (layout.trace, layout.quotient, layout.preprocessed) == (1, 2, 3));
    let (plain, masked) = (
        StarkOpeningLayout::new(false),
        validate_degree_bits(None, 3, 1, 0, 20),
    );
    assert!(rt; (plain.trace, plain.quotient, plain.preprocessed) == (0, 1, 2));
    assert!(rt; matches!(masked, Ok((2, 8))));
    Ok(())
}
