//! All cases.
use crate::answers::{baby_bear, drawn, drawn_of_12289, koala_bear, of_12289};
use crate::{challengers, cosets, fields};
use stark_bench::{CircleShape, Coset, S12289};
use stark_support::{DomainShape, PolynomialSpace};
use stark_test_cases::all_cases;
use std::test::Fail;

#[test]
fn of_baby_bear(rt: HostRuntime) -> Result<(), Fail> {
    all_cases(rt.alloc(), fields::BABY_BEAR_CASES, baby_bear)?;
    all_cases(rt.alloc(), cosets::CASES, baby_bear)?;
    all_cases(rt.alloc(), challengers::CASES, drawn)
}

#[test]
fn of_koala_bear(rt: HostRuntime) -> Result<(), Fail> {
    all_cases(rt.alloc(), fields::KOALA_BEAR_CASES, koala_bear)
}

#[test]
fn of_the_field_of_12289(rt: HostRuntime) -> Result<(), Fail> {
    all_cases(rt.alloc(), cosets::OVER_12289, of_12289)?;
    all_cases(rt.alloc(), challengers::OVER_12289, drawn_of_12289)
}

#[test]
fn circle_shapes(rt: HostRuntime) -> Result<(), Fail> {
    let shape = CircleShape { size: 8 };
    assert_eq!(rt; shape.size(), 8);
    assert_eq!(rt; shape.transition_degree_multiple(), 1);
    Ok(())
}

#[test]
fn a_domain_that_is_there(rt: HostRuntime) -> Result<(), Fail> {
    let domain: Coset<S12289> = Coset::subgroup(1);
    let other = domain.create_disjoint_domain(3);
    assert_eq!(rt; (other.shift.value(), other.log_size), (11, 2));
    Ok(())
}
