//! An AIR as code.
ghost use Rattle.std.specs.Prelude.{◌≡◌, [], ◌∷◌, IfOk, None, OnErr, true};
ghost use Rattle.std.proofs.Common.{rules};
ghost use Rattle.stark_air.specs.Layout.{Covers};
ghost use Rattle.guide_tests.specs.Doubling.{begins, doubles, steps_layout};

use stark_air::{
    Air, AirBuilder, ExtensionBuilder, MainTraceAir, WindowAccess, assert_eq_on_first_row,
    assert_eq_on_transition, public_value,
};
use stark_support::Field;
use std::alloc::AllocError;

pub struct DoublingAir;

impl MainTraceAir for DoublingAir {
    ghost WIDTH = { 1 };

    ghost NUM_PUBLIC_VALUES = { 1 };

    ghost READS_NEXT_ROW = { true };

    ghost degree_bound = { λ _. None };

    const WIDTH: usize = 1;

    const NUM_PUBLIC_VALUES: usize = 1;

    const READS_NEXT_ROW: bool = true;

    fn degree_bound(&self) -> Option<usize> {
        None
    }
}

impl<F: Field> Air<F> for DoublingAir {
    ghost constraints = { λ _. begins ∷ doubles ∷ [] };

    ghost leaves_within = { Prim.search rules };

    fn eval<AB: ExtensionBuilder<F = F>>(&self, builder: &mut AB) -> Result<(), AllocError> {
        assert_begin(&mut *builder)?;
        assert_double(builder)
    }
}

/// On the first row the column is the public value.
#[tactic(auto, using(stark_air::proofs::Steps::shown))]
fn assert_begin<AB: AirBuilder>(builder: &mut AB) -> Result<(), AllocError>
    requires { Covers (AB.layout builder.old) steps_layout }
    ensures same_layout { AB.layout builder.new ≡ AB.layout builder.old }
    ensures asserted { IfOk result (λ _. AB.after builder.old (begins ∷ []) builder.new) }
    ensures refused { OnErr result (AB.after builder.old [] builder.new) }
    ensures memory { OnErr result AB.may_refuse }
{
    let main = builder.main()?;
    let x = main.current(0).unwrap();
    let start = public_value(&*builder, 0);
    assert_eq_on_first_row(builder, x.into(), start)
}

/// From each row but the last to the next, the column doubles.
#[tactic(auto, using(stark_air::proofs::Steps::shown))]
fn assert_double<AB: AirBuilder>(builder: &mut AB) -> Result<(), AllocError>
    requires { Covers (AB.layout builder.old) steps_layout }
    ensures same_layout { AB.layout builder.new ≡ AB.layout builder.old }
    ensures asserted { IfOk result (λ _. AB.after builder.old (doubles ∷ []) builder.new) }
    ensures refused { OnErr result (AB.after builder.old [] builder.new) }
    ensures memory { OnErr result AB.may_refuse }
{
    let main = builder.main()?;
    let x = main.current(0).unwrap();
    let next = main.next(0).unwrap();
    let double = AB::Expr::from(x) + AB::Expr::from(x);
    assert_eq_on_transition(builder, next.into(), double)
}
