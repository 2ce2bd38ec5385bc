//! Four flags of which one is 1.
ghost use Rattle.std.specs.Prelude.{◌≡◌, ◌≤◌, [], ◌∷◌, IfOk, None, OnErr, false};
ghost use Rattle.std.proofs.Common.{rules};
ghost use Rattle.stark_machine.specs.Parts.{has_one_flag, one_hot};

use crate::booleans::Booleans;
use crate::flags::flag_sum;
use stark_air::{Air, AirBuilder, ExtensionBuilder, MainTraceAir};
use stark_support::Field;
use std::alloc::{AllocError, Global};

/// Four columns of which one is 1, and the others are 0.
#[derive(Drop)]
pub struct OneHot;

impl MainTraceAir for OneHot {
    ghost WIDTH = { 4 };

    ghost NUM_PUBLIC_VALUES = { 0 };

    ghost READS_NEXT_ROW = { false };

    ghost degree_bound = { λ _. None };

    const WIDTH: usize = 4;

    const NUM_PUBLIC_VALUES: usize = 0;

    const READS_NEXT_ROW: bool = false;

    fn degree_bound(&self) -> Option<usize> {
        None
    }
}

impl<F: Field> Air<F> for OneHot {
    ghost constraints = { λ _. one_hot F.ONE };

    ghost leaves_within = { Prim.search rules };

    fn eval<AB: ExtensionBuilder<F = F>>(&self, builder: &mut AB) -> Result<(), AllocError> {
        Booleans::<4>.eval(&mut *builder)?;
        assert_one_flag(builder)
    }
}

/// One of the flags is 1.
fn assert_one_flag<AB: AirBuilder>(builder: &mut AB) -> Result<(), AllocError>
    requires { 4 ≤ (AB.layout builder.old).main }
    ensures same_layout { AB.layout builder.new ≡ AB.layout builder.old }
    ensures asserted { IfOk result (λ _.
        AB.after builder.old (has_one_flag AB.F.ONE ∷ []) builder.new) }
    ensures refused { OnErr result (AB.after builder.old [] builder.new) }
    ensures memory { OnErr result AB.may_refuse }
{
    let number = flag_sum(&*builder, 0)?;
    builder.assert_one(number)
}
