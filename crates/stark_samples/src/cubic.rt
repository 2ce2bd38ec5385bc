//! A column of zeros, by its cube.
ghost use Rattle.std.specs.Prelude.{◌≡◌, [], ◌∷◌, IfOk, None, OnErr, false};
ghost use Rattle.std.proofs.Common.{rules};
ghost use Rattle.stark_air.specs.Layout.{Covers};
ghost use Rattle.stark_samples.specs.Samples.{column_layout, cube, cubic_constraints};

use stark_air::{Air, AirBuilder, ExtensionBuilder, MainTraceAir, WindowAccess};
use stark_support::Field;
use std::alloc::{AllocError, Global};

/// A column whose cube is zero.
#[derive(Drop)]
pub struct CubicAir;

impl MainTraceAir for CubicAir {
    ghost WIDTH = { 1 };

    ghost NUM_PUBLIC_VALUES = { 0 };

    ghost READS_NEXT_ROW = { false };

    ghost degree_bound = { λ _. None };

    const WIDTH: usize = 1;

    const NUM_PUBLIC_VALUES: usize = 0;

    const READS_NEXT_ROW: bool = false;

    fn degree_bound(&self) -> Option<usize> {
        None
    }
}

impl<F: Field> Air<F> for CubicAir {
    ghost constraints = { λ _. cubic_constraints };

    ghost leaves_within = { Prim.search rules };

    fn eval<AB: ExtensionBuilder<F = F>>(&self, builder: &mut AB) -> Result<(), AllocError> {
        assert_cube(builder)
    }
}

/// The column's cube is zero.
#[tactic(auto, using(stark_air::proofs::Steps::shown))]
fn assert_cube<AB: AirBuilder>(builder: &mut AB) -> Result<(), AllocError>
    requires { Covers (AB.layout builder.old) column_layout }
    ensures same_layout { AB.layout builder.new ≡ AB.layout builder.old }
    ensures asserted { IfOk result (λ _. AB.after builder.old (cube ∷ []) builder.new) }
    ensures refused { OnErr result (AB.after builder.old [] builder.new) }
    ensures memory { OnErr result AB.may_refuse }
{
    let main = builder.main()?;
    let x = main.current(0).unwrap();
    builder.assert_zero(AB::Expr::from(x) * AB::Expr::from(x) * AB::Expr::from(x))
}
