//! Columns that are 0 or 1.
ghost use Rattle.std.specs.Prelude.{◌≡◌, ◌<◌, [], ◌∷◌, IfOk, None, OnErr, false};
ghost use Rattle.stark_machine.specs.Parts.{booleans, booleans_within, is_boolean};

use stark_air::{Air, AirBuilder, ExtensionBuilder, MainTraceAir, WindowAccess};
use stark_support::{Element, Field};
use std::alloc::{AllocError, Global};

/// `N` columns, each of which is 0 or 1.
#[derive(Drop)]
pub struct Booleans<const N: usize>;

impl<const N: usize> MainTraceAir for Booleans<N> {
    ghost WIDTH = { N };

    ghost NUM_PUBLIC_VALUES = { 0 };

    ghost READS_NEXT_ROW = { false };

    ghost degree_bound = { λ _. None };

    const WIDTH: usize = N;

    const NUM_PUBLIC_VALUES: usize = 0;

    const READS_NEXT_ROW: bool = false;

    fn degree_bound(&self) -> Option<usize> {
        None
    }
}

impl<F: Field, const N: usize> Air<F> for Booleans<N> {
    ghost constraints = { λ _. booleans F.ONE N };

    ghost leaves_within = { λ _. booleans_within F.ONE N };

    fn eval<AB: ExtensionBuilder<F = F>>(&self, builder: &mut AB) -> Result<(), AllocError> {
        for column in 0..N {
            assert_boolean(&mut *builder, column)?;
        }
        Ok(())
    }
}

/// The column is 0 or 1.
#[tactic(auto, using(stark_air::proofs::Steps::shown))]
fn assert_boolean<AB: AirBuilder>(builder: &mut AB, column: usize) -> Result<(), AllocError>
    requires { column < (AB.layout builder.old).main }
    ensures same_layout { AB.layout builder.new ≡ AB.layout builder.old }
    ensures asserted { IfOk result (λ _.
        AB.after builder.old (is_boolean AB.F.ONE column ∷ []) builder.new) }
    ensures refused { OnErr result (AB.after builder.old [] builder.new) }
    ensures memory { OnErr result AB.may_refuse }
{
    let main = builder.main()?;
    let x = main.current(column).unwrap();
    let off = AB::Expr::from(x) - AB::Expr::from(AB::F::ONE);
    builder.assert_zero(AB::Expr::from(x) * off)
}
