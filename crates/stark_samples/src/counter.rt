//! A column that counts.
ghost use Rattle.std.specs.Prelude.{◌≡◌, [], ◌∷◌, IfOk, None, OnErr, true};
ghost use Rattle.std.proofs.Common.{rules};
ghost use Rattle.stark_air.specs.Layout.{Covers};
ghost use Rattle.stark_samples.specs.Samples.{counter_layout, counter_starts, counter_steps, counter_constraints};

use stark_air::{Air, AirBuilder, ExtensionBuilder, MainTraceAir, WindowAccess};
use stark_support::Field;
use std::alloc::{AllocError, Global};

/// A column that starts at the one public value and goes up by one from each row to the next.
#[derive(Drop)]
pub struct CounterAir;

impl MainTraceAir for CounterAir {
    ghost WIDTH = { 1 };

    ghost NUM_PUBLIC_VALUES = { 1 };

    ghost READS_NEXT_ROW = { true };

    ghost degree_bound = { λ _. None };

    const WIDTH: usize = 1;

    const NUM_PUBLIC_VALUES: usize = 1;

    const READS_NEXT_ROW: bool = true;

    fn degree_bound(&self) -> Option<usize> {
        None
    }
}

impl<F: Field> Air<F> for CounterAir {
    ghost constraints = { λ _. counter_constraints F.ONE };

    ghost leaves_within = { Prim.search rules };

    fn eval<AB: ExtensionBuilder<F = F>>(&self, builder: &mut AB) -> Result<(), AllocError> {
        assert_start(&mut *builder)?;
        assert_step(builder)
    }
}

/// The column is the public value, on the first row.
fn assert_start<AB: AirBuilder>(builder: &mut AB) -> Result<(), AllocError>
    requires { Covers (AB.layout builder.old) counter_layout }
    ensures same_environment { AB.environment builder.new ≡ AB.environment builder.old }
    ensures same_layout { AB.layout builder.new ≡ AB.layout builder.old }
    ensures asserted { IfOk result (λ _. AB.after builder.old (counter_starts ∷ []) builder.new) }
    ensures refused { OnErr result (AB.after builder.old [] builder.new) }
    ensures memory { OnErr result AB.may_refuse }
{
    let main = builder.main()?;
    let x = main.current(0).unwrap();
    let start = builder.public_values()[0];
    builder.when_first_row().assert_eq(x.into(), start.into())
}

/// The next row is the current one plus one, on each row but the last.
fn assert_step<AB: AirBuilder>(builder: &mut AB) -> Result<(), AllocError>
    requires { Covers (AB.layout builder.old) counter_layout }
    ensures same_environment { AB.environment builder.new ≡ AB.environment builder.old }
    ensures same_layout { AB.layout builder.new ≡ AB.layout builder.old }
    ensures asserted { IfOk result (λ _.
        AB.after builder.old (counter_steps AB.F.ONE ∷ []) builder.new) }
    ensures refused { OnErr result (AB.after builder.old [] builder.new) }
    ensures memory { OnErr result AB.may_refuse }
{
    let main = builder.main()?;
    let x = main.current(0).unwrap();
    let next = main.next(0).unwrap();
    builder
        .when_transition()
        .assert_one(AB::Expr::from(next) - AB::Expr::from(x))
}
