//! Two columns of Fibonacci numbers.
ghost use Rattle.std.specs.Prelude.{◌≡◌, ◌<◌, [], ◌∷◌, IfOk, None, OnErr, true};
ghost use Rattle.std.proofs.Common.{rules};
ghost use Rattle.stark_air.specs.Emission.{Asserted};
ghost use Rattle.stark_air.specs.Layout.{Covers};
ghost use Rattle.stark_samples.specs.Samples.{fibonacci_layout, fibonacci_starts, fibonacci_moves, fibonacci_adds, fibonacci_ends, fibonacci_constraints};

use stark_air::{
    Air, AirBuilder, ExtensionBuilder, MainTraceAir, WindowAccess, assert_eq_on_first_row,
    assert_eq_on_last_row, assert_eq_on_transition, public_value,
};
use stark_support::Field;
use std::alloc::{AllocError, Global};

/// Two columns that start at the first two public values; each row has the right number and the sum
/// of the row before, and the right number of the last row is the third public value.
#[derive(Drop)]
pub struct FibonacciAir;

impl MainTraceAir for FibonacciAir {
    ghost WIDTH = { 2 };

    ghost NUM_PUBLIC_VALUES = { 3 };

    ghost READS_NEXT_ROW = { true };

    ghost degree_bound = { λ _. None };

    const WIDTH: usize = 2;

    const NUM_PUBLIC_VALUES: usize = 3;

    const READS_NEXT_ROW: bool = true;

    fn degree_bound(&self) -> Option<usize> {
        None
    }
}

impl<F: Field> Air<F> for FibonacciAir {
    ghost constraints = { λ _. fibonacci_constraints };

    ghost leaves_within = { Prim.search rules };

    fn eval<AB: ExtensionBuilder<F = F>>(&self, builder: &mut AB) -> Result<(), AllocError> {
        assert_starts(&mut *builder)?;
        assert_steps(&mut *builder)?;
        assert_end(builder)
    }
}

/// Each column is its public value, on the first row.
fn assert_starts<AB: AirBuilder>(builder: &mut AB) -> Result<(), AllocError>
    requires { Covers (AB.layout builder.old) fibonacci_layout }
    ensures asserted { Asserted AB.after result builder.old (fibonacci_starts 0 ∷ fibonacci_starts 1
        ∷ []) builder.new }
    ensures memory { OnErr result AB.may_refuse }
{
    assert_start(&mut *builder, 0)?;
    assert_start(builder, 1)
}

/// A column is the public value of its number, on the first row.
#[tactic(auto, using(stark_air::proofs::Steps::shown))]
fn assert_start<AB: AirBuilder>(builder: &mut AB, column: usize) -> Result<(), AllocError>
    requires covered { Covers (AB.layout builder.old) fibonacci_layout }
    requires of_two { column < 2 }
    ensures same_layout { AB.layout builder.new ≡ AB.layout builder.old }
    ensures asserted { IfOk result (λ _.
        AB.after builder.old (fibonacci_starts column ∷ []) builder.new) }
    ensures refused { OnErr result (AB.after builder.old [] builder.new) }
    ensures memory { OnErr result AB.may_refuse }
{
    let main = builder.main()?;
    let x = main.current(column).unwrap();
    let start = public_value(&*builder, column);
    assert_eq_on_first_row(builder, x.into(), start)
}

/// From each row but the last to the next, the right number moves to the left, and the sum comes to
/// the right.
fn assert_steps<AB: AirBuilder>(builder: &mut AB) -> Result<(), AllocError>
    requires { Covers (AB.layout builder.old) fibonacci_layout }
    ensures asserted { Asserted AB.after result builder.old (fibonacci_moves ∷ fibonacci_adds ∷ [])
        builder.new }
    ensures memory { OnErr result AB.may_refuse }
{
    assert_move(&mut *builder)?;
    assert_sum(builder)
}

/// The right number moves to the left.
#[tactic(auto, using(stark_air::proofs::Steps::shown))]
fn assert_move<AB: AirBuilder>(builder: &mut AB) -> Result<(), AllocError>
    requires { Covers (AB.layout builder.old) fibonacci_layout }
    ensures same_layout { AB.layout builder.new ≡ AB.layout builder.old }
    ensures asserted { IfOk result (λ _. AB.after builder.old (fibonacci_moves ∷ []) builder.new) }
    ensures refused { OnErr result (AB.after builder.old [] builder.new) }
    ensures memory { OnErr result AB.may_refuse }
{
    let main = builder.main()?;
    let right = main.current(1).unwrap();
    let next_left = main.next(0).unwrap();
    assert_eq_on_transition(builder, next_left.into(), right.into())
}

/// The sum of both numbers comes to the right.
#[tactic(auto, using(stark_air::proofs::Steps::shown))]
fn assert_sum<AB: AirBuilder>(builder: &mut AB) -> Result<(), AllocError>
    requires { Covers (AB.layout builder.old) fibonacci_layout }
    ensures same_layout { AB.layout builder.new ≡ AB.layout builder.old }
    ensures asserted { IfOk result (λ _. AB.after builder.old (fibonacci_adds ∷ []) builder.new) }
    ensures refused { OnErr result (AB.after builder.old [] builder.new) }
    ensures memory { OnErr result AB.may_refuse }
{
    let main = builder.main()?;
    let left = main.current(0).unwrap();
    let right = main.current(1).unwrap();
    let next_right = main.next(1).unwrap();
    let sum = AB::Expr::from(left) + AB::Expr::from(right);
    assert_eq_on_transition(builder, next_right.into(), sum)
}

/// The right number is the third public value, on the last row.
#[tactic(auto, using(stark_air::proofs::Steps::shown))]
fn assert_end<AB: AirBuilder>(builder: &mut AB) -> Result<(), AllocError>
    requires { Covers (AB.layout builder.old) fibonacci_layout }
    ensures same_layout { AB.layout builder.new ≡ AB.layout builder.old }
    ensures asserted { IfOk result (λ _. AB.after builder.old (fibonacci_ends ∷ []) builder.new) }
    ensures refused { OnErr result (AB.after builder.old [] builder.new) }
    ensures memory { OnErr result AB.may_refuse }
{
    let main = builder.main()?;
    let right = main.current(1).unwrap();
    let end = public_value(&*builder, 2);
    assert_eq_on_last_row(builder, right.into(), end)
}
