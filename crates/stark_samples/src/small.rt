//! Small AIRs for tests.
ghost use Rattle.std.specs.Prelude.{◌≡◌, [], ◌∷◌, IfOk, None, OnErr, false};
ghost use Rattle.std.proofs.Common.{rules};
ghost use Rattle.stark_air.specs.Emission.{Asserted};
ghost use Rattle.stark_air.specs.Layout.{Covers};
ghost use Rattle.stark_samples.specs.Samples.{column_layout, is_number, is_number_above, is_one_on_first_row, is_zero, mixed_constraints};
ghost use Rattle.stark_samples.specs.SmallSamples.{asked_constraints, asked_within};

use stark_air::{Air, AirBuilder, ExtensionBuilder, MainTraceAir, WindowAccess};
use stark_support::PrimeField64;
use std::alloc::{AllocError, Global};

/// What a small AIR asks of its one column.
#[derive(Clone, Copy, Debug)]
pub enum Asked {
    /// That it is 1, 2 and 3: the second by a constraint over the extension.
    Mixed,
    /// Of the column nothing, but that the first row's selector is one, which no trace of two rows
    /// or more satisfies.
    FirstRow,
    /// That it is zero.
    Zeros,
    Nothing,
}

/// An AIR of one column, without a next row, with a bound on the degree multiple that its author
/// may choose.
#[derive(Clone, Copy, Debug)]
pub struct SmallAir {
    pub asked: Asked,
    pub max_degree: Option<usize>,
}

impl SmallAir {
    /// The AIR without a bound of its own on the degree multiple.
    pub fn new(asked: Asked) -> SmallAir
        ensures { result ≡ record { asked = asked; max_degree = None } }
    {
        SmallAir {
            asked,
            max_degree: None,
        }
    }
}

impl MainTraceAir for SmallAir {
    ghost WIDTH = { 1 };

    ghost NUM_PUBLIC_VALUES = { 0 };

    ghost READS_NEXT_ROW = { false };

    ghost degree_bound = { λ air. air.max_degree };

    const WIDTH: usize = 1;

    const NUM_PUBLIC_VALUES: usize = 0;

    const READS_NEXT_ROW: bool = false;

    fn degree_bound(&self) -> Option<usize> {
        self.max_degree
    }
}

impl<F: PrimeField64> Air<F> for SmallAir {
    ghost constraints = { λ air. asked_constraints F.ONE F.of_number air.asked };

    ghost leaves_within = { λ air. asked_within F.ONE F.of_number air.asked };

    fn eval<AB: ExtensionBuilder<F = F>>(&self, builder: &mut AB) -> Result<(), AllocError> {
        match self.asked {
            Asked::Mixed => assert_mixed(builder),
            Asked::FirstRow => assert_first_row(builder),
            Asked::Zeros => assert_zeros(builder),
            Asked::Nothing => Ok(()),
        }
    }
}

/// The column is 1, 2 and 3.
fn assert_mixed<F: PrimeField64, AB: ExtensionBuilder<F = F>>(
    builder: &mut AB,
) -> Result<(), AllocError>
    requires { Covers (AB.layout builder.old) column_layout }
    ensures asserted { Asserted AB.after result builder.old (mixed_constraints F.of_number)
        builder.new }
    ensures memory { OnErr result AB.may_refuse }
{
    assert_number(&mut *builder, 1)?;
    assert_two_above(&mut *builder)?;
    assert_number(builder, 3)
}

/// The first row's selector is one.
fn assert_first_row<F: PrimeField64, AB: AirBuilder<F = F>>(
    builder: &mut AB,
) -> Result<(), AllocError>
    ensures asserted { IfOk result (λ _.
        AB.after builder.old (is_one_on_first_row F.ONE ∷ []) builder.new) }
    ensures refused { OnErr result (AB.after builder.old [] builder.new) }
    ensures memory { OnErr result AB.may_refuse }
{
    let first_row = builder.is_first_row();
    builder.assert_one(first_row)
}

/// The column is zero.
#[tactic(auto, using(stark_air::proofs::Steps::shown))]
fn assert_zeros<F: PrimeField64, AB: AirBuilder<F = F>>(builder: &mut AB) -> Result<(), AllocError>
    requires { Covers (AB.layout builder.old) column_layout }
    ensures asserted { IfOk result (λ _. AB.after builder.old (is_zero ∷ []) builder.new) }
    ensures refused { OnErr result (AB.after builder.old [] builder.new) }
    ensures memory { OnErr result AB.may_refuse }
{
    let main = builder.main()?;
    let x = main.current(0).unwrap();
    builder.assert_zero(x.into())
}

/// The column is a number.
#[tactic(auto, using(stark_air::proofs::Steps::shown))]
fn assert_number<F: PrimeField64, AB: AirBuilder<F = F>>(
    builder: &mut AB,
    number: u8,
) -> Result<(), AllocError>
    requires { Covers (AB.layout builder.old) column_layout }
    ensures same_layout { AB.layout builder.new ≡ AB.layout builder.old }
    ensures asserted { IfOk result (λ _.
        AB.after builder.old (is_number (F.of_number number) ∷ []) builder.new) }
    ensures refused { OnErr result (AB.after builder.old [] builder.new) }
    ensures memory { OnErr result AB.may_refuse }
{
    let main = builder.main()?;
    let x = main.current(0).unwrap();
    builder.assert_eq(x.into(), AB::Expr::from(F::from_u8(number)))
}

/// The column is 2, as a constraint over the extension.
#[tactic(auto, using(stark_air::proofs::Steps::shown))]
fn assert_two_above<F: PrimeField64, AB: ExtensionBuilder<F = F>>(
    builder: &mut AB,
) -> Result<(), AllocError>
    requires { Covers (AB.layout builder.old) column_layout }
    ensures same_layout { AB.layout builder.new ≡ AB.layout builder.old }
    ensures asserted { IfOk result (λ _.
        AB.after builder.old (is_number_above (F.of_number 2) ∷ []) builder.new) }
    ensures refused { OnErr result (AB.after builder.old [] builder.new) }
    ensures memory { OnErr result AB.may_refuse }
{
    let main = builder.main()?;
    let x = main.current(0).unwrap();
    let off = AB::Expr::from(x) - AB::Expr::from(F::from_u8(2));
    builder.assert_zero_ext(AB::ExprEF::from(off))
}
