//! What an instruction computes.
ghost use Rattle.std.specs.Prelude.{◌≡◌, ◌<◌, [], ◌∷◌, IfOk, OnErr};
ghost use Rattle.stark_air.specs.Emission.{Asserts};
ghost use Rattle.stark_air.specs.Layout.{Covers};
ghost use Rattle.stark_air.specs.Value.{value};
ghost use Rattle.stark_air.specs.Tree.{constant, difference};
ghost use Rattle.stark_machine.specs.Columns.{bit, machine_layout};
ghost use Rattle.stark_machine.specs.Digits.{AddsDigit, has_difference, is_zero_at_jump};
ghost use Rattle.stark_machine.specs.Machine.{adds, compares, digits, first_operand, has_digits, jumps_by_product, jumps_unless_zero, loads, multiplies, second_operand, subtracts};

use crate::columns::{
    A, ACTIVE, ADD, ADDRESS, B, BITS, C, CELLS, FROM_REGISTER, INVERSE, JUMP, LEFT, LESS, LOAD,
    MUL, NUMBER, REGISTERS, RIGHT, SUB,
};
use crate::flags::selected;
use stark_air::{AirBuilder, WindowAccess};
use stark_support::{Element, PrimeField64};
use std::alloc::AllocError;

/// The first operand is the register that is read first.
#[tactic(auto, using(stark_air::proofs::Steps::shown))]
pub(crate) fn assert_first_operand<AB: AirBuilder>(builder: &mut AB) -> Result<(), AllocError>
    requires { Covers (AB.layout builder.old) machine_layout }
    ensures same_layout { AB.layout builder.new ≡ AB.layout builder.old }
    ensures asserted { IfOk result (λ _.
        AB.after builder.old (first_operand ∷ []) builder.new) }
    ensures refused { OnErr result (AB.after builder.old [] builder.new) }
    ensures memory { OnErr result AB.may_refuse }
{
    let main = builder.main()?;
    let a = main.current(A).unwrap();
    let read = selected(&*builder, LEFT, REGISTERS)?;
    builder.assert_eq(a.into(), read)
}

/// The second operand is the other register or a number.
#[tactic(auto, using(stark_air::proofs::Steps::shown))]
pub(crate) fn assert_second_operand<AB: AirBuilder>(builder: &mut AB) -> Result<(), AllocError>
    requires { Covers (AB.layout builder.old) machine_layout }
    ensures same_layout { AB.layout builder.new ≡ AB.layout builder.old }
    ensures asserted { IfOk result (λ _.
        AB.after builder.old (second_operand ∷ []) builder.new) }
    ensures refused { OnErr result (AB.after builder.old [] builder.new) }
    ensures memory { OnErr result AB.may_refuse }
{
    let main = builder.main()?;
    let program = builder.preprocessed()?;
    let b = main.current(B).unwrap();
    let from_register = program.current(FROM_REGISTER).unwrap();
    let number = program.current(NUMBER).unwrap();
    let read = selected(&*builder, RIGHT, REGISTERS)?;
    let operand = AB::Expr::from(from_register) * read + AB::Expr::from(number);
    builder.assert_eq(b.into(), operand)
}

/// The sum of the operands.
#[tactic(auto, using(stark_air::proofs::Steps::shown))]
pub(crate) fn assert_adds<AB: AirBuilder>(builder: &mut AB) -> Result<(), AllocError>
    requires { Covers (AB.layout builder.old) machine_layout }
    ensures same_layout { AB.layout builder.new ≡ AB.layout builder.old }
    ensures asserted { IfOk result (λ _.
        AB.after builder.old (adds ∷ []) builder.new) }
    ensures refused { OnErr result (AB.after builder.old [] builder.new) }
    ensures memory { OnErr result AB.may_refuse }
{
    let main = builder.main()?;
    let program = builder.preprocessed()?;
    let flag = program.current(ADD).unwrap();
    let a = main.current(A).unwrap();
    let b = main.current(B).unwrap();
    let c = main.current(C).unwrap();
    let result = AB::Expr::from(a) + AB::Expr::from(b);
    builder.assert_zero(AB::Expr::from(flag) * (AB::Expr::from(c) - result))
}

/// The first operand less the second.
#[tactic(auto, using(stark_air::proofs::Steps::shown))]
pub(crate) fn assert_subtracts<AB: AirBuilder>(builder: &mut AB) -> Result<(), AllocError>
    requires { Covers (AB.layout builder.old) machine_layout }
    ensures same_layout { AB.layout builder.new ≡ AB.layout builder.old }
    ensures asserted { IfOk result (λ _.
        AB.after builder.old (subtracts ∷ []) builder.new) }
    ensures refused { OnErr result (AB.after builder.old [] builder.new) }
    ensures memory { OnErr result AB.may_refuse }
{
    let main = builder.main()?;
    let program = builder.preprocessed()?;
    let flag = program.current(SUB).unwrap();
    let a = main.current(A).unwrap();
    let b = main.current(B).unwrap();
    let c = main.current(C).unwrap();
    let result = AB::Expr::from(a) - AB::Expr::from(b);
    builder.assert_zero(AB::Expr::from(flag) * (AB::Expr::from(c) - result))
}

/// The product of the operands.
#[tactic(auto, using(stark_air::proofs::Steps::shown))]
pub(crate) fn assert_multiplies<AB: AirBuilder>(builder: &mut AB) -> Result<(), AllocError>
    requires { Covers (AB.layout builder.old) machine_layout }
    ensures same_layout { AB.layout builder.new ≡ AB.layout builder.old }
    ensures asserted { IfOk result (λ _.
        AB.after builder.old (multiplies ∷ []) builder.new) }
    ensures refused { OnErr result (AB.after builder.old [] builder.new) }
    ensures memory { OnErr result AB.may_refuse }
{
    let main = builder.main()?;
    let program = builder.preprocessed()?;
    let flag = program.current(MUL).unwrap();
    let a = main.current(A).unwrap();
    let b = main.current(B).unwrap();
    let c = main.current(C).unwrap();
    let result = AB::Expr::from(a) * AB::Expr::from(b);
    builder.assert_zero(AB::Expr::from(flag) * (AB::Expr::from(c) - result))
}

/// Whether the operands' difference is below 0, by its first digit.
#[tactic(auto, using(stark_air::proofs::Steps::shown))]
pub(crate) fn assert_compares<AB: AirBuilder>(builder: &mut AB) -> Result<(), AllocError>
    requires { Covers (AB.layout builder.old) machine_layout }
    ensures same_layout { AB.layout builder.new ≡ AB.layout builder.old }
    ensures asserted { IfOk result (λ _.
        AB.after builder.old (compares AB.F.ONE ∷ []) builder.new) }
    ensures refused { OnErr result (AB.after builder.old [] builder.new) }
    ensures memory { OnErr result AB.may_refuse }
{
    let main = builder.main()?;
    let program = builder.preprocessed()?;
    let less = program.current(LESS).unwrap();
    let c = main.current(C).unwrap();
    let above = main.current(BITS + 8).unwrap();
    let below = AB::Expr::from(AB::F::ONE) - AB::Expr::from(above);
    builder.assert_zero(AB::Expr::from(less) * (AB::Expr::from(c) - below))
}

/// The number whose first binary digit is bit 8, less 1.
#[tactic(auto, using(stark_air::proofs::Steps::shown))]
fn first_digit<AB: AirBuilder>(builder: &AB) -> Result<AB::Expr, AllocError>
    requires { Covers (AB.layout builder.now) machine_layout }
    ensures value { IfOk result (AB.Expr.stands (value AB.Expr.operations
        (AB.environment builder.now) (difference (bit 8) (constant AB.F.ONE)))) }
    ensures memory { OnErr result AB.may_refuse }
{
    let main = builder.main()?;
    let bit = main.current(BITS + 8).unwrap();
    Ok(AB::Expr::from(bit) - AB::Expr::from(AB::F::ONE))
}

/// A number with one more binary digit, which a column has.
#[tactic(auto, using(stark_air::proofs::Steps::shown))]
fn with_digit<F: PrimeField64, AB: AirBuilder<F = F>>(
    builder: &AB,
    number: AB::Expr,
    column: usize,
) -> Result<AB::Expr, AllocError>
    requires { column < (AB.layout builder.now).main }
    ensures value { IfOk result (AddsDigit AB.Expr.operations AB.Expr.stands
        (AB.environment builder.now) F.of_number column number) }
    ensures memory { OnErr result AB.may_refuse }
{
    let main = builder.main()?;
    let bit = main.current(column).unwrap();
    Ok(number * AB::Expr::from(F::from_u8(2)) + AB::Expr::from(bit))
}

/// The number whose nine binary digits are the bits, bit 8 first, less 256.
fn digits<F: PrimeField64, AB: AirBuilder<F = F>>(builder: &AB) -> Result<AB::Expr, AllocError>
    requires { Covers (AB.layout builder.now) machine_layout }
    ensures value { IfOk result (AB.Expr.stands (value AB.Expr.operations
        (AB.environment builder.now) (digits F.ONE F.of_number 8))) }
    ensures memory { OnErr result AB.may_refuse }
{
    let mut number = first_digit(builder)?;
    for place in 0..8 {
        number = with_digit(builder, number, 38 - place)?;
    }
    Ok(number)
}

/// In an active row of a comparison the operands' difference is a number.
#[tactic(auto, using(stark_air::proofs::Steps::shown))]
fn assert_difference<AB: AirBuilder>(builder: &mut AB, number: AB::Expr) -> Result<(), AllocError>
    requires { Covers (AB.layout builder.old) machine_layout }
    ensures same_layout { AB.layout builder.new ≡ AB.layout builder.old }
    ensures asserted { IfOk result (λ _.
        Asserts AB.Expr.operations AB.Expr.stands AB.environment AB.after has_difference
        builder.old number builder.new) }
    ensures refused { OnErr result (AB.after builder.old [] builder.new) }
    ensures memory { OnErr result AB.may_refuse }
{
    let main = builder.main()?;
    let program = builder.preprocessed()?;
    let active = main.current(ACTIVE).unwrap();
    let less = program.current(LESS).unwrap();
    let a = main.current(A).unwrap();
    let b = main.current(B).unwrap();
    let off = AB::Expr::from(a) - AB::Expr::from(b) - number;
    builder.assert_zero(AB::Expr::from(active) * AB::Expr::from(less) * off)
}

/// In an active row the bits are the digits of the operands' difference.
pub(crate) fn assert_digits<F: PrimeField64, AB: AirBuilder<F = F>>(
    builder: &mut AB,
) -> Result<(), AllocError>
    requires { Covers (AB.layout builder.old) machine_layout }
    ensures same_layout { AB.layout builder.new ≡ AB.layout builder.old }
    ensures asserted { IfOk result (λ _.
        AB.after builder.old (has_digits F.ONE F.of_number ∷ []) builder.new) }
    ensures refused { OnErr result (AB.after builder.old [] builder.new) }
    ensures memory { OnErr result AB.may_refuse }
{
    let number = digits(&*builder)?;
    assert_difference(builder, number)
}

/// The cell that is reached.
#[tactic(auto, using(stark_air::proofs::Steps::shown))]
pub(crate) fn assert_loads<AB: AirBuilder>(builder: &mut AB) -> Result<(), AllocError>
    requires { Covers (AB.layout builder.old) machine_layout }
    ensures same_layout { AB.layout builder.new ≡ AB.layout builder.old }
    ensures asserted { IfOk result (λ _.
        AB.after builder.old (loads ∷ []) builder.new) }
    ensures refused { OnErr result (AB.after builder.old [] builder.new) }
    ensures memory { OnErr result AB.may_refuse }
{
    let main = builder.main()?;
    let program = builder.preprocessed()?;
    let load = program.current(LOAD).unwrap();
    let c = main.current(C).unwrap();
    let value = selected(&*builder, ADDRESS, CELLS)?;
    builder.assert_zero(AB::Expr::from(load) * (AB::Expr::from(c) - value))
}

/// In a row of a jump an expression is 0.
#[tactic(auto, using(stark_air::proofs::Steps::shown))]
fn assert_zero_at_jump<AB: AirBuilder>(builder: &mut AB, x: AB::Expr) -> Result<(), AllocError>
    requires { Covers (AB.layout builder.old) machine_layout }
    ensures same_layout { AB.layout builder.new ≡ AB.layout builder.old }
    ensures asserted { IfOk result (λ _.
        Asserts AB.Expr.operations AB.Expr.stands AB.environment AB.after is_zero_at_jump
        builder.old x builder.new) }
    ensures refused { OnErr result (AB.after builder.old [] builder.new) }
    ensures memory { OnErr result AB.may_refuse }
{
    let program = builder.preprocessed()?;
    let jump = program.current(JUMP).unwrap();
    builder.assert_zero(AB::Expr::from(jump) * x)
}

/// Of a jump, the product of the first operand and some number.
#[tactic(auto, using(stark_air::proofs::Steps::shown))]
pub(crate) fn assert_jumps_by_product<AB: AirBuilder>(builder: &mut AB) -> Result<(), AllocError>
    requires { Covers (AB.layout builder.old) machine_layout }
    ensures same_layout { AB.layout builder.new ≡ AB.layout builder.old }
    ensures asserted { IfOk result (λ _.
        AB.after builder.old (jumps_by_product ∷ []) builder.new) }
    ensures refused { OnErr result (AB.after builder.old [] builder.new) }
    ensures memory { OnErr result AB.may_refuse }
{
    let main = builder.main()?;
    let a = main.current(A).unwrap();
    let c = main.current(C).unwrap();
    let inverse = main.current(INVERSE).unwrap();
    let result = AB::Expr::from(a) * AB::Expr::from(inverse);
    assert_zero_at_jump(builder, AB::Expr::from(c) - result)
}

/// It is 1 where the first operand isn't 0.
#[tactic(auto, using(stark_air::proofs::Steps::shown))]
pub(crate) fn assert_jumps_unless_zero<AB: AirBuilder>(builder: &mut AB) -> Result<(), AllocError>
    requires { Covers (AB.layout builder.old) machine_layout }
    ensures same_layout { AB.layout builder.new ≡ AB.layout builder.old }
    ensures asserted { IfOk result (λ _.
        AB.after builder.old (jumps_unless_zero ∷ []) builder.new) }
    ensures refused { OnErr result (AB.after builder.old [] builder.new) }
    ensures memory { OnErr result AB.may_refuse }
{
    let main = builder.main()?;
    let a = main.current(A).unwrap();
    let c = main.current(C).unwrap();
    let kept = AB::Expr::from(a) * AB::Expr::from(c);
    assert_zero_at_jump(builder, AB::Expr::from(a) - kept)
}
