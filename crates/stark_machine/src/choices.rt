//! Which instruction, registers and cell a row works on.
ghost use Rattle.std.specs.Prelude.{◌≡◌, [], ◌∷◌, IfOk, OnErr};
ghost use Rattle.stark_air.specs.Layout.{Covers};
ghost use Rattle.stark_air.specs.Value.{value};
ghost use Rattle.stark_machine.specs.Columns.{ReadsWithin, machine_layout};
ghost use Rattle.stark_machine.specs.Machine.{active_reach, active_write, is_in_place, is_index, reaches_address, reaches_one, writes_one, writes_target};

use crate::columns::{
    ACTIVE, ADD, ADDRESS, B, LESS, LOAD, MUL, PC, PLACE, STORE, SUB, TARGET, TARGET_INDEX,
};
use crate::flags::{flag_index, flag_sum};
use stark_air::{AirBuilder, WindowAccess};
use stark_support::PrimeField64;
use std::alloc::AllocError;

/// Where the row is active, its instruction is the one that comes next.
#[tactic(auto, using(stark_air::proofs::Steps::shown))]
pub(crate) fn assert_in_place<AB: AirBuilder>(builder: &mut AB) -> Result<(), AllocError>
    requires { Covers (AB.layout builder.old) machine_layout }
    ensures same_layout { AB.layout builder.new ≡ AB.layout builder.old }
    ensures asserted { IfOk result (λ _.
        AB.after builder.old (is_in_place ∷ []) builder.new) }
    ensures refused { OnErr result (AB.after builder.old [] builder.new) }
    ensures memory { OnErr result AB.may_refuse }
{
    let main = builder.main()?;
    let program = builder.preprocessed()?;
    let active = main.current(ACTIVE).unwrap();
    let pc = main.current(PC).unwrap();
    let place = program.current(PLACE).unwrap();
    let off = AB::Expr::from(pc) - AB::Expr::from(place);
    builder.assert_zero(AB::Expr::from(active) * off)
}

/// The flag, from column `first` on, is that of the program's index in a column.
#[tactic(auto, using(stark_air::proofs::Steps::shown))]
pub(crate) fn assert_index<F: PrimeField64, AB: AirBuilder<F = F>>(
    builder: &mut AB,
    first: usize,
    column: usize,
) -> Result<(), AllocError>
    requires { ReadsWithin (AB.layout builder.old) first column }
    ensures same_layout { AB.layout builder.new ≡ AB.layout builder.old }
    ensures asserted { IfOk result (λ _.
        AB.after builder.old (is_index F.of_number first column ∷ []) builder.new) }
    ensures refused { OnErr result (AB.after builder.old [] builder.new) }
    ensures memory { OnErr result AB.may_refuse }
{
    let program = builder.preprocessed()?;
    let index = program.current(column).unwrap();
    let flag = flag_index(&*builder, first)?;
    builder.assert_eq(flag, index.into())
}

/// Whether the row is active and its instruction writes a register.
#[tactic(auto, using(stark_air::proofs::Steps::shown))]
fn active_write<AB: AirBuilder>(builder: &AB) -> Result<AB::Expr, AllocError>
    requires { Covers (AB.layout builder.now) machine_layout }
    ensures value { IfOk result (AB.Expr.stands (value AB.Expr.operations
        (AB.environment builder.now) active_write)) }
    ensures memory { OnErr result AB.may_refuse }
{
    let main = builder.main()?;
    let program = builder.preprocessed()?;
    let active = main.current(ACTIVE).unwrap();
    let add = program.current(ADD).unwrap();
    let sub = program.current(SUB).unwrap();
    let mul = program.current(MUL).unwrap();
    let less = program.current(LESS).unwrap();
    let load = program.current(LOAD).unwrap();
    let computes = AB::Expr::from(add) + AB::Expr::from(sub) + AB::Expr::from(mul);
    Ok(AB::Expr::from(active) * (computes + AB::Expr::from(less) + AB::Expr::from(load)))
}

/// Whether the row is active and its instruction reaches a cell.
#[tactic(auto, using(stark_air::proofs::Steps::shown))]
fn active_reach<AB: AirBuilder>(builder: &AB) -> Result<AB::Expr, AllocError>
    requires { Covers (AB.layout builder.now) machine_layout }
    ensures value { IfOk result (AB.Expr.stands (value AB.Expr.operations
        (AB.environment builder.now) active_reach)) }
    ensures memory { OnErr result AB.may_refuse }
{
    let main = builder.main()?;
    let program = builder.preprocessed()?;
    let active = main.current(ACTIVE).unwrap();
    let load = program.current(LOAD).unwrap();
    let store = program.current(STORE).unwrap();
    Ok(AB::Expr::from(active) * (AB::Expr::from(load) + AB::Expr::from(store)))
}

/// A register is written where the row is active and its instruction writes one.
pub(crate) fn assert_writes_one<AB: AirBuilder>(builder: &mut AB) -> Result<(), AllocError>
    requires { Covers (AB.layout builder.old) machine_layout }
    ensures same_layout { AB.layout builder.new ≡ AB.layout builder.old }
    ensures asserted { IfOk result (λ _.
        AB.after builder.old (writes_one ∷ []) builder.new) }
    ensures refused { OnErr result (AB.after builder.old [] builder.new) }
    ensures memory { OnErr result AB.may_refuse }
{
    let number = flag_sum(&*builder, TARGET)?;
    let write = active_write(&*builder)?;
    builder.assert_eq(number, write)
}

/// It is that of the index in the program.
#[tactic(auto, using(stark_air::proofs::Steps::shown))]
pub(crate) fn assert_writes_target<F: PrimeField64, AB: AirBuilder<F = F>>(
    builder: &mut AB,
) -> Result<(), AllocError>
    requires { Covers (AB.layout builder.old) machine_layout }
    ensures same_layout { AB.layout builder.new ≡ AB.layout builder.old }
    ensures asserted { IfOk result (λ _.
        AB.after builder.old (writes_target F.of_number ∷ []) builder.new) }
    ensures refused { OnErr result (AB.after builder.old [] builder.new) }
    ensures memory { OnErr result AB.may_refuse }
{
    let program = builder.preprocessed()?;
    let index = program.current(TARGET_INDEX).unwrap();
    let flag = flag_index(&*builder, TARGET)?;
    let write = active_write(&*builder)?;
    builder.assert_eq(flag, write * AB::Expr::from(index))
}

/// A cell is reached where the row is active and its instruction reaches one.
pub(crate) fn assert_reaches_one<AB: AirBuilder>(builder: &mut AB) -> Result<(), AllocError>
    requires { Covers (AB.layout builder.old) machine_layout }
    ensures same_layout { AB.layout builder.new ≡ AB.layout builder.old }
    ensures asserted { IfOk result (λ _.
        AB.after builder.old (reaches_one ∷ []) builder.new) }
    ensures refused { OnErr result (AB.after builder.old [] builder.new) }
    ensures memory { OnErr result AB.may_refuse }
{
    let number = flag_sum(&*builder, ADDRESS)?;
    let reach = active_reach(&*builder)?;
    builder.assert_eq(number, reach)
}

/// It is that of the second operand.
#[tactic(auto, using(stark_air::proofs::Steps::shown))]
pub(crate) fn assert_reaches_address<F: PrimeField64, AB: AirBuilder<F = F>>(
    builder: &mut AB,
) -> Result<(), AllocError>
    requires { Covers (AB.layout builder.old) machine_layout }
    ensures same_layout { AB.layout builder.new ≡ AB.layout builder.old }
    ensures asserted { IfOk result (λ _.
        AB.after builder.old (reaches_address F.of_number ∷ []) builder.new) }
    ensures refused { OnErr result (AB.after builder.old [] builder.new) }
    ensures memory { OnErr result AB.may_refuse }
{
    let main = builder.main()?;
    let b = main.current(B).unwrap();
    let flag = flag_index(&*builder, ADDRESS)?;
    let reach = active_reach(&*builder)?;
    builder.assert_eq(flag, reach * AB::Expr::from(b))
}
