//! What the next row begins with.
ghost use Rattle.std.specs.Prelude.{◌≡◌, ◌<◌, [], ◌∷◌, IfOk, OnErr};
ghost use Rattle.stark_air.specs.Layout.{Covers};
ghost use Rattle.stark_air.specs.Value.{value};
ghost use Rattle.stark_machine.specs.Columns.{machine_layout};
ghost use Rattle.stark_machine.specs.Machine.{cell_next, continues, jump_distance, pc_next, register_next};

use crate::columns::{
    A, ACTIVE, ADDRESS, C, CELLS, HALT, JUMP, NUMBER, PC, REGISTERS, STORE, TARGET, THEN,
};
use stark_air::{AirBuilder, WindowAccess, assert_eq_on_transition};
use stark_support::Element;
use std::alloc::AllocError;

/// How much further than the next instruction a jump goes, 0 where there is none.
#[tactic(auto, using(stark_air::proofs::Steps::shown))]
fn jump_distance<AB: AirBuilder>(builder: &AB) -> Result<AB::Expr, AllocError>
    requires { Covers (AB.layout builder.now) machine_layout }
    ensures value { IfOk result (AB.Expr.stands (value AB.Expr.operations
        (AB.environment builder.now) (jump_distance AB.F.ONE))) }
    ensures memory { OnErr result AB.may_refuse }
{
    let main = builder.main()?;
    let program = builder.preprocessed()?;
    let jump = program.current(JUMP).unwrap();
    let number = program.current(NUMBER).unwrap();
    let c = main.current(C).unwrap();
    let pc = main.current(PC).unwrap();
    let distance = AB::Expr::from(number) - AB::Expr::from(pc) - AB::Expr::from(AB::F::ONE);
    Ok(AB::Expr::from(jump) * (AB::Expr::from(c) * distance))
}

/// Next comes the instruction behind this one, that of a jump, or at a halt the same one again.
#[tactic(auto, using(stark_air::proofs::Steps::shown))]
pub(crate) fn assert_continues<AB: AirBuilder>(builder: &mut AB) -> Result<(), AllocError>
    requires { Covers (AB.layout builder.old) machine_layout }
    ensures same_layout { AB.layout builder.new ≡ AB.layout builder.old }
    ensures asserted { IfOk result (λ _.
        AB.after builder.old (continues AB.F.ONE ∷ []) builder.new) }
    ensures refused { OnErr result (AB.after builder.old [] builder.new) }
    ensures memory { OnErr result AB.may_refuse }
{
    let main = builder.main()?;
    let program = builder.preprocessed()?;
    let halt = program.current(HALT).unwrap();
    let pc = main.current(PC).unwrap();
    let then = main.current(THEN).unwrap();
    let distance = jump_distance(&*builder)?;
    let step = AB::Expr::from(AB::F::ONE) - AB::Expr::from(halt);
    builder.assert_eq(then.into(), AB::Expr::from(pc) + step + distance)
}

/// It does in an active row; in another one the place stays.
#[tactic(auto, using(stark_air::proofs::Steps::shown))]
pub(crate) fn assert_pc_next<AB: AirBuilder>(builder: &mut AB) -> Result<(), AllocError>
    requires { Covers (AB.layout builder.old) machine_layout }
    ensures same_layout { AB.layout builder.new ≡ AB.layout builder.old }
    ensures asserted { IfOk result (λ _.
        AB.after builder.old (pc_next ∷ []) builder.new) }
    ensures refused { OnErr result (AB.after builder.old [] builder.new) }
    ensures memory { OnErr result AB.may_refuse }
{
    let main = builder.main()?;
    let active = main.current(ACTIVE).unwrap();
    let pc = main.current(PC).unwrap();
    let then = main.current(THEN).unwrap();
    let next = main.next(PC).unwrap();
    let change = AB::Expr::from(active) * (AB::Expr::from(then) - AB::Expr::from(pc));
    assert_eq_on_transition(builder, next.into(), AB::Expr::from(pc) + change)
}

/// The register that is written becomes the result, the others stay.
#[tactic(auto, using(stark_air::proofs::Steps::shown))]
pub(crate) fn assert_register_next<AB: AirBuilder>(
    builder: &mut AB,
    register: usize,
) -> Result<(), AllocError>
    requires covered { Covers (AB.layout builder.old) machine_layout }
    requires of_four { register < 4 }
    ensures same_layout { AB.layout builder.new ≡ AB.layout builder.old }
    ensures asserted { IfOk result (λ _.
        AB.after builder.old (register_next register ∷ []) builder.new) }
    ensures refused { OnErr result (AB.after builder.old [] builder.new) }
    ensures memory { OnErr result AB.may_refuse }
{
    let main = builder.main()?;
    let flag = main.current(TARGET + register).unwrap();
    let c = main.current(C).unwrap();
    let value = main.current(REGISTERS + register).unwrap();
    let next = main.next(REGISTERS + register).unwrap();
    let change = AB::Expr::from(flag) * (AB::Expr::from(c) - AB::Expr::from(value));
    assert_eq_on_transition(builder, next.into(), AB::Expr::from(value) + change)
}

/// The cell that a store reaches becomes the first operand, the others stay.
#[tactic(auto, using(stark_air::proofs::Steps::shown))]
pub(crate) fn assert_cell_next<AB: AirBuilder>(
    builder: &mut AB,
    cell: usize,
) -> Result<(), AllocError>
    requires covered { Covers (AB.layout builder.old) machine_layout }
    requires of_four { cell < 4 }
    ensures same_layout { AB.layout builder.new ≡ AB.layout builder.old }
    ensures asserted { IfOk result (λ _.
        AB.after builder.old (cell_next cell ∷ []) builder.new) }
    ensures refused { OnErr result (AB.after builder.old [] builder.new) }
    ensures memory { OnErr result AB.may_refuse }
{
    let main = builder.main()?;
    let program = builder.preprocessed()?;
    let store = program.current(STORE).unwrap();
    let flag = main.current(ADDRESS + cell).unwrap();
    let a = main.current(A).unwrap();
    let value = main.current(CELLS + cell).unwrap();
    let next = main.next(CELLS + cell).unwrap();
    let change = AB::Expr::from(flag) * (AB::Expr::from(a) - AB::Expr::from(value));
    let stored = AB::Expr::from(store) * change;
    assert_eq_on_transition(builder, next.into(), AB::Expr::from(value) + stored)
}
