//! The beginning and the end.
ghost use Rattle.std.specs.Prelude.{◌≡◌, ◌<◌, [], ◌∷◌, IfOk, OnErr};
ghost use Rattle.stark_air.specs.Layout.{Covers};
ghost use Rattle.stark_machine.specs.Columns.{machine_layout};
ghost use Rattle.stark_machine.specs.Machine.{begins_with_input, begins_with_zero, ends_active, ends_with_result};

use crate::columns::{ACTIVE, REGISTERS};
use stark_air::{
    AirBuilder, WindowAccess, assert_eq_on_first_row, assert_eq_on_last_row, public_value,
};
use stark_support::Element;
use std::alloc::AllocError;

/// The column is 0 on the first row.
#[tactic(auto, using(stark_air::proofs::Steps::shown))]
pub(crate) fn assert_begins_with_zero<AB: AirBuilder>(
    builder: &mut AB,
    column: usize,
) -> Result<(), AllocError>
    requires covered { Covers (AB.layout builder.old) machine_layout }
    requires of_main { column < 40 }
    ensures same_layout { AB.layout builder.new ≡ AB.layout builder.old }
    ensures asserted { IfOk result (λ _.
        AB.after builder.old (begins_with_zero column ∷ []) builder.new) }
    ensures refused { OnErr result (AB.after builder.old [] builder.new) }
    ensures memory { OnErr result AB.may_refuse }
{
    let main = builder.main()?;
    let x = main.current(column).unwrap();
    let first_row = builder.is_first_row();
    builder.assert_zero(first_row * AB::Expr::from(x))
}

/// The register begins with the public value of its number.
#[tactic(auto, using(stark_air::proofs::Steps::shown))]
pub(crate) fn assert_begins_with_input<AB: AirBuilder>(
    builder: &mut AB,
    register: usize,
) -> Result<(), AllocError>
    requires covered { Covers (AB.layout builder.old) machine_layout }
    requires of_two { register < 2 }
    ensures same_layout { AB.layout builder.new ≡ AB.layout builder.old }
    ensures asserted { IfOk result (λ _.
        AB.after builder.old (begins_with_input register ∷ []) builder.new) }
    ensures refused { OnErr result (AB.after builder.old [] builder.new) }
    ensures memory { OnErr result AB.may_refuse }
{
    let main = builder.main()?;
    let value = main.current(REGISTERS + register).unwrap();
    let input = public_value(&*builder, register);
    assert_eq_on_first_row(builder, value.into(), input)
}

/// The last row is active.
#[tactic(auto, using(stark_air::proofs::Steps::shown))]
pub(crate) fn assert_ends_active<AB: AirBuilder>(builder: &mut AB) -> Result<(), AllocError>
    requires { Covers (AB.layout builder.old) machine_layout }
    ensures same_layout { AB.layout builder.new ≡ AB.layout builder.old }
    ensures asserted { IfOk result (λ _.
        AB.after builder.old (ends_active AB.F.ONE ∷ []) builder.new) }
    ensures refused { OnErr result (AB.after builder.old [] builder.new) }
    ensures memory { OnErr result AB.may_refuse }
{
    let main = builder.main()?;
    let active = main.current(ACTIVE).unwrap();
    assert_eq_on_last_row(builder, active.into(), AB::Expr::from(AB::F::ONE))
}

/// Register 0 is the third public value on the last row.
#[tactic(auto, using(stark_air::proofs::Steps::shown))]
pub(crate) fn assert_ends_with_result<AB: AirBuilder>(builder: &mut AB) -> Result<(), AllocError>
    requires { Covers (AB.layout builder.old) machine_layout }
    ensures same_layout { AB.layout builder.new ≡ AB.layout builder.old }
    ensures asserted { IfOk result (λ _.
        AB.after builder.old (ends_with_result ∷ []) builder.new) }
    ensures refused { OnErr result (AB.after builder.old [] builder.new) }
    ensures memory { OnErr result AB.may_refuse }
{
    let main = builder.main()?;
    let value = main.current(REGISTERS).unwrap();
    let output = public_value(&*builder, 2);
    assert_eq_on_last_row(builder, value.into(), output)
}
