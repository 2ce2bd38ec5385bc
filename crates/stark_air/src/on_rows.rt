//! Equations that an AIR asserts on some rows alone.
ghost use Rattle.std.specs.Prelude.{◌≡◌, IfOk, OnErr, []};
ghost use Rattle.stark_air.specs.Tree.{first_row, last_row, transition};
ghost use Rattle.stark_air.specs.Emission.{AssertsPair, equal_on};

use crate::builder::AirBuilder;
use std::alloc::AllocError;

/// Asserts `a - b` on the first row alone. Err only where the builder was refused memory.
pub fn assert_eq_on_first_row<AB: AirBuilder>(
    builder: &mut AB,
    a: AB::Expr,
    b: AB::Expr,
) -> Result<(), AllocError>
    ensures same_environment { AB.environment builder.new ≡ AB.environment builder.old }
    ensures same_layout { AB.layout builder.new ≡ AB.layout builder.old }
    ensures asserted { IfOk result (λ _.
        AssertsPair AB.Expr.operations AB.Expr.stands AB.environment AB.after
        (equal_on first_row) builder.old a b builder.new) }
    ensures refused { OnErr result (AB.after builder.old [] builder.new) }
    ensures memory { OnErr result AB.may_refuse }
{
    builder.when_first_row().assert_eq(a, b)
}

/// Asserts `a - b` on the last row alone. Err only where the builder was refused memory.
pub fn assert_eq_on_last_row<AB: AirBuilder>(
    builder: &mut AB,
    a: AB::Expr,
    b: AB::Expr,
) -> Result<(), AllocError>
    ensures same_environment { AB.environment builder.new ≡ AB.environment builder.old }
    ensures same_layout { AB.layout builder.new ≡ AB.layout builder.old }
    ensures asserted { IfOk result (λ _.
        AssertsPair AB.Expr.operations AB.Expr.stands AB.environment AB.after
        (equal_on last_row) builder.old a b builder.new) }
    ensures refused { OnErr result (AB.after builder.old [] builder.new) }
    ensures memory { OnErr result AB.may_refuse }
{
    builder.when_last_row().assert_eq(a, b)
}

/// Asserts `a - b` on each row but the last. Err only where the builder was refused memory.
pub fn assert_eq_on_transition<AB: AirBuilder>(
    builder: &mut AB,
    a: AB::Expr,
    b: AB::Expr,
) -> Result<(), AllocError>
    ensures same_environment { AB.environment builder.new ≡ AB.environment builder.old }
    ensures same_layout { AB.layout builder.new ≡ AB.layout builder.old }
    ensures asserted { IfOk result (λ _.
        AssertsPair AB.Expr.operations AB.Expr.stands AB.environment AB.after
        (equal_on transition) builder.old a b builder.new) }
    ensures refused { OnErr result (AB.after builder.old [] builder.new) }
    ensures memory { OnErr result AB.may_refuse }
{
    builder.when_transition().assert_eq(a, b)
}
