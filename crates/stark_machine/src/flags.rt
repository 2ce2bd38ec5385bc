//! Expressions of flags.
ghost use Rattle.std.specs.Prelude.{◌+◌, ◌<◌, ◌≤◌, IfOk, OnErr};
ghost use Rattle.stark_air.specs.Value.{value};
ghost use Rattle.stark_machine.specs.Parts.{column_product, column_sum, flag_index, flag_sum, selected, selected_pair};

use stark_air::{AirBuilder, WindowAccess};
use stark_support::PrimeField64;
use std::alloc::AllocError;

/// The sum of two columns.
#[tactic(auto, using(stark_air::proofs::Steps::shown))]
fn column_sum<AB: AirBuilder>(builder: &AB, x: usize, y: usize) -> Result<AB::Expr, AllocError>
    requires first { x < (AB.layout builder.now).main }
    requires second { y < (AB.layout builder.now).main }
    ensures value { IfOk result (AB.Expr.stands (value AB.Expr.operations
        (AB.environment builder.now) (column_sum x y))) }
    ensures memory { OnErr result AB.may_refuse }
{
    let main = builder.main()?;
    let left = main.current(x).unwrap();
    let right = main.current(y).unwrap();
    Ok(AB::Expr::from(left) + AB::Expr::from(right))
}

/// The product of two columns.
#[tactic(auto, using(stark_air::proofs::Steps::shown))]
fn column_product<AB: AirBuilder>(builder: &AB, x: usize, y: usize) -> Result<AB::Expr, AllocError>
    requires first { x < (AB.layout builder.now).main }
    requires second { y < (AB.layout builder.now).main }
    ensures value { IfOk result (AB.Expr.stands (value AB.Expr.operations
        (AB.environment builder.now) (column_product x y))) }
    ensures memory { OnErr result AB.may_refuse }
{
    let main = builder.main()?;
    let left = main.current(x).unwrap();
    let right = main.current(y).unwrap();
    Ok(AB::Expr::from(left) * AB::Expr::from(right))
}

/// How many of the four flags from column `first` on are 1.
pub(crate) fn flag_sum<AB: AirBuilder>(builder: &AB, first: usize) -> Result<AB::Expr, AllocError>
    requires few { first ≤ 36 }
    requires there { first + 4 ≤ (AB.layout builder.now).main }
    ensures value { IfOk result (AB.Expr.stands (value AB.Expr.operations
        (AB.environment builder.now) (flag_sum first))) }
    ensures memory { OnErr result AB.may_refuse }
{
    let below = column_sum(builder, first, first + 1)?;
    let above = column_sum(builder, first + 2, first + 3)?;
    Ok(below + above)
}

/// Which of the four flags from column `first` on is 1: 0 to 3, by its two bits.
pub(crate) fn flag_index<F: PrimeField64, AB: AirBuilder<F = F>>(
    builder: &AB,
    first: usize,
) -> Result<AB::Expr, AllocError>
    requires few { first ≤ 36 }
    requires there { first + 4 ≤ (AB.layout builder.now).main }
    ensures value { IfOk result (AB.Expr.stands (value AB.Expr.operations
        (AB.environment builder.now) (flag_index F.of_number first))) }
    ensures memory { OnErr result AB.may_refuse }
{
    let odd = column_sum(builder, first + 1, first + 3)?;
    let high = column_sum(builder, first + 2, first + 3)?;
    Ok(odd + high * AB::Expr::from(F::from_u8(2)))
}

/// The products of a flag and a value, for two of them side by side.
fn selected_pair<AB: AirBuilder>(
    builder: &AB,
    flags: usize,
    values: usize,
) -> Result<AB::Expr, AllocError>
    requires few { (flags ≤ 38) × (values ≤ 38) }
    requires flags { flags + 2 ≤ (AB.layout builder.now).main }
    requires values { values + 2 ≤ (AB.layout builder.now).main }
    ensures value { IfOk result (AB.Expr.stands (value AB.Expr.operations
        (AB.environment builder.now) (selected_pair flags values))) }
    ensures memory { OnErr result AB.may_refuse }
{
    let one = column_product(builder, flags, values)?;
    let other = column_product(builder, flags + 1, values + 1)?;
    Ok(one + other)
}

/// The value, among the four from column `values` on, whose flag is 1.
pub(crate) fn selected<AB: AirBuilder>(
    builder: &AB,
    flags: usize,
    values: usize,
) -> Result<AB::Expr, AllocError>
    requires few { (flags ≤ 36) × (values ≤ 36) }
    requires flags { flags + 4 ≤ (AB.layout builder.now).main }
    requires values { values + 4 ≤ (AB.layout builder.now).main }
    ensures value { IfOk result (AB.Expr.stands (value AB.Expr.operations
        (AB.environment builder.now) (selected flags values))) }
    ensures memory { OnErr result AB.may_refuse }
{
    let below = selected_pair(builder, flags, values)?;
    let above = selected_pair(builder, flags + 2, values + 2)?;
    Ok(below + above)
}
