//! Leaves of constraints, as expressions.
ghost use Rattle.std.specs.Prelude.{◌<◌};

use crate::builder::BaseAirBuilder;

/// The public value of this number.
pub fn public_value<AB: BaseAirBuilder>(builder: &AB, index: usize) -> AB::Expr
    requires { index < (AB.layout builder.now).public_values }
    ensures { AB.Expr.stands ((AB.environment builder.now).public_value index) result }
{
    builder.public_values()[index].into()
}

/// The value of the periodic column of this number in the row.
pub fn periodic_value<AB: BaseAirBuilder>(builder: &AB, column: usize) -> AB::Expr
    requires { column < (AB.layout builder.now).periodics }
    ensures { AB.Expr.stands ((AB.environment builder.now).periodic_value column) result }
{
    builder.periodic_values()[column].into()
}
