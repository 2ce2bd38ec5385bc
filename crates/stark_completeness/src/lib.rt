//! Whether a trace satisfies an AIR, checked row by row; and why the proofs that a prover makes of
//! satisfying traces keep the verifier's equation: a satisfying trace's folded constraint is a
//! multiple of its domain's vanishing polynomial, and the committed chunks recompose to the
//! quotient at each point. Of the latter the law here has no code.
#![tactic(auto)]

mod check;
mod debug_builder;
mod declared;
mod findings;
mod height;
mod laws;
mod row_selectors;
mod row_value;
mod row_values;
mod violation;

pub use check::check_constraints;
pub use debug_builder::{DebugConstraintBuilder, RowLeaves, values_in_row};
pub use declared::check_declared;
pub use findings::RowChecks;
pub use height::log_height_of;
pub use laws::satisfaction_is_row_by_row;
pub use row_value::RowValue;
pub use row_values::constraint_values;
pub use violation::{ConstraintCheckError, ConstraintViolation};
