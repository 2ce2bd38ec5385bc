//! Symbolic evaluation of an AIR: its constraints as trees, and their degrees and places, for which
//! no tree is built.
#![tactic(auto)]

mod builder;
mod constraints;
mod degree;
mod degree_builder;
mod degree_expression;
mod expression;
mod leaf_degrees;
mod node;
mod places;
mod variable;
mod window;

pub use builder::{SymbolicAirBuilder, SymbolicConstraint};
pub use constraints::{
    get_all_symbolic_constraints, get_symbolic_constraints, symbolic_constraints,
};
pub use degree::{
    GreatestDegrees, get_max_constraint_degree_extension,
    get_max_constraint_degree_with_transition, greatest_degrees,
};
pub use expression::{SymbolicExpression, SymbolicNode};
pub use leaf_degrees::LeafDegrees;
pub use places::{ConstraintLayout, get_constraint_layout};
pub use variable::{BaseEntry, SymbolicVariable};
pub use window::SymbolicWindow;
