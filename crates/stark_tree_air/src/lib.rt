//! AIRs that are data: a list of nodes, and which of them are constraints.
#![tactic(auto)]

mod air;
mod columns;
mod error;
mod evaluate;
mod expression;
mod fault;
mod json;
mod json_error;
mod json_fields;
mod list;
mod needed;
mod node;
mod node_fault;
mod node_json;
mod symbolic;
mod writing;

pub use air::TreeAir;
pub use columns::{TreeColumns, TreeDeclaration};
pub use error::{TreeAirError, TreeExpressionError};
pub use expression::NamedConstraint;
pub use json_error::TreeJsonError;
pub use list::TreeList;
pub use node::{TreeConstraint, TreeNode};
pub use node_fault::{ConstraintFault, NodeFault};
