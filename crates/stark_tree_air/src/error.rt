//! What is wrong with constraints that are data.
use std::alloc::AllocError;
use thiserror::Error;

/// Why constraints that are data are refused.
#[derive(Debug, Drop, Error)]
pub enum TreeAirError {
    /// A leaf reads a constant, a column or a value that isn't there.
    #[error("node {node} reads a constant, a column or a value that isn't there")]
    LeafOutside { node: usize },
    /// An operand doesn't stand before its node.
    #[error("an operand of node {node} doesn't stand before it")]
    LaterOperand { node: usize },
    /// A constraint names a node that isn't there.
    #[error("constraint {constraint} names a node that isn't there")]
    NoSuchNode { constraint: usize },
    /// Memory was refused.
    #[error("out of memory")]
    OutOfMemory(#[from] AllocError),
}

/// Why constraints that are written as expressions are refused.
#[derive(Debug, Drop, Error)]
pub enum TreeExpressionError {
    /// The constraint of this name is the first that reads a column or a value that isn't there.
    #[error("the constraint {name} reads a column or a value that isn't there")]
    LeafOutside { name: &'static str },
    /// Memory was refused, also for a node of an expression.
    #[error("out of memory")]
    OutOfMemory,
}

impl From<AllocError> for TreeExpressionError {
    ghost use Rattle.std.specs.Prelude.{◌≡◌};
    ghost use Rattle.stark_tree_air.specs.declared.error.TreeExpressionError.TheVariants.{OutOfMemory};

    ghost from_gives = { λ _ error. error ≡ OutOfMemory };

    fn from(_error: AllocError) -> TreeExpressionError {
        TreeExpressionError::OutOfMemory
    }
}
