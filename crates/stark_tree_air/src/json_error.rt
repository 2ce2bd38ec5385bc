//! Why a JSON value is not read as an AIR.
use crate::error::TreeAirError;
use crate::node_fault::{ConstraintFault, NodeFault};
use stark_json::QuotedName;
use std::alloc::{AllocError, AllocFailed};
use thiserror::Error;

/// Why a JSON value is not read as an AIR.
#[derive(Debug, Drop, Error)]
pub enum TreeJsonError {
    /// The value isn't an object.
    #[error("it is no object")]
    NotAnObject,
    /// The object has a member that no AIR has.
    #[error("it has a member {name}, which is none of width, publics, periodic, preprocessed, \
         max_constraint_degree, num_constraints, constants, nodes, constraints")]
    UnknownMember {
        name: QuotedName,
    },
    /// The object of the preprocessed trace has a member that none has.
    #[error("the preprocessed trace has a member {name}, which is neither width nor rows")]
    UnknownTraceMember {
        name: QuotedName,
    },
    /// A required field isn't there.
    #[error("the field {field} is missing")]
    MissingField {
        field: &'static str,
    },
    /// A field isn't an array, or no whole number that fits, or the preprocessed trace isn't an
    /// object.
    #[error("the field {field} is of the wrong kind")]
    WrongKind {
        field: &'static str,
    },
    /// A constant is refused.
    #[error("constant {constant} is no whole number below the field's order")]
    Constant {
        constant: usize,
    },
    /// A periodic column isn't an array.
    #[error("periodic column {column} is no array")]
    PeriodicColumn {
        column: usize,
    },
    /// A value of a periodic column is refused.
    #[error("row {row} of periodic column {column} is no whole number below the field's order")]
    PeriodicValue {
        column: usize,
        row: usize,
    },
    /// A row of the preprocessed trace isn't an array.
    #[error("row {row} of the preprocessed trace is no array")]
    PreprocessedRow {
        row: usize,
    },
    /// A value of the preprocessed trace is refused.
    #[error("row {row}, column {column} of the preprocessed trace is no whole number below the \
         field's order")]
    PreprocessedValue {
        row: usize,
        column: usize,
    },
    /// A row of the preprocessed trace has another width than the trace says.
    #[error("row {row} of the preprocessed trace has {got} columns, and its width is {expected}")]
    RowWidth {
        row: usize,
        expected: usize,
        got: usize,
    },
    /// A node is refused.
    #[error("node {node}: {fault}")]
    Node {
        node: usize,
        fault: NodeFault,
    },
    /// A constraint is refused.
    #[error("constraint {constraint} {fault}")]
    Constraint {
        constraint: usize,
        fault: ConstraintFault,
    },
    /// The nodes or the constraints have a fault.
    #[error("{0}")]
    Air(TreeAirError),
    /// Memory was refused.
    #[error("out of memory")]
    OutOfMemory,
}

impl From<AllocError> for TreeJsonError {
    ghost use Rattle.std.specs.Prelude.{◌≡◌};
    ghost use Rattle.stark_tree_air.specs.declared.json_error.TreeJsonError.TheVariants.{OutOfMemory};

    ghost from_gives = { λ _ error. error ≡ OutOfMemory };

    fn from(_error: AllocError) -> TreeJsonError {
        TreeJsonError::OutOfMemory
    }
}

impl<T: Drop> From<AllocFailed<T>> for TreeJsonError {
    ghost use Rattle.std.specs.Prelude.{◌≡◌};
    ghost use Rattle.stark_tree_air.specs.declared.json_error.TreeJsonError.TheVariants.{OutOfMemory};

    ghost from_gives = { λ _ error. error ≡ OutOfMemory };

    fn from(_failed: AllocFailed<T>) -> TreeJsonError {
        TreeJsonError::OutOfMemory
    }
}
