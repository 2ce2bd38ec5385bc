//! Why no rows were read of a text.

use serde_json::Value;
use std::alloc::{AllocError, AllocFailed};
use thiserror::Error;

/// Why no rows were read: the first fault. Rows and columns count from 0.
#[derive(Debug, Drop, Error)]
pub enum RowsFault {
    /// The text is no JSON.
    #[error("it is no JSON")]
    NoJson,
    /// The text spells no array.
    #[error("it is no array of rows")]
    NoArray,
    /// The first item that is no row's: neither an array nor one of elements.
    #[error("row {row} is no array")]
    NoRow {
        row: usize,
    },
    /// The first value that is no element, in the first row that isn't read.
    #[error("row {row}, column {column}: {value} is no element of the field")]
    NoElement {
        row: usize,
        column: usize,
        value: Value,
    },
    /// All rows are read, and this is the first of another length than row 0.
    #[error("row {row} has {got} columns, row 0 has {expected}")]
    Uneven {
        row: usize,
        expected: usize,
        got: usize,
    },
    /// Memory was refused.
    #[error("out of memory")]
    OutOfMemory,
}

impl From<AllocError> for RowsFault {
    ghost use Rattle.std.specs.Prelude.{◌≡◌};
    ghost use Rattle.stark_trace_json.specs.declared.fault.RowsFault.TheVariants.{OutOfMemory};

    ghost from_gives = { λ _ fault. fault ≡ OutOfMemory };

    fn from(_error: AllocError) -> RowsFault {
        RowsFault::OutOfMemory
    }
}

impl<T: Drop> From<AllocFailed<T>> for RowsFault {
    ghost use Rattle.std.specs.Prelude.{◌≡◌};
    ghost use Rattle.stark_trace_json.specs.declared.fault.RowsFault.TheVariants.{OutOfMemory};

    ghost from_gives = { λ _ fault. fault ≡ OutOfMemory };

    fn from(_failed: AllocFailed<T>) -> RowsFault {
        RowsFault::OutOfMemory
    }
}
