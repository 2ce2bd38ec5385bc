//! Why a JSON value is not read as a part of a proof.
use std::alloc::{AllocError, AllocFailed};
use thiserror::Error;

/// Why opened values are not read.
#[derive(Debug, Drop, Error)]
pub enum OpeningsDecodeError {
    /// A required field isn't there.
    #[error("the field {field} is missing")]
    MissingField { field: &'static str },
    /// A field, or a row of it, isn't an array; the value isn't an object where the name is empty.
    #[error("the field {field} is of the wrong kind")]
    WrongKind { field: &'static str },
    /// An element of a field is refused.
    #[error("an element of {field} is refused")]
    Element { field: &'static str },
    /// The next preprocessed row is there, and the current one isn't.
    #[error("a next preprocessed row without a current one")]
    NextWithoutCurrent,
    /// The current preprocessed row has no element.
    #[error("the current preprocessed row is empty")]
    EmptyCurrent,
    /// The preprocessed rows have different numbers of elements.
    #[error("the preprocessed rows have {local} and {next} elements")]
    WidthMismatch { local: usize, next: usize },
    /// Memory was refused.
    #[error("out of memory")]
    OutOfMemory,
}

/// Why a proof, or its commitments, are not read.
#[derive(Debug, Drop, Error)]
pub enum ProofDecodeError {
    /// A required field isn't there.
    #[error("the field {field} is missing")]
    MissingField { field: &'static str },
    /// The commitments aren't an object, or the degree bits no whole number that fits; the proof
    /// isn't an object where the name is empty.
    #[error("the field {field} is of the wrong kind")]
    WrongKind { field: &'static str },
    /// A commitment, the opening proof or a witness is refused.
    #[error("the field {field} is refused")]
    Element { field: &'static str },
    /// The opened values are not read.
    #[error("the opened values: {0}")]
    Openings(OpeningsDecodeError),
    /// Memory was refused.
    #[error("out of memory")]
    OutOfMemory,
}

impl From<AllocError> for OpeningsDecodeError {
    ghost use Rattle.std.specs.Prelude.{◌≡◌};
    ghost use Rattle.stark_proof.specs.declared.error.OpeningsDecodeError.TheVariants.{OutOfMemory};

    ghost from_gives = { λ _ error. error ≡ OutOfMemory };

    fn from(_error: AllocError) -> OpeningsDecodeError {
        OpeningsDecodeError::OutOfMemory
    }
}

impl<T: Drop> From<AllocFailed<T>> for OpeningsDecodeError {
    ghost use Rattle.std.specs.Prelude.{◌≡◌};
    ghost use Rattle.stark_proof.specs.declared.error.OpeningsDecodeError.TheVariants.{OutOfMemory};

    ghost from_gives = { λ _ error. error ≡ OutOfMemory };

    fn from(_failed: AllocFailed<T>) -> OpeningsDecodeError {
        OpeningsDecodeError::OutOfMemory
    }
}
