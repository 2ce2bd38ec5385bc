//! Why there are no auxiliary columns.
use std::alloc::AllocError;
use thiserror::Error;

/// Why there are no auxiliary columns.
#[derive(Debug, Drop, Error)]
pub enum AuxiliaryError {
    /// Gamma is a compressed tuple: in the row and of the lookup that are named, and in no group
    /// before. Another trace or statement draws others.
    #[error("the draws fall on a tuple of lookup {lookup} in row {row}")]
    DrawIsKey { row: usize, lookup: usize },
    /// Memory was refused.
    #[error("out of memory")]
    OutOfMemory,
}

impl From<AllocError> for AuxiliaryError {
    ghost use Rattle.std.specs.Prelude.{◌≡◌};
    ghost use Rattle.stark_lookup_trace.specs.declared.error.AuxiliaryError.TheVariants.{OutOfMemory};

    ghost from_gives = { λ _ error. error ≡ OutOfMemory };

    fn from(_error: AllocError) -> AuxiliaryError {
        AuxiliaryError::OutOfMemory
    }
}
