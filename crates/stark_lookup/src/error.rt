//! Why a proof with lookups is refused.
ghost use Rattle.std.specs.Prelude.{◌≡◌};
ghost use Rattle.stark_lookup.specs.LookupErrors.{of_verification};
ghost use Rattle.stark_lookup.specs.declared.error.LookupError.TheVariants.{OutOfMemory};

use stark_transcript::VerificationError;
use std::alloc::AllocError;
use thiserror::Error;

/// Why a verifier refuses a proof with lookups; `PcsErr` is the error of the commitment scheme.
#[derive(Debug, Drop, Error)]
pub enum LookupError<PcsErr> {
    /// The trace is committed to whole, so that nothing is fixed before the draws.
    #[error("the trace isn't committed to in parts")]
    NotInParts,
    /// No work is required before the draws, and the witness isn't zero.
    #[error("a witness before the draws of lookups that isn't zero where none is required")]
    NonCanonicalLookupPowWitness,
    /// The witness of work before the draws doesn't pass.
    #[error("the witness of work before the draws of lookups doesn't pass")]
    InvalidLookupPowWitness,
    /// The proof of the extended AIR is refused.
    #[error("{0}")]
    Extended(VerificationError<PcsErr>),
    /// Memory was refused.
    #[error("out of memory")]
    OutOfMemory,
}

impl<PcsErr> From<AllocError> for LookupError<PcsErr> {
    ghost from_gives = { λ _ error. error ≡ OutOfMemory };

    fn from(_error: AllocError) -> Self {
        LookupError::OutOfMemory
    }
}

impl<PcsErr> From<VerificationError<PcsErr>> for LookupError<PcsErr> {
    ghost from_gives = { λ given error. error ≡ of_verification given };

    fn from(error: VerificationError<PcsErr>) -> Self {
        match error {
            VerificationError::OutOfMemory => LookupError::OutOfMemory,
            error => LookupError::Extended(error),
        }
    }
}
