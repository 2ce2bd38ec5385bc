//! Why bytes are not read.
use std::alloc::{AllocError, AllocFailed};
use thiserror::Error;

/// Why bytes name no value.
#[derive(Clone, Copy, Debug, PartialEq, Eq, Error)]
pub enum BytesFault {
    /// The bytes end before the value does.
    #[error("the bytes end too early")]
    Truncated,
    /// A list is said to have more members than there are bytes left.
    #[error("a list is longer than the bytes that are left")]
    TooLong,
    /// A number is past what it may be: the modulus, or 1 for the byte that says whether there is
    /// a value.
    #[error("a number is out of its range")]
    OutOfRange,
    /// The first bytes are not those that tell the kind and the version.
    #[error("the bytes do not begin as a proof's")]
    Magic,
    /// There are bytes behind the value.
    #[error("there are bytes after the end")]
    TrailingBytes,
    /// Memory was refused.
    #[error("out of memory")]
    OutOfMemory,
}

impl From<AllocError> for BytesFault {
    ghost use Rattle.std.specs.Prelude.{◌≡◌};
    ghost use Rattle.stark_proof_bytes.specs.declared.fault.BytesFault.TheVariants.{OutOfMemory};

    ghost from_gives = { λ _ fault. fault ≡ OutOfMemory };

    fn from(_error: AllocError) -> BytesFault {
        BytesFault::OutOfMemory
    }
}

impl<T: Drop> From<AllocFailed<T>> for BytesFault {
    ghost use Rattle.std.specs.Prelude.{◌≡◌};
    ghost use Rattle.stark_proof_bytes.specs.declared.fault.BytesFault.TheVariants.{OutOfMemory};

    ghost from_gives = { λ _ fault. fault ≡ OutOfMemory };

    fn from(_failed: AllocFailed<T>) -> BytesFault {
        BytesFault::OutOfMemory
    }
}
