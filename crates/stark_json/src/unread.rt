//! Why a text wasn't read with its rows apart.
use json::Invalid;
use std::alloc::{AllocError, AllocFailed};

/// Why a text wasn't read.
#[derive(Debug, Drop)]
pub(crate) enum Unread {
    /// It is none that is known here. Nothing is said of it.
    Unknown,
    /// A growth of memory was refused.
    OutOfMemory,
}

impl From<AllocError> for Unread {
    ghost use Rattle.std.specs.Prelude.{◌≡◌};
    ghost use Rattle.stark_json.specs.declared.unread.Unread.TheVariants.{OutOfMemory};

    ghost from_gives = { λ _ fault. fault ≡ OutOfMemory };

    fn from(_error: AllocError) -> Unread {
        Unread::OutOfMemory
    }
}

impl<T: Drop> From<AllocFailed<T>> for Unread {
    ghost use Rattle.std.specs.Prelude.{◌≡◌};
    ghost use Rattle.stark_json.specs.declared.unread.Unread.TheVariants.{OutOfMemory};

    ghost from_gives = { λ _ fault. fault ≡ OutOfMemory };

    fn from(_failed: AllocFailed<T>) -> Unread {
        Unread::OutOfMemory
    }
}

impl From<Invalid> for Unread {
    ghost use Rattle.std.specs.Prelude.{◌≡◌};
    ghost use Rattle.stark_json.specs.declared.unread.Unread.TheVariants.{Unknown};

    ghost from_gives = { λ _ fault. fault ≡ Unknown };

    fn from(_invalid: Invalid) -> Unread {
        Unread::Unknown
    }
}
