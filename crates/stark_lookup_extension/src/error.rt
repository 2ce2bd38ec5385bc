//! Why an AIR isn't extended by lookups.
use std::alloc::AllocError;
use thiserror::Error;

/// Why an AIR isn't extended by lookups. Lookups, groups and interactions are counted from 0.
#[derive(Debug, Drop, Error)]
pub enum ExtensionError {
    /// The AIR has no main column, so that there is nothing that draws could be made after.
    #[error("the AIR has no main columns")]
    NoMainColumns,
    /// A tuple has more elements than the longest one is said to have.
    #[error("lookup {lookup}, group {group}, interaction {interaction}: the tuple is too long")]
    LongTuple {
        lookup: usize,
        group: usize,
        interaction: usize,
    },
    /// A tuple or a multiplicity names a node that isn't there.
    #[error("lookup {lookup}, group {group}, interaction {interaction}: there is no such node")]
    NoSuchNode {
        lookup: usize,
        group: usize,
        interaction: usize,
    },
    /// The columns or the public values are more than can be counted.
    #[error("the lookups have too many columns or draws")]
    TooLarge,
    /// Memory was refused.
    #[error("out of memory")]
    OutOfMemory,
}

impl From<AllocError> for ExtensionError {
    ghost use Rattle.std.specs.Prelude.{◌≡◌};
    ghost use Rattle.stark_lookup_extension.specs.declared.error.ExtensionError.TheVariants.{OutOfMemory};

    ghost from_gives = { λ _ error. error ≡ OutOfMemory };

    fn from(_error: AllocError) -> ExtensionError {
        ExtensionError::OutOfMemory
    }
}
