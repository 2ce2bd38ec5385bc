//! AIRs with lookups.
ghost use Rattle.std.specs.Prelude.{◌≡◌, ◌≤◌, ◌^◌, IfNone, IfOk, IfSome};
ghost use Rattle.stark_support.specs.Faults.{NamesFaultOr};
ghost use Rattle.stark_lookup_extension.specs.ExtendedAir.{extension_fault};
ghost use Rattle.stark_lookup_extension.specs.ExtendedSizes.{key_width};
ghost use Rattle.stark_lookup_extension.specs.Interactions.{is_numbered};
ghost use Rattle.stark_lookup_extension.specs.declared.error.ExtensionError.{ExtensionError};
ghost use Rattle.stark_lookup.specs.OwnLookups.{IsExtended};

use stark_lookup_extension::{ExtensionError, LookupList, extended_air};
use stark_support::{ExtensionField, Field};
use stark_tree_air::TreeAir;
use std::alloc::Global;

/// An AIR with its lookups: the author's own, what each of its rows sends and receives, and both as
/// one AIR.
#[derive(Debug, Drop)]
pub struct LookupAir<F> {
    pub own: TreeAir<F>,
    pub lookups: LookupList,
    pub extended: TreeAir<F>,
    /// How many elements a key has: those of the longest tuple, and the number of its lookup where
    /// there are several.
    pub key_width: usize,
}

/// How many elements a key has. None where these are more than can be counted.
fn key_width(lookups: &LookupList) -> Option<usize>
    ensures some { IfSome result (λ w. w ≡ key_width (is_numbered lookups.now) lookups.now.width) }
    ensures none { IfNone result (2 ^ 64 ≤ key_width (is_numbered lookups.now) lookups.now.width) }
{
    if lookups.lookups.len() > 1 {
        lookups.width.checked_add(1)
    } else {
        Some(lookups.width)
    }
}

impl<F: Field> LookupAir<F> {
    /// The AIR with these lookups, over an extension of the draws, with the errors of
    /// `extended_air`.
    pub fn new<EF: ExtensionField<F>>(
        alloc: Global,
        own: TreeAir<F>,
        lookups: LookupList,
    ) -> Result<LookupAir<F>, ExtensionError>
        ensures own { IfOk result (λ air. air.own ≡ own) }
        ensures lookups { IfOk result (λ air. air.lookups ≡ lookups) }
        ensures extended { IfOk result
            (IsExtended EF.DIMENSION EF.ring EF.basis EF.coordinates F.ring) }
        ensures fault { NamesFaultOr ExtensionError.OutOfMemory
            (extension_fault F.ring EF.DIMENSION lookups own) result }
    {
        let extended = extended_air::<F, EF>(alloc, &own, &lookups)?;
        let Some(key_width) = key_width(&lookups) else {
            return Err(ExtensionError::TooLarge);
        };
        Ok(LookupAir {
            own,
            lookups,
            extended,
            key_width,
        })
    }
}
