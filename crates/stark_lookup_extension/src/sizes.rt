//! How many columns and public values an AIR with lookups has.
ghost use Rattle.std.specs.Prelude.{◌≡◌, ◌^◌, IfNone, IfSome, false, nat_lt};
ghost use Rattle.stark_lookup_extension.specs.ExtendedSizes.{columns_with, key_width, sizes_fit, values_with};

use stark_support::{ExtensionField, Field};

/// How many columns and public values an AIR itself has, and how many elements a key of its
/// lookups.
#[derive(Clone, Copy)]
pub(crate) struct OwnCounts {
    pub(crate) main: usize,
    pub(crate) public_values: usize,
    pub(crate) key_width: usize,
}

/// How many of them an AIR with lookups has.
#[derive(Clone, Copy)]
pub(crate) struct ExtendedSizes {
    pub(crate) columns: usize,
    pub(crate) public_values: usize,
}

/// How many elements a key has: those of a tuple, and the number of its lookup where there are
/// several. None where these are more than can be counted.
pub(crate) fn key_width(numbered: bool, width: usize) -> Option<usize>
    ensures some { IfSome result (λ w. w ≡ key_width numbered width) }
    ensures none { IfNone result (nat_lt (key_width numbered width) (2 ^ 64) ≡ false) }
{
    if numbered {
        width.checked_add(1)
    } else {
        Some(width)
    }
}

/// After the AIR's columns a helper for each group and the running sum, after its public values
/// gamma and the powers of beta, each by its coordinates. None where these are more than can be
/// counted.
pub(crate) fn extended_sizes<F: Field, EF: ExtensionField<F>>(
    own: OwnCounts,
    groups: usize,
) -> Option<ExtendedSizes>
    ensures columns { IfSome result (λ s. s.columns ≡ columns_with EF.DIMENSION own.main groups) }
    ensures values { IfSome result (λ s. s.public_values
        ≡ values_with EF.DIMENSION own.public_values own.key_width) }
    ensures none { IfNone result (sizes_fit EF.DIMENSION own groups ≡ false) }
{
    let helpers = groups.checked_mul(EF::DIMENSION)?;
    let auxiliary = helpers.checked_add(EF::DIMENSION)?;
    let drawn = own.key_width.max(1).checked_mul(EF::DIMENSION)?;
    Some(ExtendedSizes {
        columns: own.main.checked_add(auxiliary)?,
        public_values: own.public_values.checked_add(drawn)?,
    })
}
