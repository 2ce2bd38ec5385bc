//! An AIR with its lookups, as data and as an instance.
ghost use Rattle.stark_lookup_extension.specs.ExtendedAir.{HasLookups, HasRoom};
ghost use Rattle.stark_lookup_extension.specs.Interactions.{lookups_over};
ghost use Rattle.stark_lookup.specs.OwnLookups.{IsWithLookups};

use stark_lookup_extension::LookupList;
use stark_security::AirOver;
use stark_support::{ExtensionField, Field};
use stark_tree_air::TreeAir;

/// A law, with no code: over both fields and any subgroup, the AIR that `extended_air` makes is the
/// author's with its lookups.
pub fn extended_is_with_lookups<F: Field, EF: ExtensionField<F>>(
    own: &TreeAir<F>,
    given: &LookupList,
    extended: &TreeAir<F>,
    _element: EF,
)
    requires constraints { HasLookups EF.DIMENSION EF.ring EF.basis EF.coordinates F.ring given.now
        own.now extended.now }
    requires room { HasRoom EF.DIMENSION (lookups_over F.ring own.now given.now) own.now
        extended.now }
    ensures { IsWithLookups ⟦<TreeAir<F> as AirOver<F, EF>>⟧.instance EF.DIMENSION EF.coordinates
        (lookups_over F.ring own.now given.now) own.now extended.now }
{}
