//! An AIR from a text.
use stark_bench::F12289;
use stark_support::value_from_bytes;
use stark_tree_air::TreeAir;
use std::alloc::Global;

/// The AIR that a text spells.
pub fn air_of(alloc: Global, text: &[u8]) -> Option<TreeAir<F12289>> {
    let json = value_from_bytes(alloc, text).ok()?;
    TreeAir::from_json(alloc, &json).ok()
}
