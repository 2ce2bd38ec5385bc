//! AIRs with lookups as AIRs: the constraints of lookups written after an AIR's own, over the
//! auxiliary columns and the coordinates of two draws.
#![tactic(auto)]

mod equations;
mod error;
mod extended;
mod fault;
mod groups;
mod leaves;
mod lists;
mod lookup;
mod operations;
mod sizes;

pub use error::ExtensionError;
pub use extended::extended_air;
pub use lookup::{Direction, Lookup, LookupInteraction, LookupList};
