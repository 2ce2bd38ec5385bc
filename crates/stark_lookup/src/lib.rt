//! Lookups as a protocol over a STARK: two draws after the first part of a trace, and the verifier
//! of the AIR that is extended by the lookups' equations.
#![tactic(auto)]

mod air;
mod draws;
mod error;
mod extension;
mod proof;
mod values;
mod verify;

pub use air::LookupAir;
pub use draws::{LookupBinding, draw_lookups, grind_lookups};
pub use error::LookupError;
pub use extension::extended_is_with_lookups;
pub use proof::LookupProof;
pub use values::values_with_draws;
pub use verify::{
    InPartsConfig, LookupVerdict, Plain, StarkLookups, in_parts, verify_with_lookups,
};
