//! Lookups over FRI: what an accepted proof shows of whatever tables lead to its roots, with no
//! assumption but on how the draws are made.
#![tactic(auto)]

mod verify;

pub use verify::{LookupTables, verify_with_lookups_over_fri};
