//! A STARK over FRI: what the verifier's Ok shows of whatever tables lead to a proof's roots, with
//! no assumption but on how the draws are made.
#![tactic(auto)]

mod verify;

pub use verify::{ByFri, Tables, verify_over_fri};
