//! What the crates of tests prove their traces with: whether a trace fits an AIR and a
//! configuration, and its proof with the verifier's verdict on it. No other crate stands on it.
#![tactic(auto)]

mod fitting;
mod made;

pub use fitting::{fits, is_trace_of, matrix_of, stands_at};
pub use made::{JudgedProofs, made_by};
