//! A commitment scheme in the clear, without masks and with them.
#![tactic(auto)]

mod clear;
mod masked;

pub use clear::{ClearCall, ClearError, ClearPcs, ClearProof, ClearProverError};
pub use masked::MaskedClearPcs;
