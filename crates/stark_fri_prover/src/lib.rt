//! The FRI scheme: commitments as trees over extended rows, openings as folded polynomials, and the
//! scheme that they make with the verifier.
#![tactic(auto)]

mod batch;
mod calls;
mod claims;
mod commit;
mod laws;
mod layers;
mod opening;
mod pcs;
mod phases;

pub use commit::{FriData, commit_columns};
pub use laws::accepts_soundly;
pub use pcs::FriPcs;
