//! What the security of a proof rests on: how many draws of a verifier can be bad, and the numbers
//! that a report is computed from.
#![tactic(auto)]

mod bounds;
mod openings;
mod params;

pub use bounds::{AirOver, ood_error_bound};
pub use openings::{OpeningShape, num_batched_openings};
pub use params::{SizedAir, StarkSecurityParams};
