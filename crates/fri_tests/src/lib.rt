//! Tests of the STARK over the FRI scheme: proofs of traces over three fields, and refused ones;
//! and the guide's code over it.
#![tactic(auto)]

mod checked;
#[cfg(test)]
mod proving;
mod service;
#[cfg(test)]
mod tests;

pub use checked::prove_over_baby_bear;
pub use service::{Config, configuration, counted};
