//! The parameters of FRI, and its proofs, with their JSON.
#![tactic(auto)]

mod fault;
mod lists;
mod parameters;
mod path;
mod path_json;
mod proof;
mod proof_json;
#[cfg(test)]
mod tests;

pub use fault::{FriProofFault, FriProofField};
pub use parameters::{FriParameters, FriParametersError};
pub use path::MerklePath;
pub use proof::{FriProof, InputOpening, LayerOpening, Phase, QueryProof};
