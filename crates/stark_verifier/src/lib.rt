//! The verifier: the tests of a proof, in their order, and its verdict.
#![tactic(auto)]

mod claims;
mod constraints;
mod contracts;
mod equation;
mod instance;
mod key_size;
mod opened;
mod openings;
mod point;
mod preprocessed;
mod shape;
mod transcript;
mod verdict;

pub use constraints::verify_constraints;
pub use key_size::{KeySize, StarkShapes};
pub use shape::{check_proof_shape, validate_degree_bits};
pub use verdict::{StarkVerdict, verify, verify_with_preprocessed};
