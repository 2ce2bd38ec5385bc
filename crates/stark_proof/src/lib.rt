//! What a proof carries, and its JSON.
#![tactic(auto)]

mod committed;
mod error;
mod fields;
mod openings;
mod proof;
mod rows;
mod values;

pub use error::{OpeningsDecodeError, ProofDecodeError};
pub use values::{Commitments, OpenedValues, PreprocessedOpenedValues, Proof};
