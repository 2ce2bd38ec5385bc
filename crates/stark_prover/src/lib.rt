//! The prover of the univariate STARK: what it answers is a proof of the trace that it was handed,
//! or the first cause of none.
#![tactic(auto)]

mod commit;
mod committed;
mod contracts;
mod domains;
mod open;
mod opened_values;
mod prover;
mod quotient;
mod rounds;
mod transcript;

pub use committed::{CommittedTrace, prove_committed};
pub use contracts::{StarkCommitted, StarkProving};
pub use prover::{prove, prove_with_preprocessed};
