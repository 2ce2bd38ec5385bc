//! The commands of `stark_run` on its sample AIRs, from bytes to an answer: a check of opened
//! numbers, a verification, a proof. Each reads one JSON text.
#![tactic(auto)]

mod check;
mod config;
mod contracts;
mod input;
mod point;
mod proof_input;
mod prove;
mod sample;
mod trace_input;
mod verify;

pub use check::check_sample;
pub use config::ProgramConfig;
pub use input::{CheckInput, Extension, numbers_from, zeros};
pub use proof_input::{ChosenChallenger, ProofInput, proof_input_from};
pub use prove::{ProvedInput, prove_sample};
pub use sample::{SampleAir, sample_air};
pub use trace_input::{TraceInput, trace_input_from};
pub use verify::{VerifiedInput, verify_sample};
