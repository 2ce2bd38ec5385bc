//! What the commands answer, over any configuration: verdicts and findings with what is written of
//! them, and a verifier and a prover that set up an AIR's own preprocessed columns.
#![tactic(auto)]

mod airs;
mod contracts;
mod finding;
mod keyed;
mod own_columns;
mod refusal;
mod report;
mod rows;
mod shape;
mod task;
mod trace;
mod verdict;
mod written;

pub use airs::DeclaredAir;
pub use contracts::AnswersWithColumns;
pub use finding::{BrokenRow, Finding};
pub use keyed::verify_with_key;
pub use own_columns::prove_with_own_columns;
pub use refusal::{refusal_of_prover, verdict_of, words_of_failure, words_of_refusal};
pub use report::Report;
pub use rows::log_rows_of;
pub use shape::{CheckShape, have_length};
pub use task::{ProofForm, TraceTask};
pub use trace::{log_height_of_rows, log_of_height, values_of};
pub use verdict::{Refusal, RunEnd, Verdict};
pub use written::{WrittenProof, finding_of_proof};
