//! Statements, from bytes to an answer: a proof verified, a trace checked or proved, an AIR shown,
//! over the configuration that the statement names.
#![tactic(auto)]

mod bounds;
mod checking;
mod counted;
mod description;
mod field;
mod fitting;
mod floor;
mod heights;
mod judging;
mod misfit;
mod over;
mod progress;
mod proof_heights;
mod proving;
mod reading;
mod schemes;
mod security;
mod service;
mod showing;
mod statement;
mod words;
mod worth;

pub use bounds::{
    JudgingConfig, ProvingConfig, ServiceConfig, StatementChallenger, StatementExtension,
    StatementField,
};
pub use counted::{CountedField, Numbered};
pub use field::ServiceField;
pub use floor::{FloorAnswers, FloorVerdict, verify_at_least};
pub use heights::{height_fault, of_other_height};
pub use judging::{unfit_rows, verify_with};
pub use over::ValueAnswers;
pub use progress::{Progress, Silent, Stage};
pub use proof_heights::{FieldHeights, ProofHeights};
pub use proving::answer_with;
pub use reading::{ReadProof, read_proof, read_statement};
pub use schemes::{ClearConfig, FieldAnswers, FriConfig, config_for};
pub use security::SecurityBits;
pub use service::{ServiceAnswers, StarkService};
pub use statement::{
    ConfiguredAnswers, NamedFields, StatementAnswers, answer_trace, check_statement, copied,
    prove_statement, read_configured, show_statement, verify_statement,
};
pub use words::{SchemeWords, reason_of};
pub use worth::{SecurityError, StatementSecurity, statement_security};
