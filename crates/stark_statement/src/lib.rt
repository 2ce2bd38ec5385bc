//! Statements: what a verifier's owner fixes before he looks at a proof, read from JSON, written
//! canonically, and bound into a transcript.
#![tactic(auto)]

mod binding;
mod configuration;
mod configuration_error;
mod configuration_json;
mod error;
mod fields;
mod limits;
mod repeats;
mod statement;
mod words;
mod writing;

pub use binding::bind_statement;
pub use configuration::{Configuration, FieldName, SchemeChoice};
pub use configuration_error::{ConfigurationError, ConfigurationMember};
pub use error::StatementError;
pub use limits::{AirLimits, AirTooLarge};
pub use repeats::refuse_repeats;
pub use statement::{Statement, statement_document};
