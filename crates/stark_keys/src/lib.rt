//! Keys of statements: what a verifier keeps of the columns that a statement declares is made once,
//! and the verdict on a proof is given with it.
#![tactic(auto)]

mod contracts;
mod digest;
mod field;
mod judging;
mod making;
mod over;
mod schemes;
mod statement;
mod words;

pub use contracts::KeyAnswers;
pub use field::KeyedField;
pub use judging::verify_with_key_bytes;
pub use making::key_with;
pub use over::ValueKeys;
pub use schemes::{FieldKeys, FieldOwned};
pub use statement::{StatementKeys, statement_key, verify_statement_with_key};
