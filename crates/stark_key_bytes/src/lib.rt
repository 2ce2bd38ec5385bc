//! Keys of statements as bytes: what a verifier keeps of the columns that a statement declares,
//! beside the digest of the statement.
#![tactic(auto)]

mod file;
mod key;

pub use file::{key_from_bytes, key_to_bytes};
pub use key::StatementKey;
