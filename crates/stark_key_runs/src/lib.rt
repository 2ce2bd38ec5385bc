//! Runs of `voskligan` about keys: a statement's key made, and a proof verified with one, from
//! words and bytes to bytes.
#![tactic(auto)]

mod judging;
mod making;
mod words;

pub use judging::run_with_key;
pub use making::run_key;
pub use words::{KeyMisuse, KeyRequest, key_request_of};
