//! The auxiliary columns of a trace's lookups: helpers, by one inversion in all, and running sums.
#![tactic(auto)]

mod columns;
mod error;
mod helpers;
mod tuples;

pub use columns::{LookupDraws, auxiliary_columns, lookup_columns};
pub use error::AuxiliaryError;
pub use tuples::TupleEntry;
