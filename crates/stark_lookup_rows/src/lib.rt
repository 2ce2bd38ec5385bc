//! What each row of a trace sends and receives: the tuples of an AIR's lookups, by the values of
//! its nodes.
#![tactic(auto)]

mod cut;
mod places;
mod rows;

pub use rows::{group_lookups, row_entries};
