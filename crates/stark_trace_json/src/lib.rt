//! The rows of a trace that a JSON text spells, read into one list: an array of arrays of numbers
//! in one pass, with no tree, and any other text by the tree.
#![tactic(auto)]

mod fault;
mod rows;
mod scanner;
mod table;
#[cfg(test)]
mod tests;
mod tree;

pub use fault::RowsFault;
pub use rows::{TraceRows, rows_from_bytes};
