//! JSON values of which one member, an array of arrays of small numbers, is apart as lists: a
//! statement's text is nearly all the rows of preprocessed columns, and a tree takes 32 bytes for
//! each of their numbers.
#![tactic(auto)]

mod apart;
mod document;
mod element_faults;
mod elements;
mod names;
mod number;
mod rows;
#[cfg(test)]
mod tests;
mod unread;
mod values;

pub use document::{Document, document_from_bytes};
pub use element_faults::{ElementsFault, ListsFault};
pub use elements::{elements_from_json, lists_from_json, lists_of_numbers};
pub use names::{QuotedName, first_unknown};
pub use rows::NumberRows;
