//! What the crates of tests read their tables of worked cases with: cases, words, numbers, elements
//! and JSON as text. No other crate stands on it.
#![tactic(auto)]

mod cases;
mod challengers;
mod elements;
mod json;
mod words;

pub use cases::{all_cases, all_cases_of, given_and_answer, wrong_case};
pub use challengers::script_of;
pub use elements::{above, above_in, all_above_in, computed, element, elements_in};
pub use json::{read, read_all, spelled};
pub use words::{apart, list_in, numbers_in, shown, word_and_rest};
