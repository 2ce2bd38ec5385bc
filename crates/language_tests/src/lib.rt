//! Worked cases of the language of statements that people write: texts, and the tokens and lines
//! that they spell, written by hand. The crate has nothing but tests.
#![tactic(auto)]

#[cfg(test)]
mod tests;
