//! The code of README.md and of docs/guide as it stands there (`scripts/documents` compares), and a
//! test that runs each piece.
#![tactic(auto)]

mod accepted;
mod counted;
mod counting;
mod doubling;
mod expressions;
mod places;
mod sound;
#[cfg(test)]
mod tests;
mod text;

pub use counting::{CountedProofs, count};
pub use doubling::DoublingAir;
