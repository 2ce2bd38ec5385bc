//! SHA-256 of several texts at once, lane by lane.
#![tactic(auto)]

mod blocks;
mod compress;
mod digest;
mod eight;
mod padding;
mod pairs;
#[cfg(test)]
mod tests;
mod texts;
mod words;

pub use digest::sha256_lanes;
pub use eight::{WIDTH, compress_eight, sha256_eight};
pub use pairs::{compress_pair, compress_pairs};
