//! Worked cases of FRI: roots over extended rows, proofs that a prover in Python made, and what is
//! at fault with them once they are changed. The crate has nothing but tests.
#![tactic(auto)]

#[cfg(test)]
mod answers;
#[cfg(test)]
mod cases;
#[cfg(test)]
mod claims;
#[cfg(test)]
mod commitments;
#[cfg(test)]
mod edits;
#[cfg(test)]
mod tests;
