//! Worked cases of proofs and of keys as bytes.
#![tactic(auto)]

#[cfg(test)]
mod keys;
#[cfg(test)]
mod proofs;
