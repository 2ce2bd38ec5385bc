//! Proofs of traces that are committed to in two parts, in the clear and over FRI; and forged ones,
//! which are refused.
#![tactic(auto)]

#[cfg(test)]
mod proving;
#[cfg(test)]
mod tests;
