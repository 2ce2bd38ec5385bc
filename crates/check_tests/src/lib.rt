//! Tests of the check of a trace's rows, and of proofs of traces that are checked first.
#![tactic(auto)]

#[cfg(test)]
mod checking;
#[cfg(test)]
mod proving;
#[cfg(test)]
mod tests;
