//! Proofs with lookups over two schemes: range check, permutation, copy, program memory, two
//! lookups at once; and false or forged ones, which are refused.
#![tactic(auto)]

#[cfg(test)]
mod cases;
#[cfg(test)]
mod proving;
#[cfg(test)]
mod rows;
