//! Worked cases, run on the crates below. Each number was found apart from this code: by hand, or
//! from the modular powers and inverses of another language. Beside its tests the crate has the
//! kinds of their AIRs alone, which definitions name.
#![tactic(auto)]

#[cfg(test)]
mod airs;
#[cfg(test)]
mod answers;
#[cfg(test)]
mod calls;
#[cfg(test)]
mod cases;
#[cfg(test)]
mod chains;
#[cfg(test)]
mod constraints;
#[cfg(test)]
mod declaring_air;
#[cfg(test)]
mod domains;
#[cfg(test)]
mod hostile;
#[cfg(test)]
mod hostile_inputs;
mod kinds;
#[cfg(test)]
mod named_air;
#[cfg(test)]
mod preprocessing;
#[cfg(test)]
mod proofs;
#[cfg(test)]
mod provers;
#[cfg(test)]
mod proving;
#[cfg(test)]
mod quotients;
#[cfg(test)]
mod security;
#[cfg(test)]
mod sized_airs;
#[cfg(test)]
mod sizing;
#[cfg(test)]
mod tests;
#[cfg(test)]
mod trees;
#[cfg(test)]
mod verdicts;
#[cfg(test)]
mod without_memory;
