//! Worked cases, run on the parts that need no prover and no verifier: fields, numbers,
//! polynomials, challengers, transcripts and the scheme in the clear. Each number was found apart
//! from this code. The crate has nothing but tests; it stands apart from the other cases so that
//! the gate checks both side by side. The cases are text, and what answers them is generic, so that
//! a type is written out once for each field (`answers.rt`).
#![tactic(auto)]

#[cfg(test)]
mod answers;
#[cfg(test)]
mod clear_scheme;
#[cfg(test)]
mod configurations;
#[cfg(test)]
mod fields;
#[cfg(test)]
mod lanes;
#[cfg(test)]
mod lockstep;
#[cfg(test)]
mod numbers;
#[cfg(test)]
mod polynomials;
#[cfg(test)]
mod seeds;
#[cfg(test)]
mod tables;
#[cfg(test)]
mod tests;
#[cfg(test)]
mod transcripts;
