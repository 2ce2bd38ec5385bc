//! Worked cases of the prime fields of 31 bits, and of cosets and challengers over one of them and
//! over the field of 12289. Each number was computed apart from this code. The crate has nothing
//! but tests. The cases are text, and what answers them is generic.
#![tactic(auto)]

#[cfg(test)]
mod answers;
#[cfg(test)]
mod challengers;
#[cfg(test)]
mod cosets;
#[cfg(test)]
mod fields;
#[cfg(test)]
mod tests;
