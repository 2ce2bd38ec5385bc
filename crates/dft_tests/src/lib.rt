//! Worked cases of the transforms: numbers that were computed apart from this code, and every size
//! from 1 to 2^12 against `polynomial_value`. The crate has nothing but tests. The cases are text,
//! and what answers them is generic in the field.
#![tactic(auto)]

#[cfg(test)]
mod agreement;
#[cfg(test)]
mod answers;
#[cfg(test)]
mod calls;
#[cfg(test)]
mod lists;
#[cfg(test)]
mod tests;
