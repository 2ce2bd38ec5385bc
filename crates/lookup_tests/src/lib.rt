//! The columns of lookups by worked numbers: those of a few lines of Python, which adds up
//! fractions one by one by the inverse of each; and commitments in parts.
#![tactic(auto)]

#[cfg(test)]
mod columns;
#[cfg(test)]
mod extension;
#[cfg(test)]
mod parts;
