//! Worked cases of what statements are worth, of the words of schemes' faults, and of runs with
//! keys.
#![tactic(auto)]

#[cfg(test)]
mod key_runs;
#[cfg(test)]
mod words;
#[cfg(test)]
mod worth;
