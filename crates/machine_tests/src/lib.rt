//! Tests of the machine as an AIR of code, over BabyBear and FRI: two programs' traces are checked,
//! proved, and proved by the AIR as data; spoiled traces are found.
#![tactic(auto)]

#[cfg(test)]
mod interpreter;
#[cfg(test)]
mod programs;
#[cfg(test)]
mod proving;
#[cfg(test)]
mod tests;
