//! Runs of both programs on bytes in memory, as tables of text. Each number was found apart from
//! this code. The crate has nothing but tests.
#![tactic(auto)]

#[cfg(test)]
mod check_cases;
#[cfg(test)]
mod delivery;
#[cfg(test)]
mod fault_cases;
#[cfg(test)]
mod faults;
#[cfg(test)]
mod hostile_cases;
#[cfg(test)]
mod limit_cases;
#[cfg(test)]
mod limit_tests;
#[cfg(test)]
mod program;
#[cfg(test)]
mod prove_cases;
#[cfg(test)]
mod reason_cases;
#[cfg(test)]
mod reasons;
#[cfg(test)]
mod runs;
#[cfg(test)]
mod streams;
#[cfg(test)]
mod table;
#[cfg(test)]
mod tests;
#[cfg(test)]
mod texts;
#[cfg(test)]
mod verify_cases;
#[cfg(test)]
mod voskligan_cases;
#[cfg(test)]
mod voskligan_tests;
#[cfg(test)]
mod voskligan_texts;
