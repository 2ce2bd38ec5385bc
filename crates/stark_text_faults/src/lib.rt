//! Where a text stops being JSON, for a person: the line and the column, and what was expected
//! there. Whether it is JSON the kit's reader decides; here is found why it isn't.
#![tactic(auto)]

mod expected;
mod fault;
mod numbers;
mod place;
mod scan;
mod strings;
#[cfg(test)]
mod tests;
mod values;

pub use expected::Expected;
pub use fault::{TextFault, first_fault_of_json};
pub use place::{Place, place_after};
