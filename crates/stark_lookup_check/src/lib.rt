//! The balance of lookups, with no draws: of each tuple as much is received as is sent, counted in
//! the field; or the first entry whose tuple doesn't balance.
#![tactic(auto)]

mod balance;
#[cfg(test)]
mod tests;
mod totals;

pub use balance::first_unbalanced;
