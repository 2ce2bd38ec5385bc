//! A register machine as an AIR of code, built from small parts: four registers, four cells of
//! memory, a program of eight instructions in preprocessed columns.
#![tactic(auto)]

mod booleans;
mod choices;
mod columns;
mod ends;
mod flags;
mod machine;
mod next_row;
mod one_hot;
mod parts;
mod program;
mod results;

pub use booleans::Booleans;
pub use machine::MachineAir;
pub use one_hot::OneHot;
pub use program::MachineError;
