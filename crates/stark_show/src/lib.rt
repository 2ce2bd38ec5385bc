//! AIRs that are data, printed for a person.
#![tactic(auto)]

mod binding;
mod degrees;
mod lines;
mod nodes;
mod phrase;
mod text;

pub use binding::Binding;
pub use lines::{bound_line, chunks_line, columns_line, constraint_line};
pub use phrase::Phrase;
pub use text::{equation, shown};
