//! A commitment scheme in two parts: the first columns of a trace are committed to by themselves,
//! and the others after what is drawn in between.
#![tactic(auto)]

mod challengers;
mod claims;
mod columns;
mod in_parts;
mod in_parts_json;
mod pcs;
mod rounds;

pub use challengers::observe_parts;
pub use in_parts::InParts;
pub use pcs::TwoPartPcs;
