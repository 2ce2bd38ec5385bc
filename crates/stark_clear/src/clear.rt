//! A commitment scheme in the clear.

mod call;
mod check;
mod commit;
mod json;
mod opening;
mod pcs;

pub use call::ClearCall;
pub use check::ClearError;
pub use commit::{committed, committed_alone};
pub(crate) use pcs::Committed;
pub use pcs::{ClearPcs, ClearProof, ClearProverError};
