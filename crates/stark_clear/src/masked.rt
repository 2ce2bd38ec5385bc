//! The scheme in the clear with masks.

mod chunks;
mod columns;
mod commit;
mod list;
mod pcs;

pub use pcs::MaskedClearPcs;
