//! What FRI's parameters are worth: the numbers that a report on security is computed from, the
//! bits of a field among them, and bits of security, conjectured and proved.
#![tactic(auto)]

mod bits;
mod errors;
mod field;
mod listed;
mod proved;
mod regime;

pub use bits::conjectured_security_bits;
pub use errors::fri_error_bound;
pub use field::field_bits;
pub use listed::{listed_bits_hold, listed_security_bits};
pub use proved::{proved_bits_hold, proved_security_bits};
pub use regime::fri_regime;
