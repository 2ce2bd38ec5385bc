//! Columns of a matrix as polynomials: interpolated from rows, as chunks of a quotient, and their
//! values at points and on domains. Commitment schemes stand on it.
#![tactic(auto)]

mod chunks;
mod columns;
mod powers;
mod rows;

pub use chunks::chunks_of;
pub use columns::columns_of;
pub use powers::{column_value, powers_or_none};
pub use rows::{matrices_at, rows_on};
