//! The prover's quotient: the constraints' folded values over a trace's rows, over the vanishing
//! polynomial of its domain.
#![tactic(auto)]

mod group_eval;
mod packed_rows;
mod plain_eval;
mod quotient;
mod row;
mod vectorized_eval;

pub use quotient::{QuotientAir, Quotients, quotient_values};
pub use row::{FoldedRow, folded_row};
pub use vectorized_eval::{QUOTIENT_ILP, folded_pairs};
