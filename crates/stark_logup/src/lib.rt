//! Lookups by sums of fractions: what a running sum of `m / (gamma - a)` says of the multiset of
//! the values `a`, how few draws let a false lookup pass, and its constraints over the base field.
#![tactic(auto)]

mod columns;
mod coordinates;
mod lookup;
mod multiset;
mod rows;

pub use columns::{Fraction, group_fraction, group_helper};
pub use coordinates::{basis_has_products, products_are_by_coordinates};
pub use lookup::{false_lookups_fail, true_lookups_pass};
pub use multiset::{looked_up_is_there, permutations_are_equal};
pub use rows::{adding_rows_hold, holding_rows_pass, passing_columns_hold};
