//! Discrete Fourier transforms: from the coefficients of polynomials to their values at the points
//! of a two-adic coset, and back, in a time of n log n.
//!
//! The coset of `shift` and `log_size` has the points `shift * g^i`, for `i` from 0 to `2^log_size
//! - 1` in this order, where `g` is `F::two_adic_generator(log_size)`. One point is such a coset
//! too, with `log_size` 0.
//!
//! A polynomial is parted by the parity of its exponents: `p(x) = e(x^2) + x * o(x^2)`, and `p(-x)
//! = e(x^2) - x * o(x^2)`. So the values at the points of a coset come, by one product a pair, from
//! those of the halves at the points' squares, which are a coset of half as many points. This is
//! the fast Fourier transform of Cooley and Tukey, "An algorithm for the machine calculation of
//! complex Fourier series", Mathematics of Computation 19 (1965), at a power of two. The way back
//! takes the same steps from the last to the first. No list of roots is kept, and rows come out in
//! the order of the points.
//!
//! Each transform allocates what it answers and a buffer as large. By transforms
//! `periodic_lde_table` makes the table of a trace's periodic columns at the points of another
//! domain. Each call is `Err` only where memory is wanting.
#![tactic(auto)]

mod columns;
mod passes;
mod periodic;
mod transform;

pub use columns::{
    columns_fit, evaluate_columns, evaluate_on_coset, interpolate_columns, interpolate_on_coset,
};
pub use periodic::periodic_lde_table;
pub use transform::{evaluate_rows, interpolate_rows};
