//! How many of the STARK's draws can be bad where FRI shows what its columns are.
ghost use Rattle.std.specs.Prelude.{◌≡◌, ◌+◌, ◌^◌, ◌≤◌, ℕ, max, IfOk, IfSome};
ghost use Rattle.stark_air.specs.Layout.{Covers};
ghost use Rattle.stark_air.specs.SymbolicLayout.{symbolic_layout};
ghost use Rattle.stark_symbolic.specs.Fitting.{fitting};
ghost use Rattle.stark_security.specs.DegreeBound.{bound_leaves};
ghost use Rattle.stark_fri_security.specs.FriErrors.{BoundFriDraws, IsFriErrorBound};

use stark_air::{Air, AirLayout};
use stark_parts::get_log_quotient_degree_extension;
use stark_security::AirOver;
use stark_support::{ExtensionField, Field, checked_log_size_sum};
use stark_symbolic::{LeafDegrees, greatest_degrees};
use std::alloc::{AllocError, Global};

/// The greater of two numbers, None where one of them is none.
fn greater(left: Option<usize>, right: Option<usize>) -> Option<usize>
    ensures { (a b : ℕ) → left ≡ fitting a → right ≡ fitting b → result ≡ fitting (max a b) }
{
    Some(left?.max(right?))
}

/// `2^bits`, which fits.
fn two_power(bits: usize) -> usize
    requires { bits ≤ 63 }
    ensures power { result ≡ 2 ^ bits }
    ensures positive { 1 ≤ result }
{
    1 << bits
}

/// The degree of `Z_H` times the recomposed quotient, where a chunk's degree is at most the height;
/// None where it doesn't fit.
fn recomposed_bound(log_chunks: usize, log_height: usize) -> Option<usize>
    requires { log_height ≤ 63 }
    ensures { result ≡ fitting (2 ^ (log_chunks + log_height) + 2 ^ log_height) }
{
    let (_, quotient_size) = checked_log_size_sum(log_chunks, log_height)?;
    quotient_size.checked_add(two_power(log_height))
}

/// The degrees of leaves over columns of degree at most the height.
fn leaves_of(log_height: usize) -> LeafDegrees
    requires { log_height ≤ 63 }
    ensures { result ≡ bound_leaves (2 ^ log_height + 1) (2 ^ log_height) }
{
    let height = two_power(log_height);
    LeafDegrees {
        column: height,
        periodic: height - 1,
        boundary: height - 1,
        transition: 1,
    }
}

/// How many alphas and zetas can be bad for a trace of `2^log_height` rows that breaks a
/// constraint, where its columns and the quotient's chunks are polynomials of degree **at most**
/// the number of rows, as FRI shows of them: one above what `ood_error_bound` counts.
///
/// `Ok(None)` exactly where the second number is above the greatest `usize`, as for 2^64 rows; Err
/// only where memory was refused.
pub fn fri_error_bound<F: Field, EF: ExtensionField<F>, A: Air<F>>(
    alloc: Global,
    air: &A,
    layout: AirLayout,
    log_height: usize,
) -> Result<Option<(usize, usize)>, AllocError>
    requires covered { Covers (symbolic_layout layout) (A.layout air.now) }
    ensures exact { IfOk result (λ answer.
        IsFriErrorBound (A.constraints air.now) (A.degree_hint air.now) log_height answer) }
    ensures counts { IfOk result (λ answer. IfSome answer (BoundFriDraws
        (⟦<A as AirOver<F, EF>>⟧.instance air.now) (A.degree_hint air.now) log_height)) }
{
    let log_chunks = get_log_quotient_degree_extension::<F, EF, A>(alloc, air, layout, 0, 0)?;
    if log_height > 63 {
        return Ok(None);
    }
    let leaves = leaves_of(log_height);
    let degrees = greatest_degrees::<F, EF, A>(alloc, air, layout, leaves, leaves)?;
    match greater(degrees.second, recomposed_bound(log_chunks, log_height)) {
        Some(zetas) => Ok(Some((degrees.num_constraints.saturating_sub(1), zetas))),
        None => Ok(None),
    }
}
