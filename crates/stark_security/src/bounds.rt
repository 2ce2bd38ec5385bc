//! How many of a verifier's draws can be bad.
ghost use Rattle.std.specs.Prelude.{◌≡◌, ◌+◌, ◌-◌, ◌^◌, ◌≤◌, ℕ, List, map, max, IfOk, IfSome};
ghost use Rattle.stark_air.specs.Layout.{Covers};
ghost use Rattle.stark_air.specs.SymbolicLayout.{symbolic_layout};
ghost use Rattle.stark_symbolic.specs.Fitting.{fitting};
ghost use Rattle.stark_security.specs.ConstraintPolynomial.{AirInstance};
ghost use Rattle.stark_security.specs.DegreeBound.{bound_leaves};
ghost use Rattle.stark_security.specs.ErrorBound.{BoundBadDraws, IsErrorBound};

use stark_air::{Air, AirLayout};
use stark_parts::get_log_num_quotient_chunks_for_degree;
use stark_support::{ExtensionField, Field, checked_log_size_sum};
use stark_symbolic::{LeafDegrees, greatest_degrees};
use std::alloc::{AllocError, Global};

/// An AIR over two fields and a subgroup, given by its generator and the logarithm of its size, in
/// one record.
pub trait AirOver<F, EF> {
    ghost instance: { Self → F → ℕ → AirInstance F EF };
}

impl<F: Field, EF: ExtensionField<F>, A: Air<F>> AirOver<F, EF> for A {
    ghost instance = { λ air generator log_size. record {
      base = F.ring;
      base_inverse = F.inverse_of;
      ring = EF.ring;
      inverse = EF.inverse_of;
      embed = EF.embed;
      basis = EF.basis;
      generator = generator;
      log_size = log_size;
      constraints = A.constraints air;
      periodic = A.periodic_columns air;
    } };
}

/// The greater of two numbers, None where one of them is none.
fn greater(left: Option<usize>, right: Option<usize>) -> Option<usize>
    ensures { (a b : ℕ) → left ≡ fitting a → right ≡ fitting b → result ≡ fitting (max a b) }
{
    Some(left?.max(right?))
}

/// `2^bits`, which fits.
fn two_power(bits: usize) -> usize
    requires { bits ≤ 63 }
    ensures power { result ≡ 2 ^ bits }
    ensures positive { 1 ≤ result }
{
    1 << bits
}

/// The degree of `Z_H` times the recomposed quotient, whose chunks' domains together have `2 ^
/// (log_parts + degree_bits)` points; None where it doesn't fit.
fn recomposed_bound(log_parts: usize, degree_bits: usize) -> Option<usize>
    requires { degree_bits ≤ 63 }
    ensures { result ≡ fitting (2 ^ (log_parts + degree_bits) + (2 ^ degree_bits - 1)) }
{
    let (_, quotient_size) = checked_log_size_sum(log_parts, degree_bits)?;
    quotient_size.checked_add(two_power(degree_bits) - 1)
}

/// The degrees of leaves over committed columns of `2 ^ degree_bits` coefficients.
fn bound_leaves(degree_bits: usize, is_zk: usize) -> LeafDegrees
    requires masked { is_zk ≤ degree_bits }
    requires fits { degree_bits ≤ 63 }
    ensures { result ≡ bound_leaves (2 ^ degree_bits) (2 ^ (degree_bits - is_zk)) }
{
    let (committed, height) = (two_power(degree_bits), two_power(degree_bits - is_zk));
    LeafDegrees {
        column: committed - 1,
        periodic: height - 1,
        boundary: height - 1,
        transition: 1,
    }
}

/// How many of a verifier's two draws can be bad for a trace that breaks a constraint: at most the
/// first number of alphas, and for any other alpha at most the second number of zetas.
///
/// The first is one less than there are constraints, and 0 without constraints. With M, the `2 ^
/// degree_bits` coefficients that a committed column has, N = M / 2 ^ `is_zk` rows, and the m
/// chunks that the quotient is cut into, the second is the greater of the constraints' degree bound
/// and `N + (m - 1) * N + M - 1`. A tree's degree bound is M - 1 for a main or preprocessed column,
/// N - 1 for the selectors of the first and the last row and a periodic column, 1 for that of the
/// transition, 0 for a constant and a public value; of a sum and a difference the greater, of a
/// product the sum.
///
/// `is_zk` is 1 in zero knowledge and else 0, and the layout is the AIR's own. `Ok(None)` exactly
/// where the second number is above the greatest `usize`; Err only where memory was refused.
pub fn ood_error_bound<F: Field, EF: ExtensionField<F>, A: Air<F>>(
    alloc: Global,
    air: &A,
    layout: AirLayout,
    degree_bits: usize,
    is_zk: usize,
) -> Result<Option<(usize, usize)>, AllocError>
    requires covered { Covers (symbolic_layout layout) (A.layout air.now) }
    requires flag { is_zk ≤ 1 }
    requires masked { is_zk ≤ degree_bits }
    requires fits { degree_bits ≤ 63 }
    ensures exact { IfOk result (λ answer.
        IsErrorBound (A.constraints air.now) (A.degree_hint air.now) degree_bits is_zk answer) }
    ensures counts { IfOk result (λ answer. IfSome answer (BoundBadDraws
        (⟦<A as AirOver<F, EF>>⟧.instance air.now) (A.degree_hint air.now) degree_bits is_zk)) }
{
    let multiples = LeafDegrees::trace_multiples(0);
    let bounds = bound_leaves(degree_bits, is_zk);
    let degrees = greatest_degrees::<F, EF, A>(alloc, air, layout, multiples, bounds)?;
    let degree = degrees.first.unwrap_or(usize::MAX);
    let log_parts = get_log_num_quotient_chunks_for_degree(air, degree, is_zk);
    match greater(degrees.second, recomposed_bound(log_parts, degree_bits)) {
        Some(zetas) => Ok(Some((degrees.num_constraints.saturating_sub(1), zetas))),
        None => Ok(None),
    }
}
