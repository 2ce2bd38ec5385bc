//! Whether claims fit, before any proof is read.
ghost use Rattle.std.specs.Prelude.{◌≡◌, ◌≢◌, ◌+◌, ◌^◌, ◌≤◌, ◌↔◌, IsTrue, MatchOption, length, map};
ghost use Rattle.std.specs.List.{AllByRecursion};
ghost use Rattle.stark_support.specs.Claims.{point_view};
ghost use Rattle.stark_support.specs.Coset.{coset_vanishing};
ghost use Rattle.stark_support.specs.Faults.{FindsFirstFault};
ghost use Rattle.stark_fri.specs.Found.{FindsHeight};
ghost use Rattle.stark_fri.specs.Claims.{HasHeight, HasOneWidth, HasWidths, MatricesAreOff, PointIsOff, PointsAreOff, first_height, matrices_in, matrix_seen, round_seen, rounds_in};

use crate::error::FriError;
use crate::fields::FoldingFields;
use crate::transcript::log_size_of;
use stark_fri_proof::FriParameters;
use stark_merkle::Root;
use stark_support::{
    ExtensionField, Field, MatrixClaim, OpeningClaim, PolynomialSpace, PrimeField64, TwoAdicField,
    squared_times,
};

/// The logarithm of the height of the first matrix; None where none is claimed.
fn first_height<EF, D: PolynomialSpace>(claims: &[OpeningClaim<'_, EF, Root, D>]) -> Option<usize>
    ensures { result ≡ first_height (map (round_seen D.coset_of) claims.now) }
{
    for claim in claims {
        if let Some(matrix) = claim.1.first() {
            return Some(log_size_of(&matrix.0));
        }
    }
    None
}

/// Whether all matrices have the height of this logarithm.
fn has_height<EF, D: PolynomialSpace>(
    matrices: &[MatrixClaim<'_, EF, D>],
    log_height: usize,
) -> bool
    ensures { IsTrue result ↔
        AllByRecursion (λ m. m.0 ≡ log_height) (map (matrix_seen D.coset_of) matrices.now) }
{
    for matrix in matrices {
        if log_size_of(&matrix.0) != log_height {
            return false;
        }
    }
    true
}

/// Whether so many values are claimed at each point.
pub(crate) fn points_have_count<EF>(points: &[(EF, &[EF])], count: usize) -> bool
    ensures { IsTrue result ↔ AllByRecursion (λ p. length p.1 ≡ count) (map point_view points.now) }
{
    for point in points {
        if point.1.len() != count {
            return false;
        }
    }
    true
}

/// Whether as many values are claimed at each point as at the first.
fn has_one_width<EF>(points: &[(EF, &[EF])]) -> bool
    ensures { IsTrue result ↔ HasOneWidth (map point_view points.now) }
{
    match points.first() {
        Some(first) => points_have_count(points, first.1.len()),
        None => true,
    }
}

/// Whether each matrix has one width.
fn has_widths<EF, D: PolynomialSpace>(matrices: &[MatrixClaim<'_, EF, D>]) -> bool
    ensures { IsTrue result ↔
        AllByRecursion (λ m. HasOneWidth m.1) (map (matrix_seen D.coset_of) matrices.now) }
{
    for matrix in matrices {
        if !has_one_width(&matrix.1) {
            return false;
        }
    }
    true
}

/// Whether a point lies off the coset of `2^bits` extended rows. A query divides by its distance
/// from each of these.
fn point_is_off<F: TwoAdicField + PrimeField64, EF: ExtensionField<F>>(
    point: EF,
    bits: usize,
) -> bool
    ensures { IsTrue result ↔ (coset_vanishing EF.ring EF.embed F.inverse_of (2 ^ bits)
        F.GENERATOR point ≡ EF.ring.zero → ⊥) }
{
    squared_times(point * EF::from_base(F::GENERATOR.inverse()), bits) != EF::ONE
}

/// Whether all points lie off the coset of `2^bits` extended rows.
fn points_are_off<F: TwoAdicField + PrimeField64, EF: ExtensionField<F>>(
    points: &[(EF, &[EF])],
    bits: usize,
) -> bool
    ensures { IsTrue result ↔ AllByRecursion
        (PointIsOff ⟦<EF as FoldingFields<F>>⟧.folding (2 ^ bits)) (map point_view points.now) }
{
    for point in points {
        if !point_is_off::<F, EF>(point.0, bits) {
            return false;
        }
    }
    true
}

/// Whether all points of the matrices are off the larger coset.
fn matrices_are_off<EF, D>(matrices: &[MatrixClaim<'_, EF, D>], bits: usize) -> bool
where
    D: PolynomialSpace<Val: PrimeField64>,
    EF: ExtensionField<D::Val>,
    ensures { IsTrue result ↔ MatricesAreOff ⟦<EF as FoldingFields<D::Val>>⟧.folding
        (2 ^ bits) (matrices_in D.coset_of matrices.now) }
{
    for matrix in matrices {
        if !points_are_off::<D::Val, EF>(&matrix.1, bits) {
            return false;
        }
    }
    true
}

/// The first round with a matrix of another height.
fn first_other_height<EF, D: PolynomialSpace>(
    claims: &[OpeningClaim<'_, EF, Root, D>],
    log_height: usize,
) -> Option<usize>
    ensures { FindsFirstFault (HasHeight log_height)
        (map (round_seen D.coset_of) claims.now) result }
{
    for i in 0..claims.len() {
        let claim = &claims[i];
        if !has_height(&claim.1, log_height) {
            return Some(i);
        }
    }
    None
}

/// The first round with a matrix of two widths.
fn first_of_two_widths<EF, D: PolynomialSpace>(
    claims: &[OpeningClaim<'_, EF, Root, D>],
) -> Option<usize>
    ensures { FindsFirstFault HasWidths (map (round_seen D.coset_of) claims.now) result }
{
    for i in 0..claims.len() {
        let claim = &claims[i];
        if !has_widths(&claim.1) {
            return Some(i);
        }
    }
    None
}

/// The first round with a point on the coset of `2^bits` extended rows.
fn first_on_coset<EF, D>(claims: &[OpeningClaim<'_, EF, Root, D>], bits: usize) -> Option<usize>
where
    D: PolynomialSpace<Val: PrimeField64>,
    EF: ExtensionField<D::Val>,
    ensures { FindsFirstFault (PointsAreOff ⟦<EF as FoldingFields<D::Val>>⟧.folding (2 ^ bits))
        (map (round_seen D.coset_of) claims.now) result }
{
    for i in 0..claims.len() {
        let claim = &claims[i];
        if !matrices_are_off::<EF, D>(&claim.1, bits) {
            return Some(i);
        }
    }
    None
}

/// The logarithm of the number of extended rows; None where the field has no group of that size.
fn checked_row_bits<F: TwoAdicField>(log_height: usize, log_blowup: usize) -> Option<usize>
    ensures { MatchOption result (log_height + log_blowup ≤ F.TWO_ADICITY → ⊥)
        (λ bits. (bits ≡ log_height + log_blowup) × (bits ≤ F.TWO_ADICITY)) }
{
    log_height
        .checked_add(log_blowup)
        .filter(|bits| *bits <= F::TWO_ADICITY)
}

/// The logarithm of the matrices' height, if the claims fit; else the first fault of them, of
/// `NoClaims`, `MixedHeights`, `TooHigh`, `Widths` and `PointOnCoset` in this order.
pub fn check_claims<EF, D>(
    parameters: &FriParameters,
    claims: &[OpeningClaim<'_, EF, Root, D>],
) -> Result<usize, FriError>
where
    D: PolynomialSpace<Val: PrimeField64>,
    EF: ExtensionField<D::Val>,
    ensures { FindsHeight ⟦<EF as FoldingFields<D::Val>>⟧.folding
        parameters.now (rounds_in D.coset_of claims.now) result }
{
    let Some(log_height) = first_height(claims) else {
        return Err(FriError::NoClaims);
    };
    if let Some(round) = first_other_height(claims, log_height) {
        return Err(FriError::MixedHeights { round });
    }
    let Some(bits) = checked_row_bits::<D::Val>(log_height, parameters.log_blowup()) else {
        return Err(FriError::TooHigh);
    };
    if let Some(round) = first_of_two_widths(claims) {
        return Err(FriError::Widths { round });
    }
    if let Some(round) = first_on_coset::<EF, D>(claims, bits) {
        return Err(FriError::PointOnCoset { round });
    }
    Ok(log_height)
}
