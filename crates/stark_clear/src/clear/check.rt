//! Whether claims are true of the committed columns.
ghost use Rattle.std.specs.Prelude.{◌≡◌, ◌↔◌, IsTrue, IfErr, IfOk, length, map};
ghost use Rattle.std.specs.List.{AllByRecursion};
ghost use Rattle.stark_support.specs.Claims.{claim_view, matrix_view, point_view};
ghost use Rattle.stark_support.specs.Scheme.{row_at};
ghost use Rattle.stark_support.specs.Faults.{FindsFirstFault, PlaceByPlace};
ghost use Rattle.stark_clear.specs.ClearClaims.{ClaimsAreTrue, ClaimsFault, HasValue, HasValues, MatrixHasShape, RoundHasShape, RoundIsTrue, MatrixIsTrue};
ghost use Rattle.stark_columns.specs.Columns.{column_list, columns_list};

use stark_bench::ClearCommitment;
use stark_columns::{column_value, powers_or_none};
use stark_support::{ExtensionField, Field, MatrixClaim, OpeningClaim, PolynomialSpace};
use std::alloc::Global;
use thiserror::Error;

/// Why the scheme in the clear refuses claims. Rounds count from 0, in the order of the claims.
#[derive(Debug, Drop, Error)]
pub enum ClearError {
    /// The scheme was made to stop at this call.
    #[error("stopped")]
    Stopped,
    /// The first round whose commitment has other matrices, columns or coefficients than claimed.
    #[error("round {round}: the commitment hasn't the claimed shape")]
    Shape { round: usize },
    /// Where all shapes are right, the first round with a claimed value that isn't the column's.
    #[error("round {round}: a claimed value isn't the column's")]
    Value { round: usize },
}

/// Whether each column has so many coefficients.
fn columns_have_size<F>(columns: &[Vec<F>], size: usize) -> bool
    ensures { IsTrue result ↔ AllByRecursion (λ column. length column
        ≡ size) (map column_list columns.now) }
{
    for column in columns {
        if column.len() != size {
            return false;
        }
    }
    true
}

/// Whether so many values are claimed at a point.
fn has_count<EF>(point: &(EF, &[EF]), count: usize) -> bool
    ensures { IsTrue result ↔ (length point.now.1.now ≡ count) }
{
    point.1.len() == count
}

/// Whether so many values are claimed at each point.
fn points_have_count<EF>(points: &[(EF, &[EF])], count: usize) -> bool
    ensures { IsTrue result ↔ AllByRecursion (λ p. length p.1 ≡ count) (map point_view points.now) }
{
    for point in points {
        if !has_count(point, count) {
            return false;
        }
    }
    true
}

/// Whether the claims of a round are of as many matrices as the commitment has, each of its
/// columns' size and number.
fn round_has_shape<D: PolynomialSpace, EF>(
    matrices: &[Vec<Vec<D::Val>>],
    claims: &[MatrixClaim<'_, EF, D>],
) -> bool
    ensures { IsTrue result ↔ PlaceByPlace MatrixHasShape (map columns_list matrices.now)
        (map (matrix_view D.coset_of) claims.now) }
{
    if claims.len() != matrices.len() {
        return false;
    }
    for i in 0..matrices.len() {
        let columns = &matrices[i];
        let claim = &claims[i];
        if !columns_have_size(columns, claim.0.size()) {
            return false;
        }
        if !points_have_count(&claim.1, columns.len()) {
            return false;
        }
    }
    true
}

/// Whether the columns take these values at a point.
fn has_values<F: Field, EF: ExtensionField<F>>(
    alloc: Global,
    columns: &[Vec<F>],
    point: EF,
    values: &[EF],
) -> bool
    ensures { IsTrue result ↔ PlaceByPlace (HasValue EF.ring EF.embed point)
        (map column_list columns.now) (map (λ v. v) values.now) }
{
    if values.len() != columns.len() {
        return false;
    }
    let powers = powers_or_none::<F, EF>(alloc, columns, point);
    for i in 0..columns.len() {
        if values[i] != column_value::<F, EF>(&columns[i], point, &powers) {
            return false;
        }
    }
    true
}

/// Whether a matrix's columns take the values that are claimed, at each point.
fn matrix_is_true<F: Field, EF: ExtensionField<F>>(
    alloc: Global,
    columns: &[Vec<F>],
    points: &[(EF, &[EF])],
) -> bool
    ensures { IsTrue result ↔ AllByRecursion
        (HasValues EF.ring EF.embed (map column_list columns.now)) (map point_view points.now) }
{
    for point in points {
        if !has_values::<F, EF>(alloc, columns, point.0, point.1) {
            return false;
        }
    }
    true
}

/// Whether all that is claimed of a round's matrices is true.
fn round_is_true<D: PolynomialSpace, EF: ExtensionField<D::Val>>(
    alloc: Global,
    matrices: &[Vec<Vec<D::Val>>],
    claims: &[MatrixClaim<'_, EF, D>],
) -> bool
    ensures { IsTrue result ↔ PlaceByPlace (MatrixIsTrue EF.ring EF.embed)
        (map columns_list matrices.now) (map (matrix_view D.coset_of) claims.now) }
{
    if claims.len() != matrices.len() {
        return false;
    }
    for i in 0..matrices.len() {
        let claim = &claims[i];
        if !matrix_is_true::<D::Val, EF>(alloc, &matrices[i], &claim.1) {
            return false;
        }
    }
    true
}

/// The first round whose claims don't fit its commitment.
fn first_wrong_shape<D: PolynomialSpace, EF>(
    claims: &[OpeningClaim<'_, EF, ClearCommitment<D::Val>, D>],
) -> Option<usize>
    ensures { FindsFirstFault RoundHasShape (map (claim_view D.coset_of) claims.now) result }
{
    for i in 0..claims.len() {
        let claim = &claims[i];
        let commitment = claim.0;
        if !round_has_shape::<D, EF>(commitment.matrices(), &claim.1) {
            return Some(i);
        }
    }
    None
}

/// The first round of which something is claimed that isn't true.
fn first_wrong_value<D: PolynomialSpace, EF: ExtensionField<D::Val>>(
    alloc: Global,
    claims: &[OpeningClaim<'_, EF, ClearCommitment<D::Val>, D>],
) -> Option<usize>
    ensures { FindsFirstFault (RoundIsTrue EF.ring EF.embed)
        (map (claim_view D.coset_of) claims.now) result }
{
    for i in 0..claims.len() {
        let claim = &claims[i];
        let commitment = claim.0;
        if !round_is_true::<D, EF>(alloc, commitment.matrices(), &claim.1) {
            return Some(i);
        }
    }
    None
}

/// Whether all claims are true: each commitment has as many matrices as are claimed, each column
/// as many coefficients as the claimed domain has points, and each claimed value is the column's.
/// Where memory is refused, it takes longer.
pub fn check_claims<D: PolynomialSpace, EF: ExtensionField<D::Val>>(
    alloc: Global,
    claims: &[OpeningClaim<'_, EF, ClearCommitment<D::Val>, D>],
) -> Result<(), ClearError>
    ensures accepted { IfOk result (λ _.
        ClaimsAreTrue EF.ring EF.embed (map (claim_view D.coset_of) claims.now)) }
    ensures refused { IfErr result (λ error.
        ClaimsFault EF.ring EF.embed (map (claim_view D.coset_of) claims.now) error) }
{
    if let Some(round) = first_wrong_shape::<D, EF>(claims) {
        return Err(ClearError::Shape { round });
    }
    if let Some(round) = first_wrong_value::<D, EF>(alloc, claims) {
        return Err(ClearError::Value { round });
    }
    Ok(())
}
