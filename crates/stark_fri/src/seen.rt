//! The claims with the values of the rows that a query opens, and their batched value.
ghost use Rattle.std.specs.Prelude.{◌≡◌, ◌++◌, ◌^◌, ◌≤◌, IfOk, OnOk, map};
ghost use Rattle.stark_support.specs.Claims.{point_view};
ghost use Rattle.stark_fri.specs.Claims.{AreOff, rounds_in};
ghost use Rattle.stark_fri.specs.Query.{batched_at, seen_at_point, seen_at_points, seen_of};
ghost use Rattle.stark_fri.specs.Found.{seen_in};

use crate::fields::FoldingFields;
use crate::folds::point_at;
use stark_folding::reduce_claims;
use stark_fri_proof::InputOpening;
use stark_merkle::Root;
use stark_support::{
    ExtensionField, Field, MatrixClaim, OpeningClaim, PolynomialSpace, PrimeField64, TwoAdicField,
};
use std::alloc::{AllocError, Global};

/// Puts the claims of a point behind the others, with the row's values.
fn push_point<F: TwoAdicField + PrimeField64, EF: ExtensionField<F>>(
    seen: &mut Vec<(EF, EF, EF)>,
    row: &[F],
    point: &(EF, &[EF]),
) -> Result<(), AllocError>
    ensures { OnOk result (seen.new.items
        ≡ seen.old.items ++ seen_at_point ⟦<EF as FoldingFields<F>>⟧.folding row.now
        (point_view point.now)) }
{
    let claimed = point.1;
    for c in 0..row.len().min(claimed.len()) {
        seen.push((EF::from_base(row[c]), claimed[c], point.0))?;
    }
    Ok(())
}

/// Puts the claims of a matrix behind the others, with the row's values.
fn push_matrix<F: TwoAdicField + PrimeField64, EF: ExtensionField<F>>(
    seen: &mut Vec<(EF, EF, EF)>,
    row: &[F],
    points: &[(EF, &[EF])],
) -> Result<(), AllocError>
    ensures { OnOk result (seen.new.items ≡ seen.old.items
        ++ seen_at_points ⟦<EF as FoldingFields<F>>⟧.folding row.now (map point_view points.now)) }
{
    for point in points {
        push_point::<F, EF>(&mut *seen, row, point)?;
    }
    Ok(())
}

/// Puts the claims of a round behind the others, with the rows' values.
fn push_round<EF, D>(
    seen: &mut Vec<(EF, EF, EF)>,
    rows: &[Vec<D::Val>],
    matrices: &[MatrixClaim<'_, EF, D>],
) -> Result<(), AllocError>
where
    D: PolynomialSpace<Val: PrimeField64>,
    EF: ExtensionField<D::Val>,
    ensures { OnOk result (seen.new.items
        ≡ seen.old.items ++ seen_in ⟦<EF as FoldingFields<D::Val>>⟧.folding D.coset_of matrices.now
        rows.now) }
{
    for m in 0..matrices.len().min(rows.len()) {
        let matrix = &matrices[m];
        push_matrix::<D::Val, EF>(&mut *seen, &rows[m], &matrix.1)?;
    }
    Ok(())
}

/// All claims with the values of the opened rows, in the order of the claims.
fn seen_of<EF, D>(
    alloc: Global,
    claims: &[OpeningClaim<'_, EF, Root, D>],
    inputs: &[InputOpening<D::Val>],
) -> Result<Vec<(EF, EF, EF)>, AllocError>
where
    D: PolynomialSpace<Val: PrimeField64>,
    EF: ExtensionField<D::Val>,
    ensures { IfOk result (λ seen. seen.items
        ≡ seen_of ⟦<EF as FoldingFields<D::Val>>⟧.folding (rounds_in D.coset_of claims.now)
        inputs.now) }
{
    let mut seen = Vec::new(alloc);
    for r in 0..claims.len().min(inputs.len()) {
        let claim = &claims[r];
        push_round::<EF, D>(&mut seen, inputs[r].rows(), &claim.1)?;
    }
    Ok(seen)
}

/// The value at a place of `2^bits` extended rows of the polynomial that the claims are batched
/// into, by the opened rows. No claimed point lies on the coset of the extended rows.
pub(crate) fn batched_value<EF, D>(
    alloc: Global,
    claims: &[OpeningClaim<'_, EF, Root, D>],
    inputs: &[InputOpening<D::Val>],
    alpha: EF,
    bits: usize,
    place: usize,
) -> Result<EF, AllocError>
where
    D: PolynomialSpace<Val: PrimeField64>,
    EF: ExtensionField<D::Val>,
    requires within { bits ≤ D.Val.TWO_ADICITY }
    requires off { AreOff ⟦<EF as FoldingFields<D::Val>>⟧.folding bits (rounds_in D.coset_of
        claims.now) }
    ensures { IfOk result (λ value. value ≡ batched_at ⟦<EF as FoldingFields<D::Val>>⟧.folding
        alpha bits (rounds_in D.coset_of claims.now) place inputs.now) }
{
    let seen = seen_of::<EF, D>(alloc, claims, inputs)?;
    let point = point_at::<D::Val>(<D::Val as Field>::GENERATOR, bits, place);
    Ok(reduce_claims(alpha, EF::from_base(point), &seen))
}
