//! Claims on parts.
ghost use Rattle.std.specs.Prelude.{◌≡◌, ◌≤◌, ◌++◌, IfOk, map};
ghost use Rattle.stark_support.specs.Claims.{claim_view, claims_view, matrix_view, point_view};
ghost use Rattle.stark_two_part.specs.InParts.{moved_index, part_of_matrix, parted_claims, parts_of_claim, rounds_in, side_of, some_values};

use crate::in_parts::{InParts, Side};
use stark_support::{MatrixClaim, OpeningClaim, PolynomialSpace};
use std::alloc::{AllocError, Global};

/// The values on a side, of which the first has `count`.
fn on_side<'a, T>(values: &'a [T], count: usize, side: Side) -> &'a [T]
    ensures { result.now ≡ side_of count side values.now }
{
    let end = count.min(values.len());
    match side {
        Side::All => values,
        Side::First => &values[..end],
        Side::Others => &values[end..],
    }
}

/// Each point with its values on a side.
fn points_on<'a, EF: Copy>(
    alloc: Global,
    points: &[(EF, &'a [EF])],
    count: usize,
    side: Side,
) -> Result<Vec<(EF, &'a [EF])>, AllocError>
    ensures { IfOk result (λ on. map point_view on.items
        ≡ map (some_values (side_of count side)) (map point_view points.now)) }
{
    let mut on: Vec<(EF, &'a [EF])> = Vec::new(alloc);
    for point in points {
        on.push((point.0, on_side(point.1, count, side)))?;
    }
    Ok(on)
}

/// Each matrix with its values on a side.
fn matrices_on<'a, EF: Copy, D: PolynomialSpace>(
    alloc: Global,
    matrices: &[MatrixClaim<'a, EF, D>],
    count: usize,
    side: Side,
) -> Result<Vec<MatrixClaim<'a, EF, D>>, AllocError>
    ensures { IfOk result (λ on. map (matrix_view D.coset_of) on.items
        ≡ map (part_of_matrix (side_of count side)) (map (matrix_view D.coset_of) matrices.now)) }
{
    let mut on = Vec::new(alloc);
    for matrix in matrices {
        let points = points_on(alloc, &matrix.1, count, side)?;
        on.push((matrix.0, points))?;
    }
    Ok(on)
}

/// Puts the claims on the parts of a commitment after others.
fn push_claims<'a, EF: Copy, K, D: PolynomialSpace>(
    alloc: Global,
    first: usize,
    claim: &OpeningClaim<'a, EF, InParts<K>, D>,
    on: &mut Vec<OpeningClaim<'a, EF, K, D>>,
) -> Result<(), AllocError>
    ensures { IfOk result (λ _. claims_view D.coset_of on.new ≡ claims_view D.coset_of on.old
        ++ parts_of_claim first (claim_view D.coset_of claim.now)) }
{
    match claim.0 {
        InParts::Whole(commitment) => {
            let matrices = matrices_on(alloc, &claim.1, first, Side::All)?;
            on.push((commitment, matrices))?;
        }
        InParts::Parts(left, right) => {
            let matrices = matrices_on(alloc, &claim.1, first, Side::First)?;
            let others = matrices_on(alloc, &claim.1, first, Side::Others)?;
            on.push((left, matrices))?;
            on.push((right, others))?;
        }
    }
    Ok(())
}

/// The claims on parts that claims on what is whole or in parts are. It is Err only where memory
/// was refused.
pub(crate) fn claims_in_parts<'a, EF: Copy, K, D: PolynomialSpace>(
    alloc: Global,
    first: usize,
    claims: &[OpeningClaim<'a, EF, InParts<K>, D>],
) -> Result<Vec<OpeningClaim<'a, EF, K, D>>, AllocError>
    ensures { IfOk result (λ on. claims_view D.coset_of on
        ≡ parted_claims first (map (claim_view D.coset_of) claims.now)) }
{
    let mut on: Vec<OpeningClaim<'a, EF, K, D>> = Vec::new(alloc);
    for claim in claims {
        push_claims(alloc, first, claim, &mut on)?;
    }
    Ok(on)
}

/// How many rounds it is.
fn rounds_in<T>(round: &InParts<T>) -> usize
    ensures count { result ≡ rounds_in round.now }
    ensures few { result ≤ 2 }
{
    match round {
        InParts::Whole(_) => 1,
        InParts::Parts(_, _) => 2,
    }
}

/// Where a round begins among those on parts.
pub(crate) fn moved_index<T, X>(index: Option<usize>, rounds: &[(&InParts<T>, X)]) -> Option<usize>
    ensures { result ≡ moved_index (map (λ r. r.0.now) rounds.now) index }
{
    let Some(index) = index else {
        return None;
    };
    let mut place = 0;
    for i in 0..index.min(rounds.len()) {
        place += rounds_in(rounds[i].0);
    }
    Some(place)
}
