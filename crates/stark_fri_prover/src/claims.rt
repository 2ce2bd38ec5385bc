//! What the prover itself claims: the values of its columns.
ghost use Rattle.std.specs.Prelude.{◌≡◌, IfOk, map};
ghost use Rattle.stark_support.specs.Claims.{opened_view, point_view, round_view};
ghost use Rattle.stark_columns.specs.Columns.{column_list, columns_list};
ghost use Rattle.stark_fri_prover.specs.OwnClaims.{matrix_claims, opened_rounds, point_claims, AreMatrixClaims, AreOwnClaims};

use crate::commit::FriData;
use stark_bench::Coset;
use stark_columns::matrices_at;
use stark_merkle::Root;
use stark_support::{
    ExtensionField, MatrixClaim, OpenedRounds, OpeningClaim, OpeningRound, PolynomialSpace,
    TwoAdicField,
};
use std::alloc::{AllocError, Global};

/// For each round the values of its matrices' columns at the points.
pub(crate) fn open_rounds<F: TwoAdicField, EF: ExtensionField<F>>(
    alloc: Global,
    rounds: &[OpeningRound<'_, EF, FriData<F>>],
) -> Result<OpenedRounds<EF>, AllocError>
    ensures { IfOk result (λ opened. opened_view opened ≡ opened_rounds EF.ring EF.embed
        (λ d. map columns_list d.matrices.items) (map round_view rounds.now)) }
{
    let mut opened = Vec::new(alloc);
    for round in rounds {
        let matrices = matrices_at::<F, EF>(alloc, round.0.matrices(), &round.1)?;
        opened.push(matrices)?;
    }
    Ok(opened)
}

/// Each point with its values.
fn point_claims<'a, EF: Copy>(
    alloc: Global,
    points: &[EF],
    rows: &'a [Vec<EF>],
) -> Result<Vec<(EF, &'a [EF])>, AllocError>
    ensures { IfOk result (λ claims. map point_view claims.items
        ≡ point_claims points.now (map column_list rows.now)) }
{
    let mut claims: Vec<(EF, &'a [EF])> = Vec::new(alloc);
    for i in 0..points.len().min(rows.len()) {
        claims.push((points[i], &rows[i]))?;
    }
    Ok(claims)
}

/// Each matrix with its points, on one domain.
fn matrix_claims<'a, F: TwoAdicField, EF: Copy>(
    alloc: Global,
    domain: Coset<F>,
    points: &[Vec<EF>],
    opened: &'a [Vec<Vec<EF>>],
) -> Result<Vec<MatrixClaim<'a, EF, Coset<F>>>, AllocError>
    ensures { IfOk result (λ c. AreMatrixClaims ⟦<Coset<F> as PolynomialSpace>⟧.coset_of
        domain.log_size points.now opened.now c.items) }
{
    let mut claims = Vec::new(alloc);
    for i in 0..points.len().min(opened.len()) {
        let matrix = point_claims(alloc, &points[i], &opened[i])?;
        claims.push((domain, matrix))?;
    }
    Ok(claims)
}

/// The claims that rounds have the values that were opened of them.
pub(crate) fn own_claims<'a, F: TwoAdicField, EF: Copy>(
    alloc: Global,
    rounds: &'a [OpeningRound<'_, EF, FriData<F>>],
    opened: &'a [Vec<Vec<Vec<EF>>>],
) -> Result<Vec<OpeningClaim<'a, EF, Root, Coset<F>>>, AllocError>
    ensures { IfOk result (λ c. AreOwnClaims ⟦<Coset<F> as PolynomialSpace>⟧.coset_of (λ d. d.root)
        (λ d. d.domain.log_size) rounds.now opened.now c.items) }
{
    let mut claims = Vec::new(alloc);
    for i in 0..rounds.len().min(opened.len()) {
        let round = &rounds[i];
        let data = round.0;
        let matrices = matrix_claims(alloc, data.domain(), &round.1, &opened[i])?;
        claims.push((data.root(), matrices))?;
    }
    Ok(claims)
}
