//! What a proof claims of its commitments, for the scheme to verify.
ghost use Rattle.std.specs.Option.{option_copied};
ghost use Rattle.std.specs.Prelude.{◌≡◌, IfOk, [], ◌∷◌, map};
ghost use Rattle.stark_support.specs.Claims.{claim_view, point_view};
ghost use Rattle.stark_proof.specs.ProofView.{openings_view, preprocessed_view, proof_view};
ghost use Rattle.stark_protocol.specs.OpenedClaims.{chunks_round, one_matrix, preprocessed_place, random_rounds, row_points};
ghost use Rattle.stark_verifier.specs.Rounds.{AreClaims, opened_rounds, preprocessed_round, proof_rounds};
ghost use Rattle.stark_verifier.specs.Shape.{row_view};

use stark_parts::StarkOpeningLayout;
use stark_proof::{Commitments, OpenedValues, PreprocessedOpenedValues, Proof};
use stark_protocol::PreprocessedVerifierKey;
use stark_support::{OpeningClaim, PolynomialSpace};
use std::alloc::{AllocError, Global};

/// A row at one point.
fn at_point<'p, EF: Copy>(
    alloc: Global,
    point: EF,
    row: &'p [EF],
) -> Result<Vec<(EF, &'p [EF])>, AllocError>
    ensures { IfOk result (λ points. map point_view points.items ≡ (point, row.now) ∷ []) }
{
    let mut points = Vec::new(alloc);
    points.push((point, row))?;
    Ok(points)
}

/// The current row, and the next one at the next point where it is opened.
fn row_points<'p, EF: Copy>(
    alloc: Global,
    zeta: EF,
    next_zeta: EF,
    local: &'p [EF],
    next: &'p Option<Vec<EF>>,
) -> Result<Vec<(EF, &'p [EF])>, AllocError>
    ensures { IfOk result (λ points. map point_view points.items
        ≡ row_points zeta next_zeta local.now (row_view next.now)) }
{
    // An opened next row is claimed at the next point, whether or not a constraint reads it: no
    // opened value is without a claim.
    let mut points = Vec::new(alloc);
    points.push((zeta, local))?;
    match next {
        Some(row) => {
            points.push((next_zeta, row.as_slice()))?;
            Ok(points)
        }
        None => Ok(points),
    }
}

/// A round of one matrix.
fn one_matrix<'p, EF: Copy, K, D: PolynomialSpace>(
    alloc: Global,
    commitment: &'p K,
    domain: D,
    points: Vec<(EF, &'p [EF])>,
) -> Result<OpeningClaim<'p, EF, K, D>, AllocError>
    ensures { IfOk result (λ claim. claim_view D.coset_of claim
        ≡ one_matrix commitment.now (D.coset_of domain) (map point_view points.entry.items)) }
{
    let mut matrices = Vec::new(alloc);
    matrices.push((domain, points))?;
    Ok((commitment, matrices))
}

/// The round of the quotient's chunks, a matrix each.
fn quotient_round<'p, EF: Copy, K, D: PolynomialSpace>(
    alloc: Global,
    commitment: &'p K,
    domain: D,
    zeta: EF,
    chunks: &'p [Vec<EF>],
) -> Result<OpeningClaim<'p, EF, K, D>, AllocError>
    ensures { IfOk result (λ claim. claim_view D.coset_of claim
        ≡ chunks_round commitment.now (D.coset_of domain) zeta
        (map (λ chunk. chunk.items) chunks.now)) }
{
    // A chunk is committed on the natural domain of as many points as the committed trace's has,
    // which is that one.
    let mut matrices = Vec::new(alloc);
    for chunk in chunks {
        matrices.push((domain, at_point(alloc, zeta, chunk.as_slice())?))?;
    }
    Ok((commitment, matrices))
}

/// The round of the random commitment, if it is there.
fn random_rounds<'p, EF: Copy, K, D: PolynomialSpace>(
    alloc: Global,
    domain: D,
    zeta: EF,
    commitment: &'p Option<K>,
    row: &'p Option<Vec<EF>>,
) -> Result<Vec<OpeningClaim<'p, EF, K, D>>, AllocError>
    ensures { IfOk result (AreClaims D.coset_of
        (random_rounds (D.coset_of domain) zeta commitment.now (row_view row.now))) }
{
    let mut claims = Vec::new(alloc);
    match (commitment, row) {
        (Some(commitment), Some(row)) => {
            let points = at_point(alloc, zeta, row.as_slice())?;
            claims.push(one_matrix(alloc, commitment, domain, points)?)?;
            Ok(claims)
        }
        _ => Ok(claims),
    }
}

/// The round of the preprocessed columns, if there are any.
fn preprocessed_round<'p, EF: Copy, K, D: PolynomialSpace>(
    alloc: Global,
    domain: D,
    zeta: EF,
    next_zeta: EF,
    key: &'p PreprocessedVerifierKey<K>,
    rows: &'p PreprocessedOpenedValues<EF>,
) -> Result<OpeningClaim<'p, EF, K, D>, AllocError>
    ensures { IfOk result (λ claim. claim_view D.coset_of claim
        ≡ preprocessed_round (D.coset_of domain) zeta next_zeta key.now
        (preprocessed_view rows.now)) }
{
    let points = row_points(alloc, zeta, next_zeta, rows.local.as_slice(), &rows.next)?;
    let claim = one_matrix(alloc, &key.commitment, domain, points)?;
    Ok(claim)
}

/// The rounds of random commitment, trace and quotient, in this order.
fn opened_rounds<'p, EF: Copy, K, D: PolynomialSpace>(
    alloc: Global,
    domain: D,
    zeta: EF,
    next_zeta: EF,
    commitments: &'p Commitments<K>,
    opened: &'p OpenedValues<EF>,
) -> Result<Vec<OpeningClaim<'p, EF, K, D>>, AllocError>
    ensures { IfOk result (AreClaims D.coset_of (opened_rounds (D.coset_of domain) zeta next_zeta
        commitments.now (openings_view opened.now))) }
{
    let mut claims = random_rounds(alloc, domain, zeta, &commitments.random, &opened.random)?;
    let local = opened.trace_local.as_slice();
    let points = row_points(alloc, zeta, next_zeta, local, &opened.trace_next)?;
    let trace = one_matrix(alloc, &commitments.trace, domain, points)?;
    claims.push(trace)?;
    let chunks = opened.quotient_chunks.as_slice();
    let quotient = quotient_round(alloc, &commitments.quotient_chunks, domain, zeta, chunks)?;
    claims.push(quotient)?;
    Ok(claims)
}

/// All claims of a proof, on the committed trace's domain: random commitment, trace, quotient,
/// preprocessed columns.
pub fn claims_of<'p, EF: Copy, K, D: PolynomialSpace, P>(
    alloc: Global,
    domain: D,
    zeta: EF,
    next_zeta: EF,
    key: Option<&'p PreprocessedVerifierKey<K>>,
    proof: &'p Proof<K, EF, P, D::Val>,
) -> Result<Vec<OpeningClaim<'p, EF, K, D>>, AllocError>
    ensures { IfOk result (AreClaims D.coset_of (proof_rounds (D.coset_of domain) zeta next_zeta
        (option_copied key.entry) (proof_view proof.now))) }
{
    // The order is the prover's: a scheme may combine the claims in it. The preprocessed round is
    // the last, at the place that the scheme is told.
    let (commitments, opened) = (&proof.commitments, &proof.opened_values);
    let mut claims = opened_rounds(alloc, domain, zeta, next_zeta, commitments, opened)?;
    match key {
        Some(key) => match &opened.preprocessed {
            Some(rows) => {
                let preprocessed = preprocessed_round(alloc, domain, zeta, next_zeta, key, rows)?;
                claims.push(preprocessed)?;
                Ok(claims)
            }
            None => Ok(claims),
        },
        None => Ok(claims),
    }
}

/// The place of the preprocessed round, where a key is given.
pub fn preprocessed_place<K>(is_zk: bool, key: Option<&PreprocessedVerifierKey<K>>) -> Option<usize>
    ensures { result ≡ preprocessed_place is_zk (option_copied key.entry) }
{
    match key {
        Some(_) => Some(StarkOpeningLayout::new(is_zk).preprocessed),
        None => None,
    }
}
