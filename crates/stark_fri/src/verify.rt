//! Whether claims hold by a proof.
ghost use Rattle.std.specs.Prelude.{◌≡◌, ◌≤◌, IfErr, IfOk, length};
ghost use Rattle.stark_fri.specs.Accept.{log_final};
ghost use Rattle.stark_fri.specs.Found.{AcceptsClaimed, RefusesClaimed, ShapeFits};
ghost use Rattle.stark_fri.specs.Replayed.{FindsFirstQuery, IsCheckable};
ghost use Rattle.stark_fri.specs.Soundness.{FewAreBadOfClaims, IsSoundOfClaims};

use crate::claims::check_claims;
use crate::eights::accepted_by_eights;
use crate::error::{FriError, QueryFault};
use crate::fields::FoldingFields;
use crate::query::query_fault;
use crate::replay::{ReplayedProof, replay_proof};
use crate::sponge::{FriCalls, FriChallenger};
use stark_fri_proof::{FriParameters, FriProof};
use stark_merkle::{Root, TreeHash};
use stark_support::{ExtensionField, OpeningClaim, PolynomialSpace, PrimeField64, SchemeFault};
use std::alloc::{AllocError, Global};

/// The logarithm of the final polynomial's length at a height.
fn log_final(parameters: &FriParameters, log_height: usize) -> usize
    ensures { result ≡ log_final parameters.now log_height }
{
    log_height.min(parameters.log_final_poly_len())
}

/// Whether a proof has as many folds, coefficients and queries as the parameters ask for at a
/// height; else the first that differs, as `CommitPhases`, `FinalPolynomial` or `Queries`.
fn check_shape<F, EF>(
    parameters: &FriParameters,
    log_height: usize,
    proof: &FriProof<F, EF>,
) -> Result<(), FriError>
    requires { log_height ≤ 63 }
    ensures { ShapeFits parameters.now log_height proof.now result }
{
    let log_length = log_final(parameters, log_height);
    if proof.phases().len() != log_height - log_length {
        return Err(FriError::CommitPhases);
    }
    if proof.final_polynomial().len() != 1 << log_length {
        return Err(FriError::FinalPolynomial);
    }
    if proof.queries().len() != parameters.num_queries() {
        return Err(FriError::Queries);
    }
    Ok(())
}

/// The first query at fault, and its first fault. The queries are taken eight at a time as long as
/// these hold, and then one by one.
fn first_query_fault<EF, D, H>(
    alloc: Global,
    replayed: &ReplayedProof<'_, D::Val, EF, D>,
) -> Result<Option<(usize, QueryFault)>, AllocError>
where
    D: PolynomialSpace<Val: PrimeField64>,
    EF: ExtensionField<D::Val>,
    H: TreeHash,
    requires { IsCheckable ⟦<EF as FoldingFields<D::Val>>⟧.folding D.coset_of replayed.now }
    ensures { IfOk result (FindsFirstQuery ⟦<EF as FoldingFields<D::Val>>⟧.folding D.coset_of
        replayed.now H.digests) }
{
    let queries = replayed.proof.queries();
    let drawn = replayed.drawn;
    let accepted = accepted_by_eights::<EF, D, H>(alloc, replayed)?;
    for i in accepted..drawn.places.len().min(queries.len()) {
        let place = drawn.places[i];
        let query = &queries[i];
        let answer = query_fault::<EF, D, H>(alloc, replayed, place, query)?;
        if let Some(fault) = answer {
            return Ok(Some((i, fault)));
        }
    }
    Ok(None)
}

/// Whether claims hold by a proof, from the challenger's state: Ok exactly where they do. Otherwise
/// `Refused` with the first fault, in the order of `FriError`, or `OutOfMemory`. Any proof is
/// taken: each of its lengths is tested before anything is read by it, so that time and memory are
/// bounded by the lengths of the claims and the proof and by the parameters.
///
/// `sound` says what Ok shows of any words (a row of each matrix at each place, and a word for each
/// fold) that lead to the proof's roots at the drawn places, within a radius `e` where
/// `2 e + 2^height < 2^bits`. It is one of five: the columns agree with polynomials over the base
/// field of degree at most `2^height`, at all places but `e`, and all claims are true of these;
/// alpha is bad for the words; a beta is; all drawn places are among fewer than `2^bits - e` that
/// pass; or a query opens something else than the words under the same root, so that the trees'
/// hash collides. `few` says how few alphas, betas and lists of places these are.
pub fn verify_openings<C, EF, D, H>(
    alloc: Global,
    parameters: &FriParameters,
    claims: &[OpeningClaim<'_, EF, Root, D>],
    proof: &FriProof<D::Val, EF>,
    challenger: &mut C,
) -> Result<(), SchemeFault<FriError>>
where
    D: PolynomialSpace<Val: PrimeField64>,
    EF: ExtensionField<D::Val>,
    H: TreeHash,
    C: FriChallenger<D::Val, EF>,
    ensures accepted { IfOk result (λ _.
        AcceptsClaimed ⟦<C as FriCalls<D::Val, EF, H>>⟧.fri_ops D.coset_of parameters.now
        claims.now challenger.old proof.now) }
    ensures refused { IfErr result (RefusesClaimed ⟦<C as FriCalls<D::Val, EF, H>>⟧.fri_ops
        D.coset_of parameters.now claims.now challenger.old proof.now) }
    ensures sound { IfOk result (λ _. IsSoundOfClaims ⟦<C as FriCalls<D::Val, EF, H>>⟧.fri_ops
        D.coset_of parameters.now claims.now challenger.old proof.now) }
    ensures few { IfOk result (λ _. FewAreBadOfClaims ⟦<C as FriCalls<D::Val, EF, H>>⟧.fri_ops
        D.coset_of parameters.now claims.now challenger.old proof.now) }
{
    let log_height = match check_claims::<EF, D>(parameters, claims) {
        Ok(log_height) => log_height,
        Err(error) => return Err(SchemeFault::Refused(error)),
    };
    if let Err(error) = check_shape(parameters, log_height, proof) {
        return Err(SchemeFault::Refused(error));
    }
    // No more than the field's adicity, as the claims' check says.
    let bits = log_height + parameters.log_blowup();
    let drawn = match replay_proof::<C, EF, D>(
        alloc, parameters, claims, proof, bits, challenger,
    )? {
        Ok(drawn) => drawn,
        Err(error) => return Err(SchemeFault::Refused(error)),
    };
    let replayed = ReplayedProof {
        claims,
        proof,
        drawn: &drawn,
        bits,
    };
    match first_query_fault::<EF, D, H>(alloc, &replayed)? {
        Some((query, fault)) => Err(SchemeFault::Refused(FriError::Query { query, fault })),
        None => Ok(()),
    }
}
