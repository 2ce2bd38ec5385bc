//! Openings: the columns' values at points, and a proof of them.
ghost use Rattle.std.specs.Prelude.{◌≡◌, ◌↔◌, IfOk, IsTrue, length, map};
ghost use Rattle.std.specs.List.{AllByRecursion};
ghost use Rattle.stark_support.specs.Claims.{IfRefusal, opened_view, round_view};
ghost use Rattle.stark_columns.specs.Columns.{columns_list};
ghost use Rattle.stark_merkle.specs.Tree.{digests_in};
ghost use Rattle.stark_fri_prover.specs.Calls.{FitRounds, IsProofOf, LacksWork, RefusesOpening};
ghost use Rattle.stark_columns.specs.Made.{IfMade};
ghost use Rattle.stark_fri_prover.specs.Layers.{OpensEach, OpensRows, OpensWay};
ghost use Rattle.stark_fri_prover.specs.OwnClaims.{opened_rounds};
ghost use Rattle.stark_fri_prover.specs.Work.{IfNoneMade};

use crate::batch::batched;
use crate::calls::Proving;
use crate::claims::{open_rounds, own_claims};
use crate::commit::FriData;
use crate::layers::{Layer, open_layers};
use crate::phases::{find_witness, fold_all};
use stark_bench::Coset;
use stark_fri::{
    FriProverError, check_claims, draw_places, observe_claims, observe_parameters, observe_values,
};
use stark_fri_proof::{FriParameters, FriProof, QueryProof};
use stark_merkle::{Root, TreeHash};
use stark_support::{
    CanObserve, CanSample, ExtensionField, FieldChallenger, GrindingChallenger, OpenedRounds,
    OpeningClaim, OpeningRound, PolynomialSpace, PrimeField64, SchemeFault, TwoAdicField,
};
use std::alloc::{AllocError, Global};

/// Whether there is a list of points for each matrix.
fn has_points<F: TwoAdicField, EF>(kept: &FriData<F>, points: &[Vec<EF>]) -> bool
    ensures { IsTrue result ↔ length points.now ≡ length kept.now.matrices.items }
{
    points.len() == kept.matrices().len()
}

/// Whether each round has a list of points for each of its matrices.
fn have_points<F: TwoAdicField, EF>(rounds: &[OpeningRound<'_, EF, FriData<F>>]) -> bool
    ensures { IsTrue result ↔ AllByRecursion
        (λ r. length r.1 ≡ length r.0.matrices.items) (map round_view rounds.now) }
{
    for round in rounds {
        if !has_points(round.0, &round.1) {
            return false;
        }
    }
    true
}

/// What is opened at a place: a row of each matrix of each round, and of each layer the value that
/// is paired with the one on the way.
fn open_query<F: TwoAdicField, EF: ExtensionField<F>>(
    alloc: Global,
    rounds: &[OpeningRound<'_, EF, FriData<F>>],
    layers: &[Layer<EF>],
    place: usize,
) -> Result<QueryProof<F, EF>, AllocError>
    ensures rows { IfOk result (λ query. OpensRows (λ d. d.extended.items)
        (λ d. digests_in d.layers.items) place rounds.now query.inputs) }
    ensures way { IfOk result (λ query. OpensWay layers.now place query.layers) }
{
    let mut inputs = Vec::new(alloc);
    for round in rounds {
        let input = round.0.open_at(alloc, place)?;
        inputs.push(input)?;
    }
    let layers = open_layers(alloc, layers, place)?;
    Ok(QueryProof::new(inputs, layers))
}

/// What is opened at each of the places.
fn open_queries<F: TwoAdicField, EF: ExtensionField<F>>(
    alloc: Global,
    rounds: &[OpeningRound<'_, EF, FriData<F>>],
    layers: &[Layer<EF>],
    places: &[usize],
) -> Result<Vec<QueryProof<F, EF>>, AllocError>
    ensures { IfOk result (λ queries. OpensEach (λ d. d.extended.items)
        (λ d. digests_in d.layers.items) rounds.now layers.now places.now queries.items) }
{
    let mut queries = Vec::with_capacity(alloc, places.len())?;
    for place in places {
        let query = open_query(alloc, rounds, layers, *place)?;
        queries.push(query)?;
    }
    Ok(queries)
}

/// The proof of claims that fit, of columns of `2^log_height` coefficients, from the challenger's
/// state. None where no witness passes.
fn proof_of<C, F, EF, H>(
    alloc: Global,
    parameters: &FriParameters,
    rounds: &[OpeningRound<'_, EF, FriData<F>>],
    claims: &[OpeningClaim<'_, EF, Root, Coset<F>>],
    log_height: usize,
    challenger: &mut C,
) -> Result<Option<FriProof<F, EF>>, AllocError>
where
    F: TwoAdicField + PrimeField64,
    EF: ExtensionField<F>,
    H: TreeHash,
    C: FieldChallenger<F> + CanObserve<Root> + CanSample<EF> + GrindingChallenger<Witness = F>,
    requires { FitRounds ⟦<FriData<F> as Proving<F, EF, C, H, Coset<F>>>⟧.calls parameters.now
        rounds.now claims.now log_height }
    ensures made { IfMade result (IsProofOf ⟦<FriData<F> as Proving<F, EF, C, H, Coset<F>>>⟧.calls
        parameters.now rounds.now challenger.old) }
    ensures none { IfNoneMade result (LacksWork
        ⟦<FriData<F> as Proving<F, EF, C, H, Coset<F>>>⟧.calls parameters.now rounds.now
        challenger.old) }
{
    let bits = log_height + parameters.log_blowup();
    observe_parameters::<C, F, EF>(&mut *challenger, parameters);
    observe_claims::<C, EF, Coset<F>>(&mut *challenger, claims);
    // Bound before alpha: the parameters, and all that the verifier reads of the claims.
    let alpha = <C as CanSample<EF>>::sample(&mut *challenger);
    let batch = batched(alloc, rounds, alpha, 1 << log_height)?;
    let folds = fold_all::<C, F, EF, H>(
        alloc,
        parameters.commit_proof_of_work_bits(),
        log_height - log_height.min(parameters.log_final_poly_len()),
        batch,
        Coset::new(F::GENERATOR, bits),
        &mut *challenger,
    )?;
    let Some(folds) = folds else {
        return Ok(None);
    };
    observe_values::<C, F, EF>(&mut *challenger, &folds.last);
    // The work comes after all that the proof commits to: other places cost it again.
    let query_bits = parameters.query_proof_of_work_bits();
    let Some(query_witness) = find_witness::<C, F>(&mut *challenger, query_bits) else {
        return Ok(None);
    };
    let places = draw_places::<C, F, EF>(alloc, challenger, bits, parameters.num_queries())?;
    let queries = open_queries(alloc, rounds, &folds.layers, &places)?;
    Ok(Some(FriProof::new(folds.phases, folds.last, query_witness, queries)))
}

/// Whether each round was made for columns of `2^log_height` coefficients.
fn have_height<F: TwoAdicField, EF>(
    rounds: &[OpeningRound<'_, EF, FriData<F>>],
    log_height: usize,
) -> bool
    ensures { IsTrue result ↔ AllByRecursion (λ r. r.0.domain.log_size ≡ log_height)
        (map round_view rounds.now) }
{
    for round in rounds {
        let domain = round.0.domain();
        if domain.log_size != log_height {
            return false;
        }
    }
    true
}

/// The values of the rounds' columns at the points, and a proof of them, which the verifier accepts
/// from the challenger's state. Otherwise it is `Refused` with `Points` where a round has another
/// number of lists of points than matrices, with `Claims` and the verifier's fault where the claims
/// don't fit, as where a point lies on the larger coset, with `Heights` where a round was made for
/// columns of another length, and with `NoWork` where a fold or the queries ask for work that no
/// element passes.
pub(crate) fn open<C, F, EF, H>(
    alloc: Global,
    parameters: &FriParameters,
    rounds: &[OpeningRound<'_, EF, FriData<F>>],
    challenger: &mut C,
) -> Result<(OpenedRounds<EF>, FriProof<F, EF>), SchemeFault<FriProverError>>
where
    F: TwoAdicField + PrimeField64,
    EF: ExtensionField<F>,
    H: TreeHash,
    C: FieldChallenger<F> + CanObserve<Root> + CanSample<EF> + GrindingChallenger<Witness = F>,
    ensures values { IfOk result (λ m. opened_view m.0
        ≡ opened_rounds EF.ring EF.embed (λ d. map columns_list d.matrices.items)
        (map round_view rounds.now)) }
    ensures made { IfOk result (λ made. IsProofOf
        ⟦<FriData<F> as Proving<F, EF, C, H, Coset<F>>>⟧.calls parameters.now rounds.now
        challenger.old made.1) }
    ensures refused { IfRefusal result (RefusesOpening
        ⟦<FriData<F> as Proving<F, EF, C, H, Coset<F>>>⟧.calls parameters.now rounds.now
        challenger.old) }
{
    if !have_points(rounds) {
        return Err(SchemeFault::Refused(FriProverError::Points));
    }
    let opened = open_rounds::<F, EF>(alloc, rounds)?;
    let claims = own_claims(alloc, rounds, &opened)?;
    let log_height = match check_claims::<EF, Coset<F>>(parameters, &claims) {
        Ok(log_height) => log_height,
        Err(error) => return Err(SchemeFault::Refused(FriProverError::Claims(error))),
    };
    // Of a round without a matrix nothing is claimed, but its tree has a depth.
    if !have_height(rounds, log_height) {
        return Err(SchemeFault::Refused(FriProverError::Heights));
    }
    let made = proof_of::<C, F, EF, H>(alloc, parameters, rounds, &claims, log_height, challenger);
    drop(claims);
    match made? {
        Some(proof) => Ok((opened, proof)),
        None => Err(SchemeFault::Refused(FriProverError::NoWork)),
    }
}
