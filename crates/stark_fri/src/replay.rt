//! The transcript of a proof, replayed.
ghost use Rattle.std.specs.Prelude.{◌≡◌, ◌<◌, Err, IfOk, Ok};
ghost use Rattle.stark_fri.specs.Found.{Replays};
ghost use Rattle.stark_fri.specs.Scheme.{asked_of};
ghost use Rattle.stark_fri.specs.Transcript.{index_of, places_from};

use crate::error::FriError;
use crate::phases::{play_phases, witness_passes};
use crate::sponge::{FriChallenger, FriSponge};
use crate::transcript::{observe_claims, observe_parameters, observe_values};
use stark_fri_proof::{FriParameters, FriProof};
use stark_merkle::Root;
use stark_support::{
    CanSample, CanSampleBits, ExtensionField, OpeningClaim, PolynomialSpace, PrimeField64,
};
use std::alloc::{AllocError, Global};

/// What a proof draws: the challenge that batches the claims, one for each fold, and the places of
/// the queries.
#[derive(Drop)]
pub(crate) struct Drawn<EF> {
    pub(crate) alpha: EF,
    pub(crate) betas: Vec<EF>,
    pub(crate) places: Vec<usize>,
}

/// A replayed proof: the claims that it is of, what it draws, and the logarithm of the number of
/// extended rows.
#[derive(Drop)]
pub(crate) struct ReplayedProof<'a, F, EF, D> {
    pub(crate) claims: &'a [OpeningClaim<'a, EF, Root, D>],
    pub(crate) proof: &'a FriProof<F, EF>,
    pub(crate) drawn: &'a Drawn<EF>,
    pub(crate) bits: usize,
}

/// The next number below `2^bits`.
fn draw_index<C, F, EF>(challenger: &mut C, bits: usize) -> usize
where
    F: PrimeField64,
    EF: ExtensionField<F>,
    C: FriChallenger<F, EF>,
    requires { bits < 64 }
    ensures answer { result ≡
        index_of ⟦<C as FriSponge<F, EF>>⟧.sponge_calls bits challenger.old }
    ensures state { challenger.new ≡
        ⟦<C as FriSponge<F, EF>>⟧.sponge_calls.after_bits challenger.old bits }
{
    challenger.sample_bits(bits) % (1 << bits)
}

/// The places of so many queries, in `2^bits` extended rows.
pub fn draw_places<C, F, EF>(
    alloc: Global,
    challenger: &mut C,
    bits: usize,
    count: usize,
) -> Result<Vec<usize>, AllocError>
where
    F: PrimeField64,
    EF: ExtensionField<F>,
    C: FriChallenger<F, EF>,
    requires { bits < 64 }
    ensures { IfOk result (λ places. places.items ≡
        places_from ⟦<C as FriSponge<F, EF>>⟧.sponge_calls bits count challenger.old) }
{
    let mut places = Vec::new(alloc);
    for _query in 0..count {
        let place = draw_index::<C, F, EF>(&mut *challenger, bits);
        places.push(place)?;
    }
    Ok(places)
}

/// Plays a proof on the challenger, and checks its witnesses: what was drawn, with places in
/// `2^bits` extended rows, or the first witness that doesn't pass, as `CommitWork` or `QueryWork`.
pub(crate) fn replay_proof<C, EF, D>(
    alloc: Global,
    parameters: &FriParameters,
    claims: &[OpeningClaim<'_, EF, Root, D>],
    proof: &FriProof<D::Val, EF>,
    bits: usize,
    challenger: &mut C,
) -> Result<Result<Drawn<EF>, FriError>, AllocError>
where
    D: PolynomialSpace<Val: PrimeField64>,
    EF: ExtensionField<D::Val>,
    C: FriChallenger<D::Val, EF>,
    requires { bits < 64 }
    ensures { IfOk result (Replays ⟦<C as FriSponge<D::Val, EF>>⟧.sponge_calls
        (asked_of D.coset_of parameters.now claims.now proof.now challenger.old) bits) }
{
    observe_parameters::<C, D::Val, EF>(&mut *challenger, parameters);
    observe_claims::<C, EF, D>(&mut *challenger, claims);
    // Bound before alpha: the parameters, and all that is read of the claims.
    let alpha = <C as CanSample<EF>>::sample(&mut *challenger);
    let commit_bits = parameters.commit_proof_of_work_bits();
    let played = play_phases::<C, D::Val, EF>(
        alloc,
        commit_bits,
        proof.phases(),
        &mut *challenger,
    )?;
    let betas = match played {
        Ok(betas) => betas,
        Err(phase) => return Ok(Err(FriError::CommitWork { phase })),
    };
    observe_values::<C, D::Val, EF>(&mut *challenger, proof.final_polynomial());
    // The work comes behind all that the proof commits to, and before any place is drawn: other
    // places cost the work again.
    let query_bits = parameters.query_proof_of_work_bits();
    let witness = *proof.query_witness();
    if !witness_passes::<C, D::Val, EF>(&mut *challenger, query_bits, witness) {
        return Ok(Err(FriError::QueryWork));
    }
    let count = parameters.num_queries();
    let places = draw_places::<C, D::Val, EF>(alloc, challenger, bits, count)?;
    Ok(Ok(Drawn {
        alpha,
        betas,
        places,
    }))
}
