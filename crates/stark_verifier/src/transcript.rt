//! The replay of a proof's transcript: the challenges, the tests at the sampled point, the opening
//! argument.
ghost use Rattle.std.specs.Option.{option_copied};
ghost use Rattle.std.specs.Prelude.{◌≡◌, IfOk, option_map};
ghost use Rattle.stark_transcript.specs.declared.shape.TranscriptPhase.TheVariants.{Delegated, Drawn};
ghost use Rattle.stark_verifier.specs.MemoryAside.{IfErrMemoryAside};

use crate::contracts::StarkChecks;
use crate::instance::InstanceOf;
use crate::openings::check_openings;
use crate::point::check_point;
use crate::preprocessed::width_in_force;
use crate::shape::ProofDomains;
use stark_air::{Air, BaseAir};
use stark_parts::{Com, Domain, PcsError, StarkGenericConfig, Val};
use stark_protocol::{PreprocessedVerifierKey, transcript_shape};
use stark_support::GrindingChallenger;
use stark_transcript::{
    StarkShape, StarkTranscriptFailure, StarkVerifierTranscript, VerificationError,
};
use std::alloc::{AllocError, Global};

/// What a replay gives.
#[derive(Drop)]
pub struct SampledPoint<EF> {
    /// The challenge that folds the constraints.
    pub alpha: EF,
    /// The point out of the domain.
    pub zeta: EF,
    /// The periodic columns' values there.
    pub periodic_values: Vec<EF>,
}

/// A key's commitment.
fn commitment_of<K>(key: Option<&PreprocessedVerifierKey<K>>) -> Option<&K>
    ensures { option_map (λ k. k.now) result
        ≡ option_map (λ k. k.commitment) (option_copied key.entry) }
{
    match key {
        Some(key) => Some(&key.commitment),
        None => None,
    }
}

/// The shape of a proof's transcript.
fn describe_transcript<SC: StarkGenericConfig, A: Air<Val<SC>>>(
    alloc: Global,
    on: &InstanceOf<'_, SC, A>,
    domains: ProofDomains<Domain<SC>>,
) -> Result<StarkShape, AllocError>
where
    SC::Challenger: GrindingChallenger<Witness = Val<SC>>,
    requires shaped { ⟦<SC as StarkChecks<A>>⟧.is_shaped on.now domains }
    ensures { IfOk result (λ shape. shape ≡ ⟦<SC as StarkChecks<A>>⟧.described on.now) }
{
    let width = width_in_force(on.key, on.air.preprocessed_width());
    let degree_bits = on.proof.degree_bits;
    transcript_shape(
        alloc,
        on.config,
        on.air,
        width,
        degree_bits,
        domains.log_chunks,
    )
}

/// Alpha and zeta, drawn from the transcript of all that the prover sent before them.
fn draw_challenges<SC: StarkGenericConfig, A: Air<Val<SC>>>(
    on: &InstanceOf<'_, SC, A>,
    transcript: &mut StarkVerifierTranscript<'_, SC::Challenger, Val<SC>, SC::Challenge>,
) -> Result<(SC::Challenge, SC::Challenge), StarkTranscriptFailure>
where
    SC::Challenger: GrindingChallenger<Witness = Val<SC>>,
    requires opened { ⟦<SC as StarkChecks<A>>⟧.is_opened on.now transcript.old.phase
        transcript.old.shape transcript.old.challenger.now }
    ensures same_reference { transcript.new.challenger.ghost_name
        ≡ transcript.old.challenger.ghost_name }
    ensures drawn { IfOk result (λ _. transcript.new.phase ≡ Drawn) }
    ensures answer { result ≡ (⟦<SC as StarkChecks<A>>⟧.challenges on.now).answer }
    ensures state { transcript.new.challenger.now
        ≡ (⟦<SC as StarkChecks<A>>⟧.challenges on.now).state }
{
    let (proof, public_values) = (on.proof, on.public_values);
    let (commitments, key) = (&proof.commitments, commitment_of(on.key));
    // Alpha folds the n constraints into one. Before it stand the shape, the commitments to the
    // trace and to the preprocessed columns, and the public values: all that the constraints are
    // of. So of a row that breaks one the n values are fixed, and at most n - 1 alphas fold them to
    // zero. A prover that knew alpha first would break two constraints so that the sum is zero. The
    // work, where some is asked for, stands right before the draw: each further try costs it.
    let alpha = transcript.constraint_phase::<Com<SC>>(
        &commitments.trace,
        key,
        public_values,
        proof.alpha_pow_witness,
    )?;
    // Zeta is where the equation is tested. Before it also stand alpha and the commitments to the
    // quotient's chunks and to the random polynomial, so that both sides are polynomials that are
    // fixed. If they differ, they agree at most at D points, where D bounds their degrees. A prover
    // that knew zeta first would choose the chunks' values there.
    let random = commitments.random.as_ref();
    let chunks = &commitments.quotient_chunks;
    let zeta = transcript.ood_phase::<Com<SC>>(chunks, random, proof.ood_pow_witness)?;
    Ok((alpha, zeta))
}

/// The challenges, the tests at zeta and the opening argument, over a transcript at its beginning.
fn replay<SC: StarkGenericConfig, A: Air<Val<SC>>>(
    alloc: Global,
    on: &InstanceOf<'_, SC, A>,
    domains: ProofDomains<Domain<SC>>,
    transcript: &mut StarkVerifierTranscript<'_, SC::Challenger, Val<SC>, SC::Challenge>,
) -> Result<SampledPoint<SC::Challenge>, VerificationError<PcsError<SC>>>
where
    SC::Challenger: GrindingChallenger<Witness = Val<SC>>,
    requires shaped { ⟦<SC as StarkChecks<A>>⟧.is_shaped on.now domains }
    requires opened { ⟦<SC as StarkChecks<A>>⟧.is_opened on.now transcript.old.phase
        transcript.old.shape transcript.old.challenger.now }
    ensures same_reference { transcript.new.challenger.ghost_name
        ≡ transcript.old.challenger.ghost_name }
    ensures delegated { IfOk result (λ _. transcript.new.phase ≡ Delegated) }
    ensures holds { IfOk result (λ point.
        ⟦<SC as StarkChecks<A>>⟧.run_holds on.now point.alpha point.zeta) }
    ensures sampled { IfOk result (λ point. ⟦<SC as StarkChecks<A>>⟧.is_sampled on.now domains
        point.zeta point.periodic_values.items) }
    ensures fault { IfErrMemoryAside result (⟦<SC as StarkChecks<A>>⟧.run_fault on.now) }
{
    let (alpha, zeta) = draw_challenges(on, transcript)?;
    // The point before the openings, since the equation can't be asked at a point of H.
    let periodic_values = check_point(alloc, on, domains, zeta)?;
    check_openings(alloc, on, domains, zeta, transcript)?;
    Ok(SampledPoint {
        alpha,
        zeta,
        periodic_values,
    })
}

/// The replay of the transcript from the configuration's first state: the challenges, the tests at
/// zeta, the opening argument.
pub(crate) fn replay_transcript<SC: StarkGenericConfig, A: Air<Val<SC>>>(
    alloc: Global,
    on: &InstanceOf<'_, SC, A>,
    domains: ProofDomains<Domain<SC>>,
) -> Result<SampledPoint<SC::Challenge>, VerificationError<PcsError<SC>>>
where
    SC::Challenger: GrindingChallenger<Witness = Val<SC>>,
    requires shaped { ⟦<SC as StarkChecks<A>>⟧.is_shaped on.now domains }
    ensures holds { IfOk result (λ point.
        ⟦<SC as StarkChecks<A>>⟧.run_holds on.now point.alpha point.zeta) }
    ensures sampled { IfOk result (λ point. ⟦<SC as StarkChecks<A>>⟧.is_sampled on.now domains
        point.zeta point.periodic_values.items) }
    ensures fault { IfErrMemoryAside result (⟦<SC as StarkChecks<A>>⟧.run_fault on.now) }
{
    // The shape seeds the transcript, so one of another height, width or number of chunks begins in
    // another state. Its numbers are the AIR's and the configuration's, but for the height.
    let mut challenger = on.config.initialise_challenger(alloc)?;
    let shape = describe_transcript(alloc, on, domains)?;
    let mut transcript = StarkVerifierTranscript::<SC::Challenger, Val<SC>, SC::Challenge>::new(
        alloc,
        &mut challenger,
        shape,
    )?;
    // A refusal leaves steps of the shape unplayed, which `finish` doesn't let pass.
    match replay(alloc, on, domains, &mut transcript) {
        Ok(point) => {
            transcript.finish();
            Ok(point)
        }
        Err(fault) => {
            transcript.abort();
            Err(fault)
        }
    }
}
