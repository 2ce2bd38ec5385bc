//! The transcript of a proof of one AIR, played over a challenger that the caller lends.
ghost use Rattle.std.specs.Prelude.{◌≡◌, Option, option_map, IfOk, IfErr};
ghost use Rattle.stark_support.specs.Sponge.{SpongeOps, replay};
ghost use Rattle.stark_transcript.specs.Shape.{after_seed};
ghost use Rattle.stark_transcript.specs.declared.shape.StarkShape.{StarkShape};
ghost use Rattle.stark_transcript.specs.Replay.{checked, ground, optional_events, optional_fault, preprocessed_fault, random_fault};
ghost use Rattle.stark_transcript.specs.Phases.{IsPlainForProver, IsPlainForVerifier, after_values};

mod prover;
mod verifier;

use crate::shape::{GrindExhausted, StarkShape, StarkTranscriptFailure};
pub use prover::StarkProverTranscript;
use stark_support::{
    CanObserve, CanSample, ExtensionField, GrindingChallenger, PrimeField64, Sponge, observe_bytes,
    observe_slice,
};
use std::alloc::{AllocError, Global};
pub use verifier::StarkVerifierTranscript;

/// The failure of a commitment that the shape describes and isn't there, or the other way round.
fn optional_fault(
    is_described: bool,
    is_there: bool,
    missing: StarkTranscriptFailure,
    unexpected: StarkTranscriptFailure,
) -> Option<StarkTranscriptFailure>
    ensures { result ≡ optional_fault is_described is_there missing unexpected }
{
    match (is_described, is_there) {
        (true, false) => Some(missing),
        (false, true) => Some(unexpected),
        _ => None,
    }
}

/// The failure of a preprocessed commitment that the shape's width doesn't announce, or does in
/// vain.
fn preprocessed_fault(shape: &StarkShape, is_there: bool) -> Option<StarkTranscriptFailure>
    ensures { result ≡ preprocessed_fault shape.now is_there }
{
    let width = shape.preprocessed_width;
    optional_fault(
        width > 0,
        is_there,
        StarkTranscriptFailure::MissingPreprocessedCommitment { width },
        StarkTranscriptFailure::UnexpectedPreprocessedCommitment,
    )
}

/// The failure of a randomization commitment that is there where the shape masks nothing, or isn't
/// where it does.
fn random_fault(shape: &StarkShape, is_there: bool) -> Option<StarkTranscriptFailure>
    ensures { result ≡ random_fault shape.now is_there }
{
    optional_fault(
        shape.has_randomization,
        is_there,
        StarkTranscriptFailure::MissingRandomCommitment,
        StarkTranscriptFailure::UnexpectedRandomCommitment,
    )
}

// Observes a shape's seed. Where memory is refused, nothing is observed.
fn observe_seed<C, F, EF>(
    alloc: Global,
    challenger: &mut C,
    shape: &StarkShape,
) -> Result<(), AllocError>
where
    F: PrimeField64,
    EF: ExtensionField<F>,
    C: CanObserve<F>,
    ensures seeded { IfOk result (λ _. challenger.new
        ≡ after_seed C.after_observe F.of_number EF.DIMENSION shape.now challenger.old) }
    ensures untouched { IfErr result (λ _. challenger.new ≡ challenger.old) }
{
    let separator = shape.domain_separator::<F, EF>(alloc)?;
    observe_bytes::<C, F>(challenger, separator.seed());
    Ok(())
}

/// Observes a commitment, where there is one: its presence itself is in the seed, not here.
fn observe_optional<C, F, EF, K>(challenger: &mut C, commitment: Option<&K>)
where
    F: PrimeField64,
    C: CanObserve<F> + CanObserve<K> + CanSample<EF> + GrindingChallenger<Witness = F>,
    ensures { challenger.new ≡ replay ⟦<C as Sponge<F, EF, K>>⟧.sponge
        (optional_events (option_map (λ k. k.now) commitment.entry)) challenger.old }
{
    if let Some(commitment) = commitment {
        challenger.observe(commitment);
    }
}

// What follows the commitment to the trace: the preprocessed one and the public values.
#[tactic(auto, using(stark_support::specs::SpongeFacts::replay_append, stark_support::specs::SpongeFacts::replay_elements))]
fn play_values<C, F, EF, K>(challenger: &mut C, preprocessed: Option<&K>, public_values: &[F])
where
    F: PrimeField64,
    C: CanObserve<F> + CanObserve<K> + CanSample<EF> + GrindingChallenger<Witness = F>,
    ensures { challenger.new ≡ after_values ⟦<C as Sponge<F, EF, K>>⟧.sponge
        preprocessed.entry public_values.now challenger.old }
{
    observe_optional::<C, F, EF, K>(&mut *challenger, preprocessed);
    observe_slice(&mut *challenger, public_values);
}

// The check of the work, where some is asked for, and the challenge behind it. Where the witness
// doesn't pass, the failure given is answered.
fn sample_after_check<C, F, EF, K>(
    challenger: &mut C,
    failure: StarkTranscriptFailure,
    bits: usize,
    witness: F,
) -> Result<EF, StarkTranscriptFailure>
where
    F: PrimeField64,
    C: CanObserve<F> + CanObserve<K> + CanSample<EF> + GrindingChallenger<Witness = F>,
    ensures answer { result ≡ (checked ⟦<C as Sponge<F, EF, K>>⟧.sponge failure bits
        witness challenger.old).answer }
    ensures state { challenger.new ≡ (checked ⟦<C as Sponge<F, EF, K>>⟧.sponge failure
        bits witness challenger.old).state }
{
    if bits > 0 && !challenger.check_witness(bits, witness) {
        return Err(failure);
    }
    Ok(challenger.sample())
}

// The search for a witness, where work is asked for, and the challenge behind it.
fn sample_after_grind<C, F, EF, K>(
    challenger: &mut C,
    bits: usize,
) -> Result<(EF, Option<F>), GrindExhausted>
where
    F: PrimeField64,
    C: CanObserve<F> + CanObserve<K> + CanSample<EF> + GrindingChallenger<Witness = F>,
    ensures answer { result ≡ (ground ⟦<C as Sponge<F, EF, K>>⟧.sponge bits
        challenger.old).answer }
    ensures state { challenger.new ≡ (ground ⟦<C as Sponge<F, EF, K>>⟧.sponge bits
        challenger.old).state }
{
    if bits == 0 {
        return Ok((challenger.sample(), None));
    }
    match challenger.grind(bits) {
        Some(witness) => Ok((challenger.sample(), Some(witness))),
        None => Err(GrindExhausted { bits }),
    }
}

/// A law, with no code: where a shape asks for no work before alpha, the phase that draws alpha is
/// that of a protocol without such work. The verifier's is so whatever the witness, and the
/// prover's finds none.
pub fn alpha_without_work<C, F, EF, K>()
    ensures verifier { (ops : SpongeOps C F EF K) → IsPlainForVerifier ops }
    ensures prover { (ops : SpongeOps C F EF K) → IsPlainForProver ops }
{}
