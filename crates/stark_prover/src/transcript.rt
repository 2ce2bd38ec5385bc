//! The transcript of a proof: what describes it, and its two draws.
ghost use Rattle.std.specs.Option.{option_copied};
ghost use Rattle.std.specs.Prelude.{◌≡◌, ◌<◌, ◌≤◌, IfErr, IfOk, None, is_some, length, option_map};
ghost use Rattle.stark_support.specs.Scheme.{zk_bits};
ghost use Rattle.stark_transcript.specs.Replay.{preprocessed_fault, random_fault};
ghost use Rattle.stark_transcript.specs.declared.shape.TranscriptPhase.TheVariants.{Bound, Drawn, Opened};
ghost use Rattle.stark_protocol.specs.ShapeFaults.{width_in_force};
ghost use Rattle.stark_prover.specs.ProofOfTrace.{key_of};
ghost use Rattle.stark_prover.specs.ProverFault.{shape_with};
ghost use Rattle.stark_prover.specs.ProverView.{own_instance};
ghost use Rattle.stark_prover.specs.Work.{AnswersAlpha, AnswersZeta, DrawsAlpha, DrawsZeta, IsAlphaExhausted, IsZetaExhausted, alpha_outcome, zeta_outcome};

use crate::contracts::{ProverInstance, StarkProverView};
use stark_air::Air;
use stark_parts::{StarkGenericConfig, Val};
use stark_protocol::{PreprocessedProverData, transcript_shape};
use stark_support::{
    CanObserve, CanSample, ExtensionField, Field, GrindingChallenger, PrimeField64, Sponge,
};
use stark_transcript::{GrindExhausted, StarkProverTranscript, StarkShape};
use std::alloc::{AllocError, Global};

/// The preprocessed width: that of the data, and else the AIR's.
fn width_in_force<K, T>(
    preprocessed_data: Option<&PreprocessedProverData<K, T>>,
    air_width: usize,
) -> usize
    ensures { result ≡ width_in_force (option_map key_of
        (option_copied preprocessed_data.entry)) air_width }
{
    match preprocessed_data {
        Some(preprocessed_data) => preprocessed_data.width,
        None => air_width,
    }
}

/// The commitment to the preprocessed columns, where there are any.
pub(crate) fn commitment_of<K, T>(
    preprocessed_data: Option<&PreprocessedProverData<K, T>>,
) -> Option<&K>
    ensures { option_copied result
        ≡ option_map (λ key. key.commitment)
        (option_map key_of (option_copied preprocessed_data.entry)) }
{
    match preprocessed_data {
        Some(preprocessed_data) => Some(&preprocessed_data.commitment),
        None => None,
    }
}

/// What the scheme keeps of the preprocessed columns, where there are any.
pub(crate) fn data_of<K, T>(preprocessed_data: Option<&PreprocessedProverData<K, T>>) -> Option<&T>
    ensures { option_copied result
        ≡ option_map (λ of_data. of_data.prover_data) (option_copied preprocessed_data.entry) }
{
    match preprocessed_data {
        Some(preprocessed_data) => Some(&preprocessed_data.prover_data),
        None => None,
    }
}

/// The transcript's shape.
pub(crate) fn describe<SC: StarkGenericConfig, A: Air<Val<SC>>>(
    alloc: Global,
    instance: &ProverInstance<'_, SC, A>,
    degree_bits: usize,
    log_chunks: usize,
) -> Result<StarkShape, AllocError>
where
    requires extended { zk_bits SC.Pcs.ZK ≤ degree_bits }
    requires few { log_chunks < 64 }
    ensures { IfOk result (λ shape. shape
        ≡ shape_with SC.Pcs.ZK (own_instance (⟦<SC as StarkProverView<A>>⟧.view instance.now))
        degree_bits log_chunks) }
{
    let width = width_in_force(instance.preprocessed, instance.air.preprocessed_width());
    transcript_shape(
        alloc,
        instance.config,
        instance.air,
        width,
        degree_bits,
        log_chunks,
    )
}

/// What is bound before alpha is drawn: the commitments to the trace and to the preprocessed
/// columns, and the public values.
#[derive(Drop)]
pub(crate) struct BeforeAlpha<'p, K, F> {
    pub trace: &'p K,
    pub preprocessed: Option<&'p K>,
    pub public_values: &'p [F],
}

/// What is bound between alpha and zeta: the commitments to the quotient's chunks and to the
/// randomization.
#[derive(Drop)]
pub(crate) struct BeforeZeta<'p, K> {
    pub quotient: &'p K,
    pub random: Option<&'p K>,
}

/// Alpha, and the witness of the work before it, zero where none is asked for.
pub(crate) fn draw_alpha<C, F: PrimeField64, EF: ExtensionField<F>, K>(
    transcript: &mut StarkProverTranscript<'_, C, F, EF>,
    message: &BeforeAlpha<'_, K, F>,
) -> Result<(EF, F), GrindExhausted>
where
    C: CanObserve<F> + CanObserve<K> + CanSample<EF> + GrindingChallenger<Witness = F>,
    requires phase { transcript.old.phase ≡ Opened }
    requires count { length message.now.public_values.now
        ≡ transcript.old.shape.num_public_values }
    requires described { preprocessed_fault transcript.old.shape
        (is_some message.now.preprocessed) ≡ None }
    ensures same_reference { transcript.new.challenger.ghost_name
        ≡ transcript.old.challenger.ghost_name }
    ensures shape { transcript.new.shape ≡ transcript.old.shape }
    ensures phase { IfOk result (λ _. transcript.new.phase ≡ Bound) }
    ensures drawn { IfOk result (λ drawn.
        DrawsAlpha ⟦<C as Sponge<F, EF, K>>⟧.sponge transcript.old message.now drawn
        transcript.new.challenger.now) }
    ensures answer { IfOk result (λ drawn.
        AnswersAlpha ⟦<C as Sponge<F, EF, K>>⟧.sponge transcript.old message.now
        drawn.0) }
    ensures state { transcript.new.challenger.now
        ≡ (alpha_outcome ⟦<C as Sponge<F, EF, K>>⟧.sponge transcript.old
        message.now).state }
    ensures no_work { IfOk result (λ drawn.
        transcript.old.shape.constraint_pow_bits ≡ 0 → drawn.1 ≡ F.ring.zero) }
    ensures exhausted { IfErr result (IsAlphaExhausted
        ⟦<C as Sponge<F, EF, K>>⟧.sponge transcript.old message.now) }
{
    let (trace, preprocessed) = (message.trace, message.preprocessed);
    let public_values = message.public_values;
    let (alpha, work) = transcript.constraint_phase::<K>(trace, preprocessed, public_values)?;
    // Where no work is asked for, the witness has its place in the proof all the same, so that each
    // proof has one shape.
    match work {
        Some(witness) => Ok((alpha, witness)),
        None => Ok((alpha, F::ZERO)),
    }
}

/// Zeta, and the witness of the work before it, zero where none is asked for.
pub(crate) fn draw_zeta<C, F: PrimeField64, EF: ExtensionField<F>, K>(
    transcript: &mut StarkProverTranscript<'_, C, F, EF>,
    message: &BeforeZeta<'_, K>,
) -> Result<(EF, F), GrindExhausted>
where
    C: CanObserve<F> + CanObserve<K> + CanSample<EF> + GrindingChallenger<Witness = F>,
    requires phase { transcript.old.phase ≡ Bound }
    requires described { random_fault transcript.old.shape (is_some message.now.random) ≡ None }
    ensures same_reference { transcript.new.challenger.ghost_name
        ≡ transcript.old.challenger.ghost_name }
    ensures phase { IfOk result (λ _. transcript.new.phase ≡ Drawn) }
    ensures drawn { IfOk result (λ drawn.
        DrawsZeta ⟦<C as Sponge<F, EF, K>>⟧.sponge transcript.old message.now drawn
        transcript.new.challenger.now) }
    ensures answer { IfOk result (λ drawn.
        AnswersZeta ⟦<C as Sponge<F, EF, K>>⟧.sponge transcript.old message.now
        drawn.0) }
    ensures state { transcript.new.challenger.now
        ≡ (zeta_outcome ⟦<C as Sponge<F, EF, K>>⟧.sponge transcript.old
        message.now).state }
    ensures no_work { IfOk result (λ drawn.
        transcript.old.shape.ood_pow_bits ≡ 0 → drawn.1 ≡ F.ring.zero) }
    ensures exhausted { IfErr result (IsZetaExhausted
        ⟦<C as Sponge<F, EF, K>>⟧.sponge transcript.old message.now) }
{
    let (zeta, work) = transcript.ood_phase::<K>(message.quotient, message.random)?;
    match work {
        Some(witness) => Ok((zeta, witness)),
        None => Ok((zeta, F::ZERO)),
    }
}
