//! What is opened at zeta, and the argument that it is what was committed to.
ghost use Rattle.std.specs.Option.{option_copied};
ghost use Rattle.std.specs.Prelude.{◌≡◌, ◌^◌, ◌<◌, IfErr, IfOk, None, is_some, option_map};
ghost use Rattle.stark_transcript.specs.Replay.{random_fault};
ghost use Rattle.stark_transcript.specs.Shape.{opens_next_row};
ghost use Rattle.stark_transcript.specs.declared.shape.TranscriptPhase.TheVariants.{Bound, Delegated, Drawn};
ghost use Rattle.stark_prover.specs.Rounds.{AreTrueValues, HaveStanding, IsAnswer, IsAnswerOf, IsOpeningRefusal, IsTrueArgument};

use crate::commit::Committed;
use crate::contracts::{ProverInstance, StarkStages};
use crate::domains::ProverDomains;
use crate::opened_values::values_of;
use crate::prover::BoundProof;
use crate::rounds::{OpenedData, OpeningPoints, place_of, rounds_of};
use crate::transcript::{BeforeZeta, data_of, draw_zeta};
use stark_air::{Air, BaseAir};
use stark_parts::{Com, Domain, PcsProverError, StarkGenericConfig, Val};
use stark_proof::OpenedValues;
use stark_protocol::{PcsProof, PcsProverData, StarkOperations, power_of_two};
use stark_support::{
    ExtensionField, Field, GrindingChallenger, OpenedRounds, Pcs, PolynomialSpace, TwoAdicField,
    UnivariateStarkPcs,
};
use stark_transcript::{ProvingError, StarkProverTranscript, opens_next_row};
use std::alloc::{AllocError, Global};

/// What is opened of a proof at its point.
#[derive(Drop)]
pub(crate) struct OpenedProof<EF, F, P> {
    pub witness: F,
    pub values: OpenedValues<EF>,
    pub argument: P,
}

/// The random commitment, where there is one.
fn random_commitment<K, T, EF, F>(bound: &BoundProof<K, T, EF, F>) -> Option<&K>
    ensures { option_copied result
        ≡ option_map (λ made. made.commitment) bound.now.random }
{
    match &bound.random {
        Some(made) => Some(&made.commitment),
        None => None,
    }
}

/// What the scheme keeps of the random commitment, where there is one.
fn random_data<K, T, EF, F>(bound: &BoundProof<K, T, EF, F>) -> Option<&T>
    ensures { option_copied result
        ≡ option_map (λ made. made.prover_data) bound.now.random }
{
    match &bound.random {
        Some(made) => Some(&made.prover_data),
        None => None,
    }
}

/// Zeta and the next point, and which rows are read there.
pub(crate) fn opening_points<D: PolynomialSpace, EF: ExtensionField<D::Val>, A: BaseAir<D::Val>>(
    alloc: Global,
    air: &A,
    domains: ProverDomains<D>,
    zeta: EF,
) -> Result<OpeningPoints<EF>, AllocError>
    requires few { domains.log_chunks < 64 }
    ensures zeta { IfOk result (λ points. points.zeta ≡ zeta) }
    ensures next_zeta { IfOk result (λ points. points.next_zeta
        ≡ EF.ring.mul (EF.embed (D.Val.root (D.coset_of domains.trace).log_size)) zeta) }
    ensures reads_next { IfOk result (λ points. points.reads_next
        ≡ opens_next_row (A.main_next_row_columns air.now)) }
    ensures reads_preprocessed_next { IfOk result (λ points. points.reads_preprocessed_next
        ≡ opens_next_row (A.preprocessed_next_row_columns air.now)) }
    ensures chunks { IfOk result (λ points. points.chunks ≡ 2 ^ domains.log_chunks) }
{
    let Some(next_zeta) = domains.trace.next_point(zeta) else {
        unreachable!()
    };
    let main_next = air.main_next_row_columns(alloc)?;
    let preprocessed_next = air.preprocessed_next_row_columns(alloc)?;
    Ok(OpeningPoints {
        zeta,
        next_zeta,
        reads_next: opens_next_row(&main_next),
        reads_preprocessed_next: opens_next_row(&preprocessed_next),
        chunks: power_of_two(domains.log_chunks),
    })
}

/// The openings, over the challenger that is lent.
fn open_rounds<SC: StarkGenericConfig>(
    alloc: Global,
    config: &SC,
    points: OpeningPoints<SC::Challenge>,
    of: &OpenedData<'_, PcsProverData<SC>>,
    challenger: &mut SC::Challenger,
) -> Result<(OpenedRounds<SC::Challenge>, PcsProof<SC>), ProvingError<PcsProverError<SC>>>
    ensures { IsAnswer SC.Pcs.scheme SC.Challenge.ring SC.Challenge.embed SC.Pcs.ZK
        (SC.config.scheme config.now) points of.now challenger.old result }
{
    let rounds = rounds_of(alloc, points, of)?;
    let place = place_of(SC::Pcs::ZK, of.preprocessed);
    match config
        .pcs()
        .open_with_preprocessing(alloc, rounds, challenger, place)
    {
        Ok(opened) => Ok(opened),
        Err(fault) => Err(ProvingError::in_phase("opening", fault)),
    }
}

/// The opening argument, with the transcript's challenger.
fn delegate_opening<SC: StarkGenericConfig>(
    alloc: Global,
    config: &SC,
    points: OpeningPoints<SC::Challenge>,
    of: &OpenedData<'_, PcsProverData<SC>>,
    transcript: &mut StarkProverTranscript<'_, SC::Challenger, Val<SC>, SC::Challenge>,
) -> Result<(OpenedRounds<SC::Challenge>, PcsProof<SC>), ProvingError<PcsProverError<SC>>>
where
    SC::Challenger: GrindingChallenger<Witness = Val<SC>>,
    requires phase { transcript.old.phase ≡ Drawn }
    ensures same_reference { transcript.new.challenger.ghost_name
        ≡ transcript.old.challenger.ghost_name }
    ensures phase { transcript.new.phase ≡ Delegated }
    ensures answered { IsAnswerOf ⟦<SC as StarkOperations>⟧.operations
        (SC.config.scheme config.now) points of.now transcript.old.challenger.now result }
{
    // The argument seeds a description of its own from the state that is reached here, so it is
    // lent the very challenger.
    transcript.delegate(
        |lent: &mut SC::Challenger| -> Result<
            (OpenedRounds<SC::Challenge>, PcsProof<SC>),
            ProvingError<PcsProverError<SC>>,
        >
            ensures { IsAnswer SC.Pcs.scheme SC.Challenge.ring SC.Challenge.embed SC.Pcs.ZK
                (SC.config.scheme config.entry.now) points of.entry.now lent.old result }
        { open_rounds(alloc, config, points, of, lent) },
    )
}

/// The opened values and the opening proof.
fn open_values<SC: StarkGenericConfig>(
    alloc: Global,
    config: &SC,
    points: OpeningPoints<SC::Challenge>,
    of: &OpenedData<'_, PcsProverData<SC>>,
    transcript: &mut StarkProverTranscript<'_, SC::Challenger, Val<SC>, SC::Challenge>,
) -> Result<(OpenedValues<SC::Challenge>, PcsProof<SC>), ProvingError<PcsProverError<SC>>>
where
    SC::Challenger: GrindingChallenger<Witness = Val<SC>>,
    requires phase { transcript.old.phase ≡ Drawn }
    requires behind { HaveStanding ⟦<SC as StarkOperations>⟧.operations
        (SC.config.scheme config.now) points of.now }
    ensures same_reference { transcript.new.challenger.ghost_name
        ≡ transcript.old.challenger.ghost_name }
    ensures phase { transcript.new.phase ≡ Delegated }
    ensures values { IfOk result (AreTrueValues ⟦<SC as StarkOperations>⟧.operations
        (SC.config.scheme config.now) points of.now) }
    ensures complete { IfOk result (IsTrueArgument ⟦<SC as StarkOperations>⟧.operations
        (SC.config.scheme config.now) points of.now transcript.old.challenger.now) }
    ensures fault { IfErr result (IsOpeningRefusal ⟦<SC as StarkOperations>⟧.operations
        (SC.config.scheme config.now) points of.now transcript.old.challenger.now) }
{
    let (opened, proof) = delegate_opening(alloc, config, points, of, transcript)?;
    let values = values_of(alloc, opened, SC::Pcs::ZK)?;
    Ok((values, proof))
}

/// Draws zeta, and opens the commitments there.
pub(crate) fn open_at_zeta<SC: StarkGenericConfig, A: Air<Val<SC>>>(
    alloc: Global,
    instance: &ProverInstance<'_, SC, A>,
    domains: ProverDomains<Domain<SC>>,
    committed: &Committed<Com<SC>, PcsProverData<SC>>,
    bound: &BoundProof<Com<SC>, PcsProverData<SC>, SC::Challenge, Val<SC>>,
    transcript: &mut StarkProverTranscript<'_, SC::Challenger, Val<SC>, SC::Challenge>,
) -> Result<OpenedProof<SC::Challenge, Val<SC>, PcsProof<SC>>, ProvingError<PcsProverError<SC>>>
where
    SC::Challenger: GrindingChallenger<Witness = Val<SC>>,
    requires committed { ⟦<SC as StarkStages<A>>⟧.is_committed instance.now domains committed.now }
    requires bound { ⟦<SC as StarkStages<A>>⟧.is_bound instance.now domains.degree_bits
        committed.now bound.now transcript.old.challenger.now }
    requires described { transcript.old.shape
        ≡ ⟦<SC as StarkStages<A>>⟧.described instance.now domains.degree_bits }
    requires phase { transcript.old.phase ≡ Bound }
    requires there { random_fault transcript.old.shape (is_some bound.now.random) ≡ None }
    ensures same_reference { transcript.new.challenger.ghost_name
        ≡ transcript.old.challenger.ghost_name }
    ensures phase { IfOk result (λ _. transcript.new.phase ≡ Delegated) }
    ensures made { IfOk result (⟦<SC as StarkStages<A>>⟧.is_opened instance.now
        domains.degree_bits committed.now bound.now) }
    ensures fault { IfErr result (⟦<SC as StarkStages<A>>⟧.is_fault_of instance.now
        domains.degree_bits committed.now) }
{
    let random = random_commitment(bound);
    let message = BeforeZeta {
        quotient: &bound.quotient.commitment,
        random,
    };
    // Zeta. Bound before it are alpha and all that the quotient is made of, the quotient's chunks
    // and the randomization: so both sides of the equation C = Z_H * Q, folded by alpha, are
    // polynomials that can't change any more. Where they differ, they agree at no more points than
    // the greater of their degrees, the D of `ood_error_bound`: at most D zetas are bad. The work
    // before the draw is paid anew for each zeta that is tried.
    let (zeta, witness) = draw_zeta(transcript, &message)?;
    let points = opening_points(alloc, instance.air, domains, zeta)?;
    let of = OpenedData {
        random: random_data(bound),
        trace: &committed.prover_data,
        quotient: &bound.quotient.prover_data,
        preprocessed: data_of(instance.preprocessed),
    };
    let (values, argument) = open_values(alloc, instance.config, points, &of, transcript)?;
    Ok(OpenedProof {
        witness,
        values,
        argument,
    })
}
