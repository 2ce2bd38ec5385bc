//! The prover, in the order of its protocol: sizes, the trace's commitment, alpha, the quotient and
//! the randomization, zeta, the opening argument.
ghost use Rattle.std.specs.Option.{option_copied};
ghost use Rattle.std.specs.Prelude.{[], ◌≡◌, ◌+◌, ◌<◌, IfErr, IfOk, IfSome, None, is_some, length, ltb, option_map};
ghost use Rattle.stark_support.specs.Scheme.{zk_bits};
ghost use Rattle.stark_transcript.specs.declared.shape.TranscriptPhase.TheVariants.{Bound, Delegated};
ghost use Rattle.stark_proof.specs.ProofView.{proof_view};
ghost use Rattle.stark_prover.specs.Conditions.{FitsAir};
ghost use Rattle.stark_prover.specs.Heights.{FitsScheme, FitsSchemeBeside, HasRoom, IsCommittedAt, IsOfHeight};
ghost use Rattle.stark_prover.specs.ProverView.{InputsHold, instance_of};
ghost use Rattle.stark_prover.specs.Stages.{view_of_parts};

use crate::commit::{Committed, commit_random, commit_trace};
use crate::contracts::{
    ProverInputs, ProverInstance, StarkProving, StarkSizedProving, StarkStages,
};
use crate::domains::{ProverDomains, fitting_domains};
use crate::open::{OpenedProof, open_at_zeta};
use crate::quotient::ProvableAir;
use crate::transcript::{BeforeAlpha, commitment_of, describe, draw_alpha};
use stark_air::Air;
use stark_completeness::log_height_of;
use stark_parts::{Com, Domain, PcsProverError, StarkGenericConfig, Val};
use stark_proof::{Commitments, Proof};
use stark_protocol::{PcsProverData, PreprocessedProverData, StarkProof};
use stark_support::{
    ExtensionField, GrindingChallenger, PackedExtensionField, PackedField, Pcs, PolynomialSpace,
    RowMajorMatrix, UnivariateStarkPcs,
};
use stark_transcript::{ProvingError, StarkProverTranscript};
use std::alloc::Global;

/// A proof that a trace satisfies an AIR without preprocessed columns, with the conditions and the
/// errors of `prove_with_preprocessed`.
pub fn prove<'p, SC: StarkGenericConfig, A: Air<Val<SC>>>(
    alloc: Global,
    config: &'p SC,
    air: &A,
    trace: RowMajorMatrix<Val<SC>>,
    public_values: &[Val<SC>],
) -> Result<StarkProof<SC>, ProvingError<PcsProverError<SC>>>
where
    Val<SC>: PackedField,
    SC::Challenge: PackedExtensionField<Val<SC>>,
    SC::Challenger: GrindingChallenger<Witness = Val<SC>>,
    requires height { FitsScheme SC.Pcs.scheme (SC.config.scheme config.now) SC.Pcs.ZK trace }
    requires fits { FitsAir SC.Pcs.scheme (SC.config.scheme config.now) SC.Pcs.Domain.Val.ring
        (A.layout air.now) None trace public_values.now }
    ensures made { IfOk result (⟦<SC as StarkProving<A>>⟧.is_proof_with
        (instance_of config.entry air.entry public_values.entry None) [] trace) }
    ensures acceptable { IfOk result (⟦<SC as StarkProving<A>>⟧.is_acceptable
        (instance_of config.entry air.entry public_values.entry None) trace) }
    ensures complete { IfOk result (⟦<SC as StarkProving<A>>⟧.completeness
        (instance_of config.entry air.entry public_values.entry None) trace) }
    ensures fault { IfErr result (⟦<SC as StarkProving<A>>⟧.fault
        (instance_of config.entry air.entry public_values.entry None) trace) }
{
    let preprocessed: Option<&'p PreprocessedProverData<Com<SC>, PcsProverData<SC>>> = None;
    prove_with_preprocessed(alloc, config, air, trace, public_values, preprocessed)
}

/// A proof that a trace satisfies an AIR, with the prover's data of the preprocessed columns.
///
/// The trace has `2^height` rows of the AIR's width, at least one column, and is committed at
/// `2^(height + is_zk)` rows, at most the scheme's greatest height; there are as many public values
/// as the AIR has. The data of the preprocessed columns are there exactly where the AIR has some,
/// have their number, and stand at that committed height. Whether the trace satisfies the AIR
/// isn't tested: the verifier refuses the proof of one that doesn't, unless a draw is bad
/// (`ood_error_bound` counts those).
///
/// - `PeriodicColumn` where a periodic column doesn't fit the trace's rows.
/// - `QuotientDomainTooLarge` where the quotient's domain is larger than the field or the scheme
///   has room for.
/// - `Pcs` where the scheme refuses, in the phase of its name: `trace commitment`, `quotient
///   commitment`, `randomization commitment` or `opening`.
/// - `GrindExhausted` where no element is a witness of the work before alpha, which is done behind
///   `trace commitment` and before `quotient commitment`, or of that before zeta, which is done
///   before `opening`; it has the bits of the one that failed.
/// - `OutOfMemory` only where a growth was refused.
pub fn prove_with_preprocessed<SC: StarkGenericConfig, A: Air<Val<SC>>>(
    alloc: Global,
    config: &SC,
    air: &A,
    trace: RowMajorMatrix<Val<SC>>,
    public_values: &[Val<SC>],
    preprocessed: Option<&PreprocessedProverData<Com<SC>, PcsProverData<SC>>>,
) -> Result<StarkProof<SC>, ProvingError<PcsProverError<SC>>>
where
    Val<SC>: PackedField,
    SC::Challenge: PackedExtensionField<Val<SC>>,
    SC::Challenger: GrindingChallenger<Witness = Val<SC>>,
    requires height { FitsSchemeBeside SC.Pcs.scheme (SC.config.scheme config.now) SC.Pcs.ZK
        (option_copied preprocessed) trace }
    requires fits { FitsAir SC.Pcs.scheme (SC.config.scheme config.now) SC.Pcs.Domain.Val.ring
        (A.layout air.now) preprocessed trace public_values.now }
    ensures made { IfOk result (⟦<SC as StarkProving<A>>⟧.is_proof
        (instance_of config.entry air.entry public_values.entry preprocessed.entry) trace) }
    ensures acceptable { IfOk result (⟦<SC as StarkProving<A>>⟧.is_acceptable
        (instance_of config.entry air.entry public_values.entry preprocessed.entry) trace) }
    ensures complete { IfOk result (⟦<SC as StarkProving<A>>⟧.completeness
        (instance_of config.entry air.entry public_values.entry preprocessed.entry) trace) }
    ensures fault { IfErr result (⟦<SC as StarkProving<A>>⟧.fault
        (instance_of config.entry air.entry public_values.entry preprocessed.entry) trace) }
{
    let log_height = log_height_of(&trace);
    let instance = ProverInputs {
        config,
        air,
        public_values,
        preprocessed,
    };
    prove_sized(alloc, &instance, log_height, trace)
}

/// The proof of a trace of `2^log_height` rows.
fn prove_sized<SC: StarkGenericConfig, A: ProvableAir<SC>>(
    alloc: Global,
    instance: &ProverInstance<'_, SC, A>,
    log_height: usize,
    trace: RowMajorMatrix<Val<SC>>,
) -> Result<StarkProof<SC>, ProvingError<PcsProverError<SC>>>
where
    SC::Challenger: GrindingChallenger<Witness = Val<SC>>,
    requires columns { 0 < trace.width }
    requires width { trace.width ≡ (A.layout instance.now.air.now).main }
    requires height { IsOfHeight trace log_height }
    requires within { HasRoom SC.Pcs.scheme (SC.config.scheme instance.now.config.now) SC.Pcs.ZK
        log_height }
    requires public_values { length instance.now.public_values.now
        ≡ (A.layout instance.now.air.now).public_values }
    requires there { is_some instance.now.preprocessed
        ≡ ltb 0 (A.layout instance.now.air.now).preprocessed }
    requires same { IsCommittedAt (option_copied instance.now.preprocessed)
        (log_height + zk_bits SC.Pcs.ZK) }
    requires stands { InputsHold SC.Pcs.scheme SC.config.scheme SC.Pcs.Domain.Val.ring instance.now
        (A.layout instance.now.air.now).preprocessed }
    ensures made { IfOk result (⟦<SC as StarkSizedProving<A>>⟧.is_proof_at instance.now log_height
        trace) }
    ensures fault { IfErr result (⟦<SC as StarkSizedProving<A>>⟧.fault_at instance.now log_height
        trace) }
{
    let domains = fitting_domains(alloc, instance, log_height)?;
    let committed = commit_trace(alloc, instance.config, domains, trace)?;
    prove_over_transcript(alloc, instance, domains, committed)
}

/// The proof of a committed trace, over a transcript that begins with the configuration's first
/// state.
pub(crate) fn prove_over_transcript<SC: StarkGenericConfig, A: ProvableAir<SC>>(
    alloc: Global,
    instance: &ProverInstance<'_, SC, A>,
    domains: ProverDomains<Domain<SC>>,
    committed: Committed<Com<SC>, PcsProverData<SC>>,
) -> Result<StarkProof<SC>, ProvingError<PcsProverError<SC>>>
where
    SC::Challenger: GrindingChallenger<Witness = Val<SC>>,
    requires committed { ⟦<SC as StarkStages<A>>⟧.is_committed instance.now domains committed }
    requires there { is_some instance.now.preprocessed
        ≡ ltb 0 (A.layout instance.now.air.now).preprocessed }
    requires width { IfSome (option_copied instance.now.preprocessed) (λ h. h.width
        ≡ (A.layout instance.now.air.now).preprocessed) }
    ensures made { IfOk result (⟦<SC as StarkStages<A>>⟧.is_proof_of instance.now
        domains.degree_bits committed) }
    ensures fault { IfErr result (⟦<SC as StarkStages<A>>⟧.is_fault_of instance.now
        domains.degree_bits committed) }
{
    let mut challenger = instance.config.initialise_challenger(alloc)?;
    // Every number of the description comes from the configuration and the AIR, none from a proof:
    // the verifier seeds its transcript with the same. The constraints themselves aren't in it, so
    // an AIR of the same shape draws the same challenges; the verifier evaluates its own.
    let shape = describe(alloc, instance, domains.degree_bits, domains.log_chunks)?;
    let mut transcript = StarkProverTranscript::<SC::Challenger, Val<SC>, SC::Challenge>::new(
        alloc,
        &mut challenger,
        shape,
    )?;
    match proof_from_transcript(alloc, instance, domains, committed, &mut transcript) {
        Ok(proof) => {
            transcript.finish();
            Ok(proof)
        }
        Err(fault) => {
            transcript.abort();
            Err(fault)
        }
    }
}

/// The proof of a committed trace, over a transcript that was seeded.
fn proof_from_transcript<SC: StarkGenericConfig, A: ProvableAir<SC>>(
    alloc: Global,
    instance: &ProverInstance<'_, SC, A>,
    domains: ProverDomains<Domain<SC>>,
    committed: Committed<Com<SC>, PcsProverData<SC>>,
    transcript: &mut StarkProverTranscript<'_, SC::Challenger, Val<SC>, SC::Challenge>,
) -> Result<StarkProof<SC>, ProvingError<PcsProverError<SC>>>
where
    SC::Challenger: GrindingChallenger<Witness = Val<SC>>,
    requires committed { ⟦<SC as StarkStages<A>>⟧.is_committed instance.now domains committed }
    requires seeded { ⟦<SC as StarkStages<A>>⟧.is_seeded instance.now domains.degree_bits
        transcript.old }
    ensures same_reference { transcript.new.challenger.ghost_name
        ≡ transcript.old.challenger.ghost_name }
    ensures phase { IfOk result (λ _. transcript.new.phase ≡ Delegated) }
    ensures made { IfOk result (⟦<SC as StarkStages<A>>⟧.is_proof_of instance.now
        domains.degree_bits committed) }
    ensures fault { IfErr result (⟦<SC as StarkStages<A>>⟧.is_fault_of instance.now
        domains.degree_bits committed) }
{
    let bound = bind_quotient(alloc, instance, domains, &committed, transcript)?;
    let opened = open_at_zeta(alloc, instance, domains, &committed, &bound, transcript)?;
    Ok(proof_of(committed, bound, opened, domains.degree_bits))
}

/// What is bound of a proof before zeta is drawn.
#[derive(Drop)]
pub(crate) struct BoundProof<K, T, EF, F> {
    pub alpha: EF,
    /// The witness of the work before alpha.
    pub witness: F,
    pub quotient: Committed<K, T>,
    pub random: Option<Committed<K, T>>,
}

/// Draws alpha, and commits to the quotient and to the randomization.
fn bind_quotient<SC: StarkGenericConfig, A: ProvableAir<SC>>(
    alloc: Global,
    instance: &ProverInstance<'_, SC, A>,
    domains: ProverDomains<Domain<SC>>,
    committed: &Committed<Com<SC>, PcsProverData<SC>>,
    transcript: &mut StarkProverTranscript<'_, SC::Challenger, Val<SC>, SC::Challenge>,
) -> Result<
    BoundProof<Com<SC>, PcsProverData<SC>, SC::Challenge, Val<SC>>,
    ProvingError<PcsProverError<SC>>,
>
where
    SC::Challenger: GrindingChallenger<Witness = Val<SC>>,
    requires committed { ⟦<SC as StarkStages<A>>⟧.is_committed instance.now domains committed.now }
    requires seeded { ⟦<SC as StarkStages<A>>⟧.is_seeded instance.now domains.degree_bits
        transcript.old }
    ensures same_reference { transcript.new.challenger.ghost_name
        ≡ transcript.old.challenger.ghost_name }
    ensures shape { transcript.new.shape ≡ transcript.old.shape }
    ensures phase { IfOk result (λ _. transcript.new.phase ≡ Bound) }
    ensures bound { IfOk result (λ bound. ⟦<SC as StarkStages<A>>⟧.is_bound instance.now
        domains.degree_bits committed.now bound transcript.new.challenger.now) }
    ensures fault { IfErr result (⟦<SC as StarkStages<A>>⟧.is_fault_of instance.now
        domains.degree_bits committed.now) }
{
    let preprocessed = commitment_of(instance.preprocessed);
    let message = BeforeAlpha {
        trace: &committed.commitment,
        preprocessed,
        public_values: instance.public_values,
    };
    // Alpha. Bound before it are both traces and the public values: so the values of the n
    // constraints are fixed. In a row where one isn't zero, their sum by the powers of alpha is a
    // polynomial in alpha that isn't zero, of degree n - 1 at most: at most n - 1 alphas are bad.
    // The work before the draw is paid anew for each alpha that is tried.
    let (alpha, witness) = draw_alpha(transcript, &message)?;
    let quotient = A::commit_quotient(alloc, instance, domains, committed, alpha)?;
    // The randomization is committed to before zeta too: a mask chosen after the draw could undo
    // what is opened there.
    let random = commit_random(alloc, instance.config, domains)?;
    Ok(BoundProof {
        alpha,
        witness,
        quotient,
        random,
    })
}

/// The commitment, where there is one.
fn commitment_in<K: Drop, T: Drop>(random: Option<Committed<K, T>>) -> Option<K>
    ensures { result ≡ option_map (λ made. made.commitment) random }
{
    match random {
        Some(
            Committed {
                commitment,
                prover_data: _,
            },
        ) => Some(commitment),
        None => None,
    }
}

/// The proof, of its parts.
fn proof_of<K: Drop, T: Drop, EF: Drop, F: Drop, P: Drop>(
    committed: Committed<K, T>,
    bound: BoundProof<K, T, EF, F>,
    opened: OpenedProof<EF, F, P>,
    degree_bits: usize,
) -> Proof<K, EF, P, F>
    ensures { proof_view result ≡ view_of_parts committed bound opened degree_bits }
{
    let Committed {
        commitment: trace,
        prover_data: _,
    } = committed;
    let BoundProof {
        alpha: _,
        witness: alpha_witness,
        quotient,
        random,
    } = bound;
    let Committed {
        commitment: quotient_chunks,
        prover_data: _,
    } = quotient;
    let random = commitment_in(random);
    let OpenedProof {
        witness,
        values,
        argument,
    } = opened;
    Proof {
        commitments: Commitments {
            trace,
            quotient_chunks,
            random,
        },
        opened_values: values,
        opening_proof: argument,
        degree_bits,
        ood_pow_witness: witness,
        alpha_pow_witness: alpha_witness,
    }
}
