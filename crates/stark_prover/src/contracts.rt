//! What a prover is given, and what its clauses say of it: what each stage leaves to the next, and
//! what it answers.
ghost use Rattle.std.specs.Prelude.{ℕ, List, Option, is_some};
ghost use Rattle.stark_support.specs.declared.matrix.RowMajorMatrix.{RowMajorMatrix};
ghost use Rattle.stark_support.specs.declared.periodic.PeriodicColumnShapeError.{PeriodicColumnShapeError};
ghost use Rattle.stark_transcript.specs.declared.error.InvalidProofShapeError.{InvalidProofShapeError};
ghost use Rattle.stark_transcript.specs.declared.error.ProvingError.{ProvingError};
ghost use Rattle.stark_transcript.specs.declared.shape.StarkShape.{StarkShape};
ghost use Rattle.stark_transcript.specs.declared.transcript.prover.StarkProverTranscript.{StarkProverTranscript};
ghost use Rattle.stark_proof.specs.declared.values.Proof.{Proof};
ghost use Rattle.stark_prover.specs.CommittedProving.{CommittedCompleteness, IsAcceptableOfCommitted, IsCommitmentToSome, IsFaultOfCommitted, IsProofOfCommitted};
ghost use Rattle.stark_prover.specs.ProverView.{ProverView, prover_view};
ghost use Rattle.stark_prover.specs.Proving.{Completeness, IsAcceptableProof, IsFaultAt, IsFaultOf, IsProofAt, IsProofOf, IsProofWith};
ghost use Rattle.stark_prover.specs.Stages.{AreDomainsOf, ArePreprocessedRows, AreQuotients, AreTraceRows, HasColumns, HasPreprocessedColumns, IsBound, IsCommitted, IsDomainFault, IsFault, IsFaultBehindColumns, IsOpened, IsProof, IsQuotientOf, IsRefusalOf, IsSeeded, columns_fault_at, described_at, domain_fault_at};
ghost use Rattle.stark_prover.specs.declared.commit.Committed.{Committed};
ghost use Rattle.stark_prover.specs.declared.committed.CommittedTrace.{CommittedTrace};
ghost use Rattle.stark_prover.specs.declared.contracts.ProverInputs.{ProverInputs};
ghost use Rattle.stark_prover.specs.declared.domains.ProverDomains.{ProverDomains};
ghost use Rattle.stark_prover.specs.declared.open.OpenedProof.{OpenedProof};
ghost use Rattle.stark_prover.specs.declared.prover.BoundProof.{BoundProof};

use stark_air::Air;
use stark_parts::{Com, StarkGenericConfig, Val};
use stark_protocol::{PcsProverData, PreprocessedProverData, StarkInstance, StarkOperations};
use stark_support::GrindingChallenger;

/// What a proof is made of: a configuration, an AIR with its public values, and what the prover
/// holds of the AIR's preprocessed columns.
#[derive(Drop)]
pub(crate) struct ProverInputs<'p, SC, A, F, K, T> {
    pub config: &'p SC,
    pub air: &'p A,
    pub public_values: &'p [F],
    pub preprocessed: Option<&'p PreprocessedProverData<K, T>>,
}

/// A prover's inputs, of a configuration's types.
pub(crate) type ProverInstance<'p, SC, A> = ProverInputs<
    'p,
    SC,
    A,
    Val<SC>,
    Com<SC>,
    PcsProverData<SC>,
>;

/// A prover's inputs, as definitions take them.
pub trait StarkProverView<A>: StarkGenericConfig {
    ghost Instance: { Type 0 };

    ghost view: { Instance → ProverView Self.Pcs Self.Pcs.Domain.Val Self.Challenge Self.Challenger
        Self.Pcs.Commitment Self.Pcs.ProverData };
}

impl<SC: StarkGenericConfig, A: Air<Val<SC>>> StarkProverView<A> for SC {
    ghost Instance = { ProverInputs SC A SC.Pcs.Domain.Val SC.Pcs.Commitment SC.Pcs.ProverData };

    ghost view = { λ i. prover_view SC.Challenge.coordinates (⟦<SC as StarkInstance<A>>⟧.instance
        i.config.now i.air.now i.public_values.now) i.preprocessed };
}

/// What a prover answers for a trace, of its inputs: a proof, with the preprocessed columns that it
/// stands for; a proof that lacks nothing but the trace's own truth, and one that is accepted where
/// the trace is true; or the cause of none.
pub trait StarkProving<A>: StarkGenericConfig {
    ghost Instance: { Type 0 };

    ghost Trace: { Type 0 };

    ghost Proof: { Type 0 };

    ghost is_proof: { Instance → Trace → Proof → Type 0 };

    ghost is_proof_with: { Instance → List (List Self.Pcs.Domain.Val) → Trace → Proof → Type 0 };

    ghost is_acceptable: { Instance → Trace → Proof → Type 0 };

    ghost completeness: { Instance → Trace → Proof → Type 0 };

    ghost fault: { Instance → Trace → ProvingError Self.Pcs.ProverError → Type 0 };
}

impl<SC: StarkGenericConfig, A: Air<Val<SC>>> StarkProving<A> for SC
where
    SC::Challenger: GrindingChallenger<Witness = Val<SC>>,
{
    ghost Instance = { ProverInputs SC A SC.Pcs.Domain.Val SC.Pcs.Commitment SC.Pcs.ProverData };

    ghost Trace = { RowMajorMatrix SC.Pcs.Domain.Val };

    ghost Proof = { Proof SC.Pcs.Commitment SC.Challenge SC.Pcs.Proof SC.Pcs.Domain.Val };

    ghost is_proof = { λ i. IsProofOf ⟦<SC as StarkOperations>⟧.operations
        (⟦<SC as StarkProverView<A>>⟧.view i) };

    ghost is_proof_with = { λ i. IsProofWith ⟦<SC as StarkOperations>⟧.operations
        (⟦<SC as StarkProverView<A>>⟧.view i) };

    ghost is_acceptable = { λ i. IsAcceptableProof ⟦<SC as StarkOperations>⟧.operations
        (⟦<SC as StarkProverView<A>>⟧.view i) };

    ghost completeness = { λ i. Completeness ⟦<SC as StarkOperations>⟧.operations
        (⟦<SC as StarkProverView<A>>⟧.view i) (A.preprocessed_trace i.air.now) };

    ghost fault = { λ i. IsFaultOf ⟦<SC as StarkOperations>⟧.operations
        (⟦<SC as StarkProverView<A>>⟧.view i) };
}

/// What a prover answers, of its inputs, for a trace of a known height.
pub trait StarkSizedProving<A>: StarkGenericConfig {
    ghost Instance: { Type 0 };

    ghost Trace: { Type 0 };

    ghost Proof: { Type 0 };

    ghost is_proof_at: { Instance → ℕ → Trace → Proof → Type 0 };

    ghost fault_at: { Instance → ℕ → Trace → ProvingError Self.Pcs.ProverError → Type 0 };
}

impl<SC: StarkGenericConfig, A: Air<Val<SC>>> StarkSizedProving<A> for SC
where
    SC::Challenger: GrindingChallenger<Witness = Val<SC>>,
{
    ghost Instance = { ProverInputs SC A SC.Pcs.Domain.Val SC.Pcs.Commitment SC.Pcs.ProverData };

    ghost Trace = { RowMajorMatrix SC.Pcs.Domain.Val };

    ghost Proof = { Proof SC.Pcs.Commitment SC.Challenge SC.Pcs.Proof SC.Pcs.Domain.Val };

    ghost is_proof_at = { λ i. IsProofAt ⟦<SC as StarkOperations>⟧.operations
        (⟦<SC as StarkProverView<A>>⟧.view i) };

    ghost fault_at = { λ i. IsFaultAt ⟦<SC as StarkOperations>⟧.operations
        (⟦<SC as StarkProverView<A>>⟧.view i) };
}

/// What a prover answers, of its inputs, for a trace that is committed to already: the same of
/// whatever trace the commitment is to.
pub trait StarkCommitted<A>: StarkGenericConfig {
    ghost Instance: { Type 0 };

    ghost Committed: { Type 0 };

    ghost Proof: { Type 0 };

    ghost is_committed: { Instance → Committed → Type 0 };

    ghost is_proof: { Instance → Committed → Proof → Type 0 };

    ghost is_acceptable: { Instance → Committed → Proof → Type 0 };

    ghost completeness: { Instance → Committed → Proof → Type 0 };

    ghost fault: { Instance → Committed → ProvingError Self.Pcs.ProverError → Type 0 };
}

impl<SC: StarkGenericConfig, A: Air<Val<SC>>> StarkCommitted<A> for SC
where
    SC::Challenger: GrindingChallenger<Witness = Val<SC>>,
{
    ghost Instance = { ProverInputs SC A SC.Pcs.Domain.Val SC.Pcs.Commitment SC.Pcs.ProverData };

    ghost Committed = { CommittedTrace SC.Pcs.Commitment SC.Pcs.ProverData };

    ghost Proof = { Proof SC.Pcs.Commitment SC.Challenge SC.Pcs.Proof SC.Pcs.Domain.Val };

    ghost is_committed = { λ i. IsCommitmentToSome ⟦<SC as StarkOperations>⟧.operations
        (⟦<SC as StarkProverView<A>>⟧.view i) };

    ghost is_proof = { λ i. IsProofOfCommitted ⟦<SC as StarkOperations>⟧.operations
        (⟦<SC as StarkProverView<A>>⟧.view i) };

    ghost is_acceptable = { λ i. IsAcceptableOfCommitted ⟦<SC as StarkOperations>⟧.operations
        (⟦<SC as StarkProverView<A>>⟧.view i) };

    ghost completeness = { λ i. CommittedCompleteness ⟦<SC as StarkOperations>⟧.operations
        (⟦<SC as StarkProverView<A>>⟧.view i) (A.preprocessed_trace i.air.now) };

    ghost fault = { λ i. IsFaultOfCommitted ⟦<SC as StarkOperations>⟧.operations
        (⟦<SC as StarkProverView<A>>⟧.view i) };
}

/// What the sizes of a proof are, of a prover's inputs, and what is wrong with them.
pub trait StarkSizes<A>: StarkGenericConfig {
    ghost Instance: { Type 0 };

    ghost columns_fault: { Instance → ℕ → Option PeriodicColumnShapeError };

    ghost domain_fault: { Instance → ℕ → Option InvalidProofShapeError };

    ghost is_domain_fault: { Instance → ℕ → ProvingError Self.Pcs.ProverError → Type 0 };

    ghost is_fault_behind_columns: { Instance → ℕ → ProvingError Self.Pcs.ProverError → Type 0 };

    ghost are_domains: { Instance → ProverDomains Self.Pcs.Domain → Type 0 };
}

impl<SC: StarkGenericConfig, A: Air<Val<SC>>> StarkSizes<A> for SC
where
    SC::Challenger: GrindingChallenger<Witness = Val<SC>>,
{
    ghost Instance = { ProverInputs SC A SC.Pcs.Domain.Val SC.Pcs.Commitment SC.Pcs.ProverData };

    ghost columns_fault = { λ i. columns_fault_at ⟦<SC as StarkOperations>⟧.operations
        (⟦<SC as StarkProverView<A>>⟧.view i) };

    ghost domain_fault = { λ i. domain_fault_at ⟦<SC as StarkOperations>⟧.operations
        (⟦<SC as StarkProverView<A>>⟧.view i) };

    ghost is_domain_fault = { λ i. IsDomainFault ⟦<SC as StarkOperations>⟧.operations
        (⟦<SC as StarkProverView<A>>⟧.view i) };

    ghost is_fault_behind_columns = { λ i. IsFaultBehindColumns ⟦<SC as StarkOperations>⟧.operations
        (⟦<SC as StarkProverView<A>>⟧.view i) };

    ghost are_domains = { λ i. AreDomainsOf ⟦<SC as StarkOperations>⟧.operations
        (⟦<SC as StarkProverView<A>>⟧.view i) SC.Pcs.Domain.coset_of };
}

/// Of a prover's inputs: for which columns its data stand, what their rows are on a domain, and
/// what the quotient's values are.
pub trait StarkRows<A>: StarkGenericConfig {
    ghost Instance: { Type 0 };

    ghost Trace: { Type 0 };

    ghost has_columns: { Instance → ℕ → Self.Pcs.ProverData → Type 0 };

    ghost has_preprocessed_columns: { Instance → Type 0 };

    ghost are_trace_rows: { Instance → Self.Pcs.Domain → Self.Pcs.ProverData → Trace → Type 0 };

    ghost are_preprocessed_rows: { Instance → Self.Pcs.Domain → Option Trace → Type 0 };

    ghost are_quotients: { Instance → ProverDomains Self.Pcs.Domain → Self.Pcs.ProverData
        → Self.Challenge → List Self.Challenge → Type 0 };
}

impl<SC: StarkGenericConfig, A: Air<Val<SC>>> StarkRows<A> for SC
where
    SC::Challenger: GrindingChallenger<Witness = Val<SC>>,
{
    ghost Instance = { ProverInputs SC A SC.Pcs.Domain.Val SC.Pcs.Commitment SC.Pcs.ProverData };

    ghost Trace = { RowMajorMatrix SC.Pcs.Domain.Val };

    ghost has_columns = { λ i. HasColumns ⟦<SC as StarkOperations>⟧.operations
        (⟦<SC as StarkProverView<A>>⟧.view i) };

    ghost has_preprocessed_columns = { λ i. HasPreprocessedColumns
        ⟦<SC as StarkOperations>⟧.operations (⟦<SC as StarkProverView<A>>⟧.view i) };

    ghost are_trace_rows = { λ i. AreTraceRows ⟦<SC as StarkOperations>⟧.operations
        (⟦<SC as StarkProverView<A>>⟧.view i) SC.Pcs.Domain.coset_of };

    ghost are_preprocessed_rows = { λ i. ArePreprocessedRows ⟦<SC as StarkOperations>⟧.operations
        (⟦<SC as StarkProverView<A>>⟧.view i) SC.Pcs.Domain.coset_of };

    ghost are_quotients = { λ i. AreQuotients ⟦<SC as StarkOperations>⟧.operations
        (⟦<SC as StarkProverView<A>>⟧.view i) SC.Pcs.Domain.coset_of };
}

/// What the stages of a prover leave, of its inputs: how the transcript begins; that a trace is
/// committed to; and of whatever trace a commitment stands for, its quotient, what is bound of its
/// proof, what is opened, its proof, and why there is none.
pub trait StarkStages<A>: StarkGenericConfig {
    ghost Instance: { Type 0 };

    ghost Committed: { Type 0 };

    ghost Bound: { Type 0 };

    ghost Proof: { Type 0 };

    ghost described: { Instance → ℕ → StarkShape };

    ghost is_seeded: { Instance → ℕ
        → StarkProverTranscript Self.Challenger Self.Pcs.Domain.Val Self.Challenge → Type 0 };

    ghost is_committed: { Instance → ProverDomains Self.Pcs.Domain → Committed → Type 0 };

    ghost is_quotient_of: { Instance → ℕ → Committed → Self.Challenge → Committed → Type 0 };

    ghost is_refusal_of: { Instance → ℕ → Committed → Self.Challenge
        → ProvingError Self.Pcs.ProverError → Type 0 };

    ghost is_bound: { Instance → ℕ → Committed → Bound → Self.Challenger → Type 0 };

    ghost is_opened: { Instance → ℕ → Committed → Bound
        → OpenedProof Self.Challenge Self.Pcs.Domain.Val Self.Pcs.Proof → Type 0 };

    ghost is_proof_of: { Instance → ℕ → Committed → Proof → Type 0 };

    ghost is_fault_of: { Instance → ℕ → Committed → ProvingError Self.Pcs.ProverError → Type 0 };
}

impl<SC: StarkGenericConfig, A: Air<Val<SC>>> StarkStages<A> for SC
where
    SC::Challenger: GrindingChallenger<Witness = Val<SC>>,
{
    ghost Instance = { ProverInputs SC A SC.Pcs.Domain.Val SC.Pcs.Commitment SC.Pcs.ProverData };

    ghost Committed = { Committed SC.Pcs.Commitment SC.Pcs.ProverData };

    ghost Bound = { BoundProof SC.Pcs.Commitment SC.Pcs.ProverData SC.Challenge
        SC.Pcs.Domain.Val };

    ghost Proof = { Proof SC.Pcs.Commitment SC.Challenge SC.Pcs.Proof SC.Pcs.Domain.Val };

    ghost described = { λ i. described_at ⟦<SC as StarkOperations>⟧.operations
        (⟦<SC as StarkProverView<A>>⟧.view i) };

    ghost is_seeded = { λ i. IsSeeded ⟦<SC as StarkOperations>⟧.operations
        (⟦<SC as StarkProverView<A>>⟧.view i) (is_some i.preprocessed) };

    ghost is_committed = { λ i. IsCommitted ⟦<SC as StarkOperations>⟧.operations
        (⟦<SC as StarkProverView<A>>⟧.view i) SC.Pcs.Domain.coset_of };

    ghost is_quotient_of = { λ i. IsQuotientOf ⟦<SC as StarkOperations>⟧.operations
        (⟦<SC as StarkProverView<A>>⟧.view i) };

    ghost is_refusal_of = { λ i. IsRefusalOf ⟦<SC as StarkOperations>⟧.operations
        (⟦<SC as StarkProverView<A>>⟧.view i) };

    ghost is_bound = { λ i. IsBound ⟦<SC as StarkOperations>⟧.operations
        (⟦<SC as StarkProverView<A>>⟧.view i) };

    ghost is_opened = { λ i. IsOpened ⟦<SC as StarkOperations>⟧.operations
        (⟦<SC as StarkProverView<A>>⟧.view i) };

    ghost is_proof_of = { λ i. IsProof ⟦<SC as StarkOperations>⟧.operations
        (⟦<SC as StarkProverView<A>>⟧.view i) };

    ghost is_fault_of = { λ i. IsFault ⟦<SC as StarkOperations>⟧.operations
        (⟦<SC as StarkProverView<A>>⟧.view i) };
}
