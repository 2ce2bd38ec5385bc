//! A proof of a trace, and the verifier's answer for it.
ghost use Rattle.std.specs.Borrow.{Bor};
ghost use Rattle.std.specs.Option.{option_copied};
ghost use Rattle.std.specs.Prelude.{◌≡◌, ℕ, List, Option, Result, IfErr, IfOk, OnOk};
ghost use Rattle.stark_support.specs.declared.matrix.RowMajorMatrix.{RowMajorMatrix};
ghost use Rattle.stark_completeness.specs.RowCheck.{trace_of};
ghost use Rattle.stark_proof.specs.ProofView.{proof_view};
ghost use Rattle.stark_proof.specs.declared.values.Proof.{Proof};
ghost use Rattle.stark_protocol.specs.FirstFault.{IsOutOfMemoryOr};
ghost use Rattle.stark_protocol.specs.declared.preprocessed.PreprocessedProverData.{PreprocessedProverData};
ghost use Rattle.stark_protocol.specs.declared.preprocessed.PreprocessedVerifierKey.{PreprocessedVerifierKey};
ghost use Rattle.stark_prover.specs.Conditions.{FitsAir};
ghost use Rattle.stark_prover.specs.Heights.{FitsSchemeBeside};
ghost use Rattle.stark_prover.specs.Completeness.{HasSizedDegrees};
ghost use Rattle.stark_prover.specs.ProverView.{instance_of};
ghost use Rattle.stark_transcript.specs.declared.error.VerificationError.{VerificationError};
ghost use Rattle.p3_uni_stark.specs.Completeness.{IsOfSatisfyingTrace, IsProvable};

use stark_air::Air;
use stark_parts::{Com, PcsError, PcsProverError, StarkGenericConfig, Val};
use stark_protocol::{
    PcsProverData, PreprocessedProverData, PreprocessedVerifierKey, StarkInstance, StarkOperations,
    StarkProof,
};
use stark_prover::{StarkProving, prove_with_preprocessed};
use stark_support::{
    GrindingChallenger, PackedExtensionField, PackedField, Pcs, RowMajorMatrix, UnivariateStarkPcs,
};
use stark_transcript::{ProvingError, VerificationError};
use stark_verifier::{StarkVerdict, verify_with_preprocessed};
use std::alloc::Global;

/// What is said of a proof and the verifier's verdict on it, made with a configuration, for an AIR,
/// of public values: a proof that is called right is accepted, with a key; an error names the first
/// fault; and an honest proof of a trace is refused for want of memory alone, with a key and what a
/// prover holds of the preprocessed columns. Beside it, that an AIR's degrees fit the quotient's
/// domain, whatever the height.
pub trait StarkCompleteness<A>: StarkGenericConfig {
    ghost PreprocessedData: { Type 0 };

    ghost Key: { Type 0 };

    ghost Verified: { Type 0 };

    ghost accepted: { Self → A → List Self.Pcs.Domain.Val → Option Key → Verified → Type 0 };

    ghost refused: { Self → A → List Self.Pcs.Domain.Val → Option Key → Verified → Type 0 };

    ghost complete: { Self → A → List Self.Pcs.Domain.Val → Option PreprocessedData → Option Key
        → RowMajorMatrix Self.Pcs.Domain.Val → Verified → Type 0 };

    ghost has_sized_degrees: { Self → A → Type 0 };
}

impl<SC: StarkGenericConfig, A: Air<Val<SC>>> StarkCompleteness<A> for SC
where
    SC::Challenger: GrindingChallenger<Witness = Val<SC>>,
{
    ghost PreprocessedData = { Bor (PreprocessedProverData SC.Pcs.Commitment SC.Pcs.ProverData) };

    ghost Key = { Bor (PreprocessedVerifierKey SC.Pcs.Commitment) };

    ghost Verified = { Proof SC.Pcs.Commitment SC.Challenge SC.Pcs.Proof SC.Pcs.Domain.Val
        × Result (Unit {0}) (VerificationError SC.Pcs.Error) };

    ghost accepted = { λ config air public_values key made.
        OnOk made.1 (⟦<SC as StarkVerdict<A>>⟧.accepted config air made.0 public_values
        (option_copied key)) };

    ghost refused = { λ config air public_values key made.
        IfErr made.1 (IsOutOfMemoryOr (⟦<SC as StarkVerdict<A>>⟧.first_fault config air made.0
        public_values (option_copied key))) };

    ghost complete = { λ config air public_values preprocessed_data key trace made. (height : ℕ)
        → IsProvable SC.Pcs.scheme (SC.config.scheme config) (trace_of trace) height
        → IsOfSatisfyingTrace ⟦<SC as StarkOperations>⟧.operations
        (⟦<SC as StarkInstance<A>>⟧.instance config air public_values (option_copied key))
        (A.preprocessed_trace air) (option_copied preprocessed_data) height (trace_of trace)
        (proof_view made.0)
        → IfErr made.1 (λ error. error ≡ VerificationError.OutOfMemory) };

    ghost has_sized_degrees = { λ config air. (public_values : List SC.Pcs.Domain.Val)
        (key : Option (PreprocessedVerifierKey SC.Pcs.Commitment)) (height : ℕ)
        → HasSizedDegrees ⟦<SC as StarkOperations>⟧.operations
        (⟦<SC as StarkInstance<A>>⟧.instance config air public_values key) height };
}

/// A proof, and the verifier's verdict on it.
pub type VerifiedProof<SC> = (StarkProof<SC>, Result<(), VerificationError<PcsError<SC>>>);

/// `prove_with_preprocessed`, and then `verify_with_preprocessed` of the proof that it made: the
/// proof and the verifier's verdict on it, with the conditions and the errors of both. An honest
/// proof is refused for want of memory alone: over a scheme that refuses no true opening, from its
/// least height on, where what the prover holds and the verifier's key are the two parts of one
/// set-up (there is neither for an AIR without preprocessed columns), the trace satisfies the AIR,
/// the constraints' degrees fit the quotient's domain, and the point that was drawn lies outside
/// the trace's domain.
pub fn prove_and_verify<SC: StarkGenericConfig, A: Air<Val<SC>>>(
    alloc: Global,
    config: &SC,
    air: &A,
    trace: RowMajorMatrix<Val<SC>>,
    public_values: &[Val<SC>],
    preprocessed: Option<&PreprocessedProverData<Com<SC>, PcsProverData<SC>>>,
    key: Option<&PreprocessedVerifierKey<Com<SC>>>,
) -> Result<VerifiedProof<SC>, ProvingError<PcsProverError<SC>>>
where
    Val<SC>: PackedField,
    SC::Challenge: PackedExtensionField<Val<SC>>,
    SC::Challenger: GrindingChallenger<Witness = Val<SC>>,
    requires height { FitsSchemeBeside SC.Pcs.scheme (SC.config.scheme config.now) SC.Pcs.ZK
        (option_copied preprocessed) trace }
    requires fits { FitsAir SC.Pcs.scheme (SC.config.scheme config.now) SC.Pcs.Domain.Val.ring
        (A.layout air.now) preprocessed trace public_values.now }
    ensures made { IfOk result (λ p. ⟦<SC as StarkProving<A>>⟧.is_proof
        (instance_of config.entry air.entry public_values.entry preprocessed.entry) trace p.0) }
    ensures accepted { IfOk result (⟦<SC as StarkCompleteness<A>>⟧.accepted config.now air.now
        public_values.now key.entry) }
    ensures refused { IfOk result (⟦<SC as StarkCompleteness<A>>⟧.refused config.now air.now
        public_values.now key.entry) }
    ensures complete { IfOk result (⟦<SC as StarkCompleteness<A>>⟧.complete config.now air.now
        public_values.now preprocessed.entry key.entry trace) }
    ensures fault { IfErr result (⟦<SC as StarkProving<A>>⟧.fault
        (instance_of config.entry air.entry public_values.entry preprocessed.entry) trace) }
{
    let proof = prove_with_preprocessed(alloc, config, air, trace, public_values, preprocessed)?;
    let verdict = verify_with_preprocessed(alloc, config, air, &proof, public_values, key);
    Ok((proof, verdict))
}
