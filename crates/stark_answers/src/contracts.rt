//! What is answered with an AIR's own preprocessed columns.

ghost use Rattle.std.specs.Prelude.{◌≡◌, ◌*◌, ◌^◌, ℕ, List, Result, length, option_map};
ghost use Rattle.stark_support.specs.declared.matrix.RowMajorMatrix.{RowMajorMatrix};
ghost use Rattle.stark_completeness.specs.RowCheck.{trace_of};
ghost use Rattle.stark_transcript.specs.declared.error.ProvingError.{ProvingError};
ghost use Rattle.stark_transcript.specs.declared.error.VerificationError.{VerificationError};
ghost use Rattle.stark_proof.specs.ProofView.{proof_view};
ghost use Rattle.stark_proof.specs.declared.values.Proof.{Proof};
ghost use Rattle.stark_prover.specs.ProofOfTrace.{key_of};
ghost use Rattle.stark_answers.specs.Completeness.{IsComplete};
ghost use Rattle.stark_answers.specs.Prove.{AnswersWithData};
ghost use Rattle.stark_answers.specs.Verify.{IsAnswerWithKey};

use p3_uni_stark::{StarkInstance, StarkOperations};
use stark_air::Air;
use stark_parts::{StarkGenericConfig, Val};
use stark_support::{ExtensionField, GrindingChallenger};

/// What is answered with an AIR's own preprocessed columns of `2^log_rows` rows, set up at once: by
/// a prover of a trace, at each height that it has, and by a verifier of a proof.
pub trait AnswersWithColumns<A>: StarkGenericConfig {
    ghost Proof: { Type 0 };

    ghost proves: { ℕ → Self → A → RowMajorMatrix Self.Pcs.Domain.Val → List Self.Pcs.Domain.Val
        → Result Proof (ProvingError Self.Pcs.ProverError) → Type 0 };

    /// With a key of the AIR's the proof that a prover answers of a trace is accepted, where a
    /// check finds that the trace satisfies the AIR, unless zeta lies in the trace's domain or the
    /// constraints' degrees don't fit the quotient's.
    ghost completes: { ℕ → Self → A → RowMajorMatrix Self.Pcs.Domain.Val
        → List Self.Pcs.Domain.Val → Result Proof (ProvingError Self.Pcs.ProverError) → Type 0 };

    ghost verifies: { ℕ → Self → A → Proof → List Self.Pcs.Domain.Val
        → Result (Unit {0}) (VerificationError Self.Pcs.Error) → Type 0 };
}

impl<SC, A> AnswersWithColumns<A> for SC
where
    SC: StarkGenericConfig,
    SC::Challenger: GrindingChallenger<Witness = Val<SC>>,
    A: Air<Val<SC>>,
{
    ghost Proof = { Proof SC.Pcs.Commitment SC.Challenge SC.Pcs.Proof SC.Pcs.Domain.Val };

    ghost proves = { λ log_rows config air trace public_values answer. (height : ℕ)
        → length trace.values.items ≡ 2 ^ height * trace.width
        → AnswersWithData ⟦<SC as StarkOperations>⟧.operations SC.Challenge.coordinates log_rows
        (SC.config.scheme config) (A.preprocessed_trace air) (λ preprocessed_data.
        ⟦<SC as StarkInstance<A>>⟧.instance config air public_values
        (option_map key_of preprocessed_data)) height (trace_of trace) answer };

    ghost completes = { λ log_rows config air trace public_values. IsComplete
        ⟦<SC as StarkOperations>⟧.operations log_rows (SC.config.scheme config)
        (A.preprocessed_trace air) (⟦<SC as StarkInstance<A>>⟧.instance config air public_values)
        (trace_of trace) };

    ghost verifies = { λ log_rows config air proof public_values answer.
        IsAnswerWithKey ⟦<SC as StarkOperations>⟧.operations log_rows (SC.config.scheme config)
        (A.preprocessed_trace air) (⟦<SC as StarkInstance<A>>⟧.instance config air public_values)
        (proof_view proof) answer };
}
