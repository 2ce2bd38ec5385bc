//! Proofs that are made of a trace, and the verifier's verdict on them, over any configuration.
ghost use Rattle.std.specs.Prelude.{◌≡◌, ◌+◌, ◌*◌, ◌^◌, ◌≤◌, ◌<◌, ℕ, List, Result, IfOk, length};
ghost use Rattle.stark_support.specs.Scheme.{zk_bits};
ghost use Rattle.stark_support.specs.declared.matrix.RowMajorMatrix.{RowMajorMatrix};
ghost use Rattle.stark_completeness.specs.RowCheck.{trace_of};
ghost use Rattle.stark_proof.specs.ProofView.{proof_view};
ghost use Rattle.stark_proof.specs.declared.values.Proof.{Proof};
ghost use Rattle.stark_protocol.specs.Preprocessing.{HasHeight};
ghost use Rattle.stark_transcript.specs.declared.error.VerificationError.{VerificationError};
ghost use Rattle.stark_test_proofs.specs.MadeProofs.{IsJudged};

use p3_uni_stark::{
    PreprocessedProverData, PreprocessedVerifierKey, StarkInstance, StarkOperations, VerifiedProof,
    prove_and_verify, setup_preprocessed,
};
use stark_air::Air;
use stark_parts::{Com, PcsProverError, StarkGenericConfig, Val};
use stark_protocol::PcsProverData;
use stark_support::{
    GrindingChallenger, PackedExtensionField, PackedField, RowMajorMatrix, UnivariateStarkPcs,
};
use stark_transcript::ProvingError;
use std::alloc::Global;

/// What is said of a proof of a trace of `2^log_height` rows and of the verifier's verdict on it,
/// made with a configuration, for an AIR, of public values. It has no code.
pub trait JudgedProofs<A>: StarkGenericConfig {
    ghost Verified: { Type 0 };

    ghost judged: { Self → A → List Self.Pcs.Domain.Val → ℕ
        → RowMajorMatrix Self.Pcs.Domain.Val → Verified → Type 0 };
}

impl<SC: StarkGenericConfig, A: Air<Val<SC>>> JudgedProofs<A> for SC
where
    SC::Challenger: GrindingChallenger<Witness = Val<SC>>,
{
    ghost Verified = { Proof SC.Pcs.Commitment SC.Challenge SC.Pcs.Proof SC.Pcs.Domain.Val
        × Result (Unit {0}) (VerificationError SC.Pcs.Error) };

    ghost judged = { λ config air public_values log_height trace made.
        IsJudged ⟦<SC as StarkOperations>⟧.operations
        (⟦<SC as StarkInstance<A>>⟧.instance config air public_values) (A.preprocessed_trace air)
        log_height (trace_of trace) (proof_view made.0) made.1 };
}

/// The proof of a trace of `2^log_height` rows and the verifier's verdict on it, with what is set
/// up at that height. Over a scheme that refuses no true opening, from its least height on, the
/// proof of a trace that satisfies the AIR, whose degrees fit the quotient's domain, is refused for
/// want of memory alone, unless the zeta that was drawn lies in H.
pub fn made_by<'p, SC: StarkGenericConfig, A: Air<Val<SC>>>(
    alloc: Global,
    config: &'p SC,
    air: &A,
    log_height: usize,
    trace: RowMajorMatrix<Val<SC>>,
    public_values: &[Val<SC>],
) -> Result<VerifiedProof<SC>, ProvingError<PcsProverError<SC>>>
where
    Val<SC>: PackedField,
    SC::Challenge: PackedExtensionField<Val<SC>>,
    SC::Challenger: GrindingChallenger<Witness = Val<SC>>,
    requires set_up { HasHeight log_height (A.preprocessed_trace air.now) }
    requires columns { 0 < trace.width }
    requires width { trace.width ≡ (A.layout air.now).main }
    requires height { length trace.values.items ≡ 2 ^ log_height * trace.width }
    requires within { log_height + zk_bits SC.Pcs.ZK ≤ SC.Pcs.scheme.log_max_trace_height
        (SC.config.scheme config.now) }
    requires public_values { length public_values.now ≡ (A.layout air.now).public_values }
    ensures { IfOk result (⟦<SC as JudgedProofs<A>>⟧.judged config.now air.now public_values.now
        log_height trace) }
{
    let keys = setup_preprocessed(alloc, config, air, log_height)?;
    match keys {
        Some((data, key)) => {
            prove_and_verify(
                alloc,
                config,
                air,
                trace,
                public_values,
                Some(&data),
                Some(&key),
            )
        }
        None => {
            let data: Option<&'p PreprocessedProverData<Com<SC>, PcsProverData<SC>>> = None;
            let key: Option<&'p PreprocessedVerifierKey<Com<SC>>> = None;
            prove_and_verify(alloc, config, air, trace, public_values, data, key)
        }
    }
}
