//! An honest proof that is accepted, with nothing to assume of its trace.
ghost use Rattle.std.specs.Prelude.{◌≡◌, ◌+◌, ◌≤◌, ℕ, [], ◌∷◌, None, Result, IfErr, IfOk};
ghost use Rattle.stark_support.specs.Scheme.{zk_bits};
ghost use Rattle.stark_proof.specs.ProofView.{proof_view};
ghost use Rattle.stark_proof.specs.declared.values.Proof.{Proof};
ghost use Rattle.stark_transcript.specs.declared.error.VerificationError.{VerificationError};
ghost use Rattle.stark_test_proofs.specs.MadeProofs.{IsDrawnOutside};
ghost use Rattle.guide_tests.specs.Counting.{counted_from};

use p3_uni_stark::{
    Com, PcsProverError, PreprocessedProverData, PreprocessedVerifierKey, ProvingError,
    StarkGenericConfig, StarkInstance, StarkOperations, Val, VerifiedProof, prove_and_verify,
};
use stark_protocol::{PcsProverData, power_of_two};
use stark_samples::CounterAir;
use stark_support::{
    Element, Field, GrindingChallenger, PackedExtensionField, PackedField, Pcs, PolynomialSpace,
    RowMajorMatrix, TwoAdicField, UnivariateStarkPcs,
};
use std::alloc::{AllocError, Global};

/// The numbers `start`, `start + 1`, .., as many as are asked for.
fn numbers_from<F: Field>(alloc: Global, start: F, count: usize) -> Result<Vec<F>, AllocError>
    ensures { IfOk result (λ numbers. numbers.items ≡ counted_from F.ring start 0 count) }
{
    let mut numbers = Vec::new(alloc);
    let mut number = start;
    for _index in 0..count {
        numbers.push(number)?;
        number = number + F::ONE;
    }
    Ok(numbers)
}

/// What is said of the proof of a column that counts from a number on, and of the verifier's
/// verdict on it. It has no code.
pub trait CountedProofs: StarkGenericConfig {
    ghost Verified: { Type 0 };

    /// Over a scheme that refuses no true opening, from its least height on, it is refused for want
    /// of memory alone, unless the zeta that was drawn lies in H.
    ghost accepted: { Self → Self.Pcs.Domain.Val → ℕ → Verified → Type 0 };
}

impl<SC: StarkGenericConfig> CountedProofs for SC
where
    SC::Challenger: GrindingChallenger<Witness = Val<SC>>,
{
    ghost Verified = { Proof SC.Pcs.Commitment SC.Challenge SC.Pcs.Proof SC.Pcs.Domain.Val
        × Result (Unit {0}) (VerificationError SC.Pcs.Error) };

    ghost accepted = { λ config start log_height made.
        SC.Pcs.scheme.log_min_trace_height (SC.config.scheme config) ≤ log_height
        → SC.Pcs.scheme.IsComplete (SC.config.scheme config)
        → IsDrawnOutside ⟦<SC as StarkOperations>⟧.operations
        (⟦<SC as StarkInstance<CounterAir>>⟧.instance config (record {}) (start ∷ []) None)
        (proof_view made.0)
        → IfErr made.1 (λ error. error ≡ VerificationError.OutOfMemory) };
}

/// A proof that a column counted from `start` on, through `2^log_height` rows, and the verifier's
/// verdict on it. Over a scheme that refuses no true opening, from its least height on, the proof
/// is refused for want of memory alone, unless the zeta that was drawn lies in H. Nothing is asked
/// of the trace, whose rows satisfy the AIR, nor of degrees.
pub fn count<'p, SC: StarkGenericConfig>(
    alloc: Global,
    config: &'p SC,
    start: Val<SC>,
    log_height: usize,
) -> Result<VerifiedProof<SC>, ProvingError<PcsProverError<SC>>>
where
    Val<SC>: PackedField,
    SC::Challenge: PackedExtensionField<Val<SC>>,
    SC::Challenger: GrindingChallenger<Witness = Val<SC>>,
    requires group { log_height ≤ SC.Pcs.Domain.Val.TWO_ADICITY }
    requires within { log_height + zk_bits SC.Pcs.ZK
        ≤ SC.Pcs.scheme.log_max_trace_height (SC.config.scheme config.now) }
    ensures accepted { IfOk result (⟦<SC as CountedProofs>⟧.accepted config.now start log_height) }
{
    let public_values = numbers_from(alloc, start, 1)?;
    let numbers = numbers_from(alloc, start, power_of_two(log_height))?;
    let trace = RowMajorMatrix::new_col(numbers);
    let data: Option<&'p PreprocessedProverData<Com<SC>, PcsProverData<SC>>> = None;
    let key: Option<&'p PreprocessedVerifierKey<Com<SC>>> = None;
    prove_and_verify(alloc, config, &CounterAir, trace, &public_values, data, key)
}
