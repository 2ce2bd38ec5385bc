//! A proof of a trace that was checked first.
ghost use Rattle.std.specs.Borrow.{Bor};
ghost use Rattle.std.specs.Option.{option_copied};
ghost use Rattle.std.specs.Prelude.{◌≡◌, ℕ, List, IfErr, IfOk, None, Option};
ghost use Rattle.stark_support.specs.declared.matrix.RowMajorMatrix.{RowMajorMatrix};
ghost use Rattle.stark_completeness.specs.RowCheck.{trace_of};
ghost use Rattle.stark_parts.specs.SizingLaw.{AreSizable};
ghost use Rattle.stark_proof.specs.ProofView.{proof_view};
ghost use Rattle.stark_proof.specs.declared.values.Proof.{Proof};
ghost use Rattle.stark_protocol.specs.declared.preprocessed.PreprocessedProverData.{PreprocessedProverData};
ghost use Rattle.stark_prover.specs.Conditions.{FitsAir};
ghost use Rattle.stark_prover.specs.Completeness.{HasSizedDegrees};
ghost use Rattle.stark_prover.specs.ProverView.{instance_of};
ghost use Rattle.p3_uni_stark.specs.Checked.{FitsSchemeAsDeclared, IsAcceptedIfSetUp, IsViolationOr, checked_error};
ghost use Rattle.p3_uni_stark.specs.Completeness.{IsProvable};
ghost use Rattle.p3_uni_stark.specs.declared.checked.CheckedProvingError.{CheckedProvingError};

use stark_air::Air;
use stark_completeness::{ConstraintCheckError, ConstraintViolation, RowChecks, check_declared};
use stark_parts::{Com, PcsProverError, StarkGenericConfig, Val};
use stark_protocol::{
    PcsProverData, PreprocessedProverData, StarkInstance, StarkOperations, StarkProof,
};
use stark_prover::{StarkProving, prove_with_preprocessed};
use stark_support::{
    GrindingChallenger, PackedExtensionField, PackedField, Pcs, RowMajorMatrix, UnivariateStarkPcs,
};
use stark_transcript::ProvingError;
use std::alloc::Global;
use thiserror::Error;

/// Why no proof is made of a trace that is checked first; `E` is the error of the commitment
/// scheme.
#[derive(Debug, Drop, Error)]
pub enum CheckedProvingError<F, E> {
    /// A row breaks a constraint: the first such row, and in it the first constraint.
    #[error("a row breaks a constraint")]
    Violation(ConstraintViolation<F>),
    /// The trace satisfies the AIR, or was not checked for want of memory, and the prover makes no
    /// proof.
    #[error("{0}")]
    Proving(ProvingError<E>),
}

impl<F, E> From<ConstraintCheckError<F>> for CheckedProvingError<F, E> {
    ghost use Rattle.p3_uni_stark.specs.Checked.{checked_error};

    ghost from_gives = { λ error outcome. outcome ≡ checked_error error };

    fn from(error: ConstraintCheckError<F>) -> CheckedProvingError<F, E> {
        match error {
            ConstraintCheckError::Violation(violation) => CheckedProvingError::Violation(violation),
            ConstraintCheckError::OutOfMemory => {
                CheckedProvingError::Proving(ProvingError::OutOfMemory)
            }
        }
    }
}

impl<F, E> From<ProvingError<E>> for CheckedProvingError<F, E> {
    ghost use Rattle.p3_uni_stark.specs.declared.checked.CheckedProvingError.{CheckedProvingError};

    ghost from_gives = { λ error outcome. outcome ≡ CheckedProvingError.Proving error };

    fn from(error: ProvingError<E>) -> CheckedProvingError<F, E> {
        CheckedProvingError::Proving(error)
    }
}

/// What is said of a proof of a trace that was checked first, made with a configuration, for an
/// AIR, of public values and what a prover holds of the preprocessed columns: with the key that is
/// set up beside these it is accepted unless zeta lies in the trace's domain, where the AIR's terms
/// can be sized, and where its degrees fit the quotient's domain; and what its errors name.
pub trait StarkChecked<A>: StarkGenericConfig {
    ghost PreprocessedData: { Type 0 };

    ghost Proof: { Type 0 };

    ghost accepted_if_sizable: { Self → A → List Self.Pcs.Domain.Val → Option PreprocessedData
        → RowMajorMatrix Self.Pcs.Domain.Val → Proof → Type 0 };

    ghost accepted_if_sized: { Self → A → List Self.Pcs.Domain.Val → Option PreprocessedData
        → RowMajorMatrix Self.Pcs.Domain.Val → Proof → Type 0 };

    ghost Error: { Type 0 };

    ghost is_fault: { Bor Self → Bor A → Bor (List Self.Pcs.Domain.Val) → Option PreprocessedData
        → RowMajorMatrix Self.Pcs.Domain.Val → Error → Type 0 };
}

impl<SC: StarkGenericConfig, A: Air<Val<SC>>> StarkChecked<A> for SC
where
    SC::Challenger: GrindingChallenger<Witness = Val<SC>>,
{
    ghost PreprocessedData = { Bor (PreprocessedProverData SC.Pcs.Commitment SC.Pcs.ProverData) };

    ghost Proof = { Proof SC.Pcs.Commitment SC.Challenge SC.Pcs.Proof SC.Pcs.Domain.Val };

    ghost accepted_if_sizable = { λ config air public_values preprocessed_data trace proof.
        (height : ℕ) → IsProvable SC.Pcs.scheme (SC.config.scheme config) (trace_of trace) height
        → AreSizable (A.constraints air)
        → IsAcceptedIfSetUp ⟦<SC as StarkOperations>⟧.operations
        (⟦<SC as StarkInstance<A>>⟧.instance config air public_values) (A.preprocessed_trace air)
        (option_copied preprocessed_data) height (proof_view proof) };

    ghost accepted_if_sized = { λ config air public_values preprocessed_data trace proof.
        (height : ℕ) → IsProvable SC.Pcs.scheme (SC.config.scheme config) (trace_of trace) height
        → HasSizedDegrees ⟦<SC as StarkOperations>⟧.operations
        (⟦<SC as StarkInstance<A>>⟧.instance config air public_values None) height
        → IsAcceptedIfSetUp ⟦<SC as StarkOperations>⟧.operations
        (⟦<SC as StarkInstance<A>>⟧.instance config air public_values) (A.preprocessed_trace air)
        (option_copied preprocessed_data) height (proof_view proof) };

    ghost Error = { CheckedProvingError SC.Pcs.Domain.Val SC.Pcs.ProverError };

    ghost is_fault = { λ config air public_values preprocessed_data trace. IsViolationOr
        (⟦<A as RowChecks<Val<SC>>>⟧.is_first_violation air.now (trace_of trace)
        (A.preprocessed_trace air.now) public_values.now)
        (⟦<SC as StarkProving<A>>⟧.fault
        (instance_of config air public_values preprocessed_data) trace) };
}

/// `check_declared`, and then `prove_with_preprocessed`: a proof of a trace that satisfies the AIR,
/// with the conditions of both. So the proof is accepted, whatever the trace, with the key that was
/// set up beside what the prover holds, over a scheme that refuses no true opening and from its
/// least height on, unless zeta lies in the trace's domain (`accepted`, for an AIR whose terms have
/// at most one transition factor each and whose degree multiples don't saturate; `sized`, for one
/// whose degrees fit the quotient's domain).
///
/// - `Violation` where a row breaks a constraint: the first such row, and in it the first
///   constraint, with its value.
/// - `Proving` with the error of `prove_with_preprocessed`; `OutOfMemory` also where the check was
///   refused memory.
pub fn prove_checked<SC: StarkGenericConfig, A: Air<Val<SC>>>(
    alloc: Global,
    config: &SC,
    air: &A,
    trace: RowMajorMatrix<Val<SC>>,
    public_values: &[Val<SC>],
    preprocessed: Option<&PreprocessedProverData<Com<SC>, PcsProverData<SC>>>,
) -> Result<StarkProof<SC>, CheckedProvingError<Val<SC>, PcsProverError<SC>>>
where
    Val<SC>: PackedField,
    SC::Challenge: PackedExtensionField<Val<SC>>,
    SC::Challenger: GrindingChallenger<Witness = Val<SC>>,
    requires height { FitsSchemeAsDeclared SC.Pcs.scheme (SC.config.scheme config.now) SC.Pcs.ZK
        (option_copied preprocessed) (A.preprocessed_trace air.now) trace }
    requires fits { FitsAir SC.Pcs.scheme (SC.config.scheme config.now) SC.Pcs.Domain.Val.ring
        (A.layout air.now) preprocessed trace public_values.now }
    ensures made { IfOk result (⟦<SC as StarkProving<A>>⟧.is_proof
        (instance_of config.entry air.entry public_values.entry preprocessed.entry) trace) }
    ensures accepted { IfOk result (⟦<SC as StarkChecked<A>>⟧.accepted_if_sizable config.now
        air.now public_values.now preprocessed.entry trace) }
    ensures sized { IfOk result (⟦<SC as StarkChecked<A>>⟧.accepted_if_sized config.now air.now
        public_values.now preprocessed.entry trace) }
    ensures fault { IfErr result (⟦<SC as StarkChecked<A>>⟧.is_fault config.entry air.entry
        public_values.entry preprocessed.entry trace) }
{
    match check_declared(alloc, air, &trace, public_values) {
        Ok(()) => {}
        Err(error) => return Err(CheckedProvingError::from(error)),
    }
    match prove_with_preprocessed(alloc, config, air, trace, public_values, preprocessed) {
        Ok(proof) => Ok(proof),
        Err(error) => Err(CheckedProvingError::Proving(error)),
    }
}
