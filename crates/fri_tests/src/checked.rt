//! Proofs of checked traces over BabyBear and FRI, and when the verifier accepts them.
ghost use Rattle.std.specs.Borrow.{Bor};
ghost use Rattle.std.specs.Option.{option_copied};
ghost use Rattle.std.specs.Prelude.{◌≡◌, ◌+◌, ◌<◌, ◌≤◌, ℕ, List, Option, IfErr, IfOk, is_some, length, ltb};
ghost use Rattle.stark_parts.specs.SizingLaw.{AreSizable};
ghost use Rattle.stark_proof.specs.ProofView.{proof_view};
ghost use Rattle.stark_proof.specs.declared.values.Proof.{Proof};
ghost use Rattle.stark_protocol.specs.Preprocessing.{HasHeight};
ghost use Rattle.stark_protocol.specs.declared.preprocessed.PreprocessedProverData.{PreprocessedProverData};
ghost use Rattle.stark_prover.specs.Heights.{HoldsColumns, IsCommittedAt, IsOfHeight};
ghost use Rattle.p3_uni_stark.specs.Checked.{IsAcceptedIfSetUp};

use crate::service::Config;
use p3_uni_stark::{
    CheckedProvingError, PreprocessedProverData, StarkChecked, StarkGenericConfig, StarkInstance,
    StarkOperations, StarkProof, Val, prove_checked,
};
use stark_air::Air;
use stark_fields::BabyBearField;
use stark_fri::FriProverError;
use stark_fri_prover::FriData;
use stark_merkle::Root;
use stark_support::{GrindingChallenger, RowMajorMatrix, TwoAdicField};
use std::alloc::Global;

/// What is said of a prover's data and of a proof of a checked trace, with a configuration and for
/// an AIR. It has no code.
pub trait CheckedProofs<A>: StarkGenericConfig {
    ghost PreprocessedData: { Type 0 };

    ghost Proof: { Type 0 };

    /// What the prover holds stands for as many columns as the AIR has preprocessed ones.
    ghost holds_columns: { Self → A → Option PreprocessedData → Type 0 };

    /// With the key that is set up beside what the prover holds, at so many rows, the proof is
    /// accepted, unless zeta lies in H; where the AIR's terms can be sized.
    ghost accepted: { Self → A → List Self.Pcs.Domain.Val → Option PreprocessedData → ℕ
        → Proof → Type 0 };
}

impl<SC, A> CheckedProofs<A> for SC
where
    SC: StarkGenericConfig,
    SC::Challenger: GrindingChallenger<Witness = Val<SC>>,
    A: Air<Val<SC>>,
{
    ghost PreprocessedData = { Bor (PreprocessedProverData SC.Pcs.Commitment SC.Pcs.ProverData) };

    ghost Proof = { Proof SC.Pcs.Commitment SC.Challenge SC.Pcs.Proof SC.Pcs.Domain.Val };

    ghost holds_columns = { λ config air preprocessed_data. HoldsColumns SC.Pcs.scheme
        (SC.config.scheme config) SC.Pcs.Domain.Val.ring (option_copied preprocessed_data)
        (A.layout air).preprocessed };

    ghost accepted = { λ config air public_values preprocessed_data log_height proof.
        AreSizable (A.constraints air)
        → IsAcceptedIfSetUp ⟦<SC as StarkOperations>⟧.operations
        (⟦<SC as StarkInstance<A>>⟧.instance config air public_values) (A.preprocessed_trace air)
        (option_copied preprocessed_data) log_height (proof_view proof) };
}

/// `prove_checked` over BabyBear and FRI: a proof of a trace of `2^log_height` rows that satisfies
/// the AIR. The verifier accepts it with the key that was set up beside what the prover holds of
/// the preprocessed columns, unless zeta lies in the trace's domain, H; asked is only that the
/// AIR's terms have at most one transition factor each and its degree multiples don't saturate.
///
/// - `Violation` where a row breaks a constraint: the first such row, and in it the first
///   constraint, with its value.
/// - `Proving` with the error of `prove_with_preprocessed`: that of `FriPcs` is `Claims` where zeta
///   or the point after it lies on the coset on which the columns are extended.
pub fn prove_over_baby_bear<A: Air<BabyBearField>>(
    alloc: Global,
    config: &Config,
    air: &A,
    log_height: usize,
    trace: RowMajorMatrix<BabyBearField>,
    public_values: &[BabyBearField],
    preprocessed: Option<&PreprocessedProverData<Root, FriData<BabyBearField>>>,
) -> Result<StarkProof<Config>, CheckedProvingError<BabyBearField, FriProverError>>
    requires columns { 0 < trace.width }
    requires width { trace.width ≡ (A.layout air.now).main }
    requires height { IsOfHeight trace log_height }
    requires room { log_height + config.now.pcs.parameters.log_blowup
        ≤ ⟦<BabyBearField as TwoAdicField>⟧.TWO_ADICITY }
    requires declared { HasHeight log_height (A.preprocessed_trace air.now) }
    requires same { IsCommittedAt (option_copied preprocessed) log_height }
    requires public_values { length public_values.now ≡ (A.layout air.now).public_values }
    requires there { is_some preprocessed ≡ ltb 0 (A.layout air.now).preprocessed }
    requires stands { ⟦<Config as CheckedProofs<A>>⟧.holds_columns config.now air.now
        preprocessed }
    ensures accepted { IfOk result (⟦<Config as CheckedProofs<A>>⟧.accepted config.now air.now
        public_values.now preprocessed.entry log_height) }
    ensures fault { IfErr result (⟦<Config as StarkChecked<A>>⟧.is_fault config.entry air.entry
        public_values.entry preprocessed.entry trace) }
{
    prove_checked(alloc, config, air, trace, public_values, preprocessed)
}
