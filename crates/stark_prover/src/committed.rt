//! The prover of a trace that is committed to already.
ghost use Rattle.std.specs.Option.{option_copied};
ghost use Rattle.std.specs.Prelude.{◌≡◌, ◌+◌, ◌<◌, IfErr, IfOk, is_some, length, ltb};
ghost use Rattle.stark_support.specs.Scheme.{zk_bits};
ghost use Rattle.stark_prover.specs.Heights.{HasRoom, HoldsColumns, IsCommittedAt};
ghost use Rattle.stark_prover.specs.ProverView.{InputsHold, instance_of};

use crate::commit::Committed;
use crate::contracts::{ProverInputs, ProverInstance, StarkCommitted};
use crate::domains::fitting_domains;
use crate::prover::prove_over_transcript;
use crate::quotient::ProvableAir;
use stark_air::Air;
use stark_parts::{Com, PcsProverError, StarkGenericConfig, Val};
use stark_protocol::{PcsProverData, PreprocessedProverData, StarkProof};
use stark_support::{
    ExtensionField, GrindingChallenger, PackedExtensionField, PackedField, Pcs, PolynomialSpace,
    UnivariateStarkPcs,
};
use stark_transcript::ProvingError;
use std::alloc::Global;

/// A trace of `2^log_height` rows that is committed to: the commitment, and what the scheme keeps
/// of it.
#[derive(Debug, Drop)]
pub struct CommittedTrace<K, T> {
    pub log_height: usize,
    pub commitment: K,
    pub prover_data: T,
}

/// A proof that a trace satisfies an AIR, from a commitment to the trace: the proof that
/// `prove_with_preprocessed` makes once it has committed to the trace.
///
/// The commitment is one that the configuration's scheme makes of a trace of `2^log_height` rows
/// and of the AIR's width, on the domain of `2^(log_height + is_zk)` points; the other conditions
/// are those of `prove_with_preprocessed`. What is said of the proof holds of any trace that the
/// commitment is to. The transcript begins in the configuration's first state, and observes the
/// commitment where it would observe its own.
///
/// The errors are those of `prove_with_preprocessed` in the same order, but for `Pcs` in the phase
/// `trace commitment`.
pub fn prove_committed<SC: StarkGenericConfig, A: Air<Val<SC>>>(
    alloc: Global,
    config: &SC,
    air: &A,
    trace: CommittedTrace<Com<SC>, PcsProverData<SC>>,
    public_values: &[Val<SC>],
    preprocessed: Option<&PreprocessedProverData<Com<SC>, PcsProverData<SC>>>,
) -> Result<StarkProof<SC>, ProvingError<PcsProverError<SC>>>
where
    Val<SC>: PackedField,
    SC::Challenge: PackedExtensionField<Val<SC>>,
    SC::Challenger: GrindingChallenger<Witness = Val<SC>>,
    requires committed { ⟦<SC as StarkCommitted<A>>⟧.is_committed
        (instance_of config air public_values preprocessed) trace }
    requires within { HasRoom SC.Pcs.scheme (SC.config.scheme config.now) SC.Pcs.ZK
        trace.log_height }
    requires public_values { length public_values.now ≡ (A.layout air.now).public_values }
    requires there { is_some preprocessed ≡ ltb 0 (A.layout air.now).preprocessed }
    requires same { IsCommittedAt (option_copied preprocessed)
        (trace.log_height + zk_bits SC.Pcs.ZK) }
    requires stands { HoldsColumns SC.Pcs.scheme (SC.config.scheme config.now)
        SC.Pcs.Domain.Val.ring (option_copied preprocessed) (A.layout air.now).preprocessed }
    ensures made { IfOk result (⟦<SC as StarkCommitted<A>>⟧.is_proof
        (instance_of config.entry air.entry public_values.entry preprocessed.entry) trace) }
    ensures acceptable { IfOk result (⟦<SC as StarkCommitted<A>>⟧.is_acceptable
        (instance_of config.entry air.entry public_values.entry preprocessed.entry) trace) }
    ensures complete { IfOk result (⟦<SC as StarkCommitted<A>>⟧.completeness
        (instance_of config.entry air.entry public_values.entry preprocessed.entry) trace) }
    ensures fault { IfErr result (⟦<SC as StarkCommitted<A>>⟧.fault
        (instance_of config.entry air.entry public_values.entry preprocessed.entry) trace) }
{
    let instance = ProverInputs {
        config,
        air,
        public_values,
        preprocessed,
    };
    prove_of_height(alloc, &instance, trace)
}

/// The proof of a committed trace, once its sizes are tested.
fn prove_of_height<SC: StarkGenericConfig, A: ProvableAir<SC>>(
    alloc: Global,
    instance: &ProverInstance<'_, SC, A>,
    trace: CommittedTrace<Com<SC>, PcsProverData<SC>>,
) -> Result<StarkProof<SC>, ProvingError<PcsProverError<SC>>>
where
    SC::Challenger: GrindingChallenger<Witness = Val<SC>>,
    requires committed { ⟦<SC as StarkCommitted<A>>⟧.is_committed instance.now trace }
    requires within { HasRoom SC.Pcs.scheme (SC.config.scheme instance.now.config.now) SC.Pcs.ZK
        trace.log_height }
    requires public_values { length instance.now.public_values.now
        ≡ (A.layout instance.now.air.now).public_values }
    requires there { is_some instance.now.preprocessed
        ≡ ltb 0 (A.layout instance.now.air.now).preprocessed }
    requires same { IsCommittedAt (option_copied instance.now.preprocessed)
        (trace.log_height + zk_bits SC.Pcs.ZK) }
    requires stands { InputsHold SC.Pcs.scheme SC.config.scheme SC.Pcs.Domain.Val.ring instance.now
        (A.layout instance.now.air.now).preprocessed }
    ensures made { IfOk result (⟦<SC as StarkCommitted<A>>⟧.is_proof instance.now trace) }
    ensures fault { IfErr result (⟦<SC as StarkCommitted<A>>⟧.fault instance.now trace) }
{
    let CommittedTrace {
        log_height,
        commitment,
        prover_data,
    } = trace;
    let domains = fitting_domains(alloc, instance, log_height)?;
    let committed = Committed {
        commitment,
        prover_data,
    };
    prove_over_transcript(alloc, instance, domains, committed)
}
