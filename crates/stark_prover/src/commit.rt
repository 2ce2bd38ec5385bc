//! The commitments of a proof.
ghost use Rattle.std.specs.Prelude.{◌≡◌, ◌*◌, ◌^◌, ◌<◌, ◌≤◌, IfErr, IfOk, IfSome, is_some, length};
ghost use Rattle.stark_support.specs.Coset.{coset_size};
ghost use Rattle.stark_support.specs.Scheme.{natural_coset};
ghost use Rattle.stark_protocol.specs.Instance.{log_height};
ghost use Rattle.stark_prover.specs.Commitments.{AreChunks, HasRoomForChunks, IsChunksRefusal, IsOfRandom, IsOfTrace, IsRandomRefusal, IsTraceRefusal};
ghost use Rattle.stark_prover.specs.Heights.{IsOfHeight};

use crate::domains::ProverDomains;
use stark_parts::{Com, Domain, PcsProverError, StarkGenericConfig, Val};
use stark_protocol::{PcsProverData, StarkOperations, power_of_two};
use stark_support::{GrindingChallenger, Pcs, RowMajorMatrix, UnivariateStarkPcs};
use stark_transcript::ProvingError;
use std::alloc::Global;

/// A commitment, and what the scheme keeps of it.
#[derive(Drop)]
pub(crate) struct Committed<K, T> {
    pub commitment: K,
    pub prover_data: T,
}

/// The commitment to the trace.
pub(crate) fn commit_trace<SC: StarkGenericConfig>(
    alloc: Global,
    config: &SC,
    domains: ProverDomains<Domain<SC>>,
    trace: RowMajorMatrix<Val<SC>>,
) -> Result<Committed<Com<SC>, PcsProverData<SC>>, ProvingError<PcsProverError<SC>>>
where
    SC::Challenger: GrindingChallenger<Witness = Val<SC>>,
    requires columns { 0 < trace.width }
    requires height { IsOfHeight trace (log_height SC.Pcs.ZK domains.degree_bits) }
    requires within { domains.degree_bits ≤ SC.Pcs.scheme.log_max_trace_height
        (SC.config.scheme config.now) }
    requires domain { SC.Pcs.Domain.coset_of domains.committed
        ≡ natural_coset SC.Pcs.Domain.Val.ring domains.degree_bits }
    ensures stands { IfOk result (IsOfTrace ⟦<SC as StarkOperations>⟧.operations
        (SC.config.scheme config.now) domains.degree_bits trace) }
    ensures fault { IfErr result (IsTraceRefusal ⟦<SC as StarkOperations>⟧.operations
        (SC.config.scheme config.now) domains.degree_bits trace) }
{
    match config.pcs().commit(alloc, domains.committed, trace) {
        Ok((commitment, prover_data)) => Ok(Committed {
            commitment,
            prover_data,
        }),
        Err(fault) => Err(ProvingError::in_phase("trace commitment", fault)),
    }
}

/// The commitment to the chunks of a quotient's flattened values.
pub(crate) fn commit_flat<SC: StarkGenericConfig>(
    alloc: Global,
    config: &SC,
    domains: ProverDomains<Domain<SC>>,
    flat: RowMajorMatrix<Val<SC>>,
) -> Result<Committed<Com<SC>, PcsProverData<SC>>, ProvingError<PcsProverError<SC>>>
where
    SC::Challenger: GrindingChallenger<Witness = Val<SC>>,
    requires few { domains.log_chunks < 64 }
    requires height { length flat.values.items
        ≡ coset_size (SC.Pcs.Domain.coset_of domains.quotient) * flat.width }
    requires parts { 2 ^ domains.log_chunks ≤ coset_size (SC.Pcs.Domain.coset_of domains.quotient) }
    requires within { HasRoomForChunks SC.Pcs.scheme (SC.config.scheme config.now) SC.Pcs.ZK
        (SC.Pcs.Domain.coset_of domains.quotient) domains.log_chunks }
    ensures stands { IfOk result (AreChunks ⟦<SC as StarkOperations>⟧.operations
        (SC.config.scheme config.now) SC.Pcs.Domain.coset_of domains flat) }
    ensures fault { IfErr result (IsChunksRefusal ⟦<SC as StarkOperations>⟧.operations
        (SC.config.scheme config.now) SC.Pcs.Domain.coset_of domains flat) }
{
    let count = power_of_two(domains.log_chunks);
    let quotient = domains.quotient;
    match config.pcs().commit_quotient(alloc, quotient, flat, count) {
        Ok((commitment, prover_data)) => Ok(Committed {
            commitment,
            prover_data,
        }),
        Err(fault) => Err(ProvingError::in_phase("quotient commitment", fault)),
    }
}

/// The random commitment, which is there exactly in zero knowledge.
pub(crate) fn commit_random<SC: StarkGenericConfig>(
    alloc: Global,
    config: &SC,
    domains: ProverDomains<Domain<SC>>,
) -> Result<Option<Committed<Com<SC>, PcsProverData<SC>>>, ProvingError<PcsProverError<SC>>>
where
    SC::Challenger: GrindingChallenger<Witness = Val<SC>>,
    requires within { domains.degree_bits ≤ SC.Pcs.scheme.log_max_trace_height
        (SC.config.scheme config.now) }
    requires domain { SC.Pcs.Domain.coset_of domains.committed
        ≡ natural_coset SC.Pcs.Domain.Val.ring domains.degree_bits }
    ensures there { IfOk result (λ made. is_some made ≡ SC.Pcs.ZK) }
    ensures stands { IfOk result (λ made.
        IfSome made (IsOfRandom ⟦<SC as StarkOperations>⟧.operations
        (SC.config.scheme config.now) domains.degree_bits)) }
    ensures fault { IfErr result (IsRandomRefusal ⟦<SC as StarkOperations>⟧.operations
        (SC.config.scheme config.now) domains.degree_bits) }
{
    // A scheme without masks isn't asked, so that it can't stop a proof here.
    if !SC::Pcs::ZK {
        return Ok(None);
    }
    let pcs = config.pcs();
    match pcs.get_opt_randomization_poly_commitment(alloc, domains.committed) {
        Ok(Some((commitment, prover_data))) => Ok(Some(Committed {
            commitment,
            prover_data,
        })),
        Ok(None) => Ok(None),
        Err(fault) => Err(ProvingError::in_phase("randomization commitment", fault)),
    }
}
