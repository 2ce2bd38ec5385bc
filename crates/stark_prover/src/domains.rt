//! The sizes of a proof and its domains, which are tested before anything is committed.
ghost use Rattle.std.specs.Prelude.{◌≡◌, ◌+◌, ◌<◌, ◌≤◌, IfErr, IfOk, None, Some};
ghost use Rattle.stark_support.specs.Periodic.{first_fault};
ghost use Rattle.stark_support.specs.Scheme.{natural_coset, zk_bits};
ghost use Rattle.stark_prover.specs.Heights.{HasRoom};
ghost use Rattle.stark_prover.specs.Sizes.{IsOfSize, IsPeriodicFault, IsSizeError, periodic_fault};

use crate::contracts::{ProverInstance, StarkSizes};
use stark_air::{Air, BaseAir};
use stark_parts::{Domain, PcsProverError, StarkGenericConfig, Val};
use stark_protocol::{log_parts_of, natural_domain, power_of_two, quotient_domain_of};
use stark_support::{
    GrindingChallenger, Pcs, PeriodicColumnShapeError, PeriodicColumns, UnivariateStarkPcs,
};
use stark_transcript::{InvalidProofShapeError, ProvingError};
use std::alloc::Global;

/// The domains of a proof, and the number of its quotient's chunks.
#[derive(Clone, Copy)]
pub(crate) struct ProverDomains<D> {
    /// The logarithm of the committed height.
    pub degree_bits: usize,
    /// The logarithm of the number of chunks.
    pub log_chunks: usize,
    /// The trace's domain.
    pub trace: D,
    /// The committed trace's domain, twice as large in zero knowledge.
    pub committed: D,
    /// The quotient's domain.
    pub quotient: D,
}

/// Tests that the AIR's periodic columns fit a trace of `2^log_height` rows.
fn test_columns<F, A: BaseAir<F>>(
    air: &A,
    log_height: usize,
) -> Result<(), PeriodicColumnShapeError>
    requires few { log_height < 64 }
    ensures fitting { IfOk result (λ _.
        periodic_fault (A.periodic_columns air.now) log_height ≡ None) }
    ensures fault { IfErr result (λ fault.
        periodic_fault (A.periodic_columns air.now) log_height ≡ Some fault) }
{
    match PeriodicColumns::new(air.periodic_columns(), power_of_two(log_height)) {
        Ok(_) => Ok(()),
        Err(fault) => Err(fault),
    }
}

/// A prover's error for a quotient's domain that doesn't fit.
fn size_error<Y>(error: InvalidProofShapeError) -> ProvingError<Y>
    requires { IsOfSize error }
    ensures { IsSizeError error result }
{
    match error {
        InvalidProofShapeError::QuotientDomainTooLarge { maximum, got, .. } => {
            ProvingError::QuotientDomainTooLarge { maximum, got }
        }
        _ => unreachable!(),
    }
}

/// The logarithm of the committed height of a trace of `2^log_height` rows, and the domain of that
/// size.
pub(crate) fn committed_domain<SC: StarkGenericConfig>(
    config: &SC,
    log_height: usize,
) -> (usize, Domain<SC>)
    requires within { HasRoom SC.Pcs.scheme (SC.config.scheme config.now) SC.Pcs.ZK log_height }
    ensures bits { result.0 ≡ log_height + zk_bits SC.Pcs.ZK }
    ensures domain { SC.Pcs.Domain.coset_of result.1
        ≡ natural_coset SC.Pcs.Domain.Val.ring result.0 }
{
    let degree_bits = log_height + config.is_zk();
    (degree_bits, natural_domain(config, degree_bits))
}

/// The domains, where the quotient's fits.
fn domains_of<SC: StarkGenericConfig, A: Air<Val<SC>>>(
    alloc: Global,
    instance: &ProverInstance<'_, SC, A>,
    log_height: usize,
) -> Result<ProverDomains<Domain<SC>>, ProvingError<PcsProverError<SC>>>
where
    SC::Challenger: GrindingChallenger<Witness = Val<SC>>,
    requires within { HasRoom SC.Pcs.scheme (SC.config.scheme instance.now.config.now) SC.Pcs.ZK
        log_height }
    ensures bits { IfOk result (λ domains. domains.degree_bits ≡ log_height + zk_bits SC.Pcs.ZK) }
    ensures domains { IfOk result (⟦<SC as StarkSizes<A>>⟧.are_domains instance.now) }
    ensures clear { IfOk result (λ _. ⟦<SC as StarkSizes<A>>⟧.domain_fault instance.now
        (log_height + zk_bits SC.Pcs.ZK) ≡ None) }
    ensures fault { IfErr result (⟦<SC as StarkSizes<A>>⟧.is_domain_fault instance.now
        log_height) }
{
    let config = instance.config;
    let is_zk = config.is_zk();
    let trace = natural_domain(config, log_height);
    let (degree_bits, committed) = committed_domain(config, log_height);
    let log_parts = log_parts_of(alloc, instance.air, &trace, is_zk)?;
    let maximum = config.pcs().log_max_trace_height();
    match quotient_domain_of(&committed, degree_bits, log_parts, is_zk, maximum) {
        Ok(quotient) => Ok(ProverDomains {
            degree_bits,
            log_chunks: log_parts + is_zk,
            trace,
            committed,
            quotient,
        }),
        Err(error) => Err(size_error(error)),
    }
}

/// The domains of a proof of a trace of `2^log_height` rows, once the AIR's periodic columns and
/// the size of the quotient's domain are tested.
pub(crate) fn fitting_domains<SC: StarkGenericConfig, A: Air<Val<SC>>>(
    alloc: Global,
    instance: &ProverInstance<'_, SC, A>,
    log_height: usize,
) -> Result<ProverDomains<Domain<SC>>, ProvingError<PcsProverError<SC>>>
where
    SC::Challenger: GrindingChallenger<Witness = Val<SC>>,
    requires within { HasRoom SC.Pcs.scheme (SC.config.scheme instance.now.config.now) SC.Pcs.ZK
        log_height }
    ensures bits { IfOk result (λ domains. domains.degree_bits ≡ log_height + zk_bits SC.Pcs.ZK) }
    ensures domains { IfOk result (⟦<SC as StarkSizes<A>>⟧.are_domains instance.now) }
    ensures fitting { IfOk result (λ _.
        ⟦<SC as StarkSizes<A>>⟧.columns_fault instance.now log_height ≡ None) }
    ensures clear { IfOk result (λ _. ⟦<SC as StarkSizes<A>>⟧.domain_fault instance.now
        (log_height + zk_bits SC.Pcs.ZK) ≡ None) }
    ensures columns { IfErr result (IsPeriodicFault
        (⟦<SC as StarkSizes<A>>⟧.columns_fault instance.now log_height)) }
    ensures quotient { IfErr result (⟦<SC as StarkSizes<A>>⟧.is_fault_behind_columns
        instance.now log_height) }
{
    test_columns(instance.air, log_height)?;
    let domains = domains_of(alloc, instance, log_height)?;
    Ok(domains)
}
