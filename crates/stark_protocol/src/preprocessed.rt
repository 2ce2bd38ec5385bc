//! What prover and verifier hold of a preprocessed trace.
ghost use Rattle.std.specs.Prelude.{◌≡◌, ◌+◌, ◌*◌, ◌^◌, ◌<◌, ◌≤◌, IfErr, IfOk, Some, is_some, length};
ghost use Rattle.stark_support.specs.Scheme.{natural_coset, zk_bits};
ghost use Rattle.stark_protocol.specs.Preprocessing.{HasHeight, has_columns};

use crate::heights::natural_domain;
use crate::operations::StarkSetup;
use stark_air::BaseAir;
use stark_parts::{Com, Domain, PcsProverError, StarkGenericConfig, Val};
use stark_support::{Pcs, RowMajorMatrix, UnivariateStarkPcs};
use stark_transcript::ProvingError;
use std::alloc::Global;

/// What a configuration's scheme keeps of a commitment, to open it.
pub type PcsProverData<SC> = <<SC as StarkGenericConfig>::Pcs as Pcs<
    <SC as StarkGenericConfig>::Challenge,
    <SC as StarkGenericConfig>::Challenger,
>>::ProverData;

/// What a prover holds of a committed preprocessed trace.
#[derive(Drop)]
pub struct PreprocessedProverData<Com, ProverData> {
    /// The number of the preprocessed columns.
    pub width: usize,
    /// The logarithm of the committed height.
    pub degree_bits: usize,
    pub commitment: Com,
    /// The scheme's own data, from which the commitment is opened.
    pub prover_data: ProverData,
}

/// What a verifier holds of a committed preprocessed trace.
#[derive(Drop)]
pub struct PreprocessedVerifierKey<Com> {
    /// The number of the preprocessed columns.
    pub width: usize,
    /// The logarithm of the committed height.
    pub degree_bits: usize,
    pub commitment: Com,
}

/// Commits to an AIR's preprocessed columns, once for all proofs at one height: the prover's data
/// and the verifier's key.
///
/// The declared trace, where it has columns, has `2^degree_bits` rows, and the scheme commits at
/// `2^(degree_bits + is_zk)` rows, at most the scheme's greatest height; both parts hold the
/// logarithm of that number. Ok(None) where the AIR declares no trace, or one without columns, at
/// any `degree_bits`.
///
/// - `Pcs`, in the phase `preprocessing commitment`, where the scheme refuses.
/// - `OutOfMemory` only where a growth was refused.
pub fn setup_preprocessed<SC: StarkGenericConfig, A: BaseAir<Val<SC>>>(
    alloc: Global,
    config: &SC,
    air: &A,
    degree_bits: usize,
) -> Result<
    Option<
        (
            PreprocessedProverData<Com<SC>, PcsProverData<SC>>,
            PreprocessedVerifierKey<Com<SC>>,
        ),
    >,
    ProvingError<PcsProverError<SC>>,
>
    requires height { HasHeight degree_bits (A.preprocessed_trace air.now) }
    requires within { ⟦<SC as StarkSetup>⟧.has_room config.now degree_bits
        (A.preprocessed_trace air.now) }
    ensures there { IfOk result (λ keys. is_some keys
        ≡ has_columns (A.preprocessed_trace air.now)) }
    ensures set_up { IfOk result (⟦<SC as StarkSetup>⟧.are_keys config.now degree_bits
        (A.preprocessed_trace air.now)) }
    ensures fault { IfErr result (⟦<SC as StarkSetup>⟧.is_fault config.now degree_bits
        (A.preprocessed_trace air.now)) }
{
    let Some(trace) = air.preprocessed_trace(alloc)? else {
        return Ok(None);
    };
    if trace.width() == 0 {
        return Ok(None);
    }
    let keys = committed_trace(alloc, config, trace, degree_bits)?;
    Ok(Some(keys))
}

/// The domain on which a trace of `2^log_height` rows is committed, after the logarithm of its
/// size.
fn committed_domain<SC: StarkGenericConfig>(config: &SC, log_height: usize) -> (usize, Domain<SC>)
    requires within { log_height + zk_bits SC.Pcs.ZK ≤ SC.Pcs.scheme.log_max_trace_height
        (SC.config.scheme config.now) }
    ensures bits { result.0 ≡ log_height + zk_bits SC.Pcs.ZK }
    ensures domain { SC.Pcs.Domain.coset_of result.1
        ≡ natural_coset SC.Pcs.Domain.Val.ring (log_height + zk_bits SC.Pcs.ZK) }
{
    let degree_bits = log_height + config.is_zk();
    (degree_bits, natural_domain(config, degree_bits))
}

/// The two parts for a trace that has columns.
fn committed_trace<SC: StarkGenericConfig>(
    alloc: Global,
    config: &SC,
    trace: RowMajorMatrix<Val<SC>>,
    degree_bits: usize,
) -> Result<
    (
        PreprocessedProverData<Com<SC>, PcsProverData<SC>>,
        PreprocessedVerifierKey<Com<SC>>,
    ),
    ProvingError<PcsProverError<SC>>,
>
    requires columns { 0 < trace.width }
    requires height { length trace.values.items ≡ 2 ^ degree_bits * trace.width }
    requires within { degree_bits + zk_bits SC.Pcs.ZK ≤ SC.Pcs.scheme.log_max_trace_height
        (SC.config.scheme config.now) }
    ensures set_up { IfOk result (⟦<SC as StarkSetup>⟧.is_set_up config.now degree_bits
        (record { width = trace.width; values = trace.values.items })) }
    ensures fault { IfErr result (⟦<SC as StarkSetup>⟧.is_fault config.now degree_bits
        (Some (record { width = trace.width; values = trace.values.items }))) }
{
    let pcs = config.pcs();
    let width = trace.width();
    let (degree_bits, domain) = committed_domain(config, degree_bits);
    let (commitment, prover_data) = match pcs.commit_preprocessing(alloc, domain, trace) {
        Ok(made) => made,
        Err(fault) => return Err(ProvingError::in_phase("preprocessing commitment", fault)),
    };
    let key = PreprocessedVerifierKey {
        width,
        degree_bits,
        commitment: pcs.copy_commitment(alloc, &commitment)?,
    };
    let data = PreprocessedProverData {
        width,
        degree_bits,
        commitment,
        prover_data,
    };
    Ok((data, key))
}
