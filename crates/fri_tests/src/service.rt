//! The verifier over BabyBear and FRI.
use p3_uni_stark::{StarkConfig, StarkProof, VerificationError, verify};
use stark_bench::Sha256Challenger;
use stark_fields::{BabyBearField, Ext4};
use stark_fri_proof::{FriParameters, FriParametersError};
use stark_fri_prover::FriPcs;
use stark_merkle::Sha256Tree;
use stark_samples::CounterAir;
use stark_statement::bind_statement;
use stark_support::{JsonFault, value_from_bytes};
use std::alloc::Global;

pub type Config = StarkConfig<
    FriPcs<BabyBearField, Sha256Tree>,
    Ext4<BabyBearField>,
    Sha256Challenger<BabyBearField>,
>;

/// The configuration of this service: a blow-up of 2, 84 queries, and 16 bits of work before their
/// places are drawn.
pub fn configuration() -> Result<Config, FriParametersError> {
    let parameters = FriParameters::new(1, 0, 84, 0, 16)?;
    let mut challenger = Sha256Challenger::<BabyBearField>::new();
    bind_statement::<BabyBearField, _>(b"my_service counter 2", &mut challenger);
    Ok(StarkConfig::new(FriPcs::new(parameters), challenger))
}

/// Whether a JSON text proves that the counter counted from `start`.
pub fn counted(
    alloc: Global,
    config: &Config,
    text: &[u8],
    start: BabyBearField,
) -> Result<bool, JsonFault> {
    let json = value_from_bytes(alloc, text)?;
    let Ok(proof) = StarkProof::<Config>::from_json(alloc, &json) else {
        return Ok(false);
    };
    match verify(alloc, config, &CounterAir, &proof, &[start]) {
        Ok(()) => Ok(true),
        Err(VerificationError::OutOfMemory) => Err(JsonFault::OutOfMemory),
        Err(_) => Ok(false),
    }
}
