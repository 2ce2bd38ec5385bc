//! The verifier over a configuration that its caller makes.
use p3_uni_stark::{StarkConfig, StarkProof, VerificationError, verify};
use stark_bench::{Ext4, F12289, Sha256Challenger};
use stark_clear::ClearPcs;
use stark_samples::CounterAir;
use stark_statement::bind_statement;
use stark_support::{JsonFault, value_from_bytes};
use std::alloc::Global;

pub type Config = StarkConfig<ClearPcs<F12289>, Ext4<F12289>, Sha256Challenger<F12289>>;

/// The configuration of this service. Its challenger has observed what the proofs are about.
pub fn configuration() -> Config {
    let mut challenger = Sha256Challenger::<F12289>::new();
    bind_statement::<F12289, _>(b"my_service counter 1", &mut challenger);
    StarkConfig::new(ClearPcs::new(), challenger)
}

/// Whether a JSON text proves that the counter counted from `start`.
pub fn counted(alloc: Global, text: &[u8], start: F12289) -> Result<bool, JsonFault> {
    let json = value_from_bytes(alloc, text)?;
    let Ok(proof) = StarkProof::<Config>::from_json(alloc, &json) else {
        return Ok(false);
    };
    match verify(alloc, &configuration(), &CounterAir, &proof, &[start]) {
        Ok(()) => Ok(true),
        Err(VerificationError::OutOfMemory) => Err(JsonFault::OutOfMemory),
        Err(_) => Ok(false),
    }
}
