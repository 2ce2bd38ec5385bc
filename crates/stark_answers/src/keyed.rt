//! A verifier that sets up the key of an AIR's own preprocessed columns.

ghost use Rattle.std.specs.Prelude.{◌≡◌, ◌+◌, ◌≤◌};
ghost use Rattle.stark_support.specs.Scheme.{zk_bits};
ghost use Rattle.stark_protocol.specs.Preprocessing.{HasHeight};
ghost use Rattle.stark_answers.specs.Verify.{SetsUpAll, size_of_key};

use crate::contracts::AnswersWithColumns;
use p3_uni_stark::{
    ProvingError, StarkProof, setup_preprocessed, verify, verify_with_preprocessed,
};
use stark_air::Air;
use stark_parts::{PcsError, StarkGenericConfig, Val};
use stark_support::GrindingChallenger;
use stark_transcript::VerificationError;
use stark_verifier::{KeySize, check_proof_shape};
use std::alloc::Global;

/// The size of the key of an AIR's preprocessed columns, which have `2^log_rows` rows; None where
/// it has no such columns.
fn key_size<SC: StarkGenericConfig, A: Air<Val<SC>>>(
    config: &SC,
    air: &A,
    log_rows: usize,
) -> Option<KeySize>
    requires within { log_rows + zk_bits SC.Pcs.ZK ≤ SC.Pcs.scheme.log_max_trace_height
        (SC.config.scheme config.now) }
    ensures { result ≡ size_of_key (A.layout air.now).preprocessed
        (log_rows + zk_bits SC.Pcs.ZK) }
{
    match air.preprocessed_width() {
        0 => None,
        width => Some(KeySize {
            width,
            degree_bits: log_rows + config.is_zk(),
        }),
    }
}

/// The verifier's answer for a proof, with the key of the AIR's preprocessed columns, which have
/// `2^log_rows` rows. The scheme sets up all columns. A proof whose shape has a fault is refused
/// before the key is set up.
pub fn verify_with_key<SC, A>(
    alloc: Global,
    config: &SC,
    air: &A,
    log_rows: usize,
    proof: &StarkProof<SC>,
    public_values: &[Val<SC>],
) -> Result<(), VerificationError<PcsError<SC>>>
where
    SC: StarkGenericConfig,
    SC::Challenger: GrindingChallenger<Witness = Val<SC>>,
    A: Air<Val<SC>>,
    requires height { HasHeight log_rows (A.preprocessed_trace air.now) }
    requires within { log_rows + zk_bits SC.Pcs.ZK ≤ SC.Pcs.scheme.log_max_trace_height
        (SC.config.scheme config.now) }
    requires sets_up { SetsUpAll SC.Pcs.scheme (SC.config.scheme config.now) }
    ensures { ⟦<SC as AnswersWithColumns<A>>⟧.verifies log_rows config.now air.now proof.now
        public_values.now result }
{
    // A few bytes of a statement can declare columns that take a minute to commit to, and a proof
    // of the wrong shape costs a stranger nothing: so the shape first, which reads of the key its
    // size alone.
    let size = key_size(config, air, log_rows);
    check_proof_shape(alloc, config, air, proof, public_values, size)?;
    match setup_preprocessed(alloc, config, air, log_rows) {
        Ok(None) => verify(alloc, config, air, proof, public_values),
        // The set-up is the verifier's own, from the declared columns: the prover's half of it
        // isn't wanted here.
        Ok(Some((_data, key))) => {
            verify_with_preprocessed(alloc, config, air, proof, public_values, Some(&key))
        }
        Err(ProvingError::OutOfMemory) => Err(VerificationError::OutOfMemory),
        Err(_) => unreachable!(),
    }
}
