//! The shape of the transcript that both sides play.
ghost use Rattle.std.specs.Prelude.{◌≡◌, ◌<◌, ◌≤◌, IfOk};
ghost use Rattle.stark_support.specs.Scheme.{zk_bits};

use crate::heights::power_of_two;
use crate::operations::StarkDescription;
use stark_air::BaseAir;
use stark_parts::{StarkGenericConfig, Val};
use stark_support::Pcs;
use stark_transcript::StarkShape;
use std::alloc::{AllocError, Global};

/// The shape of the transcript of a proof at a committed height of `2^degree_bits` rows, with
/// `2^log_chunks` chunks of the quotient (those that masks add among them) and so many preprocessed
/// columns. Err only where a growth was refused.
pub fn transcript_shape<SC, A>(
    alloc: Global,
    config: &SC,
    air: &A,
    preprocessed_width: usize,
    degree_bits: usize,
    log_chunks: usize,
) -> Result<StarkShape, AllocError>
where
    SC: StarkGenericConfig,
    A: BaseAir<Val<SC>>,
    requires extended { zk_bits SC.Pcs.ZK ≤ degree_bits }
    requires few { log_chunks < 64 }
    ensures { IfOk result (λ shape. shape ≡ ⟦<SC as StarkDescription<A>>⟧.shape config.now air.now
        preprocessed_width degree_bits log_chunks) }
{
    let log_height = degree_bits - config.is_zk();
    let num_chunks = power_of_two(log_chunks);
    let ood_bits = config.ood_proof_of_work_bits();
    let constraint_bits = config.constraint_proof_of_work_bits();
    let shape = StarkShape::new::<Val<SC>, A>(
        alloc,
        air,
        preprocessed_width,
        degree_bits,
        log_height,
        num_chunks,
        SC::Pcs::ZK,
        ood_bits,
        constraint_bits,
    )?;
    Ok(shape)
}
