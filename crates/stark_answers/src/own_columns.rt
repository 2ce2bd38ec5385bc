//! A prover that sets up an AIR's own preprocessed columns.

ghost use Rattle.std.specs.Prelude.{◌≡◌, ◌+◌, ◌≤◌, length};
ghost use Rattle.stark_support.specs.Scheme.{zk_bits};
ghost use Rattle.stark_completeness.specs.RowCheck.{trace_of};
ghost use Rattle.stark_protocol.specs.Preprocessing.{HasHeight};
ghost use Rattle.stark_answers.specs.Prove.{IsTraceForScheme};
ghost use Rattle.stark_answers.specs.Verify.{SetsUpAll};

use crate::contracts::AnswersWithColumns;
use p3_uni_stark::{ProvingError, StarkProof, setup_preprocessed};
use stark_air::Air;
use stark_parts::{PcsProverError, StarkGenericConfig, Val};
use stark_prover::{prove, prove_with_preprocessed};
use stark_support::{GrindingChallenger, PackedExtensionField, PackedField, RowMajorMatrix};
use std::alloc::Global;

/// A prover's answer for a trace, beside the AIR's own preprocessed columns, which are set up first
/// and have `2^log_rows` rows. The scheme sets up all columns. A proof that is answered is accepted
/// with a key of these columns, where a check finds the trace satisfying, unless zeta lies in the
/// trace's domain or the constraints' degrees don't fit the quotient's (`complete`).
pub fn prove_with_own_columns<SC, A>(
    alloc: Global,
    config: &SC,
    air: &A,
    log_rows: usize,
    trace: RowMajorMatrix<Val<SC>>,
    public_values: &[Val<SC>],
) -> Result<StarkProof<SC>, ProvingError<PcsProverError<SC>>>
where
    SC: StarkGenericConfig,
    SC::Challenge: PackedExtensionField<Val<SC>>,
    SC::Challenger: GrindingChallenger<Witness = Val<SC>>,
    Val<SC>: PackedField,
    A: Air<Val<SC>>,
    requires fits { IsTraceForScheme SC.Pcs.scheme (SC.config.scheme config.now) SC.Pcs.ZK
        (A.layout air.now) log_rows (trace_of trace) (length public_values.now) }
    requires height { HasHeight log_rows (A.preprocessed_trace air.now) }
    requires within { log_rows + zk_bits SC.Pcs.ZK ≤ SC.Pcs.scheme.log_max_trace_height
        (SC.config.scheme config.now) }
    requires any_height { SC.Pcs.scheme.log_min_trace_height (SC.config.scheme config.now) ≡ 0 }
    requires complete { SC.Pcs.scheme.IsComplete (SC.config.scheme config.now) }
    requires sets_up { SetsUpAll SC.Pcs.scheme (SC.config.scheme config.now) }
    ensures proves { ⟦<SC as AnswersWithColumns<A>>⟧.proves log_rows config.now air.now trace
        public_values.now result }
    ensures complete { ⟦<SC as AnswersWithColumns<A>>⟧.completes log_rows config.now air.now trace
        public_values.now result }
{
    match setup_preprocessed(alloc, config, air, log_rows) {
        Ok(None) => prove(alloc, config, air, trace, public_values),
        Ok(Some((data, _key))) => {
            prove_with_preprocessed(alloc, config, air, trace, public_values, Some(&data))
        }
        Err(error) => Err(error),
    }
}
