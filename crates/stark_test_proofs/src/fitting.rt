//! Traces that come from outside, and whether they are an AIR's.
ghost use Rattle.std.specs.Prelude.{◌≡◌, ◌+◌, ◌*◌, ◌^◌, ◌<◌, ◌≤◌, IfOk, IsTrue, length};
ghost use Rattle.stark_protocol.specs.Preprocessing.{HasHeight};
ghost use Rattle.stark_support.specs.Scheme.{zk_bits};

use stark_air::BaseAir;
use stark_parts::{StarkGenericConfig, Val};
use stark_protocol::power_of_two;
use stark_support::{RowMajorMatrix, UnivariateStarkPcs};
use std::alloc::{AllocError, Global};
use std::test::Fail;

/// Whether a trace of `2^log_height` rows and these public values are of an AIR's widths and
/// counts.
pub fn is_trace_of<F, A: BaseAir<F>>(
    air: &A,
    log_height: usize,
    trace: &RowMajorMatrix<F>,
    public_values: &[F],
) -> bool
    ensures columns { IsTrue result → 0 < trace.now.width }
    ensures width { IsTrue result → trace.now.width ≡ (A.layout air.now).main }
    ensures height { IsTrue result
        → length trace.now.values.items ≡ 2 ^ log_height * trace.now.width }
    ensures public_values { IsTrue result
        → length public_values.now ≡ (A.layout air.now).public_values }
    ensures bounded { IsTrue result → log_height ≤ 12 }
{
    if log_height > 12 {
        return false;
    }
    trace.width > 0
        && trace.width == air.width()
        && Some(trace.values.len()) == power_of_two(log_height).checked_mul(trace.width)
        && public_values.len() == air.num_public_values()
}

/// Whether such a trace is one, and the configuration has room for it.
pub fn fits<SC: StarkGenericConfig, A: BaseAir<Val<SC>>>(
    config: &SC,
    air: &A,
    log_height: usize,
    trace: &RowMajorMatrix<Val<SC>>,
    public_values: &[Val<SC>],
) -> bool
    ensures columns { IsTrue result → 0 < trace.now.width }
    ensures width { IsTrue result → trace.now.width ≡ (A.layout air.now).main }
    ensures height { IsTrue result
        → length trace.now.values.items ≡ 2 ^ log_height * trace.now.width }
    ensures within { IsTrue result → log_height + zk_bits SC.Pcs.ZK
        ≤ SC.Pcs.scheme.log_max_trace_height (SC.config.scheme config.now) }
    ensures public_values { IsTrue result
        → length public_values.now ≡ (A.layout air.now).public_values }
    ensures bounded { IsTrue result → log_height ≤ 12 }
{
    if log_height > 12 || log_height + config.is_zk() > config.pcs().log_max_trace_height() {
        return false;
    }
    is_trace_of(air, log_height, trace, public_values)
}

/// Whether an AIR's preprocessed columns, where it has some, stand at `2^log_height` rows. Err only
/// where memory was refused.
pub fn stands_at<F: Drop, A: BaseAir<F>>(
    alloc: Global,
    air: &A,
    log_height: usize,
) -> Result<bool, AllocError>
    requires { log_height ≤ 12 }
    ensures { IfOk result (λ stands. IsTrue stands
        → HasHeight log_height (A.preprocessed_trace air.now)) }
{
    let Some(trace) = air.preprocessed_trace(alloc)? else {
        return Ok(true);
    };
    Ok(Some(trace.values.len()) == power_of_two(log_height).checked_mul(trace.width))
}

/// The matrix of rows of an AIR's width; Err where the width doesn't divide them.
pub fn matrix_of<F: Drop, A: BaseAir<F>>(
    air: &A,
    values: Vec<F>,
) -> Result<RowMajorMatrix<F>, Fail> {
    let width = air.width();
    if width == 0 || values.len() % width != 0 {
        return Err(Fail::new("no rows"));
    }
    Ok(RowMajorMatrix::new(values, width))
}
