//! The height of an AIR's preprocessed columns.

ghost use Rattle.std.specs.Prelude.{◌≤◌, ℕ, IfOk, IfSome, IsNone};
ghost use Rattle.stark_protocol.specs.Preprocessing.{HasHeight};

use crate::trace::log_of_height;
use stark_air::Air;
use stark_support::Field;
use std::alloc::{AllocError, Global};

/// The logarithm of the rows of an AIR's preprocessed columns, 0 without any; None where they are
/// no power of two from 1 to `2^greatest`. Err only where memory was refused.
pub fn log_rows_of<F: Field, A: Air<F>>(
    alloc: Global,
    air: &A,
    greatest: usize,
) -> Result<Option<usize>, AllocError>
    requires { greatest ≤ 63 }
    ensures height { IfOk result (λ answer.
        IfSome answer (λ log_rows. HasHeight log_rows (A.preprocessed_trace air.now))) }
    ensures within { IfOk result (λ answer. IfSome answer (λ log_rows. log_rows ≤ greatest)) }
    ensures none { IfOk result (λ answer. IsNone answer → (log_rows : ℕ) → log_rows ≤ greatest
        → HasHeight log_rows (A.preprocessed_trace air.now) → ⊥) }
{
    let Some(trace) = air.preprocessed_trace(alloc)? else {
        return Ok(Some(0));
    };
    if trace.width() == 0 {
        return Ok(Some(0));
    }
    Ok(log_of_height(trace.height(), greatest))
}
