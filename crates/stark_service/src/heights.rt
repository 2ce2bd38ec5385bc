//! The height that a statement fixes: proofs and traces of another one.

ghost use Rattle.std.specs.Prelude.{◌≡◌};
ghost use Rattle.stark_answers.specs.declared.verdict.Refusal.{Refusal};
ghost use Rattle.stark_answers.specs.declared.verdict.Verdict.{Verdict};
ghost use Rattle.stark_service.specs.Heights.{height_fault, is_fixed_height};

use crate::misfit::TraceMisfit;
use crate::words::bad_input;
use stark_answers::{Refusal, Report, Verdict};
use stark_transcript::InvalidProofShapeError;
use std::alloc::Global;

/// The fault of a proof of `2^got` rows, where another height is fixed: that is the least and the
/// greatest.
pub fn height_fault(fixed: Option<usize>, got: usize) -> Option<InvalidProofShapeError>
    ensures { result ≡ height_fault fixed got }
{
    let fixed = fixed?;
    if got < fixed {
        return Some(InvalidProofShapeError::DegreeBitsTooSmall {
            air: None,
            minimum: fixed,
            got,
        });
    }
    if got > fixed {
        return Some(InvalidProofShapeError::DegreeBitsTooLarge {
            air: None,
            maximum: fixed,
            got,
        });
    }
    None
}

/// What is said of a proof of `2^got` rows that has this fault: it is refused for it, and the
/// reason has both heights.
pub fn of_other_height(
    alloc: Global,
    fixed: Option<usize>,
    got: usize,
    fault: InvalidProofShapeError,
) -> Report<Verdict>
    ensures { result.answer ≡ Verdict.Refused (Refusal.InvalidProofShape fault) }
{
    let fixed = fixed.unwrap_or(got);
    let reason = format!(in alloc;
        "the proof is refused: a trace of 2^{got} rows, and the statement's log_height asks for 2^{fixed}"
    );
    Report {
        answer: Verdict::Refused(Refusal::InvalidProofShape(fault)),
        reason: reason.ok(),
    }
}

/// Whether a trace of this number of rows has the height that is fixed, if one is.
pub(crate) fn is_fixed_height(fixed: Option<usize>, rows: usize) -> bool
    ensures { result ≡ is_fixed_height fixed rows }
{
    match fixed {
        Some(log_height) if log_height < 64 => rows == 1 << log_height,
        Some(_) => false,
        None => true,
    }
}

/// What is said of a trace of another height than the fixed one.
pub(crate) fn unfit_height(alloc: Global, fixed: Option<usize>, rows: usize) -> Report<Verdict>
    ensures { result.answer ≡ Verdict.BadInput }
{
    let log_height = fixed.unwrap_or(0);
    bad_input(alloc, &TraceMisfit::FixedHeight { rows, log_height })
}
