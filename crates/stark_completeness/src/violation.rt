//! Which row of a trace breaks which constraint.
ghost use Rattle.std.specs.Prelude.{◌≡◌};

use std::alloc::AllocError;
use thiserror::Error;

/// A constraint that a row of a trace breaks.
#[derive(Clone, Copy, Debug, PartialEq, Eq)]
pub struct ConstraintViolation<F> {
    /// The number of the row, from 0 on.
    pub row: usize,
    /// The number of the constraint, from 0 on, in the order in which the AIR asserts them.
    pub constraint: usize,
    /// What the constraint is in that row, which isn't zero. The selectors are those of the trace's
    /// domain, of which none is normalised.
    pub value: F,
}

/// Why a trace is not found to satisfy an AIR.
#[derive(Debug, Drop, Error)]
pub enum ConstraintCheckError<F> {
    /// It doesn't: this is the first row that breaks a constraint, and in it the first one.
    #[error("a row breaks a constraint")]
    Violation(ConstraintViolation<F>),
    /// Memory was refused.
    #[error("out of memory")]
    OutOfMemory,
}

impl<F> From<AllocError> for ConstraintCheckError<F> {
    ghost use Rattle.stark_completeness.specs.declared.violation.ConstraintCheckError.{ConstraintCheckError};

    ghost from_gives = { λ _ outcome. outcome ≡ ConstraintCheckError.OutOfMemory };

    fn from(_error: AllocError) -> ConstraintCheckError<F> {
        ConstraintCheckError::OutOfMemory
    }
}
