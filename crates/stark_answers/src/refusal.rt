//! Why a proof is refused, or none is made.

ghost use Rattle.std.specs.Prelude.{◌≡◌};
ghost use Rattle.stark_answers.specs.Refusals.{prover_refusal_of, refusal_of, verdict_of_answer};

use crate::report::words;
use crate::verdict::{Refusal, Verdict};
use stark_transcript::{ProvingError, VerificationError};
use std::alloc::Global;
use std::fmt::Display;

/// Why a proof isn't accepted: the error without what is in it, but for a shape's, which is kept.
fn refusal_of<PcsErr>(error: &VerificationError<PcsErr>) -> Refusal
    ensures { result ≡ refusal_of error.now }
{
    match error {
        VerificationError::InvalidProofShape(fault) => Refusal::InvalidProofShape(*fault),
        VerificationError::PeriodicColumn(_) => Refusal::PeriodicColumn,
        VerificationError::InvalidOpeningArgument(_) => Refusal::InvalidOpeningArgument,
        VerificationError::OodEvaluationMismatch { .. } => Refusal::OodEvaluationMismatch,
        VerificationError::RandomizationError => Refusal::RandomizationError,
        VerificationError::NextPointUnavailable => Refusal::NextPointUnavailable,
        VerificationError::OodPointInDomain => Refusal::OodPointInDomain,
        VerificationError::InvalidAlphaPowWitness => Refusal::InvalidAlphaPowWitness,
        VerificationError::InvalidOodPowWitness => Refusal::InvalidOodPowWitness,
        VerificationError::OutOfMemory => Refusal::OutOfMemory,
    }
}

/// The verdict that says what a verifier answered.
pub fn verdict_of<PcsErr>(answer: &Result<(), VerificationError<PcsErr>>) -> Verdict
    ensures { result ≡ verdict_of_answer answer.now }
{
    match answer {
        Ok(()) => Verdict::Accepted,
        Err(error) => Verdict::Refused(refusal_of(error)),
    }
}

/// Why a prover makes no proof: its error, without what is in it.
pub fn refusal_of_prover<PcsErr>(error: &ProvingError<PcsErr>) -> Refusal
    ensures { result ≡ prover_refusal_of error.now }
{
    match error {
        ProvingError::Pcs { .. } => Refusal::Pcs,
        ProvingError::GrindExhausted { .. } => Refusal::GrindExhausted,
        ProvingError::QuotientDomainTooLarge { .. } => Refusal::QuotientDomainTooLarge,
        ProvingError::PeriodicColumn(_) => Refusal::PeriodicColumn,
        ProvingError::OutOfMemory => Refusal::OutOfMemory,
    }
}

/// In words, what a proof is refused for.
pub fn words_of_refusal<PcsErr: Display>(
    alloc: Global,
    answer: &Result<(), VerificationError<PcsErr>>,
) -> Option<String> {
    match answer {
        Ok(()) => None,
        Err(error) => words(alloc, "the proof is refused", error),
    }
}

/// In words, why a prover makes no proof.
pub fn words_of_failure<P, PcsErr>(
    alloc: Global,
    answer: &Result<P, ProvingError<PcsErr>>,
) -> Option<String> {
    match answer {
        Ok(_) => None,
        Err(error) => words(alloc, "there is no proof", error),
    }
}
