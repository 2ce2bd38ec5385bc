//! Why a proof is refused.
ghost use Rattle.std.specs.Prelude.{◌≡◌, ◌++◌, codes};
ghost use Rattle.stark_transcript.specs.Errors.{IsFaultIn, shape_error_name, transcript_error};
ghost use Rattle.stark_transcript.specs.declared.error.VerificationError.TheVariants.{InvalidProofShape, PeriodicColumn, OutOfMemory};

use crate::shape::{GrindExhausted, StarkTranscriptFailure};
use stark_support::{PeriodicColumnShapeError, SchemeFault};
use std::alloc::AllocError;
use thiserror::Error;

/// What of a proof's shape doesn't fit the AIR, the key or the scheme. Where `air` is named, it is
/// the instance at fault, None where a proof has one instance alone.
#[derive(Clone, Copy, Debug, PartialEq, Eq, Error)]
pub enum InvalidProofShapeError {
    /// There are more or fewer instances than parts of the proof. Carried for proofs of several
    /// instances.
    #[error("the number of instances doesn't fit the proof")]
    InstanceCountMismatch,
    /// The opened current row has another width than the AIR. Carried for proofs of several
    /// instances.
    #[error("instance {air:?}: the current row has {got} values in place of {expected}")]
    TraceLocalWidthMismatch {
        air: Option<usize>,
        expected: usize,
        got: usize,
    },
    /// The AIR reads the next row, which isn't opened or has another width than the AIR.
    #[error("instance {air:?}: the next row is missing or has the wrong width")]
    TraceNextMismatch {
        air: Option<usize>,
    },
    /// The next row is opened, and the AIR doesn't read it.
    #[error("instance {air:?}: the next row is opened and not read")]
    UnexpectedTraceNext {
        air: Option<usize>,
    },
    /// The next preprocessed row is opened, and the AIR doesn't read it.
    #[error("instance {air:?}: the next preprocessed row is opened and not read")]
    UnexpectedPreprocessedNext {
        air: Option<usize>,
    },
    /// There are more or fewer quotient chunks than committed ones. Carried for proofs of several
    /// instances.
    #[error("instance {air:?}: {got} quotient chunks in place of {expected}")]
    QuotientChunksCountMismatch {
        air: Option<usize>,
        expected: usize,
        got: usize,
    },
    /// A quotient chunk has another length than the extension's degree. Carried for proofs of
    /// several instances.
    #[error("instance {air:?}: a quotient chunk has the wrong length")]
    QuotientChunkDimensionMismatch {
        air: Option<usize>,
    },
    /// There are more or fewer chunks than domains. Carried for proofs of several instances.
    #[error("instance {air:?}: the quotient chunks don't fit their domains")]
    QuotientDomainsCountMismatch {
        air: Option<usize>,
    },
    /// The opened preprocessed rows have other widths than the key.
    #[error("the preprocessed rows have {got_local} and {got_next} values in place of {expected_local} and {expected_next}")]
    PreprocessedTraceWidthMismatch {
        expected_local: usize,
        expected_next: usize,
        got_local: usize,
        got_next: usize,
    },
    /// The key's preprocessed columns aren't the AIR's.
    #[error("the verifier's key doesn't fit the preprocessed columns")]
    PreprocessedVerifierKeyInconsistency,
    /// The key was made for another height than the proof's.
    #[error("the key has {vk_degree_bits} degree bits, and the proof {proof_degree_bits}")]
    PreprocessedDegreeMismatch {
        vk_degree_bits: usize,
        proof_degree_bits: usize,
    },
    /// The preprocessed row has another width than the AIR. Carried for proofs of several
    /// instances.
    #[error("instance {air:?}: the preprocessed row has the wrong width")]
    PreprocessedWidthMismatch {
        air: Option<usize>,
    },
    /// Preprocessed rows are opened, and the AIR has none.
    #[error("instance {air:?}: preprocessed rows are opened, and there are none")]
    UnexpectedPreprocessedValues {
        air: Option<usize>,
    },
    /// The proof's height is below the least one.
    #[error("instance {air:?}: {got} degree bits, below {minimum}")]
    DegreeBitsTooSmall {
        air: Option<usize>,
        minimum: usize,
        got: usize,
    },
    /// The proof's height is above the greatest one.
    #[error("instance {air:?}: {got} degree bits, above {maximum}")]
    DegreeBitsTooLarge {
        air: Option<usize>,
        maximum: usize,
        got: usize,
    },
    /// The quotient's domain would be above the greatest one.
    #[error("instance {air:?}: a quotient domain of {got} bits, above {maximum}")]
    QuotientDomainTooLarge {
        air: Option<usize>,
        maximum: usize,
        got: usize,
    },
    /// The AIR has preprocessed columns, and none are opened. Carried for proofs of several
    /// instances.
    #[error("instance {air:?}: no preprocessed rows are opened")]
    MissingPreprocessedValues {
        air: Option<usize>,
    },
    /// The preprocessed columns aren't those that the common data names. Carried for proofs of
    /// several instances.
    #[error("instance {air:?}: the preprocessed columns don't fit the common data")]
    PreprocessedMetadataMismatch {
        air: Option<usize>,
    },
    /// There are more or fewer public values than the AIR reads.
    #[error("{got} public values in place of {expected}")]
    PublicValuesLengthMismatch {
        expected: usize,
        got: usize,
    },
    /// Another opened row or chunk has the wrong number of values, or there are too many or too few
    /// of them.
    #[error("the opened values have the wrong dimensions")]
    OpenedValuesDimensionMismatch,
    /// No witness is asked for before alpha, and the proof has one that isn't zero.
    #[error("a witness before alpha that isn't zero where none is asked for")]
    NonCanonicalAlphaPowWitness,
    /// No witness is asked for, and the proof has one that isn't zero.
    #[error("a witness that isn't zero where none is asked for")]
    NonCanonicalOodPowWitness,
}

impl InvalidProofShapeError {
    /// The line that says that a proof is refused for it, with its newline.
    pub fn refusal_line(self) -> &'static str
        ensures { result.now ≡ codes "refused " ++ shape_error_name self ++ codes "\n" }
    {
        match self {
            Self::InstanceCountMismatch => "refused InstanceCountMismatch\n",
            Self::TraceLocalWidthMismatch { .. } => "refused TraceLocalWidthMismatch\n",
            Self::TraceNextMismatch { .. } => "refused TraceNextMismatch\n",
            Self::UnexpectedTraceNext { .. } => "refused UnexpectedTraceNext\n",
            Self::UnexpectedPreprocessedNext { .. } => "refused UnexpectedPreprocessedNext\n",
            Self::QuotientChunksCountMismatch { .. } => "refused QuotientChunksCountMismatch\n",
            Self::QuotientChunkDimensionMismatch { .. } =>
                "refused QuotientChunkDimensionMismatch\n",
            Self::QuotientDomainsCountMismatch { .. } => "refused QuotientDomainsCountMismatch\n",
            Self::PreprocessedTraceWidthMismatch { .. } =>
                "refused PreprocessedTraceWidthMismatch\n",
            Self::PreprocessedVerifierKeyInconsistency =>
                "refused PreprocessedVerifierKeyInconsistency\n",
            Self::PreprocessedDegreeMismatch { .. } => "refused PreprocessedDegreeMismatch\n",
            Self::PreprocessedWidthMismatch { .. } => "refused PreprocessedWidthMismatch\n",
            Self::UnexpectedPreprocessedValues { .. } => "refused UnexpectedPreprocessedValues\n",
            Self::DegreeBitsTooSmall { .. } => "refused DegreeBitsTooSmall\n",
            Self::DegreeBitsTooLarge { .. } => "refused DegreeBitsTooLarge\n",
            Self::QuotientDomainTooLarge { .. } => "refused QuotientDomainTooLarge\n",
            Self::MissingPreprocessedValues { .. } => "refused MissingPreprocessedValues\n",
            Self::PreprocessedMetadataMismatch { .. } => "refused PreprocessedMetadataMismatch\n",
            Self::PublicValuesLengthMismatch { .. } => "refused PublicValuesLengthMismatch\n",
            Self::OpenedValuesDimensionMismatch => "refused OpenedValuesDimensionMismatch\n",
            Self::NonCanonicalAlphaPowWitness => "refused NonCanonicalAlphaPowWitness\n",
            Self::NonCanonicalOodPowWitness => "refused NonCanonicalOodPowWitness\n",
        }
    }
}

/// Why a verifier refuses a proof; `PcsErr` is the error of the commitment scheme.
#[derive(Debug, Drop, Error)]
pub enum VerificationError<PcsErr> {
    /// The proof's shape doesn't fit.
    #[error("invalid proof shape: {0}")]
    InvalidProofShape(InvalidProofShapeError),
    /// A periodic column doesn't fit the trace.
    #[error("invalid periodic column: {0}")]
    PeriodicColumn(PeriodicColumnShapeError),
    /// The commitment scheme refuses the openings.
    #[error("invalid opening argument")]
    InvalidOpeningArgument(PcsErr),
    /// The folded constraints aren't the quotient times the vanishing value.
    #[error("the constraints don't match the quotient")]
    OodEvaluationMismatch { index: Option<usize> },
    /// The random commitment or its opening is missing, or is there and isn't wanted.
    #[error("the randomization doesn't fit")]
    RandomizationError,
    /// The trace's domain has no next point.
    #[error("there is no next point")]
    NextPointUnavailable,
    /// The sampled point lies in the trace's domain.
    #[error("the sampled point lies in the trace's domain")]
    OodPointInDomain,
    /// The witness of work before alpha doesn't pass.
    #[error("the witness of work before alpha doesn't pass")]
    InvalidAlphaPowWitness,
    /// The witness of work before the sampled point doesn't pass.
    #[error("the witness of work doesn't pass")]
    InvalidOodPowWitness,
    /// Memory was refused.
    #[error("out of memory")]
    OutOfMemory,
}

impl<PcsErr> From<InvalidProofShapeError> for VerificationError<PcsErr> {
    ghost from_gives = { λ error outcome. outcome ≡ InvalidProofShape error };

    fn from(error: InvalidProofShapeError) -> Self {
        VerificationError::InvalidProofShape(error)
    }
}

impl<PcsErr> From<PeriodicColumnShapeError> for VerificationError<PcsErr> {
    ghost from_gives = { λ error outcome. outcome ≡ PeriodicColumn error };

    fn from(error: PeriodicColumnShapeError) -> Self {
        VerificationError::PeriodicColumn(error)
    }
}

impl<PcsErr> From<AllocError> for VerificationError<PcsErr> {
    ghost from_gives = { λ _ outcome. outcome ≡ OutOfMemory };

    fn from(_error: AllocError) -> Self {
        VerificationError::OutOfMemory
    }
}

impl<PcsErr> From<StarkTranscriptFailure> for VerificationError<PcsErr> {
    ghost from_gives = { λ failure outcome. outcome ≡ transcript_error failure };

    fn from(failure: StarkTranscriptFailure) -> Self {
        match failure {
            StarkTranscriptFailure::MissingPreprocessedCommitment { .. }
            | StarkTranscriptFailure::UnexpectedPreprocessedCommitment => {
                VerificationError::InvalidProofShape(
                    InvalidProofShapeError::PreprocessedVerifierKeyInconsistency,
                )
            }
            StarkTranscriptFailure::MissingRandomCommitment
            | StarkTranscriptFailure::UnexpectedRandomCommitment => {
                VerificationError::RandomizationError
            }
            StarkTranscriptFailure::AlphaPowWitness { .. } => {
                VerificationError::InvalidAlphaPowWitness
            }
            StarkTranscriptFailure::OodPowWitness { .. } => VerificationError::InvalidOodPowWitness,
        }
    }
}

/// Why no proof is made; `E` is the error of the commitment scheme.
#[derive(Debug, Drop, Error)]
pub enum ProvingError<E> {
    /// The commitment scheme refuses. The phases are `preprocessing commitment`, `trace
    /// commitment`, `quotient commitment`, `randomization commitment` and `opening`.
    #[error("the commitment scheme refuses: {phase}")]
    Pcs { phase: &'static str, source: E },
    /// No element is a witness of the work that is asked for.
    #[error("no witness of {bits} bits of work")]
    GrindExhausted { bits: usize },
    /// The quotient's domain would be above the greatest one.
    #[error("a quotient domain of {got} bits, above {maximum}")]
    QuotientDomainTooLarge { maximum: usize, got: usize },
    /// A periodic column doesn't fit the trace.
    #[error("invalid periodic column: {0}")]
    PeriodicColumn(PeriodicColumnShapeError),
    /// Memory was refused.
    #[error("out of memory")]
    OutOfMemory,
}

impl<E> From<GrindExhausted> for ProvingError<E> {
    ghost use Rattle.stark_transcript.specs.declared.error.ProvingError.{ProvingError};

    ghost from_gives = { λ error outcome. outcome ≡ ProvingError.GrindExhausted error.bits };

    fn from(error: GrindExhausted) -> Self {
        ProvingError::GrindExhausted { bits: error.bits }
    }
}

impl<E> From<PeriodicColumnShapeError> for ProvingError<E> {
    ghost use Rattle.stark_transcript.specs.declared.error.ProvingError.{ProvingError};

    ghost from_gives = { λ error outcome. outcome ≡ ProvingError.PeriodicColumn error };

    fn from(error: PeriodicColumnShapeError) -> Self {
        ProvingError::PeriodicColumn(error)
    }
}

impl<E> From<AllocError> for ProvingError<E> {
    ghost use Rattle.stark_transcript.specs.declared.error.ProvingError.{ProvingError};

    ghost from_gives = { λ _ outcome. outcome ≡ ProvingError.OutOfMemory };

    fn from(_error: AllocError) -> Self {
        ProvingError::OutOfMemory
    }
}

impl<E> ProvingError<E> {
    /// What a scheme's fault is in a phase.
    pub fn in_phase(phase: &'static str, fault: SchemeFault<E>) -> ProvingError<E>
        ensures { IsFaultIn phase.now fault result }
    {
        match fault {
            SchemeFault::Refused(source) => ProvingError::Pcs { phase, source },
            SchemeFault::OutOfMemory => ProvingError::OutOfMemory,
        }
    }
}
