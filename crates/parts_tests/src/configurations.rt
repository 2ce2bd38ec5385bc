//! Configurations, the places of rounds, and what errors become.
use stark_parts::{StarkConfig, StarkOpeningLayout};
use stark_support::{PeriodicColumnShapeError, SchemeFault};
use stark_transcript::{
    GrindExhausted, InvalidProofShapeError, ProvingError, StarkTranscriptFailure, VerificationError,
};
use std::alloc::AllocError;
use std::test::Fail;

type Numbers = StarkConfig<u8, u16, u32>;

#[test]
fn work_is_asked_for_apart(rt: HostRuntime) -> Result<(), AllocError> {
    let config: Numbers = StarkConfig::new(7, 9);
    assert!(rt; config.pcs == 7 && config.challenger == 9);
    assert!(rt; config.lookup_proof_of_work_bits == 0 && config.ood_proof_of_work_bits == 0);
    assert!(rt; config.constraint_proof_of_work_bits == 0);
    let config = config.with_ood_proof_of_work_bits(3);
    assert!(rt; config.lookup_proof_of_work_bits == 0 && config.ood_proof_of_work_bits == 3);
    let config = config.with_lookup_proof_of_work_bits(5);
    assert!(rt; config.lookup_proof_of_work_bits == 5 && config.ood_proof_of_work_bits == 3);
    assert!(rt; config.constraint_proof_of_work_bits == 0);
    let config = config.with_constraint_proof_of_work_bits(4);
    assert!(rt; config.lookup_proof_of_work_bits == 5 && config.ood_proof_of_work_bits == 3);
    let copy = config.clone()?;
    assert!(rt; copy.pcs == 7 && copy.challenger == 9);
    assert!(rt; copy.lookup_proof_of_work_bits == 5 && copy.ood_proof_of_work_bits == 3);
    assert!(rt; copy.constraint_proof_of_work_bits == 4);
    Ok(())
}

#[test]
fn a_random_commitment_comes_first(rt: HostRuntime) {
    let plain = StarkOpeningLayout::new(false);
    assert!(rt; plain.trace == 0 && plain.quotient == 1 && plain.preprocessed == 2);
    let masked = StarkOpeningLayout::new(true);
    assert!(rt; masked.trace == 1 && masked.quotient == 2 && masked.preprocessed == 3);
}

fn refused(failure: StarkTranscriptFailure) -> VerificationError<u8> {
    failure.into()
}

#[test]
fn a_failed_transcript_is_refused(rt: HostRuntime) {
    assert!(rt;
        matches!(
            refused(StarkTranscriptFailure::MissingPreprocessedCommitment { width: 3 }),
            VerificationError::InvalidProofShape(
                InvalidProofShapeError::PreprocessedVerifierKeyInconsistency
            )
        )
    );
    assert!(rt;
        matches!(
            refused(StarkTranscriptFailure::UnexpectedPreprocessedCommitment),
            VerificationError::InvalidProofShape(
                InvalidProofShapeError::PreprocessedVerifierKeyInconsistency
            )
        )
    );
    assert!(rt;
        matches!(
            refused(StarkTranscriptFailure::MissingRandomCommitment),
            VerificationError::RandomizationError
        )
    );
    assert!(rt;
        matches!(
            refused(StarkTranscriptFailure::UnexpectedRandomCommitment),
            VerificationError::RandomizationError
        )
    );
    assert!(rt;
        matches!(
            refused(StarkTranscriptFailure::AlphaPowWitness { bits: 2 }),
            VerificationError::InvalidAlphaPowWitness
        )
    );
    assert!(rt;
        matches!(
            refused(StarkTranscriptFailure::OodPowWitness { bits: 2 }),
            VerificationError::InvalidOodPowWitness
        )
    );
}

#[test]
fn causes_of_no_proof(rt: HostRuntime) {
    let exhausted: ProvingError<u8> = GrindExhausted { bits: 14 }.into();
    assert!(rt; matches!(exhausted, ProvingError::GrindExhausted { bits: 14 }));
    let column: ProvingError<u8> = PeriodicColumnShapeError::Empty { column: 2 }.into();
    assert!(rt;
        matches!(
            column,
            ProvingError::PeriodicColumn(PeriodicColumnShapeError::Empty { column: 2 })
        )
    );
    let memory: ProvingError<u8> = AllocError.into();
    assert!(rt; matches!(memory, ProvingError::OutOfMemory));
}

#[test]
fn faults_of_a_scheme(rt: HostRuntime) {
    let refusal = ProvingError::in_phase("trace commitment", SchemeFault::Refused(6u8));
    assert!(rt;
        matches!(
            refusal,
            ProvingError::Pcs {
                phase: "trace commitment",
                source: 6
            }
        )
    );
    let memory: SchemeFault<u8> = AllocError.into();
    assert!(rt; matches!(memory, SchemeFault::OutOfMemory));
    assert!(rt;
        matches!(
            ProvingError::in_phase("opening", memory),
            ProvingError::OutOfMemory
        )
    );
}
