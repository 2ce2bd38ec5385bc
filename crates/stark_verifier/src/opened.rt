//! Tests of what else a proof opens, of its public values and of its witnesses.
ghost use Rattle.std.specs.Prelude.{◌≡◌, ◌<◌, ◌==◌, IfErr, IfOk, None, Some, length, map, option_map};
ghost use Rattle.std.specs.List.{list_all};
ghost use Rattle.stark_proof.specs.ProofView.{openings_view};
ghost use Rattle.stark_protocol.specs.Acceptance.{of_shape};
ghost use Rattle.stark_protocol.specs.ShapeFaults.{public_values_fault, random_fits, randomization_fault, trace_next_fault, witness_fault};
ghost use Rattle.stark_verifier.specs.MemoryAside.{IfErrMemoryAside};
ghost use Rattle.stark_verifier.specs.Shape.{lengths_fault, row_view, unexpected_fault, witnesses_fault};

use crate::contracts::StarkChecks;
use crate::instance::InstanceOf;
use stark_air::{Air, BaseAir};
use stark_parts::{PcsError, StarkGenericConfig, Val};
use stark_proof::OpenedValues;
use stark_protocol::power_of_two;
use stark_support::{ExtensionField, GrindingChallenger, is_zero};
use stark_transcript::{InvalidProofShapeError, VerificationError, opens_next_row};
use std::alloc::{AllocError, Global};

/// What a proof is to open, by the AIR and the configuration.
#[derive(Drop)]
pub(crate) struct ExpectedOpenings {
    /// The number of public values.
    pub public_values: usize,
    /// Whether the AIR reads the next row.
    pub reads_next: bool,
    /// The AIR's width.
    pub width: usize,
    /// The number of the quotient's chunks.
    pub chunks: usize,
    /// The extension's degree.
    pub dimension: usize,
    /// The bits of the work before alpha.
    pub alpha_bits: usize,
    /// The bits of the work before zeta.
    pub ood_bits: usize,
}

/// Whether a random commitment and its opening are there exactly under zero knowledge.
pub fn check_randomization<K, R, X>(
    is_zk: bool,
    commitment: &Option<K>,
    opening: &Option<R>,
) -> Result<(), VerificationError<X>>
    ensures clear { IfOk result (λ _. randomization_fault {X = X} is_zk commitment.now opening.now
        ≡ None) }
    ensures fault { IfErr result (λ error. randomization_fault is_zk commitment.now opening.now
        ≡ Some error) }
{
    match (is_zk, commitment, opening) {
        (true, Some(_), Some(_)) | (false, None, None) => Ok(()),
        _ => Err(VerificationError::RandomizationError),
    }
}

/// Whether there are as many public values as the AIR reads.
fn check_public_values(expected: usize, got: usize) -> Result<(), InvalidProofShapeError>
    ensures clear { IfOk result (λ _. public_values_fault expected got ≡ None) }
    ensures fault { IfErr result (λ error. public_values_fault expected got ≡ Some error) }
{
    // One too few would be read past the end; one too many would be observed and never read, so
    // that a proof would pass as one about it.
    if got == expected {
        Ok(())
    } else {
        Err(InvalidProofShapeError::PublicValuesLengthMismatch { expected, got })
    }
}

/// Whether the next row is opened exactly where the AIR reads it, and as wide as the AIR.
fn check_trace_next<EF>(
    reads_next: bool,
    width: usize,
    row: &Option<Vec<EF>>,
) -> Result<(), InvalidProofShapeError>
    ensures clear { IfOk result (λ _. trace_next_fault reads_next width (row_view row.now) ≡ None) }
    ensures fault { IfErr result (λ error.
        trace_next_fault reads_next width (row_view row.now) ≡ Some error) }
{
    // A next row that is read and isn't opened would be taken for zeros, whatever the trace has
    // there. One that is opened and not read would be claimed for nothing.
    match (reads_next, row) {
        (true, Some(row)) if row.len() == width => Ok(()),
        (true, _) => Err(InvalidProofShapeError::TraceNextMismatch { air: None }),
        (false, Some(_)) => Err(InvalidProofShapeError::UnexpectedTraceNext { air: None }),
        (false, None) => Ok(()),
    }
}

/// Whether each chunk has this length.
fn have_length<EF>(chunks: &[Vec<EF>], dimension: usize) -> bool
    ensures { result ≡ list_all (λ chunk. length chunk == dimension)
        (map (λ chunk. chunk.items) chunks.now) }
{
    for chunk in chunks {
        if chunk.len() != dimension {
            return false;
        }
    }
    true
}

/// Whether a random row, if it is there, has this length.
fn random_fits<EF>(dimension: usize, row: &Option<Vec<EF>>) -> bool
    ensures { result ≡ random_fits dimension (row_view row.now) }
{
    match row {
        Some(row) => row.len() == dimension,
        None => true,
    }
}

/// Whether the row is as wide as the AIR, there are so many chunks, and each chunk and the random
/// row are as long as the extension's degree.
fn check_dimensions<EF>(
    width: usize,
    chunks: usize,
    dimension: usize,
    opened: &OpenedValues<EF>,
) -> Result<(), InvalidProofShapeError>
    ensures clear { IfOk result (λ _.
        lengths_fault width chunks dimension (openings_view opened.now) ≡ None) }
    ensures fault { IfErr result (λ error.
        lengths_fault width chunks dimension (openings_view opened.now) ≡ Some error) }
{
    if opened.trace_local.len() == width
        && opened.quotient_chunks.len() == chunks
        && have_length(&opened.quotient_chunks, dimension)
        && random_fits(dimension, &opened.random)
    {
        Ok(())
    } else {
        Err(InvalidProofShapeError::OpenedValuesDimensionMismatch)
    }
}

/// Whether a witness is zero where no work is asked for; where it isn't, this is the error.
fn check_witness(
    bits: usize,
    is_zero: bool,
    error: InvalidProofShapeError,
) -> Result<(), InvalidProofShapeError>
    ensures clear { IfOk result (λ _. witness_fault error bits is_zero ≡ None) }
    ensures fault { IfErr result (λ fault. witness_fault error bits is_zero ≡ Some fault) }
{
    // Where no work is asked for nothing reads the witness, so that any value would pass and one
    // proof could be written in as many ways as the field has elements.
    if bits == 0 && !is_zero {
        return Err(error);
    }
    Ok(())
}

/// The witness before alpha, and then that before zeta.
fn check_witnesses(
    alpha_bits: usize,
    alpha_is_zero: bool,
    bits: usize,
    is_zero: bool,
) -> Result<(), InvalidProofShapeError>
    ensures clear { IfOk result (λ _.
        witnesses_fault alpha_bits alpha_is_zero bits is_zero ≡ None) }
    ensures fault { IfErr result (λ error.
        witnesses_fault alpha_bits alpha_is_zero bits is_zero ≡ Some error) }
{
    let of_alpha = InvalidProofShapeError::NonCanonicalAlphaPowWitness;
    check_witness(alpha_bits, alpha_is_zero, of_alpha)?;
    let of_zeta = InvalidProofShapeError::NonCanonicalOodPowWitness;
    check_witness(bits, is_zero, of_zeta)
}

/// The number of public values, the next row, the other rows' lengths, the witness before alpha and
/// that before zeta, in this order.
fn check_expected<EF>(
    expected: &ExpectedOpenings,
    public_values: usize,
    opened: &OpenedValues<EF>,
    alpha_is_zero: bool,
    ood_is_zero: bool,
) -> Result<(), InvalidProofShapeError>
    ensures clear { IfOk result (λ _. unexpected_fault expected.now public_values
        (openings_view opened.now) alpha_is_zero ood_is_zero ≡ None) }
    ensures fault { IfErr result (λ error. unexpected_fault expected.now public_values
        (openings_view opened.now) alpha_is_zero ood_is_zero ≡ Some error) }
{
    let (width, chunks, dimension) = (expected.width, expected.chunks, expected.dimension);
    let (alpha_bits, ood_bits) = (expected.alpha_bits, expected.ood_bits);
    check_public_values(expected.public_values, public_values)?;
    check_trace_next(expected.reads_next, width, &opened.trace_next)?;
    check_dimensions(width, chunks, dimension, opened)?;
    check_witnesses(alpha_bits, alpha_is_zero, ood_bits, ood_is_zero)
}

/// What the AIR and the configuration expect of a proof with `2^log_chunks` chunks.
fn expected_openings<SC: StarkGenericConfig, A: Air<Val<SC>>>(
    alloc: Global,
    on: &InstanceOf<'_, SC, A>,
    log_chunks: usize,
) -> Result<ExpectedOpenings, AllocError>
where
    SC::Challenger: GrindingChallenger<Witness = Val<SC>>,
    requires few { log_chunks < 64 }
    ensures { IfOk result (λ expected.
        expected ≡ ⟦<SC as StarkChecks<A>>⟧.expected_openings on.now log_chunks) }
{
    let (config, air) = (on.config, on.air);
    let columns = air.main_next_row_columns(alloc)?;
    Ok(ExpectedOpenings {
        public_values: air.num_public_values(),
        reads_next: opens_next_row(&columns),
        width: air.width(),
        chunks: power_of_two(log_chunks),
        dimension: SC::Challenge::DIMENSION,
        alpha_bits: config.constraint_proof_of_work_bits(),
        ood_bits: config.ood_proof_of_work_bits(),
    })
}

/// The number of public values, the opened rows and the witnesses of a proof.
pub(crate) fn check_opened<SC: StarkGenericConfig, A: Air<Val<SC>>>(
    alloc: Global,
    on: &InstanceOf<'_, SC, A>,
    log_chunks: usize,
) -> Result<(), VerificationError<PcsError<SC>>>
where
    SC::Challenger: GrindingChallenger<Witness = Val<SC>>,
    requires few { log_chunks < 64 }
    requires count { log_chunks ≡ ⟦<SC as StarkChecks<A>>⟧.log_chunks on.now }
    ensures clear { IfOk result (λ _. ⟦<SC as StarkChecks<A>>⟧.values_fault on.now ≡ None) }
    ensures fault { IfErrMemoryAside result (λ error.
        of_shape (⟦<SC as StarkChecks<A>>⟧.values_fault on.now) ≡ Some error) }
{
    let proof = on.proof;
    let expected = expected_openings(alloc, on, log_chunks)?;
    let alpha_is_zero = is_zero(proof.alpha_pow_witness);
    let ood_is_zero = is_zero(proof.ood_pow_witness);
    let public_values = on.public_values.len();
    check_expected(
        &expected,
        public_values,
        &proof.opened_values,
        alpha_is_zero,
        ood_is_zero,
    )?;
    Ok(())
}
