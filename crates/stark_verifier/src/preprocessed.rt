//! Tests of a proof's preprocessed rows and of the verifier's key.
ghost use Rattle.std.specs.Prelude.{◌≡◌, IfErr, IfOk, None, Some};
ghost use Rattle.std.specs.Option.{option_copied};
ghost use Rattle.stark_protocol.specs.Acceptance.{of_shape};
ghost use Rattle.stark_protocol.specs.ShapeFaults.{expected_next, key_degree_fault, key_width_fault, preprocessed_fault, preprocessed_rows_fault, unread_next_fault, width_in_force, width_of};
ghost use Rattle.stark_verifier.specs.MemoryAside.{IfErrMemoryAside};
ghost use Rattle.stark_verifier.specs.Shape.{row_view, rows_view};

use crate::contracts::StarkChecks;
use crate::instance::InstanceOf;
use crate::key_size::{KeySize, key_of_size};
use stark_air::{Air, BaseAir};
use stark_parts::{PcsError, StarkGenericConfig, Val};
use stark_proof::PreprocessedOpenedValues;
use stark_protocol::PreprocessedVerifierKey;
use stark_support::GrindingChallenger;
use stark_transcript::{InvalidProofShapeError, VerificationError, opens_next_row};
use std::alloc::Global;

/// The key's width where a key is given, and else the AIR's.
pub fn width_in_force<K>(key: Option<&PreprocessedVerifierKey<K>>, air_width: usize) -> usize
    ensures { result ≡ width_in_force (option_copied key.entry) air_width }
{
    match key {
        Some(key) => key.width,
        None => air_width,
    }
}

/// How wide a next row is to be.
fn expected_next(reads_next: bool, width: usize) -> usize
    ensures { result ≡ expected_next reads_next width }
{
    if reads_next { width } else { 0 }
}

/// The length of a row, 0 where it isn't there.
fn width_of<EF>(row: &Option<Vec<EF>>) -> usize
    ensures { result ≡ width_of (row_view row.now) }
{
    match row {
        Some(row) => row.len(),
        None => 0,
    }
}

/// Refuses next values of preprocessed columns whose next row the AIR doesn't read.
fn check_unread_next<EF>(
    reads_next: bool,
    next: &Option<Vec<EF>>,
) -> Result<(), InvalidProofShapeError>
    ensures clear { IfOk result (λ _. unread_next_fault reads_next (row_view next.now) ≡ None) }
    ensures fault { IfErr result (λ error.
        unread_next_fault reads_next (row_view next.now) ≡ Some error) }
{
    match next {
        Some(_) if !reads_next => {
            Err(InvalidProofShapeError::UnexpectedPreprocessedNext { air: None })
        }
        _ => Ok(()),
    }
}

/// The opened preprocessed rows, against the width in force and whether the next one is read.
fn check_preprocessed_rows<EF>(
    width: usize,
    reads_next: bool,
    rows: &Option<PreprocessedOpenedValues<EF>>,
) -> Result<(), InvalidProofShapeError>
    ensures clear { IfOk result (λ _. preprocessed_rows_fault width reads_next
        (rows_view rows.now) ≡ None) }
    ensures fault { IfErr result (λ error.
        preprocessed_rows_fault width reads_next (rows_view rows.now) ≡ Some error) }
{
    let expected = expected_next(reads_next, width);
    let Some(rows) = rows else {
        // Without them the constraints' preprocessed leaves would have no value.
        if width > 0 {
            return Err(InvalidProofShapeError::PreprocessedTraceWidthMismatch {
                expected_local: width,
                expected_next: expected,
                got_local: 0,
                got_next: 0,
            });
        }
        return Ok(());
    };
    // There is no commitment that they could be opened from.
    if width == 0 {
        return Err(InvalidProofShapeError::UnexpectedPreprocessedValues { air: None });
    }
    let (got_local, got_next) = (rows.local.len(), width_of(&rows.next));
    if !(got_local == width && got_next == expected) {
        return Err(InvalidProofShapeError::PreprocessedTraceWidthMismatch {
            expected_local: width,
            expected_next: expected,
            got_local,
            got_next,
        });
    }
    // An empty next row is as long as one that isn't there, so it got past the lengths; still it is
    // an opening that the AIR doesn't have.
    check_unread_next(reads_next, &rows.next)
}

/// The key's width against the AIR's.
fn check_key_width<K>(
    key: Option<&PreprocessedVerifierKey<K>>,
    air_width: usize,
) -> Result<(), InvalidProofShapeError>
    ensures clear { IfOk result (λ _. key_width_fault (option_copied key.entry) air_width ≡ None) }
    ensures fault { IfErr result (λ error.
        key_width_fault (option_copied key.entry) air_width ≡ Some error) }
{
    // The rows were tested against the key's own width, so that alone trusts the key. A key without
    // columns would have a commitment that nothing opens.
    let fits = match key {
        Some(key) => key.width > 0 && key.width == air_width,
        None => air_width == 0,
    };
    if fits {
        Ok(())
    } else {
        Err(InvalidProofShapeError::PreprocessedVerifierKeyInconsistency)
    }
}

/// The key's height against the proof's.
fn check_key_degree<K>(
    key: Option<&PreprocessedVerifierKey<K>>,
    degree_bits: usize,
) -> Result<(), InvalidProofShapeError>
    ensures clear { IfOk result (λ _. key_degree_fault (option_copied key.entry)
        degree_bits ≡ None) }
    ensures fault { IfErr result (λ error.
        key_degree_fault (option_copied key.entry) degree_bits ≡ Some error) }
{
    // The rows are claimed on the committed trace's domain: a commitment of another height has
    // other values there.
    match key {
        Some(key) if key.degree_bits != degree_bits => {
            Err(InvalidProofShapeError::PreprocessedDegreeMismatch {
                vk_degree_bits: key.degree_bits,
                proof_degree_bits: degree_bits,
            })
        }
        _ => Ok(()),
    }
}

/// The preprocessed rows, then the key's width, then its height.
fn check_rows_and_key<K, EF>(
    key: Option<&PreprocessedVerifierKey<K>>,
    air_width: usize,
    reads_next: bool,
    degree_bits: usize,
    rows: &Option<PreprocessedOpenedValues<EF>>,
) -> Result<(), InvalidProofShapeError>
    ensures clear { IfOk result (λ _. preprocessed_fault (option_copied key.entry) air_width
        reads_next degree_bits (rows_view rows.now) ≡ None) }
    ensures fault { IfErr result (λ error. preprocessed_fault (option_copied key.entry) air_width
        reads_next degree_bits (rows_view rows.now) ≡ Some error) }
{
    // The rows before the key, so that a proof that brings none is told so even where the key is
    // wrong too.
    check_preprocessed_rows(width_in_force(key, air_width), reads_next, rows)?;
    check_key_width(key, air_width)?;
    check_key_degree(key, degree_bits)
}

/// The preprocessed rows and the key, beside what the AIR declares.
pub(crate) fn check_preprocessed<SC: StarkGenericConfig, A: Air<Val<SC>>>(
    alloc: Global,
    on: &InstanceOf<'_, SC, A>,
) -> Result<(), VerificationError<PcsError<SC>>>
where
    SC::Challenger: GrindingChallenger<Witness = Val<SC>>,
    ensures clear { IfOk result (λ _. ⟦<SC as StarkChecks<A>>⟧.key_fault on.now ≡ None) }
    ensures fault { IfErrMemoryAside result (λ error.
        of_shape (⟦<SC as StarkChecks<A>>⟧.key_fault on.now) ≡ Some error) }
{
    let (air, key, degree_bits) = (on.air, on.key, on.proof.degree_bits);
    let columns = air.preprocessed_next_row_columns(alloc)?;
    let reads_next = opens_next_row(&columns);
    let rows = &on.proof.opened_values.preprocessed;
    check_rows_and_key(key, air.preprocessed_width(), reads_next, degree_bits, rows)?;
    Ok(())
}

/// The preprocessed rows beside any key of a size, and beside what the AIR declares. The instance's
/// own key isn't read.
pub(crate) fn check_preprocessed_beside<SC: StarkGenericConfig, A: Air<Val<SC>>>(
    alloc: Global,
    on: &InstanceOf<'_, SC, A>,
    size: Option<KeySize>,
) -> Result<(), VerificationError<PcsError<SC>>>
where
    SC::Challenger: GrindingChallenger<Witness = Val<SC>>,
    ensures clear { IfOk result (λ _. ⟦<SC as StarkChecks<A>>⟧.rows_fault on.now size ≡ None) }
    ensures fault { IfErrMemoryAside result (λ error.
        of_shape (⟦<SC as StarkChecks<A>>⟧.rows_fault on.now size) ≡ Some error) }
{
    let (air, degree_bits) = (on.air, on.proof.degree_bits);
    let columns = air.preprocessed_next_row_columns(alloc)?;
    let reads_next = opens_next_row(&columns);
    let rows = &on.proof.opened_values.preprocessed;
    let key = size.map(key_of_size);
    check_rows_and_key(
        key.as_ref(),
        air.preprocessed_width(),
        reads_next,
        degree_bits,
        rows,
    )?;
    Ok(())
}
