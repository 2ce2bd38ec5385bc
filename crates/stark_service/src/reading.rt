//! Statements, proofs and traces, read; and what is said where one wasn't.

ghost use Rattle.std.specs.Prelude.{◌≡◌, ℕ, List, None, Result, nat_eq, true};
ghost use Rattle.std.specs.List.{starts_with};
ghost use Rattle.stark_support.specs.Json.{json_of};
ghost use Rattle.stark_proof.specs.ProofJson.{proof_fault, proof_reading};
ghost use Rattle.stark_proof.specs.ProofView.{proof_view};
ghost use Rattle.stark_proof_bytes.specs.Bytes.{named};
ghost use Rattle.stark_proof_bytes.specs.ProofBytes.{codecs, magic};
ghost use Rattle.stark_statement.specs.StatementApart.{data_of};
ghost use Rattle.stark_statement.specs.StatementJson.{statement_fault, statement_reading};
ghost use Rattle.stark_answers.specs.declared.report.Report.{Report};
ghost use Rattle.stark_answers.specs.declared.verdict.Verdict.{Verdict};
ghost use Rattle.stark_service.specs.Statements.{ReadsPart, ReadsRows, ReadsStatement, proof_in, rows_in, verdict_of_fault, verdict_of_rows, verdict_without};

use crate::words::{bad_input, value_front};
use serde_json::Value;
use stark_answers::{Report, Verdict};
use stark_json::Document;
use stark_proof::{OpeningsDecodeError, Proof, ProofDecodeError};
use stark_proof_bytes::{BytesCodec, BytesFault, proof_from_bytes};
use stark_statement::{AirLimits, Statement, StatementError};
use stark_support::{Field, JsonCodec, JsonFault, NeverNull, PrimeField64, value_from_bytes};
use stark_text_faults::first_fault_of_json;
use stark_trace_json::{RowsFault, TraceRows, rows_from_bytes};
use stark_tree_air::TreeJsonError;
use std::alloc::{AllocError, Global};

/// The statement that a JSON document spells, whose AIR is within the limits (`AirLimits::under`
/// its scheme); or what is said where there is none: `bad input`, with the field, node or
/// constraint at fault in words; `refused AirTooLarge`, with the limit that is passed in words; or
/// `out of memory`. Of a statement whose AIR passes a limit nothing is built.
pub fn read_statement<F: Field + JsonCodec>(
    alloc: Global,
    value: &Document,
) -> Result<Statement<F>, Report<Verdict>>
    ensures { ReadsStatement result (statement_reading F.reading (data_of value.now)) }
{
    let statement = match Statement::<F>::from_document(alloc, value) {
        Ok(statement) => statement,
        Err(error) => return Err(unread_statement(alloc, &error)),
    };
    match AirLimits::under(statement.config.scheme).check(&statement.air) {
        Ok(()) => Ok(statement),
        Err(passed) => Err(Report::air_too_large(alloc, &passed)),
    }
}

/// What is said of a statement that wasn't read.
pub(crate) fn unread_statement(alloc: Global, error: &StatementError) -> Report<Verdict>
    ensures { result.answer ≡ verdict_without (statement_fault error.now) }
{
    match error {
        StatementError::OutOfMemory | StatementError::Air(TreeJsonError::OutOfMemory) => {
            Report::out_of_memory()
        }
        _ => Report::bad_input(alloc, "the statement", error),
    }
}

/// What the bytes of a file are read as. It has no code.
pub trait ReadProof: Sized {
    /// The proof that they spell was read, or the report says why not.
    ghost read: { List ℕ → Result Self (Report Verdict) → Type 0 };
}

impl<Com, Challenge, PcsProof, Val> ReadProof for Proof<Com, Challenge, PcsProof, Val>
where
    Com: NeverNull + BytesCodec + Drop,
    Challenge: JsonCodec + BytesCodec + Drop,
    PcsProof: JsonCodec + BytesCodec + Drop,
    Val: Field + NeverNull + BytesCodec,
{
    ghost read = { λ bytes answer. ReadsPart proof_view answer (proof_in
        (proof_reading Com.reading Challenge.reading PcsProof.reading Val.reading Val.ring.zero)
        (codecs Com.bytes Challenge.bytes PcsProof.bytes Val.bytes) bytes) };
}

/// The proof that the bytes of a file spell, in either form: as bytes where they begin so, and else
/// as JSON; or `bad input` with its first fault in that form, or `out of memory`.
#[tactic(auto, unfolding(crate::specs::Statements::proof_in, crate::specs::Statements::proof_in_json, crate::specs::Statements::proof_in_bytes))]
pub fn read_proof<Com, Challenge, PcsProof, Val>(
    alloc: Global,
    bytes: &[u8],
) -> Result<Proof<Com, Challenge, PcsProof, Val>, Report<Verdict>>
where
    Com: NeverNull + BytesCodec + Drop,
    Challenge: JsonCodec + BytesCodec + Drop,
    PcsProof: JsonCodec + BytesCodec + Drop,
    Val: Field + NeverNull + BytesCodec,
    ensures { ⟦<Proof<Com, Challenge, PcsProof, Val> as ReadProof>⟧.read bytes.now result }
{
    if begin_as_proof(bytes) {
        return match proof_from_bytes(alloc, bytes) {
            Ok(proof) => Ok(proof),
            Err(fault) => Err(unread_bytes(alloc, &fault)),
        };
    }
    let value = match value_from_bytes(alloc, bytes) {
        Ok(value) => value,
        Err(error) => return Err(unread_text(alloc, "the proof", bytes, &error)),
    };
    match Proof::from_json(alloc, &value) {
        Ok(proof) => Ok(proof),
        Err(error) => Err(unread_proof(alloc, &error)),
    }
}

/// Whether bytes begin as those of a proof, which no JSON text does.
fn begin_as_proof(bytes: &[u8]) -> bool
    ensures begins { result ≡ starts_with nat_eq bytes.now magic }
    ensures no_json { result ≡ true → json_of bytes.now ≡ None }
{
    bytes.starts_with("voskligan proof 2".as_bytes())
}

/// What is said of a proof that wasn't read of its JSON.
fn unread_proof(alloc: Global, error: &ProofDecodeError) -> Report<Verdict>
    ensures { result.answer ≡ verdict_without (proof_fault error.now) }
{
    match error {
        ProofDecodeError::OutOfMemory => Report::out_of_memory(),
        _ => no_proof(alloc, error),
    }
}

/// The input is bad: it is no proof, for this error. The field at fault has no name where it is the
/// proof or the opened values as a whole.
fn no_proof(alloc: Global, error: &ProofDecodeError) -> Report<Verdict>
    ensures { result.answer ≡ Verdict.BadInput }
{
    match error {
        ProofDecodeError::WrongKind { field: "" } => { bad_input(alloc, &"the proof is no object") }
        ProofDecodeError::Openings(OpeningsDecodeError::WrongKind { field: "" }) => {
            bad_input(alloc, &"the proof: the opened values are no object")
        }
        _ => Report::bad_input(alloc, "the proof", error),
    }
}

/// What is said of a proof that wasn't read of its bytes, whose first fault this is.
fn unread_bytes(alloc: Global, fault: &BytesFault) -> Report<Verdict>
    ensures { result.answer ≡ verdict_without (named fault.now) }
{
    match fault {
        BytesFault::OutOfMemory => Report::out_of_memory(),
        _ => Report::bad_input(alloc, "the proof", fault),
    }
}

/// The rows of a trace that the bytes of a JSON text spell: an array of arrays of numbers, all of
/// one length; or what is said of the first fault. The bytes are dropped once they are read.
pub(crate) fn read_rows<F: PrimeField64 + JsonCodec>(
    alloc: Global,
    bytes: Vec<u8>,
) -> Result<TraceRows<F>, Report<Verdict>>
    ensures { ReadsRows result (rows_in F.reading bytes.items) }
{
    match rows_from_bytes::<F>(alloc, &bytes) {
        Ok(rows) => Ok(rows),
        Err(fault) => Err(unread_rows::<F>(alloc, &bytes, &fault)),
    }
}

/// How many elements a field has, in words.
fn order_of<F: PrimeField64>() -> u64 {
    let greatest = F::from_u8(0) - F::from_u8(1);
    greatest.as_canonical_u64().saturating_add(1)
}

/// The words for a value in a row that is no element of a field.
fn words_of_element<F: PrimeField64>(
    alloc: Global,
    row: usize,
    column: usize,
    value: &Value,
) -> Result<String, AllocError> {
    let text = value.to_string(alloc)?;
    let (front, order) = (value_front(&text), order_of::<F>());
    let dots = if front.len() < text.len() { ".." } else { "" };
    format!(in alloc;
        "the trace: row {row}, column {column}: {front}{dots} is no whole number below {order}"
    )
}

/// What is said of a text that spells no rows of one length, whose first fault this is.
fn unread_rows<F: PrimeField64>(alloc: Global, bytes: &[u8], fault: &RowsFault) -> Report<Verdict>
    ensures { result.answer ≡ verdict_of_rows fault.now }
{
    match fault {
        RowsFault::OutOfMemory => Report::out_of_memory(),
        RowsFault::NoJson => unread_text(alloc, "the trace", bytes, &JsonFault::Invalid),
        RowsFault::NoArray => bad_input(alloc, &"the trace is no array of rows"),
        RowsFault::NoElement { row, column, value } => Report {
            answer: Verdict::BadInput,
            reason: words_of_element::<F>(alloc, *row, *column, value).ok(),
        },
        RowsFault::NoRow { .. } | RowsFault::Uneven { .. } => {
            Report::bad_input(alloc, "the trace", fault)
        }
    }
}

/// What is said of a text that wasn't read: where it stops being JSON.
pub(crate) fn unread_text(
    alloc: Global,
    subject: &str,
    bytes: &[u8],
    error: &JsonFault,
) -> Report<Verdict>
    ensures { result.answer ≡ verdict_of_fault error.now }
{
    match error {
        JsonFault::OutOfMemory => Report::out_of_memory(),
        JsonFault::Invalid => not_json(alloc, subject, bytes),
    }
}

/// The input is bad: it is no JSON, and where it stops being so is said, if there is memory for
/// that.
fn not_json(alloc: Global, subject: &str, bytes: &[u8]) -> Report<Verdict>
    ensures { result.answer ≡ Verdict.BadInput }
{
    match first_fault_of_json(alloc, bytes) {
        Ok(Some(fault)) => Report::bad_input(alloc, subject, &fault),
        Ok(None) | Err(_) => Report::bad_input(alloc, subject, &JsonFault::Invalid),
    }
}
