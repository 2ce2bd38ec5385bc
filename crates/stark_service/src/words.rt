//! Words for standard error. No clause speaks of them.

ghost use Rattle.std.specs.Prelude.{◌≡◌};
ghost use Rattle.stark_answers.specs.declared.verdict.Verdict.{Verdict};

use stark_answers::{Report, Verdict, words_of_refusal};
use stark_clear::ClearError;
use stark_fri::{FriError, QueryFault};
use stark_transcript::{InvalidProofShapeError, VerificationError};
use std::alloc::{AllocError, Global};
use std::fmt::Display;

/// How many bytes of a value's text are printed.
const VALUE_LENGTH: usize = 40;

/// A text, where there is memory for it.
fn text_of<E: Display>(alloc: Global, words: &E) -> Option<String> {
    format!(in alloc; "{words}").ok()
}

/// The input is bad, for what a sentence says.
pub(crate) fn bad_input<E: Display>(alloc: Global, sentence: &E) -> Report<Verdict>
    ensures { result.answer ≡ Verdict.BadInput }
{
    Report {
        answer: Verdict::BadInput,
        reason: text_of(alloc, sentence),
    }
}

/// The front of a text, of at most `most` bytes and no part of a character; all of it where it
/// isn't longer.
fn front_of(text: &str, most: usize) -> &str {
    if text.len() <= most {
        return text;
    }
    for end in (0..most + 1).rev() {
        if let Some((front, _)) = text.split_at_checked(end) {
            return front;
        }
    }
    ""
}

/// What is printed of a value's text.
pub(crate) fn value_front(text: &str) -> &str {
    front_of(text, VALUE_LENGTH)
}

/// A commitment scheme's fault in words.
pub trait SchemeWords {
    /// Which fault it is, with the round, the fold and the query at fault, all counted from 0.
    fn words(&self, alloc: Global) -> Result<String, AllocError>;
}

impl SchemeWords for ClearError {
    fn words(&self, alloc: Global) -> Result<String, AllocError> {
        format!(in alloc; "{self}")
    }
}

/// A query's fault in words.
fn query_words(alloc: Global, query: usize, fault: QueryFault) -> Result<String, AllocError> {
    match fault {
        QueryFault::Shape => {
            format!(in alloc; "query {query} opens another number of rounds, folds or values")
        }
        QueryFault::Input { round } => {
            format!(in alloc; "query {query}, round {round}: the path doesn't lead to the root")
        }
        QueryFault::Layer { layer } => {
            format!(in alloc; "query {query}, fold {layer}: the path doesn't lead to the root")
        }
        QueryFault::Final => {
            format!(in alloc; "query {query}: the folds don't lead to the final polynomial")
        }
    }
}

impl SchemeWords for FriError {
    fn words(&self, alloc: Global) -> Result<String, AllocError> {
        match self {
            FriError::Query { query, fault } => query_words(alloc, *query, *fault),
            _ => format!(in alloc; "{self}"),
        }
    }
}

/// What of a proof's shape doesn't fit, in words. A proof has one instance here, which has no
/// number.
fn shape_words(alloc: Global, fault: InvalidProofShapeError) -> Result<String, AllocError> {
    match fault {
        InvalidProofShapeError::DegreeBitsTooLarge { maximum, got, .. } => {
            format!(in alloc; "a trace of 2^{got} rows, more than 2^{maximum}")
        }
        InvalidProofShapeError::DegreeBitsTooSmall { minimum, got, .. } => {
            format!(in alloc; "a trace of 2^{got} rows, fewer than 2^{minimum}")
        }
        InvalidProofShapeError::QuotientDomainTooLarge { maximum, got, .. } => {
            format!(in alloc; "a quotient domain of 2^{got} points, more than 2^{maximum}")
        }
        InvalidProofShapeError::PreprocessedDegreeMismatch {
            vk_degree_bits,
            proof_degree_bits,
        } => format!(in alloc;
            "a trace of 2^{proof_degree_bits} rows, and preprocessed columns of 2^{vk_degree_bits}"
        ),
        _ => format!(in alloc; "{fault}")?.replacen(alloc, "instance None: ", "", 1),
    }
}

/// Why the openings are refused, in words.
fn opening_words<E: SchemeWords>(alloc: Global, fault: &E) -> Result<String, AllocError> {
    let words = fault.words(alloc)?;
    format!(in alloc;
        "invalid opening argument: {words} (a proof made for another statement ends so too)"
    )
}

/// Why a proof is refused, in words, where there are others for it than the error's own.
fn words_of_error<E: SchemeWords>(
    alloc: Global,
    error: &VerificationError<E>,
) -> Option<Result<String, AllocError>> {
    match error {
        VerificationError::InvalidProofShape(fault) => Some(shape_words(alloc, *fault)),
        VerificationError::InvalidOpeningArgument(fault) => Some(opening_words(alloc, fault)),
        _ => None,
    }
}

/// In words, what a proof is refused for; None where it is accepted, or there is no memory for the
/// words.
pub fn reason_of<E: SchemeWords + Display>(
    alloc: Global,
    answer: &Result<(), VerificationError<E>>,
) -> Option<String> {
    let Err(error) = answer else {
        return None;
    };
    match words_of_error(alloc, error) {
        Some(words) => {
            let words = words.ok()?;
            format!(in alloc; "the proof is refused: {words}").ok()
        }
        None => words_of_refusal(alloc, answer),
    }
}
