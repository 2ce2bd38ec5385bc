//! The programs whose runs are tested, and in what these differ.

ghost use Rattle.std.specs.Prelude.{◌≡◌, false};

use crate::texts::TEXTS;
use crate::voskligan_texts::VOSKLIGAN_TEXTS;
use stark_answers::{ProofForm, RunEnd, TraceTask};
use stark_cli::statements::Verb;
use stark_cli::{Sink, Source, samples, statements};
use stark_service::{NamedFields, Silent};
use std::alloc::Global;

/// A program.
#[derive(Clone, Copy)]
pub(crate) enum Program {
    /// The one for six sample AIRs.
    StarkRun,
    /// The one for statements.
    Voskligan,
}

/// What parts the two inputs of a run for a statement, in a case's input.
const SEPARATOR: u8 = 0x1e;

/// The input before the separator, and what stands behind it; nothing where there is none.
pub(crate) fn both_inputs(input: &[u8]) -> (&[u8], &[u8]) {
    match input.iter().position(|byte| *byte == SEPARATOR) {
        Some(place) => match input.split_at_checked(place) {
            Some((first, rest)) => (first, rest.get(1..).unwrap_or(b"")),
            None => (input, b""),
        },
        None => (input, b""),
    }
}

/// What a prover is asked by the words behind `prove`.
fn prover_of(flags: &[String]) -> Option<TraceTask> {
    match flags {
        [] => Some(TraceTask::Prove(ProofForm::Json)),
        [flag] if flag.as_str() == "--unchecked" => {
            Some(TraceTask::ProveUnchecked(ProofForm::Json))
        }
        [flag] if flag.as_str() == "--binary" => Some(TraceTask::Prove(ProofForm::Bytes)),
        [first, flag] if first.as_str() == "--unchecked" && flag.as_str() == "--binary" => {
            Some(TraceTask::ProveUnchecked(ProofForm::Bytes))
        }
        _ => None,
    }
}

/// The verb of a case's words.
pub(crate) fn verb_of(words: &[String]) -> Option<Verb> {
    match words {
        [verb] if verb.as_str() == "verify" => Some(Verb::Verify),
        [verb, flag, bits] if verb.as_str() == "verify" && flag.as_str() == "--at-least" => {
            let floor = bits.parse::<usize>().ok()?;
            Some(Verb::VerifyAtLeast(floor))
        }
        [verb] if verb.as_str() == "check" => Some(Verb::Trace(TraceTask::Check)),
        [verb] if verb.as_str() == "show" => Some(Verb::Show),
        [verb, flags @ ..] if verb.as_str() == "prove" => {
            let asked = prover_of(flags)?;
            Some(Verb::Trace(asked))
        }
        _ => None,
    }
}

impl Program {
    /// The texts that its tables cite by name.
    pub(crate) fn texts(self) -> &'static str {
        match self {
            Program::StarkRun => TEXTS,
            Program::Voskligan => VOSKLIGAN_TEXTS,
        }
    }

    /// What is said for want of memory, and how a run ends that says so.
    pub(crate) fn no_memory(self) -> (RunEnd, &'static [u8]) {
        match self {
            Program::StarkRun => (RunEnd::Refused, b"refused OutOfMemory\n"),
            Program::Voskligan => (RunEnd::NotJudged, b"out of memory\n"),
        }
    }

    /// How many reads of a byte a run makes that reads its inputs to their ends: one more than each
    /// has bytes.
    pub(crate) fn reads_of(self, input: &[u8]) -> usize {
        match self {
            Program::StarkRun => input.len().saturating_add(1),
            Program::Voskligan => {
                let (first, second) = both_inputs(input);
                first.len().saturating_add(second.len()).saturating_add(2)
            }
        }
    }

    /// A run of the program. Only the one for statements reads the second input.
    pub(crate) fn run<R: Source, S: Source, W: Sink>(
        self,
        alloc: Global,
        words: &[String],
        reader: &mut R,
        second: &mut S,
        writer: &mut W,
    ) -> RunEnd
        requires fresh_reader { R.has_failed reader.old ≡ false }
        requires fresh_second { S.has_failed second.old ≡ false }
        requires fresh_writer { W.has_failed writer.old ≡ false }
    {
        match self {
            Program::StarkRun => samples::run(alloc, words, reader, writer),
            Program::Voskligan => match verb_of(words) {
                Some(verb) => statements::run::<NamedFields, _, _, _, _>(
                    alloc,
                    verb,
                    reader,
                    second,
                    writer,
                    &mut Silent,
                ).end,
                None => RunEnd::NotJudged,
            },
        }
    }
}
