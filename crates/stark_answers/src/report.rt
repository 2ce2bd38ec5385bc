//! An answer, and what there is to say beside it.

ghost use Rattle.std.specs.Prelude.{◌≡◌};
ghost use Rattle.stark_answers.specs.Finding.{unjudged_finding};
ghost use Rattle.stark_answers.specs.Verdict.{unjudged};
ghost use Rattle.stark_answers.specs.declared.finding.Finding.{Finding};
ghost use Rattle.stark_answers.specs.declared.verdict.Verdict.{Verdict};
ghost use Rattle.stark_answers.specs.declared.verdict.Refusal.{Refusal};

use crate::finding::Finding;
use crate::verdict::{Refusal, Verdict};
use std::alloc::Global;
use std::fmt::Display;

/// An answer, and in words why it isn't another, where there is something to say and memory to say
/// it. No clause speaks of the words.
#[derive(Debug, Drop)]
pub struct Report<T> {
    pub answer: T,
    pub reason: Option<String>,
}

/// The words of an error, after what they speak of.
pub(crate) fn words<E: Display>(alloc: Global, subject: &str, error: &E) -> Option<String> {
    match format!(in alloc; "{subject}: {error}") {
        Ok(text) => Some(text),
        Err(_) => None,
    }
}

impl Report<Verdict> {
    /// The input is bad, for this error.
    pub fn bad_input<E: Display>(alloc: Global, subject: &str, error: &E) -> Report<Verdict>
        ensures { result.answer ≡ Verdict.BadInput }
    {
        Report {
            answer: Verdict::BadInput,
            reason: words(alloc, subject, error),
        }
    }

    /// The rows are no trace of the AIR's: their number, their width or the number of public values
    /// is another.
    pub fn unfit_trace(alloc: Global) -> Report<Verdict>
        ensures { result.answer ≡ Verdict.BadInput }
    {
        let wanted =
            "a power of two of rows, as many as the preprocessed columns have, each as wide as the AIR";
        Report::bad_input(alloc, "the trace doesn't fit the AIR", &wanted)
    }

    /// A statement's AIR passes a limit, which the error names.
    pub fn air_too_large<E: Display>(alloc: Global, passed: &E) -> Report<Verdict>
        ensures { result.answer ≡ Verdict.Refused Refusal.AirTooLarge }
    {
        Report {
            answer: Verdict::Refused(Refusal::AirTooLarge),
            reason: words(alloc, "the AIR is too large", passed),
        }
    }

    /// An allocation failed in the middle of a command that refuses by name.
    pub fn no_memory() -> Report<Verdict>
        ensures { result.answer ≡ Verdict.Refused Refusal.OutOfMemory }
    {
        Report {
            answer: Verdict::Refused(Refusal::OutOfMemory),
            reason: None,
        }
    }

    /// An allocation failed, and nothing was judged: there is no memory to say more.
    pub fn out_of_memory() -> Report<Verdict>
        ensures { result.answer ≡ Verdict.OutOfMemory }
    {
        Report {
            answer: Verdict::OutOfMemory,
            reason: None,
        }
    }

    /// The report with its verdict as a finding.
    pub fn as_finding(self) -> Report<Finding>
        ensures { result.answer ≡ Finding.Verdict self.answer }
    {
        Report {
            answer: Finding::Verdict(self.answer),
            reason: self.reason,
        }
    }

    /// Want of memory is no refusal here: nothing was judged.
    pub fn unless_unjudged(self) -> Report<Verdict>
        ensures { result.answer ≡ unjudged self.answer }
    {
        match self.answer {
            Verdict::Refused(Refusal::OutOfMemory) => Report::out_of_memory(),
            _ => self,
        }
    }
}

impl Report<Finding> {
    /// Want of memory is no refusal here: nothing was judged.
    pub fn unless_unjudged(self) -> Report<Finding>
        ensures { result.answer ≡ unjudged_finding self.answer }
    {
        match self.answer {
            Finding::Verdict(Verdict::Refused(Refusal::OutOfMemory)) => {
                Report::out_of_memory().as_finding()
            }
            _ => self,
        }
    }
}
