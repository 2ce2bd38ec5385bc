//! The stages of a run, a line for each. No clause speaks of them.

use crate::statements::Verb;
use stark_answers::Finding;
use stark_service::{Progress, Stage};
use std::io::Write;

/// The reading of a verb's second input; none where it has none.
fn reading_of_second(verb: Verb) -> Option<Stage> {
    match verb {
        Verb::Verify | Verb::VerifyAtLeast(_) => Some(Stage::ReadingProof),
        Verb::Trace(_) => Some(Stage::ReadingTrace),
        Verb::Show => None,
    }
}

/// What a verb asks for first, of inputs of these lengths.
pub(crate) fn stage_of_inputs(verb: Verb, statement: usize, second: usize) -> Stage {
    match verb {
        Verb::Verify | Verb::VerifyAtLeast(_) => Stage::Verifying {
            statement,
            proof: second,
        },
        Verb::Trace(_) => Stage::Parsing {
            statement,
            trace: second,
        },
        Verb::Show => Stage::Showing { statement },
    }
}

/// Writes a line of each stage. It doesn't matter whether that fails.
#[derive(Drop)]
pub struct StageLines<W> {
    writer: W,
}

impl<W> StageLines<W> {
    /// Lines to a writer.
    pub fn new(writer: W) -> StageLines<W> {
        StageLines { writer }
    }

    /// The writer.
    pub fn into_inner(self) -> W {
        self.writer
    }
}

impl<W: Write> Progress for StageLines<W> {
    fn stage(&mut self, stage: Stage) {
        let _ = writeln!(self.writer, "{stage}");
    }
}

/// Tells that a verb's second input is read, if it has one.
pub(crate) fn tell_second<P: Progress>(verb: Verb, progress: &mut P) {
    if let Some(stage) = reading_of_second(verb) {
        progress.stage(stage);
    }
}

/// Tells that a proof is written, if that is what is found.
pub(crate) fn tell_proof<P: Progress>(finding: &Finding, progress: &mut P) {
    if let Finding::Proof(_) | Finding::ProofBytes(_) = finding {
        let bytes = finding.written().len();
        progress.stage(Stage::WritingProof { bytes });
    }
}
