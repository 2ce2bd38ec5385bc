//! What long work is about to do, reported while it goes on. No clause speaks of it.

use std::fmt;
use std::fmt::{Display, Formatter};

/// What a run is about to do, with how much there is of it.
#[derive(Clone, Copy, Debug, PartialEq, Eq)]
pub enum Stage {
    /// To read the statement.
    ReadingStatement,
    /// To read the proof.
    ReadingProof,
    /// To read the trace.
    ReadingTrace,
    /// To take the JSON of a statement and a trace apart, of these numbers of bytes.
    Parsing { statement: usize, trace: usize },
    /// To verify a proof for a statement, of these numbers of bytes.
    Verifying { statement: usize, proof: usize },
    /// To check a trace.
    Checking { rows: usize, columns: usize },
    /// To prove a trace.
    Proving { rows: usize, columns: usize },
    /// To show a statement.
    Showing { statement: usize },
    /// To write a proof.
    WritingProof { bytes: usize },
}

impl Display for Stage {
    fn fmt<W: fmt::Write>(&self, f: &mut Formatter<W>) -> fmt::Result {
        match self {
            Stage::ReadingStatement => write!(f, "reading the statement"),
            Stage::ReadingProof => write!(f, "reading the proof"),
            Stage::ReadingTrace => write!(f, "reading the trace"),
            Stage::Parsing { statement, trace } => write!(
                f,
                "parsing: statement of {statement} bytes, trace of {trace} bytes"
            ),
            Stage::Verifying { statement, proof } => write!(
                f,
                "verifying: statement of {statement} bytes, proof of {proof} bytes"
            ),
            Stage::Checking { rows, columns } => {
                write!(f, "checking: rows {rows}, columns {columns}")
            }
            Stage::Proving { rows, columns } => {
                write!(f, "proving: rows {rows}, columns {columns}")
            }
            Stage::Showing { statement } => write!(f, "showing: statement of {statement} bytes"),
            Stage::WritingProof { bytes } => write!(f, "writing the proof: {bytes} bytes"),
        }
    }
}

/// What is reported of a run while it goes on.
pub trait Progress {
    /// The run is about to do this.
    fn stage(&mut self, stage: Stage);
}

/// Tells nothing.
#[derive(Clone, Copy, Debug)]
pub struct Silent;

impl Progress for Silent {
    fn stage(&mut self, _stage: Stage) {}
}

/// Tells what is there to tell it; nothing where that is missing.
impl<P: Progress> Progress for Option<P> {
    fn stage(&mut self, stage: Stage) {
        if let Some(progress) = self {
            progress.stage(stage);
        }
    }
}
