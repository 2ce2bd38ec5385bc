//! What is found of an input: what is said of it, a proof, a text, or what a check finds.

ghost use Rattle.std.specs.Prelude.{◌≡◌};
ghost use Rattle.stark_answers.specs.Finding.{finding_bytes, finding_end};

use crate::verdict::{RunEnd, Verdict};

/// A row of a trace that breaks a constraint.
#[derive(Debug, Drop)]
pub struct BrokenRow {
    /// The row's number.
    pub row: usize,
    /// The constraint's number.
    pub constraint: usize,
    /// The number of the constraint's value there.
    pub value: u64,
    /// What is written: these three, and below them the constraint's equation.
    pub lines: String,
}

/// What is found of an input.
#[derive(Debug, Drop)]
pub enum Finding {
    /// What is said of it.
    Verdict(Verdict),
    /// The line of a proof, with its newline.
    Proof(String),
    /// The bytes of a proof.
    ProofBytes(Vec<u8>),
    /// The lines that show an AIR.
    Text(String),
    /// A trace satisfies its AIR.
    Satisfied,
    /// A row of a trace breaks a constraint.
    Broken(BrokenRow),
    /// The line of how many bits are proved, fewer than are asked for, with its newline.
    TooFewBits(String),
}

impl Finding {
    /// What is written: a text with the newline at its end, or the bytes of a proof.
    pub fn written(&self) -> &[u8]
        ensures { result.now ≡ finding_bytes self.now }
    {
        match self {
            Finding::Verdict(verdict) => verdict.line().as_bytes(),
            Finding::Proof(line) | Finding::Text(line) | Finding::TooFewBits(line) =>
                line.as_bytes(),
            Finding::ProofBytes(bytes) => bytes.as_slice(),
            Finding::Satisfied => "satisfied\n".as_bytes(),
            Finding::Broken(row) => row.lines.as_bytes(),
        }
    }

    /// How a run ends that has written it.
    pub fn end(&self) -> RunEnd
        ensures { result ≡ finding_end self.now }
    {
        match self {
            Finding::Verdict(verdict) => verdict.end(),
            Finding::Proof(_) | Finding::ProofBytes(_) | Finding::Text(_) | Finding::Satisfied =>
                RunEnd::Accepted,
            Finding::Broken(_) => RunEnd::Refused,
            Finding::TooFewBits(_) => RunEnd::BelowFloor,
        }
    }
}
