//! What the program says of an input, and the line that says so.

ghost use Rattle.std.specs.Prelude.{◌≡◌, ◌++◌, codes};
ghost use Rattle.stark_answers.specs.Verdict.{line_of, name_of, end_of, status_of};

use stark_transcript::InvalidProofShapeError;

/// How a run ends.
#[derive(Clone, Copy, Debug, PartialEq, Eq)]
pub enum RunEnd {
    /// The line `accepted` or `satisfied`, a proof's line or a text that shows an AIR is written.
    Accepted,
    /// A line that begins with `refused`, or the two of a row that breaks a constraint, is written.
    Refused,
    /// The line `bad input` or `out of memory` is written: nothing was judged.
    NotJudged,
    /// The line that begins with `not judged` is written: a proof is worth less than is asked for.
    BelowFloor,
    /// A read failed.
    InputFailed,
    /// A write failed.
    OutputFailed,
}

impl RunEnd {
    /// The exit status.
    pub fn status(self) -> u8
        ensures { result ≡ status_of self }
    {
        match self {
            RunEnd::Accepted => 0,
            RunEnd::Refused => 1,
            RunEnd::NotJudged | RunEnd::InputFailed | RunEnd::OutputFailed => 2,
            RunEnd::BelowFloor => 4,
        }
    }
}

/// Why what was read is refused, or not proved.
#[derive(Clone, Copy, Debug, PartialEq, Eq)]
pub enum Refusal {
    /// The folded constraints differ from the vanishing value times the quotient.
    OodEvaluationMismatch,
    /// The point lies in the domain of the trace.
    OodPointInDomain,
    /// A periodic column doesn't fit the height.
    PeriodicColumn,
    /// The field has no group as large as the quotient's domain.
    QuotientDomainTooLarge,
    /// The commitment scheme refuses to commit or to open.
    Pcs,
    /// No element is a witness of the work that is asked for.
    GrindExhausted,
    /// A statement's AIR passes a limit.
    AirTooLarge,
    /// An allocation failed.
    OutOfMemory,
    /// A proof's shape doesn't fit.
    InvalidProofShape(InvalidProofShapeError),
    /// The commitment scheme refuses a proof's openings.
    InvalidOpeningArgument,
    /// The random commitment or its opening is missing, or is there and isn't wanted.
    RandomizationError,
    /// The trace's domain has no next point.
    NextPointUnavailable,
    /// The witness of work before alpha doesn't pass.
    InvalidAlphaPowWitness,
    /// The witness of work before the out-of-domain point doesn't pass.
    InvalidOodPowWitness,
}

impl Refusal {
    /// The line that says it, with its newline.
    fn line(self) -> &'static str
        ensures { result.now ≡ codes "refused " ++ name_of self ++ codes "\n" }
    {
        match self {
            Refusal::OodEvaluationMismatch => "refused OodEvaluationMismatch\n",
            Refusal::OodPointInDomain => "refused OodPointInDomain\n",
            Refusal::PeriodicColumn => "refused PeriodicColumn\n",
            Refusal::QuotientDomainTooLarge => "refused QuotientDomainTooLarge\n",
            Refusal::Pcs => "refused Pcs\n",
            Refusal::GrindExhausted => "refused GrindExhausted\n",
            Refusal::AirTooLarge => "refused AirTooLarge\n",
            Refusal::OutOfMemory => "refused OutOfMemory\n",
            Refusal::InvalidProofShape(fault) => fault.refusal_line(),
            Refusal::InvalidOpeningArgument => "refused InvalidOpeningArgument\n",
            Refusal::RandomizationError => "refused RandomizationError\n",
            Refusal::NextPointUnavailable => "refused NextPointUnavailable\n",
            Refusal::InvalidAlphaPowWitness => "refused InvalidAlphaPowWitness\n",
            Refusal::InvalidOodPowWitness => "refused InvalidOodPowWitness\n",
        }
    }
}

/// What is said of an input.
#[derive(Clone, Copy, Debug, PartialEq, Eq)]
pub enum Verdict {
    /// The checks hold, or the verifier accepts.
    Accepted,
    /// What was read is refused or not proved, or memory was wanting.
    Refused(Refusal),
    /// The words name no command, or the input isn't one for it.
    BadInput,
    /// An allocation failed before the input was judged.
    OutOfMemory,
}

impl Verdict {
    /// The line that says it, with its newline.
    pub fn line(self) -> &'static str
        ensures { result.now ≡ line_of self }
    {
        match self {
            Verdict::Accepted => "accepted\n",
            Verdict::Refused(why) => why.line(),
            Verdict::BadInput => "bad input\n",
            Verdict::OutOfMemory => "out of memory\n",
        }
    }

    /// How a run ends that has written the line.
    pub fn end(self) -> RunEnd
        ensures { result ≡ end_of self }
    {
        match self {
            Verdict::Accepted => RunEnd::Accepted,
            Verdict::Refused(_) => RunEnd::Refused,
            Verdict::BadInput | Verdict::OutOfMemory => RunEnd::NotJudged,
        }
    }
}
