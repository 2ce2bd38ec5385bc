//! What is written of what is found, and how a run ends.

ghost use Rattle.std.specs.Prelude.{◌≡◌, ◌↔◌, ◌⊎◌, true, false, IfErr, IfOk, is_err};
ghost use Rattle.stark_cli.specs.Running.{IsSomeProof, Says};
ghost use Rattle.stark_answers.specs.declared.finding.Finding.{Finding};

use crate::streams::{InputFault, Sink, write_all};
use stark_answers::{Finding, RunEnd, Verdict};

/// What is found of an input that wasn't read, where this is said for want of memory.
pub(crate) fn unread_input(fault: InputFault, memory: Verdict) -> Result<Finding, RunEnd>
    ensures memory { IfOk result (λ f. f ≡ Finding.Verdict memory) }
    ensures kind { IfErr result (λ e. e ≡ RunEnd.InputFailed) }
    ensures failed { (is_err result ≡ true) ↔ (fault ≡ InputFault.Failed) }
{
    match fault {
        InputFault::OutOfMemory => Ok(Finding::Verdict(memory)),
        InputFault::Failed => Err(RunEnd::InputFailed),
    }
}

/// Writes the line of what is found. How it ends says what it wrote; after a failed write a front
/// of it.
pub fn tell<W: Sink>(finding: &Finding, writer: &mut W) -> RunEnd
    requires { W.has_failed writer.old ≡ false }
    ensures says { Says result finding.now (W.contents writer.old) (W.contents writer.new) }
    ensures input_read { result ≡ RunEnd.InputFailed → ⊥ }
    ensures output_failed { (result ≡ RunEnd.OutputFailed) ↔ (W.has_failed writer.new ≡ true) }
{
    match write_all(writer, finding.written()) {
        Ok(()) => finding.end(),
        Err(_) => RunEnd::OutputFailed,
    }
}

/// How what is found was written, and whether it is a proof.
#[derive(Clone, Copy, Debug, PartialEq, Eq)]
pub(crate) struct Outcome {
    pub(crate) end: RunEnd,
    pub(crate) is_proof: bool,
}

/// Writes what is found: a proof to the output, anything else to the writer.
pub(crate) fn tell_apart<O: Sink, W: Sink>(
    finding: &Finding,
    output: &mut O,
    writer: &mut W,
) -> Outcome
    requires fresh_output { O.has_failed output.old ≡ false }
    requires fresh_writer { W.has_failed writer.old ≡ false }
    ensures proof { result.is_proof ≡ true → IsSomeProof finding.now }
    ensures output { result.is_proof ≡ true
        → Says result.end finding.now (O.contents output.old) (O.contents output.new) }
    ensures kept { result.is_proof ≡ true → writer.new ≡ writer.old }
    ensures other { result.is_proof ≡ false → IsSomeProof finding.now → ⊥ }
    ensures writer { result.is_proof ≡ false
        → Says result.end finding.now (W.contents writer.old) (W.contents writer.new) }
    ensures untouched { result.is_proof ≡ false → output.new ≡ output.old }
    ensures input_read { result.end ≡ RunEnd.InputFailed → ⊥ }
    ensures output_failed { (result.end ≡ RunEnd.OutputFailed)
        ↔ ((O.has_failed output.new ≡ true) ⊎ (W.has_failed writer.new ≡ true)) }
{
    match finding {
        Finding::Proof(_) | Finding::ProofBytes(_) => Outcome {
            end: tell(finding, output),
            is_proof: true,
        },
        Finding::Verdict(_)
        | Finding::Text(_)
        | Finding::Satisfied
        | Finding::Broken(_)
        | Finding::TooFewBits(_) => Outcome {
            end: tell(finding, writer),
            is_proof: false,
        },
    }
}
