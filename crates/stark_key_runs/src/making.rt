//! A run that makes the key of a statement.
ghost use Rattle.std.specs.Prelude.{◌≡◌, ◌↔◌, IfSome, true, false};
ghost use Rattle.stark_answers.specs.declared.verdict.RunEnd.{RunEnd};
ghost use Rattle.stark_key_runs.specs.KeyRuns.{SaysKey, WroteKey};

use stark_answers::{Finding, RunEnd, Verdict};
use stark_cli::statements::Ended;
use stark_cli::{InputFault, Sink, Source, read_to_end, tell, write_all};
use stark_keys::StatementKeys;
use std::alloc::Global;

/// Writes a key's file; how the run ends.
fn write_key<W: Sink>(key: &[u8], writer: &mut W) -> Ended
    requires { W.has_failed writer.old ≡ false }
    ensures wrote { WroteKey result.end key.now (W.contents writer.old) (W.contents writer.new) }
    ensures output_failed { (result.end ≡ RunEnd.OutputFailed) ↔ (W.has_failed writer.new ≡ true) }
{
    let end = match write_all(writer, key) {
        Ok(()) => RunEnd::Accepted,
        Err(_) => RunEnd::OutputFailed,
    };
    Ended { end, reason: None }
}

/// Makes the key of the statement whose bytes the reader has, with the answers of `A`, and writes
/// its file. Where there is none, the line of the verdict that says why is written, as
/// `statement_key` says it; after a failed read nothing is.
pub fn run_key<A: StatementKeys, S: Source, W: Sink>(
    alloc: Global,
    statement: &mut S,
    writer: &mut W,
) -> Ended
    requires fresh { S.has_failed statement.old ≡ false }
    requires fresh_writer { W.has_failed writer.old ≡ false }
    // A run that ends well wrote the file of the statement's key.
    ensures says { SaysKey A.makes A.key_file (S.remaining statement.old) result.end
        (W.contents writer.old) (W.contents writer.new) }
    // These two ends come from a failed read and a failed write, and from nothing else.
    ensures input_failed { (result.end ≡ RunEnd.InputFailed)
        ↔ (S.has_failed statement.new ≡ true) }
    ensures output_failed { (result.end ≡ RunEnd.OutputFailed) ↔ (W.has_failed writer.new ≡ true) }
    ensures silent { result.end ≡ RunEnd.InputFailed → writer.new ≡ writer.old }
{
    let bytes = match read_to_end(alloc, statement) {
        Ok(bytes) => bytes,
        Err(InputFault::Failed) => {
            return Ended {
                end: RunEnd::InputFailed,
                reason: None,
            };
        }
        Err(InputFault::OutOfMemory) => {
            return Ended {
                end: tell(&Finding::Verdict(Verdict::OutOfMemory), writer),
                reason: None,
            };
        }
    };
    match A::key(alloc, bytes) {
        Ok(key) => write_key(&key, writer),
        Err(report) => Ended {
            end: tell(&Finding::Verdict(report.answer), writer),
            reason: report.reason,
        },
    }
}
