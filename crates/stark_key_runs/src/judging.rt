//! A run that verifies a proof with a key.
ghost use Rattle.std.specs.Prelude.{◌≡◌, ◌↔◌, IfErr, IfOk, true, false, is_err};
ghost use Rattle.stark_answers.specs.declared.verdict.RunEnd.{RunEnd};
ghost use Rattle.stark_answers.specs.declared.verdict.Verdict.{Verdict};
ghost use Rattle.stark_answers.specs.declared.verdict.Verdict.TheVariants.{Accepted};
ghost use Rattle.stark_key_runs.specs.KeyRuns.{IsJudged, IsSound, SaysVerdict, SomeFailed};

use stark_answers::{Finding, Report, RunEnd, Verdict};
use stark_cli::statements::Ended;
use stark_cli::{InputFault, RunWithBoth, Sink, Source, read_to_end, tell};
use stark_keys::StatementKeys;
use std::alloc::Global;

/// A verdict by want of memory, or a run's end by a failed read.
fn unread(fault: InputFault) -> Result<Report<Verdict>, RunEnd>
    ensures memory { IfOk result (λ report. report.answer ≡ Verdict.OutOfMemory) }
    ensures kind { IfErr result (λ end. end ≡ RunEnd.InputFailed) }
    ensures failed { (is_err result ≡ true) ↔ (fault ≡ InputFault.Failed) }
{
    match fault {
        InputFault::OutOfMemory => Ok(Report {
            answer: Verdict::OutOfMemory,
            reason: None,
        }),
        InputFault::Failed => Err(RunEnd::InputFailed),
    }
}

/// The verdict on what the readers have, or a failed read.
fn judge<A: StatementKeys, K: Source, S: Source, R: Source>(
    alloc: Global,
    key: &mut K,
    statement: &mut S,
    proof: &mut R,
) -> Result<Report<Verdict>, RunEnd>
    requires key { K.has_failed key.old ≡ false }
    requires statement { S.has_failed statement.old ≡ false }
    requires proof { R.has_failed proof.old ≡ false }
    ensures judged { IfOk result (λ report. IsJudged A.judges (K.remaining key.old)
        (S.remaining statement.old) (R.remaining proof.old) report.answer) }
    ensures sound { IfOk result (λ r. r.answer ≡ Accepted → IsSound A.sound_with_key
        (K.remaining key.old) (S.remaining statement.old) (R.remaining proof.old)) }
    ensures kind { IfErr result (λ end. end ≡ RunEnd.InputFailed) }
    ensures failed { (is_err result ≡ true) ↔ SomeFailed (K.has_failed key.new)
        (S.has_failed statement.new) (R.has_failed proof.new) }
{
    let key = match read_to_end(alloc, key) {
        Ok(bytes) => bytes,
        Err(fault) => return unread(fault),
    };
    let statement = match read_to_end(alloc, statement) {
        Ok(bytes) => bytes,
        Err(fault) => return unread(fault),
    };
    let proof = match read_to_end(alloc, proof) {
        Ok(bytes) => bytes,
        Err(fault) => return unread(fault),
    };
    Ok(A::verify_with_key(alloc, statement, &key, &proof))
}

/// Verifies the proof that a reader has for the statement that another has, with the bytes of the
/// key that a third has, by the answers of `A`, and writes the line of the verdict, as
/// `verify_statement_with_key` says it. All three are read to their ends, the key first and the
/// proof last; after a failed read nothing is written.
pub fn run_with_key<A: StatementKeys, K: Source, S: Source, R: Source, W: Sink>(
    alloc: Global,
    key: &mut K,
    statement: &mut S,
    proof: &mut R,
    writer: &mut W,
) -> Ended
    requires key { K.has_failed key.old ≡ false }
    requires statement { S.has_failed statement.old ≡ false }
    requires proof { R.has_failed proof.old ≡ false }
    requires fresh_writer { W.has_failed writer.old ≡ false }
    // What is written is the line of the verdict on these bytes, or of want of memory. A run ends
    // well only where it is `accepted`, and then, if the key's bytes are those of the statement's
    // own key, the proof is sound as `verify_statement` says it.
    ensures says { SaysVerdict A.judges (K.remaining key.old)
        (⟦<W as RunWithBoth<S, R>>⟧.run statement.old proof.old writer.old writer.new) result.end }
    ensures sound { result.end ≡ RunEnd.Accepted → IsSound A.sound_with_key (K.remaining key.old)
        (S.remaining statement.old) (R.remaining proof.old) }
    // These two ends come from a failed read and a failed write, and from nothing else.
    ensures input_failed { (result.end ≡ RunEnd.InputFailed) ↔ SomeFailed (K.has_failed key.new)
        (S.has_failed statement.new) (R.has_failed proof.new) }
    ensures output_failed { (result.end ≡ RunEnd.OutputFailed) ↔ (W.has_failed writer.new ≡ true) }
    ensures silent { result.end ≡ RunEnd.InputFailed → writer.new ≡ writer.old }
{
    match judge::<A, K, S, R>(alloc, key, statement, proof) {
        Ok(report) => Ended {
            end: tell(&Finding::Verdict(report.answer), writer),
            reason: report.reason,
        },
        Err(end) => Ended { end, reason: None },
    }
}
