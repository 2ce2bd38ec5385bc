//! A run of `voskligan`, from the bytes of a statement and of a proof or a trace to bytes.

ghost use Rattle.std.specs.Prelude.{◌≡◌, ◌↔◌, ◌⊎◌, ℕ, List, Option, true, false, IfErr, IfOk, IfSome, is_err};
ghost use Rattle.std.specs.Io.KnownBytes.{Appends};
ghost use Rattle.stark_cli.specs.AcceptedProofs.{AcceptsFound, AcceptsFoundOf, ProvesAccepted};
ghost use Rattle.stark_cli.specs.Running.{Exchange, Found, IsFoundOrLacksMemory, SaidAnswer, SaidProof, Says, SaysOf, WhereAccepted, WhereForm, both};
ghost use Rattle.stark_cli.specs.StatementRun.{Accepts, AcceptsInput, DeliversProof, IsEndUnder, IsFinding, ProvesTrace, SaysSatisfied, WritesProof, WritesText, no_memory};
ghost use Rattle.stark_cli.specs.declared.statements.Delivered.{Delivered};
ghost use Rattle.stark_cli.specs.declared.statements.Verb.{Verb};
ghost use Rattle.stark_answers.specs.Verdict.{line_of};
ghost use Rattle.stark_answers.specs.declared.task.ProofForm.{ProofForm};
ghost use Rattle.stark_answers.specs.declared.finding.Finding.{Finding};
ghost use Rattle.stark_answers.specs.declared.verdict.RunEnd.{RunEnd};
ghost use Rattle.stark_answers.specs.declared.verdict.Verdict.{Verdict};

use crate::floors::floor_finding;
use crate::outcome::{tell, tell_apart, unread_input};
use crate::progress::{stage_of_inputs, tell_proof, tell_second};
use crate::streams::{InputFault, RunWithBoth, Sink, Source, read_to_end};
use stark_answers::{Finding, Report, RunEnd, TraceTask, Verdict};
use stark_service::{FloorAnswers, Progress, Stage};
use std::alloc::Global;

/// What is asked for a statement.
#[derive(Clone, Copy, Debug, PartialEq, Eq)]
pub enum Verb {
    /// To verify a proof.
    Verify,
    /// To verify a proof of which no fewer bits are proved.
    VerifyAtLeast(usize),
    /// To check or prove a trace.
    Trace(TraceTask),
    /// To show its AIR.
    Show,
}

/// How a run ended, and in words what an input was refused for, where there is something to say.
#[derive(Debug, Drop)]
pub struct Ended {
    pub end: RunEnd,
    pub reason: Option<String>,
}

/// How a run ended whose proof goes to an output of its own.
#[derive(Debug, Drop)]
pub struct Delivered {
    pub ended: Ended,
    /// Whether a proof was found: then the output was written, and else the writer.
    pub is_proof: bool,
}

/// What is found of a statement and a second input, what is shown, and what is said of a run that
/// wrote of them. It has no code.
pub trait StatementFindings {
    ghost finding: { Verb → List ℕ × List ℕ → Finding → Type 0 };

    ghost shown: { List ℕ → Finding → Type 0 };

    /// It found this, or memory was wanting.
    ghost finds: { Verb → Option (List ℕ × List ℕ) → Finding → Type 0 };

    /// It said what is found of inputs that are known.
    ghost says: { Verb → Exchange (List ℕ × List ℕ) → RunEnd → Type 0 };

    /// Where it wrote `accepted`, a verifier was asked, and accepts;
    ghost accepted: { Verb → Exchange (List ℕ × List ℕ) → Type 0 };

    /// and in the clear the columns that the proof lists break no constraint, unless a challenge is
    /// bad; by FRI whatever tables lead to its roots are near to columns that satisfy the AIR, or
    /// one of few draws was made, or the trees' hash collides.
    ghost sound: { Exchange (List ℕ × List ℕ) → Type 0 };

    /// Where it wrote what begins as a proof does, that is the front of the file of one of the
    /// trace, in the form that it begins as.
    ghost proved: { Verb → Exchange (List ℕ × List ℕ) → Type 0 };

    /// It ended well only where it wrote `accepted` of inputs that are, the file of such a proof,
    /// the text that shows the statement, or that a trace satisfies its AIR, as it does.
    ghost ends: { Verb → Exchange (List ℕ × List ℕ) → RunEnd → Type 0 };

    /// A proof that is found after a check is accepted for the statement, as it is written, unless
    /// its zeta lies in the trace's domain or the constraints' degrees don't fit the quotient's;
    ghost accepts_found: { Verb → List ℕ × List ℕ → Finding → Type 0 };

    /// and so of the readers' bytes.
    ghost finds_accepted: { Verb → Option (List ℕ × List ℕ) → Finding → Type 0 };

    /// Where it was asked for a proof after a check and ended well, it wrote one that is accepted
    /// so.
    ghost proves_accepted: { Verb → Exchange (List ℕ × List ℕ) → RunEnd → Type 0 };
}

impl<A: FloorAnswers> StatementFindings for A {
    ghost finding = { IsFinding A.verdict
        A.sound
        A.floored
        A.finds
        A.proof_file
        A.showing };

    ghost shown = { A.showing };

    ghost finds = { λ verb. Found no_memory
        (IsFinding A.verdict
        A.sound
        A.floored
        A.finds
        A.proof_file
        A.showing verb) };

    ghost says = { λ verb run end. IfSome run.input (λ input. SaysOf no_memory
        (IsFinding A.verdict
        A.sound
        A.floored
        A.finds
        A.proof_file
        A.showing verb) input end run.old run.new) };

    ghost accepted = { λ verb run. WhereAccepted run.input run.old run.new
        (Accepts A.verdict A.floored verb) };

    ghost sound = { λ run. WhereAccepted run.input run.old run.new (λ input.
        A.sound input.0 input.1) };

    ghost proved = { λ verb run. (form : ProofForm) → WhereForm form run.input run.old run.new
        (ProvesTrace A.proof_file form verb) };

    ghost ends = { λ verb run end. end ≡ RunEnd.Accepted →
        (AcceptsInput A.verdict A.floored verb run.input
        × Appends run.old run.new (line_of Verdict.Accepted))
        ⊎ (WritesProof A.proof_file verb run.input
        run.old run.new
        ⊎ (WritesText A.showing verb run.input run.old
        run.new
        ⊎ SaysSatisfied A.finds verb run.input run.old
        run.new)) };

    ghost accepts_found = { AcceptsFound A.accepts };

    ghost finds_accepted = { AcceptsFoundOf A.accepts };

    ghost proves_accepted = { λ verb run end. end ≡ RunEnd.Accepted
        → ProvesAccepted A.accepts verb run.input run.old run.new };
}

/// What is said of a run whose proof goes to an output of its own: of a proof by what it wrote to
/// the output, of anything else by what it wrote to the writer. It has no code.
pub trait DeliveryFindings {
    /// It wrote the file of a proof of the trace: whole where it ended well, or a front of it where
    /// a write failed.
    ghost delivered: { Verb → Exchange (List ℕ × List ℕ) → Delivered → Type 0 };

    /// Where it was asked for a proof after a check and ended well with one, it wrote to the output
    /// one that is accepted, as `run` does.
    ghost proves_accepted: { Verb → Exchange (List ℕ × List ℕ) → Delivered → Type 0 };

    /// It said what is found of inputs that are known, as `run` does.
    ghost says: { Verb → Exchange (List ℕ × List ℕ) → Delivered → Type 0 };

    /// It ended well only where it wrote `accepted` of inputs that are, the text that shows the
    /// statement, or that a trace satisfies its AIR, as it does.
    ghost ends: { Verb → Exchange (List ℕ × List ℕ) → Delivered → Type 0 };
}

impl<A: FloorAnswers> DeliveryFindings for A {
    ghost delivered = { λ verb run of. of.is_proof ≡ true
        → DeliversProof A.proof_file verb run.input of.ended.end run.old run.new };

    ghost proves_accepted = { λ verb run of. of.is_proof ≡ true
        → ⟦<A as StatementFindings>⟧.proves_accepted verb run of.ended.end };

    ghost says = { λ verb run of. of.is_proof ≡ false
        → ⟦<A as StatementFindings>⟧.says verb run of.ended.end };

    ghost ends = { λ verb run of. of.is_proof ≡ false → of.ended.end ≡ RunEnd.Accepted
        → (AcceptsInput A.verdict A.floored verb run.input
        × Appends run.old run.new (line_of Verdict.Accepted))
        ⊎ (WritesText A.showing verb run.input run.old run.new
        ⊎ SaysSatisfied A.finds verb run.input run.old run.new) };
}

/// What is found of the bytes of both.
#[tactic(auto, unfolding(crate::specs::StatementRun::IsFinding))]
fn answer<A: FloorAnswers, P: Progress>(
    alloc: Global,
    verb: Verb,
    statement: Vec<u8>,
    second: Vec<u8>,
    progress: &mut P,
) -> Report<Finding>
    ensures finds { IsFoundOrLacksMemory no_memory
        (⟦<A as StatementFindings>⟧.finding verb)
        (statement.items, second.items) result.answer }
    ensures accepted { ⟦<A as StatementFindings>⟧.accepts_found verb
        (statement.items, second.items) result.answer }
{
    match verb {
        Verb::Verify => A::verify(alloc, statement, &second).as_finding(),
        Verb::VerifyAtLeast(floor) => {
            floor_finding(alloc, A::verify_at_least(alloc, floor, &statement, &second))
        }
        Verb::Trace(asked) => A::answer(alloc, asked, statement, second, progress),
        Verb::Show => A::show(alloc, statement),
    }
}

/// What is found of inputs of which one wasn't read.
fn unread(fault: InputFault) -> Result<Report<Finding>, RunEnd>
    ensures memory { IfOk result (λ report. report.answer ≡ no_memory) }
    ensures kind { IfErr result (λ e. e ≡ RunEnd.InputFailed) }
    ensures failed { (is_err result ≡ true) ↔ (fault ≡ InputFault.Failed) }
{
    match unread_input(fault, Verdict::OutOfMemory) {
        Ok(answer) => Ok(Report {
            answer,
            reason: None,
        }),
        Err(end) => Err(end),
    }
}

/// Finds something of what the readers have, or fails by one of them alone. The second is read
/// after the first.
fn find<A: FloorAnswers, S: Source, R: Source, P: Progress>(
    alloc: Global,
    verb: Verb,
    statement: &mut S,
    second: &mut R,
    progress: &mut P,
) -> Result<Report<Finding>, RunEnd>
    requires first { S.has_failed statement.old ≡ false }
    requires behind { R.has_failed second.old ≡ false }
    ensures finds { IfOk result (λ r. ⟦<A as StatementFindings>⟧.finds verb
        (both (S.remaining statement.old) (R.remaining second.old)) r.answer) }
    ensures accepted { IfOk result (λ r. ⟦<A as StatementFindings>⟧.finds_accepted verb
        (both (S.remaining statement.old) (R.remaining second.old)) r.answer) }
    ensures kind { IfErr result (λ e. e ≡ RunEnd.InputFailed) }
    ensures failed { (is_err result ≡ true)
        ↔ ((S.has_failed statement.new ≡ true) ⊎ (R.has_failed second.new ≡ true)) }
{
    progress.stage(Stage::ReadingStatement);
    let first = match read_to_end(alloc, statement) {
        Ok(bytes) => bytes,
        Err(fault) => return unread(fault),
    };
    tell_second(verb, progress);
    let other = match read_to_end(alloc, second) {
        Ok(bytes) => bytes,
        Err(fault) => return unread(fault),
    };
    progress.stage(stage_of_inputs(verb, first.len(), other.len()));
    Ok(answer::<A, P>(alloc, verb, first, other, progress))
}

/// Writes what was found, or nothing where a reader failed.
fn tell_finding<W: Sink, P: Progress>(
    finding: Result<Report<Finding>, RunEnd>,
    writer: &mut W,
    progress: &mut P,
) -> Ended
    requires kind { IfErr finding (λ e. e ≡ RunEnd.InputFailed) }
    requires fresh_writer { W.has_failed writer.old ≡ false }
    ensures says { IfOk finding (λ report.
        Says result.end report.answer (W.contents writer.old) (W.contents writer.new)) }
    ensures silent { result.end ≡ RunEnd.InputFailed → writer.new ≡ writer.old }
    ensures input_failed { (result.end ≡ RunEnd.InputFailed) ↔ (is_err finding ≡ true) }
    ensures output_failed { (result.end ≡ RunEnd.OutputFailed) ↔ (W.has_failed writer.new ≡ true) }
{
    match finding {
        Ok(report) => {
            tell_proof(&report.answer, progress);
            Ended {
                end: tell(&report.answer, writer),
                reason: report.reason,
            }
        }
        Err(end) => Ended { end, reason: None },
    }
}

/// Runs the program, whose answers are those of `A`, on a statement and a second input: the proof
/// that is verified, or the trace that is checked or proved; to show takes none.
///
/// Both are read to their ends, and one line is written, or the text that shows, or the two lines
/// of a row that breaks a constraint. The reason, in words, is for standard error, and each stage
/// is reported before it begins; no clause speaks of either.
pub fn run<A: FloorAnswers, S: Source, R: Source, W: Sink, P: Progress>(
    alloc: Global,
    verb: Verb,
    statement: &mut S,
    second: &mut R,
    writer: &mut W,
    progress: &mut P,
) -> Ended
    requires first { S.has_failed statement.old ≡ false }
    requires behind { R.has_failed second.old ≡ false }
    requires fresh_writer { W.has_failed writer.old ≡ false }
    // What is written, and how the run ends.
    ensures says { ⟦<A as StatementFindings>⟧.says verb
        (⟦<W as RunWithBoth<S, R>>⟧.run statement.old second.old writer.old writer.new)
        result.end }
    // These two ends come from a failed read and a failed write, and from nothing else.
    ensures input_failed { (result.end ≡ RunEnd.InputFailed)
        ↔ ((S.has_failed statement.new ≡ true) ⊎ (R.has_failed second.new ≡ true)) }
    ensures output_failed { (result.end ≡ RunEnd.OutputFailed) ↔ (W.has_failed writer.new ≡ true) }
    // Where none failed, the end is that of what is found under the verb.
    ensures ends { S.has_failed statement.new ≡ false → R.has_failed second.new ≡ false
        → W.has_failed writer.new ≡ false → IsEndUnder verb result.end }
    // After a failed read nothing is written.
    ensures silent { result.end ≡ RunEnd.InputFailed → writer.new ≡ writer.old }
    // In every run `accepted` is written only where a verifier is asked that accepts the proof for
    // the statement.
    ensures accepted { ⟦<A as StatementFindings>⟧.accepted verb
        (⟦<W as RunWithBoth<S, R>>⟧.run statement.old second.old writer.old writer.new) }
    // Then the columns (in the clear those that the proof lists, by FRI any that take the opened
    // values) break no constraint of the statement's AIR, or alpha is bad for them, or zeta is.
    ensures sound { ⟦<A as StatementFindings>⟧.sound
        (⟦<W as RunWithBoth<S, R>>⟧.run statement.old second.old writer.old writer.new) }
    // In every run what begins as a proof in a form does, as an object or by the text that marks a
    // proof's bytes, is the front of the file of one, for the statement, of the trace.
    ensures proved { ⟦<A as StatementFindings>⟧.proved verb
        (⟦<W as RunWithBoth<S, R>>⟧.run statement.old second.old writer.old writer.new) }
    // A run ends so only where it wrote `accepted` for inputs that are accepted, a proof's file, a
    // text that shows a statement, or, of a trace that is checked and satisfies the statement's
    // AIR, that it does; whether or not the readers' bytes are known.
    ensures accepted_end { ⟦<A as StatementFindings>⟧.ends verb
        (⟦<W as RunWithBoth<S, R>>⟧.run statement.old second.old writer.old writer.new)
        result.end }
    // A run that is asked for a proof after a check, and ends well, wrote one that a verifier of
    // the statement accepts, unless zeta lies in the trace's domain or the constraints' degrees
    // don't fit the quotient's.
    ensures proof { ⟦<A as StatementFindings>⟧.proves_accepted verb
        (⟦<W as RunWithBoth<S, R>>⟧.run statement.old second.old writer.old writer.new)
        result.end }
{
    let finding = find::<A, S, R, P>(alloc, verb, statement, second, progress);
    tell_finding(finding, writer, progress)
}

/// Writes a proof that was found to the output, and what else was found to the writer; nothing
/// where a reader failed.
fn deliver_finding<O: Sink, W: Sink, P: Progress>(
    finding: Result<Report<Finding>, RunEnd>,
    output: &mut O,
    writer: &mut W,
    progress: &mut P,
) -> Delivered
    requires kind { IfErr finding (λ e. e ≡ RunEnd.InputFailed) }
    requires fresh_output { O.has_failed output.old ≡ false }
    requires fresh_writer { W.has_failed writer.old ≡ false }
    ensures proof { IfOk finding (λ report. result.is_proof ≡ true
        → SaidProof result.ended.end report.answer (O.contents output.old)
        (O.contents output.new)) }
    ensures read { result.is_proof ≡ true → result.ended.end ≡ RunEnd.InputFailed → ⊥ }
    ensures kept { result.is_proof ≡ true → writer.new ≡ writer.old }
    ensures answer { IfOk finding (λ report. result.is_proof ≡ false
        → SaidAnswer result.ended.end report.answer (W.contents writer.old)
        (W.contents writer.new)) }
    ensures untouched { result.is_proof ≡ false → output.new ≡ output.old }
    ensures silent { result.ended.end ≡ RunEnd.InputFailed → writer.new ≡ writer.old }
    ensures input_failed { (result.ended.end ≡ RunEnd.InputFailed) ↔ (is_err finding ≡ true) }
    ensures output_failed { (result.ended.end ≡ RunEnd.OutputFailed)
        ↔ ((O.has_failed output.new ≡ true) ⊎ (W.has_failed writer.new ≡ true)) }
{
    match finding {
        Ok(report) => {
            tell_proof(&report.answer, progress);
            let delivery = tell_apart(&report.answer, output, writer);
            Delivered {
                ended: Ended {
                    end: delivery.end,
                    reason: report.reason,
                },
                is_proof: delivery.is_proof,
            }
        }
        Err(end) => Delivered {
            ended: Ended { end, reason: None },
            is_proof: false,
        },
    }
}

/// Runs the program as `run` does, but for a proof, which goes to an output of its own: what isn't
/// one, a refusal, a broken row, a bad input or want of memory, is written as `run` writes it.
pub fn run_to<A: FloorAnswers, S: Source, R: Source, O: Sink, W: Sink, P: Progress>(
    alloc: Global,
    verb: Verb,
    statement: &mut S,
    second: &mut R,
    output: &mut O,
    writer: &mut W,
    progress: &mut P,
) -> Delivered
    requires first { S.has_failed statement.old ≡ false }
    requires behind { R.has_failed second.old ≡ false }
    requires fresh_output { O.has_failed output.old ≡ false }
    requires fresh_writer { W.has_failed writer.old ≡ false }
    // Of a proof the output gets the file of one for the statement, of the trace: whole where the
    // run ends well, and else, where a write failed, a front of it. The writer holds what it held.
    ensures delivered { ⟦<A as DeliveryFindings>⟧.delivered verb
        (⟦<O as RunWithBoth<S, R>>⟧.run statement.old second.old output.old output.new) result }
    ensures kept { result.is_proof ≡ true → writer.new ≡ writer.old }
    // After a check it is a proof that a verifier of the statement accepts, as of `run`.
    ensures proof { ⟦<A as DeliveryFindings>⟧.proves_accepted verb
        (⟦<O as RunWithBoth<S, R>>⟧.run statement.old second.old output.old output.new) result }
    // Of anything else the output holds what it held, and the writer gets what `run` says.
    ensures untouched { result.is_proof ≡ false → output.new ≡ output.old }
    ensures says { ⟦<A as DeliveryFindings>⟧.says verb
        (⟦<W as RunWithBoth<S, R>>⟧.run statement.old second.old writer.old writer.new) result }
    // Without a proof no prover's run ends well, whether or not the readers' bytes are known.
    ensures ends { ⟦<A as DeliveryFindings>⟧.ends verb
        (⟦<W as RunWithBoth<S, R>>⟧.run statement.old second.old writer.old writer.new) result }
    // After a failed read nothing is written.
    ensures silent { result.ended.end ≡ RunEnd.InputFailed → writer.new ≡ writer.old }
    // These two ends come from a failed read and a failed write, and from nothing else.
    ensures input_failed { (result.ended.end ≡ RunEnd.InputFailed)
        ↔ ((S.has_failed statement.new ≡ true) ⊎ (R.has_failed second.new ≡ true)) }
    ensures output_failed { (result.ended.end ≡ RunEnd.OutputFailed)
        ↔ ((O.has_failed output.new ≡ true) ⊎ (W.has_failed writer.new ≡ true)) }
{
    let finding = find::<A, S, R, P>(alloc, verb, statement, second, progress);
    deliver_finding(finding, output, writer, progress)
}
