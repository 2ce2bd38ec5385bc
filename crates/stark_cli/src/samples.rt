//! A run of `stark_run`, from the words after its name and the bytes of its input to bytes.

ghost use Rattle.std.specs.Prelude.{◌≡◌, ◌↔◌, ◌⊎◌, ℕ, List, Option, map, string_bytes, true, false, None, Some, Ok, IfErr, IfOk, IfSome, is_err};
ghost use Rattle.std.specs.Io.KnownBytes.{Appends};
ghost use Rattle.stark_cli.specs.Running.{Exchange, Found, IsFindingEnd, IsFoundOrLacksMemory, Says, SaysBadInput, WhereAccepted, WhereObject};
ghost use Rattle.stark_cli.specs.SampleRun.{AcceptsInput, HoldsOf, IsFinding, OfVerified, ProvesTrace, SaysFinding, WritesProof, lacks_memory};
ghost use Rattle.stark_cli.specs.Words.{command_of};
ghost use Rattle.stark_cli.specs.declared.words.Command.{Command};
ghost use Rattle.stark_answers.specs.Verdict.{line_of};
ghost use Rattle.stark_answers.specs.declared.finding.Finding.{Finding};
ghost use Rattle.stark_answers.specs.declared.verdict.RunEnd.{RunEnd};
ghost use Rattle.stark_answers.specs.declared.verdict.Verdict.{Verdict};

use crate::outcome::{tell, unread_input};
use crate::streams::{RunWith, Sink, Source, read_to_end};
use crate::words::{Command, named_command};
use stark_answers::{Finding, Refusal, RunEnd, Verdict};
use stark_commands::{
    ProvedInput, SampleAir, VerifiedInput, check_sample, prove_sample, verify_sample,
};
use std::alloc::Global;

/// What is found of an input under a command, and what is said of a run on words that wrote of it.
/// It has no code.
pub trait SampleFindings {
    ghost finding: { Option Command → List ℕ → Finding → Type 0 };

    /// It said what is found of the input that is known.
    ghost says: { List (List ℕ) → Exchange (List ℕ) → RunEnd → Type 0 };

    /// Where it wrote `accepted`, that is found;
    ghost accepted: { List (List ℕ) → Exchange (List ℕ) → Type 0 };

    /// the check holds, or the verifier accepts;
    ghost holds: { List (List ℕ) → Exchange (List ℕ) → Type 0 };

    /// and, if it was a verifier, the listed columns break no constraint, unless a challenge is
    /// bad.
    ghost sound: { List (List ℕ) → Exchange (List ℕ) → Type 0 };

    /// Where it wrote an object, that is the front of the line of a proof of the trace.
    ghost proved: { List (List ℕ) → Exchange (List ℕ) → Type 0 };

    /// It ended well only where it wrote `accepted` of an input that is, or the line of such a
    /// proof.
    ghost ends: { List (List ℕ) → Exchange (List ℕ) → RunEnd → Type 0 };
}

impl SampleFindings for SampleAir {
    ghost finding = { IsFinding (⟦<SampleAir as VerifiedInput>⟧.verified)
        (⟦<SampleAir as VerifiedInput>⟧.sound) (⟦<SampleAir as ProvedInput>⟧.proved) };

    ghost says = { λ words run end. IfSome run.input (λ input.
        SaysFinding (⟦<SampleAir as VerifiedInput>⟧.verified)
        (⟦<SampleAir as VerifiedInput>⟧.sound) (⟦<SampleAir as ProvedInput>⟧.proved)
        (command_of words) input end run.old run.new) };

    ghost accepted = { λ words run. WhereAccepted run.input run.old run.new (λ input.
        IsFinding (⟦<SampleAir as VerifiedInput>⟧.verified)
        (⟦<SampleAir as VerifiedInput>⟧.sound) (⟦<SampleAir as ProvedInput>⟧.proved)
        (command_of words) input (Finding.Verdict Verdict.Accepted)) };

    ghost holds = { λ words run. WhereAccepted run.input run.old run.new (λ input.
        HoldsOf (⟦<SampleAir as VerifiedInput>⟧.verified) (⟦<SampleAir as VerifiedInput>⟧.sound)
        (⟦<SampleAir as ProvedInput>⟧.proved) (command_of words) input) };

    ghost sound = { λ words run. WhereAccepted run.input run.old run.new (λ input.
        OfVerified (⟦<SampleAir as VerifiedInput>⟧.sound) (command_of words) input) };

    ghost proved = { λ words run. WhereObject run.input run.old run.new
        (ProvesTrace (⟦<SampleAir as ProvedInput>⟧.proof_line) (command_of words)) };

    ghost ends = { λ words run end. end ≡ RunEnd.Accepted
        → (AcceptsInput (⟦<SampleAir as VerifiedInput>⟧.verified)
        (⟦<SampleAir as VerifiedInput>⟧.sound) (⟦<SampleAir as ProvedInput>⟧.proved)
        (command_of words) run.input × Appends run.old run.new (line_of Verdict.Accepted))
        ⊎ WritesProof (⟦<SampleAir as ProvedInput>⟧.proof_line) (command_of words) run.input
        run.old run.new };
}

/// What is found of the bytes of an input, by the check, the verifier or the prover of the AIR that
/// is named.
#[tactic(auto, unfolding(crate::specs::SampleRun::IsFinding))]
fn answer(alloc: Global, command: Command, bytes: &[u8]) -> Finding
    ensures { IsFoundOrLacksMemory lacks_memory
        (⟦<SampleAir as SampleFindings>⟧.finding (Some command)) bytes.now result }
{
    match command {
        Command::Check(air) => Finding::Verdict(check_sample(alloc, air, bytes)),
        Command::Verify(air) => Finding::Verdict(verify_sample(alloc, air, bytes)),
        Command::Prove(air) => prove_sample(alloc, air, bytes),
    }
}

/// Finds a verdict or a proof, or fails by the reader alone.
fn find<R: Source>(alloc: Global, words: &[String], reader: &mut R) -> Result<Finding, RunEnd>
    requires { R.has_failed reader.old ≡ false }
    ensures finds { IfOk result (Found lacks_memory
        (⟦<SampleAir as SampleFindings>⟧.finding (command_of (map string_bytes words.now)))
        (R.remaining reader.old)) }
    ensures other_words { command_of (map string_bytes words.now) ≡ None → result
        ≡ Ok (Finding.Verdict Verdict.BadInput) }
    ensures kind { IfErr result (λ e. e ≡ RunEnd.InputFailed) }
    ensures failed { (is_err result ≡ true) ↔ (R.has_failed reader.new ≡ true) }
    ensures unread { command_of (map string_bytes words.now) ≡ None → reader.new ≡ reader.old }
{
    let Some(command) = named_command(words) else {
        return Ok(Finding::Verdict(Verdict::BadInput));
    };
    match read_to_end(alloc, reader) {
        Ok(input) => Ok(answer(alloc, command, &input)),
        Err(fault) => unread_input(fault, Verdict::Refused(Refusal::OutOfMemory)),
    }
}

/// Writes what was found, or nothing where the reader failed.
fn tell_finding<W: Sink>(finding: Result<Finding, RunEnd>, writer: &mut W) -> RunEnd
    requires kind { IfErr finding (λ e. e ≡ RunEnd.InputFailed) }
    requires fresh_writer { W.has_failed writer.old ≡ false }
    ensures says { IfOk finding (λ f.
        Says result f (W.contents writer.old) (W.contents writer.new)) }
    ensures silent { result ≡ RunEnd.InputFailed → writer.new ≡ writer.old }
    ensures input_failed { (result ≡ RunEnd.InputFailed) ↔ (is_err finding ≡ true) }
    ensures output_failed { (result ≡ RunEnd.OutputFailed) ↔ (W.has_failed writer.new ≡ true) }
{
    match finding {
        Ok(finding) => tell(&finding, writer),
        Err(end) => end,
    }
}

/// Runs the program on the words after its name.
pub fn run<R: Source, W: Sink>(
    alloc: Global,
    words: &[String],
    reader: &mut R,
    writer: &mut W,
) -> RunEnd
    requires fresh_reader { R.has_failed reader.old ≡ false }
    requires fresh_writer { W.has_failed writer.old ≡ false }
    // What is written, and how the run ends.
    ensures says { ⟦<SampleAir as SampleFindings>⟧.says (map string_bytes words.now)
        (⟦<W as RunWith<R>>⟧.run reader.old writer.old writer.new)
        result }
    // With other words it says `bad input`, and nothing is read.
    ensures other_words { command_of (map string_bytes words.now) ≡ None
        → SaysBadInput result (W.contents writer.old) (W.contents writer.new) }
    ensures unread { command_of (map string_bytes words.now) ≡ None → reader.new ≡ reader.old }
    // These two ends come from a failed read and a failed write, and from nothing else.
    ensures input_failed { (result ≡ RunEnd.InputFailed) ↔ (R.has_failed reader.new ≡ true) }
    ensures output_failed { (result ≡ RunEnd.OutputFailed) ↔ (W.has_failed writer.new ≡ true) }
    // Where neither failed, the end is that of what is found.
    ensures ends { R.has_failed reader.new ≡ false → W.has_failed writer.new ≡ false
        → IsFindingEnd result }
    // After a failed read nothing is written.
    ensures silent { result ≡ RunEnd.InputFailed → writer.new ≡ writer.old }
    // In every run `accepted` is written only where the checks hold.
    ensures accepted { ⟦<SampleAir as SampleFindings>⟧.accepted (map string_bytes words.now)
        (⟦<W as RunWith<R>>⟧.run reader.old writer.old writer.new) }
    // So the named AIR's check holds of the numbers that the bytes spell, or its verifier accepts
    // the proof that they spell.
    ensures holds { ⟦<SampleAir as SampleFindings>⟧.holds (map string_bytes words.now)
        (⟦<W as RunWith<R>>⟧.run reader.old writer.old writer.new) }
    // In every run in which a verifier writes `accepted`, the columns that the read proof's
    // commitments list break no constraint on H, or alpha is bad for them, or zeta is bad for them,
    // alpha and the listed chunks.
    ensures sound { ⟦<SampleAir as SampleFindings>⟧.sound (map string_bytes words.now)
        (⟦<W as RunWith<R>>⟧.run reader.old writer.old writer.new) }
    // In every run what begins as an object does is the front of the line of a proof of the trace
    // that was read.
    ensures proved { ⟦<SampleAir as SampleFindings>⟧.proved (map string_bytes words.now)
        (⟦<W as RunWith<R>>⟧.run reader.old writer.old writer.new) }
    // A run ends so only where they hold of an input, and wrote `accepted`, or it wrote the line of
    // a proof of the trace that an input spells, whether or not the reader's bytes are known.
    ensures accepted_end { ⟦<SampleAir as SampleFindings>⟧.ends (map string_bytes words.now)
        (⟦<W as RunWith<R>>⟧.run reader.old writer.old writer.new) result }
{
    tell_finding(find(alloc, words, reader), writer)
}
