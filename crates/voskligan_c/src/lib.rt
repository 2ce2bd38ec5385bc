//! The verifier, the check of a trace and the prover as a library for C, and for what calls C.
//!
//! Each call is on bytes: a slice crosses as a pointer and then a length, and memory comes from
//! the C library's `malloc`. `include/voskligan.h` declares them.
#![tactic(auto)]

ghost use Rattle.std.specs.Prelude.{◌≡◌, ◌≢◌, pos, take};
ghost use Rattle.stark_answers.specs.declared.finding.Finding.{Finding};
ghost use Rattle.voskligan_c.specs.Calls.{IsFindingWritten, IsFloorWritten, IsKeyWritten, IsProofWritten, IsVerdictWritten};
ghost use Rattle.voskligan_c.specs.Message.{written};
ghost use Rattle.voskligan_c.specs.declared.TheConstants.{VERSION};

mod answers;
mod message;
mod proof;
#[cfg(test)]
mod tests;

pub use answers::{Program, ProgramAnswers};
use message::{tell, tell_report};
use proof::{hand_over, hand_over_key};
use stark_answers::Verdict;
use stark_keys::{statement_key, verify_statement_with_key};
use stark_service::{check_statement, prove_statement, verify_at_least, verify_statement};
use std::alloc::Global;

/// The library's version.
pub const VERSION: &[u8] = b"0.1.0";

/// The verdict on a proof for a statement, from the bytes of both: 0 where it is accepted, 1 where
/// it is refused, 2 where nothing was judged, since the statement or the proof can't be read or
/// memory was refused.
///
/// `message` gets the line that the program `voskligan` writes and, where there is something to say
/// and memory to say it, the reason in words as a second line, cut to leave room for a 0 byte after
/// them; the bytes after that byte stay as they were, and a message of no bytes gets nothing.
///
/// Status 0 is answered of an accepted proof alone, whose columns break no constraint of the
/// statement's AIR unless a challenge is bad (`sound`).
#[unsafe(no_mangle)]
pub extern "C" fn voskligan_verify(
    alloc: Global,
    statement: &[u8],
    proof: &[u8],
    message: &mut [u8],
) -> i32
    ensures answer { IsVerdictWritten
        (⟦<Program as ProgramAnswers>⟧.verdict statement.now proof.now)
        result message.old message.new }
    ensures sound { result ≡ pos 0
        → ⟦<Program as ProgramAnswers>⟧.sound statement.now proof.now }
{
    let said = verify_statement(alloc, statement, proof);
    tell_report(said.answer.line().as_bytes(), &said.reason, message);
    i32::from(said.answer.end().status())
}

/// Makes the key of a statement, from its bytes: 0 where its bytes stand in `key`, 1 where the AIR
/// passes a limit, 2 where there is none, since the statement can't be read, its preprocessed
/// columns have no number of rows that a key can have or memory was refused, 3 where there is a key
/// and no room for it.
///
/// `needed` gets how many bytes the key has, or 0 where there is none. `key` gets the whole key
/// at its head, under status 0, and else stays as it was. `message` gets `made`, `no room`, or
/// the lines as by `voskligan_verify`.
#[unsafe(no_mangle)]
pub extern "C" fn voskligan_key(
    alloc: Global,
    statement: &[u8],
    key: &mut [u8],
    needed: &mut usize,
    message: &mut [u8],
) -> i32
    ensures answer { IsKeyWritten (⟦<Program as ProgramAnswers>⟧.makes statement.now)
        result needed.new key.old key.new message.old message.new }
    ensures made { result ≡ pos 0 → ⟦<Program as ProgramAnswers>⟧.key_file
        statement.now (take needed.new key.new) }
    ensures kept { result ≢ pos 0 → key.new ≡ key.old }
{
    match statement_key(alloc, statement) {
        Ok(bytes) => {
            *needed = bytes.len();
            hand_over_key(&bytes, key, message)
        }
        Err(refused) => {
            *needed = 0;
            tell_report(refused.answer.line().as_bytes(), &refused.reason, message);
            i32::from(refused.answer.end().status())
        }
    }
}

/// The verdict on a proof for a statement with a key, from the bytes of all three: as
/// `voskligan_verify`, but that nothing is set up, and 2 where the key's bytes are none or one of
/// another statement.
///
/// Where the key is the statement's own (`key_file`), status 0 is answered of what
/// `voskligan_verify` answers it of (`sound`). Of another key that claims to be of the statement
/// the verdict is the verifier's with that key, and nothing is said of the preprocessed columns.
#[unsafe(no_mangle)]
pub extern "C" fn voskligan_verify_with_key(
    alloc: Global,
    statement: &[u8],
    key: &[u8],
    proof: &[u8],
    message: &mut [u8],
) -> i32
    ensures answer { IsVerdictWritten
        (⟦<Program as ProgramAnswers>⟧.judges statement.now key.now proof.now)
        result message.old message.new }
    ensures sound { ⟦<Program as ProgramAnswers>⟧.key_file statement.now key.now
        → result ≡ pos 0 → ⟦<Program as ProgramAnswers>⟧.sound statement.now proof.now }
{
    let judged = verify_statement_with_key(alloc, statement, key, proof);
    tell_report(judged.answer.line().as_bytes(), &judged.reason, message);
    i32::from(judged.answer.end().status())
}

/// What `voskligan_verify` answers, where no fewer bits than `floor` are proved of the statement's
/// proofs over traces as high as this proof's. Where fewer are, it answers 4 and says in `message`
/// how many they are, and nothing of the proof.
#[unsafe(no_mangle)]
pub extern "C" fn voskligan_verify_at_least(
    alloc: Global,
    floor: usize,
    statement: &[u8],
    proof: &[u8],
    message: &mut [u8],
) -> i32
    ensures answer { IsFloorWritten
        (⟦<Program as ProgramAnswers>⟧.floored floor statement.now proof.now)
        result message.old message.new }
    ensures sound { result ≡ pos 0
        → ⟦<Program as ProgramAnswers>⟧.sound statement.now proof.now }
{
    let said = verify_at_least(alloc, floor, statement, proof);
    let Ok(line) = said.answer.line(alloc) else {
        tell_report(Verdict::OutOfMemory.line().as_bytes(), &None, message);
        return i32::from(Verdict::OutOfMemory.end().status());
    };
    tell_report(line.as_bytes(), &said.reason, message);
    let end = said.answer.end();
    i32::from(end.status())
}

/// What a check finds of a trace for a statement, from the bytes of both: 0 where the trace
/// satisfies the statement's AIR, 1 where a row breaks a constraint or the AIR passes a limit, 2
/// where nothing was judged. `message` gets the lines as by `voskligan_verify`.
#[unsafe(no_mangle)]
pub extern "C" fn voskligan_check(
    alloc: Global,
    statement: &[u8],
    trace: &[u8],
    message: &mut [u8],
) -> i32
    ensures answer { IsFindingWritten
        (⟦<Program as ProgramAnswers>⟧.checked statement.now trace.now)
        result message.old message.new }
    ensures satisfied { result ≡ pos 0
        → ⟦<Program as ProgramAnswers>⟧.checked statement.now trace.now Finding.Satisfied }
{
    let report = check_statement(alloc, statement, trace);
    tell_report(report.answer.written(), &report.reason, message);
    i32::from(report.answer.end().status())
}

/// Proves a trace for a statement, from the bytes of both: 0 where the proof stands in `proof`, 1
/// where there is none, since a row breaks a constraint or the prover refuses, 2 where nothing was
/// judged, 3 where there is a proof and no room for it.
///
/// `needed` gets how many bytes the proof has, with the newline at its end, or 0 where there is
/// none. `proof` gets the whole proof at its head, under status 0, and else stays as it was.
/// `message` gets `proved`, `no room`, or the lines as by `voskligan_verify`.
///
/// Under status 0 `voskligan_verify` accepts the proof for the statement, unless the zeta that its
/// replay draws lies in the trace's domain or the constraints' degrees don't fit the quotient's
/// (`accepted`).
#[unsafe(no_mangle)]
pub extern "C" fn voskligan_prove(
    alloc: Global,
    statement: &[u8],
    trace: &[u8],
    proof: &mut [u8],
    needed: &mut usize,
    message: &mut [u8],
) -> i32
    ensures answer { IsProofWritten (⟦<Program as ProgramAnswers>⟧.proved statement.now trace.now)
        result needed.new proof.old proof.new message.old message.new }
    ensures proved { result ≡ pos 0 → ⟦<Program as ProgramAnswers>⟧.proof_line
        statement.now trace.now (take needed.new proof.new) }
    ensures accepted { result ≡ pos 0 → ⟦<Program as ProgramAnswers>⟧.accepts
        statement.now (take needed.new proof.new) }
    ensures kept { result ≢ pos 0 → proof.new ≡ proof.old }
{
    let report = prove_statement(alloc, statement, trace);
    let handed = hand_over(&report.answer, proof, needed);
    handed.tell(&report, message);
    handed.status(&report.answer)
}

/// The library's version, written to `text` as a message is. Answers how many bytes it has.
#[unsafe(no_mangle)]
pub extern "C" fn voskligan_version(text: &mut [u8]) -> usize
    ensures written { text.new ≡ written VERSION.now text.old }
    ensures length { result ≡ 5 }
{
    tell(VERSION, text);
    VERSION.len()
}
