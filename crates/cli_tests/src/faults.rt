//! Runs that are cut off, whose streams fail, whose words name nothing, or that have no memory.
use crate::program::Program;
use crate::runs::{Faults, NO_FAULTS, end_of, is_said, run_at_once, run_slowly, words_of, written};
use crate::table::{Case, bytes_of, cases_of};
use stark_answers::RunEnd;
use std::alloc::Global;
use std::process::Abort;
use std::test::Fail;

/// What goes wrong with a run, at each place in turn.
#[derive(Clone, Copy)]
pub(crate) enum Spoiled {
    /// The input ends before a byte.
    Cut,
    /// A read fails.
    Read,
    /// A write fails.
    Write,
}

/// Asserts that a case's input, cut before any byte, isn't read, and answers how many runs that
/// took.
fn cut_before_each(rt: &impl Abort, alloc: Global, case: &Case) -> Result<usize, Fail> {
    let words = words_of(alloc, &case.commands)?;
    let input = bytes_of(alloc, &case.input)?;
    for length in 0..input.len() {
        let what = format!(in alloc; "before byte {length}: {}", case.written)?;
        let outcome = run_at_once(
            alloc,
            case.program,
            &words,
            &input[..length],
            Vec::new(alloc),
        );
        is_said(rt, &outcome, RunEnd::NotJudged, b"bad input\n", &what);
    }
    Ok(input.len())
}

/// Asserts that a case's run ends by its reader alone where a read fails, which is any but the
/// last, after which all was read.
fn failing_at_each_read(rt: &impl Abort, alloc: Global, case: &Case) -> Result<usize, Fail> {
    let words = words_of(alloc, &case.commands)?;
    let input = bytes_of(alloc, &case.input)?;
    let lines = written(alloc, case)?;
    let needed = case.program.reads_of(&input);
    for reads in 0..needed.saturating_add(1) {
        let what = format!(in alloc; "{reads} reads: {}", case.written)?;
        let faults = Faults { reads, ..NO_FAULTS };
        let outcome = run_slowly(alloc, case.program, &words, &input, faults);
        if reads < needed {
            is_said(rt, &outcome, RunEnd::InputFailed, b"", &what);
        } else {
            is_said(rt, &outcome, end_of(&case.lines), &lines, &what);
        }
    }
    Ok(needed.saturating_add(1))
}

/// Asserts that a case's run ends by its writer where a write fails, and has written the front of
/// its lines. A writer that takes nothing has failed too.
fn failing_at_each_write(rt: &impl Abort, alloc: Global, case: &Case) -> Result<usize, Fail> {
    let words = words_of(alloc, &case.commands)?;
    let input = bytes_of(alloc, &case.input)?;
    let lines = written(alloc, case)?;
    for writes in 0..lines.len() + 1 {
        let what = format!(in alloc; "{writes} writes: {}", case.written)?;
        let faults = Faults {
            writes,
            ..NO_FAULTS
        };
        let outcome = run_slowly(alloc, case.program, &words, &input, faults);
        let end = if writes < lines.len() {
            RunEnd::OutputFailed
        } else {
            end_of(&case.lines)
        };
        is_said(rt, &outcome, end, &lines[..writes], &what);
    }
    let full = Faults {
        full: true,
        ..NO_FAULTS
    };
    let outcome = run_slowly(alloc, case.program, &words, &input, full);
    is_said(rt, &outcome, RunEnd::OutputFailed, b"", &case.written);
    Ok(lines.len() + 2)
}

/// Asserts what each of a table's runs says that is spoiled at each place in turn, and that there
/// are so many such runs.
pub(crate) fn all_spoiled(
    rt: &impl Abort,
    alloc: Global,
    program: Program,
    spoiled: Spoiled,
    table: &str,
    count: usize,
) -> Result<(), Fail> {
    let cases = cases_of(alloc, program, table)?;
    let mut runs = 0usize;
    for case in &cases {
        let more = match spoiled {
            Spoiled::Cut => cut_before_each(rt, alloc, case)?,
            Spoiled::Read => failing_at_each_read(rt, alloc, case)?,
            Spoiled::Write => failing_at_each_write(rt, alloc, case)?,
        };
        runs = runs.saturating_add(more);
    }
    assert_eq!(rt; runs, count);
    Ok(())
}

/// Asserts that the words of each line of a text name nothing, and that there are so many lines.
/// The reader would fail at its first read, so nothing is read.
pub(crate) fn all_unknown(
    rt: &impl Abort,
    alloc: Global,
    program: Program,
    lines: &str,
    count: usize,
) -> Result<(), Fail> {
    let unread = Faults {
        reads: 0,
        ..NO_FAULTS
    };
    let mut runs = 0usize;
    for text in lines.lines() {
        let words = words_of(alloc, text)?;
        let outcome = run_slowly(alloc, program, &words, b"", unread);
        is_said(rt, &outcome, RunEnd::NotJudged, b"bad input\n", text);
        runs = runs.saturating_add(1);
    }
    assert_eq!(rt; runs, count);
    Ok(())
}

/// Asserts that a run on a text that has a name is accepted and writes these lines, or says that
/// memory is wanting. Where a growth is refused before the run, nothing is tested.
pub(crate) fn written_or_no_memory(
    rt: &impl Abort,
    alloc: Global,
    program: Program,
    command: &str,
    name: &str,
    lines: &[u8],
) -> Result<(), Fail> {
    let (_others, text) = program.texts().split_once(name).ok_or("no such text")?;
    let text = text.strip_prefix(" = ").ok_or("no text")?;
    let input = text.lines().next().ok_or("no line")?;
    let Ok(words) = words_of(alloc, command) else {
        return Ok(());
    };
    let Ok(room) = Vec::with_capacity(alloc, 512) else {
        return Ok(());
    };
    let outcome = run_at_once(alloc, program, &words, input.as_bytes(), room);
    if outcome.end == RunEnd::Accepted {
        is_said(rt, &outcome, RunEnd::Accepted, lines, "");
    } else {
        let (end, line) = program.no_memory();
        is_said(rt, &outcome, end, line, "");
    }
    Ok(())
}
