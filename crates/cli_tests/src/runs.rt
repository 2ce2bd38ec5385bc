//! Runs of commands on bytes in memory, and what is asserted of them.
use crate::program::{Program, both_inputs};
use crate::streams::{FailingReader, FailingWriter};
use crate::table::{Case, bytes_of, cases_of};
use stark_answers::RunEnd;
use stark_cli::{WatchedReader, WatchedWriter};
use std::alloc::{AllocError, Global};
use std::process::Abort;
use std::test::Fail;

/// How many reads and writes of a run go well, and whether its writer takes nothing.
#[derive(Clone, Copy)]
pub(crate) struct Faults {
    pub(crate) reads: usize,
    pub(crate) writes: usize,
    pub(crate) full: bool,
}

// All reads and writes go well.
pub(crate) const NO_FAULTS: Faults = Faults {
    reads: usize::MAX,
    writes: usize::MAX,
    full: false,
};

/// How a run ended, and what it wrote.
#[derive(Drop)]
pub(crate) struct Outcome {
    pub(crate) end: RunEnd,
    pub(crate) lines: Vec<u8>,
}

/// The words of a text. Two quotes stand for the empty one.
pub(crate) fn words_of(alloc: Global, text: &str) -> Result<Vec<String>, AllocError> {
    let mut words = Vec::new(alloc);
    for word in text.split_ascii_whitespace() {
        words.push(String::from_str(alloc, word.trim_matches('\''))?)?;
    }
    Ok(words)
}

/// The two inputs of a run: a program for samples has one.
fn inputs_of(program: Program, input: &[u8]) -> (&[u8], &[u8]) {
    match program {
        Program::StarkRun => (input, b""),
        Program::Voskligan => both_inputs(input),
    }
}

/// A run that reads and writes all at once, behind what is room already.
pub(crate) fn run_at_once(
    alloc: Global,
    program: Program,
    words: &[String],
    input: &[u8],
    room: Vec<u8>,
) -> Outcome {
    let (mut reader, mut second) = inputs_of(program, input);
    let mut writer = WatchedWriter::new(room);
    let end = program.run(alloc, words, &mut reader, &mut second, &mut writer);
    Outcome {
        end,
        lines: writer.into_inner(),
    }
}

/// A run that reads and writes byte by byte, with interruptions, and meets faults.
pub(crate) fn run_slowly(
    alloc: Global,
    program: Program,
    words: &[String],
    input: &[u8],
    faults: Faults,
) -> Outcome {
    let (first, other) = inputs_of(program, input);
    let mut reader = WatchedReader::new(FailingReader {
        bytes: first,
        reads: faults.reads,
        interrupted: false,
    });
    // The second input is read once the first has ended, which takes a read more than it has bytes.
    let mut second = WatchedReader::new(FailingReader {
        bytes: other,
        reads: faults.reads.saturating_sub(first.len()).saturating_sub(1),
        interrupted: false,
    });
    let mut writer = WatchedWriter::new(FailingWriter {
        bytes: Vec::new(alloc),
        writes: faults.writes,
        full: faults.full,
        interrupted: false,
    });
    let end = program.run(alloc, words, &mut reader, &mut second, &mut writer);
    Outcome {
        end,
        lines: writer.into_inner().bytes,
    }
}

/// Asserts how a run ended and what it wrote.
pub(crate) fn is_said(rt: &impl Abort, outcome: &Outcome, end: RunEnd, lines: &[u8], what: &str) {
    assert_eq!(rt; outcome.end, end, "{what}");
    assert_eq!(rt; outcome.lines.as_slice(), lines, "{what}");
}

/// How a run has to end that writes lines.
pub(crate) fn end_of(lines: &str) -> RunEnd {
    if lines == "accepted"
        || lines == "satisfied"
        || lines.starts_with('{')
        || lines.starts_with("columns: ")
    {
        RunEnd::Accepted
    } else if lines.starts_with("refused ") || lines.starts_with("row ") {
        RunEnd::Refused
    } else if lines.starts_with("not judged: ") {
        RunEnd::BelowFloor
    } else {
        RunEnd::NotJudged
    }
}

/// What a run has to write: the lines of a case, with the last newline.
pub(crate) fn written(alloc: Global, case: &Case) -> Result<Vec<u8>, Fail> {
    let mut bytes = bytes_of(alloc, &case.lines)?;
    bytes.push(b'\n')?;
    Ok(bytes)
}

/// The command whose lines a case asks for: the second, where there are two.
fn last_command(case: &Case) -> &str {
    match case.commands.split_once(" then ") {
        Some((_first, second)) => second,
        None => case.commands.as_str(),
    }
}

// What stands behind the trace in the inputs of `stark_run prove`.
const BEHIND_TRACE: &str = ",\"publics\"";

/// What the last command of a case reads: of two, what the first wrote stands in the input in place
/// of the trace.
fn last_input(alloc: Global, case: &Case) -> Result<Vec<u8>, Fail> {
    let given = bytes_of(alloc, &case.input)?;
    let Some((first, _second)) = case.commands.split_once(" then ") else {
        return Ok(given);
    };
    let words = words_of(alloc, first)?;
    let proof = run_at_once(alloc, case.program, &words, &given, Vec::new(alloc)).lines;
    let mut input = Vec::new(alloc);
    match case.program {
        Program::StarkRun => {
            let (_trace, rest) = case.input.split_once(BEHIND_TRACE).ok_or("no trace")?;
            input.extend_from_slice(b"{\"proof\":")?;
            input.extend_from_slice(&proof)?;
            input.extend_from_slice(BEHIND_TRACE.as_bytes())?;
            input.extend_from_slice(rest.as_bytes())?;
        }
        Program::Voskligan => {
            let (statement, _trace) = both_inputs(&given);
            input.extend_from_slice(statement)?;
            input.extend_from_slice(b"\x1e")?;
            input.extend_from_slice(&proof)?;
        }
    }
    Ok(input)
}

// A longer input is read all at once alone.
const SLOW_AT_MOST: usize = 1_000_000;

/// Asserts that a case's run says what the case asks for, all at once and byte by byte.
fn one_case(rt: &impl Abort, alloc: Global, case: &Case) -> Result<(), Fail> {
    let input = last_input(alloc, case)?;
    let words = words_of(alloc, last_command(case))?;
    let (end, lines) = (end_of(&case.lines), written(alloc, case)?);
    let outcome = run_at_once(alloc, case.program, &words, &input, Vec::new(alloc));
    is_said(rt, &outcome, end, &lines, &case.written);
    if input.len() > SLOW_AT_MOST {
        return Ok(());
    }
    let outcome = run_slowly(alloc, case.program, &words, &input, NO_FAULTS);
    is_said(rt, &outcome, end, &lines, &case.written);
    Ok(())
}

/// Asserts that each of a table's runs says what its case asks for, and that it has `count` cases.
pub(crate) fn all_cases(
    rt: &impl Abort,
    alloc: Global,
    program: Program,
    table: &str,
    count: usize,
) -> Result<(), Fail> {
    let cases = cases_of(alloc, program, table)?;
    let mut done = 0usize;
    for case in &cases {
        one_case(rt, alloc, case)?;
        done = done.saturating_add(1);
    }
    assert_eq!(rt; done, count);
    Ok(())
}
