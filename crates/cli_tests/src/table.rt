//! Tables of runs, as text. A line that is empty or begins with `#` is none; any other is a run:
//!
//! ```text
//! COMMANDS | INPUT | FROM => TO | .. | LINES
//! ```
//!
//! The commands are the words of one, as `check counter` or `show`, or of two, as `prove counter
//! then verify counter`, where the second reads what the first wrote in place of the trace. Of a
//! run for a statement the input is the statement, the byte 1e, which is written `\1e`, and the
//! proof or the trace. In the input each FROM, which must stand in it, is written anew once; then,
//! in the lines too, `\ff` is the byte 255, and `\(7 ab)` is `ab` seven times. LINES is what the
//! run has to write, without its last newline, and its first word tells how the run has to end.
use crate::program::Program;
use std::alloc::{AllocError, Global};
use std::test::Fail;

/// A text that has a name.
#[derive(Drop)]
struct Named {
    name: String,
    text: String,
}

/// A run.
#[derive(Drop)]
pub(crate) struct Case {
    /// The program that runs.
    pub(crate) program: Program,
    /// The run as its table has it.
    pub(crate) written: String,
    /// The words of one command, or of two.
    pub(crate) commands: String,
    /// The input, before its bytes are spelled out.
    pub(crate) input: String,
    /// What the run has to write, before its bytes are spelled out.
    pub(crate) lines: String,
}

/// A text with the named ones in place of their names.
fn expanded(alloc: Global, text: &str, names: &[Named]) -> Result<String, AllocError> {
    let mut whole = String::from_str(alloc, text)?;
    for named in names {
        whole = whole.replace(alloc, named.name.as_str(), named.text.as_str())?;
    }
    Ok(whole)
}

/// Whether a line of a table is a run, or names a text.
pub(crate) fn is_case(line: &str) -> bool {
    !line.is_empty() && !line.starts_with('#')
}

/// A program's texts that have a name.
fn named_texts(alloc: Global, program: Program) -> Result<Vec<Named>, Fail> {
    let mut names = Vec::new(alloc);
    for line in program.texts().lines() {
        if is_case(line) {
            let (name, text) = line.split_once(" =").ok_or("a text without a name")?;
            let name = String::from_str(alloc, name)?;
            let text = expanded(alloc, text.trim_start(), &names)?;
            names.push(Named { name, text })?;
        }
    }
    Ok(names)
}

/// An input with parts of it written anew; none where one doesn't stand in it.
fn changed(alloc: Global, text: &str) -> Result<Option<String>, AllocError> {
    let mut fields = text.split(" | ");
    let mut input = String::from_str(alloc, fields.next().unwrap_or(""))?;
    for change in fields {
        let Some((from, to)) = change.split_once(" =>") else {
            return Ok(None);
        };
        if from.is_empty() || !input.contains(from) {
            return Ok(None);
        }
        input = input.replacen(alloc, from, to.trim_start(), 1)?;
    }
    Ok(Some(input))
}

/// The run that a line of a table is; none where it can't be read.
fn case_of(
    alloc: Global,
    program: Program,
    written: &str,
    names: &[Named],
) -> Result<Option<Case>, AllocError> {
    let whole = expanded(alloc, written, names)?;
    let Some((commands, rest)) = whole.split_once(" | ") else {
        return Ok(None);
    };
    let Some((input, lines)) = rest.rsplit_once(" | ") else {
        return Ok(None);
    };
    let Some(input) = changed(alloc, input)? else {
        return Ok(None);
    };
    Ok(Some(Case {
        program,
        written: String::from_str(alloc, written)?,
        commands: String::from_str(alloc, commands)?,
        input,
        lines: String::from_str(alloc, lines)?,
    }))
}

/// The runs of a program's table.
pub(crate) fn cases_of(alloc: Global, program: Program, table: &str) -> Result<Vec<Case>, Fail> {
    let names = named_texts(alloc, program)?;
    let mut cases = Vec::new(alloc);
    for line in table.lines() {
        if is_case(line) {
            match case_of(alloc, program, line, &names)? {
                Some(case) => cases.push(case)?,
                None => return Err(Fail::new(format_args!("not read: {line}"))),
            }
        }
    }
    Ok(cases)
}

/// What a text between brackets stands for, as often as the number before it says.
fn repeated(alloc: Global, inside: &str) -> Result<Vec<u8>, Fail> {
    let (count, text) = inside.split_once(' ').ok_or("no number of times")?;
    let mut bytes = Vec::new(alloc);
    for _time in 0..count.parse::<usize>()? {
        bytes.extend_from_slice(text.as_bytes())?;
    }
    Ok(bytes)
}

/// The bytes of an input, or of lines.
pub(crate) fn bytes_of(alloc: Global, text: &str) -> Result<Vec<u8>, Fail> {
    let mut bytes = Vec::new(alloc);
    let mut pieces = text.split('\\');
    bytes.extend_from_slice(pieces.next().unwrap_or("").as_bytes())?;
    for piece in pieces {
        let rest = if let Some(piece) = piece.strip_prefix('(') {
            let (inside, rest) = piece.split_once(')').ok_or("an open bracket")?;
            bytes.extend_from_slice(&repeated(alloc, inside)?)?;
            rest
        } else {
            let (digits, rest) = piece.split_at_checked(2).ok_or("half a byte")?;
            bytes.push(u8::from_str_radix(digits, 16)?)?;
            rest
        };
        bytes.extend_from_slice(rest.as_bytes())?;
    }
    Ok(bytes)
}
