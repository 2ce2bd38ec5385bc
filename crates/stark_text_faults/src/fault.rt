//! The first fault of a text.

ghost use Rattle.std.specs.Prelude.{◌≡◌, ◌≤◌, IfOk, IfNone, IfSome, IsSome, IsUtf8, None, length, take};
ghost use Rattle.serde_json.specs.Read.{read};
ghost use Rattle.stark_text_faults.specs.Places.{column_after, line_after};

use crate::expected::Expected;
use crate::place::place_after;
use crate::scan::{Stop, after_spaces};
use crate::values::after_value;
use serde_json::Value;
use std::alloc::{AllocError, Global};
use std::fmt;

/// How deep arrays and objects nest at most, as for `serde_json`.
const MAX_DEPTH: usize = 127;

/// Where a text stops being JSON.
#[derive(Clone, Copy, Debug, PartialEq, Eq)]
pub struct TextFault {
    /// How many bytes stand before the place.
    pub offset: usize,
    /// The place's line, from 1.
    pub line: usize,
    /// Its column, from 1, in characters.
    pub column: usize,
    /// Whether the text ends there.
    pub at_end: bool,
    /// What was expected there.
    pub expected: Expected,
}

impl fmt::Display for TextFault {
    fn fmt<W: fmt::Write>(&self, f: &mut fmt::Formatter<W>) -> fmt::Result {
        let (line, column, expected) = (self.line, self.column, self.expected);
        write!(f, "line {line}, column {column}: expected {expected}")?;
        if self.at_end {
            f.write_str(", and the text ends")?;
        }
        Ok(())
    }
}

/// The fault of a text at an offset in it, or at its end.
fn fault_at(text: &[u8], offset: usize, expected: Expected) -> TextFault
    ensures within { result.offset ≤ length text.now }
    ensures line { result.line ≡ line_after (take result.offset text.now) }
    ensures column { result.column ≡ column_after (take result.offset text.now) }
    ensures expected { result.expected ≡ expected }
{
    let offset = offset.min(text.len());
    let place = place_after(&text[..offset]);
    TextFault {
        offset,
        line: place.line,
        column: place.column,
        at_end: offset == text.len(),
        expected,
    }
}

/// Where a scan of the whole text stops before its end.
fn first_stop(alloc: Global, text: &[u8]) -> Option<Stop<'_>>
    ensures { IfSome result (λ stop. length stop.rest.now ≤ length text.now) }
{
    match after_value(alloc, after_spaces(text), MAX_DEPTH) {
        Ok(rest) => {
            let rest = after_spaces(rest);
            if rest.is_empty() {
                return None;
            }
            Some(Stop {
                rest,
                expected: Expected::End,
            })
        }
        Err(stop) => Some(stop),
    }
}

/// The first fault of a text that isn't JSON.
fn fault_of(alloc: Global, text: &[u8]) -> TextFault
    ensures within { result.offset ≤ length text.now }
    ensures line { result.line ≡ line_after (take result.offset text.now) }
    ensures column { result.column ≡ column_after (take result.offset text.now) }
{
    if let Err(error) = std::str::from_utf8(text) {
        return fault_at(text, error.valid_up_to(), Expected::Utf8);
    }
    match first_stop(alloc, text) {
        Some(stop) => fault_at(text, text.len() - stop.rest.len(), stop.expected),
        None => fault_at(text, text.len(), Expected::Json),
    }
}

/// The first fault of a text as JSON: none where the kit's reader reads a value; else the place at
/// which no JSON goes on as the text does, by its bytes before it, its line and its column, the
/// last in characters and both from 1, and what was expected there. A number that no float holds is
/// at fault where it begins, a string's escape at its backslash, and what nests deeper than 127
/// arrays and objects at the bracket that does. Err only where memory was refused.
pub fn first_fault_of_json(alloc: Global, text: &[u8]) -> Result<Option<TextFault>, AllocError>
    // There is none where the text is JSON, and only there.
    ensures none { IfOk result (λ fault. IfNone fault (IsUtf8 text.now)) }
    ensures read { IfOk result (λ fault. IfNone fault (IsSome (read text.now))) }
    ensures some { IfOk result (λ fault. IsSome fault → IsUtf8 text.now → read text.now ≡ None) }
    // Its place lies in the text or at its end, and its line and column are those of the place.
    ensures within { IfOk result (λ fault. IfSome fault (λ f. f.offset ≤ length text.now)) }
    ensures line { IfOk result (λ fault. IfSome fault (λ f.
        f.line ≡ line_after (take f.offset text.now))) }
    ensures column { IfOk result (λ fault. IfSome fault (λ f.
        f.column ≡ column_after (take f.offset text.now))) }
{
    match Value::from_slice(alloc, text) {
        Ok(_) => Ok(None),
        Err(error) if error.is_memory() => Err(AllocError),
        Err(_) => Ok(Some(fault_of(alloc, text))),
    }
}
