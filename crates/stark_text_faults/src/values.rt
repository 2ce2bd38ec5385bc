//! Values, and arrays and objects of them.

ghost use Rattle.std.specs.Prelude.{◌<◌, ◌≤◌, length, IfErr, IfOk};

use crate::expected::Expected;
use crate::numbers::{after_literal, after_number};
use crate::scan::{Stop, after_byte, after_spaces};
use crate::strings::after_string;
use std::alloc::Global;

/// Whether a value may begin as the text does.
fn begins_value(text: &[u8]) -> bool {
    matches!(
        text,
        [
            b'[' | b'{' | b'"' | b'-' | b'0'..=b'9' | b't' | b'f' | b'n',
            ..
        ]
    )
}

/// What is left after the value at the front, in which arrays and objects nest so deep at most.
#[cycle(values)]
pub(crate) fn after_value(alloc: Global, text: &[u8], depth: usize) -> Result<&[u8], Stop<'_>>
    ensures after { IfOk result (λ rest. length rest.now < length text.now) }
    ensures stop { IfErr result (λ stop. length stop.rest.now ≤ length text.now) }
{
    match text {
        [b'[' | b'{', ..] if depth == 0 => Err(Stop {
            rest: text,
            expected: Expected::LessNesting,
        }),
        [b'[', rest @ ..] => after_array(alloc, rest, depth - 1),
        [b'{', rest @ ..] => after_object(alloc, rest, depth - 1),
        [b'"', rest @ ..] => after_string(rest),
        [b'-' | b'0'..=b'9', ..] => after_number(alloc, text),
        _ => after_literal(text),
    }
}

/// What is left after an array whose opening bracket has been passed.
#[cycle(values)]
fn after_array(alloc: Global, text: &[u8], depth: usize) -> Result<&[u8], Stop<'_>>
    ensures after { IfOk result (λ rest. length rest.now < length text.now) }
    ensures stop { IfErr result (λ stop. length stop.rest.now ≤ length text.now) }
{
    let mut rest = after_spaces(text);
    if let Some(rest) = after_byte(rest, b']') {
        return Ok(rest);
    }
    let mut expected = Expected::ValueOrClosingBracket;
    for _ in 0..text.len() {
        if !begins_value(rest) {
            return Err(Stop { rest, expected });
        }
        let item = after_spaces(after_value(alloc, rest, depth)?);
        if let Some(rest) = after_byte(item, b']') {
            return Ok(rest);
        }
        let Some(next) = after_byte(item, b',') else {
            return Err(Stop {
                rest: item,
                expected: Expected::CommaOrClosingBracket,
            });
        };
        rest = after_spaces(next);
        expected = Expected::Value;
    }
    Err(Stop { rest, expected })
}

/// What is left after a member of an object.
#[cycle(values)]
fn after_member(alloc: Global, text: &[u8], name: Expected, depth: usize) -> Result<&[u8], Stop<'_>>
    ensures after { IfOk result (λ rest. length rest.now < length text.now) }
    ensures stop { IfErr result (λ stop. length stop.rest.now ≤ length text.now) }
{
    let Some(rest) = after_byte(text, b'"') else {
        return Err(Stop {
            rest: text,
            expected: name,
        });
    };
    let rest = after_spaces(after_string(rest)?);
    let Some(rest) = after_byte(rest, b':') else {
        return Err(Stop {
            rest,
            expected: Expected::Colon,
        });
    };
    after_value(alloc, after_spaces(rest), depth)
}

/// What is left after an object whose opening brace has been passed.
#[cycle(values)]
fn after_object(alloc: Global, text: &[u8], depth: usize) -> Result<&[u8], Stop<'_>>
    ensures after { IfOk result (λ rest. length rest.now < length text.now) }
    ensures stop { IfErr result (λ stop. length stop.rest.now ≤ length text.now) }
{
    let mut rest = after_spaces(text);
    if let Some(rest) = after_byte(rest, b'}') {
        return Ok(rest);
    }
    let mut name = Expected::NameOrClosingBrace;
    for _ in 0..text.len() {
        let member = after_spaces(after_member(alloc, rest, name, depth)?);
        if let Some(rest) = after_byte(member, b'}') {
            return Ok(rest);
        }
        let Some(next) = after_byte(member, b',') else {
            return Err(Stop {
                rest: member,
                expected: Expected::CommaOrClosingBrace,
            });
        };
        rest = after_spaces(next);
        name = Expected::Name;
    }
    Err(Stop {
        rest,
        expected: name,
    })
}
