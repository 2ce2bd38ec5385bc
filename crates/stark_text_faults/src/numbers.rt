//! Numbers, and the three words.

ghost use Rattle.std.specs.Prelude.{◌<◌, ◌≤◌, length, IfErr, IfOk, IfSome};

use crate::expected::Expected;
use crate::scan::{Stop, after_byte, after_digits};
use serde_json::Value;
use std::alloc::Global;

/// What is left after a word, where the text begins with it.
fn after_word<'a>(text: &'a [u8], word: &[u8]) -> Option<&'a [u8]>
    requires { 0 < length word.now }
    ensures { IfSome result (λ rest. length rest.now < length text.now) }
{
    text.strip_prefix(word)
}

/// What is left after `true`, `false` or `null`.
pub(crate) fn after_literal(text: &[u8]) -> Result<&[u8], Stop<'_>>
    ensures after { IfOk result (λ rest. length rest.now < length text.now) }
    ensures stop { IfErr result (λ stop. length stop.rest.now ≤ length text.now) }
{
    for word in [b"true".as_slice(), b"false".as_slice(), b"null".as_slice()] {
        if let Some(rest) = after_word(text, word) {
            return Ok(rest);
        }
    }
    Err(Stop {
        rest: text,
        expected: Expected::Value,
    })
}

/// What is left after one digit and more.
fn after_some_digits(text: &[u8]) -> Result<&[u8], Stop<'_>>
    ensures after { IfOk result (λ rest. length rest.now < length text.now) }
    ensures stop { IfErr result (λ stop. length stop.rest.now ≤ length text.now) }
{
    match text {
        [b'0'..=b'9', rest @ ..] => Ok(after_digits(rest)),
        _ => Err(Stop {
            rest: text,
            expected: Expected::Digit,
        }),
    }
}

/// What is left after a whole number without a sign, of which a leading zero is all.
fn after_whole(text: &[u8]) -> Result<&[u8], Stop<'_>>
    ensures after { IfOk result (λ rest. length rest.now < length text.now) }
    ensures stop { IfErr result (λ stop. length stop.rest.now ≤ length text.now) }
{
    match after_byte(text, b'0') {
        Some(rest) => Ok(rest),
        None => after_some_digits(text),
    }
}

/// What is left after a fraction, where there is one.
fn after_fraction(text: &[u8]) -> Result<&[u8], Stop<'_>>
    ensures after { IfOk result (λ rest. length rest.now ≤ length text.now) }
    ensures stop { IfErr result (λ stop. length stop.rest.now ≤ length text.now) }
{
    match after_byte(text, b'.') {
        Some(rest) => after_some_digits(rest),
        None => Ok(text),
    }
}

/// What is left after the sign of an exponent, where there is one.
fn after_sign(text: &[u8]) -> &[u8]
    ensures { length result.now ≤ length text.now }
{
    match text {
        [b'+' | b'-', rest @ ..] => rest,
        _ => text,
    }
}

/// What is left after an exponent, where there is one.
fn after_exponent(text: &[u8]) -> Result<&[u8], Stop<'_>>
    ensures after { IfOk result (λ rest. length rest.now ≤ length text.now) }
    ensures stop { IfErr result (λ stop. length stop.rest.now ≤ length text.now) }
{
    match text {
        [b'e' | b'E', rest @ ..] => after_some_digits(after_sign(rest)),
        _ => Ok(text),
    }
}

/// What is left after a number, however large it is.
fn after_any_number(text: &[u8]) -> Result<&[u8], Stop<'_>>
    ensures after { IfOk result (λ rest. length rest.now < length text.now) }
    ensures stop { IfErr result (λ stop. length stop.rest.now ≤ length text.now) }
{
    let unsigned = after_byte(text, b'-').unwrap_or(text);
    let rest = after_whole(unsigned)?;
    let rest = after_fraction(rest)?;
    let rest = after_exponent(rest)?;
    Ok(rest)
}

/// Whether a number that is written so is read.
fn is_read(alloc: Global, number: &[u8]) -> bool {
    match Value::from_slice(alloc, number) {
        Ok(_) => true,
        Err(error) => error.is_memory(),
    }
}

/// What is left after a number.
pub(crate) fn after_number(alloc: Global, text: &[u8]) -> Result<&[u8], Stop<'_>>
    ensures after { IfOk result (λ rest. length rest.now < length text.now) }
    ensures stop { IfErr result (λ stop. length stop.rest.now ≤ length text.now) }
{
    let rest = after_any_number(text)?;
    if is_read(alloc, &text[..text.len() - rest.len()]) {
        Ok(rest)
    } else {
        Err(Stop {
            rest: text,
            expected: Expected::SmallerNumber,
        })
    }
}
