//! Strings and their escapes.

ghost use Rattle.std.specs.Prelude.{◌<◌, ◌≤◌, length, IfErr, IfOk, IfSome};

use crate::expected::Expected;
use crate::scan::{Stop, after_byte};

/// The number that four hexadecimal digits at the front spell, and what is left after them.
fn code_unit(text: &[u8]) -> Option<(u16, &[u8])>
    ensures { IfSome result (λ unit. length unit.1.now < length text.now) }
{
    let (digits, rest) = text.split_at_checked(4)?;
    let digits = std::str::from_utf8(digits).ok()?;
    if !digits.bytes().all(|digit| digit.is_ascii_hexdigit()) {
        return None;
    }
    let unit = u16::from_str_radix(digits, 16).ok()?;
    Some((unit, rest))
}

/// What is left after the second of a pair of surrogates.
fn after_low_surrogate(text: &[u8]) -> Option<&[u8]>
    ensures { IfSome result (λ rest. length rest.now < length text.now) }
{
    let text = after_byte(text, b'\\')?;
    let text = after_byte(text, b'u')?;
    match code_unit(text) {
        Some((0xdc00..=0xdfff, rest)) => Some(rest),
        _ => None,
    }
}

/// What is left after the number of a character, which stands after `\u`.
fn after_code(text: &[u8]) -> Result<&[u8], Expected>
    ensures { IfOk result (λ rest. length rest.now < length text.now) }
{
    let Some((unit, rest)) = code_unit(text) else {
        return Err(Expected::HexadecimalDigits);
    };
    match unit {
        0xd800..=0xdbff => after_low_surrogate(rest).ok_or(Expected::SurrogatePair),
        0xdc00..=0xdfff => Err(Expected::SurrogatePair),
        _ => Ok(rest),
    }
}

/// What is left after what stands after a backslash.
fn after_escaped(text: &[u8]) -> Result<&[u8], Expected>
    ensures { IfOk result (λ rest. length rest.now < length text.now) }
{
    match text {
        [
            b'"' | b'\\' | b'/' | b'b' | b'f' | b'n' | b'r' | b't',
            rest @ ..,
        ] => Ok(rest),
        [b'u', rest @ ..] => after_code(rest),
        _ => Err(Expected::Escape),
    }
}

/// What is left after the quotation mark that ends a string, whose front has been passed.
pub(crate) fn after_string(text: &[u8]) -> Result<&[u8], Stop<'_>>
    ensures after { IfOk result (λ rest. length rest.now < length text.now) }
    ensures stop { IfErr result (λ stop. length stop.rest.now ≤ length text.now) }
{
    let mut rest = text;
    for _ in 0..text.len() {
        let Some((byte, more)) = rest.split_first() else {
            break;
        };
        let next = match *byte {
            b'"' => return Ok(more),
            b'\\' => after_escaped(more),
            0..=0x1f => Err(Expected::EscapeOfControl),
            _ => Ok(more),
        };
        match next {
            Ok(more) => rest = more,
            Err(expected) => return Err(Stop { rest, expected }),
        }
    }
    Err(Stop {
        rest,
        expected: Expected::ClosingQuotationMark,
    })
}
