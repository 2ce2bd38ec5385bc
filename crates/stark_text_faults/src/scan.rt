//! The front of a text: what stands there, and what is left after it.

ghost use Rattle.std.specs.Prelude.{◌<◌, ◌≤◌, length, IfSome};

use crate::expected::Expected;

/// Where a scan stops: what is left of the text there, and what was expected.
#[derive(Clone, Copy, Debug)]
pub(crate) struct Stop<'a> {
    pub(crate) rest: &'a [u8],
    pub(crate) expected: Expected,
}

/// Whether a byte is one of JSON's spaces.
fn is_space(byte: u8) -> bool {
    byte == b' ' || byte == b'\t' || byte == b'\n' || byte == b'\r'
}

/// What is left after the spaces at the front.
pub(crate) fn after_spaces(text: &[u8]) -> &[u8]
    ensures { length result.now ≤ length text.now }
{
    for (at, byte) in text.iter().enumerate() {
        if !is_space(*byte) {
            return &text[at..];
        }
    }
    &text[text.len()..]
}

/// What is left after this byte, where the text begins with it.
pub(crate) fn after_byte(text: &[u8], byte: u8) -> Option<&[u8]>
    ensures { IfSome result (λ rest. length rest.now < length text.now) }
{
    match text.split_first() {
        Some((first, rest)) if *first == byte => Some(rest),
        _ => None,
    }
}

/// What is left after digits, of which there may be none.
pub(crate) fn after_digits(text: &[u8]) -> &[u8]
    ensures { length result.now ≤ length text.now }
{
    for (at, byte) in text.iter().enumerate() {
        if !byte.is_ascii_digit() {
            return &text[at..];
        }
    }
    &text[text.len()..]
}
