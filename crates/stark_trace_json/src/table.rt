//! An array of arrays of whole numbers, read in one pass.
ghost use Rattle.std.specs.Prelude.{◌≡◌, ◌<◌, [], IfOk, IfSome};
ghost use Rattle.json.specs.Lex.{tokens};
ghost use Rattle.stark_trace_json.specs.Scanned.{HasElement, HasRow, HasTable, ahead};

use crate::rows::TraceRows;
use crate::scanner::Scanner;
use serde_json::Value;
use stark_support::JsonCodec;
use std::alloc::{AllocError, Global};

/// The element that the next number spells goes behind the values, and what follows the number is
/// returned. None where none is next.
fn read_element<'a, F: JsonCodec + Drop>(
    alloc: Global,
    scanner: Scanner<'a>,
    values: &mut Vec<F>,
) -> Result<Option<Scanner<'a>>, AllocError>
    ensures { IfOk result (λ read. IfSome read (λ rest. HasElement F.reading
        values.old.items values.new.items (ahead scanner.entry) (ahead rest))) }
{
    let Some((number, rest)) = scanner.number() else {
        return Ok(None);
    };
    match F::from_json(alloc, &Value::from(number)) {
        Ok(element) => {
            values.push(element)?;
            Ok(Some(rest))
        }
        Err(_) => Ok(None),
    }
}

/// The elements of a row go behind the values, and what follows it is returned.
fn read_row<'a, F: JsonCodec + Drop>(
    alloc: Global,
    scanner: Scanner<'a>,
    values: &mut Vec<F>,
) -> Result<Option<Scanner<'a>>, AllocError>
    ensures { IfOk result (λ read. IfSome read (λ rest.
        HasRow F.reading values.old.items values.new.items (ahead scanner.entry) (ahead rest))) }
{
    let Some(mut items) = scanner.open() else {
        return Ok(None);
    };
    for _ in 0..items.len() {
        if let Some(rest) = items.close() {
            return Ok(Some(rest));
        }
        let Some(rest) = read_element(alloc, items, values)? else {
            return Ok(None);
        };
        items = rest;
    }
    Ok(None)
}

/// The length of rows, to which one of this length comes; None where theirs is another.
fn common_width(height: usize, width: usize, length: usize) -> Option<usize>
    ensures { IfSome result (λ common. (common ≡ length) × (0 < height → width ≡ length)) }
{
    if height == 0 || width == length {
        Some(length)
    } else {
        None
    }
}

/// An empty list with room for the values of a text, one more than it has commas, if that much can
/// be had.
fn with_room<F: Drop>(alloc: Global, text: &[u8]) -> Vec<F>
    ensures { result.items ≡ [] }
{
    let commas = text.iter().filter(|byte| **byte == b',').count();
    match Vec::with_capacity(alloc, commas.saturating_add(1)) {
        Ok(values) => values,
        Err(AllocError) => Vec::new(alloc),
    }
}

/// The rows of an array of arrays of whole numbers, all of one length. Of a text for which it is
/// None nothing is said.
pub(crate) fn read_table<F: JsonCodec + Drop>(
    alloc: Global,
    text: &[u8],
) -> Result<Option<TraceRows<F>>, AllocError>
    ensures { IfOk result (λ read. IfSome read (λ table.
        HasTable F.reading table (tokens text.now))) }
{
    let Some(mut scanner) = Scanner::new(text).open() else {
        return Ok(None);
    };
    let mut values = with_room(alloc, text);
    let mut width = 0;
    for height in 0..text.len() {
        if let Some(rest) = scanner.close() {
            if !rest.is_at_end() {
                return Ok(None);
            }
            return Ok(Some(TraceRows {
                values,
                height,
                width,
            }));
        }
        let before = values.len();
        let Some(rest) = read_row(alloc, scanner, &mut values)? else {
            return Ok(None);
        };
        let Some(common) = common_width(height, width, values.len() - before) else {
            return Ok(None);
        };
        width = common;
        scanner = rest;
    }
    Ok(None)
}
