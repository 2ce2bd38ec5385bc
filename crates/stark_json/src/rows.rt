//! Arrays of arrays of small numbers, in one list.
ghost use Rattle.std.specs.Prelude.{◌≡◌, ◌<◌, ◌∷◌, ℕ, length, map, Some, IfOk, OnOk};
ghost use Rattle.json.specs.Token.{begin_array};
ghost use Rattle.serde_json.specs.View.{items_of};
ghost use Rattle.stark_json.specs.Apart.{lists_of, number_data, row_data, rows_data};
ghost use Rattle.stark_json.specs.Tokens.{AddsNumbers, AddsRow, items_at, value_at};

use crate::number::small_number;
use crate::unread::Unread;
use json::{Reader, Token};
use std::alloc::Global;

/// Lists of numbers: the numbers of all, one list after the other, and how many each has.
#[derive(Debug, Drop)]
pub struct NumberRows {
    pub numbers: Vec<u32>,
    pub lengths: Vec<usize>,
}

/// Passes the bracket that opens an array.
fn open(reader: &mut Reader<'_>) -> Result<(), Unread>
    ensures { OnOk result (reader.old ≡ begin_array ∷ reader.new) }
{
    let token = reader.next().ok_or(Unread::Unknown)?;
    match token {
        Token::BeginArray => Ok(()),
        _ => Err(Unread::Unknown),
    }
}

/// The number that is next.
fn read_number(reader: &mut Reader<'_>) -> Result<u32, Unread>
    ensures read { IfOk result (λ n. (depth : ℕ)
        → value_at depth reader.old ≡ Some (number_data n, reader.new)) }
    ensures shorter { OnOk result (length reader.new < length reader.old) }
{
    let token = reader.next().ok_or(Unread::Unknown)?;
    match token {
        Token::Number(text) => match small_number(text) {
            Some(number) => Ok(number),
            None => Err(Unread::Unknown),
        },
        _ => Err(Unread::Unknown),
    }
}

/// The numbers up to the end of an array go behind those that are there.
fn read_numbers(reader: &mut Reader<'_>, numbers: &mut Vec<u32>, depth: usize) -> Result<(), Unread>
    ensures read { OnOk result (AddsNumbers depth numbers.old.items numbers.new.items
        reader.old reader.new) }
    ensures shorter { OnOk result (length reader.new < length reader.old) }
{
    'items: while !reader.take_end_array() {
        let number = read_number(reader)?;
        numbers.push(number)?;
    }
    Ok(())
}

/// Adds the numbers of the array that is next, where arrays nest so deep at most.
fn read_row(reader: &mut Reader<'_>, numbers: &mut Vec<u32>, depth: usize) -> Result<(), Unread>
    ensures read { OnOk result (AddsRow depth numbers.old.items numbers.new.items
        reader.old reader.new) }
    ensures shorter { OnOk result (length reader.new < length reader.old) }
{
    if depth == 0 {
        return Err(Unread::Unknown);
    }
    open(reader)?;
    read_numbers(reader, numbers, depth - 1)?;
    Ok(())
}

/// The arrays of numbers up to the end of an array.
fn read_more(alloc: Global, reader: &mut Reader<'_>, depth: usize) -> Result<NumberRows, Unread>
    ensures read { IfOk result (λ rows. items_at depth reader.old
        ≡ Some (items_of (map row_data (lists_of rows)), reader.new)) }
    ensures shorter { OnOk result (length reader.new < length reader.old) }
{
    let mut numbers = Vec::new(alloc);
    let mut lengths = Vec::new(alloc);
    'items: while !reader.take_end_array() {
        let before = numbers.len();
        read_row(reader, &mut numbers, depth)?;
        lengths.push(numbers.len() - before)?;
    }
    Ok(NumberRows { numbers, lengths })
}

/// The array of arrays of numbers that is next, where arrays nest so deep at most.
pub(crate) fn read_rows(
    alloc: Global,
    reader: &mut Reader<'_>,
    depth: usize,
) -> Result<NumberRows, Unread>
    ensures read { IfOk result (λ rows.
        value_at depth reader.old ≡ Some (rows_data (lists_of rows), reader.new)) }
    ensures shorter { OnOk result (length reader.new < length reader.old) }
{
    if depth == 0 {
        return Err(Unread::Unknown);
    }
    open(reader)?;
    let rows = read_more(alloc, reader, depth - 1)?;
    Ok(rows)
}
