//! JSON values of the tokens of a text, none of whose numbers is negative or a float.
ghost use Rattle.std.specs.Prelude.{◌≡◌, ◌<◌, length, Some, IfOk, OnOk};
ghost use Rattle.serde_json.specs.View.{items_view, members_view, view};
ghost use Rattle.stark_json.specs.Tokens.{items_at, members_at, value_at};

use crate::number::whole_number;
use crate::unread::Unread;
use json::{Reader, Token};
use serde_json::{Map, Value};
use std::alloc::Global;

/// The value that is next, in which arrays and objects nest so deep at most.
#[cycle(read)]
pub(crate) fn read(alloc: Global, reader: &mut Reader<'_>, depth: usize) -> Result<Value, Unread>
    ensures read { IfOk result (λ value.
        value_at depth reader.old ≡ Some (view value, reader.new)) }
    ensures shorter { OnOk result (length reader.new < length reader.old) }
{
    let token = reader.next().ok_or(Unread::Unknown)?;
    match token {
        Token::String(text) => Ok(Value::String(String::from_str(alloc, text)?)),
        Token::Number(text) => match whole_number(text) {
            Some(number) => Ok(Value::from(number)),
            None => Err(Unread::Unknown),
        },
        Token::Bool(truth) => Ok(Value::Bool(truth)),
        Token::Null => Ok(Value::Null),
        Token::BeginArray if depth > 0 => Ok(Value::Array(read_items(alloc, reader, depth - 1)?)),
        Token::BeginObject if depth > 0 => {
            Ok(Value::Object(read_members(alloc, reader, depth - 1)?))
        }
        _ => Err(Unread::Unknown),
    }
}

/// The items up to the end of an array.
#[cycle(read)]
fn read_items(alloc: Global, reader: &mut Reader<'_>, depth: usize) -> Result<Vec<Value>, Unread>
    ensures read { IfOk result (λ items.
        items_at depth reader.old ≡ Some (items_view items.items, reader.new)) }
    ensures shorter { OnOk result (length reader.new < length reader.old) }
{
    let mut values = Vec::new(alloc);
    'items: while !reader.take_end_array() {
        let item = read(alloc, reader, depth)?;
        values.push(item)?;
    }
    Ok(values)
}

/// The members up to the end of an object.
#[cycle(read)]
fn read_members(
    alloc: Global,
    reader: &mut Reader<'_>,
    depth: usize,
) -> Result<Map<String, Value>, Unread>
    ensures read { IfOk result (λ object.
        members_at depth reader.old ≡ Some (members_view object.entries, reader.new)) }
    ensures shorter { OnOk result (length reader.new < length reader.old) }
{
    let mut object = Map::new(alloc);
    'members: while let Some(name) = reader.next_key()? {
        let key = String::from_str(alloc, name)?;
        let member = read(alloc, reader, depth)?;
        drop(object.insert(key, member)?);
    }
    Ok(object)
}
