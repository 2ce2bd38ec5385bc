//! A JSON value that is read with the rows at a path apart.
ghost use Rattle.std.specs.Prelude.{◌≡◌, ◌<◌, length, Some, IfOk, OnOk};
ghost use Rattle.serde_json.specs.View.{view};
ghost use Rattle.stark_json.specs.Apart.{joined, names_of, rows_apart};
ghost use Rattle.stark_json.specs.Tokens.{found_members, members_at, value_at};

use crate::rows::{NumberRows, read_rows};
use crate::unread::Unread;
use crate::values::read;
use json::{Reader, Token};
use serde_json::{Map, Value};
use std::alloc::Global;

/// The value that is next, with the rows at a path apart; null is left in their place.
#[cycle(read_at)]
pub(crate) fn read_at(
    alloc: Global,
    reader: &mut Reader<'_>,
    path: &[&str],
    depth: usize,
) -> Result<(Value, Option<NumberRows>), Unread>
    ensures read { IfOk result (λ value. value_at depth reader.old
        ≡ Some (joined (names_of path.now) (rows_apart value.1) (view value.0), reader.new)) }
    ensures shorter { OnOk result (length reader.new < length reader.old) }
{
    let Some((name, path)) = path.split_first() else {
        let rows = read_rows(alloc, reader, depth)?;
        return Ok((Value::Null, Some(rows)));
    };
    let token = reader.next().ok_or(Unread::Unknown)?;
    match token {
        Token::Null => Ok((Value::Null, None)),
        Token::BeginObject if depth > 0 => {
            let (members, rows) = read_members_at(alloc, reader, name, path, depth - 1)?;
            Ok((Value::Object(members), rows))
        }
        _ => Err(Unread::Unknown),
    }
}

/// The members up to the end of an object, with the rows at a path in that of this name apart.
#[cycle(read_at)]
fn read_members_at(
    alloc: Global,
    reader: &mut Reader<'_>,
    name: &str,
    path: &[&str],
    depth: usize,
) -> Result<(Map<String, Value>, Option<NumberRows>), Unread>
    ensures read { IfOk result (λ object. members_at depth reader.old
        ≡ Some (found_members name.now path.now object.1 object.0.entries, reader.new)) }
    ensures shorter { OnOk result (length reader.new < length reader.old) }
{
    let mut object = Map::new(alloc);
    let mut rows = None;
    let mut seen = false;
    'members: while let Some(key) = reader.next_key()? {
        let owned = String::from_str(alloc, key)?;
        if key == name {
            if seen {
                return Err(Unread::Unknown);
            }
            seen = true;
            let (member, apart) = read_at(alloc, reader, path, depth)?;
            rows = apart;
            drop(object.insert(owned, member)?);
        } else {
            let member = read(alloc, reader, depth)?;
            drop(object.insert(owned, member)?);
        }
    }
    Ok((object, rows))
}
