//! A JSON text, read with the rows at a path apart.
ghost use Rattle.std.specs.Prelude.{◌≡◌, Some, IfOk};
ghost use Rattle.serde_json.specs.Read.{read};
ghost use Rattle.stark_support.specs.Json.{Gives, json_of};
ghost use Rattle.stark_json.specs.Apart.{document_data, names_of};

use crate::apart::read_at;
use crate::rows::NumberRows;
use crate::unread::Unread;
use json::{Reader, Scratch};
use serde_json::Value;
use stark_support::{JsonFault, value_from_bytes};
use std::alloc::Global;

/// How deep arrays and objects nest at most, as for `serde_json`.
const MAX_DEPTH: usize = 127;

/// A JSON value, and the rows that stand at a path in it where they are apart: the value has null
/// there.
#[derive(Drop)]
pub struct Document {
    pub value: Value,
    pub rows: Option<NumberRows>,
}

/// What a text spells, with its rows apart.
fn read_document(alloc: Global, text: &str, path: &[&str]) -> Result<Document, Unread>
    ensures { IfOk result (λ document.
        read text.now ≡ Some (document_data (names_of path.now) document)) }
{
    let mut scratch = Scratch::new(alloc);
    let mut reader = Reader::new(text, &mut scratch)?;
    let (value, rows) = read_at(alloc, &mut reader, path, MAX_DEPTH)?;
    if reader.next().is_some() {
        return Err(Unread::Unknown);
    }
    Ok(Document { value, rows })
}

/// The JSON value that bytes spell. The rows at the path are apart where they are an array of
/// arrays of whole numbers below 2^32, the objects on the way to them have each name once, and no
/// number of the text is negative, has a fraction or an exponent, or passes 64 bits; else the tree
/// has all.
pub fn document_from_bytes(
    alloc: Global,
    bytes: &[u8],
    path: &[&str],
) -> Result<Document, JsonFault>
    ensures { Gives (document_data (names_of path.now)) result (json_of bytes.now) }
{
    if let Ok(text) = std::str::from_utf8(bytes) {
        match read_document(alloc, text, path) {
            Ok(document) => return Ok(document),
            Err(Unread::OutOfMemory) => return Err(JsonFault::OutOfMemory),
            Err(Unread::Unknown) => {}
        }
    }
    let value = value_from_bytes(alloc, bytes)?;
    Ok(Document { value, rows: None })
}
