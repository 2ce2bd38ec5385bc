//! Names that stand twice in an object of a statement's text: of two members of one name the tree
//! of a JSON text keeps the last, so that the other would be lost without a word.
ghost use Rattle.std.specs.Prelude.{◌≡◌, IfOk, IsSome, Some, option_map, string_bytes};
ghost use Rattle.stark_support.specs.Json.{json_of};
ghost use Rattle.stark_statement.specs.Repeats.{repeated_in, text_json};
ghost use Rattle.stark_statement.specs.StatementJson.{Decodes, repeated_name, statement_fault, unrepeated};

use crate::error::StatementError;
use json::{Reader, Scratch, Token};
use serde_json::{Map, Value};
use stark_json::QuotedName;
use stark_text_faults::place_after;
use std::alloc::{AllocError, Global};

/// A name that its object has already, and how many bytes of the text end with it.
#[derive(Debug, Drop)]
struct Repeat {
    name: QuotedName,
    offset: usize,
}

/// The first name of a text that its object has already; None where each object has each name once.
/// The names of the objects that are open are kept, and the last of them is the innermost's.
fn first_repeat(alloc: Global, text: &str) -> Result<Option<Repeat>, AllocError>
    ensures { IfOk result (λ repeat. IsSome (text_json text.now)
        → option_map (λ r. string_bytes r.name.name) repeat ≡ repeated_in text.now) }
{
    let mut scratch = Scratch::new(alloc);
    let mut reader = Reader::new(text, &mut scratch)?;
    let mut objects: Vec<Map<String, Value>> = Vec::new(alloc);
    'tokens: while let Some(token) = reader.next() {
        match token {
            Token::BeginObject => objects.push(Map::new(alloc))?,
            Token::EndObject => drop(objects.pop()),
            Token::Key(key) => {
                let name = QuotedName::new(alloc, key)?;
                let Some(mut names) = objects.pop() else {
                    return Ok(None);
                };
                let old = names.insert(String::from_str(alloc, key)?, Value::Null)?;
                if old.is_some() {
                    let offset = reader.offset();
                    return Ok(Some(Repeat { name, offset }));
                }
                objects.push(names)?;
            }
            _ => {}
        }
    }
    Ok(None)
}

/// The fault of a text in which a name stands twice.
fn repeated_name(text: &[u8], repeat: Repeat) -> StatementError
    ensures { statement_fault result ≡ Some (repeated_name (string_bytes repeat.name.name)) }
{
    let place = place_after(&text[..repeat.offset.min(text.len())]);
    StatementError::RepeatedName {
        name: repeat.name,
        line: place.line,
        column: place.column,
    }
}

/// Refuses the JSON text of a statement in which an object has a name twice: `RepeatedName` with
/// the first of them, in the order of the text, and the place after it. Of bytes that are no JSON
/// text nothing is said. `OutOfMemory` where an allocation was refused.
pub fn refuse_repeats(alloc: Global, bytes: &[u8]) -> Result<(), StatementError>
    ensures { IsSome (json_of bytes.now) → Decodes (λ nothing. nothing) result
        (unrepeated bytes.now) }
{
    let Ok(text) = std::str::from_utf8(bytes) else {
        return Ok(());
    };
    match first_repeat(alloc, text) {
        Ok(None) => Ok(()),
        Ok(Some(repeat)) => Err(repeated_name(bytes, repeat)),
        Err(AllocError) => Err(StatementError::OutOfMemory),
    }
}
