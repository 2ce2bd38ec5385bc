//! The names of an object's members.
ghost use Rattle.std.specs.Prelude.{◌≡◌, IfOk, option_map, string_bytes};
ghost use Rattle.serde_json.specs.View.{members_view};
ghost use Rattle.stark_json.specs.Apart.{names_of};
ghost use Rattle.stark_json.specs.Names.{first_unknown, is_among};

use serde_json::{Map, Value};
use std::alloc::{AllocError, Global};
use std::fmt;

/// Whether a name is one of these, compared whole.
fn is_among(name: &str, names: &[&str]) -> bool
    ensures { result ≡ is_among name.now (names_of names.now) }
{
    for known in names {
        if name == *known {
            return true;
        }
    }
    false
}

/// The name of the first member that has none of these names, in the order of the map.
pub fn first_unknown<'a>(members: &'a Map<String, Value>, names: &[&str]) -> Option<&'a str>
    ensures { option_map (λ name. name.now) result
        ≡ first_unknown (names_of names.now) (members_view members.now.entries) }
{
    for (name, _member) in members.iter() {
        if !is_among(name.as_str(), names) {
            return Some(name.as_str());
        }
    }
    None
}

/// A name that a text gives, for a message: it is printed in quotes, and cut after some forty
/// bytes.
#[derive(Debug, Drop)]
pub struct QuotedName {
    pub name: String,
}

impl QuotedName {
    /// A copy of the name. Err only where memory was refused.
    pub fn new(alloc: Global, name: &str) -> Result<QuotedName, AllocError>
        ensures { IfOk result (λ quoted. string_bytes quoted.name ≡ name.now) }
    {
        let name = String::from_str(alloc, name)?;
        Ok(QuotedName { name })
    }
}

impl fmt::Display for QuotedName {
    fn fmt<W: fmt::Write>(&self, f: &mut fmt::Formatter<W>) -> fmt::Result {
        let name = self.name.as_str();
        let end = name.floor_char_boundary(40);
        match name.split_at_checked(end) {
            Some((front, rest)) if !rest.is_empty() => write!(f, "{front:?}.."),
            _ => write!(f, "{name:?}"),
        }
    }
}
