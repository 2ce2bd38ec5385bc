//! Texts, whether their rows are apart, and that what is read is what the tree has.
use crate::document::{Document, document_from_bytes};
use crate::rows::NumberRows;
use serde_json::Value;
use stark_support::{JsonFault, value_from_bytes};
use std::alloc::Global;
use std::test::Fail;

// A text => whether its rows are apart, all is in the tree, or it is refused. A backslash and two
// digits are a byte, so that \5c is the backslash of an escape.
const TEXTS: &str = r##"
# Rows on the path.
{"air":{"preprocessed":{"rows":[]}}} => apart
{"air":{"preprocessed":{"rows":[[]]}}} => apart
{"air":{"preprocessed":{"rows":[[],[1],[2,3]]}}} => apart
{"air":{"preprocessed":{"width":2,"rows":[[0,1],[2,3]]},"width":1},"config":null} => apart
{"config":{"a":[{}],"b":"c"},"air":{"nodes":[["main",0],["add",0,1]],"preprocessed":{"rows":[[7]],"width":1}},"public_values":[1,2]} => apart
{"air":{"preprocessed":{"rows":[[4294967295]]}}} => apart
 { "air" : { "preprocessed" : { "rows" : [ [ 0 , 1 ] , [ 1 , 1 ] ] } } }  => apart
{\0a\09"air":\0d{"preprocessed":{"rows":[[0]]}}}\0a => apart
{"air":{"preprocessed":{"ro\5cu0077s":[[5]]}}} => apart
{"\5cu0061ir":{"preprocessed":{"rows":[[5]]}}} => apart
{"rows":[[1]],"preprocessed":{"rows":[[2]]},"air":{"rows":[[3]],"air":[[4]],"preprocessed":{"rows":[[5]],"preprocessed":6}}} => apart
{"air":{"preprocessed":{"rows":[[1]]}},"x":"\c3\a4","y":[true,false,null,18446744073709551615]} => apart
{"x":1,"x":2,"air":{"y":1,"y":2,"preprocessed":{"z":1,"rows":[[1]],"z":2}}} => apart

# None on the path.
{} => tree
{"air":{}} => tree
{"air":null} => tree
{"air":{"preprocessed":null}} => tree
{"air":{"preprocessed":{}}} => tree
{"air":{"preprocessed":{"width":1}}} => tree
null => tree
[[[1]]] => tree
7 => tree
"rows" => tree
{"air":[1]} => tree
{"air":{"preprocessed":[[1]]}} => tree
{"air":{"preprocessed":"rows"}} => tree
{"AIR":{"preprocessed":{"rows":[[1]]}}} => tree
{"air ":{"preprocessed":{"rows":[[1]]}}} => tree

# Rows that are none of small numbers.
{"air":{"preprocessed":{"rows":null}}} => tree
{"air":{"preprocessed":{"rows":7}}} => tree
{"air":{"preprocessed":{"rows":"[[1]]"}}} => tree
{"air":{"preprocessed":{"rows":{}}}} => tree
{"air":{"preprocessed":{"rows":[1]}}} => tree
{"air":{"preprocessed":{"rows":[[1],2]}}} => tree
{"air":{"preprocessed":{"rows":[[1],null]}}} => tree
{"air":{"preprocessed":{"rows":[[[1]]]}}} => tree
{"air":{"preprocessed":{"rows":[["1"]]}}} => tree
{"air":{"preprocessed":{"rows":[[true]]}}} => tree
{"air":{"preprocessed":{"rows":[[4294967296]]}}} => tree
{"air":{"preprocessed":{"rows":[[18446744073709551616]]}}} => tree
{"air":{"preprocessed":{"rows":[[-1]]}}} => tree
{"air":{"preprocessed":{"rows":[[-0]]}}} => tree
{"air":{"preprocessed":{"rows":[[1.0]]}}} => tree
{"air":{"preprocessed":{"rows":[[1e0]]}}} => tree
{"air":{"preprocessed":{"rows":[[1E3]]}}} => tree

# Numbers elsewhere that are no whole ones.
{"x":-1,"air":{"preprocessed":{"rows":[[1]]}}} => tree
{"air":{"preprocessed":{"rows":[[1]],"x":0.5}}} => tree
{"air":{"preprocessed":{"rows":[[1]]}},"x":[1e3]} => tree
{"air":{"preprocessed":{"rows":[[1]]}},"x":18446744073709551616} => tree

# Names that come twice.
{"air":{"preprocessed":{"rows":[[1]]}},"air":{"preprocessed":{"rows":[[2]]}}} => tree
{"air":1,"air":{"preprocessed":{"rows":[[2]]}}} => tree
{"air":{"preprocessed":{"rows":[[1]]}},"air":null} => tree
{"air":null,"air":{"preprocessed":{"rows":[[1]]}}} => tree
{"air":{"preprocessed":{"rows":[[1]]},"preprocessed":{"rows":[[2]]}}} => tree
{"air":{"preprocessed":{"rows":[[1]],"rows":[[2]]}}} => tree
{"air":{"preprocessed":{"rows":[[1]],"ro\5cu0077s":[[2]]}}} => tree

# No JSON.
 => refused
{ => refused
{"air" => refused
{"air": => refused
{"air":{"preprocessed":{"rows":[[1 => refused
{"air":{"preprocessed":{"rows":[[1]]}} => refused
{"air":{"preprocessed":{"rows":[[1]]}}}} => refused
{"air":{"preprocessed":{"rows":[[1]]}}}{} => refused
{"air":{"preprocessed":{"rows":[[1]]}}},1 => refused
{"air":{"preprocessed":{"rows":[[1,]]}}} => refused
{"air":{"preprocessed":{"rows":[[1],]}}} => refused
{"air":{"preprocessed":{"rows":[,[1]]}}} => refused
{"air":{"preprocessed":{"rows":[[1][2]]}}} => refused
{"air":{"preprocessed":{"rows":[[1 2]]}}} => refused
{"air":{"preprocessed":{"rows":[[01]]}}} => refused
{"air":{"preprocessed":{"rows":[[+1]]}}} => refused
{"air":{"preprocessed":{"rows":[[1.]]}}} => refused
{"air":{"preprocessed":{"rows":[[1e]]}}} => refused
{"air":{"preprocessed":{"rows":[[1e999]]}}} => refused
{"air":{"preprocessed":{"rows":[[1]]}},} => refused
{"air":{"preprocessed":{"rows":[[1]]},"x"}} => refused
{"air":{"preprocessed":{"rows" [[1]]}}} => refused
{air:{"preprocessed":{"rows":[[1]]}}} => refused
{"air":{"preprocessed":{"rows":[[1]]}},"x":"\5cud800"} => refused
{"air":{"preprocessed":{"rows":[[1]]}},"x":"\0a"} => refused
{"air":{"preprocessed":{"rows":[[1]]}},"x":"\ff"} => refused
\ef\bb\bf{"air":{"preprocessed":{"rows":[[1]]}}} => refused
{"air":{"preprocessed":{"rows":[[1]}}} => refused
{"air":{"preprocessed":{"rows":[(1)]}}} => refused
"##;

/// The bytes of a text.
fn bytes_of(alloc: Global, text: &str) -> Result<Vec<u8>, Fail> {
    let mut bytes = Vec::new(alloc);
    let mut parts = text.split('\\');
    if let Some(first) = parts.next() {
        bytes.extend_from_slice(first.as_bytes())?;
    }
    for part in parts {
        let (digits, rest) = part.split_at_checked(2).ok_or("no byte")?;
        bytes.extend_from_slice(&hex::decode(alloc, digits)?)?;
        bytes.extend_from_slice(rest.as_bytes())?;
    }
    Ok(bytes)
}

/// What is read of bytes, with the rows of a statement apart.
fn read(alloc: Global, bytes: &[u8]) -> Result<Document, JsonFault> {
    document_from_bytes(alloc, bytes, &["air", "preprocessed", "rows"])
}

/// What stands on the path, of which null is left.
fn taken(tree: &mut Value) -> Option<Value> {
    let air = tree.get_mut("air")?;
    let preprocessed = air.get_mut("preprocessed")?;
    let rows = preprocessed.get_mut("rows")?;
    Some(rows.take())
}

/// Lists as JSON writes them.
fn spelled(alloc: Global, rows: &NumberRows) -> Result<String, Fail> {
    let mut text = String::from_str(alloc, "[")?;
    let mut rest = rows.numbers.as_slice();
    for (place, length) in rows.lengths.iter().enumerate() {
        let (row, more) = rest.split_at_checked(*length).ok_or("no such list")?;
        rest = more;
        text.push_str(if place == 0 { "[" } else { ",[" })?;
        for (column, number) in row.iter().enumerate() {
            text.push_str(if column == 0 { "" } else { "," })?;
            text.push_str(&format!(in alloc; "{number}")?)?;
        }
        text.push_str("]")?;
    }
    text.push_str("]")?;
    Ok(text)
}

/// Where the rows of a document are, and whether it is the tree.
fn placed(alloc: Global, document: Document, tree: Value) -> Result<(&'static str, bool), Fail> {
    let mut tree = tree;
    let Document { value, rows } = document;
    let Some(rows) = rows else {
        return Ok(("tree", value == tree));
    };
    let there = taken(&mut tree).ok_or("no rows")?;
    let there = there.to_string(alloc)?;
    let apart = spelled(alloc, &rows)?;
    Ok(("apart", value == tree && apart.as_str() == there.as_str()))
}

/// Where the rows of a text are, and whether the document is the tree of `serde_json`.
fn compared(alloc: Global, bytes: &[u8]) -> Result<(&'static str, bool), Fail> {
    let tree = value_from_bytes(alloc, bytes);
    match (read(alloc, bytes), tree) {
        (Ok(document), Ok(tree)) => placed(alloc, document, tree),
        (Err(JsonFault::Invalid), Err(JsonFault::Invalid)) => Ok(("refused", true)),
        _ => Ok(("otherwise", false)),
    }
}

#[test]
fn documents_are_the_trees(rt: HostRuntime) -> Result<(), Fail> {
    let mut count = 0usize;
    for case in TEXTS.lines() {
        if !case.is_empty() && !case.starts_with('#') {
            let (text, expected) = case.split_once(" => ").ok_or("a case without an answer")?;
            let bytes = bytes_of(rt.alloc(), text)?;
            let (place, same) = compared(rt.alloc(), &bytes)?;
            assert_eq!(rt; place, expected, "{text}");
            assert!(rt; same, "{text}");
            count = count.saturating_add(1);
        }
    }
    assert_eq!(rt; count, 85);
    Ok(())
}

/// A text whose value nests so deep, beside rows.
fn nested(alloc: Global, depth: usize) -> Result<String, Fail> {
    let mut text = String::from_str(alloc, r#"{"air":{"preprocessed":{"rows":[[1]]}},"x":"#)?;
    for _ in 0..depth {
        text.push_str("[")?;
    }
    for _ in 0..depth {
        text.push_str("]")?;
    }
    text.push_str("}")?;
    Ok(text)
}

#[test]
fn nesting_is_bounded(rt: HostRuntime) -> Result<(), Fail> {
    for (depth, expected) in [
        (1usize, "apart"),
        (126, "apart"),
        (127, "refused"),
        (100_000, "refused"),
    ] {
        let text = nested(rt.alloc(), depth)?;
        let (place, same) = compared(rt.alloc(), text.as_bytes())?;
        assert_eq!(rt; place, expected, "{depth}");
        assert!(rt; same, "{depth}");
    }
    Ok(())
}
