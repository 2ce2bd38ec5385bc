//! Texts, and the rows that they spell; the answers are those of Python's `json`, where a number
//! with a minus, a point or an exponent is no element.
use crate::fault::RowsFault;
use crate::rows::{TraceRows, rows_from_bytes};
use crate::table::read_table;
use stark_fields::F12289;
use stark_support::{JsonFault, lists_from_json, value_from_bytes};
use std::alloc::Global;
use std::test::Fail;

// A text, in which a backslash stands before the two digits of a byte => whether it is read at once
// or by the tree of its values | the number of rows and their length, and the values; or the first
// fault.
const CASES: &str = r#"
# Empty, and rows with nothing in them.
[] => at once | 0 x 0:
 [ ]  => at once | 0 x 0:
[[]] => at once | 1 x 0:
[[],[]] => at once | 2 x 0:
[[],[],[1]] => by the tree | row 2 has 1, row 0 0
[[1],[]] => by the tree | row 1 has 0, row 0 1

# One row and more.
[[0]] => at once | 1 x 1: 0
[[12288]] => at once | 1 x 1: 12288
[[0,1],[1,1]] => at once | 2 x 2: 0 1 1 1
[[0,1],[1,1],[1,2],[2,3]] => at once | 4 x 2: 0 1 1 1 1 2 2 3
[[1,2,3]] => at once | 1 x 3: 1 2 3
[[1],[2],[3],[4],[5],[6],[7]] => at once | 7 x 1: 1 2 3 4 5 6 7
[[10,100,1000,10000],[11,101,1001,10001]] => at once | 2 x 4: 10 100 1000 10000 11 101 1001 10001

# With spaces, tabs and ends of lines.
 [ [ 0 , 1 ] , [ 1 , 1 ] ]  => at once | 2 x 2: 0 1 1 1
[\0a  [0, 1],\0a  [1, 1]\0a]\0a => at once | 2 x 2: 0 1 1 1
\09[\09[0\09,\091]\09]\09 => at once | 1 x 2: 0 1
[[0,1]\0d\0a,[1,1]]\0d\0a => at once | 2 x 2: 0 1 1 1
\0a\0a\0a[[5]] => at once | 1 x 1: 5
[\0b[1]] => by the tree | no JSON
[[1]]\0c => by the tree | no JSON

# Rows of different lengths.
[[1,2],[3]] => by the tree | row 1 has 1, row 0 2
[[1],[2,3]] => by the tree | row 1 has 2, row 0 1
[[1,2],[3,4],[5,6,7]] => by the tree | row 2 has 3, row 0 2
[[1],[],[2]] => by the tree | row 1 has 0, row 0 1

# Numbers that are no whole numbers in digits.
[[1.5]] => by the tree | row 0, column 0: 1.5
[[1.0]] => by the tree | row 0, column 0: 1.0
[[1e2]] => by the tree | row 0, column 0: 100.0
[[1E0]] => by the tree | row 0, column 0: 1.0
[[-1]] => by the tree | row 0, column 0: -1
[[-0]] => by the tree | row 0, column 0: -0.0
[[0,-0]] => by the tree | row 0, column 1: -0.0
[[+1]] => by the tree | no JSON
[[01]] => by the tree | no JSON
[[00]] => by the tree | no JSON
[[1,007]] => by the tree | no JSON
[[.5]] => by the tree | no JSON
[[1.]] => by the tree | no JSON
[[1_000]] => by the tree | no JSON
[[0x10]] => by the tree | no JSON
[[1e]] => by the tree | no JSON
[[NaN]] => by the tree | no JSON
[[-]] => by the tree | no JSON

# Numbers above those of the field.
[[12289]] => by the tree | row 0, column 0: 12289
[[1,12290]] => by the tree | row 0, column 1: 12290
[[4294967296]] => by the tree | row 0, column 0: 4294967296
[[18446744073709551609]] => by the tree | row 0, column 0: 18446744073709551609
[[18446744073709551610]] => by the tree | row 0, column 0: 18446744073709551610
[[18446744073709551615]] => by the tree | row 0, column 0: 18446744073709551615
[[18446744073709551616]] => by the tree | row 0, column 0: 1.8446744073709552e+19
[[18446744073709563905]] => by the tree | row 0, column 0: 1.8446744073709564e+19
[[100000000000000000000]] => by the tree | row 0, column 0: 1e+20
[[340282366920938463463374607431768211456]] => by the tree | row 0, column 0: 3.402823669209385e+38

# Other values.
[[true]] => by the tree | row 0, column 0: true
[[null]] => by the tree | row 0, column 0: null
[["1"]] => by the tree | row 0, column 0: "1"
[[1,"2"]] => by the tree | row 0, column 1: "2"
[[[1]]] => by the tree | row 0, column 0: [1]
[[1],[[2]]] => by the tree | row 1, column 0: [2]
[[{}]] => by the tree | row 0, column 0: {}
[{}] => by the tree | row 0 is no array
{} => by the tree | no array
[1,2] => by the tree | row 0 is no array
[1,[2]] => by the tree | row 0 is no array
[[1],2] => by the tree | row 1 is no array
5 => by the tree | no array
null => by the tree | no array
"[[1]]" => by the tree | no array
{"rows":[[1]]} => by the tree | no array

# No JSON.
 => by the tree | no JSON
[ => by the tree | no JSON
[[ => by the tree | no JSON
[[1 => by the tree | no JSON
[[1] => by the tree | no JSON
[[1, => by the tree | no JSON
[[1,]] => by the tree | no JSON
[[,1]] => by the tree | no JSON
[[1],] => by the tree | no JSON
[,[1]] => by the tree | no JSON
[[1]], => by the tree | no JSON
[[1]]] => by the tree | no JSON
[[1]] [[2]] => by the tree | no JSON
[[1]]5 => by the tree | no JSON
[[1]]x => by the tree | no JSON
[[1 2]] => by the tree | no JSON
[[1][2]] => by the tree | no JSON
[[1],,[2]] => by the tree | no JSON
[[1,,2]] => by the tree | no JSON
[[1]:[2]] => by the tree | no JSON
[[1:2]] => by the tree | no JSON
[[1}] => by the tree | no JSON
[(1)] => by the tree | no JSON
[[1]]\00 => by the tree | no JSON
\00[[1]] => by the tree | no JSON
[['1']] => by the tree | no JSON
[[1]/**/] => by the tree | no JSON
[[1 ,2],[3, 4] => by the tree | no JSON
] => by the tree | no JSON
[]] => by the tree | no JSON
[[]],[] => by the tree | no JSON

# Bytes that are no UTF-8, and letters that are.
[[1]]\ff => by the tree | no JSON
\ff[[1]] => by the tree | no JSON
[[\ff]] => by the tree | no JSON
[["\c3\a4"]] => by the tree | row 0, column 0: "ä"
[["\c3"]] => by the tree | no JSON
\ef\bb\bf[[1]] => by the tree | no JSON
\c2\a0[[1]] => by the tree | no JSON
[[\d9\a1]] => by the tree | no JSON
"#;

/// The bytes of a text.
fn bytes_of(alloc: Global, text: &str) -> Result<Vec<u8>, Fail> {
    let mut bytes = Vec::new(alloc);
    let mut parts = text.split('\\');
    if let Some(first) = parts.next() {
        bytes.extend_from_slice(first.as_bytes())?;
    }
    for part in parts {
        let (digits, rest) = part.split_at_checked(2).ok_or("no byte")?;
        bytes.extend_from_slice(&hex::decode(alloc, digits)?)?;
        bytes.extend_from_slice(rest.as_bytes())?;
    }
    Ok(bytes)
}

/// Rows as the answers have them.
fn shown(alloc: Global, height: usize, width: usize, values: &[F12289]) -> Result<String, Fail> {
    let mut text = format!(in alloc; "{height} x {width}:")?;
    for value in values {
        text.push_str(&format!(in alloc; " {}", value.value())?)?;
    }
    Ok(text)
}

/// A fault as the answers have it.
fn fault_text(alloc: Global, fault: &RowsFault) -> Result<String, Fail> {
    match fault {
        RowsFault::NoJson => Ok(String::from_str(alloc, "no JSON")?),
        RowsFault::NoArray => Ok(String::from_str(alloc, "no array")?),
        RowsFault::NoRow { row } => Ok(format!(in alloc; "row {row} is no array")?),
        RowsFault::NoElement { row, column, value } => {
            Ok(format!(in alloc; "row {row}, column {column}: {value}")?)
        }
        RowsFault::Uneven { row, expected, got } => {
            Ok(format!(in alloc; "row {row} has {got}, row 0 {expected}")?)
        }
        RowsFault::OutOfMemory => Ok(String::from_str(alloc, "out of memory")?),
    }
}

/// What is read of a text.
fn answer(alloc: Global, bytes: &[u8]) -> Result<String, Fail> {
    match rows_from_bytes::<F12289>(alloc, bytes) {
        Ok(
            TraceRows {
                values,
                height,
                width,
            },
        ) => shown(alloc, height, width, &values),
        Err(fault) => fault_text(alloc, &fault),
    }
}

/// What lists of lists are, that were read of a text; none where none were, or of different
/// lengths.
fn answer_of_lists(
    alloc: Global,
    lists: Result<Vec<Vec<F12289>>, JsonFault>,
) -> Result<Option<String>, Fail> {
    let Ok(lists) = lists else {
        return Ok(None);
    };
    let mut values = Vec::new(alloc);
    let mut width = None;
    for list in &lists {
        if width.is_some_and(|width| width != list.len()) {
            return Ok(None);
        }
        width = Some(list.len());
        values.extend_from_slice(list)?;
    }
    Ok(Some(shown(alloc, lists.len(), width.unwrap_or(0), &values)?))
}

/// The lists of lists that a text spells, by the tree of its values.
fn lists_of(alloc: Global, bytes: &[u8]) -> Result<Vec<Vec<F12289>>, JsonFault> {
    lists_from_json(alloc, &value_from_bytes(alloc, bytes)?)
}

#[test]
fn rows_are_read(rt: HostRuntime) -> Result<(), Fail> {
    let mut count = 0usize;
    for case in CASES.lines() {
        if !case.is_empty() && !case.starts_with('#') {
            let (text, expected) = case.split_once(" => ").ok_or("a case without an answer")?;
            let (way, expected) = expected.split_once(" | ").ok_or("no bar")?;
            let bytes = bytes_of(rt.alloc(), text)?;
            let actual = answer(rt.alloc(), &bytes)?;
            assert_eq!(rt; actual.as_str(), expected, "{text}");
            match answer_of_lists(rt.alloc(), lists_of(rt.alloc(), &bytes))? {
                Some(rows) => assert_eq!(rt; rows.as_str(), expected, "{text}"),
                None => assert!(rt; !expected.contains(" x "), "{text}"),
            }
            let at_once = read_table::<F12289>(rt.alloc(), &bytes)?.is_some();
            assert_eq!(rt; at_once, way == "at once", "{text}");
            count = count.saturating_add(1);
        }
    }
    assert_eq!(rt; count, 107);
    Ok(())
}
