//! Texts that aren't JSON, and where they stop being so. Places and words were found by hand.
use crate::fault::first_fault_of_json;
use std::alloc::Global;
use std::test::Fail;

// A text, in which a backslash stands before the two digits of a byte => line:column and what was
// expected; `json` where it is JSON.
const CASES: &str = r#"
# JSON.
[] => json
 {"a" : [1, 2.5e-3, -0, "b\5cu00e4\5c"", true, false, null] }\0a => json
"\5cud834\5cudd1e" => json
"\c3\a4" => json
1e308 => json
18446744073709551616 => json

# The end comes too early.
 => 1:1 expected a value, and the text ends
\0a\0a => 3:1 expected a value, and the text ends
[ => 1:2 expected a value or a closing bracket, and the text ends
[1 => 1:3 expected a comma or a closing bracket, and the text ends
[1, => 1:4 expected a value, and the text ends
{ => 1:2 expected a name in quotation marks or a closing brace, and the text ends
{"a => 1:4 expected a closing quotation mark, and the text ends
{"a" => 1:5 expected a colon, and the text ends
{"a": => 1:6 expected a value, and the text ends
{"a":1 => 1:7 expected a comma or a closing brace, and the text ends
{"a":1, => 1:8 expected a name in quotation marks, and the text ends
- => 1:2 expected a digit, and the text ends
1. => 1:3 expected a digit, and the text ends
1e+ => 1:4 expected a digit, and the text ends
"\5c => 1:2 expected an escape that JSON has

# Arrays.
[1,] => 1:4 expected a value
[,1] => 1:2 expected a value or a closing bracket
[1 2] => 1:4 expected a comma or a closing bracket
[1\0a 2] => 2:2 expected a comma or a closing bracket
[[1],\0a [2,],\0a [3]] => 2:5 expected a value
[1,,2] => 1:4 expected a value
[1} => 1:3 expected a comma or a closing bracket
[1]] => 1:4 expected the end of the text
[1] x => 1:5 expected the end of the text
[(1)] => 1:2 expected a value or a closing bracket
[1,'a'] => 1:4 expected a value
[1:2] => 1:3 expected a comma or a closing bracket

# Objects.
{a:1} => 1:2 expected a name in quotation marks or a closing brace
{,} => 1:2 expected a name in quotation marks or a closing brace
{"a":1,} => 1:8 expected a name in quotation marks
{"a":1,b} => 1:8 expected a name in quotation marks
{"a" 1} => 1:6 expected a colon
{"a"} => 1:5 expected a colon
{"a":} => 1:6 expected a value
{"a":1 "b":2} => 1:8 expected a comma or a closing brace
{"a":1;"b":2} => 1:7 expected a comma or a closing brace
{"a":1] => 1:7 expected a comma or a closing brace
{"a":[1,{"b":]}]} => 1:14 expected a value

# Words and numbers.
tru => 1:1 expected a value
[nul] => 1:2 expected a value
truex => 1:5 expected the end of the text
[NaN] => 1:2 expected a value or a closing bracket
[01] => 1:3 expected a comma or a closing bracket
[+1] => 1:2 expected a value or a closing bracket
[.5] => 1:2 expected a value or a closing bracket
[-x] => 1:3 expected a digit
[1.e] => 1:4 expected a digit
[1e] => 1:4 expected a digit
[0x10] => 1:3 expected a comma or a closing bracket
[1, 1e400] => 1:5 expected a number that isn't too large

# Strings; a column counts characters.
["a\09"] => 1:4 expected an escape in place of a control character
["\c3\a4\0a"] => 1:4 expected an escape in place of a control character
["\c3\a4\c3\a4", x] => 1:8 expected a value
["\5cx"] => 1:3 expected an escape that JSON has
["a\5cu12"] => 1:4 expected four hexadecimal digits
["a\5cu+123"] => 1:4 expected four hexadecimal digits
["\5cud834"] => 1:3 expected both halves of a pair of surrogates
["\5cudd1e"] => 1:3 expected both halves of a pair of surrogates
["\5cud834\5cu0041"] => 1:3 expected both halves of a pair of surrogates

# Bytes.
[1,\ff] => 1:4 expected UTF-8
"\c3 => 1:2 expected UTF-8
\ef\bb\bf[1] => 1:1 expected a value
\00 => 1:1 expected a value
[1,\0b2] => 1:4 expected a value
"#;

/// The bytes of a text.
fn bytes_of(alloc: Global, text: &str) -> Result<Vec<u8>, Fail> {
    let mut bytes = Vec::new(alloc);
    let mut parts = text.split('\\');
    if let Some(first) = parts.next() {
        bytes.extend_from_slice(first.as_bytes())?;
    }
    for part in parts {
        let (digits, rest) = part.split_at_checked(2).ok_or("no byte")?;
        bytes.push(u8::from_str_radix(digits, 16)?)?;
        bytes.extend_from_slice(rest.as_bytes())?;
    }
    Ok(bytes)
}

/// What is said of a text.
fn answer(alloc: Global, text: &[u8]) -> Result<String, Fail> {
    match first_fault_of_json(alloc, text)? {
        None => Ok(String::from_str(alloc, "json")?),
        Some(fault) => {
            let words = format!(in alloc; "{fault}")?;
            let (_, expected) = words.split_once(": ").ok_or("no colon")?;
            let (line, column) = (fault.line, fault.column);
            Ok(format!(in alloc; "{line}:{column} {expected}")?)
        }
    }
}

#[test]
fn faults_have_places(rt: HostRuntime) -> Result<(), Fail> {
    let alloc = rt.alloc();
    let mut count = 0usize;
    for case in CASES.lines() {
        if !case.is_empty() && !case.starts_with('#') {
            let (text, expected) = case.split_once(" => ").ok_or("a case without an answer")?;
            let bytes = bytes_of(alloc, text)?;
            let actual = answer(alloc, &bytes)?;
            assert_eq!(rt; actual.as_str(), expected, "{text}");
            count = count.saturating_add(1);
        }
    }
    assert_eq!(rt; count, 70);
    Ok(())
}

/// A text of this many arrays within one another.
fn nested(alloc: Global, depth: usize) -> Result<Vec<u8>, Fail> {
    let mut bytes = Vec::new(alloc);
    for _ in 0..depth {
        bytes.push(b'[')?;
    }
    for _ in 0..depth {
        bytes.push(b']')?;
    }
    Ok(bytes)
}

#[test]
fn nesting_has_a_limit(rt: HostRuntime) -> Result<(), Fail> {
    let alloc = rt.alloc();
    let actual = answer(alloc, &nested(alloc, 127)?)?;
    assert_eq!(rt; actual.as_str(), "json");
    let actual = answer(alloc, &nested(alloc, 128)?)?;
    let expected = "1:128 expected at most 127 arrays and objects within one another";
    assert_eq!(rt; actual.as_str(), expected);
    Ok(())
}

// A text from which each byte is left out in turn, and in whose places each of some bytes is put.
const WHOLE: &str = r#" {"a":[1,-2.5e3,{"b":"c\n\u00e4\ud834\udd1e"},true,false,null],"d":{}} "#;

#[test]
fn each_refused_text_has_a_fault(rt: HostRuntime) -> Result<(), Fail> {
    let alloc = rt.alloc();
    let whole = WHOLE.as_bytes();
    for at in 0..whole.len() {
        for byte in b"\"\\{}[]:,0-.e x\x00\xff" {
            let mut text = Vec::new(alloc);
            text.extend_from_slice(&whole[..at])?;
            text.push(*byte)?;
            text.extend_from_slice(&whole[at + 1..])?;
            let said = answer(alloc, &text)?;
            // `Json` is expected only of a text in which the scan finds no fault.
            assert!(rt;
                !said.ends_with("expected JSON, and the text ends"),
                "{at} {byte}"
            );
        }
        let said = answer(alloc, &whole[..at])?;
        assert!(rt; said.as_str() != "json" || at == whole.len() - 1, "{at}");
    }
    Ok(())
}
