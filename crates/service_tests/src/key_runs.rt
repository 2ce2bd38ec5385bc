//! Words about keys, and a key that is made and taken.
use stark_answers::{ProofForm, RunEnd, TraceTask};
use stark_cli::statements::{Verb, run};
use stark_cli::{InputWord, WatchedReader, WatchedWriter};
use stark_key_runs::{KeyRequest, key_request_of, run_key, run_with_key};
use stark_service::{NamedFields, Silent};
use std::alloc::{AllocError, Global};
use std::test::Fail;

/// What words ask for, a line each: first the words, then what is asked.
const WORDS: &str = "\
key in = a key of file in
key - = a key of standard
key = a statement is wanted
key one two = one word more than wanted: two
key --output = unknown option --output
verify --key k in = with k: file in, standard
verify --key k - proof = with k: standard, file proof
verify --key k in - = with k: file in, standard
verify --quiet --key k in proof = with k: file in, file proof
verify --key k --quiet in proof = with k: file in, file proof
verify --key k - = both inputs would be standard input
verify --key k = a statement is wanted
verify --key = no path stands after --key
verify --key - in = no path stands after --key
verify --key --quiet in = no path stands after --key
verify --key k --key l in = --key is there twice
verify in --key k = --key stands after an input
verify --key k --at-least 90 in = verify takes --key or --at-least, not both
verify --at-least 90 --key k in = verify takes --key or --at-least, not both
verify --key k --binary in = unknown option --binary
verify --key k in --binary = unknown option --binary
verify --key k in proof more = one word more than wanted: more
verify in proof = no key
prove --key k in = no key
keys in = no key
--key k = no key";

fn input_text(alloc: Global, input: InputWord<'_>) -> Result<String, AllocError> {
    match input {
        InputWord::Nothing => String::from_str(alloc, "nothing"),
        InputWord::Standard => String::from_str(alloc, "standard"),
        InputWord::File(path) => format!(in alloc; "file {path}"),
    }
}

fn request_text(alloc: Global, words: &[String]) -> Result<String, AllocError> {
    match key_request_of(words) {
        None => String::from_str(alloc, "no key"),
        Some(KeyRequest::Make(statement)) => {
            let statement = input_text(alloc, statement)?;
            format!(in alloc; "a key of {statement}")
        }
        Some(
            KeyRequest::Judge {
                key,
                statement,
                proof,
            },
        ) => {
            let statement = input_text(alloc, statement)?;
            let proof = input_text(alloc, proof)?;
            format!(in alloc; "with {key}: {statement}, {proof}")
        }
        Some(KeyRequest::Misused(misuse)) => format!(in alloc; "{misuse}"),
    }
}

#[test]
fn words_about_keys(rt: HostRuntime) -> Result<(), Fail> {
    let alloc = rt.alloc();
    for line in WORDS.lines() {
        let (given, asked) = line.split_once(" = ").ok_or("words without an answer")?;
        let mut words = Vec::new(alloc);
        for word in given.split_ascii_whitespace() {
            words.push(String::from_str(alloc, word)?)?;
        }
        let actual = request_text(alloc, &words)?;
        assert_eq!(rt; actual.as_str(), asked, "{line}");
    }
    Ok(())
}

// The statement whose key docs/FORMATS.md writes out, and that key: a column equals a declared one.
const STATEMENT: &[u8] =
    br#"{"config":{"field":"f12289","scheme":"clear"},"air":{"width":1,"publics":0,"periodic":[],"preprocessed":{"width":1,"rows":[[5],[6]]},"constants":[],"nodes":[["main",0],["preprocessed",0],["sub",0,1]],"constraints":[{"base":2}]},"public_values":[]}"#;

const KEY: &[u8] = b"voskligan key 2\
\x87\xd8\x94\x3b\x50\x4b\xbe\xce\x13\x5b\x7a\x65\x1f\x57\x82\xea\
\x64\x94\xf4\x34\xa4\x71\x76\x72\xf1\xbf\x0e\x67\x71\x37\x60\xeb\
\x01\0\0\0\0\0\0\0\x01\0\0\0\0\0\0\0\x01\
\0\0\0\0\0\0\0\x01\0\0\0\0\0\0\0\x01\0\0\0\0\0\0\0\x02\0\0\x18\x06\0\0\x18\0";

const ACCEPTED: &[u8] = b"accepted\n";

const BAD_INPUT: &[u8] = b"bad input\n";

// The same but for a public value, which makes it another statement.
const OTHER: &[u8] =
    br#"{"config":{"field":"f12289","scheme":"clear"},"air":{"width":1,"publics":1,"periodic":[],"preprocessed":{"width":1,"rows":[[5],[6]]},"constants":[],"nodes":[["main",0],["preprocessed",0],["sub",0,1]],"constraints":[{"base":2}]},"public_values":[1]}"#;

/// The key of a statement, or what else the run writes, and how it ends.
fn made(alloc: Global, mut statement: &[u8]) -> (RunEnd, Vec<u8>) {
    let mut writer = WatchedWriter::new(Vec::new(alloc));
    let mut reader = WatchedReader::new(&mut statement);
    let ended = run_key::<NamedFields, _, _>(alloc, &mut reader, &mut writer);
    (ended.end, writer.into_inner())
}

#[test]
fn a_key_is_written(rt: HostRuntime) {
    let (end, key) = made(rt.alloc(), STATEMENT);
    assert_eq!(rt; end, RunEnd::Accepted);
    assert_eq!(rt; key.as_slice(), KEY);
    let (end, line) = made(rt.alloc(), b"{");
    assert_eq!(rt; end, RunEnd::NotJudged);
    assert_eq!(rt; line.as_slice(), BAD_INPUT);
}

/// A proof of the trace that takes the declared rows.
fn proved(alloc: Global) -> Vec<u8> {
    let mut writer = WatchedWriter::new(Vec::new(alloc));
    let (mut statement, mut trace) = (STATEMENT, &b"[[5],[6]]"[..]);
    let _ended = run::<NamedFields, _, _, _, _>(
        alloc,
        Verb::Trace(TraceTask::Prove(ProofForm::Bytes)),
        &mut WatchedReader::new(&mut statement),
        &mut WatchedReader::new(&mut trace),
        &mut writer,
        &mut Silent,
    );
    writer.into_inner()
}

/// What is written with a key, and how the run ends.
fn judged(
    alloc: Global,
    mut key: &[u8],
    mut statement: &[u8],
    mut proof: &[u8],
) -> (RunEnd, Vec<u8>) {
    let mut writer = WatchedWriter::new(Vec::new(alloc));
    let ended = run_with_key::<NamedFields, _, _, _, _>(
        alloc,
        &mut WatchedReader::new(&mut key),
        &mut WatchedReader::new(&mut statement),
        &mut WatchedReader::new(&mut proof),
        &mut writer,
    );
    (ended.end, writer.into_inner())
}

#[test]
fn a_key_is_taken(rt: HostRuntime) {
    let proof = proved(rt.alloc());
    let (end, line) = judged(rt.alloc(), KEY, STATEMENT, &proof);
    assert_eq!(rt; end, RunEnd::Accepted);
    assert_eq!(rt; line.as_slice(), ACCEPTED);
    // The key of another statement, a key cut short, and no proof.
    let (end, line) = judged(rt.alloc(), KEY, OTHER, &proof);
    assert_eq!(rt; end, RunEnd::NotJudged);
    assert_eq!(rt; line.as_slice(), BAD_INPUT);
    let (cut, _) = KEY.split_at(95);
    let (end, line) = judged(rt.alloc(), cut, STATEMENT, &proof);
    assert_eq!(rt; end, RunEnd::NotJudged);
    assert_eq!(rt; line.as_slice(), BAD_INPUT);
    let (end, line) = judged(rt.alloc(), KEY, STATEMENT, b"");
    assert_eq!(rt; end, RunEnd::NotJudged);
    assert_eq!(rt; line.as_slice(), BAD_INPUT);
}
