//! The words after the name of `voskligan`, where they are about keys.
ghost use Rattle.std.specs.Prelude.{◌≡◌, map, option_copied, option_map, string_bytes};
ghost use Rattle.stark_cli.specs.Arguments.{input_view};
ghost use Rattle.stark_key_runs.specs.KeyWords.{inputs_asked, inputs_if, is_key_named, judged, judging, key_asked_of, making, request_view};

use stark_cli::{InputWord, input_of, path_of};
use std::fmt;

/// What is wrong with words about keys, of which the first fault is named.
#[derive(Clone, Copy, Debug)]
pub enum KeyMisuse<'w> {
    /// No statement is named.
    NoStatement,
    /// There is a word more than the verb takes.
    OneWordMore { word: &'w str },
    /// A word begins as an option does, and is none of the verb's.
    UnknownOption { word: &'w str },
    /// No path stands after `--key`.
    NoKey,
    /// `--key` is there twice.
    KeyTwice,
    /// `--key` stands after an input.
    KeyAfterInput,
    /// `--at-least` is there too.
    WithFloor,
    /// Both inputs would be standard input.
    StandardInputTwice,
}

impl fmt::Display for KeyMisuse<'_> {
    fn fmt<W: fmt::Write>(&self, f: &mut fmt::Formatter<W>) -> fmt::Result {
        match self {
            KeyMisuse::NoStatement => f.write_str("a statement is wanted"),
            KeyMisuse::OneWordMore { word } => write!(f, "one word more than wanted: {word}"),
            KeyMisuse::UnknownOption { word } => write!(f, "unknown option {word}"),
            KeyMisuse::NoKey => f.write_str("no path stands after --key"),
            KeyMisuse::KeyTwice => f.write_str("--key is there twice"),
            KeyMisuse::KeyAfterInput => f.write_str("--key stands after an input"),
            KeyMisuse::WithFloor => f.write_str("verify takes --key or --at-least, not both"),
            KeyMisuse::StandardInputTwice => f.write_str("both inputs would be standard input"),
        }
    }
}

/// What words about keys ask for.
#[derive(Clone, Copy, Debug)]
pub enum KeyRequest<'w> {
    /// The key of the statement that is named.
    Make(InputWord<'w>),
    /// A verdict on a proof for a statement, with the key in the file of a path.
    Judge {
        key: &'w str,
        statement: InputWord<'w>,
        proof: InputWord<'w>,
    },
    /// Nothing, since there is a fault.
    Misused(KeyMisuse<'w>),
}

/// What the words after `key` ask for: one names the statement.
#[tactic(auto, unfolding(crate::specs::KeyWords::making))]
fn making<'w>(words: &'w [String]) -> KeyRequest<'w>
    ensures { request_view result ≡ making (map string_bytes words.now) }
{
    match words {
        [] => KeyRequest::Misused(KeyMisuse::NoStatement),
        [word] => match input_of(word.as_str()) {
            Some(statement) => KeyRequest::Make(statement),
            None => KeyRequest::Misused(KeyMisuse::UnknownOption { word }),
        },
        [_, word, ..] => KeyRequest::Misused(KeyMisuse::OneWordMore { word }),
    }
}

/// The verdict that is asked for with a key on two inputs, of which one may be standard input.
fn judged<'w>(key: &'w str, statement: InputWord<'w>, proof: InputWord<'w>) -> KeyRequest<'w>
    ensures { request_view result ≡ judged key.now (input_view statement.entry)
        (input_view proof.entry) }
{
    match (statement, proof) {
        (InputWord::Standard, InputWord::Standard) => {
            KeyRequest::Misused(KeyMisuse::StandardInputTwice)
        }
        (statement, proof) => KeyRequest::Judge {
            key,
            statement,
            proof,
        },
    }
}

/// What words that name the inputs ask for, with a key.
#[tactic(auto, unfolding(crate::specs::KeyWords::inputs_asked))]
fn inputs_asked<'w>(key: &'w str, words: &'w [String]) -> KeyRequest<'w>
    ensures { request_view result ≡ inputs_asked key.now (map string_bytes words.now) }
{
    match words {
        [] => KeyRequest::Misused(KeyMisuse::NoStatement),
        [word] => match input_of(word.as_str()) {
            // A proof that isn't named is standard input.
            Some(statement) => judged(key, statement, InputWord::Standard),
            None => KeyRequest::Misused(KeyMisuse::UnknownOption { word }),
        },
        [word, second] => match (input_of(word.as_str()), input_of(second.as_str())) {
            (Some(statement), Some(proof)) => judged(key, statement, proof),
            (None, _) => KeyRequest::Misused(KeyMisuse::UnknownOption { word }),
            (_, None) => KeyRequest::Misused(KeyMisuse::UnknownOption { word: second }),
        },
        [_, _, word, ..] => KeyRequest::Misused(KeyMisuse::OneWordMore { word }),
    }
}

/// What words that name the inputs ask for, where a key was named before them.
fn inputs_if<'w>(key: Option<&'w str>, words: &'w [String]) -> KeyRequest<'w>
    ensures { request_view result ≡ inputs_if (option_copied key.entry)
        (map string_bytes words.now) }
{
    match key {
        Some(key) => inputs_asked(key, words),
        None => KeyRequest::Misused(KeyMisuse::KeyAfterInput),
    }
}

/// What the words after `verify` ask for, of which one is `--key`, once a key may have been named:
/// more options, one by one, and then the inputs.
fn judging<'w>(key: Option<&'w str>, words: &'w [String]) -> KeyRequest<'w>
    ensures { request_view result ≡ judging (option_copied key.entry) (map string_bytes words.now) }
{
    match words {
        [] => KeyRequest::Misused(KeyMisuse::NoStatement),
        [word, rest @ ..] => match word.as_str() {
            // Nothing is reported of stages where a key is given.
            "--quiet" => judging(key, rest),
            "--at-least" => KeyRequest::Misused(KeyMisuse::WithFloor),
            "--key" => match (key, rest) {
                (Some(_), _) => KeyRequest::Misused(KeyMisuse::KeyTwice),
                (None, []) => KeyRequest::Misused(KeyMisuse::NoKey),
                (None, [path, rest @ ..]) => match path_of(path.as_str()) {
                    Some(path) => judging(Some(path), rest),
                    None => KeyRequest::Misused(KeyMisuse::NoKey),
                },
            },
            _ => inputs_if(key, words),
        },
    }
}

/// Whether one of the words is `--key`.
fn is_key_named(words: &[String]) -> bool
    ensures { result ≡ is_key_named (map string_bytes words.now) }
{
    match words {
        [] => false,
        [word, rest @ ..] => match word.as_str() {
            "--key" => true,
            _ => is_key_named(rest),
        },
    }
}

/// What the words after the program's name ask for, where they are about keys: `key` and the name
/// of a statement, or `verify` with `--key`, the path of a key, and what names a statement and a
/// proof. None where they are about no key, and `request_of` says what they ask for.
#[tactic(auto, unfolding(crate::specs::KeyWords::key_asked_of))]
pub fn key_request_of<'w>(words: &'w [String]) -> Option<KeyRequest<'w>>
    ensures { option_map request_view result ≡ key_asked_of (map string_bytes words.now) }
{
    match words {
        [] => None,
        [verb, rest @ ..] => match verb.as_str() {
            "key" => Some(making(rest)),
            "verify" => {
                if is_key_named(rest) {
                    Some(judging(None, rest))
                } else {
                    None
                }
            }
            _ => None,
        },
    }
}
