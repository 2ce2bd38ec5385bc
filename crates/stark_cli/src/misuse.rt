//! What is wrong with words that ask for nothing.

ghost use Rattle.std.specs.Prelude.{map, string_bytes};
ghost use Rattle.stark_cli.specs.Misuses.{IsMisuseOf, IsOfVerb};

use crate::arguments::{Options, bits_of, path_of, verb_of};
use crate::statements::Verb;
use std::fmt;

/// What is wrong with words, of which the first fault is named.
#[derive(Clone, Copy, Debug)]
pub enum Misuse<'w> {
    /// There are none.
    NoVerb,
    /// The first is no verb.
    UnknownVerb { word: &'w str },
    /// A word begins as an option does, and is none.
    UnknownOption { word: &'w str },
    /// An option stands after an input.
    OptionAfterInput { word: &'w str },
    /// An option is there twice.
    OptionTwice { word: &'w str },
    /// The verb doesn't take this option.
    OptionOfAnotherVerb { verb: &'w str, word: &'w str },
    /// No path stands after `--output`.
    NoPath,
    /// No number of bits stands after `--at-least`.
    NoBits,
    /// No statement is named.
    NoStatement { verb: &'w str },
    /// There is a word more than the verb takes.
    OneWordMore { word: &'w str },
    /// Both inputs would be standard input.
    StandardInputTwice,
}

impl fmt::Display for Misuse<'_> {
    fn fmt<W: fmt::Write>(&self, f: &mut fmt::Formatter<W>) -> fmt::Result {
        match self {
            Misuse::NoVerb => f.write_str("a verb is missing"),
            Misuse::UnknownVerb { word: "" } => f.write_str("the first word is empty"),
            Misuse::UnknownVerb { word } => write!(f, "unknown verb {word}"),
            Misuse::UnknownOption { word } => write!(f, "unknown option {word}"),
            Misuse::OptionAfterInput { word } => write!(f, "{word} stands after an input"),
            Misuse::OptionTwice { word } => write!(f, "{word} is there twice"),
            Misuse::OptionOfAnotherVerb { verb, word } => write!(f, "{verb} takes no {word}"),
            Misuse::NoPath => f.write_str("no path stands after --output"),
            Misuse::NoBits => f.write_str("no number of bits stands after --at-least"),
            Misuse::NoStatement { verb } => write!(f, "{verb} wants a statement"),
            Misuse::OneWordMore { word } => write!(f, "one word more than wanted: {word}"),
            Misuse::StandardInputTwice => f.write_str("both inputs would be standard input"),
        }
    }
}

/// Whether a word is an option of a verb.
fn is_option(word: &str) -> bool {
    matches!(
        word,
        "--quiet" | "--at-least" | "--unchecked" | "--binary" | "--output"
    )
}

/// Whether a verb takes an option.
fn takes(verb: &str, word: &str) -> bool {
    match verb {
        "verify" => word == "--quiet" || word == "--at-least",
        "prove" => word != "--at-least",
        "check" => word == "--quiet",
        _ => false,
    }
}

/// Why a verb doesn't take an option once more.
fn not_taken<'w>(verb: &'w str, word: &'w str) -> Misuse<'w>
    ensures { IsOfVerb result }
{
    if takes(verb, word) {
        Misuse::OptionTwice { word }
    } else {
        Misuse::OptionOfAnotherVerb { verb, word }
    }
}

/// What is wrong with words that don't name a verb's inputs.
fn misuse_of_inputs(verb: Verb, words: &[String]) -> Misuse<'_>
    ensures { IsOfVerb result }
{
    for word in words {
        if is_option(word) {
            return Misuse::OptionAfterInput { word };
        }
        if word.starts_with("--") {
            return Misuse::UnknownOption { word };
        }
    }
    match (verb, words) {
        (Verb::Show, [_, word, ..]) | (_, [_, _, word, ..]) => Misuse::OneWordMore { word },
        _ => Misuse::StandardInputTwice,
    }
}

/// What is wrong with the word after `--output`, which isn't taken.
fn misuse_of_output<'w>(verb: &'w str, word: &'w str, path: &str) -> Misuse<'w>
    ensures { IsOfVerb result }
{
    match path_of(path) {
        Some(_) => not_taken(verb, word),
        None if verb == "prove" => Misuse::NoPath,
        None => not_taken(verb, word),
    }
}

/// What is wrong with the word after `--at-least`, which isn't taken.
fn misuse_of_floor<'w>(verb: &'w str, word: &'w str, bits: &str) -> Misuse<'w>
    ensures { IsOfVerb result }
{
    if takes(verb, word) && bits_of(bits).is_none() {
        Misuse::NoBits
    } else {
        not_taken(verb, word)
    }
}

/// What is wrong with the words after a verb and options of it.
fn misuse_of_verb<'w>(name: &'w str, options: Options<'w>, words: &'w [String]) -> Misuse<'w>
    ensures { IsOfVerb result }
{
    let [word, rest @ ..] = words else {
        return Misuse::NoStatement { verb: name };
    };
    let word = word.as_str();
    let (taken, rest) = match word {
        "--quiet" => (options.with_quiet(), rest),
        "--at-least" => match rest {
            [] => return misuse_of_floor(name, word, ""),
            [bits, rest @ ..] => match options.with_floor(bits.as_str()) {
                Some(taken) => (Some(taken), rest),
                None => return misuse_of_floor(name, word, bits.as_str()),
            },
        },
        "--unchecked" => (options.with_unchecked(), rest),
        "--binary" => (options.with_binary(), rest),
        "--output" => match rest {
            [] => return Misuse::NoPath,
            [path, rest @ ..] => match options.with_output(path.as_str()) {
                Some(taken) => (Some(taken), rest),
                None => return misuse_of_output(name, word, path.as_str()),
            },
        },
        _ => return misuse_of_inputs(options.verb, words),
    };
    match taken {
        Some(options) => misuse_of_verb(name, options, rest),
        None => not_taken(name, word),
    }
}

/// What is wrong with the words after the program's name, where they ask for nothing: the first
/// fault. They are those of which `request_of` says `Unknown`; of others it is no answer.
pub fn misuse_of<'w>(words: &'w [String]) -> Misuse<'w>
    ensures { IsMisuseOf (map string_bytes words.now) result }
{
    let [verb, rest @ ..] = words else {
        return Misuse::NoVerb;
    };
    let name = verb.as_str();
    match verb_of(name) {
        None => Misuse::UnknownVerb { word: name },
        Some(verb) => misuse_of_verb(name, Options::none(verb), rest),
    }
}
