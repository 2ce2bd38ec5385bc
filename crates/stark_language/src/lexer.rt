//! From bytes to tokens.
ghost use Rattle.std.specs.Prelude.{◌≡◌, ◌+◌, ◌<◌, ◌≤◌, ◌^◌, ◌++◌, IfOk, Ok, OnOk, length, map, option_map, slice_index, take};
ghost use Rattle.std.specs.List.{prefix_len};
ghost use Rattle.stark_language.specs.Faults.{Gives, IsReading};
ghost use Rattle.stark_language.specs.Tokens.{belongs, depth_after, end, ended, front_of, front_view, goes_on, is_blank, is_dropped, is_end, lexeme_at, lexeme_view, lexemes_from, name_front, number_front, symbol_front, symbol_of, token_view, tokens_in, whole_of};

use crate::fault::{Fault, FaultKind, LanguageError};
use crate::token::{Lexeme, Symbol, Token};
use std::alloc::{AllocError, Global};

/// A class of bytes, of which runs are passed at once.
#[derive(Clone, Copy, Debug)]
pub(crate) enum Class {
    NamePart,
    Digit,
    Comment,
}

impl Class {
    /// Whether a byte is of this class.
    fn contains(self, byte: u8) -> bool
        ensures { result ≡ belongs self byte }
    {
        match self {
            Class::NamePart => byte.is_ascii_alphanumeric() || byte == b'_',
            Class::Digit => byte.is_ascii_digit(),
            Class::Comment => byte != b'\n',
        }
    }

    /// How many bytes at the front of a text are of this class.
    fn run_length(self, text: &[u8]) -> usize
        ensures exact { result ≡ prefix_len (belongs self) text.now }
        ensures within { result ≤ length text.now }
    {
        for (at, byte) in text.iter().enumerate() {
            if !self.contains(*byte) {
                return at;
            }
        }
        text.len()
    }
}

/// What stands at the front of a text: a token, or none, and how many bytes it has.
#[derive(Clone, Copy, Debug)]
pub(crate) struct Front<'a> {
    token: Option<Token<'a>>,
    length: usize,
}

/// Whether a byte separates tokens and has no other meaning.
fn is_blank(byte: u8) -> bool
    ensures { result ≡ is_blank byte }
{
    byte == b' ' || byte == b'\t' || byte == b'\r'
}

/// The sign that is a byte of its own.
fn symbol_of(byte: u8) -> Option<Symbol>
    ensures { result ≡ symbol_of byte }
{
    match byte {
        b',' => Some(Symbol::Comma),
        b':' => Some(Symbol::Colon),
        b'=' => Some(Symbol::Equals),
        b'+' => Some(Symbol::Plus),
        b'-' => Some(Symbol::Minus),
        b'*' => Some(Symbol::Times),
        b'^' => Some(Symbol::Power),
        b'(' => Some(Symbol::OpenParenthesis),
        b')' => Some(Symbol::CloseParenthesis),
        b'[' => Some(Symbol::OpenBracket),
        b']' => Some(Symbol::CloseBracket),
        _ => None,
    }
}

/// The number that decimal digits write, if 64 bits hold it.
fn whole_of(digits: &[u8]) -> Option<u64>
    ensures { result ≡ whole_of digits.now }
{
    let mut value: u64 = 0;
    for digit in digits {
        let wide = 10 * u128::from(value) + u128::from(digit.saturating_sub(b'0'));
        let Ok(next) = u64::try_from(wide) else {
            return None;
        };
        value = next;
    }
    Some(value)
}

/// The name of as many bytes at the front of a text, with the prime that may follow it.
fn name_front(text: &[u8], count: usize) -> Front<'_>
    requires { count ≤ length text.now }
    ensures { name_front count text.now ≡ Ok (front_view result) }
{
    let (name, rest) = text.split_at(count);
    if rest.first() == Some(&b'\'') {
        Front {
            token: Some(Token::Next(name)),
            length: count + 1,
        }
    } else {
        Front {
            token: Some(Token::Name(name)),
            length: count,
        }
    }
}

/// The number that as many digits at the front of a text write.
fn number_front(text: &[u8], count: usize) -> Result<Front<'_>, FaultKind>
    requires { count ≤ length text.now }
    ensures exact { IsReading front_view result
        (number_front count (whole_of (take count text.now))) }
    ensures length { IfOk result (λ front. front.length ≡ count) }
{
    match whole_of(&text[..count]) {
        Some(whole) => Ok(Front {
            token: Some(Token::Number(whole)),
            length: count,
        }),
        None => Err(FaultKind::NumberTooLarge),
    }
}

/// The sign at the front of a text.
fn symbol_front(text: &[u8]) -> Result<Front<'_>, FaultKind>
    requires { 0 < length text.now }
    ensures exact { IsReading front_view result (symbol_front (slice_index text.now 0)
        (slice_index text.now 1) (symbol_of (slice_index text.now 0))) }
    ensures some { IfOk result (λ front. 0 < front.length) }
    ensures within { IfOk result (λ front. front.length ≤ length text.now) }
{
    let first = text[0];
    if let Some(symbol) = symbol_of(first) {
        return Ok(Front {
            token: Some(Token::Symbol(symbol)),
            length: 1,
        });
    }
    if text.starts_with(b"..") {
        return Ok(Front {
            token: Some(Token::Symbol(Symbol::To)),
            length: 2,
        });
    }
    if first == b'\'' {
        Err(FaultKind::PrimeWithoutName)
    } else {
        Err(FaultKind::UnknownCharacter)
    }
}

#[tactic(auto, unfolding(crate::specs::Tokens::front_of))]
/// What stands at the front of a text that isn't empty, or what is wrong there.
fn front_of(text: &[u8]) -> Result<Front<'_>, FaultKind>
    requires { 0 < length text.now }
    ensures exact { IsReading front_view result (front_of text.now) }
    ensures some { IfOk result (λ front. 0 < front.length) }
    ensures within { IfOk result (λ front. front.length ≤ length text.now) }
{
    let first = text[0];
    if is_blank(first) {
        Ok(Front {
            token: None,
            length: 1,
        })
    } else if first == b'\n' {
        Ok(Front {
            token: Some(Token::End),
            length: 1,
        })
    } else if first == b'#' {
        Ok(Front {
            token: None,
            length: Class::Comment.run_length(text),
        })
    } else if first.is_ascii_alphabetic() || first == b'_' {
        Ok(name_front(text, Class::NamePart.run_length(text)))
    } else if first.is_ascii_digit() {
        number_front(text, Class::Digit.run_length(text))
    } else {
        symbol_front(text)
    }
}

/// A token that there may be goes behind the others, with its place.
fn push_token<'a>(
    lexemes: &mut Vec<Lexeme<'a>>,
    token: Option<Token<'a>>,
    at: usize,
) -> Result<(), AllocError>
    ensures { OnOk result (map lexeme_view lexemes.new.items
        ≡ map lexeme_view lexemes.old.items ++ lexeme_at at (option_map token_view token.entry)) }
{
    if let Some(token) = token {
        lexemes.push(Lexeme { token, at })?;
    }
    Ok(())
}

/// The lexemes of a text, of which each end of a line is one.
fn lexemes_of(alloc: Global, text: &[u8]) -> Result<Vec<Lexeme<'_>>, LanguageError>
    ensures { Gives (λ v. map lexeme_view v.items) result (lexemes_from 0 0 text.now) }
{
    let mut lexemes = Vec::new(alloc);
    let mut at = 0;
    while at < text.len() {
        let front = match front_of(&text[at..]) {
            Ok(front) => front,
            Err(kind) => return Err(LanguageError::Fault(Fault { kind, at })),
        };
        push_token(&mut lexemes, front.token, at)?;
        at += front.length;
    }
    push_token(&mut lexemes, Some(Token::End), at)?;
    Ok(lexemes)
}

impl Token<'_> {
    /// Whether it is the end of a line.
    fn is_end(self) -> bool
        ensures { result ≡ is_end (token_view self.entry) }
    {
        matches!(self, Token::End)
    }

    /// Whether what follows goes on with what this token has begun.
    fn goes_on(self) -> bool
        ensures { result ≡ goes_on (token_view self.entry) }
    {
        match self {
            Token::Symbol(symbol) => {
                !matches!(symbol, Symbol::CloseParenthesis | Symbol::CloseBracket)
            }
            _ => false,
        }
    }

    /// How many brackets are open after it, where as many were before it.
    fn depth_after(self, depth: usize) -> usize
        requires { depth < 2 ^ 63 }
        ensures exact { result ≡ depth_after depth (token_view self.entry) }
        ensures bound { result ≤ depth + 1 }
    {
        match self {
            Token::Symbol(Symbol::OpenParenthesis | Symbol::OpenBracket) => depth + 1,
            Token::Symbol(Symbol::CloseParenthesis | Symbol::CloseBracket) => {
                depth.saturating_sub(1)
            }
            _ => depth,
        }
    }
}

/// Whether a token is the end of a line that ends nothing, after this token and with as many open
/// brackets.
fn is_dropped(token: Token<'_>, before: Token<'_>, depth: usize, is_last: bool) -> bool
    ensures { result ≡ is_dropped (token_view token.entry) depth (token_view before.entry) is_last }
{
    token.is_end() && (before.is_end() || (!is_last && (depth > 0 || before.goes_on())))
}

/// The lexemes without the ends of lines that end nothing.
fn ended<'a>(alloc: Global, lexemes: &[Lexeme<'a>]) -> Result<Vec<Lexeme<'a>>, LanguageError>
    ensures { Gives (λ v. map lexeme_view v.items) result
        (Ok (ended 0 end (map lexeme_view lexemes.now))) }
{
    let mut kept = Vec::new(alloc);
    let mut depth = 0;
    let mut before = Token::End;
    for (place, lexeme) in lexemes.iter().enumerate() {
        let token = lexeme.token;
        if !is_dropped(token, before, depth, place + 1 == lexemes.len()) {
            kept.push(*lexeme)?;
            depth = token.depth_after(depth);
            before = token;
        }
    }
    Ok(kept)
}

#[tactic(auto, unfolding(crate::specs::Tokens::tokens_in))]
/// The tokens of a text, each with its place; or the first place where none stands. A line's end is
/// a token where something stands on the line, no bracket is open and no sign stands last on it
/// that wants more; the text's end is one where something stands before it.
pub fn tokens_of(alloc: Global, text: &[u8]) -> Result<Vec<Lexeme<'_>>, LanguageError>
    ensures { Gives (λ v. map lexeme_view v.items) result (tokens_in text.now) }
{
    let lexemes = lexemes_of(alloc, text)?;
    ended(alloc, &lexemes)
}
