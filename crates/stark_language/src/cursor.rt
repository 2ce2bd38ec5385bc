//! Single tokens at the front of others.
ghost use Rattle.std.specs.Prelude.{◌≡◌, map, option_map};
ghost use Rattle.stark_language.specs.Faults.{Gives};
ghost use Rattle.stark_language.specs.Tokens.{lexeme_view, token_view};
ghost use Rattle.stark_language.specs.Expressions.{name_view};
ghost use Rattle.stark_language.specs.Cursor.{expect, first_of, is_symbol, is_word, name_at, passed, past_end, rest_of, symbol_number};

use crate::fault::{Fault, FaultKind, LanguageError};
use crate::token::{Lexeme, Symbol, Token};
use crate::tree::Name;

/// That a text has this fault.
pub(crate) fn fault(kind: FaultKind, at: usize) -> LanguageError
    ensures { result ≡ LanguageError.Fault (record { kind = kind; at = at }) }
{
    LanguageError::Fault(Fault { kind, at })
}

/// A number for each sign.
fn symbol_number(symbol: Symbol) -> u8
    ensures { result ≡ symbol_number symbol }
{
    match symbol {
        Symbol::Comma => 0,
        Symbol::Colon => 1,
        Symbol::Equals => 2,
        Symbol::Plus => 3,
        Symbol::Minus => 4,
        Symbol::Times => 5,
        Symbol::Power => 6,
        Symbol::To => 7,
        Symbol::OpenParenthesis => 8,
        Symbol::CloseParenthesis => 9,
        Symbol::OpenBracket => 10,
        Symbol::CloseBracket => 11,
    }
}

/// Whether a token is this sign.
pub(crate) fn is_symbol(token: Token<'_>, wanted: Symbol) -> bool
    ensures { result ≡ is_symbol wanted (token_view token.entry) }
{
    match token {
        Token::Symbol(symbol) => symbol_number(symbol) == symbol_number(wanted),
        _ => false,
    }
}

/// Whether a token is this word.
pub(crate) fn is_word(token: Token<'_>, word: &str) -> bool
    ensures { result ≡ is_word word.now (token_view token.entry) }
{
    match token {
        Token::Name(name) => name == word.as_bytes(),
        _ => false,
    }
}

#[tactic(auto, unfolding(crate::specs::Cursor::first_of))]
/// The first of these tokens; an end where there is none.
pub(crate) fn first_of<'a>(tokens: &'a [Lexeme<'a>]) -> Lexeme<'a>
    ensures { lexeme_view result ≡ first_of (map lexeme_view tokens.now) }
{
    match tokens.first() {
        Some(first) => *first,
        None => Lexeme {
            token: Token::End,
            at: 0,
        },
    }
}

#[tactic(auto, unfolding(crate::specs::Cursor::rest_of))]
/// The tokens after the first.
pub(crate) fn rest_of<'a>(tokens: &'a [Lexeme<'a>]) -> &'a [Lexeme<'a>]
    ensures { map lexeme_view result.now ≡ rest_of (map lexeme_view tokens.now) }
{
    if tokens.is_empty() {
        tokens
    } else {
        &tokens[1..]
    }
}

#[tactic(auto, unfolding(crate::specs::Cursor::passed))]
/// The tokens after this sign, where it is the first.
pub(crate) fn passed<'a>(tokens: &'a [Lexeme<'a>], wanted: Symbol) -> Option<&'a [Lexeme<'a>]>
    ensures { option_map (λ rest. map lexeme_view rest.now) result
        ≡ passed wanted (map lexeme_view tokens.now) }
{
    if is_symbol(first_of(tokens).token, wanted) {
        Some(rest_of(tokens))
    } else {
        None
    }
}

#[tactic(auto, unfolding(crate::specs::Cursor::expect))]
/// The tokens after this sign, which is to be the first.
pub(crate) fn expect<'a>(
    tokens: &'a [Lexeme<'a>],
    wanted: Symbol,
    kind: FaultKind,
) -> Result<&'a [Lexeme<'a>], LanguageError>
    ensures { Gives (λ rest. map lexeme_view rest.now) result
        (expect wanted kind (map lexeme_view tokens.now)) }
{
    match passed(tokens, wanted) {
        Some(rest) => Ok(rest),
        None => Err(fault(kind, first_of(tokens).at)),
    }
}

#[tactic(auto, unfolding(crate::specs::Cursor::past_end))]
/// The tokens after an end, which is to be the first.
pub(crate) fn past_end<'a>(tokens: &'a [Lexeme<'a>]) -> Result<&'a [Lexeme<'a>], LanguageError>
    ensures { Gives (λ rest. map lexeme_view rest.now) result
        (past_end (map lexeme_view tokens.now)) }
{
    let first = first_of(tokens);
    match first.token {
        Token::End => Ok(rest_of(tokens)),
        _ => Err(fault(FaultKind::EndExpected, first.at)),
    }
}

#[tactic(auto, unfolding(crate::specs::Cursor::name_at))]
/// The name that is the first token, and the tokens after it.
pub(crate) fn name_at<'a>(
    tokens: &'a [Lexeme<'a>],
) -> Result<(Name<'a>, &'a [Lexeme<'a>]), LanguageError>
    ensures { Gives (λ read. (name_view read.0, map lexeme_view read.1.now)) result
        (name_at (map lexeme_view tokens.now)) }
{
    let Lexeme { token, at } = first_of(tokens);
    match token {
        Token::Name(text) => Ok((Name { text, at }, rest_of(tokens))),
        _ => Err(fault(FaultKind::NameExpected, at)),
    }
}
