//! Lists: of names, and of elements.
ghost use Rattle.std.specs.Prelude.{◌≡◌, ◌∷◌, [], map, option_map};
ghost use Rattle.stark_language.specs.Faults.{Gives};
ghost use Rattle.stark_language.specs.Tokens.{lexeme_view, token_view};
ghost use Rattle.stark_language.specs.Expressions.{name_view};
ghost use Rattle.stark_language.specs.Lists.{begins_element, element_at, item_after, item_at, items_at, list_at, names_at, next_item, next_name, sized_at};

use crate::cursor::{expect, fault, first_of, is_symbol, is_word, name_at, passed, rest_of};
use crate::fault::{FaultKind, LanguageError};
use crate::token::{Lexeme, Symbol, Token};
use crate::tree::{Element, Item, Name};
use std::alloc::Global;

/// The whole number that is the first token, as an element.
#[tactic(auto, unfolding(crate::specs::Lists::sized_at))]
fn sized_at<'a>(
    tokens: &'a [Lexeme<'a>],
    is_negative: bool,
) -> Result<(Element, &'a [Lexeme<'a>]), LanguageError>
    ensures { Gives (λ read. (read.0, map lexeme_view read.1.now)) result
        (sized_at is_negative (map lexeme_view tokens.now)) }
{
    let Lexeme { token, at } = first_of(tokens);
    match token {
        Token::Number(size) => {
            let element = Element {
                size,
                is_negative,
                at,
            };
            Ok((element, rest_of(tokens)))
        }
        _ => Err(fault(FaultKind::NumberExpected, at)),
    }
}

/// The element at the front of these tokens, and the tokens after it.
#[tactic(auto, unfolding(crate::specs::Lists::element_at))]
pub(crate) fn element_at<'a>(
    tokens: &'a [Lexeme<'a>],
) -> Result<(Element, &'a [Lexeme<'a>]), LanguageError>
    ensures { Gives (λ read. (read.0, map lexeme_view read.1.now)) result
        (element_at (map lexeme_view tokens.now)) }
{
    match passed(tokens, Symbol::Minus) {
        Some(rest) => sized_at(rest, true),
        None => sized_at(tokens, false),
    }
}

/// The item that begins with a whole number, after this number.
#[tactic(auto, unfolding(crate::specs::Lists::item_after))]
fn item_after<'a>(
    first: Element,
    tokens: &'a [Lexeme<'a>],
) -> Result<(Item, &'a [Lexeme<'a>]), LanguageError>
    ensures { Gives (λ read. (read.0, map lexeme_view read.1.now)) result
        (item_after first (map lexeme_view tokens.now)) }
{
    if let Some(rest) = passed(tokens, Symbol::To) {
        let (last, rest) = sized_at(rest, false)?;
        let item = Item::Range {
            first: first.size,
            last: last.size,
            at: first.at,
        };
        return Ok((item, rest));
    }
    if is_word(first_of(tokens).token, "x") {
        let (element, rest) = element_at(rest_of(tokens))?;
        let item = Item::Repeat {
            count: first.size,
            element,
        };
        return Ok((item, rest));
    }
    Ok((Item::Single(first), tokens))
}

/// The item at the front of these tokens, and the tokens after it.
#[tactic(auto, unfolding(crate::specs::Lists::item_at))]
fn item_at<'a>(tokens: &'a [Lexeme<'a>]) -> Result<(Item, &'a [Lexeme<'a>]), LanguageError>
    ensures { Gives (λ read. (read.0, map lexeme_view read.1.now)) result
        (item_at (map lexeme_view tokens.now)) }
{
    let (first, rest) = element_at(tokens)?;
    if first.is_negative {
        Ok((Item::Single(first), rest))
    } else {
        item_after(first, rest)
    }
}

/// Whether an element begins with a token.
fn begins_element(token: Token<'_>) -> bool
    ensures { result ≡ begins_element (token_view token.entry) }
{
    is_symbol(token, Symbol::Minus) || matches!(token, Token::Number(_))
}

/// The next item of a list, if one is next.
#[tactic(auto, unfolding(crate::specs::Lists::next_item))]
fn next_item<'a>(
    tokens: &'a [Lexeme<'a>],
) -> Result<Option<(Item, &'a [Lexeme<'a>])>, LanguageError>
    ensures { Gives (λ next. option_map (λ read. (read.0 ∷ [], map lexeme_view read.1.now)) next)
        result (next_item (map lexeme_view tokens.now)) }
{
    if begins_element(first_of(tokens).token) {
        let (item, rest) = item_at(tokens)?;
        Ok(Some((item, rest)))
    } else {
        Ok(None)
    }
}

/// The name after a comma, if a comma is next.
#[tactic(auto, unfolding(crate::specs::Lists::next_name))]
fn next_name<'a>(
    tokens: &'a [Lexeme<'a>],
) -> Result<Option<(Name<'a>, &'a [Lexeme<'a>])>, LanguageError>
    ensures { Gives (λ next. option_map (λ read.
        (name_view read.0 ∷ [], map lexeme_view read.1.now)) next)
        result (next_name (map lexeme_view tokens.now)) }
{
    match passed(tokens, Symbol::Comma) {
        Some(rest) => {
            let (name, rest) = name_at(rest)?;
            Ok(Some((name, rest)))
        }
        None => Ok(None),
    }
}

/// Names with commas between, and the tokens after them.
pub(crate) fn names_at<'a>(
    alloc: Global,
    tokens: &'a [Lexeme<'a>],
) -> Result<(Vec<Name<'a>>, &'a [Lexeme<'a>]), LanguageError>
    ensures { Gives (λ read. (map name_view read.0.items, map lexeme_view read.1.now)) result
        (names_at (map lexeme_view tokens.now)) }
{
    let (first, mut rest) = name_at(tokens)?;
    let mut names = Vec::new(alloc);
    names.push(first)?;
    let most = rest.len();
    for _step in 0..most {
        let Some((name, after)) = next_name(rest)? else {
            return Ok((names, rest));
        };
        names.push(name)?;
        rest = after;
    }
    Ok((names, rest))
}

/// Items, one at least, and the tokens after them.
fn items_at<'a>(
    alloc: Global,
    tokens: &'a [Lexeme<'a>],
) -> Result<(Vec<Item>, &'a [Lexeme<'a>]), LanguageError>
    ensures { Gives (λ read. (read.0.items, map lexeme_view read.1.now)) result
        (items_at (map lexeme_view tokens.now)) }
{
    let (first, mut rest) = item_at(tokens)?;
    let mut items = Vec::new(alloc);
    items.push(first)?;
    let most = rest.len();
    for _step in 0..most {
        let Some((item, after)) = next_item(rest)? else {
            return Ok((items, rest));
        };
        items.push(item)?;
        rest = after;
    }
    Ok((items, rest))
}

/// A list of elements, in brackets or bare, and the tokens after it.
#[tactic(auto, unfolding(crate::specs::Lists::list_at))]
pub(crate) fn list_at<'a>(
    alloc: Global,
    tokens: &'a [Lexeme<'a>],
) -> Result<(Vec<Item>, &'a [Lexeme<'a>]), LanguageError>
    ensures { Gives (λ read. (read.0.items, map lexeme_view read.1.now)) result
        (list_at (map lexeme_view tokens.now)) }
{
    match passed(tokens, Symbol::OpenBracket) {
        Some(rest) => {
            let (items, rest) = items_at(alloc, rest)?;
            let rest = expect(rest, Symbol::CloseBracket, FaultKind::ListEndExpected)?;
            Ok((items, rest))
        }
        None => items_at(alloc, tokens),
    }
}
