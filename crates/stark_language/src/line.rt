//! The lines of a text.
ghost use Rattle.std.specs.Prelude.{◌≡◌, ◌∷◌, [], map, option_map};
ghost use Rattle.stark_language.specs.Faults.{Gives};
ghost use Rattle.stark_language.specs.Tokens.{lexeme_view};
ghost use Rattle.stark_language.specs.Expressions.{name_view, step_view};
ghost use Rattle.stark_language.specs.Lines.{assigned_at, condition_at, conditions_at, constraint_at, line_at, line_view, lines_at, lines_in, member_at, next_condition, next_line, word_line};

use crate::cursor::{expect, fault, first_of, is_word, name_at, passed, past_end, rest_of};
use crate::expression::expression_at;
use crate::fault::{FaultKind, LanguageError};
use crate::list::{element_at, list_at, names_at};
use crate::token::{Lexeme, Symbol, Token};
use crate::tree::{Line, Member, MemberValue, Name, Step};
use crate::word::{Word, word_of};
use std::alloc::Global;

/// The expression after a comma and the product with it, if a comma is next.
#[tactic(auto, unfolding(crate::specs::Lines::next_condition))]
fn next_condition<'a>(
    alloc: Global,
    tokens: &'a [Lexeme<'a>],
) -> Result<Option<(Vec<Step<'a>>, &'a [Lexeme<'a>])>, LanguageError>
    ensures { Gives (λ next. option_map (λ r. (map step_view r.0.items, map lexeme_view r.1.now))
        next) result (next_condition (map lexeme_view tokens.now)) }
{
    match passed(tokens, Symbol::Comma) {
        Some(rest) => {
            let (mut steps, rest) = expression_at(alloc, rest)?;
            steps.push(Step::Multiply)?;
            Ok(Some((steps, rest)))
        }
        None => Ok(None),
    }
}

/// The product of expressions with commas between, and the tokens after them.
fn conditions_at<'a>(
    alloc: Global,
    tokens: &'a [Lexeme<'a>],
) -> Result<(Vec<Step<'a>>, &'a [Lexeme<'a>]), LanguageError>
    ensures { Gives (λ read. (map step_view read.0.items, map lexeme_view read.1.now)) result
        (conditions_at (map lexeme_view tokens.now)) }
{
    let (mut condition, mut rest) = expression_at(alloc, tokens)?;
    let most = rest.len();
    for _step in 0..most {
        let Some((steps, after)) = next_condition(alloc, rest)? else {
            return Ok((condition, rest));
        };
        condition.extend_from_slice(&steps)?;
        rest = after;
    }
    Ok((condition, rest))
}

/// The condition of a constraint, no steps where it has none, and the tokens after its colon.
#[tactic(auto, unfolding(crate::specs::Lines::condition_at))]
fn condition_at<'a>(
    alloc: Global,
    tokens: &'a [Lexeme<'a>],
) -> Result<(Vec<Step<'a>>, &'a [Lexeme<'a>]), LanguageError>
    ensures { Gives (λ read. (map step_view read.0.items, map lexeme_view read.1.now)) result
        (condition_at (map lexeme_view tokens.now)) }
{
    if is_word(first_of(tokens).token, "when") {
        let (condition, rest) = conditions_at(alloc, rest_of(tokens))?;
        let rest = expect(rest, Symbol::Colon, FaultKind::ColonExpected)?;
        Ok((condition, rest))
    } else {
        Ok((Vec::new(alloc), tokens))
    }
}

/// The constraint of this name, after the colon.
#[tactic(auto, unfolding(crate::specs::Lines::constraint_at))]
fn constraint_at<'a>(
    alloc: Global,
    name: Name<'a>,
    tokens: &'a [Lexeme<'a>],
) -> Result<(Line<'a>, &'a [Lexeme<'a>]), LanguageError>
    ensures { Gives (λ read. (line_view read.0, map lexeme_view read.1.now)) result
        (constraint_at (name_view name.entry) (map lexeme_view tokens.now)) }
{
    let (condition, rest) = condition_at(alloc, tokens)?;
    let (left, rest) = expression_at(alloc, rest)?;
    let rest = expect(rest, Symbol::Equals, FaultKind::EqualsExpected)?;
    let (right, rest) = expression_at(alloc, rest)?;
    let line = Line::Constraint {
        name,
        condition,
        left,
        right,
    };
    Ok((line, rest))
}

/// A name and the equals sign after it, and the tokens after them.
#[tactic(auto, unfolding(crate::specs::Lines::assigned_at))]
fn assigned_at<'a>(tokens: &'a [Lexeme<'a>]) -> Result<(Name<'a>, &'a [Lexeme<'a>]), LanguageError>
    ensures { Gives (λ read. (name_view read.0, map lexeme_view read.1.now)) result
        (assigned_at (map lexeme_view tokens.now)) }
{
    let (name, rest) = name_at(tokens)?;
    let rest = expect(rest, Symbol::Equals, FaultKind::EqualsExpected)?;
    Ok((name, rest))
}

/// The value of a member, whose name stands at this place.
#[tactic(auto, unfolding(crate::specs::Lines::member_at))]
fn member_at<'a>(
    member: Member,
    place: usize,
    tokens: &'a [Lexeme<'a>],
) -> Result<(Line<'a>, &'a [Lexeme<'a>]), LanguageError>
    ensures { Gives (λ read. (line_view read.0, map lexeme_view read.1.now)) result
        (member_at member place (map lexeme_view tokens.now)) }
{
    let Lexeme { token, at } = first_of(tokens);
    let value = match token {
        Token::Name(text) => MemberValue::Word(Name { text, at }),
        Token::Number(value) => MemberValue::Number { value, at },
        _ => return Err(fault(FaultKind::ValueExpected, at)),
    };
    let line = Line::Member {
        member,
        at: place,
        value,
    };
    Ok((line, rest_of(tokens)))
}

/// The line that begins with a word at this place, after the word.
#[tactic(auto, unfolding(crate::specs::Lines::word_line))]
fn word_line<'a>(
    alloc: Global,
    word: Word,
    place: usize,
    tokens: &'a [Lexeme<'a>],
) -> Result<(Line<'a>, &'a [Lexeme<'a>]), LanguageError>
    ensures { Gives (λ read. (line_view read.0, map lexeme_view read.1.now)) result
        (word_line word place (map lexeme_view tokens.now)) }
{
    match word {
        Word::Columns => {
            let (names, rest) = names_at(alloc, tokens)?;
            Ok((Line::Columns(names), rest))
        }
        Word::Public => {
            let (name, rest) = assigned_at(tokens)?;
            let (value, rest) = element_at(rest)?;
            Ok((Line::Public { name, value }, rest))
        }
        Word::Periodic => {
            let (name, rest) = assigned_at(tokens)?;
            let (values, rest) = list_at(alloc, rest)?;
            Ok((Line::Periodic { name, values }, rest))
        }
        Word::Fixed => {
            let (name, rest) = assigned_at(tokens)?;
            let (values, rest) = list_at(alloc, rest)?;
            Ok((Line::Fixed { name, values }, rest))
        }
        Word::Let => {
            let (name, rest) = assigned_at(tokens)?;
            let (value, rest) = expression_at(alloc, rest)?;
            Ok((Line::Let { name, value }, rest))
        }
        Word::Member(member) => member_at(member, place, tokens),
    }
}

/// The line at the front of these tokens, and the tokens after it.
#[tactic(auto, unfolding(crate::specs::Lines::line_at))]
fn line_at<'a>(
    alloc: Global,
    tokens: &'a [Lexeme<'a>],
) -> Result<(Line<'a>, &'a [Lexeme<'a>]), LanguageError>
    ensures { Gives (λ read. (line_view read.0, map lexeme_view read.1.now)) result
        (line_at (map lexeme_view tokens.now)) }
{
    let (name, rest) = name_at(tokens)?;
    if let Some(rest) = passed(rest, Symbol::Colon) {
        return constraint_at(alloc, name, rest);
    }
    match word_of(name.text) {
        Some(word) => word_line(alloc, word, name.at, rest),
        None => Err(fault(FaultKind::UnknownWord, name.at)),
    }
}

/// The next line and its end, if a token is left.
#[tactic(auto, unfolding(crate::specs::Lines::next_line))]
fn next_line<'a>(
    alloc: Global,
    tokens: &'a [Lexeme<'a>],
) -> Result<Option<(Line<'a>, &'a [Lexeme<'a>])>, LanguageError>
    ensures { Gives (λ next. option_map (λ read.
        (line_view read.0 ∷ [], map lexeme_view read.1.now)) next)
        result (next_line (map lexeme_view tokens.now)) }
{
    if tokens.is_empty() {
        return Ok(None);
    }
    let (line, rest) = line_at(alloc, tokens)?;
    let rest = past_end(rest)?;
    Ok(Some((line, rest)))
}

/// The lines at the front of these tokens, and the tokens after them.
fn lines_at<'a>(
    alloc: Global,
    tokens: &'a [Lexeme<'a>],
) -> Result<(Vec<Line<'a>>, &'a [Lexeme<'a>]), LanguageError>
    ensures { Gives (λ read. (map line_view read.0.items, map lexeme_view read.1.now)) result
        (lines_at (map lexeme_view tokens.now)) }
{
    let mut lines = Vec::new(alloc);
    let (_none, mut rest) = tokens.split_at(0);
    let most = tokens.len();
    for _step in 0..most {
        let Some((line, after)) = next_line(alloc, rest)? else {
            return Ok((lines, rest));
        };
        lines.push(line)?;
        rest = after;
    }
    Ok((lines, rest))
}

/// The lines of a text whose tokens these are, or the first fault.
#[tactic(auto, unfolding(crate::specs::Lines::lines_in))]
pub fn lines_of<'a>(alloc: Global, tokens: &'a [Lexeme<'a>]) -> Result<Vec<Line<'a>>, LanguageError>
    ensures { Gives (λ lines. map line_view lines.items) result
        (lines_in (map lexeme_view tokens.now)) }
{
    let (lines, rest) = lines_at(alloc, tokens)?;
    if rest.is_empty() {
        Ok(lines)
    } else {
        Err(fault(FaultKind::EndExpected, first_of(rest).at))
    }
}
