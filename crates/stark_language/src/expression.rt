//! Expressions, from their tokens to their steps.
ghost use Rattle.std.specs.Prelude.{◌≡◌, ◌++◌, [], OnOk, map, option_map};
ghost use Rattle.stark_language.specs.Faults.{Gives};
ghost use Rattle.stark_language.specs.Tokens.{lexeme_view};
ghost use Rattle.stark_language.specs.Expressions.{TurnsBy, after_product, after_sum, closed, expression_at, exponent_turn, leaf_of, operand_turn, operator_turn, push_if, step_view, turn};

use crate::cursor::fault;
use crate::fault::{FaultKind, LanguageError};
use crate::token::{Lexeme, Symbol, Token};
use crate::tree::{Name, Step};
use std::alloc::{AllocError, Global};

/// Whether an operand is added or subtracted.
#[derive(Clone, Copy)]
pub(crate) enum Sign {
    Plus,
    Minus,
}

/// The operations that wait for the operand that is read: it is negated, then multiplied with the
/// product before it, then added to the sum before it or subtracted from it.
#[derive(Clone, Copy)]
pub(crate) struct Pending {
    sum: Option<Sign>,
    product: bool,
    negated: bool,
}

/// Of an expression that begins no operation waits.
const NO_PENDING: Pending = Pending {
    sum: None,
    product: false,
    negated: false,
};

/// What is read next.
#[derive(Clone, Copy)]
pub(crate) enum Mode {
    /// An operand.
    Operand,
    /// What follows an operand that a power may follow.
    Atom,
    /// The exponent of a power.
    Exponent,
    /// What follows an operand that no power may follow.
    Factor,
}

/// How far the reading of an expression has come within the innermost brackets.
#[derive(Clone, Copy)]
pub(crate) struct State {
    mode: Mode,
    pending: Pending,
}

/// A step goes behind the others, where it is to be taken.
fn push_if<'a>(steps: &mut Vec<Step<'a>>, wanted: bool, step: Step<'a>) -> Result<(), AllocError>
    ensures { OnOk result (map step_view steps.new.items
        ≡ map step_view steps.old.items ++ push_if wanted (step_view step.entry)) }
{
    if wanted {
        steps.push(step)?;
    }
    Ok(())
}

/// The operations that wait for a product that is whole.
fn push_product<'a>(steps: &mut Vec<Step<'a>>, pending: Pending) -> Result<(), AllocError>
    ensures { OnOk result (map step_view steps.new.items
        ≡ map step_view steps.old.items ++ after_product pending) }
{
    push_if(steps, pending.negated, Step::Negate)?;
    push_if(steps, pending.product, Step::Multiply)
}

/// The operations that wait for a sum that is whole.
fn push_sum<'a>(steps: &mut Vec<Step<'a>>, pending: Pending) -> Result<(), AllocError>
    ensures { OnOk result (map step_view steps.new.items
        ≡ map step_view steps.old.items ++ after_sum pending) }
{
    push_product(steps, pending)?;
    match pending.sum {
        Some(Sign::Plus) => push_if(steps, true, Step::Add),
        Some(Sign::Minus) => push_if(steps, true, Step::Subtract),
        None => Ok(()),
    }
}

/// The step that a token is by itself, where it is an operand.
fn leaf_of(lexeme: Lexeme<'_>) -> Option<Step<'_>>
    ensures { option_map step_view result ≡ leaf_of (lexeme_view lexeme.entry) }
{
    let at = lexeme.at;
    match lexeme.token {
        Token::Number(value) => Some(Step::Number { value, at }),
        Token::Name(text) => Some(Step::Name(Name { text, at })),
        Token::Next(text) => Some(Step::Next(Name { text, at })),
        _ => None,
    }
}

#[tactic(auto, unfolding(crate::specs::Expressions::operand_turn))]
/// An operand begins: it is a token, or a minus or an opening bracket stands before it.
fn operand_turn<'a>(
    pending: Pending,
    lexeme: Lexeme<'a>,
    outer: &mut Vec<Pending>,
    steps: &mut Vec<Step<'a>>,
) -> Result<Option<State>, LanguageError>
    ensures { TurnsBy (λ waits. operand_turn pending waits (lexeme_view lexeme.entry))
        outer.old.items steps.old.items outer.new.items steps.new.items result }
{
    if let Some(step) = leaf_of(lexeme) {
        push_if(steps, true, step)?;
        let mode = Mode::Atom;
        return Ok(Some(State { mode, pending }));
    }
    let mode = Mode::Operand;
    match lexeme.token {
        Token::Symbol(Symbol::Minus) if !pending.negated => {
            let pending = Pending {
                negated: true,
                ..pending
            };
            Ok(Some(State { mode, pending }))
        }
        Token::Symbol(Symbol::OpenParenthesis) => {
            outer.push(pending)?;
            let pending = NO_PENDING;
            Ok(Some(State { mode, pending }))
        }
        _ => Err(fault(FaultKind::OperandExpected, lexeme.at)),
    }
}

#[tactic(auto, unfolding(crate::specs::Expressions::exponent_turn))]
/// The exponent of a power.
fn exponent_turn<'a>(
    pending: Pending,
    lexeme: Lexeme<'a>,
    outer: &mut Vec<Pending>,
    steps: &mut Vec<Step<'a>>,
) -> Result<Option<State>, LanguageError>
    ensures { TurnsBy (λ waits. exponent_turn pending waits (lexeme_view lexeme.entry))
        outer.old.items steps.old.items outer.new.items steps.new.items result }
{
    let at = lexeme.at;
    match lexeme.token {
        Token::Number(exponent) => {
            push_if(steps, true, Step::Power { exponent, at })?;
            let mode = Mode::Factor;
            Ok(Some(State { mode, pending }))
        }
        _ => Err(fault(FaultKind::ExponentExpected, at)),
    }
}

/// The bracket closes that was opened last; or the expression ends where none is open.
fn close<'a>(
    pending: Pending,
    outer: &mut Vec<Pending>,
    steps: &mut Vec<Step<'a>>,
) -> Result<Option<State>, LanguageError>
    ensures { TurnsBy (closed pending)
        outer.old.items steps.old.items outer.new.items steps.new.items result }
{
    push_sum(steps, pending)?;
    let mode = Mode::Atom;
    match outer.pop() {
        Some(pending) => Ok(Some(State { mode, pending })),
        None => Ok(None),
    }
}

#[tactic(auto, unfolding(crate::specs::Expressions::operator_turn))]
/// What follows an operand: an operation, a closing bracket, or the end of the expression.
fn operator_turn<'a>(
    pending: Pending,
    lexeme: Lexeme<'a>,
    outer: &mut Vec<Pending>,
    steps: &mut Vec<Step<'a>>,
) -> Result<Option<State>, LanguageError>
    ensures { TurnsBy (λ waits. operator_turn pending waits (lexeme_view lexeme.entry))
        outer.old.items steps.old.items outer.new.items steps.new.items result }
{
    let mode = Mode::Operand;
    match lexeme.token {
        Token::Symbol(Symbol::Times) => {
            push_product(steps, pending)?;
            let pending = Pending {
                sum: pending.sum,
                product: true,
                negated: false,
            };
            Ok(Some(State { mode, pending }))
        }
        Token::Symbol(Symbol::Plus) => {
            push_sum(steps, pending)?;
            let pending = Pending {
                sum: Some(Sign::Plus),
                ..NO_PENDING
            };
            Ok(Some(State { mode, pending }))
        }
        Token::Symbol(Symbol::Minus) => {
            push_sum(steps, pending)?;
            let pending = Pending {
                sum: Some(Sign::Minus),
                ..NO_PENDING
            };
            Ok(Some(State { mode, pending }))
        }
        Token::Symbol(Symbol::CloseParenthesis) => close(pending, outer, steps),
        _ if outer.is_empty() => close(pending, outer, steps),
        _ => Err(fault(FaultKind::ClosingExpected, lexeme.at)),
    }
}

#[tactic(auto, unfolding(crate::specs::Expressions::turn))]
/// A token of an expression, or the first after it.
fn turn<'a>(
    state: State,
    lexeme: Lexeme<'a>,
    outer: &mut Vec<Pending>,
    steps: &mut Vec<Step<'a>>,
) -> Result<Option<State>, LanguageError>
    ensures { TurnsBy (λ waits. turn state waits (lexeme_view lexeme.entry))
        outer.old.items steps.old.items outer.new.items steps.new.items result }
{
    let pending = state.pending;
    match (state.mode, lexeme.token) {
        (Mode::Operand, _) => operand_turn(pending, lexeme, outer, steps),
        (Mode::Exponent, _) => exponent_turn(pending, lexeme, outer, steps),
        (Mode::Atom, Token::Symbol(Symbol::Power)) => {
            let mode = Mode::Exponent;
            Ok(Some(State { mode, pending }))
        }
        _ => operator_turn(pending, lexeme, outer, steps),
    }
}

/// The steps of the expression at the front of these tokens, and the tokens after it.
pub(crate) fn expression_at<'a>(
    alloc: Global,
    tokens: &'a [Lexeme<'a>],
) -> Result<(Vec<Step<'a>>, &'a [Lexeme<'a>]), LanguageError>
    ensures { Gives (λ read. (map step_view read.0.items, map lexeme_view read.1.now)) result
        (expression_at (map lexeme_view tokens.now)) }
{
    let mut steps = Vec::new(alloc);
    let mut outer = Vec::new(alloc);
    let mut state = State {
        mode: Mode::Operand,
        pending: NO_PENDING,
    };
    for (at, lexeme) in tokens.iter().enumerate() {
        let Some(next) = turn(state, *lexeme, &mut outer, &mut steps)? else {
            return Ok((steps, &tokens[at..]));
        };
        state = next;
    }
    Err(fault(FaultKind::EndExpected, 0))
}
