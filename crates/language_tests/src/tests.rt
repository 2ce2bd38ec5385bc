//! Texts, and what is read of them. The answers are written by hand.

use stark_language::{
    Element, Item, LanguageError, Line, MemberValue, Name, Step, Symbol, Token, lines_of, tokens_of,
};
use std::alloc::Global;
use std::test::Fail;

/// Texts, each with its tokens and how many bytes stand before each; `|` is an end of a line.
const TOKENS: &str = r#"
 => |
| => |
a => a 0, end 1
a| => a 0, end 1
 a_b1  'x => PrimeWithoutName 7
a' b => next a 0, b 3, end 4
a 'b => PrimeWithoutName 2
x12' => next x12 0, end 4
12x => 12 0, x 2, end 3
18446744073709551615 => 18446744073709551615 0, end 20
a 18446744073709551616 => NumberTooLarge 2
000 7 => 0 0, 7 4, end 5
0..255 => 0 0, .. 1, 255 3, end 6
0.255 => UnknownCharacter 1
a.. => a 0, .. 1, end 3
a # b c => a 0, end 7
# b => |
#|a => a 2, end 3
a # é|b => a 0, end 6, b 7, end 8
é => UnknownCharacter 0
a=(b|+c) => a 0, = 1, ( 2, b 3, + 5, c 6, ) 7, end 8
a +|| b => a 0, + 2, b 6, end 7
a|+ b => a 0, end 1, + 2, b 4, end 5
[1|2]|3 => [ 0, 1 1, 2 3, ] 4, end 5, 3 6, end 7
(|a => ( 0, a 2, end 3
a +| => a 0, + 2, end 4
)a|b => ) 0, a 1, end 2, b 3, end 4
a,|b:|c => a 0, , 1, b 3, : 4, c 6, end 7
a*b^2-3 => a 0, * 1, b 2, ^ 3, 2 4, - 5, 3 6, end 7
a ; b => UnknownCharacter 2
"#;

/// Texts, each with its lines, expressions in postfix order with `neg` for an opposite; or the
/// first fault and how many bytes stand before it.
const LINES: &str = r#"
 => |
columns a => columns a
columns a, b,|c|columns d => columns a b c; columns d
columns => NameExpected 7
columns a b => EndExpected 10
columns a, => NameExpected 10
public a = 5 => public a 5
public a = -5 => public a -5
public a 5 => EqualsExpected 9
public a = b => NumberExpected 11
public = 5 => NameExpected 7
periodic w = 1 2 4 => periodic w 1 2 4
periodic w = 0..255 => periodic w 0..255
periodic w = 7 x 16 -1 => periodic w 7x16 -1
periodic w = 2 x -3 x => EndExpected 20
periodic w = 1.. => NumberExpected 16
periodic w = [1 2|3] => periodic w 1 2 3
periodic w = [1 2, 3] => ListEndExpected 17
periodic w = [] => NumberExpected 14
periodic w = => NumberExpected 12
fixed f = [0..2 -1] => fixed f 0..2 -1
let x = a => let x a
let x = 3 + 4 * a => let x 3 4 a * +
let x = 3 * 4 + a => let x 3 4 * a +
let x = a - b - c => let x a b - c -
let x = a - (b - c) => let x a b c - -
let x = a * b * c => let x a b * c *
let x = -a * b => let x a neg b *
let x = a * -b => let x a b neg *
let x = a - -b => let x a b neg -
let x = -a + b => let x a neg b +
let x = -a^2 => let x a ^2 neg
let x = a^2 * b^3 => let x a ^2 b ^3 *
let x = (a + b)^2 => let x a b + ^2
let x = a^b => ExponentExpected 10
let x = a^2^3 => EndExpected 11
let x = --a => OperandExpected 9
let x = -(-a) => let x a neg neg
let x = ((a)) => let x a
let x = () => OperandExpected 9
let x = (a => ClosingExpected 10
let x = (a, b) => ClosingExpected 10
let x = a) => EndExpected 9
let x = a' * b => let x a' b *
let x = a b => EndExpected 10
let x = + a => OperandExpected 8
let x = => OperandExpected 7
let x = (a +|b) => let x a b +
let x = a +|b => let x a b +
c: a = 0 => c: a = 0
c: a * b = a' => c: a b * = a'
c: when t: a = 0 => c: when t: a = 0
c: when t, 1 - u, v: a = b => c: when t 1 u - * v *: a = b
c: when t a = b => ColonExpected 10
c: a => EqualsExpected 4
c: a = b = c => EndExpected 9
c a = b => UnknownWord 0
: a = b => NameExpected 0
field baby_bear => member baby_bear
log_blowup 2 => member 2
log_blowup -2 => ValueExpected 11
alpha_bits => ValueExpected 10
colums a, b => UnknownWord 0
columns a|b => UnknownWord 10
"#;

/// A sign as the answers have it.
fn sign(symbol: Symbol) -> &'static str {
    match symbol {
        Symbol::Comma => ",",
        Symbol::Colon => ":",
        Symbol::Equals => "=",
        Symbol::Plus => "+",
        Symbol::Minus => "-",
        Symbol::Times => "*",
        Symbol::Power => "^",
        Symbol::To => "..",
        Symbol::OpenParenthesis => "(",
        Symbol::CloseParenthesis => ")",
        Symbol::OpenBracket => "[",
        Symbol::CloseBracket => "]",
    }
}

/// A token as the answers have it.
fn shown(alloc: Global, token: Token<'_>) -> Result<String, Fail> {
    match token {
        Token::Name(name) => Ok(String::from_str(alloc, std::str::from_utf8(name)?)?),
        Token::Next(name) => {
            let name = std::str::from_utf8(name)?;
            Ok(format!(in alloc; "next {name}")?)
        }
        Token::Number(whole) => Ok(format!(in alloc; "{whole}")?),
        Token::Symbol(symbol) => Ok(String::from_str(alloc, sign(symbol))?),
        Token::End => Ok(String::from_str(alloc, "end")?),
    }
}

/// The tokens of a text, as the answers have them.
fn answer(alloc: Global, text: &[u8]) -> Result<String, Fail> {
    let mut answer = String::new(alloc);
    match tokens_of(alloc, text) {
        Ok(lexemes) => {
            for lexeme in &lexemes {
                if !answer.is_empty() {
                    answer.push_str(", ")?;
                }
                let at = lexeme.at;
                let token = shown(alloc, lexeme.token)?;
                answer.push_str(&format!(in alloc; "{token} {at}")?)?;
            }
        }
        Err(error) => push_error(alloc, &mut answer, error)?,
    }
    Ok(answer)
}

/// A name as the answers have it.
fn shown_name(name: Name<'_>) -> Result<&str, Fail> {
    Ok(std::str::from_utf8(name.text)?)
}

/// An element as the answers have it.
fn shown_element(alloc: Global, element: Element) -> Result<String, Fail> {
    let sign = if element.is_negative { "-" } else { "" };
    let size = element.size;
    Ok(format!(in alloc; "{sign}{size}")?)
}

/// An item as the answers have it.
fn shown_item(alloc: Global, item: Item) -> Result<String, Fail> {
    match item {
        Item::Single(element) => shown_element(alloc, element),
        Item::Range { first, last, at: _ } => Ok(format!(in alloc; "{first}..{last}")?),
        Item::Repeat { count, element } => {
            let element = shown_element(alloc, element)?;
            Ok(format!(in alloc; "{count}x{element}")?)
        }
    }
}

/// A step as the answers have it.
fn shown_step(alloc: Global, step: Step<'_>) -> Result<String, Fail> {
    let word = match step {
        Step::Number { value, at: _ } => return Ok(format!(in alloc; "{value}")?),
        Step::Name(name) => shown_name(name)?,
        Step::Next(name) => {
            let name = shown_name(name)?;
            return Ok(format!(in alloc; "{name}'")?);
        }
        Step::Power { exponent, at: _ } => return Ok(format!(in alloc; "^{exponent}")?),
        Step::Negate => "neg",
        Step::Multiply => "*",
        Step::Add => "+",
        Step::Subtract => "-",
    };
    Ok(String::from_str(alloc, word)?)
}

/// Items as the answers have them.
fn shown_items(alloc: Global, items: &[Item]) -> Result<String, Fail> {
    let mut answer = String::new(alloc);
    for item in items {
        answer.push_str(" ")?;
        answer.push_str(&shown_item(alloc, *item)?)?;
    }
    Ok(answer)
}

/// Steps as the answers have them.
fn shown_steps(alloc: Global, steps: &[Step<'_>]) -> Result<String, Fail> {
    let mut answer = String::new(alloc);
    for step in steps {
        if !answer.is_empty() {
            answer.push_str(" ")?;
        }
        answer.push_str(&shown_step(alloc, *step)?)?;
    }
    Ok(answer)
}

/// Names as the answers have them.
fn shown_names(alloc: Global, names: &[Name<'_>]) -> Result<String, Fail> {
    let mut answer = String::new(alloc);
    for name in names {
        answer.push_str(" ")?;
        answer.push_str(shown_name(*name)?)?;
    }
    Ok(answer)
}

/// A constraint as the answers have it.
fn shown_constraint(
    alloc: Global,
    name: Name<'_>,
    condition: &[Step<'_>],
    left: &[Step<'_>],
    right: &[Step<'_>],
) -> Result<String, Fail> {
    let name = shown_name(name)?;
    let condition = shown_steps(alloc, condition)?;
    let left = shown_steps(alloc, left)?;
    let right = shown_steps(alloc, right)?;
    if condition.is_empty() {
        Ok(format!(in alloc; "{name}: {left} = {right}")?)
    } else {
        Ok(format!(in alloc; "{name}: when {condition}: {left} = {right}")?)
    }
}

/// A line as the answers have it.
fn shown_line(alloc: Global, line: &Line<'_>) -> Result<String, Fail> {
    let (word, name, rest) = match line {
        Line::Columns(names) => {
            let names = shown_names(alloc, names)?;
            return Ok(format!(in alloc; "columns{names}")?);
        }
        Line::Public { name, value } => {
            let name = shown_name(*name)?;
            let value = shown_element(alloc, *value)?;
            return Ok(format!(in alloc; "public {name} {value}")?);
        }
        Line::Constraint {
            name,
            condition,
            left,
            right,
        } => return shown_constraint(alloc, *name, condition, left, right),
        Line::Member {
            member: _,
            at: _,
            value: MemberValue::Word(word),
        } => {
            let word = shown_name(*word)?;
            return Ok(format!(in alloc; "member {word}")?);
        }
        Line::Member {
            member: _,
            at: _,
            value: MemberValue::Number { value, at: _ },
        } => return Ok(format!(in alloc; "member {value}")?),
        Line::Periodic { name, values } => ("periodic", name, shown_items(alloc, values)?),
        Line::Fixed { name, values } => ("fixed", name, shown_items(alloc, values)?),
        Line::Let { name, value } => {
            let steps = shown_steps(alloc, value)?;
            ("let", name, format!(in alloc; " {steps}")?)
        }
    };
    let name = shown_name(*name)?;
    Ok(format!(in alloc; "{word} {name}{rest}")?)
}

/// The lines of a text, as the answers have them.
fn lines_answer(alloc: Global, text: &[u8]) -> Result<String, Fail> {
    let mut answer = String::new(alloc);
    match tokens_of(alloc, text) {
        Ok(lexemes) => match lines_of(alloc, &lexemes) {
            Ok(lines) => {
                for line in &lines {
                    if !answer.is_empty() {
                        answer.push_str("; ")?;
                    }
                    answer.push_str(&shown_line(alloc, line)?)?;
                }
            }
            Err(error) => push_error(alloc, &mut answer, error)?,
        },
        Err(error) => push_error(alloc, &mut answer, error)?,
    }
    Ok(answer)
}

/// An error as the answers have it.
fn push_error(alloc: Global, answer: &mut String, error: LanguageError) -> Result<(), Fail> {
    match error {
        LanguageError::Fault(fault) => {
            let (kind, at) = (fault.kind, fault.at);
            answer.push_str(&format!(in alloc; "{kind:?} {at}")?)?;
        }
        LanguageError::OutOfMemory => answer.push_str("out of memory")?,
    }
    Ok(())
}

/// A text of the table, whose bars are ends of lines.
fn unfolded(alloc: Global, text: &str) -> Result<String, Fail> {
    let mut whole = String::new(alloc);
    for (at, line) in text.split('|').enumerate() {
        if at > 0 {
            whole.push_str("\n")?;
        }
        whole.push_str(line)?;
    }
    Ok(whole)
}

#[test]
fn tokens_are_read(rt: HostRuntime) -> Result<(), Fail> {
    let mut count = 0usize;
    for case in TOKENS.lines() {
        if let Some((text, expected)) = case.split_once(" => ") {
            let expected = if expected == "|" { "" } else { expected };
            let text = unfolded(rt.alloc(), text)?;
            let answer = answer(rt.alloc(), text.as_bytes())?;
            assert_eq!(rt; answer.as_str(), expected, "{text}");
            count = count.saturating_add(1);
        }
    }
    assert_eq!(rt; count, 30);
    Ok(())
}

#[test]
fn lines_are_read(rt: HostRuntime) -> Result<(), Fail> {
    let mut count = 0usize;
    for case in LINES.lines() {
        if let Some((text, expected)) = case.split_once(" => ") {
            let expected = if expected == "|" { "" } else { expected };
            let text = unfolded(rt.alloc(), text)?;
            let answer = lines_answer(rt.alloc(), text.as_bytes())?;
            assert_eq!(rt; answer.as_str(), expected, "{text}");
            count = count.saturating_add(1);
        }
    }
    assert_eq!(rt; count, 64);
    Ok(())
}
