//! What texts are made of: names, whole numbers, signs and ends of lines.

/// A sign.
#[derive(Clone, Copy, Debug)]
pub enum Symbol {
    Comma,
    Colon,
    Equals,
    Plus,
    Minus,
    Times,
    Power,
    /// Two dots, between the first and the last of several numbers.
    To,
    OpenParenthesis,
    CloseParenthesis,
    OpenBracket,
    CloseBracket,
}

/// A piece of a text that has a meaning of its own.
#[derive(Clone, Copy, Debug)]
pub enum Token<'a> {
    /// A letter or `_`, and the letters, digits and `_` after it.
    Name(&'a [u8]),
    /// A name with a prime, without the prime: of the next row.
    Next(&'a [u8]),
    /// A whole number, in decimal digits.
    Number(u64),
    Symbol(Symbol),
    /// The end of a line, where it ends what stands on it, or of the text.
    End,
}

/// A token, and how many bytes of the text stand before it.
#[derive(Clone, Copy, Debug)]
pub struct Lexeme<'a> {
    pub token: Token<'a>,
    pub at: usize,
}
