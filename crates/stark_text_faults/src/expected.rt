//! What was expected where a text stops being JSON.

use std::fmt;

/// What was expected at a place of a text.
#[derive(Clone, Copy, Debug, PartialEq, Eq)]
pub enum Expected {
    /// A value.
    Value,
    /// The first item of an array, or its end.
    ValueOrClosingBracket,
    /// More items of an array, or its end.
    CommaOrClosingBracket,
    /// The first member of an object, or its end.
    NameOrClosingBrace,
    /// A member of an object, after a comma.
    Name,
    /// The colon after a member's name.
    Colon,
    /// More members of an object, or its end.
    CommaOrClosingBrace,
    /// A digit of a number.
    Digit,
    /// A number that 64 bits hold, as an integer or as a float.
    SmallerNumber,
    /// The quotation mark that ends a string.
    ClosingQuotationMark,
    /// The escape of a control character.
    EscapeOfControl,
    /// An escape that JSON has.
    Escape,
    /// Four hexadecimal digits.
    HexadecimalDigits,
    /// The second half of a pair of surrogates, after the first.
    SurrogatePair,
    /// Arrays and objects that nest less deep.
    LessNesting,
    /// Bytes that are UTF-8.
    Utf8,
    /// Nothing more.
    End,
    /// JSON: the scan finds no fault, and the reader refuses the text.
    Json,
}

impl Expected {
    /// It in words.
    fn words(self) -> &'static str {
        match self {
            Expected::Value => "a value",
            Expected::ValueOrClosingBracket => "a value or a closing bracket",
            Expected::CommaOrClosingBracket => "a comma or a closing bracket",
            Expected::NameOrClosingBrace => "a name in quotation marks or a closing brace",
            Expected::Name => "a name in quotation marks",
            Expected::Colon => "a colon",
            Expected::CommaOrClosingBrace => "a comma or a closing brace",
            Expected::Digit => "a digit",
            Expected::SmallerNumber => "a number that isn't too large",
            Expected::ClosingQuotationMark => "a closing quotation mark",
            Expected::EscapeOfControl => "an escape in place of a control character",
            Expected::Escape => "an escape that JSON has",
            Expected::HexadecimalDigits => "four hexadecimal digits",
            Expected::SurrogatePair => "both halves of a pair of surrogates",
            Expected::LessNesting => "at most 127 arrays and objects within one another",
            Expected::Utf8 => "UTF-8",
            Expected::End => "the end of the text",
            Expected::Json => "JSON",
        }
    }
}

impl fmt::Display for Expected {
    fn fmt<W: fmt::Write>(&self, f: &mut fmt::Formatter<W>) -> fmt::Result {
        f.write_str(self.words())
    }
}
