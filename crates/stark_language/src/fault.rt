//! Why a text is no statement.

use std::alloc::{AllocError, AllocFailed};
use thiserror::Error;

/// What is wrong at a place of a text.
#[derive(Clone, Copy, Debug, Error)]
pub enum FaultKind {
    /// A character that begins no name, number or sign, outside a comment.
    #[error("this character has no meaning here")]
    UnknownCharacter,
    /// A prime that follows no name at once.
    #[error("a prime follows the name of a column, with nothing between")]
    PrimeWithoutName,
    /// A whole number of 2^64 or more.
    #[error("this number is too large")]
    NumberTooLarge,
    /// A number, a name, a minus or an opening bracket was expected.
    #[error("a number, a name or an opening bracket is expected here")]
    OperandExpected,
    /// A whole number was expected, after the sign of a power.
    #[error("the exponent, a whole number, is expected here")]
    ExponentExpected,
    /// A closing bracket was expected, or an operation.
    #[error("a closing bracket is expected here, or +, - or *")]
    ClosingExpected,
    /// The first word of a line is none that begins one, and no colon follows it.
    #[error("this word begins no line; after the name of a constraint stands a colon")]
    UnknownWord,
    /// A name was expected.
    #[error("a name is expected here")]
    NameExpected,
    /// An equals sign was expected.
    #[error("= is expected here")]
    EqualsExpected,
    /// A colon was expected.
    #[error("a colon is expected here")]
    ColonExpected,
    /// A whole number was expected, with a minus or without.
    #[error("a number is expected here")]
    NumberExpected,
    /// A word or a whole number was expected.
    #[error("a word or a number is expected here")]
    ValueExpected,
    /// The end of the line was expected.
    #[error("the end of the line is expected here")]
    EndExpected,
    /// The end of a list was expected, or its next number.
    #[error("a number or the list's closing bracket is expected here")]
    ListEndExpected,
    /// No column, public value or expression has this name.
    #[error("nothing has this name")]
    UnknownName,
    /// Something has this name already.
    #[error("something has this name already")]
    RepeatedName,
    /// The name is a word of the language.
    #[error("this word has a meaning of its own")]
    ReservedName,
    /// A prime stands at the name of what has no next row.
    #[error("this has no next row: it is no main or fixed column")]
    NoNextRow,
    /// A number is not below the field's prime.
    #[error("this number is not below the field's prime")]
    AboveModulus,
    /// An exponent is 0, or larger than is allowed.
    #[error("an exponent is from 1 to 32")]
    ExponentOutOfRange,
    /// More names are declared than are allowed.
    #[error("a text declares at most 1024 names")]
    TooManyNames,
    /// Expressions have more numbers than are allowed.
    #[error("expressions have at most 1024 different numbers")]
    TooManyNumbers,
    /// The last number of a range is below its first.
    #[error("the last number is below the first")]
    EmptyRange,
    /// The lists of a text have more elements than are allowed.
    #[error("the lists have too many elements")]
    TooManyElements,
    /// A fixed column has another length than the first.
    #[error("this fixed column has another length than the first")]
    UnevenColumns,
    /// A member of the statement or of its configuration stands there twice.
    #[error("this is given already")]
    RepeatedMember,
    /// The value of a member is of another kind.
    #[error("this value is of another kind than is expected")]
    WrongValue,
}

/// The first fault of a text: what is wrong, and how many bytes of the text stand before it.
#[derive(Clone, Copy, Debug)]
pub struct Fault {
    pub kind: FaultKind,
    pub at: usize,
}

/// Why nothing was read of a text.
#[derive(Clone, Copy, Debug)]
pub enum LanguageError {
    /// The text has this fault first.
    Fault(Fault),
    /// Out of memory.
    OutOfMemory,
}

impl From<AllocError> for LanguageError {
    ghost use Rattle.std.specs.Prelude.{◌≡◌};
    ghost use Rattle.stark_language.specs.declared.fault.LanguageError.TheVariants.{OutOfMemory};

    ghost from_gives = { λ _ error. error ≡ OutOfMemory };

    fn from(_error: AllocError) -> LanguageError {
        LanguageError::OutOfMemory
    }
}

impl<T: Drop> From<AllocFailed<T>> for LanguageError {
    ghost use Rattle.std.specs.Prelude.{◌≡◌};
    ghost use Rattle.stark_language.specs.declared.fault.LanguageError.TheVariants.{OutOfMemory};

    ghost from_gives = { λ _ error. error ≡ OutOfMemory };

    fn from(_failed: AllocFailed<T>) -> LanguageError {
        LanguageError::OutOfMemory
    }
}
