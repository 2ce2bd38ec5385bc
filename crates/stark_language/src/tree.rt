//! What a text says, line by line.

/// A name, and how many bytes of the text stand before it.
#[derive(Clone, Copy, Debug)]
pub struct Name<'a> {
    pub text: &'a [u8],
    pub at: usize,
}

/// A step of an expression in postfix order, where each operation follows what it works on.
#[derive(Clone, Copy, Debug)]
pub enum Step<'a> {
    Number { value: u64, at: usize },
    /// What has this name, in the current row.
    Name(Name<'a>),
    /// The column of this name, in the next row.
    Next(Name<'a>),
    Power { exponent: u64, at: usize },
    Negate,
    Multiply,
    Add,
    Subtract,
}

/// A whole number, or its opposite.
#[derive(Clone, Copy, Debug)]
pub struct Element {
    pub size: u64,
    pub is_negative: bool,
    pub at: usize,
}

/// A part of a list of elements.
#[derive(Clone, Copy, Debug)]
pub enum Item {
    Single(Element),
    /// The whole numbers from the first to the last.
    Range { first: u64, last: u64, at: usize },
    /// An element, as often as this number says.
    Repeat { count: u64, element: Element },
}

/// A member of a statement or of its configuration.
#[derive(Clone, Copy, Debug)]
pub enum Member {
    Config,
    Field,
    Scheme,
    LogBlowup,
    LogFinalPolyLen,
    NumQueries,
    CommitProofOfWorkBits,
    QueryProofOfWorkBits,
    AlphaBits,
    OodBits,
    LogHeight,
    MaxConstraintDegree,
    NumConstraints,
}

/// The value of a member.
#[derive(Clone, Copy, Debug)]
pub enum MemberValue<'a> {
    Word(Name<'a>),
    Number { value: u64, at: usize },
}

/// A line of a text.
#[derive(Debug, Drop)]
pub enum Line<'a> {
    /// The next main columns, in this order.
    Columns(Vec<Name<'a>>),
    /// The next public value.
    Public {
        name: Name<'a>,
        value: Element,
    },
    /// The next periodic column.
    Periodic {
        name: Name<'a>,
        values: Vec<Item>,
    },
    /// The next preprocessed column.
    Fixed {
        name: Name<'a>,
        values: Vec<Item>,
    },
    /// A name for an expression.
    Let {
        name: Name<'a>,
        value: Vec<Step<'a>>,
    },
    /// Where the condition isn't zero both sides are equal; a condition of no steps is always met.
    Constraint {
        name: Name<'a>,
        condition: Vec<Step<'a>>,
        left: Vec<Step<'a>>,
        right: Vec<Step<'a>>,
    },
    Member {
        member: Member,
        at: usize,
        value: MemberValue<'a>,
    },
}
