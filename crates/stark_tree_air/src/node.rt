//! Trees of constraints as lists of nodes.

/// A leaf of a constraint's tree, or an operation on nodes that stand before it in the list, each
/// named by its place.
#[derive(Clone, Copy, Debug)]
pub enum TreeNode {
    /// The constant at a place of the list of constants.
    Constant(usize),
    /// A main column in the current row.
    MainCurrent(usize),
    /// A main column in the next row.
    MainNext(usize),
    /// A preprocessed column in the current row.
    PreprocessedCurrent(usize),
    /// A preprocessed column in the next row.
    PreprocessedNext(usize),
    /// A public value.
    PublicValue(usize),
    /// A periodic column in the current row.
    PeriodicValue(usize),
    /// The selector of the first row.
    FirstRow,
    /// The selector of the last row.
    LastRow,
    /// The selector of all rows but the last.
    Transition,
    Sum(usize, usize),
    /// The first operand less the second.
    Difference(usize, usize),
    Product(usize, usize),
    Negation(usize),
}

/// The place of a constraint's node, marked as one over the base field or over the extension.
#[derive(Clone, Copy, Debug)]
pub enum TreeConstraint {
    /// Over the base field.
    Base(usize),
    /// Over the extension.
    Extension(usize),
}
