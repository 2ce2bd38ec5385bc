//! Something whole, or in two parts.

/// A commitment, or what a prover keeps of it: whole, or in two parts.
#[derive(Debug, Drop)]
pub enum InParts<T> {
    Whole(T),
    /// That of a matrix's first columns, and that of the others.
    Parts(T, T),
}

/// Which columns.
#[derive(Clone, Copy, Debug)]
pub(crate) enum Side {
    All,
    First,
    Others,
}
