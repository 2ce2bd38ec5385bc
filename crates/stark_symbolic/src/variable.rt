//! The variables of symbolic expressions.
ghost use Rattle.std.specs.Prelude.{◌≡◌};

use std::alloc::Global;
use std::marker::PhantomData;

/// What a variable stands for.
#[derive(Clone, Copy)]
pub enum BaseEntry {
    /// A main column: in the current row at offset 0, and in the next row at any other.
    Main { offset: usize },
    /// A preprocessed column, with the same offsets.
    Preprocessed { offset: usize },
    /// A public value.
    Public,
    /// A periodic column.
    Periodic,
}

/// A variable. It keeps the allocator of the trees that it stands in.
#[derive(Clone, Copy)]
pub struct SymbolicVariable<F> {
    pub entry: BaseEntry,
    pub index: usize,
    pub alloc: Global,
    pub field: PhantomData<F>,
}

impl<F> SymbolicVariable<F> {
    /// The variable of an entry and a column or place.
    pub fn new(alloc: Global, entry: BaseEntry, index: usize) -> SymbolicVariable<F>
        ensures entry { result.entry ≡ entry }
        ensures index { result.index ≡ index }
    {
        SymbolicVariable {
            entry,
            index,
            alloc,
            field: PhantomData,
        }
    }
}
