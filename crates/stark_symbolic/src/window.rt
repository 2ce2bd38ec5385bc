//! Two rows of symbolic variables.
ghost use Rattle.std.specs.Prelude.{◌≡◌, All, IfOk, length};
ghost use Rattle.std.specs.List.{slice_get};
ghost use Rattle.stark_symbolic.specs.SymbolicRow.{AreVariables};

use crate::variable::{BaseEntry, SymbolicVariable};
use stark_air::WindowAccess;
use stark_support::Field;
use std::alloc::{AllocError, Global};

/// The variables of a current and a next row.
#[derive(Drop)]
pub struct SymbolicWindow<F> {
    pub current: Vec<SymbolicVariable<F>>,
    pub next: Vec<SymbolicVariable<F>>,
}

impl<F: Field> WindowAccess<SymbolicVariable<F>> for SymbolicWindow<F> {
    ghost current_at = { λ w i. slice_get w.current.items i };

    ghost next_at = { λ w i. slice_get w.next.items i };

    fn current_slice(&self) -> &[SymbolicVariable<F>] {
        self.current.as_slice()
    }

    fn next_slice(&self) -> &[SymbolicVariable<F>] {
        self.next.as_slice()
    }

    fn current(&self, i: usize) -> Option<SymbolicVariable<F>> {
        self.current.get(i).copied()
    }

    fn next(&self, i: usize) -> Option<SymbolicVariable<F>> {
        self.next.get(i).copied()
    }
}

/// The first `count` variables of an entry.
pub fn variables<F: Field>(
    alloc: Global,
    entry: BaseEntry,
    count: usize,
) -> Result<Vec<SymbolicVariable<F>>, AllocError>
    ensures size { IfOk result (λ row. length row.items ≡ count) }
    ensures each { IfOk result (λ row. AreVariables entry row.items) }
    ensures entries { IfOk result (λ row. All (λ v. v.entry ≡ entry) row.items) }
{
    let mut row = Vec::new(alloc);
    for index in 0..count {
        row.push(SymbolicVariable::new(alloc, entry, index))?;
    }
    Ok(row)
}
