//! The widths and counts of what is read for an AIR.

ghost use Rattle.std.specs.Prelude.{◌≡◌, ◌==◌, IfOk, length, map};
ghost use Rattle.std.specs.List.{list_all};
ghost use Rattle.stark_answers.specs.CheckedAir.{shape_of};

use crate::airs::DeclaredAir;
use stark_air::Air;
use stark_support::Field;
use std::alloc::{AllocError, Global};

/// The widths and counts of an AIR's rows, and whether the next row is read.
#[derive(Clone, Copy, Debug)]
pub struct CheckShape {
    pub width: usize,
    pub num_public_values: usize,
    pub reads_next: bool,
    pub preprocessed_width: usize,
}

impl CheckShape {
    /// Those of the AIR. Err only where memory was refused.
    pub fn from_air<F: Field, A: Air<F>>(alloc: Global, air: &A) -> Result<CheckShape, AllocError>
        ensures { IfOk result (λ shape. shape
            ≡ shape_of (⟦<A as DeclaredAir<F>>⟧.declared air.now)) }
    {
        let next_columns = air.main_next_row_columns(alloc)?;
        Ok(CheckShape {
            width: air.width(),
            num_public_values: air.num_public_values(),
            reads_next: !next_columns.is_empty(),
            preprocessed_width: air.preprocessed_width(),
        })
    }
}

/// Whether each list is of this length.
pub fn have_length<T>(lists: &[Vec<T>], count: usize) -> bool
    ensures { result ≡ list_all (λ list.
        length list == count) (map (λ list. list.items) lists.now) }
{
    for list in lists {
        if list.len() != count {
            return false;
        }
    }
    true
}
