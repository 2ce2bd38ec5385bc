//! AIRs of main columns and public values alone.
ghost use Rattle.std.specs.Prelude.{◌≡◌, ℕ, Bool, Option, []};
ghost use Rattle.std.proofs.Common.{rules};
ghost use Rattle.stark_air.specs.Declaration.{main_trace_layout, read_columns};

use crate::air::{BaseAir, every_column};
use stark_support::RowMajorMatrix;
use std::alloc::{AllocError, Global};

/// An AIR of main columns and public values alone, declared by its numbers. It is a `BaseAir` over
/// every field, without preprocessed and periodic columns, which reads the whole next row or
/// nothing of it.
pub trait MainTraceAir {
    ghost WIDTH: { ℕ };

    ghost NUM_PUBLIC_VALUES: { ℕ };

    ghost READS_NEXT_ROW: { Bool };

    /// The author's own bound on the degree multiple of the constraints, None without one.
    ghost degree_bound: { Self → Option ℕ };

    /// How many columns the main trace has.
    const WIDTH: usize;

    /// How many public values there are.
    const NUM_PUBLIC_VALUES: usize;

    /// Whether the constraints read the next row.
    const READS_NEXT_ROW: bool;

    /// The author's own bound on the degree multiple of the constraints, None without one.
    fn degree_bound(&self) -> Option<usize>
        ensures { result ≡ degree_bound self.now };
}

impl<F, A: MainTraceAir> BaseAir<F> for A {
    ghost layout = { λ _. main_trace_layout A.WIDTH A.NUM_PUBLIC_VALUES A.READS_NEXT_ROW };

    ghost main_next_row_columns = { λ _. read_columns A.READS_NEXT_ROW A.WIDTH };

    ghost preprocessed_next_row_columns = { λ _. [] };

    ghost degree_hint = { A.degree_bound };

    ghost as_declared = { Prim.search rules };

    fn width(&self) -> usize {
        A::WIDTH
    }

    fn preprocessed_width(&self) -> usize {
        0
    }

    fn preprocessed_trace(&self, _alloc: Global) -> Result<Option<RowMajorMatrix<F>>, AllocError> {
        Ok(None)
    }

    fn num_public_values(&self) -> usize {
        A::NUM_PUBLIC_VALUES
    }

    fn periodic_columns(&self) -> &[Vec<F>] {
        &[]
    }

    fn main_next_row_columns(&self, alloc: Global) -> Result<Vec<usize>, AllocError> {
        if A::READS_NEXT_ROW {
            every_column(alloc, A::WIDTH)
        } else {
            Ok(Vec::new(alloc))
        }
    }

    fn preprocessed_next_row_columns(&self, alloc: Global) -> Result<Vec<usize>, AllocError> {
        Ok(Vec::new(alloc))
    }

    fn max_constraint_degree(&self) -> Option<usize> {
        self.degree_bound()
    }

    fn num_constraints(&self) -> Option<usize> {
        None
    }

    fn public_boundary_io(&self) -> &[usize] {
        &[]
    }
}
