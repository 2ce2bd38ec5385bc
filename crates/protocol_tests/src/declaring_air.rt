//! The counter under declarations of every kind.
ghost use Rattle.std.specs.Prelude.{◌≡◌, IfOk, length, map};
ghost use Rattle.protocol_tests.specs.DeclaringAirs.{column_if, counting_if, counting_within, declaring, declaring_layout, trace_of_width};

use crate::kinds::DeclaringAir;
use stark_air::{Air, BaseAir, ExtensionBuilder, every_column};
use stark_samples::CounterAir;
use stark_support::{Field, RowMajorMatrix};
use std::alloc::{AllocError, Global};

/// The first column, where it is read.
fn column_if(alloc: Global, read: bool) -> Result<Vec<usize>, AllocError>
    ensures { IfOk result (λ columns. columns.items ≡ column_if read) }
{
    if read {
        every_column(alloc, 1)
    } else {
        Ok(Vec::new(alloc))
    }
}

impl<F> BaseAir<F> for DeclaringAir<F> {
    ghost layout = { λ air. declaring_layout air.reads_next air.preprocessed
        air.reads_preprocessed_next (length (map (λ column. column.items) air.periodic.items)) };

    ghost preprocessed_trace = { λ air. trace_of_width air.preprocessed };

    ghost periodic_columns = { λ air. map (λ column. column.items) air.periodic.items };

    ghost main_next_row_columns = { λ air. column_if air.reads_next };

    ghost preprocessed_next_row_columns = { λ air. column_if air.reads_preprocessed_next };

    ghost degree_hint = { λ air. air.hint };

    ghost as_declared = { λ air. declaring air.reads_next air.preprocessed
        air.reads_preprocessed_next _ };

    fn width(&self) -> usize {
        1
    }

    fn preprocessed_width(&self) -> usize {
        match self.preprocessed {
            Some(width) => width,
            None => 0,
        }
    }

    fn preprocessed_trace(&self, alloc: Global) -> Result<Option<RowMajorMatrix<F>>, AllocError> {
        match self.preprocessed {
            Some(width) => Ok(Some(RowMajorMatrix {
                values: Vec::new(alloc),
                width,
            })),
            None => Ok(None),
        }
    }

    fn num_public_values(&self) -> usize {
        1
    }

    fn periodic_columns(&self) -> &[Vec<F>] {
        &self.periodic
    }

    fn main_next_row_columns(&self, alloc: Global) -> Result<Vec<usize>, AllocError> {
        column_if(alloc, self.reads_next)
    }

    fn preprocessed_next_row_columns(&self, alloc: Global) -> Result<Vec<usize>, AllocError> {
        column_if(alloc, self.reads_preprocessed_next)
    }

    fn max_constraint_degree(&self) -> Option<usize> {
        self.hint
    }

    fn num_constraints(&self) -> Option<usize> {
        None
    }

    fn public_boundary_io(&self) -> &[usize] {
        &[]
    }
}

impl<F: Field> Air<F> for DeclaringAir<F> {
    ghost constraints = { λ air. counting_if F.ONE air.reads_next };

    ghost leaves_within = { λ air. counting_within _ F.ONE air.reads_next air.preprocessed
        air.reads_preprocessed_next _ };

    fn eval<AB: ExtensionBuilder<F = F>>(&self, builder: &mut AB) -> Result<(), AllocError> {
        if self.reads_next {
            CounterAir.eval(builder)
        } else {
            Ok(())
        }
    }
}
