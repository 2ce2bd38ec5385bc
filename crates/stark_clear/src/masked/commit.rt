//! The masked columns of a matrix.
ghost use Rattle.std.specs.Prelude.{◌≤◌, ◌<◌, ◌-◌, ◌/◌, IfOk, length};
ghost use Rattle.std.specs.Int.{IsPowerOfTwo};
ghost use Rattle.stark_support.specs.Coset.{coset_size, coset_from};
ghost use Rattle.stark_columns.specs.Columns.{columns_list};
ghost use Rattle.stark_clear.specs.ClearCalls.{IsMaskedMatrix};
ghost use Rattle.stark_columns.specs.ColumnPoints.{AreFull, TakeMatrix};

use crate::masked::columns::masked_columns;
use crate::masked::list::next_lists;
use stark_bench::Coset;
use stark_columns::columns_of;
use stark_support::{
    DomainShape, PolynomialSpace, RowMajorMatrix, TwoAdicField, log2_strict_usize,
};
use std::alloc::{AllocError, Global};

/// The columns of a matrix that take its rows on the natural domain of its height, each with a
/// multiple of that domain's vanishing polynomial added, so that it has as many coefficients as the
/// domain points. The multiples' coefficients are the list's numbers, from its start on, column
/// after column.
pub fn masked_columns_of<F: TwoAdicField>(
    alloc: Global,
    masks: &[F],
    domain: &Coset<F>,
    matrix: &RowMajorMatrix<F>,
) -> Result<Vec<Vec<F>>, AllocError>
    requires masks { 0 < length masks.now }
    requires power { IsPowerOfTwo (length matrix.now.values.items / matrix.now.width) }
    requires room { length matrix.now.values.items / matrix.now.width
        ≤ coset_size (⟦<Coset<F> as PolynomialSpace>⟧.coset_of domain.now) }
    ensures full { IfOk result (λ columns.
        AreFull (coset_from domain.now.shift domain.now.log_size) (columns_list columns)) }
    ensures rows { IfOk result (λ columns.
        TakeMatrix F.ring F.root matrix.now (columns_list columns)) }
    ensures masked { IfOk result (IsMaskedMatrix F.ring masks.now
        (coset_from domain.now.shift domain.now.log_size) matrix.now) }
{
    let natural = Coset::subgroup(log2_strict_usize(matrix.height()));
    let plain = columns_of(alloc, &natural, matrix)?;
    let mut place = 0;
    let size = domain.size() - matrix.height();
    let lists = next_lists(alloc, masks, &mut place, matrix.width, size)?;
    let columns = masked_columns(alloc, &plain, &lists, F::ONE)?;
    Ok(columns)
}
