//! Columns of a matrix as polynomials.
ghost use Rattle.std.specs.Prelude.{◌≡◌, ◌≤◌, IfOk};
ghost use Rattle.std.specs.Int.{IsPowerOfTwo};
ghost use Rattle.stark_support.specs.Coset.{coset_size, coset_from};
ghost use Rattle.stark_columns.specs.Columns.{columns_list};
ghost use Rattle.stark_columns.specs.ColumnPoints.{AreColumns, AreFull, ArePlain, HasCells, TakeMatrix, height_of, points_of};

use stark_bench::Coset;
use stark_dft::interpolate_columns;
use stark_support::{
    DomainShape, PolynomialSpace, RowMajorMatrix, TwoAdicField, log2_strict_usize,
};
use std::alloc::{AllocError, Global};

/// The points of a domain, in row order. It is Err only where memory was refused.
pub fn domain_points<F: TwoAdicField>(
    alloc: Global,
    domain: &Coset<F>,
) -> Result<Vec<F>, AllocError>
    ensures { IfOk result (λ points. points.items
        ≡ points_of F.ring F.root (coset_from domain.now.shift domain.now.log_size)) }
{
    let generator = F::two_adic_generator(domain.log_size);
    let mut points = Vec::new(alloc);
    let mut power = F::ONE;
    for _row in 0..domain.size() {
        points.push(domain.shift * power)?;
        power = generator * power;
    }
    Ok(points)
}

/// For each of `width` columns the polynomial of `size` coefficients that takes, at point `r` of
/// the domain, the value at the place `first + column + r * step`. It is Err only where memory was
/// refused.
pub fn interpolated_columns<F: TwoAdicField>(
    alloc: Global,
    domain: &Coset<F>,
    values: &[F],
    first: usize,
    step: usize,
    width: usize,
    size: usize,
) -> Result<Vec<Vec<F>>, AllocError>
    requires room { coset_size (coset_from domain.now.shift domain.now.log_size) ≤ size }
    requires within { HasCells (coset_from domain.now.shift domain.now.log_size) values.now first
        step width }
    ensures { IfOk result (λ c. AreColumns F.ring F.root
        (coset_from domain.now.shift domain.now.log_size) values.now first step width size
        (columns_list c)) }
{
    let columns = interpolate_columns(
        alloc,
        domain.shift,
        domain.log_size,
        values,
        first,
        step,
        width,
        size,
    )?;
    Ok(columns)
}

/// The columns of a matrix that take its rows on the natural domain of its height, with as many
/// coefficients as the domain points: interpolation, with zeros behind. The height is a power of
/// two and at most the domain's size. It is Err only where memory was refused.
pub fn columns_of<F: TwoAdicField>(
    alloc: Global,
    domain: &Coset<F>,
    matrix: &RowMajorMatrix<F>,
) -> Result<Vec<Vec<F>>, AllocError>
    requires power { IsPowerOfTwo (height_of matrix.now) }
    requires room { height_of matrix.now
        ≤ coset_size (coset_from domain.now.shift domain.now.log_size) }
    ensures full { IfOk result (λ columns.
        AreFull (coset_from domain.now.shift domain.now.log_size) (columns_list columns)) }
    ensures rows { IfOk result (λ columns.
        TakeMatrix F.ring F.root matrix.now (columns_list columns)) }
    ensures plain { IfOk result (λ columns. ArePlain F.ring matrix.now (columns_list columns)) }
{
    let natural = Coset::subgroup(log2_strict_usize(matrix.height()));
    let columns = interpolated_columns(
        alloc,
        &natural,
        &matrix.values,
        0,
        matrix.width,
        matrix.width,
        domain.size(),
    )?;
    Ok(columns)
}
