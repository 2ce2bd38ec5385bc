//! Rows of values of columns, at points and on domains.
ghost use Rattle.std.specs.Prelude.{◌≡◌, IfOk, map};
ghost use Rattle.std.specs.List.{flat_map};
ghost use Rattle.stark_support.specs.Scheme.{row_at};
ghost use Rattle.stark_support.specs.Coset.{coset_from};
ghost use Rattle.stark_columns.specs.Columns.{column_list, columns_list};
ghost use Rattle.stark_columns.specs.Opened.{AreRowsOf, matrices_at};
ghost use Rattle.stark_columns.specs.ColumnPoints.{HasRowsOf};

use crate::columns::domain_points;
use crate::powers::{column_value, point_powers};
use stark_bench::Coset;
use stark_dft::{columns_fit, evaluate_columns};
use stark_support::{
    DomainShape, ExtensionField, Field, PolynomialSpace, RowMajorMatrix, TwoAdicField,
    polynomial_value,
};
use std::alloc::{AllocError, Global};

/// The values of the columns at a point.
fn row_at<F: Field, EF: ExtensionField<F>>(
    alloc: Global,
    columns: &[Vec<F>],
    point: EF,
) -> Result<Vec<EF>, AllocError>
    ensures { IfOk result (λ row. row.items
        ≡ row_at EF.ring EF.embed (map column_list columns.now) point) }
{
    let powers = point_powers::<F, EF>(alloc, columns, point)?;
    let mut row = Vec::new(alloc);
    for column in columns {
        row.push(column_value::<F, EF>(column, point, &powers))?;
    }
    Ok(row)
}

fn rows_at<F: Field, EF: ExtensionField<F>>(
    alloc: Global,
    columns: &[Vec<F>],
    points: &[EF],
) -> Result<Vec<Vec<EF>>, AllocError>
    ensures { IfOk result (λ rows. map (λ row. row.items) rows.items
        ≡ map (row_at EF.ring EF.embed (map column_list columns.now)) points.now) }
{
    let mut rows = Vec::new(alloc);
    for point in points {
        let row = row_at::<F, EF>(alloc, columns, *point)?;
        rows.push(row)?;
    }
    Ok(rows)
}

/// For each matrix, by its columns, their values at each of its points, a row a point; as many
/// matrices as there are of both.
pub fn matrices_at<F: Field, EF: ExtensionField<F>>(
    alloc: Global,
    matrices: &[Vec<Vec<F>>],
    points: &[Vec<EF>],
) -> Result<Vec<Vec<Vec<EF>>>, AllocError>
    ensures { IfOk result (λ opened. map columns_list opened.items
        ≡ matrices_at EF.ring EF.embed (map columns_list matrices.now)
        (map column_list points.now)) }
{
    let mut opened = Vec::new(alloc);
    for i in 0..matrices.len().min(points.len()) {
        let rows = rows_at::<F, EF>(alloc, &matrices[i], &points[i])?;
        opened.push(rows)?;
    }
    Ok(opened)
}

/// The values of the columns at points, a row a point, one row after the other.
pub fn values_on<F: Field>(
    alloc: Global,
    columns: &[Vec<F>],
    points: &[F],
) -> Result<Vec<F>, AllocError>
    ensures { IfOk result (λ values. values.items
        ≡ flat_map (row_at F.ring (λ c. c) (map column_list columns.now)) points.now) }
{
    let mut values = Vec::new(alloc);
    for point in points {
        for column in columns {
            values.push(polynomial_value(column, *point))?;
        }
    }
    Ok(values)
}

/// The values of columns at the domain's points, a row a point, one row after the other: by a
/// transform, where no column has more coefficients than the domain has points.
fn domain_values<F: TwoAdicField>(
    alloc: Global,
    columns: &[Vec<F>],
    domain: &Coset<F>,
) -> Result<Vec<F>, AllocError>
    ensures { IfOk result (λ values. HasRowsOf F.ring F.root
        (coset_from domain.now.shift domain.now.log_size) columns.now values.items) }
{
    if columns_fit(columns, domain.size()) {
        let values = evaluate_columns(alloc, domain.shift, domain.log_size, columns)?;
        return Ok(values);
    }
    let points = domain_points(alloc, domain)?;
    let values = values_on(alloc, columns, &points)?;
    Ok(values)
}

/// The values of the columns of the matrix `index` at the domain's points, a row a point; where
/// there is no such matrix, no rows. It is Err only where memory was refused.
pub fn rows_on<F: TwoAdicField>(
    alloc: Global,
    matrices: &[Vec<Vec<F>>],
    index: usize,
    domain: &Coset<F>,
) -> Result<RowMajorMatrix<F>, AllocError>
    ensures { IfOk result (λ rows. AreRowsOf F.ring F.root
        (coset_from domain.now.shift domain.now.log_size) (map columns_list matrices.now) index
        rows) }
{
    if index >= matrices.len() {
        return Ok(RowMajorMatrix::new(Vec::new(alloc), 0));
    }
    let columns = &matrices[index];
    let values = domain_values(alloc, columns, domain)?;
    Ok(RowMajorMatrix::new(values, columns.len()))
}
