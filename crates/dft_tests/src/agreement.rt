//! Transforms of any size against values point by point, and back again.
use crate::calls::{
    Places, columns_of_values, group_of, one_of_values, rows_of_values, values_of_columns,
    values_of_one, values_of_rows,
};
use stark_support::{Field, TwoAdicField, polynomial_value, power_of};
use std::alloc::{AllocError, Global};
use std::test::Fail;

/// Columns of `size` coefficients that look as if drawn.
fn some_columns<F: Field>(
    alloc: Global,
    width: usize,
    size: usize,
) -> Result<Vec<Vec<F>>, AllocError> {
    let mut next = F::ONE;
    let mut columns = Vec::new(alloc);
    for _column in 0..width {
        let mut column = Vec::new(alloc);
        for _place in 0..size {
            column.push(next)?;
            next = next * F::GENERATOR + F::ONE;
        }
        columns.push(column)?;
    }
    Ok(columns)
}

/// Whether the values from a place on are the columns' at a point.
fn is_row<F: Field>(columns: &[Vec<F>], point: F, values: &[F], place: usize) -> bool {
    let mut at = place;
    for column in columns {
        if values.get(at).copied() != Some(polynomial_value(column, point)) {
            return false;
        }
        at = at.saturating_add(1);
    }
    true
}

/// How many rows were compared with the columns' values at their points, each `step`-th one; None
/// where one differs.
fn rows_compared<F: TwoAdicField>(
    columns: &[Vec<F>],
    shift: F,
    generator: F,
    values: &[F],
    size: usize,
    step: usize,
) -> Option<usize> {
    let mut count: usize = 0;
    for row in 0..size {
        if row.checked_rem(step)? == 0 {
            let point = shift * power_of(generator, row as u64);
            if !is_row(columns, point, values, row.checked_mul(columns.len())?) {
                return None;
            }
            count = count.checked_add(1)?;
        }
    }
    Some(count)
}

/// Whether coefficients row after row, and the first column alone, are transformed as columns are.
fn same_in_rows<F: TwoAdicField>(
    alloc: Global,
    shift: F,
    log_size: usize,
    columns: &[Vec<F>],
    values: &[F],
) -> Result<bool, AllocError> {
    let width = columns.len();
    let Some(rows) = rows_of_values(alloc, shift, log_size, width, values)? else {
        return Ok(false);
    };
    let again = values_of_rows(alloc, shift, log_size, width, &rows)?;
    let Some(first) = columns.first() else {
        return Ok(again.as_deref() == Some(values));
    };
    let Some(alone) = values_of_one(alloc, shift, log_size, first)? else {
        return Ok(false);
    };
    let back = one_of_values(alloc, shift, log_size, &alone)?;
    Ok(
        again.as_deref() == Some(values)
            && back.as_deref() == Some(first.as_slice())
            && alone.first() == values.first()
            && alone.get(1) == values.get(width),
    )
}

/// How many rows of one size and width were compared, each `step`-th one.
pub fn compared<F: TwoAdicField>(
    alloc: Global,
    shift: F,
    log_size: usize,
    width: usize,
    step: usize,
) -> Result<usize, Fail> {
    let (size, generator) = group_of::<F>(log_size).ok_or("no such coset")?;
    let columns = some_columns::<F>(alloc, width, size)?;
    let values = values_of_columns(alloc, shift, log_size, &columns)?.ok_or("they don't fit")?;
    let count = rows_compared(&columns, shift, generator, &values, size, step).ok_or(
        "a value isn't the column's",
    )?;
    let places = Places {
        first: 0,
        step: width,
        width,
    };
    let back = columns_of_values(alloc, shift, log_size, &values, &places, size)?.ok_or(
        "the matrix isn't whole",
    )?;
    if back != columns {
        return Err(Fail::new("other coefficients came back"));
    }
    if !same_in_rows(alloc, shift, log_size, &columns, &values)? {
        return Err(Fail::new("rows differ from columns"));
    }
    Ok(count)
}
