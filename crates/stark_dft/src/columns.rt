//! Transforms of one polynomial, and of columns that are lists of their own.
ghost use Rattle.std.specs.Prelude.{◌≡◌, ◌≢◌, ◌<◌, ◌≤◌, ◌+◌, ◌*◌, ◌^◌, ℕ, All, IfOk, IsTrue, length, map};
ghost use Rattle.stark_support.specs.Coset.{AreValuesOn, TakesOn, coset_from};
ghost use Rattle.stark_support.specs.Polynomial.{HasDegreeBelow, value};
ghost use Rattle.stark_support.specs.Scheme.{HasRows};
ghost use Rattle.stark_dft.specs.Columns.{AreColumns, ArePicked, column_list, AreInRows};
ghost use Rattle.stark_dft.specs.Passes.{entry};
ghost use Rattle.stark_dft.specs.Strided.{strided};

use crate::transform::{evaluate_rows, evaluated, interpolate_rows, interpolated};
use stark_support::{Element, Field, TwoAdicField};
use std::alloc::{AllocError, Global};

/// The values of a polynomial at the `2^log_size` points of a coset, in the order of the points. It
/// may have fewer coefficients than there are points. `Err` only where memory is wanting.
pub fn evaluate_on_coset<F: TwoAdicField>(
    alloc: Global,
    shift: F,
    log_size: usize,
    coefficients: &[F],
) -> Result<Vec<F>, AllocError>
    requires within { log_size ≤ F.TWO_ADICITY }
    requires room { length coefficients.now ≤ 2 ^ log_size }
    ensures { IfOk result (λ values. TakesOn F.ring F.root (coset_from shift log_size)
        (value F.ring coefficients.now) values.items) }
{
    let values = evaluate_rows(alloc, shift, log_size, 1, coefficients)?;
    Ok(values)
}

/// The `2^log_size` coefficients of the polynomial that takes the values at the points of a coset,
/// whose shift isn't zero, in the order of the points. `Err` only where memory is wanting.
pub fn interpolate_on_coset<F: TwoAdicField>(
    alloc: Global,
    shift: F,
    log_size: usize,
    values: &[F],
) -> Result<Vec<F>, AllocError>
    requires within { log_size ≤ F.TWO_ADICITY }
    requires nonzero { shift ≢ F.ring.zero }
    requires size { length values.now ≡ 2 ^ log_size }
    ensures number { IfOk result (λ p. length p.items ≡ 2 ^ log_size) }
    ensures takes { IfOk result (λ p. AreValuesOn F.ring F.root
        (coset_from shift log_size)
        (2 ^ log_size) (value F.ring p.items) values.now) }
{
    let coefficients = interpolate_rows(alloc, shift, log_size, 1, values)?;
    Ok(coefficients)
}

/// The coefficient at a place; zero past the end.
fn coefficient<F: Field>(p: &[F], place: usize) -> F
    ensures { result ≡ entry F.ring p.now place }
{
    if place < p.len() { p[place] } else { F::ZERO }
}

/// The first `height` coefficients of columns, row after row: row `t` has those of `x^t`; zeros
/// where a column has ended.
fn coefficient_rows<F: Field>(
    alloc: Global,
    columns: &[Vec<F>],
    height: usize,
) -> Result<Vec<F>, AllocError>
    ensures number { IfOk result (λ rows. length rows.items ≡ length columns.now * height) }
    ensures each { IfOk result (λ rows.
        AreInRows F.ring (map column_list columns.now) (length columns.now) height rows.items) }
{
    let mut rows = Vec::with_capacity(alloc, columns.len().saturating_mul(height))?;
    for place in 0..height {
        for column in columns {
            rows.push(coefficient(column, place))?;
        }
    }
    Ok(rows)
}

/// Whether each column has at most `size` coefficients, as `evaluate_columns` asks of its columns.
pub fn columns_fit<F>(columns: &[Vec<F>], size: usize) -> bool
    ensures fit { IsTrue result → All (HasDegreeBelow size) (map column_list columns.now) }
    ensures none_longer { All (HasDegreeBelow size) (map column_list columns.now) → IsTrue result }
{
    for column in columns {
        if column.len() > size {
            return false;
        }
    }
    true
}

/// The values of columns at the `2^log_size` points of a coset, row after row: row `i` has each
/// column's value at point `i`. Columns may have fewer coefficients than there are points, and
/// other numbers than one another. `Err` only where memory is wanting.
pub fn evaluate_columns<F: TwoAdicField>(
    alloc: Global,
    shift: F,
    log_size: usize,
    columns: &[Vec<F>],
) -> Result<Vec<F>, AllocError>
    requires within { log_size ≤ F.TWO_ADICITY }
    requires room { All (HasDegreeBelow (2 ^ log_size)) (map column_list columns.now) }
    ensures { IfOk result (λ values. HasRows F.ring F.root
        (coset_from shift log_size)
        (map column_list columns.now) values.items (length columns.now)) }
{
    let rows = coefficient_rows(alloc, columns, 1 << log_size)?;
    let values = evaluated(alloc, shift, log_size, columns.len(), rows)?;
    Ok(values)
}

/// A matrix that lies in a list, row after row: row `r` has the `width` values from `first + r *
/// step` on.
pub(crate) fn picked_rows<F: Copy>(
    alloc: Global,
    values: &[F],
    first: usize,
    step: usize,
    width: usize,
    height: usize,
) -> Result<Vec<F>, AllocError>
    requires { (c r : ℕ) → c < width → r < height
        → first + c + r * step < length values.now }
    ensures { IfOk result (λ rows.
        ArePicked values.now first step width (height * width) rows.items) }
{
    let mut rows = Vec::with_capacity(alloc, width.saturating_mul(height))?;
    for row in 0..height {
        for column in 0..width {
            rows.push(values[first + column + row * step])?;
        }
    }
    Ok(rows)
}

/// The values at `first`, `first + step`, and so on, `count` of them, as coefficients; zeros behind
/// up to `size`.
fn strided_column<F: Field>(
    alloc: Global,
    rows: &[F],
    first: usize,
    step: usize,
    count: usize,
    size: usize,
) -> Result<Vec<F>, AllocError>
    requires inside { (i : ℕ) → i < count → first + i * step < length rows.now }
    requires room { count ≤ size }
    ensures number { IfOk result (λ p. length p.items ≡ size) }
    ensures values { IfOk result (λ p. (x : F)
        → value F.ring p.items x ≡ value F.ring (strided (entry F.ring rows.now) first step count)
        x) }
{
    let mut p = Vec::with_capacity(alloc, size)?;
    for i in 0..count {
        p.push(rows[first + i * step])?;
    }
    for _place in count..size {
        p.push(F::ZERO)?;
    }
    Ok(p)
}

/// For each of `width` columns the polynomial that takes, at point `r` of a coset whose shift isn't
/// zero, the value at place `first + column + r * step` of a list. It has as many coefficients as
/// the coset has points, `2^log_size`, and zeros behind them up to `size`. So a matrix that stands
/// row after row is interpolated with `first` 0 and its width as the step, and every n-th row of it
/// with n times its width as the step. `Err` only where memory is wanting.
pub fn interpolate_columns<F: TwoAdicField>(
    alloc: Global,
    shift: F,
    log_size: usize,
    values: &[F],
    first: usize,
    step: usize,
    width: usize,
    size: usize,
) -> Result<Vec<Vec<F>>, AllocError>
    requires adicity { log_size ≤ F.TWO_ADICITY }
    requires nonzero { shift ≢ F.ring.zero }
    requires room { 2 ^ log_size ≤ size }
    requires within { (c r : ℕ) → c < width → r < 2 ^ log_size
        → first + c + r * step < length values.now }
    ensures { IfOk result (λ columns. AreColumns F.ring F.root
        (coset_from shift log_size)
        values.now first step width size (map column_list columns.items)) }
{
    let height = 1 << log_size;
    let rows = picked_rows(alloc, values, first, step, width, height)?;
    let coefficients = interpolated(alloc, shift, log_size, width, rows)?;
    let mut columns = Vec::new(alloc);
    for column in 0..width {
        let p = strided_column(alloc, &coefficients, column, width, height, size)?;
        columns.push(p)?;
    }
    Ok(columns)
}
