//! Tables of periodic columns' values, by transforms.
ghost use Rattle.std.specs.Prelude.{◌≡◌, ◌≤◌, ◌<◌, ◌%◌, ◌^◌, ℕ, List, Some, IfOk, length, map};
ghost use Rattle.std.specs.Int.{IsPowerOfTwo};
ghost use Rattle.std.specs.List.{slice_get};
ghost use Rattle.stark_support.specs.Coset.{coset_size, TakesOn, coset_from};
ghost use Rattle.stark_support.specs.Polynomial.{value};
ghost use Rattle.stark_dft.specs.Columns.{column_list};
ghost use Rattle.stark_dft.specs.Repeated.{AreRowsOf, row_round, IsExtended, AreColumnsExtended};
ghost use Rattle.stark_support.specs.SchemeClauses.{IsTableOver};

use crate::columns::{evaluate_on_coset, interpolate_on_coset, picked_rows};
use stark_support::{
    Element, Field, PeriodicColumns, PeriodicLdeTable, PolynomialSpace, TwoAdicField,
    log2_strict_usize, squared_times,
};
use std::alloc::{AllocError, Global};

/// The values of a polynomial at the points of a coset, of which there may be fewer than it has
/// coefficients: they are then among its values on a coset of `2^log_degree` points.
fn values_on_part<F: TwoAdicField>(
    alloc: Global,
    shift: F,
    log_size: usize,
    log_degree: usize,
    coefficients: &[F],
) -> Result<Vec<F>, AllocError>
    requires size { log_size ≤ F.TWO_ADICITY }
    requires degree { log_degree ≤ F.TWO_ADICITY }
    requires room { length coefficients.now ≤ 2 ^ log_degree }
    ensures { IfOk result (λ values. TakesOn F.ring F.root (coset_from shift log_size)
        (value F.ring coefficients.now) values.items) }
{
    let log_whole = log_size.max(log_degree);
    let whole = evaluate_on_coset(alloc, shift, log_whole, coefficients)?;
    let step = 1 << (log_whole - log_size);
    let values = picked_rows(alloc, &whole, 0, step, 1, 1 << log_size)?;
    Ok(values)
}

/// The values of a column, which repeats down `2^log_height` rows, at the points of a coset, as far
/// as they differ: those of the column's polynomial at the points' powers, which are a coset too.
fn extended_column<F: TwoAdicField>(
    alloc: Global,
    column: &[F],
    log_height: usize,
    shift: F,
    log_size: usize,
) -> Result<Vec<F>, AllocError>
    requires height { log_height ≤ F.TWO_ADICITY }
    requires size { log_size ≤ F.TWO_ADICITY }
    requires power { IsPowerOfTwo (length column.now) }
    requires within { length column.now ≤ 2 ^ log_height }
    ensures power { IfOk result (λ values. IsPowerOfTwo (length values.items)) }
    ensures rows { IfOk result (λ values.
        IsExtended F.ring F.inverse_of F.root log_height (coset_from shift log_size) column.now
        values.items) }
{
    let log_column = log2_strict_usize(column.len());
    let log_repeats = log_height - log_column;
    let coefficients = interpolate_on_coset(alloc, F::ONE, log_column, column)?;
    let values = values_on_part(
        alloc,
        squared_times(shift, log_repeats),
        log_size.saturating_sub(log_repeats),
        log_column,
        &coefficients,
    )?;
    Ok(values)
}

/// The values of each column at the points of a coset, as far as they differ.
fn extended_columns<F: TwoAdicField>(
    alloc: Global,
    columns: &PeriodicColumns<'_, F>,
    log_height: usize,
    shift: F,
    log_size: usize,
) -> Result<Vec<Vec<F>>, AllocError>
    requires height { log_height ≤ F.TWO_ADICITY }
    requires size { log_size ≤ F.TWO_ADICITY }
    requires rows { columns.now.trace_len ≡ 2 ^ log_height }
    ensures { IfOk result (λ lists. AreColumnsExtended F.ring F.inverse_of F.root log_height
        (coset_from shift log_size) columns.now.columns.now lists.items) }
{
    let mut extended = Vec::new(alloc);
    for column in columns.columns {
        let values = extended_column(alloc, column, log_height, shift, log_size)?;
        extended.push(values)?;
    }
    Ok(extended)
}

/// The greatest length, and one where there is no list.
fn longest<F>(lists: &[Vec<F>]) -> usize
    requires { (c : ℕ) (list : List F) → slice_get (map column_list lists.now) c ≡ Some list
        → IsPowerOfTwo (length list) }
    ensures power { IsPowerOfTwo result }
    ensures none_longer { (c : ℕ) (list : List F)
        → slice_get (map column_list lists.now) c ≡ Some list → length list ≤ result }
{
    let mut longest: usize = 1;
    for list in lists {
        longest = longest.max(list.len());
    }
    longest
}

/// Rows of a value of each list, the one at the row's number counted round the list's end.
fn rows_round<F: Field>(alloc: Global, lists: &[Vec<F>], count: usize) -> Result<Vec<F>, AllocError>
    requires { (c : ℕ) (list : List F) → slice_get (map column_list lists.now) c ≡ Some list
        → 0 < length list }
    ensures { IfOk result (λ rows. AreRowsOf (length lists.now)
        (row_round F.ring (map column_list lists.now)) count rows.items) }
{
    let mut rows = Vec::new(alloc);
    for row in 0..count {
        for list in lists {
            rows.push(list[row % list.len()])?;
        }
    }
    Ok(rows)
}

/// The values of the columns, which repeat down a trace on `trace_domain`, at each point of
/// `quotient_domain`. A column of `P` values beside `N` rows is interpolated on the group of `P`
/// points, and its polynomial is evaluated on the coset of the points' powers by `N/P`, both by
/// transforms. The table has as many rows as the longest list of such values, after which all begin
/// again. Err only where memory was refused.
pub fn periodic_lde_table<D: PolynomialSpace>(
    alloc: Global,
    columns: &PeriodicColumns<'_, D::Val>,
    trace_domain: &D,
    quotient_domain: &D,
) -> Result<PeriodicLdeTable<D::Val>, AllocError>
    requires { columns.now.trace_len ≡ coset_size (D.coset_of trace_domain.now) }
    ensures { IfOk result (IsTableOver D.Val.ring D.Val.inverse_of D.Val.root D.coset_of
        trace_domain.now quotient_domain.now columns.now) }
{
    let log_height = log2_strict_usize(trace_domain.size());
    let log_size = log2_strict_usize(quotient_domain.size());
    let shift = quotient_domain.first_point();
    let extended = extended_columns(alloc, columns, log_height, shift, log_size)?;
    let period = longest(&extended);
    let values = rows_round(alloc, &extended, period)?;
    Ok(PeriodicLdeTable::new(values, extended.len(), period))
}
