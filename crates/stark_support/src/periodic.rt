//! Periodic columns.
ghost use Rattle.std.specs.Prelude.{◌≡◌, ◌≤◌, ◌%◌, ℕ, None, Some, All, IfOk, length, map, vec_len};
ghost use Rattle.std.specs.Int.{IsPowerOfTwo};
ghost use Rattle.stark_support.specs.Periodic.{ColumnFits, column_fault, first_fault, periodic_value, FitsOrFault, TakeEntries, periodic_values};
ghost use Rattle.stark_support.specs.Powers.{power};
ghost use Rattle.stark_support.specs.TwoAdic.{HasOrder};

use crate::field::{ExtensionField, Field};
use crate::folding::value_through;
use crate::powers::power_of;
use std::alloc::{AllocError, Global};
use thiserror::Error;

/// Why a periodic column fits no trace of the given length; the first column at fault is named, and
/// of its faults the first in this order.
#[derive(Debug, Drop, Error)]
pub enum PeriodicColumnShapeError {
    /// The column has no value.
    #[error("periodic column {column} is empty")]
    Empty { column: usize },
    /// The column's length isn't a power of two.
    #[error("the length of periodic column {column} is no power of two")]
    NotPowerOfTwo { column: usize },
    /// The column is longer than the trace.
    #[error("periodic column {column} is longer than the trace")]
    TooLong { column: usize },
}

/// Columns that repeat down a trace of `trace_len` rows: the length of each is a power of two from
/// 1 to `trace_len`.
#[derive(Drop)]
pub struct PeriodicColumns<'a, F> {
    pub columns: &'a [Vec<F>],
    pub trace_len: usize,
    pub ghost fit: { All (λ column. ColumnFits trace_len (vec_len column)) columns.now },
}

/// What is wrong with a column of this number and length.
fn column_fault(trace_len: usize, column: usize, length: usize) -> Option<PeriodicColumnShapeError>
    ensures { result ≡ column_fault trace_len column length }
{
    if length == 0 {
        return Some(PeriodicColumnShapeError::Empty { column });
    }
    if !length.is_power_of_two() {
        return Some(PeriodicColumnShapeError::NotPowerOfTwo { column });
    }
    if length > trace_len {
        return Some(PeriodicColumnShapeError::TooLong { column });
    }
    None
}

/// The fault of the first column that has one.
fn first_fault<F>(columns: &[Vec<F>], trace_len: usize) -> Option<PeriodicColumnShapeError>
    ensures { result ≡ first_fault trace_len 0 (map vec_len columns.now) }
{
    for (index, column) in columns.iter().enumerate() {
        let fault = column_fault(trace_len, index, column.len());
        if fault.is_some() {
            return fault;
        }
    }
    None
}

impl<'a, F> PeriodicColumns<'a, F> {
    /// The columns beside a trace of `trace_len` rows. Err with the fault of the first column that
    /// has one: `Empty`, `NotPowerOfTwo` or `TooLong`, tested in this order. It takes no memory.
    pub fn new(
        columns: &'a [Vec<F>],
        trace_len: usize,
    ) -> Result<PeriodicColumns<'a, F>, PeriodicColumnShapeError>
        ensures columns { IfOk result (λ fitting. fitting.columns.now ≡ columns.now) }
        ensures trace_len { IfOk result (λ fitting. fitting.trace_len ≡ trace_len) }
        ensures powers { IfOk result (λ fitting.
            All (λ column. IsPowerOfTwo (vec_len column)) fitting.columns.now) }
        ensures within { IfOk result (λ fitting.
            All (λ column. vec_len column ≤ trace_len) fitting.columns.now) }
        ensures fault { FitsOrFault trace_len (map vec_len columns.now) result }
    {
        match first_fault(columns, trace_len) {
            Some(fault) => Err(fault),
            None => Ok(PeriodicColumns { columns, trace_len }),
        }
    }
}

/// The value at `point` of a column that repeats down `height` rows, whose domain `generator`
/// generates. It takes a time that grows with the column's length.
fn periodic_value<F: Field, EF: ExtensionField<F>>(
    alloc: Global,
    column: &[F],
    generator: F,
    height: usize,
    point: EF,
) -> Result<EF, AllocError>
    requires order { HasOrder F.ring generator height }
    requires height { IsPowerOfTwo height }
    requires power { IsPowerOfTwo (length column.now) }
    requires within { length column.now ≤ height }
    ensures { IfOk result (λ value. value
        ≡ periodic_value F.ring F.inverse_of generator height EF.ring EF.embed column.now point) }
{
    let repeats = (height / column.len()) as u64;
    let value = value_through(
        alloc,
        power_of(generator, repeats),
        column,
        power_of(point, repeats),
    )?;
    Ok(value)
}

impl<F: Field> PeriodicColumns<'_, F> {
    /// The columns' values at `point`, where `generator` generates the domain of the trace: of a
    /// column of length `P` beside `N` rows that is the value at `point^(N/P)` of the polynomial of
    /// degree below `P` that takes the column on the group of `P` points. So at the point of row
    /// `i` it is the column's entry `i`, counted round its end. It takes a time that grows with the
    /// columns' lengths, and as much memory as the longest.
    pub fn values_at<EF: ExtensionField<F>>(
        &self,
        alloc: Global,
        generator: F,
        point: EF,
    ) -> Result<Vec<EF>, AllocError>
        requires order { HasOrder F.ring generator self.now.trace_len }
        requires height { IsPowerOfTwo self.now.trace_len }
        ensures values { IfOk result (λ v. v.items
            ≡ periodic_values F.ring F.inverse_of generator self.now.trace_len EF.ring EF.embed
            self.now.columns.now point) }
        ensures rows { IfOk result (λ v. (i : ℕ) → point ≡ EF.embed (power F.ring generator i)
            → TakeEntries EF.embed F.ring.zero self.now.columns.now i v.items) }
    {
        let mut values = Vec::new(alloc);
        for column in self.columns {
            values.push(periodic_value(alloc, column, generator, self.trace_len, point)?)?;
        }
        Ok(values)
    }
}
