//! The shape of a trace that was read, and its values.

ghost use Rattle.std.specs.Prelude.{◌≡◌, ◌≢◌, ◌≤◌, ◌^◌, ℕ, IfOk, IfSome, IsNone, map};
ghost use Rattle.std.specs.List.{flat_map};
ghost use Rattle.stark_answers.specs.TraceShape.{FitsShape, rows_of};

use crate::shape::{CheckShape, have_length};
use std::alloc::{AllocError, Global};

/// The logarithm of the height of a trace of these rows, where it is a power of two from 1 to
/// `2^greatest`, and `2^log_rows` beside preprocessed columns, and the rows are as wide and the
/// public values as many as those of the shape; else None.
pub fn log_height_of_rows<F>(
    rows: &[Vec<F>],
    public_values: &[F],
    shape: CheckShape,
    log_rows: usize,
    greatest: usize,
) -> Option<usize>
    requires { greatest ≤ 63 }
    ensures some { IfSome result (FitsShape shape log_rows greatest (rows_of rows.now)
        public_values.now) }
    ensures none { IsNone result → (log_height : ℕ)
        → FitsShape shape log_rows greatest (rows_of rows.now) public_values.now log_height → ⊥ }
{
    if public_values.len() != shape.num_public_values {
        return None;
    }
    if !have_length(rows, shape.width) {
        return None;
    }
    let log_height = log_of_height(rows.len(), greatest)?;
    if shape.preprocessed_width > 0 && log_height != log_rows {
        return None;
    }
    Some(log_height)
}

/// The logarithm of a power of two from 1 to `2^greatest`; None for another number.
pub fn log_of_height(height: usize, greatest: usize) -> Option<usize>
    requires { greatest ≤ 63 }
    ensures some { IfSome result (λ n. height ≡ 2 ^ n) }
    ensures within { IfSome result (λ n. n ≤ greatest) }
    ensures none { IsNone result → (n : ℕ) → n ≤ greatest → height ≢ 2 ^ n }
{
    for log_height in 0..greatest + 1 {
        if height == 1 << log_height {
            return Some(log_height);
        }
    }
    None
}

/// The values of rows, one row after the other.
pub fn values_of<F: Copy>(alloc: Global, rows: &[Vec<F>]) -> Result<Vec<F>, AllocError>
    ensures { IfOk result (λ values. values.items
        ≡ flat_map (λ row. row) (map (λ row. row.items) rows.now)) }
{
    let mut values = Vec::new(alloc);
    for row in rows {
        values.extend_from_slice(row)?;
    }
    Ok(values)
}
