//! The height of a trace.
ghost use Rattle.std.specs.Prelude.{◌≡◌, ℕ, ◌*◌, ◌^◌, ◌<◌, length};

use stark_support::{RowMajorMatrix, log2_strict_usize};

/// The logarithm of a trace's number of rows, a power of two.
pub fn log_height_of<F>(trace: &RowMajorMatrix<F>) -> usize
    requires columns { 0 < trace.now.width }
    requires height { (height : ℕ) × (length trace.now.values.items
        ≡ 2 ^ height * trace.now.width) }
    ensures { (height : ℕ) → length trace.now.values.items ≡ 2 ^ height * trace.now.width → result
        ≡ height }
{
    let rows = trace.height();
    log2_strict_usize(rows)
}
