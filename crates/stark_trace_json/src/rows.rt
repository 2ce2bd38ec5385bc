//! The rows of a trace that a JSON text spells.
ghost use Rattle.stark_trace_json.specs.Faults.{GivesRows};

use crate::fault::RowsFault;
use crate::table::read_table;
use crate::tree::rows_of_tree;
use stark_support::JsonCodec;
use std::alloc::Global;

/// The rows of a trace, all of one length.
#[derive(Debug, Drop)]
pub struct TraceRows<F> {
    /// The values, one row after the other.
    pub values: Vec<F>,
    /// How many rows there are.
    pub height: usize,
    /// How many values each has; 0 where there are none.
    pub width: usize,
}

/// The rows of a trace that the bytes of a JSON text spell, an array of arrays of elements, all of
/// one length; or the first fault, in this order: `NoJson` where the text is no JSON, `NoArray`
/// where it is no array, `NoRow` and `NoElement` at the first row that isn't one of elements,
/// `Uneven` at the first row of another length than row 0. `OutOfMemory` where memory was refused.
/// Rows of one length, of whole numbers below 2^63, are read in one pass into their values, and any
/// other text into the tree of its values first.
pub fn rows_from_bytes<F: JsonCodec + Copy>(
    alloc: Global,
    bytes: &[u8],
) -> Result<TraceRows<F>, RowsFault>
    ensures { GivesRows F.reading bytes.now result }
{
    let Ok(_text) = std::str::from_utf8(bytes) else {
        return Err(RowsFault::NoJson);
    };
    match read_table(alloc, bytes)? {
        Some(rows) => Ok(rows),
        None => rows_of_tree(alloc, bytes),
    }
}
