//! The numbers of a check, read from JSON.

ghost use Rattle.std.specs.Prelude.{◌≡◌, ◌≤◌, IfOk};
ghost use Rattle.serde_json.specs.View.{view};
ghost use Rattle.stark_support.specs.Json.{Gives};
ghost use Rattle.stark_commands.specs.Input.{log_height_at, numbers_at, numbers_in, has_shape, row_or_zeros, zeros};
ghost use Rattle.stark_commands.specs.Numbers.{numbers};

use serde_json::Value;
use stark_answers::{CheckShape, have_length};
use stark_bench::{Ext4, F12289};
use stark_support::{
    Field, JsonCodec, JsonFault, field_of, list_from_json, lists_from_json, value_from_bytes,
};
use std::alloc::{AllocError, Global};

/// An element of the extension in which a check is made.
pub type Extension = Ext4<F12289>;

/// The numbers of a check.
#[derive(Debug, Drop)]
pub struct CheckInput {
    /// The exponent of the size of the trace's domain.
    pub log_height: u64,
    /// The public values.
    pub public_values: Vec<F12289>,
    /// The row of the trace at the point.
    pub local: Vec<Extension>,
    /// The row at the next point, zeros where it isn't read.
    pub next: Vec<Extension>,
    /// The row of the preprocessed columns at the point, empty without any.
    pub preprocessed_local: Vec<Extension>,
    /// The challenge that folds the constraints.
    pub alpha: Extension,
    /// The point.
    pub zeta: Extension,
    /// The coordinates of each chunk of the quotient at the point.
    pub chunks: Vec<Vec<Extension>>,
}

impl CheckInput {
    /// Whether the widths and counts are those of the shape, and each chunk has four coordinates.
    pub fn has_shape(&self, shape: CheckShape) -> bool
        ensures { result ≡ has_shape shape (numbers self.now) }
    {
        self.public_values.len() == shape.num_public_values
            && self.local.len() == shape.width
            && self.next.len() == shape.width
            && self.preprocessed_local.len() == shape.preprocessed_width
            && have_length(&self.chunks, 4)
    }
}

/// The logarithm of a height: a whole number of at most 12, as the field has no greater group.
#[tactic(auto, unfolding(crate::specs::Input::log_height_at))]
fn log_height_of(value: &Value) -> Result<u64, JsonFault>
    ensures number { Gives (λ n. n) result (log_height_at (view value.now)) }
    ensures bound { IfOk result (λ n. n ≤ 12) }
{
    let Some(number) = value.as_u64() else {
        return Err(JsonFault::Invalid);
    };
    if number > 12 {
        return Err(JsonFault::Invalid);
    }
    Ok(number)
}

/// A row of zeros.
pub fn zeros(alloc: Global, width: usize) -> Result<Vec<Extension>, AllocError>
    ensures { IfOk result (λ row. row.items ≡ zeros width) }
{
    let mut row = Vec::new(alloc);
    for _column in 0..width {
        row.push(Extension::ZERO)?;
    }
    Ok(row)
}

/// The row under a key where it is read, and else zeros.
#[tactic(auto, unfolding(crate::specs::Input::row_or_zeros))]
fn row_or_zeros(
    alloc: Global,
    value: &Value,
    key: &str,
    width: usize,
    is_read: bool,
) -> Result<Vec<Extension>, JsonFault>
    ensures { Gives (λ row. row.items) result
        (row_or_zeros key.now width is_read (view value.now)) }
{
    if is_read {
        list_from_json::<Extension>(alloc, field_of(value, key)?)
    } else {
        let row = zeros(alloc, width)?;
        Ok(row)
    }
}

/// The numbers that a JSON value has under their names.
#[tactic(auto, unfolding(crate::specs::Input::numbers_at))]
fn numbers_of(alloc: Global, shape: CheckShape, value: &Value) -> Result<CheckInput, JsonFault>
    ensures numbers { Gives numbers result (numbers_at shape (view value.now)) }
    ensures height { IfOk result (λ input. input.log_height ≤ 12) }
{
    let has_preprocessed = shape.preprocessed_width > 0;
    let log_height = log_height_of(field_of(value, "log_height")?)?;
    let public_values = list_from_json::<F12289>(alloc, field_of(value, "publics")?)?;
    let local = list_from_json::<Extension>(alloc, field_of(value, "local")?)?;
    let next = row_or_zeros(alloc, value, "next", shape.width, shape.reads_next)?;
    let preprocessed_local = row_or_zeros(alloc, value, "preprocessed_local", 0, has_preprocessed)?;
    let alpha = Extension::from_json(alloc, field_of(value, "alpha")?)?;
    let zeta = Extension::from_json(alloc, field_of(value, "zeta")?)?;
    let chunks = lists_from_json::<Extension>(alloc, field_of(value, "chunks")?)?;
    Ok(CheckInput {
        log_height,
        public_values,
        local,
        next,
        preprocessed_local,
        alpha,
        zeta,
        chunks,
    })
}

/// The numbers that the bytes spell.
#[tactic(auto, unfolding(crate::specs::Input::numbers_in))]
pub fn numbers_from(alloc: Global, shape: CheckShape, bytes: &[u8]) -> Result<CheckInput, JsonFault>
    ensures numbers { Gives numbers result (numbers_in shape bytes.now) }
    ensures height { IfOk result (λ input. input.log_height ≤ 12) }
{
    let value = value_from_bytes(alloc, bytes)?;
    numbers_of(alloc, shape, &value)
}
