//! The input of `prove`, read from JSON.

ghost use Rattle.std.specs.Prelude.{ℕ, IfOk, IfSome, IsNone};
ghost use Rattle.serde_json.specs.View.{view};
ghost use Rattle.stark_support.specs.Json.{Gives};
ghost use Rattle.stark_commands.specs.ProofInput.{HasSomeNumber};
ghost use Rattle.stark_commands.specs.TraceInput.{HasTraceShape, trace_numbers, trace_numbers_at, trace_numbers_in};

use crate::proof_input::{ChosenChallenger, bits_from_json, challenger_from_json};
use serde_json::Value;
use stark_answers::{CheckShape, log_height_of_rows};
use stark_bench::F12289;
use stark_support::{JsonFault, field_of, list_from_json, lists_from_json, value_from_bytes};
use std::alloc::Global;

/// What `prove` reads.
#[derive(Debug, Drop)]
pub struct TraceInput {
    /// The rows of the trace.
    pub rows: Vec<Vec<F12289>>,
    pub public_values: Vec<F12289>,
    pub challenger: ChosenChallenger,
    /// How many bits of work are asked for before the point out of the domain.
    pub ood_bits: usize,
    /// How many bits of work are asked for before alpha.
    pub alpha_bits: usize,
}

impl TraceInput {
    /// The logarithm of the trace's height, where it is a power of two from 1 to 4096, and
    /// `2^log_rows` beside preprocessed columns, and the rows are as wide and the public values as
    /// many as those of the shape; else None.
    pub fn log_height(&self, shape: CheckShape, log_rows: usize) -> Option<usize>
        ensures some { IfSome result (HasTraceShape shape log_rows (trace_numbers self.now)) }
        ensures none { IsNone result → (log_height : ℕ)
            → HasTraceShape shape log_rows (trace_numbers self.now) log_height → ⊥ }
    {
        log_height_of_rows(&self.rows, &self.public_values, shape, log_rows, 12)
    }
}

/// What a JSON value has under the names `trace`, `publics`, `challenger`, `ood_bits` and
/// `alpha_bits`, of which the last two may be missing.
#[tactic(auto, unfolding(crate::specs::TraceInput::trace_numbers_at))]
fn trace_input_of(alloc: Global, value: &Value) -> Result<TraceInput, JsonFault>
    ensures reads { Gives trace_numbers result (trace_numbers_at (view value.now)) }
    ensures some { IfOk result (λ input. HasSomeNumber input.challenger) }
{
    let rows = lists_from_json::<F12289>(alloc, field_of(value, "trace")?)?;
    let public_values = list_from_json::<F12289>(alloc, field_of(value, "publics")?)?;
    let challenger = challenger_from_json(alloc, field_of(value, "challenger")?)?;
    let ood_bits = bits_from_json(value.get("ood_bits"))?;
    let alpha_bits = bits_from_json(value.get("alpha_bits"))?;
    Ok(TraceInput {
        rows,
        public_values,
        challenger,
        ood_bits,
        alpha_bits,
    })
}

/// What the bytes spell.
#[tactic(auto, unfolding(crate::specs::TraceInput::trace_numbers_in))]
pub fn trace_input_from(alloc: Global, bytes: &[u8]) -> Result<TraceInput, JsonFault>
    ensures reads { Gives trace_numbers result (trace_numbers_in bytes.now) }
    ensures some { IfOk result (λ input. HasSomeNumber input.challenger) }
{
    let value = value_from_bytes(alloc, bytes)?;
    trace_input_of(alloc, &value)
}
