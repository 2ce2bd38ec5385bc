//! Opened values in JSON.
ghost use Rattle.std.specs.Prelude.{◌≡◌, IfOk, option_map};
ghost use Rattle.serde_json.specs.View.{view};
ghost use Rattle.stark_proof.specs.ProofJson.{Decodes, openings_fault, openings_object, openings_read_back, openings_reading, openings_writing, preprocessed_rows, value_or_null, opened_rows, openings_of};
ghost use Rattle.stark_proof.specs.ProofView.{openings_view, preprocessed_view};
ghost use Rattle.stark_support.specs.JsonFacts.{list_written};

use crate::error::OpeningsDecodeError;
use crate::rows::{
    optional_row, required_row, required_rows, row_or_null, row_to_json, rows_to_json,
};
use crate::values::{OpenedValues, PreprocessedOpenedValues};
use serde_json::{Value, json};
use stark_support::JsonCodec;
use std::alloc::{AllocError, Global};

/// The preprocessed rows, put together.
fn preprocessed_rows<E: Drop>(
    local: Option<Vec<E>>,
    next: Option<Vec<E>>,
) -> Result<Option<PreprocessedOpenedValues<E>>, OpeningsDecodeError>
    ensures { Decodes (option_map preprocessed_view) openings_fault result
        (opened_rows local next) }
{
    let Some(local) = local else {
        return match next {
            Some(_) => Err(OpeningsDecodeError::NextWithoutCurrent),
            None => Ok(None),
        };
    };
    if local.is_empty() {
        return Err(OpeningsDecodeError::EmptyCurrent);
    }
    if let Some(row) = &next {
        if row.len() != local.len() {
            return Err(OpeningsDecodeError::WidthMismatch {
                local: local.len(),
                next: row.len(),
            });
        }
    }
    Ok(Some(PreprocessedOpenedValues { local, next }))
}

/// A row's elements, where there is one.
fn elements_of<E>(row: &Option<Vec<E>>) -> Option<&[E]>
    ensures { option_map (λ r. r.now) result ≡ option_map (λ r. r.items) row.now }
{
    match row {
        Some(row) => Some(row.as_slice()),
        None => None,
    }
}

impl<Challenge: JsonCodec + Drop> OpenedValues<Challenge> {
    /// The opened values that an object spells. Its fields are read in the order `trace_local`,
    /// `trace_next`, `preprocessed_local`, `preprocessed_next`, `quotient_chunks`, `random`, others
    /// are ignored, and the first fault is answered. A row is an array of elements,
    /// `quotient_chunks` an array of rows. `trace_local` and `quotient_chunks` are required; the
    /// other four are None where they are missing or null.
    ///
    /// - `WrongKind` with an empty name where the value isn't an object.
    /// - `MissingField` where a required field isn't there.
    /// - `WrongKind` where a field that is there, or a row of it, isn't an array.
    /// - `Element` where an element is refused.
    /// - After all fields: `NextWithoutCurrent` where the next preprocessed row stands alone,
    ///   `EmptyCurrent` where the current one has no element, `WidthMismatch` where the next one
    ///   has another number of elements.
    /// - `OutOfMemory` wherever a growth was refused.
    #[tactic(auto, unfolding(crate::specs::ProofJson::openings_reading))]
    pub fn from_json(
        alloc: Global,
        value: &Value,
    ) -> Result<OpenedValues<Challenge>, OpeningsDecodeError>
        ensures decoded { Decodes openings_view openings_fault result
            (openings_reading Challenge.reading (view value.now)) }
    {
        if !value.is_object() {
            return Err(OpeningsDecodeError::WrongKind { field: "" });
        }
        let trace_local = required_row(alloc, value, "trace_local")?;
        let trace_next = optional_row(alloc, value, "trace_next")?;
        let local = optional_row(alloc, value, "preprocessed_local")?;
        let next = optional_row(alloc, value, "preprocessed_next")?;
        let quotient_chunks = required_rows(alloc, value, "quotient_chunks")?;
        let random = optional_row(alloc, value, "random")?;
        let preprocessed = preprocessed_rows(local, next)?;
        Ok(OpenedValues {
            trace_local,
            trace_next,
            preprocessed,
            quotient_chunks,
            random,
        })
    }
}

/// The main columns' next row in JSON; null where there is none.
fn trace_next_to_json<Challenge: JsonCodec>(
    alloc: Global,
    opened_values: &OpenedValues<Challenge>,
) -> Result<Value, AllocError>
    ensures { IfOk result (λ value. view value
        ≡ value_or_null (list_written Challenge.writing)
        (openings_view opened_values.now).trace_next) }
{
    row_or_null(alloc, elements_of(&opened_values.trace_next))
}

fn openings_object(
    alloc: Global,
    trace_local: Value,
    trace_next: Value,
    preprocessed_local: Value,
    preprocessed_next: Value,
    quotient_chunks: Value,
    random: Value,
) -> Result<Value, AllocError>
    ensures { IfOk result (λ value. view value
        ≡ openings_of view trace_local trace_next preprocessed_local preprocessed_next
        quotient_chunks random) }
{
    json!(in alloc; {
        "trace_local": trace_local,
        "trace_next": trace_next,
        "preprocessed_local": preprocessed_local,
        "preprocessed_next": preprocessed_next,
        "quotient_chunks": quotient_chunks,
        "random": random,
    })
}

impl<Challenge: JsonCodec> OpenedValues<Challenge> {
    /// An object with all six keys; an absent row is null. It is read back as these values, unless
    /// they break the rule of the preprocessed rows: then that fault is found.
    #[tactic(auto, unfolding(crate::specs::ProofJson::openings_writing))]
    pub fn to_json(&self, alloc: Global) -> Result<Value, AllocError>
        ensures written { IfOk result (λ value. view value
            ≡ openings_writing Challenge.writing (openings_view self.now)) }
        ensures read_back { IfOk result (λ value. openings_reading Challenge.reading (view value)
            ≡ openings_read_back (openings_view self.now)) }
    {
        let trace_local = row_to_json(alloc, &self.trace_local)?;
        let trace_next = trace_next_to_json(alloc, self)?;
        let preprocessed_local = row_or_null(alloc, self.preprocessed_local())?;
        let preprocessed_next = row_or_null(alloc, self.preprocessed_next())?;
        let quotient_chunks = rows_to_json(alloc, &self.quotient_chunks)?;
        let random = row_or_null(alloc, elements_of(&self.random))?;
        let value = openings_object(
            alloc,
            trace_local,
            trace_next,
            preprocessed_local,
            preprocessed_next,
            quotient_chunks,
            random,
        )?;
        Ok(value)
    }
}
