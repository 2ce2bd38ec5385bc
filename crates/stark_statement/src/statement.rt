//! Statements.
ghost use Rattle.std.specs.Prelude.{◌≡◌, IfOk};
ghost use Rattle.serde_json.specs.View.{view};
ghost use Rattle.stark_support.specs.Json.{Gives, json_of};
ghost use Rattle.stark_json.specs.Apart.{joined, rows_apart};
ghost use Rattle.stark_statement.specs.Configuration.{IsWithinField};
ghost use Rattle.stark_statement.specs.StatementApart.{statement_apart, data_of, statement_path};
ghost use Rattle.stark_statement.specs.StatementJson.{Decodes, statement_in, statement_reading};
ghost use Rattle.stark_statement.specs.StatementView.{statement_view};

use crate::configuration::Configuration;
use crate::error::StatementError;
use crate::fields::{bits_at, height_at, required_air, required_public_values};
use crate::repeats::refuse_repeats;
use serde_json::Value;
use stark_json::{Document, NumberRows, document_from_bytes};
use stark_support::{Field, JsonCodec, JsonFault};
use stark_tree_air::TreeAir;
use std::alloc::Global;

/// What a verifier's owner fixes before he looks at a proof.
#[derive(Debug, Drop)]
pub struct Statement<F> {
    /// The field and the scheme that it is proved with.
    pub config: Configuration,
    /// The AIR that the trace is to satisfy.
    pub air: TreeAir<F>,
    /// The public values, as many as the AIR declares where the statement was read.
    pub public_values: Vec<F>,
    /// How many bits of work are asked for before alpha is drawn, 0 for none.
    pub alpha_bits: usize,
    /// How many bits of work are asked for before the out-of-domain point is drawn, 0 for none.
    pub ood_bits: usize,
    /// The logarithm of the trace's number of rows; None leaves it to the prover.
    pub log_height: Option<usize>,
}

/// The JSON of a statement, with the rows of its preprocessed columns apart where they can be.
pub fn statement_document(alloc: Global, bytes: &[u8]) -> Result<Document, JsonFault>
    ensures { Gives data_of result (json_of bytes.now) }
{
    document_from_bytes(alloc, bytes, &["air", "preprocessed", "rows"])
}

/// The statement that an object spells whose rows may be apart.
#[tactic(auto, unfolding(crate::specs::StatementApart::statement_apart))]
fn statement_of_parts<F: Field + JsonCodec>(
    alloc: Global,
    value: &Value,
    rows: &Option<NumberRows>,
) -> Result<Statement<F>, StatementError>
    ensures decoded { Decodes statement_view result
        (statement_apart F.reading (rows_apart rows.now) (view value.now)) }
    ensures fits { IfOk result (λ statement. IsWithinField statement.config) }
{
    let config = Configuration::from_statement(alloc, value)?;
    let air = required_air::<F>(alloc, value, "air", rows)?;
    let public_values = required_public_values(alloc, value)?;
    let alpha_bits = bits_at(value, "alpha_bits")?;
    let ood_bits = bits_at(value, "ood_bits")?;
    let log_height = height_at(value)?;
    let expected = air.declaration.columns.num_public_values;
    let got = public_values.len();
    if got != expected {
        return Err(StatementError::PublicValuesCount { expected, got });
    }
    Ok(Statement {
        config,
        air,
        public_values,
        alpha_bits,
        ood_bits,
        log_height,
    })
}

/// The statement that a value spells with the rows in their place.
fn statement_from_parts<F: Field + JsonCodec>(
    alloc: Global,
    value: &Value,
    rows: &Option<NumberRows>,
) -> Result<Statement<F>, StatementError>
    ensures decoded { Decodes statement_view result (statement_reading F.reading
        (joined statement_path (rows_apart rows.now) (view value.now))) }
    ensures fits { IfOk result (λ statement. IsWithinField statement.config) }
{
    statement_of_parts(alloc, value, rows)
}

impl<F: Field + JsonCodec> Statement<F> {
    /// The statement that an object spells, or its first fault. The fields are `config`,
    /// `air`, `public_values`, `alpha_bits`, `ood_bits` and `log_height`, read in this order; the
    /// configuration is that of `Configuration::from_statement`, the bits are 0 and no height is
    /// fixed where they are missing or null, and the rest is required. Whether `F` is the field
    /// that the configuration names is for the caller to see to.
    ///
    /// - `NotAnObject` where the value isn't an object.
    /// - `UnknownField` with the name where it has a member of another one, the first in the order
    ///   of the names.
    /// - `Config` or `UnknownConfigMember` where the configuration is refused.
    /// - `MissingField` where `air` or `public_values` isn't there.
    /// - `Air` with the fault of `TreeAir::from_json`.
    /// - `WrongKind` where `public_values` isn't an array, or bits or the height aren't a whole
    ///   number below 2^64.
    /// - `WorkTooLarge` with the field and its bits where they are more than 63, which no element
    ///   passes.
    /// - `PublicValue` with the index of the first public value that is refused.
    /// - `PublicValuesCount` after all fields, where the AIR declares another number of public
    ///   values.
    /// - `OutOfMemory` wherever an allocation was refused.
    pub fn from_json(alloc: Global, value: &Value) -> Result<Statement<F>, StatementError>
        ensures decoded { Decodes statement_view result
            (statement_reading F.reading (view value.now)) }
        ensures fits { IfOk result (λ statement. IsWithinField statement.config) }
    {
        statement_from_parts(alloc, value, &None)
    }

    /// The statement that a document spells, as `from_json` says it of the whole value.
    pub fn from_document(alloc: Global, document: &Document) -> Result<Statement<F>, StatementError>
        ensures decoded { Decodes statement_view result
            (statement_reading F.reading (data_of document.now)) }
        ensures fits { IfOk result (λ statement. IsWithinField statement.config) }
    {
        statement_from_parts(alloc, &document.value, &document.rows)
    }

    /// The statement that the JSON text of the bytes spells, or its first fault: `NotJson` where
    /// they are no JSON text, `RepeatedName` where an object of it has a name twice, or else that
    /// of `from_json`.
    #[tactic(auto, unfolding(crate::specs::StatementJson::statement_in))]
    pub fn from_slice(alloc: Global, bytes: &[u8]) -> Result<Statement<F>, StatementError>
        ensures decoded { Decodes statement_view result (statement_in F.reading bytes.now) }
    {
        match statement_document(alloc, bytes) {
            Ok(document) => {
                refuse_repeats(alloc, bytes)?;
                Statement::from_document(alloc, &document)
            }
            Err(JsonFault::Invalid) => Err(StatementError::NotJson),
            Err(JsonFault::OutOfMemory) => Err(StatementError::OutOfMemory),
        }
    }
}
