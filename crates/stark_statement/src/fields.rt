//! The fields of a statement in JSON.
ghost use Rattle.std.specs.Prelude.{◌≡◌, IfSome, codes, ok_or};
ghost use Rattle.serde_json.specs.Find.{get};
ghost use Rattle.serde_json.specs.View.{view};
ghost use Rattle.stark_tree_air.specs.TreeJson.{air_view};
ghost use Rattle.stark_json.specs.Apart.{rows_apart};
ghost use Rattle.stark_statement.specs.StatementApart.{air_joined};
ghost use Rattle.stark_statement.specs.StatementJson.{Decodes, bits_at, config_members, given_bits, height_at, missing_field, public_values_at, required, statement_fault, statement_members, unknown_config_member, unknown_field};

use crate::configuration_error::ConfigurationError;
use crate::configuration_json::given_at;
use crate::error::StatementError;
use serde_json::Value;
use stark_json::{ElementsFault, NumberRows, QuotedName, elements_from_json, first_unknown};
use stark_support::{Field, JsonCodec};
use stark_tree_air::{TreeAir, TreeJsonError};
use std::alloc::Global;

/// The bits of work where a statement says nothing of them.
const NO_WORK: usize = 0;

/// The most bits of work that an element can pass: a check reads the last bits of a number of 64.
const MOST_WORK: usize = 63;

/// That a statement has a field of this name, which none has.
fn unknown_field(alloc: Global, name: &str) -> StatementError
    ensures { IfSome (statement_fault result) (λ fault. fault ≡ unknown_field name.now) }
{
    match QuotedName::new(alloc, name) {
        Ok(name) => StatementError::UnknownField { name },
        Err(_) => StatementError::OutOfMemory,
    }
}

/// Refuses what isn't an object, or has a member that no statement has.
pub(crate) fn check_members(alloc: Global, value: &Value) -> Result<(), StatementError>
    ensures { Decodes (λ nothing. nothing) result (statement_members (view value.now)) }
{
    let Some(members) = value.as_object() else {
        return Err(StatementError::NotAnObject);
    };
    let unknown = first_unknown(
        members,
        &[
            "config",
            "air",
            "public_values",
            "alpha_bits",
            "ood_bits",
            "log_height",
        ],
    );
    match unknown {
        Some(name) => Err(unknown_field(alloc, name)),
        None => Ok(()),
    }
}

/// That a configuration has a member of this name, which none has.
fn unknown_config_member(alloc: Global, name: &str) -> StatementError
    ensures { IfSome (statement_fault result) (λ fault. fault ≡ unknown_config_member name.now) }
{
    match QuotedName::new(alloc, name) {
        Ok(name) => StatementError::UnknownConfigMember { name },
        Err(_) => StatementError::OutOfMemory,
    }
}

/// Refuses a configuration that isn't an object, or has a member that none has.
pub(crate) fn check_config_members(alloc: Global, config: &Value) -> Result<(), StatementError>
    ensures { Decodes (λ nothing. nothing) result (config_members (view config.now)) }
{
    let Some(members) = config.as_object() else {
        return Err(StatementError::Config(ConfigurationError::NotAnObject));
    };
    let unknown = first_unknown(
        members,
        &[
            "field",
            "scheme",
            "log_blowup",
            "log_final_poly_len",
            "num_queries",
            "commit_proof_of_work_bits",
            "query_proof_of_work_bits",
        ],
    );
    match unknown {
        Some(name) => Err(unknown_config_member(alloc, name)),
        None => Ok(()),
    }
}

/// The value of a member that has to be there.
fn required<'a>(value: &'a Value, field: &'static str) -> Result<&'a Value, StatementError>
    ensures { Decodes (λ v. view v.now) result
        (ok_or (get field.now (view value.now)) (missing_field field.now)) }
{
    match value.get(field) {
        Some(member) => Ok(member),
        None => Err(StatementError::MissingField { field }),
    }
}

/// The AIR of its value, with the rows of preprocessed columns that were read apart from it.
fn air_at<F: Field + JsonCodec>(
    alloc: Global,
    value: &Value,
    rows: &Option<NumberRows>,
) -> Result<TreeAir<F>, StatementError>
    ensures { Decodes (λ air. air_view air.declaration air.list) result
        (air_joined F.reading (rows_apart rows.now) (view value.now)) }
{
    match TreeAir::from_parts(alloc, value, rows) {
        Ok(air) => Ok(air),
        Err(TreeJsonError::OutOfMemory) => Err(StatementError::OutOfMemory),
        Err(fault) => Err(StatementError::Air(fault)),
    }
}

/// The AIR under a required name, whose rows may be apart.
pub(crate) fn required_air<F: Field + JsonCodec>(
    alloc: Global,
    value: &Value,
    field: &'static str,
    rows: &Option<NumberRows>,
) -> Result<TreeAir<F>, StatementError>
    ensures { Decodes (λ air. air_view air.declaration air.list) result
        (required field.now (air_joined F.reading (rows_apart rows.now)) (view value.now)) }
{
    let member = required(value, field)?;
    air_at(alloc, member, rows)
}

/// The public values of an array.
fn public_values_at<F: JsonCodec + Copy>(
    alloc: Global,
    value: &Value,
) -> Result<Vec<F>, StatementError>
    ensures { Decodes (λ v. v.items) result (public_values_at F.reading (view value.now)) }
{
    let Some(values) = value.as_array() else {
        return Err(StatementError::WrongKind {
            field: "public_values",
        });
    };
    match elements_from_json(alloc, values) {
        Ok(public_values) => Ok(public_values),
        Err(ElementsFault::Element { index }) => Err(StatementError::PublicValue { index }),
        Err(ElementsFault::OutOfMemory) => Err(StatementError::OutOfMemory),
    }
}

/// The public values, which are required.
pub(crate) fn required_public_values<F: JsonCodec + Copy>(
    alloc: Global,
    value: &Value,
) -> Result<Vec<F>, StatementError>
    ensures { Decodes (λ v. v.items) result
        (required (codes "public_values") (public_values_at F.reading) (view value.now)) }
{
    let member = required(value, "public_values")?;
    public_values_at(alloc, member)
}

/// The whole number that stands under a name; 0 where it is missing or null.
fn given_bits(value: &Value, field: &'static str) -> Result<usize, StatementError>
    ensures { Decodes (λ bits. bits) result (given_bits field.now (view value.now)) }
{
    let Some(member) = value.get(field) else {
        return Ok(NO_WORK);
    };
    if member.is_null() {
        return Ok(NO_WORK);
    }
    match member.as_u64() {
        Some(bits) => Ok(bits as usize),
        None => Err(StatementError::WrongKind { field }),
    }
}

/// The bits of work under a name, which some element may pass; 0 where it is missing or null.
pub(crate) fn bits_at(value: &Value, field: &'static str) -> Result<usize, StatementError>
    ensures { Decodes (λ bits. bits) result (bits_at field.now (view value.now)) }
{
    let bits = given_bits(value, field)?;
    if bits > MOST_WORK {
        return Err(StatementError::WorkTooLarge { field, got: bits });
    }
    Ok(bits)
}

/// The logarithm of the height that is fixed; None where it is missing or null.
pub(crate) fn height_at(value: &Value) -> Result<Option<usize>, StatementError>
    ensures { Decodes (λ height. height) result (height_at (view value.now)) }
{
    let Some(given) = given_at(value, "log_height") else {
        return Ok(None);
    };
    match given.as_u64() {
        Some(log_height) => Ok(Some(log_height as usize)),
        None => Err(StatementError::WrongKind {
            field: "log_height",
        }),
    }
}
