//! The JSON of a configuration.
ghost use Rattle.std.specs.Prelude.{◌≡◌, ◌≤◌, IfOk, option_map};
ghost use Rattle.serde_json.specs.View.{view};
ghost use Rattle.stark_statement.specs.Configuration.{IsWithinField, configuration_view, fri_numbers, two_adicity};
ghost use Rattle.stark_statement.specs.ConfigurationJson.{Reads, configuration_at, configuration_named, field_at, field_named, fri_at, given_at, no_numbers, not_given, number_at, numbers_at, scheme_at, scheme_named};
ghost use Rattle.stark_statement.specs.StatementApart.{data_of};
ghost use Rattle.stark_statement.specs.StatementJson.{Decodes, configuration_reading, given_configuration};

use crate::configuration::{Configuration, FieldName, SchemeChoice};
use crate::configuration_error::{ConfigurationError, ConfigurationMember};
use crate::error::StatementError;
use crate::fields::{check_config_members, check_members};
use serde_json::Value;
use stark_fri_proof::FriParameters;
use stark_json::Document;
use std::alloc::Global;

/// The schemes by name.
#[derive(Clone, Copy)]
enum SchemeName {
    OfFri,
    OfClear,
}

/// What an object has under a name, unless it is null.
pub(crate) fn given_at<'a>(value: &'a Value, name: &str) -> Option<&'a Value>
    ensures { option_map (λ v. view v.now) result ≡ given_at name.now (view value.now) }
{
    let member = value.get(name)?;
    if member.is_null() { None } else { Some(member) }
}

/// The field of a name.
#[tactic(auto, unfolding(crate::specs::ConfigurationJson::field_named))]
fn field_named(name: &str) -> Option<FieldName>
    ensures { result ≡ field_named name.now }
{
    match name {
        "baby_bear" => Some(FieldName::BabyBear),
        "koala_bear" => Some(FieldName::KoalaBear),
        "f12289" => Some(FieldName::F12289),
        _ => None,
    }
}

/// The kind of scheme of a name.
#[tactic(auto, unfolding(crate::specs::ConfigurationJson::scheme_named))]
fn scheme_named(name: &str) -> Option<SchemeName>
    ensures { result ≡ scheme_named name.now }
{
    match name {
        "fri" => Some(SchemeName::OfFri),
        "clear" => Some(SchemeName::OfClear),
        _ => None,
    }
}

/// The field, BabyBear where it is not given.
fn field_at(config: &Value) -> Result<FieldName, ConfigurationError>
    ensures { result ≡ field_at (view config.now) }
{
    let Some(given) = given_at(config, "field") else {
        return Ok(FieldName::BabyBear);
    };
    let Some(name) = given.as_str() else {
        return Err(ConfigurationError::WrongKind(ConfigurationMember::Field));
    };
    field_named(name).ok_or(ConfigurationError::UnknownField)
}

/// The scheme's name, FRI's where it is not given.
fn scheme_at(config: &Value) -> Result<SchemeName, ConfigurationError>
    ensures { result ≡ scheme_at (view config.now) }
{
    let Some(given) = given_at(config, "scheme") else {
        return Ok(SchemeName::OfFri);
    };
    let Some(name) = given.as_str() else {
        return Err(ConfigurationError::WrongKind(ConfigurationMember::Scheme));
    };
    scheme_named(name).ok_or(ConfigurationError::UnknownScheme)
}

/// A number, the default where it is not given.
fn number_at(
    config: &Value,
    member: ConfigurationMember,
    default: usize,
) -> Result<usize, ConfigurationError>
    ensures { result ≡ number_at member default (view config.now) }
{
    let Some(given) = given_at(config, member.name()) else {
        return Ok(default);
    };
    match given.as_u64() {
        Some(number) => Ok(number as usize),
        None => Err(ConfigurationError::WrongKind(member)),
    }
}

/// FRI's parameters.
#[tactic(auto, unfolding(crate::specs::ConfigurationJson::numbers_at))]
fn parameters_at(config: &Value) -> Result<FriParameters, ConfigurationError>
    ensures { Reads fri_numbers result (numbers_at (view config.now)) }
{
    let log_blowup = number_at(config, ConfigurationMember::LogBlowup, 2)?;
    let log_final_poly_len = number_at(config, ConfigurationMember::LogFinalPolyLen, 0)?;
    let num_queries = number_at(config, ConfigurationMember::NumQueries, 120)?;
    let commit_bits = number_at(config, ConfigurationMember::CommitProofOfWorkBits, 0)?;
    let query_bits = number_at(config, ConfigurationMember::QueryProofOfWorkBits, 16)?;
    match FriParameters::new(
        log_blowup,
        log_final_poly_len,
        num_queries,
        commit_bits,
        query_bits,
    ) {
        Ok(parameters) => Ok(parameters),
        Err(fault) => Err(ConfigurationError::Parameters(fault)),
    }
}

/// FRI's parameters, where the blow-up fits the field.
fn fri_at(config: &Value, field: FieldName) -> Result<FriParameters, ConfigurationError>
    ensures read { Reads fri_numbers result (fri_at field (view config.now)) }
    ensures fits { IfOk result (λ p. p.log_blowup ≤ two_adicity field) }
{
    let parameters = parameters_at(config)?;
    let (two_adicity, got) = (field.two_adicity(), parameters.log_blowup());
    if got > two_adicity {
        return Err(ConfigurationError::BlowupPastTwoAdicity { two_adicity, got });
    }
    Ok(parameters)
}

/// Refuses a number of FRI's that is given beside the scheme in the clear.
fn refuse_given(config: &Value, member: ConfigurationMember) -> Result<(), ConfigurationError>
    ensures { result ≡ not_given member (view config.now) }
{
    match given_at(config, member.name()) {
        Some(_) => Err(ConfigurationError::NotInTheClear(member)),
        None => Ok(()),
    }
}

/// Refuses the first of FRI's numbers that is given.
#[tactic(auto, unfolding(crate::specs::ConfigurationJson::no_numbers))]
fn refuse_numbers(config: &Value) -> Result<(), ConfigurationError>
    ensures { result ≡ no_numbers (view config.now) }
{
    refuse_given(config, ConfigurationMember::LogBlowup)?;
    refuse_given(config, ConfigurationMember::LogFinalPolyLen)?;
    refuse_given(config, ConfigurationMember::NumQueries)?;
    refuse_given(config, ConfigurationMember::CommitProofOfWorkBits)?;
    refuse_given(config, ConfigurationMember::QueryProofOfWorkBits)
}

/// The configuration that the value of `config` spells, or its first fault.
#[tactic(auto, unfolding(crate::specs::ConfigurationJson::configuration_at))]
fn configuration_at(config: &Value) -> Result<Configuration, ConfigurationError>
    ensures read { Reads configuration_view result (configuration_at (view config.now)) }
    ensures fits { IfOk result IsWithinField }
{
    let field = field_at(config)?;
    match scheme_at(config)? {
        SchemeName::OfFri => {
            let parameters = fri_at(config, field)?;
            let scheme = SchemeChoice::Fri(parameters);
            Ok(Configuration { field, scheme })
        }
        SchemeName::OfClear => {
            refuse_numbers(config)?;
            let scheme = SchemeChoice::Clear;
            Ok(Configuration { field, scheme })
        }
    }
}

/// The configuration of a set's name.
#[tactic(auto, unfolding(crate::specs::ConfigurationJson::configuration_named))]
fn configuration_named(name: &str) -> Result<Configuration, ConfigurationError>
    ensures read { Reads configuration_view result (configuration_named name.now) }
    ensures fits { IfOk result IsWithinField }
{
    match name {
        "default" => Ok(Configuration::default()),
        "fast" => Ok(Configuration::fast()),
        "proved_100" => Ok(Configuration::proved_100()),
        _ => Err(ConfigurationError::UnknownSet),
    }
}

/// The configuration that a value of `config` spells which isn't null, or its first fault.
#[tactic(auto, unfolding(crate::specs::StatementJson::given_configuration))]
fn given_configuration(alloc: Global, config: &Value) -> Result<Configuration, StatementError>
    ensures decoded { Decodes configuration_view result (given_configuration (view config.now)) }
    ensures fits { IfOk result IsWithinField }
{
    if let Some(name) = config.as_str() {
        return match configuration_named(name) {
            Ok(configuration) => Ok(configuration),
            Err(error) => Err(StatementError::Config(error)),
        };
    }
    check_config_members(alloc, config)?;
    match configuration_at(config) {
        Ok(configuration) => Ok(configuration),
        Err(error) => Err(StatementError::Config(error)),
    }
}

impl Configuration {
    /// What the JSON value of a statement says of its configuration, by which a program knows over
    /// which field to read the rest: its member `config`, whose members are `field` ("baby_bear",
    /// "koala_bear" or "f12289"), `scheme` ("fri" or "clear") and, for FRI, `log_blowup`,
    /// `log_final_poly_len`, `num_queries`, `commit_proof_of_work_bits` and
    /// `query_proof_of_work_bits`. Each of them, and `config` itself, may be missing or null, and
    /// then the default is meant. In place of an object `config` may be a string, the name of a
    /// set: "default", "fast" or "proved_100". Otherwise the first fault, in this order:
    ///
    /// - `NotAnObject` and `UnknownField` of the statement, as `Statement::from_json` says.
    /// - `Config` with `UnknownSet` where `config` is a string and no set's name, and with
    ///   `NotAnObject` where it is neither a string nor an object; `UnknownConfigMember` with the
    ///   name where it has a member of another one.
    /// - `Config` with `WrongKind`, and `UnknownField` or `UnknownScheme`, of the field and then of
    ///   the scheme.
    /// - `Config` with `NotInTheClear` where a number is given beside "clear".
    /// - `Config` with `WrongKind` of the first number that is no whole number below 2^64.
    /// - `Config` with `Parameters`, the fault of `FriParameters::new`.
    /// - `Config` with `BlowupPastTwoAdicity` where `log_blowup` is past the field's two-adicity.
    ///
    /// It takes memory for the name of an unknown member alone, and answers `OutOfMemory` where
    /// that was refused.
    #[tactic(auto, unfolding(crate::specs::StatementJson::configuration_reading))]
    pub fn from_statement(alloc: Global, value: &Value) -> Result<Configuration, StatementError>
        ensures decoded { Decodes configuration_view result
            (configuration_reading (view value.now)) }
        ensures fits { IfOk result IsWithinField }
    {
        check_members(alloc, value)?;
        let Some(config) = given_at(value, "config") else {
            return Ok(Configuration::default());
        };
        given_configuration(alloc, config)
    }

    /// What `from_statement` answers of a document's value: the rows that stand apart are no part
    /// of the configuration.
    pub fn from_document(
        alloc: Global,
        document: &Document,
    ) -> Result<Configuration, StatementError>
        ensures decoded { Decodes configuration_view result
            (configuration_reading (data_of document.now)) }
        ensures fits { IfOk result IsWithinField }
    {
        Configuration::from_statement(alloc, &document.value)
    }
}
