//! Why a JSON value is not read as a statement.
use crate::configuration_error::ConfigurationError;
use stark_json::QuotedName;
use stark_tree_air::TreeJsonError;
use thiserror::Error;

/// Why a JSON value is not read as a statement.
#[derive(Debug, Drop, Error)]
pub enum StatementError {
    /// The bytes are no JSON text.
    #[error("the statement is no JSON text")]
    NotJson,
    /// An object of the text has a name twice, the second one before this place.
    #[error("line {line}, column {column}: the name {name} stands twice in an object")]
    RepeatedName {
        name: QuotedName,
        line: usize,
        column: usize,
    },
    /// The value isn't an object.
    #[error("the statement is no object")]
    NotAnObject,
    /// The object has a member that no statement has.
    #[error("the statement has a field {name}, which is none of config, air, public_values, \
         alpha_bits, ood_bits, log_height")]
    UnknownField {
        name: QuotedName,
    },
    /// The configuration has a member that none has.
    #[error("the field config: it has a member {name}, which is neither field, scheme nor a number of \
         FRI")]
    UnknownConfigMember {
        name: QuotedName,
    },
    /// The configuration is refused.
    #[error("the field config: {0}")]
    Config(ConfigurationError),
    /// A required field isn't there.
    #[error("the field {field} is missing")]
    MissingField {
        field: &'static str,
    },
    /// A field isn't an array, or no whole number below 2^64.
    #[error("the field {field} is of the wrong kind")]
    WrongKind {
        field: &'static str,
    },
    /// More bits of work are asked for than an element can pass.
    #[error("the field {field} asks for {got} bits of work, and no element passes more than 63")]
    WorkTooLarge {
        field: &'static str,
        got: usize,
    },
    /// A public value is refused.
    #[error("public value {index} is no whole number below the field's order")]
    PublicValue {
        index: usize,
    },
    /// The AIR is refused.
    #[error("the field air: {0}")]
    Air(TreeJsonError),
    /// The AIR declares another number of public values.
    #[error("the field public_values has {got} values, and air declares {expected}")]
    PublicValuesCount {
        expected: usize,
        got: usize,
    },
    /// Memory was refused.
    #[error("out of memory")]
    OutOfMemory,
}
