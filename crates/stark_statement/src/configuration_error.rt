//! Why a JSON value is not read as a configuration.
ghost use Rattle.std.specs.Prelude.{◌≡◌};
ghost use Rattle.stark_statement.specs.ConfigurationJson.{member_name};

use stark_fri_proof::FriParametersError;
use thiserror::Error;

/// The members of a configuration, in the order in which they are read.
#[derive(Clone, Copy, Debug, PartialEq, Eq)]
pub enum ConfigurationMember {
    /// `field`.
    Field,
    /// `scheme`.
    Scheme,
    /// `log_blowup`.
    LogBlowup,
    /// `log_final_poly_len`.
    LogFinalPolyLen,
    /// `num_queries`.
    NumQueries,
    /// `commit_proof_of_work_bits`.
    CommitProofOfWorkBits,
    /// `query_proof_of_work_bits`.
    QueryProofOfWorkBits,
}

impl ConfigurationMember {
    /// The name that the member has in JSON.
    pub fn name(self) -> &'static str
        ensures { result.now ≡ member_name self }
    {
        match self {
            ConfigurationMember::Field => "field",
            ConfigurationMember::Scheme => "scheme",
            ConfigurationMember::LogBlowup => "log_blowup",
            ConfigurationMember::LogFinalPolyLen => "log_final_poly_len",
            ConfigurationMember::NumQueries => "num_queries",
            ConfigurationMember::CommitProofOfWorkBits => "commit_proof_of_work_bits",
            ConfigurationMember::QueryProofOfWorkBits => "query_proof_of_work_bits",
        }
    }
}

/// Why a JSON value is not read as a configuration.
#[derive(Clone, Copy, Debug, PartialEq, Eq, Error)]
pub enum ConfigurationError {
    /// The value isn't an object.
    #[error("it is no object")]
    NotAnObject,
    /// A name isn't a string, or a number no whole number below 2^64.
    #[error("{} is of the wrong kind", .0.name())]
    WrongKind(ConfigurationMember),
    /// The field has another name.
    #[error("field is none of baby_bear, koala_bear, f12289")]
    UnknownField,
    /// The scheme has another name.
    #[error("scheme is none of fri, clear")]
    UnknownScheme,
    /// A number of FRI is given beside the scheme in the clear.
    #[error("the scheme clear has no {}", .0.name())]
    NotInTheClear(ConfigurationMember),
    /// The numbers are no parameters of FRI.
    #[error("{0}")]
    Parameters(FriParametersError),
    /// A column of one row would already be blown up past the field's roots of unity.
    #[error("log_blowup is {got}, and the field's two-adicity {two_adicity}")]
    BlowupPastTwoAdicity { two_adicity: usize, got: usize },
    /// It is a string, and no set has this name.
    #[error("it is the name of no set: there are default, fast, proved_100")]
    UnknownSet,
}
