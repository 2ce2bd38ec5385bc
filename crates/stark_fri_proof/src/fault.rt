//! Why a JSON value is not read as a proof.
ghost use Rattle.std.specs.Prelude.{◌≡◌};
ghost use Rattle.stark_fri_proof.specs.ProofJson.{field_name};

use thiserror::Error;

/// The fields of a proof, in the order in which they are read.
#[derive(Clone, Copy, Debug, PartialEq, Eq)]
pub enum FriProofField {
    /// `phases`: the folds.
    Phases,
    /// `final_polynomial`: the coefficients that the folds leave.
    FinalPolynomial,
    /// `query_witness`: the witness of the work before the places are drawn.
    QueryWitness,
    /// `queries`: what is opened at each place.
    Queries,
}

impl FriProofField {
    /// The name that the field has in JSON.
    pub fn name(self) -> &'static str
        ensures { result.now ≡ field_name self }
    {
        match self {
            FriProofField::Phases => "phases",
            FriProofField::FinalPolynomial => "final_polynomial",
            FriProofField::QueryWitness => "query_witness",
            FriProofField::Queries => "queries",
        }
    }
}

/// Why a JSON value is not read as a proof.
#[derive(Clone, Copy, Debug, PartialEq, Eq, Error)]
pub enum FriProofFault {
    /// The first field that isn't there, or of which the value is refused.
    #[error("the field {} is missing or refused", .0.name())]
    Refused(FriProofField),
    /// Memory was refused.
    #[error("out of memory")]
    OutOfMemory,
}
