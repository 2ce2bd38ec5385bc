//! What prover and verifier share: the definitions of a proof's shape, replay, claims and
//! acceptance over a configuration's types, the sizes and domains, the preprocessed columns'
//! set-up, and the quotient's value from its chunks'.
#![tactic(auto)]

mod heights;
mod operations;
mod preprocessed;
mod quotient;
mod recomposition;
mod transcript;

pub use heights::{natural_domain, power_of_two};
pub use operations::{
    PcsProof, StarkDescription, StarkInstance, StarkOperations, StarkProof, StarkSetup,
};
pub use preprocessed::{
    PcsProverData, PreprocessedProverData, PreprocessedVerifierKey, setup_preprocessed,
};
pub use quotient::{log_parts_of, quotient_domain_of};
pub use recomposition::{quotient_at, recompose_quotient_from_chunks};
pub use transcript::transcript_shape;
