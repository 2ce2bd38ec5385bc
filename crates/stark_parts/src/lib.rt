//! The parts that a prover and a verifier share, transcripts aside: configurations, the verifier's
//! folder and the number of a quotient's chunks.
#![tactic(auto)]

mod challenger;
mod config;
mod folder;
mod symbolic;

pub use challenger::StarkChallenger;
pub use config::{
    Com, Domain, PackedChallenge, PackedVal, PcsError, PcsProverError, StarkConfig, StarkFields,
    StarkGenericConfig, StarkOpeningLayout, Val,
};
pub use folder::{RowsAtPoint, VerifierConstraintFolder, fold_constraints};
pub use symbolic::{
    get_log_num_quotient_chunks, get_log_num_quotient_chunks_for_degree,
    get_log_num_quotient_chunks_for_domain, get_log_quotient_degree_extension,
};
