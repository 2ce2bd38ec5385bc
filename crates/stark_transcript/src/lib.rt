//! The transcript of a proof of one AIR: its shape, the seed that the shape gives, both sides'
//! phases, and the errors with which a run of either side ends.
#![tactic(auto)]

mod error;
mod shape;
mod transcript;

pub use error::{InvalidProofShapeError, ProvingError, VerificationError};
pub use shape::{
    GrindExhausted, StarkShape, StarkTranscriptFailure, TranscriptPhase, opens_next_row,
};
pub use transcript::{StarkProverTranscript, StarkVerifierTranscript, alpha_without_work};
