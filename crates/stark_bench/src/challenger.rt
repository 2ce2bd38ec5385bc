//! The bench's two challengers, and what they observe of a commitment in the clear.
mod commitment;
mod coordinates;
mod script;
mod sha256;
mod trials;

pub use commitment::ClearCommitment;
pub use script::ScriptChallenger;
pub use sha256::Sha256Challenger;
