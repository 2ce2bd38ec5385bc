//! The prover's folders: they keep the values of an AIR's constraints at packed rows, and sum them
//! up with powers of alpha.
#![tactic(auto)]

mod prover_folder;
mod vectorized_folder;

pub use prover_folder::{FolderSums, ProverConstraintFolder, StarkPacking};
pub use vectorized_folder::{VectorizedChallenge, VectorizedConstraintFolder, VectorizedVal};
