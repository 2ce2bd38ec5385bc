//! The univariate STARK of Plonky3's `p3-uni-stark`, with its contracts proved.
#![tactic(auto)]

mod checked;
mod completeness;
mod sizing;

pub use checked::{CheckedProvingError, StarkChecked, prove_checked};
pub use completeness::{StarkCompleteness, VerifiedProof, prove_and_verify};
pub use sizing::degrees_fit_the_quotient;
pub use stark_air::{AirLayout, SubAirBuilder, SubSliced};
pub use stark_completeness::{
    ConstraintCheckError, ConstraintViolation, RowChecks, check_constraints, check_declared,
    satisfaction_is_row_by_row,
};
pub use stark_parts::{
    Com, Domain, PackedChallenge, PackedVal, PcsError, PcsProverError, StarkConfig,
    StarkGenericConfig, StarkOpeningLayout, Val, VerifierConstraintFolder,
    get_log_num_quotient_chunks, get_log_num_quotient_chunks_for_domain,
    get_log_quotient_degree_extension,
};
pub use stark_proof::{
    Commitments, OpenedValues, OpeningsDecodeError, PreprocessedOpenedValues, Proof,
    ProofDecodeError,
};
pub use stark_protocol::{
    PcsProof, PreprocessedProverData, PreprocessedVerifierKey, StarkInstance, StarkOperations,
    StarkProof, StarkSetup, recompose_quotient_from_chunks, setup_preprocessed,
};
pub use stark_prover::{StarkProving, prove, prove_with_preprocessed};
pub use stark_prover_folder::{
    ProverConstraintFolder, VectorizedChallenge, VectorizedConstraintFolder, VectorizedVal,
};
pub use stark_quotient::{
    QUOTIENT_ILP, QuotientAir, Quotients, folded_pairs, folded_row, quotient_values,
};
pub use stark_security::{
    OpeningShape, StarkSecurityParams, num_batched_openings, ood_error_bound,
};
pub use stark_support::{GrindingSites, PeriodicColumnShapeError};
pub use stark_symbolic::{
    BaseEntry, ConstraintLayout, SymbolicAirBuilder, SymbolicExpression, SymbolicVariable,
    get_all_symbolic_constraints, get_constraint_layout, get_max_constraint_degree_extension,
    get_symbolic_constraints,
};
pub use stark_transcript::{
    GrindExhausted, InvalidProofShapeError, ProvingError, StarkProverTranscript, StarkShape,
    StarkTranscriptFailure, StarkVerifierTranscript, VerificationError,
};
pub use stark_verifier::{
    StarkVerdict, validate_degree_bits, verify, verify_constraints, verify_with_preprocessed,
};
