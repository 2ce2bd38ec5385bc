//! What is asked for a trace.

/// How a proof is written.
#[derive(Clone, Copy, Debug, PartialEq, Eq)]
pub enum ProofForm {
    /// As a line of JSON.
    Json,
    /// As bytes (`stark_proof_bytes`), for who stores proofs.
    Bytes,
}

/// What is asked for a trace of a statement's AIR.
#[derive(Clone, Copy, Debug, PartialEq, Eq)]
pub enum TraceTask {
    /// Whether it satisfies the AIR.
    Check,
    /// A proof of it, where it satisfies the AIR.
    Prove(ProofForm),
    /// A proof of it, whether or not it satisfies the AIR.
    ProveUnchecked(ProofForm),
}
