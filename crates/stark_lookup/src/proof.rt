//! What a proof with lookups carries.
use stark_proof::Proof;
use stark_two_part::InParts;

/// A proof that a trace satisfies an AIR and that its lookups balance.
#[derive(Debug, Drop)]
pub struct LookupProof<Com, Challenge, PcsProof, Val> {
    /// The proof of the extended AIR. Its trace is committed to in two parts: the AIR's own
    /// columns, and the auxiliary ones.
    pub inner: Proof<InParts<Com>, Challenge, PcsProof, Val>,
    /// The witness of the work before the draws; zero where no work is required.
    pub lookup_pow_witness: Val,
}
