//! What a verifier is given.
use stark_parts::{Com, StarkGenericConfig, Val};
use stark_proof::Proof;
use stark_protocol::{PcsProof, PreprocessedVerifierKey};

/// A configuration, an AIR, a proof with its public values, and the key of the AIR's preprocessed
/// columns, over the types of commitments, extension, opening proofs and base field.
#[derive(Drop)]
pub(crate) struct VerifierInstance<'p, SC, A, K, EF, P, F> {
    pub config: &'p SC,
    pub air: &'p A,
    pub proof: &'p Proof<K, EF, P, F>,
    pub public_values: &'p [F],
    pub key: Option<&'p PreprocessedVerifierKey<K>>,
}

/// The instances of a configuration.
pub(crate) type InstanceOf<'p, SC, A> = VerifierInstance<
    'p,
    SC,
    A,
    Com<SC>,
    <SC as StarkGenericConfig>::Challenge,
    PcsProof<SC>,
    Val<SC>,
>;
