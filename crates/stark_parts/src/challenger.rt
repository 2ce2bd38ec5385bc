//! What a configuration's prover and verifier ask of a challenger.
use stark_support::{
    CanObserve, ExtensionChallenger, ExtensionField, FieldChallenger, GrindingChallenger,
    PrimeField64,
};

/// A challenger that takes commitments of type `K` and does all that a prover and a verifier over
/// the field `F` and its extension `EF` ask of one. Every type with these traits is one: it is a
/// name for the list of them.
pub trait StarkChallenger<F: PrimeField64, EF: ExtensionField<F>, K>: FieldChallenger<F>
    + CanObserve<K>
    + ExtensionChallenger<F, EF>
    + GrindingChallenger<Witness = F>
    + Clone {}

impl<F, EF, K, C> StarkChallenger<F, EF, K> for C
where
    F: PrimeField64,
    EF: ExtensionField<F>,
    C: FieldChallenger<F>
        + CanObserve<K>
        + ExtensionChallenger<F, EF>
        + GrindingChallenger<Witness = F>
        + Clone,
{}
