//! What a proof's shape is tested against of a key that isn't there yet.
ghost use Rattle.std.specs.Prelude.{◌≡◌};
ghost use Rattle.stark_proof.specs.ProofView.{proof_view};
ghost use Rattle.stark_transcript.specs.declared.error.VerificationError.{VerificationError};
ghost use Rattle.stark_verifier.specs.KeySizes.{FitsBeside, MisfitsBeside, OfSize, key_of_size};

use stark_air::Air;
use stark_parts::{StarkGenericConfig, Val};
use stark_protocol::{PreprocessedVerifierKey, StarkInstance, StarkOperations};
use stark_support::GrindingChallenger;

/// The size of a verifier's key of preprocessed columns.
#[derive(Clone, Copy, Debug, PartialEq, Eq)]
pub struct KeySize {
    /// The number of the preprocessed columns.
    pub width: usize,
    /// The logarithm of the committed height.
    pub degree_bits: usize,
}

/// A key of this size that commits to nothing.
pub(crate) fn key_of_size(size: KeySize) -> PreprocessedVerifierKey<()>
    ensures { result ≡ key_of_size size }
{
    PreprocessedVerifierKey {
        width: size.width,
        degree_bits: size.degree_bits,
        commitment: (),
    }
}

/// What the shape of a proof is beside the keys of a size, with a configuration, for an AIR, with
/// public values: without a fault beside each of them; or with this first one beside each.
pub trait StarkShapes<A>: StarkGenericConfig {
    ghost fitting: { OfSize Self A Self.Pcs.Commitment Self.Challenge Self.Pcs.Proof
        Self.Pcs.Domain.Val (Type 0) };

    ghost misshapen: { OfSize Self A Self.Pcs.Commitment Self.Challenge Self.Pcs.Proof
        Self.Pcs.Domain.Val (VerificationError Self.Pcs.Error → Type 0) };
}

impl<SC: StarkGenericConfig, A: Air<Val<SC>>> StarkShapes<A> for SC
where
    SC::Challenger: GrindingChallenger<Witness = Val<SC>>,
{
    ghost fitting = { λ config air proof public_values size.
        FitsBeside ⟦<SC as StarkOperations>⟧.operations
        (⟦<SC as StarkInstance<A>>⟧.instance config air public_values) (proof_view proof) size };

    ghost misshapen = { λ config air proof public_values size error.
        MisfitsBeside ⟦<SC as StarkOperations>⟧.operations
        (⟦<SC as StarkInstance<A>>⟧.instance config air public_values) (proof_view proof) size
        error };
}
