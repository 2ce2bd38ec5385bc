//! What the clauses of prover and verifier say of a configuration's types and values, in records.
ghost use Rattle.std.specs.Prelude.{◌≡◌, ◌⊎◌, ℕ, ◌+◌, ◌^◌, IfSome, List, Option, Some, codes};
ghost use Rattle.stark_support.specs.Scheme.{zk_bits};
ghost use Rattle.stark_air.specs.Declaration.{Trace};
ghost use Rattle.stark_transcript.specs.Shape.{shape_of};
ghost use Rattle.stark_transcript.specs.declared.error.ProvingError.{ProvingError};
ghost use Rattle.stark_transcript.specs.declared.shape.StarkShape.{StarkShape};
ghost use Rattle.stark_protocol.specs.Instance.{Instance, ProtocolOps, log_height};
ghost use Rattle.stark_protocol.specs.Preprocessing.{IsCommittedWithin, IsSetUp, IsSetUpFault};
ghost use Rattle.stark_protocol.specs.declared.preprocessed.PreprocessedProverData.{PreprocessedProverData};
ghost use Rattle.stark_protocol.specs.declared.preprocessed.PreprocessedVerifierKey.{PreprocessedVerifierKey};

use stark_air::{Air, BaseAir};
use stark_parts::{Com, StarkGenericConfig, Val};
use stark_proof::Proof;
use stark_support::{GrindingChallenger, Opening, Pcs, Sponge};

/// All that a configuration's types compute, in one record, and the types that it speaks of beside
/// the configuration's own: those of its base field and of its scheme.
pub trait StarkOperations: StarkGenericConfig {
    ghost Value: { Type 0 };

    ghost Commitment: { Type 0 };

    ghost ProverData: { Type 0 };

    ghost Proof: { Type 0 };

    ghost Error: { Type 0 };

    ghost ProverError: { Type 0 };

    ghost operations: { ProtocolOps Self.Pcs Value Self.Challenge Self.Challenger Commitment
        ProverData Proof Error ProverError };
}

impl<SC> StarkOperations for SC
where
    SC: StarkGenericConfig,
    SC::Challenger: GrindingChallenger<Witness = Val<SC>>,
{
    ghost Value = { SC.Pcs.Domain.Val };

    ghost Commitment = { SC.Pcs.Commitment };

    ghost ProverData = { SC.Pcs.ProverData };

    ghost Proof = { SC.Pcs.Proof };

    ghost Error = { SC.Pcs.Error };

    ghost ProverError = { SC.Pcs.ProverError };

    ghost operations = { record {
      opening = ⟦<SC::Pcs as Opening<SC::Challenge, SC::Challenger>>⟧.opening;
      sponge = ⟦<SC::Challenger as Sponge<Val<SC>, SC::Challenge, Com<SC>>>⟧.sponge;
    } };
}

/// What a verifier is given besides a proof, in one record.
pub trait StarkInstance<A>: StarkGenericConfig {
    ghost Given: { Type 0 };

    ghost instance: { Self → A → List Self.Pcs.Domain.Val
        → Option (PreprocessedVerifierKey Self.Pcs.Commitment) → Given };
}

impl<SC: StarkGenericConfig, A: Air<Val<SC>>> StarkInstance<A> for SC
where
{
    ghost Given = { Instance SC.Pcs SC.Pcs.Domain.Val SC.Challenger SC.Pcs.Commitment };

    ghost instance = { λ config air public_values key. record {
      scheme = SC.config.scheme config;
      first_state = SC.config.first_state config;
      ood_bits = SC.config.ood_bits config;
      constraint_bits = SC.config.constraint_bits config;
      layout = A.layout air;
      main_next_columns = A.main_next_row_columns air;
      preprocessed_next_columns = A.preprocessed_next_row_columns air;
      periodic_columns = A.periodic_columns air;
      degree_hint = A.degree_hint air;
      constraints = A.constraints air;
      public_values = public_values;
      key = key;
    } };
}

/// What a proof's transcript begins with, of a configuration and an AIR: its shape, of the number
/// of preprocessed columns, the committed height's bits and the logarithm of the number of chunks.
pub trait StarkDescription<A>: StarkGenericConfig {
    ghost shape: { Self → A → ℕ → ℕ → ℕ → StarkShape };
}

impl<SC, A> StarkDescription<A> for SC
where
    SC: StarkGenericConfig,
    A: BaseAir<Val<SC>>,
{
    ghost shape = { λ config air preprocessed_width degree_bits log_chunks.
        shape_of (A.layout air) (A.main_next_row_columns air) (A.preprocessed_next_row_columns air)
        preprocessed_width degree_bits (log_height SC.Pcs.ZK degree_bits) (2 ^ log_chunks)
        SC.Pcs.ZK (SC.config.ood_bits config) (SC.config.constraint_bits config) };
}

/// What is set up of a preprocessed trace of so many rows, given by their logarithm: prover's data
/// and verifier's key of a trace; those of the one that an AIR declares, where it has columns; why
/// there are none. Before it, that the scheme has room for such a trace.
pub trait StarkSetup: StarkGenericConfig {
    ghost Keys: { Type 0 };

    ghost has_room: { Self → ℕ → Option (Trace Self.Pcs.Domain.Val) → Type 0 };

    ghost is_set_up: { Self → ℕ → Trace Self.Pcs.Domain.Val → Keys → Type 0 };

    ghost are_keys: { Self → ℕ → Option (Trace Self.Pcs.Domain.Val) → Option Keys → Type 0 };

    ghost is_fault: { Self → ℕ → Option (Trace Self.Pcs.Domain.Val)
        → ProvingError Self.Pcs.ProverError → Type 0 };
}

impl<SC: StarkGenericConfig> StarkSetup for SC {
    ghost Keys = { PreprocessedProverData SC.Pcs.Commitment SC.Pcs.ProverData
        × PreprocessedVerifierKey SC.Pcs.Commitment };

    ghost has_room = { λ config log_height. IsCommittedWithin (log_height + zk_bits SC.Pcs.ZK)
        (SC.Pcs.scheme.log_max_trace_height (SC.config.scheme config)) };

    ghost is_set_up = { λ config log_height trace keys.
        IsSetUp SC.Pcs.scheme (SC.config.scheme config) SC.Pcs.Domain.Val.ring
        SC.Pcs.Domain.Val.root SC.Pcs.ZK log_height trace keys.0 keys.1 };

    ghost are_keys = { λ config log_height declared keys. IfSome keys (λ keys.
        (trace : Trace SC.Pcs.Domain.Val) × (declared ≡ Some trace)
        × IsSetUp SC.Pcs.scheme (SC.config.scheme config) SC.Pcs.Domain.Val.ring
        SC.Pcs.Domain.Val.root SC.Pcs.ZK log_height trace keys.0 keys.1) };

    ghost is_fault = { λ config log_height declared error. (error ≡ ProvingError.OutOfMemory)
        ⊎ IsSetUpFault SC.Pcs.scheme (SC.config.scheme config) SC.Pcs.Domain.Val.ring SC.Pcs.ZK
        log_height (codes "preprocessing commitment") declared error };
}

/// The opening proofs of a configuration's scheme.
pub type PcsProof<SC> = <<SC as StarkGenericConfig>::Pcs as Pcs<
    <SC as StarkGenericConfig>::Challenge,
    <SC as StarkGenericConfig>::Challenger,
>>::Proof;

/// The proofs of a configuration.
pub type StarkProof<SC> = Proof<
    Com<SC>,
    <SC as StarkGenericConfig>::Challenge,
    PcsProof<SC>,
    Val<SC>,
>;
