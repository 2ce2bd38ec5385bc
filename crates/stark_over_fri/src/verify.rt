//! The verifier over FRI, with what its answer shows of tables.
ghost use Rattle.std.specs.Option.{option_copied};
ghost use Rattle.std.specs.Prelude.{OnOk};
ghost use Rattle.stark_over_fri.specs.Tables.{AreShown, AreSoundBesideKnown, FewBadDrawsOfTables, TablesAreSound};
ghost use Rattle.stark_protocol.specs.FirstFault.{FirstFault};
ghost use Rattle.stark_transcript.specs.declared.error.VerificationError.{VerificationError};
ghost use Rattle.stark_verifier.specs.Given.{OfArguments, of_arguments};
ghost use Rattle.stark_verifier.specs.MemoryAside.{IfErrMemoryAside};

use stark_air::Air;
use stark_fri::{FriCalls, FriError};
use stark_fri_prover::FriPcs;
use stark_merkle::{Root, TreeHash};
use stark_parts::{StarkChallenger, StarkConfig, StarkGenericConfig};
use stark_protocol::{PreprocessedVerifierKey, StarkInstance, StarkOperations, StarkProof};
use stark_support::{ExtensionField, PrimeField64, TwoAdicField};
use stark_transcript::VerificationError;
use stark_verifier::{StarkVerdict, verify_with_preprocessed};
use std::alloc::Global;

/// A configuration whose scheme is FRI.
pub type ByFri<F, EF, H, C> = StarkConfig<FriPcs<F, H>, EF, C>;

/// What an accepted proof by FRI shows, with a configuration, for an AIR, with public values and a
/// key. It has no code.
pub trait Tables<A>: StarkGenericConfig {
    /// Which errors name a proof's first fault.
    ghost fault: { OfArguments Self A Self.Pcs.Commitment Self.Challenge Self.Pcs.Proof
        Self.Pcs.Domain.Val (VerificationError Self.Pcs.Error → Type 0) };

    /// What is shown of all tables that lead to the proof's roots at the drawn places.
    ghost tables: { OfArguments Self A Self.Pcs.Commitment Self.Challenge Self.Pcs.Proof
        Self.Pcs.Domain.Val (Type 0) };

    /// What is shown of them where the preprocessed ones are the values of known columns.
    ghost beside: { OfArguments Self A Self.Pcs.Commitment Self.Challenge Self.Pcs.Proof
        Self.Pcs.Domain.Val (Type 0) };

    /// How few draws are bad for them.
    ghost few: { OfArguments Self A Self.Pcs.Commitment Self.Challenge Self.Pcs.Proof
        Self.Pcs.Domain.Val (Type 0) };

    /// All of it.
    ghost shown: { OfArguments Self A Self.Pcs.Commitment Self.Challenge Self.Pcs.Proof
        Self.Pcs.Domain.Val (Type 0) };
}

impl<F, EF, H, C, A> Tables<A> for ByFri<F, EF, H, C>
where
    F: TwoAdicField + PrimeField64,
    EF: ExtensionField<F>,
    H: TreeHash,
    C: StarkChallenger<F, EF, Root>,
    A: Air<F>,
{
    ghost fault = { of_arguments (FirstFault
        ⟦<ByFri<F, EF, H, C> as StarkOperations>⟧.operations)
        ⟦<ByFri<F, EF, H, C> as StarkInstance<A>>⟧.instance };

    ghost tables = { of_arguments (TablesAreSound
        ⟦<ByFri<F, EF, H, C> as StarkOperations>⟧.operations
        ⟦<C as FriCalls<F, EF, H>>⟧.fri_ops (λ s. s.parameters) (λ p. p))
        ⟦<ByFri<F, EF, H, C> as StarkInstance<A>>⟧.instance };

    ghost beside = { of_arguments (AreSoundBesideKnown
        ⟦<ByFri<F, EF, H, C> as StarkOperations>⟧.operations
        ⟦<C as FriCalls<F, EF, H>>⟧.fri_ops (λ s. s.parameters) (λ p. p))
        ⟦<ByFri<F, EF, H, C> as StarkInstance<A>>⟧.instance };

    ghost few = { of_arguments (FewBadDrawsOfTables
        ⟦<ByFri<F, EF, H, C> as StarkOperations>⟧.operations
        ⟦<C as FriCalls<F, EF, H>>⟧.fri_ops (λ s. s.parameters) (λ p. p))
        ⟦<ByFri<F, EF, H, C> as StarkInstance<A>>⟧.instance };

    ghost shown = { of_arguments (AreShown
        ⟦<ByFri<F, EF, H, C> as StarkOperations>⟧.operations
        ⟦<C as FriCalls<F, EF, H>>⟧.fri_ops (λ s. s.parameters) (λ p. p))
        ⟦<ByFri<F, EF, H, C> as StarkInstance<A>>⟧.instance };
}

/// `verify_with_preprocessed` over FRI, with all that its Ok shows in one record.
fn verify_shown<F, EF, H, C, A>(
    alloc: Global,
    config: &ByFri<F, EF, H, C>,
    air: &A,
    proof: &StarkProof<ByFri<F, EF, H, C>>,
    public_values: &[F],
    key: Option<&PreprocessedVerifierKey<Root>>,
) -> Result<(), VerificationError<FriError>>
where
    F: TwoAdicField + PrimeField64,
    EF: ExtensionField<F>,
    H: TreeHash,
    C: StarkChallenger<F, EF, Root>,
    A: Air<F>,
    ensures accepted { OnOk result (⟦<ByFri<F, EF, H, C> as StarkVerdict<A>>⟧.accepted
        config.now air.now proof.now public_values.now (option_copied key.entry)) }
    ensures refused { IfErrMemoryAside result (⟦<ByFri<F, EF, H, C> as Tables<A>>⟧.fault
        config.now air.now proof.now public_values.now (option_copied key.entry)) }
    ensures shown { OnOk result (⟦<ByFri<F, EF, H, C> as Tables<A>>⟧.shown config.now
        air.now proof.now public_values.now (option_copied key.entry)) }
{
    verify_with_preprocessed(alloc, config, air, proof, public_values, key)
}

/// `verify_with_preprocessed` over FRI, with what its Ok shows of whatever tables stand for the
/// proof's roots.
///
/// `sound`: take any rows of each matrix at each place, and any word for each fold, that lead to
/// the proof's roots at the drawn places, and a radius `e` with `2 e + N` below the number of
/// places, where `N` is the committed height. Then one of five holds: the tables agree at all
/// places but `e` with polynomials of degree at most `N` which, as columns and chunks, take the
/// opened values, and these columns satisfy the AIR on H, or alpha or zeta is bad for them; FRI's
/// batching challenge is bad for the tables; a beta is; all drawn places lie in a set of fewer
/// than all places but `e`; or the trees' hash collides. `few` says how few of each draw are bad.
///
/// `beside`: where the preprocessed table is that of known columns, the values of which the owner
/// of the key committed to, these are the columns beside which the trace satisfies the AIR: a proof
/// that opens another row shows a collision of the trees' hash.
pub fn verify_over_fri<F, EF, H, C, A>(
    alloc: Global,
    config: &ByFri<F, EF, H, C>,
    air: &A,
    proof: &StarkProof<ByFri<F, EF, H, C>>,
    public_values: &[F],
    key: Option<&PreprocessedVerifierKey<Root>>,
) -> Result<(), VerificationError<FriError>>
where
    F: TwoAdicField + PrimeField64,
    EF: ExtensionField<F>,
    H: TreeHash,
    C: StarkChallenger<F, EF, Root>,
    A: Air<F>,
    ensures accepted { OnOk result (⟦<ByFri<F, EF, H, C> as StarkVerdict<A>>⟧.accepted
        config.now air.now proof.now public_values.now (option_copied key.entry)) }
    ensures refused { IfErrMemoryAside result (⟦<ByFri<F, EF, H, C> as Tables<A>>⟧.fault
        config.now air.now proof.now public_values.now (option_copied key.entry)) }
    ensures sound { OnOk result (⟦<ByFri<F, EF, H, C> as Tables<A>>⟧.tables config.now
        air.now proof.now public_values.now (option_copied key.entry)) }
    ensures beside { OnOk result (⟦<ByFri<F, EF, H, C> as Tables<A>>⟧.beside config.now
        air.now proof.now public_values.now (option_copied key.entry)) }
    ensures few { OnOk result (⟦<ByFri<F, EF, H, C> as Tables<A>>⟧.few config.now
        air.now proof.now public_values.now (option_copied key.entry)) }
{
    verify_shown(alloc, config, air, proof, public_values, key)
}
