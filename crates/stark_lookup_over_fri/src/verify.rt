//! The verifier of proofs with lookups over FRI, with what its answer shows of tables.
ghost use Rattle.std.specs.Option.{option_copied};
ghost use Rattle.std.specs.Prelude.{OnOk};
ghost use Rattle.stark_lookup.specs.LookupErrors.{RefusedFor};
ghost use Rattle.stark_lookup.specs.LookupVerdict.{OfArguments};
ghost use Rattle.stark_lookup.specs.OwnLookups.{IsExtended};
ghost use Rattle.stark_lookup_over_fri.specs.LookupTables.{AreSoundBesideKnown, FewDrawsAreBad, LookupTablesAreSound, TablesAreSound};

use stark_fri::{FriCalls, FriError};
use stark_fri_proof::FriProof;
use stark_lookup::{
    LookupAir, LookupError, LookupProof, LookupVerdict, StarkLookups, verify_with_lookups,
};
use stark_merkle::{Root, TreeHash};
use stark_over_fri::ByFri;
use stark_parts::{StarkChallenger, StarkConfig, StarkGenericConfig};
use stark_protocol::PreprocessedVerifierKey;
use stark_support::{CanObserve, ExtensionField, PrimeField64, TwoAdicField};
use stark_two_part::InParts;
use std::alloc::Global;

/// The author's own configuration, over FRI.
type Own<F, EF, H, C> = ByFri<F, EF, H, C>;

/// What an accepted proof with lookups by FRI shows, with a configuration, for an AIR, with public
/// values and a key. It has no code.
pub trait LookupTables: StarkGenericConfig {
    /// What is shown of all tables that lead to the proof's roots at the drawn places.
    ghost tables: { OfArguments Self Self.Pcs.Domain.Val Self.Challenge Self.Pcs.Commitment
        Self.Pcs.Proof (Type 0) };

    /// What is shown of them where the preprocessed ones are the values of known columns.
    ghost beside: { OfArguments Self Self.Pcs.Domain.Val Self.Challenge Self.Pcs.Commitment
        Self.Pcs.Proof (Type 0) };

    /// How few draws are bad for them.
    ghost few: { OfArguments Self Self.Pcs.Domain.Val Self.Challenge Self.Pcs.Commitment
        Self.Pcs.Proof (Type 0) };

    /// All of it.
    ghost shown: { OfArguments Self Self.Pcs.Domain.Val Self.Challenge Self.Pcs.Commitment
        Self.Pcs.Proof (Type 0) };
}

impl<F, EF, H, C> LookupTables for Own<F, EF, H, C>
where
    F: TwoAdicField + PrimeField64,
    EF: ExtensionField<F>,
    H: TreeHash,
    C: StarkChallenger<F, EF, Root> + CanObserve<InParts<Root>>,
{
    ghost tables = { λ config air proof public_values key.
        TablesAreSound ⟦<Own<F, EF, H, C> as StarkLookups>⟧.lookups
        ⟦<C as FriCalls<F, EF, H>>⟧.fri_ops (λ s. s.parameters) (λ p. p)
        (record { config = config; air = air; public_values = public_values; key = key }) proof };

    ghost beside = { λ config air proof public_values key.
        AreSoundBesideKnown ⟦<Own<F, EF, H, C> as StarkLookups>⟧.lookups
        ⟦<C as FriCalls<F, EF, H>>⟧.fri_ops (λ s. s.parameters) (λ p. p)
        (record { config = config; air = air; public_values = public_values; key = key }) proof };

    ghost few = { λ config air proof public_values key.
        FewDrawsAreBad ⟦<Own<F, EF, H, C> as StarkLookups>⟧.lookups
        ⟦<C as FriCalls<F, EF, H>>⟧.fri_ops (λ s. s.parameters) (λ p. p)
        (record { config = config; air = air; public_values = public_values; key = key }) proof };

    ghost shown = { λ config air proof public_values key.
        LookupTablesAreSound ⟦<Own<F, EF, H, C> as StarkLookups>⟧.lookups
        ⟦<C as FriCalls<F, EF, H>>⟧.fri_ops (λ s. s.parameters) (λ p. p)
        (record { config = config; air = air; public_values = public_values; key = key }) proof };
}

/// `verify_with_lookups` over FRI, with all that its Ok shows in one record.
fn verify_shown<F, EF, H, C>(
    alloc: Global,
    config: Own<F, EF, H, C>,
    air: &LookupAir<F>,
    proof: &LookupProof<Root, EF, FriProof<F, EF>, F>,
    public_values: &[F],
    key: Option<&PreprocessedVerifierKey<Root>>,
) -> Result<(), LookupError<FriError>>
where
    F: TwoAdicField + PrimeField64,
    EF: ExtensionField<F>,
    H: TreeHash,
    C: StarkChallenger<F, EF, Root> + CanObserve<InParts<Root>>,
    requires extended { IsExtended EF.DIMENSION EF.ring EF.basis EF.coordinates F.ring air.now }
    ensures accepted { OnOk result (⟦<Own<F, EF, H, C> as LookupVerdict>⟧.accepted config air.now
        proof.now public_values.now (option_copied key.entry)) }
    ensures refused { RefusedFor result (⟦<Own<F, EF, H, C> as LookupVerdict>⟧.fault config
        air.now proof.now public_values.now (option_copied key.entry)) }
    ensures exact { RefusedFor result (λ _. ¬ ⟦<Own<F, EF, H, C> as LookupVerdict>⟧.accepted
        config air.now proof.now public_values.now (option_copied key.entry)) }
    ensures shown { OnOk result (⟦<Own<F, EF, H, C> as LookupTables>⟧.shown config air.now
        proof.now public_values.now (option_copied key.entry)) }
{
    verify_with_lookups(alloc, config, air, proof, public_values, key)
}

/// `verify_with_lookups` over FRI, with what its Ok shows of whatever tables stand for the proof's
/// roots; its errors are those of `verify_with_lookups`.
///
/// `sound`: take any rows of each matrix at each place, and any word for each fold, that lead to
/// the proof's roots at the drawn places, and a radius `e` with `2 e + N` below the number of
/// places, where `N` is the committed height. The AIR's own columns are the first tree's, which is
/// committed to before gamma and beta are drawn. Then one of five holds: the tables agree at all
/// places but `e` with polynomials of degree at most `N`, and where these, as the AIR's own
/// columns, break one of its constraints, or leave a tuple unbalanced, then beta hides the tuple,
/// or gamma is one of those by which it passes, or alpha or zeta is bad for them; FRI's batching
/// challenge is bad for the tables; a beta of its folds is; all drawn places lie in a set of fewer
/// than all places but `e`; or the trees' hash collides. `few` says how few of FRI's draws, of
/// alphas and of zetas are bad; how few betas and gammas are, `sound` itself says beside the
/// columns.
///
/// `beside`: where the rows of the preprocessed table are the values of known columns, these are
/// the columns beside which the AIR's own are judged.
pub fn verify_with_lookups_over_fri<F, EF, H, C>(
    alloc: Global,
    config: Own<F, EF, H, C>,
    air: &LookupAir<F>,
    proof: &LookupProof<Root, EF, FriProof<F, EF>, F>,
    public_values: &[F],
    key: Option<&PreprocessedVerifierKey<Root>>,
) -> Result<(), LookupError<FriError>>
where
    F: TwoAdicField + PrimeField64,
    EF: ExtensionField<F>,
    H: TreeHash,
    C: StarkChallenger<F, EF, Root> + CanObserve<InParts<Root>>,
    requires extended { IsExtended EF.DIMENSION EF.ring EF.basis EF.coordinates F.ring air.now }
    ensures accepted { OnOk result (⟦<Own<F, EF, H, C> as LookupVerdict>⟧.accepted config air.now
        proof.now public_values.now (option_copied key.entry)) }
    ensures refused { RefusedFor result (⟦<Own<F, EF, H, C> as LookupVerdict>⟧.fault config
        air.now proof.now public_values.now (option_copied key.entry)) }
    ensures exact { RefusedFor result (λ _. ¬ ⟦<Own<F, EF, H, C> as LookupVerdict>⟧.accepted
        config air.now proof.now public_values.now (option_copied key.entry)) }
    ensures sound { OnOk result (⟦<Own<F, EF, H, C> as LookupTables>⟧.tables config air.now
        proof.now public_values.now (option_copied key.entry)) }
    ensures beside { OnOk result (⟦<Own<F, EF, H, C> as LookupTables>⟧.beside config air.now
        proof.now public_values.now (option_copied key.entry)) }
    ensures few { OnOk result (⟦<Own<F, EF, H, C> as LookupTables>⟧.few config air.now proof.now
        public_values.now (option_copied key.entry)) }
{
    verify_shown(alloc, config, air, proof, public_values, key)
}
