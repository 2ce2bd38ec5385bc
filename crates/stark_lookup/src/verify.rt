//! The verifier of proofs with lookups.
ghost use Rattle.std.specs.Option.{option_copied};
ghost use Rattle.std.specs.Prelude.{◌≡◌, List, Option, OnOk, IfOk, IfErr, IsTrue, false, option_map};
ghost use Rattle.stark_parts.specs.declared.config.StarkConfig.{StarkConfig};
ghost use Rattle.stark_protocol.specs.declared.preprocessed.PreprocessedVerifierKey.{PreprocessedVerifierKey};
ghost use Rattle.stark_two_part.specs.declared.pcs.TwoPartPcs.{TwoPartPcs};
ghost use Rattle.stark_lookup_trace.specs.declared.columns.LookupDraws.{LookupDraws};
ghost use Rattle.stark_lookup.specs.LookupErrors.{RefusedFor};
ghost use Rattle.stark_lookup.specs.LookupSound.{FalseNeedsBadDraws};
ghost use Rattle.stark_lookup.specs.LookupVerdict.{IsStarted, LookupAccepted, LookupFault, LookupGiven, LookupOps, OfArguments, OfBeginning, in_parts_from, whole_key};
ghost use Rattle.stark_lookup.specs.OwnLookups.{IsExtended};
ghost use Rattle.stark_lookup.specs.declared.air.LookupAir.{LookupAir};
ghost use Rattle.stark_lookup.specs.declared.error.LookupError.{LookupError};
ghost use Rattle.stark_lookup.specs.declared.proof.LookupProof.{LookupProof};

use crate::air::LookupAir;
use crate::draws::{LookupBinding, draw_lookups};
use crate::error::LookupError;
use crate::proof::LookupProof;
use crate::values::values_with_draws;
use stark_lookup_trace::LookupDraws;
use stark_parts::{StarkChallenger, StarkConfig, StarkGenericConfig};
use stark_protocol::{PreprocessedVerifierKey, StarkInstance, StarkOperations};
use stark_support::{
    CanObserve, DomainVal, ExtensionField, Field, Pcs, PolynomialSpace, PrimeField64, Sponge,
    UnivariateStarkPcs,
};
use stark_tree_air::TreeAir;
use stark_two_part::{InParts, TwoPartPcs};
use stark_verifier::verify_with_preprocessed;
use std::alloc::{AllocError, Global};

/// A configuration whose scheme commits to a trace in two parts.
pub type InPartsConfig<P, EF, C> = StarkConfig<TwoPartPcs<P>, EF, C>;

/// The author's own configuration, over a scheme that knows of no parts.
pub type Plain<P, EF, C> = StarkConfig<P, EF, C>;

/// All that a configuration's types compute for lookups, in one record, and the types that it
/// speaks of beside the configuration's own: those of its base field and of its scheme.
pub trait StarkLookups: StarkGenericConfig {
    ghost Value: { Type 0 };

    ghost Commitment: { Type 0 };

    ghost ProverData: { Type 0 };

    ghost Proof: { Type 0 };

    ghost Error: { Type 0 };

    ghost ProverError: { Type 0 };

    ghost lookups: { LookupOps Self.Pcs Value Self.Challenge Self.Challenger Commitment ProverData
        Proof Error ProverError };
}

impl<P, EF, C> StarkLookups for StarkConfig<P, EF, C>
where
    P: UnivariateStarkPcs<EF, C, Domain: PolynomialSpace<Val: PrimeField64>> + Clone,
    EF: ExtensionField<DomainVal<P::Domain>>,
    C: StarkChallenger<DomainVal<P::Domain>, EF, P::Commitment>
        + CanObserve<InParts<P::Commitment>>,
{
    ghost Value = { P.Domain.Val };

    ghost Commitment = { P.Commitment };

    ghost ProverData = { P.ProverData };

    ghost Proof = { P.Proof };

    ghost Error = { P.Error };

    ghost ProverError = { P.ProverError };

    ghost lookups = { record {
      sponge = ⟦<C as Sponge<DomainVal<P::Domain>, EF, P::Commitment>>⟧.sponge;
      inner = ⟦<InPartsConfig<P, EF, C> as StarkOperations>⟧.operations;
      instance =
          ⟦<InPartsConfig<P, EF, C> as StarkInstance<TreeAir<DomainVal<P::Domain>>>>⟧.instance;
      coordinates = EF.coordinates;
    } };
}

/// What a verdict on a proof with lookups says, of what a verifier is given besides the proof: how
/// the verifier of the extended AIR begins, whether the proof is accepted, what an accepted proof
/// says of the columns, which errors name the first fault.
pub trait LookupVerdict: StarkGenericConfig {
    ghost started: { OfArguments Self Self.Pcs.Domain.Val Self.Challenge Self.Pcs.Commitment
        Self.Pcs.Proof (OfBeginning Self.Pcs Self.Challenge Self.Challenger) };

    ghost accepted: { OfArguments Self Self.Pcs.Domain.Val Self.Challenge Self.Pcs.Commitment
        Self.Pcs.Proof (Type 0) };

    ghost sound: { OfArguments Self Self.Pcs.Domain.Val Self.Challenge Self.Pcs.Commitment
        Self.Pcs.Proof (Type 0) };

    ghost fault: { OfArguments Self Self.Pcs.Domain.Val Self.Challenge Self.Pcs.Commitment
        Self.Pcs.Proof (LookupError Self.Pcs.Error → Type 0) };
}

impl<P, EF, C> LookupVerdict for StarkConfig<P, EF, C>
where
    P: UnivariateStarkPcs<EF, C, Domain: PolynomialSpace<Val: PrimeField64>> + Clone,
    EF: ExtensionField<DomainVal<P::Domain>>,
    C: StarkChallenger<DomainVal<P::Domain>, EF, P::Commitment>
        + CanObserve<InParts<P::Commitment>>,
{
    ghost started = { λ config air proof public_values key.
        IsStarted ⟦<Plain<P, EF, C> as StarkLookups>⟧.lookups
        (record { config = config; air = air; public_values = public_values; key = key }) proof };

    ghost accepted = { λ config air proof public_values key.
        LookupAccepted ⟦<Plain<P, EF, C> as StarkLookups>⟧.lookups
        (record { config = config; air = air; public_values = public_values; key = key }) proof };

    ghost sound = { λ config air proof public_values key.
        FalseNeedsBadDraws ⟦<Plain<P, EF, C> as StarkLookups>⟧.lookups
        (record { config = config; air = air; public_values = public_values; key = key }) proof };

    ghost fault = { λ config air proof public_values key.
        LookupFault ⟦<Plain<P, EF, C> as StarkLookups>⟧.lookups
        (record { config = config; air = air; public_values = public_values; key = key }) proof };
}

/// The configuration over the scheme in two parts, the first of `first_width` columns.
pub fn in_parts<P, EF, C>(
    config: StarkConfig<P, EF, C>,
    first_width: usize,
) -> InPartsConfig<P, EF, C>
    ensures { result ≡ in_parts_from config first_width config.challenger }
{
    StarkConfig {
        pcs: TwoPartPcs {
            inner: config.pcs,
            first_width,
        },
        challenger: config.challenger,
        lookup_proof_of_work_bits: config.lookup_proof_of_work_bits,
        ood_proof_of_work_bits: config.ood_proof_of_work_bits,
        constraint_proof_of_work_bits: config.constraint_proof_of_work_bits,
        challenge: config.challenge,
    }
}

/// A key of a scheme, as one of that in two parts. It is Err only where memory was refused.
fn whole_key<P, EF, C>(
    alloc: Global,
    pcs: &P,
    key: Option<&PreprocessedVerifierKey<P::Commitment>>,
) -> Result<Option<PreprocessedVerifierKey<InParts<P::Commitment>>>, AllocError>
where
    P: Pcs<EF, C>,
    EF: ExtensionField<DomainVal<P::Domain>>,
    ensures { IfOk result (λ whole. whole ≡ option_map whole_key (option_copied key.entry)) }
{
    let Some(key) = key else {
        return Ok(None);
    };
    let commitment = pcs.copy_commitment(alloc, &key.commitment)?;
    Ok(Some(PreprocessedVerifierKey {
        width: key.width,
        degree_bits: key.degree_bits,
        commitment: InParts::Whole(commitment),
    }))
}

/// The commitment of a key, where there is one.
fn commitment_of<'a, K>(key: Option<&'a PreprocessedVerifierKey<K>>) -> Option<&'a K>
    ensures { option_copied result ≡ option_map (λ key. key.commitment) (option_copied key.entry) }
{
    match key {
        Some(key) => Some(&key.commitment),
        None => None,
    }
}

/// Whether a witness is zero where no work is required.
fn is_canonical<F: Field>(bits: usize, witness: F) -> bool
    ensures canonical { IsTrue result → bits ≡ 0 → witness ≡ F.ring.zero }
    ensures other { result ≡ false → (bits ≡ 0 → witness ≡ F.ring.zero) → ⊥ }
{
    bits > 0 || witness == F::ZERO
}

/// The tests before the verifier of the extended AIR, and with which configuration and draws it
/// begins.
fn start<P, EF, C>(
    config: StarkConfig<P, EF, C>,
    air: &LookupAir<DomainVal<P::Domain>>,
    proof: &LookupProof<P::Commitment, EF, P::Proof, DomainVal<P::Domain>>,
    public_values: &[DomainVal<P::Domain>],
    key: Option<&PreprocessedVerifierKey<P::Commitment>>,
) -> Result<(InPartsConfig<P, EF, C>, LookupDraws<EF>), LookupError<P::Error>>
where
    P: UnivariateStarkPcs<EF, C, Domain: PolynomialSpace<Val: PrimeField64>> + Clone,
    EF: ExtensionField<DomainVal<P::Domain>>,
    C: StarkChallenger<DomainVal<P::Domain>, EF, P::Commitment>
        + CanObserve<InParts<P::Commitment>>,
    ensures started { IfOk result (λ s. ⟦<Plain<P, EF, C> as LookupVerdict>⟧.started config
        air.now proof.now public_values.now (option_copied key.entry) s.0 s.1) }
    ensures fault { IfErr result (⟦<Plain<P, EF, C> as LookupVerdict>⟧.fault config
        air.now proof.now public_values.now (option_copied key.entry)) }
{
    // A trace that is committed to whole fixes nothing before the draws: its own columns could be
    // chosen knowing them.
    let InParts::Parts(main, _) = &proof.inner.commitments.trace else {
        return Err(LookupError::NotInParts);
    };
    let bits = config.lookup_proof_of_work_bits;
    let witness = proof.lookup_pow_witness;
    if !is_canonical(bits, witness) {
        return Err(LookupError::NonCanonicalLookupPowWitness);
    }
    let binding = LookupBinding {
        degree_bits: proof.inner.degree_bits,
        main,
        key: commitment_of(key),
        public_values,
    };
    let mut config = in_parts(config, air.own.declaration.columns.width);
    let Some(draws) = draw_lookups(&mut config.challenger, &binding, bits, witness) else {
        return Err(LookupError::InvalidLookupPowWitness);
    };
    Ok((config, draws))
}

/// Whether a proof is one for the AIR with these public values, and the AIR's lookups balance.
/// `key` is the key of the preprocessed columns by the configuration's own scheme, None for an AIR
/// without them. The configuration's challenger has observed the statement, and is used up: the
/// draws go on from its state. Nothing is asked of proof, public values and key: the answer is Ok
/// exactly where the proof is accepted, and else the error of the first fault. The tests are made
/// in this order:
///
/// - the commitment to the trace, which is in two parts (`NotInParts`);
/// - a witness that isn't zero where no work is required (`NonCanonicalLookupPowWitness`);
/// - the work before the draws (`InvalidLookupPowWitness`);
/// - those of `verify_with_preprocessed` over the extended AIR, the two-part scheme and the public
///   values with the draws' coordinates (`Extended`).
///
/// `OutOfMemory` may come at the last of these, only where memory was refused.
///
/// `sound`: take any columns and chunks that take the opened values, as many columns of the AIR's
/// own as it has. Where these break one of its constraints, alpha or zeta is bad for the columns
/// with the auxiliary ones. Where they leave a tuple unbalanced, beta hides the tuple, or gamma is
/// one of those by which some auxiliary columns pass, or alpha or zeta is bad. `few` says how few
/// betas and gammas these are. Balance is counted in the field: with fewer entries than its
/// characteristic it is that of multisets.
pub fn verify_with_lookups<P, EF, C>(
    alloc: Global,
    config: StarkConfig<P, EF, C>,
    air: &LookupAir<DomainVal<P::Domain>>,
    proof: &LookupProof<P::Commitment, EF, P::Proof, DomainVal<P::Domain>>,
    public_values: &[DomainVal<P::Domain>],
    key: Option<&PreprocessedVerifierKey<P::Commitment>>,
) -> Result<(), LookupError<P::Error>>
where
    P: UnivariateStarkPcs<EF, C, Domain: PolynomialSpace<Val: PrimeField64>> + Clone,
    EF: ExtensionField<DomainVal<P::Domain>>,
    C: StarkChallenger<DomainVal<P::Domain>, EF, P::Commitment>
        + CanObserve<InParts<P::Commitment>>,
    requires extended { IsExtended EF.DIMENSION EF.ring EF.basis EF.coordinates
        P.Domain.Val.ring air.now }
    ensures accepted { OnOk result (⟦<Plain<P, EF, C> as LookupVerdict>⟧.accepted config
        air.now proof.now public_values.now (option_copied key.entry)) }
    ensures sound { OnOk result (⟦<Plain<P, EF, C> as LookupVerdict>⟧.sound config air.now
        proof.now public_values.now (option_copied key.entry)) }
    ensures refused { RefusedFor result (⟦<Plain<P, EF, C> as LookupVerdict>⟧.fault
        config air.now proof.now public_values.now (option_copied key.entry)) }
    ensures exact { RefusedFor result (λ _. ¬ ⟦<Plain<P, EF, C> as LookupVerdict>⟧.accepted
        config air.now proof.now public_values.now (option_copied key.entry)) }
{
    // The proof of the extended AIR begins in the state after the draws, so that alpha and zeta
    // come after all that these are bound to.
    let (config, draws) = start(config, air, proof, public_values, key)?;
    // The draws are put among the public values here: the constraints of the lookups read them
    // there, and a prover's own would do for any tuples.
    let values = values_with_draws(alloc, public_values, draws, air.key_width)?;
    let key = whole_key(alloc, &config.pcs.inner, key)?;
    let inner = &proof.inner;
    verify_with_preprocessed(alloc, &config, &air.extended, inner, &values, key.as_ref())?;
    Ok(())
}
