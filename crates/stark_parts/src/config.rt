//! What a proof is made with: a commitment scheme, an extension field, a challenger.
ghost use Rattle.std.specs.Prelude.{◌≡◌, ◌+◌, IfOk};
ghost use Rattle.stark_support.specs.FieldPair.{FieldsOps};
ghost use Rattle.stark_support.specs.Scheme.{zk_bits};
ghost use Rattle.stark_parts.specs.Config.{ConfigOps};

use stark_support::{
    CanObserve, DomainVal, ExtensionChallenger, ExtensionField, FieldChallenger, FieldPair,
    PackedExtensionField, PackedField, Pcs, PolynomialSpace, PrimeField64, UnivariateStarkPcs,
};
use std::alloc::{AllocError, Global};
use std::marker::PhantomData;

/// The error with which a configuration's scheme refuses openings.
pub type PcsError<SC> = <<SC as StarkGenericConfig>::Pcs as Pcs<
    <SC as StarkGenericConfig>::Challenge,
    <SC as StarkGenericConfig>::Challenger,
>>::Error;

/// The error with which a configuration's scheme refuses to commit or to open.
pub type PcsProverError<SC> = <<SC as StarkGenericConfig>::Pcs as Pcs<
    <SC as StarkGenericConfig>::Challenge,
    <SC as StarkGenericConfig>::Challenger,
>>::ProverError;

/// The domains of a configuration's scheme.
pub type Domain<SC> = <<SC as StarkGenericConfig>::Pcs as Pcs<
    <SC as StarkGenericConfig>::Challenge,
    <SC as StarkGenericConfig>::Challenger,
>>::Domain;

/// The base field of a configuration.
pub type Val<SC> = <Domain<SC> as PolynomialSpace>::Val;

/// The commitments of a configuration's scheme.
pub type Com<SC> = <<SC as StarkGenericConfig>::Pcs as Pcs<
    <SC as StarkGenericConfig>::Challenge,
    <SC as StarkGenericConfig>::Challenger,
>>::Commitment;

/// Packed values of a configuration's base field.
pub type PackedVal<SC> = <Val<SC> as PackedField>::Packing;

/// Packed values of a configuration's extension field.
pub type PackedChallenge<SC> = <<SC as StarkGenericConfig>::Challenge as PackedExtensionField<
    Val<SC>,
>>::ExtensionPacking;

/// A scheme, an extension field and a challenger that fit each other. Its answers never change.
pub trait StarkGenericConfig: Clone {
    type Pcs: UnivariateStarkPcs<
        Self::Challenge,
        Self::Challenger,
        Domain: PolynomialSpace<Val: PrimeField64>,
    >;

    type Challenge: ExtensionField<Val<Self>>;

    type Challenger: FieldChallenger<Val<Self>>
        + CanObserve<Com<Self>>
        + ExtensionChallenger<Val<Self>, Self::Challenge>;

    ghost config: { ConfigOps Self Self.Pcs Self.Challenger };

    /// The scheme.
    fn pcs(&self) -> &Self::Pcs
        ensures { result.now ≡ config.scheme self.now };

    /// A challenger in the first state. It is Err only where memory was refused.
    fn initialise_challenger(&self, alloc: Global) -> Result<Self::Challenger, AllocError>
        ensures { IfOk result (λ challenger. challenger ≡ config.first_state self.now) };

    /// 1 where the scheme masks what it commits to, and else 0.
    fn is_zk(&self) -> usize
        ensures { result ≡ zk_bits Self.Pcs.ZK }
    {
        if Self::Pcs::ZK { 1 } else { 0 }
    }

    /// How many bits of work are asked for before the challenges of lookups. A STARK of one AIR has
    /// none and reads no such number.
    fn lookup_proof_of_work_bits(&self) -> usize
        ensures { result ≡ config.lookup_bits self.now };

    /// How many bits of work are asked for before the out-of-domain point.
    fn ood_proof_of_work_bits(&self) -> usize
        ensures { result ≡ config.ood_bits self.now };

    /// How many bits of work are asked for before alpha.
    fn constraint_proof_of_work_bits(&self) -> usize
        ensures { result ≡ config.constraint_bits self.now };
}

/// The operations of a configuration's two fields, in one record.
pub trait StarkFields: StarkGenericConfig {
    ghost fields: { FieldsOps Self.Pcs.Domain.Val Self.Challenge };
}

impl<SC: StarkGenericConfig> StarkFields for SC {
    ghost fields = { ⟦<SC::Challenge as FieldPair<Val<SC>>>⟧.fields };
}

/// A scheme, a challenger in its first state and three counts of bits of work.
#[derive(Clone, Debug, Drop)]
pub struct StarkConfig<P, Challenge, Challenger> {
    pub pcs: P,
    pub challenger: Challenger,
    pub lookup_proof_of_work_bits: usize,
    pub ood_proof_of_work_bits: usize,
    pub constraint_proof_of_work_bits: usize,
    pub challenge: PhantomData<Challenge>,
}

impl<P, Challenge, Challenger> StarkConfig<P, Challenge, Challenger> {
    /// The configuration that asks for no work.
    pub fn new(pcs: P, challenger: Challenger) -> StarkConfig<P, Challenge, Challenger>
        ensures pcs { result.pcs ≡ pcs }
        ensures challenger { result.challenger ≡ challenger }
        ensures lookup_bits { result.lookup_proof_of_work_bits ≡ 0 }
        ensures ood_bits { result.ood_proof_of_work_bits ≡ 0 }
        ensures constraint_bits { result.constraint_proof_of_work_bits ≡ 0 }
    {
        StarkConfig {
            pcs,
            challenger,
            lookup_proof_of_work_bits: 0,
            ood_proof_of_work_bits: 0,
            constraint_proof_of_work_bits: 0,
            challenge: PhantomData,
        }
    }

    /// The configuration, but that it asks for so many bits of work before the out-of-domain point.
    pub fn with_ood_proof_of_work_bits(self, bits: usize) -> StarkConfig<P, Challenge, Challenger>
        ensures { result ≡ record self { ood_proof_of_work_bits = bits } }
    {
        StarkConfig {
            ood_proof_of_work_bits: bits,
            ..self
        }
    }

    /// The configuration, but that it asks for so many bits of work before alpha.
    pub fn with_constraint_proof_of_work_bits(
        self,
        bits: usize,
    ) -> StarkConfig<P, Challenge, Challenger>
        ensures { result ≡ record self { constraint_proof_of_work_bits = bits } }
    {
        StarkConfig {
            constraint_proof_of_work_bits: bits,
            ..self
        }
    }

    /// The configuration, but that it asks for so many bits of work before the challenges of
    /// lookups.
    pub fn with_lookup_proof_of_work_bits(
        self,
        bits: usize,
    ) -> StarkConfig<P, Challenge, Challenger>
        ensures { result ≡ record self { lookup_proof_of_work_bits = bits } }
    {
        StarkConfig {
            lookup_proof_of_work_bits: bits,
            ..self
        }
    }
}

impl<P, Challenge, Challenger> StarkGenericConfig for StarkConfig<P, Challenge, Challenger>
where
    P: UnivariateStarkPcs<Challenge, Challenger, Domain: PolynomialSpace<Val: PrimeField64>>
        + Clone,
    Challenge: ExtensionField<DomainVal<P::Domain>>,
    Challenger: FieldChallenger<DomainVal<P::Domain>>
        + CanObserve<P::Commitment>
        + ExtensionChallenger<DomainVal<P::Domain>, Challenge>
        + Clone,
{
    type Pcs = P;

    type Challenge = Challenge;

    type Challenger = Challenger;

    ghost config = { record {
      scheme = λ config. config.pcs;
      first_state = λ config. config.challenger;
      lookup_bits = λ config. config.lookup_proof_of_work_bits;
      ood_bits = λ config. config.ood_proof_of_work_bits;
      constraint_bits = λ config. config.constraint_proof_of_work_bits;
    } };

    fn pcs(&self) -> &P {
        &self.pcs
    }

    fn initialise_challenger(&self, alloc: Global) -> Result<Challenger, AllocError> {
        self.challenger.duplicate(alloc)
    }

    fn lookup_proof_of_work_bits(&self) -> usize {
        self.lookup_proof_of_work_bits
    }

    fn ood_proof_of_work_bits(&self) -> usize {
        self.ood_proof_of_work_bits
    }

    fn constraint_proof_of_work_bits(&self) -> usize {
        self.constraint_proof_of_work_bits
    }
}

/// The places of the rounds in an opening argument. Where the scheme masks, the random commitment
/// comes first.
#[derive(Clone, Copy, Debug)]
pub struct StarkOpeningLayout {
    /// The place of the trace.
    pub trace: usize,
    /// The place of the quotient's chunks.
    pub quotient: usize,
    /// The place of the preprocessed trace, where there is one.
    pub preprocessed: usize,
}

impl StarkOpeningLayout {
    /// Trace, quotient, preprocessed at 0, 1, 2; each one higher where the scheme masks. It takes
    /// no memory.
    pub fn new(is_zk: bool) -> StarkOpeningLayout
        ensures trace { result.trace ≡ zk_bits is_zk }
        ensures quotient { result.quotient ≡ 1 + zk_bits is_zk }
        ensures preprocessed { result.preprocessed ≡ 2 + zk_bits is_zk }
    {
        let trace = if is_zk { 1 } else { 0 };
        StarkOpeningLayout {
            trace,
            quotient: trace + 1,
            preprocessed: trace + 2,
        }
    }
}
