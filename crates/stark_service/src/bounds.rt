//! What statements ask of a field, of its extension, of a challenger and of a configuration, each
//! list in a name. Every type with the traits of a list has its name.

use crate::words::SchemeWords;
use stark_bench::ClearCommitment;
use stark_merkle::Root;
use stark_parts::{Com, PcsError, StarkChallenger, StarkGenericConfig, Val};
use stark_proof_bytes::BytesCodec;
use stark_protocol::PcsProof;
use stark_support::{
    CanObserve, ExtensionField, GrindingChallenger, JsonCodec, NeverNull, PackedExtensionField,
    PackedField, Pcs, PolynomialSpace, PrimeField64, TwoAdicField,
};
use std::fmt::Display;

/// A field over which statements are read and their proofs written, in both forms.
pub trait StatementField: PrimeField64 + TwoAdicField + NeverNull + BytesCodec {}

impl<F: PrimeField64 + TwoAdicField + NeverNull + BytesCodec> StatementField for F {}

/// An extension of such a field, in which challenges lie.
pub trait StatementExtension<F: PrimeField64>: ExtensionField<F> + JsonCodec + BytesCodec + Drop {}

impl<F, EF> StatementExtension<F> for EF
where
    F: PrimeField64,
    EF: ExtensionField<F> + JsonCodec + BytesCodec + Drop,
{}

/// A challenger that takes the commitments of either scheme.
pub trait StatementChallenger<F: PrimeField64, EF: ExtensionField<F>>: StarkChallenger<F, EF, Root>
    + CanObserve<ClearCommitment<F>> {}

impl<F, EF, C> StatementChallenger<F, EF> for C
where
    F: PrimeField64,
    EF: ExtensionField<F>,
    C: StarkChallenger<F, EF, Root> + CanObserve<ClearCommitment<F>>,
{}

/// A configuration whose proofs are read and written, in both forms, and whose challenger asks for
/// work.
pub trait ServiceConfig: StarkGenericConfig<
    Pcs: Pcs<
        Self::Challenge,
        Self::Challenger,
        Domain: PolynomialSpace<Val: NeverNull + BytesCodec>,
        Commitment: NeverNull + BytesCodec,
        Proof: JsonCodec + BytesCodec,
    >,
    Challenge: JsonCodec + BytesCodec,
    Challenger: GrindingChallenger<Witness = Val<Self>>,
> {}

impl<SC> ServiceConfig for SC
where
    SC: StarkGenericConfig,
    SC::Challenge: JsonCodec + BytesCodec,
    SC::Challenger: GrindingChallenger<Witness = Val<SC>>,
    Val<SC>: NeverNull + BytesCodec,
    Com<SC>: NeverNull + BytesCodec,
    PcsProof<SC>: JsonCodec + BytesCodec,
{}

/// One with which proofs are judged: its scheme's faults have words.
pub trait JudgingConfig: ServiceConfig
    + StarkGenericConfig<
        Pcs: Pcs<Self::Challenge, Self::Challenger, Error: SchemeWords + Display>,
    > {}

impl<SC: ServiceConfig> JudgingConfig for SC
where
    PcsError<SC>: SchemeWords + Display,
{}

/// One with which traces are proved.
pub trait ProvingConfig: ServiceConfig
    + StarkGenericConfig<
        Pcs: Pcs<Self::Challenge, Self::Challenger, Domain: PolynomialSpace<Val: PackedField>>,
        Challenge: PackedExtensionField<Val<Self>>,
    > {}

impl<SC> ProvingConfig for SC
where
    SC: ServiceConfig,
    SC::Challenge: PackedExtensionField<Val<SC>>,
    Val<SC>: PackedField,
{}
