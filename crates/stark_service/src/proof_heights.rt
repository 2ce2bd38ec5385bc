//! The heights that proofs speak of.

ghost use Rattle.std.specs.Prelude.{◌≡◌, ℕ, List, Option, IfOk, IfSome, option_map};
ghost use Rattle.stark_statement.specs.Configuration.{FriNumbers, scheme_numbers};
ghost use Rattle.stark_statement.specs.declared.configuration.FieldName.{FieldName};
ghost use Rattle.stark_answers.specs.declared.verdict.Verdict.{Verdict};
ghost use Rattle.stark_service.specs.Floor.{height_by};
ghost use Rattle.stark_service.specs.Schemes.{HoldsOfBytes, OverField};

use crate::bounds::{ServiceConfig, StatementChallenger, StatementExtension, StatementField};
use crate::reading::read_proof;
use crate::schemes::{ClearConfig, FriConfig};
use crate::service::StarkService;
use crate::statement::{NamedFields, read_configured};
use stark_answers::{Report, Verdict};
use stark_bench::{
    BabyBearField, ClearCommitment, Ext4, F12289, KoalaBearField, Modulus, Residue, Scalar,
    Sha256Challenger,
};
use stark_merkle::Root;
use stark_parts::StarkChallenger;
use stark_protocol::StarkProof;
use stark_statement::{Configuration, FieldName, SchemeChoice};
use stark_support::CanObserve;
use std::alloc::{AllocError, Global};

/// The elements of a field whose modulus has at most 31 bits.
type Base<M> = Residue<M, Scalar>;

/// The challenger of SHA-256 over a field.
type Hashing<F> = Sha256Challenger<F>;

/// The heights that proofs over a field speak of, with its extension and a challenger. It has no
/// code.
pub trait FieldHeights<EF, C>: Sized {
    /// The logarithm of the height that the bytes' proof speaks of, by the scheme; none where they
    /// spell no proof.
    ghost height: { Option FriNumbers → List ℕ → Option ℕ };
}

impl<F, EF, C> FieldHeights<EF, C> for F
where
    F: StatementField,
    EF: StatementExtension<F>,
    C: StatementChallenger<F, EF>,
{
    ghost height = { λ scheme proof. height_by scheme
        (⟦<FriConfig<F, EF, C> as StarkService>⟧.service.reading proof)
        (⟦<ClearConfig<F, EF, C> as StarkService>⟧.service.reading proof) };
}

/// A field over which proofs are read.
trait HeightField: Sized {
    /// The logarithm of the height that the bytes' proof speaks of, by the scheme; none where they
    /// spell no proof.
    ghost height: { Option FriNumbers → List ℕ → Option ℕ };

    /// It. Err only where memory was refused.
    fn log_height(
        alloc: Global,
        scheme: SchemeChoice,
        proof: &[u8],
    ) -> Result<Option<usize>, AllocError>
        ensures { IfOk result (λ h. height (scheme_numbers scheme) proof.now ≡ h) };
}

impl<M: Modulus> HeightField for Residue<M, Scalar> {
    ghost height = { ⟦<Base<M> as FieldHeights<Ext4<Base<M>>, Hashing<Base<M>>>>⟧.height };

    fn log_height(
        alloc: Global,
        scheme: SchemeChoice,
        proof: &[u8],
    ) -> Result<Option<usize>, AllocError> {
        log_height_over::<Self, Ext4<Self>, Hashing<Self>>(alloc, scheme, proof)
    }
}

impl HeightField for F12289 {
    ghost height = { ⟦<F12289 as FieldHeights<Ext4<F12289>, Hashing<F12289>>>⟧.height };

    fn log_height(
        alloc: Global,
        scheme: SchemeChoice,
        proof: &[u8],
    ) -> Result<Option<usize>, AllocError> {
        log_height_over::<F12289, Ext4<F12289>, Hashing<F12289>>(alloc, scheme, proof)
    }
}

/// The height that a proof speaks of, by the field and the scheme of a configuration. It has no
/// code.
trait ConfiguredHeights {
    ghost height_is: { FieldName → Option FriNumbers → List ℕ → Option ℕ → Type 0 };
}

impl ConfiguredHeights for NamedFields {
    ghost height_is = { λ field scheme proof h. OverField field
        (⟦<BabyBearField as HeightField>⟧.height scheme proof ≡ h)
        (⟦<KoalaBearField as HeightField>⟧.height scheme proof ≡ h)
        (⟦<F12289 as HeightField>⟧.height scheme proof ≡ h) };
}

/// The height that a proof speaks of, from the bytes of a statement and of the proof. It has no
/// code.
pub trait ProofHeights {
    /// For the statement the bytes spell a proof, which speaks of this height.
    ghost height: { List ℕ → List ℕ → ℕ → Type 0 };
}

impl ProofHeights for NamedFields {
    ghost height = { λ statement proof k. HoldsOfBytes (λ c d.
        ⟦<NamedFields as ConfiguredHeights>⟧.height_is c.field c.fri proof
        (Option.Some k)) statement };
}

/// No height, for want of something else than memory.
fn no_height(report: &Report<Verdict>) -> Result<Option<usize>, AllocError>
    ensures { IfOk result (λ h. (h ≡ Option.None)
        × (report.now.answer ≡ Verdict.OutOfMemory → ⊥)) }
{
    match report.answer {
        Verdict::OutOfMemory => Err(AllocError),
        _ => Ok(None),
    }
}

/// The logarithm of the height that a proof speaks of, with a configuration's types; None where the
/// bytes spell no proof.
fn log_height_in<SC: ServiceConfig>(
    alloc: Global,
    bytes: &[u8],
) -> Result<Option<usize>, AllocError>
    ensures { IfOk result (λ height. option_map (λ p. p.degree_bits)
        (⟦<SC as StarkService>⟧.service.reading bytes.now) ≡ height) }
{
    let read: Result<StarkProof<SC>, Report<Verdict>> = read_proof(alloc, bytes);
    match read {
        Ok(proof) => Ok(Some(proof.degree_bits)),
        Err(report) => no_height(&report),
    }
}

/// The same over a field, by a scheme.
fn log_height_over<F, EF, C>(
    alloc: Global,
    scheme: SchemeChoice,
    bytes: &[u8],
) -> Result<Option<usize>, AllocError>
where
    F: StatementField,
    EF: StatementExtension<F>,
    C: StarkChallenger<F, EF, Root> + CanObserve<ClearCommitment<F>>,
    ensures { IfOk result (λ height. ⟦<F as FieldHeights<EF, C>>⟧.height
        (scheme_numbers scheme) bytes.now ≡ height) }
{
    match scheme {
        SchemeChoice::Fri(_) => log_height_in::<FriConfig<F, EF, C>>(alloc, bytes),
        SchemeChoice::Clear => log_height_in::<ClearConfig<F, EF, C>>(alloc, bytes),
    }
}

/// The same by a configuration. Err only where memory was refused.
fn log_height_by(
    alloc: Global,
    configuration: Configuration,
    proof: &[u8],
) -> Result<Option<usize>, AllocError>
    ensures { IfOk result (⟦<NamedFields as ConfiguredHeights>⟧.height_is configuration.field
        (scheme_numbers configuration.scheme) proof.now) }
{
    let scheme = configuration.scheme;
    match configuration.field {
        FieldName::BabyBear => BabyBearField::log_height(alloc, scheme, proof),
        FieldName::KoalaBear => KoalaBearField::log_height(alloc, scheme, proof),
        FieldName::F12289 => F12289::log_height(alloc, scheme, proof),
    }
}

/// The logarithm of the height that a proof for a statement speaks of; None where there is no
/// configuration or no proof. Err only where memory was refused.
pub(crate) fn log_height_of(
    alloc: Global,
    statement: Vec<u8>,
    proof: &[u8],
) -> Result<Option<usize>, AllocError>
    ensures is { IfOk result (λ h. IfSome h
        (⟦<NamedFields as ProofHeights>⟧.height statement.items proof.now)) }
    ensures only { IfOk result (λ h. (k : ℕ)
        → ⟦<NamedFields as ProofHeights>⟧.height statement.items proof.now k
        → h ≡ Option.Some k) }
{
    match read_configured(alloc, statement) {
        Ok((_value, configuration)) => log_height_by(alloc, configuration, proof),
        Err(report) => no_height(&report),
    }
}
