//! Commitment schemes for columns of polynomials.
ghost use Rattle.std.specs.Prelude.{◌≡◌, ◌≤◌, ◌<◌, ◌*◌, ◌^◌, ◌/◌, ℕ, Bool, IfOk, IfSome, is_some, length};
ghost use Rattle.std.specs.Int.{IsPowerOfTwo};
ghost use Rattle.stark_support.specs.Claims.{IfRefusal, claims_view, rounds_view};
ghost use Rattle.stark_support.specs.Coset.{coset_size};
ghost use Rattle.stark_support.specs.Scheme.{SchemeLaws, SchemeOps, natural_coset, zk_bits};
ghost use Rattle.stark_support.specs.declared.scheme.SchemeFault.TheVariants.{OutOfMemory};
ghost use Rattle.stark_support.specs.SchemeClauses.{AcceptsClaims, CommitsChunks, CommitsColumns, CommitsRows, EvaluatesRows, IsTableOf, OpeningOps, OpensTrueValues, ProvesTrueClaims};

use crate::claims::{OpenedRounds, OpeningClaim, OpeningRound};
use crate::domain::PolynomialSpace;
use crate::field::{ExtensionField, FieldPair};
use crate::matrix::RowMajorMatrix;
use crate::periodic::PeriodicColumns;
use crate::periodic_table::PeriodicLdeTable;
use std::alloc::{AllocError, AllocFailed, Global};
use thiserror::Error;

/// Why a scheme's call gave no answer.
#[derive(Debug, Drop, Error)]
pub enum SchemeFault<E> {
    /// The scheme refuses, for this reason.
    #[error("the commitment scheme refuses")]
    Refused(E),
    /// Memory was refused.
    #[error("out of memory")]
    OutOfMemory,
}

impl<E> From<AllocError> for SchemeFault<E> {
    ghost from_gives = { λ _ fault. fault ≡ OutOfMemory };

    fn from(_error: AllocError) -> Self {
        SchemeFault::OutOfMemory
    }
}

impl<T: Drop, E> From<AllocFailed<T>> for SchemeFault<E> {
    ghost from_gives = { λ _ fault. fault ≡ OutOfMemory };

    fn from(_failed: AllocFailed<T>) -> Self {
        SchemeFault::OutOfMemory
    }
}

/// The elements of the field that a scheme's domains lie in.
pub type DomainVal<D> = <D as PolynomialSpace>::Val;

/// A scheme that commits to matrices. A committed column is a polynomial of degree below the size
/// of the matrix's domain.
pub trait Pcs<EF, C>
where
    EF: ExtensionField<DomainVal<Self::Domain>>,
{
    type Domain: PolynomialSpace;

    type Commitment: Drop;

    type ProverData: Drop;

    type Proof: Drop;

    type Error: Drop;

    type ProverError: Drop;

    ghost ZK: { Bool };

    ghost scheme: { SchemeOps Self Self.Domain.Val EF C Self.Commitment Self.ProverData Self.Proof
        Self.Error Self.ProverError };

    /// Whether the scheme masks what it commits to.
    const ZK: bool;

    /// The subgroup of so many points.
    fn natural_domain_for_degree(&self, degree: usize) -> Self::Domain
        requires power { IsPowerOfTwo degree }
        requires within { degree ≤ 2 ^ scheme.log_max_trace_height self.now }
        ensures shift { (Self.Domain.coset_of result).shift ≡ Self.Domain.Val.ring.one }
        ensures size { coset_size (Self.Domain.coset_of result) ≡ degree }
        ensures natural { (log_degree : ℕ) → 2 ^ log_degree ≡ degree → Self.Domain.coset_of result
            ≡ natural_coset Self.Domain.Val.ring log_degree };

    /// An equal commitment.
    fn copy_commitment(
        &self,
        alloc: Global,
        commitment: &Self::Commitment,
    ) -> Result<Self::Commitment, AllocError>
        ensures { IfOk result (λ copy. copy ≡ commitment.now) };

    /// Commits to a matrix whose columns take its rows on the natural domain of its height
    /// (`stands`), as this call does, with the masks that a scheme has (`made`).
    fn commit(
        &self,
        alloc: Global,
        domain: Self::Domain,
        matrix: RowMajorMatrix<DomainVal<Self::Domain>>,
    ) -> Result<(Self::Commitment, Self::ProverData), SchemeFault<Self::ProverError>>
        requires power { IsPowerOfTwo (length matrix.values.items / matrix.width) }
        requires within { coset_size (Self.Domain.coset_of domain) ≤ 2 ^ scheme.log_max_trace_height
            self.now }
        requires room { length matrix.values.items / matrix.width
            ≤ coset_size (Self.Domain.coset_of domain) }
        ensures stands { IfOk result (CommitsRows scheme Self.Domain.Val.ring Self.Domain.Val.root
            self.now (Self.Domain.coset_of domain) matrix) }
        ensures made { IfOk result (scheme.calls.Commits self.now (Self.Domain.coset_of domain)
            matrix.values.items matrix.width) }
        ensures refused { IfRefusal result
            (scheme.RefusesCommit self.now (Self.Domain.coset_of domain) matrix.values.items
            matrix.width) };

    /// The committed columns' values at the domain's points, a row a point; `index` is the matrix's
    /// place in the commitment.
    fn get_evaluations_on_domain(
        &self,
        alloc: Global,
        prover_data: &Self::ProverData,
        index: usize,
        domain: Self::Domain,
    ) -> Result<RowMajorMatrix<DomainVal<Self::Domain>>, AllocError>
        ensures { IfOk result (EvaluatesRows scheme Self.Domain.Val.ring Self.Domain.Val.root
            self.now prover_data.now index (Self.Domain.coset_of domain)) };
}

/// What an opening argument is about, in one record: the fields, whether the scheme masks, the
/// scheme.
pub trait Opening<EF, C>: Pcs<EF, C>
where
    EF: ExtensionField<DomainVal<Self::Domain>>,
{
    ghost opening: { OpeningOps Self Self.Domain.Val EF C Self.Commitment Self.ProverData Self.Proof
        Self.Error Self.ProverError };
}

impl<EF, C, P: Pcs<EF, C>> Opening<EF, C> for P
where
    EF: ExtensionField<DomainVal<P::Domain>>,
{
    ghost opening = { record {
      fields = ⟦<EF as FieldPair<DomainVal<P::Domain>>>⟧.fields;
      is_zk = P.ZK;
      scheme = P.scheme;
    } };
}

/// A scheme that serves a STARK of one AIR.
pub trait UnivariateStarkPcs<EF, C>: Pcs<EF, C>
where
    EF: ExtensionField<DomainVal<Self::Domain>>,
{
    /// The logarithm of the least height of a trace.
    fn log_min_trace_height(&self) -> usize
        ensures { result ≡ Self.scheme.log_min_trace_height self.now };

    /// The logarithm of the greatest height of a trace.
    fn log_max_trace_height(&self) -> usize
        ensures { result ≡ Self.scheme.log_max_trace_height self.now };

    /// Commits to a matrix that is known to prover and verifier, and so wants no mask, on the terms
    /// of `commit`.
    fn commit_preprocessing(
        &self,
        alloc: Global,
        domain: Self::Domain,
        matrix: RowMajorMatrix<DomainVal<Self::Domain>>,
    ) -> Result<(Self::Commitment, Self::ProverData), SchemeFault<Self::ProverError>>
        requires power { IsPowerOfTwo (length matrix.values.items / matrix.width) }
        requires within { coset_size (Self.Domain.coset_of domain)
            ≤ 2 ^ Self.scheme.log_max_trace_height self.now }
        requires room { length matrix.values.items / matrix.width
            ≤ coset_size (Self.Domain.coset_of domain) }
        ensures stands { IfOk result (CommitsRows Self.scheme Self.Domain.Val.ring
            Self.Domain.Val.root self.now (Self.Domain.coset_of domain) matrix) }
        ensures made { IfOk result (Self.scheme.calls.CommitsPreprocessing self.now
            (Self.Domain.coset_of domain) matrix.values.items matrix.width) }
        ensures refused { IfRefusal result
            (Self.scheme.RefusesPreprocessing self.now (Self.Domain.coset_of domain)
            matrix.values.items matrix.width) };

    /// Commits to a quotient's values on a domain, a row a point, in `num_chunks` chunks: chunk `i`
    /// takes the rows `i`, `i + num_chunks`, .. on its part of the domain, and is committed on the
    /// natural domain of the part's size times `2^is_zk`.
    fn commit_quotient(
        &self,
        alloc: Global,
        domain: Self::Domain,
        flat: RowMajorMatrix<DomainVal<Self::Domain>>,
        num_chunks: usize,
    ) -> Result<(Self::Commitment, Self::ProverData), SchemeFault<Self::ProverError>>
        requires height { length flat.values.items
            ≡ coset_size (Self.Domain.coset_of domain) * flat.width }
        requires power { IsPowerOfTwo num_chunks }
        requires parts { num_chunks ≤ coset_size (Self.Domain.coset_of domain) }
        requires within { coset_size (Self.Domain.coset_of domain) * 2 ^ zk_bits Self.ZK
            ≤ num_chunks * 2 ^ Self.scheme.log_max_trace_height self.now }
        ensures stands { IfOk result (CommitsChunks ⟦<Self as Opening<EF, C>>⟧.opening
            self.now (Self.Domain.coset_of domain) flat num_chunks) }
        ensures made { IfOk result (Self.scheme.calls.CommitsQuotient self.now
            (Self.Domain.coset_of domain) flat.values.items flat.width num_chunks) }
        ensures refused { IfRefusal result
            (Self.scheme.RefusesQuotient self.now (Self.Domain.coset_of domain)
            flat.values.items flat.width num_chunks) };

    /// Commits to as many columns as the extension has coordinates, of the scheme's own choice.
    /// There is one exactly where the scheme masks.
    fn get_opt_randomization_poly_commitment(
        &self,
        alloc: Global,
        domain: Self::Domain,
    ) -> Result<Option<(Self::Commitment, Self::ProverData)>, SchemeFault<Self::ProverError>>
        requires within { coset_size (Self.Domain.coset_of domain)
            ≤ 2 ^ Self.scheme.log_max_trace_height self.now }
        ensures there { IfOk result (λ made. is_some made ≡ Self.ZK) }
        ensures stands { IfOk result (λ made.
            IfSome made (CommitsColumns Self.scheme self.now (Self.Domain.coset_of domain)
            EF.DIMENSION)) }
        ensures made { IfOk result (λ made.
            IfSome made (Self.scheme.calls.Randomizes self.now (Self.Domain.coset_of domain))) }
        ensures refused { IfRefusal result
            (Self.scheme.RefusesRandomization self.now (Self.Domain.coset_of domain)) };

    /// As `get_evaluations_on_domain`, of what `commit_preprocessing` made; the same call where a
    /// scheme doesn't say otherwise.
    fn get_evaluations_on_domain_no_random(
        &self,
        alloc: Global,
        prover_data: &Self::ProverData,
        index: usize,
        domain: Self::Domain,
    ) -> Result<RowMajorMatrix<DomainVal<Self::Domain>>, AllocError>
        ensures { IfOk result (EvaluatesRows Self.scheme Self.Domain.Val.ring Self.Domain.Val.root
            self.now prover_data.now index (Self.Domain.coset_of domain)) }
    {
        self.get_evaluations_on_domain(alloc, prover_data, index, domain)
    }

    /// The values of periodic columns at each point of a domain, beside a trace on another.
    fn build_periodic_lde_table(
        &self,
        alloc: Global,
        columns: &PeriodicColumns<'_, DomainVal<Self::Domain>>,
        trace_domain: Self::Domain,
        quotient_domain: Self::Domain,
    ) -> Result<PeriodicLdeTable<DomainVal<Self::Domain>>, AllocError>
        requires { columns.now.trace_len ≡ coset_size (Self.Domain.coset_of trace_domain) }
        ensures { IfOk result (IsTableOf ⟦<Self as Opening<EF, C>>⟧.opening.fields
            Self.Domain.coset_of trace_domain quotient_domain columns.now) };

    /// Opens commitments at points. `preprocessed_index` is the place of the round that was
    /// committed by `commit_preprocessing`, if there is one.
    fn open_with_preprocessing(
        &self,
        alloc: Global,
        rounds: Vec<OpeningRound<'_, EF, Self::ProverData>>,
        challenger: &mut C,
        preprocessed_index: Option<usize>,
    ) -> Result<(OpenedRounds<EF>, Self::Proof), SchemeFault<Self::ProverError>>
        ensures true_values { IfOk result (OpensTrueValues Self.scheme EF.ring EF.embed self.now
            rounds.entry) }
        ensures holds { IfOk result (ProvesTrueClaims Self.scheme EF.ring EF.embed self.now
            rounds.entry challenger.old preprocessed_index) }
        ensures refused { IfRefusal result
            (Self.scheme.RefusesOpening self.now (rounds_view rounds.entry) challenger.old
            preprocessed_index) };

    /// Whether the claims hold. It is Ok exactly where the scheme accepts them, want of memory
    /// aside.
    fn verify_with_preprocessing(
        &self,
        alloc: Global,
        claims: Vec<OpeningClaim<'_, EF, Self::Commitment, Self::Domain>>,
        proof: &Self::Proof,
        challenger: &mut C,
        preprocessed_index: Option<usize>,
    ) -> Result<(), SchemeFault<Self::Error>>
        ensures accepted { IfOk result (λ _.
            AcceptsClaims Self.scheme Self.Domain.coset_of self.now claims.entry proof.now
            challenger.old preprocessed_index) }
        ensures refused { IfRefusal result
            (Self.scheme.Refuses self.now (claims_view Self.Domain.coset_of claims.entry)
            proof.now challenger.old preprocessed_index) };

    ghost scheme_laws: { SchemeLaws Self.scheme };
}
