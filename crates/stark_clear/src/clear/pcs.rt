//! The scheme in the clear.
ghost use Rattle.std.specs.Prelude.{◌≡◌, ◌≢◌, ◌≤◌, ◌↔◌, ◌/◌, ◌*◌, ◌^◌, IsTrue, None, false, length, Result, IfErr, IfOk};
ghost use Rattle.std.specs.Int.{IsPowerOfTwo};
ghost use Rattle.stark_support.specs.Claims.{IfRefusal, claims_view};
ghost use Rattle.stark_support.specs.Coset.{coset_from};
ghost use Rattle.stark_support.specs.Scheme.{zk_bits};
ghost use Rattle.stark_columns.specs.ColumnPoints.{height_of};
ghost use Rattle.stark_clear.specs.ClearFacts.{clear_laws};
ghost use Rattle.stark_clear.specs.ClearCalls.{clear_calls, IsPlainCommitment, IsPlainQuotient};
ghost use Rattle.stark_clear.specs.ClearScheme.{clear_pcs, clear_scheme, stopping_pcs, AcceptsTrue, RefusesClaims, StopsProving, StopsVerifying};
ghost use Rattle.stark_clear.specs.Stops.{StopsAt};
ghost use Rattle.stark_support.specs.SchemeClauses.{CommitsChunks, CommitsRows, OpensTrueValues, ProvesTrueClaims, RowsStand, IsTableOver};

use crate::clear::call::ClearCall;
use crate::clear::check::{ClearError, check_claims};
use crate::clear::commit::{committed, committed_alone, copied};
use crate::clear::opening::open_rounds;
use stark_bench::{ClearCommitment, Coset};
use stark_columns::{chunks_of, columns_of, rows_on};
use stark_dft::periodic_lde_table;
use stark_support::{
    ExtensionField, OpenedRounds, Opening, OpeningClaim, OpeningRound, Pcs, PeriodicColumns,
    PeriodicLdeTable, PolynomialSpace, RowMajorMatrix, SchemeFault, TwoAdicField,
    UnivariateStarkPcs, log2_strict_usize,
};
use std::alloc::{AllocError, Global};
use std::marker::PhantomData;
use thiserror::Error;

/// Why the prover's side of the scheme in the clear gives no answer.
#[derive(Debug, Drop, Error)]
pub enum ClearProverError {
    /// The scheme was made to stop at this call.
    #[error("stopped")]
    Stopped,
}

/// The proof of an opening in the clear: nothing, since the commitment shows its columns.
#[derive(Clone, Copy, Debug, Drop, PartialEq, Eq)]
pub struct ClearProof;

/// A scheme that commits to columns by listing their coefficients, so that it hides nothing and
/// needs no proof of an opening. Each committed column has as many coefficients as its domain has
/// points. It commits to traces of 1 to `2^TWO_ADICITY` rows, by transforms in a time of n log n,
/// and leaves the challenger alone. Verifying is Ok exactly where all claims are true of the listed
/// columns; else it names the first round at fault. It is never refused for want of memory: it
/// takes some for the powers of a point, and where that is refused it takes longer. It may be made
/// to stop at one call, which then refuses, for tests of the layers above.
#[derive(Clone, Debug, Drop)]
pub struct ClearPcs<F> {
    pub field: PhantomData<F>,
    pub stops_at: Option<ClearCall>,
}

/// What a commitment gives: itself, and what the prover keeps of it.
pub(crate) type Committed<F> = Result<
    (ClearCommitment<F>, ClearCommitment<F>),
    SchemeFault<ClearProverError>,
>;

impl<F> ClearPcs<F> {
    /// The scheme. It takes no memory.
    pub fn new() -> ClearPcs<F>
        ensures { result ≡ clear_pcs }
    {
        ClearPcs {
            field: PhantomData,
            stops_at: None,
        }
    }

    /// The scheme that stops at this call: the call refuses with `Stopped` whatever it is handed,
    /// and each other call answers as ever.
    pub fn stopping_at(call: ClearCall) -> ClearPcs<F>
        ensures { result ≡ stopping_pcs call }
    {
        ClearPcs {
            field: PhantomData,
            stops_at: Some(call),
        }
    }

    /// Whether the scheme refuses at this call.
    fn stops(&self, call: ClearCall) -> bool
        ensures { IsTrue result ↔ StopsAt self.now.stops_at call }
    {
        match self.stops_at {
            Some(named) => named == call,
            None => false,
        }
    }

    /// The refusal of a call with this error, where the scheme stops there.
    pub(crate) fn pass<E: Drop>(&self, call: ClearCall, stopped: E) -> Result<(), SchemeFault<E>>
        ensures goes { IfOk result (λ _. StopsAt self.now.stops_at call → ⊥) }
        ensures stops { IfErr result (λ fault. StopsAt self.now.stops_at call
            × (fault ≡ SchemeFault.Refused stopped)) }
    {
        if self.stops(call) {
            return Err(SchemeFault::Refused(stopped));
        }
        Ok(())
    }
}

impl<F: TwoAdicField> ClearPcs<F> {
    /// The commitment to a matrix by columns without masks, where the scheme doesn't stop at this
    /// call.
    fn committed_plain<EF: ExtensionField<F>, C>(
        &self,
        alloc: Global,
        domain: &Coset<F>,
        matrix: &RowMajorMatrix<F>,
        call: ClearCall,
    ) -> Committed<F>
        requires power { IsPowerOfTwo (height_of matrix.now) }
        requires within { 2 ^ domain.now.log_size ≤ 2 ^ F.TWO_ADICITY }
        requires room { height_of matrix.now ≤ 2 ^ domain.now.log_size }
        ensures stands { RowsStand ⟦<ClearPcs<F> as Opening<EF, C>>⟧.opening self.now
            (coset_from domain.now.shift domain.now.log_size) matrix.now result }
        ensures refused { IfRefusal result (λ _. StopsAt self.now.stops_at call) }
        ensures made { IfOk result (IsPlainCommitment F.ring matrix.now) }
        ensures stops { StopsProving self.now.stops_at call result }
    {
        self.pass(call, ClearProverError::Stopped)?;
        let columns = columns_of(alloc, domain, matrix)?;
        let made = committed_alone(alloc, columns)?;
        Ok(made)
    }
}

impl<F: TwoAdicField, EF: ExtensionField<F>, C> Pcs<EF, C> for ClearPcs<F> {
    type Domain = Coset<F>;

    type Commitment = ClearCommitment<F>;

    type ProverData = ClearCommitment<F>;

    type Proof = ClearProof;

    type Error = ClearError;

    type ProverError = ClearProverError;

    ghost ZK = { false };

    ghost scheme = { clear_scheme EF.ring EF.embed F.TWO_ADICITY (λ s.
        s.stops_at) (clear_calls F.ring F.root) };

    const ZK: bool = false;

    fn natural_domain_for_degree(&self, degree: usize) -> Coset<F> {
        Coset::subgroup(log2_strict_usize(degree))
    }

    fn copy_commitment(
        &self,
        alloc: Global,
        commitment: &ClearCommitment<F>,
    ) -> Result<ClearCommitment<F>, AllocError> {
        let copy = copied(alloc, commitment.matrices())?;
        Ok(ClearCommitment::new(copy))
    }

    fn commit(&self, alloc: Global, domain: Coset<F>, matrix: RowMajorMatrix<F>) -> Committed<F>
        requires power { IsPowerOfTwo (height_of matrix) }
        requires within { 2 ^ domain.log_size ≤ 2 ^ F.TWO_ADICITY }
        requires room { height_of matrix ≤ 2 ^ domain.log_size }
        ensures stands { IfOk result (CommitsRows ⟦<ClearPcs<F> as Pcs<EF, C>>⟧.scheme F.ring F.root
            self.now (coset_from domain.shift domain.log_size) matrix) }
        ensures refused { IfRefusal result (λ _. StopsAt self.now.stops_at ClearCall.Commit) }
        ensures made { IfOk result (IsPlainCommitment F.ring matrix) }
        ensures stops { StopsProving self.now.stops_at ClearCall.Commit result }
    {
        self.committed_plain::<EF, C>(alloc, &domain, &matrix, ClearCall::Commit)
    }

    fn get_evaluations_on_domain(
        &self,
        alloc: Global,
        prover_data: &ClearCommitment<F>,
        index: usize,
        domain: Coset<F>,
    ) -> Result<RowMajorMatrix<F>, AllocError> {
        let rows = rows_on(alloc, prover_data.matrices(), index, &domain)?;
        Ok(rows)
    }
}

impl<F: TwoAdicField, EF: ExtensionField<F>, C> UnivariateStarkPcs<EF, C> for ClearPcs<F> {
    fn log_min_trace_height(&self) -> usize {
        0
    }

    fn log_max_trace_height(&self) -> usize {
        F::TWO_ADICITY
    }

    fn commit_preprocessing(
        &self,
        alloc: Global,
        domain: Coset<F>,
        matrix: RowMajorMatrix<F>,
    ) -> Committed<F>
        requires power { IsPowerOfTwo (height_of matrix) }
        requires within { 2 ^ domain.log_size ≤ 2 ^ F.TWO_ADICITY }
        requires room { height_of matrix ≤ 2 ^ domain.log_size }
        ensures stands { IfOk result (CommitsRows ⟦<ClearPcs<F> as Pcs<EF, C>>⟧.scheme F.ring F.root
            self.now (coset_from domain.shift domain.log_size) matrix) }
        ensures refused { IfRefusal result (λ _.
            StopsAt self.now.stops_at ClearCall.CommitPreprocessing) }
        ensures made { IfOk result (IsPlainCommitment F.ring matrix) }
        ensures stops { StopsProving self.now.stops_at ClearCall.CommitPreprocessing result }
    {
        self.committed_plain::<EF, C>(alloc, &domain, &matrix, ClearCall::CommitPreprocessing)
    }

    fn commit_quotient(
        &self,
        alloc: Global,
        domain: Coset<F>,
        flat: RowMajorMatrix<F>,
        num_chunks: usize,
    ) -> Committed<F>
        requires height { length flat.values.items ≡ 2 ^ domain.log_size * flat.width }
        requires power { IsPowerOfTwo num_chunks }
        requires parts { num_chunks ≤ 2 ^ domain.log_size }
        requires within { 2 ^ domain.log_size * 2 ^ zk_bits false ≤ num_chunks * 2 ^ F.TWO_ADICITY }
        ensures stands { IfOk result (CommitsChunks
            ⟦<ClearPcs<F> as Opening<EF, C>>⟧.opening self.now
            (coset_from domain.shift domain.log_size) flat num_chunks) }
        ensures made { IfOk result (IsPlainQuotient F.ring F.root
            (coset_from domain.shift domain.log_size) flat num_chunks) }
        ensures refused { IfRefusal result (λ _.
            StopsAt self.now.stops_at ClearCall.CommitQuotient) }
        ensures stops { StopsProving self.now.stops_at ClearCall.CommitQuotient result }
    {
        self.pass(ClearCall::CommitQuotient, ClearProverError::Stopped)?;
        let chunks = chunks_of(alloc, &domain, &flat, num_chunks)?;
        let made = committed(alloc, chunks)?;
        Ok(made)
    }

    fn get_opt_randomization_poly_commitment(
        &self,
        _alloc: Global,
        _domain: Coset<F>,
    ) -> Result<Option<(ClearCommitment<F>, ClearCommitment<F>)>, SchemeFault<ClearProverError>>
        ensures none { IfOk result (λ made. made ≡ None) }
        ensures refused { IfRefusal result (λ _.
            StopsAt self.now.stops_at ClearCall.Randomization) }
        ensures stops { StopsProving self.now.stops_at ClearCall.Randomization result }
    {
        self.pass(ClearCall::Randomization, ClearProverError::Stopped)?;
        Ok(None)
    }

    fn build_periodic_lde_table(
        &self,
        alloc: Global,
        columns: &PeriodicColumns<'_, F>,
        trace_domain: Coset<F>,
        quotient_domain: Coset<F>,
    ) -> Result<PeriodicLdeTable<F>, AllocError>
        requires { columns.now.trace_len ≡ 2 ^ trace_domain.log_size }
        ensures { IfOk result (IsTableOver F.ring F.inverse_of F.root
            ⟦<Coset<F> as PolynomialSpace>⟧.coset_of trace_domain quotient_domain columns.now) }
    {
        let table = periodic_lde_table(alloc, columns, &trace_domain, &quotient_domain)?;
        Ok(table)
    }

    fn open_with_preprocessing(
        &self,
        alloc: Global,
        rounds: Vec<OpeningRound<'_, EF, ClearCommitment<F>>>,
        _challenger: &mut C,
        _preprocessed_index: Option<usize>,
    ) -> Result<(OpenedRounds<EF>, ClearProof), SchemeFault<ClearProverError>>
        ensures true_values { IfOk result (OpensTrueValues ⟦<ClearPcs<F> as Pcs<EF, C>>⟧.scheme
            EF.ring EF.embed self.now rounds.entry) }
        ensures holds { IfOk result (ProvesTrueClaims ⟦<ClearPcs<F> as Pcs<EF, C>>⟧.scheme EF.ring
            EF.embed self.now rounds.entry _challenger.old _preprocessed_index) }
        ensures refused { IfRefusal result (λ _. StopsAt self.now.stops_at ClearCall.Open) }
        ensures stops { StopsProving self.now.stops_at ClearCall.Open result }
    {
        self.pass(ClearCall::Open, ClearProverError::Stopped)?;
        let opened = open_rounds::<F, EF>(alloc, &rounds)?;
        Ok((opened, ClearProof))
    }

    fn verify_with_preprocessing(
        &self,
        alloc: Global,
        claims: Vec<OpeningClaim<'_, EF, ClearCommitment<F>, Coset<F>>>,
        _proof: &ClearProof,
        _challenger: &mut C,
        _preprocessed_index: Option<usize>,
    ) -> Result<(), SchemeFault<ClearError>>
        ensures accepted { IfOk result (λ _.
            AcceptsTrue EF.ring EF.embed self.now.stops_at
            (claims_view ⟦<Coset<F> as PolynomialSpace>⟧.coset_of claims.entry)) }
        ensures refused { IfRefusal result
            (RefusesClaims EF.ring EF.embed self.now.stops_at
            (claims_view ⟦<Coset<F> as PolynomialSpace>⟧.coset_of claims.entry)) }
        ensures no_memory { IfErr result (λ fault. fault ≢ SchemeFault.OutOfMemory) }
        ensures stops { StopsVerifying self.now.stops_at result }
    {
        self.pass(ClearCall::Verify, ClearError::Stopped)?;
        match check_claims::<Coset<F>, EF>(alloc, &claims) {
            Ok(()) => Ok(()),
            Err(error) => Err(SchemeFault::Refused(error)),
        }
    }

    ghost scheme_laws = { clear_laws EF.ring EF.embed F.TWO_ADICITY (λ s.
        s.stops_at) (clear_calls F.ring F.root) F.two_adic.bounded };
}
