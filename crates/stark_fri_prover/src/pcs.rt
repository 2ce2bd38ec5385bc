//! The scheme.
ghost use Rattle.std.specs.Prelude.{◌≡◌, ◌≤◌, ◌+◌, ◌-◌, ◌*◌, ◌^◌, ⊤, false, ◌∷◌, [], map, length, IfErr, IfOk, IsTrue};
ghost use Rattle.std.specs.Int.{IsPowerOfTwo};
ghost use Rattle.stark_support.specs.Claims.{IfRefusal};
ghost use Rattle.stark_support.specs.Scheme.{zk_bits};
ghost use Rattle.stark_support.specs.Coset.{coset_from};
ghost use Rattle.stark_columns.specs.ColumnPoints.{height_of};
ghost use Rattle.stark_columns.specs.Columns.{columns_list};
ghost use Rattle.stark_fri.specs.Scheme.{ArePlain, fri_calls};
ghost use Rattle.stark_merkle.specs.Bytes.{element_bytes};
ghost use Rattle.stark_merkle.specs.Tree.{digests_in};
ghost use Rattle.stark_fri_prover.specs.Calls.{Accepts, CommitsQuotient, FewBadDraws, ProofShows, Refuses, RefusesRoundsIn};
ghost use Rattle.stark_fri_prover.specs.Commit.{AreLayersIn, IsKept, IsTopOf, data_seen, extension_of};
ghost use Rattle.stark_fri_prover.specs.CompletenessFactsScheme.{kept_laws};
ghost use Rattle.stark_fri_prover.specs.MadeOpening.{kept_scheme};
ghost use Rattle.stark_support.specs.SchemeClauses.{CommitsChunks, CommitsRows, OpensTrueValues, ProvesTrueClaims, RowsStand, IsTableOver};

use crate::calls::Proving;
use crate::commit::{Committed, FriData, commit_columns};
use crate::opening::open;
use stark_bench::Coset;
use stark_columns::{chunks_of, columns_of, rows_on};
use stark_dft::periodic_lde_table;
use stark_fri::{FriCalls, FriError, FriProverError, verify_openings};
use stark_fri_proof::{FriParameters, FriProof};
use stark_merkle::{Root, TreeHash};
use stark_support::{
    CanObserve, CanSample, ExtensionField, FieldChallenger, GrindingChallenger, OpenedRounds,
    Opening, OpeningClaim, OpeningRound, Pcs, PeriodicColumns, PeriodicLdeTable, PolynomialSpace,
    PrimeField64, RowMajorMatrix, SchemeFault, TwoAdicField, UnivariateStarkPcs, log2_strict_usize,
};
use std::alloc::{AllocError, Global};
use std::marker::PhantomData;

/// A scheme that commits to columns by the root of a Merkle tree over their values on a larger
/// coset, and opens them by FRI, folding by two. `H` is the hash of the trees.
pub struct FriPcs<F: TwoAdicField, H> {
    parameters: FriParameters,
    field: PhantomData<F>,
    hash: PhantomData<H>,
    pub ghost within: { parameters.log_blowup ≤ F.TWO_ADICITY },
}

impl<F: TwoAdicField, H> Clone for FriPcs<F, H> {
    ghost is_clone = { λ x y. y ≡ x };

    ghost is_infallible = { λ _. ⊤ };

    fn clone(&self) -> Result<FriPcs<F, H>, AllocError> {
        Ok(*self)
    }
}

impl<F: TwoAdicField, H> Copy for FriPcs<F, H> {}

impl<F: TwoAdicField, H> FriPcs<F, H> {
    /// The scheme with these parameters. It takes no memory.
    pub fn new(parameters: FriParameters) -> FriPcs<F, H>
        requires { parameters.log_blowup ≤ F.TWO_ADICITY }
        ensures { result.parameters ≡ parameters }
    {
        FriPcs {
            parameters,
            field: PhantomData,
            hash: PhantomData,
        }
    }

    /// What it is run with.
    pub fn parameters(&self) -> FriParameters
        ensures { result ≡ self.now.parameters }
    {
        self.parameters
    }
}

type CommitResult<F> = Result<Committed<F>, SchemeFault<FriProverError>>;

/// The commitment to one matrix.
fn commit_alone<F: TwoAdicField + PrimeField64, H: TreeHash>(
    alloc: Global,
    log_height: usize,
    log_blowup: usize,
    columns: Vec<Vec<F>>,
) -> Result<Committed<F>, AllocError>
    requires { log_height + log_blowup ≤ F.TWO_ADICITY }
    ensures commitment { IfOk result (λ made. made.0 ≡ made.1.root) }
    ensures height { IfOk result (λ made. made.1.domain.log_size ≡ log_height) }
    ensures columns { IfOk result (λ made.
        map columns_list made.1.matrices.items ≡ columns_list columns ∷ []) }
    ensures rows { IfOk result (λ made.
        IsKept F.ring F.root (extension_of F.GENERATOR (log_height + log_blowup)) columns
        made.1.extended) }
    ensures root { IfOk result (λ m. IsTopOf F.ring F.root F.GENERATOR H.digests F.BYTES
        F.number_of (log_height + log_blowup) columns m.0) }
    ensures tree { IfOk result (λ m. AreLayersIn H.digests F.BYTES F.number_of
        (log_height + log_blowup) m.1.extended m.1.layers) }
{
    let mut matrices = Vec::new(alloc);
    matrices.push(columns)?;
    let made = commit_columns::<F, H>(alloc, log_height, log_blowup, matrices)?;
    Ok(made)
}

/// Whether a domain is the coset that kept columns were extended on, with this blow-up.
fn is_extension<F: TwoAdicField>(kept: &FriData<F>, log_blowup: usize, domain: &Coset<F>) -> bool
    ensures { IsTrue result → coset_from domain.now.shift domain.now.log_size
        ≡ extension_of F.GENERATOR (kept.now.domain.log_size + log_blowup) }
{
    let log_height = kept.domain().log_size;
    domain.shift == F::GENERATOR
        && domain.log_size >= log_height
        && domain.log_size - log_height == log_blowup
}

impl<F, EF, C, H> Pcs<EF, C> for FriPcs<F, H>
where
    F: TwoAdicField + PrimeField64,
    EF: ExtensionField<F>,
    C: FieldChallenger<F> + CanObserve<Root> + CanSample<EF> + GrindingChallenger<Witness = F>,
    H: TreeHash,
{
    type Domain = Coset<F>;

    type Commitment = Root;

    type ProverData = FriData<F>;

    type Proof = FriProof<F, EF>;

    type Error = FriError;

    type ProverError = FriProverError;

    ghost ZK = { false };

    ghost scheme = { kept_scheme ⟦<C as FriCalls<F, EF, H>>⟧.fri_ops
        (element_bytes F.BYTES F.number_of) (λ s. s.parameters)
        (λ d. data_seen d.root d.domain.log_size d.matrices d.extended)
        (λ d. digests_in d.layers.items) (λ p. p)
        (fri_calls F.ring F.root (λ d. data_seen d.root d.domain.log_size d.matrices d.extended)) };

    const ZK: bool = false;

    fn natural_domain_for_degree(&self, degree: usize) -> Coset<F> {
        Coset::subgroup(log2_strict_usize(degree))
    }

    fn copy_commitment(&self, _alloc: Global, commitment: &Root) -> Result<Root, AllocError> {
        Ok(*commitment)
    }

    fn commit(&self, alloc: Global, domain: Coset<F>, matrix: RowMajorMatrix<F>) -> CommitResult<F>
        requires power { IsPowerOfTwo (height_of matrix) }
        requires within { 2 ^ domain.log_size
            ≤ 2 ^ (F.TWO_ADICITY - self.now.parameters.log_blowup) }
        requires room { height_of matrix ≤ 2 ^ domain.log_size }
        ensures stands { IfOk result (CommitsRows ⟦<FriPcs<F, H> as Pcs<EF, C>>⟧.scheme F.ring
            F.root self.now (coset_from domain.shift domain.log_size) matrix) }
        ensures made { IfOk result (λ made. ArePlain F.ring (height_of matrix)
            (map columns_list made.1.matrices.items)) }
        ensures refused { IfRefusal result (λ _. ⊥) }
    {
        let columns = columns_of(alloc, &domain, &matrix)?;
        // The columns spell it, and their values on the larger coset take the most memory.
        drop(matrix);
        let log_blowup = self.parameters.log_blowup();
        let made = commit_alone::<F, H>(alloc, domain.log_size, log_blowup, columns)?;
        Ok(made)
    }

    fn get_evaluations_on_domain(
        &self,
        alloc: Global,
        prover_data: &FriData<F>,
        index: usize,
        domain: Coset<F>,
    ) -> Result<RowMajorMatrix<F>, AllocError> {
        if is_extension(prover_data, self.parameters.log_blowup(), &domain) {
            // The tree is over these rows: they were transformed for it.
            let rows = prover_data.rows_of(alloc, index)?;
            return Ok(rows);
        }
        let rows = rows_on(alloc, prover_data.matrices(), index, &domain)?;
        Ok(rows)
    }
}

impl<F, EF, C, H> UnivariateStarkPcs<EF, C> for FriPcs<F, H>
where
    F: TwoAdicField + PrimeField64,
    EF: ExtensionField<F>,
    C: FieldChallenger<F> + CanObserve<Root> + CanSample<EF> + GrindingChallenger<Witness = F>,
    H: TreeHash,
{
    fn log_min_trace_height(&self) -> usize {
        0
    }

    fn log_max_trace_height(&self) -> usize {
        F::TWO_ADICITY - self.parameters.log_blowup()
    }

    fn commit_preprocessing(
        &self,
        alloc: Global,
        domain: Coset<F>,
        matrix: RowMajorMatrix<F>,
    ) -> CommitResult<F>
        requires power { IsPowerOfTwo (height_of matrix) }
        requires within { 2 ^ domain.log_size
            ≤ 2 ^ (F.TWO_ADICITY - self.now.parameters.log_blowup) }
        requires room { height_of matrix ≤ 2 ^ domain.log_size }
        ensures stands { RowsStand ⟦<FriPcs<F, H> as Opening<EF, C>>⟧.opening self.now
            (coset_from domain.shift domain.log_size) matrix result }
        ensures made { IfOk result (λ made. ArePlain F.ring (height_of matrix)
            (map columns_list made.1.matrices.items)) }
        ensures refused { IfRefusal result (λ _. ⊥) }
    {
        // Nothing is masked, so that what is known is committed to as a trace is.
        <FriPcs<F, H> as Pcs<EF, C>>::commit(self, alloc, domain, matrix)
    }

    fn commit_quotient(
        &self,
        alloc: Global,
        domain: Coset<F>,
        flat: RowMajorMatrix<F>,
        num_chunks: usize,
    ) -> CommitResult<F>
        requires height { length flat.values.items ≡ 2 ^ domain.log_size * flat.width }
        requires power { IsPowerOfTwo num_chunks }
        requires parts { num_chunks ≤ 2 ^ domain.log_size }
        requires within { 2 ^ domain.log_size * 2 ^ zk_bits false
            ≤ num_chunks * 2 ^ (F.TWO_ADICITY - self.now.parameters.log_blowup) }
        ensures stands { IfOk result (CommitsChunks
            ⟦<FriPcs<F, H> as Opening<EF, C>>⟧.opening self.now
            (coset_from domain.shift domain.log_size) flat num_chunks) }
        ensures made { IfOk result (CommitsQuotient ⟦<FriPcs<F, H> as Pcs<EF, C>>⟧.scheme self.now
            (coset_from domain.shift domain.log_size) flat num_chunks) }
        ensures refused { IfRefusal result (λ _. ⊥) }
    {
        let chunks = chunks_of(alloc, &domain, &flat, num_chunks)?;
        let log_height = domain.log_size - log2_strict_usize(num_chunks);
        let log_blowup = self.parameters.log_blowup();
        let made = commit_columns::<F, H>(alloc, log_height, log_blowup, chunks)?;
        Ok(made)
    }

    fn get_opt_randomization_poly_commitment(
        &self,
        _alloc: Global,
        _domain: Coset<F>,
    ) -> Result<Option<Committed<F>>, SchemeFault<FriProverError>> {
        Ok(None)
    }

    fn build_periodic_lde_table(
        &self,
        alloc: Global,
        columns: &PeriodicColumns<'_, F>,
        trace_domain: Coset<F>,
        quotient_domain: Coset<F>,
    ) -> Result<PeriodicLdeTable<F>, AllocError>
        requires { columns.now.trace_len ≡ 2 ^ trace_domain.log_size }
        ensures { IfOk result (IsTableOver F.ring F.inverse_of F.root
            ⟦<Coset<F> as PolynomialSpace>⟧.coset_of trace_domain quotient_domain columns.now) }
    {
        let table = periodic_lde_table(alloc, columns, &trace_domain, &quotient_domain)?;
        Ok(table)
    }

    fn open_with_preprocessing(
        &self,
        alloc: Global,
        rounds: Vec<OpeningRound<'_, EF, FriData<F>>>,
        challenger: &mut C,
        _preprocessed_index: Option<usize>,
    ) -> Result<(OpenedRounds<EF>, FriProof<F, EF>), SchemeFault<FriProverError>>
        ensures true_values { IfOk result (OpensTrueValues ⟦<FriPcs<F, H> as Pcs<EF, C>>⟧.scheme
            EF.ring EF.embed self.now rounds.entry) }
        ensures holds { IfOk result (ProvesTrueClaims ⟦<FriPcs<F, H> as Pcs<EF, C>>⟧.scheme EF.ring
            EF.embed self.now rounds.entry challenger.old _preprocessed_index) }
        ensures refused { IfRefusal result (RefusesRoundsIn ⟦<FriPcs<F, H> as Pcs<EF, C>>⟧.scheme
            self.now rounds.entry challenger.old _preprocessed_index) }
    {
        match open::<C, F, EF, H>(alloc, &self.parameters, &rounds, challenger) {
            Ok(opened) => Ok(opened),
            Err(fault) => Err(fault),
        }
    }

    fn verify_with_preprocessing(
        &self,
        alloc: Global,
        claims: Vec<OpeningClaim<'_, EF, Root, Coset<F>>>,
        proof: &FriProof<F, EF>,
        challenger: &mut C,
        _preprocessed_index: Option<usize>,
    ) -> Result<(), SchemeFault<FriError>>
        ensures accepted { IfOk result (λ _. Accepts
            ⟦<FriData<F> as Proving<F, EF, C, H, Coset<F>>>⟧.calls self.now.parameters
            claims.entry challenger.old proof.now) }
        ensures refused { IfErr result (Refuses
            ⟦<FriData<F> as Proving<F, EF, C, H, Coset<F>>>⟧.calls self.now.parameters
            claims.entry challenger.old proof.now) }
        ensures sound { IfOk result (λ _. ProofShows
            ⟦<FriData<F> as Proving<F, EF, C, H, Coset<F>>>⟧.calls self.now.parameters
            claims.entry challenger.old proof.now) }
        ensures few { IfOk result (λ _. FewBadDraws
            ⟦<FriData<F> as Proving<F, EF, C, H, Coset<F>>>⟧.calls self.now.parameters
            claims.entry challenger.old proof.now) }
    {
        verify_openings::<C, EF, Coset<F>, H>(alloc, &self.parameters, &claims, proof, challenger)
    }

    ghost scheme_laws = { kept_laws ⟦<C as FriCalls<F, EF, H>>⟧.fri_ops
        (element_bytes F.BYTES F.number_of) (λ s. s.parameters)
        (λ d. data_seen d.root d.domain.log_size d.matrices d.extended)
        (λ d. digests_in d.layers.items) (λ p. p)
        (fri_calls F.ring F.root (λ d. data_seen d.root d.domain.log_size d.matrices d.extended))
        F.two_adic.bounded };
}
