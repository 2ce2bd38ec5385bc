//! The scheme in the clear with masks.
ghost use Rattle.std.specs.Prelude.{◌≡◌, ◌≢◌, ◌≤◌, ◌<◌, ◌-◌, ◌/◌, ◌*◌, ◌^◌, true, None, Some, is_some, length, Result, IfErr, IfOk};
ghost use Rattle.std.specs.Int.{IsPowerOfTwo};
ghost use Rattle.stark_support.specs.Claims.{IfRefusal, claims_view};
ghost use Rattle.stark_support.specs.Coset.{coset_from};
ghost use Rattle.stark_support.specs.Scheme.{zk_bits};
ghost use Rattle.stark_columns.specs.ColumnPoints.{height_of};
ghost use Rattle.stark_clear.specs.ClearFacts.{clear_laws};
ghost use Rattle.stark_columns.specs.Made.{IfMade};
ghost use Rattle.stark_clear.specs.ClearCalls.{masked_calls, IsPlainCommitment, IsMaskedCommitment, IsMaskedQuotient, AreMasks, ChunksStand, ProvesOpening};
ghost use Rattle.stark_clear.specs.ClearScheme.{clear_scheme, AcceptsTrue, RefusesClaims, StopsProving, StopsVerifying};
ghost use Rattle.stark_clear.specs.Stops.{StopsAt};
ghost use Rattle.stark_support.specs.SchemeClauses.{CommitsRows, OpensTrueValues, CommitsColumns};

use crate::clear::{
    ClearCall, ClearError, ClearPcs, ClearProof, ClearProverError, Committed, committed,
    committed_alone,
};
use crate::masked::chunks::masked_chunks_of;
use crate::masked::commit::masked_columns_of;
use crate::masked::list::next_lists;
use stark_bench::{ClearCommitment, Coset};
use stark_support::{
    DomainShape, ExtensionField, OpenedRounds, Opening, OpeningClaim, OpeningRound, Pcs,
    PeriodicColumns, PeriodicLdeTable, PolynomialSpace, RowMajorMatrix, SchemeFault, TwoAdicField,
    UnivariateStarkPcs,
};
use std::alloc::{AllocError, Global};
use std::marker::Model;

/// The scheme in the clear with masks from a list, which it reads round and round, from its start
/// at each call. It masks as a scheme that hides does, so that all that is to be done for one is
/// done, and hides nothing: its commitments list the masked columns, and who made the scheme knows
/// the masks. What needs no mask is done by the scheme without, which stops where this one does.
#[derive(Clone, Debug, Drop)]
pub struct MaskedClearPcs<F> {
    masks: Vec<F>,
    plain: ClearPcs<F>,
}

impl<F> Model for MaskedClearPcs<F> {
    ghost use Rattle.std.specs.Prelude.{length, ◌<◌};
    ghost use Rattle.stark_clear.specs.Stops.{MaskedPcs};

    ghost Value = { MaskedPcs F };

    ghost view = { λ s. record { masks = s.masks.items; stops_at = s.plain.stops_at } };

    ghost invariant = { λ s. 0 < length s.masks.items };
}

impl<F> MaskedClearPcs<F> {
    /// The scheme whose masks are from a list that isn't empty.
    pub fn new(masks: Vec<F>) -> MaskedClearPcs<F>
        requires { 0 < length masks.items }
        ensures { result ≡ record { masks = masks.items; stops_at = None } }
    {
        MaskedClearPcs {
            masks,
            plain: ClearPcs::new(),
        }
    }

    /// The scheme with these masks that stops at this call: the call refuses with `Stopped`
    /// whatever it is handed, and each other call answers as ever.
    pub fn stopping_at(masks: Vec<F>, call: ClearCall) -> MaskedClearPcs<F>
        requires { 0 < length masks.items }
        ensures { result ≡ record { masks = masks.items; stops_at = Some call } }
    {
        MaskedClearPcs {
            masks,
            plain: ClearPcs::stopping_at(call),
        }
    }
}

impl<F: TwoAdicField, EF: ExtensionField<F>, C> Pcs<EF, C> for MaskedClearPcs<F> {
    type Domain = <ClearPcs<F> as Pcs<EF, C>>::Domain;

    type Commitment = <ClearPcs<F> as Pcs<EF, C>>::Commitment;

    type ProverData = <ClearPcs<F> as Pcs<EF, C>>::ProverData;

    type Proof = <ClearPcs<F> as Pcs<EF, C>>::Proof;

    type Error = <ClearPcs<F> as Pcs<EF, C>>::Error;

    type ProverError = <ClearPcs<F> as Pcs<EF, C>>::ProverError;

    ghost ZK = { true };

    ghost scheme = { clear_scheme EF.ring EF.embed F.TWO_ADICITY (λ s.
        s.stops_at) (masked_calls F.ring F.inverse_of F.root EF.DIMENSION) };

    const ZK: bool = true;

    fn natural_domain_for_degree(&self, degree: usize) -> Coset<F> {
        <ClearPcs<F> as Pcs<EF, C>>::natural_domain_for_degree(&self.plain, degree)
    }

    fn copy_commitment(
        &self,
        alloc: Global,
        commitment: &ClearCommitment<F>,
    ) -> Result<ClearCommitment<F>, AllocError> {
        <ClearPcs<F> as Pcs<EF, C>>::copy_commitment(&self.plain, alloc, commitment)
    }

    fn commit(&self, alloc: Global, domain: Self::Domain, matrix: RowMajorMatrix<F>) -> Committed<F>
        requires power { IsPowerOfTwo (height_of matrix) }
        requires within { 2 ^ domain.log_size ≤ 2 ^ F.TWO_ADICITY }
        requires room { height_of matrix ≤ 2 ^ domain.log_size }
        ensures stands { IfOk result (CommitsRows ⟦<MaskedClearPcs<F> as Pcs<EF, C>>⟧.scheme F.ring
            F.root self.now (coset_from domain.shift domain.log_size) matrix) }
        ensures refused { IfRefusal result (λ _. StopsAt self.now.stops_at ClearCall.Commit) }
        ensures made { IfOk result (IsMaskedCommitment F.ring self.now.masks
            (coset_from domain.shift domain.log_size) matrix) }
        ensures stops { StopsProving self.now.stops_at ClearCall.Commit result }
    {
        self.plain
            .pass(ClearCall::Commit, ClearProverError::Stopped)?;
        let columns = masked_columns_of(alloc, &self.masks, &domain, &matrix)?;
        let made = committed_alone(alloc, columns)?;
        Ok(made)
    }

    fn get_evaluations_on_domain(
        &self,
        alloc: Global,
        prover_data: &ClearCommitment<F>,
        index: usize,
        domain: Self::Domain,
    ) -> Result<RowMajorMatrix<F>, AllocError> {
        <ClearPcs<F> as Pcs<EF, C>>::get_evaluations_on_domain(
            &self.plain,
            alloc,
            prover_data,
            index,
            domain,
        )
    }
}

impl<F: TwoAdicField, EF: ExtensionField<F>, C> UnivariateStarkPcs<EF, C> for MaskedClearPcs<F> {
    fn log_min_trace_height(&self) -> usize {
        <ClearPcs<F> as UnivariateStarkPcs<EF, C>>::log_min_trace_height(&self.plain)
    }

    fn log_max_trace_height(&self) -> usize {
        <ClearPcs<F> as UnivariateStarkPcs<EF, C>>::log_max_trace_height(&self.plain)
    }

    fn commit_preprocessing(
        &self,
        alloc: Global,
        domain: Self::Domain,
        matrix: RowMajorMatrix<F>,
    ) -> Committed<F>
        requires power { IsPowerOfTwo (height_of matrix) }
        requires within { 2 ^ domain.log_size ≤ 2 ^ F.TWO_ADICITY }
        requires room { height_of matrix ≤ 2 ^ domain.log_size }
        ensures stands { IfOk result (CommitsRows ⟦<MaskedClearPcs<F> as Pcs<EF, C>>⟧.scheme F.ring
            F.root self.now (coset_from domain.shift domain.log_size) matrix) }
        ensures refused { IfRefusal result (λ _.
            StopsAt self.now.stops_at ClearCall.CommitPreprocessing) }
        ensures made { IfOk result (IsPlainCommitment F.ring matrix) }
        ensures stops { StopsProving self.now.stops_at ClearCall.CommitPreprocessing result }
    {
        <ClearPcs<F> as UnivariateStarkPcs<EF, C>>::commit_preprocessing(
            &self.plain,
            alloc,
            domain,
            matrix,
        )
    }

    fn commit_quotient(
        &self,
        alloc: Global,
        domain: Self::Domain,
        flat: RowMajorMatrix<F>,
        num_chunks: usize,
    ) -> Result<(Self::Commitment, Self::ProverData), SchemeFault<Self::ProverError>>
        requires height { length flat.values.items ≡ 2 ^ domain.log_size * flat.width }
        requires power { IsPowerOfTwo num_chunks }
        requires parts { num_chunks ≤ 2 ^ domain.log_size }
        requires within { 2 ^ domain.log_size * 2 ^ zk_bits true ≤ num_chunks * 2 ^ F.TWO_ADICITY }
        ensures stands { ChunksStand ⟦<MaskedClearPcs<F> as Opening<EF, C>>⟧.opening self.now
            (coset_from domain.shift domain.log_size) flat num_chunks result }
        ensures refused { IfRefusal result (λ _.
            StopsAt self.now.stops_at ClearCall.CommitQuotient) }
        ensures made { IfOk result (IsMaskedQuotient F.ring F.inverse_of F.root self.now.masks
            (coset_from domain.shift domain.log_size) flat num_chunks) }
        ensures stops { StopsProving self.now.stops_at ClearCall.CommitQuotient result }
    {
        self.plain
            .pass(ClearCall::CommitQuotient, ClearProverError::Stopped)?;
        let chunks = masked_chunks_of(alloc, &self.masks, &domain, &flat, num_chunks)?;
        let made = committed(alloc, chunks)?;
        Ok(made)
    }

    fn get_opt_randomization_poly_commitment(
        &self,
        alloc: Global,
        domain: Self::Domain,
    ) -> Result<Option<(Self::Commitment, Self::ProverData)>, SchemeFault<Self::ProverError>>
        requires within { 2 ^ domain.log_size ≤ 2 ^ F.TWO_ADICITY }
        ensures there { IfOk result (λ made. is_some made ≡ true) }
        ensures stands { IfMade result (CommitsColumns
            ⟦<MaskedClearPcs<F> as Pcs<EF, C>>⟧.scheme self.now
            (coset_from domain.shift domain.log_size) EF.DIMENSION) }
        ensures refused { IfRefusal result (λ _.
            StopsAt self.now.stops_at ClearCall.Randomization) }
        ensures made { IfMade result (AreMasks F.ring self.now.masks EF.DIMENSION
            (coset_from domain.shift domain.log_size)) }
        ensures stops { StopsProving self.now.stops_at ClearCall.Randomization result }
    {
        self.plain
            .pass(ClearCall::Randomization, ClearProverError::Stopped)?;
        let mut place = 0;
        let columns = next_lists(alloc, &self.masks, &mut place, EF::DIMENSION, domain.size())?;
        let made = committed_alone(alloc, columns)?;
        Ok(Some(made))
    }

    fn build_periodic_lde_table(
        &self,
        alloc: Global,
        columns: &PeriodicColumns<'_, F>,
        trace_domain: Self::Domain,
        quotient_domain: Self::Domain,
    ) -> Result<PeriodicLdeTable<F>, AllocError> {
        <ClearPcs<F> as UnivariateStarkPcs<EF, C>>::build_periodic_lde_table(
            &self.plain,
            alloc,
            columns,
            trace_domain,
            quotient_domain,
        )
    }

    fn open_with_preprocessing(
        &self,
        alloc: Global,
        rounds: Vec<OpeningRound<'_, EF, ClearCommitment<F>>>,
        challenger: &mut C,
        preprocessed_index: Option<usize>,
    ) -> Result<(OpenedRounds<EF>, ClearProof), SchemeFault<ClearProverError>>
        ensures true_values { IfOk result
            (OpensTrueValues ⟦<MaskedClearPcs<F> as Pcs<EF, C>>⟧.scheme EF.ring EF.embed
            self.now rounds.entry) }
        ensures holds { IfOk result (ProvesOpening ⟦<MaskedClearPcs<F> as Opening<EF, C>>⟧.opening
            self.now rounds.entry challenger.old preprocessed_index) }
        ensures refused { IfRefusal result (λ _. StopsAt self.now.stops_at ClearCall.Open) }
        ensures stops { StopsProving self.now.stops_at ClearCall.Open result }
    {
        <ClearPcs<F> as UnivariateStarkPcs<EF, C>>::open_with_preprocessing(
            &self.plain,
            alloc,
            rounds,
            challenger,
            preprocessed_index,
        )
    }

    fn verify_with_preprocessing(
        &self,
        alloc: Global,
        claims: Vec<OpeningClaim<'_, EF, ClearCommitment<F>, Coset<F>>>,
        proof: &ClearProof,
        challenger: &mut C,
        preprocessed_index: Option<usize>,
    ) -> Result<(), SchemeFault<ClearError>>
        ensures accepted { IfOk result (λ _.
            AcceptsTrue EF.ring EF.embed self.now.stops_at
            (claims_view ⟦<Coset<F> as PolynomialSpace>⟧.coset_of claims.entry)) }
        ensures refused { IfRefusal result
            (RefusesClaims EF.ring EF.embed self.now.stops_at
            (claims_view ⟦<Coset<F> as PolynomialSpace>⟧.coset_of claims.entry)) }
        ensures no_memory { IfErr result (λ fault. fault ≢ SchemeFault.OutOfMemory) }
        ensures stops { StopsVerifying self.now.stops_at result }
    {
        <ClearPcs<F> as UnivariateStarkPcs<EF, C>>::verify_with_preprocessing(
            &self.plain,
            alloc,
            claims,
            proof,
            challenger,
            preprocessed_index,
        )
    }

    ghost scheme_laws = { clear_laws EF.ring EF.embed F.TWO_ADICITY (λ s.
        s.stops_at) (masked_calls F.ring F.inverse_of F.root EF.DIMENSION) F.two_adic.bounded };
}
