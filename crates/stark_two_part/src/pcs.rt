//! The scheme.
ghost use Rattle.std.specs.Prelude.{◌≡◌, ◌≤◌, ◌*◌, ◌/◌, ◌^◌, IfOk, IfSome, is_some, length};
ghost use Rattle.std.specs.Int.{IsPowerOfTwo};
ghost use Rattle.stark_support.specs.Claims.{IfRefusal, claims_view, rounds_view};
ghost use Rattle.stark_support.specs.Coset.{coset_size};
ghost use Rattle.stark_support.specs.Scheme.{zk_bits};
ghost use Rattle.stark_support.specs.SchemeClauses.{AcceptsClaims, CommitsChunks, CommitsColumns, CommitsRows, OpensTrueValues, ProvesTrueClaims};
ghost use Rattle.stark_two_part.specs.InParts.{RefusesClaims, in_parts};
ghost use Rattle.stark_two_part.specs.InPartsFacts.{kept_laws};

use crate::claims::{claims_in_parts, moved_index};
use crate::columns::{cut_columns, join_columns};
use crate::in_parts::InParts;
use crate::rounds::{opened_in_parts, rounds_in_parts};
use stark_support::{
    DomainVal, ExtensionField, OpenedRounds, Opening, OpeningClaim, OpeningRound, Pcs,
    PeriodicColumns, PeriodicLdeTable, RowMajorMatrix, SchemeFault, UnivariateStarkPcs,
};
use std::alloc::{AllocError, Global};

/// A scheme that commits to a trace in two parts, the first of `first_width` columns, and else as
/// the inner scheme does. A trace that hasn't more columns is committed to whole.
#[derive(Clone, Debug, Drop)]
pub struct TwoPartPcs<P> {
    pub inner: P,
    pub first_width: usize,
}

impl<EF, C, P> Pcs<EF, C> for TwoPartPcs<P>
where
    P: UnivariateStarkPcs<EF, C>,
    EF: ExtensionField<DomainVal<P::Domain>>,
{
    type Domain = P::Domain;

    type Commitment = InParts<P::Commitment>;

    type ProverData = InParts<P::ProverData>;

    type Proof = P::Proof;

    type Error = P::Error;

    type ProverError = P::ProverError;

    ghost ZK = { P.ZK };

    ghost scheme = { in_parts P.scheme };

    const ZK: bool = P::ZK;

    fn natural_domain_for_degree(&self, degree: usize) -> P::Domain {
        self.inner.natural_domain_for_degree(degree)
    }

    fn copy_commitment(
        &self,
        alloc: Global,
        commitment: &InParts<P::Commitment>,
    ) -> Result<InParts<P::Commitment>, AllocError> {
        match commitment {
            InParts::Whole(whole) => {
                let copy = self.inner.copy_commitment(alloc, whole)?;
                Ok(InParts::Whole(copy))
            }
            InParts::Parts(left, right) => {
                let copy = self.inner.copy_commitment(alloc, left)?;
                let other = self.inner.copy_commitment(alloc, right)?;
                Ok(InParts::Parts(copy, other))
            }
        }
    }

    fn commit(
        &self,
        alloc: Global,
        domain: P::Domain,
        matrix: RowMajorMatrix<DomainVal<P::Domain>>,
    ) -> Result<(InParts<P::Commitment>, InParts<P::ProverData>), SchemeFault<P::ProverError>>
        requires power { IsPowerOfTwo (length matrix.values.items / matrix.width) }
        requires within { coset_size (P.Domain.coset_of domain)
            ≤ 2 ^ P.scheme.log_max_trace_height self.now.inner }
        requires room { length matrix.values.items / matrix.width
            ≤ coset_size (P.Domain.coset_of domain) }
        ensures stands { IfOk result (CommitsRows (in_parts P.scheme) P.Domain.Val.ring
            P.Domain.Val.root self.now (P.Domain.coset_of domain) matrix) }
        ensures made { IfOk result ((in_parts P.scheme).calls.Commits self.now
            (P.Domain.coset_of domain) matrix.values.items matrix.width) }
        ensures refused { IfRefusal result ((in_parts P.scheme).RefusesCommit self.now
            (P.Domain.coset_of domain) matrix.values.items matrix.width) }
    {
        let first = self.first_width;
        if first == 0 || first >= matrix.width {
            let (commitment, data) = self.inner.commit(alloc, domain, matrix)?;
            return Ok((InParts::Whole(commitment), InParts::Whole(data)));
        }
        let (left, right) = cut_columns(alloc, first, &matrix)?;
        drop(matrix);
        let (commitment, data) = self.inner.commit(alloc, domain, left)?;
        let (others, more) = self.inner.commit(alloc, domain, right)?;
        Ok((
            InParts::Parts(commitment, others),
            InParts::Parts(data, more),
        ))
    }

    fn get_evaluations_on_domain(
        &self,
        alloc: Global,
        prover_data: &InParts<P::ProverData>,
        index: usize,
        domain: P::Domain,
    ) -> Result<RowMajorMatrix<DomainVal<P::Domain>>, AllocError> {
        match prover_data {
            InParts::Whole(whole) => {
                self.inner
                    .get_evaluations_on_domain(alloc, whole, index, domain)
            }
            InParts::Parts(left, right) => {
                let ours = self
                    .inner
                    .get_evaluations_on_domain(alloc, left, index, domain)?;
                let others = self
                    .inner
                    .get_evaluations_on_domain(alloc, right, index, domain)?;
                join_columns(alloc, &ours, &others)
            }
        }
    }
}

impl<EF, C, P> UnivariateStarkPcs<EF, C> for TwoPartPcs<P>
where
    P: UnivariateStarkPcs<EF, C>,
    EF: ExtensionField<DomainVal<P::Domain>>,
{
    fn log_min_trace_height(&self) -> usize {
        self.inner.log_min_trace_height()
    }

    fn log_max_trace_height(&self) -> usize {
        self.inner.log_max_trace_height()
    }

    fn commit_preprocessing(
        &self,
        alloc: Global,
        domain: P::Domain,
        matrix: RowMajorMatrix<DomainVal<P::Domain>>,
    ) -> Result<(InParts<P::Commitment>, InParts<P::ProverData>), SchemeFault<P::ProverError>>
        requires power { IsPowerOfTwo (length matrix.values.items / matrix.width) }
        requires within { coset_size (P.Domain.coset_of domain)
            ≤ 2 ^ P.scheme.log_max_trace_height self.now.inner }
        requires room { length matrix.values.items / matrix.width
            ≤ coset_size (P.Domain.coset_of domain) }
        ensures stands { IfOk result (CommitsRows (in_parts P.scheme) P.Domain.Val.ring
            P.Domain.Val.root self.now (P.Domain.coset_of domain) matrix) }
        ensures made { IfOk result ((in_parts P.scheme).calls.CommitsPreprocessing self.now
            (P.Domain.coset_of domain) matrix.values.items matrix.width) }
        ensures refused { IfRefusal result ((in_parts P.scheme).RefusesPreprocessing self.now
            (P.Domain.coset_of domain) matrix.values.items matrix.width) }
    {
        let (commitment, data) = self.inner.commit_preprocessing(alloc, domain, matrix)?;
        Ok((InParts::Whole(commitment), InParts::Whole(data)))
    }

    fn commit_quotient(
        &self,
        alloc: Global,
        domain: P::Domain,
        flat: RowMajorMatrix<DomainVal<P::Domain>>,
        num_chunks: usize,
    ) -> Result<(InParts<P::Commitment>, InParts<P::ProverData>), SchemeFault<P::ProverError>>
        requires height { length flat.values.items
            ≡ coset_size (P.Domain.coset_of domain) * flat.width }
        requires power { IsPowerOfTwo num_chunks }
        requires parts { num_chunks ≤ coset_size (P.Domain.coset_of domain) }
        requires within { coset_size (P.Domain.coset_of domain) * 2 ^ zk_bits P.ZK
            ≤ num_chunks * 2 ^ P.scheme.log_max_trace_height self.now.inner }
        ensures stands { IfOk result (CommitsChunks ⟦<TwoPartPcs<P> as Opening<EF, C>>⟧.opening
            self.now (P.Domain.coset_of domain) flat num_chunks) }
        ensures made { IfOk result ((in_parts P.scheme).calls.CommitsQuotient self.now
            (P.Domain.coset_of domain) flat.values.items flat.width num_chunks) }
        ensures refused { IfRefusal result ((in_parts P.scheme).RefusesQuotient self.now
            (P.Domain.coset_of domain) flat.values.items flat.width num_chunks) }
    {
        let (commitment, data) = self.inner.commit_quotient(alloc, domain, flat, num_chunks)?;
        Ok((InParts::Whole(commitment), InParts::Whole(data)))
    }

    fn get_opt_randomization_poly_commitment(
        &self,
        alloc: Global,
        domain: P::Domain,
    ) -> Result<
        Option<(InParts<P::Commitment>, InParts<P::ProverData>)>,
        SchemeFault<P::ProverError>,
    >
        requires within { coset_size (P.Domain.coset_of domain)
            ≤ 2 ^ P.scheme.log_max_trace_height self.now.inner }
        ensures there { IfOk result (λ made. is_some made ≡ P.ZK) }
        ensures stands { IfOk result (λ made. IfSome made (CommitsColumns (in_parts P.scheme)
            self.now (P.Domain.coset_of domain) EF.DIMENSION)) }
        ensures made { IfOk result (λ made. IfSome made ((in_parts P.scheme).calls.Randomizes
            self.now (P.Domain.coset_of domain))) }
        ensures refused { IfRefusal result ((in_parts P.scheme).RefusesRandomization self.now
            (P.Domain.coset_of domain)) }
    {
        match self
            .inner
            .get_opt_randomization_poly_commitment(alloc, domain)?
        {
            Some((commitment, data)) => {
                Ok(Some((InParts::Whole(commitment), InParts::Whole(data))))
            }
            None => Ok(None),
        }
    }

    fn get_evaluations_on_domain_no_random(
        &self,
        alloc: Global,
        prover_data: &InParts<P::ProverData>,
        index: usize,
        domain: P::Domain,
    ) -> Result<RowMajorMatrix<DomainVal<P::Domain>>, AllocError> {
        match prover_data {
            InParts::Whole(whole) => {
                self.inner
                    .get_evaluations_on_domain_no_random(alloc, whole, index, domain)
            }
            InParts::Parts(_, _) => self.get_evaluations_on_domain(
                alloc,
                prover_data,
                index,
                domain,
            ),
        }
    }

    fn build_periodic_lde_table(
        &self,
        alloc: Global,
        columns: &PeriodicColumns<'_, DomainVal<P::Domain>>,
        trace_domain: P::Domain,
        quotient_domain: P::Domain,
    ) -> Result<PeriodicLdeTable<DomainVal<P::Domain>>, AllocError> {
        self.inner
            .build_periodic_lde_table(alloc, columns, trace_domain, quotient_domain)
    }

    fn open_with_preprocessing(
        &self,
        alloc: Global,
        rounds: Vec<OpeningRound<'_, EF, InParts<P::ProverData>>>,
        challenger: &mut C,
        preprocessed_index: Option<usize>,
    ) -> Result<(OpenedRounds<EF>, P::Proof), SchemeFault<P::ProverError>>
        ensures true_values { IfOk result (OpensTrueValues (in_parts P.scheme) EF.ring EF.embed
            self.now rounds.entry) }
        ensures holds { IfOk result (ProvesTrueClaims (in_parts P.scheme) EF.ring EF.embed
            self.now rounds.entry challenger.old preprocessed_index) }
        ensures refused { IfRefusal result ((in_parts P.scheme).RefusesOpening self.now
            (rounds_view rounds.entry) challenger.old preprocessed_index) }
    {
        let parted = rounds_in_parts(alloc, &rounds)?;
        let index = moved_index(preprocessed_index, &rounds);
        match self
            .inner
            .open_with_preprocessing(alloc, parted, challenger, index)
        {
            Ok((opened, proof)) => {
                let joined = opened_in_parts(alloc, &rounds, &opened)?;
                Ok((joined, proof))
            }
            Err(fault) => Err(fault),
        }
    }

    fn verify_with_preprocessing(
        &self,
        alloc: Global,
        claims: Vec<OpeningClaim<'_, EF, InParts<P::Commitment>, P::Domain>>,
        proof: &P::Proof,
        challenger: &mut C,
        preprocessed_index: Option<usize>,
    ) -> Result<(), SchemeFault<P::Error>>
        ensures accepted { IfOk result (λ _. AcceptsClaims (in_parts P.scheme) P.Domain.coset_of
            self.now claims.entry proof.now challenger.old preprocessed_index) }
        ensures refused { IfRefusal result (RefusesClaims (in_parts P.scheme) P.Domain.coset_of
            self.now claims.entry proof.now challenger.old preprocessed_index) }
    {
        let parted = claims_in_parts(alloc, self.first_width, &claims)?;
        let index = moved_index(preprocessed_index, &claims);
        self.inner
            .verify_with_preprocessing(alloc, parted, proof, challenger, index)
    }

    ghost scheme_laws = { kept_laws P.scheme P.scheme_laws };
}
