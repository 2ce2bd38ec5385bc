//! The library's calls that the cases make of a configuration, over any base field, extension and
//! challenger.
ghost use Rattle.std.specs.Prelude.{◌≡◌, ◌↔◌, ◌+◌, ◌^◌, ◌≤◌, ◌<◌, All, IfOk, IsTrue, [], length, vec_len};
ghost use Rattle.stark_air.specs.Layout.{Covers};
ghost use Rattle.stark_air.specs.Rows.{layout_of};
ghost use Rattle.stark_support.specs.Coset.{vanishing_at};
ghost use Rattle.stark_protocol.specs.Preprocessing.{HasHeight, IsCommittedWithin};
ghost use Rattle.stark_verifier.specs.Constraints.{LiesOutside};
ghost use Rattle.protocol_tests.specs.Reads.{layout_read};

use crate::kinds::ReadRows;
use p3_uni_stark::{
    PreprocessedProverData, PreprocessedVerifierKey, Proof, StarkProof,
    recompose_quotient_from_chunks, setup_preprocessed, verify, verify_constraints,
    verify_with_preprocessed,
};
use stark_air::{Air, BaseAir, BaseAirBuilder, RowWindow, SubAirBuilder, WindowAccess};
use stark_bench::{ClearCommitment, Coset};
use stark_clear::{ClearPcs, ClearProof};
use stark_parts::{
    Com, Domain, PcsError, RowsAtPoint, StarkChallenger, StarkConfig, StarkGenericConfig, Val,
    VerifierConstraintFolder, fold_constraints,
};
use stark_protocol::quotient_at;
use stark_samples::CounterAir;
use stark_support::{
    CanObserve, DomainShape, Element, ExtensionChallenger, ExtensionField, Field, FieldChallenger,
    GrindingChallenger, LagrangeSelectors, PolynomialSpace, PrimeField64, RowMajorMatrixView,
    TwoAdicField, VerticalPair,
};
use stark_transcript::VerificationError;
use std::alloc::{AllocError, Global};
use std::fmt::Debug;
use std::marker::PhantomData;

/// The configuration with the scheme in the clear.
pub type ClearConfig<F, EF, C> = StarkConfig<ClearPcs<F>, EF, C>;

/// The folded sum over rows.
pub fn folded<F, EF, C, A>(
    air: &A,
    read: &ReadRows<'_, F, EF>,
    selectors: LagrangeSelectors<EF>,
    alpha: EF,
) -> Result<EF, AllocError>
where
    F: TwoAdicField + PrimeField64,
    EF: ExtensionField<F>,
    C: FieldChallenger<F> + CanObserve<ClearCommitment<F>> + ExtensionChallenger<F, EF> + Clone,
    A: Air<F>,
    requires { Covers (layout_read read.now) (A.layout air.now) }
{
    let main = RowWindow {
        current: read.local,
        next: read.next,
        of: PhantomData,
    };
    let preprocessed = RowWindow {
        current: read.preprocessed,
        next: &read.local[..0],
        of: PhantomData,
    };
    let rows = RowsAtPoint {
        main,
        preprocessed,
        periodic_values: read.periodic,
        public_values: read.public_values,
    };
    fold_constraints::<ClearConfig<F, EF, C>, A>(air, rows, selectors, alpha)
}

/// Whether a domain's vanishing value at a point is zero.
fn vanishes_at<D: PolynomialSpace, EF: ExtensionField<D::Val>>(domain: &D, point: EF) -> bool
    ensures { IsTrue result ↔ (vanishing_at EF.ring EF.inverse_of EF.embed
        (D.coset_of domain.now) point ≡ EF.ring.zero) }
{
    domain.vanishing_poly_at_point(point) == EF::ZERO
}

/// The selectors of the subgroup of `2^log_size` points; none where there is no such group, or the
/// point lies in it.
pub fn selectors_at<F: TwoAdicField, EF: ExtensionField<F>>(
    log_size: usize,
    point: EF,
) -> Option<LagrangeSelectors<EF>> {
    if log_size > F::TWO_ADICITY {
        return None;
    }
    let domain: Coset<F> = Coset::subgroup(log_size);
    if vanishes_at(&domain, point) {
        return None;
    }
    Some(domain.selectors_at_point(point))
}

/// The value recomposed from as many chunks as a coset has parts.
pub fn recomposed_on_parts<F, EF, C>(
    alloc: Global,
    domain: &Coset<F>,
    log_chunks: usize,
    chunks: &[Vec<EF>],
    zeta: EF,
) -> Result<EF, AllocError>
where
    F: TwoAdicField + PrimeField64,
    EF: ExtensionField<F>,
    C: FieldChallenger<F> + CanObserve<ClearCommitment<F>> + ExtensionChallenger<F, EF> + Clone,
    requires number { length chunks.now ≡ 2 ^ log_chunks }
    requires within { log_chunks ≤ domain.now.log_size }
    requires dimensions { All (λ chunk. vec_len chunk ≡ EF.DIMENSION) chunks.now }
{
    quotient_at::<ClearConfig<F, EF, C>>(alloc, domain, log_chunks, chunks, zeta)
}

/// A list of a number and three zeros.
fn chunk<X: Copy + Drop>(alloc: Global, x: X, zero: X) -> Result<Vec<X>, AllocError>
    ensures { IfOk result (λ v. vec_len v ≡ 4) }
{
    let mut values = Vec::new(alloc);
    values.push(x)?;
    values.push(zero)?;
    values.push(zero)?;
    values.push(zero)?;
    Ok(values)
}

/// The value recomposed from one chunk, whose first coordinate is given and the others zero; none
/// where the extension has another degree than four.
pub fn recomposed_of_one<F, EF, C>(
    alloc: Global,
    domain: Coset<F>,
    first: EF,
    zeta: EF,
) -> Result<Option<EF>, AllocError>
where
    F: TwoAdicField + PrimeField64,
    EF: ExtensionField<F>,
    C: FieldChallenger<F> + CanObserve<ClearCommitment<F>> + ExtensionChallenger<F, EF> + Clone,
{
    if EF::DIMENSION != 4 {
        return Ok(None);
    }
    let mut domains = Vec::new(alloc);
    domains.push(domain)?;
    let chunks = vec![in alloc; chunk(alloc, first, EF::ZERO)?]?;
    let value = recompose_quotient_from_chunks::<ClearConfig<F, EF, C>>(&domains, &chunks, zeta);
    Ok(Some(value))
}

/// What is read of two columns of the current row, and of two of the next one.
pub type Reads<V> = ((Option<V>, Option<V>), (Option<V>, Option<V>));

/// What the part of two of three columns reads of any builder: of the current row the columns 0 and
/// 2, of the next one 1 and 2. None where the part or its copy doesn't show the values of those two
/// columns alone.
fn part_of<AB: BaseAirBuilder>(
    builder: &mut AB,
    start: usize,
    local: &[AB::Var],
    next: &[AB::Var],
) -> Result<Option<Reads<AB::Var>>, AllocError>
where
    AB::Var: PartialEq,
    AB::MainWindow: Clone,
    requires current { 3 ≤ (AB.layout builder.old).main }
    requires following { 3 ≤ (AB.layout builder.old).main_next }
    requires first { start < 2 }
{
    let columns = start..start + 2;
    let part: SubAirBuilder<'_, AB, CounterAir, AB::Var> = SubAirBuilder::new(builder, columns);
    let window = part.main()?;
    if window.current_slice() != local || window.next_slice() != next {
        return Ok(None);
    }
    let copy = window.clone()?;
    if copy.current_slice() != local {
        return Ok(None);
    }
    let current = (window.current(0), window.current(2));
    Ok(Some((current, (window.next(1), window.next(2)))))
}

/// What `part_of` reads in a verifier's folder; none where there are other columns.
fn part_reads<'a, SC: StarkGenericConfig>(
    start: usize,
    local: &'a [SC::Challenge],
    next: &'a [SC::Challenge],
    public_values: &'a [Val<SC>],
) -> Result<Option<Reads<SC::Challenge>>, AllocError> {
    if local.len() != 3 || next.len() != 3 || start > 1 {
        return Ok(None);
    }
    let none = &local[..0];
    let mut parent: VerifierConstraintFolder<'_, SC> = VerifierConstraintFolder {
        main: VerticalPair {
            top: RowMajorMatrixView::new_row(local),
            bottom: RowMajorMatrixView::new_row(next),
        },
        preprocessed: VerticalPair {
            top: RowMajorMatrixView::new_row(none),
            bottom: RowMajorMatrixView::new_row(none),
        },
        preprocessed_window: RowWindow::from_two_rows(none, none),
        periodic_values: none,
        public_values: public_values,
        is_first_row: SC::Challenge::ONE,
        is_last_row: SC::Challenge::ONE,
        is_transition: SC::Challenge::ONE,
        alpha: SC::Challenge::ONE,
        accumulator: SC::Challenge::ZERO,
    };
    let end = start + 2;
    part_of(&mut parent, start, &local[start..end], &next[start..end])
}

/// What the part of two of three columns reads, as `part_of`; none where there are other columns.
pub fn reads_of_a_part<'a, F, EF, C>(
    start: usize,
    local: &'a [EF],
    next: &'a [EF],
    public_values: &'a [F],
) -> Result<Option<Reads<EF>>, AllocError>
where
    F: TwoAdicField + PrimeField64,
    EF: ExtensionField<F>,
    C: FieldChallenger<F> + CanObserve<ClearCommitment<F>> + ExtensionChallenger<F, EF> + Clone,
{
    part_reads::<ClearConfig<F, EF, C>>(start, local, next, public_values)
}

/// No scheme's refusal.
#[derive(Debug, Drop)]
pub struct NoScheme;

/// The test of the constraints on a subgroup outside which zeta lies, without periodic columns.
fn equation_on<'p, SC: StarkGenericConfig, A: Air<Val<SC>>>(
    air: &A,
    local: &[SC::Challenge],
    next: &[SC::Challenge],
    preprocessed_local: Option<&'p [SC::Challenge]>,
    public_values: &[Val<SC>],
    domain: Domain<SC>,
    zeta: SC::Challenge,
    alpha: SC::Challenge,
    quotient: SC::Challenge,
) -> Result<(), VerificationError<NoScheme>>
    requires subgroup { (SC.Pcs.Domain.coset_of domain).shift ≡ SC.Pcs.Domain.Val.ring.one }
    requires outside { LiesOutside SC.Challenge.ring SC.Challenge.inverse_of SC.Challenge.embed
        (SC.Pcs.Domain.coset_of domain) zeta }
    requires widths { Covers (layout_of local.now next.now [] [] public_values.now [])
        (A.layout air.now) }
{
    let absent: Option<&'p [SC::Challenge]> = None;
    verify_constraints::<SC, A, NoScheme>(
        air,
        local,
        next,
        preprocessed_local,
        absent,
        &local[..0],
        public_values,
        domain,
        zeta,
        alpha,
        quotient,
    )
}

/// The test of the constraints on the subgroup of `2^log_size` points; none where there is no such
/// group, or zeta lies in it.
pub fn equation<F, EF, C, A>(
    air: &A,
    local: &[EF],
    next: &[EF],
    preprocessed_local: Option<&[EF]>,
    public_values: &[F],
    log_size: usize,
    zeta: EF,
    alpha: EF,
    quotient: EF,
) -> Option<Result<(), VerificationError<NoScheme>>>
where
    F: TwoAdicField + PrimeField64,
    EF: ExtensionField<F>,
    C: FieldChallenger<F> + CanObserve<ClearCommitment<F>> + ExtensionChallenger<F, EF> + Clone,
    A: Air<F>,
    requires widths { Covers (layout_of local.now next.now [] [] public_values.now [])
        (A.layout air.now) }
{
    if log_size > F::TWO_ADICITY {
        return None;
    }
    let domain: Coset<F> = Coset::subgroup(log_size);
    if vanishes_at(&domain, zeta) {
        return None;
    }
    Some(equation_on::<ClearConfig<F, EF, C>, A>(
        air,
        local,
        next,
        preprocessed_local,
        public_values,
        domain,
        zeta,
        alpha,
        quotient,
    ))
}

/// A proof over the scheme in the clear.
pub type ClearShown<F, EF> = Proof<ClearCommitment<F>, EF, ClearProof, F>;

/// What any verifier answers, in words: `verify` where no key is given.
fn verified<SC, A>(
    alloc: Global,
    config: &SC,
    air: &A,
    proof: &StarkProof<SC>,
    public_values: &[Val<SC>],
    key: Option<&PreprocessedVerifierKey<Com<SC>>>,
) -> Result<String, AllocError>
where
    SC: StarkGenericConfig,
    SC::Challenger: GrindingChallenger<Witness = Val<SC>>,
    A: Air<Val<SC>>,
    PcsError<SC>: Debug,
{
    let answer = match key {
        Some(_) => verify_with_preprocessed(alloc, config, air, proof, public_values, key),
        None => verify(alloc, config, air, proof, public_values),
    };
    format!(in alloc; "{answer:?}")
}

/// What the verifier answers, in words.
pub fn answer<F, EF, C, A>(
    alloc: Global,
    config: &ClearConfig<F, EF, C>,
    air: &A,
    proof: &Proof<ClearCommitment<F>, EF, ClearProof, F>,
    public_values: &[F],
    key: Option<&PreprocessedVerifierKey<ClearCommitment<F>>>,
) -> Result<String, AllocError>
where
    F: TwoAdicField + PrimeField64,
    EF: ExtensionField<F>,
    C: StarkChallenger<F, EF, ClearCommitment<F>>,
    A: Air<F>,
{
    verified::<ClearConfig<F, EF, C>, A>(alloc, config, air, proof, public_values, key)
}

/// What is set up for an AIR with preprocessed columns.
pub type Keys<F> = (
    PreprocessedProverData<ClearCommitment<F>, ClearCommitment<F>>,
    PreprocessedVerifierKey<ClearCommitment<F>>,
);

/// What is set up for an AIR at a height; nothing where it was refused.
pub fn set_up<F, EF, C, A: BaseAir<F>>(
    alloc: Global,
    config: &ClearConfig<F, EF, C>,
    air: &A,
    degree_bits: usize,
) -> Option<Option<Keys<F>>>
where
    F: TwoAdicField + PrimeField64,
    EF: ExtensionField<F>,
    C: FieldChallenger<F> + CanObserve<ClearCommitment<F>> + ExtensionChallenger<F, EF> + Clone,
    requires height { HasHeight degree_bits (A.preprocessed_trace air.now) }
    requires within { IsCommittedWithin degree_bits F.TWO_ADICITY (A.preprocessed_trace air.now) }
{
    setup_preprocessed(alloc, config, air, degree_bits).ok()
}
