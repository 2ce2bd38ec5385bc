//! The steps of a check at one point, over any domain and extension, or any configuration.
ghost use Rattle.std.specs.Prelude.{◌≡◌, ◌↔◌, ◌+◌, ◌^◌, ◌<◌, ◌≤◌, All, IfSome, IsNone, IsTrue, length, vec_len};
ghost use Rattle.stark_support.specs.Coset.{coset_size, vanishing_at};
ghost use Rattle.stark_protocol.specs.Sizes.{quotient_coset};
ghost use Rattle.stark_commands.specs.Opened.{CoverRows, LiesOutside, RowsCover, TellsPoint, TellsQuotient};
ghost use Rattle.stark_commands.specs.Point.{IsOutsideCoset};

use crate::config::ClearConfig;
use p3_uni_stark::verify_constraints;
use stark_air::Air;
use stark_answers::{Refusal, Verdict};
use stark_bench::{ClearCommitment, Coset};
use stark_parts::{Domain, StarkFields, StarkGenericConfig, Val};
use stark_protocol::quotient_at;
use stark_support::{
    CanObserve, ExtensionChallenger, ExtensionField, Field, FieldChallenger, FieldPair,
    PeriodicColumns, PolynomialSpace, PrimeField64, TwoAdicField, checked_log_size_sum,
};
use stark_transcript::VerificationError;
use std::alloc::Global;

/// The error of a commitment scheme that isn't there: a check opens no commitment.
#[derive(Drop)]
pub enum NoScheme {}

/// What is given of a point: the rows and the quotient's chunks that are opened there, public
/// values, the point itself, which is zeta, and alpha.
#[derive(Drop)]
pub struct OpenedPoint<'a, F, EF> {
    pub local: &'a [EF],
    pub next: &'a [EF],
    pub preprocessed_local: &'a [EF],
    pub preprocessed_next: &'a [EF],
    pub public_values: &'a [F],
    pub chunks: &'a [Vec<EF>],
    pub zeta: EF,
    pub alpha: EF,
}

/// The domains of a trace and of its quotient, which is cut into `2^log_chunks` chunks.
#[derive(Drop)]
pub struct PointDomains<D> {
    pub trace: D,
    pub quotient: D,
    pub log_chunks: usize,
}

/// Whether the domain's vanishing value at a point is zero.
pub fn vanishes_at<D: PolynomialSpace, EF: ExtensionField<D::Val>>(domain: &D, point: EF) -> bool
    ensures { IsTrue result ↔ (vanishing_at EF.ring EF.inverse_of EF.embed (D.coset_of domain.now)
        point ≡ EF.ring.zero) }
{
    domain.vanishing_poly_at_point(point) == EF::ZERO
}

/// The domain of a quotient of `2^log_chunks` chunks: disjoint from the trace's, and as many times
/// larger. None exactly where the field has no group of that size.
pub fn quotient_domain_of<D: PolynomialSpace>(
    trace_domain: &D,
    log_height: usize,
    log_chunks: usize,
) -> Option<D>
    requires { log_height ≡ (D.coset_of trace_domain.now).log_size }
    ensures domain { IfSome result (λ d. D.coset_of d
        ≡ quotient_coset D.Val.ring D.Val.GENERATOR (D.coset_of trace_domain.now) log_chunks) }
    ensures none { IsNone result ↔ (D.Val.TWO_ADICITY < log_height + log_chunks) }
{
    let (_log_size, size) = checked_log_size_sum(log_height, log_chunks)?;
    trace_domain.try_create_disjoint_domain(size)
}

/// What is found of the equation at a zeta outside the trace domain, with these values of the
/// periodic columns and of the quotient.
pub fn check_equation<SC: StarkGenericConfig, A: Air<Val<SC>>>(
    air: &A,
    opened: &OpenedPoint<'_, Val<SC>, SC::Challenge>,
    periodic: &[SC::Challenge],
    trace_domain: Domain<SC>,
    quotient: SC::Challenge,
) -> Verdict
    requires subgroup { (SC.Pcs.Domain.coset_of trace_domain).shift ≡ SC.Pcs.Domain.Val.ring.one }
    requires outside { LiesOutside ⟦<SC as StarkFields>⟧.fields
        (SC.Pcs.Domain.coset_of trace_domain) opened.now }
    requires one_width { length opened.now.preprocessed_local.now
        ≡ length opened.now.preprocessed_next.now }
    requires widths { RowsCover opened.now periodic.now (A.layout air.now) }
    ensures { TellsQuotient ⟦<SC as StarkFields>⟧.fields (SC.Pcs.Domain.coset_of trace_domain)
        (A.constraints air.now) opened.now periodic.now quotient result }
{
    let answer = verify_constraints::<SC, A, NoScheme>(
        air,
        opened.local,
        opened.next,
        Some(opened.preprocessed_local),
        Some(opened.preprocessed_next),
        periodic,
        opened.public_values,
        trace_domain,
        opened.zeta,
        opened.alpha,
        quotient,
    );
    match answer {
        Ok(()) => Verdict::Accepted,
        Err(error) => match error {
            VerificationError::OutOfMemory => Verdict::Refused(Refusal::OutOfMemory),
            _ => Verdict::Refused(Refusal::OodEvaluationMismatch),
        },
    }
}

/// What a verifier finds at zeta, where the periodic columns and the quotient's chunks are first
/// taken there.
#[tactic(auto, unfolding(crate::specs::Point::PointVerdict, crate::specs::Point::IsOutsideCoset))]
pub fn equation_at<SC: StarkGenericConfig, A: Air<Val<SC>>>(
    alloc: Global,
    air: &A,
    opened: &OpenedPoint<'_, Val<SC>, SC::Challenge>,
    columns: &PeriodicColumns<'_, Val<SC>>,
    domains: &PointDomains<Domain<SC>>,
) -> Verdict
    requires trace_len { columns.now.trace_len
        ≡ coset_size (SC.Pcs.Domain.coset_of domains.now.trace) }
    requires number { length opened.now.chunks.now ≡ 2 ^ domains.now.log_chunks }
    requires within { domains.now.log_chunks
        ≤ (SC.Pcs.Domain.coset_of domains.now.quotient).log_size }
    requires dimension { All (λ chunk. vec_len chunk ≡ SC.Challenge.DIMENSION)
        opened.now.chunks.now }
    requires subgroup { (SC.Pcs.Domain.coset_of domains.now.trace).shift
        ≡ SC.Pcs.Domain.Val.ring.one }
    requires outside { IsOutsideCoset SC.Challenge.ring SC.Challenge.inverse_of SC.Challenge.embed
        (SC.Pcs.Domain.coset_of domains.now.trace) opened.now.zeta }
    requires one_width { length opened.now.preprocessed_local.now
        ≡ length opened.now.preprocessed_next.now }
    requires widths { CoverRows opened.now (length columns.now.columns.now) (A.layout air.now) }
    ensures { TellsPoint ⟦<SC as StarkFields>⟧.fields SC.Pcs.Domain.coset_of domains.now
        (A.constraints air.now) columns.now opened.now result }
{
    let trace_domain = domains.trace;
    let zeta = opened.zeta;
    let Ok(periodic_values) = trace_domain.evaluate_periodic_columns_at(alloc, columns, zeta) else {
        return Verdict::Refused(Refusal::OutOfMemory);
    };
    let chunks = opened.chunks;
    let log_chunks = domains.log_chunks;
    let Ok(quotient) = quotient_at::<SC>(alloc, &domains.quotient, log_chunks, chunks, zeta) else {
        return Verdict::Refused(Refusal::OutOfMemory);
    };
    check_equation::<SC, A>(air, opened, &periodic_values, trace_domain, quotient)
}

/// `equation_at` with a scheme in the clear, over any field and extension. It is generic for the
/// sake of its callers' proofs alone: a call at concrete types has all that is proved of the scheme
/// written out in it, and one at type parameters its name.
#[tactic(auto, unfolding(crate::specs::Point::PointVerdict, crate::specs::Point::IsOutsideCoset))]
pub fn equation_over<F, EF, C, A>(
    alloc: Global,
    air: &A,
    opened: &OpenedPoint<'_, F, EF>,
    columns: &PeriodicColumns<'_, F>,
    domains: &PointDomains<Coset<F>>,
) -> Verdict
where
    F: PrimeField64 + TwoAdicField,
    EF: ExtensionField<F>,
    C: FieldChallenger<F> + CanObserve<ClearCommitment<F>> + ExtensionChallenger<F, EF> + Clone,
    A: Air<F>,
    requires trace_len { columns.now.trace_len
        ≡ coset_size (⟦<Coset<F> as PolynomialSpace>⟧.coset_of domains.now.trace) }
    requires number { length opened.now.chunks.now ≡ 2 ^ domains.now.log_chunks }
    requires within { domains.now.log_chunks
        ≤ (⟦<Coset<F> as PolynomialSpace>⟧.coset_of domains.now.quotient).log_size }
    requires dimension { All (λ chunk. vec_len chunk ≡ EF.DIMENSION) opened.now.chunks.now }
    requires subgroup { (⟦<Coset<F> as PolynomialSpace>⟧.coset_of domains.now.trace).shift
        ≡ F.ring.one }
    requires outside { IsOutsideCoset EF.ring EF.inverse_of EF.embed
        (⟦<Coset<F> as PolynomialSpace>⟧.coset_of domains.now.trace) opened.now.zeta }
    requires one_width { length opened.now.preprocessed_local.now
        ≡ length opened.now.preprocessed_next.now }
    requires widths { CoverRows opened.now (length columns.now.columns.now) (A.layout air.now) }
    ensures { TellsPoint ⟦<EF as FieldPair<F>>⟧.fields
        ⟦<Coset<F> as PolynomialSpace>⟧.coset_of domains.now (A.constraints air.now) columns.now
        opened.now result }
{
    equation_at::<ClearConfig<F, EF, C>, A>(alloc, air, opened, columns, domains)
}
