//! Tests of the sampled point and of the periodic columns.
ghost use Rattle.std.specs.Prelude.{◌≡◌, ◌↔◌, IfErr, IfOk, IsTrue, None, false, map, vec_len};
ghost use Rattle.stark_support.specs.Periodic.{first_fault};
ghost use Rattle.stark_protocol.specs.FirstFault.{PointFault};
ghost use Rattle.stark_verifier.specs.Constraints.{IsPower, Vanishes};
ghost use Rattle.stark_verifier.specs.MemoryAside.{IfErrMemoryAside};

use crate::contracts::StarkChecks;
use crate::instance::InstanceOf;
use crate::shape::ProofDomains;
use stark_air::{Air, BaseAir};
use stark_parts::{Domain, PcsError, StarkGenericConfig, Val};
use stark_support::{
    DomainShape, ExtensionField, Field, GrindingChallenger, PeriodicColumns, PolynomialSpace,
};
use stark_transcript::VerificationError;
use std::alloc::Global;

/// Whether a point is one of the trace's domain.
fn lies_in<D: PolynomialSpace, EF: ExtensionField<D::Val>>(
    domains: &ProofDomains<D>,
    zeta: EF,
) -> bool
    requires subgroup { (D.coset_of domains.now.trace).shift ≡ D.Val.ring.one }
    ensures vanishing { IsTrue result
        ↔ Vanishes EF.ring EF.inverse_of EF.embed (D.coset_of domains.now.trace) zeta }
    ensures point { IsTrue result
        ↔ IsPower EF.ring EF.embed D.Val.root (D.coset_of domains.now.trace) zeta }
{
    // Z_H is zero on H alone, so its one value at zeta decides it.
    domains.trace.vanishing_poly_at_point(zeta) == EF::ZERO
}

/// Tests that the sampled point doesn't lie in a domain of so many points, as is told, and then
/// that periodic columns fit it; the answer is the columns beside it.
fn fitting_columns<'c, F, X>(
    inside: bool,
    columns: &'c [Vec<F>],
    size: usize,
) -> Result<PeriodicColumns<'c, F>, VerificationError<X>>
    ensures outside { IfOk result (λ _. inside ≡ false) }
    ensures columns { IfOk result (λ fitting. fitting.columns.now ≡ columns.entry.now) }
    ensures size { IfOk result (λ fitting. fitting.trace_len ≡ size) }
    ensures fitting { IfOk result (λ _. first_fault size 0 (map vec_len columns.entry.now) ≡ None) }
    ensures fault { IfErr result (PointFault (IsTrue inside)
        (first_fault size 0 (map vec_len columns.entry.now))) }
{
    if inside {
        return Err(VerificationError::OodPointInDomain);
    }
    match PeriodicColumns::new(columns, size) {
        Ok(columns) => Ok(columns),
        Err(error) => Err(VerificationError::PeriodicColumn(error)),
    }
}

/// Tests that the sampled point lies outside the trace's domain, and that the periodic columns fit
/// that domain; the answer is the periodic columns' values at the point.
pub(crate) fn check_point<SC: StarkGenericConfig, A: Air<Val<SC>>>(
    alloc: Global,
    on: &InstanceOf<'_, SC, A>,
    domains: ProofDomains<Domain<SC>>,
    zeta: SC::Challenge,
) -> Result<Vec<SC::Challenge>, VerificationError<PcsError<SC>>>
where
    SC::Challenger: GrindingChallenger<Witness = Val<SC>>,
    requires domains { ⟦<SC as StarkChecks<A>>⟧.are_domains on.now domains.trace domains.committed }
    ensures sampled { IfOk result (λ values.
        ⟦<SC as StarkChecks<A>>⟧.is_sampled on.now domains zeta values.items) }
    ensures fault { IfErrMemoryAside result (⟦<SC as StarkChecks<A>>⟧.point_fault on.now zeta) }
{
    // On H the equation says nothing of the quotient, which it multiplies by zero, and a selector
    // has no value. As many draws fall there as H has points.
    let trace = &domains.trace;
    let inside = lies_in(&domains, zeta);
    let columns = fitting_columns(inside, on.air.periodic_columns(), trace.size())?;
    let values = trace.evaluate_periodic_columns_at(alloc, &columns, zeta)?;
    Ok(values)
}
