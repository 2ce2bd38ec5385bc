//! The equation at the sampled point, over the opened values.
ghost use Rattle.std.specs.Prelude.{◌≡◌, IfOk, OnOk, option_map, replicate, unwrap_or};
ghost use Rattle.stark_protocol.specs.Acceptance.{preprocessed_next};
ghost use Rattle.stark_protocol.specs.Equation.{row_or_empty};
ghost use Rattle.stark_protocol.specs.FirstFault.{EquationFault};
ghost use Rattle.stark_verifier.specs.MemoryAside.{IfErrMemoryAside};
ghost use Rattle.stark_verifier.specs.Shape.{row_view, rows_view};

use crate::constraints::{check_rows, rows_at_point};
use crate::contracts::StarkChecks;
use crate::instance::InstanceOf;
use crate::shape::ProofDomains;
use crate::transcript::SampledPoint;
use stark_air::{Air, BaseAir};
use stark_parts::{Domain, PcsError, StarkGenericConfig, Val};
use stark_proof::PreprocessedOpenedValues;
use stark_protocol::quotient_at;
use stark_support::{Field, GrindingChallenger};
use stark_transcript::VerificationError;
use std::alloc::{AllocError, Global};

/// A row of zeros.
fn zeros<EF: Field>(alloc: Global, width: usize) -> Result<Vec<EF>, AllocError>
    ensures { IfOk result (λ row. row.items ≡ replicate width EF.ring.zero) }
{
    let zero = EF::ZERO;
    let mut row = Vec::new(alloc);
    for _column in 0..width {
        row.push(zero)?;
    }
    Ok(row)
}

/// A row, and the filler where it isn't opened.
fn row_or<'a, EF>(row: &'a Option<Vec<EF>>, filler: &'a [EF]) -> &'a [EF]
    ensures { result.now ≡ unwrap_or (row_view row.now) filler.now }
{
    match row {
        Some(row) => row.as_slice(),
        None => filler,
    }
}

/// The next preprocessed row: the filler where the current one alone is opened.
fn preprocessed_next<'a, EF>(
    rows: &'a Option<PreprocessedOpenedValues<EF>>,
    filler: &'a [EF],
) -> Option<&'a [EF]>
    ensures { row_or_empty (λ row. row.now) result
        ≡ preprocessed_next filler.now (rows_view rows.now) }
{
    match rows {
        Some(rows) => Some(row_or(&rows.next, filler)),
        None => None,
    }
}

/// The folded constraints against the quotient that the chunks recompose to:
/// `OodEvaluationMismatch` where they differ.
pub(crate) fn check_equation<SC: StarkGenericConfig, A: Air<Val<SC>>>(
    alloc: Global,
    on: &InstanceOf<'_, SC, A>,
    domains: ProofDomains<Domain<SC>>,
    point: &SampledPoint<SC::Challenge>,
) -> Result<(), VerificationError<PcsError<SC>>>
where
    SC::Challenger: GrindingChallenger<Witness = Val<SC>>,
    requires shaped { ⟦<SC as StarkChecks<A>>⟧.is_shaped on.now domains }
    requires sampled { ⟦<SC as StarkChecks<A>>⟧.is_sampled on.now domains point.now.zeta
        point.now.periodic_values.items }
    ensures holds { OnOk result (⟦<SC as StarkChecks<A>>⟧.balanced on.now point.now.alpha
        point.now.zeta) }
    ensures fault { IfErrMemoryAside result (EquationFault
        (⟦<SC as StarkChecks<A>>⟧.balanced on.now point.now.alpha point.now.zeta)) }
{
    // The chunks stand on parts of one coset; from their values at zeta comes the quotient's.
    let (air, opened, zeta) = (on.air, &on.proof.opened_values, point.zeta);
    let chunks = opened.quotient_chunks.as_slice();
    let quotient = quotient_at::<SC>(alloc, &domains.quotient, domains.log_chunks, chunks, zeta)?;
    // A next row that isn't opened is read by no constraint, so zeros stand in for it.
    let next_filler: Vec<SC::Challenge> = zeros(alloc, air.width())?;
    let preprocessed_filler: Vec<SC::Challenge> = zeros(alloc, air.preprocessed_width())?;
    let rows = rows_at_point(
        opened.trace_local.as_slice(),
        row_or(&opened.trace_next, next_filler.as_slice()),
        opened.preprocessed_local(),
        preprocessed_next(&opened.preprocessed, preprocessed_filler.as_slice()),
        point.periodic_values.as_slice(),
        on.public_values,
    );
    check_rows::<SC, A, PcsError<SC>>(air, rows, domains.trace, zeta, point.alpha, quotient)
}
