//! The test of an AIR's constraints at the point out of the domain.
ghost use Rattle.std.specs.Prelude.{◌≡◌, ◌↔◌, IfErr, IsTrue, OnOk};
ghost use Rattle.stark_protocol.specs.Equation.{OpenedRows, row_or_empty};
ghost use Rattle.stark_verifier.specs.Constraints.{AreWideEnough, HoldsAtPoint, HoldsOnRows, LiesOutside, TellsFaultAtPoint, TellsFaultOnRows, given_rows, opened_rows};

use stark_air::{Air, RowWindow};
use stark_parts::{Domain, RowsAtPoint, StarkFields, StarkGenericConfig, Val, fold_constraints};
use stark_support::{Field, PolynomialSpace};
use stark_transcript::{InvalidProofShapeError, VerificationError};
use std::marker::PhantomData;

/// An opened row; one that isn't opened has no value.
fn row_or_empty<'a, EF>(row: Option<&'a [EF]>) -> &'a [EF]
    ensures { result.now ≡ row_or_empty (λ r. r.now) row.entry }
{
    match row {
        Some(values) => values,
        None => &[],
    }
}

/// Rows that are given one by one.
pub(crate) fn rows_at_point<'a, F, EF>(
    local: &'a [EF],
    next: &'a [EF],
    preprocessed_local: Option<&'a [EF]>,
    preprocessed_next: Option<&'a [EF]>,
    periodic_values: &'a [EF],
    public_values: &'a [F],
) -> RowsAtPoint<'a, F, EF>
    ensures { opened_rows result ≡ given_rows local.now next.now preprocessed_local.entry
        preprocessed_next.entry periodic_values.now public_values.now }
{
    let main = RowWindow {
        current: local,
        next,
        of: PhantomData,
    };
    let preprocessed = RowWindow {
        current: row_or_empty(preprocessed_local),
        next: row_or_empty(preprocessed_next),
        of: PhantomData,
    };
    RowsAtPoint {
        main,
        preprocessed,
        periodic_values,
        public_values,
    }
}

/// Whether the folded constraints are the vanishing value times the quotient.
fn is_balanced<EF: Field>(folded: EF, vanishing: EF, quotient: EF) -> bool
    ensures { IsTrue result ↔ (folded ≡ EF.ring.mul vanishing quotient) }
{
    folded == vanishing * quotient
}

/// The test of `verify_constraints`, of rows at a point.
pub(crate) fn check_rows<SC: StarkGenericConfig, A: Air<Val<SC>>, PcsErr>(
    air: &A,
    rows: RowsAtPoint<'_, Val<SC>, SC::Challenge>,
    trace: Domain<SC>,
    zeta: SC::Challenge,
    alpha: SC::Challenge,
    quotient: SC::Challenge,
) -> Result<(), VerificationError<PcsErr>>
    requires subgroup { (SC.Pcs.Domain.coset_of trace).shift ≡ SC.Pcs.Domain.Val.ring.one }
    requires outside { LiesOutside SC.Challenge.ring SC.Challenge.inverse_of SC.Challenge.embed
        (SC.Pcs.Domain.coset_of trace) zeta }
    requires widths { AreWideEnough (A.layout air.now) (opened_rows rows) }
    ensures holds { OnOk result (HoldsAtPoint ⟦<SC as StarkFields>⟧.fields
        (SC.Pcs.Domain.coset_of trace) (A.constraints air.now) rows.entry zeta alpha quotient) }
    ensures fault { TellsFaultAtPoint ⟦<SC as StarkFields>⟧.fields
        (SC.Pcs.Domain.coset_of trace) (A.constraints air.now) rows.entry zeta alpha quotient
        result }
    ensures memory { IfErr result (λ error. error ≡ VerificationError.OutOfMemory
        → A.takes_memory air.now) }
{
    // The two rows are one window of the constraints, where an absent one has no columns. This
    // stands here for `verify_constraints`, which is public: a verifier has tested both against the
    // AIR's width.
    let got_local = rows.preprocessed.current.len();
    let got_next = rows.preprocessed.next.len();
    if got_local != got_next {
        return Err(VerificationError::InvalidProofShape(
            InvalidProofShapeError::PreprocessedTraceWidthMismatch {
                expected_local: got_local,
                expected_next: got_local,
                got_local,
                got_next,
            },
        ));
    }
    // The folded constraints over Z_H are the quotient. Multiplied out this says as much: zeta lies
    // outside H, and so Z_H(zeta) isn't zero.
    let selectors = trace.selectors_at_point(zeta);
    let folded = fold_constraints::<SC, A>(air, rows, selectors, alpha)?;
    if is_balanced(folded, trace.vanishing_poly_at_point(zeta), quotient) {
        Ok(())
    } else {
        Err(VerificationError::OodEvaluationMismatch { index: None })
    }
}

/// Tests that the constraints, folded by alpha over the opened values, are the vanishing value at
/// `zeta` times the quotient.
///
/// The rows have at least the AIR's widths and counts, the two preprocessed ones only where they
/// are of one length; a row that isn't opened is given as zeros, an absent preprocessed one has
/// length 0. `trace_domain` is the subgroup H, and `zeta` lies outside it. The contract's `rows`
/// are these slices as one value, which a caller picks by `given_rows` of them.
///
/// - `PreprocessedTraceWidthMismatch` where the two preprocessed lengths differ: the current length
///   three times, then the next one's.
/// - `OodEvaluationMismatch { index: None }` where the equation fails.
/// - `OutOfMemory` only where the AIR's `eval` takes memory of its own, and was refused a growth.
pub fn verify_constraints<SC: StarkGenericConfig, A: Air<Val<SC>>, PcsErr>(
    air: &A,
    trace_local: &[SC::Challenge],
    trace_next: &[SC::Challenge],
    preprocessed_local: Option<&[SC::Challenge]>,
    preprocessed_next: Option<&[SC::Challenge]>,
    periodic_values: &[SC::Challenge],
    public_values: &[Val<SC>],
    trace_domain: Domain<SC>,
    zeta: SC::Challenge,
    alpha: SC::Challenge,
    quotient: SC::Challenge,
) -> Result<(), VerificationError<PcsErr>>
    ghost rows: { OpenedRows SC.Pcs.Domain.Val SC.Challenge }
    requires given { rows ≡ given_rows trace_local.now trace_next.now
        preprocessed_local preprocessed_next periodic_values.now public_values.now }
    requires subgroup { (SC.Pcs.Domain.coset_of trace_domain).shift ≡ SC.Pcs.Domain.Val.ring.one }
    requires outside { LiesOutside SC.Challenge.ring SC.Challenge.inverse_of SC.Challenge.embed
        (SC.Pcs.Domain.coset_of trace_domain) zeta }
    requires widths { AreWideEnough (A.layout air.now) rows }
    ensures holds { OnOk result (HoldsOnRows ⟦<SC as StarkFields>⟧.fields
        (SC.Pcs.Domain.coset_of trace_domain) (A.constraints air.now) rows zeta alpha quotient) }
    ensures fault { TellsFaultOnRows ⟦<SC as StarkFields>⟧.fields
        (SC.Pcs.Domain.coset_of trace_domain) (A.constraints air.now) rows zeta alpha quotient
        result }
    ensures memory { IfErr result (λ error. error ≡ VerificationError.OutOfMemory
        → A.takes_memory air.now) }
{
    let rows = rows_at_point(
        trace_local,
        trace_next,
        preprocessed_local,
        preprocessed_next,
        periodic_values,
        public_values,
    );
    check_rows::<SC, A, PcsErr>(air, rows, trace_domain, zeta, alpha, quotient)
}
