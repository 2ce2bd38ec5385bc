//! The check of a trace: whether it satisfies a statement's AIR.

ghost use Rattle.std.specs.Prelude.{◌≡◌, ◌<◌, IfOk, Some, length, map, vec_len};
ghost use Rattle.stark_support.specs.Periodic.{first_fault};
ghost use Rattle.stark_protocol.specs.Preprocessing.{HasHeight};
ghost use Rattle.stark_statement.specs.StatementView.{statement_view};
ghost use Rattle.stark_support.specs.FieldPair.{FieldsOps};
ghost use Rattle.stark_tree_air.specs.TreeJson.{list_view};
ghost use Rattle.stark_answers.specs.declared.finding.Finding.{Finding};
ghost use Rattle.stark_answers.specs.declared.verdict.Refusal.{Refusal};
ghost use Rattle.stark_answers.specs.declared.verdict.Verdict.{Verdict};
ghost use Rattle.stark_service.specs.Fitting.{ChecksTrace, IsOfRows};
ghost use Rattle.stark_service.specs.TraceChecks.{ChecksMatrix, IsAsHighAs, TellsBroken};

use stark_air::BaseAir;
use stark_answers::{BrokenRow, DeclaredAir, Finding, Refusal, Report, Verdict};
use stark_completeness::{ConstraintCheckError, ConstraintViolation, check_declared};
use stark_show::equation;
use stark_statement::Statement;
use stark_support::{
    ExtensionField, FieldPair, PeriodicColumnShapeError, PeriodicColumns, PrimeField64,
    RowMajorMatrix, TwoAdicField,
};
use stark_tree_air::TreeAir;
use std::alloc::{AllocError, Global};

/// A row that breaks a constraint, with the lines that say so.
fn broken_row<F: PrimeField64>(
    alloc: Global,
    air: &TreeAir<F>,
    violation: ConstraintViolation<F>,
) -> Result<BrokenRow, AllocError>
    ensures { IfOk result (TellsBroken F.number_of (list_view air.now.list) violation) }
{
    let equation = equation(alloc, air, violation.constraint)?;
    let row = violation.row;
    let constraint = violation.constraint;
    let value = violation.value.as_canonical_u64();
    let lines = format!(in alloc; "row {row}: constraint {constraint} is {value}\n{equation}")?;
    Ok(BrokenRow {
        row,
        constraint,
        value,
        lines,
    })
}

/// What a check finds of a trace: that it satisfies the AIR; or the first row that breaks a
/// constraint and in it the first constraint; or `out of memory`, also where the equation's line
/// can't be had. `EF` is the extension over which the AIR is proved; a check has none of it.
#[tactic(auto, unfolding(crate::specs::TraceChecks::IsFirstBroken, crate::specs::TraceChecks::IsSatisfying))]
fn check_trace<F: PrimeField64 + TwoAdicField, EF: ExtensionField<F>>(
    alloc: Global,
    air: &TreeAir<F>,
    trace: &RowMajorMatrix<F>,
    public_values: &[F],
) -> Report<Finding>
    requires columns { 0 < trace.now.width }
    requires width { trace.now.width ≡ (⟦<TreeAir<F> as BaseAir<F>>⟧.layout air.now).main }
    requires height { IsAsHighAs (⟦<TreeAir<F> as BaseAir<F>>⟧.preprocessed_trace air.now)
        trace.now }
    requires public_values { length public_values.now
        ≡ (⟦<TreeAir<F> as BaseAir<F>>⟧.layout air.now).public_values }
    ensures { ChecksMatrix ⟦<EF as FieldPair<F>>⟧.fields F.number_of
        ⟦<TreeAir<F> as DeclaredAir<F>>⟧.declared air.now trace.now public_values.now
        result.answer }
{
    match check_declared(alloc, air, trace, public_values) {
        Ok(()) => Report {
            answer: Finding::Satisfied,
            reason: None,
        },
        Err(ConstraintCheckError::Violation(violation)) => {
            match broken_row(alloc, air, violation) {
                Ok(row) => Report {
                    answer: Finding::Broken(row),
                    reason: None,
                },
                Err(AllocError) => Report::out_of_memory().as_finding(),
            }
        }
        Err(ConstraintCheckError::OutOfMemory) => Report::out_of_memory().as_finding(),
    }
}

/// What is wrong with the periodic columns of an AIR beside this many rows, if anything is.
fn columns_fault<F>(air: &TreeAir<F>, rows: usize) -> Option<PeriodicColumnShapeError>
    ensures { result ≡ first_fault rows 0
        (map vec_len air.now.declaration.columns.periodic_columns.items) }
{
    match PeriodicColumns::new(&air.declaration.columns.periodic_columns, rows) {
        Ok(_) => None,
        Err(fault) => Some(fault),
    }
}

/// What is said of a trace that a periodic column doesn't fit, as a prover says it.
fn unfit_column(alloc: Global, fault: &PeriodicColumnShapeError) -> Report<Finding>
    ensures { result.answer ≡ Finding.Verdict (Verdict.Refused Refusal.PeriodicColumn) }
{
    Report {
        answer: Finding::Verdict(Verdict::Refused(Refusal::PeriodicColumn)),
        reason: format!(in alloc; "the trace doesn't fit the AIR: {fault}").ok(),
    }
}

/// What a check finds of the trace that rows are: what a prover would say of a periodic column that
/// doesn't fit it, and else whether it satisfies the AIR.
pub(crate) fn check_rows<F: PrimeField64 + TwoAdicField, EF: ExtensionField<F>>(
    alloc: Global,
    greatest: usize,
    statement: &Statement<F>,
    log_rows: usize,
    trace: &RowMajorMatrix<F>,
) -> Report<Finding>
    requires height { HasHeight log_rows
        (⟦<TreeAir<F> as BaseAir<F>>⟧.preprocessed_trace statement.now.air) }
    requires columns { 0 < (⟦<TreeAir<F> as BaseAir<F>>⟧.layout statement.now.air).main }
    requires fits { IsOfRows greatest log_rows (statement_view statement.now) trace.now }
    ensures { ChecksTrace greatest log_rows (statement_view statement.now)
        ⟦<EF as FieldPair<F>>⟧.fields F.number_of trace.now result.answer }
{
    match columns_fault(&statement.air, trace.height()) {
        Some(fault) => unfit_column(alloc, &fault),
        None => {
            let public_values = statement.public_values.as_slice();
            check_trace::<F, EF>(alloc, &statement.air, trace, public_values)
        }
    }
}
