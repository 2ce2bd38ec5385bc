//! The trace that rows are which were read, where they are one of a statement's AIR.

ghost use Rattle.std.specs.Prelude.{◌≡◌, ◌≤◌, ℕ, IfSome, IsNone};
ghost use Rattle.stark_statement.specs.StatementView.{statement_view};
ghost use Rattle.stark_answers.specs.TraceShape.{FitsShape};
ghost use Rattle.stark_answers.specs.declared.verdict.Verdict.{Verdict};
ghost use Rattle.stark_service.specs.Fitting.{AreSomeRows, FitsOrNot, OfRead};

use crate::misfit::TraceMisfit;
use crate::words::bad_input;
use stark_answers::{CheckShape, Finding, Report, Verdict, log_of_height};
use stark_statement::Statement;
use stark_support::{Field, RowMajorMatrix};
use stark_trace_json::TraceRows;
use stark_tree_air::TreeAir;
use std::alloc::Global;

/// The logarithm of the height of a trace of these rows for a statement, where it is a power of two
/// from 1 to `2^greatest`, and `2^log_rows` beside preprocessed columns, and the rows are as wide
/// and the statement's public values as many as those of the shape; else None.
fn log_height_of_read<F>(
    statement: &Statement<F>,
    rows: &TraceRows<F>,
    shape: CheckShape,
    log_rows: usize,
    greatest: usize,
) -> Option<usize>
    requires { greatest ≤ 63 }
    ensures some { IfSome result (λ height. OfRead rows.now (λ list.
        FitsShape shape log_rows greatest list statement.now.public_values.items height)) }
    ensures none { IsNone result → OfRead rows.now (λ list. (height : ℕ)
        → FitsShape shape log_rows greatest list statement.now.public_values.items height → ⊥) }
{
    if statement.public_values.len() != shape.num_public_values {
        return None;
    }
    let Some(log_height) = log_of_height(rows.height, greatest) else {
        return None;
    };
    if rows.width != shape.width {
        return None;
    }
    if shape.preprocessed_width > 0 && log_height != log_rows {
        return None;
    }
    Some(log_height)
}

/// What is said of rows that are no trace of a statement's AIR.
fn unfit<F>(
    alloc: Global,
    statement: &Statement<F>,
    rows: &TraceRows<F>,
    shape: CheckShape,
    log_rows: usize,
    greatest: usize,
) -> Report<Verdict>
    ensures { result.answer ≡ Verdict.BadInput }
{
    let got = statement.public_values.len();
    bad_input(
        alloc,
        &TraceMisfit::of_counts(got, rows.height, rows.width, shape, log_rows, greatest),
    )
}

/// The trace of rows that were read, with preprocessed columns of `2^log_rows` rows; or `bad input`
/// where they are no trace of the AIR's widths and counts with a power of two of rows, at most
/// `2^greatest`, or don't have as many rows as its preprocessed columns; or `out of memory`.
pub(crate) fn fitting_trace<F: Field>(
    alloc: Global,
    greatest: usize,
    statement: &Statement<F>,
    log_rows: usize,
    rows: TraceRows<F>,
) -> Result<RowMajorMatrix<F>, Report<Finding>>
    requires greatest { greatest ≤ 63 }
    requires read { AreSomeRows rows }
    ensures { OfRead rows (FitsOrNot greatest log_rows (statement_view statement.now) result) }
{
    let Ok(shape) = CheckShape::from_air::<F, TreeAir<F>>(alloc, &statement.air) else {
        return Err(Report::out_of_memory().as_finding());
    };
    let Some(_log_height) = log_height_of_read(statement, &rows, shape, log_rows, greatest) else {
        let report = unfit(alloc, statement, &rows, shape, log_rows, greatest);
        return Err(report.as_finding());
    };
    Ok(RowMajorMatrix::new(rows.values, shape.width))
}
