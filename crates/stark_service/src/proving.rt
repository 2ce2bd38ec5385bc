//! What is found of a trace for a statement that was read: whether it satisfies the AIR, or a proof
//! of it.

ghost use Rattle.std.specs.Prelude.{◌≡◌};
ghost use Rattle.stark_statement.specs.StatementView.{statement_view};
ghost use Rattle.stark_answers.specs.Finding.{WhereProof};
ghost use Rattle.stark_service.specs.Fitting.{AreSomeRows, IsOfRows, TellsOfRows};
ghost use Rattle.stark_service.specs.StatementFacts.{IsOfTrace};
ghost use Rattle.stark_service.specs.TraceChecks.{OrLacksMemory};

use crate::bounds::ProvingConfig;
use crate::checking::check_rows;
use crate::fitting::fitting_trace;
use crate::heights::{is_fixed_height, unfit_height};
use crate::judging::unfit_rows;
use crate::progress::{Progress, Stage};
use crate::reading::read_rows;
use crate::service::ServiceAnswers;
use stark_air::BaseAir;
use stark_answers::{
    Finding, ProofForm, Report, TraceTask, finding_of_proof, log_rows_of, prove_with_own_columns,
    words_of_failure,
};
use stark_parts::{StarkGenericConfig, Val};
use stark_statement::Statement;
use stark_support::{RowMajorMatrix, UnivariateStarkPcs};
use stark_trace_json::TraceRows;
use std::alloc::{AllocError, Global};

/// What a prover finds of the trace that rows are, with preprocessed columns of `2^log_rows` rows:
/// its proof in a form, or why there is none.
fn prove_rows<SC: ProvingConfig>(
    alloc: Global,
    config: &SC,
    form: ProofForm,
    greatest: usize,
    statement: &Statement<Val<SC>>,
    log_rows: usize,
    trace: RowMajorMatrix<Val<SC>>,
) -> Report<Finding>
    requires able { ⟦<SC as ServiceAnswers>⟧.can_prove_for config.now
        (statement_view statement.now) }
    requires columns { ⟦<SC as ServiceAnswers>⟧.has_columns_at config.now statement.now log_rows }
    requires greatest { greatest
        ≡ SC.Pcs.scheme.log_max_trace_height (SC.config.scheme config.now) }
    requires fits { IsOfRows greatest log_rows (statement_view statement.now) trace }
    ensures proves { ⟦<SC as ServiceAnswers>⟧.proves config.now form greatest
        (statement_view statement.now) log_rows trace result.answer }
    ensures accepted { ⟦<SC as ServiceAnswers>⟧.accepts_of_trace config.now greatest
        (statement_view statement.now) log_rows trace result.answer }
{
    let public_values = statement.public_values.as_slice();
    let answer = prove_with_own_columns(
        alloc,
        config,
        &statement.air,
        log_rows,
        trace,
        public_values,
    );
    let report = Report {
        answer: finding_of_proof(alloc, form, &answer),
        reason: words_of_failure(alloc, &answer),
    };
    report.unless_unjudged()
}

/// What is found of rows, by what is asked for them.
fn answer_rows<SC: ProvingConfig, P: Progress>(
    alloc: Global,
    config: &SC,
    asked: TraceTask,
    statement: &Statement<Val<SC>>,
    log_rows: usize,
    rows: TraceRows<Val<SC>>,
    progress: &mut P,
) -> Report<Finding>
    requires able { ⟦<SC as ServiceAnswers>⟧.can_prove_for config.now
        (statement_view statement.now) }
    requires columns { ⟦<SC as ServiceAnswers>⟧.has_columns_at config.now statement.now log_rows }
    requires read { AreSomeRows rows }
    ensures tells { TellsOfRows rows (⟦<SC as ServiceAnswers>⟧.tells config.now asked
        (statement_view statement.now) log_rows) result.answer }
    ensures accepted { ⟦<SC as ServiceAnswers>⟧.accepts_of_rows config.now asked
        (statement_view statement.now) log_rows rows result.answer }
{
    let greatest = config.pcs().log_max_trace_height();
    let (height, columns) = (rows.height, statement.air.width());
    let trace = match fitting_trace(alloc, greatest, statement, log_rows, rows) {
        Ok(trace) => trace,
        Err(report) => return report,
    };
    let checking = Stage::Checking {
        rows: height,
        columns,
    };
    let proving = Stage::Proving {
        rows: height,
        columns,
    };
    match asked {
        TraceTask::Check => {
            progress.stage(checking);
            check_rows::<Val<SC>, SC::Challenge>(alloc, greatest, statement, log_rows, &trace)
        }
        TraceTask::ProveUnchecked(form) => {
            progress.stage(proving);
            prove_rows(alloc, config, form, greatest, statement, log_rows, trace)
        }
        TraceTask::Prove(form) => {
            // Before anything is committed: no proof is made of a trace that breaks its AIR.
            progress.stage(checking);
            let report = check_rows::<Val<SC>, SC::Challenge>(
                alloc, greatest, statement, log_rows, &trace,
            );
            match report.answer {
                Finding::Satisfied => {
                    progress.stage(proving);
                    prove_rows(alloc, config, form, greatest, statement, log_rows, trace)
                }
                _ => report,
            }
        }
    }
}

/// What is found of the rows that the bytes of a file spell.
fn answer_with_rows<SC: ProvingConfig, P: Progress>(
    alloc: Global,
    config: &SC,
    asked: TraceTask,
    statement: &Statement<Val<SC>>,
    log_rows: usize,
    bytes: Vec<u8>,
    progress: &mut P,
) -> Report<Finding>
    requires able { ⟦<SC as ServiceAnswers>⟧.can_prove_for config.now
        (statement_view statement.now) }
    requires columns { ⟦<SC as ServiceAnswers>⟧.has_columns_at config.now statement.now log_rows }
    ensures tells { OrLacksMemory (⟦<SC as ServiceAnswers>⟧.tells_of_bytes config.now asked
        (statement_view statement.now) log_rows bytes.items) result.answer }
    ensures accepted { ⟦<SC as ServiceAnswers>⟧.accepts_at config.now asked
        (statement_view statement.now) log_rows result.answer }
{
    match read_rows::<Val<SC>>(alloc, bytes) {
        Ok(rows) => {
            if !is_fixed_height(statement.log_height, rows.height) {
                let report = unfit_height(alloc, statement.log_height, rows.height);
                return report.as_finding();
            }
            answer_rows(alloc, config, asked, statement, log_rows, rows, progress)
        }
        Err(report) => report.as_finding(),
    }
}

/// What is found of a trace for a statement that was read, with a configuration whose challenger
/// has observed the statement, which asks for the statement's work, masks nothing, sets up all
/// columns, proves traces of any height and refuses no true opening; by what is asked for the
/// trace; its check and its proof are reported before they begin, and its bytes are dropped once
/// they are read. It is `bad input` where the trace can't be read, the AIR has no main columns, or
/// the trace isn't one of its widths and counts; or `out of memory`. A proof that is found after a
/// check is accepted as it is written, unless zeta lies in the trace's domain, by a scheme that
/// sets up what is known in one way and whose proofs' JSON nests no deeper than a reader goes
/// (`accepted`).
pub fn answer_with<SC: ProvingConfig, P: Progress>(
    alloc: Global,
    config: &SC,
    asked: TraceTask,
    statement: &Statement<Val<SC>>,
    bytes: Vec<u8>,
    progress: &mut P,
) -> Report<Finding>
    requires ready { ⟦<SC as ServiceAnswers>⟧.is_ready config.now
        (statement_view statement.now) }
    requires able { ⟦<SC as ServiceAnswers>⟧.can_prove config.now }
    ensures finds { OrLacksMemory (⟦<SC as ServiceAnswers>⟧.finds config.now asked
        (statement_view statement.now) bytes.items) result.answer }
    ensures kind { IsOfTrace asked result.answer }
    ensures proof { WhereProof (⟦<SC as ServiceAnswers>⟧.proof_file config.now
        (statement_view statement.now) bytes.items) result.answer }
    ensures accepted { ⟦<SC as ServiceAnswers>⟧.accepts config.now asked
        (statement_view statement.now) result.answer }
{
    if statement.air.width() == 0 {
        let wanted = "the AIR has no main columns, so that there is no trace";
        return Report::bad_input(alloc, "the statement", &wanted).as_finding();
    }
    let greatest = config.pcs().log_max_trace_height();
    match log_rows_of(alloc, &statement.air, greatest) {
        Ok(Some(log_rows)) => {
            answer_with_rows(alloc, config, asked, statement, log_rows, bytes, progress)
        }
        Ok(None) => unfit_rows(alloc).as_finding(),
        Err(AllocError) => Report::out_of_memory().as_finding(),
    }
}
