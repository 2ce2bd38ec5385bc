//! The verdict on a proof for a statement that was read.

ghost use Rattle.std.specs.Prelude.{◌≡◌, ◌≤◌};
ghost use Rattle.stark_protocol.specs.Preprocessing.{HasHeight};
ghost use Rattle.stark_statement.specs.StatementView.{statement_view};
ghost use Rattle.stark_answers.specs.declared.verdict.Verdict.{Verdict};
ghost use Rattle.stark_service.specs.Statements.{OrUnjudged};

use crate::bounds::JudgingConfig;
use crate::heights::{height_fault, of_other_height};
use crate::reading::read_proof;
use crate::service::ServiceAnswers;
use crate::words::reason_of;
use stark_air::BaseAir;
use stark_answers::{Report, Verdict, log_rows_of, verdict_of, verify_with_key};
use stark_parts::{StarkGenericConfig, Val};
use stark_protocol::StarkProof;
use stark_statement::Statement;
use stark_support::UnivariateStarkPcs;
use stark_tree_air::TreeAir;
use std::alloc::{AllocError, Global};

/// What is said of a statement whose preprocessed columns have no number of rows that a key can
/// have: `bad input`.
pub fn unfit_rows(alloc: Global) -> Report<Verdict>
    ensures { result.answer ≡ Verdict.BadInput }
{
    let wanted =
        "its preprocessed columns want a power of two of rows, within the scheme's heights";
    Report::bad_input(alloc, "the statement", &wanted)
}

/// The verdict on a proof, with the key for `2^log_rows` rows of preprocessed columns. The
/// configuration asks for the statement's work, masks nothing and sets up all columns.
fn verify_with_rows<SC: JudgingConfig>(
    alloc: Global,
    config: &SC,
    statement: &Statement<Val<SC>>,
    log_rows: usize,
    bytes: &[u8],
) -> Report<Verdict>
    requires ready { ⟦<SC as ServiceAnswers>⟧.is_ready config.now
        (statement_view statement.now) }
    requires height { HasHeight log_rows
        (⟦<TreeAir<Val<SC>> as BaseAir<Val<SC>>>⟧.preprocessed_trace statement.now.air) }
    requires within { log_rows ≤ SC.Pcs.scheme.log_max_trace_height (SC.config.scheme config.now) }
    ensures { OrUnjudged (⟦<SC as ServiceAnswers>⟧.judges config.now
        (statement_view statement.now) log_rows bytes.now) result.answer }
{
    let proof: StarkProof<SC> = match read_proof(alloc, bytes) {
        Ok(proof) => proof,
        Err(report) => return report,
    };
    let (fixed, got) = (statement.log_height, proof.degree_bits);
    if let Some(fault) = height_fault(fixed, got) {
        return of_other_height(alloc, fixed, got, fault);
    }
    let answer = verify_with_key(
        alloc,
        config,
        &statement.air,
        log_rows,
        &proof,
        &statement.public_values,
    );
    let report = Report {
        answer: verdict_of(&answer),
        reason: reason_of(alloc, &answer),
    };
    report.unless_unjudged()
}

/// The verdict on a proof for a statement that was read, with a configuration whose challenger has
/// observed the statement, which asks for the statement's work, masks nothing and sets up all
/// columns: `accepted`; `refused` and the first fault, which is the height where the statement
/// fixes another one than the proof's; `bad input` where the proof can't be read, or the AIR's
/// preprocessed columns have no power of two of rows within the scheme's heights; `out of memory`.
pub fn verify_with<SC: JudgingConfig>(
    alloc: Global,
    config: &SC,
    statement: &Statement<Val<SC>>,
    bytes: &[u8],
) -> Report<Verdict>
    requires ready { ⟦<SC as ServiceAnswers>⟧.is_ready config.now
        (statement_view statement.now) }
    ensures verdict { OrUnjudged (⟦<SC as ServiceAnswers>⟧.verdict config.now
        (statement_view statement.now) bytes.now) result.answer }
    ensures sound { result.answer ≡ Verdict.Accepted → ⟦<SC as ServiceAnswers>⟧.sound config.now
        (statement_view statement.now) bytes.now }
{
    let greatest = config.pcs().log_max_trace_height();
    match log_rows_of(alloc, &statement.air, greatest) {
        Ok(Some(log_rows)) => verify_with_rows(alloc, config, statement, log_rows, bytes),
        Ok(None) => unfit_rows(alloc),
        Err(AllocError) => Report::out_of_memory(),
    }
}
