//! The key of a statement that was read.
ghost use Rattle.std.specs.Prelude.{◌≡◌, ◌≤◌, IfErr, IfOk};
ghost use Rattle.stark_protocol.specs.Preprocessing.{HasHeight};
ghost use Rattle.stark_statement.specs.StatementBytes.{statement_digest};
ghost use Rattle.stark_statement.specs.StatementView.{statement_view};
ghost use Rattle.stark_answers.specs.declared.verdict.Verdict.{Verdict};
ghost use Rattle.stark_keys.specs.Keys.{OrNotMade, made_of};

use crate::contracts::KeyAnswers;
use p3_uni_stark::{PreprocessedVerifierKey, ProvingError, setup_preprocessed};
use stark_air::BaseAir;
use stark_answers::{Report, Verdict, log_rows_of};
use stark_key_bytes::{StatementKey, key_to_bytes};
use stark_parts::{Com, Val};
use stark_service::{ServiceAnswers, ServiceConfig, unfit_rows};
use stark_statement::Statement;
use stark_support::UnivariateStarkPcs;
use stark_tree_air::TreeAir;
use std::alloc::{AllocError, Global};

/// The verifier's key of a statement's preprocessed columns, which have `2^log_rows` rows; none
/// where there are no columns. Err only where memory was refused.
fn verifier_key<SC: ServiceConfig>(
    alloc: Global,
    config: &SC,
    statement: &Statement<Val<SC>>,
    log_rows: usize,
) -> Result<Option<PreprocessedVerifierKey<Com<SC>>>, AllocError>
    requires ready { ⟦<SC as ServiceAnswers>⟧.is_ready config.now
        (statement_view statement.now) }
    requires height { HasHeight log_rows
        (⟦<TreeAir<Val<SC>> as BaseAir<Val<SC>>>⟧.preprocessed_trace statement.now.air) }
    requires within { log_rows ≤ SC.Pcs.scheme.log_max_trace_height (SC.config.scheme config.now) }
    ensures { IfOk result (⟦<SC as KeyAnswers>⟧.is_key config.now (statement_view statement.now)
        log_rows) }
{
    match setup_preprocessed(alloc, config, &statement.air, log_rows) {
        Ok(None) => Ok(None),
        // What a prover keeps of the columns isn't a verifier's.
        Ok(Some((_data, key))) => Ok(Some(key)),
        Err(ProvingError::OutOfMemory) => Err(AllocError),
        Err(_) => unreachable!(),
    }
}

/// The bytes of the key's file of a statement that was read, with its digest, for `2^log_rows` rows
/// of preprocessed columns. Err only where memory was refused.
fn key_with_rows<SC: ServiceConfig>(
    alloc: Global,
    config: &SC,
    statement: &Statement<Val<SC>>,
    digest: [u8; 32],
    log_rows: usize,
) -> Result<Vec<u8>, AllocError>
    requires ready { ⟦<SC as ServiceAnswers>⟧.is_ready config.now
        (statement_view statement.now) }
    requires digest { digest ≡ statement_digest SC.Pcs.Domain.Val.number_of
        (statement_view statement.now) }
    requires height { HasHeight log_rows
        (⟦<TreeAir<Val<SC>> as BaseAir<Val<SC>>>⟧.preprocessed_trace statement.now.air) }
    requires within { log_rows ≤ SC.Pcs.scheme.log_max_trace_height (SC.config.scheme config.now) }
    ensures { IfOk result (λ bytes. ⟦<SC as KeyAnswers>⟧.key_file config.now
        (statement_view statement.now) bytes.items) }
{
    let key = verifier_key(alloc, config, statement, log_rows)?;
    let bytes = key_to_bytes(alloc, &StatementKey { digest, key })?;
    Ok(bytes)
}

/// The bytes of the key's file of a statement that was read, whose digest this is, with a
/// configuration that asks for the statement's work, masks nothing and sets up all columns; or
/// `bad input` where the AIR's preprocessed columns have no power of two of rows within the
/// scheme's heights; or `out of memory`.
pub fn key_with<SC: ServiceConfig>(
    alloc: Global,
    config: &SC,
    statement: &Statement<Val<SC>>,
    digest: [u8; 32],
) -> Result<Vec<u8>, Report<Verdict>>
    requires ready { ⟦<SC as ServiceAnswers>⟧.is_ready config.now
        (statement_view statement.now) }
    requires digest { digest ≡ statement_digest SC.Pcs.Domain.Val.number_of
        (statement_view statement.now) }
    ensures made { OrNotMade (⟦<SC as KeyAnswers>⟧.makes config.now
        (statement_view statement.now)) (made_of result) }
    ensures refused { IfErr result (λ report. report.answer ≡ Verdict.Accepted → ⊥) }
{
    let greatest = config.pcs().log_max_trace_height();
    match log_rows_of(alloc, &statement.air, greatest) {
        Ok(Some(log_rows)) => match key_with_rows(alloc, config, statement, digest, log_rows) {
            Ok(bytes) => Ok(bytes),
            Err(AllocError) => Err(Report::out_of_memory()),
        },
        Ok(None) => Err(unfit_rows(alloc)),
        Err(AllocError) => Err(Report::out_of_memory()),
    }
}
