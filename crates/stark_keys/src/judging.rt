//! The verdict on a proof with a key that is given.
ghost use Rattle.std.specs.Prelude.{◌≡◌, ◌↔◌, IsTrue};
ghost use Rattle.stark_statement.specs.StatementBytes.{statement_digest};
ghost use Rattle.stark_statement.specs.StatementView.{statement_view};
ghost use Rattle.stark_answers.specs.declared.verdict.Verdict.{Verdict};
ghost use Rattle.stark_service.specs.Statements.{OrUnjudged};

use crate::contracts::KeyAnswers;
use crate::words::{key_of_another, unread_key};
use p3_uni_stark::{PreprocessedVerifierKey, StarkProof, verify_with_preprocessed};
use stark_answers::{Report, Verdict, verdict_of};
use stark_key_bytes::{StatementKey, key_from_bytes};
use stark_parts::{Com, Val};
use stark_service::{
    JudgingConfig, ServiceAnswers, height_fault, of_other_height, read_proof, reason_of,
};
use stark_statement::Statement;
use std::alloc::Global;

/// The verdict on a proof with this key, whatever it is. The configuration asks for the statement's
/// work.
fn verify_with_key<SC: JudgingConfig>(
    alloc: Global,
    config: &SC,
    statement: &Statement<Val<SC>>,
    key: &Option<PreprocessedVerifierKey<Com<SC>>>,
    bytes: &[u8],
) -> Report<Verdict>
    requires ready { ⟦<SC as ServiceAnswers>⟧.is_ready config.now
        (statement_view statement.now) }
    ensures { OrUnjudged (⟦<SC as KeyAnswers>⟧.judges config.now (statement_view statement.now)
        key.now bytes.now) result.answer }
{
    let proof: StarkProof<SC> = match read_proof(alloc, bytes) {
        Ok(proof) => proof,
        Err(report) => return report,
    };
    let (fixed, got) = (statement.log_height, proof.degree_bits);
    if let Some(fault) = height_fault(fixed, got) {
        return of_other_height(alloc, fixed, got, fault);
    }
    let (air, public_values) = (&statement.air, &statement.public_values);
    let answer = verify_with_preprocessed(alloc, config, air, &proof, public_values, key.as_ref());
    let report = Report {
        answer: verdict_of(&answer),
        reason: reason_of(alloc, &answer),
    };
    report.unless_unjudged()
}

/// Whether two digests are the same.
fn are_same(first: [u8; 32], second: [u8; 32]) -> bool
    ensures { IsTrue result ↔ (first ≡ second) }
{
    first == second
}

/// The verdict on a proof with the key that bytes spell, for the statement whose digest this is.
fn verify_with_read_key<SC: JudgingConfig>(
    alloc: Global,
    config: &SC,
    statement: &Statement<Val<SC>>,
    digest: [u8; 32],
    key: &[u8],
    bytes: &[u8],
) -> Report<Verdict>
    requires ready { ⟦<SC as ServiceAnswers>⟧.is_ready config.now
        (statement_view statement.now) }
    requires digest { digest ≡ statement_digest SC.Pcs.Domain.Val.number_of
        (statement_view statement.now) }
    ensures { OrUnjudged (⟦<SC as KeyAnswers>⟧.verdict config.now (statement_view statement.now)
        key.now bytes.now) result.answer }
{
    let given: StatementKey<Com<SC>> = match key_from_bytes(alloc, key) {
        Ok(given) => given,
        Err(fault) => return unread_key(alloc, &fault),
    };
    if are_same(given.digest, digest) {
        return verify_with_key(alloc, config, statement, &given.key, bytes);
    }
    key_of_another(alloc)
}

/// The verdict on a proof, from the bytes of it and of a key, for a statement that was read, whose
/// digest this is, with a configuration that asks for the statement's work, and whose challenger
/// has observed the statement: `bad input` where the bytes spell no key, or one of another
/// statement, or the proof can't be read; `accepted`; `refused` and the first fault, which is the
/// height where the statement fixes another one than the proof's; `out of memory`. Nothing is set
/// up, and memory is taken for what was read alone, whatever lengths the key's bytes claim.
///
/// Where the bytes are those that `key_with` makes, the verdict is one of `verify_with` of
/// `stark_service` (`owned`), and what is accepted is sound as it says (`sound`).
pub fn verify_with_key_bytes<SC: JudgingConfig>(
    alloc: Global,
    config: &SC,
    statement: &Statement<Val<SC>>,
    digest: [u8; 32],
    key: &[u8],
    bytes: &[u8],
) -> Report<Verdict>
    requires ready { ⟦<SC as ServiceAnswers>⟧.is_ready config.now
        (statement_view statement.now) }
    requires digest { digest ≡ statement_digest SC.Pcs.Domain.Val.number_of
        (statement_view statement.now) }
    ensures verdict { OrUnjudged (⟦<SC as KeyAnswers>⟧.verdict config.now
        (statement_view statement.now) key.now bytes.now) result.answer }
    ensures owned { ⟦<SC as KeyAnswers>⟧.owned config.now (statement_view statement.now)
        key.now bytes.now result.answer }
    ensures sound { result.answer ≡ Verdict.Accepted → ⟦<SC as KeyAnswers>⟧.sound config.now
        (statement_view statement.now) key.now bytes.now }
{
    verify_with_read_key(alloc, config, statement, digest, key, bytes)
}
