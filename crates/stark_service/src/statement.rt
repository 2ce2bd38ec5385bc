//! The commands of a statement, from bytes to an answer: a proof verified, a trace checked or
//! proved, an AIR shown.
//!
//! A statement is what a verifier's owner fixes, the configuration with it; the proof or the trace
//! is another file. Before anything else the challenger, which hashes, observes the whole
//! statement, so that no part of it can be chosen after a draw.

ghost use Rattle.std.specs.Prelude.{◌≡◌, ℕ, List, IfOk};
ghost use Rattle.serde_json.specs.Data.{Data};
ghost use Rattle.stark_statement.specs.Configuration.{ConfigurationView, IsWithinField, configuration_view};
ghost use Rattle.stark_statement.specs.StatementApart.{data_of};
ghost use Rattle.stark_answers.specs.Finding.{IsAcceptedWhereProved, WhereProof};
ghost use Rattle.stark_answers.specs.declared.finding.Finding.{Finding};
ghost use Rattle.stark_answers.specs.declared.task.ProofForm.{ProofForm};
ghost use Rattle.stark_answers.specs.declared.task.TraceTask.{TraceTask};
ghost use Rattle.stark_answers.specs.declared.verdict.Verdict.{Verdict};
ghost use Rattle.stark_service.specs.Schemes.{HoldsOfBytes, IsSaidOfBytes, OverField, ReadsConfigured};
ghost use Rattle.stark_service.specs.Showing.{IsOfShowing};
ghost use Rattle.stark_service.specs.StatementFacts.{IsOfTrace};
ghost use Rattle.stark_service.specs.Statements.{OrUnjudged};
ghost use Rattle.stark_service.specs.TraceChecks.{OrLacksMemory};

use crate::field::ServiceField;
use crate::progress::{Progress, Silent};
use crate::reading::{unread_statement, unread_text};
use stark_answers::{Finding, ProofForm, Report, TraceTask, Verdict};
use stark_bench::{BabyBearField, F12289, KoalaBearField};
use stark_json::Document;
use stark_statement::{Configuration, FieldName, refuse_repeats, statement_document};
use std::alloc::{AllocError, Global};

/// What a verifier and a prover that are given a statement say, over the bytes of the statement and
/// of a proof or a trace.
pub trait StatementAnswers: Sized {
    /// This is the verdict on a statement and a proof.
    ghost verdict: { List ℕ → List ℕ → Verdict → Type 0 };

    /// In the clear the columns that the proof lists break no constraint of the statement's AIR,
    /// unless a challenge is bad. By FRI whatever tables lead to the proof's roots are near to
    /// columns that satisfy it, or one of few draws was made, or the trees' hash collides.
    ghost sound: { List ℕ → List ℕ → Type 0 };

    /// This is found of a statement and a trace, by what is asked for the trace.
    ghost finds: { TraceTask → List ℕ → List ℕ → Finding → Type 0 };

    /// This is the file of a proof in a form, for the statement, of the trace.
    ghost proof_file: { List ℕ → List ℕ → ProofForm → List ℕ → Type 0 };

    /// The second file spells a proof whose verdict for the statement is `accepted` and no other,
    /// unless its zeta lies in the trace's domain or the constraints' degrees don't fit the
    /// quotient's.
    ghost accepts: { List ℕ → List ℕ → Type 0 };

    /// This is found of a statement that is to be shown.
    ghost showing: { List ℕ → Finding → Type 0 };

    /// The verdict on a proof, as `verify_statement` says it. The statement's bytes are dropped
    /// once they are read.
    fn verify(alloc: Global, statement: Vec<u8>, proof: &[u8]) -> Report<Verdict>
        ensures verdict { OrUnjudged (verdict statement.items proof.now) result.answer }
        ensures sound { result.answer ≡ Verdict.Accepted → sound statement.items proof.now };

    /// What is found of a trace, as `answer_trace` says it; its check and its proof are reported
    /// before they begin. The bytes of both are dropped once they are read.
    fn answer<P: Progress>(
        alloc: Global,
        asked: TraceTask,
        statement: Vec<u8>,
        trace: Vec<u8>,
        progress: &mut P,
    ) -> Report<Finding>
        ensures finds { OrLacksMemory (finds asked statement.items trace.items) result.answer }
        ensures kind { IsOfTrace asked result.answer }
        ensures proof { WhereProof (proof_file statement.items trace.items) result.answer }
        ensures accepted { IsAcceptedWhereProved asked (accepts statement.items) result.answer };

    /// What is shown of a statement, as `show_statement` says it.
    fn show(alloc: Global, statement: Vec<u8>) -> Report<Finding>
        ensures shown { OrLacksMemory (showing statement.items) result.answer }
        ensures kind { IsOfShowing result.answer };
}

/// The fields that a statement may name: BabyBear, KoalaBear, and that of 12289 elements.
#[derive(Clone, Copy, Debug)]
pub struct NamedFields;

/// What is said of a JSON value as a statement with a configuration, over the field that this
/// names. It has no code.
pub trait ConfiguredAnswers {
    ghost verdict: { ConfigurationView → Data → List ℕ → Verdict → Type 0 };

    ghost sound: { ConfigurationView → Data → List ℕ → Type 0 };

    ghost finds: { TraceTask → ConfigurationView → Data → List ℕ → Finding → Type 0 };

    ghost proof_file: { ConfigurationView → Data → List ℕ → ProofForm → List ℕ → Type 0 };

    ghost accepts: { ConfigurationView → Data → List ℕ → Type 0 };

    ghost showing: { ConfigurationView → Data → Finding → Type 0 };
}

impl ConfiguredAnswers for NamedFields {
    ghost verdict = { λ c d proof v. OverField c.field
        (⟦<BabyBearField as ServiceField>⟧.verdict c.fri d proof v)
        (⟦<KoalaBearField as ServiceField>⟧.verdict c.fri d proof v)
        (⟦<F12289 as ServiceField>⟧.verdict c.fri d proof v) };

    ghost sound = { λ c d proof. OverField c.field
        (⟦<BabyBearField as ServiceField>⟧.sound c.fri d proof)
        (⟦<KoalaBearField as ServiceField>⟧.sound c.fri d proof)
        (⟦<F12289 as ServiceField>⟧.sound c.fri d proof) };

    ghost finds = { λ asked c d trace f. OverField c.field
        (⟦<BabyBearField as ServiceField>⟧.finds c.fri asked d trace f)
        (⟦<KoalaBearField as ServiceField>⟧.finds c.fri asked d trace f)
        (⟦<F12289 as ServiceField>⟧.finds c.fri asked d trace f) };

    ghost proof_file = { λ c d trace form file. OverField c.field
        (⟦<BabyBearField as ServiceField>⟧.proof_file c.fri d trace form file)
        (⟦<KoalaBearField as ServiceField>⟧.proof_file c.fri d trace form file)
        (⟦<F12289 as ServiceField>⟧.proof_file c.fri d trace form file) };

    ghost accepts = { λ c d file. OverField c.field
        (⟦<BabyBearField as ServiceField>⟧.accepts c.fri d file)
        (⟦<KoalaBearField as ServiceField>⟧.accepts c.fri d file)
        (⟦<F12289 as ServiceField>⟧.accepts c.fri d file) };

    ghost showing = { λ c d f. OverField c.field
        (⟦<BabyBearField as ServiceField>⟧.showing c.fri d f)
        (⟦<KoalaBearField as ServiceField>⟧.showing c.fri d f)
        (⟦<F12289 as ServiceField>⟧.showing c.fri d f) };
}

impl StatementAnswers for NamedFields {
    ghost verdict = { λ statement proof. IsSaidOfBytes (λ v. v) (λ c d.
        ⟦<NamedFields as ConfiguredAnswers>⟧.verdict c d proof) statement };

    ghost sound = { λ statement proof. HoldsOfBytes (λ c d.
        ⟦<NamedFields as ConfiguredAnswers>⟧.sound c d proof) statement };

    ghost finds = { λ asked statement trace. IsSaidOfBytes (λ v. Finding.Verdict v) (λ c d.
        ⟦<NamedFields as ConfiguredAnswers>⟧.finds asked c d trace) statement };

    ghost proof_file = { λ statement trace form file. HoldsOfBytes (λ c d.
        ⟦<NamedFields as ConfiguredAnswers>⟧.proof_file c d trace form file) statement };

    ghost accepts = { λ statement file. HoldsOfBytes (λ c d.
        ⟦<NamedFields as ConfiguredAnswers>⟧.accepts c d file) statement };

    ghost showing = { IsSaidOfBytes (λ v. Finding.Verdict v)
        ⟦<NamedFields as ConfiguredAnswers>⟧.showing };

    fn verify(alloc: Global, statement: Vec<u8>, proof: &[u8]) -> Report<Verdict> {
        match read_configured(alloc, statement) {
            Ok((value, configuration)) => verify_value(alloc, configuration, value, proof),
            Err(report) => report,
        }
    }

    fn answer<P: Progress>(
        alloc: Global,
        asked: TraceTask,
        statement: Vec<u8>,
        trace: Vec<u8>,
        progress: &mut P,
    ) -> Report<Finding> {
        match read_configured(alloc, statement) {
            Ok((value, configuration)) => {
                answer_value(alloc, configuration, asked, value, trace, progress)
            }
            Err(report) => report.as_finding(),
        }
    }

    fn show(alloc: Global, statement: Vec<u8>) -> Report<Finding> {
        match read_configured(alloc, statement) {
            Ok((value, configuration)) => show_value(alloc, configuration, value),
            Err(report) => report.as_finding(),
        }
    }
}

/// A statement's JSON and its configuration, which fits its field; or `bad input` where the bytes
/// spell none, or `out of memory`. The bytes are dropped once they are read, before the statement
/// is made of the JSON.
pub fn read_configured(
    alloc: Global,
    bytes: Vec<u8>,
) -> Result<(Document, Configuration), Report<Verdict>>
    ensures { ReadsConfigured result bytes.items }
{
    let value = match statement_document(alloc, &bytes) {
        Ok(value) => value,
        Err(error) => return Err(unread_text(alloc, "the statement", &bytes, &error)),
    };
    // Of two members of one name the value has the last alone.
    if let Err(error) = refuse_repeats(alloc, &bytes) {
        return Err(unread_statement(alloc, &error));
    }
    match Configuration::from_document(alloc, &value) {
        Ok(configuration) => Ok((value, configuration)),
        Err(error) => Err(unread_statement(alloc, &error)),
    }
}

/// The verdict on a proof for a statement that was read as JSON, whose configuration is this.
fn verify_value(
    alloc: Global,
    configuration: Configuration,
    value: Document,
    proof: &[u8],
) -> Report<Verdict>
    requires { IsWithinField configuration }
    ensures verdict { OrUnjudged (⟦<NamedFields as ConfiguredAnswers>⟧.verdict
        (configuration_view configuration) (data_of value) proof.now) result.answer }
    ensures sound { result.answer ≡ Verdict.Accepted
        → ⟦<NamedFields as ConfiguredAnswers>⟧.sound (configuration_view configuration)
        (data_of value) proof.now }
{
    let scheme = configuration.scheme;
    match configuration.field {
        FieldName::BabyBear => BabyBearField::verify(alloc, scheme, value, proof),
        FieldName::KoalaBear => KoalaBearField::verify(alloc, scheme, value, proof),
        FieldName::F12289 => F12289::verify(alloc, scheme, value, proof),
    }
}

/// What is found of a trace for a statement that was read as JSON, whose configuration is this.
fn answer_value<P: Progress>(
    alloc: Global,
    configuration: Configuration,
    asked: TraceTask,
    value: Document,
    trace: Vec<u8>,
    progress: &mut P,
) -> Report<Finding>
    requires { IsWithinField configuration }
    ensures finds { OrLacksMemory (⟦<NamedFields as ConfiguredAnswers>⟧.finds asked
        (configuration_view configuration) (data_of value) trace.items) result.answer }
    ensures kind { IsOfTrace asked result.answer }
    ensures proof { WhereProof (⟦<NamedFields as ConfiguredAnswers>⟧.proof_file
        (configuration_view configuration) (data_of value) trace.items) result.answer }
    ensures accepted { IsAcceptedWhereProved asked (⟦<NamedFields as ConfiguredAnswers>⟧.accepts
        (configuration_view configuration) (data_of value)) result.answer }
{
    let scheme = configuration.scheme;
    match configuration.field {
        FieldName::BabyBear => BabyBearField::answer(alloc, scheme, asked, value, trace, progress),
        FieldName::KoalaBear => KoalaBearField::answer(
            alloc, scheme, asked, value, trace, progress,
        ),
        FieldName::F12289 => F12289::answer(alloc, scheme, asked, value, trace, progress),
    }
}

/// What is shown of a statement that was read as JSON, whose configuration is this.
fn show_value(alloc: Global, configuration: Configuration, value: Document) -> Report<Finding>
    requires { IsWithinField configuration }
    ensures shown { OrLacksMemory (⟦<NamedFields as ConfiguredAnswers>⟧.showing
        (configuration_view configuration) (data_of value)) result.answer }
    ensures kind { IsOfShowing result.answer }
{
    let scheme = configuration.scheme;
    match configuration.field {
        FieldName::BabyBear => BabyBearField::show(alloc, scheme, value),
        FieldName::KoalaBear => KoalaBearField::show(alloc, scheme, value),
        FieldName::F12289 => F12289::show(alloc, scheme, value),
    }
}

/// A list of its own of the bytes. Err only where memory was refused.
pub fn copied(alloc: Global, bytes: &[u8]) -> Result<Vec<u8>, AllocError>
    ensures { IfOk result (λ copy. copy.items ≡ bytes.now) }
{
    let mut copy = Vec::new(alloc);
    copy.extend_from_slice(bytes)?;
    Ok(copy)
}

/// The verdict on a proof for a statement, from the bytes of both: `accepted`; `refused` and the
/// first fault; `bad input` where the statement or the proof can't be read, or the AIR's
/// preprocessed columns have no power of two of rows within the scheme's heights; `out of memory`.
/// It is `refused AirTooLarge` where the statement was read and its AIR passes a limit, whatever
/// the proof is.
///
/// A proof is taken in either form: as bytes where it begins as these do, which no JSON text does,
/// and else as JSON. Where it can't be read, the reason has its first fault in that form.
///
/// What it accepts is accepted by the verifier of the configuration that the statement names, whose
/// challenger observed the statement first (`verdict`). In the clear the columns that the proof
/// lists break no constraint of the AIR, unless alpha or zeta is bad for them. By FRI take any
/// tables of the trace, the chunks and the folds that lead to the proof's roots beside the
/// statement's own preprocessed rows: they are near to columns that satisfy the AIR on H, or one of
/// few draws was made, or the trees' hash collides (`sound`). So a service needs this one call.
pub fn verify_statement(alloc: Global, statement: &[u8], proof: &[u8]) -> Report<Verdict>
    ensures verdict { OrUnjudged (⟦<NamedFields as StatementAnswers>⟧.verdict
        statement.now proof.now) result.answer }
    ensures sound { result.answer ≡ Verdict.Accepted
        → ⟦<NamedFields as StatementAnswers>⟧.sound statement.now proof.now }
{
    let Ok(statement) = copied(alloc, statement) else {
        return Report::out_of_memory();
    };
    NamedFields::verify(alloc, statement, proof)
}

/// What is found of a trace for a statement, from the bytes of both, by what is asked for it; or
/// `bad input` where the statement or the trace can't be read, the AIR has no main columns, or the
/// trace isn't one of its widths and counts; or `out of memory`. It is `refused AirTooLarge` where
/// the statement was read and its AIR passes a limit, whatever the trace is.
///
/// - `Check`: `Satisfied`, or `Broken` with the first row that breaks a constraint and in it the
///   first constraint. Selectors are those of the trace's domain, and after the last row comes the
///   first. Where there is no memory for the constraint's equation the answer is `out of memory`.
/// - `Prove`: `Broken` as by a check, before anything is committed; else a proof, or `refused` and
///   the first cause why there is none.
/// - `ProveUnchecked`: the same without the check. The proof of a trace that breaks its AIR is
///   written, and a verifier refuses it unless a draw is bad.
///
/// A finding is one of those of its task, and a proof in the form that is asked for (`kind`). What
/// is written of it is its file in that form, of a proof of the trace that was read (`proof`): a
/// line of JSON, or the bytes that `stark_proof_bytes` gives. A proof of any size has both.
///
/// What is written of a proof under `Prove` is accepted by `verify_statement` for this statement,
/// unless the zeta that the proof's replay draws lies in the trace's domain, or the constraints'
/// degrees don't fit the quotient's (`accepted`).
///
/// It works on copies of the bytes, which it drops once they are read.
pub fn answer_trace(
    alloc: Global,
    asked: TraceTask,
    statement: &[u8],
    trace: &[u8],
) -> Report<Finding>
    ensures finds { OrLacksMemory (⟦<NamedFields as StatementAnswers>⟧.finds asked
        statement.now trace.now) result.answer }
    ensures kind { IsOfTrace asked result.answer }
    ensures proof { WhereProof (⟦<NamedFields as StatementAnswers>⟧.proof_file
        statement.now trace.now) result.answer }
    ensures accepted { IsAcceptedWhereProved asked (⟦<NamedFields as StatementAnswers>⟧.accepts
        statement.now) result.answer }
{
    let Ok(statement) = copied(alloc, statement) else {
        return Report::out_of_memory().as_finding();
    };
    let Ok(trace) = copied(alloc, trace) else {
        return Report::out_of_memory().as_finding();
    };
    NamedFields::answer(alloc, asked, statement, trace, &mut Silent)
}

/// `answer_trace` where a check is asked for.
pub fn check_statement(alloc: Global, statement: &[u8], trace: &[u8]) -> Report<Finding>
    ensures finds { OrLacksMemory (⟦<NamedFields as StatementAnswers>⟧.finds TraceTask.Check
        statement.now trace.now) result.answer }
    ensures kind { IsOfTrace TraceTask.Check result.answer }
{
    answer_trace(alloc, TraceTask::Check, statement, trace)
}

/// `answer_trace` where a proof as JSON is asked for of a trace that satisfies its AIR.
pub fn prove_statement(alloc: Global, statement: &[u8], trace: &[u8]) -> Report<Finding>
    ensures finds { OrLacksMemory (⟦<NamedFields as StatementAnswers>⟧.finds
        (TraceTask.Prove ProofForm.Json) statement.now trace.now) result.answer }
    ensures kind { IsOfTrace (TraceTask.Prove ProofForm.Json) result.answer }
    ensures proof { WhereProof (⟦<NamedFields as StatementAnswers>⟧.proof_file
        statement.now trace.now) result.answer }
    ensures accepted { IsAcceptedWhereProved (TraceTask.Prove ProofForm.Json)
        (⟦<NamedFields as StatementAnswers>⟧.accepts statement.now) result.answer }
{
    answer_trace(alloc, TraceTask::Prove(ProofForm::Json), statement, trace)
}

/// What is shown of the statement that the bytes of a JSON text spell: its AIR's columns,
/// constraints and nodes, how many chunks its quotient is cut into, how many challenges can be bad
/// at the greatest height that its configuration has and of how many values, and what its proofs
/// are conjectured to be worth; `bad input` where they spell none, and `refused AirTooLarge` where
/// the AIR passes a limit.
///
/// The bytes are dropped once they are read, before the text is made.
pub fn show_statement(alloc: Global, bytes: Vec<u8>) -> Report<Finding>
    ensures shown { OrLacksMemory (⟦<NamedFields as StatementAnswers>⟧.showing bytes.items)
        result.answer }
    ensures kind { IsOfShowing result.answer }
{
    NamedFields::show(alloc, bytes)
}
