//! A statement over one field, read from its JSON, and what is said of it.

ghost use Rattle.std.specs.Prelude.{◌≡◌, ℕ, List, Option};
ghost use Rattle.serde_json.specs.Data.{Data};
ghost use Rattle.stark_statement.specs.Configuration.{FriNumbers, scheme_numbers};
ghost use Rattle.stark_statement.specs.StatementApart.{data_of};
ghost use Rattle.stark_statement.specs.StatementJson.{statement_reading};
ghost use Rattle.stark_answers.specs.Finding.{IsAcceptedWhereProved, WhereProof};
ghost use Rattle.stark_answers.specs.ReadBack.{NestsWithin};
ghost use Rattle.stark_answers.specs.declared.finding.Finding.{Finding};
ghost use Rattle.stark_answers.specs.declared.task.ProofForm.{ProofForm};
ghost use Rattle.stark_answers.specs.declared.task.TraceTask.{TraceTask};
ghost use Rattle.stark_answers.specs.declared.verdict.Verdict.{Verdict};
ghost use Rattle.stark_service.specs.Acceptance.{HoldsWithinLimits};
ghost use Rattle.stark_service.specs.NoFloats.{WritesNoFloat};
ghost use Rattle.stark_service.specs.Schemes.{HasRoomFor};
ghost use Rattle.stark_service.specs.Showing.{IsShownOfRead};
ghost use Rattle.stark_service.specs.StatementFacts.{IsOfTrace};
ghost use Rattle.stark_service.specs.Statements.{HoldsOfRead, IsSaidOfRead, OrUnjudged};
ghost use Rattle.stark_service.specs.TraceChecks.{OrLacksMemory};

use crate::bounds::{StatementChallenger, StatementExtension, StatementField};
use crate::counted::Numbered;
use crate::progress::Progress;
use crate::reading::read_statement;
use crate::schemes::{FieldAnswers, answer_by, verify_by};
use stark_answers::{Finding, Report, TraceTask, Verdict};
use stark_bench::ClearCommitment;
use stark_json::Document;
use stark_merkle::Root;
use stark_parts::StarkChallenger;
use stark_statement::SchemeChoice;
use stark_support::{CanObserve, PackedExtensionField, PackedField};
use std::alloc::Global;

/// What is said of a JSON value as a statement over a field. It has no code.
pub trait ValueAnswers<EF, C>: Sized {
    ghost verdict: { C → Option FriNumbers → Data → List ℕ → Verdict → Type 0 };

    ghost sound: { C → Option FriNumbers → Data → List ℕ → Type 0 };

    ghost finds: { C → Option FriNumbers → TraceTask → Data → List ℕ → Finding → Type 0 };

    ghost proof_file: { C → Option FriNumbers → Data → List ℕ → ProofForm → List ℕ → Type 0 };

    ghost accepts: { C → Option FriNumbers → Data → List ℕ → Type 0 };

    ghost showing: { Option FriNumbers → Data → Finding → Type 0 };
}

impl<F, EF, C> ValueAnswers<EF, C> for F
where
    F: StatementField,
    EF: StatementExtension<F>,
    C: StatementChallenger<F, EF>,
{
    ghost verdict = { λ fresh scheme d proof. IsSaidOfRead (λ v. v)
        (λ s. ⟦<F as FieldAnswers<EF, C>>⟧.verdict fresh scheme s proof)
        (statement_reading F.reading d) };

    ghost sound = { λ fresh scheme d proof. HoldsOfRead
        (λ s. ⟦<F as FieldAnswers<EF, C>>⟧.sound fresh scheme s proof)
        (statement_reading F.reading d) };

    ghost finds = { λ fresh scheme asked d trace. IsSaidOfRead (λ v. Finding.Verdict v)
        (λ s. ⟦<F as FieldAnswers<EF, C>>⟧.finds fresh scheme asked s trace)
        (statement_reading F.reading d) };

    ghost proof_file = { λ fresh scheme d trace form file. HoldsOfRead
        (λ s. ⟦<F as FieldAnswers<EF, C>>⟧.proof_file fresh scheme s trace form file)
        (statement_reading F.reading d) };

    ghost accepts = { λ fresh scheme d file. HoldsOfRead (HoldsWithinLimits
        (λ s. ⟦<F as FieldAnswers<EF, C>>⟧.accepts fresh scheme s file))
        (statement_reading F.reading d) };

    ghost showing = { λ scheme d. IsShownOfRead ⟦<EF as Numbered<F>>⟧.fields scheme
        (statement_reading F.reading d) };
}

/// The verdict on a proof for a statement over a field.
pub(crate) fn verify_over<F, EF, C>(
    alloc: Global,
    scheme: SchemeChoice,
    challenger: C,
    value: Document,
    proof: &[u8],
) -> Report<Verdict>
where
    F: StatementField,
    EF: StatementExtension<F>,
    C: StarkChallenger<F, EF, Root> + CanObserve<ClearCommitment<F>>,
    requires { HasRoomFor F.TWO_ADICITY scheme }
    ensures verdict { OrUnjudged (⟦<F as ValueAnswers<EF, C>>⟧.verdict challenger
        (scheme_numbers scheme) (data_of value) proof.now) result.answer }
    ensures sound { result.answer ≡ Verdict.Accepted → ⟦<F as ValueAnswers<EF, C>>⟧.sound
        challenger (scheme_numbers scheme) (data_of value) proof.now }
{
    let read = read_statement::<F>(alloc, &value);
    // The JSON is several times as long as the statement.
    drop(value);
    match read {
        Ok(statement) => verify_by::<F, EF, C>(alloc, scheme, challenger, &statement, proof),
        Err(report) => report,
    }
}

/// What is found of a trace for a statement over a field.
pub(crate) fn answer_over<F, EF, C, P>(
    alloc: Global,
    scheme: SchemeChoice,
    challenger: C,
    asked: TraceTask,
    value: Document,
    trace: Vec<u8>,
    progress: &mut P,
) -> Report<Finding>
where
    F: StatementField + PackedField,
    EF: StatementExtension<F> + PackedExtensionField<F>,
    C: StarkChallenger<F, EF, Root> + CanObserve<ClearCommitment<F>>,
    P: Progress,
    requires room { HasRoomFor F.TWO_ADICITY scheme }
    requires base { WritesNoFloat F.writing }
    requires extension { WritesNoFloat EF.writing }
    requires shallow_base { NestsWithin 1 F.writing }
    requires shallow_extension { NestsWithin 1 EF.writing }
    ensures finds { OrLacksMemory (⟦<F as ValueAnswers<EF, C>>⟧.finds challenger
        (scheme_numbers scheme) asked (data_of value) trace.items) result.answer }
    ensures kind { IsOfTrace asked result.answer }
    ensures proof { WhereProof (⟦<F as ValueAnswers<EF, C>>⟧.proof_file challenger
        (scheme_numbers scheme) (data_of value) trace.items) result.answer }
    ensures accepted { IsAcceptedWhereProved asked (⟦<F as ValueAnswers<EF, C>>⟧.accepts challenger
        (scheme_numbers scheme) (data_of value)) result.answer }
{
    let read = read_statement::<F>(alloc, &value);
    // The JSON is several times as long as the statement.
    drop(value);
    match read {
        Ok(statement) => {
            answer_by::<F, EF, C, P>(
                alloc, scheme, challenger, asked, &statement, trace, progress,
            )
        }
        Err(report) => report.as_finding(),
    }
}
