//! Configurations by FRI and in the clear, over any field, and what is said with them.

ghost use Rattle.std.specs.Prelude.{◌≡◌, ℕ, List, Option, IfOk};
ghost use Rattle.stark_clear.specs.ClearScheme.{clear_pcs};
ghost use Rattle.stark_statement.specs.StatementBytes.{after_statement};
ghost use Rattle.stark_statement.specs.StatementView.{StatementView, statement_view};
ghost use Rattle.stark_statement.specs.Configuration.{FriNumbers, scheme_numbers as numbers_of};
ghost use Rattle.stark_answers.specs.Finding.{IsAcceptedWhereProved, WhereProof};
ghost use Rattle.stark_answers.specs.ReadBack.{NestsWithin};
ghost use Rattle.stark_answers.specs.declared.finding.Finding.{Finding};
ghost use Rattle.stark_answers.specs.declared.task.ProofForm.{ProofForm};
ghost use Rattle.stark_answers.specs.declared.task.TraceTask.{TraceTask};
ghost use Rattle.stark_answers.specs.declared.verdict.Verdict.{Verdict};
ghost use Rattle.stark_service.specs.Acceptance.{IsAcceptedOn};
ghost use Rattle.stark_service.specs.NoFloats.{WritesNoFloat};
ghost use Rattle.stark_service.specs.Schemes.{ByScheme, HasRoomFor, WithNumbers};
ghost use Rattle.stark_service.specs.StatementFacts.{IsOfTrace};
ghost use Rattle.stark_service.specs.Statements.{IsFileOn, IsSoundOn, IsAnswerOn, IsVerdictOn, OrUnjudged, rows_in};
ghost use Rattle.stark_service.specs.FriSoundness.{IsSoundByFriOn};
ghost use Rattle.stark_service.specs.TraceChecks.{OrLacksMemory};

use crate::bounds::{StatementChallenger, StatementExtension, StatementField};
use crate::judging::verify_with;
use crate::progress::Progress;
use crate::proving::answer_with;
use crate::service::StarkService;
use stark_answers::{Finding, Report, TraceTask, Verdict};
use stark_clear::ClearPcs;
use stark_fri::FriCalls;
use stark_fri_prover::FriPcs;
use stark_merkle::Sha256Tree;
use stark_parts::StarkConfig;
use stark_statement::{SchemeChoice, Statement};
use stark_support::{CanObserve, PackedExtensionField, PackedField, PrimeField64};
use std::alloc::{AllocError, Global};

/// A configuration with trees of SHA-256 and FRI.
pub type FriConfig<F, EF, C> = StarkConfig<FriPcs<F, Sha256Tree>, EF, C>;

/// A configuration with the scheme in the clear.
pub type ClearConfig<F, EF, C> = StarkConfig<ClearPcs<F>, EF, C>;

/// What is said over a field, with its extension and a challenger that begins in a state and
/// observes the statement first, by the scheme that is chosen. It has no code.
pub trait FieldAnswers<EF, C>: Sized {
    /// Of the bytes of a proof.
    ghost verdict: { C → Option FriNumbers → StatementView Self → List ℕ → Verdict → Type 0 };

    /// In the clear the columns that the proof lists break no constraint of the statement's AIR
    /// unless a challenge is bad; by FRI whatever tables lead to the proof's roots are near to
    /// columns that satisfy it, or one of few draws was made, or the trees' hash collides.
    ghost sound: { C → Option FriNumbers → StatementView Self → List ℕ → Type 0 };

    /// Of the bytes of a trace, by what is asked for it.
    ghost finds: { C → Option FriNumbers → TraceTask → StatementView Self → List ℕ
        → Finding → Type 0 };

    /// This is the file of a proof, in a form, of the trace that the bytes spell.
    ghost proof_file: { C → Option FriNumbers → StatementView Self → List ℕ → ProofForm → List ℕ
        → Type 0 };

    /// The file spells a proof whose verdict is `accepted` and no other, unless its zeta lies in
    /// the trace's domain or the constraints' degrees don't fit the quotient's.
    ghost accepts: { C → Option FriNumbers → StatementView Self → List ℕ → Type 0 };
}

impl<F, EF, C> FieldAnswers<EF, C> for F
where
    F: StatementField,
    EF: StatementExtension<F>,
    C: StatementChallenger<F, EF>,
{
    ghost verdict = { λ fresh scheme s proof v. ByScheme scheme
        (λ numbers. WithNumbers (λ pcs. pcs.parameters) numbers (λ pcs.
        IsVerdictOn ⟦<FriConfig<F, EF, C> as StarkService>⟧.service pcs
        (after_statement ⟦<C as CanObserve<F>>⟧.after_observe F.of_number F.number_of s fresh) s
        (⟦<FriConfig<F, EF, C> as StarkService>⟧.service.reading proof) v))
        (IsVerdictOn ⟦<ClearConfig<F, EF, C> as StarkService>⟧.service clear_pcs
        (after_statement ⟦<C as CanObserve<F>>⟧.after_observe F.of_number F.number_of s fresh) s
        (⟦<ClearConfig<F, EF, C> as StarkService>⟧.service.reading proof) v) };

    ghost sound = { λ fresh scheme s proof. ByScheme scheme
        (λ numbers. WithNumbers (λ pcs. pcs.parameters) numbers (λ pcs.
        IsSoundByFriOn ⟦<FriConfig<F, EF, C> as StarkService>⟧.service
        ⟦<C as FriCalls<F, EF, Sha256Tree>>⟧.fri_ops (λ pcs. pcs.parameters) (λ p. p) pcs
        (after_statement ⟦<C as CanObserve<F>>⟧.after_observe F.of_number F.number_of s fresh) s
        (⟦<FriConfig<F, EF, C> as StarkService>⟧.service.reading proof)))
        (IsSoundOn ⟦<ClearConfig<F, EF, C> as StarkService>⟧.service clear_pcs
        (after_statement ⟦<C as CanObserve<F>>⟧.after_observe F.of_number F.number_of s fresh) s
        (⟦<ClearConfig<F, EF, C> as StarkService>⟧.service.reading proof)) };

    ghost finds = { λ fresh scheme asked s trace f. ByScheme scheme
        (λ numbers. WithNumbers (λ pcs. pcs.parameters) numbers (λ pcs.
        IsAnswerOn ⟦<FriConfig<F, EF, C> as StarkService>⟧.service pcs
        (after_statement ⟦<C as CanObserve<F>>⟧.after_observe F.of_number F.number_of s fresh) s
        asked (rows_in F.reading trace) f))
        (IsAnswerOn ⟦<ClearConfig<F, EF, C> as StarkService>⟧.service clear_pcs
        (after_statement ⟦<C as CanObserve<F>>⟧.after_observe F.of_number F.number_of s fresh) s
        asked (rows_in F.reading trace) f) };

    ghost proof_file = { λ fresh scheme s trace form file. ByScheme scheme
        (λ numbers. WithNumbers (λ pcs. pcs.parameters) numbers (λ pcs.
        IsFileOn ⟦<FriConfig<F, EF, C> as StarkService>⟧.service pcs
        (after_statement ⟦<C as CanObserve<F>>⟧.after_observe F.of_number F.number_of s fresh) s
        form (rows_in F.reading trace) file))
        (IsFileOn ⟦<ClearConfig<F, EF, C> as StarkService>⟧.service clear_pcs
        (after_statement ⟦<C as CanObserve<F>>⟧.after_observe F.of_number F.number_of s fresh) s
        form (rows_in F.reading trace) file) };

    ghost accepts = { λ fresh scheme s file. ByScheme scheme
        (λ numbers. WithNumbers (λ pcs. pcs.parameters) numbers (λ pcs.
        IsAcceptedOn ⟦<FriConfig<F, EF, C> as StarkService>⟧.service pcs
        (after_statement ⟦<C as CanObserve<F>>⟧.after_observe F.of_number F.number_of s fresh) s
        (⟦<FriConfig<F, EF, C> as StarkService>⟧.service.reading file)))
        (IsAcceptedOn ⟦<ClearConfig<F, EF, C> as StarkService>⟧.service clear_pcs
        (after_statement ⟦<C as CanObserve<F>>⟧.after_observe F.of_number F.number_of s fresh) s
        (⟦<ClearConfig<F, EF, C> as StarkService>⟧.service.reading file)) };
}

/// A scheme and a challenger in its first state, with the work that a statement asks for.
pub fn config_for<F, P, EF, C>(
    pcs: P,
    challenger: C,
    statement: &Statement<F>,
) -> StarkConfig<P, EF, C>
    ensures pcs { result.pcs ≡ pcs }
    ensures challenger { result.challenger ≡ challenger }
    ensures ood_bits { result.ood_proof_of_work_bits ≡ statement.now.ood_bits }
    ensures alpha_bits { result.constraint_proof_of_work_bits ≡ statement.now.alpha_bits }
{
    StarkConfig::new(pcs, challenger)
        .with_ood_proof_of_work_bits(statement.ood_bits)
        .with_constraint_proof_of_work_bits(statement.alpha_bits)
}

/// The challenger, once it has observed the statement. Err only where memory was refused.
fn bound<F: PrimeField64, C: CanObserve<F> + Drop>(
    alloc: Global,
    challenger: C,
    statement: &Statement<F>,
) -> Result<C, AllocError>
    ensures { IfOk result (λ c. c ≡ after_statement C.after_observe F.of_number F.number_of
        (statement_view statement.now) challenger) }
{
    let mut challenger = challenger;
    // Bound before the seed, and so before every draw: who writes a proof can't choose the AIR, the
    // configuration or the work before alpha or zeta.
    statement.bind(alloc, &mut challenger)?;
    Ok(challenger)
}

/// The verdict on a proof, by the scheme that is chosen, with a challenger in its first state.
pub(crate) fn verify_by<F, EF, C>(
    alloc: Global,
    scheme: SchemeChoice,
    fresh: C,
    statement: &Statement<F>,
    proof: &[u8],
) -> Report<Verdict>
where
    F: StatementField,
    EF: StatementExtension<F>,
    C: StatementChallenger<F, EF>,
    requires { HasRoomFor F.TWO_ADICITY scheme }
    ensures verdict { OrUnjudged (⟦<F as FieldAnswers<EF, C>>⟧.verdict fresh
        (numbers_of scheme) (statement_view statement.now) proof.now) result.answer }
    ensures sound { result.answer ≡ Verdict.Accepted → ⟦<F as FieldAnswers<EF, C>>⟧.sound
        fresh (numbers_of scheme) (statement_view statement.now) proof.now }
{
    let Ok(bound) = bound(alloc, fresh, statement) else {
        return Report::out_of_memory();
    };
    match scheme {
        SchemeChoice::Fri(parameters) => {
            let pcs: FriPcs<F, Sha256Tree> = FriPcs::new(parameters);
            let config: FriConfig<F, EF, C> = config_for(pcs, bound, statement);
            verify_with(alloc, &config, statement, proof)
        }
        SchemeChoice::Clear => {
            let pcs: ClearPcs<F> = ClearPcs::new();
            let config: ClearConfig<F, EF, C> = config_for(pcs, bound, statement);
            verify_with(alloc, &config, statement, proof)
        }
    }
}

/// What is found of a trace, by the scheme that is chosen, with a challenger in its first state.
pub(crate) fn answer_by<
    F: StatementField + PackedField,
    EF: StatementExtension<F> + PackedExtensionField<F>,
    C: StatementChallenger<F, EF>,
    P: Progress,
>(
    alloc: Global,
    scheme: SchemeChoice,
    fresh: C,
    asked: TraceTask,
    statement: &Statement<F>,
    trace: Vec<u8>,
    progress: &mut P,
) -> Report<Finding>
    requires room { HasRoomFor F.TWO_ADICITY scheme }
    requires base { WritesNoFloat F.writing }
    requires extension { WritesNoFloat EF.writing }
    requires shallow_base { NestsWithin 1 F.writing }
    requires shallow_extension { NestsWithin 1 EF.writing }
    ensures finds { OrLacksMemory (⟦<F as FieldAnswers<EF, C>>⟧.finds fresh
        (numbers_of scheme) asked (statement_view statement.now) trace.items) result.answer }
    ensures kind { IsOfTrace asked result.answer }
    ensures proof { WhereProof (⟦<F as FieldAnswers<EF, C>>⟧.proof_file fresh
        (numbers_of scheme) (statement_view statement.now) trace.items) result.answer }
    ensures accepted { IsAcceptedWhereProved asked (⟦<F as FieldAnswers<EF, C>>⟧.accepts fresh
        (numbers_of scheme) (statement_view statement.now)) result.answer }
{
    let Ok(bound) = bound(alloc, fresh, statement) else {
        return Report::out_of_memory().as_finding();
    };
    match scheme {
        SchemeChoice::Fri(parameters) => {
            let pcs: FriPcs<F, Sha256Tree> = FriPcs::new(parameters);
            let config: FriConfig<F, EF, C> = config_for(pcs, bound, statement);
            answer_with(alloc, &config, asked, statement, trace, progress)
        }
        SchemeChoice::Clear => {
            let pcs: ClearPcs<F> = ClearPcs::new();
            let config: ClearConfig<F, EF, C> = config_for(pcs, bound, statement);
            answer_with(alloc, &config, asked, statement, trace, progress)
        }
    }
}
