//! Keys by FRI and in the clear, over any field.
ghost use Rattle.std.specs.Prelude.{◌≡◌, ℕ, List, Option, Result, Ok, IfErr};
ghost use Rattle.stark_clear.specs.ClearScheme.{clear_pcs};
ghost use Rattle.stark_statement.specs.StatementBytes.{after_statement, statement_digest};
ghost use Rattle.stark_statement.specs.StatementView.{StatementView, statement_view};
ghost use Rattle.stark_statement.specs.Configuration.{FriNumbers, scheme_numbers as numbers_of};
ghost use Rattle.stark_answers.specs.declared.verdict.Verdict.{Verdict};
ghost use Rattle.stark_service.specs.Schemes.{ByScheme, HasRoomFor, WithNumbers};
ghost use Rattle.stark_service.specs.Statements.{OrUnjudged};
ghost use Rattle.stark_keys.specs.Keys.{IsMadeOn, IsOnlyOne, IsVerdictWithKeyOn, OrNotMade, made_of};

use crate::digest::statement_digest;
use crate::judging::verify_with_key_bytes;
use crate::making::key_with;
use stark_answers::{Report, Verdict};
use stark_clear::ClearPcs;
use stark_fri_prover::FriPcs;
use stark_merkle::Sha256Tree;
use stark_service::{
    ClearConfig, FieldAnswers, FriConfig, StarkService, StatementChallenger, StatementExtension,
    StatementField, config_for,
};
use stark_statement::{SchemeChoice, Statement};
use stark_support::{CanObserve, PrimeField64, TwoAdicField, observe_bytes};
use std::alloc::Global;

/// What is said over a field, with its extension and a challenger that begins in a state and
/// observes the statement first, by the scheme that is chosen, where a key is made and where it is
/// given. It has no code.
pub trait FieldKeys<EF, C>: Sized {
    /// The bytes of a key's file are made, or the verdict says why there is none.
    ghost makes: { Option FriNumbers → StatementView Self → Result (List ℕ) Verdict → Type 0 };

    /// Of the bytes of a key and of a proof.
    ghost judges: { C → Option FriNumbers → StatementView Self → List ℕ → List ℕ → Verdict
        → Type 0 };
}

impl<F, EF, C> FieldKeys<EF, C> for F
where
    F: StatementField,
    EF: StatementExtension<F>,
    C: StatementChallenger<F, EF>,
{
    ghost makes = { λ scheme s made. ByScheme scheme
        (λ numbers. WithNumbers (λ pcs. pcs.parameters) numbers (λ pcs.
        IsMadeOn ⟦<FriConfig<F, EF, C> as StarkService>⟧.service pcs s made))
        (IsMadeOn ⟦<ClearConfig<F, EF, C> as StarkService>⟧.service clear_pcs s made) };

    ghost judges = { λ fresh scheme s key proof v. ByScheme scheme
        (λ numbers. WithNumbers (λ pcs. pcs.parameters) numbers (λ pcs.
        IsVerdictWithKeyOn ⟦<FriConfig<F, EF, C> as StarkService>⟧.service pcs
        (after_statement ⟦<C as CanObserve<F>>⟧.after_observe F.of_number F.number_of s fresh) s
        key (⟦<FriConfig<F, EF, C> as StarkService>⟧.service.reading proof) v))
        (IsVerdictWithKeyOn ⟦<ClearConfig<F, EF, C> as StarkService>⟧.service clear_pcs
        (after_statement ⟦<C as CanObserve<F>>⟧.after_observe F.of_number F.number_of s fresh) s
        key (⟦<ClearConfig<F, EF, C> as StarkService>⟧.service.reading proof) v) };
}

/// What is said over a field where the key that is given is the statement's own. It has no code.
pub trait FieldOwned<EF, C>: Sized {
    /// Where the first are the bytes of the key's file, this is a verdict on the proof as
    /// `FieldAnswers` says it,
    ghost owned: { C → Option FriNumbers → StatementView Self → List ℕ → List ℕ → Verdict
        → Type 0 };

    /// and the proof is sound as it says.
    ghost sound: { C → Option FriNumbers → StatementView Self → List ℕ → List ℕ → Type 0 };
}

impl<F, EF, C> FieldOwned<EF, C> for F
where
    F: StatementField,
    EF: StatementExtension<F>,
    C: StatementChallenger<F, EF>,
{
    ghost owned = { λ fresh scheme s key proof v. ⟦<F as FieldKeys<EF, C>>⟧.makes scheme s (Ok key)
        → OrUnjudged (⟦<F as FieldAnswers<EF, C>>⟧.verdict fresh scheme s proof) v };

    ghost sound = { λ fresh scheme s key proof. ⟦<F as FieldKeys<EF, C>>⟧.makes scheme s (Ok key)
        → ⟦<F as FieldAnswers<EF, C>>⟧.sound fresh scheme s proof };
}

/// The challenger, once it has observed the statement whose digest this is.
fn bound<F: PrimeField64, C: CanObserve<F>>(
    challenger: C,
    statement: &Statement<F>,
    digest: [u8; 32],
) -> C
    requires { digest ≡ statement_digest F.number_of (statement_view statement.now) }
    ensures { result ≡ after_statement C.after_observe F.of_number F.number_of
        (statement_view statement.now) challenger }
{
    let _statement = statement;
    let mut challenger = challenger;
    // Bound before the seed, and so before every draw, as the prover has bound it.
    observe_bytes(&mut challenger, &digest);
    challenger
}

// Of parameters there is one scheme.
fn only_one<F: TwoAdicField, H>(pcs: &FriPcs<F, H>)
    ensures { IsOnlyOne (λ other. other.parameters) pcs.now }
{}

/// The bytes of the key's file of a statement, by the scheme that is chosen; the challenger is one
/// that hasn't observed it.
pub(crate) fn key_by<F, EF, C>(
    alloc: Global,
    scheme: SchemeChoice,
    fresh: C,
    statement: &Statement<F>,
) -> Result<Vec<u8>, Report<Verdict>>
where
    F: StatementField,
    EF: StatementExtension<F>,
    C: StatementChallenger<F, EF>,
    requires { HasRoomFor F.TWO_ADICITY scheme }
    ensures made { OrNotMade (⟦<F as FieldKeys<EF, C>>⟧.makes (numbers_of scheme)
        (statement_view statement.now)) (made_of result) }
    ensures refused { IfErr result (λ report. report.answer ≡ Verdict.Accepted → ⊥) }
{
    let Ok(digest) = statement_digest(alloc, statement) else {
        return Err(Report::out_of_memory());
    };
    match scheme {
        SchemeChoice::Fri(parameters) => {
            let pcs: FriPcs<F, Sha256Tree> = FriPcs::new(parameters);
            let config: FriConfig<F, EF, C> = config_for(pcs, fresh, statement);
            key_with(alloc, &config, statement, digest)
        }
        SchemeChoice::Clear => {
            let pcs: ClearPcs<F> = ClearPcs::new();
            let config: ClearConfig<F, EF, C> = config_for(pcs, fresh, statement);
            key_with(alloc, &config, statement, digest)
        }
    }
}

/// The verdict on a proof with the bytes of a key, by the scheme that is chosen, with a challenger
/// in its first state.
pub(crate) fn verify_by<F, EF, C>(
    alloc: Global,
    scheme: SchemeChoice,
    fresh: C,
    statement: &Statement<F>,
    key: &[u8],
    proof: &[u8],
) -> Report<Verdict>
where
    F: StatementField,
    EF: StatementExtension<F>,
    C: StatementChallenger<F, EF>,
    requires { HasRoomFor F.TWO_ADICITY scheme }
    ensures verdict { OrUnjudged (⟦<F as FieldKeys<EF, C>>⟧.judges fresh (numbers_of scheme)
        (statement_view statement.now) key.now proof.now) result.answer }
    ensures owned { ⟦<F as FieldOwned<EF, C>>⟧.owned fresh (numbers_of scheme)
        (statement_view statement.now) key.now proof.now result.answer }
    ensures sound { result.answer ≡ Verdict.Accepted → ⟦<F as FieldOwned<EF, C>>⟧.sound fresh
        (numbers_of scheme) (statement_view statement.now) key.now proof.now }
{
    let Ok(digest) = statement_digest(alloc, statement) else {
        return Report::out_of_memory();
    };
    let challenger = bound(fresh, statement, digest);
    match scheme {
        SchemeChoice::Fri(parameters) => {
            let pcs: FriPcs<F, Sha256Tree> = FriPcs::new(parameters);
            only_one(&pcs);
            let config: FriConfig<F, EF, C> = config_for(pcs, challenger, statement);
            verify_with_key_bytes(alloc, &config, statement, digest, key, proof)
        }
        SchemeChoice::Clear => {
            let pcs: ClearPcs<F> = ClearPcs::new();
            let config: ClearConfig<F, EF, C> = config_for(pcs, challenger, statement);
            verify_with_key_bytes(alloc, &config, statement, digest, key, proof)
        }
    }
}
