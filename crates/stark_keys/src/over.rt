//! A statement over one field, read from its JSON, and its key.
ghost use Rattle.std.specs.Prelude.{◌≡◌, ℕ, List, Option, Result, Ok, Err, IfErr};
ghost use Rattle.serde_json.specs.Data.{Data};
ghost use Rattle.stark_statement.specs.Configuration.{FriNumbers, scheme_numbers};
ghost use Rattle.stark_statement.specs.StatementApart.{data_of};
ghost use Rattle.stark_statement.specs.StatementJson.{statement_reading};
ghost use Rattle.stark_answers.specs.declared.verdict.Verdict.{Verdict};
ghost use Rattle.stark_service.specs.Schemes.{HasRoomFor};
ghost use Rattle.stark_service.specs.Statements.{IsSaidOfRead, OrUnjudged};
ghost use Rattle.stark_keys.specs.Keys.{OrNotMade, made_of};

use crate::schemes::{FieldKeys, key_by, verify_by};
use stark_answers::{Report, Verdict};
use stark_bench::ClearCommitment;
use stark_json::Document;
use stark_merkle::Root;
use stark_parts::StarkChallenger;
use stark_service::{
    StatementChallenger, StatementExtension, StatementField, ValueAnswers, read_statement,
};
use stark_statement::SchemeChoice;
use stark_support::CanObserve;
use std::alloc::Global;

/// What is said of a JSON value as a statement over a field where a key is made and where it is
/// given. It has no code.
pub trait ValueKeys<EF, C>: Sized {
    ghost makes: { Option FriNumbers → Data → Result (List ℕ) Verdict → Type 0 };

    ghost judges: { C → Option FriNumbers → Data → List ℕ → List ℕ → Verdict → Type 0 };

    ghost owned: { C → Option FriNumbers → Data → List ℕ → List ℕ → Verdict → Type 0 };

    ghost sound: { C → Option FriNumbers → Data → List ℕ → List ℕ → Type 0 };
}

impl<F, EF, C> ValueKeys<EF, C> for F
where
    F: StatementField,
    EF: StatementExtension<F>,
    C: StatementChallenger<F, EF>,
{
    ghost makes = { λ scheme d. IsSaidOfRead (λ v. Err v)
        (λ s. ⟦<F as FieldKeys<EF, C>>⟧.makes scheme s) (statement_reading F.reading d) };

    ghost judges = { λ fresh scheme d key proof. IsSaidOfRead (λ v. v)
        (λ s. ⟦<F as FieldKeys<EF, C>>⟧.judges fresh scheme s key proof)
        (statement_reading F.reading d) };

    ghost owned = { λ fresh scheme d key proof v. IsSaidOfRead (λ w. Err w)
        (λ s. ⟦<F as FieldKeys<EF, C>>⟧.makes scheme s) (statement_reading F.reading d) (Ok key)
        → OrUnjudged (⟦<F as ValueAnswers<EF, C>>⟧.verdict fresh scheme d proof) v };

    ghost sound = { λ fresh scheme d key proof. IsSaidOfRead (λ w. Err w)
        (λ s. ⟦<F as FieldKeys<EF, C>>⟧.makes scheme s) (statement_reading F.reading d) (Ok key)
        → ⟦<F as ValueAnswers<EF, C>>⟧.sound fresh scheme d proof };
}

/// The bytes of the key's file of a statement over a field.
pub(crate) fn key_over<F, EF, C>(
    alloc: Global,
    scheme: SchemeChoice,
    challenger: C,
    value: Document,
) -> Result<Vec<u8>, Report<Verdict>>
where
    F: StatementField,
    EF: StatementExtension<F>,
    C: StarkChallenger<F, EF, Root> + CanObserve<ClearCommitment<F>>,
    requires { HasRoomFor F.TWO_ADICITY scheme }
    ensures made { OrNotMade (⟦<F as ValueKeys<EF, C>>⟧.makes (scheme_numbers scheme)
        (data_of value)) (made_of result) }
    ensures refused { IfErr result (λ report. report.answer ≡ Verdict.Accepted → ⊥) }
{
    let read = read_statement::<F>(alloc, &value);
    // The JSON is several times as long as the statement.
    drop(value);
    match read {
        Ok(statement) => key_by::<F, EF, C>(alloc, scheme, challenger, &statement),
        Err(report) => Err(report),
    }
}

/// The verdict on a proof for a statement over a field, with the bytes of a key.
pub(crate) fn verify_over<F, EF, C>(
    alloc: Global,
    scheme: SchemeChoice,
    challenger: C,
    value: Document,
    key: &[u8],
    proof: &[u8],
) -> Report<Verdict>
where
    F: StatementField,
    EF: StatementExtension<F>,
    C: StarkChallenger<F, EF, Root> + CanObserve<ClearCommitment<F>>,
    requires { HasRoomFor F.TWO_ADICITY scheme }
    ensures verdict { OrUnjudged (⟦<F as ValueKeys<EF, C>>⟧.judges challenger
        (scheme_numbers scheme) (data_of value) key.now proof.now) result.answer }
    ensures owned { ⟦<F as ValueKeys<EF, C>>⟧.owned challenger (scheme_numbers scheme)
        (data_of value) key.now proof.now result.answer }
    ensures sound { result.answer ≡ Verdict.Accepted → ⟦<F as ValueKeys<EF, C>>⟧.sound challenger
        (scheme_numbers scheme) (data_of value) key.now proof.now }
{
    let read = read_statement::<F>(alloc, &value);
    // The JSON is several times as long as the statement.
    drop(value);
    match read {
        Ok(statement) => verify_by::<F, EF, C>(alloc, scheme, challenger, &statement, key, proof),
        Err(report) => report,
    }
}
