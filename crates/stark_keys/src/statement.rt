//! Keys of statements, from bytes to bytes and to a verdict.
ghost use Rattle.std.specs.Prelude.{◌≡◌, ℕ, List, IfErr, IfOk, Result, Ok, Err};
ghost use Rattle.serde_json.specs.Data.{Data};
ghost use Rattle.stark_statement.specs.Configuration.{ConfigurationView, IsWithinField, configuration_view};
ghost use Rattle.stark_statement.specs.StatementApart.{data_of};
ghost use Rattle.stark_answers.specs.declared.verdict.Verdict.{Verdict};
ghost use Rattle.stark_answers.specs.declared.verdict.Verdict.TheVariants.{Accepted};
ghost use Rattle.stark_service.specs.Schemes.{IsSaidOfBytes, OverField};
ghost use Rattle.stark_service.specs.Statements.{OrUnjudged};
ghost use Rattle.stark_keys.specs.Keys.{OrNotMade, made_of};

use crate::field::KeyedField;
use stark_answers::{Report, Verdict};
use stark_bench::{BabyBearField, F12289, KoalaBearField};
use stark_json::Document;
use stark_service::{ConfiguredAnswers, NamedFields, StatementAnswers, copied, read_configured};
use stark_statement::{Configuration, FieldName};
use std::alloc::Global;

/// What is said of a JSON value as a statement with a configuration, over the field that this
/// names, where a key is made and where it is given. It has no code.
trait ConfiguredKeys {
    ghost makes: { ConfigurationView → Data → Result (List ℕ) Verdict → Type 0 };

    ghost judges: { ConfigurationView → Data → List ℕ → List ℕ → Verdict → Type 0 };

    ghost owned: { ConfigurationView → Data → List ℕ → List ℕ → Verdict → Type 0 };

    ghost sound: { ConfigurationView → Data → List ℕ → List ℕ → Type 0 };
}

impl ConfiguredKeys for NamedFields {
    ghost makes = { λ c d made. OverField c.field
        (⟦<BabyBearField as KeyedField>⟧.makes c.fri d made)
        (⟦<KoalaBearField as KeyedField>⟧.makes c.fri d made)
        (⟦<F12289 as KeyedField>⟧.makes c.fri d made) };

    ghost judges = { λ c d key proof v. OverField c.field
        (⟦<BabyBearField as KeyedField>⟧.judges c.fri d key proof v)
        (⟦<KoalaBearField as KeyedField>⟧.judges c.fri d key proof v)
        (⟦<F12289 as KeyedField>⟧.judges c.fri d key proof v) };

    ghost owned = { λ c d key proof v. OverField c.field
        (⟦<BabyBearField as KeyedField>⟧.makes c.fri d (Ok key))
        (⟦<KoalaBearField as KeyedField>⟧.makes c.fri d (Ok key))
        (⟦<F12289 as KeyedField>⟧.makes c.fri d (Ok key))
        → OrUnjudged (⟦<NamedFields as ConfiguredAnswers>⟧.verdict c d proof) v };

    ghost sound = { λ c d key proof. OverField c.field
        (⟦<BabyBearField as KeyedField>⟧.makes c.fri d (Ok key))
        (⟦<KoalaBearField as KeyedField>⟧.makes c.fri d (Ok key))
        (⟦<F12289 as KeyedField>⟧.makes c.fri d (Ok key))
        → ⟦<NamedFields as ConfiguredAnswers>⟧.sound c d proof };
}

/// What a verifier that is given a statement says of its key and with it, over the bytes of the
/// statement, of the key and of a proof.
pub trait StatementKeys: Sized {
    /// The bytes of the key's file of a statement are made, or the verdict says why there is none.
    ghost makes: { List ℕ → Result (List ℕ) Verdict → Type 0 };

    /// These are the bytes of the key's file of a statement: they spell its digest, and the key
    /// that the scheme's set-up makes of the columns that it declares.
    ghost key_file: { List ℕ → List ℕ → Type 0 };

    /// This is the verdict on a statement, the bytes of a key, whatever they are, and a proof.
    ghost judges: { List ℕ → List ℕ → List ℕ → Verdict → Type 0 };

    /// Where the bytes are those of the statement's key, this is the verdict on the statement and
    /// the proof, as `StatementAnswers` says it,
    ghost owned: { List ℕ → List ℕ → List ℕ → Verdict → Type 0 };

    /// and the proof is sound as it says.
    ghost sound_with_key: { List ℕ → List ℕ → List ℕ → Type 0 };

    /// The bytes of the key's file, as `statement_key` says it. The statement's bytes are dropped
    /// once they are read.
    fn key(alloc: Global, statement: Vec<u8>) -> Result<Vec<u8>, Report<Verdict>>
        ensures made { OrNotMade (makes statement.items) (made_of result) }
        ensures key_file { IfOk result (λ key. key_file statement.items key.items) }
        ensures refused { IfErr result (λ report. report.answer ≡ Verdict.Accepted → ⊥) };

    /// The verdict on a proof with the bytes of a key, as `verify_statement_with_key` says it. The
    /// statement's bytes are dropped once they are read.
    fn verify_with_key(
        alloc: Global,
        statement: Vec<u8>,
        key: &[u8],
        proof: &[u8],
    ) -> Report<Verdict>
        ensures verdict { OrUnjudged (judges statement.items key.now proof.now) result.answer }
        ensures owned { owned statement.items key.now proof.now result.answer }
        ensures sound { result.answer ≡ Verdict.Accepted
            → sound_with_key statement.items key.now proof.now };
}

impl StatementKeys for NamedFields {
    ghost makes = { IsSaidOfBytes (λ v. Err v) ⟦<NamedFields as ConfiguredKeys>⟧.makes };

    ghost key_file = { λ statement key. IsSaidOfBytes (λ v. Err v)
        ⟦<NamedFields as ConfiguredKeys>⟧.makes statement (Ok key) };

    ghost judges = { λ statement key proof. IsSaidOfBytes (λ v. v) (λ c d.
        ⟦<NamedFields as ConfiguredKeys>⟧.judges c d key proof) statement };

    ghost owned = { λ statement key proof v. IsSaidOfBytes (λ w. Err w)
        ⟦<NamedFields as ConfiguredKeys>⟧.makes statement (Ok key)
        → OrUnjudged (⟦<NamedFields as StatementAnswers>⟧.verdict statement proof) v };

    ghost sound_with_key = { λ statement key proof. IsSaidOfBytes (λ w. Err w)
        ⟦<NamedFields as ConfiguredKeys>⟧.makes statement (Ok key)
        → ⟦<NamedFields as StatementAnswers>⟧.sound statement proof };

    fn key(alloc: Global, statement: Vec<u8>) -> Result<Vec<u8>, Report<Verdict>> {
        match read_configured(alloc, statement) {
            Ok((value, configuration)) => key_of_value(alloc, configuration, value),
            Err(report) => Err(report),
        }
    }

    fn verify_with_key(
        alloc: Global,
        statement: Vec<u8>,
        key: &[u8],
        proof: &[u8],
    ) -> Report<Verdict> {
        match read_configured(alloc, statement) {
            Ok((value, configuration)) => verify_value(alloc, configuration, value, key, proof),
            Err(report) => report,
        }
    }
}

/// The bytes of the key's file of a statement that was read as JSON, whose configuration is this.
fn key_of_value(
    alloc: Global,
    configuration: Configuration,
    value: Document,
) -> Result<Vec<u8>, Report<Verdict>>
    requires { IsWithinField configuration }
    ensures made { OrNotMade (⟦<NamedFields as ConfiguredKeys>⟧.makes
        (configuration_view configuration) (data_of value)) (made_of result) }
    ensures refused { IfErr result (λ report. report.answer ≡ Verdict.Accepted → ⊥) }
{
    let scheme = configuration.scheme;
    match configuration.field {
        FieldName::BabyBear => BabyBearField::key(alloc, scheme, value),
        FieldName::KoalaBear => KoalaBearField::key(alloc, scheme, value),
        FieldName::F12289 => F12289::key(alloc, scheme, value),
    }
}

/// The verdict on a proof for a statement that was read as JSON, whose configuration is this, with
/// the bytes of a key.
fn verify_value(
    alloc: Global,
    configuration: Configuration,
    value: Document,
    key: &[u8],
    proof: &[u8],
) -> Report<Verdict>
    requires { IsWithinField configuration }
    ensures verdict { OrUnjudged (⟦<NamedFields as ConfiguredKeys>⟧.judges
        (configuration_view configuration) (data_of value) key.now proof.now) result.answer }
    ensures owned { ⟦<NamedFields as ConfiguredKeys>⟧.owned (configuration_view configuration)
        (data_of value) key.now proof.now result.answer }
    ensures sound { result.answer ≡ Accepted → ⟦<NamedFields as ConfiguredKeys>⟧.sound
        (configuration_view configuration) (data_of value) key.now proof.now }
{
    let scheme = configuration.scheme;
    match configuration.field {
        FieldName::BabyBear => { BabyBearField::verify_with_key(alloc, scheme, value, key, proof) }
        FieldName::KoalaBear => {
            KoalaBearField::verify_with_key(alloc, scheme, value, key, proof)
        }
        FieldName::F12289 => F12289::verify_with_key(alloc, scheme, value, key, proof),
    }
}

/// The bytes of the key's file of a statement, from its bytes: what a verifier keeps of the
/// preprocessed columns that the statement's AIR declares, beside the digest of the statement, so
/// that they are set up once and not for each proof. Where the AIR declares none the key says so.
/// `key_from_bytes` of `stark_key_bytes` reads them.
///
/// Where there is none it is said why: `bad input` where the statement can't be read, or its AIR's
/// preprocessed columns have no power of two of rows within the scheme's heights; `refused
/// AirTooLarge` where the statement was read and its AIR passes a limit; `out of memory`.
pub fn statement_key(alloc: Global, statement: &[u8]) -> Result<Vec<u8>, Report<Verdict>>
    ensures made { OrNotMade (⟦<NamedFields as StatementKeys>⟧.makes statement.now)
        (made_of result) }
    ensures key_file { IfOk result (λ key. ⟦<NamedFields as StatementKeys>⟧.key_file
        statement.now key.items) }
    ensures refused { IfErr result (λ report. report.answer ≡ Verdict.Accepted → ⊥) }
{
    let Ok(statement) = copied(alloc, statement) else {
        return Err(Report::out_of_memory());
    };
    NamedFields::key(alloc, statement)
}

/// The verdict on a proof for a statement, with a key, from the bytes of all three: `accepted`;
/// `refused` and the first fault; `bad input` where the statement can't be read, the bytes of the
/// key are none (the reason has their first fault), the key was made for another statement, or the
/// proof can't be read; `refused AirTooLarge` where the statement was read and its AIR passes a
/// limit; `out of memory`. Nothing is set up, and no length that the key's bytes claim takes more
/// memory than there are bytes.
///
/// The key is the owner's word for the preprocessed columns, as the statement is for all else: its
/// digest sets it apart from keys of other statements, and nothing sets it apart from another key
/// that claims to be of this one. What is accepted is accepted by the verifier with this key,
/// whatever it is (`verdict`). Where the bytes are those that `statement_key` makes of the
/// statement, the verdict is one of `verify_statement` (`owned`), and what is accepted is sound as
/// it says (`sound`). Of any other key nothing is said of the preprocessed columns.
pub fn verify_statement_with_key(
    alloc: Global,
    statement: &[u8],
    key: &[u8],
    proof: &[u8],
) -> Report<Verdict>
    ensures verdict { OrUnjudged (⟦<NamedFields as StatementKeys>⟧.judges statement.now
        key.now proof.now) result.answer }
    ensures owned { ⟦<NamedFields as StatementKeys>⟧.owned statement.now key.now proof.now
        result.answer }
    ensures sound { result.answer ≡ Verdict.Accepted
        → ⟦<NamedFields as StatementKeys>⟧.sound_with_key statement.now key.now proof.now }
{
    let Ok(statement) = copied(alloc, statement) else {
        return Report::out_of_memory();
    };
    NamedFields::verify_with_key(alloc, statement, key, proof)
}
