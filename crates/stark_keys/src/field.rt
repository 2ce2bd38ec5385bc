//! The fields over which statements are taken, and keys of statements over them.
ghost use Rattle.std.specs.Prelude.{◌≡◌, ℕ, List, Option, Result, Ok, IfErr, replicate};
ghost use Rattle.serde_json.specs.Data.{Data};
ghost use Rattle.stark_statement.specs.Configuration.{FriNumbers, scheme_numbers as numbers_of};
ghost use Rattle.stark_statement.specs.StatementApart.{data_of};
ghost use Rattle.stark_answers.specs.declared.verdict.Verdict.{Verdict};
ghost use Rattle.stark_answers.specs.declared.verdict.Verdict.TheVariants.{Accepted};
ghost use Rattle.stark_service.specs.Schemes.{HasRoomFor};
ghost use Rattle.stark_service.specs.Statements.{OrUnjudged};
ghost use Rattle.stark_keys.specs.Keys.{OrNotMade, made_of};

use crate::over::{ValueKeys, key_over, verify_over};
use stark_answers::{Report, Verdict};
use stark_bench::{Ext4, F12289, Modulus, Residue, Scalar, Sha256Challenger};
use stark_json::Document;
use stark_service::ServiceField;
use stark_statement::SchemeChoice;
use std::alloc::Global;

/// The elements of a field whose modulus has at most 31 bits.
type Base<M> = Residue<M, Scalar>;

/// The challenger of SHA-256 over a field.
type Hashing<F> = Sha256Challenger<F>;

/// A field over which statements are taken: what is said of the JSON of a statement over it, by the
/// scheme that the statement chooses, where a key is made and where it is given.
pub trait KeyedField: ServiceField {
    /// The bytes of a key's file are made, or the verdict says why there is none.
    ghost makes: { Option FriNumbers → Data → Result (List ℕ) Verdict → Type 0 };

    /// Of the bytes of a key and of a proof.
    ghost judges: { Option FriNumbers → Data → List ℕ → List ℕ → Verdict → Type 0 };

    /// The bytes of the key's file.
    fn key(alloc: Global, scheme: SchemeChoice, value: Document) -> Result<Vec<u8>, Report<Verdict>>
        requires { HasRoomFor Self.adicity scheme }
        ensures made { OrNotMade (makes (numbers_of scheme) (data_of value)) (made_of result) }
        ensures refused { IfErr result (λ report. report.answer ≡ Verdict.Accepted → ⊥) };

    /// The verdict on a proof, with the bytes of a key.
    fn verify_with_key(
        alloc: Global,
        scheme: SchemeChoice,
        value: Document,
        key: &[u8],
        proof: &[u8],
    ) -> Report<Verdict>
        requires { HasRoomFor Self.adicity scheme }
        ensures verdict { OrUnjudged (judges (numbers_of scheme) (data_of value) key.now
            proof.now) result.answer }
        ensures owned { makes (numbers_of scheme) (data_of value) (Ok key.now)
            → OrUnjudged (Self.verdict (numbers_of scheme) (data_of value) proof.now)
            result.answer }
        ensures sound { result.answer ≡ Accepted
            → makes (numbers_of scheme) (data_of value) (Ok key.now)
            → Self.sound (numbers_of scheme) (data_of value) proof.now };
}

impl<M: Modulus> KeyedField for Residue<M, Scalar> {
    ghost makes = { ⟦<Base<M> as ValueKeys<Ext4<Base<M>>, Hashing<Base<M>>>>⟧.makes };

    ghost judges = { ⟦<Base<M> as ValueKeys<Ext4<Base<M>>, Hashing<Base<M>>>>⟧.judges
        (replicate 32 0) };

    fn key(
        alloc: Global,
        scheme: SchemeChoice,
        value: Document,
    ) -> Result<Vec<u8>, Report<Verdict>> {
        let challenger = Hashing::<Base<M>>::new();
        key_over::<Base<M>, Ext4<Base<M>>, _>(alloc, scheme, challenger, value)
    }

    fn verify_with_key(
        alloc: Global,
        scheme: SchemeChoice,
        value: Document,
        key: &[u8],
        proof: &[u8],
    ) -> Report<Verdict> {
        let challenger = Hashing::<Base<M>>::new();
        verify_over::<Base<M>, Ext4<Base<M>>, _>(alloc, scheme, challenger, value, key, proof)
    }
}

impl KeyedField for F12289 {
    ghost makes = { ⟦<F12289 as ValueKeys<Ext4<F12289>, Hashing<F12289>>>⟧.makes };

    ghost judges = { ⟦<F12289 as ValueKeys<Ext4<F12289>, Hashing<F12289>>>⟧.judges
        (replicate 32 0) };

    fn key(
        alloc: Global,
        scheme: SchemeChoice,
        value: Document,
    ) -> Result<Vec<u8>, Report<Verdict>> {
        let challenger = Hashing::<F12289>::new();
        key_over::<F12289, Ext4<F12289>, _>(alloc, scheme, challenger, value)
    }

    fn verify_with_key(
        alloc: Global,
        scheme: SchemeChoice,
        value: Document,
        key: &[u8],
        proof: &[u8],
    ) -> Report<Verdict> {
        let challenger = Hashing::<F12289>::new();
        verify_over::<F12289, Ext4<F12289>, _>(alloc, scheme, challenger, value, key, proof)
    }
}
