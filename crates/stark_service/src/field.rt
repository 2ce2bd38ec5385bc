//! The fields over which statements are taken, each with its extension of degree four and a
//! challenger of SHA-256.

ghost use Rattle.std.specs.Prelude.{◌≡◌, ℕ, List, Option, replicate};
ghost use Rattle.serde_json.specs.Data.{Data};
ghost use Rattle.stark_statement.specs.Configuration.{FriNumbers, scheme_numbers};
ghost use Rattle.stark_statement.specs.StatementApart.{data_of};
ghost use Rattle.stark_answers.specs.Finding.{IsAcceptedWhereProved, WhereProof};
ghost use Rattle.stark_answers.specs.declared.finding.Finding.{Finding};
ghost use Rattle.stark_answers.specs.declared.task.ProofForm.{ProofForm};
ghost use Rattle.stark_answers.specs.declared.task.TraceTask.{TraceTask};
ghost use Rattle.stark_answers.specs.declared.verdict.Verdict.{Verdict};
ghost use Rattle.stark_service.specs.Schemes.{HasRoomFor};
ghost use Rattle.stark_service.specs.Showing.{IsOfShowing};
ghost use Rattle.stark_service.specs.StatementFacts.{IsOfTrace};
ghost use Rattle.stark_service.specs.Statements.{OrUnjudged};
ghost use Rattle.stark_service.specs.TraceChecks.{OrLacksMemory};

use crate::over::{ValueAnswers, answer_over, verify_over};
use crate::progress::Progress;
use crate::showing::show_over;
use stark_answers::{Finding, Report, TraceTask, Verdict};
use stark_bench::{Ext4, F12289, Modulus, Residue, Scalar, Sha256Challenger};
use stark_json::Document;
use stark_statement::SchemeChoice;
use stark_support::TwoAdicField;
use std::alloc::Global;

/// The elements of a field whose modulus has at most 31 bits.
type Base<M> = Residue<M, Scalar>;

/// The challenger of SHA-256 over a field.
type Hashing<F> = Sha256Challenger<F>;

/// A field over which statements are taken: what is said of the JSON of a statement over it, by the
/// scheme that the statement chooses, and beside a proof or a trace.
pub trait ServiceField: Sized {
    /// The logarithm of its greatest group of a power of two.
    ghost adicity: { ℕ };

    /// Of the bytes of a proof.
    ghost verdict: { Option FriNumbers → Data → List ℕ → Verdict → Type 0 };

    /// In the clear the columns that the proof lists break no constraint of the statement's AIR,
    /// unless a challenge is bad. By FRI whatever tables lead to the proof's roots are near to
    /// columns that satisfy it, or one of few draws was made, or the trees' hash collides.
    ghost sound: { Option FriNumbers → Data → List ℕ → Type 0 };

    /// Of the bytes of a trace, by what is asked for it.
    ghost finds: { Option FriNumbers → TraceTask → Data → List ℕ → Finding → Type 0 };

    /// This is the file of a proof, in a form, of the trace that the bytes spell.
    ghost proof_file: { Option FriNumbers → Data → List ℕ → ProofForm → List ℕ → Type 0 };

    /// The file spells a proof whose verdict is `accepted` and no other, unless its zeta lies in
    /// the trace's domain or the constraints' degrees don't fit the quotient's.
    ghost accepts: { Option FriNumbers → Data → List ℕ → Type 0 };

    /// Of the statement alone, where it is shown.
    ghost showing: { Option FriNumbers → Data → Finding → Type 0 };

    /// The verdict on a proof.
    fn verify(alloc: Global, scheme: SchemeChoice, value: Document, proof: &[u8]) -> Report<Verdict>
        requires { HasRoomFor adicity scheme }
        ensures verdict { OrUnjudged (verdict (scheme_numbers scheme) (data_of value)
            proof.now) result.answer }
        ensures sound { result.answer ≡ Verdict.Accepted → sound (scheme_numbers scheme)
            (data_of value) proof.now };

    /// What is found of a trace.
    fn answer<P: Progress>(
        alloc: Global,
        scheme: SchemeChoice,
        asked: TraceTask,
        value: Document,
        trace: Vec<u8>,
        progress: &mut P,
    ) -> Report<Finding>
        requires { HasRoomFor adicity scheme }
        ensures finds { OrLacksMemory (finds (scheme_numbers scheme) asked (data_of value)
            trace.items) result.answer }
        ensures kind { IsOfTrace asked result.answer }
        ensures proof { WhereProof (proof_file (scheme_numbers scheme) (data_of value)
            trace.items) result.answer }
        ensures accepted { IsAcceptedWhereProved asked (accepts (scheme_numbers scheme)
            (data_of value)) result.answer };

    /// What is shown. The JSON is dropped once it is read, before the text is made, which may be
    /// far longer.
    fn show(alloc: Global, scheme: SchemeChoice, value: Document) -> Report<Finding>
        requires { HasRoomFor adicity scheme }
        ensures shown { OrLacksMemory (showing (scheme_numbers scheme) (data_of value))
            result.answer }
        ensures kind { IsOfShowing result.answer };
}

impl<M: Modulus> ServiceField for Residue<M, Scalar> {
    ghost adicity = { ⟦<Residue<M, Scalar> as TwoAdicField>⟧.TWO_ADICITY };

    ghost verdict = { ⟦<Base<M> as ValueAnswers<Ext4<Base<M>>, Hashing<Base<M>>>>⟧.verdict
        (replicate 32 0) };

    ghost sound = { ⟦<Base<M> as ValueAnswers<Ext4<Base<M>>, Hashing<Base<M>>>>⟧.sound
        (replicate 32 0) };

    ghost finds = { ⟦<Base<M> as ValueAnswers<Ext4<Base<M>>, Hashing<Base<M>>>>⟧.finds
        (replicate 32 0) };

    ghost proof_file = { ⟦<Base<M> as ValueAnswers<Ext4<Base<M>>, Hashing<Base<M>>>>⟧.proof_file
        (replicate 32 0) };

    ghost accepts = { ⟦<Base<M> as ValueAnswers<Ext4<Base<M>>, Hashing<Base<M>>>>⟧.accepts
        (replicate 32 0) };

    ghost showing = { ⟦<Base<M> as ValueAnswers<Ext4<Base<M>>, Hashing<Base<M>>>>⟧.showing };

    fn verify(
        alloc: Global,
        scheme: SchemeChoice,
        value: Document,
        proof: &[u8],
    ) -> Report<Verdict> {
        let challenger = Hashing::<Base<M>>::new();
        verify_over::<Base<M>, Ext4<Base<M>>, _>(alloc, scheme, challenger, value, proof)
    }

    fn answer<P: Progress>(
        alloc: Global,
        scheme: SchemeChoice,
        asked: TraceTask,
        value: Document,
        trace: Vec<u8>,
        progress: &mut P,
    ) -> Report<Finding> {
        let challenger = Hashing::<Base<M>>::new();
        answer_over::<Base<M>, Ext4<Base<M>>, _, P>(
            alloc, scheme, challenger, asked, value, trace, progress,
        )
    }

    fn show(alloc: Global, scheme: SchemeChoice, value: Document) -> Report<Finding> {
        show_over::<Base<M>, Ext4<Base<M>>>(alloc, scheme, value)
    }
}

impl ServiceField for F12289 {
    ghost adicity = { ⟦<F12289 as TwoAdicField>⟧.TWO_ADICITY };

    ghost verdict = { ⟦<F12289 as ValueAnswers<Ext4<F12289>, Hashing<F12289>>>⟧.verdict
        (replicate 32 0) };

    ghost sound = { ⟦<F12289 as ValueAnswers<Ext4<F12289>, Hashing<F12289>>>⟧.sound
        (replicate 32 0) };

    ghost finds = { ⟦<F12289 as ValueAnswers<Ext4<F12289>, Hashing<F12289>>>⟧.finds
        (replicate 32 0) };

    ghost proof_file = { ⟦<F12289 as ValueAnswers<Ext4<F12289>, Hashing<F12289>>>⟧.proof_file
        (replicate 32 0) };

    ghost accepts = { ⟦<F12289 as ValueAnswers<Ext4<F12289>, Hashing<F12289>>>⟧.accepts
        (replicate 32 0) };

    ghost showing = { ⟦<F12289 as ValueAnswers<Ext4<F12289>, Hashing<F12289>>>⟧.showing };

    fn verify(
        alloc: Global,
        scheme: SchemeChoice,
        value: Document,
        proof: &[u8],
    ) -> Report<Verdict> {
        let challenger = Hashing::<F12289>::new();
        verify_over::<F12289, Ext4<F12289>, _>(alloc, scheme, challenger, value, proof)
    }

    fn answer<P: Progress>(
        alloc: Global,
        scheme: SchemeChoice,
        asked: TraceTask,
        value: Document,
        trace: Vec<u8>,
        progress: &mut P,
    ) -> Report<Finding> {
        let challenger = Hashing::<F12289>::new();
        answer_over::<F12289, Ext4<F12289>, _, P>(
            alloc, scheme, challenger, asked, value, trace, progress,
        )
    }

    fn show(alloc: Global, scheme: SchemeChoice, value: Document) -> Report<Finding> {
        show_over::<F12289, Ext4<F12289>>(alloc, scheme, value)
    }
}
