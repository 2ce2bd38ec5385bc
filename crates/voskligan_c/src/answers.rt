//! What the calls say, over the bytes that they are given.

ghost use Rattle.std.specs.Prelude.{◌≡◌, ℕ, List, Result};
ghost use Rattle.stark_answers.specs.declared.finding.Finding.{Finding};
ghost use Rattle.stark_answers.specs.declared.task.ProofForm.{ProofForm};
ghost use Rattle.stark_answers.specs.declared.task.TraceTask.{TraceTask};
ghost use Rattle.stark_answers.specs.declared.verdict.Verdict.{Verdict};
ghost use Rattle.stark_service.specs.declared.floor.FloorVerdict.{FloorVerdict};

use stark_keys::StatementKeys as Keys;
use stark_service::{FloorAnswers, NamedFields, StatementAnswers as Answers};

// Which statements are judged, and above by whose answers: nothing else in this crate names them.
type Judged = NamedFields;

/// The program whose answers the calls give.
pub struct Program;

/// What a verifier and a prover that are given a statement say, over the bytes of the statement and
/// of a proof or a trace. It has no code.
pub trait ProgramAnswers {
    /// This is the verdict on a statement and a proof.
    ghost verdict: { List ℕ → List ℕ → Verdict → Type 0 };

    /// In the clear the columns that the proof lists break no constraint of the statement's AIR,
    /// unless a challenge is bad. By FRI whatever tables lead to the proof's roots are near to
    /// columns that satisfy it, or one of few draws was made, or the trees' hash collides.
    ghost sound: { List ℕ → List ℕ → Type 0 };

    /// This is said of a statement and a proof, where a floor in proved bits is set.
    ghost floored: { ℕ → List ℕ → List ℕ → FloorVerdict → Type 0 };

    /// This is found of a statement and a trace, by what is asked for the trace.
    ghost finds: { TraceTask → List ℕ → List ℕ → Finding → Type 0 };

    /// By a check;
    ghost checked: { List ℕ → List ℕ → Finding → Type 0 };

    /// and by a prover that has checked it.
    ghost proved: { List ℕ → List ℕ → Finding → Type 0 };

    /// This is the line of a proof, for the statement, of the trace.
    ghost proof_line: { List ℕ → List ℕ → List ℕ → Type 0 };

    /// The second file spells a proof whose verdict for the statement is `accepted` and no other,
    /// unless its zeta lies in the trace's domain or the constraints' degrees don't fit the
    /// quotient's.
    ghost accepts: { List ℕ → List ℕ → Type 0 };

    /// The bytes of the key's file of a statement are made, or the verdict says why there is none.
    ghost makes: { List ℕ → Result (List ℕ) Verdict → Type 0 };

    /// These are the bytes of the key's file of a statement.
    ghost key_file: { List ℕ → List ℕ → Type 0 };

    /// This is the verdict on a statement, the bytes of a key, whatever they are, and a proof.
    ghost judges: { List ℕ → List ℕ → List ℕ → Verdict → Type 0 };
}

impl ProgramAnswers for Program {
    ghost verdict = { ⟦<Judged as Answers>⟧.verdict };

    ghost sound = { ⟦<Judged as Answers>⟧.sound };

    ghost floored = { ⟦<Judged as FloorAnswers>⟧.floored };

    ghost finds = { ⟦<Judged as Answers>⟧.finds };

    ghost checked = { ⟦<Judged as Answers>⟧.finds TraceTask.Check };

    ghost proved = { ⟦<Judged as Answers>⟧.finds (TraceTask.Prove ProofForm.Json) };

    ghost proof_line = { λ statement trace. ⟦<Judged as Answers>⟧.proof_file statement trace
        ProofForm.Json };

    ghost accepts = { ⟦<Judged as Answers>⟧.accepts };

    ghost makes = { ⟦<Judged as Keys>⟧.makes };

    ghost key_file = { ⟦<Judged as Keys>⟧.key_file };

    ghost judges = { ⟦<Judged as Keys>⟧.judges };
}
