//! The words of the clauses of prover and verifier, over the programs' configuration.
ghost use Rattle.std.specs.Prelude.{◌≡◌, ◌⊎◌, ◌*◌, ◌^◌, ℕ, List, Option, length, replicate};
ghost use Rattle.stark_support.specs.declared.matrix.RowMajorMatrix.{RowMajorMatrix};
ghost use Rattle.stark_completeness.specs.RowCheck.{trace_of};
ghost use Rattle.stark_proof.specs.ProofView.{ProofView};
ghost use Rattle.stark_clear.specs.ClearScheme.{clear_pcs};
ghost use Rattle.stark_clear.specs.declared.clear.pcs.ClearProof.{ClearProof};
ghost use Rattle.stark_commands.specs.Input.{Base, Extension};
ghost use Rattle.stark_commands.specs.ProofInput.{NamedChallenger, proof_numbers_in};
ghost use Rattle.stark_answers.specs.Prove.{IsProved, json_line};
ghost use Rattle.stark_commands.specs.Prove.{IsProvedBy, IsProvedRead, program_writing};
ghost use Rattle.stark_answers.specs.SoundRun.{Listed};
ghost use Rattle.stark_commands.specs.TraceInput.{TraceNumbers};
ghost use Rattle.stark_answers.specs.Verify.{IsVerdict};
ghost use Rattle.stark_commands.specs.Verify.{IsVerdictBy, IsVerified};
ghost use Rattle.stark_answers.specs.declared.finding.Finding.{Finding};
ghost use Rattle.stark_answers.specs.declared.task.ProofForm.{ProofForm};
ghost use Rattle.stark_answers.specs.declared.verdict.Refusal.{Refusal};
ghost use Rattle.stark_answers.specs.declared.verdict.Verdict.{Verdict};

use crate::config::ProgramConfig;
use crate::input::Extension;
use p3_uni_stark::StarkOperations;
use stark_air::Air;
use stark_answers::DeclaredAir;
use stark_bench::{ClearCommitment, F12289, ScriptChallenger, Sha256Challenger};
use stark_clear::ClearProof;
use stark_parts::StarkChallenger;
use stark_support::{ExtensionField, JsonCodec};

/// What is found with a challenger in its first state, by the programs' prover of a trace and by
/// their verifier of a proof.
pub(crate) trait ProgramRun<A> {
    ghost finds: { ℕ → Self → A → RowMajorMatrix Base → List Base → ℕ → ℕ → Finding → Type 0 };

    ghost judges: { ℕ → Self → A → ProofView (Listed Base) Extension ClearProof Base → List Base
        → ℕ → ℕ → Verdict → Type 0 };
}

impl<C, A> ProgramRun<A> for C
where
    C: StarkChallenger<F12289, Extension, ClearCommitment<F12289>>,
    A: Air<F12289>,
{
    ghost finds = { λ log_rows challenger air trace public_values ood_bits alpha_bits f.
        (height : ℕ) → length trace.values.items ≡ 2 ^ height * trace.width
        → (f ≡ Finding.Verdict (Verdict.Refused Refusal.OutOfMemory))
        ⊎ IsProved (⟦<ProgramConfig<C> as StarkOperations>⟧.operations)
        (⟦<Extension as ExtensionField<F12289>>⟧.coordinates) ProofForm.Json
        (json_line program_writing) log_rows clear_pcs challenger
        (⟦<A as DeclaredAir<F12289>>⟧.declared air) height (trace_of trace) public_values ood_bits
        alpha_bits f };

    ghost judges = { λ log_rows challenger air proof public_values ood_bits alpha_bits v.
        (v ≡ Verdict.Refused Refusal.OutOfMemory)
        ⊎ IsVerdict (⟦<ProgramConfig<C> as StarkOperations>⟧.operations) log_rows clear_pcs
        challenger (⟦<A as DeclaredAir<F12289>>⟧.declared air) proof public_values ood_bits
        alpha_bits v };
}

/// What is found with the challenger that is named: by the programs' prover, whose challenger that
/// hashes begins with a state, of a trace and of what was read; and by their verifier, of a proof
/// and of bytes.
pub(crate) trait ProgramAir {
    ghost finds: { ℕ → List ℕ → Self → RowMajorMatrix Base → List Base → ℕ → ℕ → NamedChallenger
        → Finding → Type 0 };

    ghost finds_of_read: { ℕ → List ℕ → Self → Option TraceNumbers → Finding → Type 0 };

    ghost judges: { ℕ → Self → ProofView (Listed Base) Extension ClearProof Base → List Base
        → NamedChallenger → ℕ → ℕ → Verdict → Type 0 };

    ghost judges_bytes: { ℕ → Self → List ℕ → Verdict → Type 0 };
}

impl<A: Air<F12289>> ProgramAir for A {
    ghost finds = { λ log_rows sha256 air trace public_values ood_bits alpha_bits named f.
        (height : ℕ) → length trace.values.items ≡ 2 ^ height * trace.width
        → (f ≡ Finding.Verdict (Verdict.Refused Refusal.OutOfMemory)) ⊎ IsProvedBy
        (⟦<ProgramConfig<Sha256Challenger<F12289>> as StarkOperations>⟧.operations)
        (⟦<ProgramConfig<ScriptChallenger<F12289>> as StarkOperations>⟧.operations)
        (⟦<Extension as ExtensionField<F12289>>⟧.coordinates) log_rows clear_pcs sha256 (λ numbers.
        (numbers, 0)) (⟦<A as DeclaredAir<F12289>>⟧.declared air) height (trace_of trace)
        public_values ood_bits alpha_bits named f };

    ghost finds_of_read = { λ log_rows sha256 air read f.
        (f ≡ Finding.Verdict (Verdict.Refused Refusal.OutOfMemory)) ⊎ IsProvedRead
        (⟦<ProgramConfig<Sha256Challenger<F12289>> as StarkOperations>⟧.operations)
        (⟦<ProgramConfig<ScriptChallenger<F12289>> as StarkOperations>⟧.operations)
        (⟦<Extension as ExtensionField<F12289>>⟧.coordinates) log_rows clear_pcs sha256 (λ numbers.
        (numbers, 0)) (⟦<A as DeclaredAir<F12289>>⟧.declared air) read f };

    ghost judges = { λ log_rows air proof public_values named ood_bits alpha_bits v.
        (v ≡ Verdict.Refused Refusal.OutOfMemory) ⊎ IsVerdictBy
        (⟦<ProgramConfig<Sha256Challenger<F12289>> as StarkOperations>⟧.operations)
        (⟦<ProgramConfig<ScriptChallenger<F12289>> as StarkOperations>⟧.operations)
        log_rows clear_pcs (replicate 32 0) (λ numbers. (numbers, 0))
        (⟦<A as DeclaredAir<F12289>>⟧.declared air)
        (record {
          proof = proof;
          public_values = public_values;
          challenger = named;
          ood_bits = ood_bits;
          alpha_bits = alpha_bits;
        })
        named v };

    ghost judges_bytes = { λ log_rows air bytes v. (v ≡ Verdict.Refused Refusal.OutOfMemory)
        ⊎ IsVerified (⟦<ProgramConfig<Sha256Challenger<F12289>> as StarkOperations>⟧.operations)
        (⟦<ProgramConfig<ScriptChallenger<F12289>> as StarkOperations>⟧.operations)
        log_rows clear_pcs (replicate 32 0) (λ numbers. (numbers, 0))
        (⟦<A as DeclaredAir<F12289>>⟧.declared air)
        (proof_numbers_in (⟦<ClearCommitment<F12289> as JsonCodec>⟧.reading)
        (⟦<ClearProof as JsonCodec>⟧.reading) bytes) v };
}
