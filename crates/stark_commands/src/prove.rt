//! The command `prove`: a proof of a trace that is read.

ghost use Rattle.std.specs.Prelude.{◌≡◌, ◌⊎◌, ◌<◌, ◌≤◌, ℕ, List, Some, length, replicate};
ghost use Rattle.stark_completeness.specs.RowCheck.{trace_of};
ghost use Rattle.stark_protocol.specs.Preprocessing.{HasHeight};
ghost use Rattle.stark_clear.specs.ClearScheme.{clear_pcs};
ghost use Rattle.stark_commands.specs.Airs.{sample};
ghost use Rattle.stark_answers.specs.CheckedAir.{shape_of};
ghost use Rattle.stark_commands.specs.ProofInput.{HasSomeNumber, named_challenger};
ghost use Rattle.stark_commands.specs.TraceInput.{trace_numbers, trace_numbers_in};
ghost use Rattle.stark_answers.specs.Finding.{BeginsAsItsKind, IsText, WhereLine};
ghost use Rattle.stark_answers.specs.declared.finding.Finding.{Finding};
ghost use Rattle.stark_answers.specs.declared.verdict.Verdict.{Verdict};
ghost use Rattle.stark_commands.specs.ProveFacts.{proved_accepts_none, proved_begins, proved_line, proved_no_text, proved_satisfies_none};
ghost use Rattle.stark_commands.specs.Prove.{IsProofOfRead, IsProvedRead};
ghost use Rattle.stark_answers.specs.Prove.{IsTraceFor};

use crate::config::{ClearConfig, ProgramConfig, ProgramProof, clear_config};
use crate::contracts::{ProgramAir, ProgramRun};
use crate::input::Extension;
use crate::proof_input::ChosenChallenger;
use crate::sample::{SampleAir, sample_air};
use crate::trace_input::{TraceInput, trace_input_from};
use p3_uni_stark::{Proof, ProvingError, StarkOperations};
use stark_air::Air;
use stark_answers::{
    AnswersWithColumns, CheckShape, DeclaredAir, Finding, ProofForm, Refusal, Report, Verdict,
    finding_of_proof, prove_with_own_columns, values_of, words_of_failure,
};
use stark_bench::{ClearCommitment, F12289, ScriptChallenger, Sha256Challenger};
use stark_clear::{ClearProof, ClearProverError};
use stark_parts::StarkChallenger;
use stark_support::{
    ExtensionField, JsonFault, PackedExtensionField, PackedField, PrimeField64, RowMajorMatrix,
    TwoAdicField,
};
use std::alloc::{AllocError, Global};

/// What a prover finds of the bytes of an input, and which bytes are the line of a proof of the
/// trace that is read from them. It has no code.
pub trait ProvedInput {
    ghost proved: { Self → List ℕ → Finding → Type 0 };

    ghost proof_line: { Self → List ℕ → List ℕ → Type 0 };

    /// A proof that is found is a line of JSON, and one of the trace that was read.
    ghost finds_proofs: { (air : Self) (input : List ℕ) (f : Finding) → proved air input f
        → WhereLine (proof_line air input) f };

    /// A proof's line begins as an object does.
    ghost begins: { (air : Self) (input : List ℕ) (f : Finding) → proved air input f
        → BeginsAsItsKind f };

    /// A prover accepts nothing.
    ghost accepts_none: { (air : Self) (input : List ℕ)
        → proved air input (Finding.Verdict Verdict.Accepted) → ⊥ };

    /// Nor does it find that a trace satisfies its AIR.
    ghost satisfies_none: { (air : Self) (input : List ℕ) → proved air input Finding.Satisfied
        → ⊥ };

    /// Nor does it show anything.
    ghost shows_none: { (air : Self) (input : List ℕ) (f : Finding) → proved air input f → IsText f
        → ⊥ };
}

impl ProvedInput for SampleAir {
    ghost proved = { λ air input f. IsProvedRead
        (⟦<ProgramConfig<Sha256Challenger<F12289>> as StarkOperations>⟧.operations)
        (⟦<ProgramConfig<ScriptChallenger<F12289>> as StarkOperations>⟧.operations)
        (⟦<Extension as ExtensionField<F12289>>⟧.coordinates) 2 clear_pcs (replicate 32 0)
        (λ numbers. (numbers, 0)) (sample air) (trace_numbers_in input) f };

    ghost proof_line = { λ air input line. IsProofOfRead
        (⟦<ProgramConfig<Sha256Challenger<F12289>> as StarkOperations>⟧.operations)
        (⟦<ProgramConfig<ScriptChallenger<F12289>> as StarkOperations>⟧.operations)
        (⟦<Extension as ExtensionField<F12289>>⟧.coordinates) 2 clear_pcs (replicate 32 0)
        (λ numbers. (numbers, 0)) (sample air) (trace_numbers_in input) line };

    ghost finds_proofs = { λ air input f finds. proved_line
        (⟦<ProgramConfig<Sha256Challenger<F12289>> as StarkOperations>⟧.operations)
        (⟦<ProgramConfig<ScriptChallenger<F12289>> as StarkOperations>⟧.operations)
        (⟦<Extension as ExtensionField<F12289>>⟧.coordinates) 2 clear_pcs (replicate 32 0)
        (λ numbers. (numbers, 0)) (sample air) (trace_numbers_in input) f finds };

    ghost begins = { λ air input f finds. proved_begins
        (⟦<ProgramConfig<Sha256Challenger<F12289>> as StarkOperations>⟧.operations)
        (⟦<ProgramConfig<ScriptChallenger<F12289>> as StarkOperations>⟧.operations)
        (⟦<Extension as ExtensionField<F12289>>⟧.coordinates) 2 clear_pcs (replicate 32 0)
        (λ numbers. (numbers, 0)) (sample air) (trace_numbers_in input) f finds };

    ghost accepts_none = { λ air input finds. proved_accepts_none
        (⟦<ProgramConfig<Sha256Challenger<F12289>> as StarkOperations>⟧.operations)
        (⟦<ProgramConfig<ScriptChallenger<F12289>> as StarkOperations>⟧.operations)
        (⟦<Extension as ExtensionField<F12289>>⟧.coordinates) 2 clear_pcs (replicate 32 0)
        (λ numbers. (numbers, 0)) (sample air) (trace_numbers_in input) finds };

    ghost satisfies_none = { λ air input finds. proved_satisfies_none
        (⟦<ProgramConfig<Sha256Challenger<F12289>> as StarkOperations>⟧.operations)
        (⟦<ProgramConfig<ScriptChallenger<F12289>> as StarkOperations>⟧.operations)
        (⟦<Extension as ExtensionField<F12289>>⟧.coordinates) 2 clear_pcs (replicate 32 0)
        (λ numbers. (numbers, 0)) (sample air) (trace_numbers_in input) finds };

    ghost shows_none = { λ air input f finds is. proved_no_text
        (⟦<ProgramConfig<Sha256Challenger<F12289>> as StarkOperations>⟧.operations)
        (⟦<ProgramConfig<ScriptChallenger<F12289>> as StarkOperations>⟧.operations)
        (⟦<Extension as ExtensionField<F12289>>⟧.coordinates) 2 clear_pcs (replicate 32 0)
        (λ numbers. (numbers, 0)) (sample air) (trace_numbers_in input) f finds is };
}

/// The answer with the scheme in the clear that stops nowhere, over any field and extension, as
/// `equation_over` is and for its reason.
fn prove_in_the_clear<F, EF, C, A>(
    alloc: Global,
    config: &ClearConfig<F, EF, C>,
    air: &A,
    log_rows: usize,
    trace: RowMajorMatrix<F>,
    public_values: &[F],
) -> Result<Proof<ClearCommitment<F>, EF, ClearProof, F>, ProvingError<ClearProverError>>
where
    F: PrimeField64 + TwoAdicField + PackedField,
    EF: PackedExtensionField<F>,
    C: StarkChallenger<F, EF, ClearCommitment<F>>,
    A: Air<F>,
    requires fitting { IsTraceFor (A.layout air.now) log_rows
        (trace_of trace) (length public_values.now) 0 F.TWO_ADICITY }
    requires height { HasHeight log_rows (A.preprocessed_trace air.now) }
    requires within { log_rows ≤ F.TWO_ADICITY }
    requires stops_nowhere { config.now.pcs ≡ clear_pcs }
    ensures { ⟦<ClearConfig<F, EF, C> as AnswersWithColumns<A>>⟧.proves log_rows config.now air.now
        trace public_values.now result }
{
    prove_with_own_columns(alloc, config, air, log_rows, trace, public_values)
}

/// What is written of a trace's proof, with a challenger in its first state, and so many bits of
/// work before the point out of the domain and before alpha.
fn prove_trace<C, A>(
    alloc: Global,
    air: &A,
    log_rows: usize,
    challenger: C,
    trace: RowMajorMatrix<F12289>,
    public_values: &[F12289],
    ood_bits: usize,
    alpha_bits: usize,
) -> Report<Finding>
where
    C: StarkChallenger<F12289, Extension, ClearCommitment<F12289>>,
    A: Air<F12289>,
    requires fitting { IsTraceFor (A.layout air.now) log_rows
        (trace_of trace) (length public_values.now) 0 12 }
    requires height { HasHeight log_rows (A.preprocessed_trace air.now) }
    requires within { log_rows ≤ 12 }
    ensures { ⟦<C as ProgramRun<A>>⟧.finds log_rows challenger air.now trace public_values.now
        ood_bits alpha_bits result.answer }
{
    let config: ProgramConfig<C> = clear_config(challenger, ood_bits, alpha_bits);
    let answer = prove_in_the_clear(alloc, &config, air, log_rows, trace, public_values);
    Report {
        answer: finding_of_proof(alloc, ProofForm::Json, &answer),
        reason: words_of_failure(alloc, &answer),
    }
}

/// What a prover finds with the challenger that is named; the one that hashes begins with the state
/// that is handed in.
fn prove_by<A: Air<F12289>>(
    alloc: Global,
    air: &A,
    log_rows: usize,
    challenger: ChosenChallenger,
    sha256: Sha256Challenger<F12289>,
    trace: RowMajorMatrix<F12289>,
    public_values: &[F12289],
    ood_bits: usize,
    alpha_bits: usize,
) -> Report<Finding>
    requires fitting { IsTraceFor (A.layout air.now) log_rows
        (trace_of trace) (length public_values.now) 0 12 }
    requires height { HasHeight log_rows (A.preprocessed_trace air.now) }
    requires within { log_rows ≤ 12 }
    requires some { HasSomeNumber challenger }
    ensures { ⟦<A as ProgramAir>⟧.finds log_rows sha256 air.now trace public_values.now ood_bits
        alpha_bits (named_challenger challenger) result.answer }
{
    match challenger {
        ChosenChallenger::Sha256 => prove_trace(
            alloc,
            air,
            log_rows,
            sha256,
            trace,
            public_values,
            ood_bits,
            alpha_bits,
        ),
        ChosenChallenger::Script(numbers) => {
            let script = ScriptChallenger::new(numbers);
            prove_trace(
                alloc,
                air,
                log_rows,
                script,
                trace,
                public_values,
                ood_bits,
                alpha_bits,
            )
        }
    }
}

/// What is written of the proof of a trace that was read: `bad input` where it isn't one of the
/// AIR's widths and counts.
fn prove_read<A: Air<F12289>>(
    alloc: Global,
    air: &A,
    log_rows: usize,
    shape: CheckShape,
    sha256: Sha256Challenger<F12289>,
    input: TraceInput,
) -> Report<Finding>
    requires height { HasHeight log_rows (A.preprocessed_trace air.now) }
    requires within { log_rows ≤ 12 }
    requires columns { 0 < (A.layout air.now).main }
    requires some { HasSomeNumber input.challenger }
    requires shape { shape ≡ shape_of (⟦<A as DeclaredAir<F12289>>⟧.declared air.now) }
    ensures { ⟦<A as ProgramAir>⟧.finds_of_read log_rows sha256 air.now
        (Some (trace_numbers input)) result.answer }
{
    let Some(_log_height) = input.log_height(shape, log_rows) else {
        return Report::unfit_trace(alloc).as_finding();
    };
    let TraceInput {
        rows,
        public_values,
        challenger,
        ood_bits,
        alpha_bits,
    } = input;
    let Ok(values) = values_of(alloc, &rows) else {
        return Report::no_memory().as_finding();
    };
    let trace = RowMajorMatrix::new(values, shape.width);
    prove_by(
        alloc,
        air,
        log_rows,
        challenger,
        sha256,
        trace,
        &public_values,
        ood_bits,
        alpha_bits,
    )
}

/// What is written for the bytes of an input, for an AIR that has main columns, and whose
/// preprocessed columns have `2^log_rows` rows.
#[tactic(auto, unfolding(crate::specs::Prove::IsProvedRead))]
fn prove_input<A: Air<F12289>>(alloc: Global, air: &A, log_rows: usize, bytes: &[u8]) -> Finding
    requires height { HasHeight log_rows (A.preprocessed_trace air.now) }
    requires within { log_rows ≤ 12 }
    requires columns { 0 < (A.layout air.now).main }
    ensures { ⟦<A as ProgramAir>⟧.finds_of_read log_rows (replicate 32 0) air.now
        (trace_numbers_in bytes.now) result }
{
    let Ok(shape) = CheckShape::from_air::<F12289, A>(alloc, air) else {
        return Finding::Verdict(Verdict::Refused(Refusal::OutOfMemory));
    };
    match trace_input_from(alloc, bytes) {
        Ok(input) => prove_read(alloc, air, log_rows, shape, Sha256Challenger::new(), input).answer,
        Err(JsonFault::Invalid) => Finding::Verdict(Verdict::BadInput),
        Err(JsonFault::OutOfMemory) => Finding::Verdict(Verdict::Refused(Refusal::OutOfMemory)),
    }
}

/// What a sample AIR's prover writes for the bytes of an input: `bad input` where they spell no
/// trace of the AIR.
pub fn prove_sample(alloc: Global, air: SampleAir, bytes: &[u8]) -> Finding
    ensures { ⟦<SampleAir as ProvedInput>⟧.proved air bytes.now result
        ⊎ (result ≡ Finding.Verdict (Verdict.Refused Refusal.OutOfMemory)) }
{
    match sample_air(alloc, air) {
        Ok(sample) => prove_input(alloc, &sample, 2, bytes),
        Err(AllocError) => Finding::Verdict(Verdict::Refused(Refusal::OutOfMemory)),
    }
}
