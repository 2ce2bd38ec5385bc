//! The command `verify`: a verifier's verdict on a proof that is read.

ghost use Rattle.std.specs.Prelude.{◌≡◌, ◌⊎◌, ◌≤◌, ℕ, List, replicate};
ghost use Rattle.stark_protocol.specs.Preprocessing.{HasHeight};
ghost use Rattle.stark_proof.specs.ProofView.{proof_view};
ghost use Rattle.stark_clear.specs.ClearScheme.{clear_pcs};
ghost use Rattle.stark_commands.specs.Airs.{sample};
ghost use Rattle.stark_commands.specs.ProofInput.{HasSomeNumber, named_challenger, proof_numbers_in};
ghost use Rattle.stark_commands.specs.SoundRun.{IsSoundlyRead};
ghost use Rattle.stark_commands.specs.Verify.{IsVerified};
ghost use Rattle.stark_answers.specs.declared.verdict.Verdict.{Verdict};

use crate::config::{ClearConfig, ProgramConfig, ProgramProof, clear_config};
use crate::contracts::{ProgramAir, ProgramRun};
use crate::input::Extension;
use crate::proof_input::{ChosenChallenger, ProofInput, proof_input_from};
use crate::sample::{SampleAir, sample_air};
use p3_uni_stark::{Proof, StarkOperations};
use stark_air::Air;
use stark_answers::{
    AnswersWithColumns, Refusal, Report, Verdict, verdict_of, verify_with_key, words_of_refusal,
};
use stark_bench::{ClearCommitment, F12289, ScriptChallenger, Sha256Challenger};
use stark_clear::{ClearError, ClearProof};
use stark_parts::StarkChallenger;
use stark_support::{ExtensionField, JsonCodec, JsonFault, PrimeField64, TwoAdicField};
use stark_transcript::VerificationError;
use std::alloc::{AllocError, Global};

/// What a verifier finds of the bytes of an input, by the verifier's own acceptance, and that the
/// columns which the proof in them lists break no constraint, unless a challenge is bad. It has no
/// code.
pub trait VerifiedInput {
    ghost verified: { Self → List ℕ → Verdict → Type 0 };

    ghost sound: { Self → List ℕ → Type 0 };
}

impl VerifiedInput for SampleAir {
    ghost verified = { λ air input v. IsVerified
        (⟦<ProgramConfig<Sha256Challenger<F12289>> as StarkOperations>⟧.operations)
        (⟦<ProgramConfig<ScriptChallenger<F12289>> as StarkOperations>⟧.operations)
        2 clear_pcs (replicate 32 0) (λ numbers. (numbers, 0)) (sample air)
        (proof_numbers_in (⟦<ClearCommitment<F12289> as JsonCodec>⟧.reading)
        (⟦<ClearProof as JsonCodec>⟧.reading) input) v };

    ghost sound = { λ air input. IsSoundlyRead
        (⟦<ProgramConfig<Sha256Challenger<F12289>> as StarkOperations>⟧.operations)
        (⟦<ProgramConfig<ScriptChallenger<F12289>> as StarkOperations>⟧.operations)
        2 clear_pcs (replicate 32 0) (λ numbers. (numbers, 0)) (sample air)
        (proof_numbers_in (⟦<ClearCommitment<F12289> as JsonCodec>⟧.reading)
        (⟦<ClearProof as JsonCodec>⟧.reading) input) };
}

/// The answer with the scheme in the clear that stops nowhere, over any field and extension, as
/// `equation_over` is and for its reason.
fn verify_in_the_clear<F, EF, C, A>(
    alloc: Global,
    config: &ClearConfig<F, EF, C>,
    air: &A,
    log_rows: usize,
    proof: &Proof<ClearCommitment<F>, EF, ClearProof, F>,
    public_values: &[F],
) -> Result<(), VerificationError<ClearError>>
where
    F: PrimeField64 + TwoAdicField,
    EF: ExtensionField<F>,
    C: StarkChallenger<F, EF, ClearCommitment<F>>,
    A: Air<F>,
    requires height { HasHeight log_rows (A.preprocessed_trace air.now) }
    requires within { log_rows ≤ F.TWO_ADICITY }
    requires stops_nowhere { config.now.pcs ≡ clear_pcs }
    ensures { ⟦<ClearConfig<F, EF, C> as AnswersWithColumns<A>>⟧.verifies log_rows config.now
        air.now proof.now public_values.now result }
{
    verify_with_key(alloc, config, air, log_rows, proof, public_values)
}

/// What the verifier answers for a proof, with a challenger in its first state, and so many bits of
/// work before the point out of the domain and before alpha; and in words what a proof is refused
/// for.
fn verify_proof<C, A>(
    alloc: Global,
    air: &A,
    log_rows: usize,
    challenger: C,
    proof: &ProgramProof,
    public_values: &[F12289],
    ood_bits: usize,
    alpha_bits: usize,
) -> Report<Verdict>
where
    C: StarkChallenger<F12289, Extension, ClearCommitment<F12289>>,
    A: Air<F12289>,
    requires height { HasHeight log_rows (A.preprocessed_trace air.now) }
    requires within { log_rows ≤ 12 }
    ensures { ⟦<C as ProgramRun<A>>⟧.judges log_rows challenger air.now (proof_view proof.now)
        public_values.now ood_bits alpha_bits result.answer }
{
    let config: ProgramConfig<C> = clear_config(challenger, ood_bits, alpha_bits);
    let answer = verify_in_the_clear(alloc, &config, air, log_rows, proof, public_values);
    Report {
        answer: verdict_of(&answer),
        reason: words_of_refusal(alloc, &answer),
    }
}

/// The verdict with the challenger that is named.
fn verify_by<A: Air<F12289>>(
    alloc: Global,
    air: &A,
    log_rows: usize,
    challenger: ChosenChallenger,
    proof: &ProgramProof,
    public_values: &[F12289],
    ood_bits: usize,
    alpha_bits: usize,
) -> Verdict
    requires height { HasHeight log_rows (A.preprocessed_trace air.now) }
    requires within { log_rows ≤ 12 }
    requires some { HasSomeNumber challenger }
    ensures { ⟦<A as ProgramAir>⟧.judges log_rows air.now (proof_view proof.now) public_values.now
        (named_challenger challenger) ood_bits alpha_bits result }
{
    match challenger {
        ChosenChallenger::Sha256 => {
            let sha256 = Sha256Challenger::new();
            verify_proof(
                alloc,
                air,
                log_rows,
                sha256,
                proof,
                public_values,
                ood_bits,
                alpha_bits,
            )
            .answer
        }
        ChosenChallenger::Script(numbers) => {
            let script = ScriptChallenger::new(numbers);
            verify_proof(
                alloc,
                air,
                log_rows,
                script,
                proof,
                public_values,
                ood_bits,
                alpha_bits,
            )
            .answer
        }
    }
}

/// The verdict on the bytes of an input, for an AIR whose preprocessed columns have `2^log_rows`
/// rows.
#[tactic(auto, unfolding(crate::specs::Verify::IsVerified))]
fn verify_input<A: Air<F12289>>(alloc: Global, air: &A, log_rows: usize, bytes: &[u8]) -> Verdict
    requires height { HasHeight log_rows (A.preprocessed_trace air.now) }
    requires within { log_rows ≤ 12 }
    ensures { ⟦<A as ProgramAir>⟧.judges_bytes log_rows air.now bytes.now result }
{
    match proof_input_from::<ClearCommitment<F12289>, ClearProof>(alloc, bytes) {
        Ok(input) => {
            let ProofInput {
                proof,
                public_values,
                challenger,
                ood_bits,
                alpha_bits,
            } = input;
            verify_by(
                alloc,
                air,
                log_rows,
                challenger,
                &proof,
                &public_values,
                ood_bits,
                alpha_bits,
            )
        }
        Err(JsonFault::Invalid) => Verdict::BadInput,
        Err(JsonFault::OutOfMemory) => Verdict::Refused(Refusal::OutOfMemory),
    }
}

/// The verdict of a sample AIR's verifier on the bytes of an input: `bad input` where they spell no
/// proof.
pub fn verify_sample(alloc: Global, air: SampleAir, bytes: &[u8]) -> Verdict
    ensures verified { ⟦<SampleAir as VerifiedInput>⟧.verified air bytes.now result
        ⊎ (result ≡ Verdict.Refused Refusal.OutOfMemory) }
    ensures sound { result ≡ Verdict.Accepted → ⟦<SampleAir as VerifiedInput>⟧.sound air bytes.now }
{
    match sample_air(alloc, air) {
        Ok(sample) => verify_input(alloc, &sample, 2, bytes),
        Err(AllocError) => Verdict::Refused(Refusal::OutOfMemory),
    }
}
