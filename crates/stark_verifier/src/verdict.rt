//! The verifier: what it is asked, in which order it tests, and what its verdict says.
ghost use Rattle.std.specs.Option.{option_copied};
ghost use Rattle.std.specs.Prelude.{None, OnOk};
ghost use Rattle.stark_transcript.specs.declared.error.VerificationError.{VerificationError};
ghost use Rattle.stark_protocol.specs.Acceptance.{Accepted};
ghost use Rattle.stark_protocol.specs.FirstFault.{FirstFault};
ghost use Rattle.stark_verifier.specs.Given.{OfArguments, of_arguments};
ghost use Rattle.stark_verifier.specs.MemoryAside.{IfErrMemoryAside};
ghost use Rattle.stark_verifier.specs.SoundAcceptance.{BreakingNeedsBadChallenges};

use crate::equation::check_equation;
use crate::instance::VerifierInstance;
use crate::shape::check_shape;
use crate::transcript::replay_transcript;
use stark_air::Air;
use stark_parts::{Com, PcsError, StarkGenericConfig, Val};
use stark_protocol::{PreprocessedVerifierKey, StarkInstance, StarkOperations, StarkProof};
use stark_support::GrindingChallenger;
use stark_transcript::VerificationError;
use std::alloc::Global;

/// What a verdict on a proof says, with a configuration, for an AIR, with public values and a key:
/// whether the proof is accepted, what an accepted proof says of the columns, which errors name the
/// first fault.
pub trait StarkVerdict<A>: StarkGenericConfig {
    ghost accepted: { OfArguments Self A Self.Pcs.Commitment Self.Challenge Self.Pcs.Proof
        Self.Pcs.Domain.Val (Type 0) };

    ghost sound: { OfArguments Self A Self.Pcs.Commitment Self.Challenge Self.Pcs.Proof
        Self.Pcs.Domain.Val (Type 0) };

    ghost first_fault: { OfArguments Self A Self.Pcs.Commitment Self.Challenge Self.Pcs.Proof
        Self.Pcs.Domain.Val (VerificationError Self.Pcs.Error → Type 0) };
}

impl<SC: StarkGenericConfig, A: Air<Val<SC>>> StarkVerdict<A> for SC
where
    SC::Challenger: GrindingChallenger<Witness = Val<SC>>,
{
    ghost accepted = { of_arguments (Accepted ⟦<SC as StarkOperations>⟧.operations)
        ⟦<SC as StarkInstance<A>>⟧.instance };

    ghost sound = { of_arguments (BreakingNeedsBadChallenges ⟦<SC as StarkOperations>⟧.operations)
        ⟦<SC as StarkInstance<A>>⟧.instance };

    ghost first_fault = { of_arguments (FirstFault ⟦<SC as StarkOperations>⟧.operations)
        ⟦<SC as StarkInstance<A>>⟧.instance };
}

/// Whether a proof is one for the AIR with these public values, where `key` is the key of the
/// preprocessed columns, None for an AIR without them. Nothing is asked of proof, public values and
/// key: the answer is Ok exactly where the proof is accepted, and else the error of the first
/// fault. The tests are made in this order:
///
/// - the degree bits (`DegreeBitsTooSmall`, `DegreeBitsTooLarge`);
/// - the preprocessed rows, for the key's width where a key is given and else the AIR's
///   (`UnexpectedPreprocessedValues`, `PreprocessedTraceWidthMismatch`,
///   `UnexpectedPreprocessedNext`); the key's width (`PreprocessedVerifierKeyInconsistency`) and
///   height (`PreprocessedDegreeMismatch`);
/// - the size of the quotient's domain (`QuotientDomainTooLarge`);
/// - the random commitment and its opening, which are there exactly in zero knowledge
///   (`RandomizationError`);
/// - the number of public values (`PublicValuesLengthMismatch`), the next row (`TraceNextMismatch`,
///   `UnexpectedTraceNext`), the other rows' and the chunks' lengths
///   (`OpenedValuesDimensionMismatch`), and a witness that isn't zero where no work is asked for
///   (`NonCanonicalAlphaPowWitness` for the one before alpha, then `NonCanonicalOodPowWitness`);
/// - the work before alpha (`InvalidAlphaPowWitness`), that before zeta (`InvalidOodPowWitness`),
///   the sampled point, which lies outside the trace's domain (`OodPointInDomain`), the periodic
///   columns (`PeriodicColumn`), the openings (`InvalidOpeningArgument`);
/// - the equation (`OodEvaluationMismatch`).
///
/// `OutOfMemory` may come at any of them, only where memory was refused.
pub fn verify_with_preprocessed<SC: StarkGenericConfig, A: Air<Val<SC>>>(
    alloc: Global,
    config: &SC,
    air: &A,
    proof: &StarkProof<SC>,
    public_values: &[Val<SC>],
    key: Option<&PreprocessedVerifierKey<Com<SC>>>,
) -> Result<(), VerificationError<PcsError<SC>>>
where
    SC::Challenger: GrindingChallenger<Witness = Val<SC>>,
    ensures accepted { OnOk result (⟦<SC as StarkVerdict<A>>⟧.accepted config.now air.now proof.now
        public_values.now (option_copied key.entry)) }
    ensures sound { OnOk result (⟦<SC as StarkVerdict<A>>⟧.sound config.now air.now proof.now
        public_values.now (option_copied key.entry)) }
    ensures refused { IfErrMemoryAside result (⟦<SC as StarkVerdict<A>>⟧.first_fault config.now
        air.now proof.now public_values.now (option_copied key.entry)) }
    ensures exact { IfErrMemoryAside result (λ _. ¬ ⟦<SC as StarkVerdict<A>>⟧.accepted config.now
        air.now proof.now public_values.now (option_copied key.entry)) }
{
    let on = VerifierInstance {
        config,
        air,
        proof,
        public_values,
        key,
    };
    // The shape first: once it is past, all sizes that are computed with below have been held
    // against the AIR and the configuration. A verifier without it would let a proof leave out a
    // row, or bring one that no claim covers, whose values the prover could choose knowing zeta.
    let domains = check_shape(alloc, &on)?;
    // Alpha and zeta are no part of a proof: they are drawn again, each from a transcript of all
    // that the prover sent before it. Then the scheme says whether the opened values are those of
    // the committed polynomials at zeta. Without it any numbers that solve the equation would do.
    let point = replay_transcript(alloc, &on, domains)?;
    // The equation last, the one test that reads the constraints. One point stands for all rows
    // only because both of its sides were fixed before that point was drawn.
    check_equation(alloc, &on, domains, &point)?;
    Ok(())
}

/// Whether a proof is one for an AIR without preprocessed columns: `verify_with_preprocessed`
/// without a key.
pub fn verify<'p, SC: StarkGenericConfig, A: Air<Val<SC>>>(
    alloc: Global,
    config: &SC,
    air: &A,
    proof: &'p StarkProof<SC>,
    public_values: &[Val<SC>],
) -> Result<(), VerificationError<PcsError<SC>>>
where
    SC::Challenger: GrindingChallenger<Witness = Val<SC>>,
    ensures accepted { OnOk result (⟦<SC as StarkVerdict<A>>⟧.accepted config.now air.now proof.now
        public_values.now None) }
    ensures sound { OnOk result (⟦<SC as StarkVerdict<A>>⟧.sound config.now air.now proof.now
        public_values.now None) }
    ensures refused { IfErrMemoryAside result (⟦<SC as StarkVerdict<A>>⟧.first_fault config.now
        air.now proof.now public_values.now None) }
    ensures exact { IfErrMemoryAside result (λ _. ¬ ⟦<SC as StarkVerdict<A>>⟧.accepted config.now
        air.now proof.now public_values.now None) }
{
    let key: Option<&'p PreprocessedVerifierKey<Com<SC>>> = None;
    verify_with_preprocessed(alloc, config, air, proof, public_values, key)
}
