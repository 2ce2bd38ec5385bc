//! The words of the verifier's clauses, of a configuration's types and of what a verifier is given.
ghost use Rattle.std.specs.Prelude.{ℕ, List, Option, Result};
ghost use Rattle.stark_transcript.specs.Replay.{PhaseOutcome};
ghost use Rattle.stark_transcript.specs.declared.error.InvalidProofShapeError.{InvalidProofShapeError};
ghost use Rattle.stark_transcript.specs.declared.error.VerificationError.{VerificationError};
ghost use Rattle.stark_transcript.specs.declared.shape.StarkShape.{StarkShape};
ghost use Rattle.stark_transcript.specs.declared.shape.StarkTranscriptFailure.{StarkTranscriptFailure};
ghost use Rattle.stark_transcript.specs.declared.shape.TranscriptPhase.{TranscriptPhase};
ghost use Rattle.stark_protocol.specs.Acceptance.{IsBalanced, RunHolds, challenges, described, domain_fault, height_fault, key_fault, shape_fault, values_fault};
ghost use Rattle.stark_protocol.specs.FirstFault.{RunFault};
ghost use Rattle.stark_verifier.specs.Checks.{AreDomains, IsOpened, IsOpeningsVerdict, IsPointFault, IsQuotient, IsSampled, IsShaped, expected_openings, log_chunks};
ghost use Rattle.stark_verifier.specs.Given.{of_given};
ghost use Rattle.stark_verifier.specs.KeySizes.{fault_beside, rows_fault, sizes_fault};
ghost use Rattle.stark_verifier.specs.declared.instance.VerifierInstance.{VerifierInstance};
ghost use Rattle.stark_verifier.specs.declared.key_size.KeySize.{KeySize};
ghost use Rattle.stark_verifier.specs.declared.opened.ExpectedOpenings.{ExpectedOpenings};
ghost use Rattle.stark_verifier.specs.declared.shape.ProofDomains.{ProofDomains};

use stark_air::Air;
use stark_parts::{StarkGenericConfig, Val};
use stark_protocol::{StarkInstance, StarkOperations};
use stark_support::GrindingChallenger;

/// What the stages of a verifier find of what it is given, and what each leaves to the next.
pub(crate) trait StarkChecks<A>: StarkGenericConfig {
    // What a verifier is given.
    ghost Given: { Type 0 };

    // The shape: the fault that each test may find, and the first of them.
    ghost height_fault: { Given → Option InvalidProofShapeError };

    ghost key_fault: { Given → Option InvalidProofShapeError };

    ghost domain_fault: { Given → Option InvalidProofShapeError };

    ghost values_fault: { Given → Option InvalidProofShapeError };

    ghost sizes_fault: { Given → Option (VerificationError Self.Pcs.Error) };

    ghost shape_fault: { Given → Option (VerificationError Self.Pcs.Error) };

    // The same beside a key of which the size alone is known.
    ghost rows_fault: { Given → Option KeySize → Option InvalidProofShapeError };

    ghost fault_beside: { Given → Option KeySize → Option (VerificationError Self.Pcs.Error) };

    // The domains and numbers that are found on the way, and what a proof without a fault has.
    ghost are_domains: { Given → Self.Pcs.Domain → Self.Pcs.Domain → Type 0 };

    ghost is_quotient: { Given → Self.Pcs.Domain → ℕ → Type 0 };

    ghost log_chunks: { Given → ℕ };

    ghost expected_openings: { Given → ℕ → ExpectedOpenings };

    ghost is_shaped: { Given → ProofDomains Self.Pcs.Domain → Type 0 };

    // The transcript: its shape, its beginning, and what is drawn.
    ghost described: { Given → StarkShape };

    ghost is_opened: { Given → TranscriptPhase → StarkShape → Self.Challenger → Type 0 };

    ghost challenges: { Given
        → PhaseOutcome Self.Challenger (Self.Challenge × Self.Challenge) StarkTranscriptFailure };

    // The point, the openings, and the run of both.
    ghost point_fault: { Given → Self.Challenge → VerificationError Self.Pcs.Error → Type 0 };

    ghost is_sampled: { Given → ProofDomains Self.Pcs.Domain → Self.Challenge
        → List Self.Challenge → Type 0 };

    ghost openings_verdict: { Given → Self.Challenge → Self.Challenger
        → Result (Unit {0}) (VerificationError Self.Pcs.Error) → Type 0 };

    ghost run_holds: { Given → Self.Challenge → Self.Challenge → Type 0 };

    ghost run_fault: { Given → VerificationError Self.Pcs.Error → Type 0 };

    // The equation.
    ghost balanced: { Given → Self.Challenge → Self.Challenge → Type 0 };
}

impl<SC: StarkGenericConfig, A: Air<Val<SC>>> StarkChecks<A> for SC
where
    SC::Challenger: GrindingChallenger<Witness = Val<SC>>,
{
    ghost Given = { VerifierInstance SC A SC.Pcs.Commitment SC.Challenge SC.Pcs.Proof
        SC.Pcs.Domain.Val };

    ghost height_fault = { of_given (height_fault ⟦<SC as StarkOperations>⟧.operations)
        ⟦<SC as StarkInstance<A>>⟧.instance };

    ghost key_fault = { of_given (key_fault ⟦<SC as StarkOperations>⟧.operations)
        ⟦<SC as StarkInstance<A>>⟧.instance };

    ghost domain_fault = { of_given (domain_fault ⟦<SC as StarkOperations>⟧.operations)
        ⟦<SC as StarkInstance<A>>⟧.instance };

    ghost values_fault = { of_given (values_fault ⟦<SC as StarkOperations>⟧.operations)
        ⟦<SC as StarkInstance<A>>⟧.instance };

    ghost sizes_fault = { of_given (sizes_fault ⟦<SC as StarkOperations>⟧.operations)
        ⟦<SC as StarkInstance<A>>⟧.instance };

    ghost shape_fault = { of_given (shape_fault ⟦<SC as StarkOperations>⟧.operations)
        ⟦<SC as StarkInstance<A>>⟧.instance };

    ghost rows_fault = { of_given (rows_fault ⟦<SC as StarkOperations>⟧.operations)
        ⟦<SC as StarkInstance<A>>⟧.instance };

    ghost fault_beside = { of_given (fault_beside ⟦<SC as StarkOperations>⟧.operations)
        ⟦<SC as StarkInstance<A>>⟧.instance };

    ghost are_domains = { of_given
        (AreDomains ⟦<SC as StarkOperations>⟧.operations SC.Pcs.Domain.coset_of)
        ⟦<SC as StarkInstance<A>>⟧.instance };

    ghost is_quotient = { of_given
        (IsQuotient ⟦<SC as StarkOperations>⟧.operations SC.Pcs.Domain.coset_of)
        ⟦<SC as StarkInstance<A>>⟧.instance };

    ghost log_chunks = { of_given (log_chunks ⟦<SC as StarkOperations>⟧.operations)
        ⟦<SC as StarkInstance<A>>⟧.instance };

    ghost expected_openings = { of_given (expected_openings ⟦<SC as StarkOperations>⟧.operations)
        ⟦<SC as StarkInstance<A>>⟧.instance };

    ghost is_shaped = { of_given
        (IsShaped ⟦<SC as StarkOperations>⟧.operations SC.Pcs.Domain.coset_of)
        ⟦<SC as StarkInstance<A>>⟧.instance };

    ghost described = { of_given (described ⟦<SC as StarkOperations>⟧.operations)
        ⟦<SC as StarkInstance<A>>⟧.instance };

    ghost is_opened = { of_given (IsOpened ⟦<SC as StarkOperations>⟧.operations)
        ⟦<SC as StarkInstance<A>>⟧.instance };

    ghost challenges = { of_given (challenges ⟦<SC as StarkOperations>⟧.operations)
        ⟦<SC as StarkInstance<A>>⟧.instance };

    ghost point_fault = { of_given (IsPointFault ⟦<SC as StarkOperations>⟧.operations)
        ⟦<SC as StarkInstance<A>>⟧.instance };

    ghost is_sampled = { of_given
        (IsSampled ⟦<SC as StarkOperations>⟧.operations SC.Pcs.Domain.coset_of)
        ⟦<SC as StarkInstance<A>>⟧.instance };

    ghost openings_verdict = { of_given (IsOpeningsVerdict ⟦<SC as StarkOperations>⟧.operations)
        ⟦<SC as StarkInstance<A>>⟧.instance };

    ghost run_holds = { of_given (RunHolds ⟦<SC as StarkOperations>⟧.operations)
        ⟦<SC as StarkInstance<A>>⟧.instance };

    ghost run_fault = { of_given (RunFault ⟦<SC as StarkOperations>⟧.operations)
        ⟦<SC as StarkInstance<A>>⟧.instance };

    ghost balanced = { of_given (IsBalanced ⟦<SC as StarkOperations>⟧.operations)
        ⟦<SC as StarkInstance<A>>⟧.instance };
}
