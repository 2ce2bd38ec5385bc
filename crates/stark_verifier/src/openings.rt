//! The opening argument at the sampled point.
ghost use Rattle.std.specs.Prelude.{◌≡◌};
ghost use Rattle.stark_transcript.specs.declared.shape.TranscriptPhase.TheVariants.{Delegated, Drawn};
ghost use Rattle.stark_verifier.specs.Rounds.{IsSchemeVerdict};

use crate::claims::{claims_of, preprocessed_place};
use crate::contracts::StarkChecks;
use crate::instance::InstanceOf;
use crate::shape::ProofDomains;
use stark_air::Air;
use stark_parts::{Com, Domain, PcsError, StarkGenericConfig, Val};
use stark_protocol::{PreprocessedVerifierKey, StarkProof};
use stark_support::{GrindingChallenger, Pcs, PolynomialSpace, SchemeFault, UnivariateStarkPcs};
use stark_transcript::{StarkVerifierTranscript, VerificationError};
use std::alloc::Global;

/// The scheme's answer to a proof's claims at zeta and at the next row's point.
fn ask_scheme<SC: StarkGenericConfig>(
    alloc: Global,
    pcs: &SC::Pcs,
    committed: Domain<SC>,
    key: Option<&PreprocessedVerifierKey<Com<SC>>>,
    proof: &StarkProof<SC>,
    zeta: SC::Challenge,
    next_zeta: SC::Challenge,
    challenger: &mut SC::Challenger,
) -> Result<(), SchemeFault<PcsError<SC>>>
    ensures { IsSchemeVerdict SC.Pcs.scheme SC.Pcs.ZK pcs.now (SC.Pcs.Domain.coset_of committed)
        key.entry proof.now zeta next_zeta challenger.old result }
{
    // The columns are claimed on the committed trace's domain: in zero knowledge it is twice as
    // large as the trace's own, whose next row `next_zeta` tells.
    let claims = claims_of(alloc, committed, zeta, next_zeta, key, proof)?;
    let place = preprocessed_place(SC::Pcs::ZK, key);
    pcs.verify_with_preprocessing(alloc, claims, &proof.opening_proof, challenger, place)
}

/// The opening argument, with the transcript's challenger.
pub(crate) fn check_openings<SC: StarkGenericConfig, A: Air<Val<SC>>>(
    alloc: Global,
    on: &InstanceOf<'_, SC, A>,
    domains: ProofDomains<Domain<SC>>,
    zeta: SC::Challenge,
    transcript: &mut StarkVerifierTranscript<'_, SC::Challenger, Val<SC>, SC::Challenge>,
) -> Result<(), VerificationError<PcsError<SC>>>
where
    SC::Challenger: GrindingChallenger<Witness = Val<SC>>,
    requires domains { ⟦<SC as StarkChecks<A>>⟧.are_domains on.now domains.trace domains.committed }
    requires phase { transcript.old.phase ≡ Drawn }
    ensures same_reference { transcript.new.challenger.ghost_name
        ≡ transcript.old.challenger.ghost_name }
    ensures phase { transcript.new.phase ≡ Delegated }
    ensures verdict { ⟦<SC as StarkChecks<A>>⟧.openings_verdict on.now zeta
        transcript.old.challenger.now result }
{
    // h * zeta, where h generates H: the next row as the constraints read it.
    let Some(next_zeta) = domains.trace.next_point(zeta) else {
        return Err(VerificationError::NextPointUnavailable);
    };
    let (pcs, committed, key, proof) = (on.config.pcs(), domains.committed, on.key, on.proof);
    // The scheme goes on where the transcript stands, so what it draws comes after alpha, zeta and
    // each commitment.
    let answer = transcript.delegate(
        |lent: &mut SC::Challenger| -> Result<(), SchemeFault<PcsError<SC>>>
            ensures { IsSchemeVerdict SC.Pcs.scheme SC.Pcs.ZK pcs.entry.now
                (SC.Pcs.Domain.coset_of committed) key.entry proof.entry.now zeta next_zeta
                lent.old result }
        { ask_scheme::<SC>(alloc, pcs, committed, key, proof, zeta, next_zeta, lent) },
    );
    match answer {
        Ok(()) => Ok(()),
        Err(SchemeFault::Refused(reason)) => {
            Err(VerificationError::InvalidOpeningArgument(reason))
        }
        Err(SchemeFault::OutOfMemory) => Err(VerificationError::OutOfMemory),
    }
}
