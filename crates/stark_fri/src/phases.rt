//! The folds' part of the transcript.
ghost use Rattle.std.specs.Prelude.{◌≡◌, ◌↔◌, IfOk, IsTrue};
ghost use Rattle.stark_fri.specs.Found.{PlaysTo};
ghost use Rattle.stark_fri.specs.Transcript.{Passes};

use crate::sponge::{FriChallenger, FriSponge};
use stark_fri_proof::Phase;
use stark_merkle::Root;
use stark_support::{CanObserve, CanSample, ExtensionField, GrindingChallenger, PrimeField64};
use std::alloc::{AllocError, Global};

/// Checks a witness of so many bits of work. Where none is asked for it has to be zero, since the
/// challenger lets any by.
pub(crate) fn witness_passes<C, F, EF>(challenger: &mut C, bits: usize, witness: F) -> bool
where
    F: PrimeField64,
    EF: ExtensionField<F>,
    C: FriChallenger<F, EF>,
    ensures answer { IsTrue result ↔
        Passes ⟦<C as FriSponge<F, EF>>⟧.sponge_calls bits (challenger.old, witness) }
    ensures state { challenger.new ≡
        ⟦<C as FriSponge<F, EF>>⟧.sponge_calls.after_check challenger.old bits witness }
{
    let passes = challenger.check_witness(bits, witness);
    if bits == 0 && witness != F::ZERO {
        return false;
    }
    passes
}

/// Plays the folds: each root is observed, its witness is checked, and a challenge is drawn.
/// Err with the first fold whose witness doesn't pass.
pub(crate) fn play_phases<C, F, EF>(
    alloc: Global,
    bits: usize,
    phases: &[Phase<F>],
    challenger: &mut C,
) -> Result<Result<Vec<EF>, usize>, AllocError>
where
    F: PrimeField64,
    EF: ExtensionField<F>,
    C: FriChallenger<F, EF>,
    ensures { IfOk result (PlaysTo ⟦<C as FriSponge<F, EF>>⟧.sponge_calls
        bits challenger.old phases.now challenger.new) }
{
    let mut betas = Vec::new(alloc);
    for i in 0..phases.len() {
        let phase = &phases[i];
        <C as CanObserve<Root>>::observe(&mut *challenger, &phase.root);
        // The witness is of the state that has taken the root: the work is done anew for each root.
        if !witness_passes::<C, F, EF>(&mut *challenger, bits, phase.witness) {
            return Ok(Err(i));
        }
        // Bound before beta: the parameters, the claims, alpha, and the roots up to this one.
        let beta = <C as CanSample<EF>>::sample(&mut *challenger);
        betas.push(beta)?;
    }
    Ok(Ok(betas))
}
