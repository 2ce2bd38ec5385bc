//! Commitments in parts that challengers observe.
ghost use Rattle.std.specs.Prelude.{◌≡◌};
ghost use Rattle.stark_bench.specs.Challenges.{after_element, commitment_elements};
ghost use Rattle.stark_fields.specs.Residues.{residue};
ghost use Rattle.stark_support.specs.Sponge.{observed_all};
ghost use Rattle.stark_two_part.specs.InParts.{after_parts};

use crate::in_parts::InParts;
use stark_bench::{ClearCommitment, Modulus, Residue, ScriptChallenger, Sha256Challenger};
use stark_merkle::Root;
use stark_support::{CanObserve, Element, Field};

/// Takes into a challenger's state whether there are parts, as the element one or zero, and after
/// it the whole or both parts, the first one first. So a commitment in parts isn't one that is
/// whole, whatever is observed after that.
pub fn observe_parts<F: Field, K, C: CanObserve<F> + CanObserve<K>>(
    challenger: &mut C,
    value: &InParts<K>,
)
    ensures { challenger.new ≡ after_parts F.ZERO F.ONE ⟦<C as CanObserve<F>>⟧.after_observe
        ⟦<C as CanObserve<K>>⟧.after_observe challenger.old value.now }
{
    match value {
        InParts::Whole(whole) => {
            <C as CanObserve<F>>::observe(&mut *challenger, &F::ZERO);
            <C as CanObserve<K>>::observe(&mut *challenger, whole);
        }
        InParts::Parts(left, right) => {
            <C as CanObserve<F>>::observe(&mut *challenger, &F::ONE);
            <C as CanObserve<K>>::observe(&mut *challenger, left);
            <C as CanObserve<K>>::observe(&mut *challenger, right);
        }
    }
}

impl<M: Modulus, Kind> CanObserve<InParts<Root>> for Sha256Challenger<Residue<M, Kind>> {
    ghost after_observe = { after_parts ⟦<Residue<M, Kind> as Field>⟧.ZERO
        ⟦<Residue<M, Kind> as Element>⟧.ONE
        ⟦<Sha256Challenger<Residue<M, Kind>> as CanObserve<Residue<M, Kind>>>⟧.after_observe
        ⟦<Sha256Challenger<Residue<M, Kind>> as CanObserve<Root>>⟧.after_observe };

    fn observe(&mut self, value: &InParts<Root>) {
        observe_parts::<Residue<M, Kind>, Root, Sha256Challenger<Residue<M, Kind>>>(self, value);
    }
}

impl<M: Modulus, Kind> CanObserve<InParts<ClearCommitment<Residue<M, Kind>>>>
    for Sha256Challenger<Residue<M, Kind>> {
    ghost after_observe = { after_parts ⟦<Residue<M, Kind> as Field>⟧.ZERO
        ⟦<Residue<M, Kind> as Element>⟧.ONE after_element
        (λ s k. observed_all after_element (commitment_elements residue k) s) };

    fn observe(&mut self, value: &InParts<ClearCommitment<Residue<M, Kind>>>) {
        observe_parts::<
            Residue<M, Kind>,
            ClearCommitment<Residue<M, Kind>>,
            Sha256Challenger<Residue<M, Kind>>,
        >(self, value);
    }
}

/// A script's challenger hands out its list whatever it observes.
impl<M: Modulus, Kind> CanObserve<InParts<Root>> for ScriptChallenger<Residue<M, Kind>> {
    ghost after_observe = { λ s _. s };

    fn observe(&mut self, _value: &InParts<Root>) {}
}

impl<M: Modulus, Kind> CanObserve<InParts<ClearCommitment<Residue<M, Kind>>>>
    for ScriptChallenger<Residue<M, Kind>> {
    ghost after_observe = { λ s _. s };

    fn observe(&mut self, _value: &InParts<ClearCommitment<Residue<M, Kind>>>) {}
}
