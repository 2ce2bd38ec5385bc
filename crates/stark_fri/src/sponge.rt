//! The calls of a challenger that the transcript makes, in records.
ghost use Rattle.stark_fri.specs.Parts.{FriOps, ObservingCalls, SpongeCalls};

use crate::fields::FoldingFields;
use stark_merkle::{Root, TreeHash};
use stark_support::{
    CanObserve, CanSample, CanSampleBits, ExtensionField, GrindingChallenger, PrimeField64,
    TwoAdicField,
};

/// A challenger that elements of a field and roots are observed into, and that elements of an
/// extension, places and work are drawn from. Every type with these traits has the name.
pub trait FriChallenger<F: PrimeField64, EF: ExtensionField<F>>: CanObserve<F>
    + CanObserve<Root>
    + CanSample<EF>
    + CanSampleBits<usize>
    + GrindingChallenger<Witness = F> {}

impl<F, EF, C> FriChallenger<F, EF> for C
where
    F: PrimeField64,
    EF: ExtensionField<F>,
    C: CanObserve<F>
        + CanObserve<Root>
        + CanSample<EF>
        + CanSampleBits<usize>
        + GrindingChallenger<Witness = F>,
{}

/// What is done to a challenger that elements of a field and roots are observed into.
pub trait FriObserving<F, EF> {
    ghost observing: { ObservingCalls Self F EF };
}

impl<F, EF, C> FriObserving<F, EF> for C
where
    F: PrimeField64,
    EF: ExtensionField<F>,
    C: CanObserve<F> + CanObserve<Root>,
{
    ghost observing = { record {
      from_byte = F.of_number;
      coordinates = EF.coordinates;
      observe_element = ⟦<C as CanObserve<F>>⟧.after_observe;
      observe_root = ⟦<C as CanObserve<Root>>⟧.after_observe;
    } };
}

/// What is done to one that elements of an extension, places and work are drawn from, too.
pub trait FriSponge<F, EF> {
    ghost sponge_calls: { SpongeCalls Self F EF };
}

impl<F, EF, C> FriSponge<F, EF> for C
where
    F: PrimeField64,
    EF: ExtensionField<F>,
    C: FriChallenger<F, EF>,
{
    ghost sponge_calls = { record {
      zero = F.ring.zero;
      observing = ⟦<C as FriObserving<F, EF>>⟧.observing;
      draw = ⟦<C as CanSample<EF>>⟧.sample_of;
      after_draw = ⟦<C as CanSample<EF>>⟧.after_sample;
      bits_of = ⟦<C as CanSampleBits<usize>>⟧.bits_of;
      after_bits = ⟦<C as CanSampleBits<usize>>⟧.after_bits;
      passes = ⟦<C as GrindingChallenger>⟧.passes;
      after_check = ⟦<C as GrindingChallenger>⟧.after_check;
    } };
}

/// The fields, the hash of the trees and the challenger.
pub trait FriCalls<F, EF, H> {
    ghost fri_ops: { FriOps Self F EF };
}

impl<F, EF, H, C> FriCalls<F, EF, H> for C
where
    F: TwoAdicField + PrimeField64,
    EF: ExtensionField<F>,
    H: TreeHash,
    C: FriChallenger<F, EF>,
{
    ghost fri_ops = { record {
      fields = ⟦<EF as FoldingFields<F>>⟧.folding;
      hash = H.digests;
      sponge = ⟦<C as FriSponge<F, EF>>⟧.sponge_calls;
    } };
}
