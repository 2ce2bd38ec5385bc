//! Challengers: sponges that observe what a prover sends, and draw what a verifier asks.
ghost use Rattle.std.specs.Prelude.{◌≡◌, ◌<◌, ℕ, Bool, Option, IfOk};
ghost use Rattle.stark_support.specs.Sponge.{DrawOps, SpongeOps, GrindingLaws, after_search, after_draws, observed_all, observed_bytes, DrawsInTurn};

use crate::field::{Element, ExtensionField, Field, PrimeField64};
use std::alloc::{AllocError, Global};

/// A sponge that values of a type are observed into.
pub trait CanObserve<T> {
    ghost after_observe: { Self → T → Self };

    /// Takes the value into the state.
    fn observe(&mut self, value: &T)
        ensures { self.new ≡ after_observe self.old value.now };
}

/// A sponge that values of a type are drawn from.
pub trait CanSample<T> {
    ghost sample_of: { Self → T };

    ghost after_sample: { Self → Self };

    /// The next value.
    fn sample(&mut self) -> T
        ensures answer { result ≡ sample_of self.old }
        ensures state { self.new ≡ after_sample self.old };
}

/// What a draw answers and leaves, in one record.
pub trait Draws<T> {
    ghost draws: { DrawOps Self T };
}

impl<T, C: CanSample<T>> Draws<T> for C {
    ghost draws = { record { draw = C.sample_of; after_draw = C.after_sample } };
}

/// A sponge that numbers of a few bits are drawn from.
pub trait CanSampleBits<T> {
    ghost bits_of: { Self → ℕ → T };

    ghost after_bits: { Self → ℕ → Self };

    /// The next number of so many bits.
    fn sample_bits(&mut self, bits: usize) -> T
        requires { bits < 64 }
        ensures answer { result ≡ bits_of self.old bits }
        ensures state { self.new ≡ after_bits self.old bits };
}

/// A sponge over the elements of a field.
pub trait FieldChallenger<F>: CanObserve<F> + CanSample<F> + CanSampleBits<usize> + Sized + Drop {
    /// An equal challenger. It is Err only where memory was refused.
    fn duplicate(&self, alloc: Global) -> Result<Self, AllocError>
        ensures { IfOk result (λ copy. copy ≡ self.now) };
}

/// A sponge that draws an element of an extension as its coordinates, the constant one first.
pub trait ExtensionChallenger<F: Field, EF: ExtensionField<F>>: CanSample<F> + CanSample<EF> {
    ghost draws_coordinates: { DrawsInTurn EF.coordinates ⟦<Self as CanSample<EF>>⟧.sample_of
        ⟦<Self as Draws<F>>⟧.draws EF.DIMENSION };

    ghost leaves_state: { (state : Self) → ⟦<Self as CanSample<EF>>⟧.after_sample state
        ≡ after_draws ⟦<Self as CanSample<F>>⟧.after_sample EF.DIMENSION state };
}

/// A sponge that asks for work: a witness that passes is rare.
pub trait GrindingChallenger {
    type Witness: Element;

    ghost passes: { Self → ℕ → Self.Witness → Bool };

    ghost after_check: { Self → ℕ → Self.Witness → Self };

    /// The witness that a search finds.
    ghost ground_witness: { Self → ℕ → Option Self.Witness };

    /// A witness that passes, and the state is that after its check. None if no element passes, and
    /// the state is as before.
    fn grind(&mut self, bits: usize) -> Option<Self::Witness>
        ensures answer { result ≡ ground_witness self.old bits }
        ensures state { self.new ≡ after_search after_check self.old bits result };

    /// Whether the witness passes. At no bits every witness does, and nothing changes.
    fn check_witness(&mut self, bits: usize, witness: Self::Witness) -> bool
        ensures answer { result ≡ passes self.old bits witness }
        ensures state { self.new ≡ after_check self.old bits witness };

    ghost grinding: { GrindingLaws passes after_check ground_witness };
}

/// All calls of a challenger that a transcript makes, in one record.
pub trait Sponge<F, EF, K> {
    ghost sponge: { SpongeOps Self F EF K };
}

impl<F, EF, K, C> Sponge<F, EF, K> for C
where
    F: PrimeField64,
    C: CanObserve<F> + CanObserve<K> + CanSample<EF> + GrindingChallenger<Witness = F>,
{
    ghost sponge = { record {
      from_byte = F.of_number;
      observe_element = ⟦<C as CanObserve<F>>⟧.after_observe;
      observe_commitment = ⟦<C as CanObserve<K>>⟧.after_observe;
      draw = ⟦<C as CanSample<EF>>⟧.sample_of;
      after_draw = ⟦<C as CanSample<EF>>⟧.after_sample;
      passes = ⟦<C as GrindingChallenger>⟧.passes;
      after_check = ⟦<C as GrindingChallenger>⟧.after_check;
      ground_witness = ⟦<C as GrindingChallenger>⟧.ground_witness;
    } };
}

/// Observes the values in turn.
pub fn observe_slice<C: CanObserve<T>, T>(challenger: &mut C, values: &[T])
    ensures { challenger.new ≡ observed_all C.after_observe values.now challenger.old }
{
    for value in values {
        challenger.observe(value);
    }
}

/// Observes the bytes in turn, each as an element.
pub fn observe_bytes<C: CanObserve<F>, F: PrimeField64>(challenger: &mut C, bytes: &[u8])
    ensures { challenger.new ≡ observed_bytes C.after_observe F.of_number bytes.now challenger.old }
{
    for byte in bytes {
        challenger.observe(&F::from_u8(*byte));
    }
}
