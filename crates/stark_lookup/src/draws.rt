//! The draws of lookups.
ghost use Rattle.std.specs.Prelude.{◌≡◌};
ghost use Rattle.stark_lookup.specs.LookupDraws.{IsGround, after_both, after_bound_draws, bound_by, bound_draws, drawn_from};

use stark_lookup_trace::LookupDraws;
use stark_support::{
    CanObserve, CanSample, GrindingChallenger, PrimeField64, Sponge, observe_bytes, observe_slice,
};

/// What the draws of lookups are bound to besides a challenger's state: what fixes how many rows
/// there are, and each tuple and multiplicity of each row.
#[derive(Clone, Copy)]
pub struct LookupBinding<'a, K, F> {
    /// The logarithm of the committed trace's height.
    pub degree_bits: usize,
    /// The commitment to the AIR's own columns.
    pub main: &'a K,
    /// That to its preprocessed columns, where it has some.
    pub key: Option<&'a K>,
    /// The AIR's own public values.
    pub public_values: &'a [F],
}

/// Observes what the draws are bound to.
#[tactic(auto, using(stark_support::specs::SpongeFacts::replay_append, stark_support::specs::SpongeFacts::replay_elements), unfolding(stark_support::specs::Seed::number))]
fn bind<C, F, EF, K>(challenger: &mut C, binding: &LookupBinding<'_, K, F>)
where
    F: PrimeField64,
    C: CanObserve<F> + CanObserve<K> + CanSample<EF> + GrindingChallenger<Witness = F>,
    ensures { challenger.new ≡ bound_by ⟦<C as Sponge<F, EF, K>>⟧.sponge binding.now
        challenger.old }
{
    // How many rows there are, and so which entries, before any of them is drawn for.
    observe_bytes::<C, F>(&mut *challenger, &binding.degree_bits.to_be_bytes());
    // The columns that tuples and multiplicities are read from: whoever changes one gets other
    // draws.
    <C as CanObserve<K>>::observe(&mut *challenger, binding.main);
    if let Some(key) = binding.key {
        <C as CanObserve<K>>::observe(&mut *challenger, key);
    }
    observe_slice(challenger, binding.public_values);
}

/// Gamma, and after it beta.
fn draw<C: CanSample<EF>, EF: Copy>(challenger: &mut C) -> LookupDraws<EF>
    ensures answer { result ≡ drawn_from C.sample_of C.after_sample challenger.old }
    ensures state { challenger.new ≡ after_both C.after_sample challenger.old }
{
    // Gamma is the point at which the fractions are added up. Were it known before the columns are
    // fixed, entries could be chosen whose fractions cancel there alone.
    let gamma = challenger.sample();
    // Beta makes one element of a tuple. Nothing is sent between the two draws. Were they one,
    // the tuple (0, 1) would be the very point, where a helper can be anything.
    let beta = challenger.sample();
    LookupDraws { beta, gamma }
}

/// The beginning that prover and verifier of lookups share, on a challenger that has observed the
/// statement: it observes what the draws are bound to, `degree_bits` as 8 bytes with the high one
/// first, checks the witness of `bits` bits of work, and draws gamma and then beta. None where the
/// witness doesn't pass. The challenger is left in the state after that, in which the proof of the
/// extended AIR begins.
pub fn draw_lookups<C, F, EF, K>(
    challenger: &mut C,
    binding: &LookupBinding<'_, K, F>,
    bits: usize,
    witness: F,
) -> Option<LookupDraws<EF>>
where
    F: PrimeField64,
    EF: Copy,
    C: CanObserve<F> + CanObserve<K> + CanSample<EF> + GrindingChallenger<Witness = F>,
    ensures answer { result ≡ bound_draws ⟦<C as Sponge<F, EF, K>>⟧.sponge binding.now bits witness
        challenger.old }
    ensures state { challenger.new ≡ after_bound_draws ⟦<C as Sponge<F, EF, K>>⟧.sponge binding.now
        bits witness challenger.old }
{
    bind::<C, F, EF, K>(&mut *challenger, binding);
    // Each further try of the two draws costs the work.
    if !challenger.check_witness(bits, witness) {
        return None;
    }
    Some(draw(challenger))
}

/// The same beginning as a prover makes it: it searches for the witness of `bits` bits of work,
/// which is zero where there are none, and answers it after the draws. None where no element is a
/// witness.
pub fn grind_lookups<C, F, EF, K>(
    challenger: &mut C,
    binding: &LookupBinding<'_, K, F>,
    bits: usize,
) -> Option<(LookupDraws<EF>, F)>
where
    F: PrimeField64,
    EF: Copy,
    C: CanObserve<F> + CanObserve<K> + CanSample<EF> + GrindingChallenger<Witness = F>,
    ensures { IsGround ⟦<C as Sponge<F, EF, K>>⟧.sponge F.ring.zero binding.now bits challenger.old
        result challenger.new }
{
    bind::<C, F, EF, K>(&mut *challenger, binding);
    if bits == 0 {
        return Some((draw(challenger), F::ZERO));
    }
    let witness = challenger.grind(bits)?;
    Some((draw(challenger), witness))
}
