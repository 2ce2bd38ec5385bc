//! The helpers of groups, by one inversion.
ghost use Rattle.std.specs.Prelude.{◌≡◌, ◌≢◌, All, IfNone, IfOk, IfSome, length, map};
ghost use Rattle.stark_logup.specs.Fractions.{denominator, list_sum, numerator};
ghost use Rattle.stark_lookup_trace.specs.AuxiliaryColumns.{IsFirstZero, entries_of, products};

use stark_logup::group_fraction;
use stark_support::{Field, batch_multiplicative_inverse};
use std::alloc::{AllocError, Global};

/// The sums of the fractions of groups, none of which is divided.
#[derive(Drop)]
pub(crate) struct Fractions<K> {
    pub(crate) numerators: Vec<K>,
    pub(crate) denominators: Vec<K>,
}

/// The fractions of groups, each of whose entries is given by its key and its multiplicity. It is
/// Err only where memory was refused.
pub(crate) fn fractions_of<K: Field>(
    alloc: Global,
    gamma: K,
    groups: &[Vec<(K, K)>],
) -> Result<Fractions<K>, AllocError>
    ensures numerators { IfOk result (λ f. f.numerators.items
        ≡ map (numerator K.ring gamma) (entries_of groups.now)) }
    ensures denominators { IfOk result (λ f. f.denominators.items
        ≡ map (denominator K.ring gamma) (entries_of groups.now)) }
{
    let mut numerators = Vec::with_capacity(alloc, groups.len())?;
    let mut denominators = Vec::with_capacity(alloc, groups.len())?;
    for group in groups {
        let fraction = group_fraction(gamma, group);
        numerators.push(fraction.numerator)?;
        denominators.push(fraction.denominator)?;
    }
    Ok(Fractions {
        numerators,
        denominators,
    })
}

/// The place of the first value that is zero.
pub(crate) fn first_zero<K: Field>(values: &[K]) -> Option<usize>
    ensures first { IfSome result (IsFirstZero K.ring.zero values.now) }
    ensures none { IfNone result (All (λ x. x ≢ K.ring.zero) values.now) }
{
    for place in 0..values.len() {
        if values[place] == K::ZERO {
            return Some(place);
        }
    }
    None
}

/// The products of neighbours in two lists. It is Err only where memory was refused.
fn products<K: Field>(alloc: Global, xs: &[K], ys: &[K]) -> Result<Vec<K>, AllocError>
    requires { length xs.now ≡ length ys.now }
    ensures { IfOk result (λ all. all.items ≡ products K.ring xs.now ys.now) }
{
    let mut all = Vec::with_capacity(alloc, xs.len())?;
    for place in 0..xs.len() {
        all.push(xs[place] * ys[place])?;
    }
    Ok(all)
}

/// Each numerator over its denominator, by one inversion. It is Err only where memory was refused.
pub(crate) fn divided<K: Field>(
    alloc: Global,
    numerators: &[K],
    denominators: &[K],
) -> Result<Vec<K>, AllocError>
    requires some { All (λ x. x ≢ K.ring.zero) denominators.now }
    requires as_many { length numerators.now ≡ length denominators.now }
    ensures { IfOk result (λ helpers. helpers.items
        ≡ products K.ring numerators.now (map K.inverse_of denominators.now)) }
{
    let inverses = batch_multiplicative_inverse(alloc, denominators)?;
    products(alloc, numerators, &inverses)
}

/// The sum of the values.
pub(crate) fn total<K: Field>(values: &[K]) -> K
    ensures { result ≡ list_sum K.ring values.now }
{
    let mut sum = K::ZERO;
    let mut index = values.len();
    while index > 0 {
        index -= 1;
        sum = values[index] + sum;
    }
    sum
}
