//! The operations on four residues at once: each works lane by lane.
ghost use Rattle.std.specs.Prelude.{[], ◌≡◌, ◌∷◌, ◌<◌, ◌≤◌, ◌+◌, ℕ, Some, length, option_map, slice_index};
ghost use Rattle.std.specs.List.{slice_get};
ghost use Rattle.std.specs.Simd.Lanes.{zip2};
ghost use Rattle.std.proofs.Common.{lit<};
ghost use Rattle.stark_support.specs.Combination.{linear_combination};
ghost use Rattle.stark_support.specs.Ring.{difference};
ghost use Rattle.stark_support.specs.Operations.{exact, ring_operations, total};
ghost use Rattle.stark_fields.specs.Residues.{residue, residue_ring};
ghost use Rattle.stark_fields.specs.ResidueLanes.{lanes_of, in_each_lane, lanes_ring, is_lane_by_lane, number_sums, number_products, number_complements, number_remainders, product, plus_product};

use crate::lanes::Lanes;
use crate::residue::Residue;
use crate::small::M12289;
use stark_support::{ExactAlgebra, Field, PackedValue, PairedValue};
use std::marker::PhantomData;
use std::ops::{Add, Mul, Neg, Sub};
use std::simd::prelude::*;

/// The sums of the numbers, lane by lane.
fn sums<Kind>(x: Lanes<Kind>, y: Lanes<Kind>) -> u32x4
    ensures { result ≡ number_sums x y }
{
    x.numbers.strict_add(y.numbers)
}

/// The numbers. That they have no more than 14 bits shows in the code, so that a compiler may
/// multiply them as halves of lanes, which is faster.
fn short_numbers<Kind>(x: Lanes<Kind>) -> u32x4
    ensures { result ≡ x.numbers }
{
    x.numbers & u32x4::splat(16383)
}

/// The products of the numbers, lane by lane.
fn products<Kind>(x: Lanes<Kind>, y: Lanes<Kind>) -> u32x4
    ensures { result ≡ number_products x y }
{
    short_numbers(x).strict_mul(short_numbers(y))
}

/// 12289 less each number, so 12289 where that is zero.
fn complements<Kind>(x: Lanes<Kind>) -> u32x4
    ensures { result ≡ number_complements x }
{
    u32x4::splat(12289).strict_sub(x.numbers)
}

/// Each number modulo 12289, in its lane; the numbers are below twice that. Where a number is less
/// than 12289, the difference wraps and is the greater one.
fn reduced_once<Kind>(numbers: u32x4) -> Lanes<Kind>
    requires four { length numbers ≡ 4 }
    requires below { (lane : ℕ) → slice_index numbers lane < 24578 }
    ensures { result.numbers ≡ number_remainders numbers }
{
    Lanes {
        numbers: numbers.simd_min(numbers - u32x4::splat(12289)),
        kind: PhantomData,
    }
}

/// The numbers less 12289 times a quotient that falls short by at most one (Barrett's reduction):
/// `2^29 / 12289` is 43687 and a fraction.
fn nearly_reduced(numbers: u32x4) -> u32x4
    requires four { length numbers ≡ 4 }
    requires below { (lane : ℕ) → slice_index numbers lane ≤ 754987008 }
    ensures four { length result ≡ 4 }
    ensures below { (lane : ℕ) → slice_index result lane < 24578 }
    ensures same { number_remainders result ≡ number_remainders numbers }
{
    let scaled = (numbers >> u32x4::splat(13)) * u32x4::splat(43687);
    numbers - (scaled >> u32x4::splat(16)) * u32x4::splat(12289)
}

/// Each number modulo 12289, in its lane; the numbers are at most five times the greatest product
/// of two residues, and a residue.
fn reduced<Kind>(numbers: u32x4) -> Lanes<Kind>
    requires four { length numbers ≡ 4 }
    requires below { (lane : ℕ) → slice_index numbers lane ≤ 754987008 }
    ensures { result.numbers ≡ number_remainders numbers }
{
    reduced_once(nearly_reduced(numbers))
}

/// As `nearly_reduced` does, with factors below 2^15, which are multiplied as halves of lanes:
/// `2^28 / 12289` is 21843 and a fraction.
fn nearly_reduced_product(numbers: u32x4) -> u32x4
    requires four { length numbers ≡ 4 }
    requires below { (lane : ℕ) → slice_index numbers lane ≤ 150994944 }
    ensures four { length result ≡ 4 }
    ensures below { (lane : ℕ) → slice_index result lane < 24578 }
    ensures same { number_remainders result ≡ number_remainders numbers }
{
    let scaled = (numbers >> u32x4::splat(13)) * u32x4::splat(21843);
    numbers - (scaled >> u32x4::splat(15)) * u32x4::splat(12289)
}

/// Each number modulo 12289, in its lane; the numbers are at most the greatest product of two
/// residues.
fn reduced_product<Kind>(numbers: u32x4) -> Lanes<Kind>
    requires four { length numbers ≡ 4 }
    requires below { (lane : ℕ) → slice_index numbers lane ≤ 150994944 }
    ensures { result.numbers ≡ number_remainders numbers }
{
    reduced_once(nearly_reduced_product(numbers))
}

/// Two factors in each lane.
pub(crate) type Factors<Kind> = (Lanes<Kind>, Lanes<Kind>);

/// The products of the numbers of both, added, lane by lane.
fn sums_of_products<Kind>(first: Factors<Kind>, second: Factors<Kind>) -> u32x4
    ensures { result ≡ zip2 (λ a b. a + b) (number_products first.0 first.1)
        (number_products second.0 second.1) }
{
    products(first.0, first.1).strict_add(products(second.0, second.1))
}

/// Two products, added, lane by lane; reduced once.
pub(crate) fn two_products<Kind>(first: Factors<Kind>, second: Factors<Kind>) -> Lanes<Kind>
    ensures { result ≡ lanes_ring.add (product first)
        (product second) }
{
    reduced(sums_of_products(first, second))
}

/// Three products, added, lane by lane; reduced once.
pub(crate) fn three_products<Kind>(
    first: Factors<Kind>,
    second: Factors<Kind>,
    third: Factors<Kind>,
) -> Lanes<Kind>
    ensures first_two { result ≡ lanes_ring.add
        (lanes_ring.add (product first) (product second))
        (product third) }
    ensures last_two { result ≡ lanes_ring.add (product first)
        (lanes_ring.add (product second) (product third)) }
{
    reduced(sums_of_products(first, second).strict_add(products(third.0, third.1)))
}

/// Four products, added, lane by lane; reduced once.
pub(crate) fn four_products<Kind>(
    first: Factors<Kind>,
    second: Factors<Kind>,
    third: Factors<Kind>,
    fourth: Factors<Kind>,
) -> Lanes<Kind>
    ensures in_pairs { result ≡ lanes_ring.add
        (lanes_ring.add (product first) (product second))
        (lanes_ring.add (product third) (product fourth)) }
    ensures middle_first { result ≡ lanes_ring.add
        (lanes_ring.add (product first)
        (lanes_ring.add (product second) (product third)))
        (product fourth) }
{
    reduced(sums_of_products(first, second).strict_add(sums_of_products(third, fourth)))
}

/// The products of the numbers, added to other numbers, lane by lane.
fn plus_products<Kind>(first: Factors<Kind>, rest: u32x4) -> u32x4
    requires { (lane : ℕ) → slice_index rest lane ≤ 603992064 }
    ensures { result ≡ zip2 (λ a b. a + b) (number_products first.0 first.1) rest }
{
    products(first.0, first.1).strict_add(rest)
}

/// A product and the rest, added, lane by lane; reduced once.
fn one_term_more<Kind>(first: Factors<Kind>, rest: Lanes<Kind>) -> Lanes<Kind>
    ensures { result ≡ lanes_ring.add (product first) rest }
{
    reduced(plus_products(first, rest.numbers))
}

/// Five products and the rest, added, lane by lane; reduced once.
fn five_terms_more<Kind>(
    first: Factors<Kind>,
    second: Factors<Kind>,
    third: Factors<Kind>,
    fourth: Factors<Kind>,
    fifth: Factors<Kind>,
    rest: Lanes<Kind>,
) -> Lanes<Kind>
    ensures { result ≡ plus_product first
        (plus_product second (plus_product third
        (plus_product fourth (plus_product fifth rest)))) }
{
    let last = plus_products(fifth, rest.numbers);
    let last_two = plus_products(fourth, last);
    let last_three = plus_products(third, last_two);
    let last_four = plus_products(second, last_three);
    reduced(plus_products(first, last_four))
}

/// A value and its weight, in each lane.
fn factors_at<Kind>(
    values: &[Lanes<Kind>],
    weights: &[Residue<M12289, Kind>],
    place: usize,
) -> Factors<Kind>
    requires value { place < length values.now }
    requires weight { place < length weights.now }
    ensures value { slice_get values.now place ≡ Some result.0 }
    ensures weight { option_map in_each_lane (slice_get weights.now place) ≡ Some result.1 }
{
    (values[place], Lanes::from(weights[place]))
}

/// The sum of the values, each times its weight; each five products are reduced once.
pub(crate) fn weighted_sum<Kind>(
    values: &[Lanes<Kind>],
    weights: &[Residue<M12289, Kind>],
) -> Lanes<Kind>
    requires { length values.now ≡ length weights.now }
    ensures { result ≡ linear_combination (ring_operations lanes_ring in_each_lane) (residue 0)
        values.now weights.now }
{
    let mut sum = Lanes::from(Residue::ZERO);
    let mut index = values.len();
    while index >= 5 {
        index -= 5;
        sum = five_terms_more(
            factors_at(values, weights, index),
            factors_at(values, weights, index + 1),
            factors_at(values, weights, index + 2),
            factors_at(values, weights, index + 3),
            factors_at(values, weights, index + 4),
            sum,
        );
    }
    while index > 0 {
        index -= 1;
        sum = one_term_more(factors_at(values, weights, index), sum);
    }
    sum
}

impl<Kind> Lanes<Kind> {
    /// The four residues, the first in the first lane.
    pub(crate) fn of_four(
        first: Residue<M12289, Kind>,
        second: Residue<M12289, Kind>,
        third: Residue<M12289, Kind>,
        fourth: Residue<M12289, Kind>,
    ) -> Lanes<Kind>
        ensures { lanes_of result ≡ first ∷ (second ∷ (third ∷ (fourth ∷ []))) }
    {
        Lanes {
            numbers: u32x4::from_array([
                first.value(),
                second.value(),
                third.value(),
                fourth.value(),
            ]),
            kind: PhantomData,
        }
    }
}

impl<Kind> From<Residue<M12289, Kind>> for Lanes<Kind> {
    ghost from_gives = { λ x y. y ≡ in_each_lane x };

    fn from(x: Residue<M12289, Kind>) -> Lanes<Kind> {
        Lanes {
            numbers: u32x4::splat(x.value()),
            kind: PhantomData,
        }
    }
}

impl<Kind> Add for Lanes<Kind> {
    type Output = Lanes<Kind>;

    ghost add_gives = { λ x y r. r ≡ lanes_ring.add x y };

    #[tactic(auto, using(crate::proofs::LaneFacts::sums_four, crate::proofs::LaneFacts::sums_below))]
    fn add(self, other: Lanes<Kind>) -> Lanes<Kind> {
        reduced_once(sums(self, other))
    }
}

impl<Kind> Sub for Lanes<Kind> {
    type Output = Lanes<Kind>;

    ghost sub_gives = { λ x y r. r ≡ difference lanes_ring x y };

    fn sub(self, other: Lanes<Kind>) -> Lanes<Kind> {
        self + -other
    }
}

impl<Kind> Mul for Lanes<Kind> {
    type Output = Lanes<Kind>;

    ghost mul_gives = { λ x y r. r ≡ lanes_ring.mul x y };

    #[tactic(auto, using(crate::proofs::LaneFacts::products_four, crate::proofs::LaneFacts::products_at_most))]
    fn mul(self, other: Lanes<Kind>) -> Lanes<Kind> {
        reduced_product(products(self, other))
    }
}

impl<Kind> Neg for Lanes<Kind> {
    type Output = Lanes<Kind>;

    ghost neg_gives = { λ x r. r ≡ lanes_ring.neg x };

    #[tactic(auto, using(crate::proofs::LaneFacts::complements_four, crate::proofs::LaneFacts::complements_below))]
    fn neg(self) -> Lanes<Kind> {
        reduced_once(complements(self))
    }
}

impl<Kind> ExactAlgebra for Lanes<Kind> {
    type Scalar = Residue<M12289, Kind>;

    ghost algebra_ring = { lanes_ring };

    ghost embedding = { in_each_lane };

    ghost is_total = { total };

    ghost is_exact = { exact lanes_ring in_each_lane };
}

impl<Kind> PackedValue for Lanes<Kind> {
    type Value = Residue<M12289, Kind>;

    ghost WIDTH = { 4 };

    ghost lanes = { lanes_of };

    ghost lane_ring = { residue_ring };

    const WIDTH: usize = 4;

    fn from_slice(values: &[Residue<M12289, Kind>]) -> Lanes<Kind> {
        Lanes::of_four(values[0], values[1], values[2], values[3])
    }

    fn extract(&self, lane: usize) -> Residue<M12289, Kind> {
        Residue::of_reduced(self.numbers[lane])
    }

    fn with_lane(self, lane: usize, value: Residue<M12289, Kind>) -> Lanes<Kind> {
        let mut numbers = self.numbers.to_array();
        numbers[lane] = value.value();
        Lanes {
            numbers: u32x4::from_array(numbers),
            kind: PhantomData,
        }
    }

    ghost lane_by_lane = { is_lane_by_lane };

    ghost exact_lanes = { λ _ _ h. h };
}

impl<Kind> PairedValue for Lanes<Kind> {
    ghost room_for_two = { lit< tt };

    ghost pair_fits = { lit< tt };
}
