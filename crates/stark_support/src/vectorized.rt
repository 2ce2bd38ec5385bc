//! Two packed values at a time, as one with twice as many lanes.
ghost use Rattle.std.specs.Prelude.{◌≡◌, ◌*◌, ⊤, map, refl};
ghost use Rattle.stark_support.specs.Pairs.{both_lanes, both_operations, pack_at, pair_binary, pair_unary, pair_is_lane_by_lane, is_made, pair_parts};

use crate::field::{Algebra, Element, PackedExtensionField, PackedField};
use crate::packed::{PackedValue, PairedValue};
use std::alloc::AllocError;
use std::marker::PhantomData;
use std::ops::{Add, Mul, Neg, Sub};

/// Two packed values of a base field.
#[derive(Clone, Copy, Debug, PartialEq, Eq)]
pub struct OfBase;

/// Two packed values of an extension field.
#[derive(Clone, Copy, Debug, PartialEq, Eq)]
pub struct OfExtension;

/// Two values of `P`, which packs values of `F`, seen as one list of lanes. `Level` says which of
/// the two fields' values they are. There are operations for `N` = 2 alone.
pub struct PackedPair<F, P, Level, const N: usize> {
    pub first: P,
    pub second: P,
    pub level: PhantomData<(F, Level)>,
}

/// Packed values of a base field, `N` at a time.
pub type Vectorized<F, const N: usize> = PackedPair<F, <F as PackedField>::Packing, OfBase, N>;

/// Packed values of an extension field over `F`, `N` at a time.
pub type VectorizedExt<F, EF, const N: usize> = PackedPair<
    EF,
    <EF as PackedExtensionField<F>>::ExtensionPacking,
    OfExtension,
    N,
>;

impl<F, P: Copy, Level, const N: usize> Clone for PackedPair<F, P, Level, N> {
    ghost is_clone = { λ x y. y ≡ x };

    ghost is_infallible = { λ _. ⊤ };

    fn clone(&self) -> Result<PackedPair<F, P, Level, N>, AllocError> {
        Ok(PackedPair {
            first: self.first,
            second: self.second,
            level: PhantomData,
        })
    }
}

impl<F, P: Copy, Level, const N: usize> Copy for PackedPair<F, P, Level, N> {}

impl<F, P: Copy, Level> PackedPair<F, P, Level, 2> {
    /// The pack at a place: the first one at 0, the second one from 1 on.
    #[tactic(auto, using(crate::specs::Pairs::later_pack))]
    pub fn pack_at(&self, place: usize) -> P
        ensures { result ≡ pack_at place self.now }
    {
        if place == 0 { self.first } else { self.second }
    }
}

impl<F: Element, P: PackedValue<Value = F>, Level> From<F> for PackedPair<F, P, Level, 2> {
    ghost from_gives = { λ x r. P.from_gives x r.first × P.from_gives x r.second };

    fn from(x: F) -> PackedPair<F, P, Level, 2> {
        PackedPair {
            first: P::from(x),
            second: P::from(x),
            level: PhantomData,
        }
    }
}

impl<F: PackedField, EF: PackedExtensionField<F>> From<Vectorized<F, 2>>
    for VectorizedExt<F, EF, 2> {
    ghost from_gives = { λ x r. both_lanes EF.ExtensionPacking.lanes r
        ≡ map EF.embed (both_lanes F.Packing.lanes x) };

    fn from(x: Vectorized<F, 2>) -> VectorizedExt<F, EF, 2> {
        PackedPair {
            first: EF::from_packed_base(x.first),
            second: EF::from_packed_base(x.second),
            level: PhantomData,
        }
    }
}

impl<F: Copy, P: PackedValue<Value = F>, Level> Add for PackedPair<F, P, Level, 2> {
    type Output = PackedPair<F, P, Level, 2>;

    ghost add_gives = { λ x y r. P.add_gives x.first y.first r.first
        × P.add_gives x.second y.second r.second };

    fn add(self, other: PackedPair<F, P, Level, 2>) -> PackedPair<F, P, Level, 2> {
        PackedPair {
            first: self.first + other.first,
            second: self.second + other.second,
            level: PhantomData,
        }
    }
}

impl<F: Copy, P: PackedValue<Value = F>, Level> Sub for PackedPair<F, P, Level, 2> {
    type Output = PackedPair<F, P, Level, 2>;

    ghost sub_gives = { λ x y r. P.sub_gives x.first y.first r.first
        × P.sub_gives x.second y.second r.second };

    fn sub(self, other: PackedPair<F, P, Level, 2>) -> PackedPair<F, P, Level, 2> {
        PackedPair {
            first: self.first - other.first,
            second: self.second - other.second,
            level: PhantomData,
        }
    }
}

impl<F: Copy, P: PackedValue<Value = F>, Level> Mul for PackedPair<F, P, Level, 2> {
    type Output = PackedPair<F, P, Level, 2>;

    ghost mul_gives = { λ x y r. P.mul_gives x.first y.first r.first
        × P.mul_gives x.second y.second r.second };

    fn mul(self, other: PackedPair<F, P, Level, 2>) -> PackedPair<F, P, Level, 2> {
        PackedPair {
            first: self.first * other.first,
            second: self.second * other.second,
            level: PhantomData,
        }
    }
}

impl<F: Copy, P: PackedValue<Value = F>, Level> Neg for PackedPair<F, P, Level, 2> {
    type Output = PackedPair<F, P, Level, 2>;

    ghost neg_gives = { λ x r. P.neg_gives x.first r.first × P.neg_gives x.second r.second };

    fn neg(self) -> PackedPair<F, P, Level, 2> {
        PackedPair {
            first: -self.first,
            second: -self.second,
            level: PhantomData,
        }
    }
}

impl<F: Element, P: PackedValue<Value = F>, Level> Algebra<F> for PackedPair<F, P, Level, 2> {
    ghost operations = { both_operations P.operations };

    ghost stands = { λ v x. x ≡ v };

    fn dup(&self) -> PackedPair<F, P, Level, 2> {
        PackedPair {
            first: self.first,
            second: self.second,
            level: PhantomData,
        }
    }

    ghost may_add = { λ _ _. tt };

    ghost may_sub = { λ _ _. tt };

    ghost may_mul = { λ _ _. tt };

    ghost may_neg = { λ _. tt };

    ghost stands_itself = { λ _. refl };

    ghost embed_stands = { λ k x given.
        is_made pair_parts x _ _ (P.exact_lanes _ _ (P.Algebra.embed_stands k x.first given.0))
        (P.exact_lanes _ _ (P.Algebra.embed_stands k x.second given.1)) };

    ghost plus_stands = { pair_binary pair_parts P.stands P.Algebra.stands_itself P.exact_lanes
        P.operations.plus P.add_gives P.Algebra.plus_stands };

    ghost minus_stands = { pair_binary pair_parts P.stands P.Algebra.stands_itself P.exact_lanes
        P.operations.minus P.sub_gives P.Algebra.minus_stands };

    ghost times_stands = { pair_binary pair_parts P.stands P.Algebra.stands_itself P.exact_lanes
        P.operations.times P.mul_gives P.Algebra.times_stands };

    ghost negated_stands = { pair_unary pair_parts P.stands P.Algebra.stands_itself P.exact_lanes
        P.operations.negated P.neg_gives P.Algebra.negated_stands };
}

impl<F: Element, P: PairedValue<Value = F>, Level> PackedValue for PackedPair<F, P, Level, 2> {
    type Value = F;

    ghost WIDTH = { 2 * P.WIDTH };

    ghost lanes = { both_lanes P.lanes };

    ghost lane_ring = { P.lane_ring };

    const WIDTH: usize = 2 * P::WIDTH;

    fn from_slice(values: &[F]) -> PackedPair<F, P, Level, 2> {
        PackedPair {
            first: P::from_slice(&values[..P::WIDTH]),
            second: P::from_slice(&values[P::WIDTH..]),
            level: PhantomData,
        }
    }

    fn extract(&self, lane: usize) -> F {
        if lane < P::WIDTH {
            self.first.extract(lane)
        } else {
            self.second.extract(lane - P::WIDTH)
        }
    }

    fn with_lane(self, lane: usize, value: F) -> PackedPair<F, P, Level, 2> {
        if lane < P::WIDTH {
            PackedPair {
                first: self.first.with_lane(lane, value),
                ..self
            }
        } else {
            PackedPair {
                second: self.second.with_lane(lane - P::WIDTH, value),
                ..self
            }
        }
    }

    ghost lane_by_lane = { pair_is_lane_by_lane pair_parts P.lane_by_lane };

    ghost exact_lanes = { λ _ _ h. h };
}
