//! Values of a field, packed into lanes.
ghost use Rattle.std.specs.Prelude.{◌≡◌, ◌<◌, ◌*◌, ◌^◌, ℕ, List, length, Some, slice_set};
ghost use Rattle.std.specs.List.{slice_get};
ghost use Rattle.stark_support.specs.Ring.{RingOps};
ghost use Rattle.stark_support.specs.Lanes.{IsLaneByLane};
ghost use Rattle.stark_support.specs.PairRoom.{PairFitsInMemory};

use crate::field::Algebra;

/// Several values, on which one operation works lane by lane. It asks no field of the values: a
/// field names its packed values, and traits may not name one another in a circle.
pub trait PackedValue: Copy + Algebra<Self::Value> {
    type Value: Copy;

    ghost WIDTH: { ℕ };

    /// The values, the first lane first.
    ghost lanes: { Self → List Self.Value };

    /// The operations on the values.
    ghost lane_ring: { RingOps Self.Value };

    /// The number of the lanes, a power of two.
    const WIDTH: usize;

    /// The packed values.
    fn from_slice(values: &[Self::Value]) -> Self
        requires { length values.now ≡ WIDTH }
        ensures { lanes result ≡ values.now };

    /// The value in a lane.
    fn extract(&self, lane: usize) -> Self::Value
        requires { lane < WIDTH }
        ensures { slice_get (lanes self.now) lane ≡ Some result };

    /// These values, with another one in this lane.
    fn with_lane(self, lane: usize, value: Self::Value) -> Self
        requires { lane < WIDTH }
        ensures { lanes result ≡ slice_set (lanes self) lane value };

    ghost lane_by_lane: { IsLaneByLane lane_ring ⟦<Self as Algebra<Self::Value>>⟧.operations WIDTH
        lanes };

    /// A packed value stands for itself alone.
    ghost exact_lanes: { (v x : Self) → ⟦<Self as Algebra<Self::Value>>⟧.stands v x → x ≡ v };
}

/// Packed values of which two side by side are one with twice as many lanes.
pub trait PairedValue: PackedValue {
    /// The lanes of both can be counted.
    ghost room_for_two: { 2 * Self.WIDTH < 2 ^ 64 };

    /// Both fit in memory.
    ghost pair_fits: { PairFitsInMemory Self.row };
}

/// The packed values whose lane `i` has what `value_of` answers at `i`.
pub fn packed_from_fn<P: PackedValue, G: Fn(usize) -> P::Value + Drop>(value_of: G) -> P
    requires { G.IsAlwaysCallable value_of }
    ensures { (lane : ℕ) → lane < P.WIDTH → (value : P.Value) × (G.post value_of lane value)
        × (slice_get (P.lanes result) lane ≡ Some value) }
{
    let mut packed = P::from(value_of(0));
    for lane in 1..P::WIDTH {
        packed = packed.with_lane(lane, value_of(lane));
    }
    packed
}
