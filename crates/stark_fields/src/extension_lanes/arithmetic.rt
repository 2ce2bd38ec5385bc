//! The extension's operations on four elements at once: each works lane by lane.
ghost use Rattle.std.specs.Prelude.{[], ◌≡◌, ◌∷◌, ◌<◌};
ghost use Rattle.std.proofs.Common.{lit<};
ghost use Rattle.stark_support.specs.Ring.{difference};
ghost use Rattle.stark_support.specs.Operations.{exact, total};
ghost use Rattle.stark_fields.specs.Residues.{residue, residue_ring};
ghost use Rattle.stark_fields.specs.Ext4Field.{ext4_ring};
ghost use Rattle.stark_fields.specs.ResidueLanes.{in_each_lane, lane};
ghost use Rattle.stark_fields.specs.Ext4Lanes.{element_in_each_lane, elements_of, embedded_lanes, extension_lanes_ring, extension_is_lane_by_lane, AddsCoordinate};

use crate::ext4::Ext4;
use crate::extension_lanes::ExtensionLanes;
use crate::lanes::{Lanes, four_products, three_products, two_products};
use crate::residue::Residue;
use crate::small::M12289;
use stark_support::{ExactAlgebra, Field, PackedValue, PairedValue, QuarticBase};
use std::ops::{Add, Mul, Neg, Sub};

/// What X^4 is, in each lane.
fn fourth_power<Kind>() -> Lanes<Kind>
    ensures { result ≡ in_each_lane (residue 11) }
{
    Lanes::from(Residue::QUARTIC_CONSTANT)
}

impl<Kind> ExtensionLanes<Kind> {
    /// The elements with residues added to the coordinate of this index.
    pub(crate) fn plus_coordinate(self, index: usize, residues: Lanes<Kind>) -> ExtensionLanes<Kind>
        requires { index < 4 }
        ensures { AddsCoordinate index residues self result }
    {
        match index {
            0 => ExtensionLanes {
                c0: residues + self.c0,
                ..self
            },
            1 => ExtensionLanes {
                c1: residues + self.c1,
                ..self
            },
            2 => ExtensionLanes {
                c2: residues + self.c2,
                ..self
            },
            _ => ExtensionLanes {
                c3: residues + self.c3,
                ..self
            },
        }
    }

    /// The four elements, the first in the first lane.
    fn of_four(
        first: Ext4<Residue<M12289, Kind>>,
        second: Ext4<Residue<M12289, Kind>>,
        third: Ext4<Residue<M12289, Kind>>,
        fourth: Ext4<Residue<M12289, Kind>>,
    ) -> ExtensionLanes<Kind>
        ensures { elements_of result ≡ first ∷ (second ∷ (third ∷ (fourth ∷ []))) }
    {
        ExtensionLanes {
            c0: Lanes::of_four(first.c0, second.c0, third.c0, fourth.c0),
            c1: Lanes::of_four(first.c1, second.c1, third.c1, fourth.c1),
            c2: Lanes::of_four(first.c2, second.c2, third.c2, fourth.c2),
            c3: Lanes::of_four(first.c3, second.c3, third.c3, fourth.c3),
        }
    }
}

impl<Kind> From<Ext4<Residue<M12289, Kind>>> for ExtensionLanes<Kind> {
    ghost from_gives = { λ x y. y ≡ element_in_each_lane x };

    fn from(x: Ext4<Residue<M12289, Kind>>) -> ExtensionLanes<Kind> {
        ExtensionLanes {
            c0: Lanes::from(x.c0),
            c1: Lanes::from(x.c1),
            c2: Lanes::from(x.c2),
            c3: Lanes::from(x.c3),
        }
    }
}

impl<Kind> From<Lanes<Kind>> for ExtensionLanes<Kind> {
    ghost from_gives = { λ x y. y ≡ embedded_lanes x };

    fn from(x: Lanes<Kind>) -> ExtensionLanes<Kind> {
        let zero = Lanes::from(Residue::ZERO);
        ExtensionLanes {
            c0: x,
            c1: zero,
            c2: zero,
            c3: zero,
        }
    }
}

impl<Kind> Add for ExtensionLanes<Kind> {
    type Output = ExtensionLanes<Kind>;

    ghost add_gives = { λ x y r. r ≡ extension_lanes_ring.add x y };

    fn add(self, other: ExtensionLanes<Kind>) -> ExtensionLanes<Kind> {
        ExtensionLanes {
            c0: self.c0 + other.c0,
            c1: self.c1 + other.c1,
            c2: self.c2 + other.c2,
            c3: self.c3 + other.c3,
        }
    }
}

impl<Kind> Sub for ExtensionLanes<Kind> {
    type Output = ExtensionLanes<Kind>;

    ghost sub_gives = { λ x y r. r ≡ difference extension_lanes_ring x y };

    fn sub(self, other: ExtensionLanes<Kind>) -> ExtensionLanes<Kind> {
        self + -other
    }
}

impl<Kind> Neg for ExtensionLanes<Kind> {
    type Output = ExtensionLanes<Kind>;

    ghost neg_gives = { λ x r. r ≡ extension_lanes_ring.neg x };

    fn neg(self) -> ExtensionLanes<Kind> {
        ExtensionLanes {
            c0: -self.c0,
            c1: -self.c1,
            c2: -self.c2,
            c3: -self.c3,
        }
    }
}

impl<Kind> Mul for ExtensionLanes<Kind> {
    type Output = ExtensionLanes<Kind>;

    ghost mul_gives = { λ x y r. r ≡ extension_lanes_ring.mul x y };

    fn mul(self, other: ExtensionLanes<Kind>) -> ExtensionLanes<Kind> {
        let (x, y, w) = (self, other, fourth_power());
        let above_c0 = three_products((x.c1, y.c3), (x.c2, y.c2), (x.c3, y.c1));
        let above_c1 = two_products((x.c2, y.c3), (x.c3, y.c2));
        ExtensionLanes {
            c0: two_products((x.c0, y.c0), (w, above_c0)),
            c1: three_products((x.c0, y.c1), (x.c1, y.c0), (w, above_c1)),
            c2: four_products((x.c0, y.c2), (x.c1, y.c1), (x.c2, y.c0), (w, x.c3 * y.c3)),
            c3: four_products((x.c0, y.c3), (x.c1, y.c2), (x.c2, y.c1), (x.c3, y.c0)),
        }
    }
}

impl<Kind> ExactAlgebra for ExtensionLanes<Kind> {
    type Scalar = Ext4<Residue<M12289, Kind>>;

    ghost algebra_ring = { extension_lanes_ring };

    ghost embedding = { element_in_each_lane };

    ghost is_total = { total };

    ghost is_exact = { exact extension_lanes_ring element_in_each_lane };
}

impl<Kind> PackedValue for ExtensionLanes<Kind> {
    type Value = Ext4<Residue<M12289, Kind>>;

    ghost WIDTH = { 4 };

    ghost lanes = { elements_of };

    ghost lane_ring = { ext4_ring residue_ring (residue 11) };

    const WIDTH: usize = 4;

    fn from_slice(values: &[Ext4<Residue<M12289, Kind>>]) -> ExtensionLanes<Kind> {
        ExtensionLanes::of_four(values[0], values[1], values[2], values[3])
    }

    fn extract(&self, lane: usize) -> Ext4<Residue<M12289, Kind>> {
        Ext4 {
            c0: self.c0.extract(lane),
            c1: self.c1.extract(lane),
            c2: self.c2.extract(lane),
            c3: self.c3.extract(lane),
        }
    }

    fn with_lane(self, lane: usize, value: Ext4<Residue<M12289, Kind>>) -> ExtensionLanes<Kind> {
        ExtensionLanes {
            c0: self.c0.with_lane(lane, value.c0),
            c1: self.c1.with_lane(lane, value.c1),
            c2: self.c2.with_lane(lane, value.c2),
            c3: self.c3.with_lane(lane, value.c3),
        }
    }

    ghost lane_by_lane = { extension_is_lane_by_lane };

    ghost exact_lanes = { λ _ _ h. h };
}

impl<Kind> PairedValue for ExtensionLanes<Kind> {
    ghost room_for_two = { lit< tt };

    ghost pair_fits = { lit< tt };
}
