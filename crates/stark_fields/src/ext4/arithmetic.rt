//! The extension's operations.
ghost use Rattle.std.specs.Prelude.{false, ◌≡◌, refl, ⊤, map, [], ◌∷◌};
ghost use Rattle.std.proofs.Common.{lit<};
ghost use Rattle.stark_support.specs.Extension.{basis_sum};
ghost use Rattle.stark_support.specs.Ring.{difference};
ghost use Rattle.stark_support.specs.Lanes.{one_lane, alone_is_lane_by_lane};
ghost use Rattle.stark_support.specs.Operations.{exact, exact_binary, exact_unary, ring_operations, total};
ghost use Rattle.stark_support.specs.Embedding.{embedded_two_adic};
ghost use Rattle.stark_fields.specs.Quartic.{quartic_norm, quartic_cofactor};
ghost use Rattle.stark_fields.specs.Ext4Field.{coordinates_of, of_coordinates, ext4, ext4_ring, ext4_inverse, ext4_laws, embedded, embedded_is_embedding, basis_of, coordinate_list, ext4_basis, generator_x, eq_gives_same};

use crate::ext4::Ext4;
use crate::modulus::Modulus;
use crate::residue::Residue;
use stark_support::{
    Algebra, Element, ExactAlgebra, ExtensionField, Field, PackedField, PackedValue, PairedValue,
    QuarticBase, TwoAdicField, packed_linear_combination,
};
use std::ops::{Add, Mul, Neg, Sub};

impl<F: QuarticBase> Default for Ext4<F> {
    ghost is_default = { λ x. x ≡ (ext4_ring F.ring F.QUARTIC_CONSTANT).zero };

    fn default() -> Ext4<F> {
        Ext4 {
            c0: F::ZERO,
            c1: F::ZERO,
            c2: F::ZERO,
            c3: F::ZERO,
        }
    }
}

impl<F: QuarticBase> From<F> for Ext4<F> {
    ghost from_gives = { λ x y. y ≡ embedded F.ring x };

    fn from(x: F) -> Ext4<F> {
        Ext4 {
            c0: x,
            c1: F::ZERO,
            c2: F::ZERO,
            c3: F::ZERO,
        }
    }
}

impl<F: QuarticBase> Add for Ext4<F> {
    type Output = Ext4<F>;

    ghost add_gives = { λ x y r. r ≡ (ext4_ring F.ring F.QUARTIC_CONSTANT).add x y };

    fn add(self, other: Ext4<F>) -> Ext4<F> {
        Ext4 {
            c0: self.c0 + other.c0,
            c1: self.c1 + other.c1,
            c2: self.c2 + other.c2,
            c3: self.c3 + other.c3,
        }
    }
}

impl<F: QuarticBase> Sub for Ext4<F> {
    type Output = Ext4<F>;

    ghost sub_gives = { λ x y r. r ≡ difference (ext4_ring F.ring F.QUARTIC_CONSTANT) x y };

    fn sub(self, other: Ext4<F>) -> Ext4<F> {
        self + -other
    }
}

impl<F: QuarticBase> Neg for Ext4<F> {
    type Output = Ext4<F>;

    ghost neg_gives = { λ x r. r ≡ (ext4_ring F.ring F.QUARTIC_CONSTANT).neg x };

    fn neg(self) -> Ext4<F> {
        Ext4 {
            c0: -self.c0,
            c1: -self.c1,
            c2: -self.c2,
            c3: -self.c3,
        }
    }
}

impl<F: QuarticBase> Mul for Ext4<F> {
    type Output = Ext4<F>;

    ghost mul_gives = { λ x y r. r ≡ (ext4_ring F.ring F.QUARTIC_CONSTANT).mul x y };

    // Three products by the constant first, so that each coordinate is one sum of four products.
    fn mul(self, other: Ext4<F>) -> Ext4<F> {
        let w = F::QUARTIC_CONSTANT;
        let w1 = w * other.c1;
        let w2 = w * other.c2;
        let w3 = w * other.c3;
        let Ext4 {
            c0: y0,
            c1: y1,
            c2: y2,
            c3: y3,
        } = other;
        let Ext4 { c0, c1, c2, c3 } = self;
        Ext4 {
            c0: F::sum_of_products((c0, y0), (c1, w3), (c2, w2), (c3, w1)),
            c1: F::sum_of_products((c0, y1), (c1, y0), (c2, w3), (c3, w2)),
            c2: F::sum_of_products((c0, y2), (c1, y1), (c2, y0), (c3, w3)),
            c3: F::sum_of_products((c0, y3), (c1, y2), (c2, y1), (c3, y0)),
        }
    }
}

impl<F: QuarticBase> Algebra<Ext4<F>> for Ext4<F> {
    ghost operations = { ring_operations (ext4_ring F.ring F.QUARTIC_CONSTANT) (λ x. x) };

    ghost stands = { λ v x. x ≡ v };

    fn dup(&self) -> Ext4<F> {
        *self
    }

    ghost may_add = { λ _ _. tt };

    ghost may_sub = { λ _ _. tt };

    ghost may_mul = { λ _ _. tt };

    ghost may_neg = { λ _. tt };

    ghost stands_itself = { λ _. refl };

    ghost embed_stands = { λ _ _ h. h };

    ghost plus_stands = { exact_binary (ext4_ring F.ring F.QUARTIC_CONSTANT).add };

    ghost minus_stands = { exact_binary (difference (ext4_ring F.ring F.QUARTIC_CONSTANT)) };

    ghost times_stands = { exact_binary (ext4_ring F.ring F.QUARTIC_CONSTANT).mul };

    ghost negated_stands = { exact_unary (ext4_ring F.ring F.QUARTIC_CONSTANT).neg };
}

impl<F: QuarticBase> ExactAlgebra for Ext4<F> {
    type Scalar = F;

    ghost algebra_ring = { ext4_ring F.ring F.QUARTIC_CONSTANT };

    ghost embedding = { embedded F.ring };

    ghost is_total = { total };

    ghost is_exact = { exact (ext4_ring F.ring F.QUARTIC_CONSTANT) (embedded F.ring) };
}

/// The product of the four conjugates.
fn norm<F: QuarticBase>(x: Ext4<F>) -> F
    ensures { result ≡ quartic_norm F.ring F.QUARTIC_CONSTANT (coordinates_of x) }
{
    let w = F::QUARTIC_CONSTANT;
    let low = (x.c0 * x.c0 + w * (x.c2 * x.c2)) - w * (x.c1 * x.c3 + x.c1 * x.c3);
    let high = (x.c0 * x.c2 + x.c0 * x.c2) - (x.c1 * x.c1 + w * (x.c3 * x.c3));
    low * low - w * (high * high)
}

/// What times `x` gives the norm of `x` times `factor`.
fn cofactor<F: QuarticBase>(x: Ext4<F>, factor: F) -> Ext4<F>
    ensures { result ≡ of_coordinates (quartic_cofactor F.ring F.QUARTIC_CONSTANT (coordinates_of x)
        factor) }
{
    let w = F::QUARTIC_CONSTANT;
    let low = ((x.c0 * x.c0 + w * (x.c2 * x.c2)) - w * (x.c1 * x.c3 + x.c1 * x.c3)) * factor;
    let high = -(((x.c0 * x.c2 + x.c0 * x.c2) - (x.c1 * x.c1 + w * (x.c3 * x.c3))) * factor);
    Ext4 {
        c0: x.c0 * low + w * (x.c2 * high),
        c1: -(x.c1 * low + w * (x.c3 * high)),
        c2: x.c0 * high + x.c2 * low,
        c3: -(x.c1 * high + x.c3 * low),
    }
}

impl<F: QuarticBase> PackedValue for Ext4<F> {
    type Value = Ext4<F>;

    ghost WIDTH = { 1 };

    ghost lanes = { one_lane };

    ghost lane_ring = { (ext4_ring F.ring F.QUARTIC_CONSTANT) };

    const WIDTH: usize = 1;

    #[tactic(auto, using(stark_support::specs::Lanes::lone_slice))]
    fn from_slice(values: &[Ext4<F>]) -> Ext4<F> {
        values[0]
    }

    #[tactic(auto, using(stark_support::specs::Lanes::lone_extracted))]
    fn extract(&self, _lane: usize) -> Ext4<F> {
        *self
    }

    #[tactic(auto, using(stark_support::specs::Lanes::lone_replaced))]
    fn with_lane(self, _lane: usize, value: Ext4<F>) -> Ext4<F> {
        value
    }

    ghost lane_by_lane = { alone_is_lane_by_lane (ext4_ring F.ring F.QUARTIC_CONSTANT) };

    ghost exact_lanes = { λ _ _ h. h };
}

impl<M: Modulus, Kind> PairedValue for Ext4<Residue<M, Kind>> {
    ghost room_for_two = { lit< tt };

    ghost pair_fits = { lit< tt };
}

impl<F: QuarticBase> Element for Ext4<F> {
    ghost ONE = { embedded F.ring F.ring.one };

    const ONE: Ext4<F> = Ext4 {
        c0: F::ONE,
        c1: F::ZERO,
        c2: F::ZERO,
        c3: F::ZERO,
    };
}

impl<M: Modulus, Kind> PackedField for Ext4<Residue<M, Kind>> {
    type Packing = Ext4<Residue<M, Kind>>;

    ghost BENEFITS_FROM_LOCKSTEP_EVALUATION = { false };

    const BENEFITS_FROM_LOCKSTEP_EVALUATION: bool = false;

    fn packed_sum(
        values: &[Ext4<Residue<M, Kind>>],
        coefficients: &[Ext4<Residue<M, Kind>>],
    ) -> Ext4<Residue<M, Kind>> {
        packed_linear_combination(values, coefficients)
    }

    ghost packed_ring = { refl };
}

impl<F: QuarticBase> Field for Ext4<F> {
    ghost ring = { ext4_ring F.ring F.QUARTIC_CONSTANT };

    ghost inverse_of = { ext4_inverse F.ring F.inverse_of F.QUARTIC_CONSTANT };

    ghost is_element = { λ x. (F.is_element x.c0) × (F.is_element x.c1) × (F.is_element x.c2)
        × (F.is_element x.c3) };

    ghost ZERO = { embedded F.ring F.ring.zero };

    ghost GENERATOR = { embedded F.ring F.GENERATOR };

    const ZERO: Ext4<F> = Ext4 {
        c0: F::ZERO,
        c1: F::ZERO,
        c2: F::ZERO,
        c3: F::ZERO,
    };

    const GENERATOR: Ext4<F> = Ext4 {
        c0: F::GENERATOR,
        c1: F::ZERO,
        c2: F::ZERO,
        c3: F::ZERO,
    };

    fn known_element(self) {}

    fn inverse(self) -> Ext4<F> {
        cofactor(self, norm(self).inverse())
    }

    ghost field_laws = { ext4_laws F.field_laws F.QUARTIC_CONSTANT F.quartic_constant };

    ghost every_value = { λ x. (
      F.every_value x.c0,
      F.every_value x.c1,
      F.every_value x.c2,
      F.every_value x.c3,
    ) };

    ghost zero_is = { refl };

    ghost one_is = { refl };

    ghost default_is = { λ _ h. h };

    ghost eq_same = { eq_gives_same F.eq F.eq_same };

    ghost may_add = { λ _ _. tt };

    ghost may_sub = { λ _ _. tt };

    ghost may_mul = { λ _ _. tt };

    ghost may_neg = { λ _. tt };

    ghost add_is = { λ _ _ _ h. h };

    ghost sub_is = { λ _ _ _ h. h };

    ghost mul_is = { λ _ _ _ h. h };

    ghost neg_is = { λ _ _ h. h };
}

/// The sum of the basis times the coordinates.
fn from_coordinates<F: QuarticBase>(c0: F, c1: F, c2: F, c3: F) -> Ext4<F>
    ensures { result ≡ basis_sum (ext4_ring F.ring F.QUARTIC_CONSTANT) (λ c. c) (basis_of F.ring)
        (map (embedded F.ring) (c0 ∷ (c1 ∷ (c2 ∷ (c3 ∷ []))))) }
{
    Ext4 { c0, c1, c2, c3 }
}

impl<F: QuarticBase> ExtensionField<F> for Ext4<F> {
    ghost DIMENSION = { 4 };

    ghost embed = { embedded F.ring };

    ghost basis = { basis_of F.ring };

    ghost coordinates = { coordinate_list };

    const DIMENSION: usize = 4;

    fn from_base(x: F) -> Ext4<F> {
        Ext4 {
            c0: x,
            c1: F::ZERO,
            c2: F::ZERO,
            c3: F::ZERO,
        }
    }

    fn coordinate(self, index: usize) -> F {
        match index {
            0 => self.c0,
            1 => self.c1,
            2 => self.c2,
            _ => self.c3,
        }
    }

    fn basis_element(index: usize) -> Ext4<F> {
        let mut element = Ext4 {
            c0: F::ZERO,
            c1: F::ZERO,
            c2: F::ZERO,
            c3: F::ZERO,
        };
        match index {
            0 => element.c0 = F::ONE,
            1 => element.c1 = F::ONE,
            2 => element.c2 = F::ONE,
            _ => element.c3 = F::ONE,
        }
        element
    }

    fn from_basis_coefficients_slice(coefficients: &[F]) -> Option<Ext4<F>> {
        match coefficients {
            [c0, c1, c2, c3] => Some(from_coordinates(*c0, *c1, *c2, *c3)),
            _ => None,
        }
    }

    fn from_ext_basis_coefficients(coefficients: &[Ext4<F>]) -> Option<Ext4<F>> {
        let (zero, one) = (F::ZERO, F::ONE);
        match coefficients {
            [c0, c1, c2, c3] => Some(
                Ext4 {
                    c0: one,
                    c1: zero,
                    c2: zero,
                    c3: zero,
                } * *c0
                    + (Ext4 {
                        c0: zero,
                        c1: one,
                        c2: zero,
                        c3: zero,
                    } * *c1
                        + (Ext4 {
                            c0: zero,
                            c1: zero,
                            c2: one,
                            c3: zero,
                        } * *c2
                            + (Ext4 {
                                c0: zero,
                                c1: zero,
                                c2: zero,
                                c3: one,
                            } * *c3
                                + Ext4::<F>::ZERO))),
            ),
            _ => None,
        }
    }

    ghost embeds = { embedded_is_embedding F.field_laws.of_ring F.QUARTIC_CONSTANT };

    ghost is_basis = { ext4_basis F.field_laws.of_ring F.QUARTIC_CONSTANT };

    ghost operations_above = { refl };

    ghost from_is = { λ _ _ h. h };

    ghost exact_above = { λ _ _ h. h };
}

impl<F: QuarticBase + TwoAdicField> TwoAdicField for Ext4<F> {
    ghost TWO_ADICITY = { F.TWO_ADICITY };

    ghost root = { λ k. embedded F.ring (F.root k) };

    ghost quotient_of = { λ _. 0 };

    const TWO_ADICITY: usize = F::TWO_ADICITY;

    fn two_adic_generator(bits: usize) -> Ext4<F> {
        Ext4 {
            c0: F::two_adic_generator(bits),
            c1: F::ZERO,
            c2: F::ZERO,
            c3: F::ZERO,
        }
    }

    fn factor_quotient(self) -> u32 {
        0
    }

    fn times_factor(self, factor: Ext4<F>, _quotient: u32) -> Ext4<F>
        ensures { result ≡ (ext4_ring F.ring F.QUARTIC_CONSTANT).mul factor self }
    {
        factor * self
    }

    ghost two_adic = { embedded_two_adic
        (embedded_is_embedding F.field_laws.of_ring F.QUARTIC_CONSTANT) F.TWO_ADICITY F.root
        F.GENERATOR F.two_adic };
}
