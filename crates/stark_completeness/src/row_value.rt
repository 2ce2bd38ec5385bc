//! Values over one row of a trace.
ghost use Rattle.std.specs.Prelude.{◌≡◌, ⊤};
ghost use Rattle.stark_support.specs.Ring.{difference};
ghost use Rattle.stark_support.specs.Operations.{exact, total};

use stark_support::{ExactAlgebra, Field};
use std::marker::Model;
use std::ops::{Add, Mul, Neg, Sub};

/// An expression over one row of a trace: its value, an element of the base field. A field is not
/// an algebra over itself, so that it takes a type of its own; contracts see the element.
#[derive(Clone, Copy, Debug)]
pub struct RowValue<F> {
    value: F,
}

impl<F> Model for RowValue<F> {
    ghost Value = { F };

    ghost view = { λ s. s.value };

    ghost inverse = { λ v. record { value = v } };
}

impl<F: Copy> RowValue<F> {
    /// The element.
    pub fn value(&self) -> F
        ensures { result ≡ self.now }
    {
        self.value
    }
}

impl<F> From<F> for RowValue<F> {
    ghost from_gives = { λ k x. x ≡ k };

    fn from(value: F) -> RowValue<F> {
        RowValue { value }
    }
}

impl<F: Field> Add<RowValue<F>> for RowValue<F> {
    type Output = RowValue<F>;

    ghost can_add = { λ x y. ⊤ };

    ghost add_gives = { λ x y z. z ≡ F.ring.add x y };

    fn add(self, other: RowValue<F>) -> RowValue<F> {
        RowValue {
            value: self.value + other.value,
        }
    }
}

impl<F: Field> Sub<RowValue<F>> for RowValue<F> {
    type Output = RowValue<F>;

    ghost can_sub = { λ x y. ⊤ };

    ghost sub_gives = { λ x y z. z ≡ difference F.ring x y };

    fn sub(self, other: RowValue<F>) -> RowValue<F> {
        RowValue {
            value: self.value - other.value,
        }
    }
}

impl<F: Field> Mul<RowValue<F>> for RowValue<F> {
    type Output = RowValue<F>;

    ghost can_mul = { λ x y. ⊤ };

    ghost mul_gives = { λ x y z. z ≡ F.ring.mul x y };

    fn mul(self, other: RowValue<F>) -> RowValue<F> {
        RowValue {
            value: self.value * other.value,
        }
    }
}

impl<F: Field> Neg for RowValue<F> {
    type Output = RowValue<F>;

    ghost can_neg = { λ x. ⊤ };

    ghost neg_gives = { λ x z. z ≡ F.ring.neg x };

    fn neg(self) -> RowValue<F> {
        RowValue { value: -self.value }
    }
}

impl<F: Field> ExactAlgebra for RowValue<F> {
    type Scalar = F;

    ghost algebra_ring = { F.ring };

    ghost embedding = { λ k. k };

    ghost is_total = { total };

    ghost is_exact = { exact F.ring (λ k. k) };
}
