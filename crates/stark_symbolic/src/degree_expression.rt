//! Expressions of which two degrees are known, and nothing else.
ghost use Rattle.std.specs.Prelude.{◌≡◌, ◌<◌, ◌^◌, refl};
ghost use Rattle.stark_support.specs.Operations.{exact_binary, exact_unary};
ghost use Rattle.stark_symbolic.specs.DegreePair.{fitting_greater, fitting_sum, greater_pair, sum_pair, greater_degrees, sum_degrees, known, pair_operations};

use stark_support::{Algebra, Field};
use std::marker::PhantomData;
use std::ops::{Add, Mul, Neg, Sub};

/// Two degrees, each under its own degrees of the leaves; None where one is above the greatest
/// `usize`.
#[derive(Clone, Copy)]
pub struct DegreePair {
    pub first: Option<usize>,
    pub second: Option<usize>,
}

/// The greater of two numbers, None where one of them is none.
fn greater(left: Option<usize>, right: Option<usize>) -> Option<usize>
    ensures { result ≡ fitting_greater left right }
{
    match (left, right) {
        (Some(left), Some(right)) => Some(left.max(right)),
        _ => None,
    }
}

/// The sum of two numbers, None where one of them is none or the sum doesn't fit.
fn sum(left: Option<usize>, right: Option<usize>) -> Option<usize>
    ensures { result ≡ fitting_sum left right }
{
    match (left, right) {
        (Some(left), Some(right)) => left.checked_add(right),
        _ => None,
    }
}

impl DegreePair {
    /// The greater degrees.
    pub fn greater(self, other: DegreePair) -> DegreePair
        ensures { result ≡ greater_pair self other }
    {
        DegreePair {
            first: greater(self.first, other.first),
            second: greater(self.second, other.second),
        }
    }

    /// The sums of the degrees.
    fn sum(self, other: DegreePair) -> DegreePair
        ensures { result ≡ sum_pair self other }
    {
        DegreePair {
            first: sum(self.first, other.first),
            second: sum(self.second, other.second),
        }
    }
}

/// An expression by its two degrees. The operators take constant time and no memory.
#[derive(Clone, Copy)]
pub struct DegreeExpression<F> {
    pub degrees: DegreePair,
    pub field: PhantomData<F>,
}

impl<F> DegreeExpression<F> {
    /// A leaf of these degrees.
    pub fn of(first: usize, second: usize) -> Self
        ensures known { result ≡ known first second }
        ensures first { first < 2 ^ 64 }
        ensures second { second < 2 ^ 64 }
    {
        DegreeExpression {
            degrees: DegreePair {
                first: Some(first),
                second: Some(second),
            },
            field: PhantomData,
        }
    }
}

impl<F: Field> From<F> for DegreeExpression<F> {
    ghost from_gives = { λ k x. x ≡ known 0 0 };

    /// A constant has degree 0.
    fn from(_k: F) -> DegreeExpression<F> {
        DegreeExpression::of(0, 0)
    }
}

/// A public value, of which nothing is known but that its degree is 0: a list of them has no bytes.
#[derive(Clone, Copy)]
pub struct PublicDegree<F> {
    pub field: PhantomData<F>,
}

impl<F: Field> From<PublicDegree<F>> for DegreeExpression<F> {
    ghost from_gives = { λ k x. x ≡ known 0 0 };

    fn from(_value: PublicDegree<F>) -> DegreeExpression<F> {
        let degree = 0;
        DegreeExpression::of(degree, degree)
    }
}

impl<F: Field> Add<DegreeExpression<F>> for DegreeExpression<F> {
    type Output = DegreeExpression<F>;

    ghost can_add = { λ x y. Unit {0} };

    ghost add_gives = { λ x y z. z ≡ greater_degrees x y };

    fn add(self, other: DegreeExpression<F>) -> DegreeExpression<F> {
        DegreeExpression {
            degrees: self.degrees.greater(other.degrees),
            field: PhantomData,
        }
    }
}

impl<F: Field> Sub<DegreeExpression<F>> for DegreeExpression<F> {
    type Output = DegreeExpression<F>;

    ghost can_sub = { λ x y. Unit {0} };

    ghost sub_gives = { λ x y z. z ≡ greater_degrees x y };

    fn sub(self, other: DegreeExpression<F>) -> DegreeExpression<F> {
        self + other
    }
}

impl<F: Field> Mul<DegreeExpression<F>> for DegreeExpression<F> {
    type Output = DegreeExpression<F>;

    ghost can_mul = { λ x y. Unit {0} };

    ghost mul_gives = { λ x y z. z ≡ sum_degrees x y };

    fn mul(self, other: DegreeExpression<F>) -> DegreeExpression<F> {
        DegreeExpression {
            degrees: self.degrees.sum(other.degrees),
            field: PhantomData,
        }
    }
}

impl<F: Field> Neg for DegreeExpression<F> {
    type Output = DegreeExpression<F>;

    ghost can_neg = { λ x. Unit {0} };

    ghost neg_gives = { λ x z. z ≡ x };

    fn neg(self) -> DegreeExpression<F> {
        self
    }
}

impl<F: Field> Algebra<F> for DegreeExpression<F> {
    ghost operations = { pair_operations };

    ghost stands = { λ v x. x ≡ v };

    ghost may_add = { λ x y. tt };

    ghost may_sub = { λ x y. tt };

    ghost may_mul = { λ x y. tt };

    ghost may_neg = { λ x. tt };

    ghost stands_itself = { λ _. refl };

    ghost embed_stands = { λ k x given. given };

    ghost plus_stands = { λ x y z v w given. exact_binary greater_degrees x y z v w given };

    ghost minus_stands = { λ x y z v w given. exact_binary greater_degrees x y z v w given };

    ghost times_stands = { λ x y z v w given. exact_binary sum_degrees x y z v w given };

    ghost negated_stands = { λ x z v given. exact_unary (λ y. y) x z v given };

    /// A copy.
    fn dup(&self) -> DegreeExpression<F> {
        *self
    }
}
