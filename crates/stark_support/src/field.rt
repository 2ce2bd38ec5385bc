//! Fields, and the algebras over them, with their laws.
ghost use Rattle.std.specs.Prelude.{◌≡◌, ◌≢◌, ◌<◌, ◌≤◌, ◌^◌, ℕ, true, Bool, List, map, Option, Some, None, length, refl};
ghost use Rattle.std.specs.List.{slice_get};
ghost use Rattle.stark_support.specs.Ring.{RingOps, FieldLaws, IsQuarticConstant, difference, four_products};
ghost use Rattle.stark_support.specs.Operations.{AreExact, AreTotal, Operations, exact_binary, exact_unary, ring_operations};
ghost use Rattle.stark_support.specs.Combination.{linear_combination};
ghost use Rattle.stark_support.specs.Embedding.{IsEmbedding};
ghost use Rattle.stark_support.specs.Extension.{IsBasis, basis_sum};
ghost use Rattle.stark_support.specs.TwoAdic.{TwoAdicLaws};
ghost use Rattle.stark_support.specs.Lanes.{AddsProduct, EmbedsLanes};
ghost use Rattle.stark_support.specs.FieldPair.{FieldsOps};

use crate::packed::PairedValue;
use std::ops::{Add, Mul, Neg, Sub};

/// What a list of constraints needs of the elements of a field. It has no operator, so that a
/// builder may name it by an equality of types.
pub trait Element: Copy {
    ghost ONE: { Self };

    const ONE: Self;
}

/// Expressions over the elements of `F`: the elements of a field over `F`, packed values, trees of
/// symbols. An expression may stand for a value without being it, as one that says that memory was
/// refused.
pub trait Algebra<F>: From<F>
    + Add<Self, Output = Self>
    + Sub<Self, Output = Self>
    + Mul<Self, Output = Self>
    + Neg<Output = Self>
    + Drop {
    /// What the operators compute where no memory is refused.
    ghost operations: { Operations F Self };

    /// The second stands for the value that is the first.
    ghost stands: { Self → Self → Type 0 };

    /// A second copy.
    fn dup(&self) -> Self
        ensures { (v : Self) → stands v self.now → stands v result };

    ghost may_add: { (x y : Self) → Self.can_add x y };

    ghost may_sub: { (x y : Self) → Self.can_sub x y };

    ghost may_mul: { (x y : Self) → Self.can_mul x y };

    ghost may_neg: { (x : Self) → Self.can_neg x };

    ghost stands_itself: { (x : Self) → stands x x };

    ghost embed_stands: { (k : F) (x : Self) → Self.from_gives k x
        → stands (operations.embed k) x };

    ghost plus_stands: { (x y z v w : Self) → Self.add_gives x y z → stands v x → stands w y
        → stands (operations.plus v w) z };

    ghost minus_stands: { (x y z v w : Self) → Self.sub_gives x y z → stands v x → stands w y
        → stands (operations.minus v w) z };

    ghost times_stands: { (x y z v w : Self) → Self.mul_gives x y z → stands v x → stands w y
        → stands (operations.times v w) z };

    ghost negated_stands: { (x z v : Self) → Self.neg_gives x z → stands v x
        → stands (operations.negated v) z };
}

/// An algebra each of whose values stands for itself alone, as those of a field and packed values
/// do. It is an `Algebra` over its scalars.
pub trait ExactAlgebra: Copy
    + Drop
    + From<Self::Scalar>
    + Add<Self, Output = Self>
    + Sub<Self, Output = Self>
    + Mul<Self, Output = Self>
    + Neg<Output = Self> {
    type Scalar;

    /// The operations, as functions of the values.
    ghost algebra_ring: { RingOps Self };

    /// A scalar, as a value.
    ghost embedding: { Self.Scalar → Self };

    /// The operators may be called on whatever they are handed.
    ghost is_total: { AreTotal Self.can_add Self.can_sub Self.can_mul Self.can_neg };

    /// The operators and the conversion compute that.
    ghost is_exact: { AreExact algebra_ring embedding Self.from_gives Self.add_gives Self.sub_gives
        Self.mul_gives Self.neg_gives };
}

impl<A: ExactAlgebra> Algebra<A::Scalar> for A {
    ghost operations = { ring_operations A.algebra_ring A.embedding };

    ghost stands = { λ v x. x ≡ v };

    fn dup(&self) -> A {
        *self
    }

    ghost may_add = { A.is_total.may_add };

    ghost may_sub = { A.is_total.may_sub };

    ghost may_mul = { A.is_total.may_mul };

    ghost may_neg = { A.is_total.may_neg };

    ghost stands_itself = { λ _. refl };

    ghost embed_stands = { A.is_exact.from_is };

    ghost plus_stands = { λ x y z v w given.
        exact_binary A.algebra_ring.add x y z v w (A.is_exact.add_is x y z given) };

    ghost minus_stands = { λ x y z v w given.
        exact_binary (difference A.algebra_ring) x y z v w (A.is_exact.sub_is x y z given) };

    ghost times_stands = { λ x y z v w given.
        exact_binary A.algebra_ring.mul x y z v w (A.is_exact.mul_is x y z given) };

    ghost negated_stands = { λ x z v given.
        exact_unary A.algebra_ring.neg x z v (A.is_exact.neg_is x z given) };
}

/// A field. It is not an `Algebra<Self>`: that would bring `From<Self>` as a bound, which a generic
/// function would keep apart from the `From<T>` that every type has.
pub trait Field: Element
    + Eq
    + Default
    + Add<Self, Output = Self>
    + Sub<Self, Output = Self>
    + Mul<Self, Output = Self>
    + Neg<Output = Self> {
    /// The operations, as functions of the values.
    ghost ring: { RingOps Self };

    /// What `inverse` gives.
    ghost inverse_of: { Self → Self };

    /// Holds of the elements.
    ghost is_element: { Self → Type 0 };

    ghost ZERO: { Self };

    ghost GENERATOR: { Self };

    const ZERO: Self;

    const GENERATOR: Self;

    /// A value of the type is an element.
    fn known_element(self)
        ensures { is_element self };

    /// The element whose product with this one, which isn't zero, is one.
    fn inverse(self) -> Self
        requires { self ≢ ring.zero }
        ensures { result ≡ inverse_of self };

    /// The axioms of a field.
    ghost field_laws: { FieldLaws ring inverse_of };

    ghost every_value: { (x : Self) → is_element x };

    ghost zero_is: { ZERO ≡ ring.zero };

    ghost one_is: { Self.ONE ≡ ring.one };

    ghost default_is: { (x : Self) → Self.is_default x → x ≡ ring.zero };

    ghost eq_same: { (x y : Self) → Self.eq x y ≡ true → x ≡ y };

    ghost may_add: { (x y : Self) → Self.can_add x y };

    ghost may_sub: { (x y : Self) → Self.can_sub x y };

    ghost may_mul: { (x y : Self) → Self.can_mul x y };

    ghost may_neg: { (x : Self) → Self.can_neg x };

    ghost add_is: { (x y r : Self) → Self.add_gives x y r → r ≡ ring.add x y };

    ghost sub_is: { (x y r : Self) → Self.sub_gives x y r → r ≡ difference ring x y };

    ghost mul_is: { (x y r : Self) → Self.mul_gives x y r → r ≡ ring.mul x y };

    ghost neg_is: { (x r : Self) → Self.neg_gives x r → r ≡ ring.neg x };
}

/// A field whose elements are packed.
pub trait PackedField: Field {
    /// Packed values of this field.
    type Packing: PairedValue<Value = Self>;

    ghost BENEFITS_FROM_LOCKSTEP_EVALUATION: { Bool };

    /// Whether it pays to work on two packed values at a time.
    const BENEFITS_FROM_LOCKSTEP_EVALUATION: bool;

    /// The sum of packed values, each times its coefficient.
    fn packed_sum(values: &[Self::Packing], coefficients: &[Self]) -> Self::Packing
        requires { length values.now ≡ length coefficients.now }
        ensures { result ≡ linear_combination Self.Packing.operations Self.ZERO values.now
            coefficients.now };

    /// The lanes of packed values are added and multiplied as this field's elements.
    ghost packed_ring: { Self.Packing.lane_ring ≡ Self.ring };
}

/// A field of the residues modulo a prime, each of which is one number of 64 bits.
pub trait PrimeField64: Field {
    ghost ORDER: { ℕ };

    ghost BYTES: { ℕ };

    ghost number_of: { Self → ℕ };

    /// In how many bytes each number below the modulus is written.
    const BYTES: usize;

    /// The element's number, which is below the modulus.
    fn as_canonical_u64(&self) -> u64
        ensures { result ≡ number_of self.now };

    ghost of_number: { ℕ → Self };

    /// The element of a number, each of which is below the modulus.
    fn from_u8(number: u8) -> Self
        ensures { result ≡ of_number number };

    ghost above: { 255 < ORDER };

    /// Each number below the modulus is one of 64 bits, so that the bytes of different elements
    /// differ.
    ghost fits: { ORDER ≤ 2 ^ 64 };

    ghost fits_bytes: { ORDER ≤ 256 ^ BYTES };

    ghost few_bytes: { BYTES ≤ 8 };

    ghost below: { (x : Self) → number_of x < ORDER };

    ghost one_number: { (n : ℕ) → n < ORDER → number_of (of_number n) ≡ n };

    ghost same_number: { (x : Self) → of_number (number_of x) ≡ x };
}

/// A field with a group of `2 ^ bits` elements for each `bits` up to `TWO_ADICITY`.
pub trait TwoAdicField: Field {
    ghost TWO_ADICITY: { ℕ };

    /// A generator of the group of `2 ^ bits` elements.
    ghost root: { ℕ → Self };

    /// What `factor_quotient` gives.
    ghost quotient_of: { Self → ℕ };

    const TWO_ADICITY: usize;

    /// A generator of the group of `2 ^ bits` elements, the same one at each call; the square of
    /// the one of `bits + 1`.
    fn two_adic_generator(bits: usize) -> Self
        requires { bits ≤ TWO_ADICITY }
        ensures { result ≡ root bits };

    /// What `times_factor` wants to know of a factor, worked out once for many products.
    fn factor_quotient(self) -> u32
        ensures { result ≡ quotient_of self };

    /// The product with a factor. A field of residues divides by no modulus for it.
    fn times_factor(self, factor: Self, quotient: u32) -> Self
        requires { quotient ≡ quotient_of factor }
        ensures { result ≡ Self.ring.mul factor self };

    ghost two_adic: { TwoAdicLaws Self.ring TWO_ADICITY root Self.GENERATOR };
}

/// All that a field with two-adic roots and an extension of it compute, in one record.
pub trait FieldPair<F> {
    ghost fields: { FieldsOps F Self };
}

impl<F: TwoAdicField, EF: ExtensionField<F>> FieldPair<F> for EF {
    ghost fields = { record {
      base = F.ring;
      base_inverse = F.inverse_of;
      same = F.eq;
      adicity = F.TWO_ADICITY;
      root = F.root;
      generator = F.GENERATOR;
      ring = EF.ring;
      inverse = EF.inverse_of;
      embed = EF.embed;
      dimension = EF.DIMENSION;
      basis = EF.basis;
    } };
}

/// A field over which `X^4 - QUARTIC_CONSTANT` has no factor.
pub trait QuarticBase: Field {
    ghost QUARTIC_CONSTANT: { Self };

    const QUARTIC_CONSTANT: Self;

    /// The sum of the products of four pairs: a coordinate of a product in the extension of degree
    /// four. A field of residues reduces it once.
    fn sum_of_products(
        first: (Self, Self),
        second: (Self, Self),
        third: (Self, Self),
        fourth: (Self, Self),
    ) -> Self
        ensures { result ≡ four_products Self.ring first.0 first.1 second.0 second.1 third.0 third.1
            fourth.0 fourth.1 };

    ghost quartic_constant: { IsQuarticConstant Self.ring QUARTIC_CONSTANT };
}

/// A field over a base field.
pub trait ExtensionField<F: Field>: Field + Algebra<F> {
    ghost DIMENSION: { ℕ };

    /// An element of the base field, as one of this field.
    ghost embed: { F → Self };

    /// The elements that each element is a sum of, times its coordinates.
    ghost basis: { List Self };

    ghost coordinates: { Self → List F };

    const DIMENSION: usize;

    /// An element of the base field, as one of this field.
    fn from_base(x: F) -> Self
        ensures { result ≡ embed x };

    /// The element's coordinate at this place of the basis, counted from 0.
    fn coordinate(self, index: usize) -> F
        requires { index < DIMENSION }
        ensures { slice_get (coordinates self) index ≡ Some result };

    /// An element of the basis.
    fn basis_element(index: usize) -> Self
        requires { index < DIMENSION }
        ensures { slice_get basis index ≡ Some result };

    /// The element with the coordinates; None if their number isn't `DIMENSION`.
    fn from_basis_coefficients_slice(coefficients: &[F]) -> Option<Self>
        ensures as_many { length coefficients.now ≡ DIMENSION → result
            ≡ Some (basis_sum Self.ring (λ c. c) basis (map embed coefficients.now)) }
        ensures other { length coefficients.now ≢ DIMENSION → result ≡ None };

    /// The sum of the basis times the coefficients; None if their number isn't `DIMENSION`.
    fn from_ext_basis_coefficients(coefficients: &[Self]) -> Option<Self>
        ensures as_many { length coefficients.now ≡ DIMENSION → result
            ≡ Some (basis_sum Self.ring (λ c. c) basis coefficients.now) }
        ensures other { length coefficients.now ≢ DIMENSION → result ≡ None };

    ghost embeds: { IsEmbedding F.ring Self.ring embed };

    ghost is_basis: { IsBasis Self.ring embed DIMENSION basis coordinates };

    /// As an algebra over the base field it computes what its ring does, and an element stands for
    /// itself alone.
    ghost operations_above: { ⟦<Self as Algebra<F>>⟧.operations ≡ ring_operations Self.ring embed };

    ghost from_is: { (k : F) (x : Self) → ⟦<Self as From<F>>⟧.from_gives k x → x ≡ embed k };

    ghost exact_above: { (v x : Self) → ⟦<Self as Algebra<F>>⟧.stands v x → x ≡ v };
}

/// An extension field whose elements are packed beside those of its base field. It is a trait of
/// its own: as a part of `ExtensionField` its type keeps a trait's method from being generic in an
/// extension.
pub trait PackedExtensionField<F: PackedField>: ExtensionField<F> {
    /// Packed values of this field, as many as the base field packs.
    type ExtensionPacking: PairedValue<Value = Self> + From<F::Packing>;

    /// Packed elements of the base field, each embedded.
    fn from_packed_base(x: F::Packing) -> Self::ExtensionPacking
        ensures { Self.ExtensionPacking.lanes result ≡ map Self.embed (F.Packing.lanes x) };

    /// An element of the basis times packed elements of the base field, and the rest.
    fn plus_packed_coordinate(
        rest: Self::ExtensionPacking,
        index: usize,
        coordinate: F::Packing,
    ) -> Self::ExtensionPacking
        requires { index < Self.DIMENSION }
        ensures { AddsProduct Self.ring Self.embed Self.basis Self.ExtensionPacking.lanes
            Self.ExtensionPacking.WIDTH index (F.Packing.lanes coordinate) rest result };

    /// Packed elements of the base field that are turned into packed elements of this one are each
    /// embedded.
    ghost from_packed_is: { EmbedsLanes Self.embed F.Packing.lanes Self.ExtensionPacking.lanes
        ⟦<Self::ExtensionPacking as From<F::Packing>>⟧.from_gives };

    /// The lanes are added and multiplied as this field's elements.
    ghost extension_packed_ring: { Self.ExtensionPacking.lane_ring ≡ Self.ring };

    ghost packed_as_wide: { Self.ExtensionPacking.WIDTH ≡ F.Packing.WIDTH };
}

/// Whether an element is zero.
pub fn is_zero<F: Field>(element: F) -> bool
    ensures { result ≡ F.eq element F.ring.zero }
{
    element == F::ZERO
}
