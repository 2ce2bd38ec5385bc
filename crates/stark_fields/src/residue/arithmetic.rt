//! The operations of a prime field.
ghost use Rattle.std.specs.Prelude.{◌<◌, ◌≡◌, ◌==◌, zero, ◌*◌, ◌-◌, ◌^◌, refl, ⊤};
ghost use Rattle.stark_support.specs.Ring.{difference, four_products};
ghost use Rattle.stark_support.specs.Powers.{power, squarings};
ghost use Rattle.stark_support.specs.Lanes.{one_lane, alone_is_lane_by_lane};
ghost use Rattle.stark_support.specs.Operations.{exact, total};
ghost use Rattle.std.specs.Cmp.Rules.{comparing};
ghost use Rattle.std.proofs.Common.{rules, lit<};
ghost use Rattle.stark_fields.specs.Residues.{residue, residue_ring, residue_inverse, eq_gives_same, residue_of_value, value_of_residue};
ghost use Rattle.stark_fields.specs.Quotients.{shoup_quotient};
ghost use Rattle.stark_fields.specs.PrimeField.{number_fits, residue_laws, quartic_constant, root, two_adic_laws};

use crate::modulus::Modulus;
use crate::residue::Residue;
use stark_support::{
    Element, ExactAlgebra, Field, PackedValue, PairedValue, PrimeField64, QuarticBase,
    TwoAdicField, squared_times,
};
use std::fmt::{self, Write};
use std::marker::PhantomData;
use std::ops::{Add, Mul, Neg, Sub};

impl<M: Modulus, Kind> Residue<M, Kind> {
    /// The number below the modulus.
    pub fn value(self) -> u32
        ensures { result ≡ self.value }
    {
        self.value
    }

    /// The number modulo the modulus. Any number is taken.
    pub fn new(number: u32) -> Residue<M, Kind>
        ensures { result ≡ residue number }
    {
        Residue {
            value: number % M::MODULUS,
            modulus: PhantomData,
            kind: PhantomData,
        }
    }

    /// The residue of a number that is reduced.
    pub(crate) fn of_reduced(number: u32) -> Residue<M, Kind>
        requires { number < M.MODULUS }
        ensures { result ≡ residue number }
    {
        Residue {
            value: number,
            modulus: PhantomData,
            kind: PhantomData,
        }
    }

    /// The residue of a number below twice the modulus.
    fn of_sum(number: u32) -> Residue<M, Kind>
        requires { number < 2 * M.MODULUS }
        ensures { result ≡ residue number }
    {
        let value = if number < M::MODULUS {
            number
        } else {
            number - M::MODULUS
        };
        Residue {
            value,
            modulus: PhantomData,
            kind: PhantomData,
        }
    }

    /// The residue of a product, or of a sum of four.
    fn of_product(number: u64) -> Residue<M, Kind>
        ensures { result ≡ residue number }
    {
        Residue {
            value: (number % u64::from(M::MODULUS)) as u32,
            modulus: PhantomData,
            kind: PhantomData,
        }
    }

    /// The product of a pair's numbers, not reduced: below 2^62.
    fn wide_product(pair: (Residue<M, Kind>, Residue<M, Kind>)) -> u64
        ensures product { result ≡ pair.0.value * pair.1.value }
        ensures short { result < 4611686018427387904 }
    {
        u64::from(pair.0.value) * u64::from(pair.1.value)
    }

    /// The residue squared `times` times.
    fn squared(self, times: usize) -> Residue<M, Kind>
        ensures { result ≡ squarings residue_ring self times }
    {
        let mut square = self;
        for _step in 0..times {
            square = square * square;
        }
        square
    }

    /// The residue to the power `2^bits - 1`, by doubling the bits.
    fn to_ones(self, bits: usize) -> Residue<M, Kind>
        requires { zero < bits }
        ensures { result ≡ power residue_ring self (2 ^ bits - 1) }
    {
        if bits == 1 {
            return self;
        }
        let half = bits / 2;
        let ones = self.to_ones(half);
        let both = ones.squared(half) * ones;
        if bits % 2 == 1 {
            both * both * self
        } else {
            both
        }
    }

    /// The residue times itself `exponent` times.
    fn to_power(self, exponent: u32) -> Residue<M, Kind>
        ensures { result ≡ power residue_ring self exponent }
    {
        let mut result = Residue::new(1);
        let mut square = self;
        let mut left = exponent;
        while left > 0 {
            if left % 2 == 1 {
                result = result * square;
            }
            square = square * square;
            left /= 2;
        }
        result
    }
}

impl<M: Modulus, Kind> PartialEq for Residue<M, Kind> {
    ghost eq = { λ x y. x.value == y.value };

    ghost laws = { Prim.search (comparing, rules) };

    fn eq(&self, other: &Residue<M, Kind>) -> bool {
        self.value == other.value
    }
}

impl<M: Modulus, Kind> Eq for Residue<M, Kind> {
    ghost laws = { Prim.search (comparing, rules) };
}

impl<M: Modulus, Kind> fmt::Debug for Residue<M, Kind> {
    fn fmt<W: Write>(&self, formatter: &mut fmt::Formatter<W>) -> fmt::Result {
        write!(formatter, "{}", self.value)
    }
}

impl<M: Modulus, Kind> Default for Residue<M, Kind> {
    ghost is_default = { λ x. x ≡ residue 0 };

    fn default() -> Residue<M, Kind> {
        Residue::new(0)
    }
}

impl<M: Modulus, Kind> Add for Residue<M, Kind> {
    type Output = Residue<M, Kind>;

    ghost add_gives = { λ x y r. r ≡ residue_ring.add x y };

    fn add(self, other: Residue<M, Kind>) -> Residue<M, Kind> {
        Residue::of_sum(self.value + other.value)
    }
}

impl<M: Modulus, Kind> Sub for Residue<M, Kind> {
    type Output = Residue<M, Kind>;

    ghost sub_gives = { λ x y r. r ≡ difference residue_ring x y };

    fn sub(self, other: Residue<M, Kind>) -> Residue<M, Kind> {
        Residue::of_sum(self.value + (M::MODULUS - other.value))
    }
}

impl<M: Modulus, Kind> Mul for Residue<M, Kind> {
    type Output = Residue<M, Kind>;

    ghost mul_gives = { λ x y r. r ≡ residue_ring.mul x y };

    // Below 2^16 a product fits 32 bits, and a loop over such products can become vector code.
    fn mul(self, other: Residue<M, Kind>) -> Residue<M, Kind> {
        if M::MODULUS < 65536 {
            return Residue::new(self.value * other.value);
        }
        Residue::of_product(u64::from(self.value) * u64::from(other.value))
    }
}

impl<M: Modulus, Kind> Neg for Residue<M, Kind> {
    type Output = Residue<M, Kind>;

    ghost neg_gives = { λ x r. r ≡ residue_ring.neg x };

    fn neg(self) -> Residue<M, Kind> {
        Residue::of_sum(M::MODULUS - self.value)
    }
}

impl<M: Modulus, Kind> ExactAlgebra for Residue<M, Kind> {
    type Scalar = Residue<M, Kind>;

    ghost algebra_ring = { residue_ring };

    ghost embedding = { λ x. x };

    ghost is_total = { total };

    ghost is_exact = { exact residue_ring (λ x. x) };
}

impl<M: Modulus, Kind> PackedValue for Residue<M, Kind> {
    type Value = Residue<M, Kind>;

    ghost WIDTH = { 1 };

    ghost lanes = { one_lane };

    ghost lane_ring = { residue_ring };

    const WIDTH: usize = 1;

    #[tactic(auto, using(stark_support::specs::Lanes::lone_slice))]
    fn from_slice(values: &[Residue<M, Kind>]) -> Residue<M, Kind> {
        values[0]
    }

    #[tactic(auto, using(stark_support::specs::Lanes::lone_extracted))]
    fn extract(&self, _lane: usize) -> Residue<M, Kind> {
        *self
    }

    #[tactic(auto, using(stark_support::specs::Lanes::lone_replaced))]
    fn with_lane(self, _lane: usize, value: Residue<M, Kind>) -> Residue<M, Kind> {
        value
    }

    ghost lane_by_lane = { alone_is_lane_by_lane residue_ring };

    ghost exact_lanes = { λ _ _ h. h };
}

impl<M: Modulus, Kind> PairedValue for Residue<M, Kind> {
    ghost room_for_two = { lit< tt };

    ghost pair_fits = { lit< tt };
}

impl<M: Modulus, Kind> Element for Residue<M, Kind> {
    ghost ONE = { residue 1 };

    const ONE: Residue<M, Kind> = Residue {
        value: 1,
        modulus: PhantomData,
        kind: PhantomData,
    };
}

impl<M: Modulus, Kind> Field for Residue<M, Kind> {
    ghost ring = { residue_ring };

    ghost inverse_of = { residue_inverse };

    ghost is_element = { λ x. x.value < M.MODULUS };

    ghost ZERO = { residue 0 };

    ghost GENERATOR = { residue M.GENERATOR };

    const ZERO: Residue<M, Kind> = Residue {
        value: 0,
        modulus: PhantomData,
        kind: PhantomData,
    };

    const GENERATOR: Residue<M, Kind> = Residue {
        value: M::GENERATOR,
        modulus: PhantomData,
        kind: PhantomData,
    };

    fn known_element(self) {}

    // x^(p - 2), where p - 2 is 2^bits - 1 and 2^bits times one less than the odd part of p - 1.
    fn inverse(self) -> Residue<M, Kind> {
        let ones = self.to_ones(M::TWO_ADICITY);
        let odd_part = (M::MODULUS - 1) >> M::TWO_ADICITY;
        ones * (ones * self).to_power(odd_part - 1)
    }

    ghost field_laws = { residue_laws _ _ };

    ghost every_value = { λ x. x.in_range };

    ghost zero_is = { refl };

    ghost one_is = { refl };

    ghost default_is = { λ _ h. h };

    ghost eq_same = { eq_gives_same };

    ghost may_add = { λ _ _. tt };

    ghost may_sub = { λ _ _. tt };

    ghost may_mul = { λ _ _. tt };

    ghost may_neg = { λ _. tt };

    ghost add_is = { λ _ _ _ h. h };

    ghost sub_is = { λ _ _ _ h. h };

    ghost mul_is = { λ _ _ _ h. h };

    ghost neg_is = { λ _ _ h. h };
}

impl<M: Modulus, Kind> PrimeField64 for Residue<M, Kind> {
    ghost ORDER = { M.MODULUS };

    ghost BYTES = { M.BYTES };

    ghost number_of = { λ x. x.value };

    const BYTES: usize = M::BYTES;

    fn as_canonical_u64(&self) -> u64 {
        u64::from(self.value)
    }

    ghost of_number = { residue };

    fn from_u8(number: u8) -> Residue<M, Kind> {
        Residue::new(u32::from(number))
    }

    ghost above = { M.prime.above };

    ghost fits = { number_fits M.MODULUS M.prime.below };

    ghost fits_bytes = { M.bytes.fits };

    ghost few_bytes = { M.bytes.few };

    ghost below = { λ x. x.in_range };

    ghost one_number = { value_of_residue M.MODULUS };

    ghost same_number = { residue_of_value };
}

impl<M: Modulus, Kind> QuarticBase for Residue<M, Kind> {
    ghost QUARTIC_CONSTANT = { residue M.QUARTIC_CONSTANT };

    const QUARTIC_CONSTANT: Residue<M, Kind> = Residue {
        value: M::QUARTIC_CONSTANT,
        modulus: PhantomData,
        kind: PhantomData,
    };

    ghost quartic_constant = { quartic_constant _ _ };

    // Four products of numbers below 2^31 have a sum that fits 64 bits.
    fn sum_of_products(
        first: (Residue<M, Kind>, Residue<M, Kind>),
        second: (Residue<M, Kind>, Residue<M, Kind>),
        third: (Residue<M, Kind>, Residue<M, Kind>),
        fourth: (Residue<M, Kind>, Residue<M, Kind>),
    ) -> Residue<M, Kind>
        ensures { result ≡ four_products residue_ring first.0 first.1 second.0 second.1 third.0
            third.1 fourth.0 fourth.1 }
    {
        let upper = Residue::wide_product(first) + Residue::wide_product(second);
        let lower = Residue::wide_product(third) + Residue::wide_product(fourth);
        Residue::of_product(upper + lower)
    }
}

impl<M: Modulus, Kind> TwoAdicField for Residue<M, Kind> {
    ghost TWO_ADICITY = { M.TWO_ADICITY };

    ghost root = { root };

    ghost quotient_of = { λ x. shoup_quotient M.MODULUS x.value };

    const TWO_ADICITY: usize = M::TWO_ADICITY;

    fn two_adic_generator(bits: usize) -> Residue<M, Kind> {
        squared_times(Residue::new(M::ROOT), M::TWO_ADICITY - bits)
    }

    fn factor_quotient(self) -> u32 {
        (u64::from(self.value) * 4294967296 / u64::from(M::MODULUS)) as u32
    }

    // Shoup's method: the factor's quotient tells how often the modulus goes into the product, or
    // once less. A loop over such products can become vector code.
    fn times_factor(self, factor: Residue<M, Kind>, quotient: u32) -> Residue<M, Kind>
        requires { quotient ≡ shoup_quotient M.MODULUS factor.value }
        ensures { result ≡ residue_ring.mul factor self }
    {
        let times = (u64::from(self.value) * u64::from(quotient)) >> 32;
        let rest = Residue::wide_product((factor, self)) - times * u64::from(M::MODULUS);
        Residue::of_sum(rest as u32)
    }

    ghost two_adic = { two_adic_laws _ _ };
}
