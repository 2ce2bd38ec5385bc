//! The field of 2013265921 elements, which Plonky3 and others call BabyBear.
ghost use Rattle.std.specs.Prelude.{true};
ghost use Rattle.stark_fields.specs.BabyBear.{eleven_is_non_square, is_prime_modulus, is_two_adic, is_written};

use crate::modulus::Modulus;
use crate::residue::{Residue, Scalar};

/// The modulus 2013265921 = 15 * 2^27 + 1 = 2^31 - 2^27 + 1. Its constants are those of Plonky3's
/// `p3-baby-bear`: the generator 31, the element 440564289 of order 2^27, and the extension by a
/// root of X^4 - 11.
#[derive(Clone, Copy, Debug, PartialEq, Eq)]
pub struct BabyBear;

impl Modulus for BabyBear {
    ghost MODULUS = { 2013265921 };

    ghost BYTES = { 4 };

    ghost GENERATOR = { 31 };

    ghost QUARTIC_CONSTANT = { 11 };

    ghost TWO_ADICITY = { 27 };

    ghost ROOT = { 440564289 };

    ghost BENEFITS_FROM_LOCKSTEP = { true };

    const MODULUS: u32 = 2013265921;

    const BYTES: usize = 4;

    const GENERATOR: u32 = 31;

    const QUARTIC_CONSTANT: u32 = 11;

    const TWO_ADICITY: usize = 27;

    const ROOT: u32 = 440564289;

    const BENEFITS_FROM_LOCKSTEP: bool = true;

    ghost prime = { is_prime_modulus };

    ghost bytes = { is_written };

    ghost non_square = { eleven_is_non_square };

    ghost two_adic = { is_two_adic };
}

/// The field of 2013265921 elements, packed one by one.
pub type BabyBearField = Residue<BabyBear, Scalar>;
