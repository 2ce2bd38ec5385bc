//! The field of 2130706433 elements, which Plonky3 and others call KoalaBear.
ghost use Rattle.std.specs.Prelude.{true};
ghost use Rattle.stark_fields.specs.KoalaBear.{is_prime_modulus, is_two_adic, is_written, three_is_non_square};

use crate::modulus::Modulus;
use crate::residue::{Residue, Scalar};

/// The modulus 2130706433 = 127 * 2^24 + 1 = 2^31 - 2^24 + 1. Its constants are those of Plonky3's
/// `p3-koala-bear`: the generator 3, the element 1791270792 of order 2^24, and the extension by a
/// root of X^4 - 3.
#[derive(Clone, Copy, Debug, PartialEq, Eq)]
pub struct KoalaBear;

impl Modulus for KoalaBear {
    ghost MODULUS = { 2130706433 };

    ghost BYTES = { 4 };

    ghost GENERATOR = { 3 };

    ghost QUARTIC_CONSTANT = { 3 };

    ghost TWO_ADICITY = { 24 };

    ghost ROOT = { 1791270792 };

    ghost BENEFITS_FROM_LOCKSTEP = { true };

    const MODULUS: u32 = 2130706433;

    const BYTES: usize = 4;

    const GENERATOR: u32 = 3;

    const QUARTIC_CONSTANT: u32 = 3;

    const TWO_ADICITY: usize = 24;

    const ROOT: u32 = 1791270792;

    const BENEFITS_FROM_LOCKSTEP: bool = true;

    ghost prime = { is_prime_modulus };

    ghost bytes = { is_written };

    ghost non_square = { three_is_non_square };

    ghost two_adic = { is_two_adic };
}

/// The field of 2130706433 elements, packed one by one.
pub type KoalaBearField = Residue<KoalaBear, Scalar>;
