//! The field of 12289 elements.
ghost use Rattle.std.specs.Prelude.{false};
ghost use Rattle.stark_fields.specs.Small.{eleven_is_non_square, is_prime_modulus, is_two_adic, is_written};

use crate::modulus::Modulus;
use crate::residue::{Lockstep, Packed, Residue, Scalar};

/// The modulus 12289 = 3 * 2^12 + 1, a small one for tests and examples: the generator 11, the
/// element 1331 of order 2^12, and the extension by a root of X^4 - 11.
#[derive(Clone, Copy, Debug, PartialEq, Eq)]
pub struct M12289;

impl Modulus for M12289 {
    ghost MODULUS = { 12289 };

    ghost BYTES = { 2 };

    ghost GENERATOR = { 11 };

    ghost QUARTIC_CONSTANT = { 11 };

    ghost TWO_ADICITY = { 12 };

    ghost ROOT = { 1331 };

    ghost BENEFITS_FROM_LOCKSTEP = { false };

    const MODULUS: u32 = 12289;

    const BYTES: usize = 2;

    const GENERATOR: u32 = 11;

    const QUARTIC_CONSTANT: u32 = 11;

    const TWO_ADICITY: usize = 12;

    const ROOT: u32 = 1331;

    const BENEFITS_FROM_LOCKSTEP: bool = false;

    ghost prime = { is_prime_modulus };

    ghost bytes = { is_written };

    ghost non_square = { eleven_is_non_square };

    ghost two_adic = { is_two_adic };
}

/// The field of 12289 whose numbers are packed one by one.
pub type S12289 = Residue<M12289, Scalar>;

/// The field of 12289 whose numbers are packed in fours.
pub type P12289 = Residue<M12289, Packed>;

/// The field of 12289 whose numbers are packed in fours, two packs at a time.
pub type F12289 = Residue<M12289, Lockstep>;
