//! Prime moduli.
ghost use Rattle.std.specs.Prelude.{ℕ, Bool};
ghost use Rattle.stark_fields.specs.Moduli.{IsNonSquare, IsPrimeModulus, IsTwoAdic, IsWrittenIn};

/// A prime above 255 and below 2^31, with a generator, a constant for the extension of degree four
/// and an element whose order is a power of two. The checker computes that they are from the
/// evidence in `prime`, `non_square` and `two_adic`.
pub trait Modulus {
    ghost MODULUS: { ℕ };

    ghost BYTES: { ℕ };

    ghost GENERATOR: { ℕ };

    ghost QUARTIC_CONSTANT: { ℕ };

    ghost TWO_ADICITY: { ℕ };

    ghost ROOT: { ℕ };

    ghost BENEFITS_FROM_LOCKSTEP: { Bool };

    /// The prime.
    const MODULUS: u32;

    /// In how many bytes a number below the modulus is written.
    const BYTES: usize;

    /// An element whose powers are all elements but zero. It is below the modulus.
    const GENERATOR: u32;

    /// Neither it nor its opposite is a square, so that X^4 less it has no factor. It is below the
    /// modulus.
    const QUARTIC_CONSTANT: u32;

    /// The modulus is one more than a multiple of `2 ^ TWO_ADICITY`. It is from 1 to 31.
    const TWO_ADICITY: usize;

    /// An element of order `2 ^ TWO_ADICITY`: `TWO_ADICITY` squarings lead to one, and one squaring
    /// less to the opposite of one.
    const ROOT: u32;

    /// Whether constraints over elements one by one are evaluated at two points side by side, which
    /// asks once what each node is. It changes no value.
    const BENEFITS_FROM_LOCKSTEP: bool;

    ghost prime: { IsPrimeModulus MODULUS GENERATOR };

    ghost bytes: { IsWrittenIn BYTES MODULUS };

    ghost non_square: { IsNonSquare MODULUS QUARTIC_CONSTANT };

    ghost two_adic: { IsTwoAdic MODULUS GENERATOR TWO_ADICITY ROOT };
}
