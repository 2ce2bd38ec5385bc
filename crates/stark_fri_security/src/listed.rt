//! Bits of security that are proved where a proof lists its columns.
ghost use Rattle.stark_fri_security.specs.ListedBits.{AreListedBits, ListedBitsAreProved};

use crate::proved::log2_ceil;

/// The proved bits of security of proofs that list their columns, over a field of `2^field_bits`
/// elements, where at most `bad_alphas` alphas and `bad_zetas` zetas are bad for a trace that
/// breaks the AIR: `field_bits` less the logarithm of both, rounded up. What the bits mean is the
/// law `listed_bits_hold`.
pub fn listed_security_bits(field_bits: usize, bad_alphas: usize, bad_zetas: usize) -> usize
    ensures { AreListedBits field_bits bad_alphas bad_zetas result }
{
    let bad = bad_alphas as u128 + bad_zetas as u128;
    field_bits.saturating_sub(log2_ceil(bad.max(1)))
}

/// A law, with no code: `2^bits` times the number of bad draws is at most the number of all.
pub fn listed_bits_hold()
    ensures { ListedBitsAreProved }
{}
