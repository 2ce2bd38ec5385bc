//! Words combined by the powers of one element.
ghost use Rattle.stark_fri_soundness.specs.Curve.{FewBadPowers, PowersAreSound};

use stark_support::Field;

/// A law, with no code: in half of the minimum distance `l + 1` words combined by the powers of one
/// element come near to codewords at no more than `l (n + e)` elements where the words don't agree
/// with codewords on the same places.
pub fn few_bad_powers<F: Field>(_some: F)
    ensures { FewBadPowers F.ring }
{}

/// A law, with no code: where the element isn't bad and the combined word is near to a codeword,
/// all words agree with codewords on the same places.
pub fn powers_are_sound<F: Field>(_some: F)
    ensures { PowersAreSound F.ring }
{}
