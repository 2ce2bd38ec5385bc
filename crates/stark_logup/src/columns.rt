//! The values of helpers.
ghost use Rattle.std.specs.Prelude.{◌≡◌, ◌≢◌, None, Some, map};
ghost use Rattle.stark_logup.specs.Columns.{entry_of};
ghost use Rattle.stark_logup.specs.Fractions.{denominator, numerator};

use stark_support::Field;

/// A fraction that isn't divided.
#[derive(Clone, Copy, Debug)]
pub struct Fraction<F> {
    pub numerator: F,
    pub denominator: F,
}

/// The sum of the fractions of a group, each entry given by its key and its multiplicity.
pub fn group_fraction<F: Field>(gamma: F, group: &[(F, F)]) -> Fraction<F>
    ensures numerator { result.numerator ≡ numerator F.ring gamma (map entry_of group.now) }
    ensures denominator { result.denominator ≡ denominator F.ring gamma (map entry_of group.now) }
{
    let mut below = F::ONE;
    let mut above = F::ZERO;
    let mut index = group.len();
    while index > 0 {
        index -= 1;
        let entry = group[index];
        let gap = gamma - entry.0;
        above = entry.1 * below + gap * above;
        below = gap * below;
    }
    Fraction {
        numerator: above,
        denominator: below,
    }
}

/// The helper of a group. None exactly where gamma is a key, so that a denominator is zero.
pub fn group_helper<F: Field>(gamma: F, group: &[(F, F)]) -> Option<F>
    ensures helps { (h : F) → result ≡ Some h → F.ring.mul h
        (denominator F.ring gamma (map entry_of group.now))
        ≡ numerator F.ring gamma (map entry_of group.now) }
    ensures some { (h : F) → result ≡ Some h
        → denominator F.ring gamma (map entry_of group.now) ≢ F.ring.zero }
    ensures none { result ≡ None
        → denominator F.ring gamma (map entry_of group.now) ≡ F.ring.zero }
{
    let fraction = group_fraction(gamma, group);
    if fraction.denominator == F::ZERO {
        return None;
    }
    Some(fraction.numerator * fraction.denominator.inverse())
}
