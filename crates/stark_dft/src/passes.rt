//! One pass of a transform: from values at the squares of points to values at the points and their
//! opposites, and back.
ghost use Rattle.std.specs.Prelude.{◌≡◌, ◌+◌, ◌*◌, ◌<◌, length};
ghost use Rattle.stark_dft.specs.Passes.{IsEvaluationPass, IsInterpolationPass};

use stark_support::TwoAdicField;

/// From the even and the odd coefficients' values at the squares of points to the values at the
/// points and their opposites. Block `i` of `source` has `half` values of even coefficients and
/// `half` of odd ones, at the square of the point `first * ratio^i`; block `i` of `target` gets
/// those at the point, and block `blocks + i` those at its opposite.
pub fn evaluation_pass<F: TwoAdicField>(
    source: &[F],
    target: &mut [F],
    blocks: usize,
    half: usize,
    first: F,
    ratio: F,
)
    requires source_length { length source.now ≡ blocks * half + blocks * half }
    requires target_length { length target.old ≡ length source.now }
    ensures { IsEvaluationPass F.ring half first ratio (blocks * half) source.now target.new }
{
    let middle = blocks * half;
    let mut point = first;
    let mut low = 0;
    for _block in 0..blocks {
        let quotient = point.factor_quotient();
        for place in low..low + half {
            let even = source[low + place];
            let odd = source[low + place + half].times_factor(point, quotient);
            target[place] = even + odd;
            target[middle + place] = even - odd;
        }
        point = point * ratio;
        low += half;
    }
}

/// From the values at points and their opposites to twice the even and the odd coefficients' values
/// at the points' squares. Blocks `i` and `blocks + i` of `source` have `half` values each, at the
/// point whose inverse is `first * ratio^i` and at its opposite; block `i` of `target` gets `half`
/// of even coefficients and `half` of odd ones.
pub fn interpolation_pass<F: TwoAdicField>(
    source: &[F],
    target: &mut [F],
    blocks: usize,
    half: usize,
    first: F,
    ratio: F,
)
    requires source_length { length source.now ≡ blocks * half + blocks * half }
    requires target_length { length target.old ≡ length source.now }
    ensures { IsInterpolationPass F.ring half first ratio (blocks * half) source.now target.new }
{
    let middle = blocks * half;
    let mut inverse = first;
    let mut low = 0;
    for _block in 0..blocks {
        let quotient = inverse.factor_quotient();
        // Of each of the two loops LLVM makes vector code, of both in one it makes none that runs.
        for place in low..low + half {
            target[low + place] = source[place] + source[middle + place];
        }
        for other in low..low + half {
            let difference = source[other] - source[middle + other];
            target[low + other + half] = difference.times_factor(inverse, quotient);
        }
        inverse = inverse * ratio;
        low += half;
    }
}
