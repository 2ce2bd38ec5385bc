//! Lines of words near to codewords.
ghost use Rattle.stark_fri_soundness.specs.Line.{FewBadLines};

use stark_support::Field;

/// A law, with no code: in half of the minimum distance a line of words comes near to codewords at
/// no more than `line_bound` elements where the words that make it don't agree with codewords on
/// the same places: `e + 1` in a third of the distance, and `n + e` beyond.
pub fn few_bad_lines<F: Field>(_some: F)
    ensures { FewBadLines F.ring }
{}
