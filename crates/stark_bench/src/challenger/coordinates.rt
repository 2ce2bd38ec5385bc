//! Elements of the extension of degree four, drawn by their coordinates.
ghost use Rattle.std.specs.Prelude.{◌≡◌};
ghost use Rattle.stark_bench.specs.Challenges.{after_four, four_drawn};

use stark_fields::Ext4;
use stark_support::CanSample;

/// Four draws of the base field: the coordinates, the constant first.
pub fn sample_coordinates<F, C: CanSample<F>>(challenger: &mut C) -> Ext4<F>
    ensures drawn { result ≡ four_drawn C.sample_of C.after_sample challenger.old }
    ensures state { challenger.new ≡ after_four C.after_sample challenger.old }
{
    Ext4 {
        c0: challenger.sample(),
        c1: challenger.sample(),
        c2: challenger.sample(),
        c3: challenger.sample(),
    }
}
