//! The shape of a circle domain.
ghost use Rattle.std.specs.Prelude.{◌≡◌};

use stark_support::DomainShape;

/// The size of a domain on a circle, which has no points here: its transition selector has the
/// degree of the domain's size, in place of one.
#[derive(Clone, Copy, Debug)]
pub struct CircleShape {
    pub size: usize,
}

impl DomainShape for CircleShape {
    ghost size_of = { λ c. c.size };

    ghost transition_multiple = { λ _. 1 };

    fn size(&self) -> usize {
        self.size
    }

    fn transition_degree_multiple(&self) -> usize {
        1
    }
}
