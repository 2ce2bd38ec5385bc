//! What each row of a trace sends and receives.
ghost use Rattle.std.specs.Prelude.{◌≡◌};
ghost use Rattle.stark_lookup_extension.specs.Interactions.{is_numbered};

/// Whether a row sends a tuple or receives it.
#[derive(Clone, Copy, Debug)]
pub enum Direction {
    Sent,
    Received,
}

/// A tuple that each row sends or receives, and how many times: what the nodes at these places of
/// an AIR's list are worth in the row.
#[derive(Debug, Drop)]
pub struct LookupInteraction {
    pub direction: Direction,
    pub tuple: Vec<usize>,
    pub times: usize,
}

/// Of each tuple as much is to be received as is sent, in all rows together. The interactions stand
/// in groups, each of which has a helper column over the extension. Alone, an interaction whose
/// tuple and multiplicity have degree 1 gives constraints of degree 2; two in one group give
/// degree 3.
#[derive(Debug, Drop)]
pub struct Lookup {
    pub groups: Vec<Vec<LookupInteraction>>,
}

/// Lookups that share a running sum, and how many elements their longest tuple has. Shorter ones
/// are filled up with zeros; where there are two lookups or more, each tuple begins with the number
/// of its own, counted from 0.
#[derive(Debug, Drop)]
pub struct LookupList {
    pub width: usize,
    pub lookups: Vec<Lookup>,
}

impl LookupList {
    /// Whether tuples begin with the number of their lookup.
    pub(crate) fn is_numbered(&self) -> bool
        ensures { result ≡ is_numbered self.now }
    {
        self.lookups.len() > 1
    }
}
