//! The degrees of leaves.
ghost use Rattle.std.specs.Prelude.{◌≡◌};
ghost use Rattle.stark_symbolic.specs.LeafDegrees.{trace_multiples};

/// The degree of each kind of leaf. A constant and a public value have degree 0.
#[derive(Clone, Copy, Debug)]
pub struct LeafDegrees {
    /// Of a main and of a preprocessed column, in either row.
    pub column: usize,
    /// Of a periodic column.
    pub periodic: usize,
    /// Of the selectors of the first and of the last row.
    pub boundary: usize,
    /// Of the selector of the transition.
    pub transition: usize,
}

impl LeafDegrees {
    /// Degrees in multiples of the trace's length: 1 for a column and for the selectors of the
    /// first and of the last row, and `transition_degree` for the transition selector.
    pub fn trace_multiples(transition_degree: usize) -> LeafDegrees
        ensures { result ≡ trace_multiples transition_degree }
    {
        LeafDegrees {
            column: 1,
            periodic: 1,
            boundary: 1,
            transition: transition_degree,
        }
    }
}
