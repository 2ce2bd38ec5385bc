//! The greatest degree of an AIR's constraints.
ghost use Rattle.std.specs.Prelude.{◌≡◌, IfOk, length};
ghost use Rattle.stark_symbolic.specs.Degree.{greatest_degree, marked_degree};
ghost use Rattle.stark_symbolic.specs.DegreePair.{degrees_in, fitting_pair, greatest_from};
ghost use Rattle.stark_symbolic.specs.Fitting.{fitting};
ghost use Rattle.stark_symbolic.specs.LeafDegrees.{greatest_degree_by};
ghost use Rattle.stark_air.specs.Layout.{Covers};
ghost use Rattle.stark_air.specs.SymbolicLayout.{symbolic_layout};

use crate::builder::SymbolicConstraint;
use crate::degree_builder::{ConstraintDegrees, constraint_degrees};
use crate::degree_expression::DegreePair;
use crate::leaf_degrees::LeafDegrees;
use stark_air::{Air, AirLayout};
use stark_support::Field;
use std::alloc::{AllocError, Global};

impl<F: Field> SymbolicConstraint<F> {
    /// The degree of its expression in multiples of the trace's length, with `transition_degree`
    /// for the transition selector.
    pub fn degree_multiple_with_transition(&self, transition_degree: usize) -> usize
        ensures { result ≡ marked_degree transition_degree self.now }
    {
        match self {
            SymbolicConstraint::Base(x) => x.degree_multiple_with_transition(transition_degree),
            SymbolicConstraint::Extension(x) => x.degree_multiple_with_transition(
                transition_degree,
            ),
        }
    }
}

fn degrees_in(constraint: &ConstraintDegrees) -> DegreePair
    ensures { result ≡ degrees_in constraint.now }
{
    let (ConstraintDegrees::Base(degrees) | ConstraintDegrees::Extension(degrees)) = constraint;
    *degrees
}

/// The greatest of the constraints' degrees, 0 without constraints.
fn greatest_of(constraints: &[ConstraintDegrees]) -> DegreePair
    ensures { result ≡ greatest_from (fitting_pair 0 0) constraints.now }
{
    let mut greatest = DegreePair {
        first: Some(0),
        second: Some(0),
    };
    for constraint in constraints {
        greatest = greatest.greater(degrees_in(constraint));
    }
    greatest
}

/// How many constraints an AIR has, and the greatest of their degrees under two lists of degrees
/// of leaves: 0 without constraints, None where it is above the greatest `usize`.
#[derive(Clone, Copy, Debug)]
pub struct GreatestDegrees {
    pub num_constraints: usize,
    pub first: Option<usize>,
    pub second: Option<usize>,
}

/// The number of the AIR's constraints, base and extension, and their greatest degrees: the first
/// where each kind of leaf has the degree that `first` says, the second where it has that of
/// `second`. A sum and a difference have the greater of two degrees, a product their sum. Both come
/// of one evaluation, which builds no tree. Err only where memory was refused.
pub fn greatest_degrees<F: Field, EF, A: Air<F>>(
    alloc: Global,
    air: &A,
    layout: AirLayout,
    first: LeafDegrees,
    second: LeafDegrees,
) -> Result<GreatestDegrees, AllocError>
    requires { Covers (symbolic_layout layout) (A.layout air.now) }
    ensures num_constraints { IfOk result (λ all.
        all.num_constraints ≡ length (A.constraints air.now)) }
    ensures first { IfOk result (λ all.
        all.first ≡ fitting (greatest_degree_by first (A.constraints air.now))) }
    ensures second { IfOk result (λ all.
        all.second ≡ fitting (greatest_degree_by second (A.constraints air.now))) }
{
    let constraints = constraint_degrees::<F, EF, A>(alloc, air, layout, first, second)?;
    let greatest = greatest_of(&constraints);
    Ok(GreatestDegrees {
        num_constraints: constraints.len(),
        first: greatest.first,
        second: greatest.second,
    })
}

/// The greatest degree multiple of the AIR's constraints, base and extension, with
/// `transition_degree` for the transition selector; 0 without constraints. Err only where memory
/// was refused.
pub fn get_max_constraint_degree_with_transition<F: Field, EF, A: Air<F>>(
    alloc: Global,
    air: &A,
    layout: AirLayout,
    transition_degree: usize,
) -> Result<usize, AllocError>
    requires { Covers (symbolic_layout layout) (A.layout air.now) }
    ensures { IfOk result (λ degree. degree
        ≡ greatest_degree transition_degree (A.constraints air.now)) }
{
    let multiples = LeafDegrees::trace_multiples(transition_degree);
    let degrees = greatest_degrees::<F, EF, A>(alloc, air, layout, multiples, multiples)?;
    Ok(degrees.first.unwrap_or(usize::MAX))
}

/// The greatest degree multiple of the AIR's constraints, base and extension, with 0 for the
/// transition selector, as on a two-adic domain; 0 without constraints. The trace's length decides
/// nothing. Err only where memory was refused.
pub fn get_max_constraint_degree_extension<F: Field, EF, A: Air<F>>(
    alloc: Global,
    air: &A,
    layout: AirLayout,
    _trace_len: usize,
) -> Result<usize, AllocError>
    requires { Covers (symbolic_layout layout) (A.layout air.now) }
    ensures { IfOk result (λ degree. degree ≡ greatest_degree 0 (A.constraints air.now)) }
{
    get_max_constraint_degree_with_transition::<F, EF, A>(alloc, air, layout, 0)
}
