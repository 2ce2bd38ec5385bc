//! The builder that keeps two degrees of each constraint, and no tree.
ghost use Rattle.std.specs.Prelude.{◌≡◌, [], IfOk, length, map, replicate};
ghost use Rattle.std.specs.List.{slice_get};
ghost use Rattle.std.proofs.Common.{◌∙◌};
ghost use Rattle.stark_support.specs.Operations.{exact_binary};
ghost use Rattle.stark_air.specs.Layout.{Covers};
ghost use Rattle.stark_air.specs.SymbolicLayout.{symbolic_layout};
ghost use Rattle.stark_symbolic.specs.DegreeBuilder.{after_keeping, keeping_laws, kept_environment, kept_layout};
ghost use Rattle.stark_symbolic.specs.DegreePair.{LeavesFit, known, marked_degrees, sum_degrees};

use crate::degree_expression::{DegreeExpression, DegreePair, PublicDegree};
use crate::leaf_degrees::LeafDegrees;
use stark_air::{Air, AirLayout, BaseAirBuilder, ExtensionBuilder, WindowAccess};
use stark_support::Field;
use std::alloc::{AllocError, Global};
use std::marker::PhantomData;

/// A constraint's two degrees, marked as those of one over the base field or over the extension.
#[derive(Clone, Copy)]
pub enum ConstraintDegrees {
    Base(DegreePair),
    Extension(DegreePair),
}

/// Two rows of columns that all have the same degrees, so that one list is both.
#[derive(Drop)]
pub struct DegreeWindow<F> {
    pub row: Vec<DegreeExpression<F>>,
}

impl<F: Field> WindowAccess<DegreeExpression<F>> for DegreeWindow<F> {
    ghost current_at = { λ w i. slice_get w.row.items i };

    ghost next_at = { λ w i. slice_get w.row.items i };

    fn current_slice(&self) -> &[DegreeExpression<F>] {
        self.row.as_slice()
    }

    fn next_slice(&self) -> &[DegreeExpression<F>] {
        self.row.as_slice()
    }

    fn current(&self, i: usize) -> Option<DegreeExpression<F>> {
        self.row.get(i).copied()
    }

    fn next(&self, i: usize) -> Option<DegreeExpression<F>> {
        self.row.get(i).copied()
    }
}

/// The builder whose row are degrees of leaves, and that keeps the two degrees of each asserted
/// expression, in the order of assertion. Its next rows are as wide as the current ones.
#[derive(Drop)]
pub struct DegreeBuilder<F, EF = F> {
    pub alloc: Global,
    pub layout: AirLayout,
    pub column: DegreeExpression<F>,
    pub periodic: DegreeExpression<F>,
    pub boundary: DegreeExpression<F>,
    pub transition: DegreeExpression<F>,
    pub public_values: Vec<PublicDegree<F>>,
    pub periodic_values: Vec<DegreeExpression<F>>,
    pub constraints: Vec<ConstraintDegrees>,
    pub extension: PhantomData<EF>,
}

impl<F: Field, EF> DegreeBuilder<F, EF> {
    /// A builder with rows of the layout's widths and counts, on which nothing was asserted. Err
    /// only where memory was refused.
    pub fn new(
        alloc: Global,
        layout: AirLayout,
        first: LeafDegrees,
        second: LeafDegrees,
    ) -> Result<Self, AllocError>
        ensures layout { IfOk result (λ builder. builder.layout ≡ layout) }
        ensures column { IfOk result (λ builder.
            builder.column ≡ known first.column second.column) }
        ensures periodic { IfOk result (λ builder.
            builder.periodic ≡ known first.periodic second.periodic) }
        ensures boundary { IfOk result (λ builder.
            builder.boundary ≡ known first.boundary second.boundary) }
        ensures transition { IfOk result (λ builder.
            builder.transition ≡ known first.transition second.transition) }
        ensures public_values { IfOk result (λ builder.
            length builder.public_values.items ≡ layout.num_public_values) }
        ensures periodic_values { IfOk result (λ builder.
            builder.periodic_values.items
            ≡ replicate layout.num_periodic_columns builder.periodic) }
        ensures nothing { IfOk result (λ builder. builder.constraints.items ≡ []) }
        ensures fits { IfOk result (λ _. LeavesFit first × LeavesFit second) }
    {
        let value = PublicDegree { field: PhantomData };
        let periodic = DegreeExpression::of(first.periodic, second.periodic);
        Ok(DegreeBuilder {
            alloc,
            layout,
            column: DegreeExpression::of(first.column, second.column),
            periodic,
            boundary: DegreeExpression::of(first.boundary, second.boundary),
            transition: DegreeExpression::of(first.transition, second.transition),
            public_values: vec![in alloc; value; layout.num_public_values]?,
            periodic_values: vec![in alloc; periodic; layout.num_periodic_columns]?,
            constraints: Vec::new(alloc),
            extension: PhantomData,
        })
    }

    /// So many columns.
    fn columns(&self, width: usize) -> Result<DegreeWindow<F>, AllocError>
        ensures { IfOk result (λ w. w.row.items ≡ replicate width self.now.column) }
    {
        Ok(DegreeWindow {
            row: vec![in self.alloc; self.column; width]?,
        })
    }
}

impl<F: Field, EF> BaseAirBuilder for DegreeBuilder<F, EF> {
    type F = F;

    type Expr = DegreeExpression<F>;

    type Var = DegreeExpression<F>;

    type PublicVar = PublicDegree<F>;

    type PeriodicVar = DegreeExpression<F>;

    type MainWindow = DegreeWindow<F>;

    type PreprocessedWindow = DegreeWindow<F>;

    ghost environment = { kept_environment };

    ghost layout = { kept_layout };

    ghost keeps = { λ s t. t.alloc ≡ s.alloc };

    /// Rows and assertions take memory.
    ghost may_refuse = { Unit {0} };

    ghost after = { after_keeping };

    ghost emission_laws = { keeping_laws };

    fn main(&self) -> Result<DegreeWindow<F>, AllocError> {
        self.columns(self.layout.main_width)
    }

    fn preprocessed(&self) -> Result<DegreeWindow<F>, AllocError> {
        self.columns(self.layout.preprocessed_width)
    }

    fn is_first_row(&self) -> DegreeExpression<F> {
        self.boundary
    }

    fn is_last_row(&self) -> DegreeExpression<F> {
        self.boundary
    }

    fn is_transition(&self) -> DegreeExpression<F> {
        self.transition
    }

    fn public_values(&self) -> &[PublicDegree<F>] {
        self.public_values.as_slice()
    }

    fn periodic_values(&self) -> &[DegreeExpression<F>] {
        self.periodic_values.as_slice()
    }

    fn assert_zero(&mut self, x: DegreeExpression<F>) -> Result<(), AllocError> {
        self.constraints.push(ConstraintDegrees::Base(x.degrees))?;
        Ok(())
    }
}

impl<F: Field, EF> ExtensionBuilder for DegreeBuilder<F, EF> {
    type EF = EF;

    type ExprEF = DegreeExpression<F>;

    ghost stands_above = { λ v x. x ≡ v };

    ghost may_multiply = { λ x y. tt };

    ghost from_stands = { λ x y v same p. same ∙ p };

    ghost times_above = { λ v w x y z given. exact_binary sum_degrees x y z v w given };

    fn assert_zero_ext(&mut self, x: DegreeExpression<F>) -> Result<(), AllocError> {
        self.constraints
            .push(ConstraintDegrees::Extension(x.degrees))?;
        Ok(())
    }
}

/// The AIR's constraints in the order in which it asserts them, each by its two degrees. Err only
/// where memory was refused.
pub fn constraint_degrees<F: Field, EF, A: Air<F>>(
    alloc: Global,
    air: &A,
    layout: AirLayout,
    first: LeafDegrees,
    second: LeafDegrees,
) -> Result<Vec<ConstraintDegrees>, AllocError>
    requires { Covers (symbolic_layout layout) (A.layout air.now) }
    ensures { IfOk result (λ all.
        all.items ≡ map (marked_degrees first second) (A.constraints air.now)) }
{
    let mut builder: DegreeBuilder<F, EF> = DegreeBuilder::new(alloc, layout, first, second)?;
    air.eval(&mut builder)?;
    let DegreeBuilder { constraints, .. } = builder;
    Ok(constraints)
}
