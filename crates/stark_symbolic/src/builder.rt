//! The builder that keeps the constraints' trees.
ghost use Rattle.std.specs.Prelude.{◌≡◌, [], IfOk, OnErr, IsNone, IsSome, IsTrue, length};
ghost use Rattle.std.proofs.Common.{subst, sym};
ghost use Rattle.stark_symbolic.specs.Symbolic.{Stands, symbolic_operations, pair_stands};
ghost use Rattle.stark_air.specs.Tree.{base, extension, product};
ghost use Rattle.stark_symbolic.specs.SymbolicBuilder.{builder_environment, builder_layout, after_asserting, asserting_laws};
ghost use Rattle.stark_symbolic.specs.SymbolicRow.{AreVariables, variable_gives, current_in, next_in, HasWidth, HasEntries};
ghost use Rattle.stark_air.specs.Value.{ShowsMain, ShowsPreprocessed};
ghost use Rattle.stark_air.specs.Emission.{Asserts};

use crate::expression::SymbolicExpression;
use crate::node::is_refused;
use crate::variable::{BaseEntry, SymbolicVariable};
use crate::window::{SymbolicWindow, variables};
use stark_air::{AirLayout, BaseAirBuilder, ExtensionBuilder};
use stark_support::Field;
use std::alloc::{AllocError, Global};
use std::marker::PhantomData;

/// A constraint's expression, marked as one over the base field or over the extension.
#[derive(Drop)]
pub enum SymbolicConstraint<F> {
    Base(SymbolicExpression<F>),
    Extension(SymbolicExpression<F>),
}

/// The builder whose row are variables, and that keeps each asserted expression, in the order of
/// assertion. Its next rows are as wide as the current ones. `EF` names the extension that
/// constraints are over; their expressions are the same.
#[derive(Drop)]
pub struct SymbolicAirBuilder<F, EF = F> {
    pub alloc: Global,
    pub layout: AirLayout,
    pub public_values: Vec<SymbolicVariable<F>>,
    pub periodic_values: Vec<SymbolicVariable<F>>,
    pub constraints: Vec<SymbolicConstraint<F>>,
    pub extension: PhantomData<EF>,
}

/// The expression; Err where memory for a node of it was refused.
fn present<F: Field>(x: SymbolicExpression<F>) -> Result<SymbolicExpression<F>, AllocError>
    ensures same { IfOk result (λ y. y ≡ x) }
    ensures present { IfOk result (λ _. IsSome x) }
{
    if x.is_refused() {
        Err(AllocError)
    } else {
        Ok(x)
    }
}

impl<F: Field, EF> SymbolicAirBuilder<F, EF> {
    /// A builder with rows of the layout's widths and counts, on which nothing was asserted. Err
    /// only where memory was refused.
    pub fn new(alloc: Global, layout: AirLayout) -> Result<Self, AllocError>
        ensures layout { IfOk result (λ builder. builder.layout ≡ layout) }
        ensures num_public_values { IfOk result (λ builder. length builder.public_values.items
            ≡ layout.num_public_values) }
        ensures public_values { IfOk result (λ builder.
            AreVariables BaseEntry.Public builder.public_values.items) }
        ensures num_periodic_columns { IfOk result (λ builder. length builder.periodic_values.items
            ≡ layout.num_periodic_columns) }
        ensures periodic_values { IfOk result (λ builder.
            AreVariables BaseEntry.Periodic builder.periodic_values.items) }
        ensures nothing { IfOk result (λ builder. builder.constraints.items ≡ []) }
    {
        Ok(SymbolicAirBuilder {
            alloc,
            layout,
            public_values: variables(alloc, BaseEntry::Public, layout.num_public_values)?,
            periodic_values: variables(alloc, BaseEntry::Periodic, layout.num_periodic_columns)?,
            constraints: Vec::new(alloc),
            extension: PhantomData,
        })
    }
}

impl<F: Field, EF> BaseAirBuilder for SymbolicAirBuilder<F, EF> {
    type F = F;

    type Expr = SymbolicExpression<F>;

    type Var = SymbolicVariable<F>;

    type PublicVar = SymbolicVariable<F>;

    type PeriodicVar = SymbolicVariable<F>;

    type MainWindow = SymbolicWindow<F>;

    type PreprocessedWindow = SymbolicWindow<F>;

    ghost environment = { builder_environment };

    ghost layout = { builder_layout };

    ghost keeps = { λ s t. t.alloc ≡ s.alloc };

    /// Rows and assertions take memory.
    ghost may_refuse = { Unit {0} };

    ghost after = { after_asserting F.ring };

    ghost emission_laws = { asserting_laws F.ring };

    /// The variables of the main columns, at offset 0 in the current row and at offset 1 in the
    /// next.
    fn main(&self) -> Result<SymbolicWindow<F>, AllocError>
        ensures rows { IfOk result (ShowsMain variable_gives Stands builder_environment
            builder_layout self.now current_in next_in) }
        ensures width { IfOk result (HasWidth self.now.layout.main_width) }
        ensures offsets { IfOk result (HasEntries BaseEntry.Main) }
    {
        let width = self.layout.main_width;
        Ok(SymbolicWindow {
            current: variables(self.alloc, BaseEntry::Main { offset: 0 }, width)?,
            next: variables(self.alloc, BaseEntry::Main { offset: 1 }, width)?,
        })
    }

    /// The variables of the preprocessed columns, with the same offsets.
    fn preprocessed(&self) -> Result<SymbolicWindow<F>, AllocError>
        ensures rows { IfOk result (ShowsPreprocessed variable_gives Stands builder_environment
            builder_layout self.now current_in next_in) }
        ensures width { IfOk result (HasWidth self.now.layout.preprocessed_width) }
        ensures offsets { IfOk result (HasEntries BaseEntry.Preprocessed) }
    {
        let width = self.layout.preprocessed_width;
        Ok(SymbolicWindow {
            current: variables(self.alloc, BaseEntry::Preprocessed { offset: 0 }, width)?,
            next: variables(self.alloc, BaseEntry::Preprocessed { offset: 1 }, width)?,
        })
    }

    fn is_first_row(&self) -> SymbolicExpression<F> {
        SymbolicExpression::is_first_row(self.alloc)
    }

    fn is_last_row(&self) -> SymbolicExpression<F> {
        SymbolicExpression::is_last_row(self.alloc)
    }

    fn is_transition(&self) -> SymbolicExpression<F> {
        SymbolicExpression::is_transition(self.alloc)
    }

    fn public_values(&self) -> &[SymbolicVariable<F>] {
        self.public_values.as_slice()
    }

    fn periodic_values(&self) -> &[SymbolicVariable<F>] {
        self.periodic_values.as_slice()
    }

    /// Whether the expression's root was refused.
    fn is_refused(&self, x: &SymbolicExpression<F>) -> bool
        ensures memory { IsTrue result → Unit {0} }
        ensures refused { IsTrue result → IsNone x.now }
    {
        is_refused(&x.node)
    }

    /// Err also where memory for a node of the expression was refused.
    fn assert_zero(&mut self, x: SymbolicExpression<F>) -> Result<(), AllocError>
        ensures same_fields { self.new ≡ record self.old { constraints = self.new.constraints } }
        ensures kept { self.new.alloc ≡ self.old.alloc }
        ensures same_environment { builder_environment self.new ≡ builder_environment self.old }
        ensures same_layout { builder_layout self.new ≡ builder_layout self.old }
        ensures asserted { IfOk result (λ _.
            Asserts (symbolic_operations F.ring) Stands builder_environment
            (after_asserting F.ring) base self.old x self.new) }
        ensures refused { OnErr result (after_asserting F.ring self.old [] self.new) }
        ensures present { IfOk result (λ _. IsSome x) }
    {
        let x = present(x)?;
        self.constraints.push(SymbolicConstraint::Base(x))?;
        Ok(())
    }
}

impl<F: Field, EF> ExtensionBuilder for SymbolicAirBuilder<F, EF> {
    type EF = EF;

    type ExprEF = SymbolicExpression<F>;

    ghost stands_above = { Stands };

    ghost may_multiply = { λ x y. tt };

    ghost from_stands = { λ x y v same p. subst (λ z. Stands v z) (sym same) p };

    ghost times_above = { λ v w x y z h p q. pair_stands product F.ring.mul x y z v w h p q };

    /// Err also where memory for a node of the expression was refused.
    fn assert_zero_ext(&mut self, x: SymbolicExpression<F>) -> Result<(), AllocError>
        ensures same_fields { self.new ≡ record self.old { constraints = self.new.constraints } }
        ensures kept { self.new.alloc ≡ self.old.alloc }
        ensures same_environment { builder_environment self.new ≡ builder_environment self.old }
        ensures same_layout { builder_layout self.new ≡ builder_layout self.old }
        ensures asserted { IfOk result (λ _.
            Asserts (symbolic_operations F.ring) Stands builder_environment
            (after_asserting F.ring) extension self.old x self.new) }
        ensures refused { OnErr result (after_asserting F.ring self.old [] self.new) }
        ensures present { IfOk result (λ _. IsSome x) }
    {
        let x = present(x)?;
        self.constraints.push(SymbolicConstraint::Extension(x))?;
        Ok(())
    }
}
