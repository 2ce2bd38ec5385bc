//! Builders, which an AIR is evaluated on.
ghost use Rattle.std.specs.Prelude.{◌≡◌, IfOk, IsTrue, OnErr, List, []};
ghost use Rattle.stark_air.specs.Emission.{EmissionLaws, Asserts, AssertsPair, KeepsStanding, StandsForProduct, equal, equal_to};
ghost use Rattle.stark_air.specs.Layout.{Layout};
ghost use Rattle.stark_air.specs.Tree.{Constraint, base, extension};
ghost use Rattle.stark_air.specs.Value.{Environment, value, ShowsMain, ShowsPeriodicValues, ShowsPublicValues, ShowsPreprocessed};

use crate::filtered::FilteredAirBuilder;
use crate::window::WindowAccess;
use stark_support::{Algebra, Element};
use std::alloc::AllocError;
use std::ops::Mul;

/// What a builder gives of its own: a row of values and the one after it, selectors of rows, and
/// what the asserted constraints leave. An assertion of `x` says that `x` is zero; it is Err only
/// where memory was refused, and then nothing was asserted.
pub trait BaseAirBuilder {
    type F: Element;

    type Expr: Algebra<Self::F> + From<Self::Var> + From<Self::PublicVar> + From<Self::PeriodicVar>;

    type Var: Copy;

    type PublicVar: Copy;

    type PeriodicVar: Copy;

    type MainWindow: WindowAccess<Self::Var> + Drop;

    type PreprocessedWindow: WindowAccess<Self::Var> + Drop;

    /// The row's values.
    ghost environment: { Self → Environment Self.Expr };

    /// How much of each kind the row has.
    ghost layout: { Self → Layout };

    /// What no assertion changes besides the row, as the builder that a filtered one borrows.
    ghost keeps: { Self → Self → Type 0 };

    /// Holds of builders whose rows or assertions take memory, so that they may be refused.
    ghost may_refuse: { Type 0 };

    /// What the builder holds once a list of constraints was asserted.
    ghost after: { Self → List (Constraint Self.F) → Self → Type 0 };

    /// The main columns' two rows. Err only where memory was refused.
    fn main(&self) -> Result<Self::MainWindow, AllocError>
        ensures rows { IfOk result (⟦<Self as ShownRows>⟧.shows_main self.now) }
        ensures memory { OnErr result may_refuse };

    /// The preprocessed columns' two rows. Err only where memory was refused.
    fn preprocessed(&self) -> Result<Self::PreprocessedWindow, AllocError>
        ensures rows { IfOk result (⟦<Self as ShownRows>⟧.shows_preprocessed self.now) }
        ensures memory { OnErr result may_refuse };

    /// The selector that isn't zero on the first row alone.
    fn is_first_row(&self) -> Self::Expr
        ensures { Self.Expr.stands (environment self.now).first_row result };

    /// The selector that isn't zero on the last row alone.
    fn is_last_row(&self) -> Self::Expr
        ensures { Self.Expr.stands (environment self.now).last_row result };

    /// The selector that is zero on the last row alone.
    fn is_transition(&self) -> Self::Expr
        ensures { Self.Expr.stands (environment self.now).transition result };

    /// The public values.
    fn public_values(&self) -> &[Self::PublicVar]
        ensures { ShowsPublicValues ⟦<Self::Expr as From<Self::PublicVar>>⟧.from_gives
            Self.Expr.stands environment layout self.now result.now };

    /// The periodic columns' values in the row.
    fn periodic_values(&self) -> &[Self::PeriodicVar]
        ensures { ShowsPeriodicValues ⟦<Self::Expr as From<Self::PeriodicVar>>⟧.from_gives
            Self.Expr.stands environment layout self.now result.now };

    /// Whether it is seen at once that memory for `x` was refused, so that what is made of `x` is
    /// refused too. It looks at the root alone and takes no memory; `false` promises nothing.
    fn is_refused(&self, _x: &Self::Expr) -> bool
        ensures { IsTrue result → may_refuse }
    {
        false
    }

    /// Asserts `x`, as a constraint over the base field.
    fn assert_zero(&mut self, x: Self::Expr) -> Result<(), AllocError>
        ensures kept { keeps self.old self.new }
        ensures same_environment { environment self.new ≡ environment self.old }
        ensures same_layout { layout self.new ≡ layout self.old }
        ensures asserted { IfOk result (λ _.
            Asserts Self.Expr.operations Self.Expr.stands environment after base self.old x
            self.new) }
        ensures refused { OnErr result (after self.old [] self.new) }
        ensures memory { OnErr result may_refuse };

    /// Asserting nothing changes nothing, one list after another is the joined list, and the row
    /// stays.
    ghost emission_laws: { EmissionLaws environment layout after };
}

/// What a builder's windows show of its row.
pub trait ShownRows: BaseAirBuilder {
    /// The window has both rows of the main columns.
    ghost shows_main: { Self → Self.MainWindow → Type 0 };

    /// The window has both rows of the preprocessed columns.
    ghost shows_preprocessed: { Self → Self.PreprocessedWindow → Type 0 };
}

impl<AB: BaseAirBuilder> ShownRows for AB {
    ghost shows_main = { λ builder. ShowsMain ⟦<AB::Expr as From<AB::Var>>⟧.from_gives
        AB.Expr.stands AB.environment AB.layout builder AB.MainWindow.current_at
        AB.MainWindow.next_at };

    ghost shows_preprocessed = { λ builder.
        ShowsPreprocessed ⟦<AB::Expr as From<AB::Var>>⟧.from_gives AB.Expr.stands AB.environment
        AB.layout builder AB.PreprocessedWindow.current_at AB.PreprocessedWindow.next_at };
}

/// What an AIR is evaluated on: a builder's own calls and those that stand on them. Every
/// `BaseAirBuilder` is one.
pub trait AirBuilder: BaseAirBuilder {
    /// A builder that asserts `condition * x` for each `x` asserted on it.
    fn when(&mut self, condition: Self::Expr) -> FilteredAirBuilder<'_, Self>
        ensures same_builder { result.inner.ghost_name ≡ self.entry.ghost_name }
        ensures same_value { result.inner.now ≡ self.old }
        ensures same_condition { result.condition ≡ condition };

    /// Asserts `a - b`.
    fn assert_eq(&mut self, a: Self::Expr, b: Self::Expr) -> Result<(), AllocError>
        ensures kept { Self.keeps self.old self.new }
        ensures same_environment { Self.environment self.new ≡ Self.environment self.old }
        ensures same_layout { Self.layout self.new ≡ Self.layout self.old }
        ensures asserted { IfOk result (λ _.
            AssertsPair Self.Expr.operations Self.Expr.stands Self.environment Self.after
            equal self.old a b self.new) }
        ensures refused { OnErr result (Self.after self.old [] self.new) }
        ensures memory { OnErr result Self.may_refuse };

    /// Asserts `a - 1`.
    fn assert_one(&mut self, a: Self::Expr) -> Result<(), AllocError>
        ensures kept { Self.keeps self.old self.new }
        ensures same_environment { Self.environment self.new ≡ Self.environment self.old }
        ensures same_layout { Self.layout self.new ≡ Self.layout self.old }
        ensures asserted { IfOk result (λ _.
            Asserts Self.Expr.operations Self.Expr.stands Self.environment Self.after
            (equal_to Self.F.ONE) self.old a self.new) }
        ensures refused { OnErr result (Self.after self.old [] self.new) }
        ensures memory { OnErr result Self.may_refuse };

    /// `when` on the selector of the first row.
    fn when_first_row(&mut self) -> FilteredAirBuilder<'_, Self>
        ensures same_builder { result.inner.ghost_name ≡ self.entry.ghost_name }
        ensures same_value { result.inner.now ≡ self.old }
        ensures same_condition { Self.Expr.stands (Self.environment result.inner.now).first_row
            result.condition };

    /// `when` on the selector of the last row.
    fn when_last_row(&mut self) -> FilteredAirBuilder<'_, Self>
        ensures same_builder { result.inner.ghost_name ≡ self.entry.ghost_name }
        ensures same_value { result.inner.now ≡ self.old }
        ensures same_condition { Self.Expr.stands (Self.environment result.inner.now).last_row
            result.condition };

    /// `when` on the selector of all rows but the last.
    fn when_transition(&mut self) -> FilteredAirBuilder<'_, Self>
        ensures same_builder { result.inner.ghost_name ≡ self.entry.ghost_name }
        ensures same_value { result.inner.now ≡ self.old }
        ensures same_condition { Self.Expr.stands (Self.environment result.inner.now).transition
            result.condition };
}

impl<AB: BaseAirBuilder> AirBuilder for AB {
    fn when(&mut self, condition: AB::Expr) -> FilteredAirBuilder<'_, AB> {
        FilteredAirBuilder {
            inner: self,
            condition,
        }
    }

    fn assert_eq(&mut self, a: AB::Expr, b: AB::Expr) -> Result<(), AllocError> {
        self.assert_zero(a - b)
    }

    fn assert_one(&mut self, a: AB::Expr) -> Result<(), AllocError> {
        self.assert_zero(a - AB::Expr::from(AB::F::ONE))
    }

    fn when_first_row(&mut self) -> FilteredAirBuilder<'_, AB> {
        let condition = self.is_first_row();
        self.when(condition)
    }

    fn when_last_row(&mut self) -> FilteredAirBuilder<'_, AB> {
        let condition = self.is_last_row();
        self.when(condition)
    }

    fn when_transition(&mut self) -> FilteredAirBuilder<'_, AB> {
        let condition = self.is_transition();
        self.when(condition)
    }
}

/// A builder that also takes constraints over an extension of the field.
pub trait ExtensionBuilder: AirBuilder {
    type EF;

    type ExprEF: Mul<Self::ExprEF, Output = Self::ExprEF> + Drop + From<Self::Expr>;

    /// The second stands for the value that is the first, seen in the extension.
    ghost stands_above: { Self.Expr → Self.ExprEF → Type 0 };

    /// Asserts `x`, as a constraint over the extension.
    fn assert_zero_ext(&mut self, x: Self::ExprEF) -> Result<(), AllocError>
        ensures kept { Self.keeps self.old self.new }
        ensures same_environment { Self.environment self.new ≡ Self.environment self.old }
        ensures same_layout { Self.layout self.new ≡ Self.layout self.old }
        ensures asserted { IfOk result (λ _.
            Asserts Self.Expr.operations stands_above Self.environment Self.after extension
            self.old x self.new) }
        ensures refused { OnErr result (Self.after self.old [] self.new) }
        ensures memory { OnErr result Self.may_refuse };

    /// Any two values of the extension may be multiplied.
    ghost may_multiply: { (x y : Self.ExprEF) → Self.ExprEF.can_mul x y };

    ghost from_stands: { KeepsStanding ⟦<Self::ExprEF as From<Self::Expr>>⟧.from_gives
        Self.Expr.stands stands_above };

    ghost times_above: { StandsForProduct Self.Expr.operations.times Self.ExprEF.mul_gives
        stands_above };
}
