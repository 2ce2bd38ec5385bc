//! Builders that put each constraint under a condition.
ghost use Rattle.std.specs.Prelude.{◌≡◌, refl, map};
ghost use Rattle.std.proofs.Common.{◌∙◌, sym};
ghost use Rattle.stark_air.specs.Emission.{AfterUnder};
ghost use Rattle.stark_air.specs.Under.{under_nothing, under_both};

use crate::builder::{BaseAirBuilder, ExtensionBuilder};
use stark_support::Algebra;
use std::alloc::AllocError;

/// A borrowed builder that asserts `condition * x` in place of each `x`. It shows the same rows.
pub struct FilteredAirBuilder<'a, AB: BaseAirBuilder> {
    pub inner: &'a mut AB,
    pub condition: AB::Expr,
}

impl<AB: BaseAirBuilder> Drop for FilteredAirBuilder<'_, AB> {
    fn drop(self)
        ensures { self.exit.0.now ≡ self.entry.inner.now }
    {
        let FilteredAirBuilder {
            inner: _,
            condition: _,
        } = self;
    }
}

impl<AB: BaseAirBuilder> BaseAirBuilder for FilteredAirBuilder<'_, AB> {
    type F = AB::F;

    type Expr = AB::Expr;

    type Var = AB::Var;

    type PublicVar = AB::PublicVar;

    type PeriodicVar = AB::PeriodicVar;

    type MainWindow = AB::MainWindow;

    type PreprocessedWindow = AB::PreprocessedWindow;

    ghost environment = { λ s. AB.environment s.inner.now };

    ghost layout = { λ s. AB.layout s.inner.now };

    ghost keeps = { λ s t. (t.inner.ghost_name ≡ s.inner.ghost_name)
        × (t.condition ≡ s.condition) };

    ghost may_refuse = { AB.may_refuse };

    ghost after = { λ s cs t. (t.inner.ghost_name ≡ s.inner.ghost_name)
        × (t.condition ≡ s.condition)
        × AfterUnder AB.Expr.operations AB.Expr.stands AB.environment AB.layout AB.after s.condition
        s.inner.now cs t.inner.now };

    ghost emission_laws = { record {
      nothing = λ s. (
        refl,
        refl,
        under_nothing AB.emission_laws AB.Expr.operations AB.Expr.stands
            s.condition s.inner.now,
      );
      both = λ s t u cs ds h k. (
        k.0 ∙ h.0,
        k.1
            ∙ h.1,
        under_both AB.emission_laws AB.Expr.operations AB.Expr.stands cs ds (sym h.1) h.2 k.2,
      );
      same_environment = λ s t cs h. h.2.same_environment;
      same_layout = λ s t cs h. h.2.same_layout;
    } };

    fn main(&self) -> Result<AB::MainWindow, AllocError> {
        self.inner.main()
    }

    fn preprocessed(&self) -> Result<AB::PreprocessedWindow, AllocError> {
        self.inner.preprocessed()
    }

    fn periodic_values(&self) -> &[AB::PeriodicVar] {
        self.inner.periodic_values()
    }

    fn is_first_row(&self) -> AB::Expr {
        self.inner.is_first_row()
    }

    fn is_last_row(&self) -> AB::Expr {
        self.inner.is_last_row()
    }

    fn is_transition(&self) -> AB::Expr {
        self.inner.is_transition()
    }

    fn public_values(&self) -> &[AB::PublicVar] {
        self.inner.public_values()
    }

    fn is_refused(&self, x: &AB::Expr) -> bool {
        self.inner.is_refused(x)
    }

    fn assert_zero(&mut self, x: AB::Expr) -> Result<(), AllocError> {
        self.inner.assert_zero(self.condition.dup() * x)
    }
}

impl<AB: ExtensionBuilder> ExtensionBuilder for FilteredAirBuilder<'_, AB> {
    type EF = AB::EF;

    type ExprEF = AB::ExprEF;

    ghost stands_above = { AB.stands_above };

    ghost may_multiply = { AB.may_multiply };

    ghost from_stands = { AB.from_stands };

    ghost times_above = { AB.times_above };

    fn assert_zero_ext(&mut self, x: AB::ExprEF) -> Result<(), AllocError> {
        let condition = AB::ExprEF::from(self.condition.dup());
        self.inner.assert_zero_ext(condition * x)
    }
}
