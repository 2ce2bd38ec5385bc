//! The verifier's folder: it carries on one accumulator.
ghost use Rattle.std.specs.Prelude.{◌≡◌, [], IfOk, OnErr};
ghost use Rattle.std.proofs.Common.{sym, subst};
ghost use Rattle.stark_air.specs.Tree.{base, extension};
ghost use Rattle.stark_air.specs.Value.{value};
ghost use Rattle.stark_parts.specs.Folding.{folder_environment, folder_layout, after_folding, folding_laws, CoversRows, FoldsIn, HasSameLayout, IsFoldedSum, ShowsSameRow};

use crate::config::{StarkFields, StarkGenericConfig, Val};
use stark_air::{Air, BaseAirBuilder, ExtensionBuilder, RowWindow};
use stark_support::{
    ExtensionField, Field, LagrangeSelectors, PolynomialSpace, RowMajorMatrixView, VerticalPair,
    ViewPair,
};
use std::alloc::AllocError;

/// Evaluates an AIR's constraints at the opened rows, and folds their values: each assertion
/// multiplies the accumulator by alpha and adds the asserted value.
#[derive(Drop)]
pub struct VerifierConstraintFolder<'a, SC: StarkGenericConfig> {
    /// The main columns' two rows.
    pub main: ViewPair<'a, SC::Challenge>,
    /// The preprocessed columns' two rows, of width 0 where there is none.
    pub preprocessed: ViewPair<'a, SC::Challenge>,
    /// The preprocessed columns' two rows, as the window that an AIR is given.
    pub preprocessed_window: RowWindow<'a, SC::Challenge>,
    pub periodic_values: &'a [SC::Challenge],
    pub public_values: &'a [Val<SC>],
    pub is_first_row: SC::Challenge,
    pub is_last_row: SC::Challenge,
    pub is_transition: SC::Challenge,
    pub alpha: SC::Challenge,
    pub accumulator: SC::Challenge,
}

impl<'a, SC: StarkGenericConfig> BaseAirBuilder for VerifierConstraintFolder<'a, SC> {
    type F = Val<SC>;

    type Expr = SC::Challenge;

    type Var = SC::Challenge;

    type PublicVar = Val<SC>;

    type PeriodicVar = SC::Challenge;

    type MainWindow = RowWindow<'a, SC::Challenge, Val<SC>>;

    type PreprocessedWindow = RowWindow<'a, SC::Challenge, Val<SC>>;

    ghost environment = { folder_environment SC.Pcs.Domain.Val.ring SC.Challenge.ring
        SC.Challenge.embed };

    ghost layout = { folder_layout SC.Pcs.Domain.Val.ring SC.Challenge.ring SC.Challenge.embed };

    ghost keeps = { λ s t. t ≡ record s { accumulator = t.accumulator } };

    /// No assertion takes memory.
    ghost may_refuse = { ⊥ };

    ghost after = { after_folding SC.Pcs.Domain.Val.ring SC.Challenge.ring SC.Challenge.embed };

    ghost emission_laws = { folding_laws SC.Pcs.Domain.Val.ring SC.Challenge.ring
        SC.Challenge.embed };

    fn main(&self) -> Result<RowWindow<'a, SC::Challenge, Val<SC>>, AllocError> {
        Ok(RowWindow::from_two_rows(self.main.top.values, self.main.bottom.values).over())
    }

    fn preprocessed(&self) -> Result<RowWindow<'a, SC::Challenge, Val<SC>>, AllocError> {
        Ok(RowWindow::from_two_rows(
            self.preprocessed_window.current,
            self.preprocessed_window.next,
        )
        .over())
    }

    fn is_first_row(&self) -> SC::Challenge {
        self.is_first_row
    }

    fn is_last_row(&self) -> SC::Challenge {
        self.is_last_row
    }

    fn is_transition(&self) -> SC::Challenge {
        self.is_transition
    }

    fn public_values(&self) -> &[Val<SC>] {
        self.public_values
    }

    fn periodic_values(&self) -> &[SC::Challenge] {
        self.periodic_values
    }

    /// The accumulator becomes itself times alpha, and `x`.
    fn assert_zero(&mut self, x: SC::Challenge) -> Result<(), AllocError>
        ensures kept { self.new ≡ record self.old { accumulator = self.new.accumulator } }
        ensures same_environment { ShowsSameRow SC.Pcs.Domain.Val.ring SC.Challenge.ring
            SC.Challenge.embed self.old self.new }
        ensures same_layout { HasSameLayout SC.Pcs.Domain.Val.ring SC.Challenge.ring
            SC.Challenge.embed self.old self.new }
        ensures asserted { IfOk result (λ _.
            FoldsIn ⟦<SC as StarkFields>⟧.fields SC.Challenge.operations
            SC.Challenge.stands base self.old x self.new) }
        ensures refused { OnErr result (after_folding SC.Pcs.Domain.Val.ring SC.Challenge.ring
            SC.Challenge.embed self.old [] self.new) }
        ensures memory { OnErr result ⊥ }
        ensures carried { self.new.accumulator
            ≡ SC.Challenge.ring.add (SC.Challenge.ring.mul self.old.accumulator self.old.alpha) x }
    {
        self.accumulator = self.accumulator * self.alpha + x;
        Ok(())
    }
}

impl<'a, SC: StarkGenericConfig> ExtensionBuilder for VerifierConstraintFolder<'a, SC> {
    type EF = SC::Challenge;

    type ExprEF = SC::Challenge;

    ghost stands_above = { SC.Challenge.stands };

    ghost may_multiply = { SC.Challenge.Algebra.may_mul };

    ghost from_stands = { λ x y v same p. subst (SC.Challenge.stands v) (sym same) p };

    ghost times_above = { λ v w x y z h p q. SC.Challenge.times_stands x y z v w h p q };

    /// The accumulator becomes itself times alpha, and `x`.
    fn assert_zero_ext(&mut self, x: SC::Challenge) -> Result<(), AllocError>
        ensures kept { self.new ≡ record self.old { accumulator = self.new.accumulator } }
        ensures same_environment { ShowsSameRow SC.Pcs.Domain.Val.ring SC.Challenge.ring
            SC.Challenge.embed self.old self.new }
        ensures same_layout { HasSameLayout SC.Pcs.Domain.Val.ring SC.Challenge.ring
            SC.Challenge.embed self.old self.new }
        ensures asserted { IfOk result (λ _.
            FoldsIn ⟦<SC as StarkFields>⟧.fields SC.Challenge.operations
            SC.Challenge.stands extension self.old x self.new) }
        ensures refused { OnErr result (after_folding SC.Pcs.Domain.Val.ring SC.Challenge.ring
            SC.Challenge.embed self.old [] self.new) }
        ensures memory { OnErr result ⊥ }
        ensures carried { self.new.accumulator
            ≡ SC.Challenge.ring.add (SC.Challenge.ring.mul self.old.accumulator self.old.alpha) x }
    {
        self.assert_zero(x)
    }
}

/// What an AIR's constraints read at a point: two rows of the main columns and two of the
/// preprocessed ones, which are empty where there are none, the periodic columns' values there, and
/// the public values.
#[derive(Clone, Copy, Debug)]
pub struct RowsAtPoint<'a, F, EF> {
    pub main: RowWindow<'a, EF>,
    pub preprocessed: RowWindow<'a, EF>,
    pub periodic_values: &'a [EF],
    pub public_values: &'a [F],
}

/// The folded sum of an AIR's constraints over two opened rows, `alpha^(n - 1 - j)` times
/// constraint `j` for each of the `n`. The rows and values have at least the lengths that the AIR
/// declares. The folder takes no memory: Err only where the AIR's `eval` takes some of its own, and
/// was refused it.
pub fn fold_constraints<SC: StarkGenericConfig, A: Air<Val<SC>>>(
    air: &A,
    rows: RowsAtPoint<'_, Val<SC>, SC::Challenge>,
    selectors: LagrangeSelectors<SC::Challenge>,
    alpha: SC::Challenge,
) -> Result<SC::Challenge, AllocError>
    requires { CoversRows rows (A.layout air.now) }
    ensures folded { IfOk result (IsFoldedSum ⟦<SC as StarkFields>⟧.fields (A.constraints air.now)
        rows.entry selectors alpha) }
    ensures memory { OnErr result (A.takes_memory air.now) }
{
    let mut folder: VerifierConstraintFolder<'_, SC> = VerifierConstraintFolder {
        main: VerticalPair {
            top: RowMajorMatrixView::new_row(rows.main.current),
            bottom: RowMajorMatrixView::new_row(rows.main.next),
        },
        preprocessed: VerticalPair {
            top: RowMajorMatrixView::new_row(rows.preprocessed.current),
            bottom: RowMajorMatrixView::new_row(rows.preprocessed.next),
        },
        preprocessed_window: rows.preprocessed,
        periodic_values: rows.periodic_values,
        public_values: rows.public_values,
        is_first_row: selectors.is_first_row,
        is_last_row: selectors.is_last_row,
        is_transition: selectors.is_transition,
        alpha,
        accumulator: SC::Challenge::ZERO,
    };
    air.eval(&mut folder)?;
    Ok(folder.accumulator)
}
