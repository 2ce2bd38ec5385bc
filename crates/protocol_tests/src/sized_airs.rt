//! AIRs whose quotients are sized, and by which security parameters are shown.
ghost use Rattle.std.specs.Prelude.{◌≡◌, ◌<◌, ◌≤◌, [], ◌∷◌, Bool, true, false, IfOk, OnErr};
ghost use Rattle.std.proofs.Common.{rules};
ghost use Rattle.stark_air.specs.Emission.{Asserted};
ghost use Rattle.stark_air.specs.Tree.{base, main_current};
ghost use Rattle.stark_samples.specs.Samples.{cubic_constraints};
ghost use Rattle.protocol_tests.specs.SizedAirs.{constraints_of, entry, kind_declared, kind_within, layout_of_kind, next_columns_of, square_times, three_columns};

use crate::kinds::{BoundedCubic, Kind, SizedAir};
use stark_air::{
    Air, AirBuilder, BaseAir, ExtensionBuilder, MainTraceAir, WindowAccess, every_column,
};
use stark_samples::CubicAir;
use stark_support::{Field, RowMajorMatrix};
use std::alloc::{AllocError, Global};

impl<F> BaseAir<F> for SizedAir {
    ghost layout = { λ air. layout_of_kind air.kind };

    ghost main_next_row_columns = { λ air. next_columns_of air.kind };

    ghost preprocessed_next_row_columns = { λ _. [] };

    ghost degree_hint = { λ air. air.hint };

    ghost as_declared = { λ air. kind_declared air.kind };

    fn width(&self) -> usize {
        match self.kind {
            Kind::Wide(_) => 8,
            _ => 4,
        }
    }

    fn preprocessed_width(&self) -> usize {
        0
    }

    fn preprocessed_trace(&self, _alloc: Global) -> Result<Option<RowMajorMatrix<F>>, AllocError> {
        Ok(None)
    }

    fn num_public_values(&self) -> usize {
        0
    }

    fn periodic_columns(&self) -> &[Vec<F>] {
        &[]
    }

    fn main_next_row_columns(&self, alloc: Global) -> Result<Vec<usize>, AllocError> {
        match self.kind {
            Kind::Wide(true) => every_column(alloc, 8),
            Kind::Wide(false) => Ok(Vec::new(alloc)),
            _ => every_column(alloc, 4),
        }
    }

    fn preprocessed_next_row_columns(&self, alloc: Global) -> Result<Vec<usize>, AllocError> {
        Ok(Vec::new(alloc))
    }

    fn max_constraint_degree(&self) -> Option<usize> {
        self.hint
    }

    fn num_constraints(&self) -> Option<usize> {
        None
    }

    fn public_boundary_io(&self) -> &[usize] {
        &[]
    }
}

impl<F: Field> Air<F> for SizedAir {
    ghost constraints = { λ air. constraints_of air.kind };

    ghost leaves_within = { λ air. kind_within _ air.kind };

    fn eval<AB: ExtensionBuilder<F = F>>(&self, builder: &mut AB) -> Result<(), AllocError> {
        match self.kind {
            Kind::Nothing => Ok(()),
            Kind::Column => assert_column(builder, false, 0),
            Kind::Columns => assert_three_columns(builder, true),
            Kind::Cube => assert_square(builder, false),
            Kind::SteppedSquare => assert_square(builder, true),
            Kind::Wide(_) => assert_three_columns(builder, false),
        }
    }
}

/// A column is zero, in the next row or in the current one.
#[tactic(auto, using(stark_air::proofs::Steps::shown))]
fn assert_column<AB: AirBuilder>(
    builder: &mut AB,
    next: bool,
    column: usize,
) -> Result<(), AllocError>
    requires current { column < (AB.layout builder.old).main }
    requires following { next ≡ true → column < (AB.layout builder.old).main_next }
    ensures same_environment { AB.environment builder.new ≡ AB.environment builder.old }
    ensures same_layout { AB.layout builder.new ≡ AB.layout builder.old }
    ensures asserted { IfOk result (λ _.
        AB.after builder.old (base (entry next column) ∷ []) builder.new) }
    ensures refused { OnErr result (AB.after builder.old [] builder.new) }
    ensures memory { OnErr result AB.may_refuse }
{
    let main = builder.main()?;
    if next {
        let x = main.next(column).unwrap();
        builder.assert_zero(x.into())
    } else {
        let x = main.current(column).unwrap();
        builder.assert_zero(x.into())
    }
}

/// Columns 1 and 2 are zero.
fn assert_two_columns<AB: AirBuilder>(builder: &mut AB, next: bool) -> Result<(), AllocError>
    requires current { 4 ≤ (AB.layout builder.old).main }
    requires following { next ≡ true → 4 ≤ (AB.layout builder.old).main_next }
    ensures asserted { Asserted AB.after result builder.old
        (base (entry next 1) ∷ base (entry next 2) ∷ []) builder.new }
    ensures memory { OnErr result AB.may_refuse }
{
    assert_column(&mut *builder, next, 1)?;
    assert_column(builder, next, 2)
}

/// Column 0 is zero in the current row, and so are columns 1 and 2.
fn assert_three_columns<AB: AirBuilder>(builder: &mut AB, next: bool) -> Result<(), AllocError>
    requires current { 4 ≤ (AB.layout builder.old).main }
    requires following { next ≡ true → 4 ≤ (AB.layout builder.old).main_next }
    ensures asserted { Asserted AB.after result builder.old (three_columns next) builder.new }
    ensures memory { OnErr result AB.may_refuse }
{
    assert_column(&mut *builder, false, 0)?;
    assert_two_columns(builder, next)
}

/// The square of column 0 is zero, on each row but the last, or else its cube.
#[tactic(auto, using(stark_air::proofs::Steps::shown))]
fn assert_square<AB: AirBuilder>(builder: &mut AB, stepped: bool) -> Result<(), AllocError>
    requires { 4 ≤ (AB.layout builder.old).main }
    ensures same_environment { AB.environment builder.new ≡ AB.environment builder.old }
    ensures same_layout { AB.layout builder.new ≡ AB.layout builder.old }
    ensures asserted { IfOk result (λ _.
        AB.after builder.old (square_times stepped ∷ []) builder.new) }
    ensures refused { OnErr result (AB.after builder.old [] builder.new) }
    ensures memory { OnErr result AB.may_refuse }
{
    let main = builder.main()?;
    let x = main.current(0).unwrap();
    if stepped {
        let step = builder.is_transition();
        builder.assert_zero(step * AB::Expr::from(x) * AB::Expr::from(x))
    } else {
        builder.assert_zero(AB::Expr::from(x) * AB::Expr::from(x) * AB::Expr::from(x))
    }
}

impl MainTraceAir for BoundedCubic {
    ghost WIDTH = { 1 };

    ghost NUM_PUBLIC_VALUES = { 0 };

    ghost READS_NEXT_ROW = { false };

    ghost degree_bound = { λ bounded. bounded.hint };

    const WIDTH: usize = 1;

    const NUM_PUBLIC_VALUES: usize = 0;

    const READS_NEXT_ROW: bool = false;

    fn degree_bound(&self) -> Option<usize> {
        self.hint
    }
}

impl<F: Field> Air<F> for BoundedCubic {
    ghost constraints = { λ _. cubic_constraints };

    ghost leaves_within = { Prim.search rules };

    fn eval<AB: ExtensionBuilder<F = F>>(&self, builder: &mut AB) -> Result<(), AllocError> {
        CubicAir.eval(builder)
    }
}
