//! A column that is a periodic one.
ghost use Rattle.std.specs.Prelude.{◌≡◌, [], ◌∷◌, IfOk, None, OnErr};
ghost use Rattle.std.proofs.Common.{rules};
ghost use Rattle.stark_air.specs.Layout.{Covers};
ghost use Rattle.stark_samples.specs.Samples.{periodic_layout, is_periodic, periodic_constraints};

use stark_air::{Air, AirBuilder, BaseAir, ExtensionBuilder, WindowAccess, periodic_value};
use stark_support::{Field, RowMajorMatrix};
use std::alloc::{AllocError, Global};
use std::slice;

/// A column that is the periodic column of zero and one.
#[derive(Drop)]
pub struct PeriodicAir<F> {
    column: Vec<F>,
}

impl<F: Field> PeriodicAir<F> {
    /// The AIR, whose one periodic column is zero and one. Err only where memory was refused.
    pub fn new(alloc: Global) -> Result<Self, AllocError>
        ensures { IfOk result (λ air. ⟦<PeriodicAir<F> as BaseAir<F>>⟧.periodic_columns air
            ≡ (F.ZERO ∷ F.ONE ∷ []) ∷ []) }
    {
        let mut column = Vec::new(alloc);
        column.push(F::ZERO)?;
        column.push(F::ONE)?;
        Ok(PeriodicAir { column })
    }
}

impl<F> BaseAir<F> for PeriodicAir<F> {
    ghost layout = { λ _. periodic_layout };

    ghost periodic_columns = { λ air. air.column.items ∷ [] };

    ghost main_next_row_columns = { λ _. [] };

    ghost preprocessed_next_row_columns = { λ _. [] };

    ghost degree_hint = { λ _. None };

    ghost as_declared = { Prim.search rules };

    fn width(&self) -> usize {
        1
    }

    fn preprocessed_width(&self) -> usize {
        0
    }

    fn preprocessed_trace(&self, _alloc: Global) -> Result<Option<RowMajorMatrix<F>>, AllocError> {
        Ok(None)
    }

    fn num_public_values(&self) -> usize {
        0
    }

    fn periodic_columns(&self) -> &[Vec<F>] {
        slice::from_ref(&self.column)
    }

    fn main_next_row_columns(&self, alloc: Global) -> Result<Vec<usize>, AllocError> {
        Ok(Vec::new(alloc))
    }

    fn preprocessed_next_row_columns(&self, alloc: Global) -> Result<Vec<usize>, AllocError> {
        Ok(Vec::new(alloc))
    }

    fn max_constraint_degree(&self) -> Option<usize> {
        None
    }

    fn num_constraints(&self) -> Option<usize> {
        None
    }

    fn public_boundary_io(&self) -> &[usize] {
        &[]
    }
}

impl<F: Field> Air<F> for PeriodicAir<F> {
    ghost constraints = { λ _. periodic_constraints };

    ghost leaves_within = { Prim.search rules };

    fn eval<AB: ExtensionBuilder<F = F>>(&self, builder: &mut AB) -> Result<(), AllocError> {
        assert_is_periodic(builder)
    }
}

/// The column is the periodic one.
#[tactic(auto, using(stark_air::proofs::Steps::shown))]
fn assert_is_periodic<AB: AirBuilder>(builder: &mut AB) -> Result<(), AllocError>
    requires { Covers (AB.layout builder.old) periodic_layout }
    ensures same_layout { AB.layout builder.new ≡ AB.layout builder.old }
    ensures asserted { IfOk result (λ _. AB.after builder.old (is_periodic ∷ []) builder.new) }
    ensures refused { OnErr result (AB.after builder.old [] builder.new) }
    ensures memory { OnErr result AB.may_refuse }
{
    let main = builder.main()?;
    let x = main.current(0).unwrap();
    let periodic = periodic_value(&*builder, 0);
    builder.assert_eq(x.into(), periodic)
}
