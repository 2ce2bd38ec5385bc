//! A column that is a preprocessed one.
ghost use Rattle.std.specs.Prelude.{◌≡◌, [], ◌∷◌, IfOk, None, OnErr, Some};
ghost use Rattle.std.proofs.Common.{rules};
ghost use Rattle.stark_air.specs.Layout.{Covers};
ghost use Rattle.stark_samples.specs.Samples.{preprocessed_layout, is_preprocessed, preprocessed_constraints};

use stark_air::{Air, AirBuilder, BaseAir, ExtensionBuilder, WindowAccess};
use stark_support::{PrimeField64, RowMajorMatrix};
use std::alloc::{AllocError, Global};

/// A column that is the preprocessed column of 1, 2, 3 and 4.
#[derive(Drop)]
pub struct PreprocessedAir;

impl<F: PrimeField64> BaseAir<F> for PreprocessedAir {
    ghost layout = { λ _. preprocessed_layout };

    ghost preprocessed_trace = { λ _. Some
        (record {
          width = 1;
          values = F.of_number 1 ∷ F.of_number 2 ∷ F.of_number 3
              ∷ F.of_number 4 ∷ [];
        }) };

    ghost main_next_row_columns = { λ _. [] };

    ghost preprocessed_next_row_columns = { λ _. [] };

    ghost degree_hint = { λ _. None };

    ghost as_declared = { Prim.search rules };

    fn width(&self) -> usize {
        1
    }

    fn preprocessed_width(&self) -> usize {
        1
    }

    fn preprocessed_trace(&self, alloc: Global) -> Result<Option<RowMajorMatrix<F>>, AllocError> {
        let mut values = Vec::new(alloc);
        values.push(F::from_u8(1))?;
        values.push(F::from_u8(2))?;
        values.push(F::from_u8(3))?;
        values.push(F::from_u8(4))?;
        Ok(Some(RowMajorMatrix::new_col(values)))
    }

    fn num_public_values(&self) -> usize {
        0
    }

    fn periodic_columns(&self) -> &[Vec<F>] {
        &[]
    }

    fn main_next_row_columns(&self, alloc: Global) -> Result<Vec<usize>, AllocError> {
        Ok(Vec::new(alloc))
    }

    fn preprocessed_next_row_columns(&self, alloc: Global) -> Result<Vec<usize>, AllocError> {
        Ok(Vec::new(alloc))
    }

    fn max_constraint_degree(&self) -> Option<usize> {
        None
    }

    fn num_constraints(&self) -> Option<usize> {
        None
    }

    fn public_boundary_io(&self) -> &[usize] {
        &[]
    }
}

impl<F: PrimeField64> Air<F> for PreprocessedAir {
    ghost constraints = { λ _. preprocessed_constraints };

    ghost leaves_within = { Prim.search rules };

    fn eval<AB: ExtensionBuilder<F = F>>(&self, builder: &mut AB) -> Result<(), AllocError> {
        assert_is_preprocessed(builder)
    }
}

/// The column is the preprocessed one.
#[tactic(auto, using(stark_air::proofs::Steps::shown))]
fn assert_is_preprocessed<AB: AirBuilder>(builder: &mut AB) -> Result<(), AllocError>
    requires { Covers (AB.layout builder.old) preprocessed_layout }
    ensures same_layout { AB.layout builder.new ≡ AB.layout builder.old }
    ensures asserted { IfOk result (λ _. AB.after builder.old (is_preprocessed ∷ []) builder.new) }
    ensures refused { OnErr result (AB.after builder.old [] builder.new) }
    ensures memory { OnErr result AB.may_refuse }
{
    let main = builder.main()?;
    let preprocessed = builder.preprocessed()?;
    let x = main.current(0).unwrap();
    let value = preprocessed.current(0).unwrap();
    builder.assert_eq(x.into(), value.into())
}
