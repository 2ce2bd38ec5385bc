//! How many columns and values an AIR is evaluated on.
ghost use Rattle.std.specs.Prelude.{◌≡◌};
ghost use Rattle.stark_air.specs.Layout.{Covers};
ghost use Rattle.stark_air.specs.SymbolicLayout.{symbolic_layout};

use crate::air::BaseAir;

/// The widths and counts of the rows that an AIR is evaluated on symbolically.
#[derive(Clone, Copy, Debug)]
pub struct AirLayout {
    pub preprocessed_width: usize,
    pub main_width: usize,
    pub num_public_values: usize,
    pub num_periodic_columns: usize,
}

impl Default for AirLayout {
    /// Zeros.
    ghost is_default = { λ x. (x.preprocessed_width ≡ 0) × (x.main_width ≡ 0)
        × (x.num_public_values ≡ 0) × (x.num_periodic_columns ≡ 0) };

    fn default() -> AirLayout {
        AirLayout {
            preprocessed_width: 0,
            main_width: 0,
            num_public_values: 0,
            num_periodic_columns: 0,
        }
    }
}

impl AirLayout {
    /// The AIR's own widths and counts.
    pub fn from_air<F, A: BaseAir<F>>(air: &A) -> AirLayout
        ensures preprocessed_width { result.preprocessed_width ≡ (A.layout air.now).preprocessed }
        ensures main_width { result.main_width ≡ (A.layout air.now).main }
        ensures num_public_values { result.num_public_values ≡ (A.layout air.now).public_values }
        ensures num_periodic_columns { result.num_periodic_columns ≡ (A.layout air.now).periodics }
        ensures covers { Covers (symbolic_layout result) (A.layout air.now) }
    {
        AirLayout {
            preprocessed_width: air.preprocessed_width(),
            main_width: air.width(),
            num_public_values: air.num_public_values(),
            num_periodic_columns: air.num_periodic_columns(),
        }
    }
}
