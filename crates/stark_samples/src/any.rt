//! Any of the sample AIRs, as one type.
ghost use Rattle.std.specs.Prelude.{[], None};
ghost use Rattle.stark_samples.specs.AnySamples.{any_constraints, any_declared, any_layout, any_next_columns, any_periodic_columns, any_preprocessed_trace, any_within};

use crate::counter::CounterAir;
use crate::cubic::CubicAir;
use crate::fibonacci::FibonacciAir;
use crate::pair::PairAir;
use crate::periodic::PeriodicAir;
use crate::preprocessed::PreprocessedAir;
use stark_air::{Air, BaseAir, ExtensionBuilder};
use stark_support::{PrimeField64, RowMajorMatrix};
use std::alloc::{AllocError, Global};

/// One of the sample AIRs, which declares and constrains what that one does. What is called for
/// several of them is compiled, and proved, for this type alone.
#[derive(Drop)]
pub enum AnySampleAir<F> {
    Counter(CounterAir),
    Cubic(CubicAir),
    Fibonacci(FibonacciAir),
    Pair(PairAir),
    Periodic(PeriodicAir<F>),
    Preprocessed(PreprocessedAir),
}

/// What a call answers of the AIR in the case.
macro_rules! of_case {
    ($any:expr, $air:ident => $call:expr) => {
        match $any {
            AnySampleAir::Counter($air) => $call,
            AnySampleAir::Cubic($air) => $call,
            AnySampleAir::Fibonacci($air) => $call,
            AnySampleAir::Pair($air) => $call,
            AnySampleAir::Periodic($air) => $call,
            AnySampleAir::Preprocessed($air) => $call,
        }
    };
}

impl<F: PrimeField64> BaseAir<F> for AnySampleAir<F> {
    ghost layout = { any_layout };

    ghost preprocessed_trace = { any_preprocessed_trace F.of_number };

    ghost periodic_columns = { any_periodic_columns };

    ghost main_next_row_columns = { any_next_columns };

    ghost preprocessed_next_row_columns = { λ _. [] };

    ghost degree_hint = { λ _. None };

    ghost as_declared = { any_declared F.of_number };

    fn width(&self) -> usize {
        of_case!(self, air => BaseAir::<F>::width(air))
    }

    fn preprocessed_width(&self) -> usize {
        of_case!(self, air => BaseAir::<F>::preprocessed_width(air))
    }

    fn preprocessed_trace(&self, alloc: Global) -> Result<Option<RowMajorMatrix<F>>, AllocError> {
        of_case!(self, air => air.preprocessed_trace(alloc))
    }

    fn num_public_values(&self) -> usize {
        of_case!(self, air => BaseAir::<F>::num_public_values(air))
    }

    fn periodic_columns(&self) -> &[Vec<F>] {
        of_case!(self, air => air.periodic_columns())
    }

    fn main_next_row_columns(&self, alloc: Global) -> Result<Vec<usize>, AllocError> {
        of_case!(self, air => BaseAir::<F>::main_next_row_columns(air, alloc))
    }

    fn preprocessed_next_row_columns(&self, alloc: Global) -> Result<Vec<usize>, AllocError> {
        of_case!(self, air => BaseAir::<F>::preprocessed_next_row_columns(air, alloc))
    }

    fn max_constraint_degree(&self) -> Option<usize> {
        of_case!(self, air => BaseAir::<F>::max_constraint_degree(air))
    }

    fn num_constraints(&self) -> Option<usize> {
        of_case!(self, air => BaseAir::<F>::num_constraints(air))
    }

    fn public_boundary_io(&self) -> &[usize] {
        of_case!(self, air => BaseAir::<F>::public_boundary_io(air))
    }
}

impl<F: PrimeField64> Air<F> for AnySampleAir<F> {
    ghost constraints = { any_constraints F.ONE };

    ghost leaves_within = { any_within F.ONE };

    fn eval<AB: ExtensionBuilder<F = F>>(&self, builder: &mut AB) -> Result<(), AllocError> {
        match self {
            AnySampleAir::Counter(air) => air.eval(builder),
            AnySampleAir::Cubic(air) => air.eval(builder),
            AnySampleAir::Fibonacci(air) => air.eval(builder),
            AnySampleAir::Pair(air) => air.eval(builder),
            AnySampleAir::Periodic(air) => air.eval(builder),
            AnySampleAir::Preprocessed(air) => air.eval(builder),
        }
    }
}
