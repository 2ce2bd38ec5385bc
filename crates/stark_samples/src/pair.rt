//! Two counters side by side.
ghost use Rattle.std.specs.Prelude.{None, true};
ghost use Rattle.std.proofs.Common.{rules};
ghost use Rattle.stark_samples.specs.Samples.{pair_constraints};

use crate::counter::CounterAir;
use stark_air::{Air, ExtensionBuilder, MainTraceAir, eval_on_columns};
use stark_support::Field;
use std::alloc::{AllocError, Global};

/// The counter on each of two columns, both from the one public value.
#[derive(Drop)]
pub struct PairAir;

impl MainTraceAir for PairAir {
    ghost WIDTH = { 2 };

    ghost NUM_PUBLIC_VALUES = { 1 };

    ghost READS_NEXT_ROW = { true };

    ghost degree_bound = { λ _. None };

    const WIDTH: usize = 2;

    const NUM_PUBLIC_VALUES: usize = 1;

    const READS_NEXT_ROW: bool = true;

    fn degree_bound(&self) -> Option<usize> {
        None
    }
}

impl<F: Field> Air<F> for PairAir {
    ghost constraints = { λ _. pair_constraints F.ONE };

    ghost leaves_within = { Prim.search rules };

    fn eval<AB: ExtensionBuilder<F = F>>(&self, builder: &mut AB) -> Result<(), AllocError> {
        eval_on_columns(&CounterAir, &mut *builder, 0..1)?;
        eval_on_columns(&CounterAir, builder, 1..2)
    }
}
