//! The AIRs of the cases by their names, as one type.
ghost use Rattle.std.specs.Prelude.{⊤};
ghost use Rattle.protocol_tests.specs.NamedAirs.{named_constraints, named_declared, named_degree_hint, named_layout, named_next_columns, named_num_constraints, named_periodic_columns, named_preprocessed_next_columns, named_preprocessed_trace, named_within};

use crate::kinds::{BoundedCubic, DeclaringAir, NamedAir};
use crate::proofs::value_of;
use stark_air::{Air, BaseAir, ExtensionBuilder};
use stark_samples::{
    AnySampleAir, Asked, CounterAir, CubicAir, FibonacciAir, PairAir, PeriodicAir, PreprocessedAir,
    SmallAir,
};
use stark_support::{Field, JsonCodec, PrimeField64, RowMajorMatrix};
use stark_tree_air::TreeAir;
use std::alloc::{AllocError, Global};
use std::test::Fail;

impl<F: PrimeField64> BaseAir<F> for NamedAir<F> {
    ghost layout = { named_layout };

    ghost preprocessed_trace = { named_preprocessed_trace F.of_number };

    ghost periodic_columns = { named_periodic_columns };

    ghost main_next_row_columns = { named_next_columns };

    ghost preprocessed_next_row_columns = { named_preprocessed_next_columns };

    ghost degree_hint = { named_degree_hint };

    ghost num_constraints = { named_num_constraints };

    ghost as_declared = { named_declared F.of_number };

    fn width(&self) -> usize {
        match self {
            NamedAir::Sample(air) => BaseAir::<F>::width(air),
            NamedAir::Small(air) => BaseAir::<F>::width(air),
            NamedAir::Bounded(air) => BaseAir::<F>::width(air),
            NamedAir::Declaring(air) => BaseAir::<F>::width(air),
            NamedAir::Tree(air) => BaseAir::<F>::width(air),
        }
    }

    fn preprocessed_width(&self) -> usize {
        match self {
            NamedAir::Sample(air) => BaseAir::<F>::preprocessed_width(air),
            NamedAir::Small(air) => BaseAir::<F>::preprocessed_width(air),
            NamedAir::Bounded(air) => BaseAir::<F>::preprocessed_width(air),
            NamedAir::Declaring(air) => BaseAir::<F>::preprocessed_width(air),
            NamedAir::Tree(air) => BaseAir::<F>::preprocessed_width(air),
        }
    }

    fn preprocessed_trace(&self, alloc: Global) -> Result<Option<RowMajorMatrix<F>>, AllocError> {
        match self {
            NamedAir::Sample(air) => air.preprocessed_trace(alloc),
            NamedAir::Small(air) => air.preprocessed_trace(alloc),
            NamedAir::Bounded(air) => air.preprocessed_trace(alloc),
            NamedAir::Declaring(air) => air.preprocessed_trace(alloc),
            NamedAir::Tree(air) => air.preprocessed_trace(alloc),
        }
    }

    fn num_public_values(&self) -> usize {
        match self {
            NamedAir::Sample(air) => BaseAir::<F>::num_public_values(air),
            NamedAir::Small(air) => BaseAir::<F>::num_public_values(air),
            NamedAir::Bounded(air) => BaseAir::<F>::num_public_values(air),
            NamedAir::Declaring(air) => BaseAir::<F>::num_public_values(air),
            NamedAir::Tree(air) => BaseAir::<F>::num_public_values(air),
        }
    }

    fn periodic_columns(&self) -> &[Vec<F>] {
        match self {
            NamedAir::Sample(air) => air.periodic_columns(),
            NamedAir::Small(air) => air.periodic_columns(),
            NamedAir::Bounded(air) => air.periodic_columns(),
            NamedAir::Declaring(air) => air.periodic_columns(),
            NamedAir::Tree(air) => air.periodic_columns(),
        }
    }

    fn main_next_row_columns(&self, alloc: Global) -> Result<Vec<usize>, AllocError> {
        match self {
            NamedAir::Sample(air) => BaseAir::<F>::main_next_row_columns(air, alloc),
            NamedAir::Small(air) => BaseAir::<F>::main_next_row_columns(air, alloc),
            NamedAir::Bounded(air) => BaseAir::<F>::main_next_row_columns(air, alloc),
            NamedAir::Declaring(air) => BaseAir::<F>::main_next_row_columns(air, alloc),
            NamedAir::Tree(air) => BaseAir::<F>::main_next_row_columns(air, alloc),
        }
    }

    fn preprocessed_next_row_columns(&self, alloc: Global) -> Result<Vec<usize>, AllocError> {
        match self {
            NamedAir::Sample(air) => BaseAir::<F>::preprocessed_next_row_columns(air, alloc),
            NamedAir::Small(air) => BaseAir::<F>::preprocessed_next_row_columns(air, alloc),
            NamedAir::Bounded(air) => BaseAir::<F>::preprocessed_next_row_columns(air, alloc),
            NamedAir::Declaring(air) => BaseAir::<F>::preprocessed_next_row_columns(air, alloc),
            NamedAir::Tree(air) => BaseAir::<F>::preprocessed_next_row_columns(air, alloc),
        }
    }

    fn max_constraint_degree(&self) -> Option<usize> {
        match self {
            NamedAir::Sample(air) => BaseAir::<F>::max_constraint_degree(air),
            NamedAir::Small(air) => BaseAir::<F>::max_constraint_degree(air),
            NamedAir::Bounded(air) => BaseAir::<F>::max_constraint_degree(air),
            NamedAir::Declaring(air) => BaseAir::<F>::max_constraint_degree(air),
            NamedAir::Tree(air) => BaseAir::<F>::max_constraint_degree(air),
        }
    }

    fn num_constraints(&self) -> Option<usize> {
        match self {
            NamedAir::Sample(air) => BaseAir::<F>::num_constraints(air),
            NamedAir::Small(air) => BaseAir::<F>::num_constraints(air),
            NamedAir::Bounded(air) => BaseAir::<F>::num_constraints(air),
            NamedAir::Declaring(air) => BaseAir::<F>::num_constraints(air),
            NamedAir::Tree(air) => BaseAir::<F>::num_constraints(air),
        }
    }

    fn public_boundary_io(&self) -> &[usize] {
        match self {
            NamedAir::Sample(air) => BaseAir::<F>::public_boundary_io(air),
            NamedAir::Small(air) => BaseAir::<F>::public_boundary_io(air),
            NamedAir::Bounded(air) => BaseAir::<F>::public_boundary_io(air),
            NamedAir::Declaring(air) => BaseAir::<F>::public_boundary_io(air),
            NamedAir::Tree(air) => BaseAir::<F>::public_boundary_io(air),
        }
    }
}

impl<F: PrimeField64> Air<F> for NamedAir<F> {
    ghost constraints = { named_constraints F.ONE F.of_number };

    /// An AIR as data keeps the values of its nodes.
    ghost takes_memory = { λ _. ⊤ };

    ghost leaves_within = { named_within F.ONE F.of_number };

    fn eval<AB: ExtensionBuilder<F = F>>(&self, builder: &mut AB) -> Result<(), AllocError> {
        match self {
            NamedAir::Sample(air) => air.eval(builder),
            NamedAir::Small(air) => air.eval(builder),
            NamedAir::Bounded(air) => air.eval(builder),
            NamedAir::Declaring(air) => air.eval(builder),
            NamedAir::Tree(air) => air.eval(builder),
        }
    }
}

/// A small AIR by what is asked of its column; None of another name.
fn small_air(name: &str) -> Option<SmallAir> {
    let (asked, max_degree) = match name {
        "mixed" => (Asked::Mixed, None),
        "first row" => (Asked::FirstRow, None),
        "nothing" => (Asked::Nothing, None),
        "zeros" => (Asked::Zeros, Some(3)),
        "hinted" => (Asked::Zeros, Some(5)),
        "zeros without a bound" => (Asked::Zeros, None),
        _ => return None,
    };
    Some(SmallAir { asked, max_degree })
}

/// A sample AIR by its name; None of another one. Err only where memory was refused.
fn sample_air<F: PrimeField64>(
    alloc: Global,
    name: &str,
) -> Result<Option<AnySampleAir<F>>, AllocError> {
    Ok(Some(match name {
        "counter" => AnySampleAir::Counter(CounterAir),
        "cubic" => AnySampleAir::Cubic(CubicAir),
        "fibonacci" => AnySampleAir::Fibonacci(FibonacciAir),
        "pair" => AnySampleAir::Pair(PairAir),
        "periodic" => AnySampleAir::Periodic(PeriodicAir::new(alloc)?),
        "preprocessed" => AnySampleAir::Preprocessed(PreprocessedAir),
        _ => return Ok(None),
    }))
}

/// The AIR that a JSON text spells.
pub fn tree_of<F: Field + JsonCodec>(alloc: Global, text: &str) -> Result<TreeAir<F>, Fail> {
    let value = value_of(alloc, text)?;
    match TreeAir::from_json(alloc, &value) {
        Ok(air) => Ok(air),
        Err(_) => Err(Fail::new("no AIR")),
    }
}

/// The AIR that a JSON text spells, or that of a name.
pub fn air_in<F: PrimeField64 + JsonCodec>(alloc: Global, text: &str) -> Result<NamedAir<F>, Fail> {
    if text.starts_with('{') {
        return Ok(NamedAir::Tree(tree_of::<F>(alloc, text)?));
    }
    named_air(alloc, text)
}

/// The AIR of a name; a number is the author's bound of a counter, `bounded cubic` has one past all
/// domains.
pub fn named_air<F: PrimeField64>(alloc: Global, name: &str) -> Result<NamedAir<F>, Fail> {
    if let Some(air) = sample_air(alloc, name)? {
        return Ok(NamedAir::Sample(air));
    }
    if let Some(air) = small_air(name) {
        return Ok(NamedAir::Small(air));
    }
    if name == "bounded cubic" {
        return Ok(NamedAir::Bounded(BoundedCubic {
            hint: Some(usize::MAX),
        }));
    }
    Ok(NamedAir::Declaring(DeclaringAir {
        hint: Some(name.parse::<usize>()?),
        reads_next: true,
        preprocessed: None,
        reads_preprocessed_next: false,
        periodic: Vec::new(alloc),
    }))
}
