//! The columns and values that constraints are over, and what their author says of them.
ghost use Rattle.std.specs.Prelude.{◌≡◌, length, IfOk, None};
ghost use Rattle.stark_air.specs.Declaration.{trace_width};
ghost use Rattle.stark_air.specs.SymbolicLayout.{symbolic_layout};
ghost use Rattle.stark_tree_air.specs.Traces.{declared_trace};
ghost use Rattle.stark_tree_air.specs.Named.{columns_layout};

use stark_air::AirLayout;
use stark_support::RowMajorMatrix;
use std::alloc::{AllocError, Global};

/// How many main columns and public values there are, the periodic columns, each by the values that
/// it repeats, and the preprocessed trace.
#[derive(Debug, Drop)]
pub struct TreeColumns<F> {
    pub width: usize,
    pub num_public_values: usize,
    pub periodic_columns: Vec<Vec<F>>,
    pub preprocessed_trace: Option<RowMajorMatrix<F>>,
}

impl<F> TreeColumns<F> {
    /// Main columns and public values, and nothing else.
    pub fn main(alloc: Global, width: usize, num_public_values: usize) -> TreeColumns<F>
        ensures width { result.width ≡ width }
        ensures num_public_values { result.num_public_values ≡ num_public_values }
        ensures periodic_columns { length result.periodic_columns.items ≡ 0 }
        ensures preprocessed_trace { result.preprocessed_trace ≡ None }
    {
        TreeColumns {
            width,
            num_public_values,
            periodic_columns: Vec::new(alloc),
            preprocessed_trace: None,
        }
    }

    /// The columns of the preprocessed trace, 0 without one.
    pub fn preprocessed_width(&self) -> usize
        ensures { result ≡ trace_width (declared_trace self.now.preprocessed_trace) }
    {
        match &self.preprocessed_trace {
            Some(trace) => trace.width,
            None => 0,
        }
    }
}

/// How many columns and values there are.
pub(crate) fn columns_layout<F>(columns: &TreeColumns<F>) -> AirLayout
    ensures { symbolic_layout result ≡ columns_layout columns.now }
{
    AirLayout {
        preprocessed_width: columns.preprocessed_width(),
        main_width: columns.width,
        num_public_values: columns.num_public_values,
        num_periodic_columns: columns.periodic_columns.len(),
    }
}

impl<F: Copy> TreeColumns<F> {
    /// A copy of the preprocessed trace. Err only where memory was refused.
    pub fn copied_trace(&self, alloc: Global) -> Result<Option<RowMajorMatrix<F>>, AllocError>
        ensures { IfOk result (λ trace. declared_trace trace
            ≡ declared_trace self.now.preprocessed_trace) }
    {
        match &self.preprocessed_trace {
            Some(trace) => {
                let mut values = Vec::new(alloc);
                values.extend_from_slice(&trace.values)?;
                Ok(Some(RowMajorMatrix::new(values, trace.width)))
            }
            None => Ok(None),
        }
    }
}

/// The columns, and what the author says of the constraints; a hint is None where the author says
/// nothing.
#[derive(Debug, Drop)]
pub struct TreeDeclaration<F> {
    pub columns: TreeColumns<F>,
    /// A bound on the degree multiple of the constraints.
    pub max_constraint_degree: Option<usize>,
    /// How many constraints there are. Nothing rests on it.
    pub num_constraints: Option<usize>,
}

impl<F> TreeDeclaration<F> {
    /// The columns, and no hint.
    pub fn without_hints(columns: TreeColumns<F>) -> TreeDeclaration<F>
        ensures columns { result.columns ≡ columns }
        ensures max_constraint_degree { result.max_constraint_degree ≡ None }
        ensures num_constraints { result.num_constraints ≡ None }
    {
        TreeDeclaration {
            columns,
            max_constraint_degree: None,
            num_constraints: None,
        }
    }
}
