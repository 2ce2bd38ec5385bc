//! AIRs: lists of constraints over rows of columns.
ghost use Rattle.std.specs.Prelude.{◌≡◌, ◌⊎◌, ℕ, List, [], Option, None, IfOk, OnErr, map};
ghost use Rattle.std.specs.List.{range_with_len};
ghost use Rattle.std.specs.Option.{option_map};
ghost use Rattle.stark_air.specs.Declaration.{Trace, AreDeclared};
ghost use Rattle.stark_air.specs.Emission.{Asserted};
ghost use Rattle.stark_air.specs.Layout.{Layout, Covers, LeavesWithin};
ghost use Rattle.stark_air.specs.Tree.{Constraint};

use crate::builder::ExtensionBuilder;
use stark_support::{Field, RowMajorMatrix};
use std::alloc::{AllocError, Global};

/// What an AIR declares of itself: how many columns and values its constraints read, which columns
/// it brings, and what its author says of its size.
pub trait BaseAir<F> {
    /// How much of each kind the constraints may read.
    ghost layout: { Self → Layout };

    /// The preprocessed trace, None without one.
    ghost preprocessed_trace: { Self → Option (Trace F) } = { λ _. None };

    /// The periodic columns, each by the values that it repeats.
    ghost periodic_columns: { Self → List (List F) } = { λ _. [] };

    /// The main columns whose next row the constraints read.
    ghost main_next_row_columns: { Self → List ℕ };

    /// The preprocessed columns whose next row the constraints read.
    ghost preprocessed_next_row_columns: { Self → List ℕ };

    /// The author's own bound on the degree multiple of the constraints, None without one.
    ghost degree_hint: { Self → Option ℕ };

    /// The author's own count of the constraints, None without one. Nothing rests on it.
    ghost num_constraints: { Self → Option ℕ } = { λ _. None };

    /// The public values that are bound to the trace's first or last row.
    ghost public_boundary_io: { Self → List ℕ } = { λ _. [] };

    /// How many columns the main trace has.
    fn width(&self) -> usize
        ensures { result ≡ (layout self.now).main };

    /// How many columns the preprocessed trace has, 0 without one.
    fn preprocessed_width(&self) -> usize
        ensures { result ≡ (layout self.now).preprocessed };

    /// The preprocessed trace, None without one. Err only where memory was refused.
    fn preprocessed_trace(&self, alloc: Global) -> Result<Option<RowMajorMatrix<F>>, AllocError>
        ensures { IfOk result (λ trace. option_map (λ m.
            record { width = m.width; values = m.values.items }) trace
            ≡ preprocessed_trace self.now) };

    /// How many public values there are, 0 without any.
    fn num_public_values(&self) -> usize
        ensures { result ≡ (layout self.now).public_values };

    /// The periodic columns, each by the values that it repeats down the trace; none without any.
    fn periodic_columns(&self) -> &[Vec<F>]
        ensures { map (λ column. column.items) result.now ≡ periodic_columns self.now };

    /// How many periodic columns there are, 0 without any.
    fn num_periodic_columns(&self) -> usize
        ensures { result ≡ (layout self.now).periodics }
    {
        self.periodic_columns().len()
    }

    /// The main columns whose next row the constraints read; without any, no next row is opened.
    /// Err only where memory was refused.
    fn main_next_row_columns(&self, alloc: Global) -> Result<Vec<usize>, AllocError>
        ensures { IfOk result (λ columns. columns.items ≡ main_next_row_columns self.now) };

    /// The preprocessed columns whose next row the constraints read; without any, no next row is
    /// opened. Err only where memory was refused.
    fn preprocessed_next_row_columns(&self, alloc: Global) -> Result<Vec<usize>, AllocError>
        ensures { IfOk result (λ columns. columns.items ≡ preprocessed_next_row_columns self.now) };

    /// The author's own bound on the degree multiple of the constraints, None without one.
    fn max_constraint_degree(&self) -> Option<usize>
        ensures { result ≡ degree_hint self.now };

    /// The author's own count of the constraints, None without one.
    fn num_constraints(&self) -> Option<usize>
        ensures { result ≡ num_constraints self.now };

    /// The public values that are bound to the trace's first or last row, none without any.
    fn public_boundary_io(&self) -> &[usize]
        ensures { result.now ≡ public_boundary_io self.now };

    /// The preprocessed width is that of the declared trace, the number of the periodic columns
    /// theirs, and a trace whose declared next columns are none has no next leaf.
    ghost as_declared: { AreDeclared layout preprocessed_trace periodic_columns
        main_next_row_columns preprocessed_next_row_columns };
}

/// All columns of a trace of this width, as an AIR declares them that reads the whole next row. Err
/// only where memory was refused.
pub fn every_column(alloc: Global, width: usize) -> Result<Vec<usize>, AllocError>
    ensures { IfOk result (λ columns. columns.items ≡ range_with_len 0 width) }
{
    let mut columns = Vec::new(alloc);
    for column in 0..width {
        columns.push(column)?;
    }
    Ok(columns)
}

/// An AIR: a list of constraints, in one order, each marked as one over the base field or over the
/// extension.
pub trait Air<F: Field>: BaseAir<F> {
    ghost constraints: { Self → List (Constraint F) };

    /// Holds of an AIR whose evaluation takes memory of its own.
    ghost takes_memory: { Self → Type 0 } = { λ _. ⊥ };

    /// Asserts the constraints on a builder whose row has what the AIR reads. An Ok leaves what the
    /// builder holds once all of them were asserted in their order, an Err what it holds once a
    /// beginning of them was. It is Err only where a call on the builder was, or where memory of
    /// its own was refused.
    fn eval<AB: ExtensionBuilder<F = F>>(&self, builder: &mut AB) -> Result<(), AllocError>
        requires { Covers (AB.layout builder.old) (Self.layout self.now) }
        ensures asserted { Asserted AB.after result builder.old (constraints self.now) builder.new }
        ensures memory { OnErr result (AB.may_refuse ⊎ takes_memory self.now) };

    /// No constraint reads outside the layout.
    ghost leaves_within: { (air : Self) → LeavesWithin (Self.layout air) (constraints air) };
}
