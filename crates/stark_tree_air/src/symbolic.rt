//! AIRs that are written as code, as data.
ghost use Rattle.std.specs.Prelude.{◌≡◌, IfOk, map, true};
ghost use Rattle.stark_air.specs.Layout.{Layout};
ghost use Rattle.stark_tree_air.specs.Traces.{declared_trace};
ghost use Rattle.stark_tree_air.specs.Writing.{SpellsAll, all_within, folded};

use crate::air::TreeAir;
use crate::columns::{TreeColumns, TreeDeclaration};
use crate::list::TreeList;
use crate::writing::write_constraint;
use stark_air::{Air, AirLayout, BaseAir};
use stark_support::Field;
use stark_symbolic::{SymbolicConstraint, symbolic_constraints};
use std::alloc::{AllocError, Global};

/// The list that spells the constraints, with a node for each node of their expressions. Err only
/// where memory was refused, also for a node of an expression.
fn symbolic_list<F: Field>(
    alloc: Global,
    constraints: &[SymbolicConstraint<F>],
) -> Result<TreeList<F>, AllocError>
    ensures { IfOk result (λ list. (l : Layout) → all_within l constraints.now ≡ true
        → SpellsAll l list constraints.now) }
{
    let mut list = TreeList::new(alloc);
    for constraint in constraints {
        write_constraint(&mut list, constraint)?;
    }
    Ok(list)
}

/// A copy of columns, each by the values that it repeats. Err only where memory was refused.
fn copied_columns<F: Copy>(alloc: Global, columns: &[Vec<F>]) -> Result<Vec<Vec<F>>, AllocError>
    ensures { IfOk result (λ copies. map (λ column. column.items) copies.items
        ≡ map (λ column. column.items) columns.now) }
{
    let mut copies = Vec::new(alloc);
    for column in columns {
        let mut copy = Vec::new(alloc);
        copy.extend_from_slice(column)?;
        copies.push(copy)?;
    }
    Ok(copies)
}

/// What an AIR declares of itself. Err only where memory was refused.
fn declaration_of<F: Copy, A: BaseAir<F>>(
    alloc: Global,
    air: &A,
) -> Result<TreeDeclaration<F>, AllocError>
    ensures width { IfOk result (λ d. d.columns.width ≡ (A.layout air.now).main) }
    ensures num_public_values { IfOk result (λ d. d.columns.num_public_values
        ≡ (A.layout air.now).public_values) }
    ensures periodic_columns { IfOk result (λ d.
        map (λ column. column.items) d.columns.periodic_columns.items
        ≡ A.periodic_columns air.now) }
    ensures preprocessed_trace { IfOk result (λ d. declared_trace d.columns.preprocessed_trace
        ≡ A.preprocessed_trace air.now) }
    ensures max_constraint_degree { IfOk result (λ d. d.max_constraint_degree
        ≡ A.degree_hint air.now) }
    ensures num_constraints { IfOk result (λ d. d.num_constraints ≡ A.num_constraints air.now) }
{
    let columns = TreeColumns {
        width: air.width(),
        num_public_values: air.num_public_values(),
        periodic_columns: copied_columns(alloc, air.periodic_columns())?,
        preprocessed_trace: air.preprocessed_trace(alloc)?,
    };
    Ok(TreeDeclaration {
        columns,
        max_constraint_degree: air.max_constraint_degree(),
        num_constraints: air.num_constraints(),
    })
}

impl<F: Field> TreeAir<F> {
    /// The AIR as data: its columns and hints, and its constraints in the order in which it asserts
    /// them, each with constants folded as in its symbolic expression. A next row is declared only
    /// where a constraint still reads one. Err only where memory was refused.
    pub fn from_air<A: Air<F>>(alloc: Global, air: &A) -> Result<TreeAir<F>, AllocError>
        ensures constraints { IfOk result (λ tree. ⟦<TreeAir<F> as Air<F>>⟧.constraints tree
            ≡ map (folded F.ring) (A.constraints air.now)) }
        ensures width { IfOk result (λ tree. tree.declaration.columns.width
            ≡ (A.layout air.now).main) }
        ensures num_public_values { IfOk result (λ tree. tree.declaration.columns.num_public_values
            ≡ (A.layout air.now).public_values) }
        ensures periodic_columns { IfOk result (λ tree.
            ⟦<TreeAir<F> as BaseAir<F>>⟧.periodic_columns tree ≡ A.periodic_columns air.now) }
        ensures preprocessed_trace { IfOk result (λ tree.
            ⟦<TreeAir<F> as BaseAir<F>>⟧.preprocessed_trace tree
            ≡ A.preprocessed_trace air.now) }
        ensures max_constraint_degree { IfOk result (λ tree. tree.declaration.max_constraint_degree
            ≡ A.degree_hint air.now) }
        ensures num_constraints { IfOk result (λ tree. tree.declaration.num_constraints
            ≡ A.num_constraints air.now) }
    {
        let layout = AirLayout::from_air(air);
        let constraints = symbolic_constraints::<F, F, A>(alloc, air, layout)?;
        let list = symbolic_list(alloc, &constraints)?;
        let declaration = declaration_of(alloc, air)?;
        Ok(TreeAir {
            alloc,
            declaration,
            list,
        })
    }
}
