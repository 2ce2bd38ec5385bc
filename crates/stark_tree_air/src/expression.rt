//! Constraints that an author writes as expressions.
ghost use Rattle.std.specs.Prelude.{◌≡◌, IfOk, None, Some, map, option_map};
ghost use Rattle.stark_air.specs.SymbolicLayout.{symbolic_layout};
ghost use Rattle.stark_tree_air.specs.Named.{columns_layout, first_outside, named, NamesOutside};
ghost use Rattle.stark_tree_air.specs.Writing.{expressed, SpellsWithin};

use crate::air::TreeAir;
use crate::columns::{TreeDeclaration, columns_layout};
use crate::error::TreeExpressionError;
use crate::list::TreeList;
use crate::writing::{constraint_within, write_constraint};
use stark_air::{Air, AirLayout};
use stark_support::Field;
use stark_symbolic::SymbolicConstraint;
use std::alloc::{AllocError, Global};

/// A constraint, and what its author calls it.
#[derive(Drop)]
pub struct NamedConstraint<F> {
    pub name: &'static str,
    pub constraint: SymbolicConstraint<F>,
}

/// The name of the first constraint that reads outside the layout.
fn first_outside<F: Field>(
    constraints: &[NamedConstraint<F>],
    layout: AirLayout,
) -> Option<&'static str>
    ensures { option_map (λ name. name.now) result
        ≡ first_outside (symbolic_layout layout) constraints.now }
{
    for named in constraints {
        if !constraint_within(&named.constraint, layout) {
            return Some(named.name);
        }
    }
    None
}

/// The list that spells the constraints, with a node for each node of their expressions. Err only
/// where memory was refused, also for a node of an expression.
fn expressions_list<F: Field>(
    alloc: Global,
    constraints: &[NamedConstraint<F>],
) -> Result<TreeList<F>, AllocError>
    ensures { IfOk result (λ list. SpellsWithin list (map (λ c. c.constraint) constraints.now)) }
{
    let mut list = TreeList::new(alloc);
    for named in constraints {
        write_constraint(&mut list, &named.constraint)?;
    }
    Ok(list)
}

impl<F: Field> TreeAir<F> {
    /// The AIR whose constraints are these expressions, in their order and with their marks. Err
    /// with the name of the first constraint that reads a column or a value that isn't there, or
    /// where memory was refused, also for a node of an expression.
    pub fn from_expressions(
        alloc: Global,
        declaration: TreeDeclaration<F>,
        constraints: &[NamedConstraint<F>],
    ) -> Result<TreeAir<F>, TreeExpressionError>
        ensures declaration { IfOk result (λ air. air.declaration ≡ declaration) }
        ensures constraints { IfOk result (λ air.
            map expressed (⟦<TreeAir<F> as Air<F>>⟧.constraints air)
            ≡ map (λ c. c.constraint) constraints.now) }
        ensures fault { NamesOutside named (first_outside (columns_layout declaration.columns)
            constraints.now) result }
    {
        let layout = columns_layout(&declaration.columns);
        if let Some(name) = first_outside(constraints, layout) {
            return Err(TreeExpressionError::LeafOutside { name });
        }
        let list = expressions_list(alloc, constraints)?;
        Ok(TreeAir {
            alloc,
            declaration,
            list,
        })
    }
}
