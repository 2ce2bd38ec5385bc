//! The AIR that nodes and constraints spell.
ghost use Rattle.std.specs.Prelude.{◌≡◌, [], IfOk, None, Some, ⊤, alloc_error, filter_map, map};
ghost use Rattle.stark_tree_air.specs.FaultFacts.{tree_air_declared, tree_air_within};
ghost use Rattle.stark_tree_air.specs.Faults.{main_next_column, preprocessed_next_column, tree_air_fault, tree_layout};
ghost use Rattle.stark_tree_air.specs.Nodes.{spelled};
ghost use Rattle.stark_tree_air.specs.Traces.{declared_trace};
ghost use Rattle.stark_support.specs.Faults.{NamesFault, NamesFaultOr};

use crate::columns::TreeDeclaration;
use crate::error::TreeAirError;
use crate::evaluate::{assert_constraint, node_values, operand};
use crate::fault::{main_next_column, preprocessed_next_column, tree_air_fault};
use crate::list::TreeList;
use crate::needed::{constraint_place, needed};
use crate::node::{TreeConstraint, TreeNode};
use stark_air::{Air, BaseAir, ExtensionBuilder};
use stark_support::{Field, RowMajorMatrix};
use std::alloc::{AllocError, Global};

/// An AIR that is data: nodes, each of which is a leaf or an operation on nodes before it, and
/// which of them are constraints, in their order.
#[derive(Debug, Drop)]
pub struct TreeAir<F> {
    /// Where the evaluation takes its memory.
    pub alloc: Global,
    pub declaration: TreeDeclaration<F>,
    pub list: TreeList<F>,
    pub ghost without_fault: { tree_air_fault declaration.columns list.constants.items
        list.nodes.items list.constraints.items ≡ None },
}

impl<F: Copy> TreeAir<F> {
    /// The AIR of the list, with memory for its evaluation from `alloc`. Err with the first fault:
    /// of the first node that reads what isn't there or names an operand that doesn't stand before
    /// it, or else of the first constraint that names no node. It takes no memory.
    pub fn new(
        alloc: Global,
        declaration: TreeDeclaration<F>,
        list: TreeList<F>,
    ) -> Result<TreeAir<F>, TreeAirError>
        ensures declaration { IfOk result (λ air. air.declaration ≡ declaration) }
        ensures list { IfOk result (λ air. air.list ≡ list) }
        ensures fault { NamesFault (tree_air_fault declaration.columns list.constants.items
            list.nodes.items list.constraints.items) result }
    {
        match tree_air_fault(&declaration.columns, &list) {
            Some(fault) => Err(fault),
            None => Ok(TreeAir {
                alloc,
                declaration,
                list,
            }),
        }
    }

    /// The AIR of lists that are written out, with the errors of `new`. It is `OutOfMemory` where
    /// memory for the lists was refused.
    pub fn of<const N: usize, const M: usize, const K: usize>(
        alloc: Global,
        declaration: TreeDeclaration<F>,
        constants: [F; N],
        nodes: [TreeNode; M],
        constraints: [TreeConstraint; K],
    ) -> Result<TreeAir<F>, TreeAirError>
        ensures declaration { IfOk result (λ air. air.declaration ≡ declaration) }
        ensures constants { IfOk result (λ air. air.list.constants.items ≡ constants) }
        ensures nodes { IfOk result (λ air. air.list.nodes.items ≡ nodes.entry) }
        ensures constraints { IfOk result (λ air. air.list.constraints.items ≡ constraints.entry) }
        ensures fault { NamesFaultOr (TreeAirError.OutOfMemory alloc_error)
            (tree_air_fault declaration.columns constants nodes.entry constraints.entry)
            result }
    {
        let constants = match Vec::from_array(alloc, constants) {
            Ok(constants) => constants,
            Err(_) => return Err(TreeAirError::OutOfMemory(AllocError)),
        };
        let nodes = match Vec::from_array(alloc, nodes) {
            Ok(nodes) => nodes,
            Err(_) => return Err(TreeAirError::OutOfMemory(AllocError)),
        };
        let constraints = match Vec::from_array(alloc, constraints) {
            Ok(constraints) => constraints,
            Err(_) => return Err(TreeAirError::OutOfMemory(AllocError)),
        };
        let list = TreeList {
            constants,
            nodes,
            constraints,
        };
        TreeAir::new(alloc, declaration, list)
    }
}

impl<F: Copy> BaseAir<F> for TreeAir<F> {
    ghost layout = { λ air. tree_layout air.declaration.columns air.list.nodes.items };

    ghost preprocessed_trace = { λ air. declared_trace air.declaration.columns.preprocessed_trace };

    ghost periodic_columns = { λ air. map (λ column.
        column.items) air.declaration.columns.periodic_columns.items };

    /// A column for each node that reads one in the next row, in the nodes' order.
    ghost main_next_row_columns = { λ air. filter_map main_next_column air.list.nodes.items };

    ghost preprocessed_next_row_columns = { λ air.
        filter_map preprocessed_next_column air.list.nodes.items };

    ghost degree_hint = { λ air. air.declaration.max_constraint_degree };

    ghost num_constraints = { λ air. air.declaration.num_constraints };

    ghost as_declared = { λ air. tree_air_declared air.declaration.columns air.list.nodes.items };

    fn width(&self) -> usize {
        self.declaration.columns.width
    }

    fn preprocessed_width(&self) -> usize {
        self.declaration.columns.preprocessed_width()
    }

    fn preprocessed_trace(&self, alloc: Global) -> Result<Option<RowMajorMatrix<F>>, AllocError> {
        self.declaration.columns.copied_trace(alloc)
    }

    fn num_public_values(&self) -> usize {
        self.declaration.columns.num_public_values
    }

    fn periodic_columns(&self) -> &[Vec<F>] {
        &self.declaration.columns.periodic_columns
    }

    fn main_next_row_columns(&self, alloc: Global) -> Result<Vec<usize>, AllocError> {
        self.list
            .nodes
            .iter()
            .filter_map(|node| main_next_column(*node))
            .collect(alloc)
    }

    fn preprocessed_next_row_columns(&self, alloc: Global) -> Result<Vec<usize>, AllocError> {
        self.list
            .nodes
            .iter()
            .filter_map(|node| preprocessed_next_column(*node))
            .collect(alloc)
    }

    fn max_constraint_degree(&self) -> Option<usize> {
        self.declaration.max_constraint_degree
    }

    fn num_constraints(&self) -> Option<usize> {
        self.declaration.num_constraints
    }

    fn public_boundary_io(&self) -> &[usize] {
        &[]
    }
}

impl<F: Field> Air<F> for TreeAir<F> {
    ghost constraints = { λ air. spelled air.list.constants.items air.list.nodes.items
        air.list.constraints.items };

    /// The values of the nodes are kept.
    ghost takes_memory = { λ _. ⊤ };

    ghost leaves_within = { λ air. tree_air_within air.declaration.columns air.list.constants.items
        air.list.nodes.items air.list.constraints.items air.without_fault };

    fn eval<AB: ExtensionBuilder<F = F>>(&self, builder: &mut AB) -> Result<(), AllocError> {
        let nodes = self.list.nodes.as_slice();
        let constraints = self.list.constraints.as_slice();
        let needed = needed(self.alloc, nodes, constraints)?;
        let values = node_values(self.alloc, &self.list.constants, nodes, &needed, &*builder)?;
        for constraint in constraints {
            let x = operand(&values, constraint_place(*constraint));
            assert_constraint(*constraint, x, &mut *builder)?;
        }
        Ok(())
    }
}
