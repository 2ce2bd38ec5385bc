//! Symbolic expressions as nodes of a list.
ghost use Rattle.std.specs.Prelude.{◌≡◌, IfOk, IfSome};
ghost use Rattle.stark_air.specs.SymbolicLayout.{symbolic_layout};
ghost use Rattle.stark_symbolic.specs.SymbolicView.{tree_of, variable_tree};
ghost use Rattle.stark_tree_air.specs.Writing.{OneMore, Writes, constraint_within, expression_within, tree_within, variable_leaf};

use crate::list::TreeList;
use crate::node::TreeNode;
use stark_air::AirLayout;
use stark_support::Field;
use stark_symbolic::{
    BaseEntry, SymbolicConstraint, SymbolicExpression, SymbolicNode, SymbolicVariable,
};
use std::alloc::AllocError;

/// The leaf that a variable is.
fn variable_node<F>(variable: &SymbolicVariable<F>) -> TreeNode
    ensures { result ≡ variable_leaf variable.now.entry variable.now.index }
{
    let index = variable.index;
    match variable.entry {
        BaseEntry::Main { offset: 0 } => TreeNode::MainCurrent(index),
        BaseEntry::Main { .. } => TreeNode::MainNext(index),
        BaseEntry::Preprocessed { offset: 0 } => TreeNode::PreprocessedCurrent(index),
        BaseEntry::Preprocessed { .. } => TreeNode::PreprocessedNext(index),
        BaseEntry::Public => TreeNode::PublicValue(index),
        BaseEntry::Periodic => TreeNode::PeriodicValue(index),
    }
}

/// Writes a tree behind the nodes of the list, a node for each of its own, and answers its place.
/// Err only where memory was refused, also for a node of the tree.
fn write_node<F: Field>(list: &mut TreeList<F>, node: &SymbolicNode<F>) -> Result<usize, AllocError>
    ensures written { IfOk result (λ place. Writes (tree_of node.now) list.old place list.new) }
    ensures constraints { list.new.constraints.items ≡ list.old.constraints.items }
{
    match node {
        SymbolicNode::Constant(k) => list.constant(*k),
        SymbolicNode::Variable(v) => list.node(variable_node(v)),
        SymbolicNode::IsFirstRow(_) => list.node(TreeNode::FirstRow),
        SymbolicNode::IsLastRow(_) => list.node(TreeNode::LastRow),
        SymbolicNode::IsTransition(_) => list.node(TreeNode::Transition),
        SymbolicNode::Sum(left, right) => {
            let left = write_node(&mut *list, left)?;
            let right = write_node(&mut *list, right)?;
            list.node(TreeNode::Sum(left, right))
        }
        SymbolicNode::Difference(left, right) => {
            let left = write_node(&mut *list, left)?;
            let right = write_node(&mut *list, right)?;
            list.node(TreeNode::Difference(left, right))
        }
        SymbolicNode::Product(left, right) => {
            let left = write_node(&mut *list, left)?;
            let right = write_node(&mut *list, right)?;
            list.node(TreeNode::Product(left, right))
        }
        SymbolicNode::Negation(inner) => {
            let inner = write_node(&mut *list, inner)?;
            list.node(TreeNode::Negation(inner))
        }
        SymbolicNode::Refused => Err(AllocError),
    }
}

/// Writes one constraint behind the list. Err only where memory was refused, also for a node of its
/// expression.
pub(crate) fn write_constraint<F: Field>(
    list: &mut TreeList<F>,
    constraint: &SymbolicConstraint<F>,
) -> Result<(), AllocError>
    ensures { IfOk result (λ _. OneMore constraint.now list.old list.new) }
{
    match constraint {
        SymbolicConstraint::Base(x) => {
            let place = write_node(&mut *list, &x.node)?;
            list.base(place)
        }
        SymbolicConstraint::Extension(x) => {
            let place = write_node(&mut *list, &x.node)?;
            list.extension(place)
        }
    }
}

/// Whether the layout has the column or value that a variable is.
fn variable_within<F>(variable: &SymbolicVariable<F>, layout: AirLayout) -> bool
    ensures { result ≡ tree_within (symbolic_layout layout)
        (variable_tree {F = F} variable.now.entry variable.now.index) }
{
    let count = match variable.entry {
        BaseEntry::Main { .. } => layout.main_width,
        BaseEntry::Preprocessed { .. } => layout.preprocessed_width,
        BaseEntry::Public => layout.num_public_values,
        BaseEntry::Periodic => layout.num_periodic_columns,
    };
    variable.index < count
}

/// Whether the layout has every leaf of a whole tree.
fn node_within<F: Field>(node: &SymbolicNode<F>, layout: AirLayout) -> bool
    ensures { IfSome (tree_of node.now) (λ t. result ≡ tree_within (symbolic_layout layout) t) }
{
    match node {
        SymbolicNode::Variable(v) => variable_within(v, layout),
        SymbolicNode::Sum(left, right) => node_within(left, layout) && node_within(right, layout),
        SymbolicNode::Difference(left, right) => {
            node_within(left, layout) && node_within(right, layout)
        }
        SymbolicNode::Product(left, right) => {
            node_within(left, layout) && node_within(right, layout)
        }
        SymbolicNode::Negation(inner) => node_within(inner, layout),
        _ => true,
    }
}

fn expression_within<F: Field>(expression: &SymbolicExpression<F>, layout: AirLayout) -> bool
    ensures { result ≡ expression_within (symbolic_layout layout) expression.now }
{
    expression.is_refused() || node_within(&expression.node, layout)
}

/// Whether the layout has every leaf of a constraint's expression; one that was refused memory has
/// none.
pub(crate) fn constraint_within<F: Field>(
    constraint: &SymbolicConstraint<F>,
    layout: AirLayout,
) -> bool
    ensures { result ≡ constraint_within (symbolic_layout layout) constraint.now }
{
    match constraint {
        SymbolicConstraint::Base(x) => expression_within(x, layout),
        SymbolicConstraint::Extension(x) => expression_within(x, layout),
    }
}
