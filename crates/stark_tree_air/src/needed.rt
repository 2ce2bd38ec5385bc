//! Which nodes constraints need.
ghost use Rattle.std.specs.Prelude.{◌≡◌, IfOk, length};
ghost use Rattle.stark_tree_air.specs.Needed.{NodesBelow, OperandsBelow, constraint_place, mark_constraints, mark_nodes, mark_operands, needed};
ghost use Rattle.stark_tree_air.specs.Nodes.{ConstraintsFit};

use crate::node::{TreeConstraint, TreeNode};
use std::alloc::{AllocError, Global};

/// Marks the operands of a node.
fn mark_operands(marks: &mut [bool], node: TreeNode)
    requires { OperandsBelow (length marks.old) node }
    ensures { marks.new ≡ mark_operands marks.old node }
{
    match node {
        TreeNode::Sum(left, right)
        | TreeNode::Difference(left, right)
        | TreeNode::Product(left, right) => {
            marks[left] = true;
            marks[right] = true;
        }
        TreeNode::Negation(inner) => marks[inner] = true,
        _ => {}
    }
}

pub(crate) fn constraint_place(constraint: TreeConstraint) -> usize
    ensures { result ≡ constraint_place constraint }
{
    let (TreeConstraint::Base(place) | TreeConstraint::Extension(place)) = constraint;
    place
}

/// Marks the constraints' nodes.
fn mark_constraints(marks: &mut [bool], constraints: &[TreeConstraint])
    requires { ConstraintsFit (length marks.old) constraints.now }
    ensures { marks.new ≡ mark_constraints marks.old constraints.now }
{
    for constraint in constraints {
        marks[constraint_place(*constraint)] = true;
    }
}

/// Marks the operands of each node that has a mark. Operands stand before their node, so one way
/// back is enough.
fn mark_nodes(marks: &mut [bool], nodes: &[TreeNode])
    requires below { NodesBelow 0 nodes.now }
    requires as_many { length marks.old ≡ length nodes.now }
    ensures { marks.new ≡ mark_nodes marks.old 0 nodes.now }
{
    for place in (0..nodes.len()).rev() {
        if marks[place] {
            mark_operands(marks, nodes[place]);
        }
    }
}

/// A mark for each node that the constraints need, themselves or as an operand.
pub(crate) fn needed(
    alloc: Global,
    nodes: &[TreeNode],
    constraints: &[TreeConstraint],
) -> Result<Vec<bool>, AllocError>
    requires below { NodesBelow 0 nodes.now }
    requires fit { ConstraintsFit (length nodes.now) constraints.now }
    ensures { IfOk result (λ marks. marks.items ≡ needed nodes.now constraints.now) }
{
    let mut marks = vec![in alloc; false; nodes.len()]?;
    mark_constraints(&mut marks, constraints);
    mark_nodes(&mut marks, nodes);
    Ok(marks)
}
