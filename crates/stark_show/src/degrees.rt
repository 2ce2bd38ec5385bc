//! The degrees of nodes.
ghost use Rattle.std.specs.Prelude.{◌≡◌, ◌<◌, length, [], IfOk};
ghost use Rattle.stark_show.specs.NodeDegrees.{degree_at, degrees_after, node_degree};
ghost use Rattle.stark_tree_air.specs.Needed.{NodesBelow, OperandsBelow};

use stark_tree_air::TreeNode;
use std::alloc::{AllocError, Global};

/// The degree of a node by the degrees of the nodes before it, in multiples of the trace's length,
/// with 0 for the transition selector.
fn node_degree(degrees: &[usize], node: TreeNode) -> usize
    requires { OperandsBelow (length degrees.now) node }
    ensures { result ≡ node_degree degrees.now node }
{
    match node {
        TreeNode::Constant(_) | TreeNode::PublicValue(_) | TreeNode::Transition => 0,
        TreeNode::Sum(i, j) | TreeNode::Difference(i, j) => degrees[i].max(degrees[j]),
        TreeNode::Product(i, j) => degrees[i].saturating_add(degrees[j]),
        TreeNode::Negation(i) => degrees[i],
        _ => 1,
    }
}

/// The degrees of the nodes, each at its node's place.
pub(crate) fn node_degrees(alloc: Global, nodes: &[TreeNode]) -> Result<Vec<usize>, AllocError>
    requires { NodesBelow 0 nodes.now }
    ensures { IfOk result (λ degrees. degrees.items ≡ degrees_after [] nodes.now) }
{
    let mut degrees = Vec::new(alloc);
    for node in nodes {
        let degree = node_degree(&degrees, *node);
        degrees.push(degree)?;
    }
    Ok(degrees)
}
