//! Sums, products and opposites of nodes, with zeros and ones folded.
ghost use Rattle.std.specs.Prelude.{◌≡◌, IfOk};
ghost use Rattle.stark_lookup_extension.specs.Written.{DecidesConstant, ShowsConstant, ShowsNode, constant_index, WritesOpposite, WritesProduct, WritesSum};

use stark_support::Field;
use stark_tree_air::{TreeList, TreeNode};
use std::alloc::AllocError;

/// The place of a node's constant; none of another node.
fn constant_index(node: TreeNode) -> Option<usize>
    ensures { result ≡ constant_index node }
{
    match node {
        TreeNode::Constant(index) => Some(index),
        _ => None,
    }
}

/// The constant that a node of the list is; none of another node.
fn constant_of<F: Copy>(list: &TreeList<F>, node: TreeNode) -> Option<F>
    ensures { ShowsNode list.now node result }
{
    match constant_index(node) {
        Some(index) => list.constants.get(index).copied(),
        None => None,
    }
}

/// The constant that the node at a place is; none of another node.
fn constant_at<F: Copy>(list: &TreeList<F>, place: usize) -> Option<F>
    ensures { ShowsConstant list.now place result }
{
    match list.nodes.get(place) {
        Some(node) => constant_of(list, *node),
        None => None,
    }
}

/// Whether the node at a place is this constant.
fn is_constant<F: Field>(list: &TreeList<F>, place: usize, constant: F) -> bool
    ensures { DecidesConstant list.now place constant result }
{
    match constant_at(list, place) {
        Some(known) => known == constant,
        None => false,
    }
}

/// The place of the sum of two nodes, which is one of them where the other is zero. It is Err only
/// where memory was refused.
pub(crate) fn sum<F: Field>(list: &mut TreeList<F>, x: usize, y: usize) -> Result<usize, AllocError>
    ensures { IfOk result (λ p. WritesSum F.ring list.old x y p list.new) }
{
    if is_constant(&*list, x, F::ZERO) {
        return Ok(y);
    }
    if is_constant(&*list, y, F::ZERO) {
        return Ok(x);
    }
    list.node(TreeNode::Sum(x, y))
}

/// The place of the product of two nodes, which is one of them where one is zero or one. It is Err
/// only where memory was refused.
pub(crate) fn product<F: Field>(
    list: &mut TreeList<F>,
    x: usize,
    y: usize,
) -> Result<usize, AllocError>
    ensures { IfOk result (λ p. WritesProduct F.ring list.old x y p list.new) }
{
    if is_constant(&*list, x, F::ZERO) {
        return Ok(x);
    }
    if is_constant(&*list, y, F::ZERO) {
        return Ok(y);
    }
    if is_constant(&*list, x, F::ONE) {
        return Ok(y);
    }
    if is_constant(&*list, y, F::ONE) {
        return Ok(x);
    }
    list.node(TreeNode::Product(x, y))
}

/// The place of the opposite of a node, which is the node where that is zero. It is Err only where
/// memory was refused.
pub(crate) fn opposite<F: Field>(list: &mut TreeList<F>, x: usize) -> Result<usize, AllocError>
    ensures { IfOk result (λ p. WritesOpposite F.ring list.old x p list.new) }
{
    if is_constant(&*list, x, F::ZERO) {
        return Ok(x);
    }
    list.node(TreeNode::Negation(x))
}
