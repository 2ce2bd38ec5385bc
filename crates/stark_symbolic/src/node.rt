//! Nodes of symbolic expressions, put together and read.
ghost use Rattle.std.specs.Prelude.{◌≡◌, IfSome, IsNone, IsSome, IsTrue, ◌↔◌, true};
ghost use Rattle.stark_support.specs.Ring.{difference as ring_difference};
ghost use Rattle.stark_air.specs.Tree.{sum, difference, product, negation};
ghost use Rattle.stark_symbolic.specs.Degree.{degree};
ghost use Rattle.stark_symbolic.specs.ConstantFolding.{both_constants};
ghost use Rattle.stark_symbolic.specs.Symbolic.{known_constant, is_leaf, GivesPair, GivesSingle, Stands};
ghost use Rattle.stark_symbolic.specs.SymbolicView.{tree_of};

use crate::expression::SymbolicNode;
use crate::variable::BaseEntry;
use stark_support::Field;
use std::alloc::Global;

/// The constant that a node is.
pub fn constant_of<F: Field>(node: &SymbolicNode<F>) -> Option<F>
    ensures { result ≡ known_constant (tree_of node.now) }
{
    match node {
        SymbolicNode::Constant(k) => Some(*k),
        _ => None,
    }
}

/// The constants that two nodes are, where both are.
pub fn constants_of<F: Field>(left: &SymbolicNode<F>, right: &SymbolicNode<F>) -> Option<(F, F)>
    ensures { result ≡ both_constants (known_constant (tree_of left.now))
        (known_constant (tree_of right.now)) }
{
    match constant_of(left) {
        Some(a) => match constant_of(right) {
            Some(b) => Some((a, b)),
            None => None,
        },
        None => None,
    }
}

/// The allocator that a node keeps; a constant keeps none.
fn allocator_of<F>(node: &SymbolicNode<F>) -> Option<Global> {
    match node {
        SymbolicNode::Constant(_) | SymbolicNode::Refused => None,
        SymbolicNode::Variable(v) => Some(v.alloc),
        SymbolicNode::IsFirstRow(alloc) => Some(*alloc),
        SymbolicNode::IsLastRow(alloc) => Some(*alloc),
        SymbolicNode::IsTransition(alloc) => Some(*alloc),
        SymbolicNode::Sum(left, _) => Some(*Box::allocator(left)),
        SymbolicNode::Difference(left, _) => Some(*Box::allocator(left)),
        SymbolicNode::Product(left, _) => Some(*Box::allocator(left)),
        SymbolicNode::Negation(inner) => Some(*Box::allocator(inner)),
    }
}

/// Whether memory for the node itself was refused.
pub fn is_refused<F>(node: &SymbolicNode<F>) -> bool
    ensures { IsTrue result → IsNone (tree_of node.now) }
{
    matches!(node, SymbolicNode::Refused)
}

/// Two nodes in boxes; None where memory was refused.
fn boxed_in<F: Field>(
    alloc: Global,
    left: SymbolicNode<F>,
    right: SymbolicNode<F>,
) -> Option<(Box<SymbolicNode<F>>, Box<SymbolicNode<F>>)>
    ensures { IfSome result (λ p. (p.0.value ≡ left) × (p.1.value ≡ right)) }
{
    match Box::new(alloc, left) {
        Ok(l) => match Box::new(alloc, right) {
            Ok(r) => Some((l, r)),
            Err(_) => None,
        },
        Err(_) => None,
    }
}

/// Two nodes in boxes of the allocator that one of them keeps; None where memory was refused, also
/// for one of the two, or none keeps one.
fn boxed_pair<F: Field>(
    left: SymbolicNode<F>,
    right: SymbolicNode<F>,
) -> Option<(Box<SymbolicNode<F>>, Box<SymbolicNode<F>>)>
    ensures { IfSome result (λ p. (p.0.value ≡ left) × (p.1.value ≡ right)) }
{
    if is_refused(&left) || is_refused(&right) {
        return None;
    }
    match allocator_of(&left) {
        Some(alloc) => boxed_in(alloc, left, right),
        None => match allocator_of(&right) {
            Some(alloc) => boxed_in(alloc, left, right),
            None => None,
        },
    }
}

/// The sum of two nodes.
pub fn sum_of<F: Field>(left: SymbolicNode<F>, right: SymbolicNode<F>) -> SymbolicNode<F>
    ensures { GivesPair sum F.ring.add (tree_of left) (tree_of right) (tree_of result) }
{
    match constants_of(&left, &right) {
        Some((a, b)) => SymbolicNode::Constant(a + b),
        None => match boxed_pair(left, right) {
            Some((l, r)) => SymbolicNode::Sum(l, r),
            None => SymbolicNode::Refused,
        },
    }
}

/// The difference of two nodes.
pub fn difference_of<F: Field>(left: SymbolicNode<F>, right: SymbolicNode<F>) -> SymbolicNode<F>
    ensures { GivesPair difference (ring_difference F.ring) (tree_of left) (tree_of right)
        (tree_of result) }
{
    match constants_of(&left, &right) {
        Some((a, b)) => SymbolicNode::Constant(a - b),
        None => match boxed_pair(left, right) {
            Some((l, r)) => SymbolicNode::Difference(l, r),
            None => SymbolicNode::Refused,
        },
    }
}

/// The product of two nodes.
pub fn product_of<F: Field>(left: SymbolicNode<F>, right: SymbolicNode<F>) -> SymbolicNode<F>
    ensures { GivesPair product F.ring.mul (tree_of left) (tree_of right) (tree_of result) }
{
    match constants_of(&left, &right) {
        Some((a, b)) => SymbolicNode::Constant(a * b),
        None => match boxed_pair(left, right) {
            Some((l, r)) => SymbolicNode::Product(l, r),
            None => SymbolicNode::Refused,
        },
    }
}

/// The negation of a node.
pub fn negation_of<F: Field>(inner: SymbolicNode<F>) -> SymbolicNode<F>
    ensures { GivesSingle negation F.ring.neg (tree_of inner) (tree_of result) }
{
    match constant_of(&inner) {
        Some(k) => SymbolicNode::Constant(-k),
        None => match allocator_of(&inner) {
            Some(alloc) => match Box::new(alloc, inner) {
                Ok(x) => SymbolicNode::Negation(x),
                Err(_) => SymbolicNode::Refused,
            },
            None => SymbolicNode::Refused,
        },
    }
}

/// A node in a box; None where memory was refused.
fn boxed<F: Field>(alloc: Global, node: SymbolicNode<F>) -> Option<Box<SymbolicNode<F>>>
    ensures { IfSome result (λ x. x.value ≡ node) }
{
    Box::new(alloc, node).ok()
}

/// A second copy; None where memory for a node of the tree was refused, or for one of the copy. The
/// first such refusal ends the work. A leaf takes no memory.
fn copied<F: Field>(node: &SymbolicNode<F>) -> Option<SymbolicNode<F>>
    ensures copied { IfSome result (λ x. tree_of x ≡ tree_of node.now) }
    ensures leaf { is_leaf (tree_of node.now) ≡ true → IsSome result }
{
    Some(match node {
        SymbolicNode::Constant(k) => SymbolicNode::Constant(*k),
        SymbolicNode::Variable(v) => SymbolicNode::Variable(*v),
        SymbolicNode::IsFirstRow(alloc) => SymbolicNode::IsFirstRow(*alloc),
        SymbolicNode::IsLastRow(alloc) => SymbolicNode::IsLastRow(*alloc),
        SymbolicNode::IsTransition(alloc) => SymbolicNode::IsTransition(*alloc),
        SymbolicNode::Sum(left, right) => {
            let alloc = *Box::allocator(left);
            SymbolicNode::Sum(boxed(alloc, copied(left)?)?, boxed(alloc, copied(right)?)?)
        }
        SymbolicNode::Difference(left, right) => {
            let alloc = *Box::allocator(left);
            SymbolicNode::Difference(boxed(alloc, copied(left)?)?, boxed(alloc, copied(right)?)?)
        }
        SymbolicNode::Product(left, right) => {
            let alloc = *Box::allocator(left);
            SymbolicNode::Product(boxed(alloc, copied(left)?)?, boxed(alloc, copied(right)?)?)
        }
        SymbolicNode::Negation(inner) => {
            let alloc = *Box::allocator(inner);
            SymbolicNode::Negation(boxed(alloc, copied(inner)?)?)
        }
        SymbolicNode::Refused => return None,
    })
}

/// A second copy, refused where memory for it was. A leaf takes none.
pub fn copy_of<F: Field>(node: &SymbolicNode<F>) -> SymbolicNode<F>
    ensures copied { Stands (tree_of node.now) (tree_of result) }
    ensures leaf { is_leaf (tree_of node.now) ≡ true → tree_of result ≡ tree_of node.now }
{
    match copied(node) {
        Some(copy) => copy,
        None => SymbolicNode::Refused,
    }
}

/// Whether no memory was refused for a node of the tree.
pub fn is_whole<F: Field>(node: &SymbolicNode<F>) -> bool
    ensures { IsTrue result ↔ IsSome (tree_of node.now) }
{
    match node {
        SymbolicNode::Sum(left, right) => is_whole(left) && is_whole(right),
        SymbolicNode::Difference(left, right) => is_whole(left) && is_whole(right),
        SymbolicNode::Product(left, right) => is_whole(left) && is_whole(right),
        SymbolicNode::Negation(inner) => is_whole(inner),
        SymbolicNode::Refused => false,
        _ => true,
    }
}

/// The degree multiple of a whole tree.
pub fn degree_of<F: Field>(node: &SymbolicNode<F>, transition_degree: usize) -> usize
    ensures { IfSome (tree_of node.now) (λ t. result ≡ degree transition_degree t) }
{
    match node {
        SymbolicNode::Constant(_) | SymbolicNode::Refused => 0,
        SymbolicNode::Variable(v) => match v.entry {
            BaseEntry::Public => 0,
            _ => 1,
        },
        SymbolicNode::IsFirstRow(_) | SymbolicNode::IsLastRow(_) => 1,
        SymbolicNode::IsTransition(_) => transition_degree,
        SymbolicNode::Sum(left, right) => {
            degree_of(left, transition_degree).max(degree_of(right, transition_degree))
        }
        SymbolicNode::Difference(left, right) => {
            degree_of(left, transition_degree).max(degree_of(right, transition_degree))
        }
        SymbolicNode::Product(left, right) => {
            degree_of(left, transition_degree).saturating_add(degree_of(right, transition_degree))
        }
        SymbolicNode::Negation(inner) => degree_of(inner, transition_degree),
    }
}
