//! The first fault of a list of constants, nodes and constraints.
ghost use Rattle.std.specs.Prelude.{◌≡◌, length, if◌then◌else◌};
ghost use Rattle.std.specs.Option.{option_or};
ghost use Rattle.stark_tree_air.specs.Faults.{constraint_fault, counted_layout, first_constraint_fault, first_node_fault, is_main_next, is_preprocessed_next, leaf_fault, main_next_column, node_fault, operand_fault, preprocessed_next_column, reads_main_next, reads_preprocessed_next, tree_air_fault, tree_layout};

use crate::columns::TreeColumns;
use crate::error::TreeAirError;
use crate::list::TreeList;
use crate::node::{TreeConstraint, TreeNode};

/// How much of each kind nodes may read.
#[derive(Clone, Copy)]
pub(crate) struct TreeCounts {
    pub constants: usize,
    pub main: usize,
    pub main_next: usize,
    pub preprocessed: usize,
    pub preprocessed_next: usize,
    pub public_values: usize,
    pub periodics: usize,
}

fn is_main_next(node: TreeNode) -> bool
    ensures { result ≡ is_main_next node }
{
    matches!(node, TreeNode::MainNext(_))
}

/// Whether a node is a main column in the next row.
pub(crate) fn reads_main_next(nodes: &[TreeNode]) -> bool
    ensures { result ≡ reads_main_next nodes.now }
{
    for node in nodes {
        if is_main_next(*node) {
            return true;
        }
    }
    false
}

fn is_preprocessed_next(node: TreeNode) -> bool
    ensures { result ≡ is_preprocessed_next node }
{
    matches!(node, TreeNode::PreprocessedNext(_))
}

/// Whether a node is a preprocessed column in the next row.
pub(crate) fn reads_preprocessed_next(nodes: &[TreeNode]) -> bool
    ensures { result ≡ reads_preprocessed_next nodes.now }
{
    for node in nodes {
        if is_preprocessed_next(*node) {
            return true;
        }
    }
    false
}

/// The column of a node that is a main column in the next row.
pub(crate) fn main_next_column(node: TreeNode) -> Option<usize>
    ensures { result ≡ main_next_column node }
{
    match node {
        TreeNode::MainNext(column) => Some(column),
        _ => None,
    }
}

/// The column of a node that is a preprocessed column in the next row.
pub(crate) fn preprocessed_next_column(node: TreeNode) -> Option<usize>
    ensures { result ≡ preprocessed_next_column node }
{
    match node {
        TreeNode::PreprocessedNext(column) => Some(column),
        _ => None,
    }
}

fn counts<F>(columns: &TreeColumns<F>, constants: usize, nodes: &[TreeNode]) -> TreeCounts
    ensures constants { result.constants ≡ constants }
    ensures layout { counted_layout result ≡ tree_layout columns.now nodes.now }
{
    let preprocessed = columns.preprocessed_width();
    TreeCounts {
        constants,
        main: columns.width,
        main_next: if reads_main_next(nodes) {
            columns.width
        } else {
            0
        },
        preprocessed,
        preprocessed_next: if reads_preprocessed_next(nodes) {
            preprocessed
        } else {
            0
        },
        public_values: columns.num_public_values,
        periodics: columns.periodic_columns.len(),
    }
}

fn leaf_fault(node: usize, index: usize, count: usize) -> Option<TreeAirError>
    ensures { result ≡ leaf_fault node index count }
{
    if index < count {
        None
    } else {
        Some(TreeAirError::LeafOutside { node })
    }
}

fn operand_fault(node: usize, operand: usize) -> Option<TreeAirError>
    ensures { result ≡ operand_fault node operand }
{
    if operand < node {
        None
    } else {
        Some(TreeAirError::LaterOperand { node })
    }
}

fn operands_fault(node: usize, left: usize, right: usize) -> Option<TreeAirError>
    ensures { result ≡ option_or (operand_fault node left) (operand_fault node right) }
{
    let fault = operand_fault(node, left);
    if fault.is_some() {
        return fault;
    }
    operand_fault(node, right)
}

fn node_fault(counts: TreeCounts, place: usize, node: TreeNode) -> Option<TreeAirError>
    ensures { result ≡ node_fault (counted_layout counts) counts.constants place node }
{
    match node {
        TreeNode::Constant(index) => leaf_fault(place, index, counts.constants),
        TreeNode::MainCurrent(column) => leaf_fault(place, column, counts.main),
        TreeNode::MainNext(column) => leaf_fault(place, column, counts.main_next),
        TreeNode::PreprocessedCurrent(column) => leaf_fault(place, column, counts.preprocessed),
        TreeNode::PreprocessedNext(column) => leaf_fault(place, column, counts.preprocessed_next),
        TreeNode::PublicValue(index) => leaf_fault(place, index, counts.public_values),
        TreeNode::PeriodicValue(column) => leaf_fault(place, column, counts.periodics),
        TreeNode::Sum(left, right) => operands_fault(place, left, right),
        TreeNode::Difference(left, right) => operands_fault(place, left, right),
        TreeNode::Product(left, right) => operands_fault(place, left, right),
        TreeNode::Negation(inner) => operand_fault(place, inner),
        TreeNode::FirstRow | TreeNode::LastRow | TreeNode::Transition => None,
    }
}

fn first_node_fault(counts: TreeCounts, nodes: &[TreeNode]) -> Option<TreeAirError>
    ensures { result ≡ first_node_fault (counted_layout counts) counts.constants 0 nodes.now }
{
    for (place, node) in nodes.iter().enumerate() {
        let fault = node_fault(counts, place, *node);
        if fault.is_some() {
            return fault;
        }
    }
    None
}

fn constraint_fault(count: usize, place: usize, constraint: TreeConstraint) -> Option<TreeAirError>
    ensures { result ≡ constraint_fault count place constraint }
{
    let (TreeConstraint::Base(node) | TreeConstraint::Extension(node)) = constraint;
    if node < count {
        None
    } else {
        Some(TreeAirError::NoSuchNode { constraint: place })
    }
}

fn first_constraint_fault(count: usize, constraints: &[TreeConstraint]) -> Option<TreeAirError>
    ensures { result ≡ first_constraint_fault count 0 constraints.now }
{
    for (place, constraint) in constraints.iter().enumerate() {
        let fault = constraint_fault(count, place, *constraint);
        if fault.is_some() {
            return fault;
        }
    }
    None
}

/// The fault of the first node that has one, or else of the first constraint that has one.
pub(crate) fn tree_air_fault<F>(
    columns: &TreeColumns<F>,
    list: &TreeList<F>,
) -> Option<TreeAirError>
    ensures { result ≡ tree_air_fault columns.now list.now.constants.items list.now.nodes.items
        list.now.constraints.items }
{
    let counts = counts(columns, list.constants.len(), &list.nodes);
    let fault = first_node_fault(counts, &list.nodes);
    if fault.is_some() {
        return fault;
    }
    first_constraint_fault(list.nodes.len(), &list.constraints)
}
