//! Nodes and constraints in JSON.
ghost use Rattle.std.specs.Prelude.{◌≡◌, IfOk};
ghost use Rattle.serde_json.specs.View.{view};
ghost use Rattle.stark_support.specs.Json.{whole_at};
ghost use Rattle.stark_tree_air.specs.NodeJson.{constraint_reading, constraint_writing, marked_json, node_reading, node_writing, pair_json, pair_named, selector_json, selector_named, single_json, single_named};
ghost use Rattle.stark_tree_air.specs.NodeJsonFacts.{constraint_back, node_back};

use crate::node::{TreeConstraint, TreeNode};
use serde_json::{Value, json};
use stark_json::first_unknown;
use stark_support::{JsonCodec, JsonFault};
use std::alloc::{AllocError, Global};

/// A whole number that fits.
pub(crate) fn whole_number(value: &Value) -> Option<usize>
    ensures { result ≡ whole_at (view value.now) }
{
    match value.as_u64() {
        Some(number) => Some(number as usize),
        None => None,
    }
}

/// The selector of a name.
#[tactic(auto, unfolding(crate::specs::NodeJson::selector_named))]
pub(crate) fn selector_named(name: &str) -> Option<TreeNode>
    ensures { result ≡ selector_named name.now }
{
    match name {
        "first" => Some(TreeNode::FirstRow),
        "last" => Some(TreeNode::LastRow),
        "transition" => Some(TreeNode::Transition),
        _ => None,
    }
}

/// The node of a name and its one operand.
#[tactic(auto, unfolding(crate::specs::NodeJson::single_named))]
pub(crate) fn single_named(name: &str, place: usize) -> Option<TreeNode>
    ensures { result ≡ single_named name.now place }
{
    match name {
        "constant" => Some(TreeNode::Constant(place)),
        "main" => Some(TreeNode::MainCurrent(place)),
        "next" => Some(TreeNode::MainNext(place)),
        "preprocessed" => Some(TreeNode::PreprocessedCurrent(place)),
        "preprocessed_next" => Some(TreeNode::PreprocessedNext(place)),
        "public" => Some(TreeNode::PublicValue(place)),
        "periodic" => Some(TreeNode::PeriodicValue(place)),
        "neg" => Some(TreeNode::Negation(place)),
        _ => None,
    }
}

/// The node of a name and its two operands.
#[tactic(auto, unfolding(crate::specs::NodeJson::pair_named))]
pub(crate) fn pair_named(name: &str, left: usize, right: usize) -> Option<TreeNode>
    ensures { result ≡ pair_named name.now left right }
{
    match name {
        "add" => Some(TreeNode::Sum(left, right)),
        "sub" => Some(TreeNode::Difference(left, right)),
        "mul" => Some(TreeNode::Product(left, right)),
        _ => None,
    }
}

/// The node that an array of its name and its operands spells.
fn node_from_json(value: &Value) -> Option<TreeNode>
    ensures { result ≡ node_reading (view value.now) }
{
    let items = value.as_array()?;
    match items.as_slice() {
        [tag] => selector_named(tag.as_str()?),
        [tag, place] => single_named(tag.as_str()?, whole_number(place)?),
        [tag, left, right] => pair_named(tag.as_str()?, whole_number(left)?, whole_number(right)?),
        _ => None,
    }
}

/// The constraint that an object of one mark and no other member spells.
fn constraint_from_json(value: &Value) -> Option<TreeConstraint>
    ensures { result ≡ constraint_reading (view value.now) }
{
    let members = value.as_object()?;
    if first_unknown(members, &["base", "ext"]).is_some() {
        return None;
    }
    match (value.get("base"), value.get("ext")) {
        (Some(place), None) => Some(TreeConstraint::Base(whole_number(place)?)),
        (None, Some(place)) => Some(TreeConstraint::Extension(whole_number(place)?)),
        _ => None,
    }
}

/// The array of a name alone.
fn selector_json(alloc: Global, name: &str) -> Result<Value, AllocError>
    ensures { IfOk result (λ value. view value ≡ selector_json name.now) }
{
    json!(in alloc; [name])
}

/// The array of a name and one place.
fn single_json(alloc: Global, name: &str, place: usize) -> Result<Value, AllocError>
    ensures { IfOk result (λ value. view value ≡ single_json name.now place) }
{
    json!(in alloc; [name, place])
}

/// The array of a name and two places.
fn pair_json(alloc: Global, name: &str, left: usize, right: usize) -> Result<Value, AllocError>
    ensures { IfOk result (λ value. view value ≡ pair_json name.now left right) }
{
    json!(in alloc; [name, left, right])
}

impl JsonCodec for TreeNode {
    ghost reading = { node_reading };

    ghost writing = { node_writing };

    /// An array of the name and the places.
    fn from_json(_alloc: Global, value: &Value) -> Result<TreeNode, JsonFault> {
        match node_from_json(value) {
            Some(node) => Ok(node),
            None => Err(JsonFault::Invalid),
        }
    }

    fn to_json(&self, alloc: Global) -> Result<Value, AllocError> {
        match *self {
            TreeNode::Constant(place) => single_json(alloc, "constant", place),
            TreeNode::MainCurrent(column) => single_json(alloc, "main", column),
            TreeNode::MainNext(column) => single_json(alloc, "next", column),
            TreeNode::PreprocessedCurrent(column) => single_json(alloc, "preprocessed", column),
            TreeNode::PreprocessedNext(column) => single_json(alloc, "preprocessed_next", column),
            TreeNode::PublicValue(place) => single_json(alloc, "public", place),
            TreeNode::PeriodicValue(column) => single_json(alloc, "periodic", column),
            TreeNode::FirstRow => selector_json(alloc, "first"),
            TreeNode::LastRow => selector_json(alloc, "last"),
            TreeNode::Transition => selector_json(alloc, "transition"),
            TreeNode::Sum(left, right) => pair_json(alloc, "add", left, right),
            TreeNode::Difference(left, right) => pair_json(alloc, "sub", left, right),
            TreeNode::Product(left, right) => pair_json(alloc, "mul", left, right),
            TreeNode::Negation(inner) => single_json(alloc, "neg", inner),
        }
    }

    ghost reads_back = { node_back };
}

/// The object of a constraint over the base field.
fn base_json(alloc: Global, place: usize) -> Result<Value, AllocError>
    ensures { IfOk result (λ value. view value ≡ constraint_writing (TreeConstraint.Base place)) }
{
    json!(in alloc; { "base": place })
}

/// The object of a constraint over the extension.
fn extension_json(alloc: Global, place: usize) -> Result<Value, AllocError>
    ensures { IfOk result (λ value. view value
        ≡ constraint_writing (TreeConstraint.Extension place)) }
{
    json!(in alloc; { "ext": place })
}

impl JsonCodec for TreeConstraint {
    ghost reading = { constraint_reading };

    ghost writing = { constraint_writing };

    /// An object of the mark, `base` or `ext`, and the node's place.
    fn from_json(_alloc: Global, value: &Value) -> Result<TreeConstraint, JsonFault> {
        match constraint_from_json(value) {
            Some(constraint) => Ok(constraint),
            None => Err(JsonFault::Invalid),
        }
    }

    fn to_json(&self, alloc: Global) -> Result<Value, AllocError> {
        match *self {
            TreeConstraint::Base(place) => base_json(alloc, place),
            TreeConstraint::Extension(place) => extension_json(alloc, place),
        }
    }

    ghost reads_back = { constraint_back };
}
