//! What is wrong with a JSON value that spells no node, or no constraint.
ghost use Rattle.std.specs.Prelude.{◌≡◌, IfOk};
ghost use Rattle.serde_json.specs.View.{view};
ghost use Rattle.stark_tree_air.specs.NodeJson.{operands_of};
ghost use Rattle.stark_tree_air.specs.NodeRefusal.{constraint_refusal, marks_refusal, name_refusal, node_refusal, refused_constraint, refused_node};

use crate::node_json::{pair_named, selector_named, single_named};
use serde_json::Value;
use stark_json::{QuotedName, first_unknown};
use std::alloc::{AllocError, Global};
use thiserror::Error;

/// Why a JSON value spells no node.
#[derive(Debug, Drop, Error)]
pub enum NodeFault {
    /// It is no array that begins with a string.
    #[error("it is no array that begins with a name")]
    NoName,
    /// No node has the name.
    #[error("there is no node {name}")]
    UnknownName {
        name: QuotedName,
    },
    /// Nodes of the name have another number of operands.
    #[error("{name} takes {}, and has {got}", operands(*.expected))]
    OperandCount {
        name: QuotedName,
        expected: usize,
        got: usize,
    },
    /// There are as many operands as there have to be, and one of them is no whole number.
    #[error("an operand of {name} is no whole number")]
    Operand {
        name: QuotedName,
    },
}

/// A number of operands in words; no node has more than two.
fn operands(count: usize) -> &'static str {
    match count {
        0 => "no operand",
        1 => "one operand",
        _ => "two operands",
    }
}

/// Why a JSON value spells no constraint.
#[derive(Debug, Drop, Error)]
pub enum ConstraintFault {
    /// It is no object.
    #[error("is no object")]
    NotAnObject,
    /// It has a member of another name.
    #[error("has a member {name}, which is neither base nor ext")]
    UnknownMember { name: QuotedName },
    /// It has no member.
    #[error("is neither base nor ext")]
    NoMark,
    /// It has both members.
    #[error("is both base and ext")]
    BothMarks,
    /// Its one member is no whole number.
    #[error("names its node by no whole number")]
    Place,
}

/// How many operands the nodes of a name have.
fn operands_of(name: &str) -> Option<usize>
    ensures { result ≡ operands_of name.now }
{
    if selector_named(name).is_some() {
        Some(0)
    } else if single_named(name, 0).is_some() {
        Some(1)
    } else if pair_named(name, 0, 0).is_some() {
        Some(2)
    } else {
        None
    }
}

/// What is wrong with a node of a name that has this many operands.
fn name_refusal(alloc: Global, name: &str, got: usize) -> Result<NodeFault, AllocError>
    ensures { IfOk result (λ fault. refused_node fault
        ≡ name_refusal name.now got (operands_of name.now)) }
{
    let quoted = QuotedName::new(alloc, name)?;
    match operands_of(name) {
        None => Ok(NodeFault::UnknownName { name: quoted }),
        Some(expected) if got == expected => Ok(NodeFault::Operand { name: quoted }),
        Some(expected) => Ok(NodeFault::OperandCount {
            name: quoted,
            expected,
            got,
        }),
    }
}

/// What is wrong with a value that spells no node.
#[tactic(auto, using(crate::proofs::JsonSteps::items_length_view))]
pub(crate) fn node_refusal(alloc: Global, value: &Value) -> Result<NodeFault, AllocError>
    ensures { IfOk result (λ fault. refused_node fault ≡ node_refusal (view value.now)) }
{
    let Some(items) = value.as_array() else {
        return Ok(NodeFault::NoName);
    };
    let Some((tag, operands)) = items.split_first() else {
        return Ok(NodeFault::NoName);
    };
    match tag.as_str() {
        Some(name) => name_refusal(alloc, name, operands.len()),
        None => Ok(NodeFault::NoName),
    }
}

/// What is wrong with the marks of an object that spells no constraint.
fn marks_refusal(value: &Value) -> ConstraintFault
    ensures { refused_constraint result ≡ marks_refusal (view value.now) }
{
    match (value.get("base"), value.get("ext")) {
        (None, None) => ConstraintFault::NoMark,
        (Some(_), Some(_)) => ConstraintFault::BothMarks,
        _ => ConstraintFault::Place,
    }
}

/// What is wrong with a value that spells no constraint.
pub(crate) fn constraint_refusal(
    alloc: Global,
    value: &Value,
) -> Result<ConstraintFault, AllocError>
    ensures { IfOk result (λ fault. refused_constraint fault
        ≡ constraint_refusal (view value.now)) }
{
    let Some(members) = value.as_object() else {
        return Ok(ConstraintFault::NotAnObject);
    };
    match first_unknown(members, &["base", "ext"]) {
        Some(name) => Ok(ConstraintFault::UnknownMember {
            name: QuotedName::new(alloc, name)?,
        }),
        None => Ok(marks_refusal(value)),
    }
}
