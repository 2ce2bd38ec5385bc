//! The fields of an AIR in JSON.
ghost use Rattle.std.specs.Prelude.{◌≡◌, ◌%◌, IfOk, MatchResult, OnOk, codes, length, map, ok_or, option_map, string_bytes};
ghost use Rattle.serde_json.specs.Find.{get};
ghost use Rattle.serde_json.specs.View.{items_view, members_view, view};
ghost use Rattle.stark_support.specs.JsonFacts.{list_written};
ghost use Rattle.stark_json.specs.Apart.{lists_of, rows_data};
ghost use Rattle.stark_json.specs.Elements.{refused_list};
ghost use Rattle.stark_tree_air.specs.NodeRefusal.{constraint_refusal, node_refusal, refused_constraint, refused_node};
ghost use Rattle.stark_tree_air.specs.TreeJson.{Decodes, air_object, array_of, column_fault, columns_at, constants_at, constraints_at, item_at, joined_rows, missing_field, nodes_at, number_at, optional, required, required_rows, row_fault, rows_at, trace_object, trace_width_at, tree_fault, with_number};
ghost use Rattle.stark_tree_air.specs.declared.json_error.TreeJsonError.TheVariants.{OutOfMemory};

use crate::json_error::TreeJsonError;
use crate::node::{TreeConstraint, TreeNode};
use crate::node_fault::{ConstraintFault, NodeFault, constraint_refusal, node_refusal};
use crate::node_json::whole_number;
use serde_json::{Map, Value, put};
use stark_json::{
    ElementsFault, ListsFault, NumberRows, QuotedName, elements_from_json, first_unknown,
    lists_from_json, lists_of_numbers,
};
use stark_support::JsonCodec;
use std::alloc::{AllocError, Global};

/// The name of an unknown member, for a message.
fn quoted(alloc: Global, name: &str) -> Result<QuotedName, TreeJsonError>
    ensures { MatchResult result (λ quoted. string_bytes quoted.name ≡ name.now)
        (λ error. error ≡ OutOfMemory) }
{
    let name = QuotedName::new(alloc, name)?;
    Ok(name)
}

/// Refuses what isn't an object, or has a member that no AIR has.
pub(crate) fn check_air_members(alloc: Global, value: &Value) -> Result<(), TreeJsonError>
    ensures { Decodes (λ _. view value.now) result (air_object (view value.now)) }
{
    let Some(members) = value.as_object() else {
        return Err(TreeJsonError::NotAnObject);
    };
    let unknown = first_unknown(
        members,
        &[
            "width",
            "publics",
            "periodic",
            "preprocessed",
            "max_constraint_degree",
            "num_constraints",
            "constants",
            "nodes",
            "constraints",
        ],
    );
    match unknown {
        None => Ok(()),
        Some(name) => Err(TreeJsonError::UnknownMember {
            name: quoted(alloc, name)?,
        }),
    }
}

/// Refuses what isn't an object, or has a member that no preprocessed trace has.
pub(crate) fn check_trace_members(alloc: Global, value: &Value) -> Result<(), TreeJsonError>
    ensures { Decodes (λ _. view value.now) result (trace_object (view value.now)) }
{
    let Some(members) = value.as_object() else {
        return Err(TreeJsonError::WrongKind {
            field: "preprocessed",
        });
    };
    match first_unknown(members, &["width", "rows"]) {
        None => Ok(()),
        Some(name) => Err(TreeJsonError::UnknownTraceMember {
            name: quoted(alloc, name)?,
        }),
    }
}

/// What an object has under a name, or that the field is missing, by the name that a fault has.
pub(crate) fn required_as<'a>(
    value: &'a Value,
    name: &str,
    field: &'static str,
) -> Result<&'a Value, TreeJsonError>
    ensures { Decodes (λ v. view v.now) result
        (ok_or (get name.now (view value.now)) (missing_field field.now)) }
{
    match value.get(name) {
        Some(member) => Ok(member),
        None => Err(TreeJsonError::MissingField { field }),
    }
}

/// What an object has under a required name.
pub(crate) fn required<'a>(
    value: &'a Value,
    field: &'static str,
) -> Result<&'a Value, TreeJsonError>
    ensures { Decodes (λ v. view v.now) result
        (ok_or (get field.now (view value.now)) (missing_field field.now)) }
{
    required_as(value, field, field)
}

/// The whole number that a value is.
fn number_from_json(value: &Value, field: &'static str) -> Result<usize, TreeJsonError>
    ensures { Decodes (λ n. n) result (number_at field.now (view value.now)) }
{
    match whole_number(value) {
        Some(number) => Ok(number),
        None => Err(TreeJsonError::WrongKind { field }),
    }
}

/// The whole number under a required name.
pub(crate) fn required_number(value: &Value, field: &'static str) -> Result<usize, TreeJsonError>
    ensures { Decodes (λ n. n) result (required field.now (number_at field.now) (view value.now)) }
{
    let member = required(value, field)?;
    number_from_json(member, field)
}

/// The width of a preprocessed trace.
pub(crate) fn trace_width_at(value: &Value) -> Result<usize, TreeJsonError>
    ensures { Decodes (λ n. n) result (trace_width_at (view value.now)) }
{
    let member = required_as(value, "width", "preprocessed.width")?;
    number_from_json(member, "preprocessed.width")
}

/// The whole number under a name; None where it is missing or null.
pub(crate) fn optional_number(
    value: &Value,
    field: &'static str,
) -> Result<Option<usize>, TreeJsonError>
    ensures { Decodes (λ n. n) result (optional field.now (number_at field.now) (view value.now)) }
{
    let Some(member) = value.get(field) else {
        return Ok(None);
    };
    if member.is_null() {
        return Ok(None);
    }
    let number = number_from_json(member, field)?;
    Ok(Some(number))
}

/// The items of an array.
fn array_of<'a>(value: &'a Value, field: &'static str) -> Result<&'a Vec<Value>, TreeJsonError>
    ensures { Decodes (λ v. items_view v.now.items) result (array_of field.now (view value.now)) }
{
    match value.as_array() {
        Some(values) => Ok(values),
        None => Err(TreeJsonError::WrongKind { field }),
    }
}

/// The constants of an array.
fn constants_at<F: JsonCodec + Drop>(alloc: Global, value: &Value) -> Result<Vec<F>, TreeJsonError>
    ensures { Decodes (λ v. v.items) result (constants_at F.reading (view value.now)) }
{
    let values = array_of(value, "constants")?;
    match elements_from_json(alloc, values) {
        Ok(constants) => Ok(constants),
        Err(ElementsFault::Element { index }) => Err(TreeJsonError::Constant { constant: index }),
        Err(ElementsFault::OutOfMemory) => Err(TreeJsonError::OutOfMemory),
    }
}

/// The constants, which are required.
pub(crate) fn required_constants<F: JsonCodec + Drop>(
    alloc: Global,
    value: &Value,
) -> Result<Vec<F>, TreeJsonError>
    ensures { Decodes (λ v. v.items) result
        (required (codes "constants") (constants_at F.reading) (view value.now)) }
{
    let member = required(value, "constants")?;
    constants_at(alloc, member)
}

/// The fault of the node at this place of an array.
fn refused_node(alloc: Global, value: &Value, node: usize) -> Result<NodeFault, AllocError>
    ensures { IfOk result (λ fault. refused_node fault
        ≡ node_refusal (item_at node (view value.now))) }
{
    match value.get(node) {
        Some(element) => node_refusal(alloc, element),
        None => node_refusal(alloc, &Value::Null),
    }
}

/// The nodes of an array.
fn nodes_at(alloc: Global, value: &Value) -> Result<Vec<TreeNode>, TreeJsonError>
    ensures { Decodes (λ v. v.items) result (nodes_at (view value.now)) }
{
    let values = array_of(value, "nodes")?;
    match elements_from_json(alloc, values) {
        Ok(nodes) => Ok(nodes),
        Err(ElementsFault::Element { index }) => Err(TreeJsonError::Node {
            node: index,
            fault: refused_node(alloc, value, index)?,
        }),
        Err(ElementsFault::OutOfMemory) => Err(TreeJsonError::OutOfMemory),
    }
}

/// The nodes, which are required.
pub(crate) fn required_nodes(alloc: Global, value: &Value) -> Result<Vec<TreeNode>, TreeJsonError>
    ensures { Decodes (λ v. v.items) result
        (required (codes "nodes") nodes_at (view value.now)) }
{
    let member = required(value, "nodes")?;
    nodes_at(alloc, member)
}

/// The fault of the constraint at this place of an array.
fn refused_constraint(
    alloc: Global,
    value: &Value,
    constraint: usize,
) -> Result<ConstraintFault, AllocError>
    ensures { IfOk result (λ fault. refused_constraint fault
        ≡ constraint_refusal (item_at constraint (view value.now))) }
{
    match value.get(constraint) {
        Some(element) => constraint_refusal(alloc, element),
        None => constraint_refusal(alloc, &Value::Null),
    }
}

/// The constraints of an array.
fn constraints_at(alloc: Global, value: &Value) -> Result<Vec<TreeConstraint>, TreeJsonError>
    ensures { Decodes (λ v. v.items) result (constraints_at (view value.now)) }
{
    let values = array_of(value, "constraints")?;
    match elements_from_json(alloc, values) {
        Ok(constraints) => Ok(constraints),
        Err(ElementsFault::Element { index }) => Err(TreeJsonError::Constraint {
            constraint: index,
            fault: refused_constraint(alloc, value, index)?,
        }),
        Err(ElementsFault::OutOfMemory) => Err(TreeJsonError::OutOfMemory),
    }
}

/// The constraints, which are required.
pub(crate) fn required_constraints(
    alloc: Global,
    value: &Value,
) -> Result<Vec<TreeConstraint>, TreeJsonError>
    ensures { Decodes (λ v. v.items) result
        (required (codes "constraints") constraints_at (view value.now)) }
{
    let member = required(value, "constraints")?;
    constraints_at(alloc, member)
}

/// What is said of periodic columns with a fault.
fn column_fault(fault: ListsFault) -> TreeJsonError
    ensures { tree_fault result ≡ option_map column_fault (refused_list fault) }
{
    match fault {
        ListsFault::List { index } => TreeJsonError::PeriodicColumn { column: index },
        ListsFault::Element { list, index } => TreeJsonError::PeriodicValue {
            column: list,
            row: index,
        },
        ListsFault::OutOfMemory => TreeJsonError::OutOfMemory,
    }
}

/// The periodic columns of an array.
fn columns_at<F: JsonCodec + Drop>(
    alloc: Global,
    value: &Value,
) -> Result<Vec<Vec<F>>, TreeJsonError>
    ensures { Decodes (λ v. map (λ list. list.items) v.items) result
        (columns_at F.reading (view value.now)) }
{
    let values = array_of(value, "periodic")?;
    match lists_from_json(alloc, values) {
        Ok(columns) => Ok(columns),
        Err(fault) => Err(column_fault(fault)),
    }
}

/// The periodic columns, which are required.
pub(crate) fn required_columns<F: JsonCodec + Drop>(
    alloc: Global,
    value: &Value,
) -> Result<Vec<Vec<F>>, TreeJsonError>
    ensures { Decodes (λ v. map (λ list. list.items) v.items) result
        (required (codes "periodic") (columns_at F.reading) (view value.now)) }
{
    let member = required(value, "periodic")?;
    columns_at(alloc, member)
}

/// What is said of preprocessed rows with a fault.
fn row_fault(fault: ListsFault) -> TreeJsonError
    ensures { tree_fault result ≡ option_map row_fault (refused_list fault) }
{
    match fault {
        ListsFault::List { index } => TreeJsonError::PreprocessedRow { row: index },
        ListsFault::Element { list, index } => TreeJsonError::PreprocessedValue {
            row: list,
            column: index,
        },
        ListsFault::OutOfMemory => TreeJsonError::OutOfMemory,
    }
}

/// The preprocessed rows of an array.
fn rows_at<F: JsonCodec + Drop>(alloc: Global, value: &Value) -> Result<Vec<Vec<F>>, TreeJsonError>
    ensures { Decodes (λ v. map (λ list. list.items) v.items) result
        (rows_at F.reading (view value.now)) }
{
    let values = array_of(value, "preprocessed.rows")?;
    match lists_from_json(alloc, values) {
        Ok(rows) => Ok(rows),
        Err(fault) => Err(row_fault(fault)),
    }
}

/// The rows of a preprocessed trace.
pub(crate) fn required_rows<F: JsonCodec + Drop>(
    alloc: Global,
    value: &Value,
) -> Result<Vec<Vec<F>>, TreeJsonError>
    ensures { Decodes (λ v. map (λ list. list.items) v.items) result
        (required_rows F.reading (view value.now)) }
{
    let member = required_as(value, "rows", "preprocessed.rows")?;
    rows_at(alloc, member)
}

/// The preprocessed rows that were given in place of an array of arrays.
pub(crate) fn given_rows<F: JsonCodec + Drop>(
    alloc: Global,
    rows: &NumberRows,
) -> Result<Vec<Vec<F>>, TreeJsonError>
    ensures { Decodes (λ v. map (λ list. list.items) v.items) result
        (rows_at F.reading (rows_data (lists_of rows.now))) }
{
    match lists_of_numbers(alloc, rows) {
        Ok(lists) => Ok(lists),
        Err(fault) => Err(row_fault(fault)),
    }
}

/// Rows of this width, one after the other.
pub(crate) fn joined_rows<F: Copy>(
    alloc: Global,
    width: usize,
    rows: &[Vec<F>],
) -> Result<Vec<F>, TreeJsonError>
    ensures joined { Decodes (λ v. v.items) result
        (joined_rows width 0 (map (λ row. row.items) rows.now)) }
    ensures full_rows { IfOk result (λ v. length v.items % width ≡ 0) }
{
    let mut values = Vec::new(alloc);
    for (place, row) in rows.iter().enumerate() {
        let got = row.len();
        if got != width {
            return Err(TreeJsonError::RowWidth {
                row: place,
                expected: width,
                got,
            });
        }
        values.extend_from_slice(row)?;
    }
    Ok(values)
}

/// The array of what spells the elements.
pub(crate) fn list_to_json<T: JsonCodec>(alloc: Global, list: &[T]) -> Result<Value, AllocError>
    ensures { IfOk result (λ value. view value ≡ list_written T.writing list.now) }
{
    let mut elements = Vec::new(alloc);
    for element in list {
        elements.push(element.to_json(alloc)?)?;
    }
    Ok(Value::Array(elements))
}

/// The array of the lists' arrays.
pub(crate) fn lists_to_json<T: JsonCodec>(
    alloc: Global,
    lists: &[Vec<T>],
) -> Result<Value, AllocError>
    ensures { IfOk result (λ value. view value
        ≡ list_written (list_written T.writing) (map (λ list. list.items) lists.now)) }
{
    let mut values = Vec::new(alloc);
    for list in lists {
        values.push(list_to_json(alloc, list)?)?;
    }
    Ok(Value::Array(values))
}

/// Puts a number under a name, where there is one.
pub(crate) fn put_number(
    map: &mut Map<String, Value>,
    alloc: Global,
    name: &str,
    number: Option<usize>,
) -> Result<(), AllocError>
    ensures { OnOk result (members_view map.new.entries
        ≡ with_number name.now number (members_view map.old.entries)) }
{
    match number {
        Some(number) => put(map, alloc, name, Value::from(number)),
        None => Ok(()),
    }
}
