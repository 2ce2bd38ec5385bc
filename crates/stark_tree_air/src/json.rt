//! AIRs that are data, in JSON.
ghost use Rattle.std.specs.Prelude.{◌≡◌, IfOk, Ok, OnOk, map};
ghost use Rattle.serde_json.specs.View.{members_view, view};
ghost use Rattle.stark_support.specs.JsonFacts.{list_written};
ghost use Rattle.stark_json.specs.Apart.{joined, rows_apart};
ghost use Rattle.stark_tree_air.specs.TreeApart.{air_apart, columns_apart, lists_apart, trace_apart, trace_path};
ghost use Rattle.stark_tree_air.specs.TreeJson.{Decodes, air_reading, air_view, air_writing, columns_view, columns_writing, list_reading, list_view, list_writing, optional, trace_or_null, trace_rows, trace_writing};
ghost use Rattle.stark_tree_air.specs.Traces.{declared_trace, matrix_trace};

use crate::air::TreeAir;
use crate::columns::{TreeColumns, TreeDeclaration};
use crate::json_error::TreeJsonError;
use crate::json_fields::{
    check_air_members, check_trace_members, given_rows, joined_rows, list_to_json, lists_to_json,
    optional_number, put_number, required_as, required_columns, required_constants,
    required_constraints, required_nodes, required_number, required_rows, trace_width_at,
};
use crate::list::TreeList;
use serde_json::{Map, Value, put};
use stark_json::NumberRows;
use stark_support::{Field, JsonCodec, RowMajorMatrix};
use std::alloc::{AllocError, Global};

/// The lists under the name `rows`, which may be apart.
fn rows_from_json<F: JsonCodec + Copy>(
    alloc: Global,
    value: &Value,
    rows: &Option<NumberRows>,
) -> Result<Vec<Vec<F>>, TreeJsonError>
    ensures { Decodes (λ v. map (λ list. list.items) v.items) result
        (lists_apart F.reading (rows_apart rows.now) (view value.now)) }
{
    match rows {
        Some(rows) => match required_as(value, "rows", "preprocessed.rows") {
            Ok(_) => given_rows(alloc, rows),
            Err(fault) => Err(fault),
        },
        None => required_rows(alloc, value),
    }
}

/// The matrix of a width and rows, which may be apart.
#[tactic(auto, unfolding(crate::specs::TreeApart::trace_apart))]
fn trace_from_json<F: JsonCodec + Copy>(
    alloc: Global,
    value: &Value,
    rows: &Option<NumberRows>,
) -> Result<RowMajorMatrix<F>, TreeJsonError>
    ensures { Decodes matrix_trace result
        (trace_apart F.reading (rows_apart rows.now) (view value.now)) }
{
    check_trace_members(alloc, value)?;
    let width = trace_width_at(value)?;
    let rows = rows_from_json(alloc, value, rows)?;
    let values = joined_rows(alloc, width, &rows)?;
    Ok(RowMajorMatrix::new(values, width))
}

/// The preprocessed trace; None where it is missing or null.
fn optional_trace<F: JsonCodec + Copy>(
    alloc: Global,
    value: &Value,
    field: &'static str,
    rows: &Option<NumberRows>,
) -> Result<Option<RowMajorMatrix<F>>, TreeJsonError>
    ensures { Decodes declared_trace result
        (optional field.now (trace_apart F.reading (rows_apart rows.now)) (view value.now)) }
{
    let Some(member) = value.get(field) else {
        return Ok(None);
    };
    if member.is_null() {
        return Ok(None);
    }
    let trace = trace_from_json(alloc, member, rows)?;
    Ok(Some(trace))
}

/// The columns, the public values and the preprocessed trace of an object.
#[tactic(auto, unfolding(crate::specs::TreeApart::columns_apart))]
fn columns_from_json<F: JsonCodec + Copy>(
    alloc: Global,
    value: &Value,
    rows: &Option<NumberRows>,
) -> Result<TreeColumns<F>, TreeJsonError>
    ensures { Decodes columns_view result
        (columns_apart F.reading (rows_apart rows.now) (view value.now)) }
{
    let width = required_number(value, "width")?;
    let num_public_values = required_number(value, "publics")?;
    let periodic_columns = required_columns(alloc, value)?;
    let preprocessed_trace = optional_trace(alloc, value, "preprocessed", rows)?;
    Ok(TreeColumns {
        width,
        num_public_values,
        periodic_columns,
        preprocessed_trace,
    })
}

/// The constants, the nodes and the constraints of an object.
#[tactic(auto, unfolding(crate::specs::TreeJson::list_reading))]
fn tree_list_from_json<F: JsonCodec + Copy>(
    alloc: Global,
    value: &Value,
) -> Result<TreeList<F>, TreeJsonError>
    ensures { Decodes list_view result (list_reading F.reading (view value.now)) }
{
    let constants = required_constants(alloc, value)?;
    let nodes = required_nodes(alloc, value)?;
    let constraints = required_constraints(alloc, value)?;
    Ok(TreeList {
        constants,
        nodes,
        constraints,
    })
}

/// The array of the rows of a matrix.
fn rows_to_json<F: JsonCodec>(alloc: Global, trace: &RowMajorMatrix<F>) -> Result<Value, AllocError>
    ensures { IfOk result (λ value. view value
        ≡ list_written (list_written F.writing) (trace_rows F.writing (matrix_trace trace.now))) }
{
    let mut rows = Vec::new(alloc);
    for r in 0..trace.height() {
        rows.push(list_to_json(alloc, trace.row(r))?)?;
    }
    Ok(Value::Array(rows))
}

/// The object of the width and the rows of a matrix.
#[tactic(auto, unfolding(crate::specs::TreeJson::trace_writing))]
fn trace_to_json<F: JsonCodec>(
    alloc: Global,
    trace: &RowMajorMatrix<F>,
) -> Result<Value, AllocError>
    ensures { IfOk result (λ value. view value ≡ trace_writing F.writing (matrix_trace trace.now)) }
{
    let mut map = Map::new(alloc);
    put(&mut map, alloc, "width", Value::from(trace.width))?;
    put(&mut map, alloc, "rows", rows_to_json(alloc, trace)?)?;
    Ok(Value::Object(map))
}

/// The object of a matrix; null where there is none.
fn trace_or_null<F: JsonCodec>(
    alloc: Global,
    trace: &Option<RowMajorMatrix<F>>,
) -> Result<Value, AllocError>
    ensures { IfOk result (λ value. view value
        ≡ trace_or_null F.writing (declared_trace trace.now)) }
{
    match trace {
        Some(trace) => trace_to_json(alloc, trace),
        None => Ok(Value::Null),
    }
}

/// The members of the columns, the public values and the preprocessed trace.
#[tactic(auto, unfolding(crate::specs::TreeJson::columns_writing))]
fn columns_to_map<F: JsonCodec>(
    alloc: Global,
    columns: &TreeColumns<F>,
) -> Result<Map<String, Value>, AllocError>
    ensures { IfOk result (λ map. members_view map.entries
        ≡ columns_writing F.writing (columns_view columns.now)) }
{
    let periodic = lists_to_json(alloc, &columns.periodic_columns)?;
    let preprocessed = trace_or_null(alloc, &columns.preprocessed_trace)?;
    let mut map = Map::new(alloc);
    put(&mut map, alloc, "width", Value::from(columns.width))?;
    put(
        &mut map,
        alloc,
        "publics",
        Value::from(columns.num_public_values),
    )?;
    put(&mut map, alloc, "periodic", periodic)?;
    put(&mut map, alloc, "preprocessed", preprocessed)?;
    Ok(map)
}

/// Puts the constants, the nodes and the constraints under their names.
#[tactic(auto, unfolding(crate::specs::TreeJson::list_writing))]
fn put_list<F: JsonCodec>(
    map: &mut Map<String, Value>,
    alloc: Global,
    list: &TreeList<F>,
) -> Result<(), AllocError>
    ensures { OnOk result (members_view map.new.entries
        ≡ list_writing F.writing (list_view list.now) (members_view map.old.entries)) }
{
    let constants = list_to_json(alloc, &list.constants)?;
    let nodes = list_to_json(alloc, &list.nodes)?;
    let constraints = list_to_json(alloc, &list.constraints)?;
    put(&mut *map, alloc, "constants", constants)?;
    put(&mut *map, alloc, "nodes", nodes)?;
    put(&mut *map, alloc, "constraints", constraints)
}

/// The AIR that an object spells whose preprocessed rows may be apart.
#[tactic(auto, unfolding(crate::specs::TreeApart::air_apart))]
fn air_from_json<F: Field + JsonCodec>(
    alloc: Global,
    value: &Value,
    rows: &Option<NumberRows>,
) -> Result<TreeAir<F>, TreeJsonError>
    ensures { Decodes (λ air. air_view air.declaration air.list) result
        (air_apart F.reading (rows_apart rows.now) (view value.now)) }
{
    check_air_members(alloc, value)?;
    let columns = columns_from_json(alloc, value, rows)?;
    let max_constraint_degree = optional_number(value, "max_constraint_degree")?;
    let num_constraints = optional_number(value, "num_constraints")?;
    let list = tree_list_from_json(alloc, value)?;
    let declaration = TreeDeclaration {
        columns,
        max_constraint_degree,
        num_constraints,
    };
    match TreeAir::new(alloc, declaration, list) {
        Ok(air) => Ok(air),
        Err(fault) => Err(TreeJsonError::Air(fault)),
    }
}

impl<F: Field + JsonCodec> TreeAir<F> {
    /// The AIR that an object spells. Its fields are read in the order `width`, `publics`,
    /// `periodic`, `preprocessed`, `max_constraint_degree`, `num_constraints`, `constants`,
    /// `nodes`, `constraints`, and the first fault is answered. The preprocessed trace and the
    /// hints are None where they are missing or null; the rest is required.
    ///
    /// - `NotAnObject` where the value isn't an object.
    /// - `UnknownMember` before all fields, where it has a member of another name: the first in the
    ///   order of the names; `UnknownTraceMember` the same of the preprocessed trace, before its
    ///   fields.
    /// - `MissingField` where a required field isn't there, also one of the preprocessed trace.
    /// - `WrongKind` where a number isn't a whole one that fits, a list isn't an array, or the
    ///   preprocessed trace isn't an object.
    /// - `Constant`, `PeriodicValue`, `PreprocessedValue` where an element of the field is refused,
    ///   and `PeriodicColumn`, `PreprocessedRow` where a list of them isn't an array: the first of
    ///   its field.
    /// - `RowWidth` where a row of the preprocessed trace has another width.
    /// - `Node`, `Constraint` where one is refused, the first: with its place and what is wrong.
    /// - `Air` after all fields, where the nodes or the constraints have a fault.
    /// - `OutOfMemory` wherever an allocation was refused.
    pub fn from_json(alloc: Global, value: &Value) -> Result<TreeAir<F>, TreeJsonError>
        ensures decoded { Decodes (λ air. air_view air.declaration air.list) result
            (air_reading F.reading (view value.now)) }
    {
        TreeAir::from_parts(alloc, value, &None)
    }

    /// The AIR that an object spells with these rows, if there are any apart, in its preprocessed
    /// trace, in place of what stands there; or the first fault, as `from_json` says it.
    pub fn from_parts(
        alloc: Global,
        value: &Value,
        rows: &Option<NumberRows>,
    ) -> Result<TreeAir<F>, TreeJsonError>
        ensures decoded { Decodes (λ air. air_view air.declaration air.list) result
            (air_reading F.reading (joined trace_path (rows_apart rows.now) (view value.now))) }
    {
        air_from_json(alloc, value, rows)
    }

    /// An object with the keys of the columns, the lists and the hints that there are; without a
    /// preprocessed trace it has null in its place. It is read back as this AIR.
    #[tactic(auto, unfolding(crate::specs::TreeJson::air_writing))]
    pub fn to_json(&self, alloc: Global) -> Result<Value, AllocError>
        ensures written { IfOk result (λ value. view value
            ≡ air_writing F.writing (air_view self.now.declaration self.now.list)) }
        ensures read_back { IfOk result (λ value. air_reading F.reading (view value)
            ≡ Ok (air_view self.now.declaration self.now.list)) }
    {
        let mut map = columns_to_map(alloc, &self.declaration.columns)?;
        put_list(&mut map, alloc, &self.list)?;
        let degree = self.declaration.max_constraint_degree;
        put_number(&mut map, alloc, "max_constraint_degree", degree)?;
        let count = self.declaration.num_constraints;
        put_number(&mut map, alloc, "num_constraints", count)?;
        Ok(Value::Object(map))
    }
}
