//! Commitments in the clear that JSON spells.
ghost use Rattle.std.specs.Prelude.{◌≡◌, IfOk, map};
ghost use Rattle.serde_json.specs.View.{items_view, view};
ghost use Rattle.stark_support.specs.Json.{Gives, array_at, each_at};
ghost use Rattle.stark_support.specs.JsonFacts.{list_written};
ghost use Rattle.stark_bench.specs.CommitmentJson.{commitment_at, commitment_never_null, commitment_reads_back, commitment_written, matrices_list};

use crate::challenger::ClearCommitment;
use serde_json::Value;
use stark_support::{JsonCodec, JsonFault, NeverNull, lists_from_json};
use std::alloc::{AllocError, Global};

/// The matrices that the items of an array spell.
fn matrices_from_json<F: JsonCodec + Drop>(
    alloc: Global,
    values: &[Value],
) -> Result<Vec<Vec<Vec<F>>>, JsonFault>
    ensures { Gives (λ v. matrices_list v.items) result
        (each_at (array_at (array_at F.reading)) (items_view values.now)) }
{
    let mut matrices = Vec::new(alloc);
    for value in values {
        let columns = lists_from_json(alloc, value)?;
        matrices.push(columns)?;
    }
    Ok(matrices)
}

/// The array of a column's coefficients.
fn column_to_json<F: JsonCodec>(alloc: Global, column: &[F]) -> Result<Value, AllocError>
    ensures { IfOk result (λ value. view value ≡ list_written F.writing column.now) }
{
    let mut coefficients = Vec::new(alloc);
    for coefficient in column {
        coefficients.push(coefficient.to_json(alloc)?)?;
    }
    Ok(Value::Array(coefficients))
}

/// The array of a matrix's columns.
fn matrix_to_json<F: JsonCodec>(alloc: Global, matrix: &[Vec<F>]) -> Result<Value, AllocError>
    ensures { IfOk result (λ value. view value
        ≡ list_written (list_written F.writing) (map (λ column. column.items) matrix.now)) }
{
    let mut columns = Vec::new(alloc);
    for column in matrix {
        columns.push(column_to_json(alloc, column)?)?;
    }
    Ok(Value::Array(columns))
}

/// The array of matrices.
fn matrices_to_json<F: JsonCodec>(
    alloc: Global,
    matrices: &[Vec<Vec<F>>],
) -> Result<Value, AllocError>
    ensures { IfOk result (λ value. view value
        ≡ commitment_written F.writing (map (λ matrix. map (λ column. column.items) matrix.items)
        matrices.now)) }
{
    let mut values = Vec::new(alloc);
    for matrix in matrices {
        values.push(matrix_to_json(alloc, matrix)?)?;
    }
    Ok(Value::Array(values))
}

impl<F: JsonCodec + Drop> JsonCodec for ClearCommitment<F> {
    ghost reading = { commitment_at F.reading };

    ghost writing = { commitment_written F.writing };

    /// An array of matrices, each an array of columns, each an array of coefficients.
    #[tactic(auto, unfolding(stark_support::specs::Json::array_at))]
    fn from_json(alloc: Global, value: &Value) -> Result<ClearCommitment<F>, JsonFault> {
        let Some(values) = value.as_array() else {
            return Err(JsonFault::Invalid);
        };
        let matrices = matrices_from_json(alloc, values)?;
        Ok(ClearCommitment::new(matrices))
    }

    fn to_json(&self, alloc: Global) -> Result<Value, AllocError> {
        matrices_to_json(alloc, self.matrices())
    }

    ghost reads_back = { commitment_reads_back F.reading F.writing F.reads_back };
}

impl<F: JsonCodec + Drop> NeverNull for ClearCommitment<F> {
    ghost never_null = { commitment_never_null F.writing };
}
