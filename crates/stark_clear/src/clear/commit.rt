//! What is committed: columns in the clear, and the prover's own list of them.
ghost use Rattle.std.specs.Prelude.{◌≡◌, [], ◌∷◌, map, IfOk};
ghost use Rattle.stark_columns.specs.Columns.{column_list, columns_list};

use stark_bench::ClearCommitment;
use std::alloc::{AllocError, Global};

/// A second list of the same coefficients, for each column of each matrix.
pub fn copied<F: Copy>(
    alloc: Global,
    matrices: &[Vec<Vec<F>>],
) -> Result<Vec<Vec<Vec<F>>>, AllocError>
    ensures { IfOk result (λ copy. map columns_list copy.items ≡ map columns_list matrices.now) }
{
    let mut copy = Vec::new(alloc);
    for columns in matrices {
        let columns = copied_columns(alloc, columns)?;
        copy.push(columns)?;
    }
    Ok(copy)
}

/// A copy of columns.
fn copied_columns<F: Copy>(alloc: Global, columns: &[Vec<F>]) -> Result<Vec<Vec<F>>, AllocError>
    ensures { IfOk result (λ copy. columns_list copy ≡ map column_list columns.now) }
{
    let mut copy = Vec::new(alloc);
    for column in columns {
        let mut one: Vec<F> = Vec::new(alloc);
        one.extend_from_slice(column)?;
        copy.push(one)?;
    }
    Ok(copy)
}

/// The commitment to matrices, and the prover's own list of them.
pub fn committed<F: Copy>(
    alloc: Global,
    matrices: Vec<Vec<Vec<F>>>,
) -> Result<(ClearCommitment<F>, ClearCommitment<F>), AllocError>
    ensures commitment { IfOk result (λ made. made.0 ≡ map columns_list matrices.items) }
    ensures prover_data { IfOk result (λ made. made.1 ≡ map columns_list matrices.items) }
{
    let copy = copied(alloc, &matrices)?;
    Ok((ClearCommitment::new(matrices), ClearCommitment::new(copy)))
}

/// The commitment to one matrix, and the prover's own list of it.
pub fn committed_alone<F: Copy>(
    alloc: Global,
    columns: Vec<Vec<F>>,
) -> Result<(ClearCommitment<F>, ClearCommitment<F>), AllocError>
    ensures commitment { IfOk result (λ made. made.0 ≡ columns_list columns ∷ []) }
    ensures prover_data { IfOk result (λ made. made.1 ≡ columns_list columns ∷ []) }
{
    let mut matrices = Vec::new(alloc);
    matrices.push(columns)?;
    let made = committed(alloc, matrices)?;
    Ok(made)
}
