//! Chunks of a quotient, by the parts of its domain.
ghost use Rattle.std.specs.Prelude.{◌≡◌, ◌≤◌, ◌*◌, map, length, IfOk};
ghost use Rattle.std.specs.Int.{IsPowerOfTwo};
ghost use Rattle.stark_support.specs.Coset.{coset_size, coset_from};
ghost use Rattle.stark_columns.specs.Columns.{columns_list};
ghost use Rattle.stark_columns.specs.PlainChunks.{AreChunksOf};

use crate::columns::interpolated_columns;
use stark_bench::Coset;
use stark_support::{DomainShape, PolynomialSpace, RowMajorMatrix, TwoAdicField};
use std::alloc::{AllocError, Global};

/// The columns of each chunk of a quotient, on its part of the domain: chunk `i` takes the rows
/// `i`, `i + num_chunks`, .. of the values on the whole domain, which `flat` has, a row a point.
/// There are a power of two of chunks, at most as many as points. It is Err only where memory was
/// refused.
pub fn chunks_of<F: TwoAdicField>(
    alloc: Global,
    domain: &Coset<F>,
    flat: &RowMajorMatrix<F>,
    num_chunks: usize,
) -> Result<Vec<Vec<Vec<F>>>, AllocError>
    requires height { length flat.now.values.items
        ≡ coset_size (coset_from domain.now.shift domain.now.log_size) * flat.now.width }
    requires power { IsPowerOfTwo num_chunks }
    requires parts { num_chunks ≤ coset_size (coset_from domain.now.shift domain.now.log_size) }
    ensures { IfOk result (λ c. AreChunksOf F.ring F.root
        (coset_from domain.now.shift domain.now.log_size) flat.now num_chunks
        (map columns_list c.items)) }
{
    let parts = domain.split_domains(alloc, num_chunks)?;
    let cosets = parts.as_slice();
    let mut chunks = Vec::new(alloc);
    for i in 0..num_chunks {
        let part = &cosets[i];
        let columns = interpolated_columns(
            alloc,
            part,
            &flat.values,
            i * flat.width,
            num_chunks * flat.width,
            flat.width,
            part.size(),
        )?;
        chunks.push(columns)?;
    }
    Ok(chunks)
}
