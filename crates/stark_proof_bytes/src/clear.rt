//! What the scheme in the clear commits to and proves by, as bytes.
ghost use Rattle.std.specs.Prelude.{◌≡◌, ◌++◌, OnOk, map, true};
ghost use Rattle.stark_bench.specs.CommitmentJson.{matrices_list};
ghost use Rattle.stark_proof_bytes.specs.Bytes.{Takes};
ghost use Rattle.stark_proof_bytes.specs.ClearBytes.{commitment_laws, commitment_ops, nothing_laws, nothing_ops};

use crate::codec::BytesCodec;
use crate::fault::BytesFault;
use crate::lists::{read_lists, write_lists, write_number};
use crate::reader::ByteReader;
use stark_bench::ClearCommitment;
use stark_clear::ClearProof;
use std::alloc::{AllocError, Global};

/// The matrices that the next bytes name.
fn read_matrices<F: BytesCodec + Drop>(
    alloc: Global,
    reader: &mut ByteReader,
) -> Result<Vec<Vec<Vec<F>>>, BytesFault>
    ensures { Takes (λ v. matrices_list v.items) result reader.new
        ((commitment_ops F.bytes).reading reader.old) }
{
    let count = reader.next_count()?;
    let mut matrices = Vec::new(alloc);
    for _place in 0..count {
        let matrix = read_lists(alloc, &mut *reader)?;
        matrices.push(matrix)?;
    }
    Ok(matrices)
}

/// Appends how many matrices there are, and each in turn.
fn write_matrices<F: BytesCodec>(
    matrices: &[Vec<Vec<F>>],
    out: &mut Vec<u8>,
) -> Result<(), AllocError>
    ensures written { OnOk result (out.new.items
        ≡ out.old.items ++ (commitment_ops F.bytes).writing (matrices_list matrices.now)) }
    ensures fits { OnOk result
        ((commitment_ops F.bytes).fits (matrices_list matrices.now) ≡ true) }
{
    write_number(matrices.len(), &mut *out)?;
    for matrix in matrices {
        write_lists(matrix, &mut *out)?;
    }
    Ok(())
}

impl<F: BytesCodec + Drop> BytesCodec for ClearCommitment<F> {
    ghost bytes = { commitment_ops F.bytes };

    /// A list of matrices, each a list of columns, each a list of coefficients.
    fn read_from(alloc: Global, reader: &mut ByteReader) -> Result<ClearCommitment<F>, BytesFault> {
        let matrices = read_matrices(alloc, reader)?;
        Ok(ClearCommitment::new(matrices))
    }

    fn write_to(&self, out: &mut Vec<u8>) -> Result<(), AllocError> {
        write_matrices(self.matrices(), out)
    }

    ghost bytes_laws = { commitment_laws F.bytes F.bytes_laws };
}

impl BytesCodec for ClearProof {
    ghost bytes = { nothing_ops };

    /// Nothing, by the byte 0; `OutOfRange` where the next byte is another. It takes no memory.
    fn read_from(_alloc: Global, reader: &mut ByteReader) -> Result<ClearProof, BytesFault> {
        if reader.next_byte()? != 0 {
            return Err(BytesFault::OutOfRange);
        }
        Ok(ClearProof)
    }

    fn write_to(&self, out: &mut Vec<u8>) -> Result<(), AllocError> {
        out.push(0)?;
        Ok(())
    }

    ghost bytes_laws = { nothing_laws };
}
