//! Roots and paths as bytes.
ghost use Rattle.std.specs.Prelude.{◌≡◌, ◌++◌, IfOk, OnOk, length, true};
ghost use Rattle.stark_fri_proof.specs.Paths.{digests_of};
ghost use Rattle.stark_proof_bytes.specs.Bytes.{number_ops};
ghost use Rattle.stark_proof_bytes.specs.Roots.{digests_writing, path_laws, path_ops, root_laws, root_ops};

use crate::codec::BytesCodec;
use crate::fault::BytesFault;
use crate::lists::{read_list, write_number};
use crate::reader::ByteReader;
use stark_fri_proof::MerklePath;
use stark_merkle::Root;
use std::alloc::{AllocError, Global};

impl BytesCodec for Root {
    ghost bytes = { root_ops };

    /// The root of the next 32 bytes. It takes no memory.
    fn read_from(_alloc: Global, reader: &mut ByteReader) -> Result<Root, BytesFault> {
        Ok(Root::new(reader.next_bytes::<32>()?))
    }

    fn write_to(&self, out: &mut Vec<u8>) -> Result<(), AllocError> {
        out.extend_from_slice(&self.bytes())?;
        Ok(())
    }

    ghost bytes_laws = { root_laws };
}

/// The bytes of each root.
fn digests_of(alloc: Global, roots: &[Root]) -> Result<Vec<[u8; 32]>, AllocError>
    ensures { IfOk result (λ digests. digests.items ≡ digests_of roots.now) }
{
    let mut digests = Vec::new(alloc);
    for root in roots {
        digests.push(root.bytes())?;
    }
    Ok(digests)
}

/// Appends how many digests there are, and each in turn.
fn write_digests(digests: &[[u8; 32]], out: &mut Vec<u8>) -> Result<(), AllocError>
    ensures written { OnOk result (out.new.items ≡ out.old.items ++ digests_writing digests.now) }
    ensures fits { OnOk result (number_ops.fits (length digests.now) ≡ true) }
{
    write_number(digests.len(), &mut *out)?;
    for digest in digests {
        out.extend_from_slice(digest)?;
    }
    Ok(())
}

impl BytesCodec for MerklePath {
    ghost bytes = { path_ops };

    /// The path of a list of roots, the lowest first.
    fn read_from(alloc: Global, reader: &mut ByteReader) -> Result<MerklePath, BytesFault> {
        let roots = read_list::<Root>(alloc, reader)?;
        let digests = digests_of(alloc, &roots)?;
        Ok(MerklePath::new(digests))
    }

    #[tactic(auto, using(crate::specs::Roots::path_written, crate::specs::Roots::path_fits))]
    fn write_to(&self, out: &mut Vec<u8>) -> Result<(), AllocError> {
        write_digests(self.digests(), out)
    }

    ghost bytes_laws = { path_laws };
}
