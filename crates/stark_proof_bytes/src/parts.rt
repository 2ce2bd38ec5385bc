//! Commitments in parts as bytes.
ghost use Rattle.stark_proof_bytes.specs.Parts.{parts_laws, parts_ops};

use crate::codec::BytesCodec;
use crate::fault::BytesFault;
use crate::options::read_option;
use crate::reader::ByteReader;
use stark_two_part::InParts;
use std::alloc::{AllocError, Global};

impl<K: BytesCodec + Drop> BytesCodec for InParts<K> {
    ghost bytes = { parts_ops K.bytes };

    /// The whole and the byte 0, or the first part, the byte 1 and the other part.
    fn read_from(alloc: Global, reader: &mut ByteReader) -> Result<InParts<K>, BytesFault> {
        let first = K::read_from(alloc, &mut *reader)?;
        match read_option(alloc, reader)? {
            Some(others) => Ok(InParts::Parts(first, others)),
            None => Ok(InParts::Whole(first)),
        }
    }

    fn write_to(&self, out: &mut Vec<u8>) -> Result<(), AllocError> {
        match self {
            InParts::Whole(whole) => {
                whole.write_to(&mut *out)?;
                out.push(0)?;
                Ok(())
            }
            InParts::Parts(first, others) => {
                first.write_to(&mut *out)?;
                out.push(1)?;
                others.write_to(out)
            }
        }
    }

    ghost bytes_laws = { parts_laws K.bytes K.bytes_laws };
}
