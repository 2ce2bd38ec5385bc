//! Elements of the fields as bytes.
ghost use Rattle.stark_proof_bytes.specs.Elements.{base_laws, base_ops, ext4_laws, ext4_ops};

use crate::codec::BytesCodec;
use crate::fault::BytesFault;
use crate::reader::ByteReader;
use stark_fields::{Ext4, Modulus, Residue};
use std::alloc::{AllocError, Global};

impl<M: Modulus, Kind> BytesCodec for Residue<M, Kind> {
    ghost bytes = { base_ops };

    /// The element of the number of the next 4 bytes, the high one first. `OutOfRange` where it is
    /// not below the modulus. It takes no memory.
    fn read_from(_alloc: Global, reader: &mut ByteReader) -> Result<Residue<M, Kind>, BytesFault> {
        let number = u32::from_be_bytes(reader.next_bytes::<4>()?);
        if number >= M::MODULUS {
            return Err(BytesFault::OutOfRange);
        }
        Ok(Residue::new(number))
    }

    #[tactic(auto, unfolding(crate::specs::Elements::small_number))]
    fn write_to(&self, out: &mut Vec<u8>) -> Result<(), AllocError> {
        out.extend_from_slice(&self.value().to_be_bytes())?;
        Ok(())
    }

    ghost bytes_laws = { base_laws };
}

impl<F: BytesCodec + Copy> BytesCodec for Ext4<F> {
    ghost bytes = { ext4_ops F.bytes };

    /// The element of the next four coordinates, the constant first.
    fn read_from(alloc: Global, reader: &mut ByteReader) -> Result<Ext4<F>, BytesFault> {
        let c0 = F::read_from(alloc, &mut *reader)?;
        let c1 = F::read_from(alloc, &mut *reader)?;
        let c2 = F::read_from(alloc, &mut *reader)?;
        let c3 = F::read_from(alloc, reader)?;
        Ok(Ext4 { c0, c1, c2, c3 })
    }

    fn write_to(&self, out: &mut Vec<u8>) -> Result<(), AllocError> {
        self.c0.write_to(&mut *out)?;
        self.c1.write_to(&mut *out)?;
        self.c2.write_to(&mut *out)?;
        self.c3.write_to(out)
    }

    ghost bytes_laws = { ext4_laws F.bytes F.bytes_laws };
}
