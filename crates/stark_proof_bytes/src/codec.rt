//! Types whose values bytes name.
ghost use Rattle.std.specs.Prelude.{◌≡◌, ◌++◌, OnOk, true};
ghost use Rattle.stark_proof_bytes.specs.Bytes.{BytesLaws, BytesOps, Takes};

use crate::fault::BytesFault;
use crate::reader::ByteReader;
use std::alloc::{AllocError, Global};

/// A type each of whose values has one name in bytes.
pub trait BytesCodec: Sized {
    /// How values are written, and what bytes are read as.
    ghost bytes: { BytesOps Self };

    /// The value that the next bytes name. On Err some of them may have been passed.
    fn read_from(alloc: Global, reader: &mut ByteReader) -> Result<Self, BytesFault>
        ensures { Takes (λ x. x) result reader.new (bytes.reading reader.old) };

    /// Appends the bytes that name this value. It is Err only where memory was refused, and then
    /// some of them may have been appended.
    fn write_to(&self, out: &mut Vec<u8>) -> Result<(), AllocError>
        ensures written { OnOk result (out.new.items
            ≡ out.old.items ++ bytes.writing self.now) }
        ensures fits { OnOk result (bytes.fits self.now ≡ true) };

    /// What is written is read back, and what is read is what would be written.
    ghost bytes_laws: { BytesLaws bytes };
}
