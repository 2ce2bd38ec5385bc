//! The parts of a key's file.
ghost use Rattle.std.specs.Prelude.{◌≡◌, ◌++◌, OnOk, true};
ghost use Rattle.stark_proof_bytes.specs.Bytes.{Takes, option_ops};
ghost use Rattle.stark_key_bytes.specs.KeyBytes.{key_ops, verifier_key_ops};

use stark_proof_bytes::{ByteReader, BytesCodec, BytesFault, write_number};
use stark_protocol::PreprocessedVerifierKey;
use std::alloc::{AllocError, Global};

/// The key of a statement.
#[derive(Drop)]
pub struct StatementKey<Com> {
    /// The SHA-256 digest of the statement's canonical bytes.
    pub digest: [u8; 32],
    /// What a verifier keeps of the preprocessed columns; None where the statement's AIR declares
    /// none.
    pub key: Option<PreprocessedVerifierKey<Com>>,
}

/// The verifier's key of the next bytes, where the first of them says that there is one. Columns of
/// any number and height are taken.
fn read_verifier_key<Com: BytesCodec + Drop>(
    alloc: Global,
    reader: &mut ByteReader,
) -> Result<Option<PreprocessedVerifierKey<Com>>, BytesFault>
    ensures { Takes (λ x. x) result reader.new
        ((option_ops (verifier_key_ops Com.bytes)).reading reader.old) }
{
    if !reader.next_flag()? {
        return Ok(None);
    }
    let width = reader.next_number()?;
    let degree_bits = reader.next_number()?;
    let commitment = Com::read_from(alloc, reader)?;
    Ok(Some(PreprocessedVerifierKey {
        width,
        degree_bits,
        commitment,
    }))
}

/// Appends the byte 0, or 1 and the key.
fn write_verifier_key<Com: BytesCodec>(
    key: &Option<PreprocessedVerifierKey<Com>>,
    out: &mut Vec<u8>,
) -> Result<(), AllocError>
    ensures written { OnOk result (out.new.items
        ≡ out.old.items ++ (option_ops (verifier_key_ops Com.bytes)).writing key.now) }
    ensures fits { OnOk result
        ((option_ops (verifier_key_ops Com.bytes)).fits key.now ≡ true) }
{
    match key {
        Some(key) => {
            out.push(1)?;
            write_number(key.width, &mut *out)?;
            write_number(key.degree_bits, &mut *out)?;
            key.commitment.write_to(out)
        }
        None => {
            out.push(0)?;
            Ok(())
        }
    }
}

/// The parts of a key's file, after the text that it begins with.
pub(crate) fn read_key<Com: BytesCodec + Drop>(
    alloc: Global,
    reader: &mut ByteReader,
) -> Result<StatementKey<Com>, BytesFault>
    ensures { Takes (λ x. x) result reader.new ((key_ops Com.bytes).reading reader.old) }
{
    let digest = reader.next_bytes::<32>()?;
    let key = read_verifier_key(alloc, reader)?;
    Ok(StatementKey { digest, key })
}

/// Appends the parts of a key's file.
pub(crate) fn write_key<Com: BytesCodec>(
    key: &StatementKey<Com>,
    out: &mut Vec<u8>,
) -> Result<(), AllocError>
    ensures written { OnOk result (out.new.items
        ≡ out.old.items ++ (key_ops Com.bytes).writing key.now) }
    ensures fits { OnOk result ((key_ops Com.bytes).fits key.now ≡ true) }
{
    out.extend_from_slice(&key.digest)?;
    write_verifier_key(&key.key, out)
}
