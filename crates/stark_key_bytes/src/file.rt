//! Keys as the bytes of a file: a text that says what they are, the parts, and nothing after them.
ghost use Rattle.std.specs.Prelude.{◌≡◌, IfOk, Ok};
ghost use Rattle.stark_proof_bytes.specs.Bytes.{AreBytes};
ghost use Rattle.stark_proof_bytes.specs.ProofBytes.{Decodes};
ghost use Rattle.stark_key_bytes.specs.KeyBytes.{key_reading, key_writing};

use crate::key::{StatementKey, read_key, write_key};
use stark_proof_bytes::{ByteReader, BytesCodec, BytesFault};
use std::alloc::{AllocError, Global};

// Each byte is a number of 8 bits.
fn known_bytes(bytes: &[u8])
    ensures { AreBytes bytes.now }
{}

/// The key of all the bytes.
#[tactic(auto, unfolding(crate::specs::KeyBytes::key_reading))]
fn whole_key<Com: BytesCodec + Drop>(
    alloc: Global,
    bytes: &[u8],
) -> Result<StatementKey<Com>, BytesFault>
    ensures { Decodes (λ x. x) result (key_reading Com.bytes bytes.now) }
{
    let mut reader = ByteReader::new(bytes);
    reader.next_prefix("voskligan key 2".as_bytes())?;
    let key = read_key(alloc, &mut reader)?;
    if reader.len() > 0 {
        return Err(BytesFault::TrailingBytes);
    }
    Ok(key)
}

/// The key that the bytes of a file name, which no other bytes name, or their first fault. The
/// bytes are the text `voskligan key 2`; the 32 bytes of the digest of the statement's canonical
/// bytes; and the byte 0 where the statement's AIR declares no preprocessed columns, else the byte
/// 1, how many columns there are, the logarithm of the committed height, and the commitment. A
/// number has 8 bytes, the high one first; the commitment has its own codec's bytes. Columns of any
/// number and height are taken: a verifier tests them.
///
/// - `Magic` where the bytes begin with another text.
/// - `Truncated` where they end before the key does.
/// - `TooLong` where a list of the commitment's is said to have more members than there are bytes
///   after its length.
/// - `OutOfRange` where the byte that says whether there are columns is neither 0 nor 1, or a
///   number of the commitment's is past what it may be.
/// - `TrailingBytes` where bytes stand after the key.
/// - `OutOfMemory` wherever memory was refused. It is taken for what was read alone, whatever
///   lengths the bytes claim.
pub fn key_from_bytes<Com: BytesCodec + Drop>(
    alloc: Global,
    bytes: &[u8],
) -> Result<StatementKey<Com>, BytesFault>
    ensures decoded { Decodes (λ x. x) result (key_reading Com.bytes bytes.now) }
    ensures canonical { IfOk result (λ key. bytes.now ≡ key_writing Com.bytes key) }
{
    known_bytes(bytes);
    let key = whole_key(alloc, bytes)?;
    Ok(key)
}

/// The bytes of a key's file, as `key_from_bytes` reads them. It is Err only where memory was
/// refused.
pub fn key_to_bytes<Com: BytesCodec + Drop>(
    alloc: Global,
    key: &StatementKey<Com>,
) -> Result<Vec<u8>, AllocError>
    ensures written { IfOk result (λ bytes. bytes.items ≡ key_writing Com.bytes key.now) }
    ensures read_back { IfOk result (λ bytes.
        key_reading Com.bytes bytes.items ≡ Ok key.now) }
{
    let mut bytes = Vec::new(alloc);
    bytes.extend_from_slice("voskligan key 2".as_bytes())?;
    write_key(key, &mut bytes)?;
    Ok(bytes)
}
