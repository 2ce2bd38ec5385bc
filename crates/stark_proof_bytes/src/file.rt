//! Proofs as the bytes of a file: a text that says what they are, the parts, and nothing behind.
ghost use Rattle.std.specs.Prelude.{◌≡◌, IfOk, Ok};
ghost use Rattle.stark_proof.specs.ProofView.{proof_view};
ghost use Rattle.stark_proof_bytes.specs.Bytes.{AreBytes};
ghost use Rattle.stark_proof_bytes.specs.ProofBytes.{Decodes, codecs, proof_reading, proof_writing};

use crate::codec::BytesCodec;
use crate::fault::BytesFault;
use crate::proof::{read_proof, write_proof};
use crate::reader::ByteReader;
use stark_proof::Proof;
use std::alloc::{AllocError, Global};

// Each byte is a number of 8 bits.
fn known_bytes(bytes: &[u8])
    ensures { AreBytes bytes.now }
{}

/// The proof of all the bytes.
#[tactic(auto, unfolding(crate::specs::ProofBytes::proof_reading))]
fn whole_proof<
    Com: BytesCodec + Drop,
    Challenge: BytesCodec + Drop,
    PcsProof: BytesCodec + Drop,
    Val: BytesCodec + Drop,
>(alloc: Global, bytes: &[u8]) -> Result<Proof<Com, Challenge, PcsProof, Val>, BytesFault>
    ensures { Decodes proof_view result (proof_reading
        (codecs Com.bytes Challenge.bytes PcsProof.bytes Val.bytes) bytes.now) }
{
    let mut reader = ByteReader::new(bytes);
    reader.next_prefix("voskligan proof 2".as_bytes())?;
    let proof = read_proof(alloc, &mut reader)?;
    if reader.len() > 0 {
        return Err(BytesFault::TrailingBytes);
    }
    Ok(proof)
}

/// The proof that the bytes of a file name, which no other bytes name, or their first fault. The
/// bytes are the text `voskligan proof 2`; the commitments to the trace, to the quotient's chunks
/// and, as a value that may be missing, to a random polynomial; the opened rows of the trace, the
/// next rows, the preprocessed rows, the quotient's chunks and the random row; the opening proof;
/// `degree_bits`; and the two witnesses, zeta's first. A number has 8 bytes, the high one first, an
/// element of a field of at most 31 bits 4 and one of the extension its four coordinates, a digest
/// 32; a list has its length first, and a value that may be missing the byte 0 or 1. Preprocessed
/// rows of any widths are taken: a verifier tests them.
///
/// - `Magic` where the bytes begin with another text.
/// - `Truncated` where they end before the proof does.
/// - `TooLong` where a list is said to have more members than there are bytes behind its length.
/// - `OutOfRange` where an element's number is not below the modulus, or a byte for a value that
///   may be missing neither 0 nor 1.
/// - `TrailingBytes` where bytes stand after the proof.
/// - `OutOfMemory` wherever memory was refused. It is taken for what was read alone, whatever
///   lengths the bytes claim.
pub fn proof_from_bytes<
    Com: BytesCodec + Drop,
    Challenge: BytesCodec + Drop,
    PcsProof: BytesCodec + Drop,
    Val: BytesCodec + Drop,
>(alloc: Global, bytes: &[u8]) -> Result<Proof<Com, Challenge, PcsProof, Val>, BytesFault>
    ensures decoded { Decodes proof_view result (proof_reading
        (codecs Com.bytes Challenge.bytes PcsProof.bytes Val.bytes) bytes.now) }
    ensures canonical { IfOk result (λ proof. bytes.now ≡ proof_writing
        (codecs Com.bytes Challenge.bytes PcsProof.bytes Val.bytes) (proof_view proof)) }
{
    known_bytes(bytes);
    let proof = whole_proof(alloc, bytes)?;
    Ok(proof)
}

/// The bytes of a proof's file, as `proof_from_bytes` reads them. It is Err only where memory was
/// refused.
pub fn proof_to_bytes<
    Com: BytesCodec + Drop,
    Challenge: BytesCodec,
    PcsProof: BytesCodec,
    Val: BytesCodec,
>(alloc: Global, proof: &Proof<Com, Challenge, PcsProof, Val>) -> Result<Vec<u8>, AllocError>
    ensures written { IfOk result (λ bytes. bytes.items ≡ proof_writing
        (codecs Com.bytes Challenge.bytes PcsProof.bytes Val.bytes) (proof_view proof.now)) }
    ensures read_back { IfOk result (λ bytes. proof_reading
        (codecs Com.bytes Challenge.bytes PcsProof.bytes Val.bytes) bytes.items
        ≡ Ok (proof_view proof.now)) }
{
    let mut bytes = Vec::new(alloc);
    bytes.extend_from_slice("voskligan proof 2".as_bytes())?;
    write_proof(proof, &mut bytes)?;
    Ok(bytes)
}
