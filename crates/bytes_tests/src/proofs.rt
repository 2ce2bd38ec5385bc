//! Worked cases of proofs as bytes.
use stark_bench::ClearCommitment;
use stark_clear::ClearProof;
use stark_fields::{BabyBearField, Ext4, F12289};
use stark_fri_proof::FriProof;
use stark_merkle::Root;
use stark_proof::Proof;
use stark_proof_bytes::{ByteReader, BytesCodec, proof_from_bytes, proof_to_bytes};
use stark_support::{Field, JsonCodec, NeverNull};
use stark_two_part::InParts;
use std::alloc::Global;
use std::test::Fail;

// A scheme's name | the digits of a file's bytes => the proof's JSON, or what is at fault. A script
// outside this repository wrote the bytes from the JSON, by what `proof_from_bytes` says.
// FRI's are over BabyBear, those in the clear over the field of 12289.
const CASES: &str = r#"
fri | 766f736b6c6967616e2070726f6f66203200112233445566778899aabbccddeeff0123456789abcdeffedcba9876543210ffffffffffffffffffffffffffffffffffffffffffffffffffffffffffffffff0000000000000000010000000100000002000000030000000401000000000000000178000000000000000000000000000005010000000000000001000000070000000000000000000000000000000000000000020000000000000001000000010000000000000000000000000000000000000000000000000000000001ffffffffffffffffffffffffffffffffffffffffffffffffffffffffffffffff000000090000000000000001000000080000000700000006000000050000000300000000000000010000000000000001000000000000000200000000000000020000000100000002000000000000000100000003000000000000000100112233445566778899aabbccddeeff0123456789abcdeffedcba9876543210000000000000000100000000000000000000000000000001000000000000000000000000000000030000000000000102 => {"alpha_pow_witness":258,"commitments":{"quotient_chunks":"ffffffffffffffffffffffffffffffffffffffffffffffffffffffffffffffff","random":null,"trace":"00112233445566778899aabbccddeeff0123456789abcdeffedcba9876543210"},"degree_bits":3,"ood_pow_witness":0,"opened_values":{"preprocessed_local":[[7,0,0,0]],"preprocessed_next":null,"quotient_chunks":[[[1,0,0,0]],[]],"random":null,"trace_local":[[1,2,3,4]],"trace_next":[[2013265920,0,0,5]]},"opening_proof":{"final_polynomial":[[8,7,6,5]],"phases":[{"commitment":"ffffffffffffffffffffffffffffffffffffffffffffffffffffffffffffffff","witness":9}],"queries":[{"inputs":[{"path":["00112233445566778899aabbccddeeff0123456789abcdeffedcba9876543210"],"rows":[[1,2],[3]]}],"layers":[{"path":[],"sibling":[0,0,0,1]}]}],"query_witness":3}}
clear | 766f736b6c6967616e2070726f6f6620320000000000000001000000000000000200000000000000020000000300000004000000000000000200000005000030000000000000000000010000000000000001000000000000000100000000000000010000000100000000000000000001000000000000000100000001000000000000000000000000010000000000000001000000020000000000000000000000000000000000000000010000000000000001000000000000000000000000000000010000000000000000010000000200000000 => {"commitments":{"quotient_chunks":[],"random":[[[1]]],"trace":[[[3,4],[5,12288]]]},"degree_bits":1,"ood_pow_witness":2,"opened_values":{"preprocessed_local":[[1,0,0,0]],"preprocessed_next":[[2,0,0,0]],"quotient_chunks":[],"random":[[0,0,0,1]],"trace_local":[],"trace_next":null},"opening_proof":null}
clear |  => the bytes do not begin as a proof's
clear | 766f736b6c6967616e2070726f6f662031 => the bytes do not begin as a proof's
clear | 766f736b6c6967616e2070726f6f662032 => the bytes end too early
clear | 766f736b6c6967616e2070726f6f66203200000000000000010000000000000002000000000000000200000003000000040000000000000002000000050000300000000000000000000100000000000000010000000000000001000000000000000100000001000000000000000000010000000000000001000000010000000000000000000000000100000000000000010000000200000000000000000000000000000000000000000100000000000000010000000000000000000000000000000100000000000000000100000002000000 => the bytes end too early
clear | 766f736b6c6967616e2070726f6f662032000000000000000100000000000000020000000000000002000000030000000400000000000000020000000500003000000000000000000001000000000000000100000000000000010000000000000001000000010000000000000000000100000000000000010000000100000000000000000000000001000000000000000100000002000000000000000000000000000000000000000001000000000000000100000000000000000000000000000001000000000000000001000000020000000000 => there are bytes after the end
clear | 766f736b6c6967616e2070726f6f66203280000000000000000000000000000000000000000000000000000000 => a list is longer than the bytes that are left
clear | 766f736b6c6967616e2070726f6f66203200000000000000150000000000000000000000000000000000000000 => a list is longer than the bytes that are left
clear | 766f736b6c6967616e2070726f6f662032000000000000000100000000000000010000000000000001000030010000000000000000000000000000000000000000 => a number is out of its range
fri | 766f736b6c6967616e2070726f6f66203200112233445566778899aabbccddeeff0123456789abcdeffedcba9876543210ffffffffffffffffffffffffffffffffffffffffffffffffffffffffffffffff0200000000000000010000000100000002000000030000000401000000000000000178000000000000000000000000000005010000000000000001000000070000000000000000000000000000000000000000020000000000000001000000010000000000000000000000000000000000000000000000000000000001ffffffffffffffffffffffffffffffffffffffffffffffffffffffffffffffff000000090000000000000001000000080000000700000006000000050000000300000000000000010000000000000001000000000000000200000000000000020000000100000002000000000000000100000003000000000000000100112233445566778899aabbccddeeff0123456789abcdeffedcba9876543210000000000000000100000000000000000000000000000001000000000000000000000000000000030000000000000102 => a number is out of its range
clear | 766f736b6c6967616e2070726f6f6620320000000000000001000000000000000200000000000000020000000300000004000000000000000200000005000030000000000000000000010000000000000001000000000000000100000000000000010000000100000000000000000001000000000000000100000001000000000000000000000000010000000000000001000000020000000000000000000000000000000000000000010000000000000001000000000000000000000000000000010100000000000000010000000200000000 => a number is out of its range
fri | 766f736b6c6967616e2070726f6f66203200112233445566778899aabbccddeeff0123456789abcdeffedcba9876543210ffffffffffffffffffffffffffffffffffffffffffffffffffffffffffffffff0000000000000000010000000100000002000000030000000401000000000000000178000000000000000000000000000005010000000000000001000000070000000000000000000000000000000000000000020000000000000001000000010000000000000000000000000000000000000000000000000000000001ffffffffffffffffffffffffffffffffffffffffffffffffffffffffffffffff000000090000000000000001000000080000000700000006000000050000000300000000000000010000000000000001000000000000000200000000000000020000000100000002000000000000000100000003000000000000000100112233445566778899aabbccddeeff0123456789abcdeffedcba9876543210000000000000000100000000000000000000000000000001000000000000000000000000000000030000000078000001 => a number is out of its range
"#;

/// A proof by FRI over BabyBear.
type FriCase = Proof<
    Root,
    Ext4<BabyBearField>,
    FriProof<BabyBearField, Ext4<BabyBearField>>,
    BabyBearField,
>;

/// A proof in the clear over the field of 12289.
type ClearCase = Proof<ClearCommitment<F12289>, Ext4<F12289>, ClearProof, F12289>;

/// The JSON of a proof, of which the bytes have to be those that it is written as.
fn spelled<
    Com: BytesCodec + NeverNull + Drop,
    Challenge: BytesCodec + JsonCodec + Drop,
    PcsProof: BytesCodec + JsonCodec + Drop,
    Val: BytesCodec + Field + NeverNull,
>(
    alloc: Global,
    bytes: &[u8],
    proof: &Proof<Com, Challenge, PcsProof, Val>,
) -> Result<String, Fail> {
    let written = proof_to_bytes(alloc, proof)?;
    if written.as_slice() != bytes {
        return Err(Fail::new("other bytes"));
    }
    Ok(proof.to_json(alloc)?.to_string(alloc)?)
}

/// What becomes of bytes.
fn answer(alloc: Global, scheme: &str, bytes: &[u8]) -> Result<String, Fail> {
    if scheme == "fri" {
        let proof: FriCase = match proof_from_bytes(alloc, bytes) {
            Ok(proof) => proof,
            Err(fault) => return Ok(format!(in alloc; "{fault}")?),
        };
        return spelled(alloc, bytes, &proof);
    }
    let proof: ClearCase = match proof_from_bytes(alloc, bytes) {
        Ok(proof) => proof,
        Err(fault) => return Ok(format!(in alloc; "{fault}")?),
    };
    spelled(alloc, bytes, &proof)
}

#[test]
fn cases_are_answered(rt: HostRuntime) -> Result<(), Fail> {
    let alloc = rt.alloc();
    let mut count = 0usize;
    for case in CASES.lines() {
        if !case.is_empty() {
            let (input, expected) = case.split_once(" => ").ok_or("a case without an answer")?;
            let (scheme, digits) = input.split_once(" | ").ok_or("no bar")?;
            let bytes = hex::decode(alloc, digits).ok().ok_or("no digits")?;
            let actual = answer(alloc, scheme, &bytes)?;
            assert_eq!(rt; actual.as_str(), expected, "{input}");
            count = count.saturating_add(1);
        }
    }
    assert_eq!(rt; count, 13);
    Ok(())
}

// The digits of bytes => the JSON of the commitment in parts that they name, of elements of the
// field of 12289, and how many bytes are left; or what is at fault.
const IN_PARTS: &str = r#"
0000000700 => [7], 0 left
0000000701000030000000 => [7,12288], 2 left
 => the bytes end too early
00000007 => the bytes end too early
0000000701000000 => the bytes end too early
0000000702 => a number is out of its range
0000300100 => a number is out of its range
000000070100003001 => a number is out of its range
"#;

/// What the first bytes name.
fn in_parts(alloc: Global, bytes: &[u8]) -> Result<String, Fail> {
    let mut reader = ByteReader::new(bytes);
    let parts: InParts<F12289> = match BytesCodec::read_from(alloc, &mut reader) {
        Ok(parts) => parts,
        Err(fault) => return Ok(format!(in alloc; "{fault}")?),
    };
    let left = reader.len();
    let mut written = Vec::new(alloc);
    parts.write_to(&mut written)?;
    if !bytes.starts_with(&written) {
        return Err(Fail::new("other bytes"));
    }
    let json = parts.to_json(alloc)?.to_string(alloc)?;
    Ok(format!(in alloc; "{json}, {left} left")?)
}

#[test]
fn parts_have_bytes(rt: HostRuntime) -> Result<(), Fail> {
    let alloc = rt.alloc();
    for case in IN_PARTS.lines() {
        if let Some((digits, expected)) = case.split_once(" => ") {
            let bytes = hex::decode(alloc, digits).ok().ok_or("no digits")?;
            let actual = in_parts(alloc, &bytes)?;
            assert_eq!(rt; actual.as_str(), expected, "{digits}");
        }
    }
    Ok(())
}
