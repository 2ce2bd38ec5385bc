//! Worked cases of keys as bytes.
use stark_bench::ClearCommitment;
use stark_fields::F12289;
use stark_key_bytes::{StatementKey, key_from_bytes, key_to_bytes};
use stark_merkle::Root;
use stark_proof_bytes::BytesCodec;
use std::alloc::Global;
use std::test::Fail;

// A scheme's name | the digits of a file's bytes => the width and the logarithm of the height, or
// `none`, or what is at fault. A script outside this repository wrote the bytes, by what
// `key_from_bytes` says. FRI's are roots; those in the clear list columns over the field of 12289.
const CASES: &str = r#"
fri | 766f736b6c6967616e206b65792032000102030405060708090a0b0c0d0e0f101112131415161718191a1b1c1d1e1f00 => none
fri | 766f736b6c6967616e206b65792032000102030405060708090a0b0c0d0e0f101112131415161718191a1b1c1d1e1f01000000000000000e0000000000000006ffffffffffffffffffffffffffffffffffffffffffffffffffffffffffffffff => 14 6
clear | 766f736b6c6967616e206b6579203287d8943b504bbece135b7a651f5782ea6494f434a4717672f1bf0e67713760eb01000000000000000100000000000000010000000000000001000000000000000100000000000000020000180600001800 => 1 1
fri |  => the bytes do not begin as a proof's
fri | 766f736b6c6967616e206b65792031 => the bytes do not begin as a proof's
fri | 766f736b6c6967616e206b65792032 => the bytes end too early
fri | 766f736b6c6967616e206b65792032000102030405060708090a0b0c0d0e0f101112131415161718191a1b1c1d1e1f => the bytes end too early
fri | 766f736b6c6967616e206b65792032000102030405060708090a0b0c0d0e0f101112131415161718191a1b1c1d1e1f01000000000000000e0000000000000006ffffffffffffffffffffffffffffffffffffffffffffffffffffffffffffff => the bytes end too early
fri | 766f736b6c6967616e206b65792032000102030405060708090a0b0c0d0e0f101112131415161718191a1b1c1d1e1f02 => a number is out of its range
fri | 766f736b6c6967616e206b65792032000102030405060708090a0b0c0d0e0f101112131415161718191a1b1c1d1e1f0000 => there are bytes after the end
clear | 766f736b6c6967616e206b6579203287d8943b504bbece135b7a651f5782ea6494f434a4717672f1bf0e67713760eb0100000000000000010000000000000001000000000000000100000000000000010000000000ffffff0000180600001800 => a list is longer than the bytes that are left
clear | 766f736b6c6967616e206b6579203287d8943b504bbece135b7a651f5782ea6494f434a4717672f1bf0e67713760eb01000000000000000100000000000000010000000000000001000000000000000100000000000000020000180600003001 => a number is out of its range
"#;

/// The width and the height of a key, whose bytes have to be those that it is written as.
fn spelled<Com: BytesCodec + Drop>(alloc: Global, bytes: &[u8]) -> Result<String, Fail> {
    let key: StatementKey<Com> = match key_from_bytes(alloc, bytes) {
        Ok(key) => key,
        Err(fault) => return Ok(format!(in alloc; "{fault}")?),
    };
    if key_to_bytes(alloc, &key)?.as_slice() != bytes {
        return Err(Fail::new("other bytes"));
    }
    match &key.key {
        Some(key) => Ok(format!(in alloc; "{} {}", key.width, key.degree_bits)?),
        None => Ok(format!(in alloc; "none")?),
    }
}

#[test]
fn cases_are_answered(rt: HostRuntime) -> Result<(), Fail> {
    let alloc = rt.alloc();
    let mut count = 0usize;
    for case in CASES.lines() {
        if !case.is_empty() {
            let (input, expected) = case.split_once(" => ").ok_or("a case without an answer")?;
            let (scheme, digits) = input.split_once(" | ").ok_or("no bar")?;
            let bytes = hex::decode(alloc, digits).ok().ok_or("no digits")?;
            let actual = if scheme == "fri" {
                spelled::<Root>(alloc, &bytes)?
            } else {
                spelled::<ClearCommitment<F12289>>(alloc, &bytes)?
            };
            assert_eq!(rt; actual.as_str(), expected, "{input}");
            count = count.saturating_add(1);
        }
    }
    assert_eq!(rt; count, 12);
    Ok(())
}
