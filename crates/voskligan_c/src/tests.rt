//! Each call on a statement written by hand: a column that begins at 5 and goes up by one.

use crate::{
    voskligan_check, voskligan_key, voskligan_prove, voskligan_verify, voskligan_verify_at_least,
    voskligan_verify_with_key, voskligan_version,
};
use stark_answers::{ProofForm, TraceTask};
use stark_service::answer_trace;
use std::alloc::AllocError;
use std::test::Fail;

const STATEMENT: &[u8] =
    br#"{"air":{"width":1,"publics":1,"periodic":[],"constants":[1],"nodes":[["main",0],["first"],["public",0],["sub",0,2],["mul",1,3],["transition"],["next",0],["sub",6,0],["constant",0],["sub",7,8],["mul",5,9]],"constraints":[{"base":4},{"base":10}]},"public_values":[5]}"#;

const TRACE: &[u8] = b"[[5],[6],[7],[8]]";

const FALSE_TRACE: &[u8] = b"[[5],[6],[7],[9]]";

/// The statement over the field of 12289 and in the clear, where a proof is short.
const IN_THE_CLEAR: &[u8] =
    br#"{"config":{"field":"f12289","scheme":"clear"},"air":{"width":1,"publics":1,"periodic":[],"constants":[1],"nodes":[["main",0],["first"],["public",0],["sub",0,2],["mul",1,3],["transition"],["next",0],["sub",6,0],["constant",0],["sub",7,8],["mul",5,9]],"constraints":[{"base":4},{"base":10}]},"public_values":[5]}"#;

// The proof of `[[5],[6]]` for it as bytes, which a script outside this repository wrote from the
// proof's JSON.
const PROOF_BYTES: &[u8] =
    b"voskligan proof 2\0\0\0\0\0\0\0\x01\0\0\0\0\0\0\0\x01\0\0\0\0\0\0\0\x02\0\0\x18\x06\0\0\x18\0\0\0\0\0\0\0\0\x01\0\0\0\0\0\0\0\x04\0\0\0\0\0\0\0\x02\0\0\x12z\0\0\0\0\0\0\0\0\0\0\0\x02\0\0\"\x9a\0\0\0\0\0\0\0\0\0\0\0\x02\0\0)\xef\0\0\0\0\0\0\0\0\0\0\0\x02\0\0\x0e\xe8\0\0\0\0\0\0\0\0\0\0\0\0\x01\0\0\x18\xcd\0\0'\xcc\0\0\x1e_\0\0\x03\x8a\x01\0\0\0\0\0\0\0\x01\0\0\x17?\0\0\x085\0\0\x11\xa2\0\0,w\0\0\0\0\0\0\0\0\x01\0\0\0\0\0\0\0\x04\0\0\x12z\0\0\0\0\0\0\0\0\0\0\0\0\0\0\"\x9a\0\0\0\0\0\0\0\0\0\0\0\0\0\0)\xef\0\0\0\0\0\0\0\0\0\0\0\0\0\0\x0e\xe8\0\0\0\0\0\0\0\0\0\0\0\0\0\0\0\0\0\0\0\0\0\x01\0\0\0\0\0\0\0\0";

#[test]
fn a_proof_is_made_and_accepted(rt: HostRuntime) -> Result<(), AllocError> {
    let mut proof = Vec::from_elem(rt.alloc(), 0u8, 262144)?;
    let mut message = [7u8; 32];
    let mut needed = 0;
    let made = voskligan_prove(
        rt.alloc(),
        STATEMENT,
        TRACE,
        proof.as_mut_slice(),
        &mut needed,
        &mut message,
    );
    assert_eq!(rt; made, 0);
    assert!(rt; message.starts_with(b"proved\n\0\x07"));
    let proof = proof.get(..needed).unwrap_or(b"");
    assert!(rt; proof.starts_with(b"{") && proof.ends_with(b"}\n"));
    let verified = voskligan_verify(rt.alloc(), STATEMENT, proof, &mut message);
    assert_eq!(rt; verified, 0);
    assert!(rt; message.starts_with(b"accepted\n\0"));
    Ok(())
}

#[test]
fn a_trace_is_checked(rt: HostRuntime) {
    let mut message = [7u8; 32];
    let satisfied = voskligan_check(rt.alloc(), STATEMENT, TRACE, &mut message);
    assert_eq!(rt; satisfied, 0);
    assert!(rt; message.starts_with(b"satisfied\n\0"));
    let broken = voskligan_check(rt.alloc(), STATEMENT, FALSE_TRACE, &mut message);
    assert_eq!(rt; broken, 1);
    assert!(rt; message.starts_with(b"row 2: constraint 1 is "));
}

#[test]
fn small_buffers_are_not_passed(rt: HostRuntime) {
    let mut proof = [7u8; 8];
    let mut message = [7u8; 4];
    let mut needed = 0;
    let made = voskligan_prove(
        rt.alloc(),
        STATEMENT,
        TRACE,
        &mut proof,
        &mut needed,
        &mut message,
    );
    assert_eq!(rt; made, 3);
    assert_eq!(rt; message, *b"no \0");
    let unread = voskligan_verify(rt.alloc(), STATEMENT, b"{", &mut message);
    assert_eq!(rt; unread, 2);
    assert_eq!(rt; message, *b"bad\0");
    let empty = voskligan_verify(rt.alloc(), b"", b"", &mut []);
    assert_eq!(rt; empty, 2);
}

#[test]
fn the_version_is_stated(rt: HostRuntime) {
    let mut text = [7u8; 8];
    assert_eq!(rt; voskligan_version(&mut text), 5);
    assert_eq!(rt; text, *b"0.1.0\0\x07\x07");
}

#[test]
fn a_proof_as_bytes_is_accepted(rt: HostRuntime) {
    let asked = TraceTask::Prove(ProofForm::Bytes);
    let report = answer_trace(rt.alloc(), asked, IN_THE_CLEAR, b"[[5],[6]]");
    assert!(rt; report.answer.written() == PROOF_BYTES);
    let mut message = [7u8; 32];
    let verified = voskligan_verify(rt.alloc(), IN_THE_CLEAR, PROOF_BYTES, &mut message);
    assert_eq!(rt; verified, 0);
    assert!(rt; message.starts_with(b"accepted\n\0"));
}

#[test]
fn a_proof_as_bytes_is_whole(rt: HostRuntime) -> Result<(), Fail> {
    let mut message = [7u8; 64];
    let (_, cut) = PROOF_BYTES.split_last().ok_or("no bytes")?;
    let unread = voskligan_verify(rt.alloc(), IN_THE_CLEAR, cut, &mut message);
    assert_eq!(rt; unread, 2);
    assert!(rt; message.starts_with(b"bad input\nthe proof: the bytes end too early\n\0"));
    let mut longer = Vec::from_slice(rt.alloc(), PROOF_BYTES)?;
    longer.push(0)?;
    let unread = voskligan_verify(rt.alloc(), IN_THE_CLEAR, &longer, &mut message);
    assert_eq!(rt; unread, 2);
    assert!(rt; message.starts_with(b"bad input\nthe proof: there are bytes after the end\n\0"));
    // Another version is neither bytes nor JSON.
    let unread = voskligan_verify(rt.alloc(), IN_THE_CLEAR, b"voskligan proof 2", &mut message);
    assert_eq!(rt; unread, 2);
    assert!(rt; message.starts_with(b"bad input\nthe proof: "));
    Ok(())
}

#[test]
fn a_key_is_made_and_taken(rt: HostRuntime) {
    let mut key = [7u8; 64];
    let mut message = [7u8; 64];
    let mut needed = 0;
    let made = voskligan_key(
        rt.alloc(),
        IN_THE_CLEAR,
        &mut key,
        &mut needed,
        &mut message,
    );
    assert_eq!(rt; made, 0);
    // The text, the digest, and that there are no columns.
    assert_eq!(rt; needed, 48);
    assert!(rt; key.starts_with(b"voskligan key 2"));
    assert!(rt; message.starts_with(b"made\n\0"));
    let (key, _) = key.split_at(48);
    let judged = voskligan_verify_with_key(
        rt.alloc(),
        IN_THE_CLEAR,
        key,
        PROOF_BYTES,
        &mut message,
    );
    assert_eq!(rt; judged, 0);
    assert!(rt; message.starts_with(b"accepted\n\0"));
    let judged = voskligan_verify_with_key(rt.alloc(), STATEMENT, key, PROOF_BYTES, &mut message);
    assert_eq!(rt; judged, 2);
    assert!(rt; message.starts_with(b"bad input\nthe key: it was made for another statement\n\0"));
}

#[test]
fn a_key_without_room_is_not_placed(rt: HostRuntime) {
    let mut key = [7u8; 47];
    let mut message = [7u8; 16];
    let mut needed = 0;
    let made = voskligan_key(
        rt.alloc(),
        IN_THE_CLEAR,
        &mut key,
        &mut needed,
        &mut message,
    );
    assert_eq!(rt; made, 3);
    assert_eq!(rt; needed, 48);
    assert_eq!(rt; key, [7u8; 47]);
    assert!(rt; message.starts_with(b"no room\n\0"));
    let made = voskligan_key(rt.alloc(), b"{", &mut key, &mut needed, &mut message);
    assert_eq!(rt; made, 2);
    assert_eq!(rt; needed, 0);
}

// The proof's height is 2^1, where at most one alpha and four zetas of some 2^54 are bad.
#[test]
fn a_floor_lets_nothing_below_it_be_judged(rt: HostRuntime) {
    let mut message = [7u8; 64];
    let enough = voskligan_verify_at_least(rt.alloc(), 51, IN_THE_CLEAR, PROOF_BYTES, &mut message);
    assert_eq!(rt; enough, 0);
    assert!(rt; message.starts_with(b"accepted\n\0"));
    let below = voskligan_verify_at_least(rt.alloc(), 52, IN_THE_CLEAR, PROOF_BYTES, &mut message);
    assert_eq!(rt; below, 4);
    let said = b"not judged: worth 51 proved bits at this height\n\0";
    assert!(rt; message.starts_with(said));
}
