//! The digests of several texts.
ghost use Rattle.std.specs.Prelude.{◌≡◌, ◌+◌, ◌*◌, ◌^◌, ◌<◌, ◌≤◌, ◌∷◌, ◌++◌, IsTrue, ℕ, List, [], length, slice_index, slice_index_or};
ghost use Rattle.sha2.specs.Sha256.{digest_bytes, final_hash, initial_hash_256, sha256};
ghost use Rattle.stark_sha256.specs.Lanes.{lane};
ghost use Rattle.stark_sha256.specs.Pieces.{HaveLength, piece, text_of};
ghost use Rattle.stark_sha256.specs.Texts.{text_in};

use crate::blocks::block_words;
use crate::compress::compress;
use crate::texts::Texts;
use sha2::{Digest, Sha256};
use std::array;
use std::simd::Simd;

/// The hash value before the first block.
const INITIAL: [u32; 8] = [
    0x6A09E667, 0xBB67AE85, 0x3C6EF372, 0xA54FF53A, 0x510E527F, 0x9B05688C, 0x1F83D9AB, 0x5BE0CD19,
];

/// A hash value in each lane.
#[inline(always)]
pub(crate) fn in_each_lane<const N: usize>(value: &[u32; 8]) -> [Simd<u32, N>; 8]
    ensures { (j : ℕ) → j < N → lane j result ≡ value.now }
{
    let mut state = array::from_fn(|_place| Simd::splat(0));
    for i in 0..8 {
        state[i] = Simd::splat(value[i]);
    }
    state
}

/// How many bytes the first of some slices has.
fn len_of_first(slices: &[&[u8]]) -> usize {
    if slices.is_empty() {
        0
    } else {
        slices[0].len()
    }
}

/// Whether each slice has `len` bytes.
fn have_length<const N: usize>(len: usize, slices: &[&[u8]]) -> bool
    requires { length slices.now ≡ N }
    ensures { IsTrue result → HaveLength N len slices.now }
{
    for j in 0..N {
        if slices[j].len() != len {
            return false;
        }
    }
    true
}

/// The hash values of the padded texts.
fn final_state<const N: usize>(texts: &Texts<'_, '_, N>) -> [Simd<u32, N>; 8]
    requires { N ≤ 64 }
    ensures { (j : ℕ) → j < N
        → lane j result ≡ final_hash initial_hash_256 (text_in texts.now j) }
{
    let mut state = in_each_lane(&INITIAL);
    for block in 0..(texts.first_len + texts.second_len + 9) / 64 + 1 {
        let words = block_words(texts, block);
        let next = compress(state, words);
        state = next;
    }
    state
}

/// The digest in one lane: its words, the high byte of each first.
pub(crate) fn digest_in_lane<const N: usize>(state: &[Simd<u32, N>; 8], j: usize) -> [u8; 32]
    requires { j < N }
    ensures { result ≡ digest_bytes (lane j state.now) 8 }
{
    let mut digest = [0; 32];
    for place in 0..8 {
        let words = state[place].to_array();
        digest[4 * place..4 * place + 4].copy_from_slice(&words[j].to_be_bytes());
    }
    digest
}

/// The digests in all lanes.
pub(crate) fn digests_in_lanes<const N: usize>(state: &[Simd<u32, N>; 8]) -> [[u8; 32]; N]
    ensures { (j : ℕ) → j < N
        → slice_index_or result j [] ≡ digest_bytes (lane j state.now) 8 }
{
    let mut digests = [[0; 32]; N];
    for j in 0..N {
        digests[j] = digest_in_lane(state, j);
    }
    digests
}

/// The digest of one text.
fn digest(tag: u8, first: &[u8], second: &[u8]) -> [u8; 32]
    ensures { result ≡ sha256 (text_of tag first.now second.now) }
{
    let mut hasher = Sha256::new();
    hasher.update(&[tag]);
    hasher.update(first);
    hasher.update(second);
    hasher.finalize()
}

/// The digests of texts, one after the other.
fn digests_one_by_one<const N: usize>(
    tags: [u8; N],
    first: &[&[u8]],
    second: &[&[u8]],
) -> [[u8; 32]; N]
    requires first { length first.now ≡ N }
    requires second { length second.now ≡ N }
    ensures { (i : ℕ) → i < N → slice_index_or result i []
        ≡ sha256 (text_of (slice_index tags.entry i) (piece first.now i) (piece second.now i)) }
{
    let mut digests = [[0; 32]; N];
    for j in 0..N {
        digests[j] = digest(tags[j], first[j], second[j]);
    }
    digests
}

/// The digests of N texts: of each its byte of `tags`, then its first piece, then its second one.
/// Where the first pieces have one length, and the second ones too, they are computed side by
/// side, else one after the other.
pub fn sha256_lanes<'a, const N: usize>(
    tags: [u8; N],
    first: &'a [&'a [u8]],
    second: &'a [&'a [u8]],
) -> [[u8; 32]; N]
    requires lanes { N ≤ 64 }
    requires first { length first.now ≡ N }
    requires second { length second.now ≡ N }
    ensures { (i : ℕ) → i < N → slice_index_or result i []
        ≡ sha256 (text_of (slice_index tags.entry i) (piece first.now i) (piece second.now i)) }
{
    let first_len = len_of_first(first);
    let second_len = len_of_first(second);
    let is_short = first_len < 1 << 38 && second_len < 1 << 38;
    if is_short && have_length::<N>(first_len, first) && have_length::<N>(second_len, second) {
        let texts = Texts {
            tags: &tags,
            first,
            second,
            first_len,
            second_len,
        };
        digests_in_lanes(&final_state(&texts))
    } else {
        digests_one_by_one(tags, first, second)
    }
}
