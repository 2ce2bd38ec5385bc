//! Pairs of digests, compressed.
ghost use Rattle.std.specs.Prelude.{◌≡◌, ◌+◌, ◌*◌, ◌<◌, ◌≤◌, ℕ, [], length, slice_index, slice_index_or};
ghost use Rattle.sha2.specs.Sha256.{word_at};
ghost use Rattle.stark_sha256.specs.Lanes.{AreWords, lane};
ghost use Rattle.stark_sha256.specs.Pairs.{pair_block, pair_digest, pair_start};

use crate::blocks::word_in;
use crate::compress::compress;
use crate::digest::{digests_in_lanes, in_each_lane};
use crate::words::zeros;
use std::simd::Simd;

/// The hash value before a pair.
const PAIR_START: [u32; 8] = [
    0xDC2227CC, 0x1BDE2FE4, 0xACE08707, 0x6153B1DB, 0xE865567D, 0xE49A000B, 0x6D03969B, 0xC3605B12,
];

/// The words at a place of every second digest, from digest `from` on.
#[inline(always)]
fn words_of_digests<const N: usize>(digests: &[[u8; 32]], from: usize, place: usize) -> Simd<u32, N>
    requires digests { 2 * N ≤ length digests.now }
    requires from { from < 2 }
    requires place { place < 8 }
    ensures words { (j : ℕ) → j < N → slice_index result j
        ≡ word_at (slice_index_or digests.now (2 * j + from) []) (4 * place) }
    ensures sized { (j : ℕ) → j < N
        → length (slice_index_or digests.now (2 * j + from) []) ≡ 32 }
{
    let mut words = [0; N];
    for j in 0..N {
        words[j] = word_in(&digests[2 * j + from], 4 * place);
    }
    Simd::from_array(words)
}

/// The words of the blocks that N pairs are.
fn words_of_pairs<const N: usize>(pairs: &[[u8; 32]]) -> [Simd<u32, N>; 16]
    requires { 2 * N ≤ length pairs.now }
    ensures { (j : ℕ) → j < N → AreWords (pair_block pairs.now j) (lane j result) }
{
    let mut words = zeros();
    for place in 0..8 {
        words[place] = words_of_digests(pairs, 0, place);
        words[8 + place] = words_of_digests(pairs, 1, place);
    }
    words
}

/// The digests of N pairs of digests, which stand one after the other: of each the 64 bytes are one
/// block, compressed by SHA-256's function (FIPS 180-4, 6.2.2) from a starting value of the trees'
/// own. It is one compression, where SHA-256 of the 64 bytes is two.
pub fn compress_pairs<const N: usize>(pairs: &[[u8; 32]]) -> [[u8; 32]; N]
    requires lanes { N ≤ 64 }
    requires pairs { 2 * N ≤ length pairs.now }
    ensures { (j : ℕ) → j < N
        → slice_index_or result j [] ≡ pair_digest (slice_index_or pairs.now (2 * j) [])
        (slice_index_or pairs.now (2 * j + 1) []) }
{
    digests_in_lanes(&compress(in_each_lane(&PAIR_START), words_of_pairs(pairs)))
}

/// The digest of one pair of digests, as `compress_pairs` computes it.
pub fn compress_pair(left: &[u8; 32], right: &[u8; 32]) -> [u8; 32]
    ensures { result ≡ pair_digest left.now right.now }
{
    compress_pairs::<1>(&[*left, *right])[0]
}
