//! Eight texts or pairs of digests, hashed as many at a time as suits the processor.
ghost use Rattle.std.specs.Prelude.{◌≡◌, ◌+◌, ◌*◌, ◌<◌, ◌≤◌, ℕ, [], length, slice_index, slice_index_or};
ghost use Rattle.sha2.specs.Sha256.{sha256};
ghost use Rattle.stark_sha256.specs.Pairs.{pair_digest};
ghost use Rattle.stark_sha256.specs.Pieces.{piece, text_of};

use crate::digest::sha256_lanes;
use crate::pairs::compress_pairs;

/// How many texts are hashed side by side: 4 suit any x86-64; `scripts/install` sets 8 for AVX2.
pub const WIDTH: usize = 4;

/// Four digests and four more.
fn joined(low: &[[u8; 32]; 4], high: &[[u8; 32]; 4]) -> [[u8; 32]; 8]
    ensures low { (i : ℕ) → i < 4
        → slice_index_or result i [] ≡ slice_index_or low.now i [] }
    ensures high { (i : ℕ) → i < 4
        → slice_index_or result (4 + i) [] ≡ slice_index_or high.now i [] }
{
    [
        low[0], low[1], low[2], low[3], high[0], high[1], high[2], high[3],
    ]
}

/// The digests of eight texts, all side by side or four and then four.
fn digests_of_eight(
    is_wide: bool,
    tags: [u8; 8],
    first: &[&[u8]],
    second: &[&[u8]],
) -> [[u8; 32]; 8]
    requires first { length first.now ≡ 8 }
    requires second { length second.now ≡ 8 }
    ensures { (i : ℕ) → i < 8 → slice_index_or result i []
        ≡ sha256 (text_of (slice_index tags i) (piece first.now i) (piece second.now i)) }
{
    if is_wide {
        return sha256_lanes(tags, first, second);
    }
    let [a, b, c, d, e, f, g, h] = tags;
    let low = sha256_lanes([a, b, c, d], &first[..4], &second[..4]);
    let high = sha256_lanes([e, f, g, h], &first[4..], &second[4..]);
    joined(&low, &high)
}

/// The digests of eight pairs, all side by side or four and then four.
fn digests_of_eight_pairs(is_wide: bool, pairs: &[[u8; 32]]) -> [[u8; 32]; 8]
    requires { 16 ≤ length pairs.now }
    ensures { (i : ℕ) → i < 8
        → slice_index_or result i [] ≡ pair_digest (slice_index_or pairs.now (2 * i) [])
        (slice_index_or pairs.now (2 * i + 1) []) }
{
    if is_wide {
        return compress_pairs(pairs);
    }
    joined(&compress_pairs(pairs), &compress_pairs(&pairs[8..]))
}

/// The digests of eight texts, as `sha256_lanes` computes them, `WIDTH` at a time.
pub fn sha256_eight(tags: [u8; 8], first: &[&[u8]], second: &[&[u8]]) -> [[u8; 32]; 8]
    requires first { length first.now ≡ 8 }
    requires second { length second.now ≡ 8 }
    ensures { (i : ℕ) → i < 8 → slice_index_or result i []
        ≡ sha256 (text_of (slice_index tags i) (piece first.now i) (piece second.now i)) }
{
    digests_of_eight(WIDTH == 8, tags, first, second)
}

/// The digests of eight pairs of digests, as `compress_pairs` computes them, `WIDTH` at a time.
pub fn compress_eight(pairs: &[[u8; 32]]) -> [[u8; 32]; 8]
    requires { 16 ≤ length pairs.now }
    ensures { (i : ℕ) → i < 8
        → slice_index_or result i [] ≡ pair_digest (slice_index_or pairs.now (2 * i) [])
        (slice_index_or pairs.now (2 * i + 1) []) }
{
    digests_of_eight_pairs(WIDTH == 8, pairs)
}
