//! The words of the blocks of several texts, side by side.
ghost use Rattle.std.specs.Prelude.{◌≡◌, ◌+◌, ◌*◌, ◌<◌, ◌≤◌, ℕ, length, slice_index};
ghost use Rattle.sha2.specs.Sha256.{word_at};
ghost use Rattle.stark_sha256.specs.Lanes.{AreWords, lane, word_of_column};
ghost use Rattle.stark_sha256.specs.Pieces.{padded_len, piece};
ghost use Rattle.stark_sha256.specs.Texts.{block_in, len_of, padded_in};

use crate::padding::{padding_byte, padding_word};
use crate::texts::Texts;
use crate::words::zeros;
use std::simd::Simd;

/// The byte at a place of the padded text in lane `j`.
fn byte_at<const N: usize>(texts: &Texts<'_, '_, N>, j: usize, at: usize) -> u8
    requires lane { j < N }
    requires within { at < padded_len (len_of texts.now) }
    ensures { result ≡ slice_index (padded_in texts.now j) at }
{
    let second_at = 1 + texts.first_len;
    let len = 1 + (texts.first_len + texts.second_len);
    if at == 0 {
        return texts.tags[j];
    }
    if at < second_at {
        return texts.first[j][at - 1];
    }
    if at < len {
        return texts.second[j][at - second_at];
    }
    padding_byte(len, at - len)
}

/// The word at a place of the padded text in lane `j`, byte by byte.
fn word_by_bytes<const N: usize>(texts: &Texts<'_, '_, N>, j: usize, at: usize) -> u32
    requires lane { j < N }
    requires within { at + 4 ≤ padded_len (len_of texts.now) }
    ensures { result ≡ word_at (padded_in texts.now j) at }
{
    u32::from_be_bytes([
        byte_at(texts, j, at),
        byte_at(texts, j, at + 1),
        byte_at(texts, j, at + 2),
        byte_at(texts, j, at + 3),
    ])
}

/// The words at a place of the padded texts, byte by byte.
fn words_by_bytes<const N: usize>(texts: &Texts<'_, '_, N>, at: usize) -> Simd<u32, N>
    requires { at + 4 ≤ padded_len (len_of texts.now) }
    ensures { (j : ℕ) → j < N → slice_index result j ≡ word_at (padded_in texts.now j) at }
{
    let mut words = [0; N];
    for j in 0..N {
        words[j] = word_by_bytes(texts, j, at);
    }
    Simd::from_array(words)
}

/// The word at a place of some bytes.
#[inline(always)]
pub(crate) fn word_in(bytes: &[u8], at: usize) -> u32
    requires { at + 4 ≤ length bytes.now }
    ensures { result ≡ word_at bytes.now at }
{
    let mut word = [0; 4];
    word.copy_from_slice(&bytes[at..at + 4]);
    u32::from_be_bytes(word)
}

/// The words at a place of several slices.
#[inline(always)]
fn words_in<const N: usize>(slices: &[&[u8]], at: usize) -> Simd<u32, N>
    requires slices { length slices.now ≡ N }
    requires within { (j : ℕ) → j < N → at + 4 ≤ length (piece slices.now j) }
    ensures { (j : ℕ) → j < N → slice_index result j ≡ word_at (piece slices.now j) at }
{
    let mut words = [0; N];
    for j in 0..N {
        words[j] = word_in(slices[j], at);
    }
    Simd::from_array(words)
}

/// The words at a place of the padded texts. Most lie in one piece, or in the padding.
#[inline(always)]
fn words_at<const N: usize>(texts: &Texts<'_, '_, N>, at: usize) -> Simd<u32, N>
    requires { at + 4 ≤ padded_len (len_of texts.now) }
    ensures { (j : ℕ) → j < N → slice_index result j ≡ word_at (padded_in texts.now j) at }
{
    let second_at = 1 + texts.first_len;
    let len = 1 + (texts.first_len + texts.second_len);
    if at >= len {
        return Simd::splat(padding_word(len, at - len));
    }
    if at >= second_at && at + 4 <= len {
        return words_in(texts.second, at - second_at);
    }
    if at >= 1 && at + 4 <= second_at {
        return words_in(texts.first, at - 1);
    }
    words_by_bytes(texts, at)
}

/// The words of a block of the padded texts.
#[inline(always)]
pub(crate) fn block_words<const N: usize>(
    texts: &Texts<'_, '_, N>,
    block: usize,
) -> [Simd<u32, N>; 16]
    requires { 64 * (block + 1) ≤ padded_len (len_of texts.now) }
    ensures { (j : ℕ) → j < N → AreWords (block_in texts.now block j) (lane j result) }
{
    let mut words = zeros();
    for place in 0..16 {
        words[place] = words_at(texts, 64 * block + 4 * place);
    }
    words
}
