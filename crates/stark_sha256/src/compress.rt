//! The rounds of a block of each text.
ghost use Rattle.std.specs.Prelude.{◌≡◌, ◌+◌, ◌*◌, ◌<◌, ◌≤◌, ℕ, List, slice_index, slice_set};
ghost use Rattle.sha2.specs.Sha256.{IsRoundsAt, IsWindow, add_state, compress, round, rounds, schedule, window_word};
ghost use Rattle.stark_sha256.specs.Lanes.{AreWords, lane};
ghost use Rattle.stark_sha256.specs.Rounds.{AdvanceFirstRounds, AdvanceRounds};

use crate::words::{add, big_sigma0, big_sigma1, ch, maj, small_sigma0, small_sigma1};
use std::simd::Simd;

/// The word that is added in each round.
const CONSTANTS: [u32; 64] = [
    0x428A2F98, 0x71374491, 0xB5C0FBCF, 0xE9B5DBA5, 0x3956C25B, 0x59F111F1, 0x923F82A4, 0xAB1C5ED5,
    0xD807AA98, 0x12835B01, 0x243185BE, 0x550C7DC3, 0x72BE5D74, 0x80DEB1FE, 0x9BDC06A7, 0xC19BF174,
    0xE49B69C1, 0xEFBE4786, 0x0FC19DC6, 0x240CA1CC, 0x2DE92C6F, 0x4A7484AA, 0x5CB0A9DC, 0x76F988DA,
    0x983E5152, 0xA831C66D, 0xB00327C8, 0xBF597FC7, 0xC6E00BF3, 0xD5A79147, 0x06CA6351, 0x14292967,
    0x27B70A85, 0x2E1B2138, 0x4D2C6DFC, 0x53380D13, 0x650A7354, 0x766A0ABB, 0x81C2C92E, 0x92722C85,
    0xA2BFE8A1, 0xA81A664B, 0xC24B8B70, 0xC76C51A3, 0xD192E819, 0xD6990624, 0xF40E3585, 0x106AA070,
    0x19A4C116, 0x1E376C08, 0x2748774C, 0x34B0BCB5, 0x391C0CB3, 0x4ED8AA4A, 0x5B9CCA4F, 0x682E6FF3,
    0x748F82EE, 0x78A5636F, 0x84C87814, 0x8CC70208, 0x90BEFFFA, 0xA4506CEB, 0xBEF9A3F7, 0xC67178F2,
];

/// One round on the working variables, in each lane.
#[inline(always)]
fn round<const N: usize>(
    v: [Simd<u32, N>; 8],
    constant: u32,
    word: Simd<u32, N>,
) -> [Simd<u32, N>; 8]
    ensures { (j : ℕ) → j < N
        → lane j result ≡ round (lane j v.entry) constant (slice_index word.entry j) }
{
    let [a, b, c, d, e, f, g, h] = v;
    let chosen = add(add(h, big_sigma1(e)), ch(e, f, g));
    let temp1 = add(add(chosen, Simd::splat(constant)), word);
    let temp2 = add(big_sigma0(a), maj(a, b, c));
    let mut next = v;
    next[0] = add(temp1, temp2);
    next[1] = a;
    next[2] = b;
    next[3] = c;
    next[4] = add(d, temp1);
    next[5] = e;
    next[6] = f;
    next[7] = g;
    next
}

/// The next word of the schedule, which takes the place of the word 16 before it.
#[inline(always)]
fn next_word<const N: usize>(window: &mut [Simd<u32, N>; 16], place: usize) -> Simd<u32, N>
    requires { place < 16 }
    ensures value { (j : ℕ) → j < N → slice_index result j ≡ window_word (lane j window.old) place }
    ensures window { window.new ≡ slice_set window.old place result }
{
    let near = add(
        small_sigma1(window[(place + 14) % 16]),
        window[(place + 9) % 16],
    );
    let word = add(
        add(near, small_sigma0(window[(place + 1) % 16])),
        window[place],
    );
    window[place] = word;
    word
}

/// Round `16 * turn + place`, from the sixteenth on.
#[inline(always)]
fn step<const N: usize>(
    window: &mut [Simd<u32, N>; 16],
    v: [Simd<u32, N>; 8],
    turn: usize,
    place: usize,
) -> [Simd<u32, N>; 8]
    requires low { 1 ≤ turn }
    requires high { turn < 4 }
    requires place { place < 16 }
    ensures { AdvanceRounds N window.old v.entry (16 * turn + place) window.new result
        (16 * turn + place + 1) }
{
    let word = next_word(window, place);
    round(v, CONSTANTS[16 * turn + place], word)
}

/// One of the first sixteen rounds, whose words are the block's.
#[inline(always)]
fn first_step<const N: usize>(
    window: &[Simd<u32, N>; 16],
    v: [Simd<u32, N>; 8],
    place: usize,
) -> [Simd<u32, N>; 8]
    requires { place < 16 }
    ensures { AdvanceFirstRounds N window.now v.entry place result (place + 1) }
{
    round(v, CONSTANTS[place], window[place])
}

#[inline(always)]
fn four_steps<const N: usize>(
    window: &mut [Simd<u32, N>; 16],
    v: [Simd<u32, N>; 8],
    turn: usize,
    place: usize,
) -> [Simd<u32, N>; 8]
    requires low { 1 ≤ turn }
    requires high { turn < 4 }
    requires place { place + 4 ≤ 16 }
    ensures { AdvanceRounds N window.old v.entry (16 * turn + place) window.new result
        (16 * turn + place + 4) }
{
    let v = step(window, v, turn, place);
    let v = step(window, v, turn, place + 1);
    let v = step(window, v, turn, place + 2);
    step(window, v, turn, place + 3)
}

/// Sixteen rounds, from the sixteenth on, with each word's place in the window a constant.
#[inline(always)]
fn sixteen_steps<const N: usize>(
    window: &mut [Simd<u32, N>; 16],
    v: [Simd<u32, N>; 8],
    turn: usize,
) -> [Simd<u32, N>; 8]
    requires low { 1 ≤ turn }
    requires high { turn < 4 }
    ensures { AdvanceRounds N window.old v.entry (16 * turn) window.new result (16 * (turn + 1)) }
{
    let v = four_steps(window, v, turn, 0);
    let v = four_steps(window, v, turn, 4);
    let v = four_steps(window, v, turn, 8);
    four_steps(window, v, turn, 12)
}

#[inline(always)]
fn first_four_steps<const N: usize>(
    window: &[Simd<u32, N>; 16],
    v: [Simd<u32, N>; 8],
    place: usize,
) -> [Simd<u32, N>; 8]
    requires { place + 4 ≤ 16 }
    ensures { AdvanceFirstRounds N window.now v.entry place result (place + 4) }
{
    let v = first_step(window, v, place);
    let v = first_step(window, v, place + 1);
    let v = first_step(window, v, place + 2);
    first_step(window, v, place + 3)
}

/// The first sixteen rounds.
#[inline(always)]
fn first_sixteen_steps<const N: usize>(
    window: &[Simd<u32, N>; 16],
    state: [Simd<u32, N>; 8],
) -> [Simd<u32, N>; 8]
    ensures { (j : ℕ) → j < N → (b : List ℕ) → IsWindow (lane j window.now) (schedule b 48) 16
        → lane j result ≡ rounds (lane j state.entry) (schedule b 48) 16 }
{
    let v = first_four_steps(window, state, 0);
    let v = first_four_steps(window, v, 4);
    let v = first_four_steps(window, v, 8);
    first_four_steps(window, v, 12)
}

/// The hash values, with a word of each added to the working variables.
#[inline(always)]
fn add_state<const N: usize>(state: [Simd<u32, N>; 8], v: [Simd<u32, N>; 8]) -> [Simd<u32, N>; 8]
    ensures { (j : ℕ) → j < N → lane j result ≡ add_state (lane j state.entry) (lane j v.entry) }
{
    let mut sum = state;
    sum[0] = add(state[0], v[0]);
    sum[1] = add(state[1], v[1]);
    sum[2] = add(state[2], v[2]);
    sum[3] = add(state[3], v[3]);
    sum[4] = add(state[4], v[4]);
    sum[5] = add(state[5], v[5]);
    sum[6] = add(state[6], v[6]);
    sum[7] = add(state[7], v[7]);
    sum
}

/// The hash values after a block of each text, whose words are given.
pub(crate) fn compress<const N: usize>(
    state: [Simd<u32, N>; 8],
    words: [Simd<u32, N>; 16],
) -> [Simd<u32, N>; 8]
    ensures { (j : ℕ) → j < N → (b : List ℕ) → AreWords b (lane j words.entry)
        → lane j result ≡ compress (lane j state.entry) b }
{
    let mut window = words;
    let mut v = first_sixteen_steps(&window, state);
    for turn in 1..4 {
        let next = sixteen_steps(&mut window, v, turn);
        v = next;
    }
    add_state(state, v)
}
