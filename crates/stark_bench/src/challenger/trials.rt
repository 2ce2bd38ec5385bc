//! Trials of witnesses, eight at a time.
ghost use Rattle.std.specs.Prelude.{◌≡◌, ◌+◌, ◌<◌, ◌^◌, ◌∷◌, ◌++◌, [], ℕ, slice_index, slice_index_or};
ghost use Rattle.sha2.specs.Sha256.{sha256};
ghost use Rattle.stark_sha256.specs.Pieces.{piece};
ghost use Rattle.stark_support.specs.Seed.{number};
ghost use Rattle.stark_bench.specs.Challenges.{IsFirstOfEight, after_trial, leading, passes_after};

use stark_sha256::sha256_eight;
use stark_support::checked_pow2;

/// The number that a state hands out: its first 8 bytes, the high one first.
pub fn leading(state: &[u8; 32]) -> u64
    ensures { result ≡ leading state.now }
{
    let mut bytes = [0; 8];
    bytes.copy_from_slice(&state[..8]);
    u64::from_be_bytes(bytes)
}

/// Whether the number that a state hands out is a multiple of `2^bits`, which is a word's.
pub fn passes_after(state: &[u8; 32], bits: usize) -> bool
    ensures { result ≡ passes_after state.now bits }
{
    match checked_pow2(bits) {
        Some(power) => leading(state) as usize % power == 0,
        None => false,
    }
}

/// What is absorbed of an element: the byte 0, which says so, and its number.
#[tactic(auto, unfolding(stark_support::specs::Seed::number))]
fn element_text(n: u64) -> [u8; 9]
    ensures { result ≡ 0 ∷ number n }
{
    let mut text = [0; 9];
    text[1..].copy_from_slice(&n.to_be_bytes());
    text
}

/// A state's bytes after the first.
fn rest_of(state: &[u8; 32]) -> &[u8]
    ensures { state.now ≡ slice_index state.now 0 ∷ result.now }
{
    &state[1..]
}

/// The states after eight states and a text each.
fn absorbed_by(states: &[[u8; 32]; 8], texts: &[&[u8]; 8]) -> [[u8; 32]; 8]
    ensures { (j : ℕ) → j < 8 → slice_index_or result j []
        ≡ sha256 (slice_index_or states.now j [] ++ piece texts.now j) }
{
    let [a, b, c, d, e, f, g, h] = states;
    sha256_eight(
        [a[0], b[0], c[0], d[0], e[0], f[0], g[0], h[0]],
        &[
            rest_of(a),
            rest_of(b),
            rest_of(c),
            rest_of(d),
            rest_of(e),
            rest_of(f),
            rest_of(g),
            rest_of(h),
        ],
        texts,
    )
}

/// The states after the elements of eight numbers, the first and those that follow it, and a draw
/// of bits after each.
fn after_trials(state: &[u8; 32], first: u64) -> [[u8; 32]; 8]
    requires { first + 8 < 2 ^ 64 }
    ensures { (j : ℕ) → j < 8
        → slice_index_or result j [] ≡ after_trial state.now (first + j) }
{
    let mut texts = [[0; 9]; 8];
    for j in 0..8 {
        texts[j] = element_text(first + j as u64);
    }
    let [a, b, c, d, e, f, g, h] = &texts;
    let elements = absorbed_by(&[*state; 8], &[a, b, c, d, e, f, g, h]);
    let bits: &[u8] = &[2];
    absorbed_by(&elements, &[bits; 8])
}

/// The first of eight numbers that passes; None where none does.
pub fn first_of_eight(state: &[u8; 32], bits: usize, first: u32) -> Option<u32>
    requires { first + 8 < 2 ^ 32 }
    ensures { IsFirstOfEight (λ n. passes_after (after_trial state.now n) bits) first result }
{
    let states = after_trials(state, u64::from(first));
    for lane in 0..8u32 {
        if passes_after(&states[lane as usize], bits) {
            return Some(first + lane);
        }
    }
    None
}
