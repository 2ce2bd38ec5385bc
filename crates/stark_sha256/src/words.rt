//! One word of each of several texts, side by side: the operations work lane by lane.
ghost use Rattle.std.specs.Prelude.{◌≡◌, ◌<◌, ◌/◌, ◌^◌, ℕ, bit_and, bit_xor, slice_index};
ghost use Rattle.std.specs.Int.{bit_not, rotate_right, w32};
ghost use Rattle.sha2.specs.Sha256.{add32, big_sigma0, big_sigma1, ch, maj, small_sigma0, small_sigma1};

use std::array;
use std::simd::Simd;

/// A block of zeros in each lane, whose words are set place by place.
#[inline(always)]
pub(crate) fn zeros<const N: usize>() -> [Simd<u32, N>; 16] {
    array::from_fn(|_place| Simd::splat(0))
}

/// The sums, with what carries out of a word dropped.
#[inline(always)]
pub(crate) fn add<const N: usize>(x: Simd<u32, N>, y: Simd<u32, N>) -> Simd<u32, N>
    ensures { (j : ℕ) → j < N
        → slice_index result j ≡ add32 (slice_index x.entry j) (slice_index y.entry j) }
{
    x + y
}

/// The bits that are set in one of the two.
#[inline(always)]
pub(crate) fn xor<const N: usize>(x: Simd<u32, N>, y: Simd<u32, N>) -> Simd<u32, N>
    ensures { (j : ℕ) → j < N
        → slice_index result j ≡ bit_xor (slice_index x.entry j) (slice_index y.entry j) }
{
    x ^ y
}

/// The bits that are set in both.
#[inline(always)]
pub(crate) fn and<const N: usize>(x: Simd<u32, N>, y: Simd<u32, N>) -> Simd<u32, N>
    ensures { (j : ℕ) → j < N
        → slice_index result j ≡ bit_and (slice_index x.entry j) (slice_index y.entry j) }
{
    x & y
}

/// The bits of `y` that aren't set in `x`.
#[inline(always)]
pub(crate) fn and_not<const N: usize>(x: Simd<u32, N>, y: Simd<u32, N>) -> Simd<u32, N>
    ensures { (j : ℕ) → j < N
        → slice_index result j
        ≡ bit_and (bit_not w32 (slice_index x.entry j)) (slice_index y.entry j) }
{
    !x & y
}

/// The words shifted right by `count` bits.
#[inline(always)]
pub(crate) fn shift_right<const N: usize>(x: Simd<u32, N>, count: u32) -> Simd<u32, N>
    requires { count < 32 }
    ensures { (j : ℕ) → j < N → slice_index result j ≡ slice_index x.entry j / 2 ^ count }
{
    x >> Simd::splat(count)
}

/// The words rotated right by `count` bits.
#[inline(always)]
pub(crate) fn rotate_right<const N: usize>(x: Simd<u32, N>, count: u32) -> Simd<u32, N>
    requires some { 0 < count }
    requires below { count < 32 }
    ensures { (j : ℕ) → j < N
        → slice_index result j ≡ rotate_right w32 (slice_index x.entry j) count }
{
    (x >> Simd::splat(count)) | (x << Simd::splat(32 - count))
}

#[inline(always)]
pub(crate) fn ch<const N: usize>(x: Simd<u32, N>, y: Simd<u32, N>, z: Simd<u32, N>) -> Simd<u32, N>
    ensures { (j : ℕ) → j < N
        → slice_index result j
        ≡ ch (slice_index x.entry j) (slice_index y.entry j) (slice_index z.entry j) }
{
    xor(and(x, y), and_not(x, z))
}

/// Of what the function is by the standard, two operations fewer; a round's `x ^ y` is the next
/// one's `y ^ z`.
#[inline(always)]
pub(crate) fn maj<const N: usize>(x: Simd<u32, N>, y: Simd<u32, N>, z: Simd<u32, N>) -> Simd<u32, N>
    ensures { (j : ℕ) → j < N
        → slice_index result j
        ≡ maj (slice_index x.entry j) (slice_index y.entry j) (slice_index z.entry j) }
{
    xor(and(xor(x, y), xor(y, z)), y)
}

#[inline(always)]
pub(crate) fn big_sigma0<const N: usize>(x: Simd<u32, N>) -> Simd<u32, N>
    ensures { (j : ℕ) → j < N → slice_index result j ≡ big_sigma0 (slice_index x.entry j) }
{
    let two = xor(rotate_right(x, 2), rotate_right(x, 13));
    xor(two, rotate_right(x, 22))
}

#[inline(always)]
pub(crate) fn big_sigma1<const N: usize>(x: Simd<u32, N>) -> Simd<u32, N>
    ensures { (j : ℕ) → j < N → slice_index result j ≡ big_sigma1 (slice_index x.entry j) }
{
    let two = xor(rotate_right(x, 6), rotate_right(x, 11));
    xor(two, rotate_right(x, 25))
}

#[inline(always)]
pub(crate) fn small_sigma0<const N: usize>(x: Simd<u32, N>) -> Simd<u32, N>
    ensures { (j : ℕ) → j < N → slice_index result j ≡ small_sigma0 (slice_index x.entry j) }
{
    let two = xor(rotate_right(x, 7), rotate_right(x, 18));
    xor(two, shift_right(x, 3))
}

#[inline(always)]
pub(crate) fn small_sigma1<const N: usize>(x: Simd<u32, N>) -> Simd<u32, N>
    ensures { (j : ℕ) → j < N → slice_index result j ≡ small_sigma1 (slice_index x.entry j) }
{
    let two = xor(rotate_right(x, 17), rotate_right(x, 19));
    xor(two, shift_right(x, 10))
}
