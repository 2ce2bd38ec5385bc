//! Whole-number logarithms and powers of two.
ghost use Rattle.std.specs.Prelude.{◌≡◌, ◌+◌, ◌^◌, ◌<◌, ◌≤◌, None, Some};
ghost use Rattle.std.specs.Int.{IsPowerOfTwo};
ghost use Rattle.stark_support.specs.Logarithm.{IsCeilingOfLog};

/// The least `k` with `n` at most `2^k`.
pub fn log2_ceil_usize(n: usize) -> usize
    requires { 1 ≤ n }
    ensures { IsCeilingOfLog result n }
{
    if n == 1 {
        0
    } else {
        (n - 1).ilog2() as usize + 1
    }
}

/// The exponent of a power of two.
pub fn log2_strict_usize(n: usize) -> usize
    requires { IsPowerOfTwo n }
    ensures { 2 ^ result ≡ n }
{
    n.ilog2() as usize
}

/// `2^bits`, and None where that is no `usize`: from 64 on.
pub fn checked_pow2(bits: usize) -> Option<usize>
    ensures fits { bits < 64 → result ≡ Some (2 ^ bits) }
    ensures other { 64 ≤ bits → result ≡ None }
{
    if bits < 64 { Some(1 << bits) } else { None }
}

/// The sum of two logarithms, and its power of two; None where the sum is 64 or more.
pub fn checked_log_size_sum(a: usize, b: usize) -> Option<(usize, usize)>
    ensures fits { a + b < 64 → result ≡ Some (a + b, 2 ^ (a + b)) }
    ensures other { 64 ≤ a + b → result ≡ None }
{
    let sum = a.checked_add(b)?;
    let size = checked_pow2(sum)?;
    Some((sum, size))
}
