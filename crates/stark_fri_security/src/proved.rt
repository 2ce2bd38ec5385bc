//! Bits of security that are proved, by count.
ghost use Rattle.std.specs.Prelude.{◌≤◌, ◌<◌, ◌+◌, ◌-◌, ◌*◌, ◌/◌, ◌^◌, ◌≡◌, min};
ghost use Rattle.stark_support.specs.Logarithm.{IsCeilingOfLog};
ghost use Rattle.stark_fri_security.specs.ProvedBits.{AreBitsWithin, AreProvedBits, BitsAreProved, passing_parts, rounded_up};

use stark_security::StarkSecurityParams;

/// The logarithm of the number of parts that all is counted in, where the field has as many bits.
const WHOLE_BITS: usize = 110;

/// The greatest number of a field's bits that counts.
const FIELD_BITS: usize = 127;

/// The greatest logarithm of a blow-up that counts where it is asked how many places pass.
const LOG_BLOWUP: usize = 14;

/// The greatest number of queries that counts.
const QUERIES: usize = 4096;

/// The logarithm of a number of parts, rounded up.
pub(crate) fn log2_ceil(parts: u128) -> usize
    requires { 1 ≤ parts }
    ensures { IsCeilingOfLog result parts }
{
    if parts == 1 {
        0
    } else {
        (parts - 1).ilog2() as usize + 1
    }
}

/// `2^bits`, which fits.
fn two_power(bits: usize) -> u128
    requires { bits ≤ 127 }
    ensures power { result ≡ 2 ^ bits }
    ensures some { 1 ≤ result }
    ensures within { result ≤ 2 ^ 127 }
{
    1 << bits
}

/// A number of parts in a greater unit, rounded up.
fn rounded_up(parts: u128, unit: u128) -> u128
    requires some { 1 ≤ unit }
    requires small { unit ≤ 2 ^ 127 }
    requires few { parts ≤ 2 ^ 127 }
    ensures parts { result ≡ rounded_up parts unit }
    ensures within { result ≤ parts }
    ensures some { 1 ≤ parts → 1 ≤ result }
{
    (parts + (unit - 1)) / unit
}

/// Of `whole` parts of all lists of places, those that pass by chance where `passing` of `places`
/// places do: rounded up place by place.
fn passing_parts(whole: u128, passing: u128, places: u128, num_queries: usize) -> u128
    requires any { 1 ≤ whole }
    requires whole { whole ≤ 2 ^ 110 }
    requires some { 1 ≤ passing }
    requires within { passing ≤ places }
    requires few { places ≤ 2 ^ 16 }
    ensures parts { result ≡ passing_parts whole passing places num_queries }
    ensures some { 1 ≤ result }
    ensures within { result ≤ whole }
{
    let mut parts = whole;
    for _query in 0..num_queries {
        parts = rounded_up(parts * passing, places);
    }
    parts
}

/// The bits that are left where `bad` elements are bad for a draw, and `passing` of `places`
/// places pass by chance.
fn bits_within(params: &StarkSecurityParams, bad: u128, passing: u128, places: u128) -> usize
    requires some { 1 ≤ passing }
    requires within { passing ≤ places }
    requires few { places ≤ 2 ^ 16 }
    ensures { AreBitsWithin params.now bad passing places result }
{
    let field_bits = params.num_modulus_bits.min(FIELD_BITS);
    let whole_bits = params.num_modulus_bits.min(WHOLE_BITS);
    let bad = bad.min(two_power(field_bits));
    let draws = rounded_up(bad, two_power(field_bits - whole_bits));
    let num_queries = params.fri_num_queries.min(QUERIES);
    let lists = passing_parts(two_power(whole_bits), passing, places, num_queries);
    let work = two_power(params.fri_query_proof_of_work_bits.min(FIELD_BITS));
    let log_parts = log2_ceil(draws + rounded_up(lists, work));
    whole_bits.saturating_sub(log_parts)
}

/// How many of FRI's own draws are bad within half of the distance, with `claims` claims; as many
/// as a word holds, where they are more.
fn draws_in_half(claims: u128, rows: u128, places: u128) -> u128
    requires within { rows ≤ places }
    requires few { places ≤ 2 ^ 126 }
    ensures { result ≡ min (claims * (places + (places - rows - 1) / 2)) (2 ^ 128 - 1) }
{
    let radius = (places - rows).saturating_sub(1) / 2;
    claims.saturating_mul(places + radius)
}

/// How many of them are bad within a third of the distance.
fn draws_in_third(claims: u128, rows: u128, places: u128, log_height: usize) -> u128
    requires within { rows ≤ places }
    requires few { places ≤ 2 ^ 126 }
    ensures { result ≡ min ((claims - 1) * (places + (places - rows) / 3)
        + ((places - rows) / 3 + log_height)) (2 ^ 128 - 1) }
{
    let radius = (places - rows) / 3;
    let alphas = claims.saturating_sub(1).saturating_mul(places + radius);
    alphas.saturating_add(radius + log_height as u128)
}

/// The proved bits of security of proofs over traces of `2^log_height` rows, where at most
/// `bad_alphas` alphas and `bad_zetas` zetas of the STARK are bad for a trace that breaks the AIR:
/// a proof of it is accepted with a chance of at most one in `2^bits`, where draws are even.
///
/// It is the greatest number for which what is bad adds up to at most so small a part of all:
///
/// - the alphas and zetas, and of FRI's own draws at most `c (n + e)` of `c` claims over `n` places
///   within a radius of `e` places, each one of `2^num_modulus_bits` elements;
/// - of lists of `fri_num_queries` places those among `n - e - 1` places, by the work before them.
///
/// The radius is half of the code's distance or a third of it, whichever leaves more. Within half a
/// query that passes by chance has `(2^b + 1) / 2^(b + 1)` of all places, with a blow-up of `2^b`,
/// within a third `(2^(b + 1) + 1) / (3 * 2^b)`, which costs 0.6 times as many queries again; the
/// draws gain less than half a bit by it, from five claims on, since a beta is then bad for at most
/// `e + 1` values, and alpha still for `(c - 1) (n + e)`.
///
/// What is counted is rounded up to parts of 2^110, so that at most 110 bits are answered, and none
/// where there are 2^127 places and more. A blow-up above 2^14 counts as 2^14 where it is asked how
/// many places pass, more than 4096 queries as 4096, a field of more than 2^127 elements as one of
/// 2^127. What the bits mean is the law `proved_bits_hold`. That SHA-256 draws evenly and that no
/// collision of the trees' hash is found is no part of it.
pub fn proved_security_bits(
    params: &StarkSecurityParams,
    bad_alphas: usize,
    bad_zetas: usize,
    log_height: usize,
) -> usize
    ensures { AreProvedBits params.now bad_alphas bad_zetas log_height result }
{
    let log_size = log_height.saturating_add(params.fri_log_blowup);
    if log_size > 126 {
        return 0;
    }
    let (rows, places) = (two_power(log_height), two_power(log_size));
    let claims = params.num_batched_functions as u128;
    let own = bad_alphas as u128 + bad_zetas as u128;
    let blowup = two_power(params.fri_log_blowup.min(LOG_BLOWUP));
    let in_half = own.saturating_add(draws_in_half(claims, rows, places));
    let in_third = own.saturating_add(draws_in_third(claims, rows, places, log_height));
    let half = bits_within(params, in_half, blowup + 1, 2 * blowup);
    let third = bits_within(params, in_third, 2 * blowup + 1, 3 * blowup);
    half.max(third)
}

/// A law, with no code: `2^bits` times the number of bad lists of draws is at most the number of
/// all lists, as products of the counts of the soundness of the STARK and of FRI.
pub fn proved_bits_hold()
    ensures { BitsAreProved }
{}
