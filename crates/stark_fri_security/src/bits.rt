//! Bits of security, by a conjecture.
ghost use Rattle.stark_fri_security.specs.ConjecturedBits.{IsConjectured};

use stark_security::StarkSecurityParams;
use stark_support::log2_ceil_usize;

/// The conjectured bits of security of proofs for an AIR over traces of `2^log_height` rows: one
/// less than the least of
///
/// - `fri_log_blowup * fri_num_queries + fri_query_proof_of_work_bits`: each query lets a word that
///   is far from the code by with a chance of the rate, and the work is done before they are drawn;
/// - `num_modulus_bits - log_height - fri_log_blowup - log2(num_batched_functions)`: a challenge
///   that batches or folds is bad for at most as many values as there are places and batched
///   functions;
/// - `num_modulus_bits - log_height - log2(max(air_max_constraint_degree, num_quotient_chunks)) -
///   1` and `num_modulus_bits - log2(num_constraints)`: the bad zetas and alphas, which
///   `ood_error_bound` counts;
/// - `collision_resistance`;
///
/// logarithms rounded up, and nothing below zero. This is the conjecture of ethSTARK (StarkWare,
/// "ethSTARK Documentation", ePrint 2021/582, section 5.10) with the counts of challenges beside
/// it. **No theorem here says it**: what it says of far words is unproved in general, and
/// works of 2025 (ePrint 2025/2010, 2025/2046) show it too hopeful where words are about as far as
/// words can be. Leave a margin.
pub fn conjectured_security_bits(params: &StarkSecurityParams, log_height: usize) -> usize
    ensures { IsConjectured params.now log_height result }
{
    let strength = params.collision_resistance;
    let queries = params
        .fri_log_blowup
        .saturating_mul(params.fri_num_queries)
        .saturating_add(params.fri_query_proof_of_work_bits);
    let log_batch = log2_ceil_usize(params.num_batched_functions.max(1));
    let degree = params
        .air_max_constraint_degree
        .max(params.num_quotient_chunks);
    let log_degree = log2_ceil_usize(degree.max(1));
    let log_constraints = log2_ceil_usize(params.num_constraints.max(1));
    let bits = params.num_modulus_bits;
    let left = bits.saturating_sub(log_height);
    let batch = left
        .saturating_sub(params.fri_log_blowup)
        .saturating_sub(log_batch);
    let point = left.saturating_sub(log_degree).saturating_sub(1);
    let constraints = bits.saturating_sub(log_constraints);
    let least = queries.min(batch).min(point).min(constraints);
    least.min(strength).saturating_sub(1)
}
