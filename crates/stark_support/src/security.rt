//! Numbers that a security report is computed from.

/// The parameters of a FRI low-degree test, as logarithms and counts.
#[derive(Clone, Copy, Debug)]
pub struct FriRegime {
    /// The logarithm of the blow-up: the rate is `2^-log_blowup`.
    pub log_blowup: usize,
    pub num_queries: usize,
    /// The logarithm of the length at which folding stops.
    pub log_final_poly_len: usize,
    /// The logarithm of the greatest arity that is folded by.
    pub max_log_arity: usize,
    /// The bits of work in each round of the commit phase.
    pub commit_pow_bits: usize,
    /// The bits of work before the queries are drawn.
    pub query_pow_bits: usize,
}

/// The bits of work that a protocol asks for outside its low-degree test, at each of three places.
#[derive(Clone, Copy, Debug, PartialEq, Eq)]
pub struct GrindingSites {
    /// Before the challenges of lookups.
    pub lookup_challenge: usize,
    /// Before the point out of the domain is drawn.
    pub out_of_domain: usize,
    /// Before the challenge that batches the openings.
    pub batch_combination: usize,
}

impl GrindingSites {
    /// No work anywhere.
    pub const NONE: GrindingSites = GrindingSites {
        lookup_challenge: 0,
        out_of_domain: 0,
        batch_combination: 0,
    };
}
