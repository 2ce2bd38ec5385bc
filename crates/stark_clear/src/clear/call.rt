//! The calls of a scheme at which it may be made to stop.

/// A call of a scheme that may refuse.
#[derive(Clone, Copy, Debug, PartialEq, Eq)]
pub enum ClearCall {
    /// `commit`.
    Commit,
    /// `commit_preprocessing`.
    CommitPreprocessing,
    /// `commit_quotient`.
    CommitQuotient,
    /// `get_opt_randomization_poly_commitment`, which only a scheme with masks may refuse.
    Randomization,
    /// `open_with_preprocessing`.
    Open,
    /// `verify_with_preprocessing`.
    Verify,
}
