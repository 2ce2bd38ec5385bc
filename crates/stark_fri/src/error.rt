//! Faults by name.

use thiserror::Error;

/// Why the verifier refuses claims: the first fault in this order. Rounds, folds and queries count
/// from 0.
#[derive(Debug, Drop, Error)]
pub enum FriError {
    /// No matrix is claimed.
    #[error("nothing is claimed")]
    NoClaims,
    /// The first round with a matrix of another height than the first matrix of all.
    #[error("round {round}: another height")]
    MixedHeights { round: usize },
    /// The field has no group for the extended rows.
    #[error("the height is too large")]
    TooHigh,
    /// The first round with a matrix of which two points have different numbers of values.
    #[error("round {round}: a point has another number of values")]
    Widths { round: usize },
    /// The first round with a point on the coset of the extended rows.
    #[error("round {round}: a point lies on the extension's coset")]
    PointOnCoset { round: usize },
    /// The proof has another number of folds than the parameters ask for.
    #[error("another number of folds")]
    CommitPhases,
    /// The final polynomial has another number of coefficients.
    #[error("another length of the final polynomial")]
    FinalPolynomial,
    /// The proof has another number of queries.
    #[error("another number of queries")]
    Queries,
    /// The first fold whose witness doesn't pass, or isn't zero where no work is asked for.
    #[error("fold {phase}: the witness doesn't pass")]
    CommitWork { phase: usize },
    /// The witness before the queries doesn't pass, or isn't zero where no work is asked for.
    #[error("the queries' witness doesn't pass")]
    QueryWork,
    /// The first query at fault.
    #[error("query {query} is at fault")]
    Query { query: usize, fault: QueryFault },
}

/// Why a query is at fault: the first fault in this order.
#[derive(Clone, Copy, Debug, PartialEq, Eq)]
pub enum QueryFault {
    /// The query opens another number of rounds, folds or rows, or a row of another width.
    Shape,
    /// The first round whose rows' path doesn't lead to its root.
    Input { round: usize },
    /// The first fold whose pair's path doesn't lead to its root.
    Layer { layer: usize },
    /// What the folds lead to isn't the final polynomial's value.
    Final,
}

/// Why the prover refuses.
#[derive(Debug, Drop, Error)]
pub enum FriProverError {
    /// A round has another number of lists of points than matrices.
    #[error("a round has another number of lists of points")]
    Points,
    /// What is claimed of the columns doesn't fit, so that each proof of it is refused with this
    /// fault: nothing is opened, columns differ in length, or a point lies on the larger coset.
    #[error("the claims don't fit")]
    Claims(FriError),
    /// A round without a matrix was made for columns of another length.
    #[error("a round has another height")]
    Heights,
    /// No witness passes.
    #[error("no witness was found")]
    NoWork,
}
