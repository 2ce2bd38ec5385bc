//! What an opening argument is asked: claims that borrow the opened rows, and points.

/// A matrix's domain, and for each point the values that its columns are claimed to have there.
pub type MatrixClaim<'a, EF, D> = (D, Vec<(EF, &'a [EF])>);

/// A commitment, and the claims about its matrices.
pub type OpeningClaim<'a, EF, K, D> = (&'a K, Vec<MatrixClaim<'a, EF, D>>);

/// The prover's data of a commitment, and for each of its matrices the points at which it is
/// opened.
pub type OpeningRound<'a, EF, T> = (&'a T, Vec<Vec<EF>>);

/// For each round, matrix and point, the value of each column.
pub type OpenedRounds<EF> = Vec<Vec<Vec<Vec<EF>>>>;
