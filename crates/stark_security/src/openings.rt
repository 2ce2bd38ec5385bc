//! How many openings a commitment scheme batches.
ghost use Rattle.std.specs.Prelude.{◌≡◌, ◌<◌, ◌^◌};
ghost use Rattle.stark_security.specs.Openings.{hides, random_columns, powers_of, batched_openings, points_of};

/// What a commitment scheme opens beside the columns that an AIR has.
#[derive(Clone, Copy, Debug, PartialEq, Eq)]
pub enum OpeningShape {
    /// Two-adic FRI: each column once at each of its points.
    TwoAdic,
    /// Circle FRI, which takes two powers of the batching challenge for each column and point.
    Circle,
    /// Hiding FRI: a random codeword beside the matrices, and random columns in each matrix but the
    /// preprocessed one.
    Hiding {
        /// How many random columns each of these matrices has.
        num_random_codewords: usize,
    },
}

impl Default for OpeningShape {
    ghost use Rattle.std.specs.Prelude.{◌≡◌};
    ghost use Rattle.stark_security.specs.declared.openings.OpeningShape.TheVariants.{TwoAdic};

    ghost is_default = { λ shape. shape ≡ TwoAdic };

    /// That of two-adic FRI.
    fn default() -> OpeningShape {
        OpeningShape::TwoAdic
    }
}

impl OpeningShape {
    /// That of two-adic FRI.
    pub const fn new() -> Self
        ensures { result ≡ OpeningShape.TwoAdic }
    {
        Self::TwoAdic
    }

    /// That of hiding FRI with so many random columns.
    pub const fn hiding(num_random_codewords: usize) -> Self
        ensures { result ≡ OpeningShape.Hiding num_random_codewords }
    {
        Self::Hiding {
            num_random_codewords,
        }
    }

    /// Whether trace and quotient are masked.
    pub const fn is_zk(self) -> bool
        ensures { result ≡ hides self }
    {
        matches!(self, Self::Hiding { .. })
    }

    /// How many random columns each matrix but the preprocessed one has.
    pub const fn num_random_codewords(self) -> usize
        ensures { result ≡ random_columns self }
    {
        match self {
            Self::TwoAdic | Self::Circle => 0,
            Self::Hiding {
                num_random_codewords,
            } => num_random_codewords,
        }
    }

    /// How many powers of the batching challenge each column takes at each of its points: 2 for
    /// Circle FRI, and else 1.
    pub const fn powers_per_opening(self) -> usize
        ensures { result ≡ powers_of self }
    {
        match self {
            Self::Circle => 2,
            Self::TwoAdic | Self::Hiding { .. } => 1,
        }
    }
}

/// How many powers of the batching challenge a commitment scheme takes: each column's points, which
/// are 2 where its next row is read and else 1, over the main trace, the preprocessed one,
/// `num_quotient_chunks` chunks of `challenge_dimension` columns, and under hiding a random
/// codeword as wide as a chunk; times the powers for each. Under hiding each of these but the
/// preprocessed trace has so many random columns more. The number is at most the greatest `usize`.
pub const fn num_batched_openings(
    main_width: usize,
    main_next: bool,
    preprocessed_width: usize,
    preprocessed_next: bool,
    num_quotient_chunks: usize,
    challenge_dimension: usize,
    openings: OpeningShape,
) -> usize
    requires { batched_openings main_width main_next preprocessed_width preprocessed_next
        num_quotient_chunks challenge_dimension openings < 2 ^ 64 }
    ensures { result ≡ batched_openings main_width main_next preprocessed_width preprocessed_next
        num_quotient_chunks challenge_dimension openings }
{
    let random_columns = openings.num_random_codewords();
    let main = points(main_next) * (main_width + random_columns);
    let preprocessed = points(preprocessed_next) * preprocessed_width;
    let quotient = num_quotient_chunks * (challenge_dimension + random_columns);
    let random = if openings.is_zk() {
        challenge_dimension + random_columns
    } else {
        0
    };
    (main + preprocessed + quotient + random) * openings.powers_per_opening()
}

/// At how many points a column is opened.
const fn points(next: bool) -> usize
    ensures { result ≡ points_of next }
{
    if next { 2 } else { 1 }
}
