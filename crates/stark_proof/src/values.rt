//! What a proof carries.
ghost use Rattle.std.specs.Prelude.{◌≡◌, option_and_then, option_map};
ghost use Rattle.stark_proof.specs.ProofView.{openings_view};

/// The commitments of a proof.
#[derive(Debug, Drop)]
pub struct Commitments<Com> {
    /// To the trace.
    pub trace: Com,
    /// To the chunks of the quotient.
    pub quotient_chunks: Com,
    /// To the random polynomial, which only a proof in zero knowledge has.
    pub random: Option<Com>,
}

/// The preprocessed trace at the point out of the domain, and at the next point where the AIR reads
/// the next row. A next row stands only beside a current one.
#[derive(Clone, Debug, PartialEq, Eq, Drop)]
pub struct PreprocessedOpenedValues<Challenge> {
    /// At the point.
    pub local: Vec<Challenge>,
    /// At the next point; None where the AIR doesn't read the next row.
    pub next: Option<Vec<Challenge>>,
}

/// The committed polynomials' values at the point out of the domain.
#[derive(Debug, Drop)]
pub struct OpenedValues<Challenge> {
    /// The trace at the point.
    pub trace_local: Vec<Challenge>,
    /// The trace at the next point; None where the AIR doesn't read the next row.
    pub trace_next: Option<Vec<Challenge>>,
    /// The preprocessed trace; None where the AIR has no preprocessed columns.
    pub preprocessed: Option<PreprocessedOpenedValues<Challenge>>,
    /// The coordinates of each chunk of the quotient, in the order in which the chunks are
    /// committed.
    pub quotient_chunks: Vec<Vec<Challenge>>,
    /// The random polynomial; None but in zero knowledge.
    pub random: Option<Vec<Challenge>>,
}

impl<Challenge> OpenedValues<Challenge> {
    /// The preprocessed trace at the point; None where no preprocessed row is opened.
    pub fn preprocessed_local(&self) -> Option<&[Challenge]>
        ensures { option_map (λ row. row.now) result
            ≡ option_map (λ rows. rows.local) (openings_view self.now).preprocessed }
    {
        match &self.preprocessed {
            Some(rows) => Some(rows.local.as_slice()),
            None => None,
        }
    }

    /// The preprocessed trace at the next point; None where no preprocessed row is opened, or the
    /// current one alone.
    pub fn preprocessed_next(&self) -> Option<&[Challenge]>
        ensures { option_map (λ row. row.now) result
            ≡ option_and_then (λ rows. rows.next) (openings_view self.now).preprocessed }
    {
        match &self.preprocessed {
            Some(rows) => match &rows.next {
                Some(next) => Some(next.as_slice()),
                None => None,
            },
            None => None,
        }
    }
}

/// A proof that a trace satisfies an AIR.
#[derive(Debug, Drop)]
pub struct Proof<Com, Challenge, PcsProof, Val> {
    pub commitments: Commitments<Com>,
    pub opened_values: OpenedValues<Challenge>,
    /// The commitment scheme's argument for the opened values.
    pub opening_proof: PcsProof,
    /// The logarithm of the committed trace's height.
    pub degree_bits: usize,
    /// The witness of the work before the point out of the domain is drawn; zero where no work is
    /// asked for.
    pub ood_pow_witness: Val,
    /// The witness of the work before alpha is drawn; zero where no work is asked for.
    pub alpha_pow_witness: Val,
}
