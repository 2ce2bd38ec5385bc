//! The rounds of the opening argument: which commitments are opened, and where.
ghost use Rattle.std.specs.Option.{option_copied};
ghost use Rattle.std.specs.Prelude.{◌≡◌, IfOk, [], ◌∷◌, map, replicate};
ghost use Rattle.stark_support.specs.Claims.{round_view};
ghost use Rattle.stark_prover.specs.Rounds.{place_of, points_of, random_points, rounds_at};

use stark_parts::StarkOpeningLayout;
use stark_support::OpeningRound;
use std::alloc::{AllocError, Global};

/// A matrix at zeta, and at the next point where its next row is read.
fn points_of<EF: Copy>(
    alloc: Global,
    zeta: EF,
    next_zeta: EF,
    reads_next: bool,
) -> Result<Vec<Vec<EF>>, AllocError>
    ensures { IfOk result (λ points. map (λ p. p.items) points.items
        ≡ points_of zeta next_zeta reads_next ∷ []) }
{
    let mut row = Vec::new(alloc);
    row.push(zeta)?;
    if reads_next {
        row.push(next_zeta)?;
    }
    let mut points = Vec::new(alloc);
    points.push(row)?;
    Ok(points)
}

/// So many matrices at zeta alone.
fn each_at<EF: Copy>(alloc: Global, zeta: EF, count: usize) -> Result<Vec<Vec<EF>>, AllocError>
    ensures { IfOk result (λ points. map (λ p. p.items) points.items
        ≡ replicate count (zeta ∷ [])) }
{
    let mut points = Vec::new(alloc);
    for _matrix in 0..count {
        let mut one = Vec::new(alloc);
        one.push(zeta)?;
        points.push(one)?;
    }
    Ok(points)
}

/// What a scheme keeps of the commitments of a proof.
#[derive(Drop)]
pub(crate) struct OpenedData<'p, T> {
    pub random: Option<&'p T>,
    pub trace: &'p T,
    pub quotient: &'p T,
    pub preprocessed: Option<&'p T>,
}

/// The points at which the matrices of a proof are opened.
#[derive(Clone, Copy)]
pub(crate) struct OpeningPoints<EF> {
    pub zeta: EF,
    pub next_zeta: EF,
    /// Whether the AIR reads the next row of the trace.
    pub reads_next: bool,
    /// Whether it reads that of the preprocessed trace.
    pub reads_preprocessed_next: bool,
    /// How many chunks the quotient has.
    pub chunks: usize,
}

/// The round of the random commitment, if there is one.
fn random_round<'p, EF: Copy, T>(
    alloc: Global,
    zeta: EF,
    random: Option<&'p T>,
) -> Result<Vec<OpeningRound<'p, EF, T>>, AllocError>
    ensures { IfOk result (λ rounds. map round_view rounds.items
        ≡ random_points zeta (option_copied random.entry)) }
{
    let mut rounds = Vec::new(alloc);
    match random {
        Some(prover_data) => {
            rounds.push((prover_data, each_at(alloc, zeta, 1)?))?;
            Ok(rounds)
        }
        None => Ok(rounds),
    }
}

/// The rounds: random commitment, trace, quotient, preprocessed columns.
pub(crate) fn rounds_of<'p, EF: Copy, T>(
    alloc: Global,
    points: OpeningPoints<EF>,
    of: &OpenedData<'p, T>,
) -> Result<Vec<OpeningRound<'p, EF, T>>, AllocError>
    ensures { IfOk result (λ rounds. map round_view rounds.items ≡ rounds_at points of.now) }
{
    let (zeta, next_zeta) = (points.zeta, points.next_zeta);
    let mut rounds = random_round(alloc, zeta, of.random)?;
    rounds.push((
        of.trace,
        points_of(alloc, zeta, next_zeta, points.reads_next)?,
    ))?;
    rounds.push((of.quotient, each_at(alloc, zeta, points.chunks)?))?;
    match of.preprocessed {
        Some(preprocessed) => {
            let rows = points_of(alloc, zeta, next_zeta, points.reads_preprocessed_next)?;
            rounds.push((preprocessed, rows))?;
            Ok(rounds)
        }
        None => Ok(rounds),
    }
}

/// The place of the preprocessed round, where there is one.
pub(crate) fn place_of<T>(is_zk: bool, preprocessed: Option<&T>) -> Option<usize>
    ensures { result ≡ place_of is_zk (option_copied preprocessed.entry) }
{
    match preprocessed {
        Some(_) => Some(StarkOpeningLayout::new(is_zk).preprocessed),
        None => None,
    }
}
