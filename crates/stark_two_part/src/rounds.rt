//! Rounds on parts, and what is opened of them.
ghost use Rattle.std.specs.Prelude.{◌≡◌, ◌++◌, IfOk, map};
ghost use Rattle.stark_support.specs.Claims.{opened_view, round_view, rounds_view};
ghost use Rattle.stark_two_part.specs.InParts.{joined_matrices, joined_opened, joined_rows, parted_rounds, points_on_parts};
ghost use Rattle.stark_two_part.specs.Opened.{list_view, matrix_list, matrices_list};

use crate::in_parts::InParts;
use stark_support::{OpenedRounds, OpeningRound};
use std::alloc::{AllocError, Global};

/// A copy of lists.
fn copy_lists<T: Copy>(alloc: Global, lists: &[Vec<T>]) -> Result<Vec<Vec<T>>, AllocError>
    ensures { IfOk result (λ copy. matrix_list copy ≡ map list_view lists.now) }
{
    let mut copy = Vec::new(alloc);
    for list in lists {
        let mut same = Vec::new(alloc);
        same.extend_from_slice(list)?;
        copy.push(same)?;
    }
    Ok(copy)
}

/// Puts the rounds of the parts after others.
fn push_rounds<'r, EF: Copy, T>(
    alloc: Global,
    round: &OpeningRound<'r, EF, InParts<T>>,
    on: &mut Vec<OpeningRound<'r, EF, T>>,
) -> Result<(), AllocError>
    ensures { IfOk result (λ _. rounds_view on.new ≡ rounds_view on.old
        ++ points_on_parts round.now.0.now (map (λ p. p.items) round.now.1.items)) }
{
    match round.0 {
        InParts::Whole(data) => {
            let points = copy_lists(alloc, &round.1)?;
            on.push((data, points))?;
        }
        InParts::Parts(left, right) => {
            let points = copy_lists(alloc, &round.1)?;
            let again = copy_lists(alloc, &round.1)?;
            on.push((left, points))?;
            on.push((right, again))?;
        }
    }
    Ok(())
}

/// The rounds on parts that rounds on what is whole or in parts are. It is Err only where memory
/// was refused.
pub(crate) fn rounds_in_parts<'r, EF: Copy, T>(
    alloc: Global,
    rounds: &[OpeningRound<'r, EF, InParts<T>>],
) -> Result<Vec<OpeningRound<'r, EF, T>>, AllocError>
    ensures { IfOk result (λ on. rounds_view on ≡ parted_rounds (map round_view rounds.now)) }
{
    let mut on: Vec<OpeningRound<'r, EF, T>> = Vec::new(alloc);
    for round in rounds {
        push_rounds(alloc, round, &mut on)?;
    }
    Ok(on)
}

/// The rows of the first, each followed by that of the second.
fn joined_lists<T: Copy>(
    alloc: Global,
    left: &[Vec<T>],
    right: &[Vec<T>],
) -> Result<Vec<Vec<T>>, AllocError>
    ensures { IfOk result (λ joined. matrix_list joined
        ≡ joined_rows (map list_view left.now) (map list_view right.now)) }
{
    let mut joined = Vec::new(alloc);
    for i in 0..left.len().min(right.len()) {
        let mut row = Vec::new(alloc);
        row.extend_from_slice(&left[i])?;
        row.extend_from_slice(&right[i])?;
        joined.push(row)?;
    }
    Ok(joined)
}

fn joined_parts<T: Copy>(
    alloc: Global,
    left: &[Vec<Vec<T>>],
    right: &[Vec<Vec<T>>],
) -> Result<Vec<Vec<Vec<T>>>, AllocError>
    ensures { IfOk result (λ joined. matrices_list joined
        ≡ joined_matrices (map matrix_list left.now) (map matrix_list right.now)) }
{
    let mut joined = Vec::new(alloc);
    for i in 0..left.len().min(right.len()) {
        let rows = joined_lists(alloc, &left[i], &right[i])?;
        joined.push(rows)?;
    }
    Ok(joined)
}

fn copy_matrices<T: Copy>(
    alloc: Global,
    matrices: &[Vec<Vec<T>>],
) -> Result<Vec<Vec<Vec<T>>>, AllocError>
    ensures { IfOk result (λ copy. matrices_list copy ≡ map matrix_list matrices.now) }
{
    let mut copy = Vec::new(alloc);
    for matrix in matrices {
        let same = copy_lists(alloc, matrix)?;
        copy.push(same)?;
    }
    Ok(copy)
}

/// What is opened of rounds, from what was opened of their parts in turn, as far as that goes. It
/// is Err only where memory was refused.
pub(crate) fn opened_in_parts<EF: Copy, T>(
    alloc: Global,
    rounds: &[OpeningRound<'_, EF, InParts<T>>],
    opened: &[Vec<Vec<Vec<EF>>>],
) -> Result<OpenedRounds<EF>, AllocError>
    ensures { IfOk result (λ joined. opened_view joined
        ≡ joined_opened (map (λ r. r.0.now) rounds.now) (map matrices_list opened.now)) }
{
    let mut joined = Vec::new(alloc);
    let mut place = 0;
    for round in rounds {
        match round.0 {
            InParts::Whole(_) => {
                if place >= opened.len() {
                    return Ok(joined);
                }
                let same = copy_matrices(alloc, &opened[place])?;
                joined.push(same)?;
                place += 1;
            }
            InParts::Parts(_, _) => {
                if opened.len() - place < 2 {
                    return Ok(joined);
                }
                let both = joined_parts(alloc, &opened[place], &opened[place + 1])?;
                joined.push(both)?;
                place += 2;
            }
        }
    }
    Ok(joined)
}
