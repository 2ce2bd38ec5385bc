//! The opened values, out of the lists that an opening argument answers.
ghost use Rattle.std.specs.Prelude.{◌≡◌, ◌+◌, ◌≤◌, IfOk, List, Option, [], ◌∷◌, ◌++◌, is_some, length, map, option_map, option_to_list};
ghost use Rattle.stark_support.specs.Scheme.{zk_bits};
ghost use Rattle.std.specs.List.{AllByRecursion};
ghost use Rattle.stark_support.specs.Claims.{opened_view};
ghost use Rattle.stark_prover.specs.Rounds.{opened_lists, optional_view, preprocessed_opened, random_opened, rows_of};
ghost use Rattle.stark_proof.specs.ProofView.{OpeningsView, PreprocessedView, openings_view, preprocessed_view};

use stark_proof::{OpenedValues, PreprocessedOpenedValues};
use stark_support::OpenedRounds;
use std::alloc::{AllocError, Global};

/// The one element of a list.
fn only<T: Drop>(list: Vec<T>) -> T
    requires { length list.items ≡ 1 }
    ensures { list.items ≡ result ∷ [] }
{
    let mut list = list;
    match list.pop() {
        Some(one) => one,
        None => unreachable!(),
    }
}

/// The current row, and the next one if it is there.
fn both_rows<EF: Drop>(rows: Vec<Vec<EF>>) -> (Vec<EF>, Option<Vec<EF>>)
    requires { (local : List EF) × (next : Option (List EF))
        × (map (λ row. row.items) rows.items ≡ rows_of local next) }
    ensures { map (λ row. row.items) rows.items
        ≡ rows_of result.0.items (option_map (λ row. row.items) result.1) }
{
    let mut rows = rows;
    match rows.pop() {
        Some(last) => match rows.pop() {
            Some(local) => (local, Some(last)),
            None => (last, None),
        },
        None => unreachable!(),
    }
}

/// The one row of each matrix.
fn each_row<EF: Drop>(
    alloc: Global,
    matrices: Vec<Vec<Vec<EF>>>,
) -> Result<Vec<Vec<EF>>, AllocError>
    requires { AllByRecursion (λ m. length m.items ≡ 1) matrices.items }
    ensures { IfOk result (λ rows. map (λ m. m.items) matrices.items
        ≡ map (λ row. row ∷ []) rows.items) }
{
    let mut rows = Vec::new(alloc);
    for matrix in matrices {
        rows.push(only(matrix))?;
    }
    Ok(rows)
}

/// The rounds: the random commitment's where it is said to be there, the trace's, the quotient's,
/// and what is left.
fn split_rounds<X: Drop>(rounds: Vec<X>, is_random: bool) -> (Option<X>, X, X, Option<X>)
    requires least { 2 + zk_bits is_random ≤ length rounds.items }
    requires most { length rounds.items ≤ 3 + zk_bits is_random }
    ensures there { is_some result.0 ≡ is_random }
    ensures items { rounds.items ≡ option_to_list result.0
        ++ (result.1 ∷ result.2 ∷ option_to_list result.3) }
{
    let mut rest = rounds.into_iter();
    let random = if is_random { rest.next() } else { None };
    let Some(trace) = rest.next() else {
        unreachable!()
    };
    let Some(quotient) = rest.next() else {
        unreachable!()
    };
    let last = rest.next();
    (random, trace, quotient, last)
}

/// The rows of a round of one matrix.
fn rows_of_round<EF: Drop>(round: Vec<Vec<Vec<EF>>>) -> (Vec<EF>, Option<Vec<EF>>)
    requires { (local : List EF) × (next : Option (List EF))
        × (map (λ m. map (λ row. row.items) m.items) round.items ≡ rows_of local next ∷ []) }
    ensures { map (λ m. map (λ row. row.items) m.items) round.items
        ≡ rows_of result.0.items (option_map (λ row. row.items) result.1) ∷ [] }
{
    both_rows(only(round))
}

/// The one row of a round of one matrix.
fn row_of_round<EF: Drop>(round: Vec<Vec<Vec<EF>>>) -> Vec<EF>
    requires { (row : List EF) × (map (λ m. map (λ row. row.items) m.items) round.items
        ≡ (row ∷ []) ∷ []) }
    ensures { map (λ m. map (λ row. row.items) m.items) round.items ≡ (result.items ∷ []) ∷ [] }
{
    only(only(round))
}

/// The random row, of the round's where there is one.
fn random_of<EF: Drop>(round: Option<Vec<Vec<Vec<EF>>>>) -> Option<Vec<EF>>
    requires { (row : Option (List EF))
        × (optional_view round ≡ random_opened row) }
    ensures there { is_some result ≡ is_some round }
    ensures row { optional_view round ≡ random_opened (option_map (λ row. row.items) result) }
{
    match round {
        Some(round) => Some(row_of_round(round)),
        None => None,
    }
}

/// The preprocessed rows, of the round's where there is one.
fn preprocessed_of<EF: Drop>(
    round: Option<Vec<Vec<Vec<EF>>>>,
) -> Option<PreprocessedOpenedValues<EF>>
    requires { (rows : Option (PreprocessedView EF))
        × (optional_view round ≡ preprocessed_opened rows) }
    ensures { optional_view round ≡ preprocessed_opened (option_map preprocessed_view result) }
{
    match round {
        Some(round) => {
            let (local, next) = rows_of_round(round);
            Some(PreprocessedOpenedValues { local, next })
        }
        None => None,
    }
}

/// The opened values, each in its place, of what an opening argument answers.
pub(crate) fn values_of<EF: Drop>(
    alloc: Global,
    opened: OpenedRounds<EF>,
    is_random: bool,
) -> Result<OpenedValues<EF>, AllocError>
    requires { (view : OpeningsView EF) × (opened_view opened ≡ opened_lists view)
        × (is_some view.random ≡ is_random) }
    ensures random { IfOk result (λ values. is_some (openings_view values).random ≡ is_random) }
    ensures lists { IfOk result (λ values. opened_view opened
        ≡ opened_lists (openings_view values)) }
{
    let (random, trace, quotient, last) = split_rounds(opened, is_random);
    let random = random_of(random);
    let (trace_local, trace_next) = rows_of_round(trace);
    let quotient_chunks = each_row(alloc, quotient)?;
    let preprocessed = preprocessed_of(last);
    Ok(OpenedValues {
        trace_local,
        trace_next,
        preprocessed,
        quotient_chunks,
        random,
    })
}
