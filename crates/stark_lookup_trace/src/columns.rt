//! The auxiliary columns, row by row.
ghost use Rattle.std.specs.Prelude.{◌≡◌, ◌<◌, ◌+◌, ◌*◌, ◌/◌, ◌%◌, ◌^◌, IfErr, IfOk, length, slice_index};
ghost use Rattle.stark_logup.specs.Fractions.{IsKeyOf, joined};
ghost use Rattle.stark_lookup_trace.specs.AuxiliaryColumns.{AreColumns, PassIfBalanced, NamesKey, entries_of, rows_with_sums};
ghost use Rattle.stark_lookup_trace.specs.Tuples.{LookupPasses, keyed_by, tuples_of};

use crate::error::AuxiliaryError;
use crate::helpers::{divided, first_zero, fractions_of, total};
use crate::tuples::{TupleEntry, compressed_groups};
use stark_support::{ExtensionField, Field, RowMajorMatrix};
use std::alloc::{AllocError, Global};

/// What is drawn once the tuples are fixed: beta compresses them, and gamma is the point at which
/// fractions are added up.
#[derive(Clone, Copy, Debug)]
pub struct LookupDraws<EF> {
    pub beta: EF,
    pub gamma: EF,
}

/// The rows of `size` helpers each, after each the sum of all helpers before it.
#[tactic(auto, using(crate::proofs::SumSteps::row_ends))]
fn with_sums<K: Field>(
    alloc: Global,
    rows: usize,
    size: usize,
    helpers: &[K],
) -> Result<RowMajorMatrix<K>, AllocError>
    requires whole { length helpers.now ≡ rows * size }
    requires narrow { size + 1 < 2 ^ 64 }
    ensures values { IfOk result (λ m. m.values.items
        ≡ rows_with_sums K.ring size helpers.now rows) }
    ensures width { IfOk result (λ m. m.width ≡ size + 1) }
{
    let mut values = Vec::new(alloc);
    let mut sum = K::ZERO;
    for row in 0..rows {
        let start = row * size;
        let added = &helpers[start..start + size];
        values.extend_from_slice(added)?;
        values.push(sum)?;
        sum = sum + total(added);
    }
    Ok(RowMajorMatrix::new(values, size + 1))
}

/// The error of a draw that is a key in the group at this place.
fn key_at(lookups: &[usize], place: usize) -> AuxiliaryError
    requires { 0 < length lookups.now }
    ensures { result ≡ AuxiliaryError.DrawIsKey (place / length lookups.now)
        (slice_index lookups.now (place % length lookups.now)) }
{
    AuxiliaryError::DrawIsKey {
        row: place / lookups.len(),
        lookup: lookups[place % lookups.len()],
    }
}

/// The auxiliary columns of `rows` rows, in each of which a group of entries stands for each member
/// of `lookups`, the number of its lookup: a helper for each group, and after them the running sum,
/// from zero on. `groups` has the groups of the first row, then those of the next, each entry by
/// its compressed tuple and its multiplicity. It takes one inversion, and products and memory in
/// proportion to the entries. `DrawIsKey` where gamma is a compressed tuple, `OutOfMemory` where
/// memory was refused.
pub fn auxiliary_columns<K: Field>(
    alloc: Global,
    gamma: K,
    rows: usize,
    lookups: &[usize],
    groups: &[Vec<(K, K)>],
) -> Result<RowMajorMatrix<K>, AuxiliaryError>
    requires { length groups.now ≡ rows * length lookups.now }
    ensures columns { IfOk result (λ m. AreColumns K.ring gamma rows (length lookups.now)
        (entries_of groups.now) m.values.items) }
    ensures width { IfOk result (λ m. m.width ≡ length lookups.now + 1) }
    ensures apart { IfOk result (λ _. IsKeyOf gamma (joined (entries_of groups.now)) → ⊥) }
    ensures pass { IfOk result (λ m. PassIfBalanced K.ring gamma rows (length lookups.now)
        (entries_of groups.now) m.values.items) }
    ensures key { IfErr result (NamesKey gamma lookups.now (entries_of groups.now)) }
{
    let fractions = fractions_of(alloc, gamma, groups)?;
    if let Some(place) = first_zero(&fractions.denominators) {
        return Err(key_at(lookups, place));
    }
    let helpers = divided(alloc, &fractions.numerators, &fractions.denominators)?;
    let columns = with_sums(alloc, rows, lookups.len(), &helpers)?;
    Ok(columns)
}

/// The auxiliary columns of rows of tuples, by beta and gamma: those of the compressed tuples, with
/// the errors of `auxiliary_columns`. Each is a column over the extension, for which
/// `flatten_to_base` puts the columns of its coordinates.
pub fn lookup_columns<F: Field, EF: ExtensionField<F>>(
    alloc: Global,
    draws: LookupDraws<EF>,
    rows: usize,
    lookups: &[usize],
    groups: &[Vec<TupleEntry<F>>],
) -> Result<RowMajorMatrix<EF>, AuxiliaryError>
    requires { length groups.now ≡ rows * length lookups.now }
    ensures columns { IfOk result (λ m. AreColumns EF.ring draws.gamma rows (length lookups.now)
        (keyed_by EF.ring EF.embed draws.beta groups.now) m.values.items) }
    ensures width { IfOk result (λ m. m.width ≡ length lookups.now + 1) }
    ensures apart { IfOk result (λ _. IsKeyOf draws.gamma
        (joined (keyed_by EF.ring EF.embed draws.beta groups.now)) → ⊥) }
    ensures pass { IfOk result (λ m. LookupPasses EF.ring draws.beta draws.gamma rows
        (length lookups.now) (tuples_of EF.embed groups.now) m.values.items) }
    ensures key { IfErr result (NamesKey draws.gamma lookups.now
        (keyed_by EF.ring EF.embed draws.beta groups.now)) }
{
    let keyed = compressed_groups(alloc, draws.beta, groups)?;
    auxiliary_columns(alloc, draws.gamma, rows, lookups, &keyed)
}
