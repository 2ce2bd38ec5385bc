//! Sums and products of lists of nodes, which are the coordinates of elements of an extension.
ghost use Rattle.std.specs.Prelude.{IfOk};
ghost use Rattle.stark_lookup_extension.specs.Written.{WritesCombination, WritesCombinations, WritesCoordinates, WritesDifference, WritesOpposites, WritesScaled, WritesSums};

use crate::operations::{opposite, product, sum};
use stark_support::Field;
use stark_tree_air::TreeList;
use std::alloc::{AllocError, Global};

/// The sums of nodes at the same places of two lists, and after them what is left of the longer
/// one. It is Err only where memory was refused.
pub(crate) fn sums<F: Field>(
    alloc: Global,
    list: &mut TreeList<F>,
    xs: &[usize],
    ys: &[usize],
) -> Result<Vec<usize>, AllocError>
    ensures { IfOk result (λ all. WritesSums F.ring list.old xs.now ys.now all.items list.new) }
{
    let mut all = Vec::new(alloc);
    let common = xs.len().min(ys.len());
    for index in 0..common {
        let place = sum(&mut *list, xs[index], ys[index])?;
        all.push(place)?;
    }
    all.extend_from_slice(&xs[common..])?;
    all.extend_from_slice(&ys[common..])?;
    Ok(all)
}

/// The products of a node with each of a list. It is Err only where memory was refused.
pub(crate) fn scaled<F: Field>(
    alloc: Global,
    list: &mut TreeList<F>,
    x: usize,
    ys: &[usize],
) -> Result<Vec<usize>, AllocError>
    ensures { IfOk result (λ all. WritesScaled F.ring list.old x ys.now all.items list.new) }
{
    let mut all = Vec::new(alloc);
    for y in ys {
        let place = product(&mut *list, x, *y)?;
        all.push(place)?;
    }
    Ok(all)
}

/// The opposites of nodes. It is Err only where memory was refused.
fn opposites<F: Field>(
    alloc: Global,
    list: &mut TreeList<F>,
    xs: &[usize],
) -> Result<Vec<usize>, AllocError>
    ensures { IfOk result (λ all. WritesOpposites F.ring list.old xs.now all.items list.new) }
{
    let mut all = Vec::new(alloc);
    for x in xs {
        let place = opposite(&mut *list, *x)?;
        all.push(place)?;
    }
    Ok(all)
}

/// The first list less the second. It is Err only where memory was refused.
pub(crate) fn difference<F: Field>(
    alloc: Global,
    list: &mut TreeList<F>,
    xs: &[usize],
    ys: &[usize],
) -> Result<Vec<usize>, AllocError>
    ensures { IfOk result (λ all. WritesDifference F.ring list.old xs.now ys.now all.items
        list.new) }
{
    let minus = opposites(alloc, &mut *list, ys)?;
    sums(alloc, list, xs, &minus)
}

/// The sum of lists, each times its node. It is Err only where memory was refused.
pub(crate) fn combination<F: Field>(
    alloc: Global,
    list: &mut TreeList<F>,
    xs: &[usize],
    rows: &[Vec<usize>],
) -> Result<Vec<usize>, AllocError>
    ensures { IfOk result (λ all. WritesCombination F.ring list.old xs.now rows.now all.items
        list.new) }
{
    let mut total: Vec<usize> = Vec::new(alloc);
    let mut index = xs.len().min(rows.len());
    while index > 0 {
        index -= 1;
        let part = scaled(alloc, &mut *list, xs[index], &rows[index])?;
        total = sums(alloc, &mut *list, &part, &total)?;
    }
    Ok(total)
}

/// For each row of the table the sum of its lists, each times its node. It is Err only where memory
/// was refused.
fn combinations<F: Field>(
    alloc: Global,
    list: &mut TreeList<F>,
    xs: &[usize],
    table: &[Vec<Vec<usize>>],
) -> Result<Vec<Vec<usize>>, AllocError>
    ensures { IfOk result (λ all. WritesCombinations F.ring list.old xs.now table.now all.items
        list.new) }
{
    let mut all = Vec::new(alloc);
    for row in table {
        let list_of_row = combination(alloc, &mut *list, xs, row)?;
        all.push(list_of_row)?;
    }
    Ok(all)
}

/// The coordinates of a product, from those of its factors, by the table of the basis' products. It
/// is Err only where memory was refused.
pub(crate) fn product_coordinates<F: Field>(
    alloc: Global,
    list: &mut TreeList<F>,
    table: &[Vec<Vec<usize>>],
    xs: &[usize],
    ys: &[usize],
) -> Result<Vec<usize>, AllocError>
    ensures { IfOk result (λ all. WritesCoordinates F.ring list.old table.now xs.now ys.now
        all.items list.new) }
{
    let rows = combinations(alloc, &mut *list, ys, table)?;
    combination(alloc, list, xs, &rows)
}
