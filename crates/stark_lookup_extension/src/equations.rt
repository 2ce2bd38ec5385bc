//! The equations of a row's lookups, as nodes.
ghost use Rattle.std.specs.Prelude.{◌≡◌, IfOk, length};
ghost use Rattle.stark_lookup_extension.specs.WrittenEquations.{IsNoFraction, WritesEquation, WritesFraction, WritesFractionWith, WritesGap, WritesHelpers, WritesRow, WritesSumEquation, WritesTotal};

use crate::lists::{combination, difference, product_coordinates, scaled, sums};
use stark_support::Field;
use stark_tree_air::TreeList;
use std::alloc::{AllocError, Global};

/// The nodes of a tuple, and that of its multiplicity.
#[derive(Drop)]
pub(crate) struct WrittenEntry {
    pub(crate) key: Vec<usize>,
    pub(crate) multiplicity: usize,
}

/// The nodes of the coordinates of gamma and of one, of beta's powers from the zeroth on, and of
/// the products of the basis.
#[derive(Drop)]
pub(crate) struct WrittenDraws {
    pub(crate) gamma: Vec<usize>,
    pub(crate) one: Vec<usize>,
    pub(crate) powers: Vec<Vec<usize>>,
    pub(crate) table: Vec<Vec<Vec<usize>>>,
}

/// The nodes of the helpers and of the running sum, in this row and in the next one.
#[derive(Drop)]
pub(crate) struct WrittenAuxiliary {
    pub(crate) helpers: Vec<Vec<usize>>,
    pub(crate) sum: Vec<usize>,
    pub(crate) next: Vec<usize>,
}

/// The nodes of a group's denominator and of its numerator.
#[derive(Drop)]
struct WrittenFraction {
    denominator: Vec<usize>,
    numerator: Vec<usize>,
}

/// Gamma less a tuple, compressed by the powers of beta. It is Err only where memory was refused.
fn gap<F: Field>(
    alloc: Global,
    list: &mut TreeList<F>,
    draws: &WrittenDraws,
    tuple: &[usize],
) -> Result<Vec<usize>, AllocError>
    ensures { IfOk result (λ all. WritesGap F.ring list.old draws.now tuple.now all.items
        list.new) }
{
    let compressed = combination(alloc, &mut *list, tuple, &draws.powers)?;
    difference(alloc, list, &draws.gamma, &compressed)
}

/// The fraction of an entry and of those after it, whose fraction is given. It is Err only where
/// memory was refused.
fn fraction_with<F: Field>(
    alloc: Global,
    list: &mut TreeList<F>,
    draws: &WrittenDraws,
    entry: &WrittenEntry,
    rest: &WrittenFraction,
) -> Result<WrittenFraction, AllocError>
    ensures { IfOk result (λ all. WritesFractionWith F.ring list.old draws.now entry.now rest.now
        all list.new) }
{
    let apart = gap(alloc, &mut *list, draws, &entry.key)?;
    let own = scaled(alloc, &mut *list, entry.multiplicity, &rest.denominator)?;
    let others = product_coordinates(alloc, &mut *list, &draws.table, &apart, &rest.numerator)?;
    let numerator = sums(alloc, &mut *list, &own, &others)?;
    let denominator = product_coordinates(alloc, list, &draws.table, &apart, &rest.denominator)?;
    Ok(WrittenFraction {
        denominator,
        numerator,
    })
}

/// The fraction of no entry: one as the denominator. It is Err only where memory was refused.
fn no_fraction(alloc: Global, draws: &WrittenDraws) -> Result<WrittenFraction, AllocError>
    ensures { IfOk result (λ all. IsNoFraction draws.now all) }
{
    let mut denominator = Vec::new(alloc);
    denominator.extend_from_slice(&draws.one)?;
    Ok(WrittenFraction {
        denominator,
        numerator: Vec::new(alloc),
    })
}

/// The fraction of a group. It is Err only where memory was refused.
fn group_fraction<F: Field>(
    alloc: Global,
    list: &mut TreeList<F>,
    draws: &WrittenDraws,
    group: &[WrittenEntry],
) -> Result<WrittenFraction, AllocError>
    ensures { IfOk result (λ all. WritesFraction F.ring list.old draws.now group.now all list.new) }
{
    let start = no_fraction(alloc, draws)?;
    let mut fraction = start;
    let mut index = group.len();
    while index > 0 {
        index -= 1;
        fraction = fraction_with(alloc, &mut *list, draws, &group[index], &fraction)?;
    }
    Ok(fraction)
}

/// A helper times its group's denominator, less the numerator. It is Err only where memory was
/// refused.
fn helper_equation<F: Field>(
    alloc: Global,
    list: &mut TreeList<F>,
    draws: &WrittenDraws,
    group: &[WrittenEntry],
    helper: &[usize],
) -> Result<Vec<usize>, AllocError>
    ensures { IfOk result (λ all. WritesEquation F.ring list.old draws.now group.now helper.now
        all.items list.new) }
{
    let fraction = group_fraction(alloc, &mut *list, draws, group)?;
    let table = &draws.table;
    let product = product_coordinates(alloc, &mut *list, table, helper, &fraction.denominator)?;
    difference(alloc, list, &product, &fraction.numerator)
}

/// The equations of the helpers, each of its own group. It is Err only where memory was refused.
fn helper_equations<F: Field>(
    alloc: Global,
    list: &mut TreeList<F>,
    draws: &WrittenDraws,
    groups: &[Vec<WrittenEntry>],
    helpers: &[Vec<usize>],
) -> Result<Vec<usize>, AllocError>
    requires { length groups.now ≡ length helpers.now }
    ensures { IfOk result (λ all. WritesHelpers F.ring list.old draws.now groups.now helpers.now
        all.items list.new) }
{
    let mut all = Vec::new(alloc);
    for index in 0..groups.len() {
        let equation = helper_equation(alloc, &mut *list, draws, &groups[index], &helpers[index])?;
        all.extend_from_slice(&equation)?;
    }
    Ok(all)
}

/// The sum of the lists. It is Err only where memory was refused.
fn lists_sum<F: Field>(
    alloc: Global,
    list: &mut TreeList<F>,
    rows: &[Vec<usize>],
) -> Result<Vec<usize>, AllocError>
    ensures { IfOk result (λ all. WritesTotal F.ring list.old rows.now all.items list.new) }
{
    let mut total: Vec<usize> = Vec::new(alloc);
    let mut index = rows.len();
    while index > 0 {
        index -= 1;
        total = sums(alloc, &mut *list, &rows[index], &total)?;
    }
    Ok(total)
}

/// The running sum in the next row, less that of this one and the helpers. It is Err only where
/// memory was refused.
fn sum_equation<F: Field>(
    alloc: Global,
    list: &mut TreeList<F>,
    auxiliary: &WrittenAuxiliary,
) -> Result<Vec<usize>, AllocError>
    ensures { IfOk result (λ all. WritesSumEquation F.ring list.old auxiliary.now all.items
        list.new) }
{
    let added = lists_sum(alloc, &mut *list, &auxiliary.helpers)?;
    let after = sums(alloc, &mut *list, &auxiliary.sum, &added)?;
    difference(alloc, list, &auxiliary.next, &after)
}

/// All that is to be zero in a row: the equations of the helpers, and after them that of the
/// running sum. It is Err only where memory was refused.
pub(crate) fn row_equations<F: Field>(
    alloc: Global,
    list: &mut TreeList<F>,
    draws: &WrittenDraws,
    groups: &[Vec<WrittenEntry>],
    auxiliary: &WrittenAuxiliary,
) -> Result<Vec<usize>, AllocError>
    requires { length groups.now ≡ length auxiliary.now.helpers.items }
    ensures { IfOk result (λ all. WritesRow F.ring list.old draws.now groups.now auxiliary.now
        all.items list.new) }
{
    let mut all = helper_equations(alloc, &mut *list, draws, groups, &auxiliary.helpers)?;
    let last = sum_equation(alloc, list, auxiliary)?;
    all.extend_from_slice(&last)?;
    Ok(all)
}
