//! An AIR with its lookups, as an AIR.
ghost use Rattle.std.specs.Prelude.{◌≡◌, ◌<◌, ◌^◌, ◌++◌, IfOk, None, OnOk, map, length};
ghost use Rattle.stark_support.specs.Faults.{NamesFaultOr};
ghost use Rattle.stark_tree_air.specs.Traces.{declared_trace};
ghost use Rattle.stark_lookup_extension.specs.ExtendedAir.{HasLookups, HasRoom, WritesAuxiliary, WritesDraws, WritesEquations, extension_fault};
ghost use Rattle.stark_lookup_extension.specs.ExtendedSizes.{columns_with, values_with};
ghost use Rattle.stark_lookup_extension.specs.Interactions.{lookups_over};

use crate::equations::{WrittenAuxiliary, WrittenDraws, WrittenEntry, row_equations};
use crate::error::ExtensionError;
use crate::fault::{Limits, lookups_fault};
use crate::groups::written_groups;
use crate::leaves::{Leaf, element_constants, leaf_blocks, leaves, product_table};
use crate::lookup::LookupList;
use crate::sizes::{ExtendedSizes, OwnCounts, extended_sizes, key_width};
use stark_support::{ExtensionField, Field};
use stark_tree_air::{TreeAir, TreeColumns, TreeConstraint, TreeDeclaration, TreeList, TreeNode};
use std::alloc::{AllocError, Global};

/// A copy of columns, each by the values that it repeats. It is Err only where memory was refused.
fn copied_columns<F: Copy>(alloc: Global, given: &[Vec<F>]) -> Result<Vec<Vec<F>>, AllocError>
    ensures { IfOk result (λ all. map (λ c. c.items) all.items ≡ map (λ c. c.items) given.now) }
{
    let mut all = Vec::with_capacity(alloc, given.len())?;
    for column in given {
        let mut values = Vec::with_capacity(alloc, column.len())?;
        values.extend_from_slice(column)?;
        all.push(values)?;
    }
    Ok(all)
}

/// A copy of a list. It is Err only where memory was refused.
fn copied_list<F: Copy>(alloc: Global, list: &TreeList<F>) -> Result<TreeList<F>, AllocError>
    ensures constants { IfOk result (λ copy. copy.constants.items ≡ list.now.constants.items) }
    ensures nodes { IfOk result (λ copy. copy.nodes.items ≡ list.now.nodes.items) }
    ensures constraints { IfOk result (λ copy. copy.constraints.items
        ≡ list.now.constraints.items) }
{
    let mut constants = Vec::new(alloc);
    constants.extend_from_slice(&list.constants)?;
    let mut nodes: Vec<TreeNode> = Vec::new(alloc);
    nodes.extend_from_slice(&list.nodes)?;
    let mut constraints: Vec<TreeConstraint> = Vec::new(alloc);
    constraints.extend_from_slice(&list.constraints)?;
    Ok(TreeList {
        constants,
        nodes,
        constraints,
    })
}

/// The columns with auxiliary ones and with the draws, and no hint: the author's own spoke of other
/// constraints. It is Err only where memory was refused.
fn extended_declaration<F: Copy>(
    alloc: Global,
    columns: &TreeColumns<F>,
    sizes: ExtendedSizes,
) -> Result<TreeDeclaration<F>, AllocError>
    ensures width { IfOk result (λ d. d.columns.width ≡ sizes.columns) }
    ensures values { IfOk result (λ d. d.columns.num_public_values ≡ sizes.public_values) }
    ensures periodic { IfOk result (λ d.
        map (λ c. c.items) d.columns.periodic_columns.items
        ≡ map (λ c. c.items) columns.now.periodic_columns.items) }
    ensures preprocessed { IfOk result (λ d. declared_trace d.columns.preprocessed_trace
        ≡ declared_trace columns.now.preprocessed_trace) }
    ensures degree { IfOk result (λ d. d.max_constraint_degree ≡ None) }
    ensures number { IfOk result (λ d. d.num_constraints ≡ None) }
{
    let periodic_columns = copied_columns(alloc, &columns.periodic_columns)?;
    let preprocessed_trace = columns.copied_trace(alloc)?;
    Ok(TreeDeclaration::without_hints(TreeColumns {
        width: sizes.columns,
        num_public_values: sizes.public_values,
        periodic_columns,
        preprocessed_trace,
    }))
}

/// The draws' coordinates among the public values, the first at this place, and the constants of
/// products. It is Err only where memory was refused.
fn written_draws<F: Field, EF: ExtensionField<F>>(
    alloc: Global,
    list: &mut TreeList<F>,
    first: usize,
    width: usize,
) -> Result<WrittenDraws, AllocError>
    requires { values_with EF.DIMENSION first width < 2 ^ 64 }
    ensures { IfOk result (λ draws. WritesDraws EF.DIMENSION EF.ring EF.basis EF.coordinates first
        width list.old draws list.new) }
{
    let size = EF::DIMENSION;
    let one = element_constants::<F, EF>(alloc, &mut *list, EF::ONE)?;
    let zeroth = element_constants::<F, EF>(alloc, &mut *list, EF::ONE)?;
    let later = width.saturating_sub(1);
    let mut others = leaf_blocks(alloc, &mut *list, Leaf::Public, first + size, size, later)?;
    let mut powers = Vec::new(alloc);
    powers.push(zeroth)?;
    powers.append(&mut others)?;
    let gamma = leaves(alloc, &mut *list, Leaf::Public, first, size)?;
    let table = product_table::<F, EF>(alloc, list)?;
    Ok(WrittenDraws {
        gamma,
        one,
        powers,
        table,
    })
}

/// The helpers of that many groups and the running sum, in columns from this one on. It is Err only
/// where memory was refused.
fn written_auxiliary<F: Field>(
    alloc: Global,
    list: &mut TreeList<F>,
    first: usize,
    size: usize,
    groups: usize,
) -> Result<WrittenAuxiliary, AllocError>
    requires { columns_with size first groups < 2 ^ 64 }
    ensures auxiliary { IfOk result (λ a. WritesAuxiliary size first groups list.old a list.new) }
    ensures number { IfOk result (λ a. length a.helpers.items ≡ groups) }
{
    let column = first + groups * size;
    let helpers = leaf_blocks(alloc, &mut *list, Leaf::Main, first, size, groups)?;
    let sum = leaves(alloc, &mut *list, Leaf::Main, column, size)?;
    let next = leaves(alloc, list, Leaf::Next, column, size)?;
    Ok(WrittenAuxiliary { helpers, sum, next })
}

/// Makes each of the nodes a constraint over the base field. It is Err only where memory was
/// refused.
fn constrain<F: Copy>(list: &mut TreeList<F>, places: &[usize]) -> Result<(), AllocError>
    ensures constraints { OnOk result (list.new.constraints.items
        ≡ list.old.constraints.items ++ map TreeConstraint.Base places.now) }
    ensures constants { list.new.constants.items ≡ list.old.constants.items }
    ensures nodes { list.new.nodes.items ≡ list.old.nodes.items }
{
    for place in places {
        list.base(*place)?;
    }
    Ok(())
}

/// The equations of a row's lookups, over columns and public values after these many. It is Err
/// only where memory was refused.
fn written_equations<F: Field, EF: ExtensionField<F>>(
    alloc: Global,
    list: &mut TreeList<F>,
    own: OwnCounts,
    groups: &[Vec<WrittenEntry>],
) -> Result<Vec<usize>, AllocError>
    requires columns { columns_with EF.DIMENSION own.main (length groups.now) < 2 ^ 64 }
    requires values { values_with EF.DIMENSION own.public_values own.key_width < 2 ^ 64 }
    ensures { IfOk result (λ all. WritesEquations EF.DIMENSION EF.ring EF.basis EF.coordinates
        F.ring own list.old groups.now all.items list.new) }
{
    let draws = written_draws::<F, EF>(alloc, &mut *list, own.public_values, own.key_width)?;
    let size = EF::DIMENSION;
    let auxiliary = written_auxiliary(alloc, &mut *list, own.main, size, groups.len())?;
    row_equations(alloc, list, &draws, groups, &auxiliary)
}

/// The AIR with its lookups, as an AIR: constraints, columns and public values of its own, and
/// after each of these what the lookups add. Constraints: for each group in turn its helper times
/// the product of the denominators, less the numerator, and last the running sum in the next row,
/// less that of this one and the helpers; each over the base field, coordinate by coordinate.
/// Columns: the coordinates of a helper for each group, and of the running sum. Public values: the
/// coordinates of gamma, and of beta, beta^2, .. up to the width of a tuple less one. It has no
/// hint of a degree or of a number of constraints.
///
/// Err with the first fault: an AIR without main columns, or else the first interaction whose tuple
/// is longer than the width or that names a node that isn't there, or else columns or public values
/// that are more than can be counted; or where memory was refused.
pub fn extended_air<F: Field, EF: ExtensionField<F>>(
    alloc: Global,
    air: &TreeAir<F>,
    given: &LookupList,
) -> Result<TreeAir<F>, ExtensionError>
    ensures constraints { IfOk result (HasLookups EF.DIMENSION EF.ring EF.basis EF.coordinates
        F.ring given.now air.now) }
    ensures room { IfOk result (HasRoom EF.DIMENSION (lookups_over F.ring air.now given.now)
        air.now) }
    ensures fault { NamesFaultOr ExtensionError.OutOfMemory
        (extension_fault F.ring EF.DIMENSION given.now air.now) result }
{
    let columns = &air.declaration.columns;
    if columns.width == 0 {
        return Err(ExtensionError::NoMainColumns);
    }
    let limits = Limits {
        nodes: air.list.nodes.len(),
        width: given.width,
    };
    if let Some(fault) = lookups_fault(limits, &given.lookups) {
        return Err(fault);
    }
    let mut list = copied_list(alloc, &air.list)?;
    let groups = written_groups(alloc, &mut list, given)?;
    let Some(key_width) = key_width(given.is_numbered(), given.width) else {
        return Err(ExtensionError::TooLarge);
    };
    let own = OwnCounts {
        main: columns.width,
        public_values: columns.num_public_values,
        key_width,
    };
    let Some(sizes) = extended_sizes::<F, EF>(own, groups.len()) else {
        return Err(ExtensionError::TooLarge);
    };
    let equations = written_equations::<F, EF>(alloc, &mut list, own, &groups)?;
    constrain(&mut list, &equations)?;
    let declaration = extended_declaration(alloc, columns, sizes)?;
    Ok(TreeAir {
        alloc,
        declaration,
        list,
    })
}
