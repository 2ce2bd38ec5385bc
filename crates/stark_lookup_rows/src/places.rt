//! The AIR whose constraints are the elements of tuples and the multiplicities.
ghost use Rattle.std.specs.Prelude.{◌≡◌, ◌++◌, IfOk, None, OnOk, map};
ghost use Rattle.stark_lookup_rows.specs.Places.{HaveColumnsOf, IsAirOf, fault_over, group_places, groups_places, interaction_places, lookups_places};

use stark_lookup_extension::{Lookup, LookupInteraction, LookupList};
use stark_support::Field;
use stark_tree_air::{TreeAir, TreeColumns, TreeConstraint, TreeDeclaration, TreeList, TreeNode};
use std::alloc::{AllocError, Global};

/// Appends the places of an interaction: those of its tuple, and that of its multiplicity. It is
/// Err only where memory was refused.
fn push_interaction(
    all: &mut Vec<TreeConstraint>,
    given: &LookupInteraction,
) -> Result<(), AllocError>
    ensures { OnOk result (all.new.items
        ≡ all.old.items ++ map TreeConstraint.Base (interaction_places given.now)) }
{
    for place in &given.tuple {
        all.push(TreeConstraint::Base(*place))?;
    }
    all.push(TreeConstraint::Base(given.times))?;
    Ok(())
}

/// Appends those of a group. It is Err only where memory was refused.
fn push_group(all: &mut Vec<TreeConstraint>, group: &[LookupInteraction]) -> Result<(), AllocError>
    ensures { OnOk result (all.new.items
        ≡ all.old.items ++ map TreeConstraint.Base (group_places group.now)) }
{
    for given in group {
        push_interaction(&mut *all, given)?;
    }
    Ok(())
}

/// Appends those of a lookup. It is Err only where memory was refused.
fn push_groups(
    all: &mut Vec<TreeConstraint>,
    groups: &[Vec<LookupInteraction>],
) -> Result<(), AllocError>
    ensures { OnOk result (all.new.items
        ≡ all.old.items ++ map TreeConstraint.Base (groups_places groups.now)) }
{
    for group in groups {
        push_group(&mut *all, group)?;
    }
    Ok(())
}

/// The places of all interactions, in their order, as constraints. It is Err only where memory was
/// refused.
fn interaction_constraints(
    alloc: Global,
    lookups: &[Lookup],
) -> Result<Vec<TreeConstraint>, AllocError>
    ensures { IfOk result (λ all. all.items
        ≡ map TreeConstraint.Base (lookups_places lookups.now)) }
{
    let mut all = Vec::new(alloc);
    for lookup in lookups {
        push_groups(&mut all, &lookup.groups)?;
    }
    Ok(all)
}

/// A copy of columns, each by the values that it repeats. It is Err only where memory was refused.
fn copied_columns<F: Copy>(alloc: Global, given: &[Vec<F>]) -> Result<Vec<Vec<F>>, AllocError>
    ensures { IfOk result (λ all. map (λ c. c.items) all.items ≡ map (λ c. c.items) given.now) }
{
    let mut all = Vec::with_capacity(alloc, given.len())?;
    for column in given {
        let mut values = Vec::with_capacity(alloc, column.len())?;
        values.extend_from_slice(column)?;
        all.push(values)?;
    }
    Ok(all)
}

/// The columns of an AIR. It is Err only where memory was refused.
fn copied_declaration<F: Copy>(
    alloc: Global,
    columns: &TreeColumns<F>,
) -> Result<TreeDeclaration<F>, AllocError>
    ensures { IfOk result (λ d. HaveColumnsOf columns.now d.columns) }
{
    let periodic_columns = copied_columns(alloc, &columns.periodic_columns)?;
    let preprocessed_trace = columns.copied_trace(alloc)?;
    Ok(TreeDeclaration::without_hints(TreeColumns {
        width: columns.width,
        num_public_values: columns.num_public_values,
        periodic_columns,
        preprocessed_trace,
    }))
}

/// An AIR over the same columns, whose constraints are what an AIR's interactions name: for each in
/// turn the elements of its tuple, and after them its multiplicity. It is Err only where memory was
/// refused.
pub(crate) fn interactions_air<F: Field>(
    alloc: Global,
    own: &TreeAir<F>,
    given: &LookupList,
) -> Result<TreeAir<F>, AllocError>
    requires { fault_over own.now given.now ≡ None }
    ensures { IfOk result (IsAirOf own.now given.now) }
{
    let mut constants = Vec::new(alloc);
    constants.extend_from_slice(&own.list.constants)?;
    let mut nodes: Vec<TreeNode> = Vec::new(alloc);
    nodes.extend_from_slice(&own.list.nodes)?;
    let constraints = interaction_constraints(alloc, &given.lookups)?;
    let declaration = copied_declaration(alloc, &own.declaration.columns)?;
    Ok(TreeAir {
        alloc,
        declaration,
        list: TreeList {
            constants,
            nodes,
            constraints,
        },
    })
}
