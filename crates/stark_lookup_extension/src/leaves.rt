//! Columns, public values and constants as nodes.
ghost use Rattle.std.specs.Prelude.{◌≡◌, ◌+◌, ◌*◌, ◌<◌, ◌^◌, IfOk, map, length};
ghost use Rattle.stark_air.specs.Tree.{constant};
ghost use Rattle.stark_logup.specs.Coordinates.{own_table};
ghost use Rattle.stark_lookup_air.specs.LookupConstraints.{from_place};
ghost use Rattle.stark_lookup_extension.specs.Leaves.{WritesBlocks, WritesLeaves, leaf_node, leaf_tree, product_row};
ghost use Rattle.stark_lookup_extension.specs.Written.{RowsStand, Stand, TableStands, WritesKnown};

use stark_support::{ExtensionField, Field};
use stark_tree_air::{TreeList, TreeNode};
use std::alloc::{AllocError, Global};

/// What a leaf reads.
#[derive(Clone, Copy)]
pub(crate) enum Leaf {
    /// A main column in the current row.
    Main,
    /// A main column in the next row.
    Next,
    /// A public value.
    Public,
}

fn leaf_node(leaf: Leaf, index: usize) -> TreeNode
    ensures { result ≡ leaf_node leaf index }
{
    match leaf {
        Leaf::Main => TreeNode::MainCurrent(index),
        Leaf::Next => TreeNode::MainNext(index),
        Leaf::Public => TreeNode::PublicValue(index),
    }
}

/// The leaves at a place and those after it, a number of them. It is Err only where memory was
/// refused.
pub(crate) fn leaves<F: Copy>(
    alloc: Global,
    list: &mut TreeList<F>,
    leaf: Leaf,
    first: usize,
    count: usize,
) -> Result<Vec<usize>, AllocError>
    requires { first + count < 2 ^ 64 }
    ensures { IfOk result (λ all. WritesLeaves leaf (first + count) Stand
        (from_place (leaf_tree leaf) first count) list.old all.items list.new) }
{
    let mut all = Vec::new(alloc);
    for index in first..first + count {
        let place = list.node(leaf_node(leaf, index))?;
        all.push(place)?;
    }
    Ok(all)
}

/// A number of such blocks, one after the other. It is Err only where memory was refused.
pub(crate) fn leaf_blocks<F: Copy>(
    alloc: Global,
    list: &mut TreeList<F>,
    leaf: Leaf,
    first: usize,
    size: usize,
    count: usize,
) -> Result<Vec<Vec<usize>>, AllocError>
    requires { first + count * size < 2 ^ 64 }
    ensures blocks { IfOk result (λ all. WritesBlocks leaf first size count list.old all.items
        list.new) }
    ensures count { IfOk result (λ all. length all.items ≡ count) }
{
    let mut all = Vec::new(alloc);
    for index in 0..count {
        let block = leaves(alloc, &mut *list, leaf, first + index * size, size)?;
        all.push(block)?;
    }
    Ok(all)
}

/// Constants. It is Err only where memory was refused.
pub(crate) fn constants<F: Copy>(
    alloc: Global,
    list: &mut TreeList<F>,
    values: &[F],
) -> Result<Vec<usize>, AllocError>
    ensures { IfOk result (λ all. WritesKnown Stand (map constant values.now) list.old all.items
        list.new) }
{
    let mut all = Vec::new(alloc);
    for value in values {
        let place = list.constant(*value)?;
        all.push(place)?;
    }
    Ok(all)
}

/// The coordinates of an element. It is Err only where memory was refused.
fn coordinates<F: Field, EF: ExtensionField<F>>(alloc: Global, x: EF) -> Result<Vec<F>, AllocError>
    ensures { IfOk result (λ all. all.items ≡ EF.coordinates x) }
{
    let mut all = Vec::with_capacity(alloc, EF::DIMENSION)?;
    for index in 0..EF::DIMENSION {
        all.push(x.coordinate(index))?;
    }
    Ok(all)
}

/// The coordinates of an element, as constants. It is Err only where memory was refused.
pub(crate) fn element_constants<F: Field, EF: ExtensionField<F>>(
    alloc: Global,
    list: &mut TreeList<F>,
    x: EF,
) -> Result<Vec<usize>, AllocError>
    ensures { IfOk result (λ all. WritesKnown Stand (map constant (EF.coordinates x)) list.old
        all.items list.new) }
{
    let values = coordinates(alloc, x)?;
    constants(alloc, list, &values)
}

/// The products of an element with each of the basis. It is Err only where memory was refused.
fn product_row<F: Field, EF: ExtensionField<F>>(
    alloc: Global,
    list: &mut TreeList<F>,
    x: EF,
) -> Result<Vec<Vec<usize>>, AllocError>
    ensures { IfOk result (λ all. WritesKnown RowsStand
        (product_row EF.ring EF.basis EF.coordinates x) list.old all.items list.new) }
{
    let mut all = Vec::new(alloc);
    for index in 0..EF::DIMENSION {
        let y = EF::basis_element(index);
        let block = element_constants::<F, EF>(alloc, &mut *list, x * y)?;
        all.push(block)?;
    }
    Ok(all)
}

/// The table of the products of the basis. It is Err only where memory was refused.
pub(crate) fn product_table<F: Field, EF: ExtensionField<F>>(
    alloc: Global,
    list: &mut TreeList<F>,
) -> Result<Vec<Vec<Vec<usize>>>, AllocError>
    ensures { IfOk result (λ all. WritesKnown TableStands (map (map (map constant))
        (own_table EF.ring EF.basis EF.coordinates)) list.old all.items list.new) }
{
    let mut all = Vec::new(alloc);
    for index in 0..EF::DIMENSION {
        let x = EF::basis_element(index);
        let row = product_row::<F, EF>(alloc, &mut *list, x)?;
        all.push(row)?;
    }
    Ok(all)
}
