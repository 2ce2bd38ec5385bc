//! Trees, layer by layer.
ghost use Rattle.std.specs.Prelude.{◌≡◌, ◌+◌, ◌<◌, ◌^◌, ◌↔◌, IfOk, IfSome, IsSome, map};
ghost use Rattle.stark_merkle.specs.Tree.{HasPath, IsPathIn, digests_in, items_of, layers_from, neighbour, paired, sole, top_of};

use crate::hash::{TreeHash, first_eight_leaves, nodes_over};
use std::alloc::{AllocError, Global};

/// The leaves over rows, whose bytes are given, in order. It is Err only where an allocation
/// failed.
pub fn leaves<H: TreeHash>(alloc: Global, rows: &[Vec<u8>]) -> Result<Vec<[u8; 32]>, AllocError>
    ensures { IfOk result (λ leaves.
        leaves.items ≡ map H.digests.leaf (map items_of rows.now)) }
{
    let mut leaves = Vec::with_capacity(alloc, rows.len())?;
    let groups = rows.len() / 8;
    for group in 0..groups {
        let eight = first_eight_leaves::<H>(&rows[8 * group..]);
        for j in 0..8 {
            leaves.push(eight[j])?;
        }
    }
    for i in 8 * groups..rows.len() {
        leaves.push(H::leaf(&rows[i]))?;
    }
    Ok(leaves)
}

/// The layer above: for each two neighbours one node, the even place's digest first. A last digest
/// without a neighbour is left out. It is Err only where an allocation failed.
pub fn next_layer<H: TreeHash>(
    alloc: Global,
    layer: &[[u8; 32]],
) -> Result<Vec<[u8; 32]>, AllocError>
    ensures { IfOk result (λ above. above.items ≡ paired H.digests.node layer.now) }
{
    let mut above = Vec::with_capacity(alloc, layer.len() / 2)?;
    let groups = layer.len() / 16;
    for group in 0..groups {
        let nodes = nodes_over::<H>(layer, group);
        for j in 0..8 {
            above.push(nodes[j])?;
        }
    }
    for i in 8 * groups..layer.len() / 2 {
        above.push(H::node(&layer[2 * i], &layer[2 * i + 1]))?;
    }
    Ok(above)
}

/// The leaves, and the `depth` layers above them, lowest first: the last of them is the root alone
/// where there are 2^`depth` leaves. With fewer leaves the last ones are empty, so that `depth` is
/// what the caller pays for. It is Err only where an allocation failed.
pub fn tree_layers<H: TreeHash>(
    alloc: Global,
    leaves: Vec<[u8; 32]>,
    depth: usize,
) -> Result<Vec<Vec<[u8; 32]>>, AllocError>
    ensures { IfOk result (λ layers. digests_in layers.items
        ≡ layers_from H.digests.node depth leaves.items) }
{
    let mut layers = Vec::new(alloc);
    let mut layer = leaves;
    for _level in 0..depth {
        let above = next_layer::<H>(alloc, &layer)?;
        layers.push(layer)?;
        layer = above;
    }
    layers.push(layer)?;
    Ok(layers)
}

/// The one digest of a layer; None where it hasn't exactly one.
fn sole(layer: &[[u8; 32]]) -> Option<[u8; 32]>
    ensures { result ≡ sole layer.now }
{
    if layer.len() == 1 {
        Some(layer[0])
    } else {
        None
    }
}

/// The root of a tree's layers: the one digest of the last layer. None exactly where there are no
/// layers, or the last one hasn't exactly one digest.
pub fn root_in(layers: &[Vec<[u8; 32]>]) -> Option<[u8; 32]>
    ensures { result ≡ top_of (digests_in layers.now) }
{
    match layers.len().checked_sub(1) {
        Some(last) => sole(&layers[last]),
        None => None,
    }
}

/// The place beside a place.
fn neighbour(place: usize) -> usize
    requires { place + 1 < 2 ^ 64 }
    ensures { result ≡ neighbour place }
{
    if place % 2 == 0 { place + 1 } else { place - 1 }
}

/// The neighbours on the way up from the leaf at the place `index`, lowest first: one digest for
/// each layer below the last. From layer to layer the place is halved. None exactly where there are
/// no layers, one has no digest at the place, or one below the last has none beside it. It is Err
/// only where an allocation failed.
pub fn path_in(
    alloc: Global,
    layers: &[Vec<[u8; 32]>],
    index: usize,
) -> Result<Option<Vec<[u8; 32]>>, AllocError>
    ensures path { IfOk result (λ path. IfSome path
        (λ path. IsPathIn (digests_in layers.now) index path.items)) }
    ensures is_found { IfOk result (λ path. IsSome path ↔ HasPath (digests_in layers.now) index) }
{
    let Some(last) = layers.len().checked_sub(1) else {
        return Ok(None);
    };
    let mut path = Vec::new(alloc);
    let mut place = index;
    for level in 0..last {
        let layer = &layers[level];
        if place >= layer.len() {
            return Ok(None);
        }
        let beside = neighbour(place);
        if beside >= layer.len() {
            return Ok(None);
        }
        path.push(layer[beside])?;
        place /= 2;
    }
    if place >= layers[last].len() {
        return Ok(None);
    }
    Ok(Some(path))
}
