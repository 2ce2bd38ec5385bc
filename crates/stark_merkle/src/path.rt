//! Paths from a leaf to the root, and what they bind.
ghost use Rattle.std.specs.Prelude.{◌≡◌, ◌↔◌, ◌<◌, ◌^◌, IsTrue};
ghost use Rattle.stark_merkle.specs.Tree.{FullTreesHavePaths, FullTreesHaveRoots, LeadsTo, OwnRowsLeadToRoots, PathsBind, RowsBind, TopsAreRoots, TreesLeadToRoots, led};

use crate::hash::TreeHash;

/// Where a path leads from a digest at a place: at an even place the path's next digest comes
/// after, at an odd one before, and the next place is half of it.
pub fn root_of_path<H: TreeHash>(start: [u8; 32], index: usize, path: &[[u8; 32]]) -> [u8; 32]
    ensures { result ≡ led H.digests.node index start path.now }
{
    let mut digest = start;
    let mut place = index;
    for beside in path {
        if place % 2 == 0 {
            digest = H::node(&digest, beside);
        } else {
            digest = H::node(beside, &digest);
        }
        place /= 2;
    }
    digest
}

/// Whether a tree of that depth, which has 2^`depth` leaves, has the place.
pub(crate) fn has_place(depth: usize, index: usize) -> bool
    ensures { IsTrue result ↔ index < 2 ^ depth }
{
    depth >= 64 || index >> depth == 0
}

/// Whether the row stands at the place `index` of the tree of 2^`depth` leaves that has the root:
/// whether the path has `depth` digests, the place is one of the tree's, and the path leads from
/// the row's leaf to the root. Any text, place and depth are taken; at most `depth` nodes are made.
pub fn is_path_to<H: TreeHash>(
    root: &[u8; 32],
    depth: usize,
    index: usize,
    row: &[u8],
    path: &[[u8; 32]],
) -> bool
    ensures { IsTrue result ↔ LeadsTo H.digests root.now depth index row.now path.now }
{
    path.len() == depth
        && has_place(depth, index)
        && root_of_path::<H>(H::leaf(row), index, path) == *root
}

/// A law, with no code: in the layers of a tree each leaf's path leads to the root.
pub fn trees_lead_to_roots<H: TreeHash>(_depth: usize)
    ensures { TreesLeadToRoots H.digests _depth }
{}

/// A law, with no code: the digest that `root_in` finds in the layers of a tree is its root.
pub fn tops_are_roots<H: TreeHash>(_depth: usize)
    ensures { TopsAreRoots H.digests _depth }
{}

/// A law, with no code: over 2^depth leaves the last layer has one digest, so that `root_in` finds
/// it.
pub fn full_trees_have_roots<H: TreeHash>(_depth: usize)
    ensures { FullTreesHaveRoots H.digests _depth }
{}

/// A law, with no code: over 2^depth leaves each place has a path, so that `path_in` finds it.
pub fn full_trees_have_paths<H: TreeHash>(_depth: usize)
    ensures { FullTreesHavePaths H.digests _depth }
{}

/// A law, with no code: of each row of a tree over 2^depth leaves, `is_path_to` accepts the path
/// that `path_in` finds in the layers, to the root that `root_in` finds there.
pub fn own_rows_lead_to_roots<H: TreeHash>(_depth: usize)
    ensures { OwnRowsLeadToRoots H.digests _depth }
{}

/// A law, with no code: paths of one length that lead from different digests at one place to one
/// root show a collision.
pub fn paths_bind<H: TreeHash>(_index: usize)
    ensures { PathsBind H.digests _index }
{}

/// A law, with no code: two rows with different bytes that lead to one root from one place show a
/// collision.
pub fn rows_bind<H: TreeHash>(_depth: usize, _index: usize)
    ensures { RowsBind H.digests _depth _index }
{}
