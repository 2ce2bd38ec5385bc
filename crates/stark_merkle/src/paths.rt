//! Eight paths at once, side by side.
ghost use Rattle.std.specs.Prelude.{◌≡◌, ◌↔◌, ◌<◌, ◌≤◌, ◌/◌, IsTrue, ℕ, [], length, map, slice_index, slice_index_or};
ghost use Rattle.stark_merkle.specs.Eight.{AreLed, ArePairs, EightLead, HaveDepth, HavePlaces, first_of, path_at};
ghost use Rattle.stark_merkle.specs.Tree.{items_of};

use crate::hash::{TreeHash, first_eight_leaves};
use crate::path::has_place;

/// Whether each of eight paths has `depth` digests.
fn have_depth(depth: usize, paths: &[&[[u8; 32]]; 8]) -> bool
    ensures { IsTrue result ↔ HaveDepth depth paths.now }
{
    for i in 0..8 {
        if paths[i].len() != depth {
            return false;
        }
    }
    true
}

/// Whether a tree of that depth has each of eight places.
fn have_places(depth: usize, indices: &[usize; 8]) -> bool
    ensures { IsTrue result ↔ HavePlaces depth indices.now }
{
    for i in 0..8 {
        if !has_place(depth, indices[i]) {
            return false;
        }
    }
    true
}

/// Whether each of eight digests is that of the root.
fn are_all(root: &[u8; 32], digests: &[[u8; 32]; 8]) -> bool
    ensures { IsTrue result ↔ ((i : ℕ) → i < 8 → slice_index_or digests.now i [] ≡ root.now) }
{
    for i in 0..8 {
        if digests[i] != *root {
            return false;
        }
    }
    true
}

/// Of a digest at a place and the one beside it, the one that comes first: that of the even place.
fn first_of(place: usize, digest: [u8; 32], beside: [u8; 32]) -> [u8; 32]
    ensures { result ≡ first_of place digest beside }
{
    if place % 2 == 0 { digest } else { beside }
}

/// The digest of a path at a level.
fn digest_at(path: &[[u8; 32]], level: usize) -> [u8; 32]
    requires { level < length path.now }
    ensures { result ≡ slice_index_or path.now level [] }
{
    path[level]
}

/// Eight digests at places, each with the one beside it on its path at a level, in the order of
/// their places.
fn pairs_at(
    places: &[usize; 8],
    digests: &[[u8; 32]; 8],
    paths: &[&[[u8; 32]]; 8],
    level: usize,
) -> [[u8; 32]; 16]
    requires { (i : ℕ) → i < 8 → level < length (path_at paths.now i) }
    ensures { ArePairs 8 places.now digests.now paths.now level result }
{
    let mut pairs = [[0; 32]; 16];
    for i in 0..8 {
        let digest = digests[i];
        let beside = digest_at(paths[i], level);
        pairs[2 * i] = first_of(places[i], digest, beside);
        pairs[2 * i + 1] = first_of(places[i], beside, digest);
    }
    pairs
}

/// Half of each place.
fn halved(places: &[usize; 8]) -> [usize; 8]
    ensures { (i : ℕ) → i < 8 → slice_index result i ≡ slice_index places.now i / 2 }
{
    let mut halves = *places;
    for i in 0..8 {
        halves[i] /= 2;
    }
    halves
}

/// Where eight paths of `depth` digests lead from digests at places.
fn roots_of_paths<H: TreeHash>(
    starts: [[u8; 32]; 8],
    indices: &[usize; 8],
    depth: usize,
    paths: &[&[[u8; 32]]; 8],
) -> [[u8; 32]; 8]
    requires { HaveDepth depth paths.now }
    ensures { AreLed H.digests indices.now starts paths.now result }
{
    let mut digests = starts;
    let mut places = *indices;
    for level in 0..depth {
        digests = H::eight_nodes(&pairs_at(&places, &digests, paths, level));
        places = halved(&places);
    }
    digests
}

/// Whether eight rows stand each at its place of one tree of 2^`depth` leaves that has the root, by
/// its path: exactly where `is_path_to` says so of each. `rows` has the bytes of eight rows, or of
/// more, which aren't looked at. Any texts, places and depth are taken; at most `depth` nodes are
/// made of each. Where the texts have one length, all is hashed side by side.
pub fn eight_lead<H: TreeHash>(
    root: &[u8; 32],
    depth: usize,
    indices: &[usize; 8],
    rows: &[Vec<u8>],
    paths: &[&[[u8; 32]]; 8],
) -> bool
    requires { 8 ≤ length rows.now }
    ensures { IsTrue result
        ↔ EightLead H.digests root.now depth indices.now (map items_of rows.now) paths.now }
{
    if !have_depth(depth, paths) || !have_places(depth, indices) {
        return false;
    }
    let starts = first_eight_leaves::<H>(rows);
    are_all(root, &roots_of_paths::<H>(starts, indices, depth, paths))
}
