//! What a tree hashes with.
ghost use Rattle.std.specs.Prelude.{◌≡◌, ◌<◌, ◌+◌, ◌*◌, ◌≤◌, [], ℕ, length, map, slice_index_or};
ghost use Rattle.stark_sha256.specs.Pieces.{piece};
ghost use Rattle.stark_merkle.specs.Tree.{AreDigests, AreNodesOf, TreeDigests, items_of};
ghost use Rattle.stark_merkle.specs.Sha.{sha_are_digests, sha_digests};

use sha2::{Digest, Sha256};
use stark_sha256::{compress_eight, compress_pair, sha256_eight};

/// The digests of leaves and of nodes, of 32 bytes each. A tree's laws hold of any; what they bind,
/// they bind as far as nobody finds two texts with one leaf, or two pairs of digests with one node.
pub trait TreeHash {
    ghost digests: { TreeDigests };

    /// A leaf: the digest of a row's bytes.
    fn leaf(row: &[u8]) -> [u8; 32]
        ensures { result ≡ digests.leaf row.now };

    /// A node: the digest of two digests, that of the even place first.
    fn node(left: &[u8; 32], right: &[u8; 32]) -> [u8; 32]
        ensures { result ≡ digests.node left.now right.now };

    /// Eight leaves at once.
    fn eight_leaves(rows: &[&[u8]; 8]) -> [[u8; 32]; 8]
        ensures { (i : ℕ) → i < 8
            → slice_index_or result i [] ≡ digests.leaf (piece rows.now i) };

    /// Eight nodes at once, over eight pairs of digests that lie one after the other.
    fn eight_nodes(pairs: &[[u8; 32]]) -> [[u8; 32]; 8]
        requires { 16 ≤ length pairs.now }
        ensures { AreNodesOf digests pairs.now 0 result };

    ghost are_digests: { AreDigests digests };
}

/// The leaves over the first eight rows, whose bytes are given.
pub fn first_eight_leaves<H: TreeHash>(rows: &[Vec<u8>]) -> [[u8; 32]; 8]
    requires { 8 ≤ length rows.now }
    ensures { (i : ℕ) → i < 8 → slice_index_or result i []
        ≡ H.digests.leaf (slice_index_or (map items_of rows.now) i []) }
{
    H::eight_leaves(&[
        &rows[0], &rows[1], &rows[2], &rows[3], &rows[4], &rows[5], &rows[6], &rows[7],
    ])
}

/// Nodes `8 * group` to `8 * group + 7` of the layer above.
pub(crate) fn nodes_over<H: TreeHash>(layer: &[[u8; 32]], group: usize) -> [[u8; 32]; 8]
    requires { 16 * (group + 1) ≤ length layer.now }
    ensures { AreNodesOf H.digests layer.now (8 * group) result }
{
    H::eight_nodes(&layer[16 * group..])
}

/// Trees over SHA-256. A leaf is the SHA-256 digest of the byte 0 and a row's bytes after it. A
/// node is one compression of the block that its two digests are, by SHA-256's function from a
/// starting value that no text is hashed from.
#[derive(Clone, Copy, Debug)]
pub struct Sha256Tree;

impl TreeHash for Sha256Tree {
    ghost digests = { sha_digests };

    fn leaf(row: &[u8]) -> [u8; 32] {
        let mut hasher = Sha256::new();
        hasher.update(&[0]);
        hasher.update(row);
        hasher.finalize()
    }

    fn node(left: &[u8; 32], right: &[u8; 32]) -> [u8; 32] {
        compress_pair(left, right)
    }

    fn eight_leaves(rows: &[&[u8]; 8]) -> [[u8; 32]; 8] {
        let nothing: &[u8] = &[];
        sha256_eight([0; 8], rows, &[nothing; 8])
    }

    fn eight_nodes(pairs: &[[u8; 32]]) -> [[u8; 32]; 8] {
        compress_eight(pairs)
    }

    ghost are_digests = { sha_are_digests };
}
