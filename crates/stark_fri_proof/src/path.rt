//! Paths to a root, as a proof carries them.
ghost use Rattle.std.specs.Prelude.{◌≡◌};
ghost use Rattle.stark_fri_proof.specs.Paths.{AreDigests, digests_of};

use stark_merkle::Root;
use std::marker::Model;

/// The path from a leaf to a root: one digest of 32 bytes a layer, lowest first. Contracts see a
/// digest as the root that it is of the tree below it.
#[derive(Debug, Drop)]
pub struct MerklePath {
    digests: Vec<[u8; 32]>,
    ghost are: { AreDigests digests.items },
}

impl Model for MerklePath {
    ghost use Rattle.std.specs.Prelude.{List};
    ghost use Rattle.stark_merkle.specs.declared.root.Root.{Root};
    ghost use Rattle.stark_fri_proof.specs.Paths.{roots_of};

    ghost Value = { List Root };

    ghost view = { λ p. roots_of p.digests.items p.are };
}

/// What their type says of digests: each is 32 bytes.
fn are_digests(digests: &[[u8; 32]])
    ensures { AreDigests digests.now }
{
    // A root says so of its bytes.
    for digest in digests {
        let _root = Root::new(*digest);
    }
}

impl MerklePath {
    /// The path of these digests, lowest first.
    pub fn new(digests: Vec<[u8; 32]>) -> MerklePath
        ensures { digests_of result ≡ digests.items }
    {
        are_digests(&digests);
        MerklePath { digests }
    }

    /// The digests, lowest first.
    pub fn digests(&self) -> &[[u8; 32]]
        ensures { result.now ≡ digests_of self.now }
    {
        &self.digests
    }
}
