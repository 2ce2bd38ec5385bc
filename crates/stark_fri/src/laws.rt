//! The scheme's laws.
ghost use Rattle.std.specs.Prelude.{◌<◌};
ghost use Rattle.stark_support.specs.Scheme.{SchemeLaws};
ghost use Rattle.stark_fri.specs.Parts.{FriOps};
ghost use Rattle.stark_fri.specs.Scheme.{OwnClaimsAreEnough, plain_scheme};
ghost use Rattle.stark_fri.specs.Soundness.{AcceptedIsSound};

use crate::sponge::{FriCalls, FriChallenger};
use stark_merkle::TreeHash;
use stark_support::{ExtensionField, PrimeField64, TwoAdicField};

/// A law, with no code: whatever fields, challenger and hash it is made of, the scheme keeps the
/// laws of schemes. So no claims are both accepted and refused.
pub fn no_claim_is_both<C, F, EF>(_some: &C, _base: &F, _extension: &EF)
    ensures { (ops : FriOps C F EF) → ops.fields.adicity < 64 → SchemeLaws (plain_scheme ops) }
{}

/// A law, with no code: what is accepted of the claims that the prover's data and points give, the
/// verifier accepts of the true claims of any matrices that the data stand for.
pub fn own_claims_are_enough<C, F, EF>(_some: &C, _base: &F, _extension: &EF)
    ensures { (ops : FriOps C F EF) → OwnClaimsAreEnough ops }
{}

/// A law, with no code: whatever is accepted shows of words that lead to its roots what the clauses
/// `sound` and `few` of `verify_openings` say.
pub fn accepted_is_sound<C, F, EF, H>(_some: &C, _base: &F, _extension: &EF, _hash: &H)
where
    F: TwoAdicField + PrimeField64,
    EF: ExtensionField<F>,
    H: TreeHash,
    C: FriChallenger<F, EF>,
    ensures { AcceptedIsSound ⟦<C as FriCalls<F, EF, H>>⟧.fri_ops }
{}
