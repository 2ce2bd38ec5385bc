//! What the scheme's acceptance shows.
ghost use Rattle.stark_fri_prover.specs.Calls.{AcceptsSoundly};

use crate::pcs::FriPcs;
use stark_fri::FriCalls;
use stark_merkle::{Root, TreeHash};
use stark_support::{
    CanObserve, CanSample, ExtensionField, FieldChallenger, GrindingChallenger, Pcs, PrimeField64,
    TwoAdicField,
};

/// A law, with no code: of whatever claims and proofs the scheme accepts, also where a caller knows
/// no more than that, the clauses `sound` and `few` of `verify_openings` hold.
pub fn accepts_soundly<F, EF, C, H>(_scheme: &FriPcs<F, H>, _extension: &EF, _challenger: &C)
where
    F: TwoAdicField + PrimeField64,
    EF: ExtensionField<F>,
    C: FieldChallenger<F> + CanObserve<Root> + CanSample<EF> + GrindingChallenger<Witness = F>,
    H: TreeHash,
    ensures { AcceptsSoundly ⟦<FriPcs<F, H> as Pcs<EF, C>>⟧.scheme
        ⟦<C as FriCalls<F, EF, H>>⟧.fri_ops (λ s. s.parameters) }
{}
