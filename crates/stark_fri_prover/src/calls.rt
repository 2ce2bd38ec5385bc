//! What the prover computes with, in one record.
ghost use Rattle.stark_merkle.specs.Bytes.{element_bytes};
ghost use Rattle.stark_merkle.specs.Tree.{digests_in};
ghost use Rattle.stark_fri_prover.specs.Calls.{ProverCalls};
ghost use Rattle.stark_fri_prover.specs.Commit.{data_seen};

use crate::commit::FriData;
use stark_bench::Coset;
use stark_fri::{FriCalls, FriChallenger};
use stark_merkle::TreeHash;
use stark_support::{ExtensionField, PolynomialSpace, PrimeField64, TwoAdicField};

/// What is computed with over fields, with a challenger and a hash, of domains and of the prover's
/// data.
pub trait Proving<F, EF, C, H, D> {
    ghost calls: { ProverCalls C F EF Self D };
}

impl<F, EF, C, H> Proving<F, EF, C, H, Coset<F>> for FriData<F>
where
    F: TwoAdicField + PrimeField64,
    EF: ExtensionField<F>,
    H: TreeHash,
    C: FriChallenger<F, EF>,
{
    ghost calls = { record {
      ops = ⟦<C as FriCalls<F, EF, H>>⟧.fri_ops;
      bytes_of = element_bytes F.BYTES F.number_of;
      coordinates = EF.coordinates;
      coset_of = ⟦<Coset<F> as PolynomialSpace>⟧.coset_of;
      data_of = λ d. data_seen d.root d.domain.log_size d.matrices d.extended;
      layers_of = λ d. digests_in d.layers.items;
    } };
}
