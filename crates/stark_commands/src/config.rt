//! The configuration that an input is proved and verified with.

ghost use Rattle.std.specs.Prelude.{◌≡◌};
ghost use Rattle.stark_clear.specs.ClearScheme.{clear_pcs};

use crate::input::Extension;
use stark_bench::{ClearCommitment, F12289};
use stark_clear::{ClearPcs, ClearProof};
use stark_parts::StarkConfig;
use stark_proof::Proof;

/// A configuration with the scheme in the clear.
pub type ClearConfig<F, EF, C> = StarkConfig<ClearPcs<F>, EF, C>;

/// The programs' configuration, with one of their challengers.
pub type ProgramConfig<C> = ClearConfig<F12289, Extension, C>;

/// The proofs of the programs' configuration.
pub type ProgramProof = Proof<ClearCommitment<F12289>, Extension, ClearProof, F12289>;

/// The scheme in the clear that stops nowhere, a challenger in its first state, and so many bits of
/// work before the point out of the domain and before alpha.
pub(crate) fn clear_config<F, EF, C>(
    challenger: C,
    ood_bits: usize,
    alpha_bits: usize,
) -> ClearConfig<F, EF, C>
    ensures pcs { result.pcs ≡ clear_pcs }
    ensures challenger { result.challenger ≡ challenger }
    ensures ood_bits { result.ood_proof_of_work_bits ≡ ood_bits }
    ensures alpha_bits { result.constraint_proof_of_work_bits ≡ alpha_bits }
{
    StarkConfig::new(ClearPcs::new(), challenger)
        .with_ood_proof_of_work_bits(ood_bits)
        .with_constraint_proof_of_work_bits(alpha_bits)
}
