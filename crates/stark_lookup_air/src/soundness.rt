//! What it takes for columns to satisfy an AIR with lookups.
ghost use Rattle.std.specs.Prelude.{◌^◌, ◌≤◌, ℕ};
ghost use Rattle.stark_support.specs.TwoAdic.{HasOrder};
ghost use Rattle.stark_lookup_air.specs.LookupPairs.{FewPairsPass};
ghost use Rattle.stark_lookup_air.specs.LookupSoundness.{SatisfyingPasses};

use stark_air::Air;
use stark_security::AirOver;
use stark_support::{ExtensionField, Field};

/// A law, with no code: where an AIR's own columns, with any auxiliary ones, satisfy its
/// constraints and those of its lookups, they satisfy its own, and the draws among the public
/// values let the tuples that its own columns list pass. So few draws do where a tuple isn't
/// balanced.
pub fn satisfying_columns_pass<F: Field, EF: ExtensionField<F>, A: Air<F>>(
    _air: &A,
    _generator: F,
    _element: EF,
    log_size: usize,
)
    requires { HasOrder F.ring _generator (2 ^ log_size) }
    ensures { SatisfyingPasses (⟦<A as AirOver<F, EF>>⟧.instance _air.now _generator log_size) }
{}

/// A law, with no code: where some tuple of n entries of w elements isn't balanced, of a list of
/// betas and one of gammas at most (n - 1)(w - 1) pairs for each gamma, and 2 n - 1 for each beta,
/// let any auxiliary columns pass.
pub fn few_pairs_pass<F: Field>(_some: F)
    ensures { FewPairsPass F.ring }
{}
