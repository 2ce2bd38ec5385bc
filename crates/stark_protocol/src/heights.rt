//! Numbers of rows and points, by their logarithms.
ghost use Rattle.std.specs.Prelude.{◌≡◌, ◌^◌, ◌<◌, ◌≤◌};
ghost use Rattle.stark_support.specs.Scheme.{natural_coset};

use stark_parts::{Domain, StarkGenericConfig};
use stark_support::{Pcs, UnivariateStarkPcs};

/// The power of two with this exponent.
pub fn power_of_two(bits: usize) -> usize
    requires { bits < 64 }
    ensures { result ≡ 2 ^ bits }
{
    1 << bits
}

/// The scheme's domain of `2^log_size` points.
pub fn natural_domain<SC: StarkGenericConfig>(config: &SC, log_size: usize) -> Domain<SC>
    requires fits { log_size < 64 }
    requires within { log_size ≤ SC.Pcs.scheme.log_max_trace_height (SC.config.scheme config.now) }
    ensures { SC.Pcs.Domain.coset_of result ≡ natural_coset SC.Pcs.Domain.Val.ring log_size }
{
    config
        .pcs()
        .natural_domain_for_degree(power_of_two(log_size))
}
