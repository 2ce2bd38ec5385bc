//! A law of the quotient's domain.
ghost use Rattle.stark_parts.specs.SizingLaw.{AreSizable};

use crate::completeness::StarkCompleteness;
use stark_air::Air;
use stark_parts::{StarkGenericConfig, Val};
use stark_support::{GrindingChallenger, Pcs, PolynomialSpace};

/// A law, with no code: where each term of each constraint has at most one transition factor and no
/// degree multiple saturates, the constraints' degrees fit the quotient's domain, whatever the
/// height. So of these AIRs an honest proof has no premise on degrees.
pub fn degrees_fit_the_quotient<SC: StarkGenericConfig, A: Air<Val<SC>>>(_config: &SC, _air: &A)
where
    SC::Challenger: GrindingChallenger<Witness = Val<SC>>,
    requires sizable { AreSizable (A.constraints _air.now) }
    ensures { ⟦<SC as StarkCompleteness<A>>⟧.has_sized_degrees _config.now _air.now }
{}
