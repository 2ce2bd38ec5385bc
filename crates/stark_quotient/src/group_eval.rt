//! How an AIR's constraints are evaluated at a group of points.
ghost use Rattle.std.specs.Prelude.{◌≡◌, IfOk};
ghost use Rattle.stark_quotient.specs.Groups.{AreFoldedBy, FitsLayout, Folds};
ghost use Rattle.stark_support.specs.Lanes.{EmbedsLanes};

use crate::plain_eval::GroupOf;
use stark_air::Air;
use stark_parts::{StarkFields, StarkGenericConfig, Val};
use stark_support::{ExtensionField, Field, PackedValue};
use std::alloc::{AllocError, Global};

/// Evaluates an AIR's constraints at one group of points after the other, a point a lane, with one
/// set of buffers.
pub(crate) trait GroupEval<SC: StarkGenericConfig, A: Air<Val<SC>>>: Drop {
    /// Packed values of the base field.
    type Packed: PackedValue<Value = Val<SC>>;

    /// Packed values of the extension, as many.
    type PackedAbove: PackedValue<Value = SC::Challenge> + From<Self::Packed>;

    /// The evaluator, with empty buffers.
    fn new(alloc: Global) -> Self;

    /// In each lane the folded sum of an AIR's constraints over the row there: `alpha^(n - 1 - j)`
    /// times constraint `j` for each of the `n`. Err only where memory was refused.
    fn fold(
        &mut self,
        alloc: Global,
        air: &A,
        group: &GroupOf<'_, SC, Self::Packed>,
    ) -> Result<Self::PackedAbove, AllocError>
        requires rows { FitsLayout group.now (A.layout air.now) }
        requires powers { AreFoldedBy SC.Challenge.ring SC.Challenge.coordinates
            SC.Challenge.DIMENSION (A.constraints air.now) group.now.powers.now }
        ensures { IfOk result (Folds group.now ⟦<SC as StarkFields>⟧.fields Self.Packed.lanes
            Self.PackedAbove.lanes Self.PackedAbove.WIDTH (A.constraints air.now)) };

    /// Packed values of the base field that are turned into some of the extension are each
    /// embedded.
    ghost from_packed_is: { EmbedsLanes SC.Challenge.embed Self.Packed.lanes Self.PackedAbove.lanes
        ⟦<Self::PackedAbove as From<Self::Packed>>⟧.from_gives };

    /// The lanes are added and multiplied as the extension's elements.
    ghost extension_ring: { Self.PackedAbove.lane_ring ≡ SC.Challenge.ring };

    ghost as_wide: { Self.PackedAbove.WIDTH ≡ Self.Packed.WIDTH };
}
