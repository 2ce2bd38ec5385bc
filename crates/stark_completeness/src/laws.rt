//! A law of traces that satisfy an AIR.
ghost use Rattle.std.specs.Prelude.{ℕ, ◌^◌, ◌≤◌, All, length};
ghost use Rattle.stark_support.specs.Periodic.{ColumnFits};
ghost use Rattle.stark_completeness.specs.RowSatisfaction.{IsSatisfiedByRows};

use stark_air::Air;
use stark_parts::{StarkGenericConfig, Val};
use stark_protocol::StarkOperations;
use stark_support::GrindingChallenger;

/// A law, with no code: columns that take a trace's `2^log_height` rows satisfy an AIR exactly
/// where each constraint's tree is zero in each row, beside the row after it, round the end. So a
/// trace can be tested row by row.
pub fn satisfaction_is_row_by_row<SC: StarkGenericConfig, A: Air<Val<SC>>>(
    _config: &SC,
    _air: &A,
    log_height: usize,
)
where
    SC::Challenger: GrindingChallenger<Witness = Val<SC>>,
    requires within { log_height ≤ SC.Pcs.Domain.Val.TWO_ADICITY }
    requires fitting { All (λ column. ColumnFits (2 ^ log_height) (length column))
        (A.periodic_columns _air.now) }
    ensures { IsSatisfiedByRows ⟦<SC as StarkOperations>⟧.operations.opening.fields
        (A.constraints _air.now) (A.periodic_columns _air.now) log_height }
{}
