//! Values of committed columns.
ghost use Rattle.std.specs.Prelude.{◌≡◌, IfOk, map};
ghost use Rattle.stark_support.specs.Claims.{opened_view, round_view};
ghost use Rattle.stark_columns.specs.Opened.{opened_round};

use stark_bench::ClearCommitment;
use stark_columns::matrices_at;
use stark_support::{ExtensionField, Field, OpenedRounds, OpeningRound};
use std::alloc::{AllocError, Global};

/// For each round the values of its matrices' columns at the points.
pub fn open_rounds<F: Field, EF: ExtensionField<F>>(
    alloc: Global,
    rounds: &[OpeningRound<'_, EF, ClearCommitment<F>>],
) -> Result<OpenedRounds<EF>, AllocError>
    ensures { IfOk result (λ opened. opened_view opened
        ≡ map (opened_round EF.ring EF.embed) (map round_view rounds.now)) }
{
    let mut opened = Vec::new(alloc);
    for round in rounds {
        let data = round.0;
        let matrices = matrices_at::<F, EF>(alloc, data.matrices(), &round.1)?;
        opened.push(matrices)?;
    }
    Ok(opened)
}
