//! What is found where a proof's worth has a floor.

ghost use Rattle.std.specs.Prelude.{◌≡◌, ◌⊎◌};
ghost use Rattle.stark_cli.specs.StatementRun.{IsFloorFinding, no_memory};

use stark_answers::{Finding, Report};
use stark_service::FloorVerdict;
use std::alloc::Global;

/// What a report says as a finding: the verdict; or the line of how many bits are proved, or that
/// memory is wanting for it.
pub(crate) fn floor_finding(alloc: Global, report: Report<FloorVerdict>) -> Report<Finding>
    ensures { IsFloorFinding report.answer result.answer ⊎ (result.answer ≡ no_memory) }
{
    match report.answer {
        FloorVerdict::Judged(verdict) => Report {
            answer: Finding::Verdict(verdict),
            reason: report.reason,
        },
        FloorVerdict::NotJudged { .. } => match report.answer.line(alloc) {
            Ok(line) => Report {
                answer: Finding::TooFewBits(line),
                reason: report.reason,
            },
            Err(_) => Report::out_of_memory().as_finding(),
        },
    }
}
