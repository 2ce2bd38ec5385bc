//! The verifier by one call, with what it means.
ghost use Rattle.std.specs.Prelude.{IsTrue};

use stark_answers::Verdict;
use stark_service::{NamedFields, StatementAnswers, verify_statement};
use std::alloc::Global;

/// Whether a proof is accepted for a statement. Where it is, columns that take the opened values
/// break no constraint of the statement's AIR, or a challenge is bad.
pub fn is_accepted(alloc: Global, statement: &[u8], proof: &[u8]) -> bool
    ensures { IsTrue result
        → ⟦<NamedFields as StatementAnswers>⟧.sound statement.now proof.now }
{
    let report = verify_statement(alloc, statement, proof);
    report.answer == Verdict::Accepted
}
