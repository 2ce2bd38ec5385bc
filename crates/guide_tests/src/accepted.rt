//! The verifier by one call.
use stark_answers::Verdict;
use stark_service::verify_statement;
use std::alloc::Global;

/// Whether a proof is accepted for a statement.
pub fn is_accepted(alloc: Global, statement: &[u8], proof: &[u8]) -> bool {
    match verify_statement(alloc, statement, proof).answer {
        Verdict::Accepted => true,
        _ => false,
    }
}
