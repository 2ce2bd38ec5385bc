//! Verdicts on proofs that are worth enough.

ghost use Rattle.std.specs.Prelude.{◌≡◌, ℕ, List, Option, IfOk, string_bytes};
ghost use Rattle.stark_answers.specs.declared.verdict.Verdict.{Verdict};
ghost use Rattle.stark_service.specs.Floor.{IsFloored, IsWorthOf, IsWorthOfProof, OrFloorLacksMemory, floor_end, floor_line};
ghost use Rattle.stark_service.specs.declared.floor.FloorVerdict.{FloorVerdict};

use crate::proof_heights::{ProofHeights, log_height_of};
use crate::statement::{NamedFields, StatementAnswers, copied, verify_statement};
use crate::worth::{SecurityError, StatementSecurity, statement_security};
use stark_answers::{Report, RunEnd, Verdict};
use std::alloc::{AllocError, Global};

/// What is said of a proof where its worth has a floor.
#[derive(Clone, Copy, Debug, PartialEq, Eq)]
pub enum FloorVerdict {
    /// No fewer bits are proved than are asked for, or there is no proof: the verdict.
    Judged(Verdict),
    /// How many bits are proved over traces as high as the proof's: fewer than are asked for.
    NotJudged { proved: usize },
}

impl FloorVerdict {
    /// The line that says it, with its newline: the verdict's, or `not judged: worth 38 proved bits
    /// at this height`. Err only where memory was refused.
    pub fn line(self, alloc: Global) -> Result<String, AllocError>
        ensures { IfOk result (λ line. string_bytes line ≡ floor_line self) }
    {
        match self {
            FloorVerdict::Judged(verdict) => {
                let line = verdict.line();
                format!(in alloc; "{line}")
            }
            FloorVerdict::NotJudged { proved } => {
                format!(in alloc; "not judged: worth {proved} proved bits at this height\n")
            }
        }
    }

    /// How a run ends that has written the line.
    pub fn end(self) -> RunEnd
        ensures { result ≡ floor_end self }
    {
        match self {
            FloorVerdict::Judged(verdict) => verdict.end(),
            FloorVerdict::NotJudged { .. } => RunEnd::BelowFloor,
        }
    }
}

/// Verdicts where the proofs' worth has a floor.
pub trait FloorAnswers: StatementAnswers {
    /// What a proof for a statement is worth; None where there is no proof, or no statement within
    /// the limits.
    ghost worth: { List ℕ → List ℕ → Option ℕ → Type 0 };

    /// This is said of a statement and a proof, where a floor in proved bits is set.
    ghost floored: { ℕ → List ℕ → List ℕ → FloorVerdict → Type 0 };

    /// What is said of a proof, as `verify_at_least` says it.
    fn verify_at_least(
        alloc: Global,
        floor: usize,
        statement: &[u8],
        proof: &[u8],
    ) -> Report<FloorVerdict>
        ensures verdict { OrFloorLacksMemory (floored floor statement.now proof.now) result.answer }
        ensures sound { result.answer ≡ FloorVerdict.Judged Verdict.Accepted
            → Self.sound statement.now proof.now };
}

impl FloorAnswers for NamedFields {
    ghost worth = { λ statement proof. IsWorthOfProof
        (⟦<NamedFields as ProofHeights>⟧.height statement proof)
        (⟦<NamedFields as StatementSecurity>⟧.security statement) };

    ghost floored = { λ floor statement proof. IsFloored
        (⟦<NamedFields as ProofHeights>⟧.height statement proof)
        (⟦<NamedFields as StatementSecurity>⟧.security statement)
        (⟦<NamedFields as StatementAnswers>⟧.verdict statement proof) floor };

    fn verify_at_least(
        alloc: Global,
        floor: usize,
        statement: &[u8],
        proof: &[u8],
    ) -> Report<FloorVerdict> {
        verify_at_least(alloc, floor, statement, proof)
    }
}

/// How many bits of a statement's proofs are proved over traces of `2^log_height` rows: none where
/// none are stated. None where there is no statement within the limits; Err only where memory was
/// refused.
fn proved_at(
    alloc: Global,
    statement: &[u8],
    log_height: usize,
) -> Result<Option<usize>, AllocError>
    ensures { IfOk result (IsWorthOf
        (⟦<NamedFields as StatementSecurity>⟧.security statement.now log_height)) }
{
    match statement_security(alloc, statement, log_height) {
        Ok(bits) => Ok(Some(bits.proved)),
        Err(error) => match error {
            SecurityError::TooHigh | SecurityError::NotStated => Ok(Some(0)),
            SecurityError::Statement(Verdict::OutOfMemory) => Err(AllocError),
            SecurityError::Statement(_) => Ok(None),
        },
    }
}

/// The same over traces as high as a proof's; None also where there is no proof.
fn proved_of_proof(
    alloc: Global,
    statement: &[u8],
    proof: &[u8],
) -> Result<Option<usize>, AllocError>
    ensures { IfOk result (⟦<NamedFields as FloorAnswers>⟧.worth statement.now proof.now) }
{
    let copy = copied(alloc, statement)?;
    let height = log_height_of(alloc, copy, proof)?;
    match height {
        Some(log_height) => proved_at(alloc, statement, log_height),
        None => Ok(None),
    }
}

/// A report on a proof that wasn't judged.
fn not_judged(proved: usize) -> Report<FloorVerdict>
    ensures { result.answer ≡ FloorVerdict.NotJudged proved }
{
    Report {
        answer: FloorVerdict::NotJudged { proved },
        reason: None,
    }
}

/// A report on a proof that was judged.
fn judged(report: Report<Verdict>) -> Report<FloorVerdict>
    ensures { result.answer ≡ FloorVerdict.Judged report.answer }
{
    Report {
        answer: FloorVerdict::Judged(report.answer),
        reason: report.reason,
    }
}

/// The verdict on a proof for a statement, as `verify_statement` says it, where no fewer bits than
/// `floor` are proved of the statement's proofs over traces as high as this proof's. Where fewer
/// are, nothing is said of the proof but how many; where none are stated for the statement, or no
/// trace is so high by its scheme, these are 0. Where there is no statement within the limits or no
/// proof, the verdict says so.
///
/// A statement is a stranger's where a service takes many: it may ask for one query and no work, or
/// for a field too small for anything. What such a proof is worth depends on its height too, which
/// whoever proves chooses. So a service that takes statements as they come asks this call.
pub fn verify_at_least(
    alloc: Global,
    floor: usize,
    statement: &[u8],
    proof: &[u8],
) -> Report<FloorVerdict>
    ensures verdict { OrFloorLacksMemory (⟦<NamedFields as FloorAnswers>⟧.floored floor
        statement.now proof.now) result.answer }
    ensures sound { result.answer ≡ FloorVerdict.Judged Verdict.Accepted
        → ⟦<NamedFields as StatementAnswers>⟧.sound statement.now proof.now }
{
    match proved_of_proof(alloc, statement, proof) {
        Ok(Some(proved)) => {
            if proved < floor {
                return not_judged(proved);
            }
            judged(verify_statement(alloc, statement, proof))
        }
        Ok(None) => judged(verify_statement(alloc, statement, proof)),
        Err(AllocError) => judged(Report::out_of_memory()),
    }
}
