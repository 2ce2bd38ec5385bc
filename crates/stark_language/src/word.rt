//! The words that a line begins with.
ghost use Rattle.std.specs.Prelude.{◌≡◌};
ghost use Rattle.std.specs.Str.{bytes_eq};
ghost use Rattle.stark_language.specs.Words.{configuration_member, statement_member, word_of};

use crate::tree::Member;

/// What the first word of a line means.
#[derive(Clone, Copy)]
pub(crate) enum Word {
    Columns,
    Public,
    Periodic,
    Fixed,
    Let,
    Member(Member),
}

/// Whether a name is this word.
fn is(name: &[u8], word: &str) -> bool
    ensures { result ≡ bytes_eq name.now word.now }
{
    name == word.as_bytes()
}

#[tactic(auto, unfolding(crate::specs::Words::configuration_member))]
/// The member of a configuration that has this name.
fn configuration_member(name: &[u8]) -> Option<Member>
    ensures { result ≡ configuration_member name.now }
{
    if is(name, "field") {
        Some(Member::Field)
    } else if is(name, "scheme") {
        Some(Member::Scheme)
    } else if is(name, "log_blowup") {
        Some(Member::LogBlowup)
    } else if is(name, "log_final_poly_len") {
        Some(Member::LogFinalPolyLen)
    } else if is(name, "num_queries") {
        Some(Member::NumQueries)
    } else if is(name, "commit_proof_of_work_bits") {
        Some(Member::CommitProofOfWorkBits)
    } else if is(name, "query_proof_of_work_bits") {
        Some(Member::QueryProofOfWorkBits)
    } else {
        None
    }
}

#[tactic(auto, unfolding(crate::specs::Words::statement_member))]
/// The member of a statement or of its AIR that has this name, else that of its configuration.
fn statement_member(name: &[u8]) -> Option<Member>
    ensures { result ≡ statement_member name.now }
{
    if is(name, "config") {
        Some(Member::Config)
    } else if is(name, "alpha_bits") {
        Some(Member::AlphaBits)
    } else if is(name, "ood_bits") {
        Some(Member::OodBits)
    } else if is(name, "log_height") {
        Some(Member::LogHeight)
    } else if is(name, "max_constraint_degree") {
        Some(Member::MaxConstraintDegree)
    } else if is(name, "num_constraints") {
        Some(Member::NumConstraints)
    } else {
        configuration_member(name)
    }
}

#[tactic(auto, unfolding(crate::specs::Words::word_of))]
/// What a name means as the first word of a line.
pub(crate) fn word_of(name: &[u8]) -> Option<Word>
    ensures { result ≡ word_of name.now }
{
    if is(name, "columns") {
        Some(Word::Columns)
    } else if is(name, "public") {
        Some(Word::Public)
    } else if is(name, "periodic") {
        Some(Word::Periodic)
    } else if is(name, "fixed") {
        Some(Word::Fixed)
    } else if is(name, "let") {
        Some(Word::Let)
    } else {
        statement_member(name).map(Word::Member)
    }
}
