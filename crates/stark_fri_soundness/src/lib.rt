//! The soundness of FRI by count: which challenges are bad, how few they are, and what the queries
//! that pass say of the words where no challenge is bad.
#![tactic(auto)]

mod claims;
mod folds;
mod lines;
mod powers;
mod soundness;

pub use claims::{base_claims_follow, base_words_agree, claims_are_sound, one_polynomial};
pub use folds::{few_bad_betas, folds_are_sound, queries_pass};
pub use lines::few_bad_lines;
pub use powers::{few_bad_powers, powers_are_sound};
pub use soundness::{bad_draws_are_decided, few_are_bad, few_queries_pass, fri_is_sound};
