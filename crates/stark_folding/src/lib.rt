//! The algebra of FRI: polynomials and their values on cosets folded by two, a query's way through
//! the folds, and the one polynomial that claims of values are batched into.
#![tactic(auto)]

mod fold;
mod reduce;

pub use fold::{
    betas_are_few, fold_codeword, fold_codeword_in, fold_coefficients, fold_pair, fold_pair_in,
    folds_agree, walks_end,
};
pub use reduce::{reduce_claims, reductions_agree};
