//! Claims of words' values.
ghost use Rattle.stark_fri_soundness.specs.BaseWords.{BaseClaimsFollow, BaseWordsAgree};
ghost use Rattle.stark_fri_soundness.specs.Claims.{ClaimsAreSound, ColumnIndex, OnePolynomial};

use stark_support::{ExtensionField, Field, TwoAdicField};

/// A law, with no code: where the quotient of a claim agrees with a polynomial of degree below `d`,
/// the word agrees with one of degree below `d + 1` of which the claim is true.
pub fn claims_are_sound<F: Field>(_some: F)
    ensures { ClaimsAreSound F.ring F.inverse_of }
{}

/// A law, with no code: two polynomials of degree below `d` that agree with one word on all but `e`
/// of `n` places each are equal, where `2 e + d` is at most `n`.
pub fn one_polynomial<F: Field>(_some: F)
    ensures { OnePolynomial F.ring }
{}

/// A law, with no code: a word over the base field that agrees at `d` places or more with a
/// polynomial of degree below `d` over the extension agrees there with one over the base field.
pub fn base_words_agree<F: TwoAdicField, EF: ExtensionField<F>>(_base: F, _some: EF)
    ensures { BaseWordsAgree F.ring EF.ring EF.embed }
{}

/// A law, with no code: claims of columns over the base field that hold by polynomials over the
/// extension hold by polynomials over the base field, where there are more places than the degree.
pub fn base_claims_follow<F: TwoAdicField, EF: ExtensionField<F>>(_base: F, _some: EF)
    ensures { BaseClaimsFollow ColumnIndex F.ring EF.ring EF.embed }
{}
