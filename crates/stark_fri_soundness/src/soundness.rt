//! The whole of FRI, from claims to queries.
ghost use Rattle.stark_fri_soundness.specs.Claims.{ColumnIndex};
ghost use Rattle.stark_fri_soundness.specs.Sound.{BadDrawsAreDecided, FewAreBad};
ghost use Rattle.stark_fri_soundness.specs.Sound.{FewQueriesPass, FriIsSound};

use stark_support::{ExtensionField, TwoAdicField};

/// A law, with no code: where the claims are batched by the powers of one alpha, nothing drawn is
/// bad and all but `e` places pass, the columns agree there with polynomials of which all claims
/// are true.
pub fn fri_is_sound<F: TwoAdicField, EF: ExtensionField<F>>(_base: F, _some: EF)
    ensures { FriIsSound ColumnIndex EF.ring EF.inverse_of (λ k. EF.embed (F.root k))
        F.TWO_ADICITY }
{}

/// A law, with no code: nothing drawn is bad, or alpha is, or a beta is.
pub fn bad_draws_are_decided<F: TwoAdicField, EF: ExtensionField<F>>(_base: F, _some: EF)
    ensures { BadDrawsAreDecided ColumnIndex EF.ring EF.inverse_of (λ k. EF.embed (F.root k))
        F.TWO_ADICITY }
{}

/// A law, with no code: few alphas are bad, and at each fold few betas, whatever was drawn before.
pub fn few_are_bad<F: TwoAdicField, EF: ExtensionField<F>>(_base: F, _some: EF)
    ensures { FewAreBad ColumnIndex EF.ring EF.inverse_of (λ k. EF.embed (F.root k))
        F.TWO_ADICITY }
{}

/// A law, with no code: no more lists of places lie in a set than a power of the number of its
/// places, whose exponent is the length of the lists.
pub fn few_queries_pass()
    ensures { FewQueriesPass }
{}
