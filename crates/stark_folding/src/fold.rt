//! Folding by two.
ghost use Rattle.std.specs.Prelude.{◌≡◌, ◌≢◌, ℕ, ◌^◌, ◌≤◌, IfOk, length};
ghost use Rattle.stark_folding.specs.Fold.{folded, folded_pair};
ghost use Rattle.stark_folding.specs.Laws.{BetasAreFew, FoldsAgree, FoldsOn, WalksEnd};

use stark_support::{ExtensionField, Field, TwoAdicField};
use std::alloc::{AllocError, Global};

/// The polynomial's even coefficients plus `beta` times its odd ones, the constant first: half as
/// many, rounded up. It is Err only where memory was refused.
pub fn fold_coefficients<F: Field>(alloc: Global, beta: F, p: &[F]) -> Result<Vec<F>, AllocError>
    ensures { IfOk result (λ half. half.items ≡ folded F.ring beta p.now) }
{
    let mut half = Vec::new(alloc);
    for i in 0..p.len() / 2 {
        half.push(p[2 * i] + beta * p[2 * i + 1])?;
    }
    if p.len() % 2 == 1 {
        half.push(p[p.len() - 1])?;
    }
    Ok(half)
}

/// What the values at `x` and at `-x` fold to by `beta`, a value at `x^2`: half of their sum plus
/// `beta / x` times half of their difference.
pub fn fold_pair<F: TwoAdicField>(beta: F, x: F, at: F, at_opposite: F) -> F
    requires { x ≢ F.ring.zero }
    ensures { result ≡ folded_pair F.ring F.inverse_of beta x at at_opposite }
{
    (F::ONE + F::ONE).inverse() * (at + at_opposite + beta * x.inverse() * (at - at_opposite))
}

/// The fold of two values in an extension, of a pair at `x` of the base field and its opposite.
pub fn fold_pair_in<F: TwoAdicField, EF: ExtensionField<F>>(
    beta: EF,
    x: F,
    at: EF,
    at_opposite: EF,
) -> EF
    requires { x ≢ F.ring.zero }
    ensures { result ≡ folded_pair EF.ring EF.inverse_of beta (EF.embed x) at at_opposite }
{
    let point: EF = EF::from_base(x);
    (EF::ONE + EF::ONE).inverse() * (at + at_opposite + beta * point.inverse() * (at - at_opposite))
}

/// A law, with no code: a polynomial's values at the points `i` and `i + 2^k` of a coset of
/// `2^(k + 1)` points fold to the folded polynomial's value at point `i` of the coset of their
/// squares.
pub fn folds_agree<F: TwoAdicField>(_beta: F)
    ensures { FoldsAgree F.ring F.inverse_of F.TWO_ADICITY F.root _beta }
{}

/// A law, with no code: a word on a coset that folds to codewords of degree below `n` by two betas
/// is a codeword of degree below `2 n`. So one that isn't folds to a codeword by at most one beta.
/// It says nothing of words that are only near to codewords.
pub fn betas_are_few<F: TwoAdicField>(_some: F)
    ensures { BetasAreFew F.ring F.inverse_of F.TWO_ADICITY F.root }
{}

/// A law, with no code: where the layers are the values of the folded polynomials, each query leads
/// to the value of the last one.
pub fn walks_end<F: TwoAdicField>(_some: F)
    ensures { WalksEnd F.ring F.inverse_of F.TWO_ADICITY F.root }
{}

/// A codeword of `2^log_size` values on the coset of the shift, folded by `beta`: the value at
/// place `i` is made of those at `i` and half the size further, half as many. The values of a
/// polynomial become those of the folded polynomial on the coset of the squares. It is Err only
/// where memory was refused.
pub fn fold_codeword<F: TwoAdicField>(
    alloc: Global,
    shift: F,
    log_size: usize,
    beta: F,
    codeword: &[F],
) -> Result<Vec<F>, AllocError>
    requires shift { shift ≢ F.ring.zero }
    requires some { 1 ≤ log_size }
    requires within { log_size ≤ F.TWO_ADICITY }
    requires size { length codeword.now ≡ 2 ^ log_size }
    ensures { IfOk result (λ half. FoldsOn F.ring F.root shift log_size beta codeword.now
        half.items) }
{
    let generator = F::two_adic_generator(log_size);
    let count = codeword.len() / 2;
    let mut half = Vec::new(alloc);
    let mut power = F::ONE;
    for i in 0..count {
        half.push(fold_pair(beta, shift * power, codeword[i], codeword[i + count]))?;
        power = generator * power;
    }
    Ok(half)
}

/// The fold of a codeword over an extension, on a coset of the base field.
pub fn fold_codeword_in<F: TwoAdicField, EF: ExtensionField<F>>(
    alloc: Global,
    shift: F,
    log_size: usize,
    beta: EF,
    codeword: &[EF],
) -> Result<Vec<EF>, AllocError>
    requires shift { shift ≢ F.ring.zero }
    requires some { 1 ≤ log_size }
    requires within { log_size ≤ F.TWO_ADICITY }
    requires size { length codeword.now ≡ 2 ^ log_size }
    ensures { IfOk result (λ half. FoldsOn EF.ring (λ k. EF.embed (F.root k)) (EF.embed shift)
        log_size beta codeword.now half.items) }
{
    let one_half = (EF::ONE + EF::ONE).inverse();
    let generator: EF = EF::from_base(F::two_adic_generator(log_size));
    let step = generator.inverse();
    let count = codeword.len() / 2;
    let mut half = Vec::with_capacity(alloc, count)?;
    // Half of beta over the pair's point.
    let mut weight = one_half * beta * EF::from_base(shift).inverse();
    for i in 0..count {
        let opposite = codeword[i + count];
        half.push(opposite + (one_half + weight) * (codeword[i] - opposite))?;
        weight = weight * step;
    }
    Ok(half)
}
