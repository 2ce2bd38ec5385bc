//! Polynomials as lists of coefficients, the constant first.
ghost use Rattle.std.specs.Prelude.{◌≡◌, ◌≢◌, ℕ, ◌+◌, ◌<◌, ◌≤◌, List};
ghost use Rattle.stark_support.specs.DivisionFacts.{VanishingQuotient};
ghost use Rattle.stark_support.specs.Powers.{power};
ghost use Rattle.stark_support.specs.TwoAdic.{HasOrder};
ghost use Rattle.stark_support.specs.Polynomial.{value, value_over, HasDegreeBelow, IsZeroPolynomial, IsRoot, HoldsOfAtMost, AgreementDecides};

use crate::field::{ExtensionField, Field};

/// The value of a polynomial at a point.
pub fn polynomial_value<F: Field>(coefficients: &[F], point: F) -> F
    ensures { result ≡ value F.ring coefficients.now point }
{
    let mut result = F::ZERO;
    let mut index = coefficients.len();
    while index > 0 {
        index -= 1;
        result = coefficients[index] + result * point;
    }
    result
}

/// The value of a polynomial over the base field at a point of an extension.
pub fn polynomial_value_in<F: Field, EF: ExtensionField<F>>(coefficients: &[F], point: EF) -> EF
    ensures { result ≡ value_over EF.ring EF.embed coefficients.now point }
{
    let mut result = EF::ZERO;
    let mut index = coefficients.len();
    while index > 0 {
        index -= 1;
        result = EF::from_base(coefficients[index]) + result * point;
    }
    result
}

/// A law, with no code: a polynomial of degree at most `degree` that isn't zero has at most
/// `degree` roots. So an equation of polynomials that doesn't hold fails at all points but these.
pub fn roots_are_few<F: Field>(coefficients: &[F], degree: usize)
    requires bounded { HasDegreeBelow (degree + 1) coefficients.now }
    requires nonzero { ¬ IsZeroPolynomial F.ring coefficients.now }
    ensures { HoldsOfAtMost degree (IsRoot F.ring coefficients.now) }
{}

/// A law, with no code: at most `degree` elements are roots of a polynomial of that degree which no
/// code holds, as those that a prover has committed to.
pub fn all_roots_are_few<F: Field>(_some: F, degree: usize)
    ensures { (p : List F) → HasDegreeBelow (degree + 1) p → ¬ IsZeroPolynomial F.ring p
        → HoldsOfAtMost degree (IsRoot F.ring p) }
{}

/// A law, with no code: polynomials of degree below `size` that agree at `size` points agree
/// everywhere. So the values on a domain determine the polynomial.
pub fn interpolation_is_unique<F: Field>(_some: F, size: usize)
    ensures { AgreementDecides F.ring size }
{}

/// A law, with no code: a polynomial that is zero on the group of `size` elements that `generator`
/// generates is `X^size - 1` times a polynomial of `size` coefficients less.
pub fn vanishing_divides<F: Field>(_generator: F, size: usize)
    requires positive { 1 ≤ size }
    requires order { HasOrder F.ring _generator size }
    ensures { (p : List F) → ((k : ℕ) → k < size → value F.ring p (power F.ring _generator k)
        ≡ F.ring.zero) → VanishingQuotient F.ring size p }
{}
