//! The polynomial through given points.
ghost use Rattle.std.specs.Prelude.{◌≡◌, IfOk, length};
ghost use Rattle.stark_support.specs.Interpolation.{TakesValues, interpolation, times_root};
ghost use Rattle.stark_support.specs.Polynomial.{IsWithoutRepeats, polynomial_sum, scaled};

use crate::field::Field;
use crate::polynomial::polynomial_value;
use std::alloc::{AllocError, Global};

/// Each coefficient times `factor`.
fn polynomial_scaled<F: Field>(alloc: Global, factor: F, p: &[F]) -> Result<Vec<F>, AllocError>
    ensures { IfOk result (λ multiple. multiple.items ≡ scaled F.ring factor p.now) }
{
    let mut multiple = Vec::new(alloc);
    for coefficient in p {
        multiple.push(factor * *coefficient)?;
    }
    Ok(multiple)
}

/// The sum of two polynomials, as long as the longer one.
fn polynomial_sum<F: Field>(alloc: Global, p: &[F], q: &[F]) -> Result<Vec<F>, AllocError>
    ensures { IfOk result (λ sum. sum.items ≡ polynomial_sum F.ring p.now q.now) }
{
    let shared = p.len().min(q.len());
    let mut sum = Vec::new(alloc);
    for index in 0..shared {
        sum.push(p[index] + q[index])?;
    }
    sum.extend_from_slice(&p[shared..])?;
    sum.extend_from_slice(&q[shared..])?;
    Ok(sum)
}

/// `X - root` times the polynomial.
fn times_root<F: Field>(alloc: Global, root: F, p: &[F]) -> Result<Vec<F>, AllocError>
    ensures { IfOk result (λ product. product.items ≡ times_root F.ring root p.now) }
{
    let mut times_x = Vec::new(alloc);
    times_x.push(F::ZERO)?;
    times_x.extend_from_slice(p)?;
    let multiple = polynomial_scaled(alloc, -root, p)?;
    polynomial_sum(alloc, &times_x, &multiple)
}

/// The coefficients of the polynomial of degree below the number of the points that takes the
/// values at them, constant first and as many as points. It takes a time that grows with the square
/// of that number.
pub fn interpolate<F: Field>(
    alloc: Global,
    points: &[F],
    values: &[F],
) -> Result<Vec<F>, AllocError>
    requires same_length { length points.now ≡ length values.now }
    requires distinct { IsWithoutRepeats points.now }
    ensures coefficients { IfOk result (λ p. p.items
        ≡ interpolation F.ring F.inverse_of points.now values.now) }
    ensures takes { IfOk result (λ p. TakesValues F.ring p.items points.now values.now) }
{
    let mut polynomial: Vec<F> = Vec::new(alloc);
    let mut product: Vec<F> = Vec::new(alloc);
    product.push(F::ONE)?;
    let mut index = points.len();
    while index > 0 {
        index -= 1;
        let point = points[index];
        let missing = values[index] - polynomial_value(&polynomial, point);
        let factor = missing * polynomial_value(&product, point).inverse();
        let added = polynomial_scaled(alloc, factor, &product)?;
        polynomial = polynomial_sum(alloc, &polynomial, &added)?;
        product = times_root(alloc, point, &product)?;
    }
    Ok(polynomial)
}
