//! Many inverses for the price of one.
ghost use Rattle.std.specs.Prelude.{◌≡◌, ◌≢◌, All, IfOk, length, map};
ghost use Rattle.stark_support.specs.Products.{AreRests, list_product};

use crate::field::Field;
use std::alloc::{AllocError, Global};

/// The product of some elements, and on the way, for each, the product of those behind it.
#[derive(Drop)]
struct Behind<F> {
    product: F,
    /// Those of the last element first.
    rests: Vec<F>,
}

/// The products of the elements behind each one.
fn products_behind<F: Field>(alloc: Global, values: &[F]) -> Result<Behind<F>, AllocError>
    ensures product { IfOk result (λ behind. behind.product ≡ list_product F.ring values.now) }
    ensures rests { IfOk result (λ behind.
        AreRests F.ring values.now (length values.now) behind.rests.items) }
{
    let mut rests = Vec::with_capacity(alloc, values.len())?;
    let mut product = F::ONE;
    for count in 0..values.len() {
        rests.push(product)?;
        product = values[values.len() - 1 - count] * product;
    }
    Ok(Behind { product, rests })
}

/// The inverses of elements, none of which is zero, in their order; as many as are given. Takes one
/// inversion and three products an element (Montgomery, "Speeding the Pollard and elliptic curve
/// methods of factorization", 1987). Err only where memory was refused.
pub fn batch_multiplicative_inverse<F: Field>(
    alloc: Global,
    values: &[F],
) -> Result<Vec<F>, AllocError>
    requires { All (λ x. x ≢ F.ring.zero) values.now }
    ensures { IfOk result (λ inverses. inverses.items ≡ map F.inverse_of values.now) }
{
    let behind = products_behind(alloc, values)?;
    let mut inverse = behind.product.inverse();
    let mut inverses = Vec::with_capacity(alloc, values.len())?;
    for index in 0..values.len() {
        inverses.push(inverse * behind.rests[values.len() - 1 - index])?;
        inverse = inverse * values[index];
    }
    Ok(inverses)
}
