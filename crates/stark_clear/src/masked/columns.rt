//! Polynomials with multiples of vanishing polynomials added.
ghost use Rattle.std.specs.Prelude.{◌≡◌, ◌≤◌, IfOk, length, map};
ghost use Rattle.std.specs.Simd.Lanes.{zip2};
ghost use Rattle.stark_support.specs.Polynomial.{polynomial_ring};
ghost use Rattle.stark_support.specs.Ring.{difference};
ghost use Rattle.stark_columns.specs.Columns.{column_list, columns_list};
ghost use Rattle.stark_clear.specs.Masks.{masked_polynomial};

use stark_support::Field;
use std::alloc::{AllocError, Global};

/// Takes a polynomial off one of at least as many coefficients.
pub fn take_off<F: Field>(from: &mut Vec<F>, p: &[F])
    requires { length p.now ≤ length from.old.items }
    ensures { from.new.items ≡ difference (polynomial_ring F.ring) from.old.items p.now }
{
    for place in 0..p.len() {
        from[place] = from[place] - p[place];
    }
}

/// `plain + mask * (scale * X^n - 1)`, where `n` is the number of coefficients of `plain`.
fn masked<F: Field>(alloc: Global, plain: &[F], mask: &[F], scale: F) -> Result<Vec<F>, AllocError>
    ensures { IfOk result (λ p. p.items ≡ masked_polynomial F.ring scale plain.now mask.now) }
{
    let mut p = Vec::new(alloc);
    p.extend_from_slice(plain)?;
    for coefficient in mask {
        p.push(scale * *coefficient)?;
    }
    take_off(&mut p, mask);
    Ok(p)
}

/// Each column with the mask at its place.
pub fn masked_columns<F: Field>(
    alloc: Global,
    plain: &[Vec<F>],
    masks: &[Vec<F>],
    scale: F,
) -> Result<Vec<Vec<F>>, AllocError>
    ensures { IfOk result (λ columns. columns_list columns
        ≡ zip2 (masked_polynomial F.ring scale) (map column_list plain.now)
        (map column_list masks.now)) }
{
    let mut columns = Vec::new(alloc);
    for i in 0..plain.len().min(masks.len()) {
        let column = masked(alloc, &plain[i], &masks[i], scale)?;
        columns.push(column)?;
    }
    Ok(columns)
}
