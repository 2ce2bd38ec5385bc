//! The draws as public values of the extended AIR.
ghost use Rattle.std.specs.Prelude.{◌≡◌, ◌-◌, ◌∷◌, ◌++◌, IfOk};
ghost use Rattle.stark_lookup.specs.LookupDraws.{drawn_values, powers_from};

use stark_lookup_trace::LookupDraws;
use stark_support::{ExtensionField, Field, RowMajorMatrix};
use std::alloc::{AllocError, Global};

/// Gamma, and after it beta, beta^2, .. up to the width less one. It is Err only where memory was
/// refused.
fn drawn_elements<EF: Field>(
    alloc: Global,
    draws: LookupDraws<EF>,
    width: usize,
) -> Result<Vec<EF>, AllocError>
    ensures { IfOk result (λ all. all.items
        ≡ draws.gamma ∷ powers_from EF.ring draws.beta draws.beta (width - 1)) }
{
    let mut all = Vec::new(alloc);
    all.push(draws.gamma)?;
    let mut power = draws.beta;
    let mut left = width.saturating_sub(1);
    while left > 0 {
        all.push(power)?;
        power = power * draws.beta;
        left -= 1;
    }
    Ok(all)
}

/// The public values of the extended AIR: the author's, and after them the coordinates of gamma,
/// and of beta, beta^2, .. up to the width of a key less one. It is Err only where memory was
/// refused.
pub fn values_with_draws<F: Field, EF: ExtensionField<F>>(
    alloc: Global,
    public_values: &[F],
    draws: LookupDraws<EF>,
    width: usize,
) -> Result<Vec<F>, AllocError>
    ensures { IfOk result (λ all. all.items
        ≡ public_values.now ++ drawn_values EF.ring EF.coordinates width draws) }
{
    let elements = drawn_elements(alloc, draws, width)?;
    let size = elements.len().saturating_mul(EF::DIMENSION);
    let mut all = Vec::with_capacity(alloc, public_values.len().saturating_add(size))?;
    all.extend_from_slice(public_values)?;
    let drawn = RowMajorMatrix::new(elements, 1).flatten_to_base::<F>(alloc)?;
    all.extend_from_slice(&drawn.values)?;
    Ok(all)
}
