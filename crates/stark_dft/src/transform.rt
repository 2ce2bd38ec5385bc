//! Transforms of a matrix that stands row after row, all columns at once.
ghost use Rattle.std.specs.Prelude.{◌≡◌, ◌≢◌, ◌<◌, ◌≤◌, ◌*◌, ◌^◌, ℕ, IfOk, length};
ghost use Rattle.stark_support.specs.Polynomial.{scaled};
ghost use Rattle.stark_dft.specs.Passes.{entry};
ghost use Rattle.stark_dft.specs.Strided.{AreRowsOn};

use crate::passes::{evaluation_pass, interpolation_pass};
use stark_support::{Element, Field, TwoAdicField, power_of, squared_times};
use std::alloc::{AllocError, Global};
use std::mem;

/// The values, and zeros behind them up to `size`.
fn filled_up<F: Field>(alloc: Global, values: &[F], size: usize) -> Result<Vec<F>, AllocError>
    requires { length values.now ≤ size }
    ensures number { IfOk result (λ filled. length filled.items ≡ size) }
    ensures same { IfOk result (λ filled. (j : ℕ)
        → entry F.ring filled.items j ≡ entry F.ring values.now j) }
{
    let mut filled: Vec<F> = Vec::with_capacity(alloc, size)?;
    filled.extend_from_slice(values)?;
    for _place in values.len()..size {
        filled.push(F::ZERO)?;
    }
    Ok(filled)
}

/// Each value times `factor`, in its place.
fn scaled<F: TwoAdicField>(factor: F, values: Vec<F>) -> Vec<F>
    ensures { result.items ≡ scaled F.ring factor values.items }
{
    let quotient = factor.factor_quotient();
    let mut multiple = values;
    for place in 0..multiple.len() {
        multiple[place] = multiple[place].times_factor(factor, quotient);
    }
    multiple
}

/// `evaluate_rows` where all coefficients are there, in a list that serves as one of the two
/// buffers.
pub fn evaluated<F: TwoAdicField>(
    alloc: Global,
    shift: F,
    log_size: usize,
    width: usize,
    coefficients: Vec<F>,
) -> Result<Vec<F>, AllocError>
    requires within { log_size ≤ F.TWO_ADICITY }
    requires size { length coefficients.items ≡ width * 2 ^ log_size }
    ensures { IfOk result (λ values. AreRowsOn F.ring F.root
        (record { shift = shift; log_size = log_size })
        width coefficients.items values.items) }
{
    let mut source = coefficients;
    let mut block = source.len();
    let mut target = filled_up(alloc, &[], block)?;
    let mut blocks = 1;
    for level in 0..log_size {
        block /= 2;
        let first = squared_times(shift, log_size - (level + 1));
        let ratio = F::two_adic_generator(level + 1);
        evaluation_pass(&source, &mut target, blocks, block, first, ratio);
        mem::swap(&mut source, &mut target);
        blocks *= 2;
    }
    Ok(source)
}

/// `interpolate_rows` of a list that serves as one of the two buffers.
pub fn interpolated<F: TwoAdicField>(
    alloc: Global,
    shift: F,
    log_size: usize,
    width: usize,
    values: Vec<F>,
) -> Result<Vec<F>, AllocError>
    requires within { log_size ≤ F.TWO_ADICITY }
    requires nonzero { shift ≢ F.ring.zero }
    requires size { length values.items ≡ width * 2 ^ log_size }
    ensures number { IfOk result (λ coefficients. length coefficients.items
        ≡ width * 2 ^ log_size) }
    ensures rows { IfOk result (λ coefficients.
        AreRowsOn F.ring F.root (record { shift = shift; log_size = log_size })
        width coefficients.items values.items) }
{
    let half = (F::ONE + F::ONE).inverse();
    let mut source = scaled(power_of(half, log_size as u64), values);
    let mut target = filled_up(alloc, &[], source.len())?;
    let mut block = width;
    let mut blocks: usize = 1 << log_size;
    for done in 0..log_size {
        blocks /= 2;
        let first = squared_times(shift, done).inverse();
        let ratio = F::two_adic_generator(log_size - done).inverse();
        interpolation_pass(&source, &mut target, blocks, block, first, ratio);
        mem::swap(&mut source, &mut target);
        block *= 2;
    }
    Ok(source)
}

/// The values of `width` polynomials at the `2^log_size` points of a coset, row after row: row `i`
/// has the polynomials' values at point `i`, so that there are `width * 2^log_size` in all. The
/// coefficients stand row after row too: row `t` has those of `x^t`, the constants first. There may
/// be fewer than values: those that are missing at the end are zeros. `Err` only where memory is
/// wanting.
pub fn evaluate_rows<F: TwoAdicField>(
    alloc: Global,
    shift: F,
    log_size: usize,
    width: usize,
    coefficients: &[F],
) -> Result<Vec<F>, AllocError>
    requires within { log_size ≤ F.TWO_ADICITY }
    requires room { length coefficients.now ≤ width * 2 ^ log_size }
    requires fits { width * 2 ^ log_size < 2 ^ 64 }
    ensures { IfOk result (λ values. AreRowsOn F.ring F.root
        (record { shift = shift; log_size = log_size })
        width coefficients.now values.items) }
{
    let whole = filled_up(alloc, coefficients, width * (1 << log_size))?;
    let values = evaluated(alloc, shift, log_size, width, whole)?;
    Ok(values)
}

/// The coefficients of `width` polynomials from their values at the `2^log_size` points of a coset,
/// whose shift isn't zero. The values stand row after row: row `i` has those at point `i`. The
/// coefficients do too, as many as values: row `t` has those of `x^t`, the constants first. They
/// are the only ones of that number with these values. `Err` only where memory is wanting.
pub fn interpolate_rows<F: TwoAdicField>(
    alloc: Global,
    shift: F,
    log_size: usize,
    width: usize,
    values: &[F],
) -> Result<Vec<F>, AllocError>
    requires within { log_size ≤ F.TWO_ADICITY }
    requires nonzero { shift ≢ F.ring.zero }
    requires size { length values.now ≡ width * 2 ^ log_size }
    ensures number { IfOk result (λ coefficients. length coefficients.items
        ≡ width * 2 ^ log_size) }
    ensures rows { IfOk result (λ coefficients.
        AreRowsOn F.ring F.root (record { shift = shift; log_size = log_size })
        width coefficients.items values.now) }
{
    let mut copy: Vec<F> = Vec::new(alloc);
    copy.extend_from_slice(values)?;
    let coefficients = interpolated(alloc, shift, log_size, width, copy)?;
    Ok(coefficients)
}
