//! The transforms where what they ask for is there; else None.
ghost use Rattle.std.specs.Prelude.{◌≡◌, ◌≤◌, ◌<◌, ◌+◌, ◌*◌, ◌^◌, ℕ, IsTrue};

use stark_dft::{
    columns_fit, evaluate_columns, evaluate_on_coset, evaluate_rows, interpolate_columns,
    interpolate_on_coset, interpolate_rows,
};
use stark_support::{TwoAdicField, is_zero};
use std::alloc::{AllocError, Global};

/// The number of a coset's points and the generator of its group, where there is such a coset.
pub fn group_of<F: TwoAdicField>(log_size: usize) -> Option<(usize, F)> {
    if log_size > F::TWO_ADICITY || log_size >= 64 {
        return None;
    }
    Some((1 << log_size, F::two_adic_generator(log_size)))
}

/// Whether there is a coset of `2^log_size` points, and `count` values are a row of `width` for
/// each of them.
fn are_rows<F: TwoAdicField>(log_size: usize, width: usize, count: usize) -> bool
    ensures within { IsTrue result → log_size ≤ F.TWO_ADICITY }
    ensures whole { IsTrue result → count ≡ width * 2 ^ log_size }
{
    if log_size > F::TWO_ADICITY || log_size >= 64 {
        return false;
    }
    Some(count) == width.checked_mul(1 << log_size)
}

/// `evaluate_rows`.
pub fn values_of_rows<F: TwoAdicField>(
    alloc: Global,
    shift: F,
    log_size: usize,
    width: usize,
    coefficients: &[F],
) -> Result<Option<Vec<F>>, AllocError> {
    if !are_rows::<F>(log_size, width, coefficients.len()) {
        return Ok(None);
    }
    let values = evaluate_rows(alloc, shift, log_size, width, coefficients)?;
    Ok(Some(values))
}

/// `interpolate_rows`.
pub fn rows_of_values<F: TwoAdicField>(
    alloc: Global,
    shift: F,
    log_size: usize,
    width: usize,
    values: &[F],
) -> Result<Option<Vec<F>>, AllocError> {
    if is_zero(shift) || !are_rows::<F>(log_size, width, values.len()) {
        return Ok(None);
    }
    let coefficients = interpolate_rows(alloc, shift, log_size, width, values)?;
    Ok(Some(coefficients))
}

/// `evaluate_on_coset`.
pub fn values_of_one<F: TwoAdicField>(
    alloc: Global,
    shift: F,
    log_size: usize,
    coefficients: &[F],
) -> Result<Option<Vec<F>>, AllocError> {
    if !are_rows::<F>(log_size, 1, coefficients.len()) {
        return Ok(None);
    }
    let values = evaluate_on_coset(alloc, shift, log_size, coefficients)?;
    Ok(Some(values))
}

/// `interpolate_on_coset`.
pub fn one_of_values<F: TwoAdicField>(
    alloc: Global,
    shift: F,
    log_size: usize,
    values: &[F],
) -> Result<Option<Vec<F>>, AllocError> {
    if is_zero(shift) || !are_rows::<F>(log_size, 1, values.len()) {
        return Ok(None);
    }
    let coefficients = interpolate_on_coset(alloc, shift, log_size, values)?;
    Ok(Some(coefficients))
}

/// `evaluate_columns`.
pub fn values_of_columns<F: TwoAdicField>(
    alloc: Global,
    shift: F,
    log_size: usize,
    columns: &[Vec<F>],
) -> Result<Option<Vec<F>>, AllocError> {
    if log_size > F::TWO_ADICITY || log_size >= 64 || !columns_fit(columns, 1 << log_size) {
        return Ok(None);
    }
    let values = evaluate_columns(alloc, shift, log_size, columns)?;
    Ok(Some(values))
}

/// Where the rows of a matrix lie in a list.
#[derive(Clone, Copy, Debug)]
pub struct Places {
    pub first: usize,
    pub step: usize,
    pub width: usize,
}

/// Whether a list of `count` values has `2^log_size` rows at these places.
fn lie_within<F: TwoAdicField>(log_size: usize, places: &Places, count: usize) -> bool
    ensures within { IsTrue result → log_size ≤ F.TWO_ADICITY }
    ensures inside { IsTrue result → (c r : ℕ) → c < places.now.width → r < 2 ^ log_size
        → places.now.first + c + r * places.now.step < count }
{
    if log_size > F::TWO_ADICITY || log_size >= 64 {
        return false;
    }
    let Some(last) = places.step.checked_mul((1 << log_size) - 1) else {
        return false;
    };
    let Some(begin) = places.first.checked_add(last) else {
        return false;
    };
    match begin.checked_add(places.width) {
        Some(end) => end <= count,
        None => false,
    }
}

/// `interpolate_columns`.
pub fn columns_of_values<F: TwoAdicField>(
    alloc: Global,
    shift: F,
    log_size: usize,
    values: &[F],
    places: &Places,
    size: usize,
) -> Result<Option<Vec<Vec<F>>>, AllocError> {
    if is_zero(shift) || !lie_within::<F>(log_size, places, values.len()) || size < 1 << log_size {
        return Ok(None);
    }
    let columns = interpolate_columns(
        alloc,
        shift,
        log_size,
        values,
        places.first,
        places.step,
        places.width,
        size,
    )?;
    Ok(Some(columns))
}
