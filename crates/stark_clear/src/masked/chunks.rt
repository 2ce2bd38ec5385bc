//! The masks of a quotient's chunks.
ghost use Rattle.std.specs.Prelude.{◌≡◌, ◌<◌, ◌≤◌, ◌*◌, ◌^◌, ◌-◌, IfOk, length, map, replicate};
ghost use Rattle.std.specs.Int.{IsPowerOfTwo};
ghost use Rattle.std.specs.List.{AllByRecursion};
ghost use Rattle.stark_support.specs.Coset.{coset_size, coset_from};
ghost use Rattle.stark_columns.specs.Columns.{columns_list};
ghost use Rattle.stark_clear.specs.Masks.{HasMaskAt, HasMasks, balancing_mask, balancing_masks, masked_chunks, quotient_masks, vanishing_scale};
ghost use Rattle.stark_clear.specs.ClearCalls.{IsMaskedOf, MasksChunks};

use crate::masked::columns::{masked_columns, take_off};
use crate::masked::list::next_lists;
use stark_bench::Coset;
use stark_columns::chunks_of;
use stark_support::{
    DomainShape, Field, PolynomialSpace, RowMajorMatrix, TwoAdicField, squared_times,
};
use std::alloc::{AllocError, Global};

/// The polynomial zero, of `size` coefficients.
fn zeros<F: Field>(alloc: Global, size: usize) -> Result<Vec<F>, AllocError>
    ensures { IfOk result (λ list. list.items ≡ replicate size F.ring.zero) }
{
    let mut list = Vec::new(alloc);
    for _place in 0..size {
        list.push(F::ZERO)?;
    }
    Ok(list)
}

/// The mask that makes the sum of all masks of a column zero.
fn balancing_mask<F: Field>(
    alloc: Global,
    chosen: &[Vec<Vec<F>>],
    column: usize,
    size: usize,
) -> Result<Vec<F>, AllocError>
    requires { AllByRecursion (HasMaskAt column size) (map columns_list chosen.now) }
    ensures { IfOk result (λ mask. mask.items
        ≡ balancing_mask F.ring (map columns_list chosen.now) size column) }
{
    let mut mask = zeros(alloc, size)?;
    for masks in chosen {
        take_off(&mut mask, &masks[column]);
    }
    Ok(mask)
}

/// For each column the mask that makes the sum of all its masks zero.
fn balancing_masks<F: Field>(
    alloc: Global,
    chosen: &[Vec<Vec<F>>],
    width: usize,
    size: usize,
) -> Result<Vec<Vec<F>>, AllocError>
    requires { AllByRecursion (HasMasks width size) (map columns_list chosen.now) }
    ensures { IfOk result (λ masks. columns_list masks
        ≡ balancing_masks F.ring (map columns_list chosen.now) size width) }
{
    let mut masks = Vec::new(alloc);
    for column in 0..width {
        let mask = balancing_mask(alloc, chosen, column, size)?;
        masks.push(mask)?;
    }
    Ok(masks)
}

/// The masks of `count` chunks, for each of them `width` lists of `size` numbers, from the list's
/// start on; and those of the last chunk, which make the sum of each column's masks zero. The parts
/// of one coset have equal weights in a recomposition, so that the weighted sum is zero too.
fn quotient_masks<F: Field>(
    alloc: Global,
    masks: &[F],
    count: usize,
    width: usize,
    size: usize,
) -> Result<Vec<Vec<Vec<F>>>, AllocError>
    requires { 0 < length masks.now }
    ensures { IfOk result (λ chunks. map columns_list chunks.items
        ≡ quotient_masks F.ring masks.now count width size) }
{
    let mut place = 0;
    let mut chunks = Vec::new(alloc);
    for _chunk in 0..count {
        let lists = next_lists(alloc, masks, &mut place, width, size)?;
        chunks.push(lists)?;
    }
    let last = balancing_masks(alloc, &chunks, width, size)?;
    chunks.push(last)?;
    Ok(chunks)
}

/// `s^-n`, for a coset of `n` points with the shift `s`: times it, `X^n` less one is the coset's
/// vanishing polynomial.
fn vanishing_scale<F: TwoAdicField>(coset: &Coset<F>) -> F
    ensures { result ≡ vanishing_scale F.ring F.inverse_of
        (⟦<Coset<F> as PolynomialSpace>⟧.coset_of coset.now) }
{
    squared_times(coset.shift.inverse(), coset.log_size)
}

/// Each chunk's columns with their masks times the vanishing polynomial of its part.
fn masked_chunks<F: TwoAdicField>(
    alloc: Global,
    parts: &[Coset<F>],
    plain: &[Vec<Vec<F>>],
    masks: &[Vec<Vec<F>>],
) -> Result<Vec<Vec<Vec<F>>>, AllocError>
    requires plain { length plain.now ≡ length parts.now }
    requires masks { length masks.now ≡ length parts.now }
    ensures { IfOk result (λ c. MasksChunks F.ring F.inverse_of
        (map ⟦<Coset<F> as PolynomialSpace>⟧.coset_of parts.now) plain.now masks.now c.items) }
{
    let mut chunks = Vec::new(alloc);
    for i in 0..parts.len() {
        let part = &parts[i];
        let scale = vanishing_scale(part);
        let columns = masked_columns(alloc, &plain[i], &masks[i], scale)?;
        chunks.push(columns)?;
    }
    Ok(chunks)
}

/// The columns of each chunk of a quotient, on its part of the domain, with masks of as many
/// coefficients times the part's vanishing polynomial. All but the last chunk's masks are from the
/// list.
pub fn masked_chunks_of<F: TwoAdicField>(
    alloc: Global,
    masks: &[F],
    domain: &Coset<F>,
    flat: &RowMajorMatrix<F>,
    num_chunks: usize,
) -> Result<Vec<Vec<Vec<F>>>, AllocError>
    requires masks { 0 < length masks.now }
    requires height { length flat.now.values.items
        ≡ coset_size (⟦<Coset<F> as PolynomialSpace>⟧.coset_of domain.now) * flat.now.width }
    requires power { IsPowerOfTwo num_chunks }
    requires parts { num_chunks ≤ coset_size (⟦<Coset<F> as PolynomialSpace>⟧.coset_of domain.now) }
    ensures { IfOk result (λ c. IsMaskedOf F.ring F.inverse_of F.root masks.now
        (coset_from domain.now.shift domain.now.log_size) flat.now num_chunks c.items) }
{
    let parts = domain.split_domains(alloc, num_chunks)?;
    let plain = chunks_of(alloc, domain, flat, num_chunks)?;
    let size = domain.size() / num_chunks;
    let lists = quotient_masks(alloc, masks, num_chunks - 1, flat.width, size)?;
    let chunks = masked_chunks(alloc, &parts, &plain, &lists)?;
    Ok(chunks)
}
