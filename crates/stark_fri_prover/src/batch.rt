//! All claims as one polynomial.
ghost use Rattle.std.specs.Prelude.{◌≡◌, IfOk, get_or, length, map};
ghost use Rattle.stark_columns.specs.Columns.{column_list};
ghost use Rattle.stark_fri_prover.specs.Batch.{AddsColumns, AddsPoints, AddsQuotient, AddsRound, AreZeros, Batches, combination, weighted_at};
ghost use Rattle.stark_fri_prover.specs.Commit.{data_seen};
ghost use Rattle.stark_fri_prover.specs.Batching.{opened_at};

use crate::commit::FriData;
use crate::layers::{coordinate_columns, element_of};
use stark_support::{ExtensionField, Field, OpeningRound, TwoAdicField};
use std::alloc::{AllocError, Global};

/// So many zeros.
fn zeros<E: Field>(alloc: Global, count: usize) -> Result<Vec<E>, AllocError>
    ensures { IfOk result (λ list. AreZeros E.ring count list.items) }
{
    let mut list = Vec::with_capacity(alloc, count)?;
    for _place in 0..count {
        list.push(E::ZERO)?;
    }
    Ok(list)
}

/// A column's coefficient at a place; zero after its last one.
fn coefficient_at<F: Field>(column: &[F], place: usize) -> F
    ensures { result ≡ get_or column.now place F.ring.zero }
{
    if place < column.len() {
        column[place]
    } else {
        F::ZERO
    }
}

/// The sum of the columns' coefficients at a place, each times its weight.
fn weighted_sum<F: Field>(columns: &[Vec<F>], weights: &[F], place: usize) -> F
    ensures { result ≡ weighted_at F.ring (map column_list columns.now) place weights.now }
{
    let mut sum = F::ZERO;
    let mut index = columns.len().min(weights.len());
    while index > 0 {
        index -= 1;
        sum = weights[index] * coefficient_at(&columns[index], place) + sum;
    }
    sum
}

/// Makes the row that of the weighted sums at a place, one for each list of weights.
fn put_sums<F: Field>(
    row: &mut Vec<F>,
    columns: &[Vec<F>],
    lists: &[Vec<F>],
    place: usize,
) -> Result<(), AllocError>
    ensures { IfOk result (λ _. row.new.items ≡ map (weighted_at F.ring
        (map column_list columns.now) place) (map column_list lists.now)) }
{
    row.clear();
    for weights in lists {
        row.push(weighted_sum(columns, weights, place))?;
    }
    Ok(())
}

/// The sum of the columns, each times its weight, in `count` coefficients. The products are those
/// of the base field, by the weights' coordinates.
fn combination<F: TwoAdicField, EF: ExtensionField<F>>(
    alloc: Global,
    columns: &[Vec<F>],
    weights: &[EF],
    count: usize,
) -> Result<Vec<EF>, AllocError>
    ensures { IfOk result (λ combined. combined.items ≡ combination EF.ring EF.embed F.ring.zero
        weights.now (map column_list columns.now) count) }
{
    let coordinates = coordinate_columns::<F, EF>(alloc, weights)?;
    let mut row = Vec::with_capacity(alloc, EF::DIMENSION)?;
    let mut combined = Vec::with_capacity(alloc, count)?;
    for place in 0..count {
        put_sums(&mut row, columns, &coordinates, place)?;
        combined.push(element_of::<F, EF>(&row))?;
    }
    Ok(combined)
}

/// Adds the quotient of `p - p(point)` by `X - point`, by synthetic division.
fn add_quotient<E: Field>(sum: &mut [E], polynomial: &[E], point: E)
    requires { length polynomial.now ≡ length sum.old }
    ensures { AddsQuotient E.ring point polynomial.now sum.old sum.new }
{
    let mut carry = E::ZERO;
    let mut i = polynomial.len();
    while i > 1 {
        i -= 1;
        carry = polynomial[i] + carry * point;
        sum[i - 1] = sum[i - 1] + carry;
    }
}

/// Adds a point's claims: the columns are combined by powers of alpha first, so that there is one
/// division a point. It answers the power after the last one.
fn add_claims<F: TwoAdicField, EF: ExtensionField<F>>(
    alloc: Global,
    sum: &mut [EF],
    columns: &[Vec<F>],
    point: EF,
    alpha: EF,
    first: EF,
) -> Result<EF, AllocError>
    ensures { IfOk result (AddsColumns EF.ring alpha (map column_list columns.now)
        (opened_at EF.embed (map column_list columns.now) point) sum.old sum.new first) }
{
    let mut weights = Vec::with_capacity(alloc, columns.len())?;
    let mut factor = first;
    for _column in columns {
        weights.push(factor)?;
        factor = factor * alpha;
    }
    let combined = combination(alloc, columns, &weights, sum.len())?;
    add_quotient(&mut *sum, &combined, point);
    Ok(factor)
}

/// Adds a matrix's claims, a point after the other.
fn add_matrix<F: TwoAdicField, EF: ExtensionField<F>>(
    alloc: Global,
    sum: &mut [EF],
    columns: &[Vec<F>],
    points: &[EF],
    alpha: EF,
    first: EF,
) -> Result<EF, AllocError>
    ensures { IfOk result (AddsPoints EF.ring EF.embed alpha columns.now points.now sum.old sum.new
        first) }
{
    let mut factor = first;
    for point in points {
        factor = add_claims(alloc, &mut *sum, columns, *point, alpha, factor)?;
    }
    Ok(factor)
}

/// Adds a round's claims, a matrix after the other.
fn add_round<F: TwoAdicField, EF: ExtensionField<F>>(
    alloc: Global,
    sum: &mut [EF],
    matrices: &[Vec<Vec<F>>],
    points: &[Vec<EF>],
    alpha: EF,
    first: EF,
) -> Result<EF, AllocError>
    ensures { IfOk result (AddsRound EF.ring EF.embed alpha matrices.now points.now sum.old sum.new
        first) }
{
    let mut factor = first;
    for index in 0..matrices.len().min(points.len()) {
        factor = add_matrix(
            alloc,
            &mut *sum,
            &matrices[index],
            &points[index],
            alpha,
            factor,
        )?;
    }
    Ok(factor)
}

/// The sum, over rounds, matrices, points and columns, of `(p(X) - p(z)) / (X - z)` times the next
/// power of alpha, in `size` coefficients. It is Err only where memory was refused.
pub(crate) fn batched<F: TwoAdicField, EF: ExtensionField<F>>(
    alloc: Global,
    rounds: &[OpeningRound<'_, EF, FriData<F>>],
    alpha: EF,
    size: usize,
) -> Result<Vec<EF>, AllocError>
    ensures { IfOk result (λ b. Batches EF.ring EF.embed alpha size
        (λ d. data_seen d.root d.domain.log_size d.matrices d.extended) rounds.now b.items) }
{
    let mut sum = zeros(alloc, size)?;
    let mut factor = EF::ONE;
    for round in rounds {
        factor = add_round(alloc, &mut sum, round.0.matrices(), &round.1, alpha, factor)?;
    }
    Ok(sum)
}
