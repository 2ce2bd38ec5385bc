//! Values of columns at a point, by the point's powers.
ghost use Rattle.std.specs.Prelude.{◌≡◌, ◌<◌, ◌≤◌, IfOk, Some, length};
ghost use Rattle.std.specs.List.{slice_get};
ghost use Rattle.stark_support.specs.Extension.{basis_sum};
ghost use Rattle.stark_support.specs.Points.{powers_from};
ghost use Rattle.stark_support.specs.Polynomial.{value_over};

use stark_support::{ExtensionField, Field, polynomial_value_in};
use std::alloc::{AllocError, Global};

/// How many coefficients a block has.
const BLOCK: usize = 64;

/// How many powers of a point serve these columns: one more than a block has coefficients, and none
/// where the first column is shorter than a block, so that short columns take no memory.
fn power_count<F>(columns: &[Vec<F>]) -> usize {
    match columns.first() {
        Some(column) if column.len() >= BLOCK => BLOCK + 1,
        _ => 0,
    }
}

/// The powers of a point, from its power 0 on, by which `column_value` takes the values of these
/// columns there.
pub fn point_powers<F: Field, EF: ExtensionField<F>>(
    alloc: Global,
    columns: &[Vec<F>],
    point: EF,
) -> Result<Vec<EF>, AllocError>
    ensures { IfOk result (λ powers. powers.items
        ≡ powers_from EF.ring point 0 (length powers.items)) }
{
    let count = power_count(columns);
    let mut powers = Vec::with_capacity(alloc, count)?;
    let mut power = EF::ONE;
    for _index in 0..count {
        powers.push(power)?;
        power = point * power;
    }
    Ok(powers)
}

/// The powers of the point, and none at all where memory is refused: then `column_value` takes
/// longer.
pub fn powers_or_none<F: Field, EF: ExtensionField<F>>(
    alloc: Global,
    columns: &[Vec<F>],
    point: EF,
) -> Vec<EF>
    ensures { result.items ≡ powers_from EF.ring point 0 (length result.items) }
{
    match point_powers::<F, EF>(alloc, columns, point) {
        Ok(powers) => powers,
        Err(_) => Vec::new(alloc),
    }
}

/// The coordinate at a place of the sum of coefficients times powers: a product in the base field
/// for each coefficient.
fn coordinate_of_sum<F: Field, EF: ExtensionField<F>>(
    coefficients: &[F],
    powers: &[EF],
    place: usize,
) -> F
    requires place { place < EF.DIMENSION }
    requires enough { length coefficients.now ≤ length powers.now }
    ensures { slice_get
        (EF.coordinates (basis_sum EF.ring EF.embed coefficients.now powers.now)) place
        ≡ Some result }
{
    let mut sum = F::ZERO;
    let mut index = coefficients.len();
    while index > 0 {
        index -= 1;
        sum = coefficients[index] * powers[index].coordinate(place) + sum;
    }
    sum
}

/// The sum of coefficients times powers, by its coordinates.
fn sum_of_block<F: Field, EF: ExtensionField<F>>(coefficients: &[F], powers: &[EF]) -> EF
    requires enough { length coefficients.now ≤ length powers.now }
    ensures { result ≡ basis_sum EF.ring EF.embed coefficients.now powers.now }
{
    let mut sum = EF::ZERO;
    let mut place = EF::DIMENSION;
    while place > 0 {
        place -= 1;
        let coordinate = coordinate_of_sum::<F, EF>(coefficients, powers, place);
        sum = EF::basis_element(place) * EF::from_base(coordinate) + sum;
    }
    sum
}

/// The value of a column at a point whose first powers are given: by Horner's rule over blocks of
/// one coefficient less than there are powers, each of which is a sum of coefficients times powers
/// (Paterson and Stockmeyer, "On the number of nonscalar multiplications necessary to evaluate
/// polynomials", 1973). So a coefficient costs `DIMENSION` products in the base field, and a block
/// `DIMENSION + 1` in the extension; where fewer than two powers are given, a coefficient costs a
/// product in the extension. It takes no memory.
pub fn column_value<F: Field, EF: ExtensionField<F>>(column: &[F], point: EF, powers: &[EF]) -> EF
    requires { powers.now ≡ powers_from EF.ring point 0 (length powers.now) }
    ensures { result ≡ value_over EF.ring EF.embed column.now point }
{
    if powers.len() < 2 {
        return polynomial_value_in::<F, EF>(column, point);
    }
    let mut value = EF::ZERO;
    let mut end = column.len();
    while end > 0 {
        let start = end.saturating_sub(powers.len() - 1);
        let block = sum_of_block::<F, EF>(&column[start..end], powers);
        value = block + value * powers[end - start];
        end = start;
    }
    value
}
