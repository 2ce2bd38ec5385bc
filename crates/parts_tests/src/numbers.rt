//! Logarithms, powers of two, sums of products, matrices and row views.
use stark_support::{
    Algebra, ExtensionField, Field, PackedExtensionField, PackedField, PackedValue, PrimeField64,
    RowMajorMatrix, RowMajorMatrixView, VerticalPair, ViewPair, batched_linear_combination,
    checked_log_size_sum, checked_pow2, log2_ceil_usize, log2_strict_usize,
};
use stark_test_cases::{all_above_in, apart, elements_in, numbers_in, shown};
use std::alloc::{AllocError, Global};
use std::fmt::Debug;
use std::test::Fail;

// A table's name | what is given.
pub const CASES: &str = r#"
# Numbers | as many coefficients. Answered is the sum of the products, by packed values, in their first lane; then the same of
# elements of the extension.
sums | 1 2 3 | 4 5 4096 => Some(13)
sums | empty | empty => Some(0)
sums above | 0 1 0 0, 1 0 0 2 | 4 5 => Some(Ext4 { c0: 5, c1: 4, c2: 0, c3: 10 })

# A column of elements of the extension, as rows of their coordinates.
flat | 1 2 3 4, 5 6 7 8 => 2 rows: RowMajorMatrix { values: [1, 2, 3, 4, 5, 6, 7, 8], width: 4 }

# Rows of two columns | the first of the rows that are packed, made anew and in a lent buffer, by their first lanes. The fourth
# row of two is the second.
packed rows | 1 2 3 4 | 1 => [[3, 4], [3, 4]]
packed rows | 1 2 3 4 | 3 => [[3, 4], [3, 4]]
"#;

/// The answer to a case of these tables.
pub fn answer<F, EF>(alloc: Global, table: &str, text: &str) -> Result<String, Fail>
where
    F: PrimeField64 + PackedField + Debug,
    EF: PackedExtensionField<F> + Debug,
{
    match table {
        "sums" => sums::<F>(alloc, text),
        "sums above" => sums_above::<F, EF>(alloc, text),
        "flat" => flat::<F, EF>(alloc, text),
        "packed rows" => packed_rows::<F>(alloc, text),
        _ => Err(Fail::new("no such table")),
    }
}

/// The sum of the values times the coefficients, of which there are as many.
fn combined<F: Field, A: Algebra<F>>(values: &[A], coefficients: &[F]) -> Option<A> {
    if values.len() == coefficients.len() {
        Some(batched_linear_combination(values, coefficients))
    } else {
        None
    }
}

/// The value in the first lane; none where there is no lane.
fn first_lane<P: PackedValue>(pack: P) -> Option<P::Value> {
    if P::WIDTH > 0 {
        Some(pack.extract(0))
    } else {
        None
    }
}

fn sums<F: PrimeField64 + PackedField + Debug>(alloc: Global, text: &str) -> Result<String, Fail> {
    let (numbers, coefficients) = apart(text)?;
    let mut values = Vec::new(alloc);
    for number in elements_in::<F>(alloc, numbers)? {
        values.push(F::Packing::from(number))?;
    }
    let sum = combined::<F, F::Packing>(&values, &elements_in::<F>(alloc, coefficients)?);
    let value = match sum {
        Some(pack) => first_lane(pack),
        None => None,
    };
    shown(alloc, &value)
}

fn sums_above<F: PrimeField64, EF: ExtensionField<F> + Debug>(
    alloc: Global,
    text: &str,
) -> Result<String, Fail> {
    let (elements, coefficients) = apart(text)?;
    let elements = all_above_in::<F, EF>(alloc, elements)?;
    let value = combined::<F, EF>(&elements, &elements_in::<F>(alloc, coefficients)?);
    shown(alloc, &value)
}

/// A column of elements, as rows of their coordinates.
fn flattened<F: Field, EF: ExtensionField<F>>(
    alloc: Global,
    elements: Vec<EF>,
) -> Result<RowMajorMatrix<F>, AllocError> {
    let _dimension = EF::DIMENSION;
    RowMajorMatrix::new_col(elements).flatten_to_base(alloc)
}

fn flat<F: PrimeField64 + Debug, EF: ExtensionField<F>>(
    alloc: Global,
    text: &str,
) -> Result<String, Fail> {
    let matrix = flattened::<F, EF>(alloc, all_above_in::<F, EF>(alloc, text)?)?;
    Ok(format!(in alloc; "{} rows: {matrix:?}", matrix.height())?)
}

/// The packed rows from this one on, made anew and in a lent buffer; none where there is no row.
fn packed_row<P: PackedValue>(
    alloc: Global,
    matrix: &RowMajorMatrix<P::Value>,
    r: usize,
    mut lent: Vec<P>,
) -> Result<Option<[Vec<P>; 2]>, AllocError> {
    if matrix.height() == 0 {
        return Ok(None);
    }
    let made = matrix.vertically_packed_row(alloc, r)?;
    matrix.vertically_packed_row_into(r, &mut lent)?;
    Ok(Some([made, lent]))
}

/// The values in the first lanes.
fn first_lanes<P: PackedValue>(alloc: Global, packs: &[P]) -> Result<Vec<P::Value>, AllocError> {
    let mut values = Vec::new(alloc);
    if P::WIDTH > 0 {
        for pack in packs {
            values.push(pack.extract(0))?;
        }
    }
    Ok(values)
}

fn packed_rows<F: PrimeField64 + PackedField + Debug>(
    alloc: Global,
    text: &str,
) -> Result<String, Fail> {
    let (values, first) = apart(text)?;
    let values = elements_in::<F>(alloc, values)?;
    let [first] = numbers_in::<1>(first)?;
    if values.len() % 2 != 0 {
        return Err(Fail::new("a row that isn't whole"));
    }
    let matrix = RowMajorMatrix::new(values, 2);
    let mut lent = Vec::new(alloc);
    lent.push(F::Packing::from(F::from_u8(9)))?;
    match packed_row::<F::Packing>(alloc, &matrix, first as usize, lent)? {
        Some([made, lent]) => {
            let value = [first_lanes(alloc, &made)?, first_lanes(alloc, &lent)?];
            shown(alloc, &value)
        }
        None => Err(Fail::new("no row")),
    }
}

#[test]
fn logarithms(rt: HostRuntime) -> Result<(), Fail> {
    for (n, log) in [
        (1, 0),
        (2, 1),
        (3, 2),
        (4, 2),
        (5, 3),
        (4096, 12),
        (4097, 13),
    ] {
        prove!(1 <= n);
        assert_eq!(rt; log2_ceil_usize(n), log, "at {n}");
    }
    assert_eq!(rt; log2_strict_usize(1), 0);
    assert_eq!(rt; log2_strict_usize(4096), 12);
    Ok(())
}

#[test]
fn powers_of_two(rt: HostRuntime) {
    for (exponent, power) in [(0, Some(1)), (63, Some(9223372036854775808)), (64, None)] {
        assert_eq!(rt; checked_pow2(exponent), power);
    }
    for (left, right, sum) in [(3, 4, Some((7, 128))), (60, 4, None), (usize::MAX, 1, None)] {
        assert_eq!(rt; checked_log_size_sum(left, right), sum);
    }
}

#[test]
fn two_rows(rt: HostRuntime) -> Result<(), Fail> {
    let (local, next) = ([1u8, 2, 3], [4u8, 5, 6]);
    let pair: ViewPair<u8> = VerticalPair::new(
        RowMajorMatrixView::new_row(&local),
        RowMajorMatrixView::new(&next, 3),
    );
    assert_eq!(rt; pair.top.width, 3);
    assert!(rt; pair.top.values == [1, 2, 3].as_slice());
    assert_eq!(rt; pair.bottom.width, 3);
    assert!(rt; pair.bottom.values == [4, 5, 6].as_slice());
    Ok(())
}

/// The row of this index; empty where there is none.
fn row_at<T>(matrix: &RowMajorMatrix<T>, r: usize) -> &[T] {
    if r < matrix.height() {
        matrix.row(r)
    } else {
        &[]
    }
}

#[test]
fn owned_rows(rt: HostRuntime) -> Result<(), Fail> {
    let alloc = rt.alloc();
    let matrix = RowMajorMatrix::new(vec![in alloc; 1u8, 2, 3, 4, 5, 6]?, 3);
    assert_eq!(rt; (matrix.width(), matrix.height()), (3, 2));
    assert_eq!(rt; row_at(&matrix, 0), [1, 2, 3].as_slice());
    assert_eq!(rt; row_at(&matrix, 1), [4, 5, 6].as_slice());
    let column = RowMajorMatrix::new_col(vec![in alloc; 7u8, 8]?);
    assert_eq!(rt; (column.width(), column.height()), (1, 2));
    assert_eq!(rt; row_at(&column, 1), [8].as_slice());
    let none = RowMajorMatrix::new(Vec::<u8>::new(alloc), 0);
    assert_eq!(rt; none.height(), 0);
    Ok(())
}
