//! Selectors of a coset, periodic columns beside it, and the recomposition of a quotient. What
//! needs the fields alone stands in `fields_tests`.
use crate::calls::{recomposed_on_parts, selectors_at};
use stark_bench::{ClearCommitment, Coset};
use stark_protocol::power_of_two;
use stark_support::{
    CanObserve, DomainShape, ExtensionChallenger, ExtensionField, Field, FieldChallenger,
    PeriodicColumnShapeError, PeriodicColumns, PolynomialSpace, PrimeField64, TwoAdicField,
};
use stark_test_cases::{above, apart, elements_in, list_in, numbers_in, shown};
use std::alloc::{AllocError, Global};
use std::fmt::Debug;
use std::test::Fail;

// A table's name | what is given.
pub const CASES: &str = r#"
# The selectors of a subgroup at a point. At 3 on the subgroup of two points they are 4, 2 and 4, and the vanishing value is 8.
selectors | 1 3 => Ext4 { c0: 4, c1: 0, c2: 0, c3: 0 } Ext4 { c0: 2, c1: 0, c2: 0, c3: 0 } Ext4 { c0: 4, c1: 0, c2: 0, c3: 0 } Ext4 { c0: 10753, c1: 0, c2: 0, c3: 0 }

# The lengths of columns beside a trace of four rows: whether they fit, or what is wrong.
fitting | 0 => Err(Empty { column: 0 })
fitting | 3 => Err(NotPowerOfTwo { column: 0 })
fitting | 8 => Err(TooLong { column: 0 })
fitting | 4 1 => Ok(())

# The logarithm of a subgroup's size, and a point | the columns beside it: their values there.
periodic | 2 3 | 0 1 | 7 => Some([Ext4 { c0: 12285, c1: 0, c2: 0, c3: 0 }, Ext4 { c0: 7, c1: 0, c2: 0, c3: 0 }])

# The logarithms of the size of the coset of the field's generator and of the number of chunks | the
# chunks: the value at 3. On the cosets of size 2 with shifts 11 and 3980; then the chunks of the
# counter's proof with masks of ones, which cancel.
recomposed | 2 1 | 121 0 0 0, 12168 0 0 0 => Some(Ext4 { c0: 9, c1: 0, c2: 0, c3: 0 })
recomposed | 2 1 | 7684 0 0 0, 7684 0 0 0 => Some(Ext4 { c0: 7684, c1: 0, c2: 0, c3: 0 })
recomposed | 3 2 | 9603 9340 9340 9340, 6903 5345 5345 5345, 2720 2941 2941 2941, 2254 3770 3770 3770 => Some(Ext4 { c0: 39, c1: 0, c2: 0, c3: 0 })
"#;

// Over 2013265921, computed in Python: the selectors as sums over the subgroup's points,
// the columns by Lagrange's interpolation, the chunks' weights as products of quotients, on parts
// of the coset of 31. What else there is of cosets over this field stands in `fields_tests`.
pub const OVER_BABY_BEAR: &str = r#"
selectors | 1 3 => Ext4 { c0: 4, c1: 0, c2: 0, c3: 0 } Ext4 { c0: 2, c1: 0, c2: 0, c3: 0 } Ext4 { c0: 4, c1: 0, c2: 0, c3: 0 } Ext4 { c0: 1761607681, c1: 0, c2: 0, c3: 0 }
selectors | 3 2013265918 => Ext4 { c0: 2013264281, c1: 0, c2: 0, c3: 0 } Ext4 { c0: 98267453, c1: 0, c2: 0, c3: 0 } Ext4 { c0: 211723191, c1: 0, c2: 0, c3: 0 } Ext4 { c0: 1914750927, c1: 0, c2: 0, c3: 0 }
selectors | 10 1234567890 => Ext4 { c0: 1782665506, c1: 0, c2: 0, c3: 0 } Ext4 { c0: 1794706478, c1: 0, c2: 0, c3: 0 } Ext4 { c0: 460054628, c1: 0, c2: 0, c3: 0 } Ext4 { c0: 111510941, c1: 0, c2: 0, c3: 0 }

periodic | 2 3 | 0 1 | 7 => Some([Ext4 { c0: 2013265917, c1: 0, c2: 0, c3: 0 }, Ext4 { c0: 7, c1: 0, c2: 0, c3: 0 }])
periodic | 3 1234567890 | 5 6 7 2013265920 | 1 2 3 4 5 6 7 8 => Some([Ext4 { c0: 628071188, c1: 0, c2: 0, c3: 0 }, Ext4 { c0: 1716241788, c1: 0, c2: 0, c3: 0 }])

# One number on both cosets, and the square of their points: 961 and -961. Then four chunks, and one
# alone, whose coordinates are the value's.
recomposed | 2 1 | 7684 0 0 0, 7684 0 0 0 => Some(Ext4 { c0: 7684, c1: 0, c2: 0, c3: 0 })
recomposed | 2 1 | 961 0 0 0, 2013264960 0 0 0 => Some(Ext4 { c0: 9, c1: 0, c2: 0, c3: 0 })
recomposed | 5 2 | 2013265920 1234567890 987654321 2000000000, 1789456123 16777216 1073741824 8, 9 10 11 12, 987654321 1073741824 2013265920 1234567890 => Some(Ext4 { c0: 51146942, c1: 718793661, c2: 1316424382, c3: 1213316112 })
recomposed | 4 0 | 2013265920 1234567890 987654321 2000000000 => Some(Ext4 { c0: 2013265920, c1: 1234567890, c2: 987654321, c3: 2000000000 })
"#;

/// The answer to a case of these tables.
pub fn answer<F, EF, C>(alloc: Global, table: &str, text: &str) -> Result<String, Fail>
where
    F: PrimeField64 + TwoAdicField + Debug,
    EF: ExtensionField<F> + Debug,
    C: FieldChallenger<F> + CanObserve<ClearCommitment<F>> + ExtensionChallenger<F, EF> + Clone,
{
    match table {
        "selectors" => selectors::<F, EF>(alloc, text),
        "fitting" => fitting::<F>(alloc, text),
        "periodic" => periodic::<F, EF>(alloc, text),
        "recomposed" => recomposed::<F, EF, C>(alloc, text),
        _ => Err(Fail::new("no such table")),
    }
}

/// The coset with this shift of `2^log_size` points; none where there is no such coset.
fn coset<F: TwoAdicField>(shift: F, log_size: usize) -> Option<Coset<F>> {
    if shift == F::ZERO || log_size > F::TWO_ADICITY {
        return None;
    }
    Some(Coset::new(shift, log_size))
}

fn selectors<F, EF>(alloc: Global, text: &str) -> Result<String, Fail>
where
    F: PrimeField64 + TwoAdicField,
    EF: ExtensionField<F> + Debug,
{
    let [log_size, point] = numbers_in::<2>(text)?;
    let point = above::<F, EF>(point);
    let value = selectors_at::<F, EF>(log_size as usize, point).ok_or("a point of the domain")?;
    Ok(format!(in alloc;
        "{:?} {:?} {:?} {:?}",
        value.is_first_row, value.is_last_row, value.is_transition, value.inv_vanishing
    )?)
}

/// Whether columns fit a trace of four rows, or what is wrong.
fn fits<F>(columns: &[Vec<F>]) -> Result<(), PeriodicColumnShapeError> {
    match PeriodicColumns::new(columns, 4) {
        Ok(_) => Ok(()),
        Err(fault) => Err(fault),
    }
}

fn fitting<F: Field>(alloc: Global, text: &str) -> Result<String, Fail> {
    let mut columns = Vec::new(alloc);
    for length in list_in(alloc, text)? {
        let mut column = Vec::new(alloc);
        for _row in 0..length {
            column.push(F::ONE)?;
        }
        columns.push(column)?;
    }
    let value = fits(&columns);
    shown(alloc, &value)
}

/// The values at a point of columns beside the subgroup of `2^log_size` points.
fn periodic_values<F: TwoAdicField, EF: ExtensionField<F>>(
    alloc: Global,
    log_size: usize,
    columns: &[Vec<F>],
    point: EF,
) -> Result<Option<Vec<EF>>, AllocError> {
    if log_size > F::TWO_ADICITY {
        return Ok(None);
    }
    let domain: Coset<F> = Coset::subgroup(log_size);
    match PeriodicColumns::new(columns, domain.size()) {
        Ok(fitting) => Ok(Some(domain.evaluate_periodic_columns_at(alloc, &fitting, point)?)),
        Err(_) => Ok(None),
    }
}

fn periodic<F, EF>(alloc: Global, text: &str) -> Result<String, Fail>
where
    F: PrimeField64 + TwoAdicField,
    EF: ExtensionField<F> + Debug,
{
    let (numbers, rest) = apart(text)?;
    let [log_size, point] = numbers_in::<2>(numbers)?;
    let mut columns = Vec::new(alloc);
    for column in rest.split(" | ") {
        columns.push(elements_in::<F>(alloc, column)?)?;
    }
    let point = above::<F, EF>(point);
    let value = periodic_values::<F, EF>(alloc, log_size as usize, &columns, point)?;
    shown(alloc, &value)
}

/// The value at 3 that is recomposed from chunks on the parts of the coset whose shift is the
/// field's generator; none where it has fewer parts.
fn recomposed_at<F, EF, C>(
    alloc: Global,
    log_size: usize,
    log_chunks: usize,
    chunks: &[Vec<EF>],
) -> Result<Option<EF>, AllocError>
where
    F: PrimeField64 + TwoAdicField,
    EF: ExtensionField<F>,
    C: FieldChallenger<F> + CanObserve<ClearCommitment<F>> + ExtensionChallenger<F, EF> + Clone,
{
    let Some(domain) = coset::<F>(F::GENERATOR, log_size) else {
        return Ok(None);
    };
    if log_chunks > 12 || log_chunks > domain.log_size {
        return Ok(None);
    }
    let dimension = EF::DIMENSION;
    let fits = chunks.len() == power_of_two(log_chunks)
        && chunks.iter().all(|chunk| chunk.len() == dimension);
    if !fits {
        return Ok(None);
    }
    let point = above::<F, EF>(3);
    let value = recomposed_on_parts::<F, EF, C>(alloc, &domain, log_chunks, chunks, point)?;
    Ok(Some(value))
}

fn recomposed<F, EF, C>(alloc: Global, text: &str) -> Result<String, Fail>
where
    F: PrimeField64 + TwoAdicField,
    EF: ExtensionField<F> + Debug,
    C: FieldChallenger<F> + CanObserve<ClearCommitment<F>> + ExtensionChallenger<F, EF> + Clone,
{
    let (numbers, rest) = apart(text)?;
    let [log_size, log_chunks] = numbers_in::<2>(numbers)?;
    let mut chunks = Vec::new(alloc);
    for chunk in rest.split(", ") {
        let mut values = Vec::new(alloc);
        for number in list_in(alloc, chunk)? {
            values.push(above::<F, EF>(number))?;
        }
        chunks.push(values)?;
    }
    let value = recomposed_at::<F, EF, C>(alloc, log_size as usize, log_chunks as usize, &chunks)?;
    shown(alloc, &value)
}
