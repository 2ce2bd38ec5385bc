//! The cases, and their answers over any field.
use crate::agreement::compared;
use crate::calls::{Places, columns_of_values, values_of_columns};
use crate::lists::lists_in;
use stark_support::{PrimeField64, TwoAdicField};
use stark_test_cases::{apart, element, elements_in, numbers_in};
use std::alloc::Global;
use std::fmt::Debug;
use std::test::Fail;

// A table's name | what is given. The numbers of the first two tables are those of a few lines of
// Python, with Horner's rule and Lagrange's formula modulo 12289, at the points shift * 1331^(2^(12
// - log) * i).
pub const CASES: &str = r#"
# The shift, and the logarithm of the number of points | columns, with commas between. Answered are the values, row after row.
values | 1 0 | 5 => [5]
values | 1 1 | 6150 6144 => [5, 6]
values | 1 2 | 1 2 3 4 => [10, 9329, 12287, 2956]
values | 7 2 | 1 2 3 4, 9, empty => [1534, 9, 0, 6768, 9, 0, 11051, 9, 0, 5229, 9, 0]
values | 11 3 | 1 0 0 0 0 0 0 1, 0 1, 12288 5 6 7 8 => [9107, 11, 4335, 10771, 4683, 2813, 971, 3980, 9537, 10004, 7450, 10976, 3184, 12278, 10169, 1520, 7606, 5642, 11320, 8309, 2063, 2287, 4839, 3613]
values | 12288 3 | 1 2 3 4 5 6 7 8 => [12285, 10781, 5912, 10324, 36, 1957, 6369, 1500]

# The shift, and the logarithm of the number of points | where the rows lie: first place, step and width; how many
# coefficients | a list. Answered are the columns.
columns | 1 0 | 0 1 1 1 | 5 => [[5]]
columns | 1 1 | 0 1 1 2 | 5 6 => [[6150, 6144]]
columns | 1 2 | 0 1 1 4 | 1 2 3 4 => [[6147, 739, 6144, 11549]]
columns | 7 2 | 0 2 2 4 | 1 5 2 6 3 7 4 8 => [[6147, 10639, 11662, 7880], [6151, 10639, 11662, 7880]]
columns | 7 2 | 2 6 2 6 | 99 99 1 5 99 99 99 99 2 6 99 99 99 99 3 7 99 99 99 99 4 8 => [[6147, 10639, 11662, 7880, 0, 0], [6151, 10639, 11662, 7880, 0, 0]]
columns | 11 3 | 0 1 1 8 | 1 0 0 0 0 0 0 12288 => [[0, 9542, 3934, 93, 5767, 10705, 11910, 8136]]

# The logarithm of the number of points, and which rows are compared with values point by point: each so manieth. It is done for
# 0, 1 and 16 columns, at the shifts 1, 11 and 4097. Answered is how many rows were compared.
agrees | 0 1 => 9
agrees | 1 1 => 18
agrees | 2 1 => 36
agrees | 3 1 => 72
agrees | 4 1 => 144
agrees | 5 1 => 288
agrees | 6 3 => 198
agrees | 7 7 => 171
agrees | 8 19 => 126
agrees | 9 53 => 90
agrees | 10 149 => 63
agrees | 11 409 => 54
agrees | 12 1021 => 45
"#;

/// The answer to a case.
pub fn answer<F: PrimeField64 + TwoAdicField + Debug>(
    alloc: Global,
    case: &str,
) -> Result<String, Fail> {
    let (table, text) = apart(case)?;
    match table {
        "values" => values::<F>(alloc, text),
        "columns" => columns::<F>(alloc, text),
        "agrees" => agrees::<F>(alloc, text),
        _ => Err(Fail::new("no such table")),
    }
}

/// The shift and the logarithm that a text names.
fn coset_in<F: PrimeField64>(text: &str) -> Result<(F, usize), Fail> {
    let [shift, log_size] = numbers_in::<2>(text)?;
    Ok((element(shift), log_size as usize))
}

fn values<F: PrimeField64 + TwoAdicField + Debug>(
    alloc: Global,
    text: &str,
) -> Result<String, Fail> {
    let (coset, columns) = apart(text)?;
    let (shift, log_size) = coset_in::<F>(coset)?;
    let columns = lists_in::<F>(alloc, columns)?;
    let value = values_of_columns(alloc, shift, log_size, &columns)?.ok_or("they don't fit")?;
    Ok(format!(in alloc; "{value:?}")?)
}

fn columns<F: PrimeField64 + TwoAdicField + Debug>(
    alloc: Global,
    text: &str,
) -> Result<String, Fail> {
    let (coset, rest) = apart(text)?;
    let (places, values) = apart(rest)?;
    let (shift, log_size) = coset_in::<F>(coset)?;
    let [first, step, width, size] = numbers_in::<4>(places)?;
    let values = elements_in::<F>(alloc, values)?;
    let places = Places {
        first: first as usize,
        step: step as usize,
        width: width as usize,
    };
    let size = size as usize;
    let value = columns_of_values(alloc, shift, log_size, &values, &places, size)?.ok_or(
        "a row isn't there",
    )?;
    Ok(format!(in alloc; "{value:?}")?)
}

fn agrees<F: PrimeField64 + TwoAdicField>(alloc: Global, text: &str) -> Result<String, Fail> {
    let [log_size, step] = numbers_in::<2>(text)?;
    let (log_size, step) = (log_size as usize, step as usize);
    let mut count: usize = 0;
    for shift in [1, 11, 4097] {
        for width in [0, 1, 16] {
            let rows = compared::<F>(alloc, element(shift), log_size, width, step)?;
            count = count.checked_add(rows).ok_or("too many")?;
        }
    }
    Ok(format!(in alloc; "{count}")?)
}
