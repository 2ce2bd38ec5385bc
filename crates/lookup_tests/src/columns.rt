//! Helpers and running sums.
use stark_fields::{BabyBearField, F12289};
use stark_logup::group_helper;
use stark_lookup_trace::{AuxiliaryError, auxiliary_columns};
use stark_support::PrimeField64;
use stark_test_cases::{all_cases, apart, element, list_in, numbers_in, shown};
use std::alloc::Global;
use std::test::Fail;

// A helper: gamma | its group, each key with its multiplicity. The columns: gamma | the lookup of
// each group of a row | the rows, with semicolons between groups and strokes between rows.
const OVER_12289: &str = r#"
helper | 5 | empty => 0
helper | 5 | 3 1 => 6145
helper | 5 | 3 1, 4 12288 => 6144
helper | 5 | 3 2, 3 7 => 6149
helper | 5 | 5 0 => a key
helper | 5 | 4 3, 5 1 => a key
helper | 100 | 7 1, 8 12288, 9 2, 10 12287 => 1799
helper | 0 | 12288 1, 1 1 => 0
helper | 9 | 2 0, 3 0 => 0
columns | 100 | 0 | 3 1, 4 12288 / 4 1, 3 12288 => [7096, 0, 5193, 7096]
columns | 100 | 0 | 3 1 / 4 1 / 3 12287 / 5 1 => [6968, 0, 12161, 6968, 10642, 6840, 10478, 5193]
columns | 7 | 0 0 1 | 1 1; 2 3; empty / 3 1, 4 2; 5 12288; 6 1 => [10241, 7374, 0, 0, 1025, 6144, 1, 5326]
columns | 7 | 0 0 1 | 1 1; 2 3; empty / 3 1, 4 2; 5 12288; 7 1 => lookup 1 in row 1
columns | 7 | 2 4 | 1 1; 7 0 / 7 1; 2 2 => lookup 4 in row 0
columns | 3 | 6 | 1 1 / 3 0 => lookup 6 in row 1
columns | 9 | 0 | empty => [0, 0]
columns | 0 | 0 | 1 1, 2 5, 3 12288 => [2045, 0]
"#;

const OVER_BABY_BEAR: &str = r#"
helper | 5 | empty => 0
helper | 5 | 3 1 => 1006632961
helper | 5 | 3 1, 4 12288 => 1006645249
helper | 5 | 3 2, 3 7 => 1006632965
helper | 5 | 5 0 => a key
helper | 5 | 4 3, 5 1 => a key
helper | 100 | 7 1, 8 12288, 9 2, 10 12287 => 678618312
helper | 0 | 12288 1, 1 1 => 163839
helper | 9 | 2 0, 3 0 => 0
columns | 100 | 0 | 3 1, 4 12288 / 4 1, 3 12288 => [1556649036, 0, 41294563, 1556649036]
columns | 7 | 0 0 1 | 1 1; 2 3; empty / 3 1, 4 2; 5 12288; 6 1 => [1677721601, 805306369, 0, 0, 167772161, 6144, 1, 469762049]
columns | 7 | 2 4 | 1 1; 7 0 / 7 1; 2 2 => lookup 4 in row 0
columns | 0 | 0 | 1 1, 2 5, 3 12288 => [1006628861, 0]
"#;

/// The entries of a group, with commas between them.
fn group_in<F: PrimeField64>(alloc: Global, text: &str) -> Result<Vec<(F, F)>, Fail> {
    let mut group = Vec::new(alloc);
    if text == "empty" {
        return Ok(group);
    }
    for entry in text.split(", ") {
        let [key, multiplicity] = numbers_in::<2>(entry)?;
        group.push((element(key), element(multiplicity)))?;
    }
    Ok(group)
}

fn helper_of<F: PrimeField64>(alloc: Global, text: &str) -> Result<String, Fail> {
    let (gamma, entries) = apart(text)?;
    let [number] = numbers_in::<1>(gamma)?;
    let group = group_in::<F>(alloc, entries)?;
    match group_helper(element(number), &group) {
        Some(helper) => shown(alloc, &helper.as_canonical_u64()),
        None => Ok(String::from_str(alloc, "a key")?),
    }
}

/// Rows of groups, and how many rows there are.
#[derive(Drop)]
struct Rows<F> {
    count: usize,
    groups: Vec<Vec<(F, F)>>,
}

fn rows_in<F: PrimeField64>(alloc: Global, text: &str) -> Result<Rows<F>, Fail> {
    let mut groups = Vec::new(alloc);
    let mut rows = Vec::new(alloc);
    for row in text.split(" / ") {
        for group in row.split("; ") {
            groups.push(group_in::<F>(alloc, group)?)?;
        }
        rows.push(row)?;
    }
    let count = rows.len();
    Ok(Rows { count, groups })
}

/// The lookups, by their numbers.
fn lookups_in(alloc: Global, text: &str) -> Result<Vec<usize>, Fail> {
    let mut lookups = Vec::new(alloc);
    for number in list_in(alloc, text)? {
        lookups.push(number as usize)?;
    }
    Ok(lookups)
}

fn columns_of<F: PrimeField64>(alloc: Global, text: &str) -> Result<String, Fail> {
    let (gamma, rest) = apart(text)?;
    let (lookups, rows) = apart(rest)?;
    let [number] = numbers_in::<1>(gamma)?;
    let lookups = lookups_in(alloc, lookups)?;
    let rows = rows_in::<F>(alloc, rows)?;
    if rows.count.checked_mul(lookups.len()) != Some(rows.groups.len()) {
        return Err(Fail::new("rows of other groups"));
    }
    match auxiliary_columns(alloc, element(number), rows.count, &lookups, &rows.groups) {
        Ok(columns) => {
            let mut numbers = Vec::new(alloc);
            for value in &columns.values {
                numbers.push(value.as_canonical_u64())?;
            }
            shown(alloc, &numbers)
        }
        Err(AuxiliaryError::DrawIsKey { row, lookup }) => {
            Ok(format!(in alloc; "lookup {lookup} in row {row}")?)
        }
        Err(AuxiliaryError::OutOfMemory) => Err(Fail::new("out of memory")),
    }
}

fn answer<F: PrimeField64>(alloc: Global, text: &str) -> Result<String, Fail> {
    let (subject, given) = apart(text)?;
    match subject {
        "helper" => helper_of::<F>(alloc, given),
        "columns" => columns_of::<F>(alloc, given),
        _ => Err(Fail::new("no such subject")),
    }
}

fn small(alloc: Global, text: &str) -> Result<String, Fail> {
    answer::<F12289>(alloc, text)
}

fn large(alloc: Global, text: &str) -> Result<String, Fail> {
    answer::<BabyBearField>(alloc, text)
}

#[test]
fn columns_over_each_field(rt: HostRuntime) -> Result<(), Fail> {
    all_cases(rt.alloc(), OVER_12289, small)?;
    all_cases(rt.alloc(), OVER_BABY_BEAR, large)
}
