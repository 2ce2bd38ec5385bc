//! Columns as text.
use stark_support::PrimeField64;
use stark_test_cases::elements_in;
use std::alloc::Global;
use std::test::Fail;

/// The lists of a text's numbers, with commas between.
pub fn lists_in<F: PrimeField64>(alloc: Global, text: &str) -> Result<Vec<Vec<F>>, Fail> {
    let mut lists = Vec::new(alloc);
    for list in text.split(", ") {
        lists.push(elements_in::<F>(alloc, list)?)?;
    }
    Ok(lists)
}
