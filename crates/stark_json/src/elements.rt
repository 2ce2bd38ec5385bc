//! The elements that lists spell, or the place of the first that is refused.
ghost use Rattle.std.specs.Prelude.{◌≡◌, drop, map, take};
ghost use Rattle.serde_json.specs.View.{items_of, items_view, view};
ghost use Rattle.stark_json.specs.Apart.{lists_of, number_data, row_data};
ghost use Rattle.stark_json.specs.Elements.{IsReading, element_at, elements_from, list_at, list_of_items, lists_from, refused_element, refused_list};

use crate::element_faults::{ElementsFault, ListsFault};
use crate::rows::NumberRows;
use serde_json::Value;
use stark_support::{JsonCodec, JsonFault};
use std::alloc::Global;

/// The element that a value spells at this index.
fn element_at<T: JsonCodec>(alloc: Global, value: &Value, index: usize) -> Result<T, ElementsFault>
    ensures { IsReading refused_element (λ x. x) result
        (element_at T.reading index (view value.now)) }
{
    match T::from_json(alloc, value) {
        Ok(element) => Ok(element),
        Err(JsonFault::Invalid) => Err(ElementsFault::Element { index }),
        Err(JsonFault::OutOfMemory) => Err(ElementsFault::OutOfMemory),
    }
}

/// The elements that values spell, one each; or the index of the first that spells none.
pub fn elements_from_json<T: JsonCodec + Drop>(
    alloc: Global,
    values: &[Value],
) -> Result<Vec<T>, ElementsFault>
    ensures { IsReading refused_element (λ v. v.items) result
        (elements_from T.reading 0 (items_view values.now)) }
{
    let mut elements = Vec::new(alloc);
    for (index, value) in values.iter().enumerate() {
        let element = element_at(alloc, value, index)?;
        elements.push(element)?;
    }
    Ok(elements)
}

/// The elements that numbers spell, one each.
fn elements_of_numbers<T: JsonCodec + Drop>(
    alloc: Global,
    numbers: &[u32],
) -> Result<Vec<T>, ElementsFault>
    ensures { IsReading refused_element (λ v. v.items) result
        (elements_from T.reading 0 (items_of (map number_data numbers.now))) }
{
    let mut elements = Vec::new(alloc);
    for (index, number) in numbers.iter().enumerate() {
        let element = element_at(alloc, &Value::from(*number), index)?;
        elements.push(element)?;
    }
    Ok(elements)
}

/// The elements of the array at this index of a list.
fn list_at<T: JsonCodec + Drop>(
    alloc: Global,
    value: &Value,
    index: usize,
) -> Result<Vec<T>, ListsFault>
    ensures { IsReading refused_list (λ v. v.items) result
        (list_at T.reading index (view value.now)) }
{
    let Some(values) = value.as_array() else {
        return Err(ListsFault::List { index });
    };
    match elements_from_json(alloc, values) {
        Ok(list) => Ok(list),
        Err(fault) => Err(fault.in_list(index)),
    }
}

/// The lists of elements that arrays spell, one each; or the first array or element at fault.
pub fn lists_from_json<T: JsonCodec + Drop>(
    alloc: Global,
    values: &[Value],
) -> Result<Vec<Vec<T>>, ListsFault>
    ensures { IsReading refused_list (λ v. map (λ list. list.items) v.items) result
        (lists_from T.reading 0 (items_view values.now)) }
{
    let mut lists = Vec::new(alloc);
    for (index, value) in values.iter().enumerate() {
        let list = list_at(alloc, value, index)?;
        lists.push(list)?;
    }
    Ok(lists)
}

/// The elements of the numbers that are at this index of a list.
fn list_of_numbers<T: JsonCodec + Drop>(
    alloc: Global,
    numbers: &[u32],
    index: usize,
) -> Result<Vec<T>, ListsFault>
    ensures { IsReading refused_list (λ v. v.items) result
        (list_at T.reading index (row_data numbers.now)) }
{
    match elements_of_numbers(alloc, numbers) {
        Ok(list) => Ok(list),
        Err(fault) => Err(fault.in_list(index)),
    }
}

/// The first numbers, this many or all, and those after.
fn split_front(numbers: &[u32], length: usize) -> (&[u32], &[u32])
    ensures front { result.0.now ≡ take length numbers.now }
    ensures back { result.1.now ≡ drop length numbers.now }
{
    if length <= numbers.len() {
        numbers.split_at(length)
    } else {
        (numbers, &numbers[numbers.len()..])
    }
}

/// The lists of elements that lists of numbers spell; or the first element at fault.
pub fn lists_of_numbers<T: JsonCodec + Drop>(
    alloc: Global,
    rows: &NumberRows,
) -> Result<Vec<Vec<T>>, ListsFault>
    ensures { IsReading refused_list (λ v. map (λ list. list.items) v.items) result
        (lists_from T.reading 0 (items_of (map row_data (lists_of rows.now)))) }
{
    let mut lists = Vec::new(alloc);
    let mut rest = rows.numbers.as_slice();
    for (index, length) in rows.lengths.iter().enumerate() {
        let (row, more) = split_front(rest, *length);
        let list = list_of_numbers(alloc, row, index)?;
        lists.push(list)?;
        rest = more;
    }
    Ok(lists)
}
