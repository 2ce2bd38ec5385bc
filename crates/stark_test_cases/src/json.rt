//! What JSON as text spells.
use stark_support::{JsonCodec, JsonFault, list_from_json, value_from_bytes};
use std::alloc::Global;
use std::test::Fail;

/// What JSON as text spells.
pub fn spelled<T: JsonCodec>(alloc: Global, text: &str) -> Result<T, JsonFault> {
    let value = value_from_bytes(alloc, text.as_bytes())?;
    T::from_json(alloc, &value)
}

/// The value that a text of JSON spells; an error where it spells none.
pub fn read<T: JsonCodec>(alloc: Global, text: &str) -> Result<T, Fail> {
    Ok(spelled::<T>(alloc, text).ok().ok_or("no such value")?)
}

/// The items of an array as text.
pub fn read_all<T: JsonCodec + Drop>(alloc: Global, text: &str) -> Result<Vec<T>, Fail> {
    let value = value_from_bytes(alloc, text.as_bytes())
        .ok()
        .ok_or("no JSON")?;
    Ok(
        list_from_json::<T>(alloc, &value)
            .ok()
            .ok_or("no such values")?,
    )
}
