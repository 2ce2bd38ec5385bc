//! Elements of any base field and of its extension, by their numbers as text.
use crate::words::list_in;
use stark_support::{ExtensionField, Field, PrimeField64};
use std::alloc::Global;
use std::test::Fail;

/// The element of a number.
pub fn element<F: PrimeField64>(number: u32) -> F {
    let base: F = F::from_u8(16) * F::from_u8(16);
    let mut value = F::ZERO;
    for digit in number.to_be_bytes() {
        value = value * base + F::from_u8(digit);
    }
    value
}

/// The elements of a text's numbers.
pub fn elements_in<F: PrimeField64>(alloc: Global, text: &str) -> Result<Vec<F>, Fail> {
    let mut list = Vec::new(alloc);
    for number in list_in(alloc, text)? {
        list.push(element(number))?;
    }
    Ok(list)
}

/// The element of the extension with these coordinates.
pub fn above_in<F: PrimeField64, EF: ExtensionField<F>>(
    alloc: Global,
    text: &str,
) -> Result<EF, Fail> {
    let coordinates = elements_in::<F>(alloc, text)?;
    Ok(EF::from_basis_coefficients_slice(&coordinates).ok_or("other coordinates")?)
}

/// Elements of the extension, with commas between them.
pub fn all_above_in<F: PrimeField64, EF: ExtensionField<F>>(
    alloc: Global,
    text: &str,
) -> Result<Vec<EF>, Fail> {
    let mut list = Vec::new(alloc);
    for coordinates in text.split(", ") {
        list.push(above_in::<F, EF>(alloc, coordinates)?)?;
    }
    Ok(list)
}

/// A number, as an element of the extension.
pub fn above<F: PrimeField64, EF: ExtensionField<F>>(number: u32) -> EF {
    EF::from_base(element(number))
}

/// What an operation gives of one element or of two; none of the inverse of zero.
pub fn computed<F: Field>(name: &str, x: F, y: F) -> Option<F> {
    match name {
        "sum" => Some(x + y),
        "difference" => Some(x - y),
        "product" => Some(x * y),
        "negative" => Some(-x),
        "inverse" if x != F::ZERO => Some(x.inverse()),
        _ => None,
    }
}
