//! Two packed values at a time: each lane computes what the field does of the element in it, and so
//! does the lockstep folder.
use crate::folder_of;
use crate::lanes::{LaneConfig, are_powers, base_powers, lanes_agree, lanes_of};
use stark_air::{BaseAirBuilder, ExtensionBuilder, RowWindow};
use stark_parts::{PackedVal, StarkGenericConfig, Val};
use stark_prover_folder::{VectorizedChallenge, VectorizedConstraintFolder, VectorizedVal};
use stark_support::{
    Algebra, ExtensionField, PackedExtensionField, PackedField, PackedValue, PrimeField64,
    RowMajorMatrixView, Vectorized,
};
use stark_test_cases::{apart, elements_in, numbers_in};
use std::alloc::{AllocError, Global};
use std::fmt::Debug;
use std::test::Fail;

/// Whether the lanes of two packs agree with the field.
pub fn pairs_of_lanes<F: PrimeField64 + PackedField>(
    alloc: Global,
    text: &str,
) -> Result<String, Fail> {
    let agree = lanes_agree::<Vectorized<F, 2>>(&elements_in::<F>(alloc, text)?);
    Ok(format!(in alloc; "{agree}")?)
}

/// A number in each lane.
fn in_pairs<SC: StarkGenericConfig>(number: u8) -> VectorizedVal<SC, 2>
where
    Val<SC>: PackedField,
{
    VectorizedVal::<SC, 2>::from(Val::<SC>::from_u8(number))
}

/// Asserts that x is 1, that x is 2, over the extension, and that x is 3.
fn assert_pairs<SC: LaneConfig>(
    folder: &mut VectorizedConstraintFolder<'_, SC, 2>,
    x: VectorizedVal<SC, 2>,
) -> Result<(), AllocError> {
    folder.assert_zero(x - in_pairs::<SC>(1))?;
    folder.assert_zero_ext(VectorizedChallenge::<SC, 2>::from(x - in_pairs::<SC>(2)))?;
    folder.assert_zero(x - in_pairs::<SC>(3))
}

/// The folded sum; none where the powers are not as many as the kept values.
fn finalized<SC: LaneConfig>(
    folder: &VectorizedConstraintFolder<'_, SC, 2>,
    scratch: &mut Vec<PackedVal<SC>>,
) -> Result<Option<VectorizedChallenge<SC, 2>>, AllocError> {
    let count = folder.base_constraints.len();
    if are_powers(folder.base_alpha_powers, SC::Challenge::DIMENSION, count)
        && folder.ext_constraints.len() == folder.ext_alpha_powers.len()
    {
        Ok(Some(folder.finalize_constraints(scratch)?))
    } else {
        Ok(None)
    }
}

/// The lockstep folder over a main column of these values and no other, which keeps nothing yet;
/// none where they are not two.
fn folder_on<'a, SC: LaneConfig>(
    alloc: Global,
    x: &VectorizedVal<SC, 2>,
    column: &'a [VectorizedVal<SC, 2>],
    public_values: &'a [Val<SC>],
    base: &'a [Vec<Val<SC>>],
    ext: &'a [SC::Challenge],
) -> Option<VectorizedConstraintFolder<'a, SC, 2>> {
    if column.len() != 2 {
        return None;
    }
    Some(folder_of!(
        VectorizedConstraintFolder,
        alloc,
        column,
        x.dup(),
        public_values,
        base,
        ext
    ))
}

/// What the lockstep folder makes of those assertions with alpha 4; none where there are not as
/// many elements as lanes.
fn folded<SC: LaneConfig>(
    alloc: Global,
    elements: &[Val<SC>],
    scratch: &mut Vec<PackedVal<SC>>,
) -> Result<Option<VectorizedChallenge<SC, 2>>, AllocError> {
    if elements.len() != VectorizedVal::<SC, 2>::WIDTH {
        return Ok(None);
    }
    let x = VectorizedVal::<SC, 2>::from_slice(elements);
    let mut column = Vec::new(alloc);
    column.push(x.dup())?;
    column.push(x.dup())?;
    let base = base_powers::<Val<SC>>(alloc, SC::Challenge::DIMENSION)?;
    let mut ext = Vec::new(alloc);
    ext.push(SC::Challenge::from_base(Val::<SC>::from_u8(4)))?;
    let none = &elements[..0];
    let Some(mut folder) = folder_on::<SC>(alloc, &x, &column, none, &base, &ext) else {
        return Ok(None);
    };
    assert_pairs(&mut folder, x)?;
    finalized(&folder, scratch)
}

/// What is folded of elements in lanes, with a scratch vector that held so many other values.
pub fn folded_text<SC: LaneConfig>(alloc: Global, text: &str) -> Result<String, Fail>
where
    SC::Challenge: Debug,
{
    let (count, elements) = apart(text)?;
    let [count] = numbers_in::<1>(count)?;
    let elements = elements_in::<Val<SC>>(alloc, elements)?;
    let mut scratch = Vec::new(alloc);
    for _value in 0..count {
        scratch.push(PackedVal::<SC>::from(Val::<SC>::from_u8(9)))?;
    }
    let value = match folded::<SC>(alloc, &elements, &mut scratch)? {
        Some(pack) => Some(lanes_of(alloc, pack)?),
        None => None,
    };
    Ok(format!(in alloc; "{value:?}")?)
}
