//! Elements in lanes: each lane computes what the field does of the element in it, and so does the
//! prover's folder.
ghost use Rattle.std.specs.Prelude.{◌≡◌, All, IsTrue, length};

use crate::lockstep;
use stark_air::{BaseAirBuilder, ExtensionBuilder, RowWindow};
use stark_bench::ClearCommitment;
use stark_clear::ClearPcs;
use stark_parts::{PackedChallenge, PackedVal, StarkConfig, StarkGenericConfig, Val};
use stark_prover_folder::ProverConstraintFolder;
use stark_support::{
    CanObserve, ExtensionChallenger, ExtensionField, Field, FieldChallenger, PackedExtensionField,
    PackedField, PackedValue, Pcs, PolynomialSpace, PrimeField64, RowMajorMatrixView, TwoAdicField,
};
use stark_test_cases::{all_above_in, apart, elements_in};
use std::alloc::{AllocError, Global};
use std::fmt::Debug;
use std::test::Fail;

// A table's name | what is given. `lanes`: elements | as many of the extension: how many lanes
// there are, and whether the lanes of both agree with the fields, at -1, 1, 0 and half of -1, and
// with these as coordinates. `folded`: what the prover's folder makes of elements x, 16 (x - 1) + 4
// (x - 2) + (x - 3) in each lane. `pairs of lanes`: whether the lanes of two packs agree with the
// field. `folded in pairs`: how many other values the scratch vector held | the elements that two
// packs at a time fold.
pub const SCALAR_CASES: &str = r#"
lanes | 12288 | 12288 1 0 6144 => 1 true true
folded | 5 => Some([Ext4 { c0: 78, c1: 0, c2: 0, c3: 0 }])
pairs of lanes | 250 251 => true
folded in pairs | 0 | 5 6 => Some([Ext4 { c0: 78, c1: 0, c2: 0, c3: 0 }, Ext4 { c0: 99, c1: 0, c2: 0, c3: 0 }])
folded in pairs | 7 | 5 6 => Some([Ext4 { c0: 78, c1: 0, c2: 0, c3: 0 }, Ext4 { c0: 99, c1: 0, c2: 0, c3: 0 }])
"#;

pub const WIDE_CASES: &str = r#"
lanes | 12288 1 0 6144 | 12288 1 0 6144, 1 0 6144 12288, 0 6144 12288 1, 6144 12288 1 0 => 4 true true
folded | 5 6 7 8 => Some([Ext4 { c0: 78, c1: 0, c2: 0, c3: 0 }, Ext4 { c0: 99, c1: 0, c2: 0, c3: 0 }, Ext4 { c0: 120, c1: 0, c2: 0, c3: 0 }, Ext4 { c0: 141, c1: 0, c2: 0, c3: 0 }])
pairs of lanes | 250 251 252 253 254 255 0 1 => true
folded in pairs | 0 | 5 6 7 8 9 10 11 12 => Some([Ext4 { c0: 78, c1: 0, c2: 0, c3: 0 }, Ext4 { c0: 99, c1: 0, c2: 0, c3: 0 }, Ext4 { c0: 120, c1: 0, c2: 0, c3: 0 }, Ext4 { c0: 141, c1: 0, c2: 0, c3: 0 }, Ext4 { c0: 162, c1: 0, c2: 0, c3: 0 }, Ext4 { c0: 183, c1: 0, c2: 0, c3: 0 }, Ext4 { c0: 204, c1: 0, c2: 0, c3: 0 }, Ext4 { c0: 225, c1: 0, c2: 0, c3: 0 }])
folded in pairs | 7 | 5 6 7 8 9 10 11 12 => Some([Ext4 { c0: 78, c1: 0, c2: 0, c3: 0 }, Ext4 { c0: 99, c1: 0, c2: 0, c3: 0 }, Ext4 { c0: 120, c1: 0, c2: 0, c3: 0 }, Ext4 { c0: 141, c1: 0, c2: 0, c3: 0 }, Ext4 { c0: 162, c1: 0, c2: 0, c3: 0 }, Ext4 { c0: 183, c1: 0, c2: 0, c3: 0 }, Ext4 { c0: 204, c1: 0, c2: 0, c3: 0 }, Ext4 { c0: 225, c1: 0, c2: 0, c3: 0 }])
"#;

/// The answer to a case of these tables.
pub fn answer<F, EF, C>(alloc: Global, case: &str) -> Result<String, Fail>
where
    F: TwoAdicField + PrimeField64 + PackedField + Debug,
    EF: PackedExtensionField<F> + Debug,
    C: FieldChallenger<F> + CanObserve<ClearCommitment<F>> + ExtensionChallenger<F, EF> + Clone,
{
    let (table, text) = apart(case)?;
    match table {
        "lanes" => lanes::<F, EF>(alloc, text),
        "folded" => folded_text::<StarkConfig<ClearPcs<F>, EF, C>>(alloc, text),
        "pairs of lanes" => lockstep::pairs_of_lanes::<F>(alloc, text),
        "folded in pairs" => lockstep::folded_text::<StarkConfig<ClearPcs<F>, EF, C>>(alloc, text),
        _ => Err(Fail::new("no such table")),
    }
}

/// How many lanes there are, and whether the lanes of the base field and of its extension agree
/// with the fields.
fn lanes<F, EF>(alloc: Global, text: &str) -> Result<String, Fail>
where
    F: PrimeField64 + PackedField,
    EF: PackedExtensionField<F>,
{
    let (base, above) = apart(text)?;
    let base = lanes_agree::<F::Packing>(&elements_in::<F>(alloc, base)?);
    let above = lanes_agree::<EF::ExtensionPacking>(&all_above_in::<F, EF>(alloc, above)?);
    Ok(format!(in alloc; "{} {base} {above}", F::Packing::WIDTH)?)
}

/// Whether each lane of the elements' squares, opposites and doubles has what the field computes of
/// the element in it.
pub(crate) fn lanes_agree<P: PackedValue>(elements: &[P::Value]) -> bool
where
    P::Value: Field,
{
    if elements.len() != P::WIDTH {
        return false;
    }
    let packed = P::from_slice(elements);
    let (squares, opposites, doubles) = (packed * packed, -packed, packed + packed);
    for (lane, element) in elements.iter().enumerate() {
        let x = *element;
        if squares.extract(lane) != x * x
            || opposites.extract(lane) != -x
            || doubles.extract(lane) != x + x
        {
            return false;
        }
    }
    true
}

/// A configuration over fields that have lanes.
pub trait LaneConfig: StarkGenericConfig<
    Pcs: Pcs<Self::Challenge, Self::Challenger, Domain: PolynomialSpace<Val: PackedField>>,
    Challenge: PackedExtensionField<Val<Self>>,
> {}

impl<SC: StarkGenericConfig> LaneConfig for SC
where
    Val<SC>: PackedField,
    SC::Challenge: PackedExtensionField<Val<SC>>,
{}

/// The powers of alpha, 4, of the first and the last of three constraints, which are over the base
/// field: for each coordinate of the extension its own.
pub(crate) fn base_powers<F: PrimeField64>(
    alloc: Global,
    dimension: usize,
) -> Result<Vec<Vec<F>>, AllocError> {
    let mut rows = Vec::new(alloc);
    for index in 0..dimension {
        let (square, one) = if index == 0 {
            (F::from_u8(16), F::ONE)
        } else {
            (F::ZERO, F::ZERO)
        };
        let mut row = Vec::new(alloc);
        row.push(square)?;
        row.push(one)?;
        rows.push(row)?;
    }
    Ok(rows)
}

/// A folder over a main column of two values and no other, which keeps nothing yet: the prover's,
/// or the lockstep one, which has the same fields.
#[macro_export]
macro_rules! folder_of {
    ($folder:ident, $alloc:expr, $column:expr, $x:expr, $public:expr, $base:expr, $ext:expr) => {{
        let none = &$column[..0];
        $folder {
            main: RowMajorMatrixView::new($column, 1),
            preprocessed: RowMajorMatrixView::new(none, 0),
            preprocessed_window: RowWindow::from_two_rows(none, none),
            periodic_values: none,
            public_values: $public,
            is_first_row: $x,
            is_last_row: $x,
            is_transition: $x,
            base_alpha_powers: $base,
            ext_alpha_powers: $ext,
            base_constraints: Vec::new($alloc),
            ext_constraints: Vec::new($alloc),
            constraint_index: 0,
            constraint_count: 3,
        }
    }};
}

/// The prover's folder over a main column of these values and no other, which keeps nothing yet;
/// none where they are not two.
fn folder_on<'a, SC: LaneConfig>(
    alloc: Global,
    x: PackedVal<SC>,
    column: &'a [PackedVal<SC>],
    public_values: &'a [Val<SC>],
    base: &'a [Vec<Val<SC>>],
    ext: &'a [SC::Challenge],
) -> Option<ProverConstraintFolder<'a, SC>> {
    if column.len() != 2 {
        return None;
    }
    Some(folder_of!(
        ProverConstraintFolder,
        alloc,
        column,
        x,
        public_values,
        base,
        ext
    ))
}

/// Asserts that x is 1, that x is 2, over the extension, and that x is 3.
fn assert_all<SC: LaneConfig>(
    folder: &mut ProverConstraintFolder<'_, SC>,
    x: PackedVal<SC>,
) -> Result<(), AllocError> {
    folder.assert_zero(x - in_lanes::<SC>(1))?;
    folder.assert_zero_ext(PackedChallenge::<SC>::from(x - in_lanes::<SC>(2)))?;
    folder.assert_zero(x - in_lanes::<SC>(3))
}

/// A number in each lane.
fn in_lanes<SC: LaneConfig>(number: u8) -> PackedVal<SC> {
    PackedVal::<SC>::from(Val::<SC>::from_u8(number))
}

/// What the prover's folder makes of those assertions with alpha 4; none where there are not as
/// many elements as lanes.
fn folded<SC: LaneConfig>(
    alloc: Global,
    elements: &[Val<SC>],
) -> Result<Option<PackedChallenge<SC>>, AllocError> {
    if elements.len() != PackedVal::<SC>::WIDTH {
        return Ok(None);
    }
    let x = PackedVal::<SC>::from_slice(elements);
    let mut column = Vec::new(alloc);
    column.push(x)?;
    column.push(x)?;
    let base = base_powers::<Val<SC>>(alloc, SC::Challenge::DIMENSION)?;
    let mut ext = Vec::new(alloc);
    ext.push(SC::Challenge::from_base(Val::<SC>::from_u8(4)))?;
    let none = &elements[..0];
    let Some(mut folder) = folder_on::<SC>(alloc, x, &column, none, &base, &ext) else {
        return Ok(None);
    };
    assert_all(&mut folder, x)?;
    Ok(finalized(&folder))
}

/// Whether powers have so many rows, and each has so many.
pub(crate) fn are_powers<F>(rows: &[Vec<F>], dimension: usize, count: usize) -> bool
    ensures dimension { IsTrue result → length rows.now ≡ dimension }
    ensures rows { IsTrue result → All (λ row. length row.items ≡ count) rows.now }
{
    rows.len() == dimension && rows.iter().all(|row| row.len() == count)
}

/// The folded sum; none where the powers are not as many as the kept values.
fn finalized<SC: LaneConfig>(
    folder: &ProverConstraintFolder<'_, SC>,
) -> Option<PackedChallenge<SC>> {
    let count = folder.base_constraints.len();
    if are_powers(folder.base_alpha_powers, SC::Challenge::DIMENSION, count)
        && folder.ext_constraints.len() == folder.ext_alpha_powers.len()
    {
        Some(folder.finalize_constraints())
    } else {
        None
    }
}

/// The values in the lanes.
pub fn lanes_of<P: PackedValue>(alloc: Global, pack: P) -> Result<Vec<P::Value>, AllocError> {
    let mut values = Vec::new(alloc);
    for lane in 0..P::WIDTH {
        values.push(pack.extract(lane))?;
    }
    Ok(values)
}

fn folded_text<SC: LaneConfig>(alloc: Global, text: &str) -> Result<String, Fail>
where
    SC::Challenge: Debug,
{
    let elements = elements_in::<Val<SC>>(alloc, text)?;
    let value = match folded::<SC>(alloc, &elements)? {
        Some(pack) => Some(lanes_of(alloc, pack)?),
        None => None,
    };
    Ok(format!(in alloc; "{value:?}")?)
}
