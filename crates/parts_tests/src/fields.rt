//! A field and its extension of degree four.
use stark_support::{
    ExtensionField, Field, JsonFault, NeverNull, PackedExtensionField, PackedField, PackedValue,
    PrimeField64, TwoAdicField, batch_multiplicative_inverse, packed_from_fn, power_of,
    squared_times, value_from_bytes,
};
use stark_test_cases::{
    above_in, all_above_in, apart, computed, element, elements_in, numbers_in, shown,
};
use std::alloc::{AllocError, Global};
use std::fmt::Debug;
use std::test::Fail;

// What is computed of one element or of two, and which elements there are: a table's name | what is
// given.
pub const CASES: &str = r#"
# The operation | the numbers.
base | sum | 12288 5 => Some(4)
base | difference | 5 12288 => Some(6)
base | product | 12288 5 => Some(12284)
base | negative | 5 0 => Some(12284)
base | inverse | 8 0 => Some(10753)

# The inverse of X is [0, 0, 0, 5586], and X times X^3 is 11.
above | inverse | 0 1 0 0, 0 0 0 0 => Some(Ext4 { c0: 0, c1: 0, c2: 0, c3: 5586 })
above | product | 0 1 0 0, 0 0 0 1 => Some(Ext4 { c0: 11, c1: 0, c2: 0, c3: 0 })
above | product | 0 1 0 0, 0 0 0 5586 => Some(Ext4 { c0: 1, c1: 0, c2: 0, c3: 0 })
above | sum | 1 2 3 4, 12288 1 0 0 => Some(Ext4 { c0: 0, c1: 3, c2: 3, c3: 4 })
above | difference | 1 2 3 4, 2 2 0 0 => Some(Ext4 { c0: 12288, c1: 0, c2: 3, c3: 4 })
above | negative | 1 0 0 4, 0 0 0 0 => Some(Ext4 { c0: 12288, c1: 0, c2: 0, c3: 12285 })

# 2 * 6145 and 3 * 8193 are one more than 12289 and twice that; 8 * 10753 is one more than seven times that.
inverses | 2 3 8 => Some([6145, 8193, 10753])
inverses | 2 0 => None

# The logarithm of a group. Answered are its generators in the base field and in the extension.
generators | 12 => 1331 Ext4 { c0: 1331, c1: 0, c2: 0, c3: 0 }
generators | 3 => 8246 Ext4 { c0: 8246, c1: 0, c2: 0, c3: 0 }
generators | 2 => 1479 Ext4 { c0: 1479, c1: 0, c2: 0, c3: 0 }
generators | 1 => 12288 Ext4 { c0: 12288, c1: 0, c2: 0, c3: 0 }
generators | 0 => 1 Ext4 { c0: 1, c1: 0, c2: 0, c3: 0 }

# The power of the field's generator, and its logarithm for the other way to compute it.
powers | 4096 12 => 6240 6240

basis | 0 => Some(Ext4 { c0: 1, c1: 0, c2: 0, c3: 0 })
basis | 3 => Some(Ext4 { c0: 0, c1: 0, c2: 0, c3: 1 })
basis | 4 => None

# Numbers | elements of the extension. Answered are the sums of the basis times both; none where these are no four. The second
# is 1 + X * X + X^3 * X, and X^4 is 11.
sums of the basis | 1 2 3 4 | 1 0 0 0, 0 1 0 0, 0 0 0 0, 0 1 0 0 => Some(Ext4 { c0: 1, c1: 2, c2: 3, c3: 4 }) Some(Ext4 { c0: 12, c1: 0, c2: 1, c3: 0 })
sums of the basis | 1 2 3 | 1 0 0 0, 0 1 0 0 => None None

# An element | the place of a coordinate, and a number. Answered are the coordinate, the number as an element, and the one.
parts | 1 2 3 4 | 2 7 => Some(3) Ext4 { c0: 7, c1: 0, c2: 0, c3: 0 } Ext4 { c0: 1, c1: 0, c2: 0, c3: 0 }

# What is read is written the same way, also where it is zero: null is left to say that there is no value.
json | 0 => 0 is 0
json | 12288 => 12288 is 12288
json | 12289 => Invalid: the JSON value is refused
json above | [0,0,0,0] => [0,0,0,0] is Ext4 { c0: 0, c1: 0, c2: 0, c3: 0 }
json above | [1,2,3,4] => [1,2,3,4] is Ext4 { c0: 1, c1: 2, c2: 3, c3: 4 }
json above | [1,2,3,12289] => Invalid: the JSON value is refused
json above | [1,2,3] => Invalid: the JSON value is refused
"#;

// How many lanes there are, of the base field and of its extension, and whether two packs at a time
// pay. Then a value and another one, and the same of the extension: what a pack of one lane has,
// and has with the other one in its place; none of wider packs. Then the pack that has the first
// value in its first lane and the other one in all others, by its first lane and its last, and the
// first value in all lanes, as a pack of the extension.
pub const SCALAR_CASES: &str = r#"
packs | 7 8 | 1 2 3 4, 0 0 0 0 => Some((7, 8)) Some((Ext4 { c0: 1, c1: 2, c2: 3, c3: 4 }, Ext4 { c0: 0, c1: 0, c2: 0, c3: 0 }))
by lane | 5 6 => Some((5, 5)) Some((Ext4 { c0: 5, c1: 0, c2: 0, c3: 0 }, Ext4 { c0: 5, c1: 0, c2: 0, c3: 0 }))
by lane | 7 6 => Some((7, 7)) Some((Ext4 { c0: 7, c1: 0, c2: 0, c3: 0 }, Ext4 { c0: 7, c1: 0, c2: 0, c3: 0 }))
"#;

pub const ONE_LANE_CASES: &str = r#"
widths | all => 1 1 false
"#;

pub const OVER_BABY_BEAR: &str = r#"
widths | all => 1 1 true
"#;

pub const PACKED_CASES: &str = r#"
widths | all => 4 4 false
packs | 7 8 | 1 2 3 4, 0 0 0 0 => None None
by lane | 5 6 => Some((5, 6)) Some((Ext4 { c0: 5, c1: 0, c2: 0, c3: 0 }, Ext4 { c0: 5, c1: 0, c2: 0, c3: 0 }))
"#;

pub const LOCKSTEP_CASES: &str = r#"
widths | all => 4 4 true
packs | 7 8 | 1 2 3 4, 0 0 0 0 => None None
by lane | 5 6 => Some((5, 6)) Some((Ext4 { c0: 5, c1: 0, c2: 0, c3: 0 }, Ext4 { c0: 5, c1: 0, c2: 0, c3: 0 }))
"#;

/// The answer to a case of these tables.
pub fn answer<F, EF>(alloc: Global, case: &str) -> Result<String, Fail>
where
    F: PrimeField64 + TwoAdicField + PackedField + NeverNull + Debug,
    EF: PackedExtensionField<F> + TwoAdicField + NeverNull + Debug,
{
    let (table, text) = apart(case)?;
    match table {
        "base" => base_operation::<F>(alloc, text),
        "above" => operation_above::<F, EF>(alloc, text),
        "inverses" => inverses::<F>(alloc, text),
        "generators" => generators::<F, EF>(alloc, text),
        "powers" => powers::<F>(alloc, text),
        "basis" => basis::<F, EF>(alloc, text),
        "sums of the basis" => sums_of_basis::<F, EF>(alloc, text),
        "parts" => parts::<F, EF>(alloc, text),
        "json" => json::<F>(alloc, text),
        "json above" => json::<EF>(alloc, text),
        "widths" => widths::<F, EF>(alloc),
        "packs" => packs::<F, EF>(alloc, text),
        "by lane" => by_lane::<F, EF>(alloc, text),
        _ => Err(Fail::new("no such table")),
    }
}

/// Two values in words.
fn both_shown<T: Debug, U: Debug>(alloc: Global, first: &T, second: &U) -> Result<String, Fail> {
    Ok(format!(in alloc; "{first:?} {second:?}")?)
}

fn base_operation<F: PrimeField64 + Debug>(alloc: Global, text: &str) -> Result<String, Fail> {
    let (name, numbers) = apart(text)?;
    let [x, y] = numbers_in::<2>(numbers)?;
    let value = computed::<F>(name, element(x), element(y));
    shown(alloc, &value)
}

fn operation_above<F: PrimeField64, EF: ExtensionField<F> + Debug>(
    alloc: Global,
    text: &str,
) -> Result<String, Fail> {
    let (name, rest) = apart(text)?;
    let (x, y) = rest.split_once(", ").ok_or("one element")?;
    let value = computed::<EF>(
        name,
        above_in::<F, EF>(alloc, x)?,
        above_in::<F, EF>(alloc, y)?,
    );
    shown(alloc, &value)
}

/// The inverses of elements; none where one of them is zero.
fn inverses_of<F: Field>(alloc: Global, elements: &[F]) -> Result<Option<Vec<F>>, AllocError> {
    if elements.iter().any(|x| *x == F::ZERO) {
        return Ok(None);
    }
    Ok(Some(batch_multiplicative_inverse(alloc, elements)?))
}

fn inverses<F: PrimeField64 + Debug>(alloc: Global, text: &str) -> Result<String, Fail> {
    let value = inverses_of(alloc, &elements_in::<F>(alloc, text)?)?;
    shown(alloc, &value)
}

/// The generator of the group of `2 ^ bits` elements; zero where there is no such group.
fn generator<F: TwoAdicField>(bits: usize) -> F {
    if bits <= F::TWO_ADICITY {
        F::two_adic_generator(bits)
    } else {
        F::ZERO
    }
}

fn generators<F: TwoAdicField + Debug, EF: TwoAdicField + Debug>(
    alloc: Global,
    text: &str,
) -> Result<String, Fail> {
    let [bits] = numbers_in::<1>(text)?;
    let (base, above) = (
        generator::<F>(bits as usize),
        generator::<EF>(bits as usize),
    );
    both_shown(alloc, &base, &above)
}

fn powers<F: Field + Debug>(alloc: Global, text: &str) -> Result<String, Fail> {
    let [power, bits] = numbers_in::<2>(text)?;
    let value = power_of(F::GENERATOR, power as u64);
    let squared = squared_times(F::GENERATOR, bits as usize);
    both_shown(alloc, &value, &squared)
}

/// An element of the basis; none past its end.
fn basis_element<F: Field, EF: ExtensionField<F>>(index: usize) -> Option<EF> {
    if index < EF::DIMENSION {
        Some(EF::basis_element(index))
    } else {
        None
    }
}

fn basis<F: Field, EF: ExtensionField<F> + Debug>(
    alloc: Global,
    text: &str,
) -> Result<String, Fail> {
    let [index] = numbers_in::<1>(text)?;
    let value = basis_element::<F, EF>(index as usize);
    shown(alloc, &value)
}

fn sums_of_basis<F: PrimeField64, EF: ExtensionField<F> + Debug>(
    alloc: Global,
    text: &str,
) -> Result<String, Fail> {
    let (base, above) = apart(text)?;
    let base = EF::from_basis_coefficients_slice(&elements_in::<F>(alloc, base)?);
    let above = all_above_in::<F, EF>(alloc, above)?;
    let above = <EF as ExtensionField<F>>::from_ext_basis_coefficients(&above);
    both_shown(alloc, &base, &above)
}

/// The coordinate of an element; none past the last one.
fn coordinate<F: Field, EF: ExtensionField<F>>(x: EF, index: usize) -> Option<F> {
    if index < EF::DIMENSION {
        Some(x.coordinate(index))
    } else {
        None
    }
}

fn parts<F: PrimeField64 + Debug, EF: ExtensionField<F> + Debug>(
    alloc: Global,
    text: &str,
) -> Result<String, Fail> {
    let (x, numbers) = apart(text)?;
    let [index, number] = numbers_in::<2>(numbers)?;
    let value = coordinate::<F, EF>(above_in::<F, EF>(alloc, x)?, index as usize);
    let embedded = EF::from_base(element(number));
    Ok(format!(in alloc; "{value:?} {embedded:?} {:?}", EF::ONE)?)
}

fn read<T: NeverNull>(alloc: Global, text: &str) -> Result<T, JsonFault> {
    let value = value_from_bytes(alloc, text.as_bytes())?;
    T::from_json(alloc, &value)
}

fn json<T: NeverNull + Debug + Drop>(alloc: Global, text: &str) -> Result<String, Fail> {
    match read::<T>(alloc, text) {
        Ok(x) => {
            let written = x.to_json(alloc)?.to_string(alloc)?;
            Ok(format!(in alloc; "{written} is {x:?}")?)
        }
        Err(fault) => Ok(format!(in alloc; "{fault:?}: {fault}")?),
    }
}

fn widths<F: PackedField, EF: PackedExtensionField<F>>(alloc: Global) -> Result<String, Fail> {
    let (base, above) = (F::Packing::WIDTH, EF::ExtensionPacking::WIDTH);
    let pays = F::BENEFITS_FROM_LOCKSTEP_EVALUATION;
    Ok(format!(in alloc; "{base} {above} {pays}")?)
}

/// Of two values, what a pack of the first one has in its lane, and has with the second one in its
/// place; none of wider packs.
fn packed<P: PackedValue>(values: &[P::Value]) -> Option<(P::Value, P::Value)> {
    if P::WIDTH == 1 && values.len() == 2 {
        let pack = P::from_slice(&values[..1]);
        Some((pack.extract(0), pack.with_lane(0, values[1]).extract(0)))
    } else {
        None
    }
}

fn packs<F, EF>(alloc: Global, text: &str) -> Result<String, Fail>
where
    F: PrimeField64 + PackedField + Debug,
    EF: PackedExtensionField<F> + Debug,
{
    let (base, above) = apart(text)?;
    let base = packed::<F::Packing>(&elements_in::<F>(alloc, base)?);
    let above = packed::<EF::ExtensionPacking>(&all_above_in::<F, EF>(alloc, above)?);
    both_shown(alloc, &base, &above)
}

/// The values in the first lane and in the last one.
fn ends<P: PackedValue>(pack: P) -> Option<(P::Value, P::Value)> {
    if P::WIDTH > 0 {
        Some((pack.extract(0), pack.extract(P::WIDTH - 1)))
    } else {
        None
    }
}

fn by_lane<F, EF>(alloc: Global, text: &str) -> Result<String, Fail>
where
    F: PrimeField64 + PackedField + Debug,
    EF: PackedExtensionField<F> + Debug,
{
    let [x, y] = numbers_in::<2>(text)?;
    let (first, other): (F, F) = (element(x), element(y));
    let pack: F::Packing = packed_from_fn(|lane| if lane == 0 { first } else { other });
    let above = EF::from_packed_base(F::Packing::from(first));
    both_shown(alloc, &ends(pack), &ends(above))
}
