//! The bytes of rows and of pairs, which the leaves of trees are the digests of.
ghost use Rattle.std.specs.Prelude.{◌≡◌, ◌++◌, IfOk, OnOk, length, map};
ghost use Rattle.stark_support.specs.Seed.{number};
ghost use Rattle.stark_merkle.specs.Bytes.{OpenedRowsBind, PairBytesTell, RowBytesTell, element_bytes, elements_bytes, pair_bytes_of, row_bytes_of, rows_bytes};
ghost use Rattle.stark_merkle.specs.Tree.{items_of};

use crate::hash::TreeHash;
use stark_support::{ExtensionField, PrimeField64};
use std::alloc::{AllocError, Global};

/// Puts a number after the bytes, in 8 bytes, the high one first.
#[tactic(auto, unfolding(stark_support::specs::Seed::number))]
fn push_number(bytes: &mut Vec<u8>, n: u64) -> Result<(), AllocError>
    ensures { OnOk result (bytes.new.items ≡ bytes.old.items ++ number n) }
{
    bytes.extend_from_slice(&n.to_be_bytes())
}

/// Puts an element's number after the bytes, in as many as the field's numbers have room in, the
/// high one first.
#[tactic(auto, unfolding(stark_support::specs::Seed::number))]
fn push_element<F: PrimeField64>(bytes: &mut Vec<u8>, x: &F) -> Result<(), AllocError>
    ensures { OnOk result (bytes.new.items
        ≡ bytes.old.items ++ element_bytes F.BYTES F.number_of x.now) }
{
    bytes.extend_from_slice(&x.as_canonical_u64().to_be_bytes()[8 - F::BYTES..])
}

fn push_elements<F: PrimeField64>(bytes: &mut Vec<u8>, xs: &[F]) -> Result<(), AllocError>
    ensures { OnOk result (bytes.new.items
        ≡ bytes.old.items ++ elements_bytes (element_bytes F.BYTES F.number_of) xs.now) }
{
    for x in xs {
        push_element(&mut *bytes, x)?;
    }
    Ok(())
}

fn push_coordinates<F: PrimeField64, EF: ExtensionField<F>>(
    bytes: &mut Vec<u8>,
    x: EF,
) -> Result<(), AllocError>
    ensures { OnOk result (bytes.new.items ≡ bytes.old.items
        ++ elements_bytes (element_bytes F.BYTES F.number_of) (EF.coordinates x)) }
{
    for index in 0..EF::DIMENSION {
        push_element(&mut *bytes, &x.coordinate(index))?;
    }
    Ok(())
}

/// Begins the bytes of `count` rows, for `push_row` to go on: with their number. What the bytes
/// held is gone, and its memory serves again. It is Err only where an allocation failed.
pub fn begin_rows(bytes: &mut Vec<u8>, count: usize) -> Result<(), AllocError>
    ensures { OnOk result (bytes.new.items ≡ number count) }
{
    bytes.clear();
    push_number(bytes, count as u64)
}

/// Puts a row after the bytes: how many elements it has, and the elements' numbers. It is Err only
/// where an allocation failed.
pub fn push_row<F: PrimeField64>(bytes: &mut Vec<u8>, row: &[F]) -> Result<(), AllocError>
    ensures { OnOk result (bytes.new.items
        ≡ bytes.old.items ++ (number (length row.now)
        ++ elements_bytes (element_bytes F.BYTES F.number_of) row.now)) }
{
    push_number(&mut *bytes, row.len() as u64)?;
    push_elements(bytes, row)
}

/// Writes the bytes of the rows that one leaf commits to, as `row_bytes` gives them. What the bytes
/// held is gone, and its memory serves again. It is Err only where an allocation failed.
pub fn write_rows<F: PrimeField64>(bytes: &mut Vec<u8>, rows: &[Vec<F>]) -> Result<(), AllocError>
    ensures { OnOk result (bytes.new.items
        ≡ row_bytes_of (element_bytes F.BYTES F.number_of) (map items_of rows.now)) }
{
    begin_rows(&mut *bytes, rows.len())?;
    for row in rows {
        push_row(&mut *bytes, row)?;
    }
    Ok(())
}

/// The bytes of the rows that one leaf commits to, a matrix each: how many there are, and for each
/// how many elements it has, both in 8 bytes, and the elements' numbers, each in as many bytes as
/// the field's numbers have room in; the high byte first. It is Err only where an allocation
/// failed.
pub fn row_bytes<F: PrimeField64>(alloc: Global, rows: &[Vec<F>]) -> Result<Vec<u8>, AllocError>
    ensures { IfOk result (λ bytes. bytes.items
        ≡ row_bytes_of (element_bytes F.BYTES F.number_of) (map items_of rows.now)) }
{
    let mut bytes = Vec::new(alloc);
    write_rows(&mut bytes, rows)?;
    Ok(bytes)
}

/// Writes the bytes of a pair of elements of an extension, as `pair_bytes` gives them. What the
/// bytes held is gone, and its memory serves again. It is Err only where an allocation failed.
pub fn write_pair<F: PrimeField64, EF: ExtensionField<F>>(
    bytes: &mut Vec<u8>,
    first: EF,
    second: EF,
) -> Result<(), AllocError>
    ensures { OnOk result (bytes.new.items
        ≡ pair_bytes_of (element_bytes F.BYTES F.number_of) EF.coordinates first second) }
{
    bytes.clear();
    push_coordinates::<F, EF>(&mut *bytes, first)?;
    push_coordinates::<F, EF>(bytes, second)
}

/// The bytes of a pair of elements of an extension: the numbers of the first one's coordinates and
/// then those of the second one's, each in as many bytes as the field's numbers have room in, the
/// high one first. It is Err only where an allocation failed.
pub fn pair_bytes<F: PrimeField64, EF: ExtensionField<F>>(
    alloc: Global,
    first: EF,
    second: EF,
) -> Result<Vec<u8>, AllocError>
    ensures { IfOk result (λ bytes. bytes.items
        ≡ pair_bytes_of (element_bytes F.BYTES F.number_of) EF.coordinates first second) }
{
    let room = EF::DIMENSION.saturating_mul(2).saturating_mul(F::BYTES);
    let mut bytes = Vec::with_capacity(alloc, room)?;
    write_pair::<F, EF>(&mut bytes, first, second)?;
    Ok(bytes)
}

/// A law, with no code: rows with the same bytes are the same.
pub fn row_bytes_tell_rows<F: PrimeField64>(_some: &F)
    ensures { RowBytesTell (element_bytes F.BYTES F.number_of) }
{}

/// A law, with no code: pairs with the same bytes are the same.
pub fn pair_bytes_tell_pairs<F: PrimeField64, EF: ExtensionField<F>>(_some: &EF)
    ensures { PairBytesTell (element_bytes F.BYTES F.number_of) EF.coordinates }
{}

/// A law, with no code: two openings of different rows that lead to one root from one place show a
/// collision of leaves or of nodes.
pub fn opened_rows_bind<F: PrimeField64, H: TreeHash>(_some: &F, _depth: usize, _index: usize)
    ensures { OpenedRowsBind H.digests (element_bytes F.BYTES F.number_of) _depth
        _index }
{}
