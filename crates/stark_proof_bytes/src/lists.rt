//! Numbers and lists as bytes.
ghost use Rattle.std.specs.Prelude.{◌≡◌, ◌++◌, OnOk, map, true};
ghost use Rattle.stark_merkle.specs.Tree.{items_of};
ghost use Rattle.stark_support.specs.Seed.{number};
ghost use Rattle.stark_proof_bytes.specs.Bytes.{Takes, list_ops, number_ops};

use crate::codec::BytesCodec;
use crate::fault::BytesFault;
use crate::reader::ByteReader;
use std::alloc::{AllocError, Global};

/// Appends a number as 8 bytes, the high one first.
#[tactic(auto, unfolding(stark_support::specs::Seed::number))]
pub fn write_number(value: usize, out: &mut Vec<u8>) -> Result<(), AllocError>
    ensures written { OnOk result (out.new.items ≡ out.old.items ++ number value) }
    ensures fits { OnOk result (number_ops.fits value ≡ true) }
{
    out.extend_from_slice(&value.to_be_bytes())?;
    Ok(())
}

/// The list that the next bytes name: how many members it has, and each in turn. Memory is taken
/// for members that were read alone.
pub fn read_list<T: BytesCodec + Drop>(
    alloc: Global,
    reader: &mut ByteReader,
) -> Result<Vec<T>, BytesFault>
    ensures { Takes items_of result reader.new ((list_ops T.bytes).reading reader.old) }
{
    let count = reader.next_count()?;
    let mut values = Vec::new(alloc);
    for _place in 0..count {
        let value = T::read_from(alloc, &mut *reader)?;
        values.push(value)?;
    }
    Ok(values)
}

/// Appends how many members there are, and each in turn.
pub fn write_list<T: BytesCodec>(items: &[T], out: &mut Vec<u8>) -> Result<(), AllocError>
    ensures written { OnOk result (out.new.items
        ≡ out.old.items ++ (list_ops T.bytes).writing items.now) }
    ensures fits { OnOk result ((list_ops T.bytes).fits items.now ≡ true) }
{
    write_number(items.len(), &mut *out)?;
    for item in items {
        item.write_to(&mut *out)?;
    }
    Ok(())
}

/// The list of lists that the next bytes name.
pub fn read_lists<T: BytesCodec + Drop>(
    alloc: Global,
    reader: &mut ByteReader,
) -> Result<Vec<Vec<T>>, BytesFault>
    ensures { Takes (λ v. map items_of v.items) result reader.new
        ((list_ops (list_ops T.bytes)).reading reader.old) }
{
    let count = reader.next_count()?;
    let mut lists = Vec::new(alloc);
    for _place in 0..count {
        let list = read_list(alloc, &mut *reader)?;
        lists.push(list)?;
    }
    Ok(lists)
}

/// Appends how many lists there are, and each in turn.
pub fn write_lists<T: BytesCodec>(lists: &[Vec<T>], out: &mut Vec<u8>) -> Result<(), AllocError>
    ensures written { OnOk result (out.new.items
        ≡ out.old.items ++ (list_ops (list_ops T.bytes)).writing (map items_of lists.now)) }
    ensures fits { OnOk result
        ((list_ops (list_ops T.bytes)).fits (map items_of lists.now) ≡ true) }
{
    write_number(lists.len(), &mut *out)?;
    for list in lists {
        write_list(list, &mut *out)?;
    }
    Ok(())
}
