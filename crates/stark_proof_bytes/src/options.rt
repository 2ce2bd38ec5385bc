//! Values that may be missing, as bytes.
ghost use Rattle.std.specs.Prelude.{◌≡◌, ◌++◌, OnOk, option_map, true};
ghost use Rattle.stark_merkle.specs.Tree.{items_of};
ghost use Rattle.stark_proof_bytes.specs.Bytes.{Takes, list_ops, option_ops};

use crate::codec::BytesCodec;
use crate::fault::BytesFault;
use crate::lists::{read_list, write_list};
use crate::reader::ByteReader;
use std::alloc::{AllocError, Global};

/// The value of the next bytes, where the first of them says that there is one.
pub fn read_option<T: BytesCodec + Drop>(
    alloc: Global,
    reader: &mut ByteReader,
) -> Result<Option<T>, BytesFault>
    ensures { Takes (λ x. x) result reader.new ((option_ops T.bytes).reading reader.old) }
{
    if !reader.next_flag()? {
        return Ok(None);
    }
    let value = T::read_from(alloc, reader)?;
    Ok(Some(value))
}

/// Appends the byte 0, or 1 and the value.
pub fn write_option<T: BytesCodec>(value: &Option<T>, out: &mut Vec<u8>) -> Result<(), AllocError>
    ensures written { OnOk result (out.new.items
        ≡ out.old.items ++ (option_ops T.bytes).writing value.now) }
    ensures fits { OnOk result ((option_ops T.bytes).fits value.now ≡ true) }
{
    match value {
        Some(value) => {
            out.push(1)?;
            value.write_to(out)
        }
        None => {
            out.push(0)?;
            Ok(())
        }
    }
}

/// The list of the next bytes, where the first of them says that there is one.
pub fn read_list_option<T: BytesCodec + Drop>(
    alloc: Global,
    reader: &mut ByteReader,
) -> Result<Option<Vec<T>>, BytesFault>
    ensures { Takes (option_map items_of) result reader.new
        ((option_ops (list_ops T.bytes)).reading reader.old) }
{
    if !reader.next_flag()? {
        return Ok(None);
    }
    let list = read_list(alloc, reader)?;
    Ok(Some(list))
}

/// Appends the byte 0, or 1 and the list.
pub fn write_list_option<T: BytesCodec>(
    list: &Option<Vec<T>>,
    out: &mut Vec<u8>,
) -> Result<(), AllocError>
    ensures written { OnOk result (out.new.items
        ≡ out.old.items ++ (option_ops (list_ops T.bytes)).writing (option_map items_of list.now)) }
    ensures fits { OnOk result
        ((option_ops (list_ops T.bytes)).fits (option_map items_of list.now) ≡ true) }
{
    match list {
        Some(list) => {
            out.push(1)?;
            write_list(list, out)
        }
        None => {
            out.push(0)?;
            Ok(())
        }
    }
}
