//! A list of masks, read round and round.
ghost use Rattle.std.specs.Prelude.{◌≡◌, ◌<◌, ◌+◌, ◌*◌, ◌%◌, length, IfOk, OnOk};
ghost use Rattle.stark_columns.specs.Columns.{columns_list};
ghost use Rattle.stark_clear.specs.Masks.{mask_list, mask_lists};

use stark_support::Field;
use std::alloc::{AllocError, Global};

/// The next `size` numbers from a place on. The place is moved behind them.
fn next_list<F: Field>(
    alloc: Global,
    masks: &[F],
    place: &mut usize,
    size: usize,
) -> Result<Vec<F>, AllocError>
    requires { place.old < length masks.now }
    ensures list { IfOk result (λ list. list.items ≡ mask_list F.ring masks.now place.old size) }
    ensures place { OnOk result (place.new ≡ (place.old + size) % length masks.now) }
{
    let mut list = Vec::new(alloc);
    for _number in 0..size {
        list.push(masks[*place])?;
        *place = (*place + 1) % masks.len();
    }
    Ok(list)
}

/// The next `count` lists of `size` numbers from a place on. The place is moved behind them.
pub fn next_lists<F: Field>(
    alloc: Global,
    masks: &[F],
    place: &mut usize,
    count: usize,
    size: usize,
) -> Result<Vec<Vec<F>>, AllocError>
    requires { place.old < length masks.now }
    ensures lists { IfOk result (λ lists. columns_list lists
        ≡ mask_lists F.ring masks.now place.old count size) }
    ensures place { OnOk result (place.new ≡ (place.old + count * size) % length masks.now) }
{
    let mut lists = Vec::new(alloc);
    for _list in 0..count {
        let list = next_list(alloc, masks, &mut *place, size)?;
        lists.push(list)?;
    }
    Ok(lists)
}
