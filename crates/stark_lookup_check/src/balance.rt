//! The first tuple that doesn't balance.
ghost use Rattle.std.specs.Prelude.{◌≡◌, List, None, Some, Ok, IfOk, IfSome};
ghost use Rattle.stark_logup.specs.Fractions.{Decides, IsBalanced};
ghost use Rattle.stark_lookup_check.specs.Balance.{IsFirstUnbalanced, entries_of};
ghost use Rattle.stark_lookup_check.specs.Totals.{AreTotalsOf};

use crate::totals::{Totals, add_at, numbers_of, total_at};
use stark_lookup_trace::TupleEntry;
use stark_support::{PrimeField64, is_zero};
use std::alloc::{AllocError, Global};
use std::collections::BTreeMap;

/// The total of each tuple.
fn totals_of<F: PrimeField64>(
    alloc: Global,
    entries: &[TupleEntry<F>],
) -> Result<Totals<F>, AllocError>
    ensures { IfOk result (AreTotalsOf F.ring F.number_of (entries_of entries.now)) }
{
    let mut totals = BTreeMap::new(alloc);
    for entry in entries {
        let key = numbers_of(alloc, &entry.tuple)?;
        add_at(&mut totals, key, entry.multiplicity)?;
    }
    Ok(totals)
}

/// The place of the first entry whose tuple doesn't balance: whose multiplicities don't add up to
/// zero. None where all tuples balance. It takes steps in proportion to the entries, times the
/// logarithm of the number of tuples. It is Err only where memory was refused.
pub fn first_unbalanced<F: PrimeField64>(
    alloc: Global,
    entries: &[TupleEntry<F>],
) -> Result<Option<usize>, AllocError>
    ensures balanced { result ≡ Ok None → (same : Decides (List F))
        → IsBalanced F.ring same (entries_of entries.now) }
    ensures unbalanced { IfOk result (λ found. IfSome found
        (IsFirstUnbalanced F.ring (entries_of entries.now))) }
{
    let totals = totals_of(alloc, entries)?;
    for place in 0..entries.len() {
        let key = numbers_of(alloc, &entries[place].tuple)?;
        if !is_zero(total_at(&totals, &key)) {
            return Ok(Some(place));
        }
    }
    Ok(None)
}
