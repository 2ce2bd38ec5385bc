//! Totals of tuples, in a map.
ghost use Rattle.std.specs.Prelude.{◌≡◌, List, OnOk, IfOk, map};
ghost use Rattle.stark_lookup_check.specs.Totals.{AddsAt, total_at};

use stark_support::PrimeField64;
use std::alloc::{AllocError, Global};
use std::collections::BTreeMap;

/// The totals of tuples, by the numbers of their elements.
pub(crate) type Totals<F> = BTreeMap<Vec<u64>, F>;

/// The numbers of a tuple's elements, which tell it from every other. It is Err only where memory
/// was refused.
pub(crate) fn numbers_of<F: PrimeField64>(
    alloc: Global,
    tuple: &[F],
) -> Result<Vec<u64>, AllocError>
    ensures { IfOk result (λ numbers. numbers.items ≡ map F.number_of tuple.now) }
{
    let mut numbers = Vec::with_capacity(alloc, tuple.len())?;
    for x in tuple {
        numbers.push(x.as_canonical_u64())?;
    }
    Ok(numbers)
}

/// The total of a tuple.
pub(crate) fn total_at<F: PrimeField64>(totals: &Totals<F>, key: &Vec<u64>) -> F
    ensures { result ≡ total_at F.ring totals.now key.now.items }
{
    totals.get(key).copied().unwrap_or(F::ZERO)
}

/// Adds to the total of a tuple. It is Err only where memory was refused.
pub(crate) fn add_at<F: PrimeField64>(
    totals: &mut Totals<F>,
    key: Vec<u64>,
    x: F,
) -> Result<(), AllocError>
    ensures { OnOk result (AddsAt F.ring totals.old totals.new key.items x) }
{
    let next = total_at(totals, &key) + x;
    totals.insert(key, next)?;
    Ok(())
}
