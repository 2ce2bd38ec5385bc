//! Tuples of a row, and the elements that stand for them.
ghost use Rattle.std.specs.Prelude.{◌≡◌, IfOk, map};
ghost use Rattle.stark_logup.specs.Lookups.{compressed};
ghost use Rattle.stark_lookup_trace.specs.AuxiliaryColumns.{entries_of, entry_pairs};
ghost use Rattle.stark_lookup_trace.specs.Tuples.{keyed_by, entry_over};

use stark_support::{ExtensionField, Field, polynomial_value_in};
use std::alloc::{AllocError, Global};

/// A tuple and how often it is sent; what is received has the opposite multiplicity.
#[derive(Debug, Drop)]
pub struct TupleEntry<F> {
    pub tuple: Vec<F>,
    pub multiplicity: F,
}

/// A group with each tuple compressed by beta. It is Err only where memory was refused.
fn compressed_group<F: Field, EF: ExtensionField<F>>(
    alloc: Global,
    beta: EF,
    group: &[TupleEntry<F>],
) -> Result<Vec<(EF, EF)>, AllocError>
    ensures { IfOk result (λ pairs. entry_pairs pairs.items
        ≡ map (compressed EF.ring beta) (map (entry_over EF.embed) group.now)) }
{
    let mut pairs = Vec::with_capacity(alloc, group.len())?;
    for entry in group {
        let key: EF = polynomial_value_in(&entry.tuple, beta);
        pairs.push((key, EF::from_base(entry.multiplicity)))?;
    }
    Ok(pairs)
}

/// Groups with each tuple compressed by beta: a tuple t is `t_0 + t_1 beta + ..`. It is Err only
/// where memory was refused.
pub(crate) fn compressed_groups<F: Field, EF: ExtensionField<F>>(
    alloc: Global,
    beta: EF,
    groups: &[Vec<TupleEntry<F>>],
) -> Result<Vec<Vec<(EF, EF)>>, AllocError>
    ensures { IfOk result (λ all. entries_of all.items
        ≡ keyed_by EF.ring EF.embed beta groups.now) }
{
    let mut all = Vec::with_capacity(alloc, groups.len())?;
    for group in groups {
        all.push(compressed_group(alloc, beta, group)?)?;
    }
    Ok(all)
}
