//! Values of a row, cut into the entries of interactions.
ghost use Rattle.std.specs.Prelude.{◌≡◌, ◌<◌, ◌≤◌, ◌*◌, ◌++◌, IfOk, OnOk, drop, length, map};
ghost use Rattle.stark_lookup_rows.specs.Cut.{cut_by, cut_entry, cut_group, cut_lookups, cut_rows, entries_view, entry_view, group_size, groups_size, lookups_size, tag_at};

use stark_lookup_extension::{Direction, Lookup, LookupInteraction, LookupList};
use stark_lookup_trace::TupleEntry;
use stark_support::Field;
use std::alloc::{AllocError, Global};

/// What each tuple of a lookup begins with, and to how many elements it is filled up after that.
#[derive(Drop)]
pub(crate) struct KeyForm<F> {
    pub(crate) tag: Vec<F>,
    pub(crate) width: usize,
}

/// The entry of an interaction, by the values of its tuple and of its multiplicity. It is Err only
/// where memory was refused.
fn entry_from<F: Field>(
    alloc: Global,
    form: &KeyForm<F>,
    given: &LookupInteraction,
    values: &[F],
) -> Result<TupleEntry<F>, AllocError>
    requires { length given.now.tuple.items < length values.now }
    ensures { IfOk result (λ entry. entry_view entry
        ≡ cut_entry F.ring form.now.width form.now.tag.items given.now values.now) }
{
    let size = given.tuple.len();
    let mut tuple = Vec::new(alloc);
    tuple.extend_from_slice(&form.tag)?;
    tuple.extend_from_slice(&values[..size])?;
    let mut filling = Vec::new(alloc);
    filling.resize(form.width.saturating_sub(size), F::ZERO)?;
    tuple.extend_from_slice(&filling)?;
    let times = values[size];
    let multiplicity = match given.direction {
        Direction::Sent => times,
        Direction::Received => -times,
    };
    Ok(TupleEntry {
        tuple,
        multiplicity,
    })
}

/// The entries of a group, and the values after theirs. It is Err only where memory was refused.
fn group_from<'v, F: Field>(
    alloc: Global,
    form: &KeyForm<F>,
    group: &[LookupInteraction],
    values: &'v [F],
) -> Result<(Vec<TupleEntry<F>>, &'v [F]), AllocError>
    requires { group_size group.now ≤ length values.now }
    ensures entries { IfOk result (λ cut. entries_view cut.0
        ≡ cut_group F.ring form.now.width form.now.tag.items group.now values.now) }
    ensures rest { IfOk result (λ cut. cut.1.now ≡ drop (group_size group.now) values.now) }
{
    let mut rest = values;
    let mut all = Vec::with_capacity(alloc, group.len())?;
    for given in group {
        all.push(entry_from(alloc, form, given, rest)?)?;
        rest = &rest[given.tuple.len() + 1..];
    }
    Ok((all, rest))
}

/// Appends the groups of a lookup, and answers the values after theirs. It is Err only where memory
/// was refused.
fn push_groups<'v, F: Field>(
    alloc: Global,
    form: &KeyForm<F>,
    groups: &[Vec<LookupInteraction>],
    values: &'v [F],
    all: &mut Vec<Vec<TupleEntry<F>>>,
) -> Result<&'v [F], AllocError>
    requires { groups_size groups.now ≤ length values.now }
    ensures groups { OnOk result (map entries_view all.new.items
        ≡ map entries_view all.old.items ++ cut_by F.ring form.now groups.now values.now) }
    ensures rest { IfOk result (λ rest. rest.now ≡ drop (groups_size groups.now) values.now) }
{
    let mut rest = values;
    for group in groups {
        let (entries, after) = group_from(alloc, form, group, rest)?;
        all.push(entries)?;
        rest = after;
    }
    Ok(rest)
}

/// What the tuples of a lookup of this number begin with, where there are several.
fn form_of<F: Field>(
    alloc: Global,
    numbered: bool,
    number: F,
    width: usize,
) -> Result<KeyForm<F>, AllocError>
    ensures tag { IfOk result (λ form. form.tag.items ≡ tag_at numbered number) }
    ensures width { IfOk result (λ form. form.width ≡ width) }
{
    let mut tag = Vec::new(alloc);
    if numbered {
        tag.push(number)?;
    }
    Ok(KeyForm { tag, width })
}

/// Appends the groups of all lookups in a row, by the values there. It is Err only where memory was
/// refused.
fn push_lookups<F: Field>(
    alloc: Global,
    width: usize,
    lookups: &[Lookup],
    values: &[F],
    all: &mut Vec<Vec<TupleEntry<F>>>,
) -> Result<(), AllocError>
    requires { lookups_size lookups.now ≤ length values.now }
    ensures { OnOk result (map entries_view all.new.items
        ≡ map entries_view all.old.items ++ cut_lookups F.ring width lookups.now values.now) }
{
    let numbered = lookups.len() > 1;
    let mut number = F::ZERO;
    let mut rest = values;
    for lookup in lookups {
        let form = form_of(alloc, numbered, number, width)?;
        rest = push_groups(alloc, &form, &lookup.groups, rest, &mut *all)?;
        number = number + F::ONE;
    }
    Ok(())
}

/// Appends the groups of each row, by the values of all rows, of which each has `size`. It is Err
/// only where memory was refused.
pub(crate) fn push_rows<F: Field>(
    alloc: Global,
    given: &LookupList,
    rows: usize,
    size: usize,
    values: &[F],
    all: &mut Vec<Vec<TupleEntry<F>>>,
) -> Result<(), AllocError>
    requires size { lookups_size given.now.lookups.items ≤ size }
    requires number { length values.now ≡ rows * size }
    ensures { OnOk result (map entries_view all.new.items
        ≡ map entries_view all.old.items ++ cut_rows F.ring given.now size values.now rows) }
{
    let mut rest = values;
    for _ in 0..rows {
        push_lookups(alloc, given.width, &given.lookups, rest, &mut *all)?;
        rest = &rest[size..];
    }
    Ok(())
}
