//! The interactions of lookups as groups of written entries.
ghost use Rattle.std.specs.Prelude.{◌≡◌, IfOk, replicate};
ghost use Rattle.stark_lookup_extension.specs.Interactions.{directed, tag_of};
ghost use Rattle.stark_lookup_extension.specs.Written.{Stand, StandsAt, WritesKnown, WritesOne};
ghost use Rattle.stark_lookup_extension.specs.WrittenGroups.{WritesEntry, WritesGroup, WritesLookup, WritesLookups, WritesParts, key_places};

use crate::equations::WrittenEntry;
use crate::lookup::{Direction, LookupInteraction, LookupList};
use stark_support::Field;
use stark_tree_air::{TreeList, TreeNode};
use std::alloc::{AllocError, Global};

/// What a key begins with and is filled up by, and how many elements of a tuple are between.
#[derive(Drop)]
pub(crate) struct KeyParts {
    pub(crate) tag: Vec<usize>,
    pub(crate) zero: usize,
    pub(crate) width: usize,
}

/// The node of a multiplicity: what is received is counted down. It is Err only where memory was
/// refused.
fn directed<F: Copy>(
    list: &mut TreeList<F>,
    direction: Direction,
    times: usize,
) -> Result<usize, AllocError>
    ensures { IfOk result (λ p. WritesOne StandsAt StandsAt (directed direction) list.old times p
        list.new) }
{
    match direction {
        Direction::Sent => Ok(times),
        Direction::Received => list.node(TreeNode::Negation(times)),
    }
}

/// A place as many times as said. It is Err only where memory was refused.
fn repeated(alloc: Global, place: usize, count: usize) -> Result<Vec<usize>, AllocError>
    ensures { IfOk result (λ all. all.items ≡ replicate count place) }
{
    let mut all = Vec::new(alloc);
    all.resize(count, place)?;
    Ok(all)
}

/// The key of a tuple. It is Err only where memory was refused.
fn key(alloc: Global, parts: &KeyParts, tuple: &[usize]) -> Result<Vec<usize>, AllocError>
    ensures { IfOk result (λ key. key.items ≡ key_places parts.now tuple.now) }
{
    let mut key = Vec::new(alloc);
    key.extend_from_slice(&parts.tag)?;
    key.extend_from_slice(tuple)?;
    let filling = repeated(alloc, parts.zero, parts.width.saturating_sub(tuple.len()))?;
    key.extend_from_slice(&filling)?;
    Ok(key)
}

/// The entry of an interaction. It is Err only where memory was refused.
fn written_entry<F: Field>(
    alloc: Global,
    list: &mut TreeList<F>,
    parts: &KeyParts,
    given: &LookupInteraction,
) -> Result<WrittenEntry, AllocError>
    ensures { IfOk result (λ entry. WritesEntry F.ring list.old parts.now given.now entry
        list.new) }
{
    let key = key(alloc, parts, &given.tuple)?;
    let multiplicity = directed(list, given.direction, given.times)?;
    Ok(WrittenEntry { key, multiplicity })
}

/// The entries of a group. It is Err only where memory was refused.
fn written_group<F: Field>(
    alloc: Global,
    list: &mut TreeList<F>,
    parts: &KeyParts,
    group: &[LookupInteraction],
) -> Result<Vec<WrittenEntry>, AllocError>
    ensures { IfOk result (λ all. WritesGroup F.ring list.old parts.now group.now all.items
        list.new) }
{
    let mut all = Vec::new(alloc);
    for given in group {
        let entry = written_entry(alloc, &mut *list, parts, given)?;
        all.push(entry)?;
    }
    Ok(all)
}

/// The groups of a lookup. It is Err only where memory was refused.
fn written_lookup<F: Field>(
    alloc: Global,
    list: &mut TreeList<F>,
    parts: &KeyParts,
    groups: &[Vec<LookupInteraction>],
) -> Result<Vec<Vec<WrittenEntry>>, AllocError>
    ensures { IfOk result (λ all. WritesLookup F.ring list.old parts.now groups.now all.items
        list.new) }
{
    let mut all = Vec::new(alloc);
    for group in groups {
        let entries = written_group(alloc, &mut *list, parts, group)?;
        all.push(entries)?;
    }
    Ok(all)
}

/// The number of a lookup, where there are several. It is Err only where memory was refused.
fn written_tag<F: Field>(
    alloc: Global,
    list: &mut TreeList<F>,
    numbered: bool,
    number: F,
) -> Result<Vec<usize>, AllocError>
    ensures { IfOk result (λ tag. WritesKnown Stand (tag_of numbered number) list.old tag.items
        list.new) }
{
    let mut tag = Vec::new(alloc);
    if !numbered {
        return Ok(tag);
    }
    let place = list.constant(number)?;
    tag.push(place)?;
    Ok(tag)
}

/// The parts of the keys of a lookup. It is Err only where memory was refused.
fn key_parts<F: Field>(
    alloc: Global,
    list: &mut TreeList<F>,
    numbered: bool,
    number: F,
    width: usize,
) -> Result<KeyParts, AllocError>
    ensures width { IfOk result (λ parts. parts.width ≡ width) }
    ensures parts { IfOk result (λ parts. WritesParts F.ring (tag_of numbered number) list.old
        parts list.new) }
{
    let zero = list.constant(F::ZERO)?;
    let tag = written_tag(alloc, list, numbered, number)?;
    Ok(KeyParts { tag, zero, width })
}

/// The groups of all lookups, one lookup after the other. It is Err only where memory was refused.
pub(crate) fn written_groups<F: Field>(
    alloc: Global,
    list: &mut TreeList<F>,
    given: &LookupList,
) -> Result<Vec<Vec<WrittenEntry>>, AllocError>
    ensures { IfOk result (λ all. WritesLookups F.ring given.now list.old all.items list.new) }
{
    let numbered = given.is_numbered();
    let mut number = F::ZERO;
    let mut all = Vec::new(alloc);
    for lookup in &given.lookups {
        let parts = key_parts(alloc, &mut *list, numbered, number, given.width)?;
        let mut groups = written_lookup(alloc, &mut *list, &parts, &lookup.groups)?;
        all.append(&mut groups)?;
        number = number + F::ONE;
    }
    Ok(all)
}
