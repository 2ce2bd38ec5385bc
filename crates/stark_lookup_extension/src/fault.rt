//! What is wrong with lookups.
ghost use Rattle.std.specs.Prelude.{◌≡◌, length};
ghost use Rattle.stark_lookup_extension.specs.ExtensionFaults.{all_below, group_fault, interaction_fault, lookup_fault, lookups_fault};

use crate::error::ExtensionError;
use crate::lookup::{Lookup, LookupInteraction};

/// How many nodes there are, and how many elements a tuple may have.
#[derive(Clone, Copy)]
pub(crate) struct Limits {
    pub(crate) nodes: usize,
    pub(crate) width: usize,
}

/// Whether all places are below the count.
fn all_below(places: &[usize], count: usize) -> bool
    ensures { result ≡ all_below count places.now }
{
    for place in places {
        if *place >= count {
            return false;
        }
    }
    true
}

fn interaction_fault(
    limits: Limits,
    lookup: usize,
    group: usize,
    interaction: usize,
    given: &LookupInteraction,
) -> Option<ExtensionError>
    ensures { result ≡ interaction_fault limits lookup group interaction given.now }
{
    if given.tuple.len() > limits.width {
        return Some(ExtensionError::LongTuple {
            lookup,
            group,
            interaction,
        });
    }
    if given.times < limits.nodes && all_below(&given.tuple, limits.nodes) {
        return None;
    }
    Some(ExtensionError::NoSuchNode {
        lookup,
        group,
        interaction,
    })
}

/// The fault of the first interaction of a group that has one.
fn group_fault(
    limits: Limits,
    lookup: usize,
    group: usize,
    given: &[LookupInteraction],
) -> Option<ExtensionError>
    ensures { result ≡ group_fault limits lookup group 0 given.now }
{
    for (interaction, one) in given.iter().enumerate() {
        let fault = interaction_fault(limits, lookup, group, interaction, one);
        if fault.is_some() {
            return fault;
        }
    }
    None
}

/// The fault of the first group of a lookup that has one.
fn lookup_fault(
    limits: Limits,
    lookup: usize,
    given: &[Vec<LookupInteraction>],
) -> Option<ExtensionError>
    ensures { result ≡ lookup_fault limits lookup 0 given.now }
{
    for (group, one) in given.iter().enumerate() {
        let fault = group_fault(limits, lookup, group, one);
        if fault.is_some() {
            return fault;
        }
    }
    None
}

/// The fault of the first lookup that has one.
pub(crate) fn lookups_fault(limits: Limits, given: &[Lookup]) -> Option<ExtensionError>
    ensures { result ≡ lookups_fault limits 0 given.now }
{
    for (lookup, one) in given.iter().enumerate() {
        let fault = lookup_fault(limits, lookup, &one.groups);
        if fault.is_some() {
            return fault;
        }
    }
    None
}
