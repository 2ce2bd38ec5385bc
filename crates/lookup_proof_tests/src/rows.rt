//! AIRs with lookups, and rows, as texts spell them.
use stark_lookup_extension::{Direction, Lookup, LookupInteraction, LookupList};
use stark_lookup_trace::TupleEntry;
use stark_support::PrimeField64;
use stark_test_cases::{element, elements_in};
use stark_tree_air::{TreeAir, TreeColumns, TreeDeclaration, TreeList, TreeNode};
use std::alloc::Global;
use std::test::Fail;

/// An AIR of that many main columns, whose nodes they are; the node after them is one. Column 0
/// counts the rows from 0 on.
pub fn air_of<F: PrimeField64>(alloc: Global, width: usize) -> Result<TreeAir<F>, Fail> {
    let mut list = TreeList::new(alloc);
    for column in 0..width {
        list.node(TreeNode::MainCurrent(column))?;
    }
    let one = list.constant(F::ONE)?;
    let next = list.node(TreeNode::MainNext(0))?;
    let transition = list.node(TreeNode::Transition)?;
    let first = list.node(TreeNode::FirstRow)?;
    let step = list.node(TreeNode::Difference(next, 0))?;
    let more = list.node(TreeNode::Difference(step, one))?;
    let counts = list.node(TreeNode::Product(transition, more))?;
    let begins = list.node(TreeNode::Product(first, 0))?;
    list.base(counts)?;
    list.base(begins)?;
    let declaration = TreeDeclaration::without_hints(TreeColumns::main(alloc, width, 0));
    match TreeAir::new(alloc, declaration, list) {
        Ok(air) => Ok(air),
        Err(_) => Err(Fail::new("a fault of the AIR")),
    }
}

fn interaction_in(alloc: Global, text: &str) -> Result<LookupInteraction, Fail> {
    let (direction, rest) = match text.strip_prefix("+") {
        Some(rest) => (Direction::Sent, rest),
        None => (
            Direction::Received,
            text.strip_prefix("-").ok_or("no sign")?,
        ),
    };
    let (places, times) = rest.split_once("*").ok_or("no multiplicity")?;
    let mut tuple = Vec::new(alloc);
    for place in places.split(".") {
        tuple.push(place.parse::<usize>()?)?;
    }
    Ok(LookupInteraction {
        direction,
        tuple,
        times: times.parse::<usize>()?,
    })
}

fn lookup_in(alloc: Global, text: &str) -> Result<Lookup, Fail> {
    let mut groups = Vec::new(alloc);
    for group in text.split("; ") {
        let mut interactions = Vec::new(alloc);
        for interaction in group.split(", ") {
            interactions.push(interaction_in(alloc, interaction)?)?;
        }
        groups.push(interactions)?;
    }
    Ok(Lookup { groups })
}

/// The lookups, as wide as their longest tuple.
pub fn lookups_in(alloc: Global, text: &str) -> Result<LookupList, Fail> {
    let mut lookups = Vec::new(alloc);
    let mut width = 0;
    for lookup in text.split(" & ") {
        let lookup = lookup_in(alloc, lookup)?;
        for group in &lookup.groups {
            for interaction in group {
                width = interaction.tuple.len().max(width);
            }
        }
        lookups.push(lookup)?;
    }
    Ok(LookupList { width, lookups })
}

pub fn rows_in<F: PrimeField64>(alloc: Global, text: &str) -> Result<Vec<Vec<F>>, Fail> {
    let mut rows = Vec::new(alloc);
    for row in text.split(" / ") {
        rows.push(elements_in::<F>(alloc, row)?)?;
    }
    Ok(rows)
}

/// What the node at a place is worth in a row: one where it is no column.
fn worth<F: PrimeField64>(row: &[F], place: usize) -> F {
    match row.get(place) {
        Some(value) => *value,
        None => F::ONE,
    }
}

/// What an interaction sends in a row, with the number of its lookup if tuples have one.
fn entry_of<F: PrimeField64>(
    alloc: Global,
    row: &[F],
    number: Option<u32>,
    width: usize,
    given: &LookupInteraction,
) -> Result<TupleEntry<F>, Fail> {
    let mut tuple = Vec::new(alloc);
    if let Some(number) = number {
        tuple.push(element::<F>(number))?;
    }
    for place in &given.tuple {
        tuple.push(worth(row, *place))?;
    }
    for _ in given.tuple.len()..width {
        tuple.push(F::ZERO)?;
    }
    let times = worth(row, given.times);
    let multiplicity = match given.direction {
        Direction::Sent => times,
        Direction::Received => -times,
    };
    Ok(TupleEntry {
        tuple,
        multiplicity,
    })
}

/// The groups of one row.
fn push_groups<F: PrimeField64>(
    alloc: Global,
    groups: &mut Vec<Vec<TupleEntry<F>>>,
    row: &[F],
    given: &LookupList,
) -> Result<(), Fail> {
    let mut number: u32 = 0;
    for lookup in &given.lookups {
        let shown = if given.lookups.len() > 1 {
            Some(number)
        } else {
            None
        };
        for group in &lookup.groups {
            let mut entries = Vec::new(alloc);
            for interaction in group {
                entries.push(entry_of(alloc, row, shown, given.width, interaction)?)?;
            }
            groups.push(entries)?;
        }
        number = number.wrapping_add(1);
    }
    Ok(())
}

/// The groups of all rows.
pub fn groups_of<F: PrimeField64>(
    alloc: Global,
    rows: &[Vec<F>],
    given: &LookupList,
) -> Result<Vec<Vec<TupleEntry<F>>>, Fail> {
    let mut groups = Vec::new(alloc);
    for row in rows {
        push_groups(alloc, &mut groups, row, given)?;
    }
    Ok(groups)
}

/// The number of each group's lookup.
pub fn lookup_numbers(alloc: Global, given: &LookupList) -> Result<Vec<usize>, Fail> {
    let mut numbers = Vec::new(alloc);
    for (number, lookup) in given.lookups.iter().enumerate() {
        for _ in &lookup.groups {
            numbers.push(number)?;
        }
    }
    Ok(numbers)
}
