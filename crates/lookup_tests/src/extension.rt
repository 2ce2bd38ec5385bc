//! AIRs with lookups: their constraints over worked traces.
use stark_fields::{BabyBearField, Ext4};
use stark_lookup_extension::{
    Direction, ExtensionError, Lookup, LookupInteraction, LookupList, extended_air,
};
use stark_lookup_rows::group_lookups;
use stark_lookup_trace::{LookupDraws, TupleEntry, lookup_columns};
use stark_support::{Element, ExtensionField, Field, PrimeField64};
use stark_test_cases::{all_cases, apart, element, elements_in, numbers_in, shown};
use stark_tree_air::{TreeAir, TreeColumns, TreeConstraint, TreeDeclaration, TreeList, TreeNode};
use std::alloc::Global;
use std::test::Fail;

type Base = BabyBearField;

type Above = Ext4<Base>;

// The main columns, each of which is a node, and after them the node of one; column 0 is a
// constraint | lookups with ampersands between, groups with semicolons, interactions with commas,
// each what it sends (+) or receives (-) by the places of nodes, times a node | the rows | which
// value is changed, by row, column and number => columns, public values and constraints of the AIR
// with its lookups, and each constraint that isn't zero, by row, constraint and value.
const CASES: &str = r#"
3 | +0*3, -1*2 | 2 0 1 / 0 1 0 / 2 2 3 / 2 3 0 | as it is => 11 4 9 [0, 0, 2, 2, 0, 2, 3, 0, 2]
3 | +0*3, -1*2 | 2 0 1 / 0 1 0 / 2 2 3 / 2 3 0 | 1 0 1 => 11 4 9 [0, 0, 2, 1, 0, 1, 1, 1, 1783966930, 1, 2, 806875491, 1, 3, 650582518, 1, 4, 829382842, 2, 0, 2, 3, 0, 2]
3 | +0*3, -1*2 | 2 0 1 / 0 1 0 / 2 2 3 / 2 3 0 | 2 2 2 => 11 4 9 [0, 0, 2, 2, 0, 2, 2, 2, 2013265918, 2, 3, 2013265916, 2, 4, 2013265914, 3, 0, 2]
3 | +0*3, -1*2 | 2 0 1 / 0 1 0 / 2 2 3 / 2 3 0 | 3 5 9 => 11 4 9 [0, 0, 2, 2, 0, 2, 3, 0, 2, 3, 1, 1958977589, 3, 2, 301729602, 3, 3, 178685042, 3, 4, 620299469, 3, 7, 1797218848]
3 | +0*3, -1*2 | 2 0 1 / 0 1 0 / 2 2 3 / 2 3 0 | 0 7 1 => 11 4 9 [0, 0, 2, 0, 5, 2013265920, 2, 0, 2, 3, 0, 2, 3, 5, 1]
3 | +0*3; -1*2 | 2 0 1 / 0 1 0 / 2 2 3 / 2 3 0 | as it is => 15 4 13 [0, 0, 2, 2, 0, 2, 3, 0, 2]
3 | +0*3; -1*2 | 2 0 1 / 0 1 0 / 2 2 3 / 2 3 0 | 0 1 4 => 15 4 13 [0, 0, 2, 0, 5, 1096069961, 0, 6, 1214236043, 0, 7, 589064151, 0, 8, 1304265447, 2, 0, 2, 3, 0, 2]
4 | +0*4, -1*4 & +2.3*4; -3.2*4 | 5 7 1 2 / 7 5 2 1 | as it is => 20 12 17 [0, 0, 5, 1, 0, 7]
4 | +0*4, -1*4 & +2.3*4; -3.2*4 | 5 7 1 2 / 7 5 2 1 | 1 3 9 => 20 12 17 [0, 0, 5, 1, 0, 7, 1, 5, 1891825369, 1, 6, 1913633934, 1, 7, 401151269, 1, 8, 680233173, 1, 9, 1031218626, 1, 10, 681327902, 1, 11, 1636965213, 1, 12, 1226838320]
4 | +0*4, -1*4; +2*3, -3*3 & +0.2.3*4, -1.3.2*4 | 5 7 0 0 / 7 5 0 0 | as it is => 20 16 17 [0, 0, 5, 1, 0, 7]
4 | +0*4, -1*4; +2*3, -3*3 & +0.2.3*4, -1.3.2*4 | 5 7 0 0 / 7 5 0 0 | 0 2 6 => 20 16 17 [0, 0, 5, 0, 9, 432746481, 0, 10, 1577346588, 0, 11, 159124784, 0, 12, 1911647674, 1, 0, 7]
2 | +0*2, -1*2 | 4 6 | as it is => 10 4 9 [0, 0, 4, 0, 5, 2005178540, 0, 6, 113069248, 0, 7, 252800844, 0, 8, 1703663558]
"#;

const FAULTS: &str = r#"
0 | +0*0 => NoMainColumns
1 | +0*1, -2*1 => NoSuchNode { lookup: 0, group: 0, interaction: 1 }
1 | +0*1; +0*1, -0*2 => NoSuchNode { lookup: 0, group: 1, interaction: 1 }
2 | +0*2 & -1*2; +0.3*2 => NoSuchNode { lookup: 1, group: 1, interaction: 0 }
"#;

/// An AIR of that many main columns, whose nodes they are, with one after them. Column 0 is its
/// constraint.
fn air_of(alloc: Global, width: usize) -> Result<TreeAir<Base>, Fail> {
    let mut list = TreeList::new(alloc);
    for column in 0..width {
        list.node(TreeNode::MainCurrent(column))?;
    }
    list.constant(Base::ONE)?;
    list.base(0)?;
    let declaration = TreeDeclaration::without_hints(TreeColumns::main(alloc, width, 0));
    match TreeAir::new(alloc, declaration, list) {
        Ok(air) => Ok(air),
        Err(_) => Err(Fail::new("a fault of the AIR")),
    }
}

fn interaction_in(alloc: Global, text: &str) -> Result<LookupInteraction, Fail> {
    let (direction, rest) = match text.strip_prefix("+") {
        Some(rest) => (Direction::Sent, rest),
        None => (
            Direction::Received,
            text.strip_prefix("-").ok_or("no sign")?,
        ),
    };
    let (places, times) = rest.split_once("*").ok_or("no multiplicity")?;
    let mut tuple = Vec::new(alloc);
    for place in places.split(".") {
        tuple.push(place.parse::<usize>()?)?;
    }
    Ok(LookupInteraction {
        direction,
        tuple,
        times: times.parse::<usize>()?,
    })
}

fn lookup_in(alloc: Global, text: &str) -> Result<Lookup, Fail> {
    let mut groups = Vec::new(alloc);
    for group in text.split("; ") {
        let mut interactions = Vec::new(alloc);
        for interaction in group.split(", ") {
            interactions.push(interaction_in(alloc, interaction)?)?;
        }
        groups.push(interactions)?;
    }
    Ok(Lookup { groups })
}

/// The lookups, as wide as their longest tuple.
fn lookups_in(alloc: Global, text: &str) -> Result<LookupList, Fail> {
    let mut lookups = Vec::new(alloc);
    let mut width = 0;
    for lookup in text.split(" & ") {
        let lookup = lookup_in(alloc, lookup)?;
        for group in &lookup.groups {
            for interaction in group {
                width = interaction.tuple.len().max(width);
            }
        }
        lookups.push(lookup)?;
    }
    Ok(LookupList { width, lookups })
}

/// What the node at a place is worth in a row: one where it is no column.
fn worth(row: &[Base], place: usize) -> Base {
    match row.get(place) {
        Some(value) => *value,
        None => Base::ONE,
    }
}

/// What an interaction sends in a row, with the number of its lookup if tuples have one.
fn entry_of(
    alloc: Global,
    row: &[Base],
    number: Option<u32>,
    width: usize,
    given: &LookupInteraction,
) -> Result<TupleEntry<Base>, Fail> {
    let mut tuple = Vec::new(alloc);
    if let Some(number) = number {
        tuple.push(element(number))?;
    }
    for place in &given.tuple {
        tuple.push(worth(row, *place))?;
    }
    for _ in given.tuple.len()..width {
        tuple.push(Base::ZERO)?;
    }
    let times = worth(row, given.times);
    let multiplicity = match given.direction {
        Direction::Sent => times,
        Direction::Received => -times,
    };
    Ok(TupleEntry {
        tuple,
        multiplicity,
    })
}

/// The groups of one row.
fn push_groups(
    alloc: Global,
    groups: &mut Vec<Vec<TupleEntry<Base>>>,
    row: &[Base],
    given: &LookupList,
) -> Result<(), Fail> {
    let mut number: u32 = 0;
    for lookup in &given.lookups {
        let shown = if given.lookups.len() > 1 {
            Some(number)
        } else {
            None
        };
        for group in &lookup.groups {
            let mut entries = Vec::new(alloc);
            for interaction in group {
                entries.push(entry_of(alloc, row, shown, given.width, interaction)?)?;
            }
            groups.push(entries)?;
        }
        number = number.wrapping_add(1);
    }
    Ok(())
}

fn coordinates_in(alloc: Global, text: &str) -> Result<Above, Fail> {
    let coordinates = elements_in::<Base>(alloc, text)?;
    Ok(Above::from_basis_coefficients_slice(&coordinates).ok_or("other coordinates")?)
}

fn draws_of(alloc: Global) -> Result<LookupDraws<Above>, Fail> {
    Ok(LookupDraws {
        beta: coordinates_in(alloc, "11 13 17 19")?,
        gamma: coordinates_in(alloc, "2 3 5 7")?,
    })
}

/// The rows with the auxiliary columns after their own.
fn extended_rows(
    alloc: Global,
    rows: &[Vec<Base>],
    given: &LookupList,
) -> Result<Vec<Vec<Base>>, Fail> {
    let mut groups = Vec::new(alloc);
    for row in rows {
        push_groups(alloc, &mut groups, row, given)?;
    }
    let numbers = group_lookups(alloc, given)?;
    if rows.len().checked_mul(numbers.len()) != Some(groups.len()) {
        return Err(Fail::new("other groups"));
    }
    let draws = draws_of(alloc)?;
    let Ok(columns) = lookup_columns(alloc, draws, rows.len(), &numbers, &groups) else {
        return Err(Fail::new("no columns"));
    };
    let width = columns.width;
    let mut all = Vec::new(alloc);
    for (index, own) in rows.iter().enumerate() {
        let mut row = Vec::new(alloc);
        row.extend_from_slice(own)?;
        for value in columns
            .values
            .iter()
            .skip(index.saturating_mul(width))
            .take(width)
        {
            for place in 0..Above::DIMENSION {
                row.push(value.coordinate(place))?;
            }
        }
        all.push(row)?;
    }
    Ok(all)
}

/// The coordinates of gamma, and of beta, beta^2, .., that many elements.
fn public_values(alloc: Global, count: usize) -> Result<Vec<Base>, Fail> {
    let draws = draws_of(alloc)?;
    let mut values = Vec::new(alloc);
    let mut drawn = draws.gamma;
    let mut next = draws.beta;
    for _ in 0..count {
        for place in 0..Above::DIMENSION {
            values.push(drawn.coordinate(place))?;
        }
        drawn = next;
        next = next * draws.beta;
    }
    Ok(values)
}

/// What the nodes are worth in a row that another follows.
fn node_values(
    alloc: Global,
    list: &TreeList<Base>,
    row: &[Base],
    next: &[Base],
    public: &[Base],
) -> Result<Vec<Base>, Fail> {
    let mut values: Vec<Base> = Vec::new(alloc);
    for node in &list.nodes {
        let value = match *node {
            TreeNode::Constant(index) => value_at(&list.constants, index)?,
            TreeNode::MainCurrent(column) => value_at(row, column)?,
            TreeNode::MainNext(column) => value_at(next, column)?,
            TreeNode::PublicValue(index) => value_at(public, index)?,
            TreeNode::Sum(x, y) => value_at(&values, x)? + value_at(&values, y)?,
            TreeNode::Difference(x, y) => value_at(&values, x)? - value_at(&values, y)?,
            TreeNode::Product(x, y) => value_at(&values, x)? * value_at(&values, y)?,
            TreeNode::Negation(x) => -value_at(&values, x)?,
            _ => return Err(Fail::new("another node")),
        };
        values.push(value)?;
    }
    Ok(values)
}

fn value_at(values: &[Base], index: usize) -> Result<Base, Fail> {
    Ok(*values.get(index).ok_or("no such value")?)
}

/// Each constraint that isn't zero, by row, constraint and value.
fn broken(alloc: Global, air: &TreeAir<Base>, rows: &[Vec<Base>]) -> Result<Vec<u64>, Fail> {
    let public = public_values(alloc, air.declaration.columns.num_public_values)?;
    let mut numbers = Vec::new(alloc);
    for (index, row) in rows.iter().enumerate() {
        let next = match rows.get(index.saturating_add(1)) {
            Some(next) => next,
            None => rows.first().ok_or("no rows")?,
        };
        let values = node_values(alloc, &air.list, row, next, &public)?;
        for (place, constraint) in air.list.constraints.iter().enumerate() {
            let (TreeConstraint::Base(node) | TreeConstraint::Extension(node)) = *constraint;
            let value = value_at(&values, node)?;
            if value != Base::ZERO {
                numbers.push(index as u64)?;
                numbers.push(place as u64)?;
                numbers.push(value.as_canonical_u64())?;
            }
        }
    }
    Ok(numbers)
}

fn rows_in(alloc: Global, text: &str) -> Result<Vec<Vec<Base>>, Fail> {
    let mut rows = Vec::new(alloc);
    for row in text.split(" / ") {
        rows.push(elements_in::<Base>(alloc, row)?)?;
    }
    Ok(rows)
}

fn change(rows: &mut Vec<Vec<Base>>, text: &str) -> Result<(), Fail> {
    if text == "as it is" {
        return Ok(());
    }
    let [row, column, number] = numbers_in::<3>(text)?;
    let Some(row) = rows.get_mut(row as usize) else {
        return Err(Fail::new("no such row"));
    };
    let Some(value) = row.get_mut(column as usize) else {
        return Err(Fail::new("no such column"));
    };
    *value = element(number);
    Ok(())
}

/// The AIR of that many columns with its lookups, or what is wrong with these.
fn extended(
    alloc: Global,
    width: &str,
    given: &LookupList,
) -> Result<Result<TreeAir<Base>, ExtensionError>, Fail> {
    let air = air_of(alloc, width.parse::<usize>()?)?;
    Ok(extended_air::<Base, Above>(alloc, &air, given))
}

fn constraints_of(alloc: Global, text: &str) -> Result<String, Fail> {
    let (width, rest) = apart(text)?;
    let (lookups, rest) = apart(rest)?;
    let (rows, changed) = apart(rest)?;
    let given = lookups_in(alloc, lookups)?;
    let Ok(air) = extended(alloc, width, &given)? else {
        return Err(Fail::new("a fault of the lookups"));
    };
    let mut rows = extended_rows(alloc, &rows_in(alloc, rows)?, &given)?;
    change(&mut rows, changed)?;
    let numbers = broken(alloc, &air, &rows)?;
    let columns = air.declaration.columns.width;
    let values = air.declaration.columns.num_public_values;
    let constraints = air.list.constraints.len();
    Ok(format!(in alloc; "{columns} {values} {constraints} {numbers:?}")?)
}

fn fault_of(alloc: Global, text: &str) -> Result<String, Fail> {
    let (width, lookups) = apart(text)?;
    let given = lookups_in(alloc, lookups)?;
    match extended(alloc, width, &given)? {
        Ok(_) => Ok(String::from_str(alloc, "none")?),
        Err(fault) => shown(alloc, &fault),
    }
}

#[test]
fn constraints_of_lookups(rt: HostRuntime) -> Result<(), Fail> {
    all_cases(rt.alloc(), CASES, constraints_of)
}

#[test]
fn lookups_with_faults(rt: HostRuntime) -> Result<(), Fail> {
    all_cases(rt.alloc(), FAULTS, fault_of)
}
