//! AIRs with long chains of nodes, sized by numbers alone: on trees a chain of doublings would take
//! all memory, and a longer one the stack.
use crate::named_air::tree_of;
use p3_uni_stark::ood_error_bound;
use stark_air::AirLayout;
use stark_parts::{get_log_num_quotient_chunks_for_degree, get_log_quotient_degree_extension};
use stark_support::{ExtensionField, Field, JsonCodec};
use stark_symbolic::{
    LeafDegrees, get_constraint_layout, get_max_constraint_degree_extension, greatest_degrees,
};
use stark_test_cases::{apart, numbers_in};
use stark_tree_air::{TreeAir, TreeColumns, TreeDeclaration, TreeList, TreeNode};
use std::alloc::Global;
use std::test::Fail;

// A table's name | what is given.
pub const CASES: &str = r#"
# An operation | how many nodes of it, each on the one before, over a column of 8 rows; the last is
# a constraint, and the column one over the extension. Answered are the greatest degree, the
# logarithm of the number of chunks, the places, and the bounds on bad draws: the greater of 7 times
# the degree and of 8 for each chunk and 7. Each squaring doubles the degree: 2^20 needs 2^20
# chunks, 2^63 is past 64 bits once it is multiplied by 7, and 2^64 past them at once.
chain | sum | 64 => 1 0 ConstraintLayout { base_indices: [0], ext_indices: [1] } Some((1, 15))
chain | negation | 100000 => 1 0 ConstraintLayout { base_indices: [0], ext_indices: [1] } Some((1, 15))
chain | product | 3 => 8 3 ConstraintLayout { base_indices: [0], ext_indices: [1] } Some((1, 71))
chain | product | 20 => 1048576 20 ConstraintLayout { base_indices: [0], ext_indices: [1] } Some((1, 8388615))
chain | product | 63 => 9223372036854775808 63 ConstraintLayout { base_indices: [0], ext_indices: [1] } None
chain | product | 64 => 18446744073709551615 64 ConstraintLayout { base_indices: [0], ext_indices: [1] } None

# The degree of a column | of a periodic column | of the selectors of the first and the last row |
# of the transition's | an AIR. Answered are the number of constraints and their greatest degrees,
# in multiples of the trace's length with 2 for the transition, and by the numbers given; then the
# logarithm of the number of chunks. The product of the transition, the column and the sum of a
# public value and the periodic column: 2 + 1 + 1 and 13 + 5 + 7. The product of the two selectors:
# 2 and 22. A constant: 0 and 0.
degrees | 5 | 7 | 11 | 13 | {"width":1,"publics":1,"periodic":[[0,1]],"constants":[3],"nodes":[["main",0],["public",0],["periodic",0],["transition"],["add",1,2],["mul",3,0],["mul",5,4],["first"],["last"],["mul",7,8],["neg",9],["constant",0]],"constraints":[{"base":6},{"ext":10},{"base":11}]} => GreatestDegrees { num_constraints: 3, first: Some(4), second: Some(25) } 2
degrees | 0 | 0 | 20 | 13 | {"width":1,"publics":1,"periodic":[[0,1]],"constants":[3],"nodes":[["main",0],["public",0],["periodic",0],["transition"],["add",1,2],["mul",3,0],["mul",5,4],["first"],["last"],["mul",7,8],["neg",9],["constant",0]],"constraints":[{"base":6},{"ext":10},{"base":11}]} => GreatestDegrees { num_constraints: 3, first: Some(4), second: Some(40) } 2
degrees | 18446744073709551615 | 0 | 0 | 0 | {"width":1,"publics":0,"periodic":[],"constants":[],"nodes":[["main",0],["last"],["mul",0,1]],"constraints":[{"base":2}]} => GreatestDegrees { num_constraints: 1, first: Some(2), second: Some(18446744073709551615) } 0
degrees | 18446744073709551615 | 0 | 1 | 0 | {"width":1,"publics":0,"periodic":[],"constants":[],"nodes":[["main",0],["last"],["mul",0,1]],"constraints":[{"base":2}]} => GreatestDegrees { num_constraints: 1, first: Some(2), second: None } 0
degrees | 1 | 1 | 1 | 1 | {"width":1,"publics":0,"periodic":[],"constants":[],"nodes":[],"constraints":[]} => GreatestDegrees { num_constraints: 0, first: Some(0), second: Some(0) } 0
"#;

/// The answer to a case of these tables.
pub fn answer<F: Field + JsonCodec, EF: ExtensionField<F>>(
    alloc: Global,
    case: &str,
) -> Result<String, Fail> {
    let (table, text) = apart(case)?;
    match table {
        "chain" => chain::<F, EF>(alloc, text),
        "degrees" => degrees::<F, EF>(alloc, text),
        _ => Err(Fail::new("no such table")),
    }
}

/// The node of an operation on the node at a place.
fn node_on(operation: &str, place: usize) -> Result<TreeNode, Fail> {
    match operation {
        "sum" => Ok(TreeNode::Sum(place, place)),
        "product" => Ok(TreeNode::Product(place, place)),
        "negation" => Ok(TreeNode::Negation(place)),
        _ => Err(Fail::new("no such operation")),
    }
}

/// The AIR of so many nodes of an operation, each on the one before.
fn chain_air<F: Field>(alloc: Global, operation: &str, count: usize) -> Result<TreeAir<F>, Fail> {
    let mut list = TreeList::new(alloc);
    let column = list.node(TreeNode::MainCurrent(0))?;
    let mut last = column;
    for _ in 0..count {
        last = list.node(node_on(operation, last)?)?;
    }
    list.base(last)?;
    list.extension(column)?;
    let declaration = TreeDeclaration::without_hints(TreeColumns::main(alloc, 1, 0));
    match TreeAir::new(alloc, declaration, list) {
        Ok(air) => Ok(air),
        Err(_) => Err(Fail::new("no AIR")),
    }
}

fn chain<F: Field, EF: ExtensionField<F>>(alloc: Global, text: &str) -> Result<String, Fail> {
    let (operation, count) = apart(text)?;
    let [count] = numbers_in::<1>(count)?;
    let air = chain_air::<F>(alloc, operation, count as usize)?;
    let layout = AirLayout::from_air::<F, TreeAir<F>>(&air);
    let degree = get_max_constraint_degree_extension::<F, EF, TreeAir<F>>(alloc, &air, layout, 8)?;
    let log = get_log_quotient_degree_extension::<F, EF, TreeAir<F>>(alloc, &air, layout, 8, 0)?;
    let places = get_constraint_layout::<F, EF, TreeAir<F>>(alloc, &air, layout)?;
    let bound = ood_error_bound::<F, EF, TreeAir<F>>(alloc, &air, layout, 3, 0)?;
    Ok(format!(in alloc; "{degree} {log} {places:?} {bound:?}")?)
}

/// The degrees of leaves at the front of a case, and what stands behind them.
fn leaves_in(text: &str) -> Result<(LeafDegrees, &str), Fail> {
    let (column, rest) = apart(text)?;
    let (periodic, rest) = apart(rest)?;
    let (boundary, rest) = apart(rest)?;
    let (transition, rest) = apart(rest)?;
    let leaves = LeafDegrees {
        column: column.parse::<usize>()?,
        periodic: periodic.parse::<usize>()?,
        boundary: boundary.parse::<usize>()?,
        transition: transition.parse::<usize>()?,
    };
    Ok((leaves, rest))
}

fn degrees<F: Field + JsonCodec, EF: ExtensionField<F>>(
    alloc: Global,
    text: &str,
) -> Result<String, Fail> {
    let (leaves, spelled) = leaves_in(text)?;
    let multiples = LeafDegrees::trace_multiples(2);
    let air = tree_of::<F>(alloc, spelled)?;
    let layout = AirLayout::from_air::<F, TreeAir<F>>(&air);
    let value = greatest_degrees::<F, EF, TreeAir<F>>(alloc, &air, layout, multiples, leaves)?;
    let degree = value.first.unwrap_or(usize::MAX);
    let log = get_log_num_quotient_chunks_for_degree::<F, TreeAir<F>>(&air, degree, 0);
    Ok(format!(in alloc; "{value:?} {log}")?)
}
