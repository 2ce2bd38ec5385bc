//! AIRs as data: as JSON, as lists of nodes, as expressions, and of hand-written AIRs. Their
//! constraints are folded at 3 over the subgroup of two points with alpha 4, where the selectors
//! are 4 for the first row, 2 for the last and 4 for the transition; their proofs stand beside
//! those of the hand-written AIRs.
ghost use Rattle.std.specs.Prelude.{◌≡◌, IfOk, Some};
ghost use Rattle.stark_symbolic.specs.SymbolicView.{variable_tree};
ghost use Rattle.stark_air.specs.Tree.{main_current, main_next, public_value};
ghost use Rattle.stark_samples.specs.Samples.{counter_constraints, fibonacci_constraints, mixed_constraints};

use crate::airs::folded;
use crate::calls::ClearConfig;
use crate::kinds::NamedAir;
use crate::named_air::{named_air, tree_of};
use crate::proofs::value_of;
use crate::provers::text_at;
use crate::proving::TraceProver;
use stark_air::{Air, BaseAir};
use stark_bench::{ClearCommitment, S12289};
use stark_clear::ClearPcs;
use stark_parts::{StarkChallenger, StarkConfig};
use stark_samples::{Asked, PreprocessedAir, SmallAir};
use stark_support::{
    CanObserve, Element, ExtensionChallenger, ExtensionField, Field, FieldChallenger, JsonCodec,
    NeverNull, PackedExtensionField, PackedField, PrimeField64, TwoAdicField,
};
use stark_symbolic::{BaseEntry, SymbolicConstraint, SymbolicExpression, SymbolicVariable};
use stark_test_cases::{apart, numbers_in};
use stark_tree_air::{
    NamedConstraint, TreeAir, TreeAirError, TreeColumns, TreeConstraint, TreeDeclaration,
    TreeExpressionError, TreeList, TreeNode,
};
use std::alloc::Global;
use std::fmt::{Debug, Display};
use std::test::Fail;

type Base = S12289;

// A table's name | what is given.
pub const CASES: &str = r#"
# The AIR | the current row | the next one | the preprocessed one | the periodic values | the public values: the folded sum. The
# counter: 4 * (4 * (4 - 5)) + 4 * (7 - 4 - 1) is -8, and with 5 in the current row 4. Of the mixed constraints
# 16 * (5 - 1) + 4 * (5 - 2) + (5 - 3). Then the periodic column less the main one, and 5 * 2 over the extension: 4 * (3 - 5) + 10.
folded | {"width":1,"publics":1,"periodic":[],"constants":[1],"nodes":[["main",0],["next",0],["public",0],["constant",0],["first"],["transition"],["sub",0,2],["mul",4,6],["sub",1,0],["sub",8,3],["mul",5,9]],"constraints":[{"base":7},{"base":10}]} | 4 | 7 | empty | empty | 5 => Ext4 { c0: 12281, c1: 0, c2: 0, c3: 0 }
folded | {"width":1,"publics":1,"periodic":[],"constants":[1],"nodes":[["main",0],["next",0],["public",0],["constant",0],["first"],["transition"],["sub",0,2],["mul",4,6],["sub",1,0],["sub",8,3],["mul",5,9]],"constraints":[{"base":7},{"base":10}]} | 5 | 7 | empty | empty | 5 => Ext4 { c0: 4, c1: 0, c2: 0, c3: 0 }
folded | {"width":1,"publics":0,"periodic":[],"constants":[1,2,3],"nodes":[["main",0],["constant",0],["constant",1],["constant",2],["sub",0,1],["sub",0,2],["sub",0,3]],"constraints":[{"base":4},{"ext":5},{"base":6}]} | 5 | 0 | empty | empty | empty => Ext4 { c0: 78, c1: 0, c2: 0, c3: 0 }
folded | {"width":1,"publics":0,"periodic":[[0,1]],"constants":[],"nodes":[["main",0],["periodic",0],["neg",0],["add",1,2],["last"],["mul",0,4]],"constraints":[{"base":3},{"ext":5}]} | 5 | 0 | empty | 3 | empty => Ext4 { c0: 2, c1: 0, c2: 0, c3: 0 }

# What is read of the text is answered as it is written; or the error by its name and fields, and as it is printed. The fields in
# their order, whatever stands behind the first fault.
tree | [] => NotAnObject: it is no object
tree | {"width":-1,"preprocesed":{}} => UnknownMember { name: QuotedName { name: "preprocesed" } }: it has a member "preprocesed", which is none of width, publics, periodic, preprocessed, max_constraint_degree, num_constraints, constants, nodes, constraints
tree | {"a_name_that_is_longer_than_forty_bytes_is_cut":0} => UnknownMember { name: QuotedName { name: "a_name_that_is_longer_than_forty_bytes_is_cut" } }: it has a member "a_name_that_is_longer_than_forty_bytes_i".., which is none of width, publics, periodic, preprocessed, max_constraint_degree, num_constraints, constants, nodes, constraints
tree | {"publics":-1} => MissingField { field: "width" }: the field width is missing
tree | {"width":1.0,"publics":-1} => WrongKind { field: "width" }: the field width is of the wrong kind
tree | {"width":18446744073709551616} => WrongKind { field: "width" }: the field width is of the wrong kind
tree | {"width":1,"publics":1,"periodic":{}} => WrongKind { field: "periodic" }: the field periodic is of the wrong kind
tree | {"width":1,"publics":1,"periodic":[1]} => PeriodicColumn { column: 0 }: periodic column 0 is no array
tree | {"width":1,"publics":1,"periodic":[[1],[2,12289],3]} => PeriodicValue { column: 1, row: 1 }: row 1 of periodic column 1 is no whole number below the field's order
tree | {"width":1,"publics":1,"periodic":[],"preprocessed":[]} => WrongKind { field: "preprocessed" }: the field preprocessed is of the wrong kind
tree | {"width":1,"publics":1,"periodic":[],"preprocessed":{"width":-1,"row":[]}} => UnknownTraceMember { name: QuotedName { name: "row" } }: the preprocessed trace has a member "row", which is neither width nor rows
tree | {"width":1,"publics":1,"periodic":[],"preprocessed":{"rows":[]}} => MissingField { field: "preprocessed.width" }: the field preprocessed.width is missing
tree | {"width":1,"publics":1,"periodic":[],"preprocessed":{"width":"1"}} => WrongKind { field: "preprocessed.width" }: the field preprocessed.width is of the wrong kind
tree | {"width":1,"publics":1,"periodic":[],"preprocessed":{"width":1}} => MissingField { field: "preprocessed.rows" }: the field preprocessed.rows is missing
tree | {"width":1,"publics":1,"periodic":[],"preprocessed":{"width":1,"rows":{}}} => WrongKind { field: "preprocessed.rows" }: the field preprocessed.rows is of the wrong kind
tree | {"width":1,"publics":1,"periodic":[],"preprocessed":{"width":1,"rows":[[1,2],3,[-1]]}} => PreprocessedRow { row: 1 }: row 1 of the preprocessed trace is no array
tree | {"width":1,"publics":1,"periodic":[],"preprocessed":{"width":1,"rows":[[1,2],[3],[-1],4]}} => PreprocessedValue { row: 2, column: 0 }: row 2, column 0 of the preprocessed trace is no whole number below the field's order
tree | {"width":1,"publics":1,"periodic":[],"preprocessed":{"width":1,"rows":[[1],[2,3],[]]}} => RowWidth { row: 1, expected: 1, got: 2 }: row 1 of the preprocessed trace has 2 columns, and its width is 1
tree | {"width":1,"publics":1,"periodic":[],"max_constraint_degree":"3"} => WrongKind { field: "max_constraint_degree" }: the field max_constraint_degree is of the wrong kind
tree | {"width":1,"publics":1,"periodic":[],"num_constraints":[]} => WrongKind { field: "num_constraints" }: the field num_constraints is of the wrong kind
tree | {"width":1,"publics":1,"periodic":[],"constants":[1,12289]} => Constant { constant: 1 }: constant 1 is no whole number below the field's order
tree | {"width":1,"publics":1,"periodic":[],"constants":[],"nodes":[7]} => Node { node: 0, fault: NoName }: node 0: it is no array that begins with a name
tree | {"width":1,"publics":1,"periodic":[],"constants":[],"nodes":[["last"],[]]} => Node { node: 1, fault: NoName }: node 1: it is no array that begins with a name
tree | {"width":1,"publics":1,"periodic":[],"constants":[],"nodes":[["last"],[0,"main"]]} => Node { node: 1, fault: NoName }: node 1: it is no array that begins with a name
tree | {"width":1,"publics":1,"periodic":[],"constants":[],"nodes":[["div",0,0]]} => Node { node: 0, fault: UnknownName { name: QuotedName { name: "div" } } }: node 0: there is no node "div"
tree | {"width":1,"publics":1,"periodic":[],"constants":[],"nodes":[["last"],["last"],["minus",0,1],["plus"]]} => Node { node: 2, fault: UnknownName { name: QuotedName { name: "minus" } } }: node 2: there is no node "minus"
tree | {"width":1,"publics":1,"periodic":[],"constants":[],"nodes":[["first",0]]} => Node { node: 0, fault: OperandCount { name: QuotedName { name: "first" }, expected: 0, got: 1 } }: node 0: "first" takes no operand, and has 1
tree | {"width":1,"publics":1,"periodic":[],"constants":[],"nodes":[["last"],["neg",0,0]]} => Node { node: 1, fault: OperandCount { name: QuotedName { name: "neg" }, expected: 1, got: 2 } }: node 1: "neg" takes one operand, and has 2
tree | {"width":1,"publics":1,"periodic":[],"constants":[],"nodes":[["mul",0]]} => Node { node: 0, fault: OperandCount { name: QuotedName { name: "mul" }, expected: 2, got: 1 } }: node 0: "mul" takes two operands, and has 1
tree | {"width":1,"publics":1,"periodic":[],"constants":[],"nodes":[["add","x",0,0,0]]} => Node { node: 0, fault: OperandCount { name: QuotedName { name: "add" }, expected: 2, got: 4 } }: node 0: "add" takes two operands, and has 4
tree | {"width":1,"publics":1,"periodic":[],"constants":[],"nodes":[["main","x"]]} => Node { node: 0, fault: Operand { name: QuotedName { name: "main" } } }: node 0: an operand of "main" is no whole number
tree | {"width":1,"publics":1,"periodic":[],"constants":[],"nodes":[["last"],["sub",0,-1]]} => Node { node: 1, fault: Operand { name: QuotedName { name: "sub" } } }: node 1: an operand of "sub" is no whole number
tree | {"width":1,"publics":1,"periodic":[],"constants":[],"nodes":[["first"]],"constraints":[{"base":0},0]} => Constraint { constraint: 1, fault: NotAnObject }: constraint 1 is no object
tree | {"width":1,"publics":1,"periodic":[],"constants":[],"nodes":[["first"]],"constraints":[{"base":0},{"ext":0},{"bas":19}]} => Constraint { constraint: 2, fault: UnknownMember { name: QuotedName { name: "bas" } } }: constraint 2 has a member "bas", which is neither base nor ext
tree | {"width":1,"publics":1,"periodic":[],"constants":[],"nodes":[["first"]],"constraints":[{"base":0,"note":"the first row"}]} => Constraint { constraint: 0, fault: UnknownMember { name: QuotedName { name: "note" } } }: constraint 0 has a member "note", which is neither base nor ext
tree | {"width":1,"publics":1,"periodic":[],"constants":[],"nodes":[["main",1]],"constraints":[{}]} => Constraint { constraint: 0, fault: NoMark }: constraint 0 is neither base nor ext
tree | {"width":1,"publics":1,"periodic":[],"constants":[],"nodes":[["first"]],"constraints":[{"base":0,"ext":0}]} => Constraint { constraint: 0, fault: BothMarks }: constraint 0 is both base and ext
tree | {"width":1,"publics":1,"periodic":[],"constants":[],"nodes":[["first"]],"constraints":[{"ext":0},{"base":[0]}]} => Constraint { constraint: 1, fault: Place }: constraint 1 names its node by no whole number

# Each is the first of two faults: leaves outside, of each kind; operands that don't stand before their node; constraints that
# name no node; an operand before a leaf; and a node before a constraint.
tree | {"width":1,"publics":1,"periodic":[],"constants":[1],"nodes":[["constant",0],["constant",1],["main",1]],"constraints":[]} => Air(LeafOutside { node: 1 }): node 1 reads a constant, a column or a value that isn't there
tree | {"width":1,"publics":1,"periodic":[],"constants":[],"nodes":[["main",0],["main",1],["next",1]],"constraints":[]} => Air(LeafOutside { node: 1 }): node 1 reads a constant, a column or a value that isn't there
tree | {"width":1,"publics":1,"periodic":[],"constants":[],"nodes":[["next",0],["next",1],["public",1]],"constraints":[]} => Air(LeafOutside { node: 1 }): node 1 reads a constant, a column or a value that isn't there
tree | {"width":1,"publics":1,"periodic":[[1]],"constants":[],"nodes":[["public",0],["public",1],["periodic",1]],"constraints":[]} => Air(LeafOutside { node: 1 }): node 1 reads a constant, a column or a value that isn't there
tree | {"width":1,"publics":1,"periodic":[[1]],"constants":[],"nodes":[["periodic",0],["periodic",1],["preprocessed",0]],"constraints":[]} => Air(LeafOutside { node: 1 }): node 1 reads a constant, a column or a value that isn't there
tree | {"width":1,"publics":0,"periodic":[],"preprocessed":{"width":1,"rows":[]},"constants":[],"nodes":[["preprocessed",0],["preprocessed",1],["preprocessed_next",1]],"constraints":[]} => Air(LeafOutside { node: 1 }): node 1 reads a constant, a column or a value that isn't there
tree | {"width":1,"publics":0,"periodic":[],"preprocessed":{"width":1,"rows":[]},"constants":[],"nodes":[["preprocessed_next",0],["preprocessed_next",1],["main",1]],"constraints":[]} => Air(LeafOutside { node: 1 }): node 1 reads a constant, a column or a value that isn't there
tree | {"width":1,"publics":0,"periodic":[],"constants":[],"nodes":[["last"],["add",0,1],["neg",2]],"constraints":[]} => Air(LaterOperand { node: 1 }): an operand of node 1 doesn't stand before it
tree | {"width":1,"publics":0,"periodic":[],"constants":[],"nodes":[["mul",1,0],["main",1]],"constraints":[]} => Air(LaterOperand { node: 0 }): an operand of node 0 doesn't stand before it
tree | {"width":1,"publics":0,"periodic":[],"constants":[],"nodes":[["last"]],"constraints":[{"base":0},{"ext":1},{"base":2}]} => Air(NoSuchNode { constraint: 1 }): constraint 1 names a node that isn't there
tree | {"width":1,"publics":0,"periodic":[],"constants":[],"nodes":[["transition"],["main",1]],"constraints":[{"base":2}]} => Air(LeafOutside { node: 1 }): node 1 reads a constant, a column or a value that isn't there

# Written with the fields in the order of their names, and read back; the trace and the hints are written where there are any.
tree | {"width":1,"publics":1,"periodic":[],"constants":[],"nodes":[],"constraints":[],"num_constraints":null} => {"constants":[],"constraints":[],"nodes":[],"periodic":[],"preprocessed":null,"publics":1,"width":1}
tree | {"width":2,"publics":1,"periodic":[[1,2],[3]],"preprocessed":{"rows":[[4,5],[6,7]],"width":2},"max_constraint_degree":3,"num_constraints":2,"constants":[12288],"nodes":[["constant",0],["main",1],["next",1],["preprocessed",1],["preprocessed_next",0],["public",0],["periodic",1],["first"],["last"],["transition"],["add",0,1],["sub",3,2],["mul",11,10],["neg",12]],"constraints":[{"ext":13},{"base":12}]} => {"constants":[12288],"constraints":[{"ext":13},{"base":12}],"max_constraint_degree":3,"nodes":[["constant",0],["main",1],["next",1],["preprocessed",1],["preprocessed_next",0],["public",0],["periodic",1],["first"],["last"],["transition"],["add",0,1],["sub",3,2],["mul",11,10],["neg",12]],"num_constraints":2,"periodic":[[1,2],[3]],"preprocessed":{"rows":[[4,5],[6,7]],"width":2},"publics":1,"width":2}

# The main and the preprocessed columns whose next row is declared: a column for each node that reads one in the next row, in the
# nodes' order, however wide the rows are.
next | {"width":18446744073709551615,"publics":0,"periodic":[],"constants":[],"nodes":[["main",0],["next",18446744073709551614]],"constraints":[{"base":1}]} => [18446744073709551614] []
next | {"width":18446744073709551615,"publics":0,"periodic":[],"constants":[],"nodes":[["main",0]],"constraints":[{"base":0}]} => [] []
next | {"width":3,"publics":0,"periodic":[],"preprocessed":{"width":18446744073709551615,"rows":[]},"constants":[],"nodes":[["next",2],["preprocessed_next",7],["next",0],["next",2]],"constraints":[]} => [2, 0, 2] [7]

# A hand-written AIR | the logarithm of the height | the same AIR as data, or null for what is made of it | the trace | the public
# values. The proofs' JSON is the same, byte for byte.
same | counter | 2 | {"width":1,"publics":1,"periodic":[],"constants":[1],"nodes":[["main",0],["next",0],["public",0],["constant",0],["first"],["transition"],["sub",0,2],["mul",4,6],["sub",1,0],["sub",8,3],["mul",5,9]],"constraints":[{"base":7},{"base":10}]} | 5 6 7 8 | 5 => accepted
same | pair | 1 | {"width":2,"publics":1,"periodic":[],"constants":[1],"nodes":[["main",0],["main",1],["next",0],["next",1],["public",0],["constant",0],["first"],["transition"],["sub",0,4],["mul",6,8],["sub",2,0],["sub",10,5],["mul",7,11],["sub",1,4],["mul",6,13],["sub",3,1],["sub",15,5],["mul",7,16]],"constraints":[{"base":9},{"base":12},{"base":14},{"base":17}]} | 5 5 6 6 | 5 => accepted
same | fibonacci | 2 | {"width":2,"publics":3,"periodic":[],"constants":[],"nodes":[["main",0],["main",1],["next",0],["next",1],["public",0],["public",1],["public",2],["first"],["last"],["transition"],["sub",0,4],["mul",7,10],["sub",1,5],["mul",7,12],["sub",2,1],["mul",9,14],["add",0,1],["sub",3,16],["mul",9,17],["sub",1,6],["mul",8,19]],"constraints":[{"base":11},{"base":13},{"base":15},{"base":18},{"base":20}]} | 1 1 1 2 2 3 3 5 | 1 1 5 => accepted
same | counter | 1 | null | 5 6 | 5 => accepted
same | cubic | 1 | null | 0 0 | empty => accepted
same | fibonacci | 1 | null | 1 1 1 2 | 1 1 2 => accepted
same | pair | 2 | null | 5 5 6 6 7 7 8 8 | 5 => accepted
same | preprocessed | 2 | null | 1 2 3 4 | empty => accepted
same | periodic | 2 | null | 0 1 0 1 | empty => accepted
"#;

// Over 2013265921, computed in Python. The AIR has base constraints and one over the
// extension, a preprocessed and a periodic column.
pub const OVER_BABY_BEAR: &str = r#"
folded | {"width":2,"publics":1,"periodic":[[0,1]],"preprocessed":{"width":1,"rows":[[1],[2],[3],[4]]},"constants":[],"nodes":[["main",0],["main",1],["next",0],["preprocessed",0],["public",0],["periodic",0],["first"],["transition"],["sub",0,4],["mul",6,8],["sub",2,0],["sub",10,3],["mul",7,11],["mul",0,0],["mul",13,5],["sub",1,14]],"constraints":[{"base":9},{"ext":12},{"base":15}]} | 1234567890 987654321 | 2000000000 1789456123 | 16777216 | 1073741824 | 2013265920 => Ext4 { c0: 728324374, c1: 0, c2: 0, c3: 0 }
"#;

// The JSON of AIRs that are written in another way, or the error.
pub const BY_NAME: &str = r#"
places => {"constants":[1],"constraints":[{"base":4},{"ext":10}],"nodes":[["main",0],["public",0],["first"],["sub",0,1],["mul",2,3],["next",0],["constant",0],["transition"],["sub",5,0],["sub",8,6],["mul",7,9]],"periodic":[],"preprocessed":null,"publics":1,"width":1}
lists => {"constants":[1],"constraints":[{"base":2}],"nodes":[["main",0],["constant",0],["sub",0,1]],"periodic":[],"preprocessed":null,"publics":0,"width":1}
lists with a fault => constraint 0 names a node that isn't there
expressions => {"constants":[1],"constraints":[{"base":4},{"base":11}],"nodes":[["first"],["main",0],["public",0],["sub",1,2],["mul",0,3],["transition"],["next",0],["main",0],["sub",6,7],["constant",0],["sub",8,9],["mul",5,10]],"periodic":[],"preprocessed":null,"publics":1,"width":1}
expressions with a fault => the constraint starts reads a column or a value that isn't there
mixed => {"constants":[1,2,3],"constraints":[{"base":2},{"ext":5},{"base":8}],"nodes":[["main",0],["constant",0],["sub",0,1],["main",0],["constant",1],["sub",3,4],["main",0],["constant",2],["sub",6,7]],"periodic":[],"preprocessed":null,"publics":0,"width":1}
fibonacci => {"constants":[],"constraints":[{"base":4},{"base":9},{"base":14},{"base":21},{"base":26}],"nodes":[["first"],["main",0],["public",0],["sub",1,2],["mul",0,3],["first"],["main",1],["public",1],["sub",6,7],["mul",5,8],["transition"],["next",0],["main",1],["sub",11,12],["mul",10,13],["transition"],["next",1],["main",0],["main",1],["add",17,18],["sub",16,19],["mul",15,20],["last"],["main",1],["public",2],["sub",23,24],["mul",22,25]],"periodic":[],"preprocessed":null,"publics":3,"width":2}
squares => {"constants":[],"constraints":[{"base":0}],"nodes":[["main",0]],"periodic":[],"preprocessed":null,"publics":0,"width":1}
unread columns => {"constants":[],"constraints":[{"base":0}],"nodes":[["public",0]],"periodic":[],"preprocessed":null,"publics":1,"width":4611686018427387904}
hint => {"constants":[1,2,3],"constraints":[{"base":2},{"ext":5},{"base":8}],"max_constraint_degree":3,"nodes":[["main",0],["constant",0],["sub",0,1],["main",0],["constant",1],["sub",3,4],["main",0],["constant",2],["sub",6,7]],"periodic":[],"preprocessed":null,"publics":0,"width":1}
preprocessed => {"constants":[],"constraints":[{"base":2}],"nodes":[["main",0],["preprocessed",0],["sub",0,1]],"periodic":[],"preprocessed":{"rows":[[1],[2],[3],[4]],"width":1},"publics":0,"width":1}
"#;

/// The answer to a case of these tables.
pub fn answer<F, EF, C>(alloc: Global, challenger: C, case: &str) -> Result<String, Fail>
where
    F: PrimeField64 + TwoAdicField + PackedField + NeverNull,
    EF: PackedExtensionField<F> + JsonCodec + Debug,
    C: StarkChallenger<F, EF, ClearCommitment<F>>,
{
    let (table, text) = apart(case)?;
    match table {
        "folded" => folded_text::<F, EF, C>(alloc, text),
        "tree" => tree_text::<F>(alloc, text),
        "next" => next_columns::<F>(alloc, text),
        "same" => {
            let config = StarkConfig::new(ClearPcs::new(), challenger);
            same_by_name::<F, ClearConfig<F, EF, C>>(alloc, &config, text)
        }
        _ => Err(Fail::new("no such table")),
    }
}

fn folded_text<F, EF, C>(alloc: Global, text: &str) -> Result<String, Fail>
where
    F: PrimeField64 + TwoAdicField + JsonCodec,
    EF: ExtensionField<F> + Debug,
    C: FieldChallenger<F> + CanObserve<ClearCommitment<F>> + ExtensionChallenger<F, EF> + Clone,
{
    let (json, rest) = apart(text)?;
    let air = NamedAir::Tree(tree_of::<F>(alloc, json)?);
    folded::<F, EF, C, NamedAir<F>>(alloc, &air, rest)
}

fn tree_text<F: Field + JsonCodec>(alloc: Global, text: &str) -> Result<String, Fail> {
    let value = value_of(alloc, text)?;
    match TreeAir::<F>::from_json(alloc, &value) {
        Ok(air) => Ok(air.to_json(alloc)?.to_string(alloc)?),
        Err(error) => Ok(format!(in alloc; "{error:?}: {error}")?),
    }
}

fn next_columns<F: Field + JsonCodec>(alloc: Global, text: &str) -> Result<String, Fail> {
    let air = tree_of::<F>(alloc, text)?;
    let main = air.main_next_row_columns(alloc)?;
    let preprocessed = air.preprocessed_next_row_columns(alloc)?;
    Ok(format!(in alloc; "{main:?} {preprocessed:?}")?)
}

/// The counter, by the places that its list answers.
fn counter_by_places<F: Field>(alloc: Global) -> Result<TreeAir<F>, TreeAirError> {
    let mut list = TreeList::new(alloc);
    let x = list.node(TreeNode::MainCurrent(0))?;
    let start = list.node(TreeNode::PublicValue(0))?;
    let first = list.node(TreeNode::FirstRow)?;
    let offset = list.node(TreeNode::Difference(x, start))?;
    let starts = list.node(TreeNode::Product(first, offset))?;
    list.base(starts)?;
    let next = list.node(TreeNode::MainNext(0))?;
    let one = list.constant(F::ONE)?;
    let transition = list.node(TreeNode::Transition)?;
    let growth = list.node(TreeNode::Difference(next, x))?;
    let excess = list.node(TreeNode::Difference(growth, one))?;
    let steps = list.node(TreeNode::Product(transition, excess))?;
    list.extension(steps)?;
    let columns = TreeColumns::main(alloc, 1, 1);
    TreeAir::new(alloc, TreeDeclaration::without_hints(columns), list)
}

/// A column that is one, in lists that are written out; the node that the constraint names.
fn ones(alloc: Global, constraint: usize) -> Result<TreeAir<Base>, TreeAirError> {
    let nodes = [
        TreeNode::MainCurrent(0),
        TreeNode::Constant(0),
        TreeNode::Difference(0, 1),
    ];
    let columns = TreeColumns::main(alloc, 1, 0);
    let declaration = TreeDeclaration::without_hints(columns);
    let constraints = [TreeConstraint::Base(constraint)];
    TreeAir::of(alloc, declaration, [Base::ONE], nodes, constraints)
}

/// A column that is zero, and squares of squares that no constraint needs: as an expression the
/// last has 2^100 leaves.
fn with_squares(alloc: Global) -> Result<TreeAir<Base>, TreeAirError> {
    let mut list = TreeList::new(alloc);
    let x = list.node(TreeNode::MainCurrent(0))?;
    list.base(x)?;
    let mut square = x;
    for _ in 0..100 {
        square = list.node(TreeNode::Product(square, square))?;
    }
    let columns = TreeColumns::main(alloc, 1, 0);
    TreeAir::new(alloc, TreeDeclaration::without_hints(columns), list)
}

/// A public value that is zero, beside 2^62 columns that no constraint reads: a builder's window of
/// them would take more memory than there is.
fn with_unread_columns(alloc: Global) -> Result<TreeAir<Base>, TreeAirError> {
    let mut list = TreeList::new(alloc);
    let _column = list.node(TreeNode::MainNext(0))?;
    let x = list.node(TreeNode::PublicValue(0))?;
    list.base(x)?;
    let columns = TreeColumns::main(alloc, 1 << 62, 1);
    TreeAir::new(alloc, TreeDeclaration::without_hints(columns), list)
}

/// Constraints by their names, each over the base field or the extension.
macro_rules! named {
    ($($name:literal: $field:ident($expression:expr)),* $(,)?) => {
        [$(NamedConstraint { name: $name, constraint: SymbolicConstraint::$field($expression) }),*]
    };
}

/// The expression that is a column or a value.
fn variable<F: Field>(alloc: Global, entry: BaseEntry, index: usize) -> SymbolicExpression<F>
    ensures { result ≡ Some (variable_tree entry index) }
{
    SymbolicExpression::from(SymbolicVariable::new(alloc, entry, index))
}

/// The counter by expressions, over so many columns.
fn counter_by_expressions(alloc: Global, width: usize) -> Result<TreeAir<Base>, TreeExpressionError>
    ensures constraints { IfOk result (λ air. ⟦<TreeAir<Base> as Air<Base>>⟧.constraints air
        ≡ counter_constraints ⟦<Base as Element>⟧.ONE) }
{
    let x: SymbolicExpression<Base> = variable(alloc, BaseEntry::Main { offset: 0 }, 0);
    let again = variable(alloc, BaseEntry::Main { offset: 0 }, 0);
    let next = variable(alloc, BaseEntry::Main { offset: 1 }, 0);
    let start = variable(alloc, BaseEntry::Public, 0);
    let growth = next - x - SymbolicExpression::from(Base::ONE);
    let starts = SymbolicExpression::is_first_row(alloc) * (again - start);
    let steps = SymbolicExpression::is_transition(alloc) * growth;
    let constraints = named!["starts": Base(starts), "steps": Base(steps)];
    let columns = TreeColumns::main(alloc, width, 1);
    TreeAir::from_expressions(alloc, TreeDeclaration::without_hints(columns), &constraints)
}

/// By expressions, a column that is one, two over the extension, and three.
fn mixed_by_expressions(alloc: Global) -> Result<TreeAir<Base>, TreeExpressionError>
    ensures constraints { IfOk result (λ air. ⟦<TreeAir<Base> as Air<Base>>⟧.constraints air
        ≡ mixed_constraints ⟦<Base as PrimeField64>⟧.of_number) }
{
    let x: SymbolicExpression<Base> = variable(alloc, BaseEntry::Main { offset: 0 }, 0);
    let again = variable(alloc, BaseEntry::Main { offset: 0 }, 0);
    let third = variable(alloc, BaseEntry::Main { offset: 0 }, 0);
    let one = x - SymbolicExpression::from(Base::from_u8(1));
    let two = again - SymbolicExpression::from(Base::from_u8(2));
    let three = third - SymbolicExpression::from(Base::from_u8(3));
    let constraints = named!["one": Base(one), "two": Extension(two), "three": Base(three)];
    let columns = TreeColumns::main(alloc, 1, 0);
    TreeAir::from_expressions(alloc, TreeDeclaration::without_hints(columns), &constraints)
}

fn current<F: Field>(alloc: Global, column: usize) -> SymbolicExpression<F>
    ensures { result ≡ Some (main_current column) }
{
    variable(alloc, BaseEntry::Main { offset: 0 }, column)
}

fn next<F: Field>(alloc: Global, column: usize) -> SymbolicExpression<F>
    ensures { result ≡ Some (main_next column) }
{
    variable(alloc, BaseEntry::Main { offset: 1 }, column)
}

fn public<F: Field>(alloc: Global, index: usize) -> SymbolicExpression<F>
    ensures { result ≡ Some (public_value index) }
{
    variable(alloc, BaseEntry::Public, index)
}

/// Two columns of Fibonacci numbers by expressions.
fn fibonacci_by_expressions(alloc: Global) -> Result<TreeAir<Base>, TreeExpressionError>
    ensures constraints { IfOk result (λ air. ⟦<TreeAir<Base> as Air<Base>>⟧.constraints air
        ≡ fibonacci_constraints) }
{
    let left = current::<Base>(alloc, 0) - public(alloc, 0);
    let right = current::<Base>(alloc, 1) - public(alloc, 1);
    let moved = next::<Base>(alloc, 0) - current(alloc, 1);
    let added = next::<Base>(alloc, 1) - (current::<Base>(alloc, 0) + current(alloc, 1));
    let ended = current::<Base>(alloc, 1) - public(alloc, 2);
    let starts_left = SymbolicExpression::is_first_row(alloc) * left;
    let starts_right = SymbolicExpression::is_first_row(alloc) * right;
    let moves = SymbolicExpression::is_transition(alloc) * moved;
    let adds = SymbolicExpression::is_transition(alloc) * added;
    let ends = SymbolicExpression::is_last_row(alloc) * ended;
    let constraints = named![
        "left starts": Base(starts_left),
        "right starts": Base(starts_right),
        "moves": Base(moves),
        "adds": Base(adds),
        "ends": Base(ends),
    ];
    let columns = TreeColumns::main(alloc, 2, 3);
    TreeAir::from_expressions(alloc, TreeDeclaration::without_hints(columns), &constraints)
}

fn json_of<E: Display + Drop>(
    alloc: Global,
    air: Result<TreeAir<Base>, E>,
) -> Result<String, Fail> {
    match air {
        Ok(air) => Ok(air.to_json(alloc)?.to_string(alloc)?),
        Err(error) => Ok(format!(in alloc; "{error}")?),
    }
}

/// The JSON of an AIR that is made of another one.
fn data_of(alloc: Global, air: Result<TreeAir<Base>, TreeAirError>) -> Result<String, Fail> {
    match air {
        Ok(air) => json_of(alloc, TreeAir::from_air(alloc, &air)),
        Err(_) => Err(Fail::new("no AIR")),
    }
}

/// The JSON of an AIR that is written in another way, or the error.
pub fn json_by_name(alloc: Global, _subject: &str, name: &str) -> Result<String, Fail> {
    match name {
        "places" => json_of(alloc, counter_by_places(alloc)),
        "lists" => json_of(alloc, ones(alloc, 2)),
        "lists with a fault" => json_of(alloc, ones(alloc, 3)),
        "expressions" => json_of(alloc, counter_by_expressions(alloc, 1)),
        "expressions with a fault" => json_of(alloc, counter_by_expressions(alloc, 0)),
        "mixed" => json_of(alloc, mixed_by_expressions(alloc)),
        "fibonacci" => json_of(alloc, fibonacci_by_expressions(alloc)),
        "squares" => data_of(alloc, with_squares(alloc)),
        "unread columns" => data_of(alloc, with_unread_columns(alloc)),
        "hint" => {
            let air = SmallAir {
                asked: Asked::Mixed,
                max_degree: Some(3),
            };
            json_of(alloc, TreeAir::from_air(alloc, &air))
        }
        _ => json_of(alloc, TreeAir::from_air(alloc, &PreprocessedAir)),
    }
}

/// An AIR as data: of the JSON, or of the AIR itself where the JSON is null.
fn as_data<F: PrimeField64 + JsonCodec>(
    alloc: Global,
    air: &NamedAir<F>,
    json: &str,
) -> Result<NamedAir<F>, Fail> {
    if json == "null" {
        return Ok(NamedAir::Tree(TreeAir::from_air(alloc, air)?));
    }
    Ok(NamedAir::Tree(tree_of(alloc, json)?))
}

/// `accepted` where the AIR as data and the hand-written one have the same proof, and it is
/// accepted; else the proof of the data: the name | the logarithm of the height | the JSON | the
/// trace | the public values.
fn same_by_name<F, P>(alloc: Global, prover: &P, text: &str) -> Result<String, Fail>
where
    F: PrimeField64 + JsonCodec,
    P: TraceProver<F>,
{
    let (name, rest) = apart(text)?;
    let (number, rest) = apart(rest)?;
    let (json, values) = apart(rest)?;
    let [log_height] = numbers_in::<1>(number)?;
    let height = log_height as usize;
    let air = named_air::<F>(alloc, name)?;
    let data = as_data::<F>(alloc, &air, json)?;
    let written = text_at::<F, P, NamedAir<F>>(alloc, prover, &air, height, values)?;
    let of_data = text_at::<F, P, NamedAir<F>>(alloc, prover, &data, height, values)?;
    if of_data != written {
        return Ok(of_data);
    }
    if written.ends_with(" Ok(())") {
        return Ok(String::from_str(alloc, "accepted")?);
    }
    Ok(written)
}
