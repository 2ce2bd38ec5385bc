//! An AIR by expressions.
use stark_bench::F12289;
use stark_support::{Element, Field};
use stark_symbolic::{BaseEntry, SymbolicConstraint, SymbolicExpression, SymbolicVariable};
use stark_tree_air::{NamedConstraint, TreeAir, TreeColumns, TreeDeclaration, TreeExpressionError};
use std::alloc::Global;

fn variable<F: Field>(alloc: Global, entry: BaseEntry, index: usize) -> SymbolicExpression<F> {
    SymbolicExpression::from(SymbolicVariable::new(alloc, entry, index))
}

/// The main column in the current row, offset 0, or in the next one, offset 1.
fn main<F: Field>(alloc: Global, offset: usize) -> SymbolicExpression<F> {
    variable(alloc, BaseEntry::Main { offset }, 0)
}

/// The counter: one main column and one public value.
pub fn counter(alloc: Global) -> Result<TreeAir<F12289>, TreeExpressionError> {
    let start = variable(alloc, BaseEntry::Public, 0);
    let starts = SymbolicExpression::is_first_row(alloc) * (main(alloc, 0) - start);
    let growth = main(alloc, 1) - main(alloc, 0) - SymbolicExpression::from(F12289::ONE);
    let steps = SymbolicExpression::is_transition(alloc) * growth;
    let constraints = [
        NamedConstraint {
            name: "starts",
            constraint: SymbolicConstraint::Base(starts),
        },
        NamedConstraint {
            name: "steps",
            constraint: SymbolicConstraint::Base(steps),
        },
    ];
    let columns = TreeColumns::main(alloc, 1, 1);
    TreeAir::from_expressions(alloc, TreeDeclaration::without_hints(columns), &constraints)
}
