//! The sample AIRs, each by its name, as data.

ghost use Rattle.std.specs.Prelude.{◌≡◌, ◌<◌, IfOk, [], ◌∷◌, None, Some};
ghost use Rattle.stark_protocol.specs.Preprocessing.{HasHeight};
ghost use Rattle.stark_commands.specs.Airs.{sample};
ghost use Rattle.stark_commands.specs.Spelled.{view_of_lists};
ghost use Rattle.stark_commands.specs.declared.sample.SampleAir.TheVariants.{Counter, Cubic, Fibonacci, Periodic, Preprocessed, Pair};
ghost use Rattle.stark_tree_air.specs.TreeJson.{air_view, columns_view};

use stark_air::BaseAir;
use stark_answers::DeclaredAir;
use stark_bench::F12289;
use stark_support::{Element, Field, PrimeField64, RowMajorMatrix};
use stark_tree_air::{TreeAir, TreeColumns, TreeConstraint, TreeDeclaration, TreeNode};
use std::alloc::{AllocError, Global};

/// The AIRs that have a name.
#[derive(Clone, Copy, Debug, PartialEq, Eq)]
pub enum SampleAir {
    /// A column that counts from the public value.
    Counter,
    /// A column whose cube is zero.
    Cubic,
    /// Two columns, each the sum of those before it.
    Fibonacci,
    /// A column that is a periodic one.
    Periodic,
    /// A column that is a preprocessed one.
    Preprocessed,
    /// Two counters side by side.
    Pair,
}

/// The AIR of lists that are written out. Err only where memory was refused, since none of the
/// lists here has a fault.
fn written_out<const N: usize, const M: usize, const K: usize>(
    alloc: Global,
    columns: TreeColumns<F12289>,
    constants: [F12289; N],
    nodes: [TreeNode; M],
    constraints: [TreeConstraint; K],
) -> Result<TreeAir<F12289>, AllocError>
    ensures { IfOk result (λ air. air_view air.declaration air.list
        ≡ view_of_lists (columns_view columns) constants.entry nodes.entry constraints.entry) }
{
    let declaration = TreeDeclaration::without_hints(columns);
    match TreeAir::of(alloc, declaration, constants, nodes, constraints) {
        Ok(air) => Ok(air),
        Err(_) => Err(AllocError),
    }
}

/// The nodes of a counter in column 0, whose constraints are nodes 4 and 10, and further ones.
macro_rules! counter_nodes {
    ($($further:expr),* $(,)?) => {
        [
            TreeNode::FirstRow,
            TreeNode::MainCurrent(0),
            TreeNode::PublicValue(0),
            TreeNode::Difference(1, 2),
            TreeNode::Product(0, 3),
            TreeNode::Transition,
            TreeNode::MainNext(0),
            TreeNode::Difference(6, 1),
            TreeNode::Constant(0),
            TreeNode::Difference(7, 8),
            TreeNode::Product(5, 9),
            $($further),*
        ]
    };
}

/// A column that counts up by one from a public value.
fn counter(alloc: Global) -> Result<TreeAir<F12289>, AllocError>
    ensures { IfOk result (λ air. ⟦<TreeAir<F12289> as DeclaredAir<F12289>>⟧.declared air
        ≡ sample Counter) }
{
    let nodes = counter_nodes![];
    let constraints = [TreeConstraint::Base(4), TreeConstraint::Base(10)];
    let columns = TreeColumns::main(alloc, 1, 1);
    written_out(alloc, columns, [F12289::ONE], nodes, constraints)
}

/// A column whose cube is zero.
fn cubic(alloc: Global) -> Result<TreeAir<F12289>, AllocError>
    ensures { IfOk result (λ air. ⟦<TreeAir<F12289> as DeclaredAir<F12289>>⟧.declared air
        ≡ sample Cubic) }
{
    let nodes = [
        TreeNode::MainCurrent(0),
        TreeNode::Product(0, 0),
        TreeNode::Product(1, 0),
    ];
    let columns = TreeColumns::main(alloc, 1, 0);
    written_out(alloc, columns, [], nodes, [TreeConstraint::Base(2)])
}

/// Two columns of Fibonacci numbers, from two public values to a third.
fn fibonacci(alloc: Global) -> Result<TreeAir<F12289>, AllocError>
    ensures { IfOk result (λ air. ⟦<TreeAir<F12289> as DeclaredAir<F12289>>⟧.declared air
        ≡ sample Fibonacci) }
{
    let nodes = [
        TreeNode::FirstRow,
        TreeNode::MainCurrent(0),
        TreeNode::PublicValue(0),
        TreeNode::Difference(1, 2),
        TreeNode::Product(0, 3),
        TreeNode::MainCurrent(1),
        TreeNode::PublicValue(1),
        TreeNode::Difference(5, 6),
        TreeNode::Product(0, 7),
        TreeNode::Transition,
        TreeNode::MainNext(0),
        TreeNode::Difference(10, 5),
        TreeNode::Product(9, 11),
        TreeNode::MainNext(1),
        TreeNode::Sum(1, 5),
        TreeNode::Difference(13, 14),
        TreeNode::Product(9, 15),
        TreeNode::LastRow,
        TreeNode::PublicValue(2),
        TreeNode::Difference(5, 18),
        TreeNode::Product(17, 19),
    ];
    let constraints = [
        TreeConstraint::Base(4),
        TreeConstraint::Base(8),
        TreeConstraint::Base(12),
        TreeConstraint::Base(16),
        TreeConstraint::Base(20),
    ];
    let columns = TreeColumns::main(alloc, 2, 3);
    written_out(alloc, columns, [], nodes, constraints)
}

/// A column that is a periodic one.
fn periodic(alloc: Global) -> Result<TreeAir<F12289>, AllocError>
    ensures { IfOk result (λ air. ⟦<TreeAir<F12289> as DeclaredAir<F12289>>⟧.declared air
        ≡ sample Periodic) }
{
    let nodes = [
        TreeNode::MainCurrent(0),
        TreeNode::PeriodicValue(0),
        TreeNode::Difference(0, 1),
    ];
    let mut column = Vec::new(alloc);
    column.push(F12289::ZERO)?;
    column.push(F12289::ONE)?;
    let mut periodic_columns = Vec::new(alloc);
    periodic_columns.push(column)?;
    let columns = TreeColumns {
        width: 1,
        num_public_values: 0,
        periodic_columns,
        preprocessed_trace: None,
    };
    written_out(alloc, columns, [], nodes, [TreeConstraint::Base(2)])
}

/// A column that is a preprocessed one of four rows.
fn preprocessed(alloc: Global) -> Result<TreeAir<F12289>, AllocError>
    ensures { IfOk result (λ air. ⟦<TreeAir<F12289> as DeclaredAir<F12289>>⟧.declared air
        ≡ sample Preprocessed) }
{
    let nodes = [
        TreeNode::MainCurrent(0),
        TreeNode::PreprocessedCurrent(0),
        TreeNode::Difference(0, 1),
    ];
    let mut values = Vec::new(alloc);
    values.push(F12289::from_u8(1))?;
    values.push(F12289::from_u8(2))?;
    values.push(F12289::from_u8(3))?;
    values.push(F12289::from_u8(4))?;
    let columns = TreeColumns {
        width: 1,
        num_public_values: 0,
        periodic_columns: Vec::new(alloc),
        preprocessed_trace: Some(RowMajorMatrix::new_col(values)),
    };
    written_out(alloc, columns, [], nodes, [TreeConstraint::Base(2)])
}

/// Two columns that count up by one from a public value.
fn pair(alloc: Global) -> Result<TreeAir<F12289>, AllocError>
    ensures { IfOk result (λ air. ⟦<TreeAir<F12289> as DeclaredAir<F12289>>⟧.declared air
        ≡ sample Pair) }
{
    let nodes = counter_nodes![
        TreeNode::MainCurrent(1),
        TreeNode::Difference(11, 2),
        TreeNode::Product(0, 12),
        TreeNode::MainNext(1),
        TreeNode::Difference(14, 11),
        TreeNode::Difference(15, 8),
        TreeNode::Product(5, 16),
    ];
    let constraints = [
        TreeConstraint::Base(4),
        TreeConstraint::Base(10),
        TreeConstraint::Base(13),
        TreeConstraint::Base(17),
    ];
    let columns = TreeColumns::main(alloc, 2, 1);
    written_out(alloc, columns, [F12289::ONE], nodes, constraints)
}

/// The sample AIR of a name, which has main columns, and four rows of preprocessed ones if any. Err
/// only where memory was refused.
pub fn sample_air(alloc: Global, name: SampleAir) -> Result<TreeAir<F12289>, AllocError>
    ensures declared { IfOk result (λ air. ⟦<TreeAir<F12289> as DeclaredAir<F12289>>⟧.declared air
        ≡ sample name) }
    ensures height { IfOk result (λ air.
        HasHeight 2 (⟦<TreeAir<F12289> as BaseAir<F12289>>⟧.preprocessed_trace air)) }
    ensures columns { IfOk result (λ air.
        0 < (⟦<TreeAir<F12289> as BaseAir<F12289>>⟧.layout air).main) }
{
    match name {
        SampleAir::Counter => counter(alloc),
        SampleAir::Cubic => cubic(alloc),
        SampleAir::Fibonacci => fibonacci(alloc),
        SampleAir::Periodic => periodic(alloc),
        SampleAir::Preprocessed => preprocessed(alloc),
        SampleAir::Pair => pair(alloc),
    }
}
