//! An AIR by the places of its nodes.
use stark_support::Field;
use stark_tree_air::{TreeAir, TreeAirError, TreeColumns, TreeDeclaration, TreeList, TreeNode};
use std::alloc::Global;

/// A column that is one.
pub fn ones<F: Field>(alloc: Global) -> Result<TreeAir<F>, TreeAirError> {
    let mut list = TreeList::new(alloc);
    let x = list.node(TreeNode::MainCurrent(0))?;
    let one = list.constant(F::ONE)?;
    let is_one = list.node(TreeNode::Difference(x, one))?;
    list.base(is_one)?;
    let columns = TreeColumns::main(alloc, 1, 0);
    TreeAir::new(alloc, TreeDeclaration::without_hints(columns), list)
}
