//! Nodes and constraints while they are written.
ghost use Rattle.std.specs.Prelude.{◌≡◌, [], ◌∷◌, ◌++◌, IfOk, OnErr, OnOk, length};

use crate::node::{TreeConstraint, TreeNode};
use std::alloc::{AllocError, Global};

/// Constants, nodes and constraints, to which an author adds one at a time.
#[derive(Debug, Drop)]
pub struct TreeList<F> {
    pub constants: Vec<F>,
    pub nodes: Vec<TreeNode>,
    pub constraints: Vec<TreeConstraint>,
}

impl<F: Copy> TreeList<F> {
    /// No constant, no node and no constraint.
    pub fn new(alloc: Global) -> TreeList<F>
        ensures constants { result.constants.items ≡ [] }
        ensures nodes { result.nodes.items ≡ [] }
        ensures constraints { result.constraints.items ≡ [] }
    {
        TreeList {
            constants: Vec::new(alloc),
            nodes: Vec::new(alloc),
            constraints: Vec::new(alloc),
        }
    }

    /// Adds a node and answers its place. Err only where memory was refused, and then the list is
    /// as before.
    pub fn node(&mut self, node: TreeNode) -> Result<usize, AllocError>
        ensures place { IfOk result (λ place. place ≡ length self.old.nodes.items) }
        ensures nodes { OnOk result (self.new.nodes.items ≡ self.old.nodes.items ++ node ∷ []) }
        ensures refused { OnErr result (self.new.nodes.items ≡ self.old.nodes.items) }
        ensures constants { self.new.constants.items ≡ self.old.constants.items }
        ensures constraints { self.new.constraints.items ≡ self.old.constraints.items }
    {
        let place = self.nodes.len();
        self.nodes.push(node)?;
        Ok(place)
    }

    /// Adds a constant and a node that is it, and answers the node's place. Err only where memory
    /// was refused, and then the list is as before.
    pub fn constant(&mut self, constant: F) -> Result<usize, AllocError>
        ensures place { IfOk result (λ place. place ≡ length self.old.nodes.items) }
        ensures nodes { OnOk result (self.new.nodes.items
            ≡ self.old.nodes.items ++ TreeNode.Constant (length self.old.constants.items) ∷ []) }
        ensures constants { OnOk result (self.new.constants.items
            ≡ self.old.constants.items ++ constant ∷ []) }
        ensures refused { OnErr result (self.new.nodes.items ≡ self.old.nodes.items) }
        ensures kept { OnErr result (self.new.constants.items ≡ self.old.constants.items) }
        ensures constraints { self.new.constraints.items ≡ self.old.constraints.items }
    {
        let index = self.constants.len();
        self.constants.push(constant)?;
        let place = self.node(TreeNode::Constant(index));
        if place.is_err() {
            // No node names it.
            self.constants.truncate(index);
        }
        place
    }

    /// Makes the node at a place a constraint over the base field. Err only where memory was
    /// refused, and then the list is as before.
    pub fn base(&mut self, place: usize) -> Result<(), AllocError>
        ensures constraints { OnOk result (self.new.constraints.items
            ≡ self.old.constraints.items ++ TreeConstraint.Base place ∷ []) }
        ensures refused { OnErr result (self.new.constraints.items ≡ self.old.constraints.items) }
        ensures constants { self.new.constants.items ≡ self.old.constants.items }
        ensures nodes { self.new.nodes.items ≡ self.old.nodes.items }
    {
        self.constraints.push(TreeConstraint::Base(place))?;
        Ok(())
    }

    /// Makes the node at a place a constraint over the extension. Err only where memory was
    /// refused, and then the list is as before.
    pub fn extension(&mut self, place: usize) -> Result<(), AllocError>
        ensures constraints { OnOk result (self.new.constraints.items
            ≡ self.old.constraints.items ++ TreeConstraint.Extension place ∷ []) }
        ensures refused { OnErr result (self.new.constraints.items ≡ self.old.constraints.items) }
        ensures constants { self.new.constants.items ≡ self.old.constants.items }
        ensures nodes { self.new.nodes.items ≡ self.old.nodes.items }
    {
        self.constraints.push(TreeConstraint::Extension(place))?;
        Ok(())
    }
}
