//! Symbolic expressions: trees that own their nodes.
ghost use Rattle.std.specs.Prelude.{◌≡◌, Option, Some, IsNone, IsTrue, ◌↔◌, true};
ghost use Rattle.stark_support.specs.Ring.{difference as ring_difference};
ghost use Rattle.stark_air.specs.Tree.{Tree, constant, first_row, last_row, transition, sum, difference, product, negation};
ghost use Rattle.stark_symbolic.specs.Degree.{expression_degree};
ghost use Rattle.stark_symbolic.specs.Symbolic.{GivesPair, GivesSingle, Stands, is_leaf, symbolic_operations, pair_stands, single_stands, stands_itself, embedding_stands};

use crate::node::{copy_of, degree_of, difference_of, is_whole, negation_of, product_of, sum_of};
use crate::variable::SymbolicVariable;
use stark_support::{Algebra, Field};
use std::alloc::Global;
use std::marker::Model;
use std::ops::{Add, Mul, Neg, Sub};

/// A node of a symbolic expression. A leaf that is no constant keeps the allocator of the trees
/// that it stands in, and an inner node that of its boxes.
#[derive(Drop)]
pub enum SymbolicNode<F> {
    Constant(F),
    Variable(SymbolicVariable<F>),
    IsFirstRow(Global),
    IsLastRow(Global),
    IsTransition(Global),
    Sum(Box<SymbolicNode<F>>, Box<SymbolicNode<F>>),
    Difference(Box<SymbolicNode<F>>, Box<SymbolicNode<F>>),
    Product(Box<SymbolicNode<F>>, Box<SymbolicNode<F>>),
    Negation(Box<SymbolicNode<F>>),
    /// Memory for the node was refused.
    Refused,
}

/// A symbolic expression, built node for node, but that an operation on constants alone gives the
/// constant. Contracts see the tree that it is, None where memory for a node of it was refused.
#[derive(Drop)]
pub struct SymbolicExpression<F> {
    pub node: SymbolicNode<F>,
}

impl<F> Model for SymbolicExpression<F> {
    ghost use Rattle.std.specs.Prelude.{Option};
    ghost use Rattle.stark_air.specs.Tree.{Tree};
    ghost use Rattle.stark_symbolic.specs.TreeCode.{expression_code};

    ghost Value = { Option (Tree F) };

    ghost coded = { expression_code F.code };

    ghost use Rattle.stark_symbolic.specs.SymbolicView.{tree_of};

    ghost view = { λ s. tree_of s.node };
}

impl<F> From<F> for SymbolicExpression<F> {
    ghost from_gives = { λ k x. x ≡ Some (constant k) };

    fn from(k: F) -> SymbolicExpression<F> {
        SymbolicExpression {
            node: SymbolicNode::Constant(k),
        }
    }
}

impl<F: Field> From<SymbolicVariable<F>> for SymbolicExpression<F> {
    ghost use Rattle.stark_symbolic.specs.SymbolicView.{variable_tree};

    ghost from_gives = { λ v x. x ≡ Some (variable_tree v.entry v.index) };

    fn from(v: SymbolicVariable<F>) -> SymbolicExpression<F> {
        SymbolicExpression {
            node: SymbolicNode::Variable(v),
        }
    }
}

impl<F: Field> Add<SymbolicExpression<F>> for SymbolicExpression<F> {
    type Output = SymbolicExpression<F>;

    ghost can_add = { λ x y. Unit {0} };

    ghost add_gives = { GivesPair sum F.ring.add };

    fn add(self, other: SymbolicExpression<F>) -> SymbolicExpression<F> {
        let SymbolicExpression { node: left } = self;
        let SymbolicExpression { node: right } = other;
        SymbolicExpression {
            node: sum_of(left, right),
        }
    }
}

impl<F: Field> Sub<SymbolicExpression<F>> for SymbolicExpression<F> {
    type Output = SymbolicExpression<F>;

    ghost can_sub = { λ x y. Unit {0} };

    ghost sub_gives = { GivesPair difference (ring_difference F.ring) };

    fn sub(self, other: SymbolicExpression<F>) -> SymbolicExpression<F> {
        let SymbolicExpression { node: left } = self;
        let SymbolicExpression { node: right } = other;
        SymbolicExpression {
            node: difference_of(left, right),
        }
    }
}

impl<F: Field> Mul<SymbolicExpression<F>> for SymbolicExpression<F> {
    type Output = SymbolicExpression<F>;

    ghost can_mul = { λ x y. Unit {0} };

    ghost mul_gives = { GivesPair product F.ring.mul };

    fn mul(self, other: SymbolicExpression<F>) -> SymbolicExpression<F> {
        let SymbolicExpression { node: left } = self;
        let SymbolicExpression { node: right } = other;
        SymbolicExpression {
            node: product_of(left, right),
        }
    }
}

impl<F: Field> Neg for SymbolicExpression<F> {
    type Output = SymbolicExpression<F>;

    ghost can_neg = { λ x. Unit {0} };

    ghost neg_gives = { GivesSingle negation F.ring.neg };

    fn neg(self) -> SymbolicExpression<F> {
        let SymbolicExpression { node: inner } = self;
        SymbolicExpression {
            node: negation_of(inner),
        }
    }
}

impl<F: Field> Algebra<F> for SymbolicExpression<F> {
    ghost operations = { symbolic_operations F.ring };

    ghost stands = { Stands };

    ghost may_add = { λ x y. tt };

    ghost may_sub = { λ x y. tt };

    ghost may_mul = { λ x y. tt };

    ghost may_neg = { λ x. tt };

    ghost stands_itself = { stands_itself };

    ghost embed_stands = { embedding_stands };

    ghost plus_stands = { pair_stands sum F.ring.add };

    ghost minus_stands = { pair_stands difference (ring_difference F.ring) };

    ghost times_stands = { pair_stands product F.ring.mul };

    ghost negated_stands = { single_stands negation F.ring.neg };

    /// A second copy, refused where memory for it was. A constant, a variable and a selector take
    /// none.
    fn dup(&self) -> SymbolicExpression<F>
        ensures copied { (v : Option (Tree F)) → Stands v self.now → Stands v result }
        ensures leaf { is_leaf self.now ≡ true → result ≡ self.now }
    {
        SymbolicExpression {
            node: copy_of(&self.node),
        }
    }
}

impl<F: Field> SymbolicExpression<F> {
    /// The selector of the first row.
    pub fn is_first_row(alloc: Global) -> Self
        ensures { result ≡ Some first_row }
    {
        SymbolicExpression {
            node: SymbolicNode::IsFirstRow(alloc),
        }
    }

    /// The selector of the last row.
    pub fn is_last_row(alloc: Global) -> Self
        ensures { result ≡ Some last_row }
    {
        SymbolicExpression {
            node: SymbolicNode::IsLastRow(alloc),
        }
    }

    /// The selector of all rows but the last.
    pub fn is_transition(alloc: Global) -> Self
        ensures { result ≡ Some transition }
    {
        SymbolicExpression {
            node: SymbolicNode::IsTransition(alloc),
        }
    }

    /// Whether memory for a node was refused.
    pub fn is_refused(&self) -> bool
        ensures { IsTrue result ↔ IsNone self.now }
    {
        !is_whole(&self.node)
    }

    /// The degree in multiples of the trace's length, with `transition_degree` for the transition
    /// selector: 1 for a column and for the selectors of the first and the last row, 0 for a
    /// constant and a public value, of a sum and a difference the greater, of a product the sum, or
    /// the greatest `usize` where that is more. It is 0 where memory was refused.
    pub fn degree_multiple_with_transition(&self, transition_degree: usize) -> usize
        ensures { result ≡ expression_degree transition_degree self.now }
    {
        if self.is_refused() {
            0
        } else {
            degree_of(&self.node, transition_degree)
        }
    }

    /// `degree_multiple_with_transition` of 0, which is a two-adic domain's.
    pub fn degree_multiple(&self) -> usize
        ensures { result ≡ expression_degree 0 self.now }
    {
        self.degree_multiple_with_transition(0)
    }
}
