//! Expressions as text.
ghost use Rattle.std.specs.Prelude.{◌≡◌, ◌<◌, codes, length, map, IfOk, string_bytes};
ghost use Rattle.stark_show.specs.Expressions.{constant_written, difference_written, entry_written, leaf_written, negation_written, operand_text, pair_written, phrase_view, product_written, sum_written};
ghost use Rattle.stark_show.specs.ShownNodes.{NodeNames, node_written, written_at};

use crate::binding::Binding;
use stark_support::PrimeField64;
use stark_tree_air::TreeNode;
use std::alloc::{AllocError, Global};

/// The text of an expression, and how tightly its outermost operation binds.
#[derive(Debug, Drop)]
pub struct Phrase {
    pub binding: Binding,
    pub text: String,
}

impl Phrase {
    /// A text that needs no brackets.
    fn leaf(text: String) -> Phrase
        ensures { phrase_view result ≡ leaf_written (string_bytes text) }
    {
        Phrase {
            binding: Binding::Leaf,
            text,
        }
    }

    /// The text as an operand: in brackets where it binds less tightly than `least`.
    #[tactic(auto, unfolding(crate::specs::Expressions::operand_text))]
    fn operand_text(&self, alloc: Global, least: Binding) -> Result<String, AllocError>
        ensures { IfOk result (λ text. string_bytes text
            ≡ operand_text least (phrase_view self.now)) }
    {
        let text = &self.text;
        if self.binding.strength() < least.strength() {
            format!(in alloc; "({text})")
        } else {
            format!(in alloc; "{text}")
        }
    }
}

/// A name by itself.
pub(crate) fn name(alloc: Global, name: &str) -> Result<Phrase, AllocError>
    ensures { IfOk result (λ phrase. phrase_view phrase ≡ leaf_written name.now) }
{
    Ok(Phrase::leaf(format!(in alloc; "{name}")?))
}

/// A name with an index.
fn entry(alloc: Global, name: &str, index: usize) -> Result<Phrase, AllocError>
    ensures { IfOk result (λ phrase. phrase_view phrase ≡ entry_written name.now index) }
{
    Ok(Phrase::leaf(format!(in alloc; "{name}[{index}]")?))
}

/// A constant, as its canonical number.
fn constant<F: PrimeField64>(alloc: Global, constant: F) -> Result<Phrase, AllocError>
    ensures { IfOk result (λ phrase. phrase_view phrase ≡ constant_written F.number_of constant) }
{
    let number = constant.as_canonical_u64();
    Ok(Phrase::leaf(format!(in alloc; "{number}")?))
}

/// The constant at a place of the list.
#[tactic(auto, using(crate::proofs::Places::constant_at))]
fn listed_constant<F: PrimeField64>(
    alloc: Global,
    constants: &[F],
    index: usize,
) -> Result<Phrase, AllocError>
    requires { index < length constants.now }
    ensures { IfOk result (λ phrase. phrase_view phrase
        ≡ written_at (map (constant_written F.number_of) constants.now) index) }
{
    constant(alloc, constants[index])
}

/// Two operands with a sign between them.
fn pair(
    alloc: Global,
    binding: Binding,
    sign: &str,
    least: Binding,
    left: &Phrase,
    right: &Phrase,
) -> Result<Phrase, AllocError>
    ensures { IfOk result (λ phrase. phrase_view phrase
        ≡ pair_written binding sign.now least (phrase_view left.now) (phrase_view right.now)) }
{
    let left = left.operand_text(alloc, binding)?;
    let right = right.operand_text(alloc, least)?;
    let text = format!(in alloc; "{left}{sign}{right}")?;
    Ok(Phrase { binding, text })
}

/// The sum of two phrases, with sums and differences on the right in brackets.
fn sum(alloc: Global, left: &Phrase, right: &Phrase) -> Result<Phrase, AllocError>
    ensures { IfOk result (λ phrase. phrase_view phrase
        ≡ sum_written (phrase_view left.now) (phrase_view right.now)) }
{
    pair(
        alloc,
        Binding::Additive,
        " + ",
        Binding::Multiplicative,
        left,
        right,
    )
}

/// The difference of two phrases, with brackets as a sum has them.
fn difference(alloc: Global, left: &Phrase, right: &Phrase) -> Result<Phrase, AllocError>
    ensures { IfOk result (λ phrase. phrase_view phrase
        ≡ difference_written (phrase_view left.now) (phrase_view right.now)) }
{
    pair(
        alloc,
        Binding::Additive,
        " - ",
        Binding::Multiplicative,
        left,
        right,
    )
}

/// The product of two phrases, with sums in brackets, and on the right products too.
fn product(alloc: Global, left: &Phrase, right: &Phrase) -> Result<Phrase, AllocError>
    ensures { IfOk result (λ phrase. phrase_view phrase
        ≡ product_written (phrase_view left.now) (phrase_view right.now)) }
{
    pair(
        alloc,
        Binding::Multiplicative,
        " * ",
        Binding::Prefix,
        left,
        right,
    )
}

/// The opposite of a phrase, in brackets unless it is a leaf.
fn negation(alloc: Global, inner: &Phrase) -> Result<Phrase, AllocError>
    ensures { IfOk result (λ phrase. phrase_view phrase
        ≡ negation_written (phrase_view inner.now)) }
{
    let inner = inner.operand_text(alloc, Binding::Leaf)?;
    let text = format!(in alloc; "-{inner}")?;
    Ok(Phrase {
        binding: Binding::Prefix,
        text,
    })
}

/// What is shown of an earlier node.
#[tactic(auto, using(crate::proofs::Places::phrase_at))]
pub(crate) fn operand(phrases: &[Phrase], place: usize) -> &Phrase
    requires { place < length phrases.now }
    ensures { phrase_view result.now ≡ written_at (map phrase_view phrases.now) place }
{
    &phrases[place]
}

/// A node by the constants and by what is shown of the nodes before it.
pub(crate) fn node_phrase<F: PrimeField64>(
    alloc: Global,
    constants: &[F],
    phrases: &[Phrase],
    node: TreeNode,
) -> Result<Phrase, AllocError>
    requires { NodeNames (length constants.now) (length phrases.now) node }
    ensures { IfOk result (λ phrase. phrase_view phrase
        ≡ node_written F.number_of constants.now (map phrase_view phrases.now) node) }
{
    match node {
        TreeNode::Constant(index) => listed_constant(alloc, constants, index),
        TreeNode::MainCurrent(column) => entry(alloc, "main", column),
        TreeNode::MainNext(column) => entry(alloc, "next", column),
        TreeNode::PreprocessedCurrent(column) => entry(alloc, "preprocessed", column),
        TreeNode::PreprocessedNext(column) => entry(alloc, "preprocessed_next", column),
        TreeNode::PublicValue(index) => entry(alloc, "public", index),
        TreeNode::PeriodicValue(column) => entry(alloc, "periodic", column),
        TreeNode::FirstRow => name(alloc, "first_row"),
        TreeNode::LastRow => name(alloc, "last_row"),
        TreeNode::Transition => name(alloc, "transition"),
        TreeNode::Sum(i, j) => sum(alloc, operand(phrases, i), operand(phrases, j)),
        TreeNode::Difference(i, j) => difference(alloc, operand(phrases, i), operand(phrases, j)),
        TreeNode::Product(i, j) => product(alloc, operand(phrases, i), operand(phrases, j)),
        TreeNode::Negation(i) => negation(alloc, operand(phrases, i)),
    }
}
