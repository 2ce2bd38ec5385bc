//! The nodes of a list, one after the other.
ghost use Rattle.std.specs.Fmt.{decimal};
ghost use Rattle.std.specs.Prelude.{◌≡◌, ◌++◌, codes, length, map, IfOk, OnOk, string_bytes};
ghost use Rattle.stark_show.specs.Expressions.{phrase_view};
ghost use Rattle.stark_show.specs.ShownNodes.{NodesName, long_line, long_lines, node_line, shown_nodes, shown_written};

use crate::phrase::{Phrase, name, node_phrase};
use stark_support::PrimeField64;
use stark_tree_air::TreeNode;
use std::alloc::{AllocError, Global};

/// How many bytes the text of an operand has at most.
const LONGEST: usize = 4096;

/// What is shown of nodes: each at its place, and the lines of those whose text is too long for an
/// operand.
#[derive(Debug, Drop)]
pub(crate) struct ShownNodes {
    pub phrases: Vec<Phrase>,
    pub lines: String,
}

/// The line that names a node whose text is too long to be written where it is used.
fn node_line(alloc: Global, place: usize, text: &str) -> Result<String, AllocError>
    ensures { IfOk result (λ line. string_bytes line ≡ node_line place text.now) }
{
    format!(in alloc; "node {place} = {text}\n")
}

/// The name by which such a node is written.
fn node_name(alloc: Global, place: usize) -> Result<String, AllocError>
    ensures { IfOk result (λ text. string_bytes text ≡ codes "node " ++ decimal place) }
{
    format!(in alloc; "node {place}")
}

/// What is shown of the node at a place; where its text is too long, the place, and the text
/// becomes a line.
#[tactic(auto, unfolding(crate::specs::ShownNodes::shown_written, crate::specs::ShownNodes::long_line))]
fn shown_phrase(
    alloc: Global,
    place: usize,
    phrase: Phrase,
    lines: &mut String,
) -> Result<Phrase, AllocError>
    ensures shown { IfOk result (λ shown. phrase_view shown
        ≡ shown_written place (phrase_view phrase)) }
    ensures line { OnOk result (string_bytes lines.new
        ≡ string_bytes lines.old ++ long_line place (phrase_view phrase)) }
{
    if phrase.text.len() > LONGEST {
        lines.push_str(&node_line(alloc, place, &phrase.text)?)?;
        name(alloc, &node_name(alloc, place)?)
    } else {
        Ok(phrase)
    }
}

/// The nodes in their order.
pub(crate) fn shown_nodes<F: PrimeField64>(
    alloc: Global,
    constants: &[F],
    nodes: &[TreeNode],
) -> Result<ShownNodes, AllocError>
    requires { NodesName (length constants.now) 0 nodes.now }
    ensures phrases { IfOk result (λ shown. map phrase_view shown.phrases.items
        ≡ shown_nodes F.number_of constants.now nodes.now) }
    ensures lines { IfOk result (λ shown. string_bytes shown.lines
        ≡ long_lines F.number_of constants.now nodes.now) }
{
    let mut phrases = Vec::new(alloc);
    let mut lines = String::new(alloc);
    for node in nodes {
        let phrase = node_phrase(alloc, constants, &phrases, *node)?;
        let shown = shown_phrase(alloc, phrases.len(), phrase, &mut lines)?;
        phrases.push(shown)?;
    }
    Ok(ShownNodes { phrases, lines })
}
