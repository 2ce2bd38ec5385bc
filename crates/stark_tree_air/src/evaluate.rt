//! Nodes and constraints on a builder.
ghost use Rattle.std.specs.Prelude.{◌≡◌, ◌<◌, [], map, length, IfOk, OnErr, Option};
ghost use Rattle.stark_air.specs.Tree.{constant};
ghost use Rattle.stark_air.specs.Value.{Environment, value};
ghost use Rattle.stark_tree_air.specs.Needed.{NodesMarked};
ghost use Rattle.stark_tree_air.specs.Windows.{ReadAreThere, WindowsShow};
ghost use Rattle.stark_tree_air.specs.Nodes.{Stand, NodeFits, NodesFit, nodes_trees, tree_at, AssertsNode, StandsForMade, StandsForNode};

use crate::node::{TreeConstraint, TreeNode};
use stark_air::{AirBuilder, ExtensionBuilder, WindowAccess, periodic_value, public_value};
use stark_support::{Algebra, Element};
use std::alloc::{AllocError, Global};

/// A builder's windows of rows, where they were asked for.
#[derive(Drop)]
struct Windows<M, P> {
    main: Option<M>,
    preprocessed: Option<P>,
}

/// What windows show of a builder's row. It has no code.
trait ShowsWindows: AirBuilder {
    ghost shown: { Self → Option Self.MainWindow → Option Self.PreprocessedWindow → Type 0 };
}

impl<AB: AirBuilder> ShowsWindows for AB {
    ghost shown = { λ builder. WindowsShow ⟦<AB::Expr as From<AB::Var>>⟧.from_gives AB.Expr.stands
        (AB.environment builder) (AB.layout builder) AB.MainWindow.current_at
        AB.MainWindow.next_at AB.PreprocessedWindow.current_at AB.PreprocessedWindow.next_at };
}

/// A copy of the value of an earlier node.
#[tactic(auto, using(crate::proofs::Steps::operand_stands))]
pub(crate) fn operand<F, E: Algebra<F>>(values: &[E], index: usize) -> E
    requires { index < length values.now }
    ensures { StandsForNode E.stands E.operations values.now index result }
{
    values[index].dup()
}

/// The value of a constant of the list.
#[tactic(auto, using(crate::proofs::Steps::constant_stands))]
fn constant_value<F: Element, E: Algebra<F>>(constants: &[F], index: usize) -> E
    requires { index < length constants.now }
    ensures { (e : Environment E) → E.stands
        (value E.operations e (tree_at (map constant constants.now) index)) result }
{
    E::from(constants[index])
}

/// The value of a node, from the constants and the values of the nodes before it.
#[tactic(auto, using(stark_air::proofs::Steps::shown))]
fn node_value<AB: AirBuilder>(
    node: TreeNode,
    constants: &[AB::F],
    values: &[AB::Expr],
    windows: &Windows<AB::MainWindow, AB::PreprocessedWindow>,
    builder: &AB,
) -> AB::Expr
    requires fits { NodeFits (AB.layout builder.now) (length constants.now) (length values.now)
        node }
    requires shown { ⟦<AB as ShowsWindows>⟧.shown builder.now
        windows.now.main windows.now.preprocessed }
    requires asked { ReadAreThere node windows.now.main windows.now.preprocessed }
    ensures { StandsForMade AB.Expr.stands AB.Expr.operations (AB.environment builder.now)
        constants.now values.now node result }
{
    match node {
        TreeNode::Constant(index) => constant_value(constants, index),
        TreeNode::MainCurrent(column) => windows
            .main
            .as_ref()
            .unwrap()
            .current(column)
            .unwrap()
            .into(),
        TreeNode::MainNext(column) => windows.main.as_ref().unwrap().next(column).unwrap().into(),
        TreeNode::PreprocessedCurrent(column) => windows
            .preprocessed
            .as_ref()
            .unwrap()
            .current(column)
            .unwrap()
            .into(),
        TreeNode::PreprocessedNext(column) => windows
            .preprocessed
            .as_ref()
            .unwrap()
            .next(column)
            .unwrap()
            .into(),
        TreeNode::PublicValue(index) => public_value(builder, index),
        TreeNode::PeriodicValue(column) => periodic_value(builder, column),
        TreeNode::FirstRow => builder.is_first_row(),
        TreeNode::LastRow => builder.is_last_row(),
        TreeNode::Transition => builder.is_transition(),
        TreeNode::Sum(left, right) => operand(values, left) + operand(values, right),
        TreeNode::Difference(left, right) => operand(values, left) - operand(values, right),
        TreeNode::Product(left, right) => operand(values, left) * operand(values, right),
        TreeNode::Negation(inner) => -operand(values, inner),
    }
}

/// The windows with those that the node reads, which are asked for where they aren't there.
fn with_read<AB: AirBuilder>(
    node: TreeNode,
    windows: Windows<AB::MainWindow, AB::PreprocessedWindow>,
    builder: &AB,
) -> Result<Windows<AB::MainWindow, AB::PreprocessedWindow>, AllocError>
    requires shown { ⟦<AB as ShowsWindows>⟧.shown builder.now
        windows.main windows.preprocessed }
    ensures shown { IfOk result (λ all.
        ⟦<AB as ShowsWindows>⟧.shown builder.now
        all.main all.preprocessed) }
    ensures asked { IfOk result (λ all. ReadAreThere node all.main all.preprocessed) }
{
    match (node, &windows.main, &windows.preprocessed) {
        (TreeNode::MainCurrent(_) | TreeNode::MainNext(_), None, _) => Ok(Windows {
            main: Some(builder.main()?),
            ..windows
        }),
        (TreeNode::PreprocessedCurrent(_) | TreeNode::PreprocessedNext(_), _, None) => Ok(
            Windows {
                preprocessed: Some(builder.preprocessed()?),
                ..windows
            },
        ),
        _ => Ok(windows),
    }
}

/// The values of the nodes, in their order. A window is asked for where the first needed node reads
/// it. In place of a node that isn't needed stands a selector, which takes no memory. The first
/// value that the builder knows to be refused memory ends the work.
pub(crate) fn node_values<AB: AirBuilder>(
    alloc: Global,
    constants: &[AB::F],
    nodes: &[TreeNode],
    needed: &[bool],
    builder: &AB,
) -> Result<Vec<AB::Expr>, AllocError>
    requires fit { NodesFit (AB.layout builder.now) (length constants.now) 0 nodes.now }
    requires operands { NodesMarked needed.now 0 nodes.now }
    requires as_many { length needed.now ≡ length nodes.now }
    ensures { IfOk result (λ v. Stand AB.Expr.stands AB.Expr.operations (AB.environment builder.now)
        needed.now (nodes_trees constants.now nodes.now) v.items) }
{
    let mut windows = Windows {
        main: None,
        preprocessed: None,
    };
    let mut values = Vec::with_capacity(alloc, nodes.len())?;
    for (place, node) in nodes.iter().enumerate() {
        if needed[place] {
            windows = with_read::<AB>(*node, windows, builder)?;
            let value = node_value(*node, constants, &values, &windows, builder);
            if builder.is_refused(&value) {
                return Err(AllocError);
            }
            values.push(value)?;
        } else {
            values.push(builder.is_first_row())?;
        }
    }
    Ok(values)
}

/// Asserts one constraint, by the value of its node.
pub(crate) fn assert_constraint<AB: ExtensionBuilder>(
    constraint: TreeConstraint,
    x: AB::Expr,
    builder: &mut AB,
) -> Result<(), AllocError>
    ensures same_environment { AB.environment builder.new ≡ AB.environment builder.old }
    ensures asserted { IfOk result (λ _.
        AssertsNode AB.Expr.operations AB.Expr.stands AB.environment AB.after constraint
        builder.old x builder.new) }
    ensures refused { OnErr result (AB.after builder.old [] builder.new) }
{
    match constraint {
        TreeConstraint::Base(_) => builder.assert_zero(x),
        TreeConstraint::Extension(_) => builder.assert_zero_ext(AB::ExprEF::from(x)),
    }
}
