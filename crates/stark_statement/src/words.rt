//! The words of a statement's canonical writing.
ghost use Rattle.std.specs.Prelude.{◌≡◌, ◌++◌, IfOk, OnOk, map};
ghost use Rattle.stark_tree_air.specs.TreeJson.{air_view, columns_view, list_view};
ghost use Rattle.stark_tree_air.specs.Traces.{declared_trace};
ghost use Rattle.stark_statement.specs.Configuration.{configuration_view, fri_numbers};
ghost use Rattle.stark_statement.specs.StatementBytes.{air_words, columns_words, configuration_words, constraint_words, elements_words, field_tag, fri_words, height_words, list_words, node_words, statement_words, trace_words};
ghost use Rattle.stark_statement.specs.Words.{counted, optional, word};
ghost use Rattle.stark_statement.specs.StatementView.{statement_view};

use crate::configuration::{Configuration, FieldName, SchemeChoice};
use crate::statement::Statement;
use stark_fri_proof::FriParameters;
use stark_support::{PrimeField64, RowMajorMatrix};
use stark_tree_air::{TreeAir, TreeColumns, TreeConstraint, TreeList, TreeNode};
use std::alloc::{AllocError, Global};

/// Writes a number as one word.
fn push_word(words: &mut Vec<u64>, number: usize) -> Result<(), AllocError>
    ensures { OnOk result (words.new.items ≡ words.old.items ++ word number) }
{
    words.push(number as u64)?;
    Ok(())
}

/// Writes 1 and a number, or 0 where there is none.
fn push_optional(words: &mut Vec<u64>, number: Option<usize>) -> Result<(), AllocError>
    ensures { OnOk result (words.new.items ≡ words.old.items ++ optional word number) }
{
    match number {
        Some(number) => {
            push_word(&mut *words, 1)?;
            push_word(words, number)
        }
        None => push_word(words, 0),
    }
}

/// Writes how many elements there are, and each.
fn push_elements<F: PrimeField64>(words: &mut Vec<u64>, elements: &[F]) -> Result<(), AllocError>
    ensures { OnOk result (words.new.items
        ≡ words.old.items ++ elements_words F.number_of elements.now) }
{
    push_word(&mut *words, elements.len())?;
    for element in elements {
        words.push(element.as_canonical_u64())?;
    }
    Ok(())
}

/// Writes how many lists there are, and each with its length.
fn push_lists<F: PrimeField64>(words: &mut Vec<u64>, lists: &[Vec<F>]) -> Result<(), AllocError>
    ensures { OnOk result (words.new.items
        ≡ words.old.items ++ counted (elements_words F.number_of)
        (map (λ list. list.items) lists.now)) }
{
    push_word(&mut *words, lists.len())?;
    for list in lists {
        push_elements(&mut *words, list)?;
    }
    Ok(())
}

/// Writes 1, a matrix's width and its values with their number, or 0 where there is none.
fn push_trace<F: PrimeField64>(
    words: &mut Vec<u64>,
    trace: &Option<RowMajorMatrix<F>>,
) -> Result<(), AllocError>
    ensures { OnOk result (words.new.items
        ≡ words.old.items ++ optional (trace_words F.number_of) (declared_trace trace.now)) }
{
    match trace {
        Some(trace) => {
            push_word(&mut *words, 1)?;
            push_word(&mut *words, trace.width)?;
            push_elements(words, &trace.values)
        }
        None => push_word(words, 0),
    }
}

/// Writes a tag, and the one place after it.
fn push_place(words: &mut Vec<u64>, tag: usize, place: usize) -> Result<(), AllocError>
    ensures { OnOk result (words.new.items ≡ words.old.items ++ (word tag ++ word place)) }
{
    push_word(&mut *words, tag)?;
    push_word(words, place)
}

/// Writes a tag, and the two places after it.
fn push_places(
    words: &mut Vec<u64>,
    tag: usize,
    left: usize,
    right: usize,
) -> Result<(), AllocError>
    ensures { OnOk result (words.new.items
        ≡ words.old.items ++ (word tag ++ (word left ++ word right))) }
{
    push_word(&mut *words, tag)?;
    push_place(words, left, right)
}

/// Writes a node: a tag for its kind, and the places that it names. No two kinds share a tag.
fn push_node(words: &mut Vec<u64>, node: TreeNode) -> Result<(), AllocError>
    ensures { OnOk result (words.new.items ≡ words.old.items ++ node_words node) }
{
    match node {
        TreeNode::Constant(place) => push_place(words, 0, place),
        TreeNode::MainCurrent(column) => push_place(words, 1, column),
        TreeNode::MainNext(column) => push_place(words, 2, column),
        TreeNode::PreprocessedCurrent(column) => push_place(words, 3, column),
        TreeNode::PreprocessedNext(column) => push_place(words, 4, column),
        TreeNode::PublicValue(place) => push_place(words, 5, place),
        TreeNode::PeriodicValue(column) => push_place(words, 6, column),
        TreeNode::FirstRow => push_word(words, 7),
        TreeNode::LastRow => push_word(words, 8),
        TreeNode::Transition => push_word(words, 9),
        TreeNode::Sum(left, right) => push_places(words, 10, left, right),
        TreeNode::Difference(left, right) => push_places(words, 11, left, right),
        TreeNode::Product(left, right) => push_places(words, 12, left, right),
        TreeNode::Negation(inner) => push_place(words, 13, inner),
    }
}

/// Writes how many nodes there are, and each.
fn push_nodes(words: &mut Vec<u64>, nodes: &[TreeNode]) -> Result<(), AllocError>
    ensures { OnOk result (words.new.items ≡ words.old.items ++ counted node_words nodes.now) }
{
    push_word(&mut *words, nodes.len())?;
    for node in nodes {
        push_node(&mut *words, *node)?;
    }
    Ok(())
}

/// Writes a constraint: 0 for one in the base field, 1 for one in the extension, and its place.
fn push_constraint(words: &mut Vec<u64>, constraint: TreeConstraint) -> Result<(), AllocError>
    ensures { OnOk result (words.new.items ≡ words.old.items ++ constraint_words constraint) }
{
    match constraint {
        TreeConstraint::Base(place) => push_place(words, 0, place),
        TreeConstraint::Extension(place) => push_place(words, 1, place),
    }
}

/// Writes how many constraints there are, and each.
fn push_constraints(words: &mut Vec<u64>, constraints: &[TreeConstraint]) -> Result<(), AllocError>
    ensures { OnOk result (words.new.items
        ≡ words.old.items ++ counted constraint_words constraints.now) }
{
    push_word(&mut *words, constraints.len())?;
    for constraint in constraints {
        push_constraint(&mut *words, *constraint)?;
    }
    Ok(())
}

/// Writes width, number of public values, periodic columns and the preprocessed trace.
#[tactic(auto, unfolding(crate::specs::StatementBytes::columns_words))]
fn push_columns<F: PrimeField64>(
    words: &mut Vec<u64>,
    columns: &TreeColumns<F>,
) -> Result<(), AllocError>
    ensures { OnOk result (words.new.items
        ≡ words.old.items ++ columns_words F.number_of (columns_view columns.now)) }
{
    push_word(&mut *words, columns.width)?;
    push_word(&mut *words, columns.num_public_values)?;
    push_lists(&mut *words, &columns.periodic_columns)?;
    push_trace(words, &columns.preprocessed_trace)
}

/// Writes constants, nodes and constraints.
#[tactic(auto, unfolding(crate::specs::StatementBytes::list_words))]
fn push_list<F: PrimeField64>(words: &mut Vec<u64>, list: &TreeList<F>) -> Result<(), AllocError>
    ensures { OnOk result (words.new.items
        ≡ words.old.items ++ list_words F.number_of (list_view list.now)) }
{
    push_elements(&mut *words, &list.constants)?;
    push_nodes(&mut *words, &list.nodes)?;
    push_constraints(words, &list.constraints)
}

/// Writes the columns, the author's bound and count, and the lists of an AIR.
#[tactic(auto, unfolding(crate::specs::StatementBytes::air_words))]
fn push_air<F: PrimeField64>(words: &mut Vec<u64>, air: &TreeAir<F>) -> Result<(), AllocError>
    ensures { OnOk result (words.new.items
        ≡ words.old.items ++ air_words F.number_of (air_view air.now.declaration air.now.list)) }
{
    push_columns(&mut *words, &air.declaration.columns)?;
    push_optional(&mut *words, air.declaration.max_constraint_degree)?;
    push_optional(&mut *words, air.declaration.num_constraints)?;
    push_list(words, &air.list)
}

/// The number that stands for a field.
fn field_tag(field: FieldName) -> usize
    ensures { result ≡ field_tag field }
{
    match field {
        FieldName::BabyBear => 0,
        FieldName::KoalaBear => 1,
        FieldName::F12289 => 2,
    }
}

/// Writes FRI's five numbers.
#[tactic(auto, unfolding(crate::specs::StatementBytes::fri_words))]
fn push_fri(words: &mut Vec<u64>, parameters: &FriParameters) -> Result<(), AllocError>
    ensures { OnOk result (words.new.items
        ≡ words.old.items ++ fri_words (fri_numbers parameters.now)) }
{
    push_word(&mut *words, parameters.log_blowup())?;
    push_word(&mut *words, parameters.log_final_poly_len())?;
    push_word(&mut *words, parameters.num_queries())?;
    push_word(&mut *words, parameters.commit_proof_of_work_bits())?;
    push_word(words, parameters.query_proof_of_work_bits())
}

/// Writes the field's number, and 1 with FRI's numbers, or 0 for the scheme in the clear.
#[tactic(auto, unfolding(crate::specs::StatementBytes::configuration_words))]
fn push_configuration(words: &mut Vec<u64>, config: Configuration) -> Result<(), AllocError>
    ensures { OnOk result (words.new.items
        ≡ words.old.items ++ configuration_words (configuration_view config)) }
{
    push_word(&mut *words, field_tag(config.field))?;
    match config.scheme {
        SchemeChoice::Fri(parameters) => {
            push_word(&mut *words, 1)?;
            push_fri(words, &parameters)
        }
        SchemeChoice::Clear => push_word(words, 0),
    }
}

/// Writes the height that is fixed; nothing where none is.
fn push_height(words: &mut Vec<u64>, log_height: Option<usize>) -> Result<(), AllocError>
    ensures { OnOk result (words.new.items ≡ words.old.items ++ height_words log_height) }
{
    match log_height {
        Some(log_height) => push_word(words, log_height),
        None => Ok(()),
    }
}

/// The words of a statement, in order.
#[tactic(auto, unfolding(crate::specs::StatementBytes::statement_words))]
pub(crate) fn statement_words<F: PrimeField64>(
    alloc: Global,
    statement: &Statement<F>,
) -> Result<Vec<u64>, AllocError>
    ensures { IfOk result (λ words. words.items
        ≡ statement_words F.number_of (statement_view statement.now)) }
{
    let mut words = Vec::new(alloc);
    push_configuration(&mut words, statement.config)?;
    push_air(&mut words, &statement.air)?;
    push_elements(&mut words, &statement.public_values)?;
    push_word(&mut words, statement.alpha_bits)?;
    push_word(&mut words, statement.ood_bits)?;
    push_height(&mut words, statement.log_height)?;
    Ok(words)
}
