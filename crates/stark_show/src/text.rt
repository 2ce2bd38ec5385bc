//! A whole AIR as text.
ghost use Rattle.std.specs.Prelude.{◌≡◌, ◌^◌, ◌<◌, ◌≤◌, length, IfOk, string_bytes};
ghost use Rattle.std.specs.List.{slice_get};
ghost use Rattle.stark_parts.specs.Sizing.{multiple_of};
ghost use Rattle.stark_security.specs.ErrorBound.{IsErrorBound};
ghost use Rattle.stark_support.specs.Logarithm.{IsCeilingOfLog};
ghost use Rattle.stark_show.specs.Shown.{IsShown, IsWhole, columns_text, constraints_text, equation_line, listed_line, long_text, sections_text};
ghost use Rattle.stark_show.specs.ShownNodes.{NodesName};
ghost use Rattle.stark_tree_air.specs.Needed.{constraint_place};
ghost use Rattle.stark_tree_air.specs.Nodes.{ConstraintsFit};
ghost use Rattle.stark_tree_air.specs.TreeJson.{list_view};
ghost use Rattle.stark_tree_air.specs.Writing.{spelled_in};

use crate::degrees::node_degrees;
use crate::lines::{bound_line, chunks_line, columns_line, constraint_lines, numbered_line};
use crate::nodes::shown_nodes;
use stark_air::AirLayout;
use stark_parts::get_log_num_quotient_chunks;
use stark_security::ood_error_bound;
use stark_support::{ExtensionField, Field, PrimeField64};
use stark_tree_air::{TreeAir, TreeColumns, TreeConstraint, TreeList};
use std::alloc::{AllocError, Global};

/// The text in its parts, each of whole lines.
#[derive(Debug, Drop)]
struct Sections {
    columns: String,
    constraints: String,
    long: String,
    chunks: String,
    bound: String,
}

impl Sections {
    /// The sections, one behind the other.
    fn joined(&self, alloc: Global) -> Result<String, AllocError>
        ensures { IfOk result (λ text. string_bytes text ≡ sections_text self.now) }
    {
        let columns = &self.columns;
        let constraints = &self.constraints;
        let long = &self.long;
        let chunks = &self.chunks;
        let bound = &self.bound;
        format!(in alloc; "{columns}{constraints}{long}{chunks}{bound}")
    }
}

/// What is shown of constraints: their lines, and those of long nodes.
#[derive(Debug, Drop)]
struct ShownList {
    constraints: String,
    long: String,
}

/// The line of the columns.
#[tactic(auto, unfolding(crate::specs::Shown::columns_text))]
fn shown_columns<F>(alloc: Global, columns: &TreeColumns<F>) -> Result<String, AllocError>
    ensures { IfOk result (λ line. string_bytes line ≡ columns_text columns.now) }
{
    let periodic = columns.periodic_columns.len();
    let preprocessed = columns.preprocessed_width();
    columns_line(
        alloc,
        columns.width,
        columns.num_public_values,
        periodic,
        preprocessed,
    )
}

/// The line of a list's constraint.
fn equation_of<F: PrimeField64>(
    alloc: Global,
    list: &TreeList<F>,
    number: usize,
    constraint: TreeConstraint,
) -> Result<String, AllocError>
    requires nodes { NodesName (length list.now.constants.items) 0 list.now.nodes.items }
    requires place { constraint_place constraint < length list.now.nodes.items }
    ensures { IfOk result (λ line. string_bytes line
        ≡ listed_line F.number_of (list_view list.now) number constraint) }
{
    let shown = shown_nodes(alloc, &list.constants, &list.nodes)?;
    let degrees = node_degrees(alloc, &list.nodes)?;
    numbered_line(alloc, &shown.phrases, &degrees, number, constraint)
}

/// The lines of the constraints and of long nodes.
#[tactic(auto, unfolding(crate::specs::Shown::long_text))]
fn shown_list<F: PrimeField64>(alloc: Global, list: &TreeList<F>) -> Result<ShownList, AllocError>
    requires nodes { NodesName (length list.now.constants.items) 0 list.now.nodes.items }
    requires constraints { ConstraintsFit (length list.now.nodes.items) list.now.constraints.items }
    ensures constraints { IfOk result (λ shown. string_bytes shown.constraints
        ≡ constraints_text F.number_of list.now) }
    ensures long { IfOk result (λ shown. string_bytes shown.long ≡ long_text F.number_of list.now) }
{
    let shown = shown_nodes(alloc, &list.constants, &list.nodes)?;
    let degrees = node_degrees(alloc, &list.nodes)?;
    let constraints = constraint_lines(alloc, &shown.phrases, &degrees, &list.constraints)?;
    Ok(ShownList {
        constraints,
        long: shown.lines,
    })
}

/// The constraint of a number.
fn constraint_at(constraints: &[TreeConstraint], number: usize) -> Option<TreeConstraint>
    ensures { result ≡ slice_get constraints.now number }
{
    constraints.get(number).copied()
}

/// The line of one constraint, by its number, as `shown` has it; empty where there is no such
/// constraint. Err only where memory was refused.
pub fn equation<F: PrimeField64>(
    alloc: Global,
    air: &TreeAir<F>,
    number: usize,
) -> Result<String, AllocError>
    ensures { IfOk result (λ line. string_bytes line
        ≡ equation_line F.number_of (list_view air.now.list) number) }
{
    let list = &air.list;
    match constraint_at(&list.constraints, number) {
        Some(constraint) => equation_of(alloc, list, number, constraint),
        None => Ok(String::new(alloc)),
    }
}

/// The logarithm of the number of chunks that the quotient is cut into, without masks.
fn log_chunks<F: Field>(
    alloc: Global,
    air: &TreeAir<F>,
    log_height: usize,
) -> Result<usize, AllocError>
    ensures { IfOk result (λ log. IsCeilingOfLog log
        (multiple_of 0 (spelled_in air.now.list) air.now.declaration.max_constraint_degree 0)) }
{
    let layout = AirLayout::from_air(air);
    get_log_num_quotient_chunks(alloc, air, layout, log_height, 0)
}

/// Two to a power: a number of chunks of its logarithm.
fn chunk_count(log: usize) -> u128
    requires { log ≤ 64 }
    ensures { result ≡ 2 ^ log }
{
    1 << log
}

/// How many draws can be bad at `2 ^ log_height` rows; None where that is no `usize`, or the bound
/// isn't.
fn bound_at<F: Field, EF: ExtensionField<F>>(
    alloc: Global,
    air: &TreeAir<F>,
    log: usize,
    log_height: usize,
) -> Result<Option<(usize, usize)>, AllocError>
    requires { IsCeilingOfLog log (multiple_of 0 (spelled_in air.now.list)
        air.now.declaration.max_constraint_degree 0) }
    ensures { IfOk result (λ bound. IsErrorBound (spelled_in air.now.list)
        air.now.declaration.max_constraint_degree log_height 0
        bound) }
{
    if log_height > 63 {
        return Ok(None);
    }
    let layout = AirLayout::from_air(air);
    ood_error_bound::<F, EF, TreeAir<F>>(alloc, air, layout, log_height, 0)
}

/// An AIR as text, of so many lines:
///
/// - its columns: `columns: 1 main, 1 public, 0 periodic, 0 preprocessed`;
/// - each constraint by its number, its kind (`base` or `extension`), its degree in multiples of
///   the trace's height, and its equation: `constraint 0 (base, degree 2): first_row * (main[0] -
///   public[0]) = 0`. Constants are written by their numbers, an operand stands in brackets where
///   it binds less tightly than its place asks, and the degree counts the transition selector as 0;
/// - each node whose expression is longer than 4096 bytes: `node 9 = ..`. Where it is an operand or
///   a constraint, `node 9` stands for it;
/// - how many chunks the quotient is cut into without masks: `quotient chunks: 1`;
/// - how many alphas, and for any other alpha how many zetas, can be bad for a trace of `2 ^
///   log_height` rows that breaks a constraint: `error bound at 2^4 rows: 1 alpha, 31 zeta`. It is
///   `none` where there are 2^64 zetas and more, as for 2^64 rows.
///
/// Err only where memory was refused.
pub fn shown<F: PrimeField64, EF: ExtensionField<F>>(
    alloc: Global,
    air: &TreeAir<F>,
    log_height: usize,
) -> Result<String, AllocError>
    ensures shown { IfOk result (λ text.
        IsShown F.number_of air.now.declaration air.now.list log_height (string_bytes text)) }
    ensures whole { IfOk result (λ text.
        IsWhole F.number_of air.now.declaration air.now.list (string_bytes text)) }
{
    let columns = shown_columns(alloc, &air.declaration.columns)?;
    let list = shown_list(alloc, &air.list)?;
    let log = log_chunks(alloc, air, log_height)?;
    let chunks = chunks_line(alloc, chunk_count(log))?;
    let bound = bound_line(
        alloc,
        log_height,
        bound_at::<F, EF>(alloc, air, log, log_height)?,
    )?;
    let sections = Sections {
        columns,
        constraints: list.constraints,
        long: list.long,
        chunks,
        bound,
    };
    let text = sections.joined(alloc)?;
    Ok(text)
}
