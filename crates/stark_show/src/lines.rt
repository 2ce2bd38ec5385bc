//! The lines that show an AIR.
ghost use Rattle.std.specs.Prelude.{◌≡◌, ◌++◌, ◌<◌, ◌^◌, length, map, IfOk, string_bytes};
ghost use Rattle.stark_show.specs.Expressions.{phrase_view};
ghost use Rattle.stark_show.specs.Lines.{bound_line, chunks_line, columns_line, constraint_line, constraint_lines, kind_name, numbered_line};
ghost use Rattle.stark_tree_air.specs.Nodes.{ConstraintsFit};
ghost use Rattle.stark_tree_air.specs.Needed.{constraint_place};

use crate::phrase::{Phrase, operand};
use stark_tree_air::TreeConstraint;
use std::alloc::{AllocError, Global};

/// How many columns and values of each kind there are.
pub fn columns_line(
    alloc: Global,
    main: usize,
    public_values: usize,
    periodic: usize,
    preprocessed: usize,
) -> Result<String, AllocError>
    ensures { IfOk result (λ line. string_bytes line
        ≡ columns_line main public_values periodic preprocessed) }
{
    format!(in alloc;
        "columns: {main} main, {public_values} public, {periodic} periodic, {preprocessed} preprocessed\n"
    )
}

/// The word for a constraint's kind.
fn kind_name(constraint: TreeConstraint) -> &'static str
    ensures { result.now ≡ kind_name constraint }
{
    match constraint {
        TreeConstraint::Base(_) => "base",
        TreeConstraint::Extension(_) => "extension",
    }
}

/// The constraint of this number: its kind, its degree and its equation.
pub fn constraint_line(
    alloc: Global,
    number: usize,
    constraint: TreeConstraint,
    degree: usize,
    text: &str,
) -> Result<String, AllocError>
    ensures { IfOk result (λ line. string_bytes line
        ≡ constraint_line number constraint degree text.now) }
{
    let kind = kind_name(constraint);
    format!(in alloc; "constraint {number} ({kind}, degree {degree}): {text} = 0\n")
}

/// The place of a constraint's node.
fn constraint_place(constraint: TreeConstraint) -> usize
    ensures { result ≡ constraint_place constraint }
{
    let (TreeConstraint::Base(place) | TreeConstraint::Extension(place)) = constraint;
    place
}

/// A constraint's line, by what is shown of the nodes and their degrees.
pub(crate) fn numbered_line(
    alloc: Global,
    phrases: &[Phrase],
    degrees: &[usize],
    number: usize,
    constraint: TreeConstraint,
) -> Result<String, AllocError>
    requires phrases { constraint_place constraint < length phrases.now }
    requires degrees { constraint_place constraint < length degrees.now }
    ensures { IfOk result (λ line. string_bytes line
        ≡ numbered_line (map phrase_view phrases.now) degrees.now number constraint) }
{
    let place = constraint_place(constraint);
    let text = &operand(phrases, place).text;
    constraint_line(alloc, number, constraint, degrees[place], text)
}

/// The lines of the constraints, by what is shown of the nodes and their degrees.
pub(crate) fn constraint_lines(
    alloc: Global,
    phrases: &[Phrase],
    degrees: &[usize],
    constraints: &[TreeConstraint],
) -> Result<String, AllocError>
    requires phrases { ConstraintsFit (length phrases.now) constraints.now }
    requires degrees { ConstraintsFit (length degrees.now) constraints.now }
    ensures { IfOk result (λ lines. string_bytes lines
        ≡ constraint_lines (map phrase_view phrases.now) degrees.now 0 constraints.now) }
{
    let mut lines = String::new(alloc);
    for (number, constraint) in constraints.iter().enumerate() {
        let line = numbered_line(alloc, phrases, degrees, number, *constraint)?;
        lines.push_str(&line)?;
    }
    Ok(lines)
}

/// How many chunks the quotient is cut into.
pub fn chunks_line(alloc: Global, chunks: u128) -> Result<String, AllocError>
    ensures { IfOk result (λ line. string_bytes line ≡ chunks_line chunks) }
{
    format!(in alloc; "quotient chunks: {chunks}\n")
}

/// How many alphas and, for any other alpha, how many zetas can be bad for a trace of `2 ^
/// log_height` rows that breaks a constraint.
pub fn bound_line(
    alloc: Global,
    log_height: usize,
    bound: Option<(usize, usize)>,
) -> Result<String, AllocError>
    ensures { IfOk result (λ line. string_bytes line ≡ bound_line log_height bound) }
{
    match bound {
        Some((alphas, zetas)) => format!(in alloc;
            "error bound at 2^{log_height} rows: {alphas} alpha, {zetas} zeta\n"
        ),
        None => format!(in alloc; "error bound at 2^{log_height} rows: none\n"),
    }
}
