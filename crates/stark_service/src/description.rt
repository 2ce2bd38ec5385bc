//! What a statement fixes beside its AIR, in lines for a person: the configuration, the height, the
//! work before the challenges, the public values.

ghost use Rattle.std.specs.Prelude.{◌≡◌, ◌++◌, IfOk, flat_map, string_bytes};
ghost use Rattle.stark_statement.specs.Configuration.{fri_numbers, scheme_numbers};
ghost use Rattle.stark_statement.specs.StatementView.{statement_view};
ghost use Rattle.stark_service.specs.Description.{constraints_line, described, field_name, fri_text, height_line, scheme_text, value_text, values_line, work_line};

use stark_fri_proof::FriParameters;
use stark_statement::{FieldName, SchemeChoice, Statement};
use stark_support::PrimeField64;
use stark_tree_air::TreeConstraint;
use std::alloc::{AllocError, Global};

/// How many public values are shown.
const SHOWN_VALUES: usize = 20;

/// A field's name, as a statement's JSON has it.
fn field_name(field: FieldName) -> &'static str
    ensures { result.now ≡ field_name field }
{
    match field {
        FieldName::BabyBear => "baby_bear",
        FieldName::KoalaBear => "koala_bear",
        FieldName::F12289 => "f12289",
    }
}

/// FRI with its numbers, by the names that a statement's JSON has for them.
fn fri_text(alloc: Global, parameters: &FriParameters) -> Result<String, AllocError>
    ensures { IfOk result (λ text. string_bytes text ≡ fri_text (fri_numbers parameters.now)) }
{
    let (blowup, final_len) = (parameters.log_blowup(), parameters.log_final_poly_len());
    let queries = parameters.num_queries();
    let commit = parameters.commit_proof_of_work_bits();
    let query = parameters.query_proof_of_work_bits();
    format!(in alloc;
        "fri, log_blowup {blowup}, log_final_poly_len {final_len}, num_queries {queries}, commit_proof_of_work_bits {commit}, query_proof_of_work_bits {query}"
    )
}

/// A scheme with its numbers.
fn scheme_text(alloc: Global, scheme: SchemeChoice) -> Result<String, AllocError>
    ensures { IfOk result (λ text. string_bytes text ≡ scheme_text (scheme_numbers scheme)) }
{
    match scheme {
        SchemeChoice::Fri(parameters) => fri_text(alloc, &parameters),
        SchemeChoice::Clear => format!(in alloc; "in the clear"),
    }
}

/// The line of the height: the one that is fixed, or that the prover chooses one.
fn height_line(alloc: Global, fixed: Option<usize>) -> Result<String, AllocError>
    ensures { IfOk result (λ line. string_bytes line ≡ height_line fixed) }
{
    match fixed {
        Some(log_height) => format!(in alloc; "height: 2^{log_height} rows, fixed\n"),
        None => format!(in alloc; "height: the prover's choice\n"),
    }
}

/// The line of the work that is asked for before the challenges.
fn work_line(alloc: Global, alpha_bits: usize, ood_bits: usize) -> Result<String, AllocError>
    ensures { IfOk result (λ line. string_bytes line ≡ work_line alpha_bits ood_bits) }
{
    format!(in alloc; "work: {alpha_bits} bits before alpha, {ood_bits} before zeta\n")
}

/// Values by their numbers, each after a blank.
fn shown_values<F: PrimeField64>(alloc: Global, values: &[F]) -> Result<String, AllocError>
    ensures { IfOk result (λ text. string_bytes text
        ≡ flat_map (value_text F.number_of) values.now) }
{
    let mut text = String::new(alloc);
    for value in values {
        let number = value.as_canonical_u64();
        let word = format!(in alloc; " {number}")?;
        text.push_str(&word)?;
    }
    Ok(text)
}

/// The line of the public values: how many there are, and the first twenty.
fn values_line<F: PrimeField64>(alloc: Global, values: &[F]) -> Result<String, AllocError>
    ensures { IfOk result (λ line. string_bytes line ≡ values_line F.number_of values.now) }
{
    let count = values.len();
    if count > SHOWN_VALUES {
        let shown = shown_values(alloc, &values[..SHOWN_VALUES])?;
        format!(in alloc; "public values ({count}, the first 20):{shown}\n")
    } else {
        let shown = shown_values(alloc, values)?;
        format!(in alloc; "public values ({count}):{shown}\n")
    }
}

/// That an AIR has no constraints, where it has none.
fn constraints_line(count: usize) -> &'static str
    ensures { result.now ≡ constraints_line count }
{
    if count == 0 {
        "no constraints: each trace of the AIR's shape satisfies it\n"
    } else {
        ""
    }
}

/// What a statement fixes beside its AIR, in lines.
pub(crate) fn described<F: PrimeField64>(
    alloc: Global,
    scheme: SchemeChoice,
    statement: &Statement<F>,
) -> Result<String, AllocError>
    ensures { IfOk result (λ text. string_bytes text
        ≡ described F.number_of (scheme_numbers scheme) (statement_view statement.now)) }
{
    let field = field_name(statement.config.field);
    let scheme = scheme_text(alloc, scheme)?;
    let height = height_line(alloc, statement.log_height)?;
    let work = work_line(alloc, statement.alpha_bits, statement.ood_bits)?;
    let values = values_line(alloc, &statement.public_values)?;
    let constraints: &[TreeConstraint] = &statement.air.list.constraints;
    let none = constraints_line(constraints.len());
    format!(in alloc; "configuration: {field}, {scheme}\n{height}{work}{values}{none}")
}
