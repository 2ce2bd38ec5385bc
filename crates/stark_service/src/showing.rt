//! A statement, for a person.

ghost use Rattle.std.specs.Prelude.{◌≡◌, IfOk, string_bytes};
ghost use Rattle.stark_statement.specs.Configuration.{scheme_numbers};
ghost use Rattle.stark_statement.specs.StatementApart.{data_of};
ghost use Rattle.stark_statement.specs.StatementJson.{statement_reading};
ghost use Rattle.stark_statement.specs.StatementView.{statement_view};
ghost use Rattle.stark_service.specs.Schemes.{HasRoomFor};
ghost use Rattle.stark_service.specs.Showing.{IsOfShowing, IsShownOf, IsShownOfRead, ShowsAir, greatest_height};
ghost use Rattle.stark_service.specs.TraceChecks.{OrLacksMemory};

use crate::counted::{CountedField, Numbered};
use crate::description::described;
use crate::reading::read_statement;
use crate::security::{challenges_line, security_line};
use stark_answers::{Finding, Report};
use stark_json::Document;
use stark_show::shown;
use stark_statement::{SchemeChoice, Statement};
use stark_support::{ExtensionField, JsonCodec, TwoAdicField};
use std::alloc::{AllocError, Global};

/// The logarithm of the greatest height of a trace under a scheme over a field.
pub(crate) fn greatest_height<F: TwoAdicField>(scheme: SchemeChoice) -> usize
    requires { HasRoomFor F.TWO_ADICITY scheme }
    ensures { result ≡ greatest_height F.TWO_ADICITY (scheme_numbers scheme) }
{
    match scheme {
        SchemeChoice::Fri(parameters) => F::TWO_ADICITY - parameters.log_blowup(),
        SchemeChoice::Clear => F::TWO_ADICITY,
    }
}

/// A statement as text: its AIR, with the error bound at the greatest height; how many values the
/// challenges have; what its proofs are worth; and what it fixes beside its AIR.
fn text_of<F: CountedField + TwoAdicField, EF: ExtensionField<F>>(
    alloc: Global,
    scheme: SchemeChoice,
    statement: &Statement<F>,
) -> Result<String, AllocError>
    requires { HasRoomFor F.TWO_ADICITY scheme }
    ensures { IfOk result (λ text. ShowsAir ⟦<EF as Numbered<F>>⟧.fields
        (scheme_numbers scheme) (statement_view statement.now) (string_bytes text)) }
{
    let greatest = greatest_height::<F>(scheme);
    let challenges = challenges_line(alloc, F::order(), EF::DIMENSION)?;
    let security = security_line::<F, EF>(alloc, scheme, statement, greatest)?;
    let described = described(alloc, scheme, statement)?;
    let mut text = shown::<F, EF>(alloc, &statement.air, greatest)?;
    text.push_str(&challenges)?;
    text.push_str(&security)?;
    text.push_str(&described)?;
    Ok(text)
}

/// What is shown of a statement that was read.
fn showing_of<F: CountedField + TwoAdicField, EF: ExtensionField<F>>(
    alloc: Global,
    scheme: SchemeChoice,
    statement: &Statement<F>,
) -> Report<Finding>
    requires { HasRoomFor F.TWO_ADICITY scheme }
    ensures shown { OrLacksMemory (IsShownOf ⟦<EF as Numbered<F>>⟧.fields
        (scheme_numbers scheme) (statement_view statement.now)) result.answer }
    ensures kind { IsOfShowing result.answer }
{
    match text_of::<F, EF>(alloc, scheme, statement) {
        Ok(text) => Report {
            answer: Finding::Text(text),
            reason: None,
        },
        Err(AllocError) => Report::out_of_memory().as_finding(),
    }
}

/// What is shown of a statement over a field. Its JSON is dropped once it is read, before the
/// text is made, which may be far longer.
pub(crate) fn show_over<F, EF>(
    alloc: Global,
    scheme: SchemeChoice,
    value: Document,
) -> Report<Finding>
where
    F: CountedField + TwoAdicField + JsonCodec,
    EF: ExtensionField<F>,
    requires { HasRoomFor F.TWO_ADICITY scheme }
    ensures shown { OrLacksMemory (IsShownOfRead ⟦<EF as Numbered<F>>⟧.fields
        (scheme_numbers scheme) (statement_reading F.reading (data_of value)))
        result.answer }
    ensures kind { IsOfShowing result.answer }
{
    let read = read_statement::<F>(alloc, &value);
    drop(value);
    match read {
        Ok(statement) => showing_of::<F, EF>(alloc, scheme, &statement),
        Err(report) => report.as_finding(),
    }
}
