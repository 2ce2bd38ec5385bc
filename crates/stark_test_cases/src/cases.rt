//! Worked cases as text, one a line, what is given before ` => ` and the answer behind it. Lines
//! that begin with `#` say what the cases behind them are.
use std::alloc::Global;
use std::test::Fail;

/// What a case gives and the answer behind it; none of a line that is blank or says what the cases
/// behind it are.
pub fn given_and_answer(line: &str) -> Result<Option<(&str, &str)>, Fail> {
    if line.is_empty() || line.starts_with('#') {
        return Ok(None);
    }
    Ok(Some(line.split_once(" => ").ok_or("a case without an answer")?))
}

/// Of the first case that isn't answered as it says: what it gives, the answer and what it says.
/// None where each case is answered as it says.
pub fn wrong_case(
    alloc: Global,
    cases: &str,
    answer: fn(Global, &str) -> Result<String, Fail>,
) -> Result<Option<String>, Fail>
    requires { IsAlwaysCallable answer }
{
    for line in cases.lines() {
        if let Some((input, expected)) = given_and_answer(line)? {
            let actual = answer(alloc, input)?;
            if actual.as_str() != expected {
                return Ok(Some(format!(in alloc; "{input}: {actual}, and not {expected}")?));
            }
        }
    }
    Ok(None)
}

/// Ok where each case is answered as it says.
pub fn all_cases(
    alloc: Global,
    cases: &str,
    answer: fn(Global, &str) -> Result<String, Fail>,
) -> Result<(), Fail>
    requires { IsAlwaysCallable answer }
{
    match wrong_case(alloc, cases, answer)? {
        Some(wrong) => Err(Fail::new(wrong)),
        None => Ok(()),
    }
}

/// Ok where each case of a subject is answered as it says.
pub fn all_cases_of(
    alloc: Global,
    subject: &str,
    cases: &str,
    answer: fn(Global, &str, &str) -> Result<String, Fail>,
) -> Result<(), Fail>
    requires { IsAlwaysCallable answer }
{
    for line in cases.lines() {
        if let Some((input, expected)) = given_and_answer(line)? {
            let actual = answer(alloc, subject, input)?;
            if actual.as_str() != expected {
                return Err(Fail::new(format_args!(
                    "{subject}: {input}: {actual}, and not {expected}"
                )));
            }
        }
    }
    Ok(())
}
