//! Cases of proofs, and what is said of numbers in them.
use stark_test_cases::given_and_answer;
use std::alloc::Global;
use std::process::Abort;
use std::test::Fail;

/// Asserts that what was found of a proof is what a case says: `accepted` stands for a proof that
/// the verifier accepts.
fn assert_answered(rt: &impl Abort, input: &str, actual: &str, expected: &str) {
    if expected == "accepted" {
        assert!(rt; actual.ends_with(" Ok(())"), "{input}: {actual}");
    } else {
        assert_eq!(rt; actual, expected, "{input}");
    }
}

/// Asserts that each case of proofs behind a front that all have is answered as the case says.
pub fn proof_cases(
    rt: &impl Abort,
    alloc: Global,
    front: &str,
    cases: &str,
    answer: fn(Global, &str, &str) -> Result<String, Fail>,
) -> Result<(), Fail>
    requires { IsAlwaysCallable answer }
{
    for line in cases.lines() {
        if let Some((given, expected)) = given_and_answer(line)? {
            let input = format!(in alloc; "{front}{given}")?;
            let actual = answer(alloc, "provers", &input)?;
            assert_answered(rt, &input, &actual, expected);
        }
    }
    Ok(())
}

/// Asserts that each case of proofs is answered as it says over all three fields, which answer
/// alike.
pub fn agreeing_cases(
    rt: &impl Abort,
    alloc: Global,
    front: &str,
    cases: &str,
    one: fn(Global, &str, &str) -> Result<String, Fail>,
    four: fn(Global, &str, &str) -> Result<String, Fail>,
    eight: fn(Global, &str, &str) -> Result<String, Fail>,
) -> Result<(), Fail>
    requires one { IsAlwaysCallable one }
    requires four { IsAlwaysCallable four }
    requires eight { IsAlwaysCallable eight }
{
    for line in cases.lines() {
        if let Some((given, expected)) = given_and_answer(line)? {
            let input = format!(in alloc; "{front}{given}")?;
            let actual = one(alloc, "provers", &input)?;
            let others = [
                four(alloc, "provers", &input)?,
                eight(alloc, "provers", &input)?,
            ];
            for other in &others {
                assert_eq!(rt; other.as_str(), actual.as_str(), "{input}");
            }
            assert_answered(rt, &input, &actual, expected);
        }
    }
    Ok(())
}

/// A number; none where the text says so.
pub fn option_in(text: &str) -> Result<Option<usize>, Fail> {
    if text == "none" {
        Ok(None)
    } else {
        Ok(Some(text.parse::<usize>()?))
    }
}
