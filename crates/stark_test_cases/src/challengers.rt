//! The challenger of a script.
use stark_bench::ScriptChallenger;
use std::test::Fail;

/// The challenger that hands out these elements, of which there has to be one.
pub fn script_of<F: Drop>(elements: Vec<F>) -> Result<ScriptChallenger<F>, Fail> {
    if elements.is_empty() {
        return Err(Fail::new("a script of no elements"));
    }
    Ok(ScriptChallenger::new(elements))
}
