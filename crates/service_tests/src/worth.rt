//! What proofs are worth, by a model in Python; and a floor.
use stark_answers::Verdict;
use stark_service::{
    FloorVerdict, SecurityBits, SecurityError, statement_security, verify_at_least,
};
use std::test::Fail;

// A column that begins at 5 and goes up by one: by default, by set and in the clear.
const COUNTER: &str =
    r#"{"air":{"width":1,"publics":1,"periodic":[],"preprocessed":null,"constants":[1],"nodes":[["main",0],["first"],["public",0],["sub",0,2],["mul",1,3],["transition"],["next",0],["sub",6,0],["constant",0],["sub",7,8],["mul",5,9]],"constraints":[{"base":4},{"base":10}]},"public_values":[5]}"#;

const FAST: &str =
    r#"{"config":"fast","air":{"width":1,"publics":1,"periodic":[],"preprocessed":null,"constants":[1],"nodes":[["main",0],["first"],["public",0],["sub",0,2],["mul",1,3],["transition"],["next",0],["sub",6,0],["constant",0],["sub",7,8],["mul",5,9]],"constraints":[{"base":4},{"base":10}]},"public_values":[5]}"#;

const CLEAR: &str =
    r#"{"config":{"field":"f12289","scheme":"clear"},"air":{"width":1,"publics":1,"periodic":[],"preprocessed":null,"constants":[1],"nodes":[["main",0],["first"],["public",0],["sub",0,2],["mul",1,3],["transition"],["next",0],["sub",6,0],["constant",0],["sub",7,8],["mul",5,9]],"constraints":[{"base":4},{"base":10}]},"public_values":[5]}"#;

// The fourth power of a column is zero, by parameters for the third.
const STEEP: &str =
    r#"{"config":"fast","air":{"width":1,"publics":0,"periodic":[],"constants":[],"nodes":[["main",0],["mul",0,0],["mul",1,1]],"constraints":[{"base":2}]},"public_values":[]}"#;

// Of the trace 5, 6 in the clear, by a model in Python.
const PROOF: &str =
    r#"{"commitments":{"quotient_chunks":[[[4730,0],[8858,0],[10735,0],[3816,0]]],"random":null,"trace":[[[6150,6144]]]},"degree_bits":1,"ood_pow_witness":0,"opened_values":{"preprocessed_local":null,"preprocessed_next":null,"quotient_chunks":[[[4730,0,0,0],[8858,0,0,0],[10735,0,0,0],[3816,0,0,0]]],"random":null,"trace_local":[[6349,10188,7775,906]],"trace_next":[[5951,2101,4514,11383]]},"opening_proof":null}"#;

/// Bits by FRI.
fn by_fri(proved: usize, conjectured: usize) -> Result<SecurityBits, SecurityError> {
    Ok(SecurityBits {
        proved,
        conjectured: Some(conjectured),
    })
}

#[test]
fn bits_of_statements(rt: HostRuntime) -> Result<(), Fail> {
    let alloc = rt.alloc();
    let listed = SecurityBits {
        proved: 40,
        conjectured: None,
    };
    let cases = [
        (COUNTER, 0, by_fri(97, 117)),
        (COUNTER, 16, by_fri(97, 101)),
        (COUNTER, 25, by_fri(92, 92)),
        (COUNTER, 26, Err(SecurityError::TooHigh)),
        (FAST, 16, by_fri(51, 100)),
        (FAST, 26, by_fri(51, 92)),
        (CLEAR, 12, Ok(listed)),
        (CLEAR, 13, Err(SecurityError::TooHigh)),
        (STEEP, 4, Err(SecurityError::NotStated)),
        (PROOF, 4, Err(SecurityError::Statement(Verdict::BadInput))),
        ("{", 4, Err(SecurityError::Statement(Verdict::BadInput))),
    ];
    for (statement, log_height, bits) in &cases {
        let answer = statement_security(alloc, statement.as_bytes(), *log_height);
        assert_eq!(rt; answer, *bits);
    }
    Ok(())
}

#[test]
fn verdicts_over_a_floor(rt: HostRuntime) -> Result<(), Fail> {
    let alloc = rt.alloc();
    let below = FloorVerdict::NotJudged { proved: 51 };
    let cases = [
        (CLEAR, PROOF, 51, FloorVerdict::Judged(Verdict::Accepted)),
        (CLEAR, PROOF, 52, below),
        (CLEAR, "{}", 52, FloorVerdict::Judged(Verdict::BadInput)),
        ("{}", PROOF, 52, FloorVerdict::Judged(Verdict::BadInput)),
    ];
    for (statement, proof, floor, wanted) in &cases {
        let report = verify_at_least(alloc, *floor, statement.as_bytes(), proof.as_bytes());
        assert_eq!(rt; report.answer, *wanted);
    }
    let line = below.line(alloc)?;
    let said = "not judged: worth 51 proved bits at this height\n";
    assert_eq!(rt; line.as_str(), said);
    assert_eq!(rt; below.end().status(), 4);
    let accepted = FloorVerdict::Judged(Verdict::Accepted);
    assert_eq!(rt; accepted.line(alloc)?.as_str(), "accepted\n");
    assert_eq!(rt; accepted.end().status(), 0);
    Ok(())
}
