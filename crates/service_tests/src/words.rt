//! What is said of a scheme's faults.
use stark_clear::ClearError;
use stark_fri::{FriError, QueryFault};
use stark_service::SchemeWords;
use std::alloc::AllocError;
use std::process::Abort;
use std::test::Fail;

/// A fault of query 3.
fn of_query(fault: QueryFault) -> FriError {
    FriError::Query { query: 3, fault }
}

/// Asserts that a fault has these words.
fn says(
    rt: &impl Abort,
    words: Result<String, AllocError>,
    expected: &str,
) -> Result<(), AllocError> {
    assert_eq!(rt; words?.as_str(), expected);
    Ok(())
}

#[test]
fn faults_of_schemes_in_words(rt: HostRuntime) -> Result<(), Fail> {
    let alloc = rt.alloc();
    let shape = "query 3 opens another number of rounds, folds or values";
    says(&rt, of_query(QueryFault::Shape).words(alloc), shape)?;
    let input = "query 3, round 1: the path doesn't lead to the root";
    let fault = of_query(QueryFault::Input { round: 1 });
    says(&rt, fault.words(alloc), input)?;
    let layer = "query 3, fold 2: the path doesn't lead to the root";
    let fault = of_query(QueryFault::Layer { layer: 2 });
    says(&rt, fault.words(alloc), layer)?;
    let last = "query 3: the folds don't lead to the final polynomial";
    says(&rt, of_query(QueryFault::Final).words(alloc), last)?;
    let count = "another number of queries";
    says(&rt, FriError::Queries.words(alloc), count)?;
    let witness = "the queries' witness doesn't pass";
    says(&rt, FriError::QueryWork.words(alloc), witness)?;
    let fold = "fold 4: the witness doesn't pass";
    says(&rt, FriError::CommitWork { phase: 4 }.words(alloc), fold)?;
    let value = "round 2: a claimed value isn't the column's";
    says(&rt, ClearError::Value { round: 2 }.words(alloc), value)?;
    Ok(())
}
