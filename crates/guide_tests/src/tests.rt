//! Each piece of the documents' code, run once.
ghost use Rattle.std.specs.Prelude.{◌≡◌, IfOk, length};

use crate::accepted::is_accepted;
use crate::counted::{Config, configuration, counted};
use crate::counting::count;
use crate::doubling::DoublingAir;
use crate::expressions::counter;
use crate::places::ones;
use crate::sound;
use crate::text::air_of;
use p3_uni_stark::{StarkProof, prove, verify};
use stark_air::{Air, BaseAir};
use stark_answers::{ProofForm, TraceTask};
use stark_bench::F12289;
use stark_samples::CounterAir;
use stark_service::answer_trace;
use stark_support::{PrimeField64, RowMajorMatrix};
use stark_tree_air::TreeAir;
use std::alloc::{AllocError, Global};
use std::test::Fail;

// A column that begins at 5 and goes up by one, and four rows of it; then rows that don't.
const STATEMENT: &str =
    r#"{"air":{"width":1,"publics":1,"periodic":[],"constants":[1],"nodes":[["main",0],["first"],["public",0],["sub",0,2],["mul",1,3],["transition"],["next",0],["sub",6,0],["constant",0],["sub",7,8],["mul",5,9]],"constraints":[{"base":4},{"base":10}]},"public_values":[5]}"#;

const TRACE: &str = "[[5],[6],[7],[8]]";

const FALSE_TRACE: &str = "[[5],[6],[7],[9]]";

// What the AIRs of the guide are as JSON, written by hand.
const COUNTER: &str =
    r#"{"constants":[1],"constraints":[{"base":4},{"base":11}],"nodes":[["first"],["main",0],["public",0],["sub",1,2],["mul",0,3],["transition"],["next",0],["main",0],["sub",6,7],["constant",0],["sub",8,9],["mul",5,10]],"periodic":[],"preprocessed":null,"publics":1,"width":1}"#;

const ONES: &str =
    r#"{"constants":[1],"constraints":[{"base":2}],"nodes":[["main",0],["constant",0],["sub",0,1]],"periodic":[],"preprocessed":null,"publics":0,"width":1}"#;

/// Whether both calls of the guide accept the proof of a trace: of the one without a clause, and of
/// the one with it.
fn answers_of(alloc: Global, trace: &str) -> Result<(bool, bool), Fail> {
    let statement = STATEMENT.as_bytes();
    let asked = TraceTask::ProveUnchecked(ProofForm::Json);
    let report = answer_trace(alloc, asked, statement, trace.as_bytes());
    let proof = report.answer.written();
    let accepted = is_accepted(alloc, statement, proof);
    Ok((accepted, sound::is_accepted(alloc, statement, proof)))
}

#[test]
fn one_call(rt: HostRuntime) -> Result<(), Fail> {
    let alloc = rt.alloc();
    assert_eq!(rt; answers_of(alloc, TRACE)?, (true, true));
    assert_eq!(rt; answers_of(alloc, FALSE_TRACE)?, (false, false));
    Ok(())
}

/// The proof of four rows of a column, for an AIR of one column and one public value, which is 5.
fn proof_of<A: Air<F12289>>(
    alloc: Global,
    air: &A,
    rows: Vec<F12289>,
) -> Result<StarkProof<Config>, Fail>
    requires rows { length rows.items ≡ 4 }
    requires columns { (A.layout air.now).main ≡ 1 }
    requires public_values { (A.layout air.now).public_values ≡ 1 }
    requires none { (A.layout air.now).preprocessed ≡ 0 }
{
    let trace = RowMajorMatrix::new(rows, 1);
    match prove(alloc, &configuration(), air, trace, &[F12289::from_u8(5)]) {
        Ok(proof) => Ok(proof),
        Err(_) => Err(Fail::new("no proof")),
    }
}

/// Four elements.
fn four(alloc: Global, numbers: [u8; 4]) -> Result<Vec<F12289>, Fail>
    ensures { IfOk result (λ rows. length rows.items ≡ 4) }
{
    let [a, b, c, d] = numbers;
    let elements = [
        F12289::from_u8(a),
        F12289::from_u8(b),
        F12289::from_u8(c),
        F12289::from_u8(d),
    ];
    Ok(Vec::from_slice(alloc, &elements)?)
}

/// Whether the text of a proof of four rows proves that the counter counted from 5.
fn is_counted(alloc: Global, numbers: [u8; 4]) -> Result<bool, Fail> {
    let proof = proof_of(alloc, &CounterAir, four(alloc, numbers)?)?;
    let text = proof.to_json(alloc)?.to_string(alloc)?;
    Ok(counted(alloc, text.as_bytes(), F12289::from_u8(5))?)
}

#[test]
fn own_configuration(rt: HostRuntime) -> Result<(), Fail> {
    let alloc = rt.alloc();
    assert!(rt; is_counted(alloc, [5, 6, 7, 8])?);
    assert!(rt; !is_counted(alloc, [5, 6, 7, 9])?);
    assert!(rt; !counted(alloc, b"{}", F12289::from_u8(5))?);
    Ok(())
}

fn text_of(alloc: Global, air: &TreeAir<F12289>) -> Result<String, AllocError> {
    air.to_json(alloc)?.to_string(alloc)
}

#[test]
fn airs_as_data(rt: HostRuntime) -> Result<(), Fail> {
    let alloc = rt.alloc();
    let read = air_of(alloc, COUNTER.as_bytes()).ok_or("not read")?;
    assert_eq!(rt; text_of(alloc, &read)?.as_str(), COUNTER);
    assert_eq!(rt; text_of(alloc, &counter(alloc)?)?.as_str(), COUNTER);
    assert_eq!(rt; text_of(alloc, &ones(alloc)?)?.as_str(), ONES);
    assert!(rt; air_of(alloc, b"{}").is_none());
    Ok(())
}

/// Whether a proof of four rows is accepted as one of a column that doubles from 5 on.
fn is_doubled(alloc: Global, numbers: [u8; 4]) -> Result<bool, Fail> {
    let proof = proof_of(alloc, &DoublingAir, four(alloc, numbers)?)?;
    let public_values = [F12289::from_u8(5)];
    Ok(verify(
        alloc,
        &configuration(),
        &DoublingAir,
        &proof,
        &public_values,
    )
    .is_ok())
}

#[test]
fn air_as_code(rt: HostRuntime) -> Result<(), Fail> {
    let alloc = rt.alloc();
    assert!(rt; is_doubled(alloc, [5, 10, 20, 40])?);
    assert!(rt; !is_doubled(alloc, [5, 10, 20, 41])?);
    assert!(rt; !is_doubled(alloc, [6, 12, 24, 48])?);
    Ok(())
}

#[test]
fn honest_proof(rt: HostRuntime) -> Result<(), Fail> {
    match count(rt.alloc(), &configuration(), F12289::from_u8(5), 7) {
        Ok((_, verdict)) => assert!(rt; verdict.is_ok()),
        Err(_) => return Err(Fail::new("no proof")),
    }
    Ok(())
}
