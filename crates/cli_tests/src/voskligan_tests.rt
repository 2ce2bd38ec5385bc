use crate::delivery::{Asserted, all_runs};
use crate::faults::{Spoiled, all_spoiled, written_or_no_memory};
use crate::program::Program;
use crate::runs::{all_cases, words_of};
use crate::table::is_case;
use crate::voskligan_cases::{
    BAD, CHECKED, DEAR, DELIVERED, EXAMPLES, HUGE, LARGE, SHOWN, STAGES, WHOLE, WORDS,
};
use stark_answers::{ProofForm, TraceTask};
use stark_bench::{F12289, Sha256Challenger};
use stark_cli::statements::Verb;
use stark_cli::{InputWord, Request, Task, misuse_of, request_of};
use stark_statement::Statement;
use stark_support::{CanSample, PrimeField64};
use std::alloc::{AllocError, Global};
use std::test::Fail;

const PROGRAM: Program = Program::Voskligan;

#[test]
fn examples(rt: HostRuntime) -> Result<(), Fail> {
    all_cases(&rt, rt.alloc(), PROGRAM, EXAMPLES, 69)
}

#[test]
fn checked_traces(rt: HostRuntime) -> Result<(), Fail> {
    all_cases(&rt, rt.alloc(), PROGRAM, CHECKED, 53)
}

#[test]
fn shown_airs(rt: HostRuntime) -> Result<(), Fail> {
    all_cases(&rt, rt.alloc(), PROGRAM, SHOWN, 18)
}

#[test]
fn bad_inputs(rt: HostRuntime) -> Result<(), Fail> {
    all_cases(&rt, rt.alloc(), PROGRAM, BAD, 59)
}

#[test]
fn large_airs(rt: HostRuntime) -> Result<(), Fail> {
    all_cases(&rt, rt.alloc(), PROGRAM, LARGE, 18)
}

#[test]
fn dear_inputs(rt: HostRuntime) -> Result<(), Fail> {
    all_cases(&rt, rt.alloc(), PROGRAM, DEAR, 7)
}

#[test]
fn huge_expressions(rt: HostRuntime) -> Result<(), Fail> {
    all_cases(&rt, rt.alloc(), PROGRAM, HUGE, 8)
}

#[test]
fn cut_anywhere(rt: HostRuntime) -> Result<(), Fail> {
    all_spoiled(
        &rt,
        rt.alloc(),
        PROGRAM,
        Spoiled::Cut,
        WHOLE,
        736 + 330 + 340,
    )
}

#[test]
fn failing_reads(rt: HostRuntime) -> Result<(), Fail> {
    all_spoiled(
        &rt,
        rt.alloc(),
        PROGRAM,
        Spoiled::Read,
        WHOLE,
        738 + 333 + 342,
    )
}

#[test]
fn failing_writes(rt: HostRuntime) -> Result<(), Fail> {
    all_spoiled(
        &rt,
        rt.alloc(),
        PROGRAM,
        Spoiled::Write,
        WHOLE,
        11 + 633 + 12,
    )
}

#[test]
fn proofs_to_an_output(rt: HostRuntime) -> Result<(), Fail> {
    all_runs(&rt, rt.alloc(), Asserted::Delivery, DELIVERED, 1489)
}

#[test]
fn stages_are_stated(rt: HostRuntime) -> Result<(), Fail> {
    all_runs(&rt, rt.alloc(), Asserted::Stages, STAGES, 7)
}

/// What a word names, in words.
fn input_text(alloc: Global, input: InputWord<'_>) -> Result<String, AllocError> {
    match input {
        InputWord::Nothing => String::from_str(alloc, "nothing"),
        InputWord::Standard => String::from_str(alloc, "standard"),
        InputWord::File(path) => format!(in alloc; "file {path}"),
    }
}

/// What a verb is, in words.
fn verb_text(alloc: Global, verb: Verb) -> Result<String, AllocError> {
    let text = match verb {
        Verb::Verify => "verify",
        Verb::VerifyAtLeast(floor) => return format!(in alloc; "verify at least {floor}"),
        Verb::Trace(TraceTask::Check) => "check",
        Verb::Trace(TraceTask::Prove(ProofForm::Json)) => "prove",
        Verb::Trace(TraceTask::Prove(ProofForm::Bytes)) => "prove binary",
        Verb::Trace(TraceTask::ProveUnchecked(ProofForm::Json)) => "prove unchecked",
        Verb::Trace(TraceTask::ProveUnchecked(ProofForm::Bytes)) => "prove unchecked binary",
        Verb::Show => "show",
    };
    String::from_str(alloc, text)
}

/// What a task is, in words.
fn task_text(alloc: Global, task: Task<'_>) -> Result<String, AllocError> {
    let verb = verb_text(alloc, task.verb)?;
    let statement = input_text(alloc, task.statement)?;
    let second = input_text(alloc, task.second)?;
    let mut text = format!(in alloc; "{verb}, {statement}, {second}")?;
    if let Some(path) = task.output {
        text.push_str(", output ")?;
        text.push_str(path)?;
    }
    if task.quiet {
        text.push_str(", quiet")?;
    }
    Ok(text)
}

/// What words ask for, or what is wrong with them, in words.
fn request_text(alloc: Global, words: &[String]) -> Result<String, AllocError> {
    match request_of(words) {
        Request::Help => String::from_str(alloc, "help"),
        Request::Version => String::from_str(alloc, "version"),
        Request::Unknown => format!(in alloc; "{}", misuse_of(words)),
        Request::Run(task) => task_text(alloc, task),
    }
}

#[test]
fn words_are_compared_whole(rt: HostRuntime) -> Result<(), Fail> {
    let alloc = rt.alloc();
    let mut lines = 0usize;
    for line in WORDS.lines().filter(|line| is_case(line)) {
        let (given, asked) = line.split_once(" = ").ok_or("words without an answer")?;
        let words = words_of(alloc, given)?;
        let actual = request_text(alloc, &words)?;
        assert_eq!(rt; actual.as_str(), asked, "{line}");
        lines = lines.saturating_add(1);
    }
    assert_eq!(rt; lines, 138);
    Ok(())
}

// What is shown of the AIR that asserts nothing.
const SMALL: &[u8] = b"\
columns: 0 main, 0 public, 0 periodic, 0 preprocessed
quotient chunks: 1
error bound at 2^12 rows: 0 alpha, 8191 zeta
challenges: alpha and zeta, each of 12289^4 values; the error bound is proved, that SHA-256 draws at random is not
proved: 41 bits at 2^12 rows (by count; SHA-256 as a random oracle)
conjectured: nothing; in the clear the proof lists its columns
configuration: f12289, in the clear
height: the prover's choice
work: 0 bits before alpha, 0 before zeta
public values (0):
no constraints: each trace of the AIR's shape satisfies it
";

#[test]
fn refused_growth(rt: HostRuntime) -> Result<(), Fail> {
    written_or_no_memory(&rt, rt.alloc(), PROGRAM, "show", "<small>", SMALL)
}

/// The first element that a challenger draws which has observed a statement.
fn first_draw(alloc: Global, text: &[u8]) -> Result<u64, Fail> {
    let statement = Statement::<F12289>::from_slice(alloc, text)?;
    let mut challenger: Sha256Challenger<F12289> = Sha256Challenger::new();
    statement.bind(alloc, &mut challenger)?;
    let drawn: F12289 = challenger.sample();
    Ok(drawn.as_canonical_u64())
}

const COUNTER: &[u8] =
    b"{\"air\":{\"width\":1,\"publics\":1,\"periodic\":[],\"preprocessed\":null,\"constants\":[1],\"nodes\":[[\"main\",0],[\"first\"],[\"public\",0],[\"sub\",0,2],[\"mul\",1,3],[\"transition\"],[\"next\",0],[\"sub\",6,0],[\"constant\",0],[\"sub\",7,8],[\"mul\",5,9]],\"constraints\":[{\"base\":4},{\"base\":10}]},\"public_values\":[5]}";

const MORE_QUERIES: &[u8] =
    b"{\"config\":{\"num_queries\":121},\"air\":{\"width\":1,\"publics\":1,\"periodic\":[],\"preprocessed\":null,\"constants\":[1],\"nodes\":[[\"main\",0],[\"first\"],[\"public\",0],[\"sub\",0,2],[\"mul\",1,3],[\"transition\"],[\"next\",0],[\"sub\",6,0],[\"constant\",0],[\"sub\",7,8],[\"mul\",5,9]],\"constraints\":[{\"base\":4},{\"base\":10}]},\"public_values\":[5]}";

const BY_TWOS: &[u8] =
    b"{\"air\":{\"width\":1,\"publics\":1,\"periodic\":[],\"preprocessed\":null,\"constants\":[2],\"nodes\":[[\"main\",0],[\"first\"],[\"public\",0],[\"sub\",0,2],[\"mul\",1,3],[\"transition\"],[\"next\",0],[\"sub\",6,0],[\"constant\",0],[\"sub\",7,8],[\"mul\",5,9]],\"constraints\":[{\"base\":4},{\"base\":10}]},\"public_values\":[5]}";

// Two AIRs of one shape, whose constants alone differ, and a statement that asks for a query more.
// The numbers are those of a model in Python.
#[test]
fn another_statement_draws_otherwise(rt: HostRuntime) -> Result<(), Fail> {
    assert_eq!(rt; first_draw(rt.alloc(), COUNTER)?, 9131);
    assert_eq!(rt; first_draw(rt.alloc(), BY_TWOS)?, 9638);
    assert_eq!(rt; first_draw(rt.alloc(), MORE_QUERIES)?, 1549);
    Ok(())
}
