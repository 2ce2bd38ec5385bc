use crate::check_cases::CHECK;
use crate::fault_cases::{WHOLE, WORDS};
use crate::faults::{Spoiled, all_spoiled, all_unknown, written_or_no_memory};
use crate::hostile_cases::{HOSTILE, LINES, REPLACED};
use crate::program::Program;
use crate::prove_cases::PROVE;
use crate::runs::{Outcome, all_cases, end_of, run_at_once, words_of};
use crate::table::{Case, bytes_of, cases_of};
use crate::verify_cases::VERIFY;
use stark_answers::RunEnd;
use std::alloc::{AllocError, Global};
use std::process::Abort;
use std::test::Fail;

const PROGRAM: Program = Program::StarkRun;

#[test]
fn check_cases(rt: HostRuntime) -> Result<(), Fail> {
    all_cases(&rt, rt.alloc(), PROGRAM, CHECK, 68)
}

#[test]
fn verify_cases(rt: HostRuntime) -> Result<(), Fail> {
    all_cases(&rt, rt.alloc(), PROGRAM, VERIFY, 46)
}

#[test]
fn hostile_cases(rt: HostRuntime) -> Result<(), Fail> {
    all_cases(&rt, rt.alloc(), PROGRAM, HOSTILE, 13)
}

#[test]
fn prove_cases(rt: HostRuntime) -> Result<(), Fail> {
    all_cases(&rt, rt.alloc(), PROGRAM, PROVE, 44)
}

#[test]
fn cut_anywhere(rt: HostRuntime) -> Result<(), Fail> {
    all_spoiled(
        &rt,
        rt.alloc(),
        PROGRAM,
        Spoiled::Cut,
        WHOLE,
        161 + 417 + 64,
    )
}

#[test]
fn failing_reads(rt: HostRuntime) -> Result<(), Fail> {
    all_spoiled(
        &rt,
        rt.alloc(),
        PROGRAM,
        Spoiled::Read,
        WHOLE,
        163 + 419 + 66,
    )
}

#[test]
fn failing_writes(rt: HostRuntime) -> Result<(), Fail> {
    all_spoiled(
        &rt,
        rt.alloc(),
        PROGRAM,
        Spoiled::Write,
        WHOLE,
        11 + 11 + 365,
    )
}

#[test]
fn words_are_compared_whole(rt: HostRuntime) -> Result<(), Fail> {
    all_unknown(&rt, rt.alloc(), PROGRAM, WORDS, 10)
}

#[test]
fn refused_growth(rt: HostRuntime) -> Result<(), Fail> {
    written_or_no_memory(
        &rt,
        rt.alloc(),
        PROGRAM,
        "check counter",
        "<check of counter>",
        b"accepted\n",
    )
}

/// Whether a run ended as one verdict does, and wrote its line.
fn is_a_verdict(outcome: &Outcome) -> bool {
    let Ok(text) = str::from_utf8(&outcome.lines) else {
        return false;
    };
    let Some(line) = text.strip_suffix('\n') else {
        return false;
    };
    !line.is_empty() && LINES.lines().any(|known| known == line) && end_of(line) == outcome.end
}

/// The honest input with the names of its members that are null made unreadable: another name says
/// the same.
fn marked(alloc: Global, honest: &str) -> Result<String, AllocError> {
    let text = honest.replace(alloc, "random", "??????")?;
    let text = text.replace(alloc, "preprocessed_local", "??????????????????")?;
    text.replace(alloc, "preprocessed_next", "?????????????????")
}

/// Asserts that a case's input with the byte at a place replaced by any of seven is answered by a
/// verdict, and accepted only where the byte is the honest one, or is in a name that may be
/// another.
fn replaced_at(
    rt: &impl Abort,
    alloc: Global,
    case: &Case,
    place: usize,
    may_differ: bool,
) -> Result<(), Fail> {
    let words = words_of(alloc, &case.commands)?;
    for byte in b"\"09-]} " {
        let mut input = bytes_of(alloc, &case.input)?;
        if let Some(slot) = input.get_mut(place) {
            *slot = *byte;
        }
        let outcome = run_at_once(alloc, case.program, &words, &input, Vec::new(alloc));
        assert!(rt; is_a_verdict(&outcome), "{place} {byte}");
        let is_another = may_differ && *byte != b'"';
        let is_same = input.as_slice() == case.input.as_bytes();
        assert_eq!(rt;
            outcome.end == RunEnd::Accepted,
            is_same || is_another,
            "{place} {byte}"
        );
    }
    Ok(())
}

#[test]
fn one_byte_replaced(rt: HostRuntime) -> Result<(), Fail> {
    let mut places = 0usize;
    for case in &cases_of(rt.alloc(), PROGRAM, REPLACED)? {
        let marked = marked(rt.alloc(), &case.input)?;
        for (place, mark) in marked.as_bytes().iter().enumerate() {
            replaced_at(&rt, rt.alloc(), case, place, *mark == b'?')?;
            places = places.saturating_add(1);
        }
    }
    assert_eq!(rt; places, 417);
    Ok(())
}
