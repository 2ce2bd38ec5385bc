//! Runs for a statement whose proof goes to an output of its own, and what is told of their stages.

ghost use Rattle.std.specs.Prelude.{◌≡◌, false};

use crate::program::{Program, both_inputs, verb_of};
use crate::runs::{end_of, words_of, written};
use crate::streams::FailingWriter;
use crate::table::{Case, bytes_of, cases_of};
use stark_answers::RunEnd;
use stark_cli::statements::{Delivered, run, run_to};
use stark_cli::{StageLines, WatchedWriter};
use stark_service::{NamedFields, Progress, Silent};
use std::alloc::Global;
use std::process::Abort;
use std::test::Fail;

/// How a run ended, and what its output and its writer hold.
#[derive(Drop)]
struct Delivery {
    ended: Delivered,
    output: Vec<u8>,
    lines: Vec<u8>,
}

/// A writer of one byte at a time, which fails behind so many.
fn failing(alloc: Global, writes: usize) -> WatchedWriter<FailingWriter>
    ensures { result.failed ≡ false }
{
    WatchedWriter::new(FailingWriter {
        bytes: Vec::new(alloc),
        writes,
        full: false,
        interrupted: false,
    })
}

/// The run of a case, whose output and writer take so many bytes each.
fn deliver(
    alloc: Global,
    case: &Case,
    writes: usize,
    progress: &mut impl Progress,
) -> Result<Delivery, Fail> {
    let words = words_of(alloc, &case.commands)?;
    let verb = verb_of(&words).ok_or("no verb")?;
    let input = bytes_of(alloc, &case.input)?;
    let (mut statement, mut second) = both_inputs(&input);
    let mut output = failing(alloc, writes);
    let mut writer = failing(alloc, writes);
    let ended = run_to::<NamedFields, _, _, _, _, _>(
        alloc,
        verb,
        &mut statement,
        &mut second,
        &mut output,
        &mut writer,
        progress,
    );
    Ok(Delivery {
        ended,
        output: output.into_inner().bytes,
        lines: writer.into_inner().bytes,
    })
}

/// Asserts that a case's run says what the case asks for, or the front of it that its output and
/// its writer take, byte by byte: of a proof the output has it, and the writer nothing, and of
/// anything else the writer, and the output nothing. Answers how many runs that took.
fn taken_at_each_write(rt: &impl Abort, alloc: Global, case: &Case) -> Result<usize, Fail> {
    let lines = written(alloc, case)?;
    let is_proof = case.lines.starts_with('{');
    for writes in 0..lines.len() + 1 {
        let what = format!(in alloc; "{writes} writes: {}", case.written)?;
        let outcome = deliver(alloc, case, writes, &mut Silent)?;
        let end = if writes < lines.len() {
            RunEnd::OutputFailed
        } else {
            end_of(&case.lines)
        };
        let (has_it, has_nothing) = if is_proof {
            (&outcome.output, &outcome.lines)
        } else {
            (&outcome.lines, &outcome.output)
        };
        assert_eq!(rt; outcome.ended.is_proof, is_proof, "{what}");
        assert_eq!(rt; outcome.ended.ended.end, end, "{what}");
        assert_eq!(rt; has_it.as_slice(), &lines[..writes], "{what}");
        assert!(rt; has_nothing.is_empty(), "{what}");
    }
    Ok(lines.len() + 1)
}

/// What is told of the stages of a case's run that writes all to one writer.
fn stages_of(alloc: Global, case: &Case) -> Result<Vec<u8>, Fail> {
    let words = words_of(alloc, &case.commands)?;
    let verb = verb_of(&words).ok_or("no verb")?;
    let input = bytes_of(alloc, &case.input)?;
    let (mut statement, mut second) = both_inputs(&input);
    let mut stages = StageLines::new(Vec::new(alloc));
    let _ended = run::<NamedFields, _, _, _, _>(
        alloc,
        verb,
        &mut statement,
        &mut second,
        &mut failing(alloc, usize::MAX),
        &mut stages,
    );
    Ok(stages.into_inner())
}

/// Asserts that of a case's run the stages are told that it asks for, with an output and without
/// one.
fn assert_staged(rt: &impl Abort, alloc: Global, case: &Case) -> Result<(), Fail> {
    let wanted = written(alloc, case)?;
    let mut stages = Some(StageLines::new(Vec::new(alloc)));
    let _delivery = deliver(alloc, case, usize::MAX, &mut stages)?;
    let notices = stages
        .map(|lines| lines.into_inner())
        .unwrap_or(Vec::new(alloc));
    let what = &case.written;
    assert_eq!(rt; notices.as_slice(), wanted.as_slice(), "{what}");
    assert_eq!(rt;
        stages_of(alloc, case)?.as_slice(),
        wanted.as_slice(),
        "{what}"
    );
    Ok(())
}

/// What is asserted of a table's runs.
#[derive(Clone, Copy)]
pub(crate) enum Asserted {
    /// What each leaves in its output and its writer, wherever these fail.
    Delivery,
    /// That of each the stages are told that its case asks for.
    Stages,
}

/// Asserts what is told of each of a table's runs, and that there are so many.
pub(crate) fn all_runs(
    rt: &impl Abort,
    alloc: Global,
    stage: Asserted,
    table: &str,
    count: usize,
) -> Result<(), Fail> {
    let mut runs = 0usize;
    for case in &cases_of(alloc, Program::Voskligan, table)? {
        let more = match stage {
            Asserted::Delivery => taken_at_each_write(rt, alloc, case)?,
            Asserted::Stages => {
                assert_staged(rt, alloc, case)?;
                1
            }
        };
        runs = runs.saturating_add(more);
    }
    assert_eq!(rt; runs, count);
    Ok(())
}
