//! What runs of `voskligan` say on standard error.
use crate::program::{Program, both_inputs, verb_of};
use crate::reason_cases::REASONS;
use crate::runs::words_of;
use crate::table::{Case, bytes_of, cases_of};
use stark_cli::WatchedWriter;
use stark_cli::statements::run;
use stark_service::{NamedFields, Silent};
use std::alloc::Global;
use std::test::Fail;

/// The reason that a case's run tells, as bytes.
fn reason_of(alloc: Global, case: &Case) -> Result<Vec<u8>, Fail> {
    let words = words_of(alloc, &case.commands)?;
    let verb = verb_of(&words).ok_or("no verb")?;
    let input = bytes_of(alloc, &case.input)?;
    let (mut statement, mut second) = both_inputs(&input);
    let ended = run::<NamedFields, _, _, _, _>(
        alloc,
        verb,
        &mut statement,
        &mut second,
        &mut WatchedWriter::new(Vec::new(alloc)),
        &mut Silent,
    );
    let reason = ended.reason.ok_or("no reason")?;
    let mut bytes = Vec::new(alloc);
    bytes.extend_from_slice(reason.as_bytes())?;
    Ok(bytes)
}

#[test]
fn reasons_are_told(rt: HostRuntime) -> Result<(), Fail> {
    let alloc = rt.alloc();
    let mut count = 0usize;
    for case in &cases_of(alloc, Program::Voskligan, REASONS)? {
        let reason = reason_of(alloc, case)?;
        let expected = bytes_of(alloc, &case.lines)?;
        assert_eq!(rt; reason.as_slice(), expected.as_slice(), "{}", case.written);
        count = count.saturating_add(1);
    }
    assert_eq!(rt; count, 44);
    Ok(())
}
