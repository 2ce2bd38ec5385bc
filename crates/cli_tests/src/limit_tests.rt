use crate::limit_cases::LIMITS;
use crate::program::{Program, both_inputs};
use crate::table::{bytes_of, cases_of};
use stark_bench::F12289;
use stark_statement::{AirLimits, Statement};
use std::alloc::{AllocError, Global};
use std::test::Fail;

/// The limits of a case, in the order of their fields.
fn limits_of(alloc: Global, text: &str) -> Result<AirLimits, Fail> {
    let mut numbers = Vec::new(alloc);
    for word in text.split_ascii_whitespace() {
        numbers.push(word.parse::<usize>()?)?;
    }
    match numbers.as_slice() {
        [columns, public_values, cells, constants, nodes, constraints] => Ok(AirLimits {
            columns: *columns,
            public_values: *public_values,
            cells: *cells,
            constants: *constants,
            nodes: *nodes,
            constraints: *constraints,
        }),
        _ => Err(Fail::new(format_args!("no six limits: {text}"))),
    }
}

/// What the limits say of a statement's AIR.
fn answer(alloc: Global, limits: AirLimits, text: &[u8]) -> Result<String, Fail> {
    let statement = Statement::<F12289>::from_slice(alloc, text)?;
    match limits.check(&statement.air) {
        Ok(()) => Ok(String::from_str(alloc, "within")?),
        Err(passed) => Ok(format!(in alloc; "{passed}")?),
    }
}

#[test]
fn airs_against_limits(rt: HostRuntime) -> Result<(), Fail> {
    let alloc = rt.alloc();
    let mut done = 0usize;
    for case in &cases_of(alloc, Program::Voskligan, LIMITS)? {
        let given = bytes_of(alloc, &case.input)?;
        let (statement, _second) = both_inputs(&given);
        let said = answer(alloc, limits_of(alloc, &case.commands)?, statement)?;
        let written = &case.written;
        assert_eq!(rt; said.as_str(), case.lines.as_str(), "{written}");
        done = done.saturating_add(1);
    }
    assert_eq!(rt; done, 20);
    Ok(())
}

#[test]
fn limits_of_the_programs(rt: HostRuntime) -> Result<(), Fail> {
    let wanted = limits_of(rt.alloc(), "65536 65536 1048576 131072 131072 32768")?;
    assert_eq!(rt; AirLimits::default(), wanted);
    Ok(())
}
