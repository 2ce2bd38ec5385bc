//! Runs of two programs. Each spoiled trace has one cell that is changed, and the row and the
//! constraint that find it, counted in the order of the machine's list: 0 and 1 the activity, 2 to
//! 13 the registers that are read, 14 to 25 the one that is written and the cell, 26 and 27 the
//! operands, 28 to 36 the bits, 37 to 41 arithmetic and a comparison, 42 to 44 a load and a jump,
//! 45 and 46 the next place, 47 to 50 the registers, 51 to 54 the cells, 55 to 63 the beginning, 64
//! and 65 the end.
use crate::programs::{DIVIDE, FIBONACCI};
use crate::proving::{Run, finding, has_one_proof};
use std::test::Fail;

/// The tenth number of Fibonacci is 55.
fn fibonacci(log_rows: usize) -> Run {
    Run {
        program: &FIBONACCI,
        inputs: [10, 1],
        result: 55,
        log_rows,
    }
}

/// 200 is 28 times 7 and 4.
fn divide(log_rows: usize) -> Run {
    Run {
        program: &DIVIDE,
        inputs: [200, 7],
        result: 28,
        log_rows,
    }
}

#[test]
fn satisfied(rt: HostRuntime) -> Result<(), Fail> {
    let alloc = rt.alloc();
    for run in [fibonacci(7), fibonacci(10), divide(8), divide(10)] {
        assert_eq!(rt; finding(alloc, &run, None)?.as_str(), "satisfied");
    }
    let other = Run {
        result: 54,
        ..fibonacci(7)
    };
    assert_eq!(rt;
        finding(alloc, &other, None)?.as_str(),
        "row 127: constraint 65"
    );
    Ok(())
}

#[test]
fn spoiled(rt: HostRuntime) -> Result<(), Fail> {
    let alloc = rt.alloc();
    let lines = [
        // A sum of 2 where 0 and 1 are added.
        (fibonacci(7), (0, 28, 2), "row 0: constraint 37"),
        // A jump that goes on with the next instruction.
        (fibonacci(7), (4, 30, 5), "row 4: constraint 45"),
        // A register that changes while the row waits.
        (fibonacci(7), (6, 4, 9), "row 5: constraint 49"),
        // Another result, in the last row alone.
        (fibonacci(7), (127, 2, 54), "row 126: constraint 47"),
        // The remainder, which is stored in cell 0, in cell 1 as well.
        (divide(8), (230, 7, 4), "row 229: constraint 52"),
        // A bit of 2.
        (divide(8), (0, 34, 2), "row 0: constraint 31"),
    ];
    for (run, change, answer) in lines {
        assert_eq!(rt; finding(alloc, &run, Some(change))?.as_str(), answer);
    }
    Ok(())
}

#[test]
fn proofs_of_few_rows(rt: HostRuntime) -> Result<(), Fail> {
    let alloc = rt.alloc();
    assert!(rt; has_one_proof(alloc, &fibonacci(7))?);
    assert!(rt; has_one_proof(alloc, &divide(8))?);
    Ok(())
}

#[test]
fn proofs_of_many_rows(rt: HostRuntime) -> Result<(), Fail> {
    let alloc = rt.alloc();
    assert!(rt; has_one_proof(alloc, &fibonacci(10))?);
    assert!(rt; has_one_proof(alloc, &divide(10))?);
    Ok(())
}
