//! The machine as a program of its own, which makes traces.
ghost use Rattle.std.specs.Prelude.{◌≡◌, ◌<◌};

use crate::programs::ProgramRow;
use stark_fields::BabyBearField;
use stark_support::{Element, Field, PrimeField64};
use std::alloc::{AllocError, Global};

type F = BabyBearField;

/// The place of the instruction that comes next, the registers and the memory.
#[derive(Drop)]
struct State {
    pc: u8,
    registers: [F; 4],
    cells: [F; 4],
}

/// What an instruction computes.
#[derive(Clone, Copy)]
struct Step {
    active: bool,
    a: F,
    b: F,
    result: F,
    inverse: F,
    then: u8,
    bits: u64,
}

/// The value at a place of four; 0 where there is none.
fn at(values: &[F; 4], place: usize) -> F {
    match values.get(place) {
        Some(value) => *value,
        None => F::ZERO,
    }
}

fn put(values: &mut [F; 4], place: usize, value: F) {
    if place < 4 {
        values[place] = value;
    }
}

fn flag(holds: bool) -> F {
    if holds { F::ONE } else { F::ZERO }
}

/// A number below 256, as an element's; else 256.
fn small(x: F) -> usize {
    let number = x.as_canonical_u64();
    if number < 256 { number as usize } else { 256 }
}

/// The inverse, and 0 of 0.
fn inverse_of(a: F) -> F {
    if a == F::ZERO { F::ZERO } else { a.inverse() }
}

/// `a - b + 256` where that is below 512, else 0.
fn apart(a: F, b: F) -> u64 {
    let sixteen = F::from_u8(16);
    let number = (a - b + sixteen * sixteen).as_canonical_u64();
    if number < 512 { number } else { 0 }
}

/// What the instruction of a row computes in a state.
fn step_of(row: &ProgramRow, state: &State) -> Step {
    let active = state.pc == row[0];
    let a = at(&state.registers, row[10] as usize);
    let b = if row[9] == 1 {
        at(&state.registers, row[11] as usize)
    } else {
        F::from_u8(row[13])
    };
    let bits = if row[4] == 1 { apart(a, b) } else { 0 };
    let inverse = if row[7] == 1 { inverse_of(a) } else { F::ZERO };
    let result = result_of(row, state, active, a, b);
    let jumps = row[7] == 1 && result == F::ONE;
    let next = if row[8] == 1 {
        state.pc
    } else {
        state.pc.wrapping_add(1)
    };
    Step {
        active,
        a,
        b,
        result,
        inverse,
        then: if jumps { row[13] } else { next },
        bits,
    }
}

fn result_of(row: &ProgramRow, state: &State, active: bool, a: F, b: F) -> F {
    if row[1] == 1 {
        a + b
    } else if row[2] == 1 {
        a - b
    } else if row[3] == 1 {
        a * b
    } else if row[4] == 1 {
        flag(apart(a, b) < 256)
    } else if row[5] == 1 && active {
        at(&state.cells, small(b))
    } else if row[7] == 1 {
        flag(a != F::ZERO)
    } else {
        F::ZERO
    }
}

fn writes(row: &ProgramRow) -> bool {
    row[1] == 1 || row[2] == 1 || row[3] == 1 || row[4] == 1 || row[5] == 1
}

fn reaches(row: &ProgramRow) -> bool {
    row[5] == 1 || row[6] == 1
}

/// Four flags, of which the one at a place is 1; where `some` is false, none is.
fn push_flags(trace: &mut Vec<F>, some: bool, place: usize) -> Result<(), AllocError> {
    for index in 0..4 {
        trace.push(flag(some && index == place))?;
    }
    Ok(())
}

/// A row of the trace.
fn push_row(
    trace: &mut Vec<F>,
    row: &ProgramRow,
    state: &State,
    step: &Step,
) -> Result<(), AllocError> {
    trace.push(F::from_u8(state.pc))?;
    trace.push(flag(step.active))?;
    trace.extend_from_slice(&state.registers)?;
    trace.extend_from_slice(&state.cells)?;
    push_flags(trace, true, row[10] as usize)?;
    push_flags(trace, true, row[11] as usize)?;
    push_flags(trace, step.active && writes(row), row[12] as usize)?;
    push_flags(trace, step.active && reaches(row), small(step.b))?;
    trace.extend_from_slice(&[step.a, step.b, step.result, step.inverse])?;
    trace.push(F::from_u8(step.then))?;
    for bit in 0..9u32 {
        trace.push(flag((step.bits >> bit) & 1 == 1))?;
    }
    Ok(())
}

/// The state behind a row.
fn moved(state: State, row: &ProgramRow, step: &Step) -> State {
    let State {
        pc,
        mut registers,
        mut cells,
    } = state;
    if !step.active {
        return State {
            pc,
            registers,
            cells,
        };
    }
    if writes(row) {
        put(&mut registers, row[12] as usize, step.result);
    }
    if row[6] == 1 {
        put(&mut cells, small(step.b), step.a);
    }
    State {
        pc: step.then,
        registers,
        cells,
    }
}

/// The trace of a program on two inputs, whose rows are repeated down so many rows.
pub fn trace_of(
    alloc: Global,
    program: &[ProgramRow; 8],
    inputs: [u8; 2],
    rows: usize,
) -> Result<Vec<F>, AllocError> {
    let mut trace = Vec::new(alloc);
    let mut state = State {
        pc: 0,
        registers: [
            F::from_u8(inputs[0]),
            F::from_u8(inputs[1]),
            F::ZERO,
            F::ZERO,
        ],
        cells: [F::ZERO; 4],
    };
    for place in 0..rows {
        let row = &program[place % 8];
        let step = step_of(row, &state);
        push_row(&mut trace, row, &state, &step)?;
        state = moved(state, row, &step);
    }
    Ok(trace)
}
