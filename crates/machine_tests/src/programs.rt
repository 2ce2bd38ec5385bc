//! Two programs, row by row: the place; a 1 for the instruction among add, sub, mul, less, load,
//! store, jump and halt; whether the second operand is a register; the registers that are read and
//! written; and the number.

/// A row of a program.
pub type ProgramRow = [u8; 14];

/// The number of Fibonacci that r0 counts to, where r1 begins with 1: r0 becomes it.
///
///     loop: add r3 r2 r1
///           add r2 r1 0
///           add r1 r3 0
///           sub r0 r0 1
///           jump r0 loop
///           add r0 r2 0
///           halt
///
/// The halt stands in the last of eight places, behind one that does nothing.
pub const FIBONACCI: [ProgramRow; 8] = [
    [0, 1, 0, 0, 0, 0, 0, 0, 0, 1, 2, 1, 3, 0],
    [1, 1, 0, 0, 0, 0, 0, 0, 0, 0, 1, 0, 2, 0],
    [2, 1, 0, 0, 0, 0, 0, 0, 0, 0, 3, 0, 1, 0],
    [3, 0, 1, 0, 0, 0, 0, 0, 0, 0, 0, 0, 0, 1],
    [4, 0, 0, 0, 0, 0, 0, 1, 0, 0, 0, 0, 0, 0],
    [5, 1, 0, 0, 0, 0, 0, 0, 0, 0, 2, 0, 0, 0],
    [6, 0, 0, 0, 0, 0, 0, 0, 0, 0, 0, 0, 0, 0],
    [7, 0, 0, 0, 0, 0, 0, 0, 1, 0, 0, 0, 0, 0],
];

/// r0 divided by r1, both below 256: r0 becomes the quotient, cell 0 the remainder.
///
///     loop: less r3 r0 r1
///           jump r3 done
///           sub r0 r0 r1
///           add r2 r2 1
///           jump r1 loop
///     done: store r0 0
///           add r0 r2 0
///           halt
pub const DIVIDE: [ProgramRow; 8] = [
    [0, 0, 0, 0, 1, 0, 0, 0, 0, 1, 0, 1, 3, 0],
    [1, 0, 0, 0, 0, 0, 0, 1, 0, 0, 3, 0, 0, 5],
    [2, 0, 1, 0, 0, 0, 0, 0, 0, 1, 0, 1, 0, 0],
    [3, 1, 0, 0, 0, 0, 0, 0, 0, 0, 2, 0, 2, 1],
    [4, 0, 0, 0, 0, 0, 0, 1, 0, 0, 1, 0, 0, 0],
    [5, 0, 0, 0, 0, 0, 1, 0, 0, 0, 0, 0, 0, 0],
    [6, 1, 0, 0, 0, 0, 0, 0, 0, 0, 2, 0, 0, 0],
    [7, 0, 0, 0, 0, 0, 0, 0, 1, 0, 0, 0, 0, 0],
];
