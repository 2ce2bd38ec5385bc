//! The numbers of the machine's columns.

/// The main columns: the machine's state at the beginning of a row, ..
pub const PC: usize = 0;

pub const ACTIVE: usize = 1;

pub const REGISTERS: usize = 2;

pub const CELLS: usize = 6;

/// .. four flags each for the registers that are read and written and the cell that is reached, ..
pub const LEFT: usize = 10;

pub const RIGHT: usize = 14;

pub const TARGET: usize = 18;

pub const ADDRESS: usize = 22;

/// .. and what the instruction computes.
pub const A: usize = 26;

pub const B: usize = 27;

pub const C: usize = 28;

pub const INVERSE: usize = 29;

pub const THEN: usize = 30;

pub const BITS: usize = 31;

pub const WIDTH: usize = 40;

/// The program's columns: a flag for each instruction, and its numbers.
pub const PLACE: usize = 0;

pub const ADD: usize = 1;

pub const SUB: usize = 2;

pub const MUL: usize = 3;

pub const LESS: usize = 4;

pub const LOAD: usize = 5;

pub const STORE: usize = 6;

pub const JUMP: usize = 7;

pub const HALT: usize = 8;

pub const FROM_REGISTER: usize = 9;

pub const LEFT_INDEX: usize = 10;

pub const RIGHT_INDEX: usize = 11;

pub const TARGET_INDEX: usize = 12;

pub const NUMBER: usize = 13;

pub const PROGRAM_WIDTH: usize = 14;
