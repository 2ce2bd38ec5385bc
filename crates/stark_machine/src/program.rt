//! A program that is repeated down a trace.
ghost use Rattle.std.specs.Prelude.{◌≡◌, ◌≤◌, ◌*◌, ◌^◌, IfErr, IfOk};
ghost use Rattle.stark_machine.specs.Program.{copies, no_copies_fill};

use crate::columns::PROGRAM_WIDTH;
use std::alloc::{AllocError, Global};
use thiserror::Error;

/// Why rows are no program for a trace.
#[derive(Clone, Copy, Debug, PartialEq, Eq, Error)]
pub enum MachineError {
    #[error("a row of a program has 14 numbers")]
    Columns,
    #[error("a trace has at most 2^59 rows")]
    Height,
    #[error("no number of copies of the program has as many rows as the trace")]
    Rows,
    #[error("memory was refused")]
    OutOfMemory,
}

impl From<AllocError> for MachineError {
    ghost use Rattle.stark_machine.specs.declared.program.MachineError.TheVariants.{OutOfMemory};

    ghost from_gives = { λ _ error. error ≡ OutOfMemory };

    fn from(_error: AllocError) -> MachineError {
        MachineError::OutOfMemory
    }
}

/// The power of two with this exponent.
fn power_of_two(exponent: usize) -> usize
    requires { exponent ≤ 59 }
    ensures { result ≡ 2 ^ exponent }
{
    1 << exponent
}

/// How many copies of `numbers` numbers are `2^log_rows` rows of 14; `Rows` where no number of them
/// is.
pub(crate) fn copies_to_fill(numbers: usize, log_rows: usize) -> Result<usize, MachineError>
    requires { log_rows ≤ 59 }
    ensures fills { IfOk result (λ count. count * numbers ≡ 2 ^ log_rows * 14) }
    ensures refused { IfErr result (no_copies_fill numbers log_rows) }
{
    let needed = power_of_two(log_rows) * PROGRAM_WIDTH;
    if numbers == 0 {
        return Err(MachineError::Rows);
    }
    if needed % numbers != 0 {
        return Err(MachineError::Rows);
    }
    Ok(needed / numbers)
}

/// So many copies of some numbers. Err only where memory was refused.
#[tactic(auto, using(crate::proofs::Filling::one_more))]
pub(crate) fn repeated<F: Copy>(
    alloc: Global,
    numbers: &[F],
    count: usize,
) -> Result<Vec<F>, AllocError>
    ensures { IfOk result (λ values. values.items ≡ copies count numbers.now) }
{
    let mut values = Vec::new(alloc);
    for _ in 0..count {
        values.extend_from_slice(numbers)?;
    }
    Ok(values)
}
