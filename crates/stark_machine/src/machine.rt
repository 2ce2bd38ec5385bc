//! The machine: what it declares, and its constraints.
ghost use Rattle.std.specs.Prelude.{◌≡◌, ◌∷◌, [], IfErr, IfOk, None, Some};
ghost use Rattle.std.specs.List.{range_with_len};
ghost use Rattle.std.proofs.Common.{rules};
ghost use Rattle.stark_machine.specs.Columns.{machine_layout};
ghost use Rattle.stark_machine.specs.Machine.{machine_constraints};
ghost use Rattle.stark_machine.specs.Program.{IsProgramFault, RepeatsProgram};

use crate::columns::{PROGRAM_WIDTH, WIDTH};
use crate::parts::{assert_beginning, assert_choices, assert_end, assert_step};
use crate::program::{MachineError, copies_to_fill, repeated};
use stark_air::{Air, BaseAir, ExtensionBuilder};
use stark_support::{PrimeField64, RowMajorMatrix};
use std::alloc::{AllocError, Global};

/// A machine with four registers and four cells of memory, which runs a program on two inputs. Its
/// 40 main columns are a row's state and what the row's instruction computes; the program's 14
/// stand beside them as the preprocessed trace. The public values are the inputs, which registers 0
/// and 1 begin with, and the result, which register 0 ends with.
#[derive(Debug, Drop)]
pub struct MachineAir<F> {
    trace: RowMajorMatrix<F>,
    pub ghost wide: { trace.width ≡ 14 },
}

impl<F: PrimeField64> MachineAir<F> {
    /// The machine for traces of `2^log_rows` rows. A row of the program has 14 numbers: its place;
    /// a 1 for its instruction among add, sub, mul, less, load, store, jump and halt, and 0 for the
    /// others; whether its second operand is a register; the registers that are its first operand,
    /// its second operand and the one that it writes, 0 to 3; and a number, which is the second
    /// operand that is no register, or where a jump goes. The program is repeated down the trace.
    ///
    /// - `Columns` where a row hasn't 14 numbers.
    /// - `Height` where `log_rows` is past 59.
    /// - `Rows` where no number of copies of the program has `2^log_rows` rows.
    /// - `OutOfMemory` where memory was refused.
    pub fn new(
        alloc: Global,
        program: &RowMajorMatrix<F>,
        log_rows: usize,
    ) -> Result<MachineAir<F>, MachineError>
        ensures program { IfOk result (λ air. RepeatsProgram program.now.values.items log_rows
            (⟦<MachineAir<F> as BaseAir<F>>⟧.preprocessed_trace air)) }
        ensures refused { IfErr result (IsProgramFault program.now.width program.now.values.items
            log_rows) }
    {
        if program.width != PROGRAM_WIDTH {
            return Err(MachineError::Columns);
        }
        if log_rows > 59 {
            return Err(MachineError::Height);
        }
        let copies = copies_to_fill(program.values.len(), log_rows)?;
        let values = repeated(alloc, &program.values, copies)?;
        Ok(MachineAir {
            trace: RowMajorMatrix::new(values, PROGRAM_WIDTH),
        })
    }
}

impl<F: PrimeField64> BaseAir<F> for MachineAir<F> {
    ghost layout = { λ _. machine_layout };

    ghost preprocessed_trace = { λ air. Some
        (record { width = 14; values = air.trace.values.items }) };

    ghost main_next_row_columns = { λ _. 0 ∷ range_with_len 2 8 };

    ghost preprocessed_next_row_columns = { λ _. [] };

    ghost degree_hint = { λ _. None };

    ghost as_declared = { Prim.search rules };

    fn width(&self) -> usize {
        WIDTH
    }

    fn preprocessed_width(&self) -> usize {
        PROGRAM_WIDTH
    }

    fn preprocessed_trace(&self, alloc: Global) -> Result<Option<RowMajorMatrix<F>>, AllocError> {
        let mut values = Vec::new(alloc);
        values.extend_from_slice(&self.trace.values)?;
        Ok(Some(RowMajorMatrix::new(values, PROGRAM_WIDTH)))
    }

    fn num_public_values(&self) -> usize {
        3
    }

    fn periodic_columns(&self) -> &[Vec<F>] {
        &[]
    }

    /// The place of the next instruction, the registers and the cells.
    fn main_next_row_columns(&self, alloc: Global) -> Result<Vec<usize>, AllocError> {
        Vec::from_slice(alloc, &[0, 2, 3, 4, 5, 6, 7, 8, 9])
    }

    fn preprocessed_next_row_columns(&self, alloc: Global) -> Result<Vec<usize>, AllocError> {
        Ok(Vec::new(alloc))
    }

    fn max_constraint_degree(&self) -> Option<usize> {
        None
    }

    fn num_constraints(&self) -> Option<usize> {
        None
    }

    fn public_boundary_io(&self) -> &[usize] {
        &[]
    }
}

impl<F: PrimeField64> Air<F> for MachineAir<F> {
    ghost constraints = { λ _. machine_constraints F.ONE F.of_number };

    ghost leaves_within = { Prim.search rules };

    fn eval<AB: ExtensionBuilder<F = F>>(&self, builder: &mut AB) -> Result<(), AllocError> {
        assert_choices(&mut *builder)?;
        assert_step(&mut *builder)?;
        assert_beginning(&mut *builder)?;
        assert_end(builder)
    }
}
