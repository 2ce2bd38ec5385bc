//! The machine's constraints, part by part.
ghost use Rattle.std.specs.Prelude.{[], ◌∷◌, ◌++◌, OnErr, map};
ghost use Rattle.std.specs.List.{range_with_len};
ghost use Rattle.stark_air.specs.Emission.{Asserted};
ghost use Rattle.stark_air.specs.Layout.{Covers};
ghost use Rattle.stark_machine.specs.Columns.{ReadsWithin, machine_layout};
ghost use Rattle.stark_machine.specs.Machine.{activity, adds, beginning, begins_with_input, begins_with_zero, cell_next, choices, compares, control, end, has_digits, jumps_by_product, jumps_unless_zero, loads, multiplies, next_row, operands, reached, read, reads, register_next, results, step, subtracts, written};

use crate::booleans::Booleans;
use crate::choices::{
    assert_in_place, assert_index, assert_reaches_address, assert_reaches_one, assert_writes_one,
    assert_writes_target,
};
use crate::columns::{LEFT, LEFT_INDEX, PC, RIGHT, RIGHT_INDEX};
use crate::ends::{
    assert_begins_with_input, assert_begins_with_zero, assert_ends_active, assert_ends_with_result,
};
use crate::next_row::{assert_cell_next, assert_continues, assert_pc_next, assert_register_next};
use crate::one_hot::OneHot;
use crate::results::{
    assert_adds, assert_compares, assert_digits, assert_first_operand, assert_jumps_by_product,
    assert_jumps_unless_zero, assert_loads, assert_multiplies, assert_second_operand,
    assert_subtracts,
};
use stark_air::{AirBuilder, ExtensionBuilder, eval_on_columns};
use stark_support::PrimeField64;
use std::alloc::AllocError;

/// Whether the row is active, which is so where its instruction is the one that comes next.
fn assert_activity<F: PrimeField64, AB: ExtensionBuilder<F = F>>(
    builder: &mut AB,
) -> Result<(), AllocError>
    requires { Covers (AB.layout builder.old) machine_layout }
    ensures asserted { Asserted AB.after result builder.old (activity F.ONE) builder.new }
    ensures memory { OnErr result AB.may_refuse }
{
    eval_on_columns(&Booleans::<1>, &mut *builder, 1..2)?;
    assert_in_place(builder)
}

/// One register is read, by flags from column `first` on, of the index in a column of the program.
fn assert_read<F: PrimeField64, AB: ExtensionBuilder<F = F>>(
    builder: &mut AB,
    first: usize,
    column: usize,
) -> Result<(), AllocError>
    requires { ReadsWithin (AB.layout builder.old) first column }
    ensures asserted { Asserted AB.after result builder.old
        (read F.ONE F.of_number first column)
        builder.new }
    ensures memory { OnErr result AB.may_refuse }
{
    eval_on_columns(&OneHot, &mut *builder, first..first + 4)?;
    assert_index(builder, first, column)
}

/// Two registers are read.
fn assert_reads<F: PrimeField64, AB: ExtensionBuilder<F = F>>(
    builder: &mut AB,
) -> Result<(), AllocError>
    requires { Covers (AB.layout builder.old) machine_layout }
    ensures asserted { Asserted AB.after result builder.old (reads F.ONE F.of_number) builder.new }
    ensures memory { OnErr result AB.may_refuse }
{
    assert_read(&mut *builder, LEFT, LEFT_INDEX)?;
    assert_read(builder, RIGHT, RIGHT_INDEX)
}

/// Which register is written.
fn assert_written<F: PrimeField64, AB: ExtensionBuilder<F = F>>(
    builder: &mut AB,
) -> Result<(), AllocError>
    requires { Covers (AB.layout builder.old) machine_layout }
    ensures asserted { Asserted AB.after result builder.old
        (written F.ONE F.of_number)
        builder.new }
    ensures memory { OnErr result AB.may_refuse }
{
    eval_on_columns(&Booleans::<4>, &mut *builder, 18..22)?;
    assert_writes_one(&mut *builder)?;
    assert_writes_target(builder)
}

/// Which cell is reached.
fn assert_reached<F: PrimeField64, AB: ExtensionBuilder<F = F>>(
    builder: &mut AB,
) -> Result<(), AllocError>
    requires { Covers (AB.layout builder.old) machine_layout }
    ensures asserted { Asserted AB.after result builder.old
        (reached F.ONE F.of_number)
        builder.new }
    ensures memory { OnErr result AB.may_refuse }
{
    eval_on_columns(&Booleans::<4>, &mut *builder, 22..26)?;
    assert_reaches_one(&mut *builder)?;
    assert_reaches_address(builder)
}

/// Which register is written, and which cell is reached.
fn assert_effects<F: PrimeField64, AB: ExtensionBuilder<F = F>>(
    builder: &mut AB,
) -> Result<(), AllocError>
    requires { Covers (AB.layout builder.old) machine_layout }
    ensures asserted { Asserted AB.after result builder.old
        (written F.ONE F.of_number ++ reached F.ONE F.of_number)
        builder.new }
    ensures memory { OnErr result AB.may_refuse }
{
    assert_written(&mut *builder)?;
    assert_reached(builder)
}

/// Which instruction, registers and cell the row works on.
pub(crate) fn assert_choices<F: PrimeField64, AB: ExtensionBuilder<F = F>>(
    builder: &mut AB,
) -> Result<(), AllocError>
    requires { Covers (AB.layout builder.old) machine_layout }
    ensures asserted { Asserted AB.after result builder.old
        (choices F.ONE F.of_number)
        builder.new }
    ensures memory { OnErr result AB.may_refuse }
{
    assert_activity(&mut *builder)?;
    assert_reads(&mut *builder)?;
    assert_effects(builder)
}

/// The operands.
fn assert_operands<F: PrimeField64, AB: ExtensionBuilder<F = F>>(
    builder: &mut AB,
) -> Result<(), AllocError>
    requires { Covers (AB.layout builder.old) machine_layout }
    ensures asserted { Asserted AB.after result builder.old (operands) builder.new }
    ensures memory { OnErr result AB.may_refuse }
{
    assert_first_operand(&mut *builder)?;
    assert_second_operand(builder)
}

/// The results of sums, differences and products.
fn assert_arithmetic<F: PrimeField64, AB: ExtensionBuilder<F = F>>(
    builder: &mut AB,
) -> Result<(), AllocError>
    requires { Covers (AB.layout builder.old) machine_layout }
    ensures asserted { Asserted AB.after result builder.old
        (adds ∷ subtracts ∷ multiplies ∷ [])
        builder.new }
    ensures memory { OnErr result AB.may_refuse }
{
    assert_adds(&mut *builder)?;
    assert_subtracts(&mut *builder)?;
    assert_multiplies(builder)
}

/// The result of a comparison, by the digits of the operands' difference.
fn assert_comparison<F: PrimeField64, AB: ExtensionBuilder<F = F>>(
    builder: &mut AB,
) -> Result<(), AllocError>
    requires { Covers (AB.layout builder.old) machine_layout }
    ensures asserted { Asserted AB.after result builder.old
        (compares F.ONE ∷ has_digits F.ONE F.of_number ∷ [])
        builder.new }
    ensures memory { OnErr result AB.may_refuse }
{
    assert_compares(&mut *builder)?;
    assert_digits(builder)
}

/// The results of a load and of a jump.
fn assert_transfers<F: PrimeField64, AB: ExtensionBuilder<F = F>>(
    builder: &mut AB,
) -> Result<(), AllocError>
    requires { Covers (AB.layout builder.old) machine_layout }
    ensures asserted { Asserted AB.after result builder.old
        (loads ∷ jumps_by_product ∷ jumps_unless_zero ∷ [])
        builder.new }
    ensures memory { OnErr result AB.may_refuse }
{
    assert_loads(&mut *builder)?;
    assert_jumps_by_product(&mut *builder)?;
    assert_jumps_unless_zero(builder)
}

/// The result of the instruction.
fn assert_results<F: PrimeField64, AB: ExtensionBuilder<F = F>>(
    builder: &mut AB,
) -> Result<(), AllocError>
    requires { Covers (AB.layout builder.old) machine_layout }
    ensures asserted { Asserted AB.after result builder.old
        (results F.ONE F.of_number)
        builder.new }
    ensures memory { OnErr result AB.may_refuse }
{
    eval_on_columns(&Booleans::<9>, &mut *builder, 31..40)?;
    assert_arithmetic(&mut *builder)?;
    assert_comparison(&mut *builder)?;
    assert_transfers(builder)
}

/// Which instruction comes next.
fn assert_control<F: PrimeField64, AB: ExtensionBuilder<F = F>>(
    builder: &mut AB,
) -> Result<(), AllocError>
    requires { Covers (AB.layout builder.old) machine_layout }
    ensures asserted { Asserted AB.after result builder.old (control F.ONE) builder.new }
    ensures memory { OnErr result AB.may_refuse }
{
    assert_continues(&mut *builder)?;
    assert_pc_next(builder)
}

/// Each register in the next row.
fn assert_registers_next<AB: AirBuilder>(builder: &mut AB) -> Result<(), AllocError>
    requires { Covers (AB.layout builder.old) machine_layout }
    ensures asserted { Asserted AB.after result builder.old
        (map register_next (range_with_len 0 4))
        builder.new }
    ensures memory { OnErr result AB.may_refuse }
{
    for register in 0..4 {
        assert_register_next(&mut *builder, register)?;
    }
    Ok(())
}

/// Each cell in the next row.
fn assert_cells_next<AB: AirBuilder>(builder: &mut AB) -> Result<(), AllocError>
    requires { Covers (AB.layout builder.old) machine_layout }
    ensures asserted { Asserted AB.after result builder.old
        (map cell_next (range_with_len 0 4))
        builder.new }
    ensures memory { OnErr result AB.may_refuse }
{
    for cell in 0..4 {
        assert_cell_next(&mut *builder, cell)?;
    }
    Ok(())
}

/// What the next row begins with.
fn assert_next_row<F: PrimeField64, AB: ExtensionBuilder<F = F>>(
    builder: &mut AB,
) -> Result<(), AllocError>
    requires { Covers (AB.layout builder.old) machine_layout }
    ensures asserted { Asserted AB.after result builder.old (next_row F.ONE) builder.new }
    ensures memory { OnErr result AB.may_refuse }
{
    assert_control(&mut *builder)?;
    assert_registers_next(&mut *builder)?;
    assert_cells_next(builder)
}

/// What the instruction computes, and the row behind it.
pub(crate) fn assert_step<F: PrimeField64, AB: ExtensionBuilder<F = F>>(
    builder: &mut AB,
) -> Result<(), AllocError>
    requires { Covers (AB.layout builder.old) machine_layout }
    ensures asserted { Asserted AB.after result builder.old (step F.ONE F.of_number) builder.new }
    ensures memory { OnErr result AB.may_refuse }
{
    assert_operands(&mut *builder)?;
    assert_results(&mut *builder)?;
    assert_next_row(builder)
}

/// The program begins at place 0 with two inputs.
fn assert_inputs<F: PrimeField64, AB: ExtensionBuilder<F = F>>(
    builder: &mut AB,
) -> Result<(), AllocError>
    requires { Covers (AB.layout builder.old) machine_layout }
    ensures asserted { Asserted AB.after result builder.old
        (begins_with_zero 0 ∷ begins_with_input 0 ∷ begins_with_input 1 ∷ [])
        builder.new }
    ensures memory { OnErr result AB.may_refuse }
{
    assert_begins_with_zero(&mut *builder, PC)?;
    assert_begins_with_input(&mut *builder, 0)?;
    assert_begins_with_input(builder, 1)
}

/// The end.
pub(crate) fn assert_end<F: PrimeField64, AB: ExtensionBuilder<F = F>>(
    builder: &mut AB,
) -> Result<(), AllocError>
    requires { Covers (AB.layout builder.old) machine_layout }
    ensures asserted { Asserted AB.after result builder.old (end F.ONE) builder.new }
    ensures memory { OnErr result AB.may_refuse }
{
    assert_ends_active(&mut *builder)?;
    assert_ends_with_result(builder)
}

/// The other registers and the cells begin with 0.
fn assert_zeros<AB: AirBuilder>(builder: &mut AB) -> Result<(), AllocError>
    requires { Covers (AB.layout builder.old) machine_layout }
    ensures asserted { Asserted AB.after result builder.old
        (map begins_with_zero (range_with_len 4 6))
        builder.new }
    ensures memory { OnErr result AB.may_refuse }
{
    for column in 0..6 {
        assert_begins_with_zero(&mut *builder, 4 + column)?;
    }
    Ok(())
}

/// The beginning.
pub(crate) fn assert_beginning<F: PrimeField64, AB: ExtensionBuilder<F = F>>(
    builder: &mut AB,
) -> Result<(), AllocError>
    requires { Covers (AB.layout builder.old) machine_layout }
    ensures asserted { Asserted AB.after result builder.old (beginning) builder.new }
    ensures memory { OnErr result AB.may_refuse }
{
    assert_inputs(&mut *builder)?;
    assert_zeros(builder)
}
