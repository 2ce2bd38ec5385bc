//! Checks, proofs and verdicts of the machine's traces.
use crate::interpreter::trace_of;
use crate::programs::ProgramRow;
use p3_uni_stark::{ConstraintCheckError, StarkConfig, check_declared};
use stark_air::Air;
use stark_bench::Sha256Challenger;
use stark_fields::{BabyBearField, Ext4};
use stark_fri_proof::FriParameters;
use stark_fri_prover::FriPcs;
use stark_machine::MachineAir;
use stark_merkle::Sha256Tree;
use stark_protocol::power_of_two;
use stark_support::{PrimeField64, RowMajorMatrix};
use stark_test_proofs::{fits, made_by, stands_at};
use stark_tree_air::TreeAir;
use std::alloc::Global;
use std::test::Fail;

type F = BabyBearField;

pub type Config = StarkConfig<FriPcs<F, Sha256Tree>, Ext4<F>, Sha256Challenger<F>>;

/// A program's run: its inputs, the result, and the logarithm of the rows.
#[derive(Clone, Copy)]
pub struct Run {
    pub program: &'static [ProgramRow; 8],
    pub inputs: [u8; 2],
    pub result: u8,
    pub log_rows: usize,
}

/// A blow-up of 4, which constraints of degree 3 under a selector need, and few queries.
fn configuration() -> Result<Config, Fail> {
    let Ok(parameters) = FriParameters::new(2, 0, 2, 0, 1) else {
        return Err(Fail::new("no parameters"));
    };
    Ok(StarkConfig::new(FriPcs::new(parameters), Sha256Challenger::<F>::new()))
}

/// The machine with a run's program.
fn machine_of(alloc: Global, run: &Run) -> Result<MachineAir<F>, Fail> {
    let mut values = Vec::new(alloc);
    for row in run.program {
        for number in row {
            values.push(F::from_u8(*number))?;
        }
    }
    if values.len() % 14 != 0 {
        return Err(Fail::new("no rows"));
    }
    match MachineAir::new(alloc, &RowMajorMatrix::new(values, 14), run.log_rows) {
        Ok(air) => Ok(air),
        Err(_) => Err(Fail::new("no program")),
    }
}

/// A run's trace, with one cell changed where one is named.
fn matrix_of(
    alloc: Global,
    run: &Run,
    change: Option<(usize, usize, u8)>,
) -> Result<RowMajorMatrix<F>, Fail> {
    if run.log_rows > 12 {
        return Err(Fail::new("too many rows"));
    }
    let mut values = trace_of(alloc, run.program, run.inputs, power_of_two(run.log_rows))?;
    if let Some((row, column, number)) = change {
        let place = row.saturating_mul(40).saturating_add(column);
        if place < values.len() {
            values[place] = F::from_u8(number);
        }
    }
    if values.len() % 40 != 0 {
        return Err(Fail::new("no rows"));
    }
    Ok(RowMajorMatrix::new(values, 40))
}

fn public_values_of(run: &Run) -> [F; 3] {
    [
        F::from_u8(run.inputs[0]),
        F::from_u8(run.inputs[1]),
        F::from_u8(run.result),
    ]
}

/// What a check finds of a run's trace with one cell changed where one is named: `satisfied`, or
/// the row and the constraint.
pub fn finding(
    alloc: Global,
    run: &Run,
    change: Option<(usize, usize, u8)>,
) -> Result<String, Fail> {
    let config = configuration()?;
    let air = machine_of(alloc, run)?;
    let trace = matrix_of(alloc, run, change)?;
    let public_values = public_values_of(run);
    if !fits(&config, &air, run.log_rows, &trace, &public_values)
        || !stands_at(alloc, &air, run.log_rows)?
    {
        return Err(Fail::new("other rows"));
    }
    match check_declared(alloc, &air, &trace, &public_values) {
        Ok(()) => Ok(String::from_str(alloc, "satisfied")?),
        Err(ConstraintCheckError::Violation(violation)) => {
            let (row, constraint) = (violation.row, violation.constraint);
            Ok(format!(in alloc; "row {row}: constraint {constraint}")?)
        }
        Err(ConstraintCheckError::OutOfMemory) => Err(Fail::new("out of memory")),
    }
}

/// The text of a proof of a run that the verifier accepts.
fn proof_of<A: Air<F>>(alloc: Global, air: &A, run: &Run) -> Result<String, Fail> {
    let config = configuration()?;
    let trace = matrix_of(alloc, run, None)?;
    let public_values = public_values_of(run);
    if !fits(&config, air, run.log_rows, &trace, &public_values)
        || !stands_at(alloc, air, run.log_rows)?
    {
        return Err(Fail::new("other rows"));
    }
    match made_by(alloc, &config, air, run.log_rows, trace, &public_values) {
        Ok((proof, Ok(()))) => Ok(proof.to_json(alloc)?.to_string(alloc)?),
        _ => Err(Fail::new("no proof that is accepted")),
    }
}

/// Whether the machine and the same AIR as data have, byte for byte, the same proof of a run, which
/// the verifier accepts.
pub fn has_one_proof(alloc: Global, run: &Run) -> Result<bool, Fail> {
    let air = machine_of(alloc, run)?;
    let data = TreeAir::from_air(alloc, &air)?;
    Ok(proof_of(alloc, &air, run)? == proof_of(alloc, &data, run)?)
}
