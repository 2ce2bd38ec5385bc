//! What a check finds of a trace, in words.
use p3_uni_stark::{ConstraintCheckError, check_declared};
use stark_fields::F12289;
use stark_support::{PrimeField64, value_from_bytes};
use stark_test_cases::read_all;
use stark_test_proofs::{is_trace_of, matrix_of, stands_at};
use stark_tree_air::TreeAir;
use std::alloc::Global;
use std::test::Fail;

/// An AIR, as many rows of a trace as are said, one after the other, and public values; the texts
/// are JSON.
#[derive(Clone, Copy)]
pub struct Rows {
    pub air: &'static str,
    pub log_height: usize,
    pub trace: &'static str,
    pub public_values: &'static str,
}

/// The AIR that a text spells.
pub fn spelled(alloc: Global, text: &str) -> Result<TreeAir<F12289>, Fail> {
    let Ok(json) = value_from_bytes(alloc, text.as_bytes()) else {
        return Err(Fail::new("no AIR"));
    };
    match TreeAir::from_json(alloc, &json) {
        Ok(air) => Ok(air),
        Err(_) => Err(Fail::new("no AIR")),
    }
}

/// What a check finds: `satisfied`, or the row, the constraint and its value.
pub fn checked(alloc: Global, rows: &Rows) -> Result<String, Fail> {
    let air = spelled(alloc, rows.air)?;
    let trace = matrix_of(&air, read_all::<F12289>(alloc, rows.trace)?)?;
    let public_values = read_all::<F12289>(alloc, rows.public_values)?;
    if !is_trace_of(&air, rows.log_height, &trace, &public_values)
        || !stands_at(alloc, &air, rows.log_height)?
    {
        return Err(Fail::new("other rows"));
    }
    match check_declared(alloc, &air, &trace, &public_values) {
        Ok(()) => Ok(String::from_str(alloc, "satisfied")?),
        Err(ConstraintCheckError::Violation(violation)) => {
            let (row, constraint) = (violation.row, violation.constraint);
            let value = violation.value.as_canonical_u64();
            Ok(format!(in alloc; "row {row}: constraint {constraint} is {value}")?)
        }
        Err(ConstraintCheckError::OutOfMemory) => Err(Fail::new("out of memory")),
    }
}
