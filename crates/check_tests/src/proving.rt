//! What a prover that checks first answers, and the verifier's verdict on its proof.
ghost use Rattle.std.specs.Prelude.{None};

use crate::checking::{Rows, spelled};
use p3_uni_stark::{
    CheckedProvingError, PreprocessedProverData, StarkConfig, prove_checked, verify,
};
use stark_air::BaseAir;
use stark_bench::Sha256Challenger;
use stark_clear::ClearPcs;
use stark_fields::{Ext4, F12289};
use stark_parts::Com;
use stark_protocol::PcsProverData;
use stark_test_cases::read_all;
use stark_test_proofs::{is_trace_of, matrix_of};
use std::alloc::Global;
use std::test::Fail;

pub type Config = StarkConfig<ClearPcs<F12289>, Ext4<F12289>, Sha256Challenger<F12289>>;

/// The scheme in the clear and the challenger that hashes, without work.
pub fn configuration() -> Config {
    StarkConfig::new(ClearPcs::new(), Sha256Challenger::new())
}

/// The verdict on a proof of rows that are checked first, of an AIR without preprocessed columns:
/// `accepted` or `refused`; or the row, the constraint and its value for which there is none.
pub fn proved<'p>(alloc: Global, config: &'p Config, rows: &Rows) -> Result<String, Fail> {
    let air = spelled(alloc, rows.air)?;
    let trace = matrix_of(&air, read_all::<F12289>(alloc, rows.trace)?)?;
    let public_values = read_all::<F12289>(alloc, rows.public_values)?;
    if !is_trace_of(&air, rows.log_height, &trace, &public_values)
        || air.preprocessed_width() != 0
    {
        return Err(Fail::new("other rows"));
    }
    let data: Option<&'p PreprocessedProverData<Com<Config>, PcsProverData<Config>>> = None;
    match prove_checked(alloc, config, &air, trace, &public_values, data) {
        Ok(proof) => match verify(alloc, config, &air, &proof, &public_values) {
            Ok(()) => Ok(String::from_str(alloc, "accepted")?),
            Err(_) => Ok(String::from_str(alloc, "refused")?),
        },
        Err(CheckedProvingError::Violation(violation)) => {
            let (row, constraint) = (violation.row, violation.constraint);
            Ok(format!(in alloc; "row {row}: constraint {constraint}")?)
        }
        Err(CheckedProvingError::Proving(_)) => Err(Fail::new("no proof")),
    }
}
