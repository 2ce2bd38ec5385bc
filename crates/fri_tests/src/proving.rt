//! Proofs over the FRI scheme, and the verifier's verdicts on them, over any field.
use p3_uni_stark::{StarkConfig, StarkGenericConfig, Val, VerificationError};
use stark_fri_proof::FriParameters;
use stark_fri_prover::FriPcs;
use stark_merkle::{Root, Sha256Tree};
use stark_parts::StarkChallenger;
use stark_support::{
    GrindingChallenger, NeverNull, PackedExtensionField, PackedField, PrimeField64, RowMajorMatrix,
    TwoAdicField, value_from_bytes,
};
use stark_test_cases::read_all;
use stark_test_proofs::{fits, made_by, matrix_of, stands_at};
use stark_tree_air::TreeAir;
use std::alloc::Global;
use std::test::Fail;

/// An AIR, as many rows of a trace as are said, one after the other, and public values; the texts
/// are JSON.
#[derive(Clone, Copy)]
pub struct Rows {
    pub air: &'static str,
    pub log_height: usize,
    pub trace: &'static str,
    pub public_values: &'static str,
}

/// The configuration with a field, its extension and a challenger.
pub type Config<F, EF, C> = StarkConfig<FriPcs<F, Sha256Tree>, EF, C>;

/// The AIR that a text spells.
fn spelled<F: PrimeField64 + NeverNull>(alloc: Global, text: &str) -> Result<TreeAir<F>, Fail> {
    let Ok(json) = value_from_bytes(alloc, text.as_bytes()) else {
        return Err(Fail::new("no AIR"));
    };
    match TreeAir::from_json(alloc, &json) {
        Ok(air) => Ok(air),
        Err(_) => Err(Fail::new("no AIR")),
    }
}

/// The verifier's verdict on a proof of a trace: `accepted`, or `refused` where the equation fails
/// at zeta; `no proof` where the prover refuses.
fn verdict<SC: StarkGenericConfig>(
    alloc: Global,
    config: &SC,
    air: &TreeAir<Val<SC>>,
    log_height: usize,
    trace: RowMajorMatrix<Val<SC>>,
    public_values: &[Val<SC>],
) -> Result<&'static str, Fail>
where
    Val<SC>: PackedField,
    SC::Challenge: PackedExtensionField<Val<SC>>,
    SC::Challenger: GrindingChallenger<Witness = Val<SC>>,
{
    if !fits(config, air, log_height, &trace, public_values)
        || !stands_at(alloc, air, log_height)?
    {
        return Err(Fail::new("other rows"));
    }
    match made_by(alloc, config, air, log_height, trace, public_values) {
        Ok((_proof, Ok(()))) => Ok("accepted"),
        Ok((_proof, Err(VerificationError::OodEvaluationMismatch { .. }))) => Ok("refused"),
        Ok((_proof, Err(_))) => Ok("refused for another fault"),
        Err(_) => Ok("no proof"),
    }
}

/// The verdict on a proof of rows by five numbers of FRI.
pub fn proved<F, EF, C>(
    alloc: Global,
    challenger: C,
    numbers: [usize; 5],
    rows: &Rows,
) -> Result<&'static str, Fail>
where
    F: PrimeField64 + TwoAdicField + PackedField + NeverNull,
    EF: PackedExtensionField<F>,
    C: StarkChallenger<F, EF, Root>,
{
    let parameters = FriParameters::new(numbers[0], numbers[1], numbers[2], numbers[3], numbers[4]);
    let parameters = parameters.ok().ok_or("no parameters")?;
    if parameters.log_blowup() > F::TWO_ADICITY {
        return Err(Fail::new("the field has no such blow-up"));
    }
    let config: Config<F, EF, C> = StarkConfig::new(FriPcs::new(parameters), challenger);
    let air: TreeAir<F> = spelled(alloc, rows.air)?;
    let trace = matrix_of(&air, read_all::<F>(alloc, rows.trace)?)?;
    let public_values = read_all::<F>(alloc, rows.public_values)?;
    verdict(alloc, &config, &air, rows.log_height, trace, &public_values)
}
