//! Prover's data and verifier's key of preprocessed traces, over the scheme in the clear and the
//! masked one.
ghost use Rattle.std.specs.Prelude.{◌+◌};
ghost use Rattle.stark_protocol.specs.Preprocessing.{HasHeight, IsCommittedWithin};

use crate::calls::{ClearConfig, set_up};
use crate::kinds::DeclaringAir;
use crate::proving::{MaskedConfig, masked};
use p3_uni_stark::setup_preprocessed;
use stark_air::BaseAir;
use stark_bench::ClearCommitment;
use stark_clear::ClearPcs;
use stark_parts::StarkConfig;
use stark_samples::{CounterAir, PreprocessedAir};
use stark_support::{
    CanObserve, ExtensionChallenger, ExtensionField, FieldChallenger, PrimeField64, TwoAdicField,
};
use stark_test_cases::{apart, numbers_in, shown};
use std::alloc::Global;
use std::fmt::Debug;
use std::test::Fail;

// The AIR and the logarithm of the height.
pub const CASES: &str = r#"
# The column 1, 2, 3, 4 on the subgroup of four points: the widths and heights of key and data, and their commitments.
preprocessed | 2 => 1 2 1 2 [[[6147, 739, 6144, 11549]]] [[[6147, 739, 6144, 11549]]] [[[6147, 739, 6144, 11549]]]

# The masks double the rows of the trace, and of the preprocessed columns with it.
masked | 2 => Some((1, 3))

# Without columns no height is used, so that it may be beyond the scheme's greatest, 12, and beyond all.
counter | 0 => nothing
counter | 1 => nothing
counter | 5 => nothing
counter | 13 => nothing
counter | 64 => nothing
empty trace | 0 => nothing
empty trace | 3 => nothing
"#;

// Over 2013265921, computed in Python by Lagrange's interpolation; the scheme's greatest
// height is 27.
pub const OVER_BABY_BEAR: &str = r#"
preprocessed | 2 => 1 2 1 2 [[[1006632963, 864202256, 1006632960, 1149063664]]] [[[1006632963, 864202256, 1006632960, 1149063664]]] [[[1006632963, 864202256, 1006632960, 1149063664]]]
masked | 2 => Some((1, 3))
counter | 28 => nothing
"#;

/// The answer to a case of this table.
pub fn answer<F, EF, C>(alloc: Global, challenger: C, case: &str) -> Result<String, Fail>
where
    F: TwoAdicField + PrimeField64 + Debug,
    EF: ExtensionField<F>,
    C: FieldChallenger<F> + CanObserve<ClearCommitment<F>> + ExtensionChallenger<F, EF> + Clone,
{
    let (name, height) = apart(case)?;
    let [height] = numbers_in::<1>(height)?;
    if F::TWO_ADICITY < 3 {
        return Err(Fail::new("no such height"));
    }
    if name == "masked" {
        let config = masked::<F, EF, C>(alloc, challenger, "1")?;
        let sizes = masked_sizes(alloc, &config, &PreprocessedAir, 2);
        return shown(alloc, &sizes);
    }
    let config: ClearConfig<F, EF, C> = StarkConfig::new(ClearPcs::new(), challenger);
    match name {
        "preprocessed" => set_up_text(alloc, &config, &PreprocessedAir, 2),
        "empty trace" => {
            // A preprocessed trace is declared, without columns.
            let air: DeclaringAir<F> = DeclaringAir {
                reads_next: false,
                preprocessed: Some(0),
                reads_preprocessed_next: false,
                periodic: Vec::new(alloc),
                hint: None,
            };
            set_up_text(alloc, &config, &air, height as usize)
        }
        _ => set_up_text(alloc, &config, &CounterAir, height as usize),
    }
}

/// What is set up for an AIR at a height.
fn set_up_text<F, EF, C, A: BaseAir<F>>(
    alloc: Global,
    config: &ClearConfig<F, EF, C>,
    air: &A,
    degree_bits: usize,
) -> Result<String, Fail>
where
    F: TwoAdicField + PrimeField64 + Debug,
    EF: ExtensionField<F>,
    C: FieldChallenger<F> + CanObserve<ClearCommitment<F>> + ExtensionChallenger<F, EF> + Clone,
    requires height { HasHeight degree_bits (A.preprocessed_trace air.now) }
    requires within { IsCommittedWithin degree_bits F.TWO_ADICITY (A.preprocessed_trace air.now) }
{
    let keys = set_up(alloc, config, air, degree_bits).ok_or("nothing was set up")?;
    match keys {
        Some((data, key)) => {
            let committed = key.commitment.matrices();
            let again = data.commitment.matrices();
            let columns = data.prover_data.matrices();
            Ok(format!(in alloc;
                "{} {} {} {} {committed:?} {again:?} {columns:?}",
                key.width, key.degree_bits, data.width, data.degree_bits
            )?)
        }
        None => Ok(String::from_str(alloc, "nothing")?),
    }
}

/// The width and the logarithm of the committed height of a key over the masked scheme.
fn masked_sizes<F, EF, C, A: BaseAir<F>>(
    alloc: Global,
    config: &MaskedConfig<F, EF, C>,
    air: &A,
    degree_bits: usize,
) -> Option<(usize, usize)>
where
    F: TwoAdicField + PrimeField64,
    EF: ExtensionField<F>,
    C: FieldChallenger<F> + CanObserve<ClearCommitment<F>> + ExtensionChallenger<F, EF> + Clone,
    requires height { HasHeight degree_bits (A.preprocessed_trace air.now) }
    requires within { IsCommittedWithin (degree_bits + 1) F.TWO_ADICITY
        (A.preprocessed_trace air.now) }
{
    let (_data, key) = setup_preprocessed(alloc, config, air, degree_bits).ok()??;
    Some((key.width, key.degree_bits))
}
