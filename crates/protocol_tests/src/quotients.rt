//! Quotient values on the coset beside a trace's rows, a group of points at a time.
ghost use Rattle.std.specs.Prelude.{IfSome};
ghost use Rattle.stark_quotient.specs.PointwiseQuotient.{HasShape};

use crate::calls::ClearConfig;
use crate::kinds::NamedAir;
use crate::named_air::named_air;
use p3_uni_stark::quotient_values;
use stark_air::{Air, AirLayout, BaseAir};
use stark_bench::ClearCommitment;
use stark_clear::ClearPcs;
use stark_parts::{StarkConfig, StarkGenericConfig, Val};
use stark_protocol::natural_domain;
use stark_support::{
    CanObserve, DomainShape, ExtensionChallenger, Field, FieldChallenger, PackedExtensionField,
    PackedField, PolynomialSpace, PrimeField64, RowMajorMatrix, TwoAdicField, UnivariateStarkPcs,
};
use stark_test_cases::{above, apart, elements_in, numbers_in, shown};
use std::alloc::{AllocError, Global};
use std::fmt::Debug;
use std::test::Fail;

// The AIR | the logarithm of the height | the column on the coset | the public values: the values
// with alpha 4. The counter's trace 5, 6 is the line (11 - X) / 2; its quotient is -1 everywhere,
// and so is that of the trace 5 of height one. Over one row the mixed AIR's folded sum, 16 * (5 -
// 1) + 4 * (5 - 2) + (5 - 3), is 78, and the vanishing value at 11 is 10.
pub const CASES: &str = r#"
counter | 1 | 0 11 | 5 => Some([Ext4 { c0: 12288, c1: 0, c2: 0, c3: 0 }, Ext4 { c0: 12288, c1: 0, c2: 0, c3: 0 }])
counter | 1 | 0 4160 11 8140 | 5 => Some([Ext4 { c0: 12288, c1: 0, c2: 0, c3: 0 }, Ext4 { c0: 12288, c1: 0, c2: 0, c3: 0 }, Ext4 { c0: 12288, c1: 0, c2: 0, c3: 0 }, Ext4 { c0: 12288, c1: 0, c2: 0, c3: 0 }])
counter | 0 | 5 | 5 => Some([Ext4 { c0: 12288, c1: 0, c2: 0, c3: 0 }])
mixed | 0 | 5 | empty => Some([Ext4 { c0: 9839, c1: 0, c2: 0, c3: 0 }])
"#;

// Over 2013265921, on the coset of 31, computed in Python point by point: the folded sum
// with the selectors as sums, over x^n - 1. First the line again, then columns of no trace.
pub const OVER_BABY_BEAR: &str = r#"
counter | 1 | 2013265911 21 | 5 => Some([Ext4 { c0: 2013265920, c1: 0, c2: 0, c3: 0 }, Ext4 { c0: 2013265920, c1: 0, c2: 0, c3: 0 }])
counter | 1 | 2013265911 1395452948 21 617812984 | 5 => Some([Ext4 { c0: 2013265920, c1: 0, c2: 0, c3: 0 }, Ext4 { c0: 2013265920, c1: 0, c2: 0, c3: 0 }, Ext4 { c0: 2013265920, c1: 0, c2: 0, c3: 0 }, Ext4 { c0: 2013265920, c1: 0, c2: 0, c3: 0 }])
counter | 1 | 2013265920 1234567890 987654321 2000000000 | 1789456123 => Some([Ext4 { c0: 129871981, c1: 0, c2: 0, c3: 0 }, Ext4 { c0: 1640895520, c1: 0, c2: 0, c3: 0 }, Ext4 { c0: 445662223, c1: 0, c2: 0, c3: 0 }, Ext4 { c0: 736437077, c1: 0, c2: 0, c3: 0 }])
counter | 2 | 2013265920 1234567890 987654321 2000000000 2000000000 1789456123 16777216 1073741824 | 2013265920 => Some([Ext4 { c0: 1781178577, c1: 0, c2: 0, c3: 0 }, Ext4 { c0: 204076970, c1: 0, c2: 0, c3: 0 }, Ext4 { c0: 1063139564, c1: 0, c2: 0, c3: 0 }, Ext4 { c0: 337021566, c1: 0, c2: 0, c3: 0 }, Ext4 { c0: 1706050674, c1: 0, c2: 0, c3: 0 }, Ext4 { c0: 1940866677, c1: 0, c2: 0, c3: 0 }, Ext4 { c0: 1104228301, c1: 0, c2: 0, c3: 0 }, Ext4 { c0: 1370227589, c1: 0, c2: 0, c3: 0 }])
mixed | 0 | 5 | empty => Some([Ext4 { c0: 805306371, c1: 0, c2: 0, c3: 0 }])
cubic | 1 | 2013265920 1234567890 | empty => Some([Ext4 { c0: 2097152, c1: 0, c2: 0, c3: 0 }, Ext4 { c0: 800393384, c1: 0, c2: 0, c3: 0 }])
"#;

/// A matrix of one column, for an AIR that has one, where there are so many rows.
fn only_column<F: Field, A: BaseAir<F>>(
    air: &A,
    column: Vec<F>,
    height: usize,
) -> Option<RowMajorMatrix<F>>
    ensures { IfSome result (λ m. HasShape (A.layout air.now).main height
        (record { width = m.width; values = m.values.items })) }
{
    if air.width() != 1 || column.len() != height {
        return None;
    }
    Some(RowMajorMatrix::new_col(column))
}

/// The values for an AIR of one column, without preprocessed and periodic columns, over
/// `2^log_height` rows, on the coset that stands beside them with as many points as there are
/// values. None where they don't fit.
#[tactic(auto, using(stark_support::specs::LogarithmFacts::two_power_at_most))]
fn values_beside<'p, SC: StarkGenericConfig, A: Air<Val<SC>>>(
    alloc: Global,
    config: &SC,
    air: &A,
    log_height: usize,
    column: Vec<Val<SC>>,
    public_values: &'p [Val<SC>],
    alpha: SC::Challenge,
) -> Result<Option<Vec<SC::Challenge>>, AllocError>
where
    Val<SC>: PackedField,
    SC::Challenge: PackedExtensionField<Val<SC>>,
{
    let fits = air.preprocessed_width() == 0
        && air.periodic_columns().is_empty()
        && air.num_public_values() == public_values.len();
    if !fits || log_height > config.pcs().log_max_trace_height() || log_height > 63 {
        return Ok(None);
    }
    let trace_domain = natural_domain(config, log_height);
    let Some(apart) = trace_domain.try_create_disjoint_domain(column.len()) else {
        return Ok(None);
    };
    let Some(matrix) = only_column(air, column, apart.size()) else {
        return Ok(None);
    };
    let layout = AirLayout::from_air(air);
    let absent: Option<&'p RowMajorMatrix<Val<SC>>> = None;
    let values = quotient_values::<SC, A>(
        alloc,
        config.pcs(),
        air,
        public_values,
        layout,
        trace_domain,
        apart,
        &matrix,
        absent,
        alpha,
    )?;
    Ok(Some(values))
}

/// A case: the AIR, the logarithm of the height, the column and the public values.
#[derive(Drop)]
struct Given<F> {
    air: NamedAir<F>,
    log_height: usize,
    column: Vec<F>,
    public_values: Vec<F>,
}

fn given_in<F: PrimeField64>(alloc: Global, case: &str) -> Result<Given<F>, Fail> {
    let (name, rest) = apart(case)?;
    let (log_height, rest) = apart(rest)?;
    let (column, public_values) = apart(rest)?;
    let [log_height] = numbers_in::<1>(log_height)?;
    Ok(Given {
        air: named_air(alloc, name)?,
        log_height: log_height as usize,
        column: elements_in(alloc, column)?,
        public_values: elements_in(alloc, public_values)?,
    })
}

/// The values for the AIR of a case, with alpha 4.
fn values_of_row<SC: StarkGenericConfig>(
    alloc: Global,
    config: &SC,
    given: Given<Val<SC>>,
) -> Result<Option<Vec<SC::Challenge>>, AllocError>
where
    Val<SC>: PackedField,
    SC::Challenge: PackedExtensionField<Val<SC>>,
{
    let Given {
        air,
        log_height,
        column,
        public_values,
    } = given;
    let alpha = above::<Val<SC>, SC::Challenge>(4);
    values_beside(
        alloc,
        config,
        &air,
        log_height,
        column,
        &public_values,
        alpha,
    )
}

/// The answer to a case of this table.
pub fn answer<F, EF, C>(alloc: Global, challenger: C, case: &str) -> Result<String, Fail>
where
    F: TwoAdicField + PrimeField64 + PackedField,
    EF: PackedExtensionField<F> + Debug,
    C: FieldChallenger<F> + CanObserve<ClearCommitment<F>> + ExtensionChallenger<F, EF> + Clone,
{
    let given = given_in::<F>(alloc, case)?;
    let config = StarkConfig::new(ClearPcs::new(), challenger);
    shown(
        alloc,
        &values_of_row::<ClearConfig<F, EF, C>>(alloc, &config, given)?,
    )
}
