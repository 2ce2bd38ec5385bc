//! The test of the counter's constraints over the subgroup of two points, at zeta 3 and alpha 4.
use crate::airs::row_in;
use crate::calls::equation;
use stark_bench::ClearCommitment;
use stark_samples::CounterAir;
use stark_support::{
    CanObserve, ExtensionChallenger, ExtensionField, FieldChallenger, PrimeField64, TwoAdicField,
};
use stark_test_cases::{above, apart, elements_in, numbers_in, shown};
use std::alloc::Global;
use std::fmt::Debug;
use std::test::Fail;

pub const CASES: &str = r#"
# The current value and the quotient | the current preprocessed row, where there is one. The next value is 7, the public one 5. The
# vanishing value is 8: the quotient -1 fits -8, and nothing else does.
4 12288 | none => Some(Ok(()))
5 12288 | none => Some(Err(OodEvaluationMismatch { index: None }))
4 1 | none => Some(Err(OodEvaluationMismatch { index: None }))
4 0 | none => Some(Err(OodEvaluationMismatch { index: None }))

# A present current row of one preprocessed column beside no next row.
4 12288 | 1 => Some(Err(InvalidProofShape(PreprocessedTraceWidthMismatch { expected_local: 1, expected_next: 1, got_local: 1, got_next: 0 })))
"#;

// Over 2013265921, where -1 is 2013265920: 12288 is another number there.
pub const OVER_BABY_BEAR: &str = r#"
4 2013265920 | none => Some(Ok(()))
4 12288 | none => Some(Err(OodEvaluationMismatch { index: None }))
5 2013265920 | none => Some(Err(OodEvaluationMismatch { index: None }))
4 2013265919 | none => Some(Err(OodEvaluationMismatch { index: None }))
"#;

/// What is answered at one point of the counter, whose public value is 5 and whose next row has 7.
/// The preprocessed values are given where they are there.
fn equation_text<F, EF, C>(
    alloc: Global,
    local: u32,
    values: &[EF],
    is_there: bool,
    quotient: u32,
) -> Result<String, Fail>
where
    F: PrimeField64 + TwoAdicField,
    EF: ExtensionField<F> + Debug,
    C: FieldChallenger<F> + CanObserve<ClearCommitment<F>> + ExtensionChallenger<F, EF> + Clone,
{
    let mut current = Vec::new(alloc);
    current.push(above::<F, EF>(local))?;
    let next = row_in::<F, EF>(alloc, "7")?;
    let public_values = elements_in::<F>(alloc, "5")?;
    if current.len() != 1 || next.len() != 1 || public_values.len() != 1 {
        return Err(Fail::new("other rows"));
    }
    let preprocessed = if is_there { Some(values) } else { None };
    let answer = equation::<F, EF, C, CounterAir>(
        &CounterAir,
        &current,
        &next,
        preprocessed,
        &public_values,
        1,
        above::<F, EF>(3),
        above::<F, EF>(4),
        above::<F, EF>(quotient),
    );
    shown(alloc, &answer)
}

/// The answer to a case of this table.
pub fn answer<F, EF, C>(alloc: Global, case: &str) -> Result<String, Fail>
where
    F: PrimeField64 + TwoAdicField,
    EF: ExtensionField<F> + Debug,
    C: FieldChallenger<F> + CanObserve<ClearCommitment<F>> + ExtensionChallenger<F, EF> + Clone,
{
    let (numbers, preprocessed) = apart(case)?;
    let [local, quotient] = numbers_in::<2>(numbers)?;
    let is_there = preprocessed != "none";
    let text = if is_there { preprocessed } else { "" };
    let values = row_in::<F, EF>(alloc, text)?;
    equation_text::<F, EF, C>(alloc, local, &values, is_there, quotient)
}
