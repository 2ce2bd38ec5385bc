//! Proofs that are accepted and refused, over the scheme in the clear. They are of one trace column
//! and one chunk, and a case gives one: the challenger | the AIR | the trace's value at zeta, the
//! chunk, the height's logarithm, the witness, the bits of work | the column's coefficients |
//! the trace's value at the next point | the public values | the key's width and height | the
//! preprocessed row | the next one.
use crate::airs::row_in;
use crate::calls::{self, ClearConfig, ClearShown};
use crate::kinds::NamedAir;
use crate::named_air::named_air;
use p3_uni_stark::{
    Commitments, OpenedValues, PreprocessedOpenedValues, PreprocessedVerifierKey, Proof,
};
use stark_air::Air;
use stark_bench::ClearCommitment;
use stark_clear::{ClearPcs, ClearProof};
use stark_parts::{StarkChallenger, StarkConfig};
use stark_support::{ExtensionField, PrimeField64, TwoAdicField};
use stark_test_cases::{above, apart, element, elements_in, numbers_in};
use std::alloc::{AllocError, Global};
use std::test::Fail;

pub const CASES: &str = r#"
# zeta 3 is one of the few points at which the trace 5, 7 passes
script 4 0 0 0 3 0 0 0 | counter | 4 12288 1 0 0 | 6150 6144 | 7 | 5 | none | none | none => Ok(())
script 4 0 0 0 3 0 0 0 | counter | 5 12288 0 0 0 | 5 | 5 | 5 | none | none | none => Ok(())
script 4 0 0 0 3 0 0 0 | counter | 3 6143 1 0 0 | 6 12288 | 9 | 5 | none | none | none => Ok(())

# The number of public values comes before the next row, and that before the witness. At one bit the script's challenger takes
# 1, and not 0.
script 4 0 0 0 3 0 0 0 | counter | 4 12288 1 0 0 | 6150 6144 | none | 5 5 | none | none | none => Err(InvalidProofShape(PublicValuesLengthMismatch { expected: 1, got: 2 }))
script 4 0 0 0 3 0 0 0 | counter | 4 12288 1 7 0 | 6150 6144 | 7 | empty | none | none | none => Err(InvalidProofShape(PublicValuesLengthMismatch { expected: 1, got: 0 }))
script 4 0 0 0 3 0 0 0 | counter | 4 12288 1 7 0 | 6150 6144 | none | 5 | none | none | none => Err(InvalidProofShape(TraceNextMismatch { air: None }))
script 4 0 0 0 3 0 0 0 | counter | 4 12288 1 7 0 | 6150 6144 | 7 | 5 | none | none | none => Err(InvalidProofShape(NonCanonicalOodPowWitness))
script 4 0 0 0 3 0 0 0 | counter | 4 12288 1 0 1 | 6150 6144 | 7 | 5 | none | none | none => Err(InvalidOodPowWitness)
script 4 0 0 0 3 0 0 0 | counter | 4 12288 1 1 1 | 6150 6144 | 7 | 5 | none | none | none => Ok(())

# At 1, a point of the trace's domain, the columns are 5 and, at the next point, 6: true and false values are refused alike. Of
# a wrong value and a wrong public value the wrong value is told. Then another quotient, and another public value.
script 4 0 0 0 1 0 0 0 | counter | 4 12288 1 0 0 | 6150 6144 | 7 | 5 | none | none | none => Err(OodPointInDomain)
script 4 0 0 0 1 0 0 0 | counter | 5 12288 1 0 0 | 6150 6144 | 7 | 5 | none | none | none => Err(OodPointInDomain)
script 4 0 0 0 1 0 0 0 | counter | 5 12288 1 0 0 | 6150 6144 | 6 | 5 | none | none | none => Err(OodPointInDomain)
script 4 0 0 0 3 0 0 0 | counter | 5 12288 1 0 0 | 6150 6144 | 7 | 6 | none | none | none => Err(InvalidOpeningArgument(Value { round: 0 }))
script 4 0 0 0 3 0 0 0 | counter | 4 12288 1 0 0 | 6150 6144 | 6 | 6 | none | none | none => Err(InvalidOpeningArgument(Value { round: 0 }))
script 4 0 0 0 3 0 0 0 | counter | 4 12287 1 0 0 | 6150 6144 | 7 | 5 | none | none | none => Err(OodEvaluationMismatch { index: None })
script 4 0 0 0 3 0 0 0 | counter | 4 12288 1 0 0 | 6150 6144 | 7 | 6 | none | none | none => Err(OodEvaluationMismatch { index: None })

# Other heights than the columns'. Of 2^9 points 3 is one, of 2^8 none; the scheme's greatest height is 2^12.
script 4 0 0 0 3 0 0 0 | counter | 4 12288 0 0 0 | 6150 6144 | 7 | 5 | none | none | none => Err(InvalidOpeningArgument(Shape { round: 0 }))
script 4 0 0 0 3 0 0 0 | counter | 4 12288 2 0 0 | 6150 6144 | 7 | 5 | none | none | none => Err(InvalidOpeningArgument(Shape { round: 0 }))
script 4 0 0 0 3 0 0 0 | counter | 4 12288 8 0 0 | 6150 6144 | 7 | 5 | none | none | none => Err(InvalidOpeningArgument(Shape { round: 0 }))
script 4 0 0 0 3 0 0 0 | counter | 4 12288 9 0 0 | 6150 6144 | 7 | 5 | none | none | none => Err(OodPointInDomain)
script 4 0 0 0 3 0 0 0 | counter | 4 12288 12 0 0 | 6150 6144 | 7 | 5 | none | none | none => Err(OodPointInDomain)
script 4 0 0 0 3 0 0 0 | counter | 4 12288 13 0 0 | 6150 6144 | 7 | 5 | none | none | none => Err(InvalidProofShape(DegreeBitsTooLarge { air: None, maximum: 12, got: 13 }))
script 4 0 0 0 3 0 0 0 | counter | 4 12288 64 0 0 | 6150 6144 | 7 | 5 | none | none | none => Err(InvalidProofShape(DegreeBitsTooLarge { air: None, maximum: 12, got: 64 }))

# Proofs of the zero column: on one row the first row's selector is one everywhere; on two it is 2 on the first, and first - 1
# no multiple of Z_H. A next row isn't read.
script 4 0 0 0 3 0 0 0 | first row | 0 0 0 0 0 | 0 | none | empty | none | none | none => Ok(())
script 4 0 0 0 3 0 0 0 | first row | 0 9524 1 0 0 | 0 0 | none | empty | none | none | none => Err(OodEvaluationMismatch { index: None })
script 4 0 0 0 3 0 0 0 | first row | 0 0 0 0 0 | 0 | 0 | empty | none | none | none => Err(InvalidProofShape(UnexpectedTraceNext { air: None }))

# The cubic's quotient is twice as large as the trace.
script 4 0 0 0 3 0 0 0 | cubic | 0 0 12 0 0 | 0 | none | empty | none | none | none => Err(InvalidProofShape(QuotientDomainTooLarge { air: None, maximum: 12, got: 13 }))
script 4 0 0 0 3 0 0 0 | cubic | 0 0 13 0 0 | 0 | none | empty | none | none | none => Err(InvalidProofShape(DegreeBitsTooLarge { air: None, maximum: 12, got: 13 }))

# The cubic with an author's bound on the degree that is past all domains, at the greatest height and the least.
script 4 0 0 0 3 0 0 0 | bounded cubic | 0 0 12 0 0 | 0 | none | empty | none | none | none => Err(InvalidProofShape(QuotientDomainTooLarge { air: None, maximum: 63, got: 64 }))
script 4 0 0 0 3 0 0 0 | bounded cubic | 0 0 0 0 0 | 0 | none | empty | none | none | none => Err(InvalidProofShape(QuotientDomainTooLarge { air: None, maximum: 63, got: 64 }))

# A trace that is the preprocessed column 1, 2, 3, 4; at 3 it is 6813. The rows come before the key's width, and that before its height.
script 4 0 0 0 3 0 0 0 | preprocessed | 6813 0 2 0 0 | 6147 739 6144 11549 | none | empty | 1 2 | 6813 | none => Ok(())
script 4 0 0 0 3 0 0 0 | preprocessed | 6813 0 2 0 0 | 6147 739 6144 11549 | none | empty | 1 2 | 6814 | none => Err(InvalidOpeningArgument(Value { round: 2 }))
script 4 0 0 0 3 0 0 0 | preprocessed | 6813 0 2 0 0 | 6147 739 6144 11549 | none | empty | 1 2 | none | none => Err(InvalidProofShape(PreprocessedTraceWidthMismatch { expected_local: 1, expected_next: 0, got_local: 0, got_next: 0 }))
script 4 0 0 0 3 0 0 0 | preprocessed | 6813 0 2 0 0 | 6147 739 6144 11549 | none | empty | 1 2 | 6813 1 | none => Err(InvalidProofShape(PreprocessedTraceWidthMismatch { expected_local: 1, expected_next: 0, got_local: 2, got_next: 0 }))
script 4 0 0 0 3 0 0 0 | preprocessed | 6813 0 2 0 0 | 6147 739 6144 11549 | none | empty | 1 2 | 6813 | 1 => Err(InvalidProofShape(PreprocessedTraceWidthMismatch { expected_local: 1, expected_next: 0, got_local: 1, got_next: 1 }))
script 4 0 0 0 3 0 0 0 | preprocessed | 6813 0 2 0 0 | 6147 739 6144 11549 | none | empty | 1 2 | 6813 | empty => Err(InvalidProofShape(UnexpectedPreprocessedNext { air: None }))
script 4 0 0 0 3 0 0 0 | preprocessed | 6813 0 2 0 0 | 6147 739 6144 11549 | none | empty | none | 6813 | none => Err(InvalidProofShape(PreprocessedVerifierKeyInconsistency))
script 4 0 0 0 3 0 0 0 | preprocessed | 6813 0 2 0 0 | 6147 739 6144 11549 | none | empty | 2 2 | 6813 1 | none => Err(InvalidProofShape(PreprocessedVerifierKeyInconsistency))
script 4 0 0 0 3 0 0 0 | preprocessed | 6813 0 2 0 0 | 6147 739 6144 11549 | none | empty | 2 3 | 6813 1 | none => Err(InvalidProofShape(PreprocessedVerifierKeyInconsistency))
script 4 0 0 0 3 0 0 0 | preprocessed | 6813 0 2 0 0 | 6147 739 6144 11549 | none | empty | 1 3 | 6813 | none => Err(InvalidProofShape(PreprocessedDegreeMismatch { vk_degree_bits: 3, proof_degree_bits: 2 }))
script 4 0 0 0 3 0 0 0 | preprocessed | 6813 0 2 0 0 | 6147 739 6144 11549 | none | empty | 1 3 | none | none => Err(InvalidProofShape(PreprocessedTraceWidthMismatch { expected_local: 1, expected_next: 0, got_local: 0, got_next: 0 }))

# Counters have no preprocessed columns.
script 4 0 0 0 3 0 0 0 | counter | 4 12288 1 0 0 | 6150 6144 | 7 | 5 | none | 1 | none => Err(InvalidProofShape(UnexpectedPreprocessedValues { air: None }))
script 4 0 0 0 3 0 0 0 | counter | 4 12288 1 0 0 | 6150 6144 | 7 | 5 | 0 1 | none | none => Err(InvalidProofShape(PreprocessedVerifierKeyInconsistency))
script 4 0 0 0 3 0 0 0 | counter | 4 12288 1 0 0 | 6150 6144 | 7 | 5 | 1 1 | 1 | none => Err(InvalidProofShape(PreprocessedVerifierKeyInconsistency))
"#;

// Over 2013265921: the line through 5 and 6 on the points 1 and -1 has the coefficients
// 11/2 and -1/2, in Python 1006632966 and 1006632960; its quotient is -1. Behind the accepted proof
// an opened value is altered, then the next one, the quotient, the public value and the point; then
// the height, which is at most 27, and once the point is one of order 2^27.
pub const OVER_BABY_BEAR: &str = r#"
script 4 0 0 0 3 0 0 0 | counter | 4 2013265920 1 0 0 | 1006632966 1006632960 | 7 | 5 | none | none | none => Ok(())
script 4 0 0 0 3 0 0 0 | counter | 5 2013265920 1 0 0 | 1006632966 1006632960 | 7 | 5 | none | none | none => Err(InvalidOpeningArgument(Value { round: 0 }))
script 4 0 0 0 3 0 0 0 | counter | 4 2013265920 1 0 0 | 1006632966 1006632960 | 6 | 5 | none | none | none => Err(InvalidOpeningArgument(Value { round: 0 }))
script 4 0 0 0 3 0 0 0 | counter | 4 2013265919 1 0 0 | 1006632966 1006632960 | 7 | 5 | none | none | none => Err(OodEvaluationMismatch { index: None })
script 4 0 0 0 3 0 0 0 | counter | 4 2013265920 1 0 0 | 1006632966 1006632960 | 7 | 6 | none | none | none => Err(OodEvaluationMismatch { index: None })
script 4 0 0 0 1 0 0 0 | counter | 4 2013265920 1 0 0 | 1006632966 1006632960 | 7 | 5 | none | none | none => Err(OodPointInDomain)
script 4 0 0 0 3 0 0 0 | counter | 4 2013265920 27 0 0 | 1006632966 1006632960 | 7 | 5 | none | none | none => Err(InvalidOpeningArgument(Shape { round: 0 }))
script 4 0 0 0 440564289 0 0 0 | counter | 4 2013265920 27 0 0 | 1006632966 1006632960 | 7 | 5 | none | none | none => Err(OodPointInDomain)
script 4 0 0 0 3 0 0 0 | counter | 4 2013265920 28 0 0 | 1006632966 1006632960 | 7 | 5 | none | none | none => Err(InvalidProofShape(DegreeBitsTooLarge { air: None, maximum: 27, got: 28 }))
script 4 0 0 0 3 0 0 0 | cubic | 0 0 27 0 0 | 0 | none | empty | none | none | none => Err(InvalidProofShape(QuotientDomainTooLarge { air: None, maximum: 27, got: 28 }))
"#;

/// The answer to a case of this table.
pub fn answer<F, EF, C>(alloc: Global, challenger: C, case: &str) -> Result<String, Fail>
where
    F: PrimeField64 + TwoAdicField,
    EF: ExtensionField<F>,
    C: StarkChallenger<F, EF, ClearCommitment<F>>,
{
    let (_challenger, case) = apart(case)?;
    let (name, text) = apart(case)?;
    let shown = shown_in::<F, EF>(alloc, text)?;
    let config = StarkConfig::new(ClearPcs::new(), challenger).with_ood_proof_of_work_bits(
        shown.bits,
    );
    let air = named_air::<F>(alloc, name)?;
    Ok(verdict::<F, EF, C, NamedAir<F>>(alloc, &config, &air, &shown)?)
}

/// What a verifier is shown of a proof, and the bits of work that it asks for.
#[derive(Drop)]
struct Shown<F, EF> {
    proof: ClearShown<F, EF>,
    public_values: Vec<F>,
    key: Option<PreprocessedVerifierKey<ClearCommitment<F>>>,
    bits: usize,
}

/// The commitment to one matrix of one column.
fn committed<F: PrimeField64>(alloc: Global, column: &str) -> Result<ClearCommitment<F>, Fail> {
    let matrix = vec![in alloc; elements_in::<F>(alloc, column)?]?;
    Ok(ClearCommitment::new(vec![in alloc; matrix]?))
}

/// The commitment to one chunk that is a base number everywhere, on a domain of so many points.
fn committed_chunk<F: PrimeField64>(
    alloc: Global,
    value: u32,
    size: usize,
) -> Result<ClearCommitment<F>, Fail> {
    let mut matrix = Vec::new(alloc);
    for coordinate in 0..4u32 {
        let mut column = Vec::new(alloc);
        for power in 0..size {
            let number = if coordinate == 0 && power == 0 {
                value
            } else {
                0
            };
            column.push(element(number))?;
        }
        matrix.push(column)?;
    }
    Ok(ClearCommitment::new(vec![in alloc; matrix]?))
}

/// A row of elements; none where the text says so.
fn opened_in<F: PrimeField64, EF: ExtensionField<F>>(
    alloc: Global,
    text: &str,
) -> Result<Option<Vec<EF>>, Fail> {
    if text == "none" {
        return Ok(None);
    }
    Ok(Some(row_in::<F, EF>(alloc, text)?))
}

/// The chunk's value in the first coordinate, and zeros.
fn chunk_row<F: PrimeField64, EF: ExtensionField<F>>(
    alloc: Global,
    chunk: u32,
) -> Result<Vec<EF>, Fail> {
    let mut row = Vec::new(alloc);
    for number in [chunk, 0, 0, 0] {
        row.push(above::<F, EF>(number))?;
    }
    Ok(row)
}

/// The current preprocessed row | the next one.
fn preprocessed_rows_in<F: PrimeField64, EF: ExtensionField<F>>(
    alloc: Global,
    text: &str,
) -> Result<Option<PreprocessedOpenedValues<EF>>, Fail> {
    let (local, next) = apart(text)?;
    match opened_in::<F, EF>(alloc, local)? {
        Some(local) => Ok(Some(PreprocessedOpenedValues {
            local,
            next: opened_in::<F, EF>(alloc, next)?,
        })),
        None => Ok(None),
    }
}

/// The key by its width and height, with the preprocessed column 1, 2, 3, 4; none where the text
/// says so.
fn key_in<F: PrimeField64>(
    alloc: Global,
    text: &str,
) -> Result<Option<PreprocessedVerifierKey<ClearCommitment<F>>>, Fail> {
    if text == "none" {
        return Ok(None);
    }
    let [width, degree_bits] = numbers_in::<2>(text)?;
    Ok(Some(PreprocessedVerifierKey {
        width: width as usize,
        degree_bits: degree_bits as usize,
        commitment: committed::<F>(alloc, "6147 739 6144 11549")?,
    }))
}

/// The commitments to a column, and to a chunk on as many points.
fn commitments_of<F: PrimeField64>(
    alloc: Global,
    column: &str,
    chunk: u32,
) -> Result<Commitments<ClearCommitment<F>>, Fail> {
    let trace = committed::<F>(alloc, column)?;
    let size = elements_in::<F>(alloc, column)?.len();
    Ok(Commitments {
        trace,
        quotient_chunks: committed_chunk::<F>(alloc, chunk, size)?,
        random: None,
    })
}

/// What is opened: the value at zeta and the chunk | the value at the next point | the preprocessed
/// rows.
fn openings_of<F: PrimeField64, EF: ExtensionField<F>>(
    alloc: Global,
    local: u32,
    chunk: u32,
    next: &str,
    rows: &str,
) -> Result<OpenedValues<EF>, Fail> {
    let mut trace_local = Vec::new(alloc);
    trace_local.push(above::<F, EF>(local))?;
    let mut quotient_chunks = Vec::new(alloc);
    quotient_chunks.push(chunk_row::<F, EF>(alloc, chunk)?)?;
    Ok(OpenedValues {
        trace_local,
        trace_next: opened_in::<F, EF>(alloc, next)?,
        preprocessed: preprocessed_rows_in::<F, EF>(alloc, rows)?,
        quotient_chunks,
        random: None,
    })
}

/// What the verifier of an AIR answers.
fn verdict<F, EF, C, A>(
    alloc: Global,
    config: &ClearConfig<F, EF, C>,
    air: &A,
    shown: &Shown<F, EF>,
) -> Result<String, AllocError>
where
    F: PrimeField64 + TwoAdicField,
    EF: ExtensionField<F>,
    C: StarkChallenger<F, EF, ClearCommitment<F>>,
    A: Air<F>,
{
    let (proof, key) = (&shown.proof, shown.key.as_ref());
    calls::answer::<F, EF, C, A>(alloc, config, air, proof, &shown.public_values, key)
}

/// The parts of a case: the numbers of a proof | the column | the next value | the public values |
/// the key | the preprocessed rows.
#[derive(Clone, Copy)]
struct Parts<'a> {
    numbers: [u32; 5],
    column: &'a str,
    next: &'a str,
    public_values: &'a str,
    key: &'a str,
    rows: &'a str,
}

fn parts_in(text: &str) -> Result<Parts<'_>, Fail> {
    let (numbers, rest) = apart(text)?;
    let (column, rest) = apart(rest)?;
    let (next, rest) = apart(rest)?;
    let (public_values, rest) = apart(rest)?;
    let (key, rows) = apart(rest)?;
    Ok(Parts {
        numbers: numbers_in::<5>(numbers)?,
        column,
        next,
        public_values,
        key,
        rows,
    })
}

fn shown_in<F: PrimeField64, EF: ExtensionField<F>>(
    alloc: Global,
    text: &str,
) -> Result<Shown<F, EF>, Fail> {
    let parts = parts_in(text)?;
    let [_local, _chunk, _degree_bits, _witness, bits] = parts.numbers;
    Ok(Shown {
        proof: proof_of::<F, EF>(alloc, &parts)?,
        public_values: elements_in::<F>(alloc, parts.public_values)?,
        key: key_in::<F>(alloc, parts.key)?,
        bits: bits as usize,
    })
}

fn proof_of<F: PrimeField64, EF: ExtensionField<F>>(
    alloc: Global,
    parts: &Parts<'_>,
) -> Result<ClearShown<F, EF>, Fail> {
    let [local, chunk, degree_bits, witness, _bits] = parts.numbers;
    Ok(Proof {
        commitments: commitments_of::<F>(alloc, parts.column, chunk)?,
        opened_values: openings_of::<F, EF>(alloc, local, chunk, parts.next, parts.rows)?,
        opening_proof: ClearProof,
        degree_bits: degree_bits as usize,
        ood_pow_witness: element(witness),
        alpha_pow_witness: element(0),
    })
}
