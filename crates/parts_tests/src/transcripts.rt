//! Transcripts of both sides, over any challenger.
ghost use Rattle.std.specs.Prelude.{◌≡◌, IfOk, length};

use stark_bench::ClearCommitment;
use stark_parts::StarkChallenger;
use stark_support::{ExtensionField, Field, PrimeField64};
use stark_test_cases::{apart, element, numbers_in, shown};
use stark_transcript::{
    StarkProverTranscript, StarkShape, StarkTranscriptFailure, StarkVerifierTranscript,
    alpha_without_work,
};
use std::alloc::{AllocError, Global};
use std::test::Fail;

// The challenger | a table's name | what is given.
pub const CASES: &str = r#"
# The preprocessed columns, the bits of work before alpha, and whether a commitment to the columns is given: the failure of a
# verifier's first phase.
sha256 | first | 3 0 0 => Some(MissingPreprocessedCommitment { width: 3 })
sha256 | first | 0 0 1 => Some(UnexpectedPreprocessedCommitment)
sha256 | first | 3 0 1 => None
sha256 | first | 0 0 0 => None
script 4 3 | first | 0 16 0 => Some(AlphaPowWitness { bits: 16 })
script 4 3 | first | 3 16 1 => Some(AlphaPowWitness { bits: 16 })
script 4 3 | first | 3 16 0 => Some(MissingPreprocessedCommitment { width: 3 })

# Whether there is randomization, the bits of work before zeta, and whether a random commitment is given: the failure of the second phase.
script 4 3 | second | 1 0 0 => Some(MissingRandomCommitment)
script 4 3 | second | 0 0 1 => Some(UnexpectedRandomCommitment)
script 4 3 | second | 0 16 0 => Some(OodPowWitness { bits: 16 })
script 4 3 | second | 1 0 1 => None

# What is committed to and handed over: the trace, the preprocessed columns, a public value, the quotient and a random commitment.
# Work is done before alpha and before zeta. A verifier draws what a prover does, and so does a prover that stops behind zeta.
sha256 | sides | 1 2 7 3 4 => the same

# Two runs, of which the second changes one of them. Answered is whether the next draw is another one, and whether alpha is.
sha256 | changed | 1 2 7 3 4 | 8 2 7 3 4 => true true
sha256 | changed | 1 2 7 3 4 | 1 8 7 3 4 => true true
sha256 | changed | 1 2 7 3 4 | 1 2 8 3 4 => true true
sha256 | changed | 1 2 7 3 4 | 1 2 7 8 4 => true false
sha256 | changed | 1 2 7 3 4 | 1 2 7 3 8 => true false
"#;

/// A verifier's run whose failure is asked for: the shape, whether zeta is drawn behind alpha, and
/// which commitments are given beside the trace and the quotient.
#[derive(Clone, Copy)]
struct Asked {
    preprocessed_width: usize,
    has_randomization: bool,
    ood_pow_bits: usize,
    constraint_pow_bits: usize,
    draws_zeta: bool,
    is_preprocessed_given: bool,
    is_random_given: bool,
}

/// What a case asks for: a failure, or runs by the numbers of the trace, the preprocessed columns,
/// a public value, the quotient and the random commitment.
enum Question {
    Failure(Asked),
    Sides([u32; 5]),
    Changed([u32; 5], [u32; 5]),
}

fn question_in(case: &str) -> Result<Question, Fail> {
    let (_challenger, case) = apart(case)?;
    let (table, text) = apart(case)?;
    match table {
        "first" => Ok(Question::Failure(first_phase(numbers_in::<3>(text)?))),
        "second" => Ok(Question::Failure(second_phase(numbers_in::<3>(text)?))),
        "sides" => Ok(Question::Sides(numbers_in::<5>(text)?)),
        "changed" => {
            let (honest, other) = apart(text)?;
            let honest = numbers_in::<5>(honest)?;
            Ok(Question::Changed(honest, numbers_in::<5>(other)?))
        }
        _ => Err(Fail::new("no such table")),
    }
}

/// A run that is given up behind alpha.
fn first_phase(numbers: [u32; 3]) -> Asked {
    let [width, bits, is_given] = numbers;
    Asked {
        preprocessed_width: width as usize,
        has_randomization: false,
        ood_pow_bits: 0,
        constraint_pow_bits: bits as usize,
        draws_zeta: false,
        is_preprocessed_given: is_given == 1,
        is_random_given: false,
    }
}

/// A run whose first phase nothing can fail, and that is given up behind zeta.
fn second_phase(numbers: [u32; 3]) -> Asked {
    let [is_random, bits, is_given] = numbers;
    Asked {
        preprocessed_width: 0,
        has_randomization: is_random == 1,
        ood_pow_bits: bits as usize,
        constraint_pow_bits: 0,
        draws_zeta: true,
        is_preprocessed_given: false,
        is_random_given: is_given == 1,
    }
}

/// The answer to a case of these tables.
pub fn answer<F, EF, C>(alloc: Global, mut challenger: C, case: &str) -> Result<String, Fail>
where
    F: PrimeField64,
    EF: ExtensionField<F>,
    C: StarkChallenger<F, EF, ClearCommitment<F>>,
{
    match question_in(case)? {
        Question::Failure(asked) => {
            shown(alloc, &failure::<F, EF, C>(alloc, &mut challenger, asked)?)
        }
        Question::Sides(numbers) => both_sides::<F, EF, C>(alloc, &challenger, &numbers),
        Question::Changed(honest, other) => {
            changed::<F, EF, C>(alloc, &challenger, &honest, &other)
        }
    }
}

fn commitment<F: PrimeField64>(
    alloc: Global,
    number: u32,
) -> Result<ClearCommitment<F>, AllocError> {
    let mut column = Vec::new(alloc);
    column.push(element(number))?;
    let matrix = vec![in alloc; column]?;
    Ok(ClearCommitment::new(vec![in alloc; matrix]?))
}

/// The commitments to the trace, the preprocessed columns, the quotient and a random polynomial.
fn commitments<F: PrimeField64>(
    alloc: Global,
    numbers: &[u32; 5],
) -> Result<Vec<ClearCommitment<F>>, AllocError> {
    let [trace, preprocessed, _public, quotient, random] = *numbers;
    let mut list = Vec::new(alloc);
    for number in [trace, preprocessed, quotient, random] {
        list.push(commitment(alloc, number)?)?;
    }
    Ok(list)
}

/// The list of one public value.
fn one<F: Drop>(alloc: Global, x: F) -> Result<Vec<F>, AllocError>
    ensures { IfOk result (λ v. length v.items ≡ 1) }
{
    let mut public_values = Vec::new(alloc);
    public_values.push(x)?;
    Ok(public_values)
}

fn shape(
    preprocessed_width: usize,
    has_randomization: bool,
    ood_pow_bits: usize,
    constraint_pow_bits: usize,
) -> StarkShape
    ensures public_values { result.num_public_values ≡ 1 }
    ensures width { result.preprocessed_width ≡ preprocessed_width }
    ensures randomization { result.has_randomization ≡ has_randomization }
{
    StarkShape {
        log_ext_degree: 1,
        log_degree: 1,
        main_width: 1,
        preprocessed_width,
        num_public_values: 1,
        num_periodic_columns: 0,
        num_quotient_chunks: 1,
        opens_main_next_row: true,
        opens_preprocessed_next_row: false,
        has_randomization,
        ood_pow_bits,
        constraint_pow_bits,
    }
}

/// What a verifier is handed in a run, and how far it goes.
#[derive(Drop)]
struct Handed<'a, F, K> {
    trace: &'a K,
    preprocessed: Option<&'a K>,
    public_values: &'a [F],
    quotient: &'a K,
    random: Option<&'a K>,
    first: F,
    second: F,
    draws_zeta: bool,
    delegates: bool,
}

/// How a verifier's run ends: with both draws, or given up, for a failure or for none.
#[derive(Drop)]
enum Ended<EF> {
    Drawn { alpha: EF, zeta: EF },
    GivenUp(Option<StarkTranscriptFailure>),
}

/// What is drawn in a run, and the witnesses of the work before it.
#[derive(Clone, Copy)]
struct Drawn<F, EF> {
    alpha: EF,
    zeta: EF,
    first: F,
    second: F,
}

/// What is drawn in a run and behind it.
#[derive(Clone, Copy)]
struct Played<F, EF> {
    drawn: Drawn<F, EF>,
    next: F,
}

/// A verifier's run: it is given up where a phase fails, and behind the last phase that it is to
/// play.
fn verified<F, EF, K, C>(
    alloc: Global,
    challenger: &mut C,
    shape: StarkShape,
    handed: &Handed<'_, F, K>,
) -> Result<Ended<EF>, AllocError>
where
    F: PrimeField64,
    EF: ExtensionField<F>,
    C: StarkChallenger<F, EF, K>,
    requires shape { shape.num_public_values ≡ 1 }
    requires public_values { length handed.now.public_values.now ≡ 1 }
{
    let mut transcript = StarkVerifierTranscript::<C, F, EF>::new(alloc, challenger, shape)?;
    let bound = transcript.constraint_phase::<K>(
        handed.trace,
        handed.preprocessed,
        handed.public_values,
        handed.first,
    );
    let alpha = match bound {
        Ok(alpha) => alpha,
        Err(failure) => {
            transcript.abort();
            return Ok(Ended::GivenUp(Some(failure)));
        }
    };
    if !handed.draws_zeta {
        transcript.abort();
        return Ok(Ended::GivenUp(None));
    }
    let drawn = transcript.ood_phase::<K>(handed.quotient, handed.random, handed.second);
    let zeta = match drawn {
        Ok(zeta) => zeta,
        Err(failure) => {
            transcript.abort();
            return Ok(Ended::GivenUp(Some(failure)));
        }
    };
    if !handed.delegates {
        transcript.abort();
        return Ok(Ended::GivenUp(None));
    }
    transcript.delegate(leave::<C>);
    transcript.finish();
    Ok(Ended::Drawn { alpha, zeta })
}

/// A prover's run up to the end, or aborted after zeta; none where there is no witness of one bit.
/// The commitments are to the trace, the preprocessed columns, the quotient and a random
/// polynomial.
fn proved<F, EF, K, C>(
    alloc: Global,
    challenger: &mut C,
    commitments: &[K],
    public_values: &[F],
    delegates: bool,
) -> Result<Option<Drawn<F, EF>>, AllocError>
where
    F: PrimeField64,
    EF: ExtensionField<F>,
    C: StarkChallenger<F, EF, K>,
    requires { length public_values.now ≡ 1 }
{
    let [trace, preprocessed, quotient, random] = commitments else {
        return Ok(None);
    };
    let shape = shape(3, true, 1, 1);
    let mut transcript = StarkProverTranscript::<C, F, EF>::new(alloc, challenger, shape)?;
    let Ok((alpha, first)) = transcript.constraint_phase::<K>(
        trace,
        Some(preprocessed),
        public_values,
    ) else {
        transcript.abort();
        return Ok(None);
    };
    let Ok((zeta, second)) = transcript.ood_phase::<K>(quotient, Some(random)) else {
        transcript.abort();
        return Ok(None);
    };
    if delegates {
        transcript.delegate(leave::<C>);
        transcript.finish();
    } else {
        transcript.abort();
    }
    Ok(both_found(alpha, zeta, first, second))
}

/// Leaves a lent challenger as it is.
fn leave<C>(_lent: &mut C) {}

/// What was drawn, where both witnesses were found.
fn both_found<F, EF>(
    alpha: EF,
    zeta: EF,
    first: Option<F>,
    second: Option<F>,
) -> Option<Drawn<F, EF>>
where
    F: Copy,
    EF: Copy,
{
    Some(Drawn {
        alpha,
        zeta,
        first: first?,
        second: second?,
    })
}

/// The failure of a verifier, where the witnesses are zero.
fn failure<F, EF, C>(
    alloc: Global,
    challenger: &mut C,
    asked: Asked,
) -> Result<Option<StarkTranscriptFailure>, AllocError>
where
    F: PrimeField64,
    EF: ExtensionField<F>,
    C: StarkChallenger<F, EF, ClearCommitment<F>>,
{
    let own = commitment::<F>(alloc, 5)?;
    let other = commitment::<F>(alloc, 2)?;
    let public_values = one(alloc, F::from_u8(5))?;
    let handed = Handed {
        trace: &own,
        preprocessed: given(asked.is_preprocessed_given, &other),
        public_values: &public_values,
        quotient: &own,
        random: given(asked.is_random_given, &other),
        first: F::ZERO,
        second: F::ZERO,
        draws_zeta: asked.draws_zeta,
        delegates: false,
    };
    let shape = shape(
        asked.preprocessed_width,
        asked.has_randomization,
        asked.ood_pow_bits,
        asked.constraint_pow_bits,
    );
    Ok(cause(verified::<F, EF, ClearCommitment<F>, C>(alloc, challenger, shape, &handed)?))
}

fn given<K>(is_given: bool, x: &K) -> Option<&K> {
    if is_given { Some(x) } else { None }
}

/// The failure for which a run was given up.
fn cause<EF: Copy>(ended: Ended<EF>) -> Option<StarkTranscriptFailure> {
    match ended {
        Ended::GivenUp(failure) => failure,
        Ended::Drawn { .. } => None,
    }
}

/// A prover's run with this challenger first, and the next draw behind it.
fn run<F, EF, C>(
    alloc: Global,
    fresh: &C,
    numbers: &[u32; 5],
    delegates: bool,
) -> Result<Played<F, EF>, Fail>
where
    F: PrimeField64,
    EF: ExtensionField<F>,
    C: StarkChallenger<F, EF, ClearCommitment<F>>,
{
    let commitments = commitments::<F>(alloc, numbers)?;
    let public_values = one(alloc, element(numbers[2]))?;
    let mut challenger = fresh.duplicate(alloc)?;
    let drawn = proved(
        alloc,
        &mut challenger,
        &commitments,
        &public_values,
        delegates,
    )?;
    let next: F = challenger.sample();
    let drawn = drawn.ok_or("no witness of one bit")?;
    Ok(Played { drawn, next })
}

/// A verifier's run with this challenger first and a prover's witnesses, and the next draw behind
/// it; none where it is given up.
fn check<F, EF, C>(
    alloc: Global,
    fresh: &C,
    numbers: &[u32; 5],
    proved: &Drawn<F, EF>,
) -> Result<Option<Played<F, EF>>, AllocError>
where
    F: PrimeField64,
    EF: ExtensionField<F>,
    C: StarkChallenger<F, EF, ClearCommitment<F>>,
{
    let commitments = commitments::<F>(alloc, numbers)?;
    let [trace, preprocessed, quotient, random] = commitments.as_slice() else {
        return Ok(None);
    };
    let public_values = one(alloc, element(numbers[2]))?;
    let handed = Handed {
        trace,
        preprocessed: Some(preprocessed),
        public_values: &public_values,
        quotient,
        random: Some(random),
        first: proved.first,
        second: proved.second,
        draws_zeta: true,
        delegates: true,
    };
    let mut challenger = fresh.duplicate(alloc)?;
    let ended = verified(alloc, &mut challenger, shape(3, true, 1, 1), &handed)?;
    let next: F = challenger.sample();
    Ok(checked(ended, proved, next))
}

/// A verifier's run with these witnesses, where it was not given up.
fn checked<F: Copy, EF: Copy>(
    ended: Ended<EF>,
    proved: &Drawn<F, EF>,
    next: F,
) -> Option<Played<F, EF>> {
    match ended {
        Ended::Drawn { alpha, zeta } => Some(Played {
            drawn: Drawn {
                alpha,
                zeta,
                first: proved.first,
                second: proved.second,
            },
            next,
        }),
        Ended::GivenUp(_) => None,
    }
}

/// Whether two runs are the same in what is drawn in them and behind them, and in the witnesses.
fn same<F: Field, EF: Field>(one: &Played<F, EF>, other: &Played<F, EF>) -> bool {
    one.next == other.next
        && one.drawn.alpha == other.drawn.alpha
        && one.drawn.zeta == other.drawn.zeta
        && one.drawn.first == other.drawn.first
        && one.drawn.second == other.drawn.second
}

fn both_sides<F, EF, C>(alloc: Global, fresh: &C, numbers: &[u32; 5]) -> Result<String, Fail>
where
    F: PrimeField64,
    EF: ExtensionField<F>,
    C: StarkChallenger<F, EF, ClearCommitment<F>>,
{
    alpha_without_work::<C, F, EF, ClearCommitment<F>>();
    let proved = run::<F, EF, C>(alloc, fresh, numbers, true)?;
    let checked = check::<F, EF, C>(alloc, fresh, numbers, &proved.drawn)?;
    let checked = checked.ok_or("the verifier fails")?;
    let aborted = run::<F, EF, C>(alloc, fresh, numbers, false)?;
    agreement(alloc, same(&checked, &proved), same(&aborted, &proved))
}

fn agreement(alloc: Global, verifier: bool, aborted: bool) -> Result<String, Fail> {
    let text = match (verifier, aborted) {
        (true, true) => "the same",
        (false, _) => "the verifier draws otherwise",
        (true, false) => "the prover that stops draws otherwise",
    };
    Ok(String::from_str(alloc, text)?)
}

fn changed<F, EF, C>(
    alloc: Global,
    fresh: &C,
    honest: &[u32; 5],
    other: &[u32; 5],
) -> Result<String, Fail>
where
    F: PrimeField64,
    EF: ExtensionField<F>,
    C: StarkChallenger<F, EF, ClearCommitment<F>>,
{
    let honest = run::<F, EF, C>(alloc, fresh, honest, true)?;
    let other = run::<F, EF, C>(alloc, fresh, other, true)?;
    let is_next_other = other.next != honest.next;
    two_words(
        alloc,
        is_next_other,
        other.drawn.alpha != honest.drawn.alpha,
    )
}

fn two_words(alloc: Global, one: bool, other: bool) -> Result<String, Fail> {
    Ok(format!(in alloc; "{one} {other}")?)
}
