//! The scheme in the clear: what it commits to and opens, what it refuses, and a configuration that
//! has it.
ghost use Rattle.std.specs.Prelude.{◌≤◌, ◌^◌, ◌/◌, IfErr, IfOk, length, map};
ghost use Rattle.std.specs.Int.{IsPowerOfTwo};
ghost use Rattle.stark_support.specs.Claims.{IfRefused, claim_view};
ghost use Rattle.parts_tests.specs.Matrices.{HasRowsOf};

use stark_bench::{ClearCommitment, Coset};
use stark_clear::{ClearCall, ClearError, ClearPcs, ClearProof};
use stark_parts::{StarkConfig, StarkGenericConfig, Val};
use stark_support::{
    CanObserve, CanSample, DomainShape, DomainVal, ExtensionChallenger, ExtensionField,
    FieldChallenger, JsonCodec, OpeningClaim, Pcs, PeriodicColumns, PeriodicLdeTable,
    PolynomialSpace, PrimeField64, RowMajorMatrix, SchemeFault, TwoAdicField, UnivariateStarkPcs,
    value_from_bytes,
};
use stark_test_cases::{above, all_above_in, apart, elements_in, numbers_in, shown};
use std::alloc::{AllocError, Global};
use std::fmt::Debug;
use std::test::Fail;

// A table's name | what is given.
pub const CASES: &str = r#"
# The logarithm of the domain's size | the column. 6150 + 6144 X takes 5 and 6 on the subgroup of two points; on a larger one
# zeros stand behind. Answered are the commitment and the prover's data.
committed | 1 | 5 6 => [[[6150, 6144]]] [[[6150, 6144]]]
committed | 2 | 5 6 => [[[6150, 6144, 0, 0]]] [[[6150, 6144, 0, 0]]]

# The column's coefficients | the points; 12286 is 3 times the generator of the subgroup of two points.
opened | 6150 6144 | 3 0 0 0, 12286 0 0 0 => Some([[[[Ext4 { c0: 4, c1: 0, c2: 0, c3: 0 }], [Ext4 { c0: 7, c1: 0, c2: 0, c3: 0 }]]]])

# A first column | the values that are claimed of it at 3 and 12286 | a second one, of which 4 and 7 are claimed there. A wrong
# shape is told before any wrong value.
claims | 6150 6144 | 4 7 | 6150 6144 => Ok(())
claims | 6150 6144 | 5 7 | 6150 6144 => Err(Refused(Value { round: 0 }))
claims | 6150 6144 | 4 6 | 6150 6144 => Err(Refused(Value { round: 0 }))
claims | 6150 6144 | 4 7 | 6150 6145 => Err(Refused(Value { round: 1 }))
claims | 6150 6144 0 | 4 7 | 6150 6144 => Err(Refused(Shape { round: 0 }))
claims | 6150 6144 | 5 7 | 6150 6144 0 => Err(Refused(Shape { round: 1 }))
claims | 6150 | 5 7 | 6150 6144 0 => Err(Refused(Shape { round: 0 }))

# Where the scheme stops. Without masks it commits to nothing; it refuses where it stops here.
randomization | nowhere => Ok(None)
randomization | Randomization => Err(Refused(Stopped))
randomization | Open => Ok(None)

# A commitment is written as it was read, and so is a proof.
commitment | [[[6150,6144]]] => [[[6150,6144]]] is ClearCommitment { matrices: [[[6150, 6144]]] }
commitment | null => Invalid
commitment | [[6150,6144]] => Invalid
commitment | [[[6150,12289]]] => Invalid
commitment | [[[6150],null]] => Invalid
proof | null => null is ClearProof
proof | false => Invalid

# The line through 5 and 6 is (11 - X) / 2: at 11 and -11 it is 0 and 11. Committed and read back on its own domain, it has its
# rows again. On a domain of two points each of two chunks has one row, and so columns of one coefficient.
beside | 6150 6144 => Some(RowMajorMatrix { values: [0, 11], width: 1 })
again | 5 6 => Some(RowMajorMatrix { values: [5, 6], width: 1 })
quotient | 1 2 3 4 => Some(ClearCommitment { matrices: [[[1], [2]], [[3], [4]]] })

# Beside four rows the column 5, 6 repeats twice: at x it is the line's value at x^2, here 121 and -121 in turn.
periodic | 5 6 | 7 => Some([[12234, 7], [66, 7], [12234, 7], [66, 7]])

# The least and the greatest height and is_zk, and the first draws of two of its challengers.
configuration | sha256 => ([0, 12, 0], [9721, 9721])
"#;

// Over 2013265921, computed in Python by Lagrange's interpolation: the line through 5 and
// 6 on the points 1 and -1, and the one that is 4 at 3 and 7 at 12286. The domains beside the
// subgroups have the shift 31. The draw is this challenger's first one in `fields_tests`.
pub const OVER_BABY_BEAR: &str = r#"
committed | 1 | 5 6 => [[[1006632966, 1006632960]]] [[[1006632966, 1006632960]]]
committed | 2 | 5 6 => [[[1006632966, 1006632960, 0, 0]]] [[[1006632966, 1006632960, 0, 0]]]
opened | 1006632966 1006632960 | 1 2 3 4, 2013265918 0 0 0 => Some([[[[Ext4 { c0: 5, c1: 2013265920, c2: 1006632959, c3: 2013265919 }], [Ext4 { c0: 7, c1: 0, c2: 0, c3: 0 }]]]])
claims | 1222416127 1605793880 | 4 7 | 1222416127 1605793880 => Ok(())
claims | 1222416127 1605793880 | 4 6 | 1222416127 1605793880 => Err(Refused(Value { round: 0 }))
claims | 1222416127 1605793880 | 4 7 | 1222416127 1605793881 => Err(Refused(Value { round: 1 }))
randomization | nowhere => Ok(None)
randomization | Randomization => Err(Refused(Stopped))
commitment | [[[12289,2013265920]]] => [[[12289,2013265920]]] is ClearCommitment { matrices: [[[12289, 2013265920]]] }
commitment | [[[12289,2013265921]]] => Invalid
beside | 1006632966 1006632960 => Some(RowMajorMatrix { values: [2013265911, 21], width: 1 })
again | 5 2013265920 => Some(RowMajorMatrix { values: [5, 2013265920], width: 1 })
periodic | 5 6 | 7 => Some([[2013265446, 7], [486, 7], [2013265446, 7], [486, 7]])
configuration | sha256 => ([0, 27, 0], [1340248034, 1340248034])
"#;

/// The answer to a case of these tables.
pub fn answer<F, EF, C>(alloc: Global, challenger: C, case: &str) -> Result<String, Fail>
where
    F: PrimeField64 + TwoAdicField + JsonCodec + Debug,
    EF: ExtensionField<F> + Debug,
    C: FieldChallenger<F> + CanObserve<ClearCommitment<F>> + ExtensionChallenger<F, EF> + Clone,
{
    let (table, text) = apart(case)?;
    match table {
        "committed" => committed_text::<F, EF>(alloc, text),
        "opened" => opened_text::<F, EF>(alloc, text),
        "claims" => claims_text::<F, EF>(alloc, text),
        "randomization" => randomization_text::<F, EF>(alloc, text),
        "commitment" => json_text::<ClearCommitment<F>>(alloc, text),
        "proof" => json_text::<ClearProof>(alloc, text),
        "beside" => beside_text::<F, EF>(alloc, text),
        "again" => again_text::<F, EF>(alloc, text),
        "quotient" => quotient_text::<F, EF>(alloc, text),
        "periodic" => periodic_text::<F, EF>(alloc, text),
        "configuration" => {
            let config = StarkConfig::new(ClearPcs::new(), challenger);
            configuration_text::<StarkConfig<ClearPcs<F>, EF, C>>(alloc, &config)
        }
        _ => Err(Fail::new("no such table")),
    }
}

// The scheme leaves the challenger alone, so that a number serves as one.
type AnyChallenger = u8;

/// The commitment to one matrix of one column.
fn listed<F: PrimeField64>(alloc: Global, text: &str) -> Result<ClearCommitment<F>, Fail> {
    let columns = vec![in alloc; elements_in::<F>(alloc, text)?]?;
    Ok(ClearCommitment::new(vec![in alloc; columns]?))
}

/// What `commit` makes of one column on the subgroup of `2^log_size` points; nothing where it
/// doesn't fit.
#[tactic(auto, using(stark_support::specs::LogarithmFacts::two_power_at_most))]
fn committed<F, EF>(
    alloc: Global,
    log_size: usize,
    column: Vec<F>,
) -> Option<(ClearCommitment<F>, ClearCommitment<F>)>
where
    F: PrimeField64 + TwoAdicField,
    EF: ExtensionField<F>,
{
    if log_size > F::TWO_ADICITY {
        return None;
    }
    let scheme: ClearPcs<F> = ClearPcs::new();
    let domain: Coset<F> = Coset::subgroup(log_size);
    let matrix = RowMajorMatrix::new_col(column);
    if matrix.height() != 2 || domain.size() < 2 {
        return None;
    }
    <ClearPcs<F> as Pcs<EF, AnyChallenger>>::commit(&scheme, alloc, domain, matrix).ok()
}

fn committed_text<F, EF>(alloc: Global, text: &str) -> Result<String, Fail>
where
    F: PrimeField64 + TwoAdicField + Debug,
    EF: ExtensionField<F> + Debug,
{
    let (log_size, values) = apart(text)?;
    let [log_size] = numbers_in::<1>(log_size)?;
    let column = elements_in::<F>(alloc, values)?;
    let made = committed::<F, EF>(alloc, log_size as usize, column);
    let (commitment, data) = made.ok_or("nothing was committed to")?;
    Ok(format!(in alloc; "{:?} {:?}", commitment.matrices(), data.matrices())?)
}

/// The values of a commitment's matrices, opened at two points each.
fn opened<F, EF>(
    alloc: Global,
    data: &ClearCommitment<F>,
    points: Vec<EF>,
) -> Result<Option<Vec<Vec<Vec<Vec<EF>>>>>, AllocError>
where
    F: PrimeField64 + TwoAdicField,
    EF: ExtensionField<F>,
{
    let scheme: ClearPcs<F> = ClearPcs::new();
    let rounds = vec![in alloc; (data, vec![in alloc; points]?)]?;
    let opened = <ClearPcs<F> as UnivariateStarkPcs<EF, AnyChallenger>>::open_with_preprocessing(
        &scheme, alloc, rounds, &mut 0, None,
    );
    match opened {
        Ok((values, _)) => Ok(Some(values)),
        Err(_) => Ok(None),
    }
}

fn opened_text<F, EF>(alloc: Global, text: &str) -> Result<String, Fail>
where
    F: PrimeField64 + TwoAdicField + Debug,
    EF: ExtensionField<F> + Debug,
{
    let (column, points) = apart(text)?;
    let data = listed::<F>(alloc, column)?;
    let opened = opened::<F, EF>(alloc, &data, all_above_in::<F, EF>(alloc, points)?)?;
    shown(alloc, &opened)
}

/// What verifying says of claims: none where it accepts them.
fn refusal_of<F, EF>(
    alloc: Global,
    claims: Vec<OpeningClaim<'_, EF, ClearCommitment<F>, Coset<F>>>,
) -> Result<(), SchemeFault<ClearError>>
where
    F: PrimeField64 + TwoAdicField,
    EF: ExtensionField<F>,
{
    let scheme: ClearPcs<F> = ClearPcs::new();
    <ClearPcs<F> as UnivariateStarkPcs<EF, AnyChallenger>>::verify_with_preprocessing(
        &scheme,
        alloc,
        claims,
        &ClearProof,
        &mut 0,
        None,
    )
}

/// The claim that a commitment's only column, on the subgroup of two points, has these values at 3
/// and 12286; none where there are no two points.
fn claim<'a, F, EF>(
    alloc: Global,
    commitment: &'a ClearCommitment<F>,
    local: &'a [EF],
    next: &'a [EF],
) -> Result<Option<OpeningClaim<'a, EF, ClearCommitment<F>, Coset<F>>>, AllocError>
where
    F: PrimeField64 + TwoAdicField,
    EF: ExtensionField<F>,
{
    if F::TWO_ADICITY < 1 {
        return Ok(None);
    }
    let domain: Coset<F> = Coset::subgroup(1);
    let mut points = Vec::new(alloc);
    points.push((above::<F, EF>(3), local))?;
    points.push((above::<F, EF>(12286), next))?;
    let mut claimed = Vec::new(alloc);
    claimed.push((domain, points))?;
    Ok(Some((commitment, claimed)))
}

/// What verifying says of two columns and these values of each at 3 and 12286.
fn refusal<F, EF>(
    alloc: Global,
    first: &ClearCommitment<F>,
    second: &ClearCommitment<F>,
    values: &[EF],
) -> Result<Result<(), SchemeFault<ClearError>>, Fail>
where
    F: PrimeField64 + TwoAdicField,
    EF: ExtensionField<F>,
{
    if values.len() != 4 {
        return Err(Fail::new("other values"));
    }
    let first = claim(alloc, first, &values[0..1], &values[1..2])?.ok_or("no points")?;
    let second = claim(alloc, second, &values[2..3], &values[3..4])?.ok_or("no points")?;
    Ok(refusal_of::<F, EF>(alloc, vec![in alloc; first, second]?))
}

fn claims_text<F, EF>(alloc: Global, text: &str) -> Result<String, Fail>
where
    F: PrimeField64 + TwoAdicField + Debug,
    EF: ExtensionField<F> + Debug,
{
    let (first, rest) = apart(text)?;
    let (claimed, second) = apart(rest)?;
    let [local, next] = numbers_in::<2>(claimed)?;
    let first = listed::<F>(alloc, first)?;
    let second = listed::<F>(alloc, second)?;
    let mut values = Vec::new(alloc);
    for number in [local, next, 4, 7] {
        values.push(above::<F, EF>(number))?;
    }
    let answer = refusal(alloc, &first, &second, &values)?;
    shown(alloc, &answer)
}

/// The scheme that stops at a call, or nowhere.
fn stopping_scheme<F: PrimeField64>(text: &str) -> Result<ClearPcs<F>, Fail> {
    match text {
        "nowhere" => Ok(ClearPcs::new()),
        "Randomization" => Ok(ClearPcs::stopping_at(ClearCall::Randomization)),
        "Open" => Ok(ClearPcs::stopping_at(ClearCall::Open)),
        _ => Err(Fail::new("no such call")),
    }
}

fn randomization_text<F, EF>(alloc: Global, text: &str) -> Result<String, Fail>
where
    F: PrimeField64 + TwoAdicField + Debug,
    EF: ExtensionField<F>,
{
    let scheme = stopping_scheme::<F>(text)?;
    let domain: Coset<F> = Coset::subgroup(0);
    let made = <ClearPcs<F> as UnivariateStarkPcs<
        EF,
        AnyChallenger,
    >>::get_opt_randomization_poly_commitment(&scheme, alloc, domain);
    shown(alloc, &made)
}

/// What is read of a text, as it is written, or the fault.
fn json_text<T: JsonCodec + Debug + Drop>(alloc: Global, text: &str) -> Result<String, Fail> {
    let value = value_from_bytes(alloc, text.as_bytes())
        .ok()
        .ok_or("no JSON")?;
    match T::from_json(alloc, &value) {
        Ok(read) => {
            let written = read.to_json(alloc)?.to_string(alloc)?;
            Ok(format!(in alloc; "{written} is {read:?}")?)
        }
        Err(fault) => shown(alloc, &fault),
    }
}

/// The rows of a commitment's first matrix on a domain beside the subgroup of two points.
fn rows_beside<F, EF>(
    alloc: Global,
    data: &ClearCommitment<F>,
) -> Result<Option<RowMajorMatrix<F>>, AllocError>
where
    F: PrimeField64 + TwoAdicField,
    EF: ExtensionField<F>,
{
    if F::TWO_ADICITY < 1 {
        return Ok(None);
    }
    let scheme: ClearPcs<F> = ClearPcs::new();
    let domain: Coset<F> = Coset::subgroup(1);
    match domain.try_create_disjoint_domain(2) {
        Some(apart) => {
            let rows = <ClearPcs<F> as Pcs<EF, AnyChallenger>>::get_evaluations_on_domain(
                &scheme, alloc, data, 0, apart,
            )?;
            Ok(Some(rows))
        }
        None => Ok(None),
    }
}

/// The table of columns beside the subgroup of four points, on a domain apart from it.
fn periodic_table<F, EF>(
    alloc: Global,
    columns: &[Vec<F>],
) -> Result<Option<PeriodicLdeTable<F>>, AllocError>
where
    F: PrimeField64 + TwoAdicField,
    EF: ExtensionField<F>,
{
    if F::TWO_ADICITY < 2 {
        return Ok(None);
    }
    let scheme: ClearPcs<F> = ClearPcs::new();
    let trace: Coset<F> = Coset::subgroup(2);
    let Ok(periodic) = PeriodicColumns::new(columns, trace.size()) else {
        return Ok(None);
    };
    match trace.try_create_disjoint_domain(4) {
        Some(apart) => {
            let table = <ClearPcs<F> as UnivariateStarkPcs<
                EF,
                AnyChallenger,
            >>::build_periodic_lde_table(&scheme, alloc, &periodic, trace, apart)?;
            Ok(Some(table))
        }
        None => Ok(None),
    }
}

/// The commitment to a quotient's values in two chunks, on the domain of four points beside the
/// subgroup of two.
fn committed_quotient<F, EF>(alloc: Global, values: Vec<F>) -> Option<ClearCommitment<F>>
where
    F: PrimeField64 + TwoAdicField,
    EF: ExtensionField<F>,
{
    if F::TWO_ADICITY < 2 || values.len() != 4 {
        return None;
    }
    let scheme: ClearPcs<F> = ClearPcs::new();
    let domain: Coset<F> = Coset::subgroup(1);
    let apart = domain.try_create_disjoint_domain(2)?;
    if apart.size() != 2 {
        return None;
    }
    let flat = RowMajorMatrix::new(values, 2);
    let made = <ClearPcs<F> as UnivariateStarkPcs<EF, AnyChallenger>>::commit_quotient(
        &scheme, alloc, apart, flat, 2,
    );
    match made {
        Ok((commitment, _)) => Some(commitment),
        Err(_) => None,
    }
}

fn beside_text<F, EF>(alloc: Global, text: &str) -> Result<String, Fail>
where
    F: PrimeField64 + TwoAdicField + Debug,
    EF: ExtensionField<F> + Debug,
{
    let value = rows_beside::<F, EF>(alloc, &listed::<F>(alloc, text)?)?;
    shown(alloc, &value)
}

fn quotient_text<F, EF>(alloc: Global, text: &str) -> Result<String, Fail>
where
    F: PrimeField64 + TwoAdicField + Debug,
    EF: ExtensionField<F> + Debug,
{
    let value = committed_quotient::<F, EF>(alloc, elements_in::<F>(alloc, text)?);
    shown(alloc, &value)
}

/// Claims that any scheme's relation accepts are never refused.
fn check_accepted<EF, C, P>(
    alloc: Global,
    scheme: &P,
    claims: Vec<OpeningClaim<'_, EF, P::Commitment, P::Domain>>,
    proof: &P::Proof,
    challenger: &mut C,
    index: Option<usize>,
) -> Result<(), SchemeFault<P::Error>>
where
    P: UnivariateStarkPcs<EF, C>,
    EF: ExtensionField<DomainVal<P::Domain>>,
    requires { P.scheme.Accepts scheme.now (map (claim_view P.Domain.coset_of) claims.items)
        proof.now challenger.old index }
    ensures { IfErr result (λ fault. IfRefused fault (λ _. ⊥)) }
{
    scheme.verify_with_preprocessing(alloc, claims, proof, challenger, index)
}

/// Committed by any scheme on its own domain and read back there, a matrix has its rows again.
fn read_back<EF, C, P>(
    alloc: Global,
    scheme: &P,
    matrix: RowMajorMatrix<DomainVal<P::Domain>>,
) -> Result<RowMajorMatrix<DomainVal<P::Domain>>, SchemeFault<P::ProverError>>
where
    P: UnivariateStarkPcs<EF, C>,
    EF: ExtensionField<DomainVal<P::Domain>>,
    requires power { IsPowerOfTwo (length matrix.values.items / matrix.width) }
    requires within { length matrix.values.items / matrix.width ≤ 2 ^ P.scheme.log_max_trace_height
        scheme.now }
    ensures { IfOk result (λ rows. HasRowsOf rows matrix) }
{
    let domain = scheme.natural_domain_for_degree(matrix.height());
    let (_commitment, prover_data) = scheme.commit(alloc, domain, matrix)?;
    let rows = scheme.get_evaluations_on_domain(alloc, &prover_data, 0, domain)?;
    Ok(rows)
}

fn rows_again<F, EF>(alloc: Global, column: Vec<F>) -> Option<RowMajorMatrix<F>>
where
    F: PrimeField64 + TwoAdicField,
    EF: ExtensionField<F>,
{
    let scheme: ClearPcs<F> = ClearPcs::new();
    let matrix = RowMajorMatrix::new_col(column);
    let greatest: Coset<F> = Coset::subgroup(F::TWO_ADICITY);
    if matrix.height() != 2 || greatest.size() < 2 {
        return None;
    }
    read_back::<EF, AnyChallenger, ClearPcs<F>>(alloc, &scheme, matrix).ok()
}

fn again_text<F, EF>(alloc: Global, text: &str) -> Result<String, Fail>
where
    F: PrimeField64 + TwoAdicField + Debug,
    EF: ExtensionField<F> + Debug,
{
    let value = rows_again::<F, EF>(alloc, elements_in::<F>(alloc, text)?);
    shown(alloc, &value)
}

/// The rows of a table of two columns.
fn rows_of<F: Copy + Drop>(
    alloc: Global,
    table: &PeriodicLdeTable<F>,
) -> Result<Vec<Vec<F>>, AllocError> {
    let mut rows = Vec::new(alloc);
    if table.width() == 2 {
        for row in 0..4usize {
            let mut pair = Vec::new(alloc);
            pair.push(table.get(row, 0))?;
            pair.push(table.get(row, 1))?;
            rows.push(pair)?;
        }
    }
    Ok(rows)
}

fn periodic_text<F, EF>(alloc: Global, text: &str) -> Result<String, Fail>
where
    F: PrimeField64 + TwoAdicField + Debug,
    EF: ExtensionField<F> + Debug,
{
    let (first, second) = apart(text)?;
    let columns = vec![in alloc;
        elements_in::<F>(alloc, first)?,
        elements_in::<F>(alloc, second)?,
    ]?;
    let rows = match periodic_table::<F, EF>(alloc, &columns)? {
        Some(table) => Some(rows_of(alloc, &table)?),
        None => None,
    };
    shown(alloc, &rows)
}

/// The least and the greatest height, and is_zk, of any configuration, with the first draws of two
/// of its challengers.
fn configuration_text<SC: StarkGenericConfig>(alloc: Global, config: &SC) -> Result<String, Fail>
where
    Val<SC>: Debug,
{
    let scheme = config.pcs();
    let heights = [
        scheme.log_min_trace_height(),
        scheme.log_max_trace_height(),
        config.is_zk(),
    ];
    let first: Val<SC> = config.initialise_challenger(alloc)?.sample();
    let second: Val<SC> = config.initialise_challenger(alloc)?.sample();
    Ok(format!(in alloc; "({heights:?}, [{first:?}, {second:?}])")?)
}
