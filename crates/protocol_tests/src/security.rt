//! How many draws can be bad, and the numbers of security parameters.
ghost use Rattle.std.specs.Prelude.{◌≡◌, ◌≤◌, unwrap_or};
ghost use Rattle.stark_security.specs.Openings.{random_columns};

use crate::calls::{folded, recomposed_of_one};
use crate::cases::option_in;
use crate::kinds::{Kind, NamedAir, ReadRows, SizedAir};
use crate::named_air::named_air;
use crate::sizing::kind_in;
use p3_uni_stark::{OpeningShape, StarkSecurityParams, num_batched_openings, ood_error_bound};
use stark_air::{Air, AirLayout};
use stark_bench::{ClearCommitment, Coset, Ext4};
use stark_samples::CounterAir;
use stark_support::{
    CanObserve, ExtensionChallenger, ExtensionField, Field, FieldChallenger, FriRegime,
    GrindingSites, LagrangeSelectors, PolynomialSpace, PrimeField64, QuarticBase, TwoAdicField,
};
use stark_test_cases::{above, apart, element, numbers_in, shown};
use std::alloc::{AllocError, Global};
use std::test::Fail;

// A table's name | what is given.
pub const CASES: &str = r#"
# The AIR | the height's logarithm and is_zk: the bounds of bad alphas and of bad zetas; none where they are too great.
bound | counter | 1 0 => Some((1, 3))
bound | nothing | 1 0 => Some((0, 3))
bound | counter | 63 0 => Some((1, 18446744073709551615))
bound | cubic | 63 0 => None
bound | cubic | 3 0 => Some((0, 23))
bound | cubic | 4 1 => Some((0, 79))
bound | fibonacci | 3 0 => Some((4, 15))
bound | fibonacci | 4 1 => Some((4, 47))
bound | pair | 1 0 => Some((3, 3))
bound | preprocessed | 2 0 => Some((0, 7))

# The kind of an AIR | the author's bound on its degree | the same. The transition selector times two columns of degree 3 has degree
# 7; a hint raises the number of chunks alone.
bound of a kind | stepped square | none | 0 0 => Some((0, 1))
bound of a kind | stepped square | none | 2 0 => Some((0, 7))
bound of a kind | column | 3 | 2 0 => Some((0, 11))
bound of a kind | column | 18446744073709551615 | 0 0 => None

# The author's bound on the degree | whether a next row is read, whether the scheme hides, the bits of work before the batch.
# Answered are the batched functions, the constraints and their degree, the chunks, the greatest number of points, the work.
parameters | none | 1 0 0 => 20 3 1 1 2 GrindingSites { lookup_challenge: 0, out_of_domain: 0, batch_combination: 0 }
parameters | none | 0 0 0 => 12 3 1 1 2 GrindingSites { lookup_challenge: 0, out_of_domain: 0, batch_combination: 0 }
parameters | none | 1 1 0 => 28 3 1 2 2 GrindingSites { lookup_challenge: 0, out_of_domain: 0, batch_combination: 0 }
parameters | 1 | 1 1 16 => 28 3 1 2 2 GrindingSites { lookup_challenge: 0, out_of_domain: 0, batch_combination: 16 }
parameters | 3 | 1 1 16 => 52 3 1 8 2 GrindingSites { lookup_challenge: 0, out_of_domain: 0, batch_combination: 16 }
parameters | 5 | 1 1 16 => 84 3 1 16 2 GrindingSites { lookup_challenge: 0, out_of_domain: 0, batch_combination: 16 }
"#;

// The numbers below this one at which the equation of the counter's false trace 5, 7 holds.
pub const BAD_ZETAS: &str = "bad zetas | 12289 => [3, 12288]";

// Two rows and how many numbers are tried: those that, as alpha, fold the counter's constraints to
// zero in the first row. There they are 2 (first - 5) and 2 (second - first - 1), so that of the
// false trace 5, 7 none is bad.
pub const BAD_ALPHAS: &str = r#"
bad alphas | 5 7 12289 => []
bad alphas | 6 8 12289 => [12288]
bad alphas | 6 7 12289 => [0]
bad alphas | 7 12 12289 => [12287]
"#;

/// The answer to a case of these tables.
pub fn answer<F, EF, C>(alloc: Global, case: &str) -> Result<String, Fail>
where
    F: PrimeField64 + TwoAdicField + QuarticBase,
    EF: ExtensionField<F>,
    C: FieldChallenger<F> + CanObserve<ClearCommitment<F>> + ExtensionChallenger<F, EF> + Clone,
{
    let (table, text) = apart(case)?;
    match table {
        "bound" => bound_by_name::<F, EF>(alloc, text),
        "bound of a kind" => bound_of_kind::<F, EF>(alloc, text),
        "parameters" => parameters::<F>(alloc, text),
        "bad alphas" => bad_alphas::<F, EF, C>(alloc, text),
        "bad zetas" => bad_zetas::<F, EF, C>(alloc, text),
        _ => Err(Fail::new("no such table")),
    }
}

/// The bounds at a height; none where they are too great, or the height is.
fn bound<F: Field, EF: ExtensionField<F>, A: Air<F>>(
    alloc: Global,
    air: &A,
    degree_bits: usize,
    is_zk: usize,
) -> Result<Option<(usize, usize)>, AllocError> {
    if is_zk > 1 || is_zk > degree_bits || degree_bits > 63 {
        return Ok(None);
    }
    let layout = AirLayout::from_air::<F, A>(air);
    ood_error_bound::<F, EF, A>(alloc, air, layout, degree_bits, is_zk)
}

fn bound_text<F: Field, EF: ExtensionField<F>, A: Air<F>>(
    alloc: Global,
    air: &A,
    text: &str,
) -> Result<String, Fail> {
    let [degree_bits, is_zk] = numbers_in::<2>(text)?;
    let value = bound::<F, EF, A>(alloc, air, degree_bits as usize, is_zk as usize)?;
    shown(alloc, &value)
}

fn bound_by_name<F: PrimeField64, EF: ExtensionField<F>>(
    alloc: Global,
    text: &str,
) -> Result<String, Fail> {
    let (name, numbers) = apart(text)?;
    let air = named_air::<F>(alloc, name)?;
    bound_text::<F, EF, NamedAir<F>>(alloc, &air, numbers)
}

fn bound_of_kind<F: Field, EF: ExtensionField<F>>(
    alloc: Global,
    text: &str,
) -> Result<String, Fail> {
    let (kind, rest) = apart(text)?;
    let (hint, numbers) = apart(rest)?;
    let air = SizedAir {
        kind: kind_in(kind),
        hint: option_in(hint)?,
    };
    bound_text::<F, EF, SizedAir>(alloc, &air, numbers)
}

#[test]
fn batched_openings(rt: HostRuntime) -> Result<(), Fail> {
    let plain = OpeningShape::new();
    let hiding = OpeningShape::hiding(0);
    let value = [
        num_batched_openings(100, true, 0, false, 2, 4, plain),
        num_batched_openings(100, true, 0, false, 2, 4, hiding),
        num_batched_openings(100, false, 0, false, 2, 4, plain),
        num_batched_openings(100, true, 6, true, 2, 4, plain),
        num_batched_openings(3, true, 0, false, 1, 4, OpeningShape::Circle),
    ];
    assert_eq!(rt; value, [208, 212, 108, 220, 20]);
    Ok(())
}

/// Is_zk, the random codewords and the powers for one opening.
fn numbers_of(shape: OpeningShape) -> (OpeningShape, bool, usize, usize) {
    (
        shape,
        shape.is_zk(),
        shape.num_random_codewords(),
        shape.powers_per_opening(),
    )
}

#[test]
fn opening_shapes(rt: HostRuntime) -> Result<(), Fail> {
    let value = [
        Default::default(),
        OpeningShape::hiding(3),
        OpeningShape::Circle,
    ]
    .map(numbers_of);
    assert_eq!(rt;
        format!(in rt.alloc(); "{value:?}")?.as_str(),
        "[(TwoAdic, false, 0, 1), (Hiding { num_random_codewords: 3 }, true, 3, 1), (Circle, false, 0, 2)]"
    );
    Ok(())
}

pub fn regime() -> FriRegime
    ensures { result.log_blowup ≡ 1 }
{
    FriRegime {
        log_blowup: 1,
        num_queries: 100,
        log_final_poly_len: 3,
        max_log_arity: 2,
        commit_pow_bits: 5,
        query_pow_bits: 16,
    }
}

fn opening_shape(hides: bool) -> OpeningShape
    ensures { random_columns result ≡ 0 }
{
    if hides {
        OpeningShape::hiding(0)
    } else {
        OpeningShape::new()
    }
}

/// Of eight columns, of which the first three are zero.
fn params<F: QuarticBase + TwoAdicField>(
    alloc: Global,
    reads_next: bool,
    hint: Option<usize>,
    openings: OpeningShape,
    batch_combination: usize,
) -> Result<Option<StarkSecurityParams>, AllocError>
    requires hint { unwrap_or hint 0 ≤ 5 }
    requires random { random_columns openings ≡ 0 }
{
    if F::TWO_ADICITY < 3 {
        return Ok(None);
    }
    let air = SizedAir {
        kind: Kind::Wide(reads_next),
        hint,
    };
    let domain: Coset<F> = Coset::subgroup(3);
    let grinding = GrindingSites {
        batch_combination,
        ..GrindingSites::NONE
    };
    let params = StarkSecurityParams::from_air::<F, Ext4<F>, SizedAir, Coset<F>>(
        alloc,
        regime(),
        &air,
        AirLayout::from_air::<F, SizedAir>(&air),
        &domain,
        54,
        128,
        2,
        openings,
        grinding,
    )?;
    Ok(Some(params))
}

fn parameters<F: QuarticBase + TwoAdicField>(alloc: Global, text: &str) -> Result<String, Fail> {
    let (hint, numbers) = apart(text)?;
    let hint = option_in(hint)?;
    let [reads_next, hides, batch_combination] = numbers_in::<3>(numbers)?;
    if hint.unwrap_or(0) > 5 {
        return Err(Fail::new("too great a degree"));
    }
    let openings = opening_shape(hides == 1);
    let work = batch_combination as usize;
    let value = params::<F>(alloc, reads_next == 1, hint, openings, work)?.ok_or("no domain")?;
    Ok(format!(in alloc;
        "{} {} {} {} {} {:?}",
        value.num_batched_functions,
        value.num_constraints,
        value.air_max_constraint_degree,
        value.num_quotient_chunks,
        value.max_combo,
        value.grinding
    )?)
}

#[test]
fn parameters_in_their_fields(rt: HostRuntime) -> Result<(), Fail> {
    let params = StarkSecurityParams::new(regime(), 54, 128, 7, 3, 2, 20, 4);
    assert_eq!(rt;
        format!(in rt.alloc(); "{params:?}")?.as_str(),
        "StarkSecurityParams { fri_log_blowup: 1, fri_log_final_poly_len: 3, fri_max_log_arity: 2, fri_num_queries: 100, fri_commit_proof_of_work_bits: 5, fri_query_proof_of_work_bits: 16, num_modulus_bits: 54, collision_resistance: 128, num_constraints: 7, air_max_constraint_degree: 3, num_quotient_chunks: 4, max_combo: 2, num_batched_functions: 20, grinding: GrindingSites { lookup_challenge: 0, out_of_domain: 0, batch_combination: 0 } }"
    );
    Ok(())
}

/// The counter's constraints over a value of its column and the next one, folded by alpha, at a
/// point, where the trace has two rows, with the selectors as sums: the first is 1 + x, the last
/// h + h^2 * x, the transition's x - 1/h, for h = -1. The public value is 5.
fn folded_counter<F, EF, C>(
    alloc: Global,
    (value, next_value): (EF, EF),
    point: EF,
    alpha: EF,
) -> Result<EF, Fail>
where
    F: PrimeField64 + TwoAdicField,
    EF: ExtensionField<F>,
    C: FieldChallenger<F> + CanObserve<ClearCommitment<F>> + ExtensionChallenger<F, EF> + Clone,
{
    let one = above::<F, EF>(1);
    let mut rows = Vec::new(alloc);
    rows.push(value)?;
    rows.push(next_value)?;
    let mut public_values = Vec::new(alloc);
    public_values.push(element::<F>(5))?;
    let (local, next, none) = (&rows[..1], &rows[1..2], &rows[..0]);
    if local.len() != 1 || next.len() != 1 || public_values.len() != 1 {
        return Err(Fail::new("other rows"));
    }
    let selectors = LagrangeSelectors {
        is_first_row: one + point,
        is_last_row: point - one,
        is_transition: point + one,
        inv_vanishing: EF::ZERO,
    };
    let read = ReadRows {
        local,
        next,
        preprocessed: none,
        periodic: none,
        public_values: &public_values,
    };
    Ok(folded::<F, EF, C, CounterAir>(&CounterAir, &read, selectors, alpha)?)
}

/// Whether the equation of the counter's false trace 5, 7 holds at zeta; the column is 6 - X.
fn is_balanced<F, EF, C>(alloc: Global, zeta: EF, quotient: EF) -> Result<bool, Fail>
where
    F: PrimeField64 + TwoAdicField,
    EF: ExtensionField<F>,
    C: FieldChallenger<F> + CanObserve<ClearCommitment<F>> + ExtensionChallenger<F, EF> + Clone,
{
    let (one, six) = (above::<F, EF>(1), above::<F, EF>(6));
    let alpha = above::<F, EF>(4);
    let sum = folded_counter::<F, EF, C>(alloc, (six - zeta, six + zeta), zeta, alpha)?;
    Ok(sum == (zeta * zeta - one) * quotient)
}

/// The numbers at which the constraints, folded, are zero in the first of two rows.
fn bad_alphas<F, EF, C>(alloc: Global, text: &str) -> Result<String, Fail>
where
    F: PrimeField64 + TwoAdicField,
    EF: ExtensionField<F>,
    C: FieldChallenger<F> + CanObserve<ClearCommitment<F>> + ExtensionChallenger<F, EF> + Clone,
{
    let [first, second, numbers] = numbers_in::<3>(text)?;
    let (first, second, point) = (
        above::<F, EF>(first),
        above::<F, EF>(second),
        above::<F, EF>(1),
    );
    let mut value = Vec::new(alloc);
    for n in 0..numbers {
        let alpha = above::<F, EF>(n);
        let sum = folded_counter::<F, EF, C>(alloc, (first, second), point, alpha)?;
        if sum == EF::ZERO {
            value.push(n)?;
        }
    }
    shown(alloc, &value)
}

/// The domain of two points beside the subgroup of two points.
fn beside_two_points<F: TwoAdicField>() -> Option<Coset<F>> {
    if F::TWO_ADICITY < 1 {
        return None;
    }
    let rows: Coset<F> = Coset::subgroup(1);
    rows.try_create_disjoint_domain(2)
}

fn bad_zetas<F, EF, C>(alloc: Global, text: &str) -> Result<String, Fail>
where
    F: PrimeField64 + TwoAdicField,
    EF: ExtensionField<F>,
    C: FieldChallenger<F> + CanObserve<ClearCommitment<F>> + ExtensionChallenger<F, EF> + Clone,
{
    let [numbers] = numbers_in::<1>(text)?;
    let domain = beside_two_points::<F>().ok_or("no domain")?;
    let mut value = Vec::new(alloc);
    for n in 0..numbers {
        let zeta = above::<F, EF>(n);
        let quotient = recomposed_of_one::<F, EF, C>(
            alloc,
            domain,
            above::<F, EF>(6143),
            zeta,
        )?.ok_or("not of degree four")?;
        if is_balanced::<F, EF, C>(alloc, zeta, quotient)? {
            value.push(n)?;
        }
    }
    shown(alloc, &value)
}
