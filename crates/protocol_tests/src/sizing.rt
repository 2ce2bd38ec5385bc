//! How many chunks quotients have, and which powers fold the constraints at which places.
ghost use Rattle.std.specs.Prelude.{◌≤◌};

use crate::cases::option_in;
use crate::kinds::{Kind, SizedAir};
use stark_air::{AirLayout, BaseAirBuilder, ExtensionBuilder};
use stark_bench::{CircleShape, Coset};
use stark_parts::{
    get_log_num_quotient_chunks, get_log_num_quotient_chunks_for_domain,
    get_log_quotient_degree_extension,
};
use stark_samples::{Asked, SmallAir};
use stark_support::{Algebra, DomainShape, ExtensionField, Field, PrimeField64, TwoAdicField};
use stark_symbolic::{
    BaseEntry, SymbolicAirBuilder, SymbolicExpression, SymbolicNode, SymbolicVariable,
    get_all_symbolic_constraints, get_constraint_layout, get_max_constraint_degree_extension,
    get_symbolic_constraints,
};
use stark_test_cases::{above, apart, numbers_in, shown};
use std::alloc::{AllocError, Global};
use std::fmt::Debug;
use std::test::Fail;

// A table's name | what is given.
pub const CASES: &str = r#"
# What is asked | the author's bound on the degree | is_zk and the trace's length, which decides nothing. Answered are the main
# and the preprocessed columns, the greatest degree without a bound, and the logarithms of the numbers of chunks: over the
# field, its extension, a two-adic domain and a circle. A cube has one chunk too few in one part: degree 3 - 1 is 2, and under
# zero knowledge 3. The transition selector counts nothing on a two-adic domain, and one on a circle. Whatever its constraints
# read, a degree of one needs one chunk; so does no constraint. The sum with `is_zk` stays at the greatest number.
sizes | cube | none | 0 0 => [4, 0] (3, 1, 1) 1 1
sizes | cube | none | 1 8 => [4, 0] (3, 2, 2) 2 2
sizes | cube | 1 | 0 4096 => [4, 0] (3, 1, 1) 1 1
sizes | cube | 1 | 1 8 => [4, 0] (3, 2, 2) 2 2
sizes | cube | 9 | 0 0 => [4, 0] (3, 3, 3) 3 3
sizes | cube | 9 | 0 8 => [4, 0] (3, 3, 3) 3 3
sizes | cube | 9 | 0 4096 => [4, 0] (3, 3, 3) 3 3
sizes | cube | 9 | 1 8 => [4, 0] (3, 4, 4) 4 4
sizes | stepped square | none | 0 8 => [4, 0] (2, 0, 0) 0 1
sizes | nothing | none | 0 8 => [4, 0] (0, 0, 0) 0 0
sizes | columns | none | 0 8 => [4, 0] (1, 0, 0) 0 0
sizes | column | none | 0 8 => [4, 0] (1, 0, 0) 0 0
sizes | column | 0 | 0 8 => [4, 0] (1, 0, 0) 0 0
sizes | column | 3 | 0 8 => [4, 0] (1, 1, 1) 1 1
sizes | column | 18446744073709551615 | 0 8 => [4, 0] (1, 64, 64) 64 64
sizes | column | 18446744073709551615 | 1 8 => [4, 0] (1, 64, 64) 64 64

# Of three constraints the second is over the extension: their places, their number and degree, and the powers. With alpha 4 the
# base ones get 4^2 and 4^0, the other 4^1.
places | 4 => ConstraintLayout { base_indices: [0, 2], ext_indices: [1] } 3 1 ([[16, 1], [0, 0], [0, 0], [0, 0]], [Ext4 { c0: 4, c1: 0, c2: 0, c3: 0 }])

# Sums of constants are computed while the trees are built: what is taken away from the column, the degree, and whether memory was
# refused, of the constraints over the field, those over the extension, and the former again.
constants | all => ([(Some(1), 1, false), (Some(3), 1, false)], [(Some(2), 1, false)], [(Some(1), 1, false), (Some(3), 1, false)])

# An expression that was refused memory says so, is asserted by neither of two calls, and nothing is kept of it: how many constraints
# are kept then, and after another one.
refused | all => ([true, true, true], 0, 1)
"#;

/// The answer to a case of these tables.
pub fn answer<F, EF>(alloc: Global, table: &str, text: &str) -> Result<String, Fail>
where
    F: PrimeField64 + TwoAdicField + Debug,
    EF: ExtensionField<F> + Debug,
{
    match table {
        "sizes" => sizes_text::<F, EF>(alloc, text),
        "places" => places::<F, EF>(alloc, text),
        "constants" => Ok(constants_of::<F, EF>(alloc)?),
        "refused" => refused::<F>(alloc),
        _ => Err(Fail::new("no such table")),
    }
}

/// The greatest degree, and the logarithm of the number of chunks, of an AIR over a field and over
/// its extension.
fn sizes<F: Field, EF: ExtensionField<F>>(
    alloc: Global,
    air: &SizedAir,
    is_zk: usize,
    trace_len: usize,
) -> Result<(usize, usize, usize), AllocError>
    requires { is_zk ≤ 1 }
{
    let layout = AirLayout::from_air::<F, SizedAir>(air);
    let degree = get_max_constraint_degree_extension::<F, EF, SizedAir>(
        alloc, air, layout, trace_len,
    )?;
    let base = get_log_num_quotient_chunks::<F, SizedAir>(alloc, air, layout, trace_len, is_zk)?;
    let above = get_log_quotient_degree_extension::<F, EF, SizedAir>(
        alloc, air, layout, trace_len, is_zk,
    )?;
    Ok((degree, base, above))
}

/// The logarithm of the number of chunks over a domain.
fn log_chunks_on<F: Field, D: DomainShape>(
    alloc: Global,
    air: &SizedAir,
    domain: &D,
    is_zk: usize,
) -> Result<usize, AllocError>
    requires { is_zk ≤ 1 }
{
    let layout = AirLayout::from_air::<F, SizedAir>(air);
    get_log_num_quotient_chunks_for_domain::<F, SizedAir, D>(alloc, air, layout, domain, is_zk)
}

/// What an AIR asks of its columns, by its name.
pub fn kind_in(text: &str) -> Kind {
    if text == "column" {
        return Kind::Column;
    }
    if text == "columns" {
        return Kind::Columns;
    }
    if text == "cube" {
        return Kind::Cube;
    }
    if text == "stepped square" {
        return Kind::SteppedSquare;
    }
    Kind::Nothing
}

/// The logarithms of the numbers of chunks over a two-adic domain and over a circle; none where
/// there is no such domain.
fn log_chunks<F: TwoAdicField>(
    alloc: Global,
    air: &SizedAir,
    is_zk: usize,
) -> Result<Option<(usize, usize)>, AllocError>
    requires { is_zk ≤ 1 }
{
    if F::TWO_ADICITY < 3 {
        return Ok(None);
    }
    let coset: Coset<F> = Coset::subgroup(3);
    let on_coset = log_chunks_on::<F, Coset<F>>(alloc, air, &coset, is_zk)?;
    let circle = CircleShape { size: 8 };
    let on_circle = log_chunks_on::<F, CircleShape>(alloc, air, &circle, is_zk)?;
    Ok(Some((on_coset, on_circle)))
}

/// A case: the AIR, whether there is zero knowledge, and the trace's length.
#[derive(Drop)]
struct Case {
    air: SizedAir,
    is_zk: bool,
    trace_len: usize,
}

fn case_of(text: &str) -> Result<Case, Fail> {
    let (kind, rest) = apart(text)?;
    let (hint, numbers) = apart(rest)?;
    let [is_zk, trace_len] = numbers_in::<2>(numbers)?;
    Ok(Case {
        air: SizedAir {
            kind: kind_in(kind),
            hint: option_in(hint)?,
        },
        is_zk: is_zk == 1,
        trace_len: trace_len as usize,
    })
}

/// The main and the preprocessed columns, the degree with the logarithms over the field and its
/// extension, and those on domains.
fn words_of(
    alloc: Global,
    columns: [usize; 2],
    sizes: (usize, usize, usize),
    on_domains: Option<(usize, usize)>,
) -> Result<String, Fail> {
    let (on_coset, on_circle) = on_domains.ok_or("no domain")?;
    Ok(format!(in alloc; "{columns:?} {sizes:?} {on_coset} {on_circle}")?)
}

fn sizes_text<F: TwoAdicField, EF: ExtensionField<F>>(
    alloc: Global,
    text: &str,
) -> Result<String, Fail> {
    let case = case_of(text)?;
    let is_zk = if case.is_zk { 1 } else { 0 };
    let layout = AirLayout::from_air::<F, SizedAir>(&case.air);
    let columns = [layout.main_width, layout.preprocessed_width];
    let sizes = sizes::<F, EF>(alloc, &case.air, is_zk, case.trace_len)?;
    words_of(
        alloc,
        columns,
        sizes,
        log_chunks::<F>(alloc, &case.air, is_zk)?,
    )
}

fn places<F: PrimeField64 + Debug, EF: ExtensionField<F> + Debug>(
    alloc: Global,
    text: &str,
) -> Result<String, Fail> {
    let [alpha] = numbers_in::<1>(text)?;
    let air = SmallAir::new(Asked::Mixed);
    let layout = AirLayout::from_air::<F, SmallAir>(&air);
    let degree = get_max_constraint_degree_extension::<F, EF, SmallAir>(alloc, &air, layout, 8)?;
    let places = get_constraint_layout::<F, EF, SmallAir>(alloc, &air, layout)?;
    let powers = places.decompose_alpha::<F, EF>(alloc, above::<F, EF>(alpha))?;
    let total = places.total_constraints();
    Ok(format!(in alloc; "{places:?} {total} {degree} {powers:?}")?)
}

/// The constant that is taken away from column 0, the degree, and whether memory was refused.
fn taken_away<F: PrimeField64>(x: &SymbolicExpression<F>) -> (Option<u64>, usize, bool) {
    let constant = match &x.node {
        SymbolicNode::Difference(_, constant) => match &**constant {
            SymbolicNode::Constant(k) => Some(k.as_canonical_u64()),
            _ => None,
        },
        _ => None,
    };
    (constant, x.degree_multiple(), x.is_refused())
}

fn all_taken_away<F: PrimeField64>(
    alloc: Global,
    list: &[SymbolicExpression<F>],
) -> Result<Vec<(Option<u64>, usize, bool)>, AllocError> {
    let mut constants = Vec::new(alloc);
    for x in list {
        constants.push(taken_away(x))?;
    }
    Ok(constants)
}

fn constants_of<F: PrimeField64, EF: ExtensionField<F>>(
    alloc: Global,
) -> Result<String, AllocError> {
    let air = SmallAir::new(Asked::Mixed);
    let layout = AirLayout::from_air::<F, SmallAir>(&air);
    let (base, above) = get_all_symbolic_constraints::<F, EF, SmallAir>(alloc, &air, layout)?;
    let again = get_symbolic_constraints::<F, SmallAir>(alloc, &air, layout)?;
    let all = (
        all_taken_away(alloc, &base)?,
        all_taken_away(alloc, &above)?,
        all_taken_away(alloc, &again)?,
    );
    format!(in alloc; "{all:?}")
}

/// Whether an expression that was refused memory says so, and is refused by both calls that assert;
/// and how many constraints are kept then, and after another one.
fn refusals<F: PrimeField64>(alloc: Global) -> Result<([bool; 3], usize, usize), AllocError> {
    let layout = AirLayout::from_air::<F, SmallAir>(&SmallAir::new(Asked::Mixed));
    let mut builder: SymbolicAirBuilder<F> = SymbolicAirBuilder::new(alloc, layout)?;
    let x = SymbolicExpression::from(SymbolicVariable::new(alloc, BaseEntry::Public, 0));
    let sum = x
        + SymbolicExpression {
            node: SymbolicNode::Refused,
        };
    let copy = sum.dup();
    let refused = [
        sum.is_refused(),
        builder.assert_zero(sum).is_err(),
        builder.assert_zero_ext(copy).is_err(),
    ];
    let kept = builder.constraints.len();
    builder.assert_zero(builder.is_transition())?;
    Ok((refused, kept, builder.constraints.len()))
}

fn refused<F: PrimeField64>(alloc: Global) -> Result<String, Fail> {
    let value = refusals::<F>(alloc)?;
    shown(alloc, &value)
}
