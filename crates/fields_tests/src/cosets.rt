//! Cosets of a field of 31 bits and of the field of 12289. The numbers of the first were computed
//! in Python, the selectors by quotients.
use stark_bench::Coset;
use stark_support::{
    DomainShape, ExtensionField, JsonCodec, LagrangeSelectors, PolynomialSpace, TwoAdicField,
};
use stark_test_cases::{apart, read, shown, word_and_rest};
use std::alloc::{AllocError, Global};
use std::fmt::Debug;
use std::test::Fail;

// Of 2013265921: a table's name | what is given.
pub const CASES: &str = r#"
# A subgroup's logarithm of its size, and a point: the vanishing value there.
coset vanishing | 20 [3,1,4,159265359] => Some(Ext4 { c0: 1477483942, c1: 230675743, c2: 1879636227, c3: 767599522 })
coset vanishing | 27 [440564289,0,0,0] => Some(Ext4 { c0: 0, c1: 0, c2: 0, c3: 0 })

# The point of the row after it.
coset next | 27 [3,1,4,159265359] => Some(Ext4 { c0: 1321692867, c1: 440564289, c2: 1762257156, c3: 1900977890 })

# A shift and the logarithm of a coset's size: its first point and its two parts.
coset parts | 123456789 3 => 123456789 [(123456789, 2), (619218242, 2)]

# How many points a subgroup has, and its degree multiple of the transition.
coset size | 27 => 134217728 0

# How many points a domain beside the subgroup of two has at least: its shift and its logarithm.
coset disjoint | 67108865 => Some((31, 27))
coset disjoint | 134217728 => Some((31, 27))
coset disjoint | 134217729 => None

# The selectors of a subgroup at the coset beside it of as many points.
coset beside | 2 => [30784, 1625973710, 2013237061, 387290291] [1676082105, 935479437, 1676022585, 612768004] [1728404544, 950764549, 1728404482, 492778556] [1301714455, 1301714455, 1301714455, 1301714455]
"#;

// The cosets of the field of 12289.
pub const OVER_12289: &str = r#"
coset vanishing | 1 [12288,0,0,0] => Some(Ext4 { c0: 0, c1: 0, c2: 0, c3: 0 })
coset vanishing | 1 [3,0,0,0] => Some(Ext4 { c0: 8, c1: 0, c2: 0, c3: 0 })

coset size | 1 => 2 0

# Of the subgroup of two points, at 11 and -11.
coset beside | 1 => [12, 12279] [10, 12277] [12, 12279] [7271, 7271]

coset parts | 11 2 => 11 [(11, 1), (3980, 1)]

coset disjoint | 0 => Some((11, 0))
coset disjoint | 1 => Some((11, 0))
coset disjoint | 2 => Some((11, 1))
coset disjoint | 3 => Some((11, 2))
coset disjoint | 4096 => Some((11, 12))
coset disjoint | 4097 => None

# On the subgroup of two points the row after 3 is at -3.
coset next | 1 [3,0,0,0] => Some(Ext4 { c0: 12286, c1: 0, c2: 0, c3: 0 })
"#;

/// The answer to a case of these tables.
pub fn answer<F, EF>(alloc: Global, name: &str, text: &str) -> Result<String, Fail>
where
    F: TwoAdicField + JsonCodec + Debug,
    EF: ExtensionField<F> + JsonCodec + Debug,
{
    match name {
        "coset vanishing" => vanishing::<F, EF>(alloc, text),
        "coset next" => next::<F, EF>(alloc, text),
        "coset parts" => parts::<F>(alloc, text),
        "coset size" => size::<F>(alloc, text),
        "coset disjoint" => disjoint::<F>(alloc, text),
        "coset beside" => beside::<F>(alloc, text),
        _ => Err(Fail::new("no such table")),
    }
}

/// The subgroup of `2^log_size` points; none where there is no such group.
fn subgroup<F: TwoAdicField>(log_size: usize) -> Option<Coset<F>> {
    if log_size > F::TWO_ADICITY {
        return None;
    }
    Some(Coset::subgroup(log_size))
}

fn vanishing<F, EF>(alloc: Global, text: &str) -> Result<String, Fail>
where
    F: TwoAdicField,
    EF: ExtensionField<F> + JsonCodec + Debug,
{
    let (log_size, point) = word_and_rest(text)?;
    let point: EF = read(alloc, point)?;
    let value: Option<EF> = match subgroup::<F>(log_size.parse::<usize>()?) {
        Some(domain) => Some(domain.vanishing_poly_at_point(point)),
        None => None,
    };
    shown(alloc, &value)
}

fn next<F, EF>(alloc: Global, text: &str) -> Result<String, Fail>
where
    F: TwoAdicField,
    EF: ExtensionField<F> + JsonCodec + Debug,
{
    let (log_size, point) = word_and_rest(text)?;
    let point: EF = read(alloc, point)?;
    let domain = subgroup::<F>(log_size.parse::<usize>()?).ok_or("no such group")?;
    let value: Option<EF> = domain.next_point(point);
    shown(alloc, &value)
}

fn size<F: TwoAdicField>(alloc: Global, text: &str) -> Result<String, Fail> {
    let domain = subgroup::<F>(text.parse::<usize>()?).ok_or("no such group")?;
    let (size, multiple) = (domain.size(), domain.transition_degree_multiple());
    Ok(format!(in alloc; "{size} {multiple}")?)
}

/// The coset with this shift of `2^log_size` points; none where there is no such coset.
fn coset<F: TwoAdicField>(shift: F, log_size: usize) -> Option<Coset<F>> {
    if shift == F::ZERO || log_size > F::TWO_ADICITY {
        return None;
    }
    Some(Coset::new(shift, log_size))
}

/// The two parts of a coset.
fn parts_of<F: TwoAdicField>(
    alloc: Global,
    domain: &Coset<F>,
) -> Result<Vec<Coset<F>>, AllocError> {
    if domain.size() < 2 {
        return Ok(Vec::new(alloc));
    }
    domain.split_domains(alloc, 2)
}

fn parts<F: TwoAdicField + JsonCodec + Debug>(alloc: Global, text: &str) -> Result<String, Fail> {
    let (shift, log_size) = word_and_rest(text)?;
    let shift: F = read(alloc, shift)?;
    let domain = coset::<F>(shift, log_size.parse::<usize>()?).ok_or("no such coset")?;
    let mut value = Vec::new(alloc);
    for part in parts_of(alloc, &domain)? {
        value.push((part.shift, part.log_size))?;
    }
    Ok(format!(in alloc; "{:?} {value:?}", domain.first_point())?)
}

/// The domain beside the subgroup of two points that has at least so many.
fn disjoint_of<F: TwoAdicField>(size: usize) -> Option<Coset<F>> {
    subgroup::<F>(1)?.try_create_disjoint_domain(size)
}

fn disjoint<F: TwoAdicField + Debug>(alloc: Global, text: &str) -> Result<String, Fail> {
    let value = match disjoint_of::<F>(text.parse::<usize>()?) {
        Some(other) => Some((other.shift, other.log_size)),
        None => None,
    };
    shown(alloc, &value)
}

/// The selectors of the subgroup of `2^log_size` points at a coset beside it of as many points.
fn selectors_beside<F: TwoAdicField>(
    alloc: Global,
    log_size: usize,
) -> Result<Option<LagrangeSelectors<Vec<F>>>, AllocError> {
    if log_size > F::TWO_ADICITY {
        return Ok(None);
    }
    let domain: Coset<F> = Coset::subgroup(log_size);
    match domain.try_create_disjoint_domain(domain.size()) {
        Some(apart) => Ok(Some(domain.selectors_on_coset(alloc, &apart)?)),
        None => Ok(None),
    }
}

fn beside<F: TwoAdicField + Debug>(alloc: Global, text: &str) -> Result<String, Fail> {
    let value = selectors_beside::<F>(alloc, text.parse::<usize>()?)?.ok_or("no coset")?;
    Ok(format!(in alloc;
        "{:?} {:?} {:?} {:?}",
        value.is_first_row, value.is_last_row, value.is_transition, value.inv_vanishing
    )?)
}
