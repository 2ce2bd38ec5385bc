//! What the proofs for a statement are worth, in numbers and in lines for a person: what is proved,
//! and what is conjectured.

ghost use Rattle.std.specs.Prelude.{◌≡◌, ◌<◌, ◌≤◌, ◌↔◌, ◌^◌, IfOk, IsTrue, string_bytes};
ghost use Rattle.stark_statement.specs.Configuration.{fri_numbers, scheme_numbers};
ghost use Rattle.stark_statement.specs.Limits.{view_of};
ghost use Rattle.stark_statement.specs.StatementView.{statement_view};
ghost use Rattle.stark_service.specs.Security.{AreBitsAt, AreClearLines, AreFriLines, AreParams, AreProvedByFri, AreProvedInTheClear, AreStatedBits, IsFlat, IsRoomy, IsStated, IsStatedLine, IsWorthLine, bits_words, challenges_line, clear_line, conjectured_line, crowded_line, most_degree, most_opened, proved_line, steep_line};

use crate::counted::{CountedField, Numbered};
use stark_air::AirLayout;
use stark_bench::Coset;
use stark_fri_proof::FriParameters;
use stark_fri_security::{
    conjectured_security_bits, field_bits, fri_error_bound, fri_regime, listed_security_bits,
    proved_security_bits,
};
use stark_parts::get_log_num_quotient_chunks_for_degree;
use stark_security::{OpeningShape, StarkSecurityParams};
use stark_statement::{SchemeChoice, Statement};
use stark_support::{ExtensionField, GrindingSites, TwoAdicField};
use stark_symbolic::get_max_constraint_degree_extension;
use stark_tree_air::TreeAir;
use std::alloc::{AllocError, Global};

/// What proofs at a height are worth, in bits.
#[derive(Clone, Copy, Debug, PartialEq, Eq)]
pub struct SecurityBits {
    /// By count: a proof of a false statement is accepted with a chance of at most one in
    /// `2^proved`, where SHA-256 is a random oracle. The bad alphas and zetas are counted in it,
    /// and by FRI its own draws and the places of its queries.
    pub proved: usize,
    /// By ethSTARK's conjecture of 2021, or as many as are proved, where these are more; None in
    /// the clear, where nothing is conjectured.
    pub conjectured: Option<usize>,
}

/// With which parameters bits are stated of proofs by FRI, or why none are: a constraint has too
/// great a degree, or too many values are opened.
#[derive(Debug, Drop)]
pub(crate) enum Stated {
    Steep,
    Crowded,
    With(StarkSecurityParams),
}

/// The bits of SHA-256's resistance to collisions.
const COLLISION_RESISTANCE: usize = 128;

/// At how many points a column is opened at most.
const POINTS: usize = 2;

/// The logarithm of a usual height.
const USUAL_HEIGHT: usize = 16;

/// How many values alpha and zeta each have, and what of them is proved, over a field of `order`
/// elements with an extension of this degree.
pub(crate) fn challenges_line(
    alloc: Global,
    order: u64,
    degree: usize,
) -> Result<String, AllocError>
    ensures { IfOk result (λ line. string_bytes line ≡ challenges_line order degree) }
{
    format!(in alloc;
        "challenges: alpha and zeta, each of {order}^{degree} values; the error bound is proved, that SHA-256 draws at random is not\n"
    )
}

/// The line of a scheme in the clear, beside whose proved bits nothing is conjectured.
fn clear_line(alloc: Global) -> Result<String, AllocError>
    ensures { IfOk result (λ line. string_bytes line ≡ clear_line) }
{
    format!(in alloc; "conjectured: nothing; in the clear the proof lists its columns\n")
}

/// The line where the constraints' degree is greater than FRI's parameters are taken for.
fn steep_line(alloc: Global, most: usize) -> Result<String, AllocError>
    ensures { IfOk result (λ line. string_bytes line ≡ steep_line most) }
{
    format!(in alloc; "security: no bits are stated for a constraint's degree above {most}\n")
}

/// The line where the number of opened values doesn't fit.
fn crowded_line(alloc: Global) -> Result<String, AllocError>
    ensures { IfOk result (λ line. string_bytes line ≡ crowded_line) }
{
    format!(in alloc; "security: no bits are stated for 2^64 opened values and more\n")
}

/// Bits at a usual height and at the greatest one; at the latter alone where it isn't above.
fn bits_words(
    alloc: Global,
    usual: usize,
    most: usize,
    greatest: usize,
) -> Result<String, AllocError>
    ensures { IfOk result (λ text. string_bytes text ≡ bits_words usual most greatest) }
{
    if USUAL_HEIGHT < greatest {
        format!(in alloc; "{usual} bits at 2^16 rows, {most} at 2^{greatest}")
    } else {
        format!(in alloc; "{most} bits at 2^{greatest} rows")
    }
}

/// The line of the proved bits.
fn proved_line(
    alloc: Global,
    usual: usize,
    most: usize,
    greatest: usize,
) -> Result<String, AllocError>
    ensures { IfOk result (λ line. string_bytes line ≡ proved_line usual most greatest) }
{
    let bits = bits_words(alloc, usual, most, greatest)?;
    format!(in alloc; "proved: {bits} (by count; SHA-256 as a random oracle)\n")
}

/// The line of the conjectured bits, with what speaks against them.
fn conjectured_line(
    alloc: Global,
    usual: usize,
    most: usize,
    greatest: usize,
) -> Result<String, AllocError>
    ensures { IfOk result (λ line. string_bytes line ≡ conjectured_line usual most greatest) }
{
    let bits = bits_words(alloc, usual, most, greatest)?;
    format!(in alloc;
        "conjectured: {bits} (ethSTARK's conjecture of 2021; ePrint 2025/2010 and 2025/2046 speak against it)\n"
    )
}

/// The greatest degree of constraints for which FRI's parameters are taken.
fn most_degree(parameters: &FriParameters) -> usize
    ensures { result ≡ most_degree (fri_numbers parameters.now) }
{
    (1 << parameters.log_blowup()) + 1
}

/// Whether fewer than 2^64 values are opened of columns and `2^log_chunks` chunks, each of as many
/// columns as an extension of this degree has coordinates.
fn has_room(layout: AirLayout, log_chunks: usize, degree: usize) -> bool
    requires { log_chunks ≤ 64 }
    ensures { IsTrue result ↔ (most_opened layout.main_width layout.preprocessed_width
        (2 ^ log_chunks) degree < 2 ^ 64) }
{
    let columns = 2 * (layout.main_width as u128 + layout.preprocessed_width as u128);
    let chunks = 1u128 << log_chunks;
    let opened = columns.saturating_add(chunks.saturating_mul(degree.max(1) as u128));
    opened < 1 << 64
}

/// The numbers that the conjectured bits of proofs by FRI are computed from. The work before zeta
/// is among them, and that before alpha has no place there; the bits count neither.
fn params_of<F: CountedField + TwoAdicField, EF: ExtensionField<F>>(
    alloc: Global,
    parameters: &FriParameters,
    air: &TreeAir<F>,
    ood_bits: usize,
) -> Result<StarkSecurityParams, AllocError>
    requires flat { IsFlat (view_of air.now) (fri_numbers parameters.now) }
    requires roomy { IsRoomy (view_of air.now) EF.DIMENSION }
    ensures { IfOk result (AreParams ⟦<EF as Numbered<F>>⟧.fields
        (fri_numbers parameters.now) (view_of air.now) ood_bits) }
{
    let domain: Coset<F> = Coset::subgroup(0);
    let grinding = GrindingSites {
        out_of_domain: ood_bits,
        ..GrindingSites::NONE
    };
    StarkSecurityParams::from_air::<F, EF, TreeAir<F>, Coset<F>>(
        alloc,
        fri_regime(parameters),
        air,
        AirLayout::from_air(air),
        &domain,
        field_bits(F::order(), EF::DIMENSION),
        COLLISION_RESISTANCE,
        POINTS,
        OpeningShape::TwoAdic,
        grinding,
    )
}

/// With which parameters bits are stated of proofs by FRI, or why none are.
fn stated_of<F: CountedField + TwoAdicField, EF: ExtensionField<F>>(
    alloc: Global,
    parameters: &FriParameters,
    air: &TreeAir<F>,
    ood_bits: usize,
) -> Result<Stated, AllocError>
    ensures { IfOk result (IsStated ⟦<EF as Numbered<F>>⟧.fields (fri_numbers parameters.now)
        (view_of air.now) ood_bits) }
{
    let layout = AirLayout::from_air(air);
    let degree = get_max_constraint_degree_extension::<F, EF, TreeAir<F>>(alloc, air, layout, 0)?;
    let log_chunks = get_log_num_quotient_chunks_for_degree(air, degree, 0);
    let most = most_degree(parameters);
    if degree > most {
        return Ok(Stated::Steep);
    }
    if !has_room(layout, log_chunks, EF::DIMENSION) {
        return Ok(Stated::Crowded);
    }
    let params = params_of::<F, EF>(alloc, parameters, air, ood_bits)?;
    Ok(Stated::With(params))
}

/// The proved bits of proofs by FRI at a height.
fn proved_by_fri<F: CountedField + TwoAdicField, EF: ExtensionField<F>>(
    alloc: Global,
    params: &StarkSecurityParams,
    air: &TreeAir<F>,
    log_height: usize,
) -> Result<usize, AllocError>
    ensures { IfOk result (AreProvedByFri (view_of air.now) params.now log_height) }
{
    let layout = AirLayout::from_air(air);
    let counted = fri_error_bound::<F, EF, TreeAir<F>>(alloc, air, layout, log_height)?;
    match counted {
        Some(bad) => Ok(proved_security_bits(params, bad.0, bad.1, log_height)),
        None => Ok(0),
    }
}

/// The proved bits of proofs in the clear at a height.
fn proved_in_the_clear<F: CountedField + TwoAdicField, EF: ExtensionField<F>>(
    alloc: Global,
    air: &TreeAir<F>,
    log_height: usize,
) -> Result<usize, AllocError>
    ensures { IfOk result (AreProvedInTheClear (view_of air.now) ⟦<EF as Numbered<F>>⟧.fields
        log_height) }
{
    let layout = AirLayout::from_air(air);
    let bits = field_bits(F::order(), EF::DIMENSION);
    let counted = fri_error_bound::<F, EF, TreeAir<F>>(alloc, air, layout, log_height)?;
    match counted {
        Some(bad) => Ok(listed_security_bits(bits, bad.0, bad.1)),
        None => Ok(0),
    }
}

/// The lines of the proved and of the conjectured bits by FRI, at 2^16 rows and at the greatest
/// height.
fn fri_lines<F: CountedField + TwoAdicField, EF: ExtensionField<F>>(
    alloc: Global,
    params: &StarkSecurityParams,
    air: &TreeAir<F>,
    greatest: usize,
) -> Result<String, AllocError>
    ensures { IfOk result (λ text. AreFriLines (view_of air.now) params.now greatest
        (string_bytes text)) }
{
    let height = greatest.min(USUAL_HEIGHT);
    let usual = proved_by_fri::<F, EF>(alloc, params, air, height)?;
    let most = proved_by_fri::<F, EF>(alloc, params, air, greatest)?;
    let proved = proved_line(alloc, usual, most, greatest)?;
    let better_usual = conjectured_security_bits(params, height).max(usual);
    let better_most = conjectured_security_bits(params, greatest).max(most);
    let conjectured = conjectured_line(alloc, better_usual, better_most, greatest)?;
    format!(in alloc; "{proved}{conjectured}")
}

/// The line of the proved bits in the clear, at 2^16 rows and at the greatest height, and that
/// nothing is conjectured.
fn clear_lines<F: CountedField + TwoAdicField, EF: ExtensionField<F>>(
    alloc: Global,
    air: &TreeAir<F>,
    greatest: usize,
) -> Result<String, AllocError>
    ensures { IfOk result (λ text. AreClearLines (AreProvedInTheClear (view_of air.now)
        ⟦<EF as Numbered<F>>⟧.fields) greatest (string_bytes text)) }
{
    let height = greatest.min(USUAL_HEIGHT);
    let usual = proved_in_the_clear::<F, EF>(alloc, air, height)?;
    let most = proved_in_the_clear::<F, EF>(alloc, air, greatest)?;
    let proved = proved_line(alloc, usual, most, greatest)?;
    let rest = clear_line(alloc)?;
    format!(in alloc; "{proved}{rest}")
}

/// What is said of proofs by FRI with these parameters, over traces of up to `2^greatest` rows, by
/// what is stated of them.
fn stated_line<F: CountedField + TwoAdicField, EF: ExtensionField<F>>(
    alloc: Global,
    parameters: &FriParameters,
    stated: &Stated,
    air: &TreeAir<F>,
    greatest: usize,
) -> Result<String, AllocError>
    ensures { IfOk result (λ text. IsStatedLine (fri_numbers parameters.now) (view_of air.now)
        greatest (string_bytes text) stated.now) }
{
    match stated {
        Stated::Steep => steep_line(alloc, most_degree(parameters)),
        Stated::Crowded => crowded_line(alloc),
        Stated::With(params) => fri_lines::<F, EF>(alloc, params, air, greatest),
    }
}

/// What the proofs for a statement are worth by a scheme, over traces of up to `2^greatest` rows.
pub(crate) fn security_line<F: CountedField + TwoAdicField, EF: ExtensionField<F>>(
    alloc: Global,
    scheme: SchemeChoice,
    statement: &Statement<F>,
    greatest: usize,
) -> Result<String, AllocError>
    ensures { IfOk result (λ line. IsWorthLine ⟦<EF as Numbered<F>>⟧.fields
        (scheme_numbers scheme) greatest (statement_view statement.now) (string_bytes line)) }
{
    let air = &statement.air;
    match scheme {
        SchemeChoice::Fri(parameters) => {
            let stated = stated_of::<F, EF>(alloc, &parameters, air, statement.ood_bits)?;
            stated_line::<F, EF>(alloc, &parameters, &stated, air, greatest)
        }
        SchemeChoice::Clear => clear_lines::<F, EF>(alloc, air, greatest),
    }
}

/// The bits of proofs by FRI at a height, where they are stated.
fn stated_bits<F: CountedField + TwoAdicField, EF: ExtensionField<F>>(
    alloc: Global,
    stated: &Stated,
    air: &TreeAir<F>,
    log_height: usize,
) -> Result<Option<SecurityBits>, AllocError>
    ensures { IfOk result (λ bits. AreStatedBits (view_of air.now) log_height bits stated.now) }
{
    let Stated::With(params) = stated else {
        return Ok(None);
    };
    let proved = proved_by_fri::<F, EF>(alloc, params, air, log_height)?;
    let conjectured = conjectured_security_bits(params, log_height).max(proved);
    Ok(Some(SecurityBits {
        proved,
        conjectured: Some(conjectured),
    }))
}

/// What the proofs for a statement are worth by a scheme, over traces of `2^log_height` rows; None
/// where no bits are stated.
pub(crate) fn bits_at<F: CountedField + TwoAdicField, EF: ExtensionField<F>>(
    alloc: Global,
    scheme: SchemeChoice,
    statement: &Statement<F>,
    log_height: usize,
) -> Result<Option<SecurityBits>, AllocError>
    ensures { IfOk result (AreBitsAt ⟦<EF as Numbered<F>>⟧.fields (scheme_numbers scheme)
        (statement_view statement.now) log_height) }
{
    let air = &statement.air;
    match scheme {
        SchemeChoice::Fri(parameters) => {
            let stated = stated_of::<F, EF>(alloc, &parameters, air, statement.ood_bits)?;
            stated_bits::<F, EF>(alloc, &stated, air, log_height)
        }
        SchemeChoice::Clear => {
            let proved = proved_in_the_clear::<F, EF>(alloc, air, log_height)?;
            Ok(Some(SecurityBits {
                proved,
                conjectured: None,
            }))
        }
    }
}
