//! The command `check`: the equation of a proof at one point, of numbers that are read.

ghost use Rattle.std.specs.Prelude.{◌≡◌, ◌≢◌, ◌≤◌, ◌^◌, ◌⊎◌, true, map};
ghost use Rattle.stark_commands.specs.Airs.{log_chunks_of, sample};
ghost use Rattle.stark_answers.specs.CheckedAir.{shape_of};
ghost use Rattle.stark_commands.specs.Check.{IsBalanced, IsOrLacksMemory, IsOwed, checked, found_at_point, vanishing, verdict_on_bytes};
ghost use Rattle.stark_commands.specs.Cut.{IsCut};
ghost use Rattle.stark_commands.specs.Input.{elements, has_shape};
ghost use Rattle.stark_commands.specs.Numbers.{numbers};
ghost use Rattle.stark_commands.specs.Point.{TellsEquation};

use crate::input::{CheckInput, Extension, numbers_from, zeros};
use crate::point::{OpenedPoint, PointDomains, equation_over, quotient_domain_of, vanishes_at};
use crate::sample::{SampleAir, sample_air};
use stark_air::{Air, AirLayout};
use stark_answers::{CheckShape, DeclaredAir, Refusal, Verdict};
use stark_bench::{Coset, F12289, Sha256Challenger};
use stark_parts::get_log_num_quotient_chunks;
use stark_support::{DomainShape, JsonFault, PeriodicColumns, PolynomialSpace};
use std::alloc::{AllocError, Global};

/// What is found of the equation, at a zeta outside H and with periodic columns that fit H.
fn check_columns<A: Air<F12289>>(
    alloc: Global,
    air: &A,
    input: &CheckInput,
    domains: &PointDomains<Coset<F12289>>,
    columns: &PeriodicColumns<'_, F12289>,
) -> Verdict
    requires cut { IsCut (⟦<A as DeclaredAir<F12289>>⟧.declared air.now) (numbers input.now)
        ⟦<Coset<F12289> as PolynomialSpace>⟧.coset_of domains.now }
    requires outside { vanishing (numbers input.now) ≢ elements.zero }
    requires columns { map (λ column. column.items) columns.now.columns.now
        ≡ A.periodic_columns air.now }
    requires trace_len { columns.now.trace_len ≡ 2 ^ input.now.log_height }
    ensures { TellsEquation (IsBalanced (⟦<A as DeclaredAir<F12289>>⟧.declared air.now)
        domains.now.log_chunks (numbers input.now)) result }
{
    let Ok(preprocessed_next) = zeros(alloc, air.preprocessed_width()) else {
        return Verdict::Refused(Refusal::OutOfMemory);
    };
    let opened = OpenedPoint {
        local: &input.local,
        next: &input.next,
        preprocessed_local: &input.preprocessed_local,
        preprocessed_next: &preprocessed_next,
        public_values: &input.public_values,
        chunks: &input.chunks,
        zeta: input.zeta,
        alpha: input.alpha,
    };
    equation_over::<F12289, Extension, Sha256Challenger<F12289>, A>(
        alloc, air, &opened, columns, domains,
    )
}

/// What is found at zeta: whether it is a point of H, whether a periodic column doesn't fit H, and
/// whether the equation holds.
fn check_point<A: Air<F12289>>(
    alloc: Global,
    air: &A,
    input: &CheckInput,
    domains: &PointDomains<Coset<F12289>>,
) -> Verdict
    requires { IsCut (⟦<A as DeclaredAir<F12289>>⟧.declared air.now) (numbers input.now)
        ⟦<Coset<F12289> as PolynomialSpace>⟧.coset_of domains.now }
    ensures { IsOrLacksMemory (found_at_point (⟦<A as DeclaredAir<F12289>>⟧.declared air.now)
        domains.now.log_chunks (numbers input.now)) result }
{
    if vanishes_at(&domains.trace, input.zeta) {
        return Verdict::Refused(Refusal::OodPointInDomain);
    }
    match PeriodicColumns::new(air.periodic_columns(), domains.trace.size()) {
        Ok(columns) => check_columns(alloc, air, input, domains, &columns),
        Err(_) => Verdict::Refused(Refusal::PeriodicColumn),
    }
}

/// What is found where the quotient is cut into `2^log_chunks` chunks.
fn check_cut<A: Air<F12289>>(
    alloc: Global,
    air: &A,
    input: &CheckInput,
    log_chunks: usize,
) -> Verdict
    requires shape { has_shape (shape_of (⟦<A as DeclaredAir<F12289>>⟧.declared air.now))
        (numbers input.now) ≡ true }
    requires height { input.now.log_height ≤ 12 }
    ensures { IsOrLacksMemory (checked (⟦<A as DeclaredAir<F12289>>⟧.declared air.now) log_chunks
        (numbers input.now)) result }
{
    let log_height = input.log_height as usize;
    let trace_domain: Coset<F12289> = Coset::subgroup(log_height);
    let Some(quotient_domain) = quotient_domain_of(&trace_domain, log_height, log_chunks) else {
        return Verdict::Refused(Refusal::QuotientDomainTooLarge);
    };
    if input.chunks.len() != 1 << log_chunks {
        return Verdict::BadInput;
    }
    let domains = PointDomains {
        trace: trace_domain,
        quotient: quotient_domain,
        log_chunks,
    };
    check_point(alloc, air, input, &domains)
}

/// What is found of numbers in the AIR's widths and counts.
fn check<A: Air<F12289>>(alloc: Global, air: &A, input: &CheckInput) -> Verdict
    requires shape { has_shape (shape_of (⟦<A as DeclaredAir<F12289>>⟧.declared air.now))
        (numbers input.now) ≡ true }
    requires height { input.now.log_height ≤ 12 }
    ensures { IsOwed (⟦<A as DeclaredAir<F12289>>⟧.declared air.now)
        (λ declared log_chunks. checked declared log_chunks (numbers input.now)) result }
{
    let layout = AirLayout::from_air(air);
    let trace_len = 1 << input.log_height;
    match get_log_num_quotient_chunks(alloc, air, layout, trace_len, 0) {
        Ok(log_chunks) => check_cut(alloc, air, input, log_chunks),
        Err(AllocError) => Verdict::Refused(Refusal::OutOfMemory),
    }
}

/// What the check of an AIR finds of the bytes of an input.
fn check_air<A: Air<F12289>>(alloc: Global, air: &A, bytes: &[u8]) -> Verdict
    ensures { IsOwed (⟦<A as DeclaredAir<F12289>>⟧.declared air.now)
        (λ declared log_chunks. verdict_on_bytes declared log_chunks bytes.now) result }
{
    let Ok(shape) = CheckShape::from_air::<F12289, A>(alloc, air) else {
        return Verdict::Refused(Refusal::OutOfMemory);
    };
    match numbers_from(alloc, shape, bytes) {
        Ok(input) => {
            if input.has_shape(shape) {
                check(alloc, air, &input)
            } else {
                Verdict::BadInput
            }
        }
        Err(JsonFault::Invalid) => Verdict::BadInput,
        Err(JsonFault::OutOfMemory) => Verdict::Refused(Refusal::OutOfMemory),
    }
}

/// What the check of a sample AIR finds of the bytes of an input.
pub fn check_sample(alloc: Global, air: SampleAir, bytes: &[u8]) -> Verdict
    ensures { (result ≡ verdict_on_bytes (sample air) (log_chunks_of air) bytes.now)
        ⊎ (result ≡ Verdict.Refused Refusal.OutOfMemory) }
{
    match sample_air(alloc, air) {
        Ok(sample) => check_air(alloc, &sample, bytes),
        Err(AllocError) => Verdict::Refused(Refusal::OutOfMemory),
    }
}
