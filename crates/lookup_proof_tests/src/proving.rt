//! An honest prover of lookups, and what the verifier says of its proofs and of forged ones.
ghost use Rattle.stark_lookup.specs.OwnLookups.{IsExtended};

use crate::rows::{air_of, groups_of, lookup_numbers, lookups_in, rows_in};
use stark_lookup::{
    InPartsConfig, LookupAir, LookupBinding, LookupError, LookupProof, draw_lookups,
    values_with_draws, verify_with_lookups,
};
use stark_lookup_extension::LookupList;
use stark_lookup_trace::{LookupDraws, lookup_columns};
use stark_parts::{StarkChallenger, StarkConfig};
use stark_proof::{Commitments, Proof};
use stark_protocol::PreprocessedVerifierKey;
use stark_support::{
    CanObserve, DomainVal, Element, ExtensionField, Field, PackedExtensionField, PackedField, Pcs,
    PolynomialSpace, PrimeField64, RowMajorMatrix, UnivariateStarkPcs,
};
use stark_test_proofs::{fits, made_by, matrix_of, stands_at};
use stark_transcript::VerificationError;
use stark_tree_air::TreeAir;
use stark_two_part::{InParts, TwoPartPcs};
use std::alloc::Global;
use std::test::Fail;

/// An AIR by its width, its lookups, the rows, and what is forged.
#[derive(Clone, Copy)]
pub struct Case<'a> {
    pub width: usize,
    pub lookups: &'a str,
    pub rows: &'a str,
    pub forged: &'a str,
}

/// The proofs of an extended AIR.
type Inner<P, EF, C> = Proof<
    InParts<<P as Pcs<EF, C>>::Commitment>,
    EF,
    <P as Pcs<EF, C>>::Proof,
    DomainVal<<P as Pcs<EF, C>>::Domain>,
>;

/// The configuration over the scheme in two parts.
fn in_parts<P, EF, C>(
    config: StarkConfig<P, EF, C>,
    first_width: usize,
) -> InPartsConfig<P, EF, C> {
    StarkConfig {
        pcs: TwoPartPcs {
            inner: config.pcs,
            first_width,
        },
        challenger: config.challenger,
        lookup_proof_of_work_bits: config.lookup_proof_of_work_bits,
        ood_proof_of_work_bits: config.ood_proof_of_work_bits,
        constraint_proof_of_work_bits: config.constraint_proof_of_work_bits,
        challenge: config.challenge,
    }
}

/// The logarithm of the number of rows, which is a power of two.
fn log_of(rows: usize) -> Result<usize, Fail> {
    for log in 0..12usize {
        if 1usize << log == rows {
            return Ok(log);
        }
    }
    Err(Fail::new("no power of two"))
}

/// The rows with others after their own, as one list.
fn side_by_side<F: PrimeField64>(
    alloc: Global,
    rows: &[Vec<F>],
    others: &[F],
    width: usize,
) -> Result<Vec<F>, Fail> {
    let mut all = Vec::new(alloc);
    for (index, own) in rows.iter().enumerate() {
        all.extend_from_slice(own)?;
        for value in others.iter().skip(index.saturating_mul(width)).take(width) {
            all.push(*value)?;
        }
    }
    Ok(all)
}

/// A proof of the extended AIR over these columns.
fn made_over<P, EF, C>(
    alloc: Global,
    config: &InPartsConfig<P, EF, C>,
    air: &TreeAir<DomainVal<P::Domain>>,
    log_height: usize,
    values: Vec<DomainVal<P::Domain>>,
    public_values: &[DomainVal<P::Domain>],
) -> Result<Inner<P, EF, C>, Fail>
where
    P: UnivariateStarkPcs<EF, C, Domain: PolynomialSpace<Val: PrimeField64 + PackedField>> + Clone,
    EF: PackedExtensionField<DomainVal<P::Domain>>,
    C: StarkChallenger<DomainVal<P::Domain>, EF, P::Commitment>
        + CanObserve<InParts<P::Commitment>>,
{
    let trace = matrix_of(air, values)?;
    if !fits(config, air, log_height, &trace, public_values)
        || !stands_at(alloc, air, log_height)?
    {
        return Err(Fail::new("other rows"));
    }
    match made_by(alloc, config, air, log_height, trace, public_values) {
        Ok((proof, _verdict)) => Ok(proof),
        Err(_) => Err(Fail::new("no proof")),
    }
}

/// Elements of zero, that many.
fn zeros<F: PrimeField64>(alloc: Global, count: usize) -> Result<Vec<F>, Fail> {
    let mut all = Vec::new(alloc);
    for _ in 0..count {
        all.push(F::ZERO)?;
    }
    Ok(all)
}

/// The auxiliary columns' coordinates, row by row, and how many a row has.
fn auxiliary<F: PrimeField64, EF: ExtensionField<F>>(
    alloc: Global,
    draws: LookupDraws<EF>,
    rows: &[Vec<F>],
    given: &LookupList,
) -> Result<(Vec<F>, usize), Fail> {
    let groups = groups_of(alloc, rows, given)?;
    let numbers = lookup_numbers(alloc, given)?;
    if rows.len().checked_mul(numbers.len()) != Some(groups.len()) {
        return Err(Fail::new("other groups"));
    }
    let Ok(columns) = lookup_columns(alloc, draws, rows.len(), &numbers, &groups) else {
        return Err(Fail::new("no columns"));
    };
    let width = columns.width.saturating_mul(EF::DIMENSION);
    let mut all = Vec::new(alloc);
    for value in &columns.values {
        for place in 0..EF::DIMENSION {
            all.push(value.coordinate(place))?;
        }
    }
    Ok((all, width))
}

/// A verdict as a word.
fn word<E: Drop>(verdict: Result<(), LookupError<E>>) -> &'static str {
    match verdict {
        Ok(()) => "accepted",
        Err(LookupError::NotInParts) => "not in parts",
        Err(LookupError::NonCanonicalLookupPowWitness) => "a witness without work",
        Err(LookupError::InvalidLookupPowWitness) => "no work",
        Err(LookupError::Extended(VerificationError::OodEvaluationMismatch { .. })) => {
            "constraints fail"
        }
        Err(LookupError::Extended(_)) => "refused",
        Err(LookupError::OutOfMemory) => "out of memory",
    }
}

/// The commitment to the rows' own columns, as every proof of them has it.
fn own_commitment<P, EF, C>(
    alloc: Global,
    config: &InPartsConfig<P, EF, C>,
    air: &LookupAir<DomainVal<P::Domain>>,
    rows: &[Vec<DomainVal<P::Domain>>],
) -> Result<P::Commitment, Fail>
where
    P: UnivariateStarkPcs<EF, C, Domain: PolynomialSpace<Val: PrimeField64 + PackedField>> + Clone,
    EF: PackedExtensionField<DomainVal<P::Domain>>,
    C: StarkChallenger<DomainVal<P::Domain>, EF, P::Commitment>
        + CanObserve<InParts<P::Commitment>>,
{
    let columns = &air.extended.declaration.columns;
    let width = columns
        .width
        .saturating_sub(air.own.declaration.columns.width);
    let others = zeros(alloc, width.saturating_mul(rows.len()))?;
    let values = side_by_side(alloc, rows, &others, width)?;
    let public_values = zeros(alloc, columns.num_public_values)?;
    let log_height = log_of(rows.len())?;
    let proof = made_over::<P, EF, C>(
        alloc,
        config,
        &air.extended,
        log_height,
        values,
        &public_values,
    )?;
    let Commitments {
        trace,
        quotient_chunks: _chunks,
        random: _random,
    } = proof.commitments;
    match trace {
        InParts::Parts(main, _others) => Ok(main),
        InParts::Whole(_) => Err(Fail::new("a whole trace")),
    }
}

/// A proof of the rows with lookups, whose draws are bound to the commitment that is given.
fn prove_bound<'m, P, EF, C>(
    alloc: Global,
    config: InPartsConfig<P, EF, C>,
    air: &LookupAir<DomainVal<P::Domain>>,
    rows: &[Vec<DomainVal<P::Domain>>],
    main: &'m P::Commitment,
) -> Result<Inner<P, EF, C>, Fail>
where
    P: UnivariateStarkPcs<EF, C, Domain: PolynomialSpace<Val: PrimeField64 + PackedField>> + Clone,
    EF: PackedExtensionField<DomainVal<P::Domain>>,
    C: StarkChallenger<DomainVal<P::Domain>, EF, P::Commitment>
        + CanObserve<InParts<P::Commitment>>,
{
    let mut config = config;
    let degree_bits = log_of(rows.len())?;
    let key: Option<&'m P::Commitment> = None;
    let public_values: &[DomainVal<P::Domain>] = &[];
    let binding = LookupBinding {
        degree_bits,
        main,
        key,
        public_values,
    };
    let zero = DomainVal::<P::Domain>::ZERO;
    let drawn: Option<LookupDraws<EF>> = draw_lookups(&mut config.challenger, &binding, 0, zero);
    let draws = drawn.ok_or("no draws")?;
    let (others, width) = auxiliary(alloc, draws, rows, &air.lookups)?;
    let values = side_by_side(alloc, rows, &others, width)?;
    let public_values = values_with_draws(alloc, public_values, draws, air.key_width)?;
    made_over::<P, EF, C>(
        alloc,
        &config,
        &air.extended,
        log_of(rows.len())?,
        values,
        &public_values,
    )
}

/// The commitment to the trace that is to be verified: the prover's own, or what is forged of it.
fn forged_trace<K: Drop>(trace: InParts<K>, forged: &str, main: K) -> InParts<K> {
    match trace {
        InParts::Parts(first, others) => match forged {
            "a whole trace" => InParts::Whole(main),
            "another second part" => InParts::Parts(main, first),
            _ => InParts::Parts(first, others),
        },
        InParts::Whole(whole) => InParts::Whole(whole),
    }
}

/// The proof that is to be verified.
fn forged<K: Drop, EF, Q, F: PrimeField64>(
    forged: &str,
    inner: Proof<InParts<K>, EF, Q, F>,
    main: K,
) -> LookupProof<K, EF, Q, F> {
    let lookup_pow_witness = match forged {
        "a witness" => F::ONE,
        _ => F::ZERO,
    };
    let Commitments {
        trace,
        quotient_chunks,
        random,
    } = inner.commitments;
    let inner = Proof {
        commitments: Commitments {
            trace: forged_trace(trace, forged, main),
            quotient_chunks,
            random,
        },
        opened_values: inner.opened_values,
        opening_proof: inner.opening_proof,
        degree_bits: inner.degree_bits,
        ood_pow_witness: inner.ood_pow_witness,
        alpha_pow_witness: inner.alpha_pow_witness,
    };
    LookupProof {
        inner,
        lookup_pow_witness,
    }
}

/// The verifier's answer, in a word.
fn verified<'p, P, EF, C>(
    alloc: Global,
    config: StarkConfig<P, EF, C>,
    air: &LookupAir<DomainVal<P::Domain>>,
    proof: &'p LookupProof<P::Commitment, EF, P::Proof, DomainVal<P::Domain>>,
) -> &'static str
where
    P: UnivariateStarkPcs<EF, C, Domain: PolynomialSpace<Val: PrimeField64>> + Clone,
    EF: ExtensionField<DomainVal<P::Domain>>,
    C: StarkChallenger<DomainVal<P::Domain>, EF, P::Commitment>
        + CanObserve<InParts<P::Commitment>>,
    requires extended { IsExtended EF.DIMENSION EF.ring EF.basis EF.coordinates
        P.Domain.Val.ring air.now }
{
    let public_values: &[DomainVal<P::Domain>] = &[];
    let key: Option<&'p PreprocessedVerifierKey<P::Commitment>> = None;
    word(verify_with_lookups(alloc, config, air, proof, public_values, key))
}

/// The verdict on a proof of a case, in a word.
pub fn verdict<P, EF, C>(
    alloc: Global,
    config: StarkConfig<P, EF, C>,
    case: &Case<'_>,
) -> Result<&'static str, Fail>
where
    P: UnivariateStarkPcs<EF, C, Domain: PolynomialSpace<Val: PrimeField64 + PackedField>> + Clone,
    EF: PackedExtensionField<DomainVal<P::Domain>>,
    C: StarkChallenger<DomainVal<P::Domain>, EF, P::Commitment>
        + CanObserve<InParts<P::Commitment>>,
{
    let own = air_of(alloc, case.width)?;
    let lookups = lookups_in(alloc, case.lookups)?;
    let Ok(air) = LookupAir::new::<EF>(alloc, own, lookups) else {
        return Err(Fail::new("a fault of the lookups"));
    };
    let rows = rows_in(alloc, case.rows)?;
    let inner = in_parts(config.clone()?, case.width);
    let main = own_commitment::<P, EF, C>(alloc, &inner, &air, &rows)?;
    // Draws that are made for other columns could be chosen.
    let mut others = rows_in(alloc, case.rows)?;
    if case.forged == "draws for other rows" {
        others.reverse();
    }
    let bound = own_commitment::<P, EF, C>(alloc, &inner, &air, &others)?;
    let proof = prove_bound::<P, EF, C>(alloc, inner, &air, &rows, &bound)?;
    let proof = forged(case.forged, proof, main);
    let bits = if case.forged == "more work" { 20 } else { 0 };
    let config = config.with_lookup_proof_of_work_bits(bits);
    Ok(verified(alloc, config, &air, &proof))
}
