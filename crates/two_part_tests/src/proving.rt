//! Proofs over a scheme in two parts, and the verifier's verdicts on them, as they are and forged.
ghost use Rattle.std.specs.Prelude.{◌+◌, ◌≤◌};
ghost use Rattle.stark_protocol.specs.Preprocessing.{HasHeight};
ghost use Rattle.stark_support.specs.Scheme.{zk_bits};

use p3_uni_stark::{
    PreprocessedVerifierKey, StarkProof, VerificationError, setup_preprocessed,
    verify_with_preprocessed,
};
use stark_air::Air;
use stark_parts::{Com, PcsError, StarkChallenger, StarkConfig, StarkGenericConfig, Val};
use stark_proof::{Commitments, Proof};
use stark_support::{
    CanObserve, DomainVal, GrindingChallenger, JsonCodec, PackedExtensionField, PackedField, Pcs,
    PolynomialSpace, PrimeField64, UnivariateStarkPcs,
};
use stark_test_cases::read_all;
use stark_test_proofs::{fits, made_by, matrix_of, stands_at};
use stark_two_part::{InParts, TwoPartPcs};
use std::alloc::Global;
use std::test::Fail;

/// After how many columns a trace is cut, the trace and the public values as JSON, and what is
/// forged of the proof.
#[derive(Clone, Copy)]
pub struct Case<'a> {
    pub first_width: usize,
    pub log_height: usize,
    pub trace: &'a str,
    pub public_values: &'a str,
    pub forged: &'a str,
}

/// A configuration whose scheme commits to a trace in two parts.
type Config<P, EF, C> = StarkConfig<TwoPartPcs<P>, EF, C>;

/// The commitment to the trace that is to be verified, from one and a copy of it.
fn forged_trace<K: Drop>(trace: InParts<K>, copy: InParts<K>, forged: &str) -> InParts<K> {
    match (trace, forged) {
        (InParts::Whole(whole), "twice") => match copy {
            InParts::Whole(copy) => InParts::Parts(whole, copy),
            InParts::Parts(_first, _others) => InParts::Whole(whole),
        },
        (InParts::Parts(first, others), "swapped") => InParts::Parts(others, first),
        (InParts::Parts(first, _others), "first alone") => InParts::Whole(first),
        (InParts::Parts(_first, others), "second alone") => InParts::Whole(others),
        (trace, _) => trace,
    }
}

/// The proof that is to be verified.
fn forged<K: Drop, EF, Q, F>(
    proof: Proof<InParts<K>, EF, Q, F>,
    copy: InParts<K>,
    forged: &str,
) -> Proof<InParts<K>, EF, Q, F> {
    let Commitments {
        trace,
        quotient_chunks,
        random,
    } = proof.commitments;
    Proof {
        commitments: Commitments {
            trace: forged_trace(trace, copy, forged),
            quotient_chunks,
            random,
        },
        opened_values: proof.opened_values,
        opening_proof: proof.opening_proof,
        degree_bits: proof.degree_bits,
        ood_pow_witness: proof.ood_pow_witness,
        alpha_pow_witness: proof.alpha_pow_witness,
    }
}

/// How a proof commits to its trace, and the verdict, in words.
fn words<K, E: Drop>(
    trace: &InParts<K>,
    verdict: Result<(), VerificationError<E>>,
) -> &'static str {
    match (trace, verdict) {
        (InParts::Whole(_), Ok(())) => "whole, accepted",
        (InParts::Parts(_, _), Ok(())) => "in parts, accepted",
        (InParts::Whole(_), Err(VerificationError::InvalidOpeningArgument(_))) => {
            "whole, an opening is refused"
        }
        (InParts::Parts(_, _), Err(VerificationError::InvalidOpeningArgument(_))) => {
            "in parts, an opening is refused"
        }
        (_, Err(VerificationError::OodEvaluationMismatch { .. })) => "constraints fail",
        (_, Err(_)) => "refused",
    }
}

/// The verdict on a proof, with what is set up at its trace's height.
fn verified<'p, SC: StarkGenericConfig, A: Air<Val<SC>>>(
    alloc: Global,
    config: &'p SC,
    air: &A,
    log_height: usize,
    proof: &StarkProof<SC>,
    public_values: &[Val<SC>],
) -> Result<Result<(), VerificationError<PcsError<SC>>>, Fail>
where
    SC::Challenger: GrindingChallenger<Witness = Val<SC>>,
    requires set_up { HasHeight log_height (A.preprocessed_trace air.now) }
    requires within { log_height + zk_bits SC.Pcs.ZK ≤ SC.Pcs.scheme.log_max_trace_height
        (SC.config.scheme config.now) }
{
    let Ok(keys) = setup_preprocessed(alloc, config, air, log_height) else {
        return Err(Fail::new("no key"));
    };
    Ok(match keys {
        Some((_data, key)) => {
            verify_with_preprocessed(alloc, config, air, proof, public_values, Some(&key))
        }
        None => {
            let key: Option<&'p PreprocessedVerifierKey<Com<SC>>> = None;
            verify_with_preprocessed(alloc, config, air, proof, public_values, key)
        }
    })
}

/// The verdict on the proof of a case, in words.
pub fn verdict<P, EF, C, A>(
    alloc: Global,
    pcs: P,
    challenger: C,
    air: &A,
    case: &Case<'_>,
) -> Result<&'static str, Fail>
where
    P: UnivariateStarkPcs<
        EF,
        C,
        Domain: PolynomialSpace<Val: PrimeField64 + PackedField + JsonCodec>,
    >
        + Clone,
    EF: PackedExtensionField<DomainVal<P::Domain>>,
    C: StarkChallenger<DomainVal<P::Domain>, EF, P::Commitment>
        + CanObserve<InParts<P::Commitment>>,
    A: Air<DomainVal<P::Domain>>,
{
    let scheme = TwoPartPcs {
        inner: pcs,
        first_width: case.first_width,
    };
    let config: Config<P, EF, C> = StarkConfig::new(scheme, challenger);
    let trace = matrix_of(air, read_all(alloc, case.trace)?)?;
    let public_values = read_all(alloc, case.public_values)?;
    let log_height = case.log_height;
    if !fits(&config, air, log_height, &trace, &public_values)
        || !stands_at(alloc, air, log_height)?
    {
        return Err(Fail::new("other rows"));
    }
    let Ok((proof, _verdict)) = made_by(alloc, &config, air, log_height, trace, &public_values)
    else {
        return Err(Fail::new("no proof"));
    };
    let copy = config
        .pcs()
        .copy_commitment(alloc, &proof.commitments.trace)?;
    let proof = forged(proof, copy, case.forged);
    let verdict = verified(alloc, &config, air, log_height, &proof, &public_values)?;
    Ok(words(&proof.commitments.trace, verdict))
}
