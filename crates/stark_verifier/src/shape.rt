//! The tests of a proof's shape, in their order.
ghost use Rattle.std.specs.Prelude.{◌≡◌, ◌+◌, ◌-◌, ◌^◌, ◌<◌, ◌≤◌, IfErr, IfOk, None, OnOk, Some};
ghost use Rattle.stark_support.specs.Scheme.{zk_bits};
ghost use Rattle.stark_protocol.specs.Acceptance.{of_shape};
ghost use Rattle.stark_protocol.specs.ShapeFaults.{degree_fault};
ghost use Rattle.stark_verifier.specs.MemoryAside.{IfErrMemoryAside};

use crate::contracts::StarkChecks;
use crate::instance::{InstanceOf, VerifierInstance};
use crate::key_size::{KeySize, StarkShapes};
use crate::opened::{check_opened, check_randomization};
use crate::preprocessed::{check_preprocessed, check_preprocessed_beside};
use stark_air::Air;
use stark_parts::{Com, Domain, PcsError, StarkGenericConfig, Val};
use stark_protocol::{
    PreprocessedVerifierKey, StarkProof, log_parts_of, natural_domain, quotient_domain_of,
};
use stark_support::{GrindingChallenger, Pcs, PolynomialSpace, UnivariateStarkPcs, checked_pow2};
use stark_transcript::{InvalidProofShapeError, VerificationError};
use std::alloc::Global;

/// The domains of a proof, and the number of its quotient's chunks.
#[derive(Clone, Copy)]
pub struct ProofDomains<D> {
    /// That of the trace.
    pub trace: D,
    /// That of the committed trace, twice as large in zero knowledge.
    pub committed: D,
    /// That of the quotient.
    pub quotient: D,
    /// The logarithm of the number of chunks.
    pub log_chunks: usize,
}

/// Tests the bits of the committed trace's height, and answers those of the trace's own height,
/// without the bit that zero knowledge adds, and the committed height. `is_zk` is 1 in zero
/// knowledge and else 0; `air` names the instance in an error, None where a proof has one alone.
///
/// - `DegreeBitsTooSmall` where there are fewer bits than `is_zk + min_log_degree`, which is its
///   `minimum`.
/// - `DegreeBitsTooLarge` where there are more than `max_log_degree`, which is its `maximum`.
/// - `DegreeBitsTooLarge` with the maximum 63 where the height itself doesn't fit.
pub fn validate_degree_bits(
    air: Option<usize>,
    degree_bits: usize,
    is_zk: usize,
    min_log_degree: usize,
    max_log_degree: usize,
) -> Result<(usize, usize), InvalidProofShapeError>
    requires { is_zk + min_log_degree < 2 ^ 64 }
    ensures sizes { IfOk result (λ sizes. sizes ≡ (degree_bits - is_zk, 2 ^ degree_bits)) }
    ensures clear { IfOk result (λ _. degree_fault air degree_bits is_zk min_log_degree
        max_log_degree ≡ None) }
    ensures extended { IfOk result (λ _. is_zk + min_log_degree ≤ degree_bits) }
    ensures greatest { IfOk result (λ _. degree_bits ≤ max_log_degree) }
    ensures fits { IfOk result (λ _. degree_bits < 64) }
    ensures fault { IfErr result (λ error.
        degree_fault air degree_bits is_zk min_log_degree max_log_degree ≡ Some error) }
{
    // All three tests are of the number of bits, before a height is computed of it: the prover
    // chose it, and domains are made of it before anything is opened.
    let minimum = is_zk + min_log_degree;
    if degree_bits < minimum {
        return Err(InvalidProofShapeError::DegreeBitsTooSmall {
            air,
            minimum,
            got: degree_bits,
        });
    }
    if degree_bits > max_log_degree {
        return Err(InvalidProofShapeError::DegreeBitsTooLarge {
            air,
            maximum: max_log_degree,
            got: degree_bits,
        });
    }
    match checked_pow2(degree_bits) {
        Some(degree) => Ok((degree_bits - is_zk, degree)),
        None => Err(InvalidProofShapeError::DegreeBitsTooLarge {
            air,
            maximum: 63,
            got: degree_bits,
        }),
    }
}

/// The bits of the committed height, against the scheme's heights; the answer is the domain of the
/// trace and that of the committed one.
fn check_height<SC: StarkGenericConfig, A: Air<Val<SC>>>(
    on: &InstanceOf<'_, SC, A>,
) -> Result<(Domain<SC>, Domain<SC>), InvalidProofShapeError>
where
    SC::Challenger: GrindingChallenger<Witness = Val<SC>>,
    ensures clear { IfOk result (λ _. ⟦<SC as StarkChecks<A>>⟧.height_fault on.now ≡ None) }
    ensures domains { IfOk result (λ domains.
        ⟦<SC as StarkChecks<A>>⟧.are_domains on.now domains.0 domains.1) }
    ensures extended { IfOk result (λ _. zk_bits SC.Pcs.ZK ≤ on.now.proof.now.degree_bits) }
    ensures fits { IfOk result (λ _. on.now.proof.now.degree_bits < 64) }
    ensures fault { IfErr result (λ error.
        ⟦<SC as StarkChecks<A>>⟧.height_fault on.now ≡ Some error) }
{
    // The proof tells the committed height. The trace's own lacks the bit that zero knowledge adds:
    // constraints, selectors and periodic columns live on that smaller domain.
    let (config, degree_bits) = (on.config, on.proof.degree_bits);
    let pcs = config.pcs();
    let (minimum, maximum) = (pcs.log_min_trace_height(), pcs.log_max_trace_height());
    let (log_height, _height) = validate_degree_bits(
        None,
        degree_bits,
        config.is_zk(),
        minimum,
        maximum,
    )?;
    let trace = natural_domain(config, log_height);
    Ok((trace, natural_domain(config, degree_bits)))
}

/// The size of the quotient's domain, against what fits and what the field has; the answer is that
/// domain, and the logarithm of the number of chunks.
fn check_quotient<SC: StarkGenericConfig, A: Air<Val<SC>>>(
    alloc: Global,
    on: &InstanceOf<'_, SC, A>,
    trace: &Domain<SC>,
    committed: &Domain<SC>,
) -> Result<(Domain<SC>, usize), VerificationError<PcsError<SC>>>
where
    SC::Challenger: GrindingChallenger<Witness = Val<SC>>,
    requires domains { ⟦<SC as StarkChecks<A>>⟧.are_domains on.now trace.now committed.now }
    requires fits { on.now.proof.now.degree_bits < 64 }
    ensures clear { IfOk result (λ _. ⟦<SC as StarkChecks<A>>⟧.domain_fault on.now ≡ None) }
    ensures quotient { IfOk result (λ quotient.
        ⟦<SC as StarkChecks<A>>⟧.is_quotient on.now quotient.0 quotient.1) }
    ensures fault { IfErrMemoryAside result (λ error.
        of_shape (⟦<SC as StarkChecks<A>>⟧.domain_fault on.now) ≡ Some error) }
{
    // The constraints' degrees say how many parts the quotient has, and no number of the proof
    // does: its chunks are counted against this one. Zero knowledge makes two chunks of a part.
    let (degree_bits, zk_bits) = (on.proof.degree_bits, on.config.is_zk());
    let log_parts = log_parts_of(alloc, on.air, trace, zk_bits)?;
    let maximum = on.config.pcs().log_max_trace_height();
    let quotient = quotient_domain_of(committed, degree_bits, log_parts, zk_bits, maximum)?;
    Ok((quotient, log_parts + zk_bits))
}

/// The tests of the shape that read neither the height nor the key, in their order; the answer is
/// the quotient's domain, and the logarithm of the number of chunks.
fn check_sizes<SC: StarkGenericConfig, A: Air<Val<SC>>>(
    alloc: Global,
    on: &InstanceOf<'_, SC, A>,
    trace: &Domain<SC>,
    committed: &Domain<SC>,
) -> Result<(Domain<SC>, usize), VerificationError<PcsError<SC>>>
where
    SC::Challenger: GrindingChallenger<Witness = Val<SC>>,
    requires domains { ⟦<SC as StarkChecks<A>>⟧.are_domains on.now trace.now committed.now }
    requires fits { on.now.proof.now.degree_bits < 64 }
    ensures clear { IfOk result (λ _. ⟦<SC as StarkChecks<A>>⟧.sizes_fault on.now ≡ None) }
    ensures opened { IfOk result (λ _. ⟦<SC as StarkChecks<A>>⟧.values_fault on.now ≡ None) }
    ensures quotient { IfOk result (λ quotient.
        ⟦<SC as StarkChecks<A>>⟧.is_quotient on.now quotient.0 quotient.1) }
    ensures fault { IfErrMemoryAside result (λ error.
        ⟦<SC as StarkChecks<A>>⟧.sizes_fault on.now ≡ Some error) }
{
    // The number of chunks, against which they are counted below, comes with the quotient's domain.
    let (quotient, log_chunks) = check_quotient(alloc, on, trace, committed)?;
    // A random commitment that isn't opened, or values of none, would be bound by nothing.
    let (commitments, opened) = (&on.proof.commitments, &on.proof.opened_values);
    check_randomization(SC::Pcs::ZK, &commitments.random, &opened.random)?;
    // Past this each list is as long as the steps that read it take it to be.
    check_opened(alloc, on, log_chunks)?;
    Ok((quotient, log_chunks))
}

/// The tests of the proof's shape, in their order; the answer is the proof's domains.
pub(crate) fn check_shape<SC: StarkGenericConfig, A: Air<Val<SC>>>(
    alloc: Global,
    on: &InstanceOf<'_, SC, A>,
) -> Result<ProofDomains<Domain<SC>>, VerificationError<PcsError<SC>>>
where
    SC::Challenger: GrindingChallenger<Witness = Val<SC>>,
    ensures clear { IfOk result (λ _. ⟦<SC as StarkChecks<A>>⟧.shape_fault on.now ≡ None) }
    ensures shaped { IfOk result (λ domains. ⟦<SC as StarkChecks<A>>⟧.is_shaped on.now domains) }
    ensures fault { IfErrMemoryAside result (λ error.
        ⟦<SC as StarkChecks<A>>⟧.shape_fault on.now ≡ Some error) }
{
    // The height comes first, since each domain is made of it.
    let (trace, committed) = check_height(on)?;
    // The key is the caller's word for the preprocessed columns. It and the rows that are opened of
    // it have to be of this AIR's width, and of this height.
    check_preprocessed(alloc, on)?;
    let (quotient, log_chunks) = check_sizes(alloc, on, &trace, &committed)?;
    Ok(ProofDomains {
        trace,
        committed,
        quotient,
        log_chunks,
    })
}

/// The tests of the proof's shape, in their order, where of the key its size alone is known.
fn check_shape_beside<SC: StarkGenericConfig, A: Air<Val<SC>>>(
    alloc: Global,
    on: &InstanceOf<'_, SC, A>,
    size: Option<KeySize>,
) -> Result<(), VerificationError<PcsError<SC>>>
where
    SC::Challenger: GrindingChallenger<Witness = Val<SC>>,
    ensures clear { IfOk result (λ _. ⟦<SC as StarkChecks<A>>⟧.fault_beside on.now size ≡ None) }
    ensures fault { IfErrMemoryAside result (λ error.
        ⟦<SC as StarkChecks<A>>⟧.fault_beside on.now size ≡ Some error) }
{
    let domains = check_height(on)?;
    check_preprocessed_beside(alloc, on, size)?;
    check_sizes(alloc, on, &domains.0, &domains.1)?;
    Ok(())
}

/// The tests of a proof's shape, which are the first that `verify_with_preprocessed` makes, in the
/// same order, before the key of the preprocessed columns is there: they read no more of it than
/// its size, None where the AIR has no such columns. Ok exactly where no key of this size makes
/// them fail, and else the error of the first fault, whatever the key of this size is;
/// `OutOfMemory` only where memory was refused.
///
/// To set a key up is the dearest part of refusing a proof that a stranger made up. So a service
/// that sets keys up asks this first.
pub fn check_proof_shape<'p, SC: StarkGenericConfig, A: Air<Val<SC>>>(
    alloc: Global,
    config: &'p SC,
    air: &'p A,
    proof: &'p StarkProof<SC>,
    public_values: &'p [Val<SC>],
    size: Option<KeySize>,
) -> Result<(), VerificationError<PcsError<SC>>>
where
    SC::Challenger: GrindingChallenger<Witness = Val<SC>>,
    ensures fitting { OnOk result (⟦<SC as StarkShapes<A>>⟧.fitting config.now air.now proof.now
        public_values.now size) }
    ensures refused { IfErrMemoryAside result (⟦<SC as StarkShapes<A>>⟧.misshapen config.now
        air.now proof.now public_values.now size) }
{
    let key: Option<&'p PreprocessedVerifierKey<Com<SC>>> = None;
    let on = VerifierInstance {
        config,
        air,
        proof,
        public_values,
        key,
    };
    check_shape_beside(alloc, &on, size)
}
