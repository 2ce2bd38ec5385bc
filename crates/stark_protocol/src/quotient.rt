//! The quotient's domain: how many parts it has, and whether it fits.
ghost use Rattle.std.specs.Prelude.{◌≡◌, ◌+◌, ◌<◌, ◌≤◌, IfErr, IfOk, None, Some};
ghost use Rattle.stark_protocol.specs.ShapeFaults.{quotient_fault};
ghost use Rattle.stark_protocol.specs.Sizes.{log_parts_of, quotient_coset};

use stark_air::{Air, AirLayout};
use stark_parts::get_log_num_quotient_chunks_for_domain;
use stark_support::{PolynomialSpace, checked_log_size_sum};
use stark_transcript::InvalidProofShapeError;
use std::alloc::{AllocError, Global};

/// The logarithm of the number of parts of an AIR's quotient over a domain.
pub fn log_parts_of<D: PolynomialSpace, A: Air<D::Val>>(
    alloc: Global,
    air: &A,
    domain: &D,
    is_zk: usize,
) -> Result<usize, AllocError>
    requires flag { is_zk ≤ 1 }
    ensures parts { IfOk result (λ log. log
        ≡ log_parts_of (A.constraints air.now) (A.degree_hint air.now) is_zk) }
    ensures bound { IfOk result (λ log. log ≤ 64) }
{
    let layout = AirLayout::from_air(air);
    let log = get_log_num_quotient_chunks_for_domain::<D::Val, A, D>(
        alloc, air, layout, domain, is_zk,
    )?;
    Ok(log)
}

/// The error of a quotient's domain whose logarithm is greater than that of the largest.
fn too_large(maximum: usize, got: usize) -> InvalidProofShapeError
    ensures { result ≡ InvalidProofShapeError.QuotientDomainTooLarge None maximum got }
{
    InvalidProofShapeError::QuotientDomainTooLarge {
        air: None,
        maximum,
        got,
    }
}

/// The domain of a quotient of `2^log_parts` parts: apart from the committed trace's, and as many
/// times larger. `QuotientDomainTooLarge` where the number of chunks or the domain's size doesn't
/// fit, or the field has no group of that size.
pub fn quotient_domain_of<D: PolynomialSpace>(
    committed: &D,
    degree_bits: usize,
    log_parts: usize,
    is_zk: usize,
    greatest_height: usize,
) -> Result<D, InvalidProofShapeError>
    requires height { degree_bits ≡ (D.coset_of committed.now).log_size }
    requires fits { degree_bits < 64 }
    requires bound { log_parts ≤ 64 }
    requires flag { is_zk ≤ 1 }
    ensures clear { IfOk result (λ _. quotient_fault log_parts is_zk degree_bits D.Val.TWO_ADICITY
        greatest_height ≡ None) }
    ensures fault { IfErr result (λ error.
        quotient_fault log_parts is_zk degree_bits D.Val.TWO_ADICITY greatest_height
        ≡ Some error) }
    ensures count { IfOk result (λ _. log_parts + is_zk < 64) }
    ensures domain { IfOk result (λ d. D.coset_of d
        ≡ quotient_coset D.Val.ring D.Val.GENERATOR (D.coset_of committed.now) log_parts) }
{
    let log_chunks = log_parts + is_zk;
    if log_chunks >= 64 {
        return Err(too_large(63, log_chunks));
    }
    let log_size = degree_bits + log_parts;
    let Some((_, size)) = checked_log_size_sum(degree_bits, log_parts) else {
        return Err(too_large(63, log_size));
    };
    match committed.try_create_disjoint_domain(size) {
        Some(domain) => Ok(domain),
        None => Err(too_large(greatest_height, log_size)),
    }
}
