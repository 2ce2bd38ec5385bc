//! How many chunks a quotient is cut into, by the degrees of an AIR's constraints.
ghost use Rattle.std.specs.Prelude.{◌≡◌, ◌≤◌, ◌+◌, ℕ, max, unwrap_or, IfOk};
ghost use Rattle.stark_support.specs.Logarithm.{IsCeilingOfLog};
ghost use Rattle.stark_air.specs.Layout.{Covers};
ghost use Rattle.stark_air.specs.SymbolicLayout.{symbolic_layout};
ghost use Rattle.stark_parts.specs.Sizing.{constraint_degree, quotient_multiple, multiple_of};
ghost use Rattle.stark_parts.specs.SizingLaw.{AreSizable, HasSmallBound};

use stark_air::{Air, AirLayout, BaseAir};
use stark_support::{DomainShape, Field, log2_ceil_usize};
use stark_symbolic::{
    get_max_constraint_degree_extension, get_max_constraint_degree_with_transition,
};
use std::alloc::{AllocError, Global};

/// The greater of a degree and the author's own bound.
fn at_least_the_hint<F, A: BaseAir<F>>(air: &A, degree: usize) -> usize
    ensures { result ≡ max degree (unwrap_or (A.degree_hint air.now) 0) }
{
    degree.max(air.max_constraint_degree().unwrap_or(0))
}

/// The logarithm, rounded up, of the chunks that a quotient of constraints of this degree needs.
fn log_chunks_of_degree(degree: usize, is_zk: usize) -> usize
    ensures { IsCeilingOfLog result (quotient_multiple degree is_zk) }
{
    log2_ceil_usize(degree.saturating_add(is_zk).max(2) - 1)
}

/// The logarithm of the number of chunks that a quotient is cut into where this is the greatest
/// degree multiple of the AIR's constraints: `log2_ceil(max(d + is_zk, 2) - 1)`, where `d` is the
/// greater of the degree and the author's own bound, and a sum above the greatest `usize` counts as
/// that.
pub fn get_log_num_quotient_chunks_for_degree<F, A: BaseAir<F>>(
    air: &A,
    degree: usize,
    is_zk: usize,
) -> usize
    ensures { IsCeilingOfLog result
        (quotient_multiple (max degree (unwrap_or (A.degree_hint air.now) 0)) is_zk) }
{
    log_chunks_of_degree(at_least_the_hint(air, degree), is_zk)
}

/// The logarithm of the number of chunks that the quotient of the AIR's constraints, base and
/// extension, is cut into over a two-adic domain: `log2_ceil(max(degree + is_zk, 2) - 1)`, where
/// the degree is the greater of the greatest degree multiple and the author's own bound, and a sum
/// above the greatest `usize` counts as that. The trace's length decides nothing. Under zero
/// knowledge `is_zk` is 1, and else 0. Err only where memory was refused.
pub fn get_log_quotient_degree_extension<F: Field, EF, A: Air<F>>(
    alloc: Global,
    air: &A,
    layout: AirLayout,
    trace_len: usize,
    is_zk: usize,
) -> Result<usize, AllocError>
    requires covered { Covers (symbolic_layout layout) (A.layout air.now) }
    requires flag { is_zk ≤ 1 }
    ensures { IfOk result (λ log. IsCeilingOfLog log
        (quotient_multiple (constraint_degree 0 (A.constraints air.now) (A.degree_hint air.now))
        is_zk)) }
{
    let degree = get_max_constraint_degree_extension::<F, EF, A>(alloc, air, layout, trace_len)?;
    Ok(get_log_num_quotient_chunks_for_degree(air, degree, is_zk))
}

/// `get_log_quotient_degree_extension` where the constraints over the extension are over the field
/// itself.
pub fn get_log_num_quotient_chunks<F: Field, A: Air<F>>(
    alloc: Global,
    air: &A,
    layout: AirLayout,
    trace_len: usize,
    is_zk: usize,
) -> Result<usize, AllocError>
    requires covered { Covers (symbolic_layout layout) (A.layout air.now) }
    requires flag { is_zk ≤ 1 }
    ensures { IfOk result (λ log. IsCeilingOfLog log
        (quotient_multiple (constraint_degree 0 (A.constraints air.now) (A.degree_hint air.now))
        is_zk)) }
{
    get_log_quotient_degree_extension::<F, F, A>(alloc, air, layout, trace_len, is_zk)
}

/// The logarithm of the number of chunks over any domain, whose `transition_degree_multiple` is the
/// degree of the transition selector. Where each term of each constraint has at most one transition
/// factor and no degree multiple saturates, a quotient's domain of so many chunks is large enough:
/// the greatest degree bound of a constraint, over columns of degree below the committed height, is
/// below the trace's height plus the size of that domain.
pub fn get_log_num_quotient_chunks_for_domain<F: Field, A: Air<F>, D: DomainShape>(
    alloc: Global,
    air: &A,
    layout: AirLayout,
    domain: &D,
    is_zk: usize,
) -> Result<usize, AllocError>
    requires covered { Covers (symbolic_layout layout) (A.layout air.now) }
    requires flag { is_zk ≤ 1 }
    ensures log { IfOk result (λ log. IsCeilingOfLog log
        (multiple_of (D.transition_multiple domain.now) (A.constraints air.now)
        (A.degree_hint air.now) is_zk)) }
    ensures enough { IfOk result (λ log. AreSizable (A.constraints air.now) → (height : ℕ)
        → HasSmallBound (A.constraints air.now) height (height + is_zk) log) }
{
    let transition_degree = domain.transition_degree_multiple();
    let degree = get_max_constraint_degree_with_transition::<F, F, A>(
        alloc,
        air,
        layout,
        transition_degree,
    )?;
    Ok(get_log_num_quotient_chunks_for_degree(air, degree, is_zk))
}
