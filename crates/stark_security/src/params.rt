//! The numbers that a report on a STARK's security is computed from.
ghost use Rattle.std.specs.Prelude.{◌≡◌, ◌+◌, ◌-◌, ◌^◌, ◌<◌, ◌≤◌, ◌||◌, ℕ, length, IfOk};
ghost use Rattle.stark_support.specs.Scheme.{zk_bits};
ghost use Rattle.stark_symbolic.specs.Degree.{greatest_degree};
ghost use Rattle.stark_air.specs.Layout.{Covers};
ghost use Rattle.stark_air.specs.SymbolicLayout.{symbolic_layout};
ghost use Rattle.stark_transcript.specs.Shape.{opens_next_row};
ghost use Rattle.stark_security.specs.ErrorBound.{HasRoomForChunks, IsChunkCountFor};
ghost use Rattle.stark_security.specs.Params.{AirSizes, AreFewFunctions, HasCounts, HasGiven, HasItsChunks, HasItsCounts, functions_of, no_grinding};

use crate::openings::{OpeningShape, num_batched_openings};
use stark_air::{Air, AirLayout};
use stark_parts::get_log_num_quotient_chunks_for_domain;
use stark_support::{DomainShape, ExtensionField, Field, FriRegime, GrindingSites};
use stark_symbolic::{LeafDegrees, get_max_constraint_degree_with_transition, greatest_degrees};
use std::alloc::{AllocError, Global};

/// What an AIR declares that its proofs' numbers are read off, in one record.
pub trait SizedAir<F> {
    ghost sizes: { Self → AirSizes F };
}

impl<F: Field, A: Air<F>> SizedAir<F> for A {
    ghost sizes = { λ air. record {
      constraints = A.constraints air;
      degree_hint = A.degree_hint air;
      main_next_columns = A.main_next_row_columns air;
      preprocessed_next_columns = A.preprocessed_next_row_columns air;
    } };
}

/// The low-degree test's parameters, the AIR's shape and the hash's strength.
#[derive(Clone, Debug, Drop)]
pub struct StarkSecurityParams {
    pub fri_log_blowup: usize,
    pub fri_log_final_poly_len: usize,
    pub fri_max_log_arity: usize,
    pub fri_num_queries: usize,
    pub fri_commit_proof_of_work_bits: usize,
    pub fri_query_proof_of_work_bits: usize,
    /// The bits of the field in which the low-degree test works.
    pub num_modulus_bits: usize,
    /// The bits of the commitment hash's resistance to collisions.
    pub collision_resistance: usize,
    /// The constraints that are folded, base and extension.
    pub num_constraints: usize,
    /// The greatest degree multiple of a constraint.
    pub air_max_constraint_degree: usize,
    /// The chunks of the quotient that are committed.
    pub num_quotient_chunks: usize,
    /// At how many points out of the domain a column is opened at most.
    pub max_combo: usize,
    /// The powers of the batching challenge that the commitment scheme takes.
    pub num_batched_functions: usize,
    /// The bits of work outside the low-degree test.
    pub grinding: GrindingSites,
}

impl StarkSecurityParams {
    /// The parameters with these numbers, and no work outside the low-degree test. The constraints'
    /// degree is at most the blow-up and one, so that the quotient fits.
    pub const fn new(
        fri: FriRegime,
        num_modulus_bits: usize,
        collision_resistance: usize,
        num_constraints: usize,
        air_max_constraint_degree: usize,
        max_combo: usize,
        num_batched_functions: usize,
        num_quotient_chunks: usize,
    ) -> Self
        requires { air_max_constraint_degree ≤ 2 ^ fri.log_blowup + 1 }
        ensures given { HasGiven fri num_modulus_bits collision_resistance max_combo no_grinding
            result }
        ensures counted { HasCounts num_constraints air_max_constraint_degree num_batched_functions
            num_quotient_chunks result }
    {
        StarkSecurityParams {
            fri_log_blowup: fri.log_blowup,
            fri_log_final_poly_len: fri.log_final_poly_len,
            fri_max_log_arity: fri.max_log_arity,
            fri_num_queries: fri.num_queries,
            fri_commit_proof_of_work_bits: fri.commit_pow_bits,
            fri_query_proof_of_work_bits: fri.query_pow_bits,
            num_modulus_bits,
            collision_resistance,
            num_constraints,
            air_max_constraint_degree,
            num_quotient_chunks,
            max_combo,
            num_batched_functions,
            grinding: GrindingSites::NONE,
        }
    }

    /// These parameters, with this work outside the low-degree test.
    pub const fn with_grinding(self, grinding: GrindingSites) -> Self
        ensures { result ≡ record self { grinding = grinding } }
    {
        StarkSecurityParams { grinding, ..self }
    }

    /// The parameters of an AIR over a domain.
    ///
    /// The number of the constraints and their greatest degree multiple are read off the AIR, the
    /// latter without the author's own bound; the chunks are those that the quotient is cut into,
    /// which that bound may raise, and twice as many under hiding; the batched functions are
    /// `num_batched_openings` of the layout's widths, the AIR's next rows, these chunks and the
    /// extension's degree. All else stands in its field as it is given.
    ///
    /// The layout is the AIR's own. The degree is at most the blow-up and one, the chunks' number
    /// and that of the batched functions are at most the greatest `usize`, and `max_combo` is above
    /// 1 where a next row is read, and else above 0. Err only where memory was refused.
    pub fn from_air<F: Field, EF: ExtensionField<F>, A: Air<F>, D: DomainShape>(
        alloc: Global,
        fri: FriRegime,
        air: &A,
        layout: AirLayout,
        trace_domain: &D,
        num_modulus_bits: usize,
        collision_resistance: usize,
        max_combo: usize,
        openings: OpeningShape,
        grinding: GrindingSites,
    ) -> Result<Self, AllocError>
        requires covered { Covers (symbolic_layout layout) (A.layout air.now) }
        requires degree { greatest_degree (D.transition_multiple trace_domain.now)
            (A.constraints air.now) ≤ 2 ^ fri.log_blowup + 1 }
        requires sized { HasRoomForChunks (D.transition_multiple trace_domain.now)
            (A.constraints air.now) (A.degree_hint air.now) openings }
        requires batched { AreFewFunctions (⟦<A as SizedAir<F>>⟧.sizes air.now)
            (D.transition_multiple trace_domain.now) layout EF.DIMENSION openings }
        requires combined { zk_bits (opens_next_row (A.main_next_row_columns air.now) ||
            opens_next_row (A.preprocessed_next_row_columns air.now)) < max_combo }
        ensures chunks { IfOk result (HasItsChunks (⟦<A as SizedAir<F>>⟧.sizes air.now)
            (D.transition_multiple trace_domain.now) openings) }
        ensures given { IfOk result (HasGiven fri num_modulus_bits collision_resistance max_combo
            grinding) }
        ensures counted { IfOk result (HasItsCounts (⟦<A as SizedAir<F>>⟧.sizes air.now)
            (D.transition_multiple trace_domain.now) layout EF.DIMENSION openings) }
    {
        let num_quotient_chunks = committed_chunks::<F, A, D>(
            alloc,
            air,
            layout,
            trace_domain,
            openings,
        )?;
        let num_batched_functions = batched_functions::<F, EF, A>(
            alloc,
            air,
            layout,
            num_quotient_chunks,
            openings,
        )?;
        let transition_degree = trace_domain.transition_degree_multiple();
        let degree = get_max_constraint_degree_with_transition::<F, EF, A>(
            alloc,
            air,
            layout,
            transition_degree,
        )?;
        let num_constraints = count_constraints::<F, EF, A>(alloc, air, layout)?;
        let params = StarkSecurityParams::new(
            fri,
            num_modulus_bits,
            collision_resistance,
            num_constraints,
            degree,
            max_combo,
            num_batched_functions,
            num_quotient_chunks,
        );
        Ok(params.with_grinding(grinding))
    }
}

/// Whether a next row is read, from the columns of it that are declared.
fn is_read(columns: &[usize]) -> bool
    ensures { result ≡ opens_next_row columns.now }
{
    !columns.is_empty()
}

/// How many powers of the batching challenge are taken for an AIR's columns and so many chunks.
fn batched_functions<F: Field, EF: ExtensionField<F>, A: Air<F>>(
    alloc: Global,
    air: &A,
    layout: AirLayout,
    num_quotient_chunks: usize,
    openings: OpeningShape,
) -> Result<usize, AllocError>
    requires { functions_of (⟦<A as SizedAir<F>>⟧.sizes air.now) layout EF.DIMENSION openings
        num_quotient_chunks < 2 ^ 64 }
    ensures { IfOk result (λ n. n ≡ functions_of (⟦<A as SizedAir<F>>⟧.sizes air.now) layout
        EF.DIMENSION openings num_quotient_chunks) }
{
    let main_next = is_read(&air.main_next_row_columns(alloc)?);
    let preprocessed_next = is_read(&air.preprocessed_next_row_columns(alloc)?);
    Ok(num_batched_openings(
        layout.main_width,
        main_next,
        layout.preprocessed_width,
        preprocessed_next,
        num_quotient_chunks,
        EF::DIMENSION,
        openings,
    ))
}

/// How many constraints an AIR has.
fn count_constraints<F: Field, EF, A: Air<F>>(
    alloc: Global,
    air: &A,
    layout: AirLayout,
) -> Result<usize, AllocError>
    requires { Covers (symbolic_layout layout) (A.layout air.now) }
    ensures { IfOk result (λ count. count ≡ length (A.constraints air.now)) }
{
    let multiples = LeafDegrees::trace_multiples(0);
    let degrees = greatest_degrees::<F, EF, A>(alloc, air, layout, multiples, multiples)?;
    Ok(degrees.num_constraints)
}

/// How many chunks of the quotient are committed.
fn committed_chunks<F: Field, A: Air<F>, D: DomainShape>(
    alloc: Global,
    air: &A,
    layout: AirLayout,
    trace_domain: &D,
    openings: OpeningShape,
) -> Result<usize, AllocError>
    requires covered { Covers (symbolic_layout layout) (A.layout air.now) }
    requires sized { HasRoomForChunks (D.transition_multiple trace_domain.now)
        (A.constraints air.now) (A.degree_hint air.now) openings }
    ensures { IfOk result (IsChunkCountFor (D.transition_multiple trace_domain.now)
        (A.constraints air.now) (A.degree_hint air.now) openings) }
{
    let is_zk = if openings.is_zk() { 1 } else { 0 };
    let log_parts = get_log_num_quotient_chunks_for_domain::<F, A, D>(
        alloc,
        air,
        layout,
        trace_domain,
        is_zk,
    )?;
    Ok(1 << (log_parts + is_zk))
}
