//! Quotient values on a coset, a group of points at a time.
ghost use Rattle.std.specs.Prelude.{◌≡◌, ◌≢◌, ◌<◌, ◌≤◌, ◌/◌, ◌+◌, ◌*◌, ◌^◌, ℕ, All, IfOk, IfSome, OnOk, Some, List, length, map, option_map, slice_index_or};
ghost use Rattle.stark_support.specs.Coset.{AreDisjoint, coset_size};
ghost use Rattle.stark_support.specs.Periodic.{ColumnFits};
ghost use Rattle.stark_air.specs.Layout.{Covers};
ghost use Rattle.stark_air.specs.SymbolicLayout.{symbolic_layout};
ghost use Rattle.stark_quotient.specs.PointwiseQuotient.{HasShape, rows_of_matrices, rows_in, rows_or_none};
ghost use Rattle.stark_quotient.specs.Groups.{AreFoldedBy, HoldPowers, IsPrepared, Tabulates};
ghost use Rattle.stark_quotient.specs.PackedParts.{AreScaledBy, HaveColumnsFrom};
ghost use Rattle.stark_quotient.specs.PreparedCoset.{AreQuotientsOn, FitsRows, HasMainPairs, HasPrepared, HasPreprocessedPairs, HasQuotients, HasQuotientsFrom, IsPlaced, QuotientOps};

use crate::group_eval::GroupEval;
use crate::packed_rows::{
    packed_pair, packed_selectors, packed_table_row, push_lanes, row_in_period,
};
use crate::plain_eval::{AlphaPowers, PackedGroup, PackedRows, PlainEval};
use crate::vectorized_eval::{QUOTIENT_ILP, VectorizedEval};
use stark_air::{Air, AirLayout, BaseAir};
use stark_parts::{Domain, StarkFields, StarkGenericConfig, Val};
use stark_support::{
    DomainShape, ExtensionField, Field, LagrangeSelectors, PackedExtensionField, PackedField,
    PackedValue, Pcs, PeriodicColumns, PeriodicLdeTable, PolynomialSpace, RowMajorMatrix,
    TwoAdicField, UnivariateStarkPcs,
};
use stark_symbolic::get_constraint_layout;
use std::alloc::{AllocError, Global};

/// AIRs whose quotient values a prover computes: every AIR over the configuration's base field.
pub trait QuotientAir<SC: StarkGenericConfig>: Air<Val<SC>> {}

impl<SC: StarkGenericConfig, A: Air<Val<SC>>> QuotientAir<SC> for A {}

/// What a quotient of an AIR is taken of, in one record: over a trace's domain the fields, the
/// subgroup of its rows and what the AIR declares; on the quotient's domain its points, the rows
/// there of the main and the preprocessed matrix, and the public values.
pub trait Quotients<A>: StarkGenericConfig {
    ghost over: { A → QuotientOps Self.Pcs.Domain Self.Pcs.Domain.Val Self.Challenge };
}

impl<SC: StarkGenericConfig, A: Air<Val<SC>>> Quotients<A> for SC
where
{
    ghost over = { λ air. record {
      air_over = λ domain. record {
        base = SC.Pcs.Domain.Val.ring;
        base_inverse = SC.Pcs.Domain.Val.inverse_of;
        ring = SC.Challenge.ring;
        inverse = SC.Challenge.inverse_of;
        embed = SC.Challenge.embed;
        basis = SC.Challenge.basis;
        generator = SC.Pcs.Domain.Val.root (SC.Pcs.Domain.coset_of domain).log_size;
        log_size = (SC.Pcs.Domain.coset_of domain).log_size;
        constraints = A.constraints air;
        periodic = A.periodic_columns air;
      };
      rows_on = λ domain main preprocessed public_values.
          rows_of_matrices SC.Pcs.Domain.Val.ring SC.Pcs.Domain.Val.root
          (SC.Pcs.Domain.coset_of domain) main preprocessed public_values;
    } };
}

/// The powers of `alpha` that fold the AIR's constraints.
fn alpha_powers<SC: StarkGenericConfig, A: Air<Val<SC>>>(
    alloc: Global,
    air: &A,
    layout: AirLayout,
    alpha: SC::Challenge,
) -> Result<AlphaPowers<SC::Challenge, Val<SC>>, AllocError>
    requires { Covers (symbolic_layout layout) (A.layout air.now) }
    ensures alpha { IfOk result (λ powers. powers.alpha ≡ alpha) }
    ensures powers { IfOk result (λ p.
        HoldPowers SC.Challenge.ring SC.Challenge.coordinates SC.Challenge.DIMENSION alpha
        (A.constraints air.now) p.base p.ext) }
{
    let places = get_constraint_layout::<Val<SC>, SC::Challenge, A>(alloc, air, layout)?;
    let (base, ext) = places.decompose_alpha::<Val<SC>, SC::Challenge>(alloc, alpha)?;
    Ok(AlphaPowers {
        alpha,
        base,
        ext,
        count: places.total_constraints(),
    })
}

/// What a quotient is taken of at the points of a coset, with what is computed ahead for all of
/// them.
#[derive(Drop)]
struct OnCoset<'a, SC: StarkGenericConfig> {
    trace_domain: Domain<SC>,
    quotient_domain: Domain<SC>,
    main: &'a RowMajorMatrix<Val<SC>>,
    preprocessed: Option<&'a RowMajorMatrix<Val<SC>>>,
    public_values: &'a [Val<SC>],
    selectors: LagrangeSelectors<Vec<Val<SC>>>,
    periodic: PeriodicLdeTable<Val<SC>>,
    powers: AlphaPowers<SC::Challenge, Val<SC>>,
    /// How many points there are.
    size: usize,
    /// By how many points the point of the next row lies further.
    step: usize,
}

/// The number of columns; 0 where there is no matrix.
fn width_of<T>(matrix: Option<&RowMajorMatrix<T>>) -> usize
    ensures { result ≡ (rows_or_none matrix.entry).width }
{
    match matrix {
        Some(matrix) => matrix.width,
        None => 0,
    }
}

/// Puts the rows of the points from `start` on in the buffers, a point a lane.
fn fill_rows<SC: StarkGenericConfig, P: PackedValue<Value = Val<SC>>>(
    on: &OnCoset<'_, SC>,
    start: usize,
    rows: &mut PackedRows<P>,
) -> Result<(), AllocError>
    requires room { start + on.now.step < 2 ^ 64 }
    requires main { on.now.main.now.width ≢ 0
        → 0 < length on.now.main.now.values.items / on.now.main.now.width }
    requires preprocessed { IfSome (option_map (λ m. m.now) on.now.preprocessed) (λ m. m.width ≢ 0
        → 0 < length m.values.items / m.width) }
    ensures main_width { rows.new.main_width ≡ rows.old.main_width }
    ensures preprocessed_width { rows.new.preprocessed_width ≡ rows.old.preprocessed_width }
    ensures main_number { OnOk result (length rows.new.main.items ≡ 2 * on.now.main.now.width) }
    ensures main { OnOk result (HasMainPairs on.now P.lanes P.WIDTH SC.Pcs.Domain.Val.ring.zero
        start rows.new.main.items) }
    ensures preprocessed_number { OnOk result (length rows.new.preprocessed.items
        ≡ 2 * (rows_or_none on.now.preprocessed).width) }
    ensures preprocessed { OnOk result (HasPreprocessedPairs on.now P.lanes P.WIDTH
        SC.Pcs.Domain.Val.ring.zero start rows.new.preprocessed.items) }
    ensures periodic_number { OnOk result (length rows.new.periodic_values.items
        ≡ on.now.periodic.width) }
    ensures periodic { OnOk result (HaveColumnsFrom P.lanes P.WIDTH on.now.periodic start
        rows.new.periodic_values.items) }
{
    packed_pair(
        Some(on.main),
        start,
        on.step,
        &mut rows.main,
        &mut rows.next,
    )?;
    packed_pair(
        on.preprocessed,
        start,
        on.step,
        &mut rows.preprocessed,
        &mut rows.next,
    )?;
    let periodic_start = row_in_period(&on.periodic, start, P::WIDTH);
    packed_table_row(&on.periodic, periodic_start, &mut rows.periodic_values)
}

/// Packed sums over vanishing values, whose inverses are given.
fn over_vanishing<SC: StarkGenericConfig, A: Air<Val<SC>>, G: GroupEval<SC, A>>(
    sums: G::PackedAbove,
    inverses: G::Packed,
) -> G::PackedAbove
    ensures { AreScaledBy ⟦<SC as StarkFields>⟧.fields G.PackedAbove.lanes G.Packed.lanes
        G.PackedAbove.WIDTH sums inverses result }
{
    sums * G::PackedAbove::from(inverses)
}

/// The quotients at the points from `start` on, a point a lane, as far as there are points.
fn quotients_of_group<SC: StarkGenericConfig, A: Air<Val<SC>>, G: GroupEval<SC, A>>(
    alloc: Global,
    air: &A,
    on: &OnCoset<'_, SC>,
    eval: &mut G,
    rows: &mut PackedRows<G::Packed>,
    start: usize,
) -> Result<G::PackedAbove, AllocError>
    requires main_width { rows.old.main_width ≡ (A.layout air.now).main }
    requires preprocessed_width { rows.old.preprocessed_width ≡ (A.layout air.now).preprocessed }
    requires placed { IsPlaced on.now ⟦<SC as StarkFields>⟧.fields SC.Pcs.Domain.coset_of }
    requires rows { FitsRows on.now (A.layout air.now) }
    requires within { start < on.now.size }
    requires powers { AreFoldedBy SC.Challenge.ring SC.Challenge.coordinates SC.Challenge.DIMENSION
        (A.constraints air.now) on.now.powers }
    requires prepared { HasPrepared on.now ⟦<SC as StarkFields>⟧.fields SC.Pcs.Domain.coset_of
        (A.periodic_columns air.now) }
    ensures main_width { rows.new.main_width ≡ rows.old.main_width }
    ensures preprocessed_width { rows.new.preprocessed_width ≡ rows.old.preprocessed_width }
    ensures quotients { IfOk result (HasQuotientsFrom on.now (⟦<SC as Quotients<A>>⟧.over air.now)
        start G.PackedAbove.lanes G.PackedAbove.WIDTH) }
{
    fill_rows::<SC, G::Packed>(on, start, rows)?;
    let selectors = packed_selectors(&on.selectors, start);
    let group = PackedGroup {
        rows,
        selectors: &selectors,
        public_values: on.public_values,
        powers: &on.powers,
    };
    let sums = eval.fold(alloc, air, &group)?;
    Ok(over_vanishing::<SC, A, G>(sums, selectors.inv_vanishing))
}

/// The quotients at all points, by one way to evaluate groups of them.
fn values_on<SC: StarkGenericConfig, A: Air<Val<SC>>, G: GroupEval<SC, A>>(
    alloc: Global,
    air: &A,
    on: &OnCoset<'_, SC>,
) -> Result<Vec<SC::Challenge>, AllocError>
    requires placed { IsPlaced on.now ⟦<SC as StarkFields>⟧.fields SC.Pcs.Domain.coset_of }
    requires rows { FitsRows on.now (A.layout air.now) }
    requires powers { AreFoldedBy SC.Challenge.ring SC.Challenge.coordinates SC.Challenge.DIMENSION
        (A.constraints air.now) on.now.powers }
    requires prepared { HasPrepared on.now ⟦<SC as StarkFields>⟧.fields SC.Pcs.Domain.coset_of
        (A.periodic_columns air.now) }
    ensures { IfOk result (HasQuotients on.now (⟦<SC as Quotients<A>>⟧.over air.now)) }
{
    let mut eval = G::new(alloc);
    let mut rows = PackedRows::new(alloc, on.main.width, width_of(on.preprocessed));
    let mut values = Vec::with_capacity(alloc, on.size)?;
    let mut start = 0;
    while start < on.size {
        let packed = quotients_of_group::<SC, A, G>(alloc, air, on, &mut eval, &mut rows, start)?;
        push_lanes(&mut values, &packed, on.size - start)?;
        start += G::PackedAbove::WIDTH;
    }
    Ok(values)
}

/// How many points a domain has.
fn points_of<D: PolynomialSpace>(domain: &D) -> usize
    ensures size { result ≡ coset_size (D.coset_of domain.now) }
    ensures nonzero { 0 < result }
    ensures room { result ≤ 2 ^ 63 }
{
    domain.size()
}

/// The AIR's periodic columns beside a trace that they fit.
fn fitting_columns<F, A: BaseAir<F>>(air: &A, trace_len: usize) -> PeriodicColumns<'_, F>
    requires { All (λ column. ColumnFits trace_len (length column)) (A.periodic_columns air.now) }
    ensures columns { map (λ column. column.items) result.columns.now ≡ A.periodic_columns air.now }
    ensures trace_len { result.trace_len ≡ trace_len }
{
    PeriodicColumns {
        columns: air.periodic_columns(),
        trace_len,
    }
}

/// The values of the AIR's periodic columns at the quotient domain's points, beside a trace that
/// they fit.
fn periodic_table<SC: StarkGenericConfig, A: BaseAir<Val<SC>>>(
    alloc: Global,
    pcs: &SC::Pcs,
    air: &A,
    trace_domain: Domain<SC>,
    quotient_domain: Domain<SC>,
) -> Result<PeriodicLdeTable<Val<SC>>, AllocError>
    requires { All (λ column. ColumnFits (coset_size (SC.Pcs.Domain.coset_of trace_domain))
        (length column)) (A.periodic_columns air.now) }
    ensures { IfOk result (Tabulates ⟦<SC as StarkFields>⟧.fields
        SC.Pcs.Domain.coset_of trace_domain quotient_domain (A.periodic_columns air.now)) }
{
    let columns = fitting_columns::<Val<SC>, A>(air, points_of(&trace_domain));
    let table = pcs.build_periodic_lde_table(alloc, &columns, trace_domain, quotient_domain)?;
    Ok(table)
}

/// The selectors of the trace's domain and the table of the AIR's periodic columns, at the quotient
/// domain's points.
fn prepare<SC: StarkGenericConfig, A: BaseAir<Val<SC>>>(
    alloc: Global,
    pcs: &SC::Pcs,
    air: &A,
    trace_domain: Domain<SC>,
    quotient_domain: Domain<SC>,
) -> Result<(LagrangeSelectors<Vec<Val<SC>>>, PeriodicLdeTable<Val<SC>>), AllocError>
    requires subgroup { (SC.Pcs.Domain.coset_of trace_domain).shift ≡ SC.Pcs.Domain.Val.ring.one }
    requires disjoint { AreDisjoint SC.Pcs.Domain.Val.ring SC.Pcs.Domain.Val.root
        (SC.Pcs.Domain.coset_of trace_domain) (SC.Pcs.Domain.coset_of quotient_domain) }
    requires periodic { All (λ column.
        ColumnFits (coset_size (SC.Pcs.Domain.coset_of trace_domain)) (length column))
        (A.periodic_columns air.now) }
    ensures { IfOk result (IsPrepared ⟦<SC as StarkFields>⟧.fields
        SC.Pcs.Domain.coset_of trace_domain quotient_domain (A.periodic_columns air.now)) }
{
    let periodic = periodic_table::<SC, A>(alloc, pcs, air, trace_domain, quotient_domain)?;
    let selectors = trace_domain.selectors_on_coset(alloc, &quotient_domain)?;
    Ok((selectors, periodic))
}

/// How many rows further the next row lies, beside so many points.
fn rows_to_next<D: PolynomialSpace>(size: usize, trace_domain: &D) -> usize
    ensures { result ≡ size / coset_size (D.coset_of trace_domain.now) }
{
    size / points_of(trace_domain)
}

/// The values of the quotient that the AIR's constraints, folded by `alpha`, leave over the
/// vanishing polynomial of `trace_domain`: at each point of `quotient_domain`, in its order, the
/// sum of `alpha^(n - 1 - j)` times constraint `j` for each of the `n`, over `Z_H`. The current row
/// of a point is the matrices' row of the same number, the next one lies as many rows further as
/// `quotient_domain` has points for each of `trace_domain`, taken round the end. A matrix has a row
/// for each point, of the AIR's width; without one, the AIR has no preprocessed columns. The
/// domains have no point in common, and `trace_domain` is a subgroup. Err only where memory was
/// refused.
pub fn quotient_values<SC: StarkGenericConfig, A: QuotientAir<SC>>(
    alloc: Global,
    pcs: &SC::Pcs,
    air: &A,
    public_values: &[Val<SC>],
    layout: AirLayout,
    trace_domain: Domain<SC>,
    quotient_domain: Domain<SC>,
    trace: &RowMajorMatrix<Val<SC>>,
    preprocessed: Option<&RowMajorMatrix<Val<SC>>>,
    alpha: SC::Challenge,
) -> Result<Vec<SC::Challenge>, AllocError>
where
    Val<SC>: PackedField,
    SC::Challenge: PackedExtensionField<Val<SC>>,
    requires layout { Covers (symbolic_layout layout) (A.layout air.now) }
    requires subgroup { (SC.Pcs.Domain.coset_of trace_domain).shift ≡ SC.Pcs.Domain.Val.ring.one }
    requires disjoint { AreDisjoint SC.Pcs.Domain.Val.ring SC.Pcs.Domain.Val.root
        (SC.Pcs.Domain.coset_of trace_domain) (SC.Pcs.Domain.coset_of quotient_domain) }
    requires trace { HasShape (A.layout air.now).main
        (coset_size (SC.Pcs.Domain.coset_of quotient_domain)) (rows_in trace.now) }
    requires preprocessed { HasShape (A.layout air.now).preprocessed
        (coset_size (SC.Pcs.Domain.coset_of quotient_domain)) (rows_or_none preprocessed) }
    requires public_values { length public_values.now ≡ (A.layout air.now).public_values }
    requires periodic { All (λ column.
        ColumnFits (coset_size (SC.Pcs.Domain.coset_of trace_domain)) (length column))
        (A.periodic_columns air.now) }
    ensures { IfOk result (AreQuotientsOn (⟦<SC as Quotients<A>>⟧.over air.now) trace_domain
        quotient_domain trace.now preprocessed.entry public_values.now alpha) }
{
    let prepared = prepare::<SC, A>(alloc, pcs, air, trace_domain, quotient_domain)?;
    let (selectors, periodic) = prepared;
    let powers = alpha_powers::<SC, A>(alloc, air, layout, alpha)?;
    let size = points_of(&quotient_domain);
    let step = rows_to_next(size, &trace_domain);
    let on = OnCoset {
        trace_domain,
        quotient_domain,
        main: trace,
        preprocessed,
        public_values,
        selectors,
        periodic,
        powers,
        size,
        step,
    };
    if Val::<SC>::BENEFITS_FROM_LOCKSTEP_EVALUATION {
        values_on::<SC, A, VectorizedEval<SC, QUOTIENT_ILP>>(alloc, air, &on)
    } else {
        values_on::<SC, A, PlainEval<SC>>(alloc, air, &on)
    }
}
