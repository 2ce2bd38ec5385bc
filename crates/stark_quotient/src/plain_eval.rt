//! An AIR's constraints at a group of points, by packed values that have a point in each lane.
ghost use Rattle.std.specs.Prelude.{◌≡◌, [], IfOk};
ghost use Rattle.stark_quotient.specs.Groups.{AreFoldedBy, FitsLayout, FoldsPacked, HasTwoRows, ShowsGroup, group_layout};

use crate::group_eval::GroupEval;
use crate::row::folded_row;
use stark_air::{Air, BaseAirBuilder, RowWindow};
use stark_parts::{PackedChallenge, PackedVal, StarkGenericConfig, Val};
use stark_prover_folder::{ProverConstraintFolder, StarkPacking};
use stark_support::{
    Algebra, ExtensionField, Field, LagrangeSelectors, PackedExtensionField, PackedField,
    PackedValue, RowMajorMatrixView,
};
use std::alloc::{AllocError, Global};
use std::mem;

/// The powers of alpha that fold an AIR's constraints.
#[derive(Drop)]
pub(crate) struct AlphaPowers<EF, F> {
    pub alpha: EF,
    /// For each coordinate those of the base constraints.
    pub base: Vec<Vec<F>>,
    /// Those of the constraints over the extension.
    pub ext: Vec<EF>,
    /// How many constraints there are.
    pub count: usize,
}

/// Packed rows, each two one after the other, in buffers that serve every group.
#[derive(Drop)]
pub(crate) struct PackedRows<P> {
    pub main_width: usize,
    pub main: Vec<P>,
    pub preprocessed_width: usize,
    pub preprocessed: Vec<P>,
    pub periodic_values: Vec<P>,
    /// Where next rows are packed, before they are put behind the current ones.
    pub next: Vec<P>,
}

impl<P> PackedRows<P> {
    /// The buffers, all empty, for rows of so many main and preprocessed columns.
    pub(crate) fn new(alloc: Global, main_width: usize, preprocessed_width: usize) -> PackedRows<P>
        ensures main { result.main_width ≡ main_width }
        ensures preprocessed { result.preprocessed_width ≡ preprocessed_width }
    {
        PackedRows {
            main_width,
            main: Vec::new(alloc),
            preprocessed_width,
            preprocessed: Vec::new(alloc),
            periodic_values: Vec::new(alloc),
            next: Vec::new(alloc),
        }
    }
}

/// A group of points, a point a lane: the rows there, and what else an AIR's constraints read and
/// are folded with.
#[derive(Drop)]
pub(crate) struct PackedGroup<'a, F, EF, P> {
    pub rows: &'a PackedRows<P>,
    pub selectors: &'a LagrangeSelectors<P>,
    pub public_values: &'a [F],
    pub powers: &'a AlphaPowers<EF, F>,
}

/// A group over a configuration's fields.
pub(crate) type GroupOf<'a, SC, P> = PackedGroup<
    'a,
    Val<SC>,
    <SC as StarkGenericConfig>::Challenge,
    P,
>;

/// The main and the preprocessed rows in the buffers, two of each.
pub(crate) fn views_of<P>(
    rows: &PackedRows<P>,
) -> (RowMajorMatrixView<'_, P>, RowMajorMatrixView<'_, P>)
    requires { HasTwoRows rows.now }
    ensures main_width { result.0.width ≡ rows.now.main_width }
    ensures main { result.0.values.now ≡ rows.now.main.items }
    ensures preprocessed_width { result.1.width ≡ rows.now.preprocessed_width }
    ensures preprocessed { result.1.values.now ≡ rows.now.preprocessed.items }
{
    (
        RowMajorMatrixView::new(rows.main.as_slice(), rows.main_width),
        RowMajorMatrixView::new(rows.preprocessed.as_slice(), rows.preprocessed_width),
    )
}

/// The buffers in which a folder keeps the constraints' values.
#[derive(Drop)]
pub(crate) struct KeptValues<P, C> {
    pub base: Vec<P>,
    pub ext: Vec<C>,
}

/// Evaluates an AIR's constraints at as many points at a time as one packed value has lanes, with
/// one set of buffers.
#[derive(Drop)]
pub(crate) struct PlainEval<SC: StarkGenericConfig>
where
    Val<SC>: PackedField,
    SC::Challenge: PackedExtensionField<Val<SC>>,
{
    kept: KeptValues<PackedVal<SC>, PackedChallenge<SC>>,
}

/// What a buffer has, emptied; it is replaced by one without room.
pub(crate) fn emptied<T: Drop>(alloc: Global, buffer: &mut Vec<T>) -> Vec<T>
    ensures { result.items ≡ [] }
{
    let mut values = mem::replace(buffer, Vec::new(alloc));
    values.clear();
    values
}

/// A folder over a group's rows, which keeps nothing yet, with emptied buffers for what it will
/// keep.
macro_rules! folder_over {
    ($folder:ident, $alloc:expr, $group:expr, $kept:expr) => {{
        let (main, preprocessed) = views_of($group.rows);
        $folder {
            main,
            preprocessed,
            preprocessed_window: RowWindow::from_view(&preprocessed),
            periodic_values: $group.rows.periodic_values.as_slice(),
            public_values: $group.public_values,
            is_first_row: $group.selectors.is_first_row,
            is_last_row: $group.selectors.is_last_row,
            is_transition: $group.selectors.is_transition,
            base_alpha_powers: $group.powers.base.as_slice(),
            ext_alpha_powers: $group.powers.ext.as_slice(),
            base_constraints: emptied($alloc, &mut $kept.base),
            ext_constraints: emptied($alloc, &mut $kept.ext),
            constraint_index: 0,
            constraint_count: $group.powers.count,
        }
    }};
}

pub(crate) use folder_over;

/// The prover's folder over a group's rows, which keeps nothing yet.
fn folder_on<'a, SC: StarkGenericConfig>(
    alloc: Global,
    group: &GroupOf<'a, SC, PackedVal<SC>>,
    kept: &mut KeptValues<PackedVal<SC>, PackedChallenge<SC>>,
) -> ProverConstraintFolder<'a, SC>
where
    Val<SC>: PackedField,
    SC::Challenge: PackedExtensionField<Val<SC>>,
    requires rows { HasTwoRows group.now.rows.now }
    ensures environment { ShowsGroup group.now ⟦<SC as StarkPacking>⟧.packing
        (⟦<ProverConstraintFolder<'a, SC> as BaseAirBuilder>⟧.environment result) }
    ensures layout { ⟦<ProverConstraintFolder<'a, SC> as BaseAirBuilder>⟧.layout result
        ≡ group_layout group.now }
    ensures nothing_kept { result.base_constraints.items ≡ [] }
    ensures nothing_kept_above { result.ext_constraints.items ≡ [] }
    ensures base_powers { result.base_alpha_powers.now ≡ group.now.powers.now.base.items }
    ensures ext_powers { result.ext_alpha_powers.now ≡ group.now.powers.now.ext.items }
{
    folder_over!(ProverConstraintFolder, alloc, group, kept)
}

/// In each lane the folded sum of an AIR's constraints over the row there: `alpha^(n - 1 - j)`
/// times constraint `j` for each of the `n`. Err only where memory was refused.
fn fold_group<SC: StarkGenericConfig, A: Air<Val<SC>>>(
    alloc: Global,
    air: &A,
    group: &GroupOf<'_, SC, PackedVal<SC>>,
    kept: &mut KeptValues<PackedVal<SC>, PackedChallenge<SC>>,
) -> Result<PackedChallenge<SC>, AllocError>
where
    Val<SC>: PackedField,
    SC::Challenge: PackedExtensionField<Val<SC>>,
    requires rows { FitsLayout group.now (A.layout air.now) }
    requires powers { AreFoldedBy SC.Challenge.ring SC.Challenge.coordinates SC.Challenge.DIMENSION
        (A.constraints air.now) group.now.powers.now }
    ensures { IfOk result (FoldsPacked group.now ⟦<SC as StarkPacking>⟧.packing
        (A.constraints air.now)) }
{
    let mut folder = folder_on::<SC>(alloc, group, kept);
    let packed = folded_row::<SC, A>(air, &mut folder)?;
    kept.base = folder.base_constraints;
    kept.ext = folder.ext_constraints;
    Ok(packed)
}

impl<SC: StarkGenericConfig, A: Air<Val<SC>>> GroupEval<SC, A> for PlainEval<SC>
where
    Val<SC>: PackedField,
    SC::Challenge: PackedExtensionField<Val<SC>>,
{
    type Packed = PackedVal<SC>;

    type PackedAbove = PackedChallenge<SC>;

    fn new(alloc: Global) -> PlainEval<SC> {
        PlainEval {
            kept: KeptValues {
                base: Vec::new(alloc),
                ext: Vec::new(alloc),
            },
        }
    }

    fn fold(
        &mut self,
        alloc: Global,
        air: &A,
        group: &GroupOf<'_, SC, PackedVal<SC>>,
    ) -> Result<PackedChallenge<SC>, AllocError> {
        fold_group::<SC, A>(alloc, air, group, &mut self.kept)
    }

    ghost from_packed_is = { SC.Challenge.from_packed_is };

    ghost extension_ring = { SC.Challenge.extension_packed_ring };

    ghost as_wide = { SC.Challenge.packed_as_wide };
}
