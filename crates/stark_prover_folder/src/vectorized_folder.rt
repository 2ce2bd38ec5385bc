//! The lockstep folder: it keeps the values of an AIR's constraints, two packed values at a time.
ghost use Rattle.std.specs.Prelude.{◌≡◌, ◌<◌, ◌+◌, ◌-◌, ◌*◌, ◌^◌, ℕ, All, IfOk, OnOk, min, length, map, slice_index_or, take, drop, refl};
ghost use Rattle.std.specs.Vec.{vec_items};
ghost use Rattle.std.proofs.Common.{ap, ◌∙◌};
ghost use Rattle.stark_support.specs.Pairs.{both_lanes, both_operations, pack_at, pair_binary, pair_is_lane_by_lane, pair_parts};
ghost use Rattle.stark_support.specs.declared.vectorized.OfExtension.{OfExtension};
ghost use Rattle.stark_support.specs.declared.vectorized.PackedPair.{PackedPair};
ghost use Rattle.stark_air.specs.Rows.{environment_of, layout_of};
ghost use Rattle.stark_air.specs.CollectingBoth.{CollectedBoth, collecting_both_laws};
ghost use Rattle.stark_prover_folder.specs.Finalized.{IsFinalized, in_pairs};
ghost use Rattle.stark_prover_folder.specs.PackedFacts.{embedded_product};

use crate::prover_folder::{FolderSums, StarkPacking, packed_sum, plus_base_sums};
use stark_air::{BaseAirBuilder, ExtensionBuilder, RowWindow};
use stark_parts::{PackedVal, StarkGenericConfig, Val};
use stark_support::{
    Algebra, ExtensionField, Field, PackedExtensionField, PackedField, PackedPair, PackedValue,
    RowMajorMatrixView, Vectorized, VectorizedExt,
};
use std::alloc::AllocError;
use std::marker::PhantomData;

/// Packed values of a configuration's base field, `N` at a time.
pub type VectorizedVal<SC, const N: usize> = Vectorized<Val<SC>, N>;

/// Packed values of a configuration's extension field, `N` at a time.
pub type VectorizedChallenge<SC, const N: usize> = VectorizedExt<
    Val<SC>,
    <SC as StarkGenericConfig>::Challenge,
    N,
>;

/// Evaluates an AIR's constraints at `N` times as many rows as one packed value has lanes, and
/// keeps their values: those of base constraints and those of constraints over the extension, each
/// in their order. It is a builder for `N` = 2 alone.
#[derive(Drop)]
pub struct VectorizedConstraintFolder<'a, SC: StarkGenericConfig, const N: usize>
where
    Val<SC>: PackedField,
    SC::Challenge: PackedExtensionField<Val<SC>>,
{
    /// The main columns' two rows.
    pub main: RowMajorMatrixView<'a, VectorizedVal<SC, N>>,
    /// The preprocessed columns' two rows, of width 0 where there is none.
    pub preprocessed: RowMajorMatrixView<'a, VectorizedVal<SC, N>>,
    /// The preprocessed columns' two rows, as the window that an AIR is given.
    pub preprocessed_window: RowWindow<'a, VectorizedVal<SC, N>>,
    pub periodic_values: &'a [VectorizedVal<SC, N>],
    pub public_values: &'a [Val<SC>],
    pub is_first_row: VectorizedVal<SC, N>,
    pub is_last_row: VectorizedVal<SC, N>,
    pub is_transition: VectorizedVal<SC, N>,
    /// For each coordinate the powers of alpha of the base constraints.
    pub base_alpha_powers: &'a [Vec<Val<SC>>],
    /// The powers of alpha of the constraints over the extension.
    pub ext_alpha_powers: &'a [SC::Challenge],
    pub base_constraints: Vec<VectorizedVal<SC, N>>,
    pub ext_constraints: Vec<VectorizedChallenge<SC, N>>,
    pub constraint_index: usize,
    pub constraint_count: usize,
    /// The view is of two rows.
    pub ghost two_rows: { length main.values.now ≡ 2 * main.width },
    /// How many values are kept, or the greatest `usize` where they are more.
    pub ghost counted: { constraint_index
        ≡ min (length base_constraints.items + length ext_constraints.items) (2 ^ 64 - 1) },
}

impl<'a, SC: StarkGenericConfig> BaseAirBuilder for VectorizedConstraintFolder<'a, SC, 2>
where
    Val<SC>: PackedField,
    SC::Challenge: PackedExtensionField<Val<SC>>,
{
    type F = Val<SC>;

    type Expr = VectorizedVal<SC, 2>;

    type Var = VectorizedVal<SC, 2>;

    type PublicVar = Val<SC>;

    type PeriodicVar = VectorizedVal<SC, 2>;

    type MainWindow = RowWindow<'a, VectorizedVal<SC, 2>, (Val<SC>, SC::Challenge)>;

    type PreprocessedWindow = RowWindow<'a, VectorizedVal<SC, 2>, (Val<SC>, SC::Challenge)>;

    ghost environment = { λ s. environment_of (both_operations SC.Pcs.Domain.Val.Packing.operations)
        SC.Pcs.Domain.Val.ring.zero s.is_first_row (take s.main.width s.main.values.now)
        (drop s.main.width s.main.values.now) s.preprocessed_window.current.now
        s.preprocessed_window.next.now s.public_values.now s.periodic_values.now s.is_first_row
        s.is_last_row s.is_transition };

    ghost layout = { λ s. layout_of (take s.main.width s.main.values.now)
        (drop s.main.width s.main.values.now) s.preprocessed_window.current.now
        s.preprocessed_window.next.now s.public_values.now s.periodic_values.now };

    ghost keeps = { λ s t. (t.main ≡ s.main) × (t.preprocessed ≡ s.preprocessed)
        × (t.base_alpha_powers ≡ s.base_alpha_powers) × (t.ext_alpha_powers ≡ s.ext_alpha_powers)
        × (t.constraint_count ≡ s.constraint_count) };

    /// The values are kept in memory.
    ghost may_refuse = { Unit {0} };

    ghost after = { CollectedBoth (both_operations SC.Pcs.Domain.Val.Packing.operations) (λ v.
        map SC.Challenge.embed (both_lanes SC.Pcs.Domain.Val.Packing.lanes v))
        (λ s. environment_of (both_operations SC.Pcs.Domain.Val.Packing.operations)
        SC.Pcs.Domain.Val.ring.zero s.is_first_row (take s.main.width s.main.values.now)
        (drop s.main.width s.main.values.now) s.preprocessed_window.current.now
        s.preprocessed_window.next.now s.public_values.now s.periodic_values.now s.is_first_row
        s.is_last_row s.is_transition)
        (λ s. layout_of (take s.main.width s.main.values.now) (drop s.main.width s.main.values.now)
        s.preprocessed_window.current.now s.preprocessed_window.next.now s.public_values.now
        s.periodic_values.now)
        (λ s. s.base_constraints.items) (λ s.
        map (both_lanes SC.Challenge.ExtensionPacking.lanes) s.ext_constraints.items) };

    ghost emission_laws = { collecting_both_laws _ _ _ _ _ _ };

    fn main(
        &self,
    ) -> Result<RowWindow<'a, VectorizedVal<SC, 2>, (Val<SC>, SC::Challenge)>, AllocError> {
        Ok(RowWindow::from_view(&self.main).over())
    }

    fn preprocessed(
        &self,
    ) -> Result<RowWindow<'a, VectorizedVal<SC, 2>, (Val<SC>, SC::Challenge)>, AllocError> {
        Ok(RowWindow::from_two_rows(
            self.preprocessed_window.current,
            self.preprocessed_window.next,
        )
        .over())
    }

    fn is_first_row(&self) -> VectorizedVal<SC, 2> {
        self.is_first_row.dup()
    }

    fn is_last_row(&self) -> VectorizedVal<SC, 2> {
        self.is_last_row.dup()
    }

    fn is_transition(&self) -> VectorizedVal<SC, 2> {
        self.is_transition.dup()
    }

    fn public_values(&self) -> &[Val<SC>] {
        self.public_values
    }

    fn periodic_values(&self) -> &[VectorizedVal<SC, 2>] {
        self.periodic_values
    }

    /// Keeps `x` behind the base constraints' values.
    fn assert_zero(&mut self, x: VectorizedVal<SC, 2>) -> Result<(), AllocError> {
        self.base_constraints.push(x)?;
        self.constraint_index = self.constraint_index.saturating_add(1);
        Ok(())
    }
}

impl<'a, SC: StarkGenericConfig> ExtensionBuilder for VectorizedConstraintFolder<'a, SC, 2>
where
    Val<SC>: PackedField,
    SC::Challenge: PackedExtensionField<Val<SC>>,
{
    type EF = SC::Challenge;

    type ExprEF = VectorizedChallenge<SC, 2>;

    ghost stands_above = { λ v x. both_lanes SC.Challenge.ExtensionPacking.lanes x
        ≡ map SC.Challenge.embed (both_lanes SC.Pcs.Domain.Val.Packing.lanes v) };

    ghost may_multiply = { λ _ _. tt };

    ghost from_stands = { λ x y v same p. same
        ∙ ap (λ t. map SC.Challenge.embed (both_lanes SC.Pcs.Domain.Val.Packing.lanes t)) p };

    ghost times_above = { λ v w x y z h p q.
        embedded_product SC.Challenge.embeds SC.Pcs.Domain.Val.packed_ring
        (pair_is_lane_by_lane pair_parts SC.Pcs.Domain.Val.Packing.lane_by_lane)
        SC.Challenge.extension_packed_ring
        (pair_is_lane_by_lane pair_parts SC.Challenge.ExtensionPacking.lane_by_lane) v w x y z
        (pair_binary pair_parts SC.Challenge.ExtensionPacking.stands
        SC.Challenge.ExtensionPacking.Algebra.stands_itself
        SC.Challenge.ExtensionPacking.exact_lanes SC.Challenge.ExtensionPacking.operations.times
        SC.Challenge.ExtensionPacking.mul_gives
        SC.Challenge.ExtensionPacking.Algebra.times_stands x y z x y h refl refl) p q };

    /// Keeps `x` behind the extension constraints' values.
    fn assert_zero_ext(&mut self, x: VectorizedChallenge<SC, 2>) -> Result<(), AllocError> {
        self.ext_constraints.push(x)?;
        self.constraint_index = self.constraint_index.saturating_add(1);
        Ok(())
    }
}

/// Puts the pack at a place of each value in a lent buffer, in place of what it has.
fn packs_at<F, P: Copy, Level>(
    pairs: &[PackedPair<F, P, Level, 2>],
    place: usize,
    packs: &mut Vec<P>,
) -> Result<(), AllocError>
    ensures { OnOk result (packs.new.items ≡ map (pack_at place) pairs.now) }
{
    packs.clear();
    for pair in pairs {
        packs.push(pair.pack_at(place))?;
    }
    Ok(())
}

impl<SC: StarkGenericConfig> FolderSums for VectorizedConstraintFolder<'_, SC, 2>
where
    Val<SC>: PackedField,
    SC::Challenge: PackedExtensionField<Val<SC>>,
{
    ghost Sum = { PackedPair SC.Challenge SC.Challenge.ExtensionPacking OfExtension 2 };

    ghost is_sum = { λ folder. IsFinalized (in_pairs ⟦<SC as StarkPacking>⟧.packing)
        folder.base_alpha_powers.now folder.ext_alpha_powers.now folder.base_constraints.items
        folder.ext_constraints.items };
}

impl<SC: StarkGenericConfig> VectorizedConstraintFolder<'_, SC, 2>
where
    Val<SC>: PackedField,
    SC::Challenge: PackedExtensionField<Val<SC>>,
{
    /// The sum of the kept values, each times its power of alpha, lane by lane: for each coordinate
    /// the basis element times the base constraints' sum, and the sum over the extension. What
    /// `scratch` has is lost: of the base constraints' values it is given the first packs, and then
    /// the second ones. Err only where memory was refused.
    pub fn finalize_constraints(
        &self,
        scratch: &mut Vec<PackedVal<SC>>,
    ) -> Result<VectorizedChallenge<SC, 2>, AllocError>
        requires dimension { length self.now.base_alpha_powers.now ≡ SC.Challenge.DIMENSION }
        requires rows { All (λ row. length row.items ≡ length self.now.base_constraints.items)
            self.now.base_alpha_powers.now }
        requires powers { length self.now.ext_constraints.items
            ≡ length self.now.ext_alpha_powers.now }
        ensures { IfOk result (⟦<Self as FolderSums>⟧.is_sum self.now) }
    {
        let sum = packed_sum::<SC::Challenge, VectorizedChallenge<SC, 2>>(
            self.ext_constraints.as_slice(),
            self.ext_alpha_powers,
        );
        let base_constraints = self.base_constraints.as_slice();
        packs_at(base_constraints, 0, scratch)?;
        let first = plus_base_sums::<SC>(scratch.as_slice(), self.base_alpha_powers, sum.first);
        packs_at(base_constraints, 1, scratch)?;
        let second = plus_base_sums::<SC>(scratch.as_slice(), self.base_alpha_powers, sum.second);
        Ok(PackedPair {
            first,
            second,
            level: PhantomData,
        })
    }
}
