//! The prover's folder: it keeps the values of an AIR's constraints.
ghost use Rattle.std.specs.Prelude.{◌≡◌, ◌<◌, ◌+◌, ◌-◌, ◌*◌, ◌^◌, ℕ, All, min, length, map, slice_index_or, take, drop};
ghost use Rattle.std.specs.Vec.{vec_items};
ghost use Rattle.std.proofs.Common.{ap, ◌∙◌};
ghost use Rattle.stark_air.specs.Rows.{environment_of, layout_of};
ghost use Rattle.stark_air.specs.CollectingBoth.{CollectedBoth, collecting_both_laws};
ghost use Rattle.stark_prover_folder.specs.Finalized.{AddsBaseSums, IsFinalized, PackingOps, SumsProducts};
ghost use Rattle.stark_prover_folder.specs.PackedFacts.{embedded_product};

use stark_air::{BaseAirBuilder, ExtensionBuilder, RowWindow};
use stark_parts::{PackedChallenge, PackedVal, StarkFields, StarkGenericConfig, Val};
use stark_support::{
    ExtensionField, Field, PackedExtensionField, PackedField, PackedValue, RowMajorMatrixView,
    packed_linear_combination,
};
use std::alloc::AllocError;

/// How a configuration's elements are packed, in one record.
pub trait StarkPacking: StarkGenericConfig
where
    Val<Self>: PackedField,
    Self::Challenge: PackedExtensionField<Val<Self>>,
{
    ghost packing: { PackingOps Self.Pcs.Domain.Val Self.Challenge Self.Pcs.Domain.Val.Packing
        Self.Challenge.ExtensionPacking };
}

impl<SC: StarkGenericConfig> StarkPacking for SC
where
    Val<SC>: PackedField,
    SC::Challenge: PackedExtensionField<Val<SC>>,
{
    ghost packing = { record {
      fields = ⟦<SC as StarkFields>⟧.fields;
      coordinates = SC.Challenge.coordinates;
      zero = SC.Pcs.Domain.Val.ZERO;
      zero_above = SC.Challenge.ZERO;
      operations = SC.Pcs.Domain.Val.Packing.operations;
      lanes = SC.Pcs.Domain.Val.Packing.lanes;
      lanes_above = SC.Challenge.ExtensionPacking.lanes;
      width = SC.Challenge.ExtensionPacking.WIDTH;
    } };
}

/// What a folder sums its kept values up to.
pub trait FolderSums {
    /// The packed values of the extension.
    ghost Sum: { Type 0 };

    /// In each lane it is the sum of the kept values there, each times its power of alpha.
    ghost is_sum: { Self → Sum → Type 0 };
}

/// Evaluates an AIR's constraints at packed rows, and keeps their values: those of base constraints
/// and those of constraints over the extension, each in their order.
#[derive(Drop)]
pub struct ProverConstraintFolder<'a, SC: StarkGenericConfig>
where
    Val<SC>: PackedField,
    SC::Challenge: PackedExtensionField<Val<SC>>,
{
    /// The main columns' two rows.
    pub main: RowMajorMatrixView<'a, PackedVal<SC>>,
    /// The preprocessed columns' two rows, of width 0 where there is none.
    pub preprocessed: RowMajorMatrixView<'a, PackedVal<SC>>,
    /// The preprocessed columns' two rows, as the window that an AIR is given.
    pub preprocessed_window: RowWindow<'a, PackedVal<SC>>,
    pub periodic_values: &'a [PackedVal<SC>],
    pub public_values: &'a [Val<SC>],
    pub is_first_row: PackedVal<SC>,
    pub is_last_row: PackedVal<SC>,
    pub is_transition: PackedVal<SC>,
    /// For each coordinate the powers of alpha of the base constraints.
    pub base_alpha_powers: &'a [Vec<Val<SC>>],
    /// The powers of alpha of the constraints over the extension.
    pub ext_alpha_powers: &'a [SC::Challenge],
    pub base_constraints: Vec<PackedVal<SC>>,
    pub ext_constraints: Vec<PackedChallenge<SC>>,
    pub constraint_index: usize,
    pub constraint_count: usize,
    /// The view is of two rows.
    pub ghost two_rows: { length main.values.now ≡ 2 * main.width },
    /// How many values are kept, or the greatest `usize` where they are more.
    pub ghost counted: { constraint_index
        ≡ min (length base_constraints.items + length ext_constraints.items) (2 ^ 64 - 1) },
}

impl<'a, SC: StarkGenericConfig> BaseAirBuilder for ProverConstraintFolder<'a, SC>
where
    Val<SC>: PackedField,
    SC::Challenge: PackedExtensionField<Val<SC>>,
{
    type F = Val<SC>;

    type Expr = PackedVal<SC>;

    type Var = PackedVal<SC>;

    type PublicVar = Val<SC>;

    type PeriodicVar = PackedVal<SC>;

    type MainWindow = RowWindow<'a, PackedVal<SC>, (Val<SC>, SC::Challenge)>;

    type PreprocessedWindow = RowWindow<'a, PackedVal<SC>, (Val<SC>, SC::Challenge)>;

    ghost environment = { λ s. environment_of SC.Pcs.Domain.Val.Packing.operations
        SC.Pcs.Domain.Val.ring.zero s.is_first_row (take s.main.width s.main.values.now)
        (drop s.main.width s.main.values.now) s.preprocessed_window.current.now
        s.preprocessed_window.next.now s.public_values.now s.periodic_values.now s.is_first_row
        s.is_last_row s.is_transition };

    ghost layout = { λ s. layout_of (take s.main.width s.main.values.now)
        (drop s.main.width s.main.values.now) s.preprocessed_window.current.now
        s.preprocessed_window.next.now s.public_values.now s.periodic_values.now };

    ghost keeps = { λ s t. (t.main ≡ s.main) × (t.preprocessed ≡ s.preprocessed)
        × (t.base_alpha_powers ≡ s.base_alpha_powers) × (t.ext_alpha_powers ≡ s.ext_alpha_powers)
        × (t.constraint_count ≡ s.constraint_count) };

    /// The values are kept in memory.
    ghost may_refuse = { Unit {0} };

    ghost after = { CollectedBoth SC.Pcs.Domain.Val.Packing.operations (λ v.
        map SC.Challenge.embed (SC.Pcs.Domain.Val.Packing.lanes v))
        (λ s. environment_of SC.Pcs.Domain.Val.Packing.operations SC.Pcs.Domain.Val.ring.zero
        s.is_first_row (take s.main.width s.main.values.now)
        (drop s.main.width s.main.values.now) s.preprocessed_window.current.now
        s.preprocessed_window.next.now s.public_values.now s.periodic_values.now s.is_first_row
        s.is_last_row s.is_transition)
        (λ s. layout_of (take s.main.width s.main.values.now) (drop s.main.width s.main.values.now)
        s.preprocessed_window.current.now s.preprocessed_window.next.now s.public_values.now
        s.periodic_values.now)
        (λ s. s.base_constraints.items) (λ s.
        map SC.Challenge.ExtensionPacking.lanes s.ext_constraints.items) };

    ghost emission_laws = { collecting_both_laws _ _ _ _ _ _ };

    fn main(&self) -> Result<RowWindow<'a, PackedVal<SC>, (Val<SC>, SC::Challenge)>, AllocError> {
        Ok(RowWindow::from_view(&self.main).over())
    }

    fn preprocessed(
        &self,
    ) -> Result<RowWindow<'a, PackedVal<SC>, (Val<SC>, SC::Challenge)>, AllocError> {
        Ok(RowWindow::from_two_rows(
            self.preprocessed_window.current,
            self.preprocessed_window.next,
        )
        .over())
    }

    fn is_first_row(&self) -> PackedVal<SC> {
        self.is_first_row
    }

    fn is_last_row(&self) -> PackedVal<SC> {
        self.is_last_row
    }

    fn is_transition(&self) -> PackedVal<SC> {
        self.is_transition
    }

    fn public_values(&self) -> &[Val<SC>] {
        self.public_values
    }

    fn periodic_values(&self) -> &[PackedVal<SC>] {
        self.periodic_values
    }

    /// Keeps `x` behind the base constraints' values.
    fn assert_zero(&mut self, x: PackedVal<SC>) -> Result<(), AllocError> {
        self.base_constraints.push(x)?;
        self.constraint_index = self.constraint_index.saturating_add(1);
        Ok(())
    }
}

impl<'a, SC: StarkGenericConfig> ExtensionBuilder for ProverConstraintFolder<'a, SC>
where
    Val<SC>: PackedField,
    SC::Challenge: PackedExtensionField<Val<SC>>,
{
    type EF = SC::Challenge;

    type ExprEF = PackedChallenge<SC>;

    ghost stands_above = { λ v x. SC.Challenge.ExtensionPacking.lanes x
        ≡ map SC.Challenge.embed (SC.Pcs.Domain.Val.Packing.lanes v) };

    ghost may_multiply = { SC.Challenge.ExtensionPacking.Algebra.may_mul };

    ghost from_stands = { λ x y v same p. SC.Challenge.from_packed_is x y same
        ∙ ap (λ t. map SC.Challenge.embed (SC.Pcs.Domain.Val.Packing.lanes t))
        (SC.Pcs.Domain.Val.Packing.exact_lanes v x p) };

    ghost times_above = { λ v w x y z h p q.
        embedded_product SC.Challenge.embeds SC.Pcs.Domain.Val.packed_ring
        SC.Pcs.Domain.Val.Packing.lane_by_lane SC.Challenge.extension_packed_ring
        SC.Challenge.ExtensionPacking.lane_by_lane v w x y z
        (SC.Challenge.ExtensionPacking.exact_lanes _ _
        (SC.Challenge.ExtensionPacking.Algebra.times_stands x y z x y h
        (SC.Challenge.ExtensionPacking.Algebra.stands_itself x)
        (SC.Challenge.ExtensionPacking.Algebra.stands_itself y))) p q };

    /// Keeps `x` behind the extension constraints' values.
    fn assert_zero_ext(&mut self, x: PackedChallenge<SC>) -> Result<(), AllocError> {
        self.ext_constraints.push(x)?;
        self.constraint_index = self.constraint_index.saturating_add(1);
        Ok(())
    }
}

impl<SC: StarkGenericConfig> FolderSums for ProverConstraintFolder<'_, SC>
where
    Val<SC>: PackedField,
    SC::Challenge: PackedExtensionField<Val<SC>>,
{
    ghost Sum = { SC.Challenge.ExtensionPacking };

    ghost is_sum = { λ folder. IsFinalized ⟦<SC as StarkPacking>⟧.packing
        folder.base_alpha_powers.now folder.ext_alpha_powers.now folder.base_constraints.items
        folder.ext_constraints.items };
}

impl<SC: StarkGenericConfig> ProverConstraintFolder<'_, SC>
where
    Val<SC>: PackedField,
    SC::Challenge: PackedExtensionField<Val<SC>>,
{
    /// The sum of the kept values, each times its power of alpha, lane by lane: for each coordinate
    /// the basis element times the base constraints' sum, and the sum over the extension. It takes
    /// no memory.
    pub fn finalize_constraints(&self) -> PackedChallenge<SC>
        requires dimension { length self.now.base_alpha_powers.now ≡ SC.Challenge.DIMENSION }
        requires rows { All (λ row. length row.items ≡ length self.now.base_constraints.items)
            self.now.base_alpha_powers.now }
        requires powers { length self.now.ext_constraints.items
            ≡ length self.now.ext_alpha_powers.now }
        ensures { ⟦<Self as FolderSums>⟧.is_sum self.now result }
    {
        let sum = packed_sum::<SC::Challenge, PackedChallenge<SC>>(
            self.ext_constraints.as_slice(),
            self.ext_alpha_powers,
        );
        plus_base_sums::<SC>(
            self.base_constraints.as_slice(),
            self.base_alpha_powers,
            sum,
        )
    }
}

/// For each coordinate the basis element times the sum of the values times their powers, and the
/// rest, lane by lane.
pub(crate) fn plus_base_sums<SC: StarkGenericConfig>(
    values: &[PackedVal<SC>],
    powers: &[Vec<Val<SC>>],
    rest: PackedChallenge<SC>,
) -> PackedChallenge<SC>
where
    Val<SC>: PackedField,
    SC::Challenge: PackedExtensionField<Val<SC>>,
    requires dimension { length powers.now ≡ SC.Challenge.DIMENSION }
    requires rows { All (λ row. length row.items ≡ length values.now) powers.now }
    ensures { AddsBaseSums ⟦<SC as StarkPacking>⟧.packing powers.now values.now rest result }
{
    let mut sum = rest;
    let mut index = SC::Challenge::DIMENSION;
    while index > 0 {
        index -= 1;
        let coordinate = Val::<SC>::packed_sum(values, powers[index].as_slice());
        sum = SC::Challenge::plus_packed_coordinate(sum, index, coordinate);
    }
    sum
}

/// The sum of the values, each times its coefficient, lane by lane.
pub(crate) fn packed_sum<F: Field, P: PackedValue<Value = F>>(values: &[P], coefficients: &[F]) -> P
    requires { length values.now ≡ length coefficients.now }
    ensures { SumsProducts P.lane_ring F.ZERO F.ring.zero P.lanes P.WIDTH values.now
        coefficients.now result }
{
    packed_linear_combination::<F, P>(values, coefficients)
}
