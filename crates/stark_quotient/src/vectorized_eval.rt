//! An AIR's constraints at a group of points, two packed values at a time.
ghost use Rattle.std.specs.Prelude.{◌≡◌, ◌*◌, [], IfOk};
ghost use Rattle.std.proofs.Common.{ap};
ghost use Rattle.stark_air.specs.Layout.{Covers};
ghost use Rattle.stark_support.specs.declared.vectorized.OfExtension.{OfExtension};
ghost use Rattle.stark_support.specs.declared.vectorized.PackedPair.{PackedPair};
ghost use Rattle.stark_prover_folder.specs.Finalized.{in_pairs};
ghost use Rattle.stark_quotient.specs.FoldedLanes.{FoldsRow};
ghost use Rattle.stark_quotient.specs.Groups.{AreFoldedBy, FitsLayout, FoldsPacked, HasPowers, HasTwoRows, ShowsPairs, group_layout};

use crate::group_eval::GroupEval;
use crate::plain_eval::{GroupOf, KeptValues, emptied, folder_over, views_of};
use crate::row::{FoldedRow, evaluate};
use stark_air::{Air, BaseAirBuilder, RowWindow};
use stark_parts::{PackedVal, StarkGenericConfig, Val};
use stark_prover_folder::{
    StarkPacking, VectorizedChallenge, VectorizedConstraintFolder, VectorizedVal,
};
use stark_support::{
    Algebra, ExtensionField, Field, LagrangeSelectors, PackedExtensionField, PackedField,
    PackedValue, RowMajorMatrixView,
};
use std::alloc::{AllocError, Global};

/// How many packed values are worked on at a time, where that pays.
pub const QUOTIENT_ILP: usize = 2;

/// Evaluates an AIR's constraints at `N` times as many points at a time as one packed value has
/// lanes, with one set of buffers.
#[derive(Drop)]
pub(crate) struct VectorizedEval<SC: StarkGenericConfig, const N: usize>
where
    Val<SC>: PackedField,
    SC::Challenge: PackedExtensionField<Val<SC>>,
{
    kept: KeptValues<VectorizedVal<SC, N>, VectorizedChallenge<SC, N>>,
    scratch: Vec<PackedVal<SC>>,
}

/// The lockstep folder over a group's rows, which keeps nothing yet.
fn pairs_folder_on<'a, SC: StarkGenericConfig>(
    alloc: Global,
    group: &GroupOf<'a, SC, VectorizedVal<SC, 2>>,
    kept: &mut KeptValues<VectorizedVal<SC, 2>, VectorizedChallenge<SC, 2>>,
) -> VectorizedConstraintFolder<'a, SC, 2>
where
    Val<SC>: PackedField,
    SC::Challenge: PackedExtensionField<Val<SC>>,
    requires rows { HasTwoRows group.now.rows.now }
    ensures environment { ShowsPairs group.now ⟦<SC as StarkPacking>⟧.packing
        (⟦<VectorizedConstraintFolder<'a, SC, 2> as BaseAirBuilder>⟧.environment result) }
    ensures layout { ⟦<VectorizedConstraintFolder<'a, SC, 2> as BaseAirBuilder>⟧.layout result
        ≡ group_layout group.now }
    ensures nothing_kept { result.base_constraints.items ≡ [] }
    ensures nothing_kept_above { result.ext_constraints.items ≡ [] }
    ensures base_powers { result.base_alpha_powers.now ≡ group.now.powers.now.base.items }
    ensures ext_powers { result.ext_alpha_powers.now ≡ group.now.powers.now.ext.items }
{
    folder_over!(VectorizedConstraintFolder, alloc, group, kept)
}

impl<'a, SC: StarkGenericConfig> FoldedRow for VectorizedConstraintFolder<'a, SC, 2>
where
    Val<SC>: PackedField,
    SC::Challenge: PackedExtensionField<Val<SC>>,
{
    ghost Folded = { PackedPair SC.Challenge SC.Challenge.ExtensionPacking OfExtension 2 };

    ghost folds = { λ folder. FoldsRow (in_pairs ⟦<SC as StarkPacking>⟧.packing)
        (⟦<VectorizedConstraintFolder<'a, SC, 2> as BaseAirBuilder>⟧.environment folder)
        folder.base_alpha_powers.now folder.ext_alpha_powers.now };
}

/// The constraints of an AIR over the folder's rows, folded with the powers of alpha that the
/// folder holds: in each lane `alpha^(n - 1 - j)` times constraint `j` for each of the `n`. The
/// folder keeps no value yet, and its rows and values have at least the lengths that the AIR
/// declares. Err only where memory was refused.
pub fn folded_pairs<'a, SC: StarkGenericConfig, A: Air<Val<SC>>>(
    air: &A,
    folder: &mut VectorizedConstraintFolder<'a, SC, 2>,
    scratch: &mut Vec<PackedVal<SC>>,
) -> Result<VectorizedChallenge<SC, 2>, AllocError>
where
    Val<SC>: PackedField,
    SC::Challenge: PackedExtensionField<Val<SC>>,
    requires covers { Covers (⟦<VectorizedConstraintFolder<'a, SC, 2> as BaseAirBuilder>⟧.layout
        folder.old) (A.layout air.now) }
    requires nothing_kept { folder.old.base_constraints.items ≡ [] }
    requires nothing_kept_above { folder.old.ext_constraints.items ≡ [] }
    requires powers { HasPowers ⟦<SC as StarkPacking>⟧.packing (A.constraints air.now)
        folder.old.base_alpha_powers.now folder.old.ext_alpha_powers.now }
    ensures { IfOk result (⟦<VectorizedConstraintFolder<'a, SC, 2> as FoldedRow>⟧.folds folder.old
        (A.constraints air.now)) }
{
    evaluate!(air, folder);
    Ok(folder.finalize_constraints(scratch)?)
}

/// In each lane the folded sum of an AIR's constraints over the row there: `alpha^(n - 1 - j)`
/// times constraint `j` for each of the `n`. Err only where memory was refused.
fn fold_pairs<SC: StarkGenericConfig, A: Air<Val<SC>>>(
    alloc: Global,
    air: &A,
    group: &GroupOf<'_, SC, VectorizedVal<SC, 2>>,
    kept: &mut KeptValues<VectorizedVal<SC, 2>, VectorizedChallenge<SC, 2>>,
    scratch: &mut Vec<PackedVal<SC>>,
) -> Result<VectorizedChallenge<SC, 2>, AllocError>
where
    Val<SC>: PackedField,
    SC::Challenge: PackedExtensionField<Val<SC>>,
    requires rows { FitsLayout group.now (A.layout air.now) }
    requires powers { AreFoldedBy SC.Challenge.ring SC.Challenge.coordinates SC.Challenge.DIMENSION
        (A.constraints air.now) group.now.powers.now }
    ensures { IfOk result (FoldsPacked group.now (in_pairs ⟦<SC as StarkPacking>⟧.packing)
        (A.constraints air.now)) }
{
    let mut folder = pairs_folder_on::<SC>(alloc, group, kept);
    let packed = folded_pairs::<SC, A>(air, &mut folder, scratch)?;
    kept.base = folder.base_constraints;
    kept.ext = folder.ext_constraints;
    Ok(packed)
}

impl<SC: StarkGenericConfig, A: Air<Val<SC>>> GroupEval<SC, A> for VectorizedEval<SC, 2>
where
    Val<SC>: PackedField,
    SC::Challenge: PackedExtensionField<Val<SC>>,
{
    type Packed = VectorizedVal<SC, 2>;

    type PackedAbove = VectorizedChallenge<SC, 2>;

    fn new(alloc: Global) -> VectorizedEval<SC, 2> {
        VectorizedEval {
            kept: KeptValues {
                base: Vec::new(alloc),
                ext: Vec::new(alloc),
            },
            scratch: Vec::new(alloc),
        }
    }

    fn fold(
        &mut self,
        alloc: Global,
        air: &A,
        group: &GroupOf<'_, SC, VectorizedVal<SC, 2>>,
    ) -> Result<VectorizedChallenge<SC, 2>, AllocError> {
        fold_pairs::<SC, A>(alloc, air, group, &mut self.kept, &mut self.scratch)
    }

    ghost from_packed_is = { λ _ _ h. h };

    ghost extension_ring = { SC.Challenge.extension_packed_ring };

    ghost as_wide = { ap (λ n. 2 * n) SC.Challenge.packed_as_wide };
}
