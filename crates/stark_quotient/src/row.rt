//! One packed row's folded constraints.
ghost use Rattle.std.specs.Prelude.{◌≡◌, [], IfOk, List};
ghost use Rattle.stark_air.specs.Layout.{Covers};
ghost use Rattle.stark_air.specs.Tree.{Constraint};
ghost use Rattle.stark_quotient.specs.FoldedLanes.{FoldsRow};
ghost use Rattle.stark_quotient.specs.Groups.{HasPowers};

use stark_air::{Air, BaseAirBuilder};
use stark_parts::{PackedChallenge, StarkGenericConfig, Val};
use stark_prover_folder::{ProverConstraintFolder, StarkPacking};
use stark_support::{ExtensionField, Field, PackedExtensionField, PackedField, PackedValue};
use std::alloc::AllocError;

/// What constraints fold to over a folder's rows, with the powers of alpha that it holds.
pub trait FoldedRow: BaseAirBuilder {
    /// The packed values of the extension.
    ghost Folded: { Type 0 };

    /// In each lane it is the constraints' sum over the row there, folded by the element whose
    /// powers the folder holds.
    ghost folds: { Self → List (Constraint Self.F) → Folded → Type 0 };
}

impl<'a, SC: StarkGenericConfig> FoldedRow for ProverConstraintFolder<'a, SC>
where
    Val<SC>: PackedField,
    SC::Challenge: PackedExtensionField<Val<SC>>,
{
    ghost Folded = { SC.Challenge.ExtensionPacking };

    ghost folds = { λ folder. FoldsRow ⟦<SC as StarkPacking>⟧.packing
        (⟦<ProverConstraintFolder<'a, SC> as BaseAirBuilder>⟧.environment folder)
        folder.base_alpha_powers.now folder.ext_alpha_powers.now };
}

/// Evaluates an AIR's constraints over a folder.
macro_rules! evaluate {
    ($air:expr, $folder:expr) => {
        // What an evaluation leaves in a builder doesn't say that the powers stay, so they are put
        // back.
        let base_alpha_powers = $folder.base_alpha_powers;
        let ext_alpha_powers = $folder.ext_alpha_powers;
        $air.eval($folder)?;
        $folder.base_alpha_powers = base_alpha_powers;
        $folder.ext_alpha_powers = ext_alpha_powers;
    };
}

pub(crate) use evaluate;

/// The constraints of an AIR over the folder's rows, folded with the powers of alpha that the
/// folder holds: in each lane `alpha^(n - 1 - j)` times constraint `j` for each of the `n`. The
/// folder keeps no value yet, and its rows and values have at least the lengths that the AIR
/// declares. Err only where memory was refused.
pub fn folded_row<'a, SC: StarkGenericConfig, A: Air<Val<SC>>>(
    air: &A,
    folder: &mut ProverConstraintFolder<'a, SC>,
) -> Result<PackedChallenge<SC>, AllocError>
where
    Val<SC>: PackedField,
    SC::Challenge: PackedExtensionField<Val<SC>>,
    requires covers { Covers (⟦<ProverConstraintFolder<'a, SC> as BaseAirBuilder>⟧.layout
        folder.old) (A.layout air.now) }
    requires nothing_kept { folder.old.base_constraints.items ≡ [] }
    requires nothing_kept_above { folder.old.ext_constraints.items ≡ [] }
    requires powers { HasPowers ⟦<SC as StarkPacking>⟧.packing (A.constraints air.now)
        folder.old.base_alpha_powers.now folder.old.ext_alpha_powers.now }
    ensures { IfOk result (⟦<ProverConstraintFolder<'a, SC> as FoldedRow>⟧.folds folder.old
        (A.constraints air.now)) }
{
    evaluate!(air, folder);
    Ok(folder.finalize_constraints())
}
