//! How the elements of each field are packed.
ghost use Rattle.std.specs.Prelude.{false, refl, true};
ghost use Rattle.std.proofs.Common.{ap};
ghost use Rattle.stark_support.specs.Lanes.{one_lane};
ghost use Rattle.stark_fields.specs.Ext4Lanes.{embedded_elements};

use crate::ext4::Ext4;
use crate::extension_lanes::ExtensionLanes;
use crate::lanes::{Lanes, weighted_sum};
use crate::modulus::Modulus;
use crate::residue::{Lockstep, Packed, Residue, Scalar};
use crate::small::{F12289, M12289, P12289};
use stark_support::{ExtensionField, PackedExtensionField, PackedField, packed_linear_combination};

impl<M: Modulus> PackedField for Residue<M, Scalar> {
    type Packing = Residue<M, Scalar>;

    ghost BENEFITS_FROM_LOCKSTEP_EVALUATION = { M.BENEFITS_FROM_LOCKSTEP };

    const BENEFITS_FROM_LOCKSTEP_EVALUATION: bool = M::BENEFITS_FROM_LOCKSTEP;

    fn packed_sum(
        values: &[Residue<M, Scalar>],
        coefficients: &[Residue<M, Scalar>],
    ) -> Residue<M, Scalar> {
        packed_linear_combination(values, coefficients)
    }

    ghost packed_ring = { refl };
}

impl PackedField for Residue<M12289, Packed> {
    type Packing = Lanes<Packed>;

    ghost BENEFITS_FROM_LOCKSTEP_EVALUATION = { false };

    const BENEFITS_FROM_LOCKSTEP_EVALUATION: bool = false;

    fn packed_sum(
        values: &[Lanes<Packed>],
        coefficients: &[Residue<M12289, Packed>],
    ) -> Lanes<Packed> {
        weighted_sum(values, coefficients)
    }

    ghost packed_ring = { refl };
}

impl PackedField for Residue<M12289, Lockstep> {
    type Packing = Lanes<Lockstep>;

    ghost BENEFITS_FROM_LOCKSTEP_EVALUATION = { true };

    const BENEFITS_FROM_LOCKSTEP_EVALUATION: bool = true;

    fn packed_sum(
        values: &[Lanes<Lockstep>],
        coefficients: &[Residue<M12289, Lockstep>],
    ) -> Lanes<Lockstep> {
        weighted_sum(values, coefficients)
    }

    ghost packed_ring = { refl };
}

impl<M: Modulus> PackedExtensionField<Residue<M, Scalar>> for Ext4<Residue<M, Scalar>> {
    type ExtensionPacking = Ext4<Residue<M, Scalar>>;

    #[tactic(auto, using(stark_support::specs::Lanes::lone_mapped))]
    fn from_packed_base(x: Residue<M, Scalar>) -> Ext4<Residue<M, Scalar>> {
        Ext4::from(x)
    }

    fn plus_packed_coordinate(
        rest: Ext4<Residue<M, Scalar>>,
        index: usize,
        coordinate: Residue<M, Scalar>,
    ) -> Ext4<Residue<M, Scalar>> {
        Ext4::<Residue<M, Scalar>>::basis_element(index) * Ext4::from(coordinate) + rest
    }

    ghost from_packed_is = { λ _ _ h. ap (λ z. one_lane z) h };

    ghost extension_packed_ring = { refl };

    ghost packed_as_wide = { refl };
}

impl PackedExtensionField<P12289> for Ext4<P12289> {
    type ExtensionPacking = ExtensionLanes<Packed>;

    #[tactic(auto, using(crate::specs::Ext4Lanes::embedded_elements))]
    fn from_packed_base(x: Lanes<Packed>) -> ExtensionLanes<Packed> {
        ExtensionLanes::from(x)
    }

    fn plus_packed_coordinate(
        rest: ExtensionLanes<Packed>,
        index: usize,
        coordinate: Lanes<Packed>,
    ) -> ExtensionLanes<Packed> {
        rest.plus_coordinate(index, coordinate)
    }

    ghost from_packed_is = { embedded_elements };

    ghost extension_packed_ring = { refl };

    ghost packed_as_wide = { refl };
}

impl PackedExtensionField<F12289> for Ext4<F12289> {
    type ExtensionPacking = ExtensionLanes<Lockstep>;

    #[tactic(auto, using(crate::specs::Ext4Lanes::embedded_elements))]
    fn from_packed_base(x: Lanes<Lockstep>) -> ExtensionLanes<Lockstep> {
        ExtensionLanes::from(x)
    }

    fn plus_packed_coordinate(
        rest: ExtensionLanes<Lockstep>,
        index: usize,
        coordinate: Lanes<Lockstep>,
    ) -> ExtensionLanes<Lockstep> {
        rest.plus_coordinate(index, coordinate)
    }

    ghost from_packed_is = { embedded_elements };

    ghost extension_packed_ring = { refl };

    ghost packed_as_wide = { refl };
}
