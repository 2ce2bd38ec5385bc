//! Fields that tell how many elements they have.

ghost use Rattle.std.specs.Prelude.{◌≡◌};
ghost use Rattle.stark_service.specs.Security.{FieldNumbers};

use stark_bench::{Modulus, Residue};
use stark_support::{ExtensionField, PrimeField64, TwoAdicField};

/// A prime field that says how many elements it has.
pub trait CountedField: PrimeField64 {
    /// How many elements the field has.
    fn order() -> u64
        ensures { result ≡ Self.ORDER };
}

impl<M: Modulus, Kind> CountedField for Residue<M, Kind> {
    fn order() -> u64 {
        u64::from(M::MODULUS)
    }
}

/// The numbers of a field and its extension by which a statement is shown, in one record. It has no
/// code.
pub trait Numbered<F> {
    ghost fields: { FieldNumbers F };
}

impl<F: PrimeField64 + TwoAdicField, EF: ExtensionField<F>> Numbered<F> for EF {
    ghost fields = { record {
      number = F.number_of;
      order = F.ORDER;
      degree = EF.DIMENSION;
      adicity = F.TWO_ADICITY;
    } };
}
