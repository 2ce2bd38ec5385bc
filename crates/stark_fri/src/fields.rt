//! What the verifier computes with, in one record.
ghost use Rattle.stark_merkle.specs.Bytes.{element_bytes, pair_bytes_of, row_bytes_of};
ghost use Rattle.stark_fri.specs.Parts.{FriFields};

use stark_support::{ExtensionField, PrimeField64, TwoAdicField};

/// The base field and the extension, and the bytes of their elements.
pub trait FoldingFields<F> {
    ghost folding: { FriFields F Self };
}

impl<F, EF> FoldingFields<F> for EF
where
    F: TwoAdicField + PrimeField64,
    EF: ExtensionField<F>,
{
    ghost folding = { record {
      adicity = F.TWO_ADICITY;
      root = F.root;
      generator = F.GENERATOR;
      base = F.ring;
      base_inverse = F.inverse_of;
      ring = EF.ring;
      inverse = EF.inverse_of;
      embed = EF.embed;
      row_bytes = row_bytes_of (element_bytes F.BYTES F.number_of);
      pair_bytes = pair_bytes_of (element_bytes F.BYTES F.number_of) EF.coordinates;
    } };
}
