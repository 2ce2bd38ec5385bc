//! Two-adic cosets of any field as domains, challengers over prime fields, and commitments in the
//! clear. The prime fields are given out too.
#![tactic(auto)]

mod challenger;
mod circle;
mod commitment_json;
mod coset;

pub use challenger::{ClearCommitment, ScriptChallenger, Sha256Challenger};
pub use circle::CircleShape;
pub use coset::Coset;
pub use stark_fields::{
    BabyBear, BabyBearField, Ext4, ExtensionLanes, F12289, KoalaBear, KoalaBearField, Lanes,
    Lockstep, M12289, Modulus, P12289, Packed, Residue, S12289, Scalar,
};
