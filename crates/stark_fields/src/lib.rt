//! Prime fields of at most 31 bits, each with its extension of degree four: of 12289 elements, also
//! packed in fours, of BabyBear's 2013265921 and of KoalaBear's 2130706433. A modulus of one's own
//! is an impl of `Modulus`, whose evidence the checker computes.
#![tactic(auto)]

mod baby_bear;
mod ext4;
mod extension_lanes;
mod json;
mod koala_bear;
mod lanes;
mod modulus;
mod packing;
mod residue;
mod small;

pub use baby_bear::{BabyBear, BabyBearField};
pub use ext4::Ext4;
pub use extension_lanes::ExtensionLanes;
pub use koala_bear::{KoalaBear, KoalaBearField};
pub use lanes::Lanes;
pub use modulus::Modulus;
pub use residue::{Lockstep, Packed, Residue, Scalar};
pub use small::{F12289, M12289, P12289, S12289};
