//! The verifier of the FRI scheme: what it accepts and refuses, exactly, over any two-adic field
//! with an extension, any hash of trees and any challenger.
#![tactic(auto)]

mod claims;
mod eights;
mod error;
mod fields;
mod folds;
mod laws;
mod phases;
mod query;
mod replay;
mod seen;
mod sponge;
mod transcript;
mod verify;

pub use claims::check_claims;
pub use error::{FriError, FriProverError, QueryFault};
pub use fields::FoldingFields;
pub use laws::{accepted_is_sound, no_claim_is_both, own_claims_are_enough};
pub use replay::draw_places;
pub use sponge::{FriCalls, FriChallenger, FriObserving, FriSponge};
pub use transcript::{observe_claims, observe_parameters, observe_values};
pub use verify::verify_openings;
