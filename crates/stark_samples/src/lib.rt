//! Sample AIRs: those that the program has, and small ones for tests.
#![tactic(auto)]

mod any;
mod counter;
mod cubic;
mod fibonacci;
mod pair;
mod periodic;
mod preprocessed;
mod small;

pub use any::AnySampleAir;
pub use counter::CounterAir;
pub use cubic::CubicAir;
pub use fibonacci::FibonacciAir;
pub use pair::PairAir;
pub use periodic::PeriodicAir;
pub use preprocessed::PreprocessedAir;
pub use small::{Asked, SmallAir};
