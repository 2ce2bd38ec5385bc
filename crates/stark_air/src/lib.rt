//! AIRs, the builders that they are evaluated on, and what one evaluation leaves in any builder.
#![tactic(auto)]

mod air;
mod builder;
mod filtered;
mod layout;
mod leaves;
mod main_trace_air;
mod on_rows;
mod sub_builder;
mod window;

pub use air::{Air, BaseAir, every_column};
pub use builder::{AirBuilder, BaseAirBuilder, ExtensionBuilder};
pub use filtered::FilteredAirBuilder;
pub use layout::AirLayout;
pub use leaves::{periodic_value, public_value};
pub use main_trace_air::MainTraceAir;
pub use on_rows::{assert_eq_on_first_row, assert_eq_on_last_row, assert_eq_on_transition};
pub use sub_builder::{SubAirBuilder, SubSliced, eval_on_columns};
pub use window::{RowWindow, WindowAccess};
