//! Fields, domains and their written laws, on which a STARK stands.
#![tactic(auto)]

mod batch_inverse;
mod challenger;
mod claims;
mod domain;
mod field;
mod folding;
mod interpolation;
mod json;
mod matrix;
mod packed;
mod pattern;
mod periodic;
mod periodic_table;
mod polynomial;
mod powers;
mod scheme;
mod security;
mod util;
mod vectorized;

pub use batch_inverse::batch_multiplicative_inverse;
pub use challenger::{
    CanObserve, CanSample, CanSampleBits, ExtensionChallenger, FieldChallenger, GrindingChallenger,
    Sponge, observe_bytes, observe_slice,
};
pub use claims::{MatrixClaim, OpenedRounds, OpeningClaim, OpeningRound};
pub use domain::{
    DomainShape, LagrangeSelectors, PolynomialSpace, points_differ, vanishing_is_constant,
};
pub use field::{
    Algebra, Element, ExactAlgebra, ExtensionField, Field, FieldPair, PackedExtensionField,
    PackedField, PrimeField64, QuarticBase, TwoAdicField, is_zero,
};
pub use interpolation::interpolate;
pub use json::{
    JsonCodec, JsonFault, NeverNull, field_of, list_from_json, lists_from_json, value_from_bytes,
};
pub use matrix::{RowMajorMatrix, RowMajorMatrixView, VerticalPair, ViewPair};
pub use packed::{PackedValue, PairedValue, packed_from_fn};
pub use pattern::{DomainSeparator, Hierarchy, Interaction, InteractionPattern, Kind, Length};
pub use periodic::{PeriodicColumnShapeError, PeriodicColumns};
pub use periodic_table::PeriodicLdeTable;
pub use polynomial::{
    all_roots_are_few, interpolation_is_unique, polynomial_value, polynomial_value_in,
    roots_are_few, vanishing_divides,
};
pub use powers::{batched_linear_combination, packed_linear_combination, power_of, squared_times};
pub use scheme::{DomainVal, Opening, Pcs, SchemeFault, UnivariateStarkPcs};
pub use security::{FriRegime, GrindingSites};
pub use util::{checked_log_size_sum, checked_pow2, log2_ceil_usize, log2_strict_usize};
pub use vectorized::{OfBase, OfExtension, PackedPair, Vectorized, VectorizedExt};
