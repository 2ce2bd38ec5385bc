//! Rows that meet the constraints of lookups.
ghost use Rattle.stark_lookup_air.specs.LookupRows.{RowsMeetLookups};

use stark_support::{ExtensionField, Field};

/// A law, with no code: auxiliary columns with which draws let the rows' tuples pass, put in their
/// places after an AIR's own columns, meet each constraint of its lookups in each row.
pub fn rows_meet_lookups<F: Field, EF: ExtensionField<F>>(_some: F, _element: EF)
    ensures { RowsMeetLookups F.ring EF.ring EF.embed EF.DIMENSION EF.basis EF.coordinates }
{}
