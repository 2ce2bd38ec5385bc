//! The places of an AIR's base and extension constraints, and the powers of a challenge that belong
//! to them.
ghost use Rattle.std.specs.Prelude.{◌≡◌, ◌<◌, All, IfOk, Some, length, map};
ghost use Rattle.std.specs.List.{slice_get};
ghost use Rattle.std.specs.Vec.{vec_items};
ghost use Rattle.stark_air.specs.Layout.{Covers};
ghost use Rattle.stark_symbolic.specs.Places.{AreCoordinateRows, base_places, extension_places, marked_base_places, marked_extension_places, place_powers, total_of, base_powers, extension_powers, total_in};
ghost use Rattle.stark_air.specs.SymbolicLayout.{symbolic_layout};

use crate::degree_builder::{ConstraintDegrees, constraint_degrees};
use crate::leaf_degrees::LeafDegrees;
use stark_air::{Air, AirLayout};
use stark_support::{ExtensionField, Field, power_of};
use std::alloc::{AllocError, Global};

/// The places of the base and of the extension constraints among all of them, in the order in which
/// an AIR asserts them.
#[derive(Debug, Drop)]
pub struct ConstraintLayout {
    pub base_indices: Vec<usize>,
    pub ext_indices: Vec<usize>,
}

impl ConstraintLayout {
    /// How many constraints there are, or the greatest `usize` where they are more.
    pub fn total_constraints(&self) -> usize
        ensures { result ≡ total_in self.now }
    {
        self.base_indices
            .len()
            .saturating_add(self.ext_indices.len())
    }

    /// The powers of `alpha` that fold the constraints, `alpha^(n - 1 - i)` for the one at place
    /// `i` of `n`: for the base constraints row `d` has coordinate `d` of each power, and for the
    /// extension constraints stand the powers themselves. Err only where memory was refused.
    pub fn decompose_alpha<F: Field, EF: ExtensionField<F>>(
        &self,
        alloc: Global,
        alpha: EF,
    ) -> Result<(Vec<Vec<F>>, Vec<EF>), AllocError>
        requires base_within { All (λ i. i < total_in self.now) self.now.base_indices.items }
        requires ext_within { All (λ i. i < total_in self.now) self.now.ext_indices.items }
        ensures base { IfOk result (λ powers. AreCoordinateRows EF.coordinates EF.DIMENSION
            (base_powers EF.ring alpha self.now)
            (map vec_items powers.0.items)) }
        ensures ext { IfOk result (λ powers. powers.1.items
            ≡ extension_powers EF.ring alpha self.now) }
    {
        let total = self.total_constraints();
        let base_powers = powers_at(alloc, alpha, total, &self.base_indices)?;
        let ext_powers = powers_at(alloc, alpha, total, &self.ext_indices)?;
        let rows = coordinate_rows(alloc, &base_powers)?;
        Ok((rows, ext_powers))
    }
}

/// `alpha^(total - 1 - i)` for each place `i`.
fn powers_at<EF: Field>(
    alloc: Global,
    alpha: EF,
    total: usize,
    places: &[usize],
) -> Result<Vec<EF>, AllocError>
    requires { All (λ i. i < total) places.now }
    ensures { IfOk result (λ powers. powers.items ≡ place_powers EF.ring alpha total places.now) }
{
    let mut powers = Vec::new(alloc);
    for place in places {
        powers.push(power_of(alpha, (total - 1 - *place) as u64))?;
    }
    Ok(powers)
}

/// Coordinate `d` of each value.
fn coordinates_at<F: Field, EF: ExtensionField<F>>(
    alloc: Global,
    values: &[EF],
    d: usize,
) -> Result<Vec<F>, AllocError>
    requires { d < EF.DIMENSION }
    ensures { IfOk result (λ row. map (λ c. Some c) row.items
        ≡ map (λ x. slice_get (EF.coordinates x) d) values.now) }
{
    let mut row = Vec::new(alloc);
    for value in values {
        row.push(value.coordinate(d))?;
    }
    Ok(row)
}

/// For each `d` below the dimension, coordinate `d` of each value.
fn coordinate_rows<F: Field, EF: ExtensionField<F>>(
    alloc: Global,
    values: &[EF],
) -> Result<Vec<Vec<F>>, AllocError>
    ensures { IfOk result (λ rows. AreCoordinateRows EF.coordinates EF.DIMENSION values.now
        (map vec_items rows.items)) }
{
    let mut rows = Vec::new(alloc);
    for d in 0..EF::DIMENSION {
        rows.push(coordinates_at(alloc, values, d)?)?;
    }
    Ok(rows)
}

/// The places of the base and of the extension constraints in a list.
fn places_of(
    alloc: Global,
    constraints: &[ConstraintDegrees],
) -> Result<ConstraintLayout, AllocError>
    ensures base { IfOk result (λ layout. layout.base_indices.items
        ≡ marked_base_places 0 constraints.now) }
    ensures extension { IfOk result (λ layout. layout.ext_indices.items
        ≡ marked_extension_places 0 constraints.now) }
    ensures total { IfOk result (λ layout.
        total_of layout.base_indices.items layout.ext_indices.items ≡ length constraints.now) }
    ensures base_within { IfOk result (λ layout.
        All (λ i. i < length constraints.now) layout.base_indices.items) }
    ensures ext_within { IfOk result (λ layout.
        All (λ i. i < length constraints.now) layout.ext_indices.items) }
{
    let mut base_indices = Vec::new(alloc);
    let mut ext_indices = Vec::new(alloc);
    for (index, constraint) in constraints.iter().enumerate() {
        match constraint {
            ConstraintDegrees::Base(_) => base_indices.push(index)?,
            ConstraintDegrees::Extension(_) => ext_indices.push(index)?,
        }
    }
    Ok(ConstraintLayout {
        base_indices,
        ext_indices,
    })
}

/// The places of the AIR's base constraints and of its extension constraints, in the order in which
/// it asserts them. Err only where memory was refused.
pub fn get_constraint_layout<F: Field, EF, A: Air<F>>(
    alloc: Global,
    air: &A,
    layout: AirLayout,
) -> Result<ConstraintLayout, AllocError>
    requires { Covers (symbolic_layout layout) (A.layout air.now) }
    ensures base_indices { IfOk result (λ places. places.base_indices.items
        ≡ base_places 0 (A.constraints air.now)) }
    ensures ext_indices { IfOk result (λ places. places.ext_indices.items
        ≡ extension_places 0 (A.constraints air.now)) }
    ensures total { IfOk result (λ places.
        total_of places.base_indices.items places.ext_indices.items
        ≡ length (A.constraints air.now)) }
    ensures base_within { IfOk result (λ places.
        All (λ i. i < length (A.constraints air.now)) places.base_indices.items) }
    ensures ext_within { IfOk result (λ places.
        All (λ i. i < length (A.constraints air.now)) places.ext_indices.items) }
{
    let multiples = LeafDegrees::trace_multiples(0);
    let constraints = constraint_degrees::<F, EF, A>(alloc, air, layout, multiples, multiples)?;
    places_of(alloc, &constraints)
}
