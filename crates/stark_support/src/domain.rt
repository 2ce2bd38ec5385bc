//! Domains of rows: cosets of the groups of roots of one.
ghost use Rattle.std.specs.Prelude.{◌≡◌, ◌≢◌, ◌↔◌, ℕ, ◌^◌, ◌<◌, ◌≤◌, map, Some, IfOk, IfSome, IsNone};
ghost use Rattle.std.specs.Int.{IsPowerOfTwo};
ghost use Rattle.stark_support.specs.Coset.{TwoAdicCoset, IsTwoAdicCoset, AreDisjoint, coset_size, SplitsInto, vanishing_at, VanishesNowhereOn, PointsDiffer, VanishesAlikeOn};
ghost use Rattle.stark_support.specs.Logarithm.{IsCeilingOfLog};
ghost use Rattle.stark_support.specs.Periodic.{periodic_values_on};
ghost use Rattle.stark_support.specs.Subgroup.{TransitionOn, last_row_at, first_row_at, transition_at, FirstRowOn, InverseVanishingOn, LastRowOn};

use crate::field::{ExtensionField, Field, FieldPair, TwoAdicField};
use crate::periodic::PeriodicColumns;
use std::alloc::{AllocError, Global};

/// The size of a domain, and what its transition selector adds to a degree.
pub trait DomainShape {
    ghost size_of: { Self → ℕ };

    ghost transition_multiple: { Self → ℕ };

    /// How many points the domain has.
    fn size(&self) -> usize
        ensures { result ≡ size_of self.now };

    /// The degree of the transition selector, in multiples of the domain's size.
    fn transition_degree_multiple(&self) -> usize
        ensures { result ≡ transition_multiple self.now };
}

/// The values of a domain's row selectors at one point, not normalised.
#[derive(Debug, Drop)]
pub struct LagrangeSelectors<T> {
    pub is_first_row: T,
    pub is_last_row: T,
    pub is_transition: T,
    pub inv_vanishing: T,
}

/// A domain: the points `s * g^i` in row order, with `g` the field's `two_adic_generator` of the
/// size's logarithm.
pub trait PolynomialSpace: DomainShape + Copy {
    type Val: TwoAdicField;

    /// The coset that the domain is.
    ghost coset_of: { Self → TwoAdicCoset Self.Val };

    /// The point of row 0.
    fn first_point(&self) -> Self::Val
        ensures { result ≡ (coset_of self.now).shift };

    /// The domain with the shift `s * GENERATOR` and the least power of two from `min_size` on as
    /// its size; it has no point in common with this one. None exactly where the field has no group
    /// of that size.
    fn try_create_disjoint_domain(&self, min_size: usize) -> Option<Self>
        ensures shift { IfSome result (λ d. (coset_of d).shift
            ≡ Self.Val.ring.mul (coset_of self.now).shift Self.Val.GENERATOR) }
        ensures size { IfSome result (λ d. IsCeilingOfLog (coset_of d).log_size min_size) }
        ensures disjoint { IfSome result (λ d.
            AreDisjoint Self.Val.ring Self.Val.root (coset_of self.now) (coset_of d)) }
        ensures none { IsNone result ↔ (2 ^ Self.Val.TWO_ADICITY < min_size) };

    /// The domain that `try_create_disjoint_domain` gives, where the field has a group of that
    /// size.
    fn create_disjoint_domain(&self, min_size: usize) -> Self
        requires { min_size ≤ 2 ^ Self.Val.TWO_ADICITY }
        ensures shift { (coset_of result).shift
            ≡ Self.Val.ring.mul (coset_of self.now).shift Self.Val.GENERATOR }
        ensures size { IsCeilingOfLog (coset_of result).log_size min_size }
        ensures disjoint { AreDisjoint Self.Val.ring Self.Val.root (coset_of self.now)
            (coset_of result) };

    /// The point of the next row: `g * x`, always there in a two-adic domain.
    fn next_point<EF: ExtensionField<Self::Val>>(&self, x: EF) -> Option<EF>
        ensures { result ≡ Some (EF.ring.mul (EF.embed (Self.Val.root (coset_of self.now).log_size))
            x) };

    /// The `num_chunks` parts with the shifts `s * g^i`; row `r` lies in part `r mod num_chunks`.
    fn split_domains(&self, alloc: Global, num_chunks: usize) -> Result<Vec<Self>, AllocError>
        requires power { IsPowerOfTwo num_chunks }
        requires within { num_chunks ≤ coset_size (coset_of self.now) }
        ensures { IfOk result (λ parts. SplitsInto Self.Val.ring Self.Val.root (coset_of self.now)
            num_chunks (map coset_of parts.items)) };

    /// `(x/s)^K - 1`, for the size `K`.
    fn vanishing_poly_at_point<EF: ExtensionField<Self::Val>>(&self, point: EF) -> EF
        ensures { result ≡ vanishing_at EF.ring EF.inverse_of EF.embed (coset_of self.now) point };

    /// The selectors of a subgroup at a point outside it.
    fn selectors_at_point<EF: ExtensionField<Self::Val>>(&self, point: EF) -> LagrangeSelectors<EF>
        requires subgroup { (coset_of self.now).shift ≡ Self.Val.ring.one }
        requires outside { vanishing_at EF.ring EF.inverse_of EF.embed (coset_of self.now) point ≢
            EF.ring.zero }
        ensures first_row { result.is_first_row
            ≡ first_row_at EF.ring EF.inverse_of EF.embed Self.Val.root (coset_of self.now) point }
        ensures last_row { result.is_last_row
            ≡ last_row_at EF.ring EF.inverse_of EF.embed Self.Val.root (coset_of self.now) point }
        ensures transition { result.is_transition
            ≡ transition_at EF.ring EF.inverse_of EF.embed Self.Val.root (coset_of self.now) point }
        ensures inv_vanishing { result.inv_vanishing
            ≡ EF.inverse_of (vanishing_at EF.ring EF.inverse_of EF.embed (coset_of self.now)
            point) };

    /// The selectors of a subgroup at each point of a coset apart from it, in row order: four lists
    /// as long as the coset.
    fn selectors_on_coset(
        &self,
        alloc: Global,
        coset: &Self,
    ) -> Result<LagrangeSelectors<Vec<Self::Val>>, AllocError>
        requires subgroup { (coset_of self.now).shift ≡ Self.Val.ring.one }
        requires disjoint { AreDisjoint Self.Val.ring Self.Val.root (coset_of self.now)
            (coset_of coset.now) }
        ensures first_row { IfOk result (FirstRowOn Self.Val.ring Self.Val.inverse_of Self.Val.root
            (coset_of coset.now) (coset_of self.now)) }
        ensures last_row { IfOk result (LastRowOn Self.Val.ring Self.Val.inverse_of Self.Val.root
            (coset_of coset.now) (coset_of self.now)) }
        ensures transition { IfOk result (TransitionOn Self.Val.ring Self.Val.inverse_of
            Self.Val.root (coset_of coset.now) (coset_of self.now)) }
        ensures inv_vanishing { IfOk result (InverseVanishingOn Self.Val.ring Self.Val.inverse_of
            Self.Val.root (coset_of coset.now) (coset_of self.now)) };

    /// The values at `point` of columns that repeat down as many rows as the domain has points: of
    /// a column of length `P` that is `u(point^(K/P))`, with `u` of degree below `P` taking the
    /// column on the group of `P` points.
    fn evaluate_periodic_columns_at<EF: ExtensionField<Self::Val>>(
        &self,
        alloc: Global,
        columns: &PeriodicColumns<'_, Self::Val>,
        point: EF,
    ) -> Result<Vec<EF>, AllocError>
        requires { columns.now.trace_len ≡ coset_size (coset_of self.now) }
        ensures { IfOk result (λ values. values.items
            ≡ periodic_values_on ⟦<EF as FieldPair<Self::Val>>⟧.fields (coset_of self.now)
            columns.now.columns.now point) };

    /// Each domain has a group of the field and a shift that isn't zero.
    ghost lawful: { (domain : Self) → IsTwoAdicCoset Self.Val.ring Self.Val.TWO_ADICITY
        (coset_of domain) };

    ghost size_is: { (domain : Self) → Self.size_of domain ≡ coset_size (coset_of domain) };

    ghost transition_adds_nothing: { (domain : Self) → Self.transition_multiple domain ≡ 0 };
}

/// A law, with no code: the points of a domain differ pairwise.
pub fn points_differ<D: PolynomialSpace>(_domain: &D)
    ensures { PointsDiffer D.Val.ring D.Val.root (D.coset_of _domain.now) }
{}

/// A law, with no code: a domain's vanishing value is the same at all points of another coset of
/// its subgroup that has no point in common with it, and not zero there.
pub fn vanishing_is_constant<D: PolynomialSpace>(_domain: &D, _other: &D)
    requires subgroup { (D.coset_of _other.now).log_size ≡ (D.coset_of _domain.now).log_size }
    requires disjoint { AreDisjoint D.Val.ring D.Val.root (D.coset_of _domain.now)
        (D.coset_of _other.now) }
    ensures constant { VanishesAlikeOn D.Val.ring D.Val.inverse_of D.Val.root
        (D.coset_of _other.now) (D.coset_of _domain.now) }
    ensures nonzero { VanishesNowhereOn D.Val.ring D.Val.inverse_of D.Val.root
        (D.coset_of _other.now) (D.coset_of _domain.now) }
{}
