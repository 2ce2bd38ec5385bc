//! The two-adic cosets of a field, as domains.
ghost use Rattle.std.specs.Prelude.{◌≡◌, ◌≢◌, ◌<◌, ◌≤◌, ◌+◌, ◌-◌, ◌*◌, ⊤, ◌^◌, ◌++◌, ◌∷◌, [], All, IfOk, length, map, refl, vec_capacity, vec_len};
ghost use Rattle.std.specs.Simd.Lanes.{zip2};
ghost use Rattle.stark_support.specs.Coset.{AreDisjoint, AreValuesOn, subgroup_vanishing, coset_from};
ghost use Rattle.stark_support.specs.Ring.{difference};
ghost use Rattle.stark_support.specs.SelectorFacts.{IsSubgroup};
ghost use Rattle.stark_support.specs.Selectors.{first_row_selector, last_row_selector, transition_selector};
ghost use Rattle.stark_support.specs.Subgroup.{group_of};
ghost use Rattle.stark_bench.specs.PointLists.{AreQuotients, AreRepeated, AreTurned, FirstRowsOn, InversesOn, LastRowsOn, TransitionsOn, VanishingRepeatsOn};

use stark_support::{
    DomainShape, Element, ExtensionField, Field, LagrangeSelectors, PeriodicColumns,
    PolynomialSpace, TwoAdicField, batch_multiplicative_inverse, log2_ceil_usize,
    log2_strict_usize, squared_times,
};
use std::alloc::{AllocError, Global};

/// The points `shift * g^i` for `i` below `2^log_size`, with `g` the field's generator of that
/// order.
pub struct Coset<F: TwoAdicField> {
    pub shift: F,
    pub log_size: usize,
    pub ghost shift_nonzero: { shift ≢ F.ring.zero },
    pub ghost within: { log_size ≤ F.TWO_ADICITY },
}

impl<F: TwoAdicField> Clone for Coset<F> {
    ghost is_clone = { λ x y. y ≡ x };

    ghost is_infallible = { λ _. ⊤ };

    fn clone(&self) -> Result<Coset<F>, AllocError> {
        Ok(*self)
    }
}

impl<F: TwoAdicField> Copy for Coset<F> {}

impl<F: TwoAdicField> Coset<F> {
    /// The subgroup of `2^log_size` elements: the coset with the shift one.
    pub fn subgroup(log_size: usize) -> Coset<F>
        requires { log_size ≤ F.TWO_ADICITY }
        ensures shift { result.shift ≡ F.ring.one }
        ensures size { result.log_size ≡ log_size }
    {
        Coset::new(F::ONE, log_size)
    }

    /// The coset of a shift in the group of `2^log_size` elements.
    pub fn new(shift: F, log_size: usize) -> Coset<F>
        requires nonzero { shift ≢ F.ring.zero }
        requires within { log_size ≤ F.TWO_ADICITY }
        ensures shift { result.shift ≡ shift }
        ensures size { result.log_size ≡ log_size }
    {
        Coset { shift, log_size }
    }
}

/// `x^(2^log_size) - 1`.
fn subgroup_vanishing<E: Field>(x: E, log_size: usize) -> E
    ensures { result ≡ subgroup_vanishing E.ring (2 ^ log_size) x }
{
    squared_times(x, log_size) - E::ONE
}

/// The generator of the group of `2^log_size` elements, in the extension.
fn generator_in<F: TwoAdicField, EF: ExtensionField<F>>(log_size: usize) -> EF
    requires { log_size ≤ F.TWO_ADICITY }
    ensures { result ≡ EF.embed (F.root log_size) }
{
    EF::from_base(F::two_adic_generator(log_size))
}

/// The selectors of the group of `2^log_size` elements, at a point outside it.
fn group_selectors<E: Field>(generator: E, log_size: usize, point: E) -> LagrangeSelectors<E>
    requires group { IsSubgroup E.ring E.inverse_of (group_of E.inverse_of generator log_size) }
    requires outside { subgroup_vanishing E.ring (2 ^ log_size) point ≢ E.ring.zero }
    ensures first_row { result.is_first_row
        ≡ first_row_selector E.ring (λ c. c) (group_of E.inverse_of generator log_size) point }
    ensures last_row { result.is_last_row
        ≡ last_row_selector E.ring (λ c. c) (group_of E.inverse_of generator log_size) point }
    ensures transition { result.is_transition
        ≡ transition_selector E.ring (λ c. c) (group_of E.inverse_of generator log_size) point }
    ensures inv_vanishing { result.inv_vanishing
        ≡ E.inverse_of (subgroup_vanishing E.ring (2 ^ log_size) point) }
{
    let vanishing = subgroup_vanishing(point, log_size);
    let transition = point - generator.inverse();
    LagrangeSelectors {
        is_first_row: vanishing * (point - E::ONE).inverse(),
        is_last_row: vanishing * transition.inverse(),
        is_transition: transition,
        inv_vanishing: vanishing.inverse(),
    }
}

/// What is left of each element where `c` is taken away. There is room for all of them from the
/// start, so that no step asks for it and the loop can become vector code, as the loops below.
fn differences<F: Field>(alloc: Global, elements: &[F], c: F) -> Result<Vec<F>, AllocError>
    ensures { IfOk result (λ left. left.items ≡ map (λ x. difference F.ring x c) elements.now) }
{
    let mut left = Vec::with_capacity(alloc, elements.len())?;
    for x in elements {
        left.push_reserved(*x - c);
    }
    Ok(left)
}

/// Puts a factor times each element behind what the list holds.
fn push_scaled<F: Field>(all: &mut Vec<F>, elements: &[F], factor: F)
    requires room { vec_len all.old + length elements.now ≤ vec_capacity all.old }
    ensures items { all.new.items ≡ all.old.items ++ map (F.ring.mul factor) elements.now }
    ensures capacity { vec_capacity all.new ≡ vec_capacity all.old }
{
    for x in elements {
        all.push_reserved(factor * *x);
    }
}

/// Puts a factor times each element that the list holds behind all of them.
fn push_own_scaled<F: Field>(all: &mut Vec<F>, factor: F)
    requires room { 2 * vec_len all.old ≤ vec_capacity all.old }
    ensures items { all.new.items ≡ all.old.items ++ map (F.ring.mul factor) all.old.items }
    ensures capacity { vec_capacity all.new ≡ vec_capacity all.old }
{
    for index in 0..all.len() {
        all.push_reserved(factor * all[index]);
    }
}

/// Puts the products of two lists' elements, place by place, behind what the list holds.
fn push_products<F: Field>(all: &mut Vec<F>, lefts: &[F], rights: &[F])
    requires number { length lefts.now ≡ length rights.now }
    requires room { vec_len all.old + length lefts.now ≤ vec_capacity all.old }
    ensures items { all.new.items ≡ all.old.items ++ zip2 F.ring.mul lefts.now rights.now }
    ensures capacity { vec_capacity all.new ≡ vec_capacity all.old }
{
    for index in 0..lefts.len() {
        all.push_reserved(lefts[index] * rights[index]);
    }
}

/// The products of two lists' elements, place by place.
fn products<F: Field>(alloc: Global, lefts: &[F], rights: &[F]) -> Result<Vec<F>, AllocError>
    requires { length lefts.now ≡ length rights.now }
    ensures { IfOk result (λ all. all.items ≡ zip2 F.ring.mul lefts.now rights.now) }
{
    let mut all = Vec::with_capacity(alloc, lefts.len())?;
    push_products(&mut all, lefts, rights);
    Ok(all)
}

/// The elements of a list over and over, each over the divisor at its place, by an inverse of each
/// divisor.
fn quotients_by_inverses<F: Field>(
    alloc: Global,
    elements: &[F],
    divisors: &[F],
) -> Result<Vec<F>, AllocError>
    requires some { 0 < length elements.now }
    requires nonzero { All (λ d. d ≢ F.ring.zero) divisors.now }
    ensures { IfOk result (λ over. AreQuotients F.ring F.inverse_of elements.now divisors.now
        (length divisors.now) over.items) }
{
    let inverses = batch_multiplicative_inverse(alloc, divisors)?;
    let mut over = Vec::with_capacity(alloc, divisors.len())?;
    for index in 0..divisors.len() {
        over.push(elements[index % elements.len()] * inverses[index])?;
    }
    Ok(over)
}

/// The elements of a list over and over, each over the divisor at its place. A divisor of the first
/// half and the one at its place in the second share a quotient, that by their product, if the same
/// element is over both; so half as many are to take, and of these again half, until few are left.
fn quotients<F: Field>(alloc: Global, elements: &[F], divisors: &[F]) -> Result<Vec<F>, AllocError>
    requires some { 0 < length elements.now }
    requires nonzero { All (λ d. d ≢ F.ring.zero) divisors.now }
    ensures { IfOk result (λ over. AreQuotients F.ring F.inverse_of elements.now divisors.now
        (length divisors.now) over.items) }
{
    let half = divisors.len() / 2;
    if half < 16 || divisors.len() % 2 != 0 || half % elements.len() != 0 {
        return quotients_by_inverses(alloc, elements, divisors);
    }
    let (front, back) = divisors.split_at(half);
    let both = products(alloc, front, back)?;
    let shared = quotients(alloc, elements, both.as_slice())?;
    let mut over = Vec::with_capacity(alloc, divisors.len())?;
    push_products(&mut over, shared.as_slice(), back);
    push_products(&mut over, shared.as_slice(), front);
    Ok(over)
}

/// At each place a factor times the element that lies `further` behind, taken round the end.
fn turned<F: Field>(
    alloc: Global,
    elements: &[F],
    further: usize,
    factor: F,
) -> Result<Vec<F>, AllocError>
    requires { further ≤ length elements.now }
    ensures { IfOk result (λ all. AreTurned F.ring factor elements.now further (length elements.now)
        all.items) }
{
    let (front, back) = elements.split_at(further);
    let mut all = Vec::with_capacity(alloc, elements.len())?;
    push_scaled(&mut all, back, factor);
    push_scaled(&mut all, front, factor);
    Ok(all)
}

/// So many times the same element.
fn filled<F: Field>(alloc: Global, x: F, count: usize) -> Result<Vec<F>, AllocError>
    ensures { IfOk result (λ all. AreRepeated (x ∷ []) count all.items) }
{
    let mut all = Vec::with_capacity(alloc, count)?;
    for _index in 0..count {
        all.push_reserved(x);
    }
    Ok(all)
}

/// So many elements, which are those of a list over and over; no place is divided where the list
/// has one.
fn repeated<F: Field>(alloc: Global, list: &[F], count: usize) -> Result<Vec<F>, AllocError>
    requires { 0 < length list.now }
    ensures { IfOk result (λ all. AreRepeated list.now count all.items) }
{
    if list.len() == 1 {
        return filled(alloc, list[0], count);
    }
    let mut all = Vec::with_capacity(alloc, count)?;
    for index in 0..count {
        all.push(list[index % list.len()])?;
    }
    Ok(all)
}

/// `x^(2^log_size) - 1` for each element.
fn vanishing_values<F: Field>(
    alloc: Global,
    elements: &[F],
    log_size: usize,
) -> Result<Vec<F>, AllocError>
    ensures { IfOk result (λ values. values.items
        ≡ map (λ x. subgroup_vanishing F.ring (2 ^ log_size) x) elements.now) }
{
    let mut values = Vec::with_capacity(alloc, elements.len())?;
    for x in elements {
        values.push(subgroup_vanishing(*x, log_size))?;
    }
    Ok(values)
}

/// How many points there are for each of a group's, in logarithms; at least one.
fn points_for_each(log_size: usize, log_of_group: usize) -> usize
    requires { log_size < 64 }
    ensures { result ≡ 2 ^ (log_size - log_of_group) }
{
    1 << log_size.saturating_sub(log_of_group)
}

/// The vanishing values of a subgroup at the first points, after which they repeat, and the
/// inverses at all of them.
#[derive(Drop)]
struct Vanishing<F> {
    values: Vec<F>,
    inverses: Vec<F>,
}

impl<F: TwoAdicField> Coset<F> {
    /// The points, in row order: each round doubles them.
    fn points(&self, alloc: Global) -> Result<Vec<F>, AllocError>
        ensures { IfOk result (λ points. AreValuesOn F.ring F.root
            (coset_from self.now.shift self.now.log_size)
            (2 ^ self.now.log_size) (λ x. x) points.items) }
    {
        let mut points = Vec::with_capacity(alloc, self.size())?;
        points.push(self.shift)?;
        let mut step = F::two_adic_generator(self.log_size);
        for _round in 0..self.log_size {
            push_own_scaled(&mut points, step);
            step = step * step;
        }
        Ok(points)
    }

    /// A subgroup's vanishing values at the points of a coset apart from it, once for each coset of
    /// the subgroup, as they repeat, and their inverses at all the points.
    fn vanishing_on(
        &self,
        alloc: Global,
        coset: &Coset<F>,
        points: &[F],
    ) -> Result<Vanishing<F>, AllocError>
        requires subgroup { self.now.shift ≡ F.ring.one }
        requires disjoint { AreDisjoint F.ring F.root
            (coset_from self.now.shift self.now.log_size)
            (coset_from coset.now.shift coset.now.log_size) }
        requires points { AreValuesOn F.ring F.root
            (coset_from coset.now.shift coset.now.log_size)
            (2 ^ coset.now.log_size) (λ x. x) points.now }
        ensures values { IfOk result (λ v.
            VanishingRepeatsOn F.ring F.root self.now.log_size
            (coset_from coset.now.shift coset.now.log_size) v.values.items) }
        ensures inverses { IfOk result (λ v.
            InversesOn F.ring F.inverse_of F.root self.now.log_size
            (coset_from coset.now.shift coset.now.log_size)
            v.inverses.items) }
    {
        let period = points_for_each(coset.log_size, self.log_size);
        let values = vanishing_values(alloc, &points[..period], self.log_size)?;
        let inverses = batch_multiplicative_inverse(alloc, values.as_slice())?;
        let inverses = repeated(alloc, inverses.as_slice(), points.len())?;
        Ok(Vanishing { values, inverses })
    }

    /// A subgroup's last row selector at the points of a coset apart from it. Times the generator
    /// each point is again one of the coset if the coset is as large as the subgroup, and there the
    /// first row selector has the value over the generator; else the vanishing values are divided.
    fn last_rows_on(
        &self,
        alloc: Global,
        coset: &Coset<F>,
        vanishing: &[F],
        first_rows: &[F],
        transitions: &[F],
    ) -> Result<Vec<F>, AllocError>
        requires subgroup { self.now.shift ≡ F.ring.one }
        requires disjoint { AreDisjoint F.ring F.root
            (coset_from self.now.shift self.now.log_size)
            (coset_from coset.now.shift coset.now.log_size) }
        requires vanishing { VanishingRepeatsOn F.ring F.root self.now.log_size
            (coset_from coset.now.shift coset.now.log_size) vanishing.now }
        requires first_rows { FirstRowsOn F.ring F.inverse_of F.root self.now.log_size
            (coset_from coset.now.shift coset.now.log_size)
            first_rows.now }
        requires transitions { TransitionsOn F.ring F.inverse_of F.root self.now.log_size
            (coset_from coset.now.shift coset.now.log_size)
            transitions.now }
        ensures { IfOk result (λ l. LastRowsOn F.ring F.inverse_of F.root self.now.log_size
            (coset_from coset.now.shift coset.now.log_size) l.items) }
    {
        if self.log_size > coset.log_size {
            return quotients(alloc, vanishing, transitions);
        }
        let further = points_for_each(coset.log_size, self.log_size);
        turned(
            alloc,
            first_rows,
            further,
            F::two_adic_generator(self.log_size),
        )
    }
}

impl<F: TwoAdicField> DomainShape for Coset<F> {
    ghost size_of = { λ c. 2 ^ c.log_size };

    ghost transition_multiple = { λ _. 0 };

    fn size(&self) -> usize {
        1 << self.log_size
    }

    fn transition_degree_multiple(&self) -> usize {
        0
    }
}

impl<F: TwoAdicField> PolynomialSpace for Coset<F> {
    type Val = F;

    ghost coset_of = { λ c. record { shift = c.shift; log_size = c.log_size } };

    fn first_point(&self) -> F {
        self.shift
    }

    fn try_create_disjoint_domain(&self, min_size: usize) -> Option<Coset<F>> {
        if min_size > 1 << F::TWO_ADICITY {
            return None;
        }
        Some(self.create_disjoint_domain(min_size))
    }

    fn create_disjoint_domain(&self, min_size: usize) -> Coset<F> {
        Coset::new(self.shift * F::GENERATOR, log2_ceil_usize(min_size.max(1)))
    }

    fn next_point<EF: ExtensionField<F>>(&self, x: EF) -> Option<EF> {
        let generator: EF = generator_in::<F, EF>(self.log_size);
        Some(generator * x)
    }

    fn split_domains(&self, alloc: Global, num_chunks: usize) -> Result<Vec<Coset<F>>, AllocError> {
        let log_size = self.log_size - log2_strict_usize(num_chunks);
        let generator = F::two_adic_generator(self.log_size);
        let mut parts = Vec::new(alloc);
        let mut shift = self.shift;
        for _part in 0..num_chunks {
            parts.push(Coset::new(shift, log_size))?;
            shift = shift * generator;
        }
        Ok(parts)
    }

    fn vanishing_poly_at_point<EF: ExtensionField<F>>(&self, point: EF) -> EF {
        let ratio = point * EF::from_base(self.shift).inverse();
        subgroup_vanishing(ratio, self.log_size)
    }

    fn selectors_at_point<EF: ExtensionField<F>>(&self, point: EF) -> LagrangeSelectors<EF> {
        let generator: EF = generator_in::<F, EF>(self.log_size);
        group_selectors(generator, self.log_size, point)
    }

    fn selectors_on_coset(
        &self,
        alloc: Global,
        coset: &Coset<F>,
    ) -> Result<LagrangeSelectors<Vec<F>>, AllocError> {
        let points = coset.points(alloc)?;
        let vanishing = self.vanishing_on(alloc, coset, points.as_slice())?;
        let generator = F::two_adic_generator(self.log_size);
        let to_first = differences(alloc, points.as_slice(), F::ONE)?;
        let is_transition = differences(alloc, points.as_slice(), generator.inverse())?;
        let values = vanishing.values.as_slice();
        let is_first_row = quotients(alloc, values, to_first.as_slice())?;
        let is_last_row = self.last_rows_on(
            alloc,
            coset,
            values,
            is_first_row.as_slice(),
            is_transition.as_slice(),
        )?;
        Ok(LagrangeSelectors {
            is_first_row,
            is_last_row,
            is_transition,
            inv_vanishing: vanishing.inverses,
        })
    }

    fn evaluate_periodic_columns_at<EF: ExtensionField<F>>(
        &self,
        alloc: Global,
        columns: &PeriodicColumns<'_, F>,
        point: EF,
    ) -> Result<Vec<EF>, AllocError> {
        let generator = F::two_adic_generator(self.log_size);
        columns.values_at(alloc, generator, point)
    }

    ghost lawful = { λ c. record { shift_nonzero = c.shift_nonzero; within = c.within } };

    ghost size_is = { λ _. refl };

    ghost transition_adds_nothing = { λ _. refl };
}
