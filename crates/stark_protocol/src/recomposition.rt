//! The quotient's value at a point, from its chunks'.
ghost use Rattle.std.specs.Prelude.{◌≡◌, ◌^◌, ◌<◌, ◌≤◌, All, IfOk, IsTrue, length, map, vec_len};
ghost use Rattle.stark_support.specs.Coset.{AreDisjointCosets};
ghost use Rattle.stark_support.specs.Extension.{basis_sum};
ghost use Rattle.stark_support.specs.Powers.{squarings};
ghost use Rattle.stark_support.specs.Recomposition.{common_log_size};
ghost use Rattle.stark_protocol.specs.ChunkFactors.{IsCycle, difference_product, node_weight};
ghost use Rattle.stark_protocol.specs.Recomposed.{AreApart, IsQuotientOfParts, IsValueWhereChunksAre, quotient_of_chunks, recomposed};

use stark_parts::{Domain, StarkFields, StarkGenericConfig};
use stark_support::{
    DomainShape, Element, ExtensionField, Field, FieldPair, PolynomialSpace, log2_strict_usize,
    squared_times,
};
use std::alloc::{AllocError, Global};

/// The logarithm of the size that domains share, 0 where there is none.
fn common_log_size<D: PolynomialSpace>(domains: &[D]) -> usize
    ensures { result ≡ common_log_size (map D.coset_of domains.now) }
{
    match domains.first() {
        Some(domain) => log2_strict_usize(domain.size()),
        None => 0,
    }
}

/// The node of a chunk's domain: what `x^N` is at each of its points.
fn node_of<D: PolynomialSpace>(domain: &D, log_size: usize) -> D::Val
    ensures { result ≡ squarings D.Val.ring (D.coset_of domain.now).shift log_size }
{
    squared_times(domain.first_point(), log_size)
}

/// The product of the differences of `x` from the nodes of domains.
fn differences<D: PolynomialSpace>(domains: &[D], log_size: usize, x: D::Val) -> D::Val
    ensures { result ≡ difference_product D.Val.ring x
        (map (λ d. squarings D.Val.ring (D.coset_of d).shift log_size) domains.now) }
{
    let mut product = D::Val::ONE;
    for domain in domains {
        product = product * (x - node_of(domain, log_size));
    }
    product
}

/// The product of the differences of a domain's node from those of the others.
fn weight_of<D: PolynomialSpace>(domains: &[D], index: usize, log_size: usize) -> D::Val
    requires place { index < length domains.now }
    ensures { result ≡ node_weight D.Val.ring
        (map (λ d. squarings D.Val.ring (D.coset_of d).shift log_size) domains.now) index }
{
    let node = node_of(&domains[index], log_size);
    differences(&domains[..index], log_size, node)
        * differences(&domains[index + 1..], log_size, node)
}

/// Whether the domains' nodes are a geometric progression that closes, as those of the parts of one
/// coset are.
fn are_cyclic<D: PolynomialSpace>(domains: &[D], log_size: usize) -> bool
    ensures some { IsTrue result → 0 < length domains.now }
    ensures cycle { IsTrue result → IsCycle D.Val.ring
        (map (λ d. squarings D.Val.ring (D.coset_of d).shift log_size) domains.now) }
{
    if domains.is_empty() {
        return false;
    }
    let first = node_of(&domains[0], log_size);
    let second = node_of(&domains[1 % domains.len()], log_size);
    for i in 0..domains.len() {
        let next = node_of(&domains[(i + 1) % domains.len()], log_size);
        let goes_round = next * first == node_of(&domains[i], log_size) * second;
        if !goes_round {
            return false;
        }
    }
    true
}

/// The element whose coefficients over the basis are a chunk's values.
fn chunk_value<F: Field, EF: ExtensionField<F>>(chunk: &[EF]) -> EF
    requires { length chunk.now ≡ EF.DIMENSION }
    ensures { result ≡ basis_sum EF.ring (λ c. c) EF.basis chunk.now }
{
    match EF::from_ext_basis_coefficients(chunk) {
        Some(value) => value,
        None => unreachable!(),
    }
}

/// The recomposition on domains whose nodes are a cycle. Each node times its weight is then the
/// same element `c`, and so `L_i(zeta)` is node i times the product of `zeta^N - a_j` over the
/// other nodes `a_j`, over `c`.
fn recompose_on_cycle<D: PolynomialSpace, EF: ExtensionField<D::Val>>(
    domains: &[D],
    chunks: &[Vec<EF>],
    log_size: usize,
    zeta: EF,
) -> EF
    requires counts { length domains.now ≡ length chunks.now }
    requires dimensions { All (λ chunk. vec_len chunk ≡ EF.DIMENSION) chunks.now }
    requires some { 0 < length domains.now }
    requires disjoint { AreDisjointCosets D.Val.ring D.Val.root log_size
        (map D.coset_of domains.now) }
    requires cycle { IsCycle D.Val.ring
        (map (λ d. squarings D.Val.ring (D.coset_of d).shift log_size) domains.now) }
    ensures { result ≡ recomposed ⟦<EF as FieldPair<D::Val>>⟧.fields D.coset_of (2 ^ log_size)
        domains.now chunks.now zeta }
{
    let power_of_zeta = squared_times(zeta, log_size);
    let weight = node_of(&domains[0], log_size) * weight_of(domains, 0, log_size);
    let mut sum = EF::ZERO;
    let mut product = EF::ONE;
    for (i, chunk) in chunks.iter().enumerate() {
        let node = EF::from_base(node_of(&domains[i], log_size));
        let apart = power_of_zeta - node;
        sum = sum * apart + product * node * chunk_value::<D::Val, EF>(chunk);
        product = product * apart;
    }
    sum * EF::from_base(weight.inverse())
}

/// The recomposition on any domains: `L_i(zeta)` is the product of `zeta^N - a_j` over the other
/// nodes `a_j`, over the weight of node i. The sum is kept over the product of the weights so far.
fn recompose_by_weights<D: PolynomialSpace, EF: ExtensionField<D::Val>>(
    domains: &[D],
    chunks: &[Vec<EF>],
    log_size: usize,
    zeta: EF,
) -> EF
    requires counts { length domains.now ≡ length chunks.now }
    requires dimensions { All (λ chunk. vec_len chunk ≡ EF.DIMENSION) chunks.now }
    requires disjoint { AreDisjointCosets D.Val.ring D.Val.root log_size
        (map D.coset_of domains.now) }
    ensures { result ≡ recomposed ⟦<EF as FieldPair<D::Val>>⟧.fields D.coset_of (2 ^ log_size)
        domains.now chunks.now zeta }
{
    let power_of_zeta = squared_times(zeta, log_size);
    let mut sum = EF::ZERO;
    let mut product = EF::ONE;
    let mut weights = D::Val::ONE;
    for (i, chunk) in chunks.iter().enumerate() {
        let weight = weight_of(domains, i, log_size);
        let apart = power_of_zeta - EF::from_base(node_of(&domains[i], log_size));
        let term = product * EF::from_base(weights) * chunk_value::<D::Val, EF>(chunk);
        sum = sum * apart * EF::from_base(weight) + term;
        product = product * apart;
        weights = weights * weight;
    }
    sum * EF::from_base(weights.inverse())
}

/// The quotient's value at `zeta`, from the values there of its chunks' coordinates: the sum over
/// the chunks of `L_i(zeta)` times the element with those coordinates, where `L_i` is the product
/// over the other domains of `Z_j(zeta) / Z_j(first point of domain i)`, and one where there is a
/// single domain. Where the chunks are those of a polynomial, the result is its value at `zeta`,
/// wherever that lies. It takes no memory, and one inversion in the base field. Where the domains
/// are the parts of one coset, in the order in which it is split, a chunk takes a few products, and
/// some four times as many squares in the base field as the logarithm of a domain's size; of other
/// domains it takes that for each other chunk.
pub fn recompose_quotient_from_chunks<SC: StarkGenericConfig>(
    quotient_chunks_domains: &[Domain<SC>],
    quotient_chunks: &[Vec<SC::Challenge>],
    zeta: SC::Challenge,
) -> SC::Challenge
    requires counts { length quotient_chunks_domains.now ≡ length quotient_chunks.now }
    requires dimensions { All (λ chunk. vec_len chunk
        ≡ SC.Challenge.DIMENSION) quotient_chunks.now }
    requires disjoint { AreApart ⟦<SC as StarkFields>⟧.fields
        SC.Pcs.Domain.coset_of quotient_chunks_domains.now }
    ensures recomposed { result ≡ quotient_of_chunks
        ⟦<SC as StarkFields>⟧.fields SC.Pcs.Domain.coset_of
        quotient_chunks_domains.now quotient_chunks.now zeta }
    ensures everywhere { IsValueWhereChunksAre ⟦<SC as StarkFields>⟧.fields
        SC.Pcs.Domain.coset_of quotient_chunks_domains.now quotient_chunks.now zeta result }
{
    let log_size = common_log_size(quotient_chunks_domains);
    if are_cyclic(quotient_chunks_domains, log_size) {
        recompose_on_cycle(quotient_chunks_domains, quotient_chunks, log_size, zeta)
    } else {
        recompose_by_weights(quotient_chunks_domains, quotient_chunks, log_size, zeta)
    }
}

/// The quotient's value at a point, from the values there of its chunks' coordinates: the chunks
/// stand on the parts of the quotient's domain.
pub fn quotient_at<SC: StarkGenericConfig>(
    alloc: Global,
    quotient_domain: &Domain<SC>,
    log_chunks: usize,
    chunks: &[Vec<SC::Challenge>],
    zeta: SC::Challenge,
) -> Result<SC::Challenge, AllocError>
    requires number { length chunks.now ≡ 2 ^ log_chunks }
    requires within { log_chunks ≤ (SC.Pcs.Domain.coset_of quotient_domain.now).log_size }
    requires dimension { All (λ chunk. vec_len chunk ≡ SC.Challenge.DIMENSION) chunks.now }
    ensures { IfOk result (IsQuotientOfParts ⟦<SC as StarkFields>⟧.fields
        (SC.Pcs.Domain.coset_of quotient_domain.now) log_chunks chunks.now zeta) }
{
    let domains = quotient_domain.split_domains(alloc, chunks.len())?;
    Ok(recompose_quotient_from_chunks::<SC>(&domains, chunks, zeta))
}
