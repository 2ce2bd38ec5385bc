//! A query's way through the folds.
ghost use Rattle.std.specs.Prelude.{◌≡◌, ◌≢◌, ◌<◌, ◌≤◌, ◌-◌, ◌^◌, IfOk, length};
ghost use Rattle.stark_support.specs.Coset.{coset_point, coset_from};
ghost use Rattle.stark_fri.specs.Walks.{FindsLayerFault, FoldsTo, IsWalk};

use crate::fields::FoldingFields;
use stark_folding::fold_pair_in;
use stark_fri_proof::{LayerOpening, Phase};
use stark_merkle::{TreeHash, is_path_to, pair_bytes};
use stark_support::{ExtensionField, PrimeField64, TwoAdicField, power_of};
use std::alloc::{AllocError, Global};

/// Half of `2^log_size`.
pub(crate) fn half_size(log_size: usize) -> usize
    requires some { 1 ≤ log_size }
    requires fits { log_size ≤ 64 }
    ensures { result ≡ 2 ^ (log_size - 1) }
{
    1 << (log_size - 1)
}

/// Point `i` of the coset of a shift in the group of `2^log_size` elements.
pub(crate) fn point_at<F: TwoAdicField>(shift: F, log_size: usize, i: usize) -> F
    requires { log_size ≤ F.TWO_ADICITY }
    ensures { result ≡
        coset_point F.ring F.root (record { shift = shift; log_size = log_size }) i }
{
    shift * power_of(F::two_adic_generator(log_size), i as u64)
}

/// A pair of a layer: its place in the layer's tree, and its values, that of the lower place first.
#[derive(Drop)]
pub(crate) struct Pair<EF> {
    pub(crate) place: usize,
    pub(crate) low: EF,
    pub(crate) high: EF,
}

/// A value's way through the folds: the pair of each, and the value at the end.
#[derive(Drop)]
pub(crate) struct FoldWalk<EF> {
    pub(crate) pairs: Vec<Pair<EF>>,
    pub(crate) reached: EF,
}

/// The pair at a place of a layer, and the value that it folds to.
fn fold_at<F: TwoAdicField + PrimeField64, EF: ExtensionField<F>>(
    beta: EF,
    shift: F,
    log_size: usize,
    place: usize,
    value: EF,
    sibling: EF,
) -> (Pair<EF>, EF)
    requires shift { shift ≢ F.ring.zero }
    requires some { 1 ≤ log_size }
    requires within { log_size ≤ F.TWO_ADICITY }
    ensures { FoldsTo ⟦<EF as FoldingFields<F>>⟧.folding (coset_from (EF.embed shift) log_size) beta
        place value sibling result }
{
    let half = half_size(log_size);
    let next = place % half;
    let point = point_at(shift, log_size, next);
    let mut low = sibling;
    let mut high = value;
    if place < half {
        low = value;
        high = sibling;
    }
    let folded = fold_pair_in::<F, EF>(beta, point, low, high);
    let pair = Pair {
        place: next,
        low,
        high,
    };
    (pair, folded)
}

/// A value's way through the folds from a place of `2^bits` extended rows, whether or not the pairs
/// lead to the layers' roots.
pub(crate) fn walk_folds<F: TwoAdicField + PrimeField64, EF: ExtensionField<F>>(
    alloc: Global,
    betas: &[EF],
    layers: &[LayerOpening<EF>],
    bits: usize,
    start: usize,
    value: EF,
) -> Result<FoldWalk<EF>, AllocError>
    requires layers { length layers.now ≡ length betas.now }
    requires folds { length betas.now ≤ bits }
    requires within { bits ≤ F.TWO_ADICITY }
    ensures { IfOk result (IsWalk ⟦<EF as FoldingFields<F>>⟧.folding bits start value betas.now
        layers.now) }
{
    let mut pairs = Vec::with_capacity(alloc, betas.len())?;
    let mut shift = F::GENERATOR;
    let mut log_size = bits;
    let mut place = start;
    let mut reached = value;
    for i in 0..betas.len() {
        let (pair, folded) = fold_at::<F, EF>(
            betas[i],
            shift,
            log_size,
            place,
            reached,
            layers[i].sibling,
        );
        // The next layer is that of the squares: a place and the opposite one become one.
        place = pair.place;
        reached = folded;
        shift = shift * shift;
        log_size -= 1;
        pairs.push(pair)?;
    }
    Ok(FoldWalk { pairs, reached })
}

/// The first fold whose pair's path doesn't lead to its root. The first layer is of `2^bits`
/// values.
pub(crate) fn first_layer_fault<F, EF, H>(
    alloc: Global,
    phases: &[Phase<F>],
    bits: usize,
    layers: &[LayerOpening<EF>],
    pairs: &[Pair<EF>],
) -> Result<Option<usize>, AllocError>
where
    F: TwoAdicField + PrimeField64,
    EF: ExtensionField<F>,
    H: TreeHash,
    requires layers { length layers.now ≡ length phases.now }
    requires pairs { length pairs.now ≡ length phases.now }
    requires folds { length phases.now ≤ bits }
    ensures { IfOk result (FindsLayerFault ⟦<EF as FoldingFields<F>>⟧.folding H.digests bits
        phases.now layers.now pairs.now) }
{
    for i in 0..phases.len() {
        let pair = &pairs[i];
        let bytes = pair_bytes::<F, EF>(alloc, pair.low, pair.high)?;
        let root = phases[i].root.bytes();
        let path = layers[i].path.digests();
        if !is_path_to::<H>(&root, bits - (i + 1), pair.place, &bytes, path) {
            return Ok(Some(i));
        }
    }
    Ok(None)
}
