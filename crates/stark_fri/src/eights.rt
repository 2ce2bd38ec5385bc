//! Queries taken eight at a time, whose paths are hashed side by side.
ghost use Rattle.std.specs.Prelude.{◌≡◌, ◌<◌, ◌+◌, ◌*◌, ◌≤◌, IfOk, IsTrue, OnOk, length, map};
ghost use Rattle.stark_fri.specs.Claims.{rounds_in};
ghost use Rattle.stark_fri.specs.Replayed.{EightHoldIf, FindsEightWalks, FirstHold, HoldsOnIf, IsCheckable};
ghost use Rattle.stark_merkle.specs.Tree.{items_of};
ghost use Rattle.stark_fri.specs.Eights.{AreLayerPaths, ArePairPlaces, ArePairTexts, AreRowPaths, AreRowTexts, EightEnd, EightFit, EightLayersLead, EightLeadIf, HavePairs, InEight, OpenLayers, OpenRounds, PairsLead, RowsLead};

use crate::fields::FoldingFields;
use crate::folds::FoldWalk;
use crate::query::{ends_well, query_fits, query_walk};
use crate::replay::ReplayedProof;
use stark_fri_proof::{FriProof, Phase, QueryProof};
use stark_merkle::{Root, TreeHash, eight_lead, write_pair, write_rows};
use stark_support::{ExtensionField, OpeningClaim, PolynomialSpace, PrimeField64, TwoAdicField};
use std::alloc::{AllocError, Global};
use std::array;

/// Whether each of eight queries opens rows that fit the matrices, and one pair for each fold.
fn eight_fit<EF, D: PolynomialSpace>(
    claims: &[OpeningClaim<'_, EF, Root, D>],
    folds: usize,
    queries: &[QueryProof<D::Val, EF>],
) -> bool
    requires { length queries.now ≡ 8 }
    ensures { IsTrue result → EightFit (rounds_in D.coset_of claims.now) folds queries.now }
{
    for i in 0..8 {
        if !query_fits::<EF, D>(claims, folds, &queries[i]) {
            return false;
        }
    }
    true
}

/// Writes the bytes of the rows that each of eight queries opens of a round.
fn write_round<F: TwoAdicField + PrimeField64, EF: ExtensionField<F>>(
    texts: &mut [Vec<u8>; 8],
    round: usize,
    queries: &[QueryProof<F, EF>],
) -> Result<(), AllocError>
    requires queries { length queries.now ≡ 8 }
    requires within { InEight (λ query. round < length query.inputs) queries.now }
    ensures { OnOk result (AreRowTexts ⟦<EF as FoldingFields<F>>⟧.folding round queries.now
        (map items_of texts.new)) }
{
    for i in 0..8 {
        write_rows(&mut texts[i], queries[i].inputs()[round].rows())?;
    }
    Ok(())
}

/// The path that each of eight queries opens of a round.
fn round_paths<'a, F, EF>(round: usize, queries: &'a [QueryProof<F, EF>]) -> [&'a [[u8; 32]]; 8]
    requires queries { length queries.now ≡ 8 }
    requires within { InEight (λ query. round < length query.inputs) queries.now }
    ensures { AreRowPaths round queries.now result }
{
    let mut paths = [queries[0].inputs()[round].path().digests(); 8];
    for i in 0..8 {
        paths[i] = queries[i].inputs()[round].path().digests();
    }
    paths
}

/// Whether what each of eight queries opens of a round leads to its root. The bytes are written
/// into `texts`.
fn eight_rows_lead<F: TwoAdicField + PrimeField64, EF: ExtensionField<F>, H: TreeHash>(
    texts: &mut [Vec<u8>; 8],
    root: &Root,
    bits: usize,
    round: usize,
    places: &[usize],
    queries: &[QueryProof<F, EF>],
) -> Result<bool, AllocError>
    requires places { length places.now ≡ 8 }
    requires queries { length queries.now ≡ 8 }
    requires within { InEight (λ query. round < length query.inputs) queries.now }
    ensures { IfOk result (λ lead. IsTrue lead → RowsLead ⟦<EF as FoldingFields<F>>⟧.folding
        H.digests root.now.bytes bits round places.now queries.now) }
{
    write_round::<F, EF>(&mut *texts, round, queries)?;
    let mut indices = [0; 8];
    indices.copy_from_slice(places);
    let paths = round_paths(round, queries);
    Ok(eight_lead::<H>(&root.bytes(), bits, &indices, texts, &paths))
}

/// Whether the rows that each of eight queries opens lead to the rounds' roots.
fn eight_inputs_lead<EF, D, H>(
    texts: &mut [Vec<u8>; 8],
    claims: &[OpeningClaim<'_, EF, Root, D>],
    bits: usize,
    places: &[usize],
    queries: &[QueryProof<D::Val, EF>],
) -> Result<bool, AllocError>
where
    D: PolynomialSpace<Val: PrimeField64>,
    EF: ExtensionField<D::Val>,
    H: TreeHash,
    requires places { length places.now ≡ 8 }
    requires queries { length queries.now ≡ 8 }
    requires rounds { OpenRounds (length claims.now) queries.now }
    ensures { IfOk result (EightLeadIf ⟦<EF as FoldingFields<D::Val>>⟧.folding H.digests
        D.coset_of claims.now bits places.now queries.now) }
{
    for r in 0..claims.len() {
        let claim = &claims[r];
        if !eight_rows_lead::<D::Val, EF, H>(&mut *texts, claim.0, bits, r, places, queries)? {
            return Ok(false);
        }
    }
    Ok(true)
}

/// Writes the bytes of the pair that each of eight queries opens of a layer.
fn write_layer<F: TwoAdicField + PrimeField64, EF: ExtensionField<F>>(
    texts: &mut [Vec<u8>; 8],
    layer: usize,
    walks: &[FoldWalk<EF>],
) -> Result<(), AllocError>
    requires walks { length walks.now ≡ 8 }
    requires pairs { InEight (λ walk. layer < length walk.pairs.items) walks.now }
    ensures { OnOk result (ArePairTexts ⟦<EF as FoldingFields<F>>⟧.folding layer walks.now
        (map items_of texts.new)) }
{
    for i in 0..8 {
        let pair = &walks[i].pairs[layer];
        write_pair::<F, EF>(&mut texts[i], pair.low, pair.high)?;
    }
    Ok(())
}

/// The place of the pair that each of eight queries opens of a layer.
fn pair_places<EF>(layer: usize, walks: &[FoldWalk<EF>]) -> [usize; 8]
    requires walks { length walks.now ≡ 8 }
    requires pairs { InEight (λ walk. layer < length walk.pairs.items) walks.now }
    ensures { ArePairPlaces layer walks.now result }
{
    let mut places = [0; 8];
    for i in 0..8 {
        places[i] = walks[i].pairs[layer].place;
    }
    places
}

/// The path that each of eight queries opens of a layer.
fn layer_paths<'a, F, EF>(layer: usize, queries: &'a [QueryProof<F, EF>]) -> [&'a [[u8; 32]]; 8]
    requires queries { length queries.now ≡ 8 }
    requires layers { InEight (λ query. layer < length query.layers) queries.now }
    ensures { AreLayerPaths layer queries.now result }
{
    let mut paths = [queries[0].layers()[layer].path.digests(); 8];
    for i in 0..8 {
        paths[i] = queries[i].layers()[layer].path.digests();
    }
    paths
}

/// Whether the pair that each of eight queries opens of a layer leads to its root. The bytes are
/// written into `texts`.
fn eight_pairs_lead<F: TwoAdicField + PrimeField64, EF: ExtensionField<F>, H: TreeHash>(
    texts: &mut [Vec<u8>; 8],
    root: &Root,
    depth: usize,
    layer: usize,
    queries: &[QueryProof<F, EF>],
    walks: &[FoldWalk<EF>],
) -> Result<bool, AllocError>
    requires queries { length queries.now ≡ 8 }
    requires walks { length walks.now ≡ 8 }
    requires layers { InEight (λ query. layer < length query.layers) queries.now }
    requires pairs { InEight (λ walk. layer < length walk.pairs.items) walks.now }
    ensures { IfOk result (λ lead. IsTrue lead → PairsLead ⟦<EF as FoldingFields<F>>⟧.folding
        H.digests root.now.bytes depth layer queries.now walks.now) }
{
    write_layer::<F, EF>(&mut *texts, layer, walks)?;
    let places = pair_places(layer, walks);
    let paths = layer_paths(layer, queries);
    Ok(eight_lead::<H>(&root.bytes(), depth, &places, texts, &paths))
}

/// Whether the pairs that each of eight queries opens lead to the layers' roots.
fn eight_layers_lead<F: TwoAdicField + PrimeField64, EF: ExtensionField<F>, H: TreeHash>(
    texts: &mut [Vec<u8>; 8],
    phases: &[Phase<F>],
    bits: usize,
    queries: &[QueryProof<F, EF>],
    walks: &[FoldWalk<EF>],
) -> Result<bool, AllocError>
    requires queries { length queries.now ≡ 8 }
    requires walks { length walks.now ≡ 8 }
    requires layers { OpenLayers (length phases.now) queries.now }
    requires pairs { HavePairs (length phases.now) walks.now }
    requires folds { length phases.now ≤ bits }
    ensures { IfOk result (λ lead. IsTrue lead → EightLayersLead ⟦<EF as FoldingFields<F>>⟧.folding
        H.digests bits phases.now queries.now walks.now) }
{
    for i in 0..phases.len() {
        let root = &phases[i].root;
        if !eight_pairs_lead::<F, EF, H>(&mut *texts, root, bits - (i + 1), i, queries, walks)? {
            return Ok(false);
        }
    }
    Ok(true)
}

/// The way of each of eight queries through the folds.
fn eight_walks<EF, D>(
    alloc: Global,
    replayed: &ReplayedProof<'_, D::Val, EF, D>,
    places: &[usize],
    queries: &[QueryProof<D::Val, EF>],
) -> Result<Vec<FoldWalk<EF>>, AllocError>
where
    D: PolynomialSpace<Val: PrimeField64>,
    EF: ExtensionField<D::Val>,
    requires places { length places.now ≡ 8 }
    requires queries { length queries.now ≡ 8 }
    requires layers { OpenLayers (length replayed.now.drawn.now.betas.items) queries.now }
    requires checkable { IsCheckable ⟦<EF as FoldingFields<D::Val>>⟧.folding D.coset_of
        replayed.now }
    ensures { IfOk result (FindsEightWalks ⟦<EF as FoldingFields<D::Val>>⟧.folding D.coset_of
        replayed.now places.now queries.now) }
{
    let mut walks = Vec::with_capacity(alloc, 8)?;
    for i in 0..8 {
        let place = places[i];
        let query = &queries[i];
        walks.push(query_walk::<EF, D>(alloc, replayed, place, query)?)?;
    }
    Ok(walks)
}

/// Whether the folds of each of eight queries lead to the final polynomial's value.
fn eight_end<F: TwoAdicField + PrimeField64, EF: ExtensionField<F>>(
    proof: &FriProof<F, EF>,
    bits: usize,
    places: &[usize],
    walks: &[FoldWalk<EF>],
) -> bool
    requires places { length places.now ≡ 8 }
    requires walks { length walks.now ≡ 8 }
    requires folds { length proof.now.phases ≤ bits }
    requires within { bits ≤ F.TWO_ADICITY }
    ensures { IsTrue result → EightEnd ⟦<EF as FoldingFields<F>>⟧.folding proof.now bits places.now
        walks.now }
{
    for i in 0..8 {
        if !ends_well::<F, EF>(proof, bits, places[i], &walks[i]) {
            return false;
        }
    }
    true
}

/// Whether eight queries hold at their places: where it is true, they do. Where it is false, which
/// one is at fault is for them one by one to tell.
fn eight_hold<EF: ExtensionField<D::Val>, D: PolynomialSpace<Val: PrimeField64>, H: TreeHash>(
    alloc: Global,
    texts: &mut [Vec<u8>; 8],
    replayed: &ReplayedProof<'_, D::Val, EF, D>,
    places: &[usize],
    queries: &[QueryProof<D::Val, EF>],
) -> Result<bool, AllocError>
    requires places { length places.now ≡ 8 }
    requires queries { length queries.now ≡ 8 }
    requires checkable { IsCheckable ⟦<EF as FoldingFields<D::Val>>⟧.folding D.coset_of
        replayed.now }
    ensures { IfOk result (EightHoldIf ⟦<EF as FoldingFields<D::Val>>⟧.folding D.coset_of
        replayed.now H.digests places.now queries.now) }
{
    let claims = replayed.claims;
    let proof = replayed.proof;
    let bits = replayed.bits;
    let phases = proof.phases();
    if !eight_fit::<EF, D>(claims, phases.len(), queries) {
        return Ok(false);
    }
    if !eight_inputs_lead::<EF, D, H>(&mut *texts, claims, bits, places, queries)? {
        return Ok(false);
    }
    let walks = eight_walks::<EF, D>(alloc, replayed, places, queries)?;
    if !eight_layers_lead::<D::Val, EF, H>(texts, phases, bits, queries, &walks)? {
        return Ok(false);
    }
    Ok(eight_end::<D::Val, EF>(proof, bits, places, &walks))
}

/// Whether the eight queries from a place on hold: where it is true and those before do, so do
/// these.
fn eight_hold_from<EF, D, H>(
    alloc: Global,
    texts: &mut [Vec<u8>; 8],
    replayed: &ReplayedProof<'_, D::Val, EF, D>,
    at: usize,
) -> Result<bool, AllocError>
where
    D: PolynomialSpace<Val: PrimeField64>,
    EF: ExtensionField<D::Val>,
    H: TreeHash,
    requires places { at + 8 ≤ length replayed.now.drawn.now.places.items }
    requires queries { at + 8 ≤ length replayed.now.proof.now.queries }
    requires checkable { IsCheckable ⟦<EF as FoldingFields<D::Val>>⟧.folding D.coset_of
        replayed.now }
    ensures { IfOk result (HoldsOnIf ⟦<EF as FoldingFields<D::Val>>⟧.folding D.coset_of
        replayed.now H.digests at) }
{
    let places = &replayed.drawn.places[at..at + 8];
    let queries = &replayed.proof.queries()[at..at + 8];
    eight_hold::<EF, D, H>(alloc, texts, replayed, places, queries)
}

/// How many of the first queries hold, as far as groups of eight show: those before the first
/// group that isn't found to hold, or all that groups take in. Of eight or more the last eight are
/// a group too, so that no query is left over. No path of these needs to be hashed again.
pub(crate) fn accepted_by_eights<EF, D, H>(
    alloc: Global,
    replayed: &ReplayedProof<'_, D::Val, EF, D>,
) -> Result<usize, AllocError>
where
    D: PolynomialSpace<Val: PrimeField64>,
    EF: ExtensionField<D::Val>,
    H: TreeHash,
    requires { IsCheckable ⟦<EF as FoldingFields<D::Val>>⟧.folding D.coset_of replayed.now }
    ensures { IfOk result (FirstHold ⟦<EF as FoldingFields<D::Val>>⟧.folding D.coset_of
        replayed.now H.digests) }
{
    let count = replayed
        .drawn
        .places
        .len()
        .min(replayed.proof.queries().len());
    let mut texts: [Vec<u8>; 8] = array::from_fn(|_place| Vec::new(alloc));
    for group in 0..count / 8 {
        let at = 8 * group;
        if !eight_hold_from::<EF, D, H>(alloc, &mut texts, replayed, at)? {
            return Ok(at);
        }
    }
    if count < 8 || count % 8 == 0 {
        return Ok(count / 8 * 8);
    }
    if eight_hold_from::<EF, D, H>(alloc, &mut texts, replayed, count - 8)? {
        Ok(count)
    } else {
        Ok(count / 8 * 8)
    }
}
