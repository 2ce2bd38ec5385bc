//! The layers of a folding: the words that are folded, and the trees over their pairs.
ghost use Rattle.std.specs.Prelude.{◌≡◌, ◌+◌, ◌*◌, ◌/◌, ◌^◌, ◌<◌, ◌≤◌, IfOk, IfSome, IsSome, OnOk, length, map};
ghost use Rattle.stark_columns.specs.Columns.{columns_list};
ghost use Rattle.stark_merkle.specs.Bytes.{element_bytes};
ghost use Rattle.stark_merkle.specs.Tree.{digests_in, items_of};
ghost use Rattle.stark_fri_prover.specs.Words.{IsWordIn, coordinate_at, coordinate_columns, element_of, elements_of};
ghost use Rattle.stark_fri_prover.specs.Layers.{AreEightLeaves, AreEightPairs, IsLayerOf, OpensPlace, OpensWay, pair_leaves_of, pair_of, pair_place};

use crate::commit::path_or_none;
use stark_bench::Coset;
use stark_columns::rows_on;
use stark_fri_proof::LayerOpening;
use stark_merkle::{Root, TreeHash, first_eight_leaves, root_in, tree_layers, write_pair};
use stark_support::{DomainShape, ExtensionField, PrimeField64, TwoAdicField};
use std::alloc::{AllocError, Global};
use std::array;

/// A word, and the tree over its pairs: leaf `i` is that of the values at place `i` and half the
/// word further.
#[derive(Drop)]
pub(crate) struct Layer<EF> {
    values: Vec<EF>,
    tree: Vec<Vec<[u8; 32]>>,
}

impl<EF> Layer<EF> {
    /// The word.
    pub(crate) fn values(&self) -> &[EF]
        ensures { result.now ≡ self.now.values.items }
    {
        &self.values
    }
}

/// The coordinates of elements at one place of the basis.
fn coordinate_column<F: TwoAdicField, EF: ExtensionField<F>>(
    alloc: Global,
    elements: &[EF],
    place: usize,
) -> Result<Vec<F>, AllocError>
    requires { place < EF.DIMENSION }
    ensures { IfOk result (λ column. column.items
        ≡ map (coordinate_at EF.coordinates F.ring.zero place) elements.now) }
{
    let mut column = Vec::with_capacity(alloc, elements.len())?;
    for element in elements {
        column.push(element.coordinate(place))?;
    }
    Ok(column)
}

/// The coordinates of a polynomial's coefficients: a polynomial of the base field for each element
/// of the basis.
pub(crate) fn coordinate_columns<F: TwoAdicField, EF: ExtensionField<F>>(
    alloc: Global,
    polynomial: &[EF],
) -> Result<Vec<Vec<F>>, AllocError>
    ensures { IfOk result (λ columns. columns_list columns
        ≡ coordinate_columns EF.DIMENSION EF.coordinates F.ring.zero polynomial.now) }
{
    let mut columns = Vec::new(alloc);
    for place in 0..EF::DIMENSION {
        let column = coordinate_column::<F, EF>(alloc, polynomial, place)?;
        columns.push(column)?;
    }
    Ok(columns)
}

/// The element that has these coordinates.
pub(crate) fn element_of<F: TwoAdicField, EF: ExtensionField<F>>(row: &[F]) -> EF
    requires { length row.now ≡ EF.DIMENSION }
    ensures { result ≡ element_of EF.ring EF.embed EF.basis row.now }
{
    EF::from_basis_coefficients_slice(row).unwrap()
}

/// The elements whose coordinates stand one after the other.
fn elements_of<F: TwoAdicField, EF: ExtensionField<F>>(
    alloc: Global,
    coordinates: &[F],
    count: usize,
) -> Result<Vec<EF>, AllocError>
    requires { length coordinates.now ≡ count * EF.DIMENSION }
    ensures { IfOk result (λ elements. elements.items
        ≡ elements_of EF.ring EF.embed EF.DIMENSION EF.basis coordinates.now count) }
{
    let mut elements = Vec::with_capacity(alloc, count)?;
    for place in 0..count {
        let start = place * EF::DIMENSION;
        let row = &coordinates[start..start + EF::DIMENSION];
        elements.push(element_of::<F, EF>(row))?;
    }
    Ok(elements)
}

/// The word of a polynomial on a coset: its values at all of the points. They are those of its
/// coordinates, by transforms over the base field.
pub(crate) fn values_of<F: TwoAdicField, EF: ExtensionField<F>>(
    alloc: Global,
    polynomial: &[EF],
    domain: &Coset<F>,
) -> Result<Vec<EF>, AllocError>
    ensures { IfOk result (λ word. IsWordIn EF.ring EF.embed F.root domain.now.shift
        domain.now.log_size polynomial.now word.items) }
{
    let columns = coordinate_columns::<F, EF>(alloc, polynomial)?;
    let mut matrices = Vec::new(alloc);
    matrices.push(columns)?;
    let rows = rows_on(alloc, &matrices, 0, domain)?;
    let word = elements_of(alloc, &rows.values, domain.size())?;
    Ok(word)
}

/// Writes the bytes of the pair at a place: of the value there and the one half the word further.
/// What the bytes held is gone, and its memory serves again.
fn write_pair_at<F: PrimeField64, EF: ExtensionField<F>>(
    bytes: &mut Vec<u8>,
    values: &[EF],
    half: usize,
    place: usize,
) -> Result<(), AllocError>
    requires { half + place < length values.now }
    ensures { OnOk result (bytes.new.items
        ≡ pair_of (element_bytes F.BYTES F.number_of) EF.coordinates EF.ring.zero values.now half
        place) }
{
    write_pair::<F, EF>(bytes, values[place], values[half + place])
}

/// Writes the bytes of eight pairs, from the place on.
fn write_eight_pairs<F: PrimeField64, EF: ExtensionField<F>>(
    texts: &mut [Vec<u8>; 8],
    values: &[EF],
    half: usize,
    place: usize,
) -> Result<(), AllocError>
    requires { half + place + 8 ≤ length values.now }
    ensures { OnOk result (AreEightPairs (element_bytes F.BYTES F.number_of) EF.coordinates
        EF.ring.zero values.now half place (map items_of texts.new)) }
{
    for j in 0..8 {
        write_pair_at::<F, EF>(&mut texts[j], values, half, place + j)?;
    }
    Ok(())
}

/// The leaves over eight pairs, from the place on, whose bytes are written into `texts`.
fn eight_pair_leaves<F: PrimeField64, EF: ExtensionField<F>, H: TreeHash>(
    texts: &mut [Vec<u8>; 8],
    values: &[EF],
    half: usize,
    place: usize,
) -> Result<[[u8; 32]; 8], AllocError>
    requires { half + place + 8 ≤ length values.now }
    ensures { IfOk result (AreEightLeaves (element_bytes F.BYTES F.number_of) EF.coordinates
        EF.ring.zero H.digests values.now half place) }
{
    write_eight_pairs::<F, EF>(&mut *texts, values, half, place)?;
    Ok(first_eight_leaves::<H>(texts))
}

/// The leaves over a word's pairs, of a value in the first half and the one half the word further.
fn pair_leaves<F: PrimeField64, EF: ExtensionField<F>, H: TreeHash>(
    alloc: Global,
    values: &[EF],
) -> Result<Vec<[u8; 32]>, AllocError>
    ensures { IfOk result (λ leaves. leaves.items
        ≡ pair_leaves_of (element_bytes F.BYTES F.number_of) EF.coordinates EF.ring.zero H.digests
        values.now) }
{
    let half = values.len() / 2;
    let mut leaves = Vec::with_capacity(alloc, half)?;
    let groups = half / 8;
    let mut texts: [Vec<u8>; 8] = array::from_fn(|_place| Vec::new(alloc));
    for group in 0..groups {
        let eight = eight_pair_leaves::<F, EF, H>(&mut texts, values, half, 8 * group)?;
        for j in 0..8 {
            leaves.push(eight[j])?;
        }
    }
    let mut bytes = Vec::new(alloc);
    for place in 8 * groups..half {
        write_pair_at::<F, EF>(&mut bytes, values, half, place)?;
        leaves.push(H::leaf(&bytes))?;
    }
    Ok(leaves)
}

/// The layer of a word of `2^log_size` values, and its root.
pub(crate) fn layer_of<F: TwoAdicField + PrimeField64, EF: ExtensionField<F>, H: TreeHash>(
    alloc: Global,
    values: Vec<EF>,
    log_size: usize,
) -> Result<(Root, Layer<EF>), AllocError>
    requires pairs { 1 ≤ log_size }
    requires number { length values.items ≡ 2 ^ log_size }
    ensures tree { IfOk result (λ made. IsLayerOf (element_bytes F.BYTES F.number_of)
        EF.coordinates EF.ring.zero H.digests log_size made.0 made.1) }
    ensures word { IfOk result (λ made. made.1.values.items ≡ values.items) }
{
    let leaves = pair_leaves::<F, EF, H>(alloc, &values)?;
    let tree = tree_layers::<H>(alloc, leaves, log_size - 1)?;
    // Over 2^(log_size - 1) leaves there is a root.
    let top = root_in(&tree).unwrap();
    Ok((Root::new(top), Layer { values, tree }))
}

/// What a query opens of a layer at a place of it; None where the layer has no such pair.
fn open_layer<EF: Copy>(
    alloc: Global,
    layer: &Layer<EF>,
    place: usize,
) -> Result<Option<LayerOpening<EF>>, AllocError>
    ensures opened { IfOk result (λ opened. IfSome opened
        (OpensPlace layer.now.values.items (digests_in layer.now.tree.items) place)) }
    ensures some { IfOk result (λ opened. place < length layer.now.values.items / 2 * 2
        → IsSome opened) }
{
    let half = layer.values.len() / 2;
    if place >= layer.values.len() {
        return Ok(None);
    }
    let (pair, other) = if place < half {
        (place, place + half)
    } else {
        (place - half, place - half)
    };
    if other >= layer.values.len() {
        return Ok(None);
    }
    let path = path_or_none(alloc, &layer.tree, pair)?;
    Ok(Some(LayerOpening {
        sibling: layer.values[other],
        path,
    }))
}

/// The place of a place's pair, in a word of `half` pairs.
fn pair_place(half: usize, place: usize) -> usize
    ensures { result ≡ pair_place half place }
{
    if place < half { place } else { place - half }
}

/// What a query opens of the layers on its way.
pub(crate) fn open_layers<EF: Copy>(
    alloc: Global,
    layers: &[Layer<EF>],
    start: usize,
) -> Result<Vec<LayerOpening<EF>>, AllocError>
    ensures { IfOk result (λ opened. OpensWay layers.now start opened.items) }
{
    let mut opened = Vec::new(alloc);
    let mut place = start;
    for layer in layers {
        if let Some(opening) = open_layer(alloc, layer, place)? {
            opened.push(opening)?;
        }
        place = pair_place(layer.values.len() / 2, place);
    }
    Ok(opened)
}
