//! Commitments to columns: their values on a larger coset, and the tree over these rows.
ghost use Rattle.std.specs.Prelude.{◌≡◌, ◌≤◌, ◌<◌, ◌↔◌, ◌+◌, ◌*◌, ◌^◌, ℕ, [], IfOk, IsTrue, None, OnOk, Some, map, slice_index_or};
ghost use Rattle.std.specs.List.{AllByRecursion, slice_get};
ghost use Rattle.stark_support.specs.Coset.{coset_from};
ghost use Rattle.stark_columns.specs.Columns.{columns_list};
ghost use Rattle.stark_fri_proof.specs.Paths.{digests_of};
ghost use Rattle.stark_merkle.specs.Bytes.{element_bytes};
ghost use Rattle.stark_merkle.specs.Tree.{digests_in, items_of};
ghost use Rattle.stark_support.specs.declared.matrix.RowMajorMatrix.{RowMajorMatrix};
ghost use Rattle.stark_fri_prover.specs.Commit.{AreExtended, AreKept, AreLayersIn, HasRow, HasRowsOf, HaveRow, HaveRows, IsPathOrNone, IsTopOver, extension_of, leaf_at, leaves_of, row_of, text_at};

use stark_bench::Coset;
use stark_columns::rows_on;
use stark_fri_proof::{InputOpening, MerklePath};
use stark_merkle::{
    Root, TreeHash, begin_rows, first_eight_leaves, path_in, push_row, root_in, tree_layers,
};
use stark_support::{DomainShape, PrimeField64, RowMajorMatrix, TwoAdicField};
use std::alloc::{AllocError, Global};
use std::array;

/// What the prover keeps of a commitment: the root, the natural domain of the columns' length,
/// their coefficients, and their values on the larger coset, a matrix of rows for each matrix, with
/// the tree's layers over these rows.
#[derive(Drop)]
pub struct FriData<F: TwoAdicField> {
    root: Root,
    domain: Coset<F>,
    matrices: Vec<Vec<Vec<F>>>,
    extended: Vec<RowMajorMatrix<F>>,
    layers: Vec<Vec<[u8; 32]>>,
}

/// What a commitment gives: its root, and what the prover keeps of it.
pub type Committed<F> = (Root, FriData<F>);

impl<F: TwoAdicField> FriData<F> {
    /// The commitment.
    pub fn root(&self) -> &Root
        ensures { result.now ≡ self.now.root }
    {
        &self.root
    }

    /// The subgroup of as many points as each column has coefficients.
    pub fn domain(&self) -> Coset<F>
        ensures { result ≡ self.now.domain }
    {
        self.domain
    }

    /// The coefficients of each column of each matrix, the constant first.
    pub fn matrices(&self) -> &[Vec<Vec<F>>]
        ensures { result.now ≡ self.now.matrices.items }
    {
        &self.matrices
    }

    /// The rows of matrix `index` on the larger coset; no rows where there is no such matrix. It is
    /// Err only where memory was refused.
    pub fn rows_of(&self, alloc: Global, index: usize) -> Result<RowMajorMatrix<F>, AllocError>
        ensures stored { IfOk result (λ rows. (stored : RowMajorMatrix F)
            → slice_get self.now.extended.items index ≡ Some stored → HasRowsOf stored rows) }
        ensures none { IfOk result (λ rows. slice_get self.now.extended.items index ≡ None
            → (rows.values.items ≡ []) × (rows.width ≡ 0)) }
    {
        let mut values = Vec::new(alloc);
        let Some(stored) = self.extended.get(index) else {
            return Ok(RowMajorMatrix::new(values, 0));
        };
        values.extend_from_slice(&stored.values)?;
        Ok(RowMajorMatrix::new(values, stored.width))
    }

    /// A row of each matrix at a place of the larger coset, and their path to the root: nothing
    /// where there is no such place. It is Err only where memory was refused.
    pub fn open_at(&self, alloc: Global, place: usize) -> Result<InputOpening<F>, AllocError>
        ensures rows { IfOk result (λ opened. HaveRow place self.now.extended.items
            → opened.rows ≡ map (row_of place) self.now.extended.items) }
        ensures path { IfOk result (λ opened. HaveRow place self.now.extended.items
            → IsPathOrNone (digests_in self.now.layers.items) place (digests_of opened.path)) }
        ensures none { IfOk result (λ opened. (HaveRow place self.now.extended.items → ⊥)
            → (opened.rows ≡ []) × (digests_of opened.path ≡ [])) }
    {
        if !have_row(&self.extended, place) {
            return Ok(InputOpening::new(Vec::new(alloc), MerklePath::new(Vec::new(alloc))));
        }
        let rows = rows_at(alloc, &self.extended, place)?;
        let path = path_or_none(alloc, &self.layers, place)?;
        Ok(InputOpening::new(rows, path))
    }
}

/// The path of a leaf; no digest where there is no such leaf.
pub(crate) fn path_or_none(
    alloc: Global,
    layers: &[Vec<[u8; 32]>],
    place: usize,
) -> Result<MerklePath, AllocError>
    ensures { IfOk result (λ path.
        IsPathOrNone (digests_in layers.now) place (digests_of path)) }
{
    match path_in(alloc, layers, place)? {
        Some(path) => Ok(MerklePath::new(path)),
        None => Ok(MerklePath::new(Vec::new(alloc))),
    }
}

/// The values of each matrix's columns at the domain's points, a row a point.
fn extended_rows<F: TwoAdicField>(
    alloc: Global,
    matrices: &[Vec<Vec<F>>],
    domain: &Coset<F>,
) -> Result<Vec<RowMajorMatrix<F>>, AllocError>
    ensures { IfOk result (λ extended.
        AreExtended F.ring F.root (coset_from domain.now.shift domain.now.log_size)
        (map columns_list matrices.now) extended.items) }
{
    let mut extended = Vec::new(alloc);
    for index in 0..matrices.len() {
        let rows = rows_on(alloc, matrices, index, domain)?;
        extended.push(rows)?;
    }
    Ok(extended)
}

/// Whether the matrix has a row `place`.
fn has_row<F>(matrix: &RowMajorMatrix<F>, place: usize) -> bool
    ensures { IsTrue result ↔ HasRow place matrix.now }
{
    let Some(start) = place.checked_mul(matrix.width) else {
        return false;
    };
    match start.checked_add(matrix.width) {
        Some(end) => end <= matrix.values.len(),
        None => false,
    }
}

/// Whether each matrix has a row `place`.
fn have_row<F>(extended: &[RowMajorMatrix<F>], place: usize) -> bool
    ensures { IsTrue result ↔ AllByRecursion (HasRow place) extended.now }
{
    for matrix in extended {
        if !has_row(matrix, place) {
            return false;
        }
    }
    true
}

/// A list of its own of the values of row `place`.
fn copied_row<F: Copy>(
    alloc: Global,
    matrix: &RowMajorMatrix<F>,
    place: usize,
) -> Result<Vec<F>, AllocError>
    requires { HasRow place matrix.now }
    ensures { IfOk result (λ row. row.items ≡ row_of place matrix.now) }
{
    let start = place * matrix.width;
    let mut row = Vec::new(alloc);
    row.extend_from_slice(&matrix.values[start..start + matrix.width])?;
    Ok(row)
}

/// Row `place` of each matrix.
fn rows_at<F: Copy>(
    alloc: Global,
    extended: &[RowMajorMatrix<F>],
    place: usize,
) -> Result<Vec<Vec<F>>, AllocError>
    requires { AllByRecursion (HasRow place) extended.now }
    ensures { IfOk result (λ rows. map items_of rows.items ≡ map (row_of place) extended.now) }
{
    let mut rows = Vec::new(alloc);
    for matrix in extended {
        let row = copied_row(alloc, matrix, place)?;
        rows.push(row)?;
    }
    Ok(rows)
}

/// Writes the bytes of row `place` of each matrix, which its leaf commits to. What the bytes held
/// is gone, and its memory serves again.
fn write_rows_at<F: PrimeField64>(
    bytes: &mut Vec<u8>,
    extended: &[RowMajorMatrix<F>],
    place: usize,
) -> Result<(), AllocError>
    requires { AllByRecursion (HasRow place) extended.now }
    ensures { OnOk result (bytes.new.items
        ≡ text_at (element_bytes F.BYTES F.number_of) extended.now place) }
{
    begin_rows(&mut *bytes, extended.len())?;
    for matrix in extended {
        let start = place * matrix.width;
        push_row(&mut *bytes, &matrix.values[start..start + matrix.width])?;
    }
    Ok(())
}

/// Writes the bytes of eight rows, from row `place` on.
fn write_eight_rows<F: PrimeField64>(
    texts: &mut [Vec<u8>; 8],
    extended: &[RowMajorMatrix<F>],
    place: usize,
) -> Result<(), AllocError>
    requires word { place + 8 < 2 ^ 64 }
    requires rows { HaveRows (place + 8) extended.now }
    ensures { OnOk result ((j : ℕ) → j < 8 → slice_index_or (map items_of texts.new) j []
        ≡ text_at (element_bytes F.BYTES F.number_of) extended.now (place + j)) }
{
    for j in 0..8 {
        write_rows_at(&mut texts[j], extended, place + j)?;
    }
    Ok(())
}

/// The leaves over eight rows, from row `place` on, whose bytes are written into `texts`.
fn eight_leaves_of<F: PrimeField64, H: TreeHash>(
    texts: &mut [Vec<u8>; 8],
    extended: &[RowMajorMatrix<F>],
    place: usize,
) -> Result<[[u8; 32]; 8], AllocError>
    requires word { place + 8 < 2 ^ 64 }
    requires rows { HaveRows (place + 8) extended.now }
    ensures { IfOk result (λ eight. (j : ℕ) → j < 8 → slice_index_or eight j []
        ≡ leaf_at H.digests (element_bytes F.BYTES F.number_of) extended.now (place + j)) }
{
    write_eight_rows(&mut *texts, extended, place)?;
    Ok(first_eight_leaves::<H>(texts))
}

/// The leaves over the first `count` rows.
fn leaves<F: PrimeField64, H: TreeHash>(
    alloc: Global,
    extended: &[RowMajorMatrix<F>],
    count: usize,
) -> Result<Vec<[u8; 32]>, AllocError>
    requires { HaveRows count extended.now }
    ensures { IfOk result (λ leaves.
        leaves.items ≡ leaves_of H.digests (element_bytes F.BYTES F.number_of) extended.now
        count) }
{
    let mut leaves = Vec::with_capacity(alloc, count)?;
    let groups = count / 8;
    let mut texts: [Vec<u8>; 8] = array::from_fn(|_place| Vec::new(alloc));
    for group in 0..groups {
        let eight = eight_leaves_of::<F, H>(&mut texts, extended, 8 * group)?;
        for j in 0..8 {
            leaves.push(eight[j])?;
        }
    }
    let mut bytes = Vec::new(alloc);
    for place in 8 * groups..count {
        write_rows_at(&mut bytes, extended, place)?;
        leaves.push(H::leaf(&bytes))?;
    }
    Ok(leaves)
}

/// The commitment to columns of `2^log_height` coefficients, and what the prover keeps of it: the
/// root of the tree over the columns' values at `2^log_blowup` times as many points, on the coset
/// of the field's generator. It is Err only where memory was refused.
pub fn commit_columns<F: TwoAdicField + PrimeField64, H: TreeHash>(
    alloc: Global,
    log_height: usize,
    log_blowup: usize,
    matrices: Vec<Vec<Vec<F>>>,
) -> Result<Committed<F>, AllocError>
    requires { log_height + log_blowup ≤ F.TWO_ADICITY }
    ensures commitment { IfOk result (λ made. made.0 ≡ made.1.root) }
    ensures height { IfOk result (λ made. made.1.domain.log_size ≡ log_height) }
    ensures columns { IfOk result (λ made. made.1.matrices.items ≡ matrices.items) }
    ensures rows { IfOk result (λ made.
        AreKept F.ring F.root (extension_of F.GENERATOR (log_height + log_blowup))
        matrices.items made.1.extended) }
    ensures root { IfOk result (λ m. IsTopOver F.ring F.root F.GENERATOR H.digests F.BYTES
        F.number_of (log_height + log_blowup) matrices.items m.0) }
    ensures tree { IfOk result (λ m. AreLayersIn H.digests F.BYTES F.number_of
        (log_height + log_blowup) m.1.extended m.1.layers) }
{
    let bits = log_height + log_blowup;
    let domain = Coset::new(F::GENERATOR, bits);
    let extended = extended_rows(alloc, &matrices, &domain)?;
    let leaves = leaves::<F, H>(alloc, &extended, domain.size())?;
    let layers = tree_layers::<H>(alloc, leaves, bits)?;
    // Over 2^bits leaves there is a root.
    let top = root_in(&layers).unwrap();
    let root = Root::new(top);
    Ok((
        root,
        FriData {
            root,
            domain: Coset::subgroup(log_height),
            matrices,
            extended,
            layers,
        },
    ))
}
