//! The checks of one query.
ghost use Rattle.std.specs.Prelude.{◌≡◌, ◌<◌, ◌≤◌, ◌^◌, ◌↔◌, IfOk, IsTrue, length, map};
ghost use Rattle.stark_support.specs.Faults.{PlaceByPlace};
ghost use Rattle.stark_support.specs.Polynomial.{value};
ghost use Rattle.stark_merkle.specs.Bytes.{element_bytes};
ghost use Rattle.stark_merkle.specs.Tree.{items_of};
ghost use Rattle.stark_fri.specs.Claims.{matrices_in, rounds_in};
ghost use Rattle.stark_fri.specs.Found.{FindsInputFault};
ghost use Rattle.stark_fri.specs.Eights.{EndsAt};
ghost use Rattle.stark_fri.specs.Replayed.{FindsFaultIn, IsCheckable, IsWalkIn};
ghost use Rattle.stark_fri.specs.Query.{OpenedRowsLead, QueryFits, RowFits, extension_coset, last_point};

use crate::claims::points_have_count;
use crate::error::QueryFault;
use crate::fields::FoldingFields;
use crate::folds::{FoldWalk, first_layer_fault, half_size, point_at, walk_folds};
use crate::replay::ReplayedProof;
use crate::seen::batched_value;
use stark_fri_proof::{FriProof, InputOpening, QueryProof};
use stark_merkle::{Root, TreeHash, is_path_to, row_bytes};
use stark_support::{
    ExtensionField, Field, MatrixClaim, OpeningClaim, PolynomialSpace, PrimeField64, TwoAdicField,
    polynomial_value,
};
use std::alloc::{AllocError, Global};

/// Whether a row is opened of each matrix, with as many elements as there are values at each point.
fn rows_fit<EF, D: PolynomialSpace>(
    matrices: &[MatrixClaim<'_, EF, D>],
    rows: &[Vec<D::Val>],
) -> bool
    ensures { IsTrue result ↔
        PlaceByPlace RowFits (matrices_in D.coset_of matrices.now) (map items_of rows.now) }
{
    if rows.len() != matrices.len() {
        return false;
    }
    for m in 0..matrices.len() {
        let matrix = &matrices[m];
        if !points_have_count(&matrix.1, rows[m].len()) {
            return false;
        }
    }
    true
}

/// Whether a query opens rows of each round that fit its matrices, and one pair for each fold.
pub(crate) fn query_fits<EF, D: PolynomialSpace>(
    claims: &[OpeningClaim<'_, EF, Root, D>],
    folds: usize,
    query: &QueryProof<D::Val, EF>,
) -> bool
    ensures { IsTrue result ↔ QueryFits (rounds_in D.coset_of claims.now) folds query.now }
{
    let inputs = query.inputs();
    if inputs.len() != claims.len() {
        return false;
    }
    if query.layers().len() != folds {
        return false;
    }
    for r in 0..claims.len() {
        let claim = &claims[r];
        if !rows_fit::<EF, D>(&claim.1, inputs[r].rows()) {
            return false;
        }
    }
    true
}

/// Whether the opened rows stand at the place of the tree of `2^bits` leaves that has the root.
fn input_leads<F: PrimeField64, H: TreeHash>(
    alloc: Global,
    root: &Root,
    input: &InputOpening<F>,
    bits: usize,
    place: usize,
) -> Result<bool, AllocError>
    ensures { IfOk result (λ leads. IsTrue leads ↔ OpenedRowsLead H.digests
        (element_bytes F.BYTES F.number_of) root.now bits place input.now) }
{
    let bytes = row_bytes(alloc, input.rows())?;
    Ok(is_path_to::<H>(&root.bytes(), bits, place, &bytes, input.path().digests()))
}

/// The first round whose opened rows don't lead to its root.
fn first_input_fault<EF, D, H>(
    alloc: Global,
    claims: &[OpeningClaim<'_, EF, Root, D>],
    inputs: &[InputOpening<D::Val>],
    bits: usize,
    place: usize,
) -> Result<Option<usize>, AllocError>
where
    D: PolynomialSpace<Val: PrimeField64>,
    EF: ExtensionField<D::Val>,
    H: TreeHash,
    ensures { IfOk result (FindsInputFault ⟦<EF as FoldingFields<D::Val>>⟧.folding H.digests
        bits place (rounds_in D.coset_of claims.now) inputs.now) }
{
    for r in 0..claims.len().min(inputs.len()) {
        let claim = &claims[r];
        let leads = input_leads::<D::Val, H>(alloc, claim.0, &inputs[r], bits, place)?;
        if !leads {
            return Ok(Some(r));
        }
    }
    Ok(None)
}

/// The point at which the final polynomial is to have the value that a place leads to.
fn last_point<F: TwoAdicField + PrimeField64, EF: ExtensionField<F>>(
    folds: usize,
    bits: usize,
    start: usize,
) -> EF
    requires folds { folds ≤ bits }
    requires within { bits ≤ F.TWO_ADICITY }
    ensures { let fields = ⟦<EF as FoldingFields<F>>⟧.folding in
        result ≡ last_point fields folds (extension_coset fields bits) start }
{
    let mut shift = F::GENERATOR;
    let mut log_size = bits;
    let mut place = start;
    for _fold in 0..folds {
        shift = shift * shift;
        place %= half_size(log_size);
        log_size -= 1;
    }
    EF::from_base(point_at(shift, log_size, place))
}

/// A query's way through the folds from the batched value of its rows, whether or not they lead to
/// the rounds' roots.
pub(crate) fn query_walk<EF, D>(
    alloc: Global,
    replayed: &ReplayedProof<'_, D::Val, EF, D>,
    place: usize,
    query: &QueryProof<D::Val, EF>,
) -> Result<FoldWalk<EF>, AllocError>
where
    D: PolynomialSpace<Val: PrimeField64>,
    EF: ExtensionField<D::Val>,
    requires layers { length query.now.layers ≡ length replayed.now.drawn.now.betas.items }
    requires checkable { IsCheckable ⟦<EF as FoldingFields<D::Val>>⟧.folding D.coset_of
        replayed.now }
    ensures { IfOk result (IsWalkIn ⟦<EF as FoldingFields<D::Val>>⟧.folding D.coset_of
        replayed.now place query.now) }
{
    let claims = replayed.claims;
    let drawn = replayed.drawn;
    let bits = replayed.bits;
    let value = batched_value::<EF, D>(alloc, claims, query.inputs(), drawn.alpha, bits, place)?;
    walk_folds::<D::Val, EF>(alloc, &drawn.betas, query.layers(), bits, place, value)
}

/// Whether the folds lead to the final polynomial's value.
pub(crate) fn ends_well<F: TwoAdicField + PrimeField64, EF: ExtensionField<F>>(
    proof: &FriProof<F, EF>,
    bits: usize,
    place: usize,
    walk: &FoldWalk<EF>,
) -> bool
    requires folds { length proof.now.phases ≤ bits }
    requires within { bits ≤ F.TWO_ADICITY }
    ensures { IsTrue result ↔ EndsAt ⟦<EF as FoldingFields<F>>⟧.folding proof.now bits place
        walk.now }
{
    let point = last_point::<F, EF>(proof.phases().len(), bits, place);
    walk.reached == polynomial_value(proof.final_polynomial(), point)
}

/// The first fault of a query at a place of `2^bits` extended rows: of its shape, then of the
/// rounds' rows, then of the folds' pairs, then of the value at the end. None where it holds.
pub(crate) fn query_fault<EF, D, H>(
    alloc: Global,
    replayed: &ReplayedProof<'_, D::Val, EF, D>,
    place: usize,
    query: &QueryProof<D::Val, EF>,
) -> Result<Option<QueryFault>, AllocError>
where
    D: PolynomialSpace<Val: PrimeField64>,
    EF: ExtensionField<D::Val>,
    H: TreeHash,
    requires { IsCheckable ⟦<EF as FoldingFields<D::Val>>⟧.folding D.coset_of replayed.now }
    ensures { IfOk result (FindsFaultIn ⟦<EF as FoldingFields<D::Val>>⟧.folding D.coset_of
        replayed.now H.digests place query.now) }
{
    let claims = replayed.claims;
    let proof = replayed.proof;
    let bits = replayed.bits;
    let phases = proof.phases();
    if !query_fits::<EF, D>(claims, phases.len(), query) {
        return Ok(Some(QueryFault::Shape));
    }
    let inputs = query.inputs();
    if let Some(round) = first_input_fault::<EF, D, H>(alloc, claims, inputs, bits, place)? {
        return Ok(Some(QueryFault::Input { round }));
    }
    let walk = query_walk::<EF, D>(alloc, replayed, place, query)?;
    let layers = query.layers();
    let fault = first_layer_fault::<D::Val, EF, H>(alloc, phases, bits, layers, &walk.pairs)?;
    if let Some(layer) = fault {
        return Ok(Some(QueryFault::Layer { layer }));
    }
    if !ends_well::<D::Val, EF>(proof, bits, place, &walk) {
        return Ok(Some(QueryFault::Final));
    }
    Ok(None)
}
