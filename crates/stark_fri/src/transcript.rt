//! What is observed before anything is drawn: the parameters, and all that the verifier reads of
//! the claims.
ghost use Rattle.std.specs.Prelude.{◌≡◌, map};
ghost use Rattle.stark_support.specs.Claims.{point_view};
ghost use Rattle.stark_support.specs.Seed.{number};
ghost use Rattle.stark_support.specs.Sponge.{observed_all, observed_bytes};
ghost use Rattle.stark_fri.specs.Claims.{matrix_seen, round_seen};
ghost use Rattle.stark_fri.specs.Transcript.{observed_claims, observed_extension, observed_matrix, observed_parameters, observed_point, observed_round};

use crate::sponge::FriObserving;
use stark_fri_proof::FriParameters;
use stark_merkle::Root;
use stark_support::{
    CanObserve, ExtensionField, MatrixClaim, OpeningClaim, PolynomialSpace, PrimeField64,
    log2_strict_usize, observe_bytes,
};

/// Observes a number as its 8 bytes, the high one first, each as an element.
#[tactic(auto, unfolding(stark_support::specs::Seed::number))]
fn observe_number<C: CanObserve<F>, F: PrimeField64>(challenger: &mut C, n: usize)
    ensures { challenger.new ≡
        observed_bytes C.after_observe F.of_number (number n) challenger.old }
{
    observe_bytes::<C, F>(challenger, &(n as u64).to_be_bytes());
}

/// Observes the parameters, in the order of the struct.
pub fn observe_parameters<C, F: PrimeField64, EF: ExtensionField<F>>(
    challenger: &mut C,
    parameters: &FriParameters,
)
where
    C: CanObserve<F> + CanObserve<Root>,
    ensures { challenger.new ≡ observed_parameters ⟦<C as FriObserving<F, EF>>⟧.observing
        challenger.old parameters.now }
{
    observe_number::<C, F>(&mut *challenger, parameters.log_blowup());
    observe_number::<C, F>(&mut *challenger, parameters.log_final_poly_len());
    observe_number::<C, F>(&mut *challenger, parameters.num_queries());
    observe_number::<C, F>(&mut *challenger, parameters.commit_proof_of_work_bits());
    observe_number::<C, F>(challenger, parameters.query_proof_of_work_bits());
}

/// Observes an element coordinate by coordinate.
fn observe_extension<C, F: PrimeField64, EF: ExtensionField<F>>(challenger: &mut C, x: EF)
where
    C: CanObserve<F> + CanObserve<Root>,
    ensures { challenger.new ≡ observed_extension ⟦<C as FriObserving<F, EF>>⟧.observing
        challenger.old x }
{
    for index in 0..EF::DIMENSION {
        <C as CanObserve<F>>::observe(&mut *challenger, &x.coordinate(index));
    }
}

/// Observes elements in turn.
pub fn observe_values<C, F: PrimeField64, EF: ExtensionField<F>>(challenger: &mut C, values: &[EF])
where
    C: CanObserve<F> + CanObserve<Root>,
    ensures { challenger.new ≡ observed_all
        (observed_extension ⟦<C as FriObserving<F, EF>>⟧.observing) values.now challenger.old }
{
    for value in values {
        observe_extension::<C, F, EF>(&mut *challenger, *value);
    }
}

/// Observes a point, and how many values are claimed there and which.
fn observe_point<C, F: PrimeField64, EF: ExtensionField<F>>(challenger: &mut C, point: &(EF, &[EF]))
where
    C: CanObserve<F> + CanObserve<Root>,
    ensures { challenger.new ≡ observed_point ⟦<C as FriObserving<F, EF>>⟧.observing
        challenger.old (point_view point.now) }
{
    observe_extension::<C, F, EF>(&mut *challenger, point.0);
    observe_number::<C, F>(&mut *challenger, point.1.len());
    observe_values::<C, F, EF>(challenger, point.1);
}

/// The logarithm of the number of a domain's points.
pub(crate) fn log_size_of<D: PolynomialSpace>(domain: &D) -> usize
    ensures { result ≡ (D.coset_of domain.now).log_size }
{
    log2_strict_usize(domain.size())
}

/// Observes a matrix: the logarithm of its height, and how many points it has and which.
fn observe_matrix<C, EF, D>(challenger: &mut C, matrix: &MatrixClaim<'_, EF, D>)
where
    D: PolynomialSpace<Val: PrimeField64>,
    EF: ExtensionField<D::Val>,
    C: CanObserve<D::Val> + CanObserve<Root>,
    ensures { challenger.new ≡ observed_matrix ⟦<C as FriObserving<D::Val, EF>>⟧.observing
        challenger.old (matrix_seen D.coset_of matrix.now) }
{
    observe_number::<C, D::Val>(&mut *challenger, log_size_of::<D>(&matrix.0));
    observe_number::<C, D::Val>(&mut *challenger, matrix.1.len());
    for point in &matrix.1 {
        observe_point::<C, D::Val, EF>(&mut *challenger, point);
    }
}

/// Observes a round: how many matrices it has, the root, and the matrices.
fn observe_round<C, EF, D>(challenger: &mut C, claim: &OpeningClaim<'_, EF, Root, D>)
where
    D: PolynomialSpace<Val: PrimeField64>,
    EF: ExtensionField<D::Val>,
    C: CanObserve<D::Val> + CanObserve<Root>,
    ensures { challenger.new ≡ observed_round ⟦<C as FriObserving<D::Val, EF>>⟧.observing
        challenger.old (round_seen D.coset_of claim.now) }
{
    observe_number::<C, D::Val>(&mut *challenger, claim.1.len());
    <C as CanObserve<Root>>::observe(&mut *challenger, claim.0);
    for matrix in &claim.1 {
        observe_matrix::<C, EF, D>(&mut *challenger, matrix);
    }
}

/// Observes all that the verifier reads of the claims: how many rounds there are, and the rounds.
pub fn observe_claims<C, EF, D>(challenger: &mut C, claims: &[OpeningClaim<'_, EF, Root, D>])
where
    D: PolynomialSpace<Val: PrimeField64>,
    EF: ExtensionField<D::Val>,
    C: CanObserve<D::Val> + CanObserve<Root>,
    ensures { challenger.new ≡ observed_claims ⟦<C as FriObserving<D::Val, EF>>⟧.observing
        challenger.old (map (round_seen D.coset_of) claims.now) }
{
    observe_number::<C, D::Val>(&mut *challenger, claims.len());
    for claim in claims {
        observe_round::<C, EF, D>(&mut *challenger, claim);
    }
}
