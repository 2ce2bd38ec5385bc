//! Commitments in the clear, as far as they are observed.
ghost use Rattle.std.specs.Prelude.{◌≡◌, map};
ghost use Rattle.stark_support.specs.Sponge.{observed_all};
ghost use Rattle.stark_bench.specs.Challenges.{column_elements, commitment_elements, count_elements, matrix_elements};
ghost use Rattle.stark_bench.specs.CommitmentJson.{matrices_list};

use stark_support::{CanObserve, PrimeField64, observe_bytes, observe_slice};
use std::marker::Model;

/// A list of matrices, each a list of columns, each a list of coefficients, the constant first.
#[derive(Debug, Drop)]
pub struct ClearCommitment<F> {
    matrices: Vec<Vec<Vec<F>>>,
}

impl<F> Model for ClearCommitment<F> {
    ghost use Rattle.std.specs.Prelude.{List, map};

    ghost Value = { List (List (List F)) };

    ghost view = { λ c. map (λ matrix. map (λ column. column.items) matrix.items)
        c.matrices.items };
}

impl<F> ClearCommitment<F> {
    /// The commitment to these matrices.
    pub fn new(matrices: Vec<Vec<Vec<F>>>) -> ClearCommitment<F>
        ensures { result ≡ map (λ matrix. map (λ column. column.items) matrix.items)
            matrices.items }
    {
        ClearCommitment { matrices }
    }

    /// The matrices, in order.
    pub fn matrices(&self) -> &[Vec<Vec<F>>]
        ensures { map (λ matrix. map (λ column. column.items) matrix.items) result.now ≡ self.now }
    {
        &self.matrices
    }
}

// A count is its 8 bytes, each as an element.
#[tactic(auto, using(stark_support::specs::SpongeFacts::observed_as_elements), unfolding(stark_support::specs::Seed::number))]
fn observe_count<C: CanObserve<F>, F: PrimeField64>(challenger: &mut C, count: usize)
    ensures { challenger.new ≡ observed_all C.after_observe (count_elements F.of_number count)
        challenger.old }
{
    observe_bytes::<C, F>(challenger, &count.to_be_bytes());
}

#[tactic(auto, using(stark_support::specs::SpongeFacts::observed_append))]
fn observe_column<C: CanObserve<F>, F: PrimeField64>(challenger: &mut C, column: &[F])
    ensures { challenger.new ≡ observed_all C.after_observe (column_elements F.of_number column.now)
        challenger.old }
{
    observe_count::<C, F>(&mut *challenger, column.len());
    observe_slice(challenger, column);
}

#[tactic(auto, using(stark_support::specs::SpongeFacts::observed_append))]
fn observe_matrix<C: CanObserve<F>, F: PrimeField64>(challenger: &mut C, columns: &[Vec<F>])
    ensures { challenger.new ≡ observed_all C.after_observe
        (matrix_elements F.of_number (map (λ column. column.items) columns.now))
        challenger.old }
{
    observe_count::<C, F>(&mut *challenger, columns.len());
    for column in columns {
        observe_column(&mut *challenger, column);
    }
}

/// The number of matrices, then each: its number of columns, then each: its length and its
/// coefficients.
#[tactic(auto, using(stark_support::specs::SpongeFacts::observed_append))]
pub(super) fn observe_matrices<C: CanObserve<F>, F: PrimeField64>(
    challenger: &mut C,
    matrices: &[Vec<Vec<F>>],
)
    ensures { challenger.new ≡ observed_all C.after_observe
        (commitment_elements F.of_number
        (matrices_list matrices.now))
        challenger.old }
{
    observe_count::<C, F>(&mut *challenger, matrices.len());
    for matrix in matrices {
        observe_matrix(&mut *challenger, matrix);
    }
}
