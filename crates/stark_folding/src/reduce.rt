//! Claims of values, batched.
ghost use Rattle.std.specs.Prelude.{◌≡◌};
ghost use Rattle.stark_folding.specs.Laws.{IsApart, ReducesDegree, ReductionsAgree};
ghost use Rattle.stark_folding.specs.Reduce.{reduced_at};

use stark_support::Field;

/// The sum of `(p(x) - v) / (x - z)` over the claims, each times the next power of `alpha`, the
/// first one times 1. A claim is the triple of `p(x)`, the claimed value `v` and its point `z`.
pub fn reduce_claims<F: Field>(alpha: F, x: F, claims: &[(F, F, F)]) -> F
    requires { IsApart x claims.now }
    ensures { result ≡ reduced_at F.ring F.inverse_of alpha x claims.now }
{
    let mut sum = F::ZERO;
    let mut index = claims.len();
    while index > 0 {
        index -= 1;
        let claim = claims[index];
        sum = (claim.0 - claim.1) * (x - claim.2).inverse() + alpha * sum;
    }
    sum
}

/// A law, with no code: of true claims that is the value at `x` of one polynomial, which doesn't
/// depend on `x`, and whose degree is one below that of the columns.
pub fn reductions_agree<F: Field>(_alpha: F)
    ensures same { ReductionsAgree F.ring F.inverse_of _alpha }
    ensures degree { ReducesDegree F.ring F.inverse_of _alpha }
{}
