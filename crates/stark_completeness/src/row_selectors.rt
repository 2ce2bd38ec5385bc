//! The selectors in the rows of a trace.
ghost use Rattle.std.specs.Prelude.{◌≡◌, ◌^◌, ◌<◌, ◌≤◌};
ghost use Rattle.stark_support.specs.Powers.{power, power_sum};
ghost use Rattle.stark_completeness.specs.RowSelectors.{AreDomainSelectors, AreSelectorsIn};

use stark_support::{Field, TwoAdicField};

/// What the selectors of a domain of `height` rows are computed from in each row.
#[derive(Clone, Copy, Debug)]
pub(crate) struct DomainSelectors<F> {
    /// A generator of the domain.
    pub generator: F,
    /// Its inverse.
    pub generator_inverse: F,
    /// The first row's selector in the first row.
    pub first: F,
    /// The last row's in the last one.
    pub last: F,
    /// How many rows there are.
    pub height: usize,
}

/// The values of the selectors in one row.
#[derive(Clone, Copy, Debug)]
pub(crate) struct RowSelectors<F> {
    pub is_first_row: F,
    pub is_last_row: F,
    pub is_transition: F,
}

/// The sum of the powers of `x` with exponents below `count`.
fn sum_of_powers<F: Field>(x: F, count: usize) -> F
    ensures { result ≡ power_sum F.ring x count }
{
    let mut sum = F::ZERO;
    let mut next = F::ONE;
    for _exponent in 0..count {
        sum = next + sum;
        next = x * next;
    }
    sum
}

impl<F: TwoAdicField> DomainSelectors<F> {
    /// Those of the domain of `2^log_height` points. The sums, which are as long as the domain, are
    /// taken once.
    pub(crate) fn new(log_height: usize, height: usize) -> DomainSelectors<F>
        requires within { log_height ≤ F.TWO_ADICITY }
        requires size { height ≡ 2 ^ log_height }
        ensures { AreDomainSelectors F.ring F.inverse_of (F.root log_height) log_height result }
    {
        let generator = F::two_adic_generator(log_height);
        // What Z_H(x)/(x - 1) is at the first row's point, one: the sum of as many ones.
        let ones = sum_of_powers(F::ONE, height);
        DomainSelectors {
            generator,
            generator_inverse: generator.inverse(),
            first: ones,
            // And Z_H(x)/(x - 1/g) at the last row's point, which is 1/g.
            last: generator * ones,
            height,
        }
    }

    /// The selectors at the point of a row, which is the generator to the power of the row's
    /// number.
    pub(crate) fn in_row(&self, log_height: usize, row: usize, point: F) -> RowSelectors<F>
        requires domain { AreDomainSelectors F.ring F.inverse_of (F.root log_height) log_height
            self.now }
        requires within { log_height ≤ F.TWO_ADICITY }
        requires row { row < 2 ^ log_height }
        requires point { point ≡ power F.ring (F.root log_height) row }
        ensures { AreSelectorsIn F.ring F.inverse_of (F.root log_height) log_height row result }
    {
        RowSelectors {
            is_first_row: if row == 0 { self.first } else { F::ZERO },
            is_last_row: if row + 1 == self.height {
                self.last
            } else {
                F::ZERO
            },
            is_transition: point - self.generator_inverse,
        }
    }
}
