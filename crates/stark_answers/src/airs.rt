//! What an AIR declares of itself.

ghost use Rattle.stark_answers.specs.CheckedAir.{CheckedAir, checked_air};

use stark_air::Air;
use stark_support::Field;

/// What an AIR declares of itself, and its constraints, as one record. It has no code.
pub trait DeclaredAir<F> {
    ghost declared: { Self → CheckedAir F };
}

impl<F: Field, A: Air<F>> DeclaredAir<F> for A {
    ghost declared = { λ air. checked_air (A.layout air) (A.main_next_row_columns air)
        (A.periodic_columns air) (A.degree_hint air) (A.constraints air)
        (A.preprocessed_trace air) (A.preprocessed_next_row_columns air) };
}
